//! Reads the text of a script: tokens first, then the tree that they spell.
#![tactic(auto)]

mod declarations;
mod procedures;
mod reading;
mod tables;

pub use camac_text_cursor::{Choice, Choices, begins_statement};
pub use camac_tokens::{
    Found, Keyword, Limit, NameKind, Sign, TextCase, TextFault, TextRule, Token, TokenKind,
    TokensLeft, tokens,
};
pub use reading::{parse, parse_expecting};
