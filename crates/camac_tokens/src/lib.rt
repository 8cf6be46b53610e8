//! Cuts the text of a script into tokens.
// A crate of its own, so that a change of the grammar does not prove the cutting of tokens anew.
#![tactic(auto)]

mod bytes;
mod fault;
mod first;
pub mod laws;
mod left;
mod scanner;
mod signs;
mod token;
mod words;

pub use bytes::are_same;
pub use fault::{Found, Limit, NameKind, TextCase, TextFault, TextRule};
pub use left::{TokensLeft, end_of};
pub use scanner::tokens;
pub use signs::SIGNS;
pub use token::{Keyword, Sign, Token, TokenKind};
pub use words::KEYWORDS;
