//! The place of a script's text at which its fault shows: the token there, what stands before it, and what may stand in its place.
#![tactic(auto)]

mod before;
mod expected;
mod found;
mod laws;

pub use before::{Before, Declared};
pub use expected::{expected_list, is_name, is_operator};
pub use found::{Found, kind_at, rest_of, word_at};
pub use laws::lists_are_whole;
