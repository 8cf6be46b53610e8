//! The state in which a script's tokens are read: what is left of them, and what is declared so far.
// A crate of its own, so that a change of what the grammar reads does not prove anew what is declared so far.
#![tactic(auto)]

mod choice;
mod counting;
mod cursor;
mod declaring;
mod names;
mod naming;

pub use choice::{Choice, Choices, begins_statement};
pub use cursor::Parser;
