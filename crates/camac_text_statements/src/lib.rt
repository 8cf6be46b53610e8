//! Reads the statements of a script, and the blocks that hold them.
// A crate of its own, so that declarations, procedures and services change without a proof of all statements.
#![tactic(auto)]

mod actions;
mod calls;
mod nesting;
mod statements;
mod transfers;

pub use statements::block;
