//! The commands that each service of a script may make, by what the checker knows where each statement begins. All is own.
#![tactic(auto)]

mod command;
mod commands;
pub mod laws;

pub use command::{Command, made_alone, told_region};
pub use commands::{behind_first, detail_told};
