//! The machine of a service in progress: its open blocks, its store, and what it wants an answer for, in fixed memory.
// A crate of its own, since its proof is the longest of all: what runs it changes without that.
#![tactic(auto)]

mod arguments;
mod command;
mod condition;
mod item;
mod machine;
mod scope;
mod transfer;
mod value;

pub use item::Item;
pub use machine::{Frame, Machine, NO_PAUSE, Owner, Pending, TransferCycle};
pub use scope::{Places, Scope};
pub use transfer::Course;
