//! A crate's controller: its commands, the bits that they set and test, and the lockout of auxiliary controllers.
#![tactic(auto)]

mod command;
mod lock;
mod state;

pub use command::{ControllerOp, controller};
pub use lock::LockState;
pub use state::{CrateState, apply};
