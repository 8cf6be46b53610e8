//! The program: from its words, its inputs and its outputs to its exit status.
#![tactic(auto)]

mod devices;
mod failure;
mod input;
mod launch;
pub mod laws;
mod program;
mod target;

pub use camac_tool_host::Device;
pub use camac_tool_words::{Job, JobFault, read_words};
pub use devices::{Ran, run_on_devices};
pub use launch::{ArgumentsFault, arguments};
pub use program::{exit_status, unread_status};
