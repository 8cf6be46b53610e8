//! The engines of a run: from a plan, a script and answers to a listing or to requests, and to an event file.
#![tactic(auto)]

mod running;

pub use running::{engine_drive, engine_run, run_over};
