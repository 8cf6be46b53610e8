//! The checker: whether a linked script is accepted, and within which bounds each of its services stays. All rules are own.
#![tactic(auto)]

mod accept;
mod fault;
mod headings;
mod judge;
pub mod laws;
mod procedure;
mod refused;
mod statement;

pub use camac_check_known::CheckFault;
pub use camac_check_simple::{Context, Findings};
pub use camac_rules::{Bounds, CheckRule, Checked};
pub use fault::LeastFault;
pub use headings::least;
pub use judge::check;
pub use procedure::at_entry;
pub use refused::refusals;
pub use statement::{accept_block, accept_next};
