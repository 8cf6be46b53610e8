//! Reads a crate plan from TOML.
#![tactic(auto)]

mod command;
mod crates;
mod document;
mod fault;
mod field;
mod key;
mod laws;
mod module_type;
mod nesting;
mod station;

pub use document::read;
pub use fault::{PlanCase, PlanFault, PlanRule, PlanTable, ValueKind};
pub use key::{PlanKey, keys_of};
pub use laws::twice_are_shown;
