//! What the checker knows where a statement begins, and what follows for expressions, conditions and addresses. All rules are own.
// A crate of its own, so that a change of a statement's rule does not prove ranges and conditions anew.
#![tactic(auto)]

mod address;
mod around;
mod condition;
mod cost;
mod expression;
mod fault;
mod joined;
mod known;
mod missing;
mod walk;

pub use address::{
    STATION_END, command_widths, cycle_cost, is_crate, is_station, station_widths, waits_of,
};
pub use around::Around;
pub use condition::{Branches, sole_variable, split};
pub use cost::Costs;
pub use expression::range_of;
pub use fault::{CheckFault, numbers_of, required};
pub use joined::join;
pub use known::{Facts, Region, between, range_in};
pub use missing::{is_declared, not_installed, undeclared_at};
pub use walk::{end_of, first_failing};
