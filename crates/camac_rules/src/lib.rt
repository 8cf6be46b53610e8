//! When a readout script is accepted for a plan and within which bounds, and why what is accepted runs safely; and the type of what is accepted.
//! All rules are own.
// A crate of its own below the code, so that the soundness of the rules is proved once, whatever the code becomes. What the checker hands out is
// beside the rules, since the runner and the reports need what is true of it, and not how it is found.
#![tactic(auto)]

mod case;
mod checked;
mod fits;
pub mod laws;
mod rule;

pub use case::{Body, Case, Numbers, Operator};
pub use checked::{Bounds, Checked};
pub use rule::CheckRule;
