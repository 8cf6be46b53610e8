//! A sentence: a text that stands here once, and the words, names and numbers that are put into its gaps.
#![tactic(auto)]

mod gaps;
mod part;

pub use gaps::fill;
pub use part::Part;
