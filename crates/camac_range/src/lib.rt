//! Ranges of whole numbers from 0 to `u32::MAX`, which bound what a script computes, and the comparisons between numbers. All rules are own.
#![tactic(auto)]

mod comparison;
pub mod laws;
mod narrowing;
mod range;

pub use comparison::Cmp;
pub use narrowing::narrow;
pub use range::Range;
