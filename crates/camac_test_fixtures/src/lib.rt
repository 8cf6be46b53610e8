//! What the tests of several crates share: readers and writers that fail, and the texts of several worked rows.
#![tactic(auto)]

pub mod fakes;
pub mod once;
pub mod texts;
