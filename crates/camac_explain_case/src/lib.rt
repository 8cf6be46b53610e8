//! What is told of a refused statement beside its rule: where its address was set, where the plan has its function, whether cycles wait.
#![tactic(auto)]

mod address;
mod case;
pub mod laws;

pub use case::push_case;
