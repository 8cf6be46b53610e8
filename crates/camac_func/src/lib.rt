//! The 32 functions of a CAMAC command: their classes, their names, and the moves of data that fit them.
#![tactic(auto)]

mod code;
mod data;

pub use code::{FunctionClass, class, name};
pub use data::{DataMove, fits};
