//! Reads the expressions, the conditions and the kept ranges of a script.
// A crate of its own, so that a change of statements does not prove expressions and conditions anew.
#![tactic(auto)]

mod calling;
mod conditions;
mod expressions;
mod keeping;

pub use calling::arguments;
pub use conditions::condition;
pub use expressions::expression;
pub use keeping::{Own, keeps};
