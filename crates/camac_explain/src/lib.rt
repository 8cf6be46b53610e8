//! Why a plan or a script is refused: the source line, a sentence of the case that the rule told, why the rule is there, and what to do.
#![tactic(auto)]

mod explanation;
mod finding;
mod names;
mod sentence;
mod source;
mod texts;

pub use explanation::{explain_fault, explain_plan, explain_script};
pub use finding::Finding;
pub use sentence::script_sentence;
pub use source::column_of;
