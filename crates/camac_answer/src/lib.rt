//! Answers of a branch, read from a text line by line.
#![tactic(auto)]

mod answers;
mod fault;
mod filling;
mod given;
mod line;

pub use answers::{FILE_ANSWERS, LIVE_ANSWERS, answers_are_few, judge, judged_by};
pub use fault::{AnswerFault, AnswerRule};
pub use filling::{ABANDON, LINE, ReadFailed, TextReader, fill};
pub use given::Given;
