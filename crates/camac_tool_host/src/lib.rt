//! The system as the program sees it, and the readers and writers of a run.
// What needs no engine stands here, so that it is proved beside the engines.
#![tactic(auto)]

mod ahead;
mod answer_line;
mod device;
mod files;
mod gathered;
mod host;
mod live;
mod streams;
mod system;

pub use answer_line::AnswerLine;
pub use device::{Device, Whole};
pub use gathered::Gathered;
pub use host::{Earlier, FileId, Host, RunWords};
pub use live::Live;
pub use streams::Streams;
