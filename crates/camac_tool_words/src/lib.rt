//! The words of the program's command line, and the job that they name.
// A crate of its own, since it stands on `clap` alone and is proved beside all others.
#![tactic(auto)]

mod command;
mod texts;
mod words;

pub use command::setting_error;
pub use words::{Job, JobFault, read_words};
