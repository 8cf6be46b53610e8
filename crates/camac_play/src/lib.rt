//! Plays a script against the text of its answers, or live, and writes what it tells and its event file while it runs.
// A crate of its own, so that the program's command line changes without the proof of the loop that plays.
#![tactic(auto)]

mod ending;
mod fault;
mod feeding;
mod laws;
mod next;
mod playing;
mod run_io;
mod telling;

pub use ending::Ending;
pub use fault::PlayFault;
pub use laws::{abandoned_services_are_left, event_file_is_sent, sizes_are_of_statements};
pub use playing::play_over;
pub use run_io::{Borrowed, RunIo};
pub use telling::Telling;
