//! The event file in both its versions (own): what a list of events is, its one spelling in bytes, and its reader.
#![tactic(auto)]

mod buffer;
mod decoding;
mod event;
mod fault;
mod file;
mod laws;
mod reading;
mod writing;

pub use buffer::EventBuffer;
pub use decoding::decode;
pub use event::{Event, Events, Usage, Version};
pub use fault::{EventFault, EventFlaw, EventRule};
pub use file::{EventFile, EventRecord, EventRecords, EventWords};
pub use laws::{spelling_is_one, spelling_reads_back};
pub use writing::{TextWriter, encode, write_header, write_record};
