//! The lines of verdicts, headings, refusals, plans and event files.
// A crate of its own beside the runner, whose proof is the longest, so that both are proved at once.
#![tactic(auto)]

mod bytes;
mod code;
mod commands;
mod cycle;
mod digits;
mod events;
mod headings;
mod line;
mod plan;
mod refusal;
mod verdict;
mod word;

pub use bytes::{bytes_in, small_in, text_in};
pub use code::Code;
pub use cycle::cycle_in;
pub use digits::hex_word;
pub use events::write_event_file;
pub use headings::write_headings;
pub use line::{LONGEST_LINE, Line};
pub use plan::{write_plan, write_plan_with_commands};
pub use refusal::{Refusal, refusal_line, refusal_line_at, write_refusal};
pub use verdict::{lam_name, write_verdict};
pub use word::{Quote, before_item, is_near};
