//! The lines that the program prints: verdicts, headings, refusals, plans, event files, and the items and the end of a run.
// What needs no runner stands in camac_lines, so that it is proved beside the runner, whose proof is the longest, and not after it.
#![tactic(auto)]

mod end;
mod item;
mod request;

pub use camac_lines::{
    Code, LONGEST_LINE, Line, Refusal, lam_name, refusal_line, write_event_file, write_headings,
    write_plan, write_plan_with_commands, write_refusal, write_verdict,
};
pub use end::end_line;
pub use item::{abandoned_line, items_in, write_items};
pub use request::{request_line, unlocks_line};
