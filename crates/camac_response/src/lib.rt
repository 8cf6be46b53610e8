//! How long a look-at-me of a checked script waits for its service, at told rates: what `camac response` prints, and the laws on every run.
#![tactic(auto)]

mod bodies;
mod clears;
mod command;
mod kept;
pub mod laws;
mod least;
mod lines;
mod of_checked;
mod twice;
mod unkept;

pub use camac_response_times::{
    MOST_ROUNDS, Misuse, Rate, Response, Responses, Setting, SettingOption, Settings, Source,
    read_settings, response_of, told_for,
};
pub use kept::are_kept;
pub use lines::{write_responses, write_unkept};
pub use of_checked::{no_service, sources_of};
pub use twice::twice_of;
pub use unkept::{Unkept, Why, unkept_of};
