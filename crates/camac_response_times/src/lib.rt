//! How long a look-at-me waits for its service at told rates: the numbers of `camac response`, found from bits, bounds and rates alone.
#![tactic(auto)]

pub mod laws;
mod responses;
mod search;
mod setting;
mod source;

pub use responses::Responses;
pub use search::{MOST_ROUNDS, Response, response_of};
pub use setting::{Misuse, Setting, SettingOption, Settings, read_settings, told_for};
pub use source::{Rate, Source};
