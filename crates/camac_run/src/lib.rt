//! Runs an accepted script: the runner, an answer at a time in fixed memory; and a run over a whole list of answers, with all that it tells,
//! and what is promised of it and of its event file.
#![tactic(auto)]

mod ahead;
mod back;
mod blocks;
mod items;
mod laws;
mod leaving;
mod list;
mod log;
mod member;
mod place;
mod progress;
mod runner;
mod service;
mod size;
mod sure;
mod transfer;

pub use ahead::service_ahead;
pub use back::Back;
pub use camac_machine::Item;
pub use items::Items;
pub use laws::{
    abandoning_holds, ahead_is_made, known_is_so, requests_are_safe, runner_holds_the_rest,
    runs_by_headline, setting_back_holds, transfers_go_on, waits_decide,
};
pub use list::{AHEAD, Ahead, Coming};
pub use log::{Log, run};
pub use member::Member;
pub use place::Place;
pub use progress::{End, Progress, Used, Wanted};
pub use runner::{FullRunner, Runner};
pub use transfer::{ReadBlock, TransferLeft, TransferMode};
