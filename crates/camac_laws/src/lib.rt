//! Laws on which no crate stands.
//!
//! Of the least headings of a script: they are there wherever some headings are accepted, and no number of them is greater. Of calls: in
//! every run of an accepted script each has its arguments in the ranges of the heading. Of refusals: what a case shows of the script. Of the
//! rules on addresses and scans: what they come to, in the subject's words. Of costs: the shares of a body's rows add up to its bound. Of the
//! sample plan: it is that of the worked rows.
#![tactic(auto)]

mod laws;
mod sample;
mod statements;

pub use laws::{
    accepted_calls_keep, arguments_are_shown, calls_keep_to_ranges, checked_have_least,
    commands_are_judged, conditions_are_shown, cost_is_greatest, costs_grow, expressions_are_shown,
    for_turns_are_shown, guards_only_stop, guards_stop, headings_are_shown, kept_are_shown,
    least_are_least, missing_are_shown, missing_over_are_shown, parts_are_shown, reads_are_all,
    refused_at_places, refused_have_none, registers_have_addresses, scans_are_judged,
    stations_are_all, undeclared_are_shown, undeclared_over_are_shown, values_are_fit,
    while_turns_are_shown, widths_are_all, windows_are_between,
};
pub use sample::sample_text_is_read;
pub use statements::{
    commands_are_listed, costs_are_bounds, rows_are_of_runs, shares_add_up, times_in_steps,
};
