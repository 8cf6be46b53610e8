// The first address of a region that is not installed, or has not the command.

ghost use Rattle.std.specs.Prelude.{◌≡◌, is_some};
ghost use Rattle.camac_range.specs.Interval.{interval};
ghost use Rattle.camac_rules.specs.Walks.{count_below, first_failing};
ghost use Rattle.camac_rules.specs.Addresses.{crate_end, station_end, station_widths, crate_widths, not_installed, missing_in, missing, undeclared_at, undeclared_in, undeclared};

use crate::address::{
    CRATE_END, STATION_END, SUB_ADDRESS_END, crate_widths, crate_without, is_in_plan,
    station_missing, station_widths,
};
use crate::known::Region;
use crate::walk::{end_of, first_failing};
use camac_branch::Plan;
use camac_range::Range;
use camac_rules::Case;
use camac_word::{CrateNo, Function};

/// A station that is not installed, for any numbers: its crate is not in the plan, or it has no module.
pub fn not_installed(plan: &Plan, c: u32, n: u32) -> Case
    ensures { result ≡ not_installed plan.now c n }
{
    if c < CRATE_END && is_in_plan(plan, c) {
        Case::NoModule {
            crate_no: c,
            station: n,
        }
    } else {
        Case::NoCrate { crate_no: c }
    }
}

// What is missing at these stations of a crate.
#[tactic(auto, using(crate::proofs::Walks::no_crate))]
fn missing_in(plan: &Plan, stations: Range, c: u32) -> Case
    ensures { result ≡ missing_in plan.now stations c }
{
    let Some(crate_no) = CrateNo::new(c) else {
        return Case::NoCrate { crate_no: c };
    };
    let first = station_missing(plan, stations, crate_no);
    not_installed(plan, c, first.unwrap_or(stations.lo().max(STATION_END)))
}

/// The first station of a region that is not installed.
pub fn missing(plan: &Plan, g: Region) -> Case
    ensures { result ≡ missing plan.now g }
{
    let past = g.crates().lo().max(CRATE_END);
    missing_in(plan, g.stations(), crate_without(plan, g).unwrap_or(past))
}

/// Whether a station declares a command at all these sub-addresses, for any numbers.
#[tactic(auto, using(crate::proofs::Walks::none_declared))]
pub fn is_declared(plan: &Plan, f: Function, sub_addresses: Range, c: u32, n: u32) -> bool
    ensures { result ≡ is_some (station_widths plan.now f sub_addresses c n) }
{
    plan.allows_commands();
    if n >= STATION_END {
        return false;
    }
    match CrateNo::new(c) {
        Some(crate_no) => station_widths(plan, f, sub_addresses, crate_no, n).is_some(),
        None => false,
    }
}

/// The first sub-address of a station, from one to another, that has not the command.
pub fn undeclared_at(plan: &Plan, f: Function, first: u32, last: u32, c: u32, n: u32) -> Case
    ensures { result ≡ undeclared_at plan.now f (interval first last) c n }
{
    let end = end_of(last, SUB_ADDRESS_END);
    let found = first_failing(first, end, |a| is_declared(plan, f, Range::only(a), c, n));
    Case::NoCommand {
        function: f.get(),
        crate_no: c,
        station: n,
        sub_address: found.unwrap_or(first.max(SUB_ADDRESS_END)),
    }
}

// The first of these stations that does not declare the command at all the sub-addresses.
fn station_without(
    plan: &Plan,
    f: Function,
    sub_addresses: Range,
    stations: Range,
    c: u32,
) -> Option<u32>
    ensures { result ≡ first_failing (λ m. is_some (station_widths plan.now f sub_addresses c m)) stations.lo (count_below station_end stations) }
{
    first_failing(stations.lo(), end_of(stations.hi(), STATION_END), |n| {
        is_declared(plan, f, sub_addresses, c, n)
    })
}

// The first address of these stations that has not the command.
fn undeclared_in(plan: &Plan, f: Function, sub_addresses: Range, stations: Range, c: u32) -> Case
    ensures { result ≡ undeclared_in plan.now f sub_addresses stations c }
{
    let first = station_without(plan, f, sub_addresses, stations, c);
    let n = first.unwrap_or(stations.lo().max(STATION_END));
    undeclared_at(plan, f, sub_addresses.lo(), sub_addresses.hi(), c, n)
}

// The first of its crates that does not declare the command at all of a region.
fn crate_undeclared(plan: &Plan, f: Function, g: Region) -> Option<u32>
    ensures { result ≡ first_failing (λ d. is_some (crate_widths plan.now f g.sub_addresses g.stations d)) g.crates.lo (count_below crate_end g.crates) }
{
    let crates = g.crates();
    first_failing(crates.lo(), end_of(crates.hi(), CRATE_END), |c| {
        crate_widths(plan, f, g, c).is_some()
    })
}

/// The first address of a region that has not the command.
pub fn undeclared(plan: &Plan, f: Function, g: Region) -> Case
    ensures { result ≡ undeclared plan.now f g }
{
    let crates = g.crates();
    let first = crate_undeclared(plan, f, g);
    let c = first.unwrap_or(crates.lo().max(CRATE_END));
    undeclared_in(plan, f, g.sub_addresses(), g.stations(), c)
}
