// Which addresses of a region are installed, and how wide a command is there.

ghost use Rattle.std.specs.Prelude.{◌≡◌, ◌<◌, ◌≤◌, ◌-◌, Some, true, is_some, unwrap_or, IfOk, IfSome};
ghost use Rattle.camac_branch.specs.Plan.{IsPlan, crate_waits};
ghost use Rattle.camac_rules.specs.Walks.{count_below, first_failing, greatest_from};
ghost use Rattle.camac_rules.specs.Addresses.{crate_end, station_end, in_plan, is_station, all_in, are_stations_in, are_stations, station_widths, crate_widths, region_widths, missing, undeclared, command_widths, waits_in, cycle_cost};
ghost use Rattle.camac_rules.specs.Refusal.{required, given};
ghost use Rattle.camac_rules.specs.declared.rule.CheckRule.TheVariants.{StationNotInstalled, CommandNotDeclared};
ghost use Rattle.camac_rules.specs.Calls.{is_crate};
ghost use Rattle.camac_check_known.specs.Gives.{Gives};

use crate::around::Around;
use crate::fault::CheckFault;
use crate::known::Region;
use crate::missing::{missing, undeclared};
use crate::walk::{end_of, first_failing, hull_from};
use camac_branch::Plan;
use camac_lang::Spot;
use camac_range::Range;
use camac_rules::CheckRule;
use camac_word::{CrateNo, Function, Station, SubAddress};

/// One above the greatest number of a crate, of a station with those of the crate controller, and of a sub-address.
pub(crate) const CRATE_END: u32 = 8;

pub const STATION_END: u32 = 32;

pub(crate) const SUB_ADDRESS_END: u32 = 16;

/// The least and the greatest width of a command at the addresses of a region. E1 where one of them is not installed, and else E2 where one
/// does not declare the command.
#[tactic(auto, unfolding(camac_rules::specs::Refusal::go_on))]
pub fn command_widths(plan: &Plan, spot: Spot, f: Function, g: Region) -> Result<Range, CheckFault>
    ensures rule { Gives (λ r. r) result (command_widths plan.now spot f g) }
    ensures in_range { IfOk result (λ r. r.hi ≤ 24) }
{
    match widths_at_station(plan, f, g) {
        Some(widths) => Ok(widths),
        None => walked_widths(plan, spot, f, g),
    }
}

// The same by a walk over the addresses.
#[inline(never)]
#[tactic(auto, unfolding(camac_rules::specs::Refusal::go_on))]
fn walked_widths(plan: &Plan, spot: Spot, f: Function, g: Region) -> Result<Range, CheckFault>
    ensures rule { Gives (λ r. r) result (command_widths plan.now spot f g) }
    ensures in_range { IfOk result (λ r. r.hi ≤ 24) }
{
    plan.allows_commands();
    installed(plan, spot, g)?;
    declared_widths(plan, spot, f, g)
}

// The same where the region has one station alone, as most have, and nothing is refused: no walk is needed.
#[tactic(auto, using(crate::proofs::Walks::installed_at, crate::proofs::Walks::widths_at))]
fn widths_at_station(plan: &Plan, f: Function, g: Region) -> Option<Range>
    ensures installed { IfSome result (λ r. are_stations plan.now g ≡ true) }
    ensures widths { IfSome result (λ r. region_widths plan.now f g ≡ Some r) }
    ensures in_range { IfSome result (λ r. r.hi ≤ 24) }
{
    let crate_no = CrateNo::new(only_in(g.crates())?)?;
    let station = only_in(g.stations())?;
    if station < STATION_END
        && plan.waits(crate_no).is_some()
        && is_station(plan, crate_no, station)
    {
        plan.allows_commands();
        station_widths(plan, f, g.sub_addresses(), crate_no, station)
    } else {
        None
    }
}

// The number of a range that has one alone.
fn only_in(range: Range) -> Option<u32>
    ensures low { IfSome result (λ n. n ≡ range.lo) }
    ensures high { IfSome result (λ n. n ≡ range.hi) }
{
    if range.lo() == range.hi() {
        Some(range.lo())
    } else {
        None
    }
}

// Refuses where a station of the region is not installed.
#[tactic(auto, unfolding(camac_rules::specs::Refusal::required))]
fn installed(plan: &Plan, spot: Spot, g: Region) -> Result<(), CheckFault>
    ensures { Gives (λ u. tt) result (required (are_stations plan.now g) StationNotInstalled spot (missing plan.now g)) }
{
    if are_stations(plan, g) {
        return Ok(());
    }
    Err(CheckFault::broken(CheckRule::StationNotInstalled, spot, missing(plan, g)))
}

// Refuses where an address of the region has not the command.
#[tactic(auto, unfolding(camac_rules::specs::Refusal::given))]
fn declared_widths(plan: &Plan, spot: Spot, f: Function, g: Region) -> Result<Range, CheckFault>
    ensures { Gives (λ r. r) result (given (region_widths plan.now f g) CommandNotDeclared spot (undeclared plan.now f g)) }
{
    match region_widths(plan, f, g) {
        Some(widths) => Ok(widths),
        None => Err(CheckFault::broken(
            CheckRule::CommandNotDeclared,
            spot,
            undeclared(plan, f, g),
        )),
    }
}

/// The most that one cycle in some crate of a range costs, with those of auxiliary controllers before it.
pub fn cycle_cost(plan: &Plan, around: &Around, crates: Range) -> u64
    ensures { result ≡ cycle_cost plan.now around.now.locked crates }
{
    1 + u64::from(waits_from(plan, around, crates.lo(), end_of(crates.hi(), CRATE_END)))
}

/// Whether a range is one number, which is that of a crate of the plan.
pub fn is_crate(plan: &Plan, crates: Range) -> bool
    ensures { result ≡ is_crate plan.now crates }
{
    let c = crates.lo();
    c == crates.hi() && c < CRATE_END && is_in_plan(plan, c)
}

#[tactic(auto, using(crate::proofs::Walks::no_crate))]
pub(crate) fn is_in_plan(plan: &Plan, c: u32) -> bool
    requires { c < 8 }
    ensures { result ≡ in_plan plan.now c }
{
    match CrateNo::new(c) {
        Some(crate_no) => plan.waits(crate_no).is_some(),
        None => false,
    }
}

#[tactic(auto, using(crate::proofs::Walks::all_found))]
fn are_stations(plan: &Plan, g: Region) -> bool
    ensures { result ≡ are_stations plan.now g }
{
    g.crates().hi() < CRATE_END && crate_without(plan, g).is_none()
}

// The first of its crates that has not all of its stations.
pub(crate) fn crate_without(plan: &Plan, g: Region) -> Option<u32>
    ensures { result ≡ first_failing (are_stations_in plan.now g.stations) g.crates.lo (count_below crate_end g.crates) }
{
    let crates = g.crates();
    let stations = g.stations();
    first_failing(crates.lo(), end_of(crates.hi(), CRATE_END), |c| {
        are_stations_in(plan, stations, c)
    })
}

// Whether a crate has all stations of a range.
#[tactic(auto, using(crate::proofs::Walks::not_there, crate::proofs::Walks::all_found))]
fn are_stations_in(plan: &Plan, stations: Range, c: u32) -> bool
    requires { c < 8 }
    ensures { result ≡ are_stations_in plan.now stations c }
{
    let Some(crate_no) = CrateNo::new(c) else {
        return false;
    };
    plan.waits(crate_no).is_some()
        && stations.hi() < STATION_END
        && station_missing(plan, stations, crate_no).is_none()
}

// The first station of a range that a crate has not.
pub(crate) fn station_missing(plan: &Plan, stations: Range, c: CrateNo) -> Option<u32>
    ensures { result ≡ first_failing (is_station plan.now c) stations.lo (count_below station_end stations) }
{
    first_failing(stations.lo(), end_of(stations.hi(), STATION_END), |n| {
        is_station(plan, c, n)
    })
}

/// Whether a station has a module, or the controller answers for it.
pub fn is_station(plan: &Plan, c: CrateNo, n: u32) -> bool
    requires { n < 32 }
    ensures { result ≡ is_station plan.now c n }
{
    match Station::new(n) {
        Some(station) => plan.station(c, station).is_some() || n == 28 || n == 30,
        None => false,
    }
}

fn region_widths(plan: &Plan, f: Function, g: Region) -> Option<Range>
    ensures { result ≡ region_widths plan.now f g }
{
    let crates = g.crates();
    hull_from(crates.lo(), end_of(crates.hi(), CRATE_END), |c| {
        crate_widths(plan, f, g, c)
    })
}

// The widths in a crate.
#[tactic(auto, using(crate::proofs::Walks::no_widths))]
pub(crate) fn crate_widths(plan: &Plan, f: Function, g: Region, c: u32) -> Option<Range>
    requires { c < 8 }
    ensures { result ≡ crate_widths plan.now f g.sub_addresses g.stations c }
{
    let stations = g.stations();
    let crate_no = CrateNo::new(c)?;
    hull_from(stations.lo(), end_of(stations.hi(), STATION_END), |n| {
        station_widths(plan, f, g.sub_addresses(), crate_no, n)
    })
}

/// The least and the greatest width of a command at the sub-addresses of a range, if a station declares it at all of them.
#[tactic(auto, using(crate::proofs::Walks::widths_ordered))]
pub fn station_widths(
    plan: &Plan,
    f: Function,
    sub_addresses: Range,
    c: CrateNo,
    n: u32,
) -> Option<Range>
    requires { n < 32 }
    ensures { result ≡ station_widths plan.now f sub_addresses c n }
{
    if sub_addresses.hi() >= SUB_ADDRESS_END {
        return None;
    }
    let station = Station::new(n)?;
    let first = SubAddress::new(sub_addresses.lo())?;
    let last = SubAddress::new(sub_addresses.hi())?;
    let (least, greatest) = plan.widths(c, station, f, first, last)?;
    Range::new(u32::from(least), u32::from(greatest))
}

// The greatest number of auxiliary cycles before one in some of these crates.
#[tactic(auto, using(crate::proofs::Walks::greatest_steps))]
fn waits_from(plan: &Plan, around: &Around, from: u32, end: u32) -> u8
    requires { end ≤ 8 }
    ensures { result ≡ greatest_from (waits_in plan.now around.now.locked) from (end - from) }
{
    let mut greatest = 0;
    for c in from..end {
        greatest = waits_in(plan, around, c).max(greatest);
    }
    greatest
}

// The auxiliary cycles that may come before one in a crate.
fn waits_in(plan: &Plan, around: &Around, c: u32) -> u8
    ensures { result ≡ waits_in plan.now around.now.locked c }
{
    if around.is_locked(c) {
        return 0;
    }
    waits_of(plan, c)
}

/// The auxiliary cycles that a crate's lock, or a cycle there, may wait for; 0 where there is no such crate.
#[tactic(auto, using(crate::proofs::Walks::none_outside))]
pub fn waits_of(plan: &Plan, c: u32) -> u8
    ensures { result ≡ unwrap_or (crate_waits plan.now c) 0 }
{
    plan.is_plan();
    match CrateNo::new(c) {
        Some(crate_no) => plan.waits(crate_no).unwrap_or(0),
        None => 0,
    }
}
