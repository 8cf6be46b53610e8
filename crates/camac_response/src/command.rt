// Whether a command could clear or hide a look-at-me.

ghost use Rattle.std.specs.Prelude.{◌≡◌, ◌<◌, ◌≤◌, ◌-◌, ◌&&◌, nat_eq, nat_le};
ghost use Rattle.std.specs.List.{list_any, range_with_len};
ghost use Rattle.camac_lang.specs.declared.word.CrateCall.TheVariants.{DemandOff, Initialise};
ghost use Rattle.camac_lang.specs.declared.word.LamCall.TheVariants.{Disable};
ghost use Rattle.camac_branch.specs.Address.{address};
ghost use Rattle.camac_branch.specs.Plan.{declared_clears};
ghost use Rattle.camac_commands.specs.Commands.{lies_in};
ghost use Rattle.camac_response.specs.Twice.{count};
ghost use Rattle.camac_response.specs.Reach.{clears_at, could_clear, could_hide, may_call_crate, may_call_lam, may_clear_by_plan, must_clear, spares_at};

use crate::twice::up_to_two;
use camac_branch::Plan;
use camac_check_known::Region;
use camac_commands::Command;
use camac_esone::Address;
use camac_range::Range;
use camac_word::{CrateNo, Function, Station, SubAddress};

/// Whether it could clear the look-at-me at an address: F10 there, what the plan says clears it, Z and C of its crate, F24 there.
pub fn could_clear(plan: &Plan, lam: Address, command: &Command) -> bool
    ensures { result ≡ could_clear plan.now lam command.now }
{
    could_be(command, lam, 10)
        || may_clear_by_plan(plan, lam, command)
        || sends_z(lam, command)
        || could_be(command, in_crate(lam, 28, 9), 26)
        || disables(lam, command)
}

/// Whether it could hide the look-at-me at an address: F24 there, Z of its crate, the demand output of its crate turned off.
pub fn could_hide(lam: Address, command: &Command) -> bool
    ensures { result ≡ could_hide lam command.now }
{
    disables(lam, command) || sends_z(lam, command) || turns_demand_off(lam, command)
}

/// Whether it clears the look-at-me at an address at whatever address it is made.
pub fn must_clear(plan: &Plan, lam: Address, command: &Command) -> bool
    ensures { result ≡ must_clear plan.now lam command.now }
{
    must_be_at(lam, command.region)
        && command.region.sub_addresses().hi() < 16
        && !spares_from(plan, lam, command, 0)
}

fn must_be_at(lam: Address, region: Region) -> bool
    ensures { result ≡ ((nat_eq region.crates.lo lam.crate_no && nat_eq region.crates.hi lam.crate_no) && (nat_eq region.stations.lo lam.station && nat_eq region.stations.hi lam.station)) }
{
    is_only(region.crates(), lam.c) && is_only(region.stations(), lam.n)
}

fn is_only(range: Range, number: u32) -> bool
    ensures { result ≡ (nat_eq range.lo number && nat_eq range.hi number) }
{
    range.lo() == number && range.hi() == number
}

// From this sub-address on.
#[tactic(auto, using(crate::proofs::Harmless::any_next, crate::proofs::Harmless::any_none))]
fn spares_from(plan: &Plan, lam: Address, command: &Command, a: u32) -> bool
    requires { a ≤ 16 }
    ensures { result ≡ list_any (spares_at plan.now lam command.now) (range_with_len a (16 - a)) }
{
    a < 16 && (spares_at(plan, lam, command, a) || spares_from(plan, lam, command, a + 1))
}

fn spares_at(plan: &Plan, lam: Address, command: &Command, a: u32) -> bool
    requires { a < 16 }
    ensures { result ≡ spares_at plan.now lam command.now a }
{
    has(command.region.sub_addresses(), a)
        && !(command.function.get() == 10 && lam.a == a
            || declared_clears(plan, lam, a, command.function))
}

fn disables(lam: Address, command: &Command) -> bool
    ensures { result ≡ may_call_lam Disable lam command.now }
{
    could_be(command, lam, 24)
}

fn sends_z(lam: Address, command: &Command) -> bool
    ensures { result ≡ may_call_crate Initialise lam command.now }
{
    could_be(command, in_crate(lam, 28, 8), 26)
}

fn turns_demand_off(lam: Address, command: &Command) -> bool
    ensures { result ≡ may_call_crate DemandOff lam command.now }
{
    could_be(command, in_crate(lam, 30, 10), 24)
}

// The address of a crate's controller.
fn in_crate(lam: Address, n: u32, a: u32) -> Address
    ensures { result ≡ address lam.crate_no n a }
{
    Address { c: lam.c, n, a }
}

fn could_be(command: &Command, at: Address, function: u32) -> bool
    ensures { result ≡ (nat_eq command.now.function function && lies_in command.now.region at) }
{
    command.function.get() == function && lies_in(command.region, at)
}

fn lies_in(region: Region, at: Address) -> bool
    ensures { result ≡ lies_in region at }
{
    has(region.crates(), at.c)
        && (has(region.stations(), at.n) && has(region.sub_addresses(), at.a))
}

fn has(range: Range, number: u32) -> bool
    ensures { result ≡ (nat_le range.lo number && nat_le number range.hi) }
{
    range.lo() <= number && number <= range.hi()
}

fn may_clear_by_plan(plan: &Plan, lam: Address, command: &Command) -> bool
    ensures { result ≡ may_clear_by_plan plan.now lam command.now }
{
    may_be_at(lam, command.region) && clears_from(plan, lam, command, 0)
}

// From this sub-address on.
#[tactic(auto, using(crate::proofs::Harmless::any_next, crate::proofs::Harmless::any_none))]
fn clears_from(plan: &Plan, lam: Address, command: &Command, a: u32) -> bool
    requires { a ≤ 16 }
    ensures { result ≡ list_any (clears_at plan.now lam command.now) (range_with_len a (16 - a)) }
{
    a < 16 && (clears_at(plan, lam, command, a) || clears_from(plan, lam, command, a + 1))
}

/// How many of its sub-addresses, from this one on, the plan lets clear it at its station, up to two.
#[tactic(auto, using(crate::proofs::Harmless::count_next, crate::proofs::Harmless::count_none))]
pub fn places_of(plan: &Plan, lam: Address, command: &Command, a: u32) -> u32
    requires { a ≤ 16 }
    ensures { result ≡ count (clears_at plan.now lam command.now) (range_with_len a (16 - a)) }
{
    if a < 16 {
        let here = u32::from(clears_at(plan, lam, command, a));
        up_to_two(here, places_of(plan, lam, command, a + 1))
    } else {
        0
    }
}

fn may_be_at(lam: Address, region: Region) -> bool
    ensures { result ≡ ((nat_le region.crates.lo lam.crate_no && nat_le lam.crate_no region.crates.hi) && (nat_le region.stations.lo lam.station && nat_le lam.station region.stations.hi)) }
{
    has(region.crates(), lam.c) && has(region.stations(), lam.n)
}

fn clears_at(plan: &Plan, lam: Address, command: &Command, a: u32) -> bool
    requires { a < 16 }
    ensures { result ≡ clears_at plan.now lam command.now a }
{
    has(command.region.sub_addresses(), a) && declared_clears(plan, lam, a, command.function)
}

// Whether the plan says it of a sub-address at the station of a look-at-me.
#[tactic(auto, using(crate::proofs::Harmless::no_crate_clears, crate::proofs::Harmless::no_station_clears))]
fn declared_clears(plan: &Plan, lam: Address, a: u32, function: Function) -> bool
    requires { a < 16 }
    ensures { result ≡ declared_clears plan.now lam.crate_no lam.station a function }
{
    plan.is_plan();
    let Some(c) = CrateNo::new(lam.c) else {
        return false;
    };
    let Some(n) = Station::new(lam.n) else {
        return false;
    };
    match SubAddress::new(a) {
        Some(a) => plan.clears(c, n, a, function),
        None => false,
    }
}
