// What the text of a statement tells of its row.

ghost use Rattle.std.specs.Prelude.{◌≡◌, ◌<◌, ◌+◌, ◌-◌, ◌^◌, IfOk, option_map};
ghost use Rattle.camac_lang.specs.Tree.{spot_of};
ghost use Rattle.camac_lang.specs.View.{action_of, expression_of};
ghost use Rattle.camac_range.specs.Interval.{only};
ghost use Rattle.camac_check_simple.specs.Gives.{by_code};
ghost use Rattle.camac_rules.specs.Costs.{costs, no_costs};
ghost use Rattle.camac_check_rows.specs.Rows.{times_at};
ghost use Rattle.camac_check_rows.specs.Statements.{at_region, between, crate_detail, crate_kind, detail_of, first_row, kind_of, known_region, lam_kind, single_kind};

use crate::row::{Detail, Kind, Row};
use camac_check_known::{CheckFault, Costs, Facts, Region, range_of};
use camac_check_simple::{Context, lam_region};
use camac_lang::{Action, CrateCall, Expr, LamCall, Spot, WordSize};
use camac_range::Range;
use std::alloc::AllocError;

// The row of a statement at this spot, before it is counted how often its block is.
fn own_row(spot: Spot, kind: Kind, times: u64, each: Costs, share: Costs, detail: Detail) -> Row
    ensures { result ≡ first_row spot kind times each share detail }
{
    Row {
        spot,
        depth: 1,
        kind,
        times,
        each,
        share,
        detail,
    }
}

/// The row of an action: its share is all that it can cost.
pub fn action_row(action: &Action, times: u64, each: Costs, detail: Detail) -> Row
    ensures { result ≡ first_row (spot_of (action_of action.now)) (kind_of (action_of action.now)) times each each detail }
{
    own_row(action.spot(), kind_of(action), times, each, each, detail)
}

/// The row of a statement at this spot that holds blocks and can't be reached: all of its numbers are 0.
pub fn unreached_row(spot: Spot, kind: Kind) -> Row
    ensures { result ≡ first_row spot kind 0 no_costs no_costs Detail.Nothing }
{
    let nothing = Costs::new(0, 0, 0);
    own_row(spot, kind, 0, nothing, nothing, Detail::Nothing)
}

/// The row of an `if` at this spot: its share is a step.
pub fn if_row(spot: Spot, each: Costs) -> Row
    ensures { result ≡ first_row spot Kind.If 1 each (costs 0 0 1) Detail.Nothing }
{
    let step = Costs::new(0, 0, 1);
    own_row(spot, Kind::If, 1, each, step, Detail::Nothing)
}

/// The row of the `else` of a choice at this spot: it has no share.
pub fn else_row(spot: Spot, times: u64, each: Costs) -> Row
    ensures { result ≡ first_row spot Kind.Else times each no_costs Detail.Nothing }
{
    let nothing = Costs::new(0, 0, 0);
    own_row(spot, Kind::Else, times, each, nothing, Detail::Nothing)
}

/// 1, or 0 where it can't be reached.
pub fn times_at(known: &Option<Facts>) -> u64
    ensures { result ≡ times_at known.now }
{
    match known {
        Some(_) => 1,
        None => 0,
    }
}

/// The row of a loop of at most so many turns: its share is a step, and one for each turn.
pub fn loop_row(spot: Spot, kind: Kind, each: Costs, turns: u64) -> Row
    requires { turns < 2 ^ 64 - 1 }
    ensures { result ≡ first_row spot kind 1 each (costs 0 0 (turns + 1)) (Detail.Turns turns) }
{
    let share = Costs::new(0, 0, turns + 1);
    own_row(spot, kind, 1, each, share, Detail::Turns(turns))
}

/// The row of a `lock` of this crate: its share is the waits, a step for taking the crate, and one for its release.
pub fn lock_row(spot: Spot, each: Costs, waits: u8, crate_no: u32) -> Row
    ensures { result ≡ first_row spot Kind.Lock 1 each (costs waits 0 2) (Detail.Crates (only crate_no)) }
{
    let share = Costs::new(u64::from(waits), 0, 2);
    let taken = Detail::Crates(Range::only(crate_no));
    own_row(spot, Kind::Lock, 1, each, share, taken)
}

fn kind_of(action: &Action) -> Kind
    ensures { result ≡ kind_of (action_of action.now) }
{
    match action {
        Action::Assign(_) => Kind::Assign,
        Action::SetRegister(_) => Kind::Cdreg,
        Action::Single(single) => single_kind(single.size),
        Action::Scan(_) => Kind::Cfmad,
        Action::QStop { .. } => Kind::Cfubc,
        Action::QRepeat { .. } => Kind::Cfubr,
        Action::Put(_) => Kind::Put,
        Action::CrateCall(action) => crate_kind(action.call),
        Action::LamCall(action) => lam_kind(action.call),
        Action::Call(_) => Kind::Call,
    }
}

fn single_kind(size: WordSize) -> Kind
    ensures { result ≡ single_kind size }
{
    match size {
        WordSize::Full => Kind::Cfsa,
        WordSize::Short => Kind::Cssa,
    }
}

fn crate_kind(call: CrateCall) -> Kind
    ensures { result ≡ crate_kind call }
{
    match call {
        CrateCall::Initialise => Kind::Cccz,
        CrateCall::Clear => Kind::Cccc,
        CrateCall::InhibitOn | CrateCall::InhibitOff => Kind::Ccci,
        CrateCall::TestInhibit => Kind::Ctci,
        CrateCall::DemandOn | CrateCall::DemandOff => Kind::Cccd,
        CrateCall::TestDemandOutput => Kind::Ctcd,
        CrateCall::TestDemand => Kind::Ctgl,
    }
}

fn lam_kind(call: LamCall) -> Kind
    ensures { result ≡ lam_kind call }
{
    match call {
        LamCall::Enable | LamCall::Disable => Kind::Cclm,
        LamCall::Clear => Kind::Cclc,
        LamCall::Test => Kind::Ctlm,
    }
}

/// What else there is to tell of an action: where it can't be reached, only what its text says. The error is want of memory.
pub fn detail_of(
    context: &Context,
    action: &Action,
    known: Option<&Facts>,
) -> Result<Detail, AllocError>
    ensures { IfOk result (λ d. d ≡ detail_of (by_code context.now) (action_of action.now) (option_map (λ k. k.now) known.entry)) }
{
    match action {
        Action::Single(single) => Ok(at_region(region_of(known, single.register))),
        Action::QStop { transfer } | Action::QRepeat { transfer, .. } => {
            Ok(at_region(region_of(known, transfer.register)))
        }
        Action::Scan(scan) => {
            let from = region_of(known, scan.first);
            Ok(between(from, region_of(known, scan.last)))
        }
        Action::CrateCall(action) => crate_detail(action.spot, &action.crate_no, known),
        Action::LamCall(action) => Ok(at_region(lam_region(context, action.lam))),
        Action::Call(call) => Ok(Detail::Procedure(call.procedure)),
        Action::Assign(_) | Action::SetRegister(_) | Action::Put(_) => Ok(Detail::Nothing),
    }
}

fn region_of(known: Option<&Facts>, register: usize) -> Option<Region>
    ensures { result ≡ known_region (option_map (λ k. k.now) known.entry) register }
{
    match known {
        Some(known) => known.register(register),
        None => None,
    }
}

fn at_region(region: Option<Region>) -> Detail
    ensures { result ≡ at_region region }
{
    match region {
        Some(region) => Detail::At(region),
        None => Detail::Nothing,
    }
}

fn between(first: Option<Region>, last: Option<Region>) -> Detail
    ensures { result ≡ between first last }
{
    match (first, last) {
        (Some(first), Some(last)) => Detail::Between(first, last),
        _ => Detail::Nothing,
    }
}

// The crates that an expression may name.
fn crate_detail(spot: Spot, crate_no: &Expr, known: Option<&Facts>) -> Result<Detail, AllocError>
    ensures { IfOk result (λ d. d ≡ crate_detail spot (expression_of crate_no.now) (option_map (λ k. k.now) known.entry)) }
{
    let Some(known) = known else {
        return Ok(Detail::Nothing);
    };
    match range_of(spot, crate_no, known.ranges()) {
        Ok(range) => Ok(Detail::Crates(range)),
        Err(CheckFault::Broken { .. }) => Ok(Detail::Nothing),
        Err(CheckFault::OutOfMemory) => Err(AllocError),
    }
}
