// The rules of crate calls and LAM calls, and of the crate that a lock takes.

ghost use Rattle.std.specs.Prelude.{◌≡◌, ◌&&◌, not};
ghost use Rattle.camac_lang.specs.View.{expression_of};
ghost use Rattle.camac_rules.specs.Addresses.{is_among};
ghost use Rattle.camac_rules.specs.Calls.{is_crate, crate_rule, lam_region, lam_rule, lock_unfit, lock_rule};
ghost use Rattle.camac_rules.specs.Refusal.{given};
ghost use Rattle.camac_check_simple.specs.Gives.{Gives, by_code, leaving};

use crate::context::{Context, Place};
use crate::cycle::one_cycle;
use camac_check_known::{
    Around, CheckFault, Costs, Facts, Region, command_widths, is_crate, numbers_of, range_of,
    required,
};
use camac_esone::lam_function;
use camac_lang::{CrateAction, Expr, LamAction, Spot};
use camac_range::Range;
use camac_rules::{Case, CheckRule};

/// Checks a crate call.
#[tactic(auto, unfolding(camac_rules::specs::Refusal::go_on))]
pub fn crate_call(
    place: &Place,
    action: &CrateAction,
    known: &mut Facts,
) -> Result<Costs, CheckFault>
    ensures { Gives (leaving known.new) result (crate_rule (by_code place.now.context.now) place.now.around.now action.now.spot (expression_of action.now.crate_no) known.old) }
{
    let crates = range_of(action.spot, &action.crate_no, known.ranges())?;
    required(
        is_crate(place.context.plan, crates),
        CheckRule::CrateUnfit,
        action.spot,
        Case::Crate {
            numbers: numbers_of(crates),
        },
    )?;
    Ok(one_cycle(place.context, place.around, crates))
}

/// The crate that a `lock` takes. E15 where it is not one crate of the plan, or locked around it.
#[tactic(auto, unfolding(camac_rules::specs::Refusal::go_on))]
pub fn lock_crate(
    place: &Place,
    spot: Spot,
    crate_no: &Expr,
    known: &Facts,
) -> Result<u32, CheckFault>
    ensures { Gives (λ c. c) result (lock_rule (by_code place.now.context.now) place.now.around.now spot (expression_of crate_no.now) known.now) }
{
    let crates = range_of(spot, crate_no, known.ranges())?;
    required(
        is_free(place.context, place.around, crates),
        CheckRule::CrateUnfit,
        spot,
        lock_unfit(place.context, crates),
    )?;
    Ok(crates.lo())
}

// Why a crate can't be locked.
fn lock_unfit(context: &Context, crates: Range) -> Case
    ensures { result ≡ lock_unfit context.now.plan.now crates }
{
    if is_crate(context.plan, crates) {
        Case::Locked {
            crate_no: crates.lo(),
        }
    } else {
        Case::Crate {
            numbers: numbers_of(crates),
        }
    }
}

// Whether a range is one crate, which is not locked.
fn is_free(context: &Context, around: &Around, crates: Range) -> bool
    ensures { result ≡ (is_crate context.now.plan.now crates && not (is_among crates.lo around.now.locked)) }
{
    is_crate(context.plan, crates) && !around.is_locked(crates.lo())
}

/// Checks a LAM call.
#[tactic(auto, unfolding(camac_rules::specs::Refusal::go_on))]
pub fn lam_call(place: &Place, action: &LamAction, known: &mut Facts) -> Result<Costs, CheckFault>
    ensures { Gives (leaving known.new) result (lam_rule (by_code place.now.context.now) place.now.around.now action.now.spot action.now.call action.now.lam known.old) }
{
    let at = address_of(place.context, action.lam, action.spot)?;
    let function = lam_function(action.call);
    let _widths = command_widths(place.context.plan, action.spot, function, at)?;
    Ok(one_cycle(place.context, place.around, at.crates()))
}

// The address of a LAM. E1 where there is no such LAM.
#[tactic(auto, unfolding(camac_rules::specs::Refusal::given))]
fn address_of(context: &Context, lam: usize, spot: Spot) -> Result<Region, CheckFault>
    ensures { Gives (λ g. g) result (given (lam_region (by_code context.now) lam) CheckRule.StationNotInstalled spot Case.Malformed) }
{
    match lam_region(context, lam) {
        Some(region) => Ok(region),
        None => Err(CheckFault::broken(CheckRule::StationNotInstalled, spot, Case::Malformed)),
    }
}

/// The address of a LAM by its number in the script, if there is one.
pub fn lam_region(context: &Context, lam: usize) -> Option<Region>
    ensures { result ≡ lam_region (by_code context.now) lam }
{
    match context.lams.get(lam) {
        Some(lam) => Some(Region::new(
            Range::only(lam.crate_no),
            Range::only(lam.station),
            Range::only(lam.sub_address.get()),
        )),
        None => None,
    }
}
