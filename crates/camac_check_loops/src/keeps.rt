// The ranges that a loop keeps, and what is known at its head.

ghost use Rattle.std.specs.Prelude.{◌≡◌, ◌≤◌, IfOk, IsTrue, map};
ghost use Rattle.camac_lang.specs.View.{keep_of, statements_of};
ghost use Rattle.camac_check_known.specs.Gives.{Gives};
ghost use Rattle.camac_check_loops.specs.Ordered.{are_ordered};
ghost use Rattle.camac_range.specs.Interval.{is_inside};
ghost use Rattle.camac_rules.specs.Loops.{kept_range, keeps_hold, keeps_hold_after, unkept, unkept_after, with_keeps, head};
ghost use Rattle.camac_rules.specs.Refusal.{required};
ghost use Rattle.camac_rules.specs.declared.rule.CheckRule.TheVariants.{KeepFailsAtEntry, KeepFailsAfterTurn};

use crate::forgotten::forget_block;
use camac_check_known::{CheckFault, Facts, between, numbers_of, range_in};
use camac_lang::{Keep, Spot, Stmt};
use camac_range::Range;
use camac_rules::{Body, Case, CheckRule, Numbers};
use std::alloc::AllocError;

/// E8 at this spot, unless each kept variable is in its range, which then has a number.
#[tactic(auto, unfolding(camac_rules::specs::Refusal::required))]
pub fn keeps_at_entry(
    body: Body,
    keeps: &[Keep],
    known: &Facts,
    spot: Spot,
) -> Result<(), CheckFault>
    ensures rule { Gives (λ u. tt) result (required (keeps_hold (map keep_of keeps.now) known.now) KeepFailsAtEntry spot (unkept body (map keep_of keeps.now) known.now)) }
    ensures ordered { IfOk result (λ u. IsTrue (are_ordered (map keep_of keeps.now))) }
{
    if keeps_hold(keeps, known) {
        Ok(())
    } else {
        Err(CheckFault::broken(
            CheckRule::KeepFailsAtEntry,
            spot,
            unkept(body, keeps, known),
        ))
    }
}

// The first kept variable that is not in its range.
fn unkept(body: Body, keeps: &[Keep], known: &Facts) -> Case
    ensures { result ≡ unkept body (map keep_of keeps.now) known.now }
{
    match keeps {
        [] => Case::Malformed,
        [keep, rest @ ..] => {
            let range = range_in(known.ranges(), keep.variable);
            if is_kept(keep, range) {
                return unkept(body, rest, known);
            }
            Case::Kept {
                body,
                variable: keep.variable,
                found: numbers_of(range),
                kept: Numbers {
                    low: keep.low,
                    high: keep.high,
                },
            }
        }
    }
}

// Whether each kept variable is in its range.
fn keeps_hold(keeps: &[Keep], known: &Facts) -> bool
    ensures value { result ≡ keeps_hold (map keep_of keeps.now) known.now }
    ensures ordered { IsTrue result → IsTrue (are_ordered (map keep_of keeps.now)) }
{
    match keeps {
        [] => true,
        [keep, rest @ ..] => {
            is_kept(keep, range_in(known.ranges(), keep.variable)) && keeps_hold(rest, known)
        }
    }
}

fn is_kept(keep: &Keep, range: Range) -> bool
    ensures value { result ≡ is_inside range (kept_range (keep_of keep.now)) }
    ensures ordered { IsTrue result → keep.now.low ≤ keep.now.high }
{
    keep.low <= range.lo() && range.hi() <= keep.high
}

/// E9 at this spot, unless each kept variable is in its range after a turn, if the body comes to its end.
#[tactic(auto, unfolding(camac_rules::specs::Refusal::required))]
pub fn keeps_after(
    body: Body,
    keeps: &[Keep],
    known: &Option<Facts>,
    spot: Spot,
) -> Result<(), CheckFault>
    ensures { Gives (λ u. tt) result (required (keeps_hold_after (map keep_of keeps.now) known.now) KeepFailsAfterTurn spot (unkept_after body (map keep_of keeps.now) known.now)) }
{
    if keeps_hold_after(keeps, known) {
        return Ok(());
    }
    let case = unkept_after(body, keeps, known);
    Err(CheckFault::broken(CheckRule::KeepFailsAfterTurn, spot, case))
}

fn unkept_after(body: Body, keeps: &[Keep], known: &Option<Facts>) -> Case
    ensures { result ≡ unkept_after body (map keep_of keeps.now) known.now }
{
    match known {
        Some(known) => unkept(body, keeps, known),
        None => Case::Malformed,
    }
}

fn keeps_hold_after(keeps: &[Keep], known: &Option<Facts>) -> bool
    ensures { result ≡ keeps_hold_after (map keep_of keeps.now) known.now }
{
    match known {
        Some(known) => keeps_hold(keeps, known),
        None => true,
    }
}

/// What is known where each turn of a body begins.
pub fn head(body: &[Stmt], keeps: &[Keep], known: Facts) -> Result<Facts, AllocError>
    requires { IsTrue (are_ordered (map keep_of keeps.now)) }
    ensures { IfOk result (λ h. h ≡ head (statements_of body.now) (map keep_of keeps.now) known) }
{
    let mut left = known;
    forget_block(&mut left, body)?;
    with_keeps(left, keeps)
}

// The same with each kept variable in its range.
fn with_keeps(known: Facts, keeps: &[Keep]) -> Result<Facts, AllocError>
    requires { IsTrue (are_ordered (map keep_of keeps.now)) }
    ensures { IfOk result (λ k. k ≡ with_keeps (map keep_of keeps.now) known) }
{
    match keeps {
        [] => Ok(known),
        [keep, rest @ ..] => {
            let mut kept = with_keeps(known, rest)?;
            kept.put_range(keep.variable, between(keep.low, keep.high))?;
            Ok(kept)
        }
    }
}
