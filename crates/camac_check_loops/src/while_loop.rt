// The rules of `while`.

ghost use Rattle.std.specs.Prelude.{◌≡◌, ◌≤◌, IfOk, IsTrue, map};
ghost use Rattle.camac_check_known.specs.Gives.{Gives};
ghost use Rattle.camac_lang.specs.View.{keep_of, statements_of};
ghost use Rattle.camac_rules.specs.Loops.{turns_case, while_head, turn_bound};
ghost use Rattle.camac_rules.specs.Refusal.{given};
ghost use Rattle.camac_rules.specs.Writes.{fall_of};
ghost use Rattle.camac_rules.specs.declared.rule.CheckRule.TheVariants as rule;

use crate::keeps::{head, keeps_at_entry};
use crate::written::fall_of;
use camac_check_known::{CheckFault, Facts, between, range_in, required};
use camac_lang::{Spot, Stmt, WhileHead, limits};
use camac_rules::{Body, Case, CheckRule};

/// What is known at the head of a `while` of at most so many turns that may begin. E7, E10 and E8, in this order.
#[tactic(auto, unfolding(camac_rules::specs::Refusal::go_on))]
pub fn while_head(
    place: Body,
    limited: &WhileHead,
    body: &[Stmt],
    known: Facts,
) -> Result<Facts, CheckFault>
    ensures { Gives (λ k. k) result (while_head place limited.now.spot limited.now.turns limited.now.measure (map keep_of limited.now.keeps.items) (statements_of body.now) known) }
{
    let spot = limited.spot;
    let most = limited.turns;
    let measure = limited.measure;
    let fall = fall_at(place, measure, body, spot)?;
    let greatest = range_in(known.ranges(), measure).hi();
    let needed = greatest / fall;
    required(
        most <= limits::TURNS && needed <= most,
        CheckRule::TooManyTurns,
        spot,
        turns_case(needed, most),
    )?;
    keeps_at_entry(place, &limited.keeps, &known, spot)?;
    let mut top = head(body, &limited.keeps, known)?;
    top.put_range(measure, between(0, greatest))?;
    Ok(top)
}

// What a turn takes from the measure. E7 where it is not taken once and nothing else writes the measure.
#[tactic(auto, unfolding(camac_rules::specs::Refusal::given))]
fn fall_at(place: Body, measure: usize, body: &[Stmt], spot: Spot) -> Result<u32, CheckFault>
    ensures rule { Gives (λ k. k) result (given (fall_of measure (statements_of body.now)) rule.MeasureBroken spot (Case.Measure place measure)) }
    ensures positive { IfOk result (λ k. 1 ≤ k) }
{
    match fall_of(measure, body) {
        Some(fall) => Ok(fall),
        None => Err(CheckFault::broken(
            CheckRule::MeasureBroken,
            spot,
            Case::Measure {
                body: place,
                variable: measure,
            },
        )),
    }
}

// The turns that may be needed, or the number that is above the most of any loop.
fn turns_case(needed: u32, most: u32) -> Case
    ensures { result ≡ turns_case needed most }
{
    if most <= limits::TURNS {
        Case::Turns {
            needed: u64::from(needed),
            allowed: most,
        }
    } else {
        Case::Annotation {
            turns: most,
            allowed: limits::TURNS,
        }
    }
}

/// The most turns, 0 where the condition never holds.
pub fn turn_bound(known: &Option<Facts>, most: u32) -> u32
    ensures { result ≡ turn_bound known.now most }
{
    match known {
        Some(_) => most,
        None => 0,
    }
}
