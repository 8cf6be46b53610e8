// The numbers that an expression can take.

ghost use Rattle.std.specs.Prelude.{◌≡◌, ℕ, Some};
ghost use Rattle.camac_lang.specs.View.{expression_of, term_of};
ghost use Rattle.camac_range.specs.Operators.{div, rem};
ghost use Rattle.camac_rules.specs.Cases.{operation};
ghost use Rattle.camac_rules.specs.Expressions.{range_of};
ghost use Rattle.camac_rules.specs.Refusal.{given};
ghost use Rattle.camac_rules.specs.declared.rule.CheckRule.TheVariants.{ValueOutOfRange};
ghost use Rattle.camac_check_known.specs.declared.fault.CheckFault.TheVariants.{Broken};
ghost use Rattle.camac_check_known.specs.Gives.{Gives};
ghost use Rattle.camac_check_known.specs.Told.{TellsRange};
ghost use Rattle.camac_lang.specs.declared.spot.Spot.{Spot};

use crate::fault::{CheckFault, numbers_of};
use crate::known::range_in;
use camac_lang::{Divisor, Expr, Form, Spot, Term};
use camac_range::Range;
use camac_rules::{Case, CheckRule, Operator};

/// An operator that may have no number as its result, and the ranges on both sides of it. It is small, so that it is handed on quickly.
#[derive(Clone, Copy)]
pub struct Beyond {
    pub operator: Operator,
    pub left: Range,
    pub right: Range,
}

impl Beyond {
    /// E4 at this spot.
    pub fn fault(self, spot: Spot) -> CheckFault
        ensures { result ≡ Broken ValueOutOfRange spot (operation self.operator self.left self.right) }
    {
        CheckFault::broken(
            CheckRule::ValueOutOfRange,
            spot,
            Case::Operation {
                operator: self.operator,
                left: numbers_of(self.left),
                right: numbers_of(self.right),
            },
        )
    }
}

/// The range of an expression, where the variables have these ranges. E4 at this spot where a number may be outside 0 to `u32::MAX`.
pub fn range_of(spot: Spot, e: &Expr, ranges: &[Range]) -> Result<Range, CheckFault>
    ensures { Gives (λ r. r) result (range_of spot (expression_of e.now) ranges.now) }
{
    let mut beyond = None;
    match reach(e.term(), ranges, &mut beyond) {
        Some(range) => Ok(range),
        None => match beyond {
            Some(beyond) => Err(beyond.fault(spot)),
            None => unreachable!(),
        },
    }
}

// The same for every spot. An operator without a range is written to a place of its own: a range alone is returned in registers.
#[cycle(reach)]
#[tactic(auto, unfolding(camac_rules::specs::Refusal::go_on, camac_rules::specs::Refusal::required))]
#[inline(always)]
fn reach(e: Term<'_>, ranges: &[Range], beyond: &mut Option<Beyond>) -> Option<Range>
    ensures { (spot : Spot) → TellsRange spot result beyond.new (range_of spot (term_of e.entry) ranges.now) }
{
    match e.form() {
        Form::Number(n) => Some(Range::only(n)),
        Form::Variable(x) => Some(range_in(ranges, x)),
        _ => reach_operator(e, ranges, beyond),
    }
}

#[cycle(reach)]
#[tactic(auto, using(crate::proofs::Steps::steps), unfolding(camac_rules::specs::Refusal::go_on, camac_rules::specs::Refusal::given, camac_rules::specs::Refusal::required))]
fn reach_operator(e: Term<'_>, ranges: &[Range], beyond: &mut Option<Beyond>) -> Option<Range>
    ensures { (spot : Spot) → TellsRange spot result beyond.new (range_of spot (term_of e.entry) ranges.now) }
{
    match e.form() {
        Form::Number(n) => Some(Range::only(n)),
        Form::Variable(x) => Some(range_in(ranges, x)),
        Form::Group(e) => reach(e, ranges, beyond),
        Form::Add(left, right) => {
            let r = reach(left, ranges, beyond)?;
            let s = reach(right, ranges, beyond)?;
            number_or(r.add(s), Operator::Add, r, s, beyond)
        }
        Form::Subtract(left, right) => {
            let r = reach(left, ranges, beyond)?;
            let s = reach(right, ranges, beyond)?;
            number_or(r.sub(s), Operator::Sub, r, s, beyond)
        }
        Form::Multiply(left, right) => {
            let r = reach(left, ranges, beyond)?;
            let s = reach(right, ranges, beyond)?;
            number_or(r.mul(s), Operator::Mul, r, s, beyond)
        }
        Form::Divide(e, divisor) => {
            let r = reach(e, ranges, beyond)?;
            Some(quotient(r, divisor))
        }
        Form::Remainder(e, divisor) => {
            let r = reach(e, ranges, beyond)?;
            Some(remainder(r, divisor))
        }
    }
}

#[tactic(auto, unfolding(camac_rules::specs::Refusal::given))]
fn number_or(
    found: Option<Range>,
    operator: Operator,
    left: Range,
    right: Range,
    beyond: &mut Option<Beyond>,
) -> Option<Range>
    ensures { (spot : Spot) → TellsRange spot result beyond.new (given found ValueOutOfRange spot (operation operator left right)) }
{
    if found.is_none() {
        *beyond = Some(Beyond {
            operator,
            left,
            right,
        });
    }
    found
}

fn quotient(range: Range, divisor: Divisor) -> Range
    ensures { div range divisor ≡ Some result }
{
    match range.div(divisor.get()) {
        Some(range) => range,
        None => unreachable!(),
    }
}

fn remainder(range: Range, divisor: Divisor) -> Range
    ensures { rem range divisor ≡ Some result }
{
    match range.rem(divisor.get()) {
        Some(range) => range,
        None => unreachable!(),
    }
}
