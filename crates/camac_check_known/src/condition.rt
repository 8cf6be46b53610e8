// What is known where a condition holds, and where it does not.

ghost use Rattle.std.specs.Prelude.{◌≡◌, IfOk, map};
ghost use Rattle.camac_lang.specs.View.{expression_of, term_of, test_of, part_of};
ghost use Rattle.camac_rules.specs.Conditions.{branches, sole_variable, refine, assume, split_test, split_part, split};
ghost use Rattle.camac_rules.specs.Refusal.{if_reached};
ghost use Rattle.camac_check_known.specs.Gives.{Gives, branches_of};

use crate::expression::range_of;
use crate::fault::CheckFault;
use crate::joined::join;
use crate::known::{Facts, range_in};
use camac_lang::{Expr, Form, Part, Spot, Term, Test};
use camac_range::{Cmp, Range, narrow};
use std::alloc::{AllocError, Global};

/// What is known where a condition holds, and where it does not; none where that can't be reached.
#[derive(Drop)]
pub struct Branches {
    pub holds: Option<Facts>,
    pub fails: Option<Facts>,
}

/// Both ways out of a condition, from what is known before it. E4 at this spot where a number in it may be outside 0 to `u32::MAX`; a part
/// is looked at where all earlier ones hold.
#[cycle(split)]
#[tactic(auto, unfolding(camac_rules::specs::Refusal::go_on))]
pub fn split(
    alloc: Global,
    spot: Spot,
    parts: &[Part],
    known: Facts,
) -> Result<Branches, CheckFault>
    ensures { Gives branches_of result (split spot (map part_of parts.now) known) }
{
    match parts {
        [] => Ok(Branches {
            holds: Some(known),
            fails: None,
        }),
        [part, rest @ ..] => {
            let first = split_part(alloc, spot, part, known)?;
            let others = split_reached(alloc, spot, rest, first.holds)?;
            Ok(Branches {
                holds: others.holds,
                fails: join(alloc, first.fails, others.fails)?,
            })
        }
    }
}

// The same for further parts, if they can be reached.
#[cycle(split)]
#[tactic(auto, unfolding(camac_rules::specs::Refusal::if_reached))]
fn split_reached(
    alloc: Global,
    spot: Spot,
    parts: &[Part],
    known: Option<Facts>,
) -> Result<Branches, CheckFault>
    ensures { Gives branches_of result (if_reached (branches None None) known (split spot (map part_of parts.now))) }
{
    match known {
        None => Ok(Branches {
            holds: None,
            fails: None,
        }),
        Some(known) => split(alloc, spot, parts, known),
    }
}

#[tactic(auto, unfolding(camac_rules::specs::Refusal::go_on))]
fn split_part(alloc: Global, spot: Spot, part: &Part, known: Facts) -> Result<Branches, CheckFault>
    ensures { Gives branches_of result (split_part spot (part_of part.now) known) }
{
    match part {
        Part::Plain(test) => split_test(alloc, spot, test, known),
        Part::Not(test) => {
            let ways = split_test(alloc, spot, test, known)?;
            Ok(Branches {
                holds: ways.fails,
                fails: ways.holds,
            })
        }
    }
}

#[tactic(auto, unfolding(camac_rules::specs::Refusal::go_on))]
fn split_test(alloc: Global, spot: Spot, test: &Test, known: Facts) -> Result<Branches, CheckFault>
    ensures { Gives branches_of result (split_test spot (test_of test.now) known) }
{
    match test {
        Test::Q | Test::X => {
            let other = known.try_clone(alloc)?;
            Ok(Branches {
                holds: Some(known),
                fails: Some(other),
            })
        }
        Test::Compare(a, comparison, b) => {
            let r = range_of(spot, a, known.ranges())?;
            let s = range_of(spot, b, known.ranges())?;
            let other = known.try_clone(alloc)?;
            Ok(Branches {
                holds: assume(a, *comparison, b, r, s, known)?,
                fails: assume(a, comparison.opposite(), b, r, s, other)?,
            })
        }
    }
}

// What is known where a comparison holds of expressions in these ranges.
fn assume(
    a: &Expr,
    comparison: Cmp,
    b: &Expr,
    r: Range,
    s: Range,
    known: Facts,
) -> Result<Option<Facts>, AllocError>
    ensures { IfOk result (λ k. k ≡ assume (expression_of a.now) comparison (expression_of b.now) r s known) }
{
    let Some(left) = narrow(comparison, r, s) else {
        return Ok(None);
    };
    let Some(right) = narrow(comparison.turned(), s, r) else {
        return Ok(None);
    };
    match refine(sole_variable(a.term()), left, known)? {
        None => Ok(None),
        Some(refined) => refine(sole_variable(b.term()), right, refined),
    }
}

// What is known where a variable, if there is one, is in a range too.
fn refine(variable: Option<usize>, range: Range, known: Facts) -> Result<Option<Facts>, AllocError>
    ensures { IfOk result (λ k. k ≡ refine variable range known) }
{
    match variable {
        None => Ok(Some(known)),
        Some(x) => match range_in(known.ranges(), x).meet(range) {
            None => Ok(None),
            Some(left) => {
                let mut refined = known;
                refined.put_range(x, left)?;
                Ok(Some(refined))
            }
        },
    }
}

/// The variable that an expression is, brackets aside.
pub fn sole_variable(e: Term<'_>) -> Option<usize>
    ensures { result ≡ sole_variable (term_of e.entry) }
{
    match e.form() {
        Form::Variable(x) => Some(x),
        Form::Group(e) => sole_variable(e),
        Form::Number(_) | Form::Add(_, _) | Form::Subtract(_, _) => None,
        Form::Multiply(_, _) | Form::Divide(_, _) | Form::Remainder(_, _) => None,
    }
}
