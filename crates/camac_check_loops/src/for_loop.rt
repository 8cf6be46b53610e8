// The rules of `for`.

ghost use Rattle.std.specs.Prelude.{◌≡◌, ◌≤◌, IfOk, IsTrue, map};
ghost use Rattle.camac_check_known.specs.Gives.{Gives};
ghost use Rattle.camac_lang.specs.View.{expression_of, keep_of, statements_of};
ghost use Rattle.camac_check_loops.specs.Ordered.{are_ordered};
ghost use Rattle.camac_rules.specs.Loops.{turns_between, values_between, for_limits, for_head, for_after};

use crate::keeps::{head, keeps_at_entry};
use camac_check_known::{Around, CheckFault, Facts, between, range_in, range_of, required};
use camac_lang::{ForHead, Stmt, limits};
use camac_range::Range;
use camac_rules::{Case, CheckRule};
use std::alloc::{AllocError, Global};
use std::marker::Model;

/// The ranges of the first and of the last value of a `for`.
#[derive(Clone, Copy)]
pub struct Limits {
    first: Range,
    last: Range,
}

impl Model for Limits {
    ghost use Rattle.camac_rules.specs.Loops.{Limits as Between};

    ghost Value = { Between };

    ghost view = { λ l. record { first = l.first; last = l.last } };

    ghost inverse = { λ l. record { first = l.first; last = l.last } };
}

impl Limits {
    /// The most turns.
    pub fn turns(self) -> u64
        ensures { result ≡ turns_between self }
    {
        (u64::from(self.last.hi()) + 1).saturating_sub(u64::from(self.first.lo()))
    }

    /// What is known in the loop and after it, from what is known before it. Without a turn all stays.
    pub fn facts(
        self,
        alloc: Global,
        counted: &ForHead,
        body: &[Stmt],
        known: Facts,
    ) -> Result<LoopFacts, AllocError>
        requires { IsTrue (are_ordered (map keep_of counted.now.keeps.items)) }
        ensures head { IfOk result (λ p. p.head ≡ for_head counted.now.variable self (map keep_of counted.now.keeps.items) (statements_of body.now) known) }
        ensures after { IfOk result (λ p. Some p.after ≡ for_after counted.now.variable self (map keep_of counted.now.keeps.items) (statements_of body.now) known) }
    {
        if self.last.hi() < self.first.lo() {
            return Ok(LoopFacts {
                head: None,
                after: known,
            });
        }
        let values = between(self.first.lo(), self.last.hi());
        let variable = counted.variable;
        let left = range_in(known.ranges(), variable).hull(values);
        let mut after = head(body, &counted.keeps, known)?;
        let mut top = after.try_clone(alloc)?;
        top.put_range(variable, values)?;
        after.put_range(variable, left)?;
        Ok(LoopFacts {
            head: Some(top),
            after,
        })
    }
}

/// What is known where the body of a `for` begins, if there may be a turn, and after the loop.
#[derive(Drop)]
pub struct LoopFacts {
    pub head: Option<Facts>,
    pub after: Facts,
}

/// The values of a `for` that may begin. E4, E17, E10 and E8, in this order.
#[tactic(auto, unfolding(camac_rules::specs::Refusal::go_on))]
pub fn for_limits(around: &Around, counted: &ForHead, known: &Facts) -> Result<Limits, CheckFault>
    ensures rule { Gives (λ l. l) result (for_limits around.now counted.now.spot counted.now.variable (expression_of counted.now.from) (expression_of counted.now.to) (map keep_of counted.now.keeps.items) known.now) }
    ensures ordered { IfOk result (λ l. IsTrue (are_ordered (map keep_of counted.now.keeps.items))) }
{
    let spot = counted.spot;
    let variable = counted.variable;
    let first = range_of(spot, &counted.from, known.ranges())?;
    let last = range_of(spot, &counted.to, known.ranges())?;
    let limits = Limits { first, last };
    required(
        around.may_write(variable),
        CheckRule::LoopVariableAssigned,
        spot,
        Case::Counted {
            body: around.body(),
            variable,
        },
    )?;
    let needed = limits.turns();
    required(
        needed <= u64::from(limits::TURNS),
        CheckRule::TooManyTurns,
        spot,
        Case::Turns {
            needed,
            allowed: limits::TURNS,
        },
    )?;
    keeps_at_entry(around.body(), &counted.keeps, known, spot)?;
    Ok(limits)
}
