// What statements can cost.

ghost use Rattle.std.specs.Prelude.{◌≡◌};
ghost use Rattle.camac_rules.specs.Costs.{costs, no_costs, plus, choice_costs, lock_costs, loop_costs, transfer_costs, call_costs};
ghost use Rattle.camac_rules.specs.Capped.{capped};

use std::marker::Model;

/// Bounds on the dataway cycles with those of auxiliary controllers, on the event words and on the steps. A number that would pass 64 bits
/// stays at their greatest.
#[derive(Clone, Copy)]
pub struct Costs {
    cycles: u64,
    words: u64,
    steps: u64,
}

impl Model for Costs {
    ghost use Rattle.camac_model.specs.Fine.{Bounds};

    ghost Value = { Bounds };

    ghost view = { λ c. record { cycles = c.cycles; words = c.words; steps = c.steps } };

    ghost inverse = { λ b. record { cycles = b.cycles; words = b.words; steps = b.steps } };
}

impl Costs {
    pub fn new(cycles: u64, words: u64, steps: u64) -> Self
        ensures { result ≡ costs cycles words steps }
    {
        Costs {
            cycles,
            words,
            steps,
        }
    }

    /// Those of this and then of the other.
    pub fn then(self, other: Costs) -> Self
        ensures { result ≡ capped (plus self other) }
    {
        Costs {
            cycles: self.cycles.saturating_add(other.cycles),
            words: self.words.saturating_add(other.words),
            steps: self.steps.saturating_add(other.steps),
        }
    }

    /// Those of a choice between this and the other: a step, and the greater of each.
    pub fn or(self, other: Costs) -> Self
        ensures { result ≡ capped (choice_costs self other) }
    {
        Costs {
            cycles: self.cycles.max(other.cycles),
            words: self.words.max(other.words),
            steps: self.steps.max(other.steps).saturating_add(1),
        }
    }

    /// Those of a locked block with this body, where taking the lock waits for so many auxiliary cycles.
    pub fn in_lock(self, waits: u8) -> Self
        ensures { result ≡ capped (lock_costs waits self) }
    {
        Costs {
            cycles: self.cycles.saturating_add(u64::from(waits)),
            words: self.words,
            steps: self.steps.saturating_add(2),
        }
    }

    /// Those of a loop of at most so many turns with this body: a step, and a step more for each turn.
    pub fn in_loop(self, turns: u64) -> Self
        ensures { result ≡ capped (loop_costs turns self) }
    {
        Costs {
            cycles: self.cycles.saturating_mul(turns),
            words: self.words.saturating_mul(turns),
            steps: self
                .steps
                .saturating_add(1)
                .saturating_mul(turns)
                .saturating_add(1),
        }
    }

    /// Those of a transfer of so many cycles, each at this cost: a step, and a step more for each cycle.
    pub fn of_transfer(cycles: u64, each: u64, words: u64) -> Self
        ensures { result ≡ capped (transfer_costs cycles each words) }
    {
        Costs {
            cycles: cycles.saturating_mul(each),
            words,
            steps: cycles.saturating_add(1),
        }
    }

    /// Those of a call of a procedure that is annotated with these.
    pub fn of_call(cycles: u32, words: u32, steps: u32) -> Self
        ensures { result ≡ capped (call_costs (costs cycles words steps)) }
    {
        Costs {
            cycles: u64::from(cycles),
            words: u64::from(words),
            steps: u64::from(steps) + 1,
        }
    }

    pub fn cycles(self) -> u64
        ensures { result ≡ self.cycles }
    {
        self.cycles
    }

    pub fn words(self) -> u64
        ensures { result ≡ self.words }
    {
        self.words
    }

    pub fn steps(self) -> u64
        ensures { result ≡ self.steps }
    {
        self.steps
    }
}
