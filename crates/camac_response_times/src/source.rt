// Services as sources of look-at-mes.

ghost use Rattle.std.specs.Prelude.{◌≡◌, ◌≤◌, ◌/◌, ◌↔◌, IfSome, IsSome};

use camac_word::GlBit;
use std::marker::Model;

/// The fewest dataway cycles from one look-at-me of a module to its next, 1 to 4,294,967,295 (own). Contracts see it as the number.
#[derive(Clone, Copy, Debug, PartialEq, Eq)]
pub struct Rate {
    cycles: u32,
    // what one cycle is of it, in parts of 2^64: a product in place of a division, which takes longest in each round
    share: u64,
}

impl Model for Rate {
    ghost use Rattle.std.specs.Prelude.{ℕ, ◌≡◌, ◌≤◌, ◌-◌, ◌/◌, ◌^◌};

    ghost Value = { ℕ };

    ghost view = { λ r. r.cycles };

    ghost invariant = { λ r. (1 ≤ r.cycles) × (r.share ≡ (2 ^ 64 - 1) / r.cycles) };

    ghost inverse = { λ n. record { cycles = n; share = (2 ^ 64 - 1) / n } };
}

impl Default for Rate {
    ghost is_default = { λ rate. rate ≡ 4294967295 };

    /// The longest, so that a fixed table can be filled before its rates are known.
    fn default() -> Self {
        Rate {
            cycles: u32::MAX,
            share: u64::MAX / u64::from(u32::MAX),
        }
    }
}

impl Rate {
    /// The rate of so many cycles. Of 0 there is none.
    pub fn new(cycles: u32) -> Option<Self>
        ensures kept { IfSome result (λ r. r ≡ cycles) }
        ensures in_range { IsSome result ↔ (1 ≤ cycles) }
    {
        if cycles > 0 {
            Some(Rate {
                cycles,
                share: u64::MAX / u64::from(cycles),
            })
        } else {
            None
        }
    }

    /// How often so many cycles have it whole: the quotient, rounded down.
    pub fn times_in(self, cycles: u32) -> u32
        ensures { result ≡ cycles / self }
    {
        ((u128::from(cycles) + 1) * u128::from(self.share) >> 64) as u32
    }

    /// The number of cycles.
    pub fn get(self) -> u32
        ensures value { result ≡ self }
        ensures in_range { 1 ≤ result }
    {
        self.cycles
    }
}

/// A service: its bit of the graded-L pattern, the most cycles that it takes, and its rate. Without one it is called at most once while
/// look-at-mes are answered without a pause.
#[derive(Clone, Copy, Debug, PartialEq, Eq)]
pub struct Source {
    pub bit: GlBit,
    pub cycles: u32,
    pub every: Option<Rate>,
}
