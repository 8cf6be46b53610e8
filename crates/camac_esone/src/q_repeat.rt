// Q-repeat (ESONE's CFUBR).

ghost use Rattle.std.specs.Prelude.{◌≡◌, ◌∷◌, [], IsSome};
ghost use Rattle.camac_esone.specs.InProgress.{q_repeat_left, LeadsAlongQRepeat};
ghost use Rattle.camac_esone.specs.Progress.{Continues, StandsAt, AddsCycle, IsTally};
ghost use Rattle.camac_esone.specs.Transfers.{q_repeat_next};

use crate::address::Address;
use std::marker::Model;

/// A block transfer at one address in which Q=0 asks for the same cycle again, and which ends after `max` words, and after `limit`
/// cycles at the latest (own).
#[derive(Clone, Copy, Debug, PartialEq, Eq)]
pub struct QRepeat {
    address: Address,
    // how many words are missing
    words: u32,
    // how many further cycles there are at most
    cycles: u32,
    tally: u32,
}

impl Model for QRepeat {
    ghost use Rattle.std.specs.Prelude.{◌+◌, ◌<◌, ◌^◌};
    ghost use Rattle.camac_esone.specs.InProgress.{QRepeatState};

    ghost Value = { QRepeatState };

    ghost view = { λ t. record { at = t.address; words = t.words; cycles = t.cycles; tally = t.tally } };

    ghost invariant = { λ t. t.tally + t.words < 2 ^ 32 };

    ghost inverse = { λ h. record { address = h.at; words = h.words; cycles = h.cycles; tally = h.tally } };
}

impl QRepeat {
    /// The transfer before its first cycle; with a `max` or `limit` of 0 there is none.
    pub fn new(address: Address, max: u32, limit: u32) -> Self
        ensures state { result ≡ record { at = address; words = max; cycles = limit; tally = 0 } }
        ensures stands { StandsAt (q_repeat_next address max limit) (q_repeat_left result) [] }
    {
        QRepeat {
            address,
            words: max,
            cycles: limit,
            tally: 0,
        }
    }

    /// Where the next cycle goes, or none at the end.
    pub fn next(&self) -> Option<Address>
        ensures next_address { result ≡ (q_repeat_left self.now).next_address [] }
        ensures list { LeadsAlongQRepeat (q_repeat_left self.now) result }
    {
        if self.words > 0 && self.cycles > 0 {
            Some(self.address)
        } else {
            None
        }
    }

    /// Takes the Q of the cycle that `next` asked for.
    pub fn take(&mut self, q: bool)
        requires { IsSome ((q_repeat_left self.old).next_address []) }
        ensures continues { Continues (q_repeat_left self.old) q (q_repeat_left self.new) }
        ensures stands { AddsCycle (q_repeat_left self.old) q (q_repeat_left self.new) }
    {
        self.cycles -= 1;
        if q {
            self.words -= 1;
            self.tally += 1;
        }
    }

    /// How many words are missing.
    pub fn words(&self) -> u32
        ensures { result ≡ self.now.words }
    {
        self.words
    }

    /// How many further cycles there are at most.
    pub fn cycles(&self) -> u32
        ensures { result ≡ self.now.cycles }
    {
        self.cycles
    }

    /// How many cycles had Q=1.
    pub fn tally(&self) -> u32
        ensures tally { result ≡ self.now.tally }
        ensures replies { IsTally (q_repeat_left self.now) result }
    {
        self.tally
    }

    /// The number of the table word that the next cycle sends, from 0: after Q=0 the same again.
    pub fn index(&self) -> usize
        ensures tally { result ≡ self.now.tally }
        ensures replies { IsTally (q_repeat_left self.now) result }
    {
        self.tally as usize
    }
}
