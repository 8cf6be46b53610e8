// Q-stop (ESONE's CFUBC).

ghost use Rattle.std.specs.Prelude.{◌≡◌, ◌∷◌, [], IsSome};
ghost use Rattle.camac_esone.specs.InProgress.{q_stop_left, LeadsAlongQStop};
ghost use Rattle.camac_esone.specs.Progress.{Continues, StandsAt, AddsCycle, IsTally};
ghost use Rattle.camac_esone.specs.Transfers.{q_stop_next};

use crate::address::Address;
use std::marker::Model;

/// A block transfer at one address that ends after the first cycle with Q=0, and after `max` cycles at the latest (own).
#[derive(Clone, Copy, Debug, PartialEq, Eq)]
pub struct QStop {
    address: Address,
    // how many further cycles there are at most
    cycles: u32,
    tally: u32,
}

impl Model for QStop {
    ghost use Rattle.std.specs.Prelude.{◌+◌, ◌<◌, ◌^◌};
    ghost use Rattle.camac_esone.specs.InProgress.{QStopState};

    ghost Value = { QStopState };

    ghost view = { λ t. record { at = t.address; cycles = t.cycles; tally = t.tally } };

    ghost invariant = { λ t. t.tally + t.cycles < 2 ^ 32 };

    ghost inverse = { λ h. record { address = h.at; cycles = h.cycles; tally = h.tally } };
}

impl QStop {
    /// The transfer before its first cycle; with a `max` of 0 there is none.
    pub fn new(address: Address, max: u32) -> Self
        ensures state { result ≡ record { at = address; cycles = max; tally = 0 } }
        ensures stands { StandsAt (q_stop_next address max) (q_stop_left result) [] }
    {
        QStop {
            address,
            cycles: max,
            tally: 0,
        }
    }

    /// Where the next cycle goes, or none at the end.
    pub fn next(&self) -> Option<Address>
        ensures next_address { result ≡ (q_stop_left self.now).next_address [] }
        ensures list { LeadsAlongQStop (q_stop_left self.now) result }
    {
        if self.cycles > 0 {
            Some(self.address)
        } else {
            None
        }
    }

    /// Takes the Q of the cycle that `next` asked for.
    pub fn take(&mut self, q: bool)
        requires { IsSome ((q_stop_left self.old).next_address []) }
        ensures continues { Continues (q_stop_left self.old) q (q_stop_left self.new) }
        ensures stands { AddsCycle (q_stop_left self.old) q (q_stop_left self.new) }
    {
        if q {
            self.cycles -= 1;
            self.tally += 1;
        } else {
            self.cycles = 0;
        }
    }

    /// How many further cycles there are at most.
    pub fn cycles(&self) -> u32
        ensures { result ≡ self.now.cycles }
    {
        self.cycles
    }

    /// How many cycles had Q=1.
    pub fn tally(&self) -> u32
        ensures tally { result ≡ self.now.tally }
        ensures replies { IsTally (q_stop_left self.now) result }
    {
        self.tally
    }

    /// The number of the table word that the next cycle sends, from 0.
    pub fn index(&self) -> usize
        ensures tally { result ≡ self.now.tally }
        ensures replies { IsTally (q_stop_left self.now) result }
    {
        self.tally as usize
    }
}
