// The address scan (ESONE's CFMAD).

ghost use Rattle.std.specs.Prelude.{◌≡◌, ◌<◌, ◌^◌, ◌∷◌, [], IsSome, IsTrue};
ghost use Rattle.camac_esone.specs.InProgress.{scan_left, LeadsAlongScan};
ghost use Rattle.camac_esone.specs.Progress.{Continues, StandsAt, AddsCycle, IsTally};
ghost use Rattle.camac_esone.specs.Transfers.{is_by, scan_next};

use crate::address::Address;
use std::marker::Model;

/// A scan of the addresses of a crate: after Q=1 the next sub-address, after A15 and after Q=0 A0 of the next station, until `max`
/// words came or the next address is past the final one (own).
#[derive(Clone, Copy, Debug, PartialEq, Eq)]
pub struct Scan {
    // the next address, whose station may be one past the greatest u32
    c: u32,
    n: u64,
    a: u32,
    last: Address,
    // how many words are missing
    words: u32,
    tally: u32,
}

impl Model for Scan {
    ghost use Rattle.std.specs.Prelude.{◌+◌, ◌<◌, ◌^◌};
    ghost use Rattle.camac_branch.specs.Address.{address};
    ghost use Rattle.camac_esone.specs.InProgress.{ScanState};

    ghost Value = { ScanState };

    ghost view = { λ t. record { at = address t.c t.n t.a; last = t.last; words = t.words; tally = t.tally } };

    ghost invariant = { λ t. t.tally + t.words < 2 ^ 32 };

    ghost inverse = { λ h. record { c = h.at.crate_no; n = h.at.station; a = h.at.sub_address; last = h.last; words = h.words; tally = h.tally } };
}

impl Scan {
    /// The scan before its first cycle; with a `max` of 0, or a first address past the final one, there is none.
    pub fn new(first: Address, last: Address, max: u32) -> Self
        requires one_crate { first.crate_no ≡ last.crate_no }
        ensures state { result ≡ record { at = first; last = last; words = max; tally = 0 } }
        ensures stands { StandsAt (scan_next first last max) (scan_left result) [] }
    {
        Scan {
            c: first.c,
            n: u64::from(first.n),
            a: first.a,
            last,
            words: max,
            tally: 0,
        }
    }

    /// Where the next cycle goes, or none at the end.
    pub fn next(&self) -> Option<Address>
        ensures next_address { result ≡ (scan_left self.now).next_address [] }
        ensures list { LeadsAlongScan (scan_left self.now) result }
    {
        if self.words > 0 && self.is_by_last() {
            Some(Address {
                c: self.c,
                n: self.n as u32,
                a: self.a,
            })
        } else {
            None
        }
    }

    // Whether the next address is not past the final one.
    fn is_by_last(&self) -> bool
        ensures is_by { result ≡ is_by self.now.last self.now.at }
        ensures fits { IsTrue result → self.now.at.station < 2 ^ 32 }
    {
        let last = u64::from(self.last.n);
        self.n < last || (self.n == last && self.a <= self.last.a)
    }

    /// Takes the Q of the cycle that `next` asked for.
    pub fn take(&mut self, q: bool)
        requires { IsSome ((scan_left self.old).next_address []) }
        ensures continues { Continues (scan_left self.old) q (scan_left self.new) }
        ensures stands { AddsCycle (scan_left self.old) q (scan_left self.new) }
    {
        if q {
            self.words -= 1;
            self.tally += 1;
        }
        if q && self.a < 15 {
            self.a += 1;
        } else {
            self.n += 1;
            self.a = 0;
        }
    }

    /// The final address.
    pub fn last(&self) -> Address
        ensures { result ≡ self.now.last }
    {
        self.last
    }

    /// How many words are missing.
    pub fn words(&self) -> u32
        ensures { result ≡ self.now.words }
    {
        self.words
    }

    /// How many cycles had Q=1.
    pub fn tally(&self) -> u32
        ensures tally { result ≡ self.now.tally }
        ensures replies { IsTally (scan_left self.now) result }
    {
        self.tally
    }

    /// How many words the scan gave, the number of the next one, from 0.
    pub fn index(&self) -> usize
        ensures tally { result ≡ self.now.tally }
        ensures replies { IsTally (scan_left self.now) result }
    {
        self.tally as usize
    }
}
