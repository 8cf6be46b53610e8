// A range of numbers and its operators.

ghost use Rattle.std.specs.Prelude.{◌≡◌, ◌≤◌, IsTrue};
ghost use Rattle.camac_range.specs.Interval.{interval, only, span, is_inside, meet, hull};
ghost use Rattle.camac_range.specs.Operators.{add, sub, mul, div, rem};

use std::marker::Model;

// The range of an operator from its lowest and its highest number, if each is a number.
macro_rules! between {
    ($lo:expr, $hi:expr) => {
        match ($lo, $hi) {
            (Some(lo), Some(hi)) => Some(Range { lo, hi }),
            _ => None,
        }
    };
}

/// The numbers from `lo` to `hi`, both included. A range has at least one number.
#[derive(Clone, Copy, Debug, PartialEq, Eq)]
pub struct Range {
    lo: u32,
    hi: u32,
}

impl Model for Range {
    ghost use Rattle.std.specs.Prelude.{◌≤◌};
    ghost use Rattle.camac_range.specs.Interval.{Interval};

    ghost Value = { Interval };

    ghost view = { λ r. record { lo = r.lo; hi = r.hi } };

    ghost invariant = { λ r. r.lo ≤ r.hi };

    ghost inverse = { λ i. record { lo = i.lo; hi = i.hi } };
}

impl Range {
    /// The numbers from `lo` to `hi`, if there is one.
    pub fn new(lo: u32, hi: u32) -> Option<Self>
        ensures { result ≡ span lo hi }
    {
        if lo <= hi {
            Some(Range { lo, hi })
        } else {
            None
        }
    }

    /// One number alone.
    pub fn only(number: u32) -> Self
        ensures { result ≡ only number }
    {
        Range {
            lo: number,
            hi: number,
        }
    }

    /// The lowest number.
    pub fn lo(self) -> u32
        ensures value { result ≡ self.lo }
        ensures ordered { self.lo ≤ self.hi }
    {
        let Range { lo, .. } = self;
        lo
    }

    /// The highest number.
    pub fn hi(self) -> u32
        ensures value { result ≡ self.hi }
        ensures ordered { self.lo ≤ self.hi }
    {
        let Range { hi, .. } = self;
        hi
    }

    /// Whether each number of this range is in the other.
    pub fn is_inside(self, other: Range) -> bool
        ensures { result ≡ is_inside self other }
    {
        other.lo <= self.lo && self.hi <= other.hi
    }

    /// The numbers that are in both, if there is one.
    pub fn meet(self, other: Range) -> Option<Self>
        ensures { result ≡ meet self other }
    {
        Range::new(self.lo.max(other.lo), self.hi.min(other.hi))
    }

    /// The smallest range around both.
    pub fn hull(self, other: Range) -> Self
        ensures { result ≡ hull self other }
    {
        Range {
            lo: self.lo.min(other.lo),
            hi: self.hi.max(other.hi),
        }
    }

    /// The sums, unless the highest is above `u32::MAX`.
    pub fn add(self, other: Range) -> Option<Self>
        ensures { result ≡ add self other }
    {
        between!(self.lo.checked_add(other.lo), self.hi.checked_add(other.hi))
    }

    /// The differences, unless the lowest is below 0.
    pub fn sub(self, other: Range) -> Option<Self>
        ensures { result ≡ sub self other }
    {
        between!(self.lo.checked_sub(other.hi), self.hi.checked_sub(other.lo))
    }

    /// The products, unless the highest is above `u32::MAX`.
    pub fn mul(self, other: Range) -> Option<Self>
        ensures { result ≡ mul self other }
    {
        between!(self.lo.checked_mul(other.lo), self.hi.checked_mul(other.hi))
    }

    /// The quotients by a literal, rounded down, unless it is 0.
    pub fn div(self, literal: u32) -> Option<Self>
        ensures { result ≡ div self literal }
    {
        between!(self.lo.checked_div(literal), self.hi.checked_div(literal))
    }

    /// The remainders by a literal, unless it is 0: all below it, or this range where it lies below the literal.
    pub fn rem(self, literal: u32) -> Option<Self>
        ensures { result ≡ rem self literal }
    {
        if self.hi < literal {
            Some(self)
        } else {
            between!(Some(0), literal.checked_sub(1))
        }
    }
}
