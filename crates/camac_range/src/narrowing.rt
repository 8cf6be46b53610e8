// What a comparison leaves of a range.

ghost use Rattle.std.specs.Prelude.{◌≡◌};
ghost use Rattle.camac_range.specs.Interval.{interval};
ghost use Rattle.camac_range.specs.Narrow.{below, above, without, narrow};

use crate::comparison::Cmp;
use crate::range::Range;

/// The smallest range around the numbers of `range` that compare so with some number of `other`, if there is one.
pub fn narrow(comparison: Cmp, range: Range, other: Range) -> Option<Range>
    ensures { result ≡ narrow comparison range other }
{
    match comparison {
        Cmp::Less => below(range, other.hi()),
        Cmp::AtMost => range.meet(Range::new(0, other.hi())?),
        Cmp::More => above(range, other.lo()),
        Cmp::AtLeast => range.meet(Range::new(other.lo(), u32::MAX)?),
        Cmp::Same => range.meet(other),
        Cmp::Differs => {
            if other.lo() == other.hi() {
                without(range, other.lo())
            } else {
                Some(range)
            }
        }
    }
}

// The numbers below a number.
fn below(range: Range, number: u32) -> Option<Range>
    ensures { result ≡ below range number }
{
    let last = number.checked_sub(1)?;
    range.meet(Range::new(0, last)?)
}

// The numbers above a number.
fn above(range: Range, number: u32) -> Option<Range>
    ensures { result ≡ above range number }
{
    let first = number.checked_add(1)?;
    range.meet(Range::new(first, u32::MAX)?)
}

// All numbers but one that is an end.
fn without(range: Range, number: u32) -> Option<Range>
    ensures { result ≡ without range number }
{
    if range.lo() == number {
        above(range, number)
    } else if range.hi() == number {
        below(range, number)
    } else {
        Some(range)
    }
}
