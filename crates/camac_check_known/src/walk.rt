// Walks over the numbers of a range, each as the rules define it.

ghost use Rattle.std.specs.Prelude.{◌≡◌, ◌<◌, ◌≤◌, ◌+◌, min};
ghost use Rattle.camac_check_known.specs.Gives.{IsFirstFailing, IsHull};

use camac_range::Range;

/// Where a walk over the numbers up to `last` ends that has to stay below `end`.
pub fn end_of(last: u32, end: u32) -> u32
    ensures end { result ≡ min (last + 1) end }
    ensures below { result ≤ end }
{
    if last < end { last + 1 } else { end }
}

/// The first number from one on, below an end, of which a test does not hold.
#[tactic(auto, using(crate::proofs::Walks::first_steps))]
pub fn first_failing<F: Fn(u32) -> bool>(from: u32, end: u32, test: F) -> Option<u32>
    requires { (n : _) → n < end → F.pre test n }
    ensures { IsFirstFailing (F.post test) from end result }
{
    for n in from..end {
        if !test(n) {
            return Some(n);
        }
    }
    None
}

/// The smallest range around the ranges of all numbers from one on, below an end; None where one of them has none, or where there is no
/// number.
#[tactic(auto, using(crate::proofs::Walks::hull_steps))]
pub(crate) fn hull_from<F: Fn(u32) -> Option<Range>>(from: u32, end: u32, range: F) -> Option<Range>
    requires { (n : _) → n < end → F.pre range n }
    ensures { IsHull (F.post range) from end result }
{
    if from >= end {
        return None;
    }
    let first = range(from)?;
    if from + 1 >= end {
        return Some(first);
    }
    let rest = hull_from(from + 1, end, range)?;
    Some(first.hull(rest))
}
