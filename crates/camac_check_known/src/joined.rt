// What is known where two ways meet.

ghost use Rattle.std.specs.Prelude.{◌≡◌, IfOk};
ghost use Rattle.camac_rules.specs.Joined.{hulls, join_set, join_registers, join_facts, join};

use crate::known::{Facts, Region, range_in, region_in};
use camac_range::Range;
use std::alloc::{AllocError, Global};

/// What is known where two ways meet. A way that can't be reached adds nothing.
pub fn join(
    alloc: Global,
    first: Option<Facts>,
    second: Option<Facts>,
) -> Result<Option<Facts>, AllocError>
    ensures { IfOk result (λ k. k ≡ join first second) }
{
    match first {
        None => Ok(second),
        Some(first) => match second {
            None => Ok(Some(first)),
            Some(second) => Ok(Some(first.join(alloc, &second)?)),
        },
    }
}

/// The smallest range around both of each variable.
pub fn hulls(alloc: Global, first: &[Range], second: &[Range]) -> Result<Vec<Range>, AllocError>
    ensures { IfOk result (λ v. v.items ≡ hulls first.now second.now) }
{
    let end = first.len().max(second.len());
    let mut all = Vec::with_capacity(alloc, end)?;
    'places: for i in 0..end {
        all.push(range_in(first, i).hull(range_in(second, i)))?;
    }
    Ok(all)
}

/// The addresses of each register that is set on both sides.
pub fn join_registers(
    alloc: Global,
    first: &[Option<Region>],
    second: &[Option<Region>],
) -> Result<Vec<Option<Region>>, AllocError>
    ensures { IfOk result (λ v. v.items ≡ join_registers first.now second.now) }
{
    let end = first.len().min(second.len());
    let mut all = Vec::with_capacity(alloc, end)?;
    'places: for i in 0..end {
        all.push(join_set(region_in(first, i), region_in(second, i)))?;
    }
    Ok(all)
}

fn join_set(first: Option<Region>, second: Option<Region>) -> Option<Region>
    ensures { result ≡ join_set first second }
{
    let first = first?;
    let second = second?;
    Some(first.join(second))
}
