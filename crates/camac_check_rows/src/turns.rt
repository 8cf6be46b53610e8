// The rows of two turns of an `each` as one.

ghost use Rattle.std.specs.Prelude.{◌≡◌, OnOk};
ghost use Rattle.camac_rules.specs.Capped.{capped};
ghost use Rattle.camac_check_rows.specs.Turns.{merge, merged, most_of, wider};

use crate::row::{Detail, Row};
use camac_check_known::Costs;
use std::alloc::AllocError;

/// Merges the rows of one more turn into those of the turns so far, row by row.
pub fn merge_rows(rows: &mut Vec<Row>, turn: &[Row]) -> Result<(), AllocError>
    ensures { OnOk result (rows.new.items ≡ merge capped rows.old.items turn.now) }
{
    let end = rows.len().min(turn.len());
    'rows: for i in 0..end {
        let both = merged(&rows[i], &turn[i]);
        rows[i] = both;
    }
    Ok(rows.extend_from_slice(&turn[end..])?)
}

fn merged(row: &Row, other: &Row) -> Row
    ensures { result ≡ merged capped row.now other.now }
{
    Row {
        spot: row.spot,
        depth: row.depth,
        kind: row.kind,
        times: row.times.saturating_add(other.times),
        each: most_of(row.each, other.each),
        share: row.share.then(other.share),
        detail: wider(row.detail, other.detail),
    }
}

// The greater of each number.
fn most_of(first: Costs, second: Costs) -> Costs
    ensures { result ≡ most_of first second }
{
    Costs::new(
        first.cycles().max(second.cycles()),
        first.words().max(second.words()),
        first.steps().max(second.steps()),
    )
}

// What two turns tell of one statement.
fn wider(first: Detail, second: Detail) -> Detail
    ensures { result ≡ wider first second }
{
    match first {
        Detail::Nothing => second,
        Detail::At(g) => match second {
            Detail::At(h) => Detail::At(g.join(h)),
            _ => first,
        },
        Detail::Between(g, h) => match second {
            Detail::Between(a, b) => Detail::Between(g.join(a), h.join(b)),
            _ => first,
        },
        Detail::Turns(m) => match second {
            Detail::Turns(n) => Detail::Turns(m.max(n)),
            _ => first,
        },
        Detail::Crates(r) => match second {
            Detail::Crates(s) => Detail::Crates(r.hull(s)),
            _ => first,
        },
        Detail::Procedure(_) => first,
    }
}
