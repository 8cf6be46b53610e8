// How rows of a block count in the statement that it stands in.

ghost use Rattle.std.specs.Prelude.{◌≡◌, ◌++◌, OnOk, map};
ghost use Rattle.camac_model.specs.Fine.{Bounds};
ghost use Rattle.camac_check_rows.specs.Weights.{first_arm, inside_row, laid_row, level, once, second_arm, turning, weighed};
ghost use Rattle.camac_rules.specs.Capped.{capped};

use crate::row::Row;
use camac_check_known::Costs;
use std::alloc::{AllocError, Global};

/// How often what stands in a block counts for one time of its statement: at most, and in the bound for cycles, words and steps.
#[derive(Clone, Copy)]
pub struct Weight {
    pub times: u64,
    pub cycles: u64,
    pub words: u64,
    pub steps: u64,
}

/// Once.
pub fn once() -> Weight
    ensures { result ≡ once }
{
    Weight {
        times: 1,
        cycles: 1,
        words: 1,
        steps: 1,
    }
}

/// In a loop of so many turns.
pub fn turning(turns: u64) -> Weight
    ensures { result ≡ turning turns }
{
    Weight {
        times: turns,
        cycles: turns,
        words: turns,
        steps: turns,
    }
}

/// In the first arm of a choice: each of its numbers counts that is not below that of the second.
pub fn first_arm(first: Costs, second: Costs) -> Weight
    ensures { result ≡ first_arm first second }
{
    Weight {
        times: 1,
        cycles: u64::from(first.cycles() >= second.cycles()),
        words: u64::from(first.words() >= second.words()),
        steps: u64::from(first.steps() >= second.steps()),
    }
}

/// In the second arm: each of its numbers counts that is above that of the first.
pub fn second_arm(first: Costs, second: Costs) -> Weight
    ensures { result ≡ second_arm first second }
{
    Weight {
        times: 1,
        cycles: u64::from(first.cycles() < second.cycles()),
        words: u64::from(first.words() < second.words()),
        steps: u64::from(first.steps() < second.steps()),
    }
}

/// How rows of a block count in the statement that it stands in, or in one around that: so many levels deeper, and how often.
#[derive(Clone, Copy)]
pub struct Level {
    deeper: u64,
    weight: Weight,
}

impl Level {
    /// In the statement that the block stands in.
    pub fn of(weight: Weight) -> Level
        ensures { result ≡ level 1 weight }
    {
        Level { deeper: 1, weight }
    }

    /// Of a block in this one.
    pub fn within(self, inner: Weight) -> Level
        ensures { (row : Row) → laid_row capped result row ≡ laid_row capped self (inside_row capped inner row) }
    {
        let weight = Weight {
            times: self.weight.times.saturating_mul(inner.times),
            cycles: self.weight.cycles.saturating_mul(inner.cycles),
            words: self.weight.words.saturating_mul(inner.words),
            steps: self.weight.steps.saturating_mul(inner.steps),
        };
        Level {
            deeper: self.deeper.saturating_add(1),
            weight,
        }
    }

    /// A row of the block.
    #[inline(always)]
    pub fn laid(self, row: &Row) -> Row
        ensures { result ≡ laid_row capped self row.now }
    {
        Row {
            spot: row.spot,
            depth: self.deeper.saturating_add(row.depth),
            kind: row.kind,
            times: self.weight.times.saturating_mul(row.times),
            each: if self.weight.times == 0 {
                Costs::new(0, 0, 0)
            } else {
                row.each
            },
            share: weighed(self.weight, row.share),
            detail: row.detail,
        }
    }
}

/// Puts the rows of a block after those of its statement.
pub fn push_inside(rows: &mut Vec<Row>, inner: &[Row], weight: Weight) -> Result<(), AllocError>
    ensures { OnOk result (rows.new.items ≡ rows.old.items ++ map (inside_row capped weight) inner.now) }
{
    push_laid(rows, inner, Level::of(weight))
}

/// Puts rows of a block at this level.
pub fn push_laid(rows: &mut Vec<Row>, inner: &[Row], level: Level) -> Result<(), AllocError>
    ensures { OnOk result (rows.new.items ≡ rows.old.items ++ map (laid_row capped level) inner.now) }
{
    'inner: for row in inner {
        rows.push(level.laid(row))?;
    }
    Ok(())
}

fn weighed(weight: Weight, share: Costs) -> Costs
    ensures { result ≡ capped (weighed weight share) }
{
    Costs::new(
        weight.cycles.saturating_mul(share.cycles()),
        weight.words.saturating_mul(share.words()),
        weight.steps.saturating_mul(share.steps()),
    )
}
