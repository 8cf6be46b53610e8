// The rows of blocks as they are found. How often each block is made is kept beside them, and all are laid out once, however deep they stand.

ghost use Rattle.std.specs.Prelude.{◌≡◌, ◌∷◌, ◌++◌, [], IfOk, OnOk, flat_map, map};
ghost use Rattle.camac_rules.specs.Capped.{capped};
ghost use Rattle.camac_check_rows.specs.Laid.{part_rows};
ghost use Rattle.camac_check_rows.specs.Turns.{merge};
ghost use Rattle.camac_check_rows.specs.Weights.{inside_row, laid_row};

use crate::inside::{Level, Weight, push_laid};
use crate::row::{Detail, Row};
use crate::turns::merge_rows;
use std::alloc::{AllocError, Global};
use std::marker::Model;
use std::mem;

/// The rows of a block as they are found: those up to the end of its last inner block, and those after it.
#[derive(Drop)]
pub struct Found {
    parts: Vec<Part>,
    last: Vec<Row>,
}

impl Model for Found {
    ghost use Rattle.std.specs.Prelude.{List, ◌++◌, flat_map, map};
    ghost use Rattle.camac_check_rows.specs.declared.row.Row.{Row};
    ghost use Rattle.camac_check_rows.specs.Laid.{part_rows};

    ghost Value = { List Row };

    ghost view = { λ f. flat_map (λ rows. rows) (map part_rows f.parts.items) ++ f.last.items };
}

/// A statement with a block: the rows before it, its own, and those of the block with their weight.
#[derive(Drop)]
pub struct Part {
    before: Vec<Row>,
    own: Row,
    weight: Weight,
    parts: Vec<Part>,
    last: Vec<Row>,
}

impl Found {
    /// No rows.
    pub fn new(alloc: Global) -> Found
        ensures { result ≡ [] }
    {
        Found {
            parts: Vec::new(alloc),
            last: Vec::new(alloc),
        }
    }

    /// Puts a row at the end.
    pub fn push(&mut self, row: Row) -> Result<(), AllocError>
        ensures { OnOk result (self.new ≡ self.old ++ (row ∷ [])) }
    {
        // The kit's borrow checker wants the type of the detail named here.
        let detail: Detail = row.detail;
        Ok(self.last.push(Row { detail, ..row })?)
    }

    /// Puts rows at the end.
    pub fn extend(&mut self, rows: &[Row]) -> Result<(), AllocError>
        ensures { OnOk result (self.new ≡ self.old ++ rows.now) }
    {
        Ok(self.last.extend_from_slice(rows)?)
    }

    /// Puts the row of a statement at the end, and then the rows of its block.
    #[inline(never)]
    pub fn push_block(
        &mut self,
        alloc: Global,
        row: Row,
        block: Found,
        weight: Weight,
    ) -> Result<(), AllocError>
        ensures { OnOk result (self.new ≡ self.old ++ (row ∷ map (inside_row capped weight) block)) }
    {
        let before = mem::replace(&mut self.last, Vec::new(alloc));
        let part = Part {
            before,
            own: row,
            weight,
            parts: block.parts,
            last: block.last,
        };
        Ok(self.parts.push(part)?)
    }

    /// Merges the rows of one more turn into these, row by row.
    pub fn merge(&mut self, alloc: Global, turn: Vec<Row>) -> Result<(), AllocError>
        ensures { OnOk result (self.new ≡ merge capped self.old turn.items) }
    {
        let parts = mem::replace(&mut self.parts, Vec::new(alloc));
        let last = mem::replace(&mut self.last, Vec::new(alloc));
        let mut rows = Found { parts, last }.into_rows(alloc)?;
        merge_rows(&mut rows, &turn)?;
        self.last = rows;
        Ok(())
    }

    /// Lays all rows out.
    pub fn into_rows(self, alloc: Global) -> Result<Vec<Row>, AllocError>
        ensures { IfOk result (λ v. v.items ≡ self) }
    {
        if self.parts.is_empty() {
            return Ok(self.last);
        }
        let mut rows = Vec::new(alloc);
        'parts: for part in &self.parts {
            lay_outer(&mut rows, part)?;
        }
        rows.extend_from_slice(&self.last)?;
        Ok(rows)
    }
}

// Puts the rows of a part that stands in no block.
fn lay_outer(rows: &mut Vec<Row>, part: &Part) -> Result<(), AllocError>
    ensures { OnOk result (rows.new.items ≡ rows.old.items ++ part_rows part.now) }
{
    rows.extend_from_slice(&part.before)?;
    let detail: Detail = part.own.detail;
    rows.push(Row { detail, ..part.own })?;
    lay(rows, &part.parts, &part.last, Level::of(part.weight))
}

// Puts the rows of a block at this level after those of its statement.
#[cycle(laid)]
fn lay(rows: &mut Vec<Row>, parts: &[Part], last: &[Row], level: Level) -> Result<(), AllocError>
    ensures { OnOk result (rows.new.items ≡ rows.old.items ++ map (laid_row capped level) (flat_map (λ r. r) (map part_rows parts.now) ++ last.now)) }
{
    'parts: for part in parts {
        lay_part(rows, part, level)?;
    }
    push_laid(rows, last, level)
}

// Puts the rows of a part at this level.
#[cycle(laid)]
fn lay_part(rows: &mut Vec<Row>, part: &Part, level: Level) -> Result<(), AllocError>
    ensures { OnOk result (rows.new.items ≡ rows.old.items ++ map (laid_row capped level) (part_rows part.now)) }
{
    push_laid(rows, &part.before, level)?;
    rows.push(level.laid(&part.own))?;
    lay(rows, &part.parts, &part.last, level.within(part.weight))
}
