// Where a walk puts the rows of the statements: in a list, or nowhere.

ghost use Rattle.std.specs.Prelude.{◌≡◌, ◌∷◌, [], IfOk, OnOk, None, Some, is_some, map, option_map, unwrap_or};
ghost use Rattle.camac_lang.specs.Tree.{spot_of};
ghost use Rattle.camac_lang.specs.View.{action_of, statement_of};
ghost use Rattle.camac_rules.specs.Capped.{capped};
ghost use Rattle.camac_rules.specs.Cycles.{Around as Surroundings};
ghost use Rattle.camac_check_simple.specs.Gives.{by_code};
ghost use Rattle.camac_check_rows.specs.Rows.{statement_rows, with_rows};
ghost use Rattle.camac_check_rows.specs.Statements.{first_row, kind_of};
ghost use Rattle.camac_check_rows.specs.Turns.{merge};
ghost use Rattle.camac_check_rows.specs.Weights.{inside_row};

use crate::found::Found;
use crate::inside::Weight;
use crate::row::{Detail, Row};
use crate::statement::action_row;
use crate::unreached::unreached_rows;
use camac_check_known::Costs;
use camac_check_simple::Context;
use camac_lang::{Action, Stmt};
use std::alloc::{AllocError, Global};
use std::marker::Model;

/// The rows that a walk has found so far, in the order of the text, or none at all.
#[derive(Drop)]
pub struct Rows {
    kept: Option<Found>,
}

impl Model for Rows {
    ghost use Rattle.std.specs.Prelude.{List, Option};
    ghost use Rattle.camac_check_rows.specs.declared.row.Row.{Row};

    ghost Value = { Option (List Row) };

    ghost view = { λ r. r.kept };
}

impl Rows {
    /// Keeps none.
    pub fn none() -> Rows
        ensures { result ≡ None }
    {
        Rows { kept: None }
    }

    /// Keeps all.
    pub fn new(alloc: Global) -> Rows
        ensures { result ≡ Some [] }
    {
        Rows {
            kept: Some(Found::new(alloc)),
        }
    }

    /// For the rows of a block: keeps all if these are kept.
    pub fn inside(&self, alloc: Global) -> Rows
        ensures { result ≡ option_map (λ before. []) self.now }
    {
        if self.are_kept() {
            Rows::new(alloc)
        } else {
            Rows::none()
        }
    }

    /// Whether they are kept.
    pub fn are_kept(&self) -> bool
        ensures { result ≡ is_some self.now }
    {
        self.kept.is_some()
    }

    /// The rows that were kept. The error is want of memory.
    pub fn into_vec(self, alloc: Global) -> Result<Vec<Row>, AllocError>
        ensures { IfOk result (λ v. v.items ≡ unwrap_or self []) }
    {
        match self.kept {
            Some(found) => found.into_rows(alloc),
            None => Ok(Vec::new(alloc)),
        }
    }

    /// Puts the row of an action that is reached: its share is all that it can cost.
    pub fn put(&mut self, action: &Action, each: Costs, detail: Detail) -> Result<(), AllocError>
        ensures { OnOk result (self.new ≡ with_rows self.old (first_row (spot_of (action_of action.now)) (kind_of (action_of action.now)) 1 each each detail ∷ [])) }
    {
        match &mut self.kept {
            Some(found) => found.push(action_row(action, 1, each, detail)),
            None => Ok(()),
        }
    }

    /// Puts the row of a statement, and then the rows of its block.
    #[inline(always)]
    pub fn put_block(
        &mut self,
        alloc: Global,
        row: Row,
        block: Rows,
        weight: Weight,
    ) -> Result<(), AllocError>
        ensures { OnOk result (self.new ≡ with_rows self.old (row ∷ map (inside_row capped weight) (unwrap_or block []))) }
    {
        match &mut self.kept {
            Some(found) => match block.kept {
                Some(block) => found.push_block(alloc, row, block, weight),
                None => found.push(row),
            },
            None => Ok(()),
        }
    }

    /// Merges the rows of one more turn of an `each` into these, row by row, if they are kept.
    pub fn merge(&mut self, alloc: Global, turn: Rows) -> Result<(), AllocError>
        ensures { OnOk result (self.new ≡ option_map (λ rows. merge capped rows (unwrap_or turn [])) self.old) }
    {
        match &mut self.kept {
            Some(found) => found.merge(alloc, turn.into_vec(alloc)?),
            None => Ok(()),
        }
    }

    /// Puts the rows of a statement that can't be reached.
    pub fn pass_over(
        &mut self,
        alloc: Global,
        context: &Context,
        statement: &Stmt,
    ) -> Result<(), AllocError>
        ensures { (around : Surroundings) → OnOk result (self.new ≡ with_rows self.old (statement_rows (by_code context.now) around (statement_of statement.now) None)) }
    {
        match &mut self.kept {
            Some(found) => found.extend(&unreached_rows(alloc, context, statement)?),
            None => Ok(()),
        }
    }
}
