// The rows of what can't be reached: all of its numbers are 0.

ghost use Rattle.std.specs.Prelude.{◌≡◌, ◌++◌, IfOk, OnOk, None};
ghost use Rattle.camac_lang.specs.View.{statement_of, statements_of};
ghost use Rattle.camac_rules.specs.Cycles.{Around as Surroundings};
ghost use Rattle.camac_check_simple.specs.Gives.{by_code};
ghost use Rattle.camac_check_rows.specs.Rows.{block_rows, inside, statement_rows};

use crate::inside::{Weight, first_arm, once, push_inside, second_arm, turning};
use crate::row::{Kind, Row};
use crate::statement::{action_row, detail_of, else_row, unreached_row};
use camac_check_known::Costs;
use camac_check_simple::Context;
use camac_lang::Stmt;
use std::alloc::{AllocError, Global};

/// The rows of a statement that can't be reached.
#[cycle(unreached)]
#[tactic(auto, unfolding(camac_rules::specs::Refusal::if_reached))]
pub fn unreached_rows(
    alloc: Global,
    context: &Context,
    statement: &Stmt,
) -> Result<Vec<Row>, AllocError>
    ensures { (around : Surroundings) → IfOk result (λ v. v.items ≡ statement_rows (by_code context.now) around (statement_of statement.now) None) }
{
    let nothing = Costs::new(0, 0, 0);
    let mut rows = Vec::new(alloc);
    match statement {
        Stmt::Action(action) => {
            let detail = detail_of(context, action, None)?;
            rows.push(action_row(action, 0, nothing, detail))?;
            Ok(rows)
        }
        Stmt::If { spot, then, .. } => {
            rows.push(unreached_row(*spot, Kind::If))?;
            push_unreached(alloc, context, &mut rows, then, once())?;
            Ok(rows)
        }
        Stmt::IfElse {
            spot,
            then,
            otherwise,
            ..
        } => {
            rows.push(unreached_row(*spot, Kind::If))?;
            let first = first_arm(nothing, nothing);
            push_unreached(alloc, context, &mut rows, then, first)?;
            rows.push(else_row(*spot, 0, nothing))?;
            let second = second_arm(nothing, nothing);
            push_unreached(alloc, context, &mut rows, otherwise, second)?;
            Ok(rows)
        }
        Stmt::For { head, body } => {
            rows.push(unreached_row(head.spot, Kind::For))?;
            push_unreached(alloc, context, &mut rows, body, turning(0))?;
            Ok(rows)
        }
        Stmt::While { head, body } => {
            rows.push(unreached_row(head.spot, Kind::While))?;
            push_unreached(alloc, context, &mut rows, body, turning(0))?;
            Ok(rows)
        }
        Stmt::ForEach { spot, body, .. } => {
            rows.push(unreached_row(*spot, Kind::For))?;
            push_unreached(alloc, context, &mut rows, body, once())?;
            Ok(rows)
        }
        Stmt::Lock { spot, body, .. } => {
            rows.push(unreached_row(*spot, Kind::Lock))?;
            push_unreached(alloc, context, &mut rows, body, once())?;
            Ok(rows)
        }
    }
}

// Puts the rows of a block that can't be reached after those of its statement.
#[cycle(unreached)]
fn push_unreached(
    alloc: Global,
    context: &Context,
    rows: &mut Vec<Row>,
    block: &[Stmt],
    weight: Weight,
) -> Result<(), AllocError>
    ensures { (around : Surroundings) → OnOk result (rows.new.items ≡ rows.old.items ++ inside (by_code context.now) weight (block_rows (by_code context.now) around (statements_of block.now) None)) }
{
    'statements: for statement in block {
        let inner = unreached_rows(alloc, context, statement)?;
        push_inside(rows, &inner, weight)?;
    }
    Ok(())
}
