// What is forgotten at the head of a loop: the ranges of what its body writes, and the registers that it sets.

ghost use Rattle.std.specs.Prelude.{◌≡◌, OnOk};
ghost use Rattle.camac_lang.specs.View.{action_of, statement_of, statements_of};
ghost use Rattle.camac_rules.specs.Writes.{forget, forget_block};

use camac_check_known::Facts;
use camac_lang::{Action, Move, Stmt};
use std::alloc::AllocError;

/// Leaves any number in each variable that a block writes, where each register that it sets may be unset from here on.
#[cycle(forget)]
pub fn forget_block(left: &mut Facts, block: &[Stmt]) -> Result<(), AllocError>
    ensures { OnOk result (left.new ≡ forget_block (statements_of block.now) left.old) }
{
    'statements: for statement in block {
        if let Stmt::Action(Action::Assign(assignment)) = statement {
            left.forget_variable(assignment.variable)?;
        } else {
            forget(left, statement)?;
        }
    }
    Ok(())
}

// The same of a statement. It stands apart, so that a block of assignments is walked quickly.
#[inline(never)]
#[cycle(forget)]
fn forget(left: &mut Facts, statement: &Stmt) -> Result<(), AllocError>
    ensures { OnOk result (left.new ≡ forget (statement_of statement.now) left.old) }
{
    match statement {
        Stmt::Action(action) => forget_action(left, action),
        Stmt::If { then, .. } => forget_block(left, then),
        Stmt::IfElse {
            then,
            otherwise,
            ..
        } => {
            forget_block(left, then)?;
            forget_block(left, otherwise)
        }
        Stmt::For { head, body } => {
            forget_block(left, body)?;
            left.forget_variable(head.variable)
        }
        Stmt::ForEach { variable, body, .. } => {
            forget_block(left, body)?;
            left.forget_variable(*variable)
        }
        Stmt::While { body, .. } | Stmt::Lock { body, .. } => forget_block(left, body),
    }
}

fn forget_action(left: &mut Facts, action: &Action) -> Result<(), AllocError>
    ensures { OnOk result (left.new ≡ forget (action_of action.now) left.old) }
{
    match action {
        Action::Assign(assignment) => left.forget_variable(assignment.variable),
        Action::SetRegister(setting) => left.forget_register(setting.register),
        Action::Single(single) => match single.data {
            Move::Into(variable) => left.forget_variable(variable),
            Move::NoData | Move::From(_) => Ok(()),
        },
        Action::Scan(scan) => left.forget_variable(scan.tally),
        Action::QStop { transfer } | Action::QRepeat { transfer, .. } => {
            left.forget_variable(transfer.tally)
        }
        Action::Put(_) | Action::CrateCall(_) | Action::LamCall(_) | Action::Call(_) => Ok(()),
    }
}
