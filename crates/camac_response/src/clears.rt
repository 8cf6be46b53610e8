// Whether a service clears its look-at-me on every way: its text, walked together with its rows.

ghost use Rattle.std.specs.Prelude.{◌≡◌, IfOk, map, slice_get};
ghost use Rattle.std.specs.List.{list_any};
ghost use Rattle.camac_lang.specs.View.{action_of, lam_of, statement_of, statements_of, term_of};
ghost use Rattle.camac_model.specs.Meaning.{lam_address};
ghost use Rattle.camac_commands.specs.Commands.{behind, behind_block, made_at, told_region};
ghost use Rattle.camac_commands.specs.Surely.{has_turn, is_some_number, surely, surely_alone, surely_block};
ghost use Rattle.camac_response.specs.Reach.{clears_lam, must_clear};

use crate::bodies::{Asked, told_at, told_over};
use crate::command::must_clear;
use camac_branch::Plan;
use camac_check_costs::BodyCosts;
use camac_check_rows::{Detail, Row};
use camac_commands::{Command, behind_first, detail_told, told_region};
use camac_esone::{Address, lam_function};
use camac_lang::{Action, Form, Lam, Spot, Stmt, Term};
use camac_rules::Checked;
use camac_word::Function;
use std::alloc::{AllocError, Global};

/// Whether the service of this number clears the look-at-me at an address, wherever it ends, by these rows of its bodies. The error is want of memory.
pub fn clears_lam(
    alloc: Global,
    checked: &Checked,
    costs: &[BodyCosts],
    lam: Address,
    number: usize,
) -> Result<bool, AllocError>
    ensures { IfOk result (λ b. b ≡ clears_lam checked.now.plan checked.now.script costs.now lam number) }
{
    let plan = checked.plan();
    let found = told_over(alloc, &Clearing { plan, lam }, checked, costs)?;
    Ok(told_at(&found, number, false))
}

// Whether a body clears the look-at-me at an address, wherever it ends.
#[derive(Clone, Copy)]
struct Clearing<'a> {
    plan: &'a Plan,
    lam: Address,
}

impl<'a> Asked for Clearing<'a> {
    type Answer = bool;

    ghost told = { λ q. surely_block (must_clear q.plan.now q.lam) };

    fn of_body(&self, called: &[bool], body: &[Stmt], rows: &[Row]) -> bool {
        block_clears(self, called, body, rows).0
    }
}

// Whether a block does, whose rows come first, and the rows behind them. Of these procedures, by their numbers, is known whether they do.
#[cycle(clears)]
fn block_clears<'r>(
    asked: &Clearing<'_>,
    called: &[bool],
    block: &[Stmt],
    rows: &'r [Row],
) -> (bool, &'r [Row])
    ensures clears { result.0 ≡ surely_block (must_clear asked.now.plan.now asked.now.lam) called.now (statements_of block.now) rows.now }
    ensures behind { result.1.now ≡ behind_block (statements_of block.now) rows.now }
{
    let mut clears = false;
    let mut left = rows;
    'statements: for statement in block {
        let (one, behind) = statement_clears(asked, called, statement, left);
        clears = clears || one;
        left = behind;
    }
    (clears, left)
}

#[cycle(clears)]
fn statement_clears<'r>(
    asked: &Clearing<'_>,
    called: &[bool],
    statement: &Stmt,
    rows: &'r [Row],
) -> (bool, &'r [Row])
    ensures clears { result.0 ≡ surely (must_clear asked.now.plan.now asked.now.lam) called.now (statement_of statement.now) rows.now }
    ensures behind { result.1.now ≡ behind (statement_of statement.now) rows.now }
{
    let inside = behind_first(rows);
    match statement {
        Stmt::If { then: body, .. } | Stmt::While { body, .. } => {
            (false, block_clears(asked, called, body, inside).1)
        }
        Stmt::IfElse {
            then,
            otherwise,
            ..
        } => {
            let (first, other) = block_clears(asked, called, then, inside);
            let (second, left) = block_clears(asked, called, otherwise, behind_first(other));
            (first && second, left)
        }
        Stmt::For { head, body } => {
            let (clears, left) = block_clears(asked, called, body, inside);
            (has_turn(head.from.term(), head.to.term()) && clears, left)
        }
        Stmt::ForEach {
            first,
            last,
            body,
            ..
        } => {
            let (clears, left) = block_clears(asked, called, body, inside);
            (first <= last && clears, left)
        }
        Stmt::Lock { body, .. } => block_clears(asked, called, body, inside),
        Stmt::Action(Action::Call(call)) => (told_at(called, call.procedure, false), inside),
        Stmt::Action(action) => (clears_alone(asked, action, detail_told(rows)), inside),
    }
}

// Whether an action does that calls no procedure.
fn clears_alone(asked: &Clearing<'_>, action: &Action, detail: Detail) -> bool
    ensures { result ≡ surely_alone (must_clear asked.now.plan.now asked.now.lam) (action_of action.now) detail }
{
    match action {
        Action::Single(single) => command_clears(asked, single.spot, single.function, detail),
        Action::QStop { transfer } => {
            is_some_number(transfer.max.term())
                && command_clears(asked, transfer.spot, transfer.function, detail)
        }
        Action::QRepeat { transfer, limit } => {
            is_some_number(transfer.max.term())
                && is_some_number(limit.term())
                && command_clears(asked, transfer.spot, transfer.function, detail)
        }
        Action::LamCall(action) => {
            let function = lam_function(action.call);
            command_clears(asked, action.spot, function, detail)
        }
        _ => false,
    }
}

// Whether a command does, at the addresses that its row tells.
fn command_clears(asked: &Clearing<'_>, spot: Spot, function: Function, detail: Detail) -> bool
    ensures { result ≡ list_any (must_clear asked.now.plan.now asked.now.lam) (made_at spot function (told_region detail)) }
{
    match told_region(detail) {
        Some(region) => must_clear(
            asked.plan,
            asked.lam,
            &Command {
                spot,
                function,
                region,
            },
        ),
        None => false,
    }
}

/// Where the LAM of this number stands.
pub fn lam_at(lams: &[Lam], number: usize) -> Option<Address>
    ensures { result ≡ slice_get (map lam_address (map lam_of lams.now)) number }
{
    match lams.get(number) {
        Some(lam) => Some(Address {
            c: lam.crate_no,
            n: lam.station,
            a: lam.sub_address.get(),
        }),
        None => None,
    }
}

// Whether a `for` from one number to another has a turn.
fn has_turn(from: Term<'_>, to: Term<'_>) -> bool
    ensures { result ≡ has_turn (term_of from.entry) (term_of to.entry) }
{
    match (from.form(), to.form()) {
        (Form::Number(first), Form::Number(last)) => first <= last,
        _ => false,
    }
}

// Whether it is a number from 1 on.
fn is_some_number(term: Term<'_>) -> bool
    ensures { result ≡ is_some_number (term_of term.entry) }
{
    match term.form() {
        Form::Number(number) => 1 <= number,
        _ => false,
    }
}
