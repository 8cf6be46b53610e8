// The least line of a command of each service that could clear or hide a look-at-me: its text, walked together with its rows.

ghost use Rattle.std.specs.Prelude.{◌≡◌, IfOk};
ghost use Rattle.camac_lang.specs.View.{action_of, statement_of, statements_of};
ghost use Rattle.camac_commands.specs.Commands.{behind, behind_block, detail_told, made_alone};
ghost use Rattle.camac_response.specs.Unkept.{asks, first_block, first_in, first_made, least_line, lesser, lines_of, with_line};

use crate::bodies::{Asked, told_at, told_over};
use crate::command::{could_clear, could_hide};
use camac_branch::Plan;
use camac_check_costs::BodyCosts;
use camac_check_rows::Row;
use camac_commands::{Command, behind_first, detail_told, made_alone};
use camac_esone::Address;
use camac_lang::{Action, Stmt};
use camac_rules::Checked;
use std::alloc::{AllocError, Global};

/// What is asked of a command, for a look-at-me.
#[derive(Clone, Copy)]
pub enum Question {
    /// Whether it could clear it.
    Clears,
    /// Whether it could hide it.
    Hides,
}

/// Of each service the least line of a command for which the answer is yes, by these rows of its bodies. The error is want of memory.
pub fn lines_of(
    alloc: Global,
    checked: &Checked,
    costs: &[BodyCosts],
    asked: Question,
    lam: Address,
) -> Result<Vec<Option<u32>>, AllocError>
    ensures { IfOk result (λ v. v.items ≡ lines_of checked.now.plan checked.now.script costs.now asked lam) }
{
    let plan = checked.plan();
    told_over(alloc, &Least { plan, asked, lam }, checked, costs)
}

// The least line of a command of a body for which the answer is yes.
#[derive(Clone, Copy)]
struct Least<'a> {
    plan: &'a Plan,
    asked: Question,
    lam: Address,
}

impl<'a> Asked for Least<'a> {
    type Answer = Option<u32>;

    ghost told = { λ q. first_in (asks q.plan.now q.asked q.lam) };

    fn of_body(&self, called: &[Option<u32>], body: &[Stmt], rows: &[Row]) -> Option<u32> {
        block_line(self, called, None, body, rows).0
    }
}

// That of a block, whose rows come first, and of the lines so far; and the rows behind them. Of these procedures, by their numbers, the line is known.
#[cycle(first)]
fn block_line<'r>(
    least: &Least<'_>,
    called: &[Option<u32>],
    so_far: Option<u32>,
    block: &[Stmt],
    rows: &'r [Row],
) -> (Option<u32>, &'r [Row])
    ensures line { result.0 ≡ first_block (asks least.now.plan.now least.now.asked least.now.lam) called.now so_far (statements_of block.now) rows.now }
    ensures behind { result.1.now ≡ behind_block (statements_of block.now) rows.now }
{
    let mut line = so_far;
    let mut left = rows;
    'statements: for statement in block {
        let (next, behind) = statement_line(least, called, line, statement, left);
        line = next;
        left = behind;
    }
    (line, left)
}

#[cycle(first)]
fn statement_line<'r>(
    least: &Least<'_>,
    called: &[Option<u32>],
    so_far: Option<u32>,
    statement: &Stmt,
    rows: &'r [Row],
) -> (Option<u32>, &'r [Row])
    ensures line { result.0 ≡ first_made (asks least.now.plan.now least.now.asked least.now.lam) called.now so_far (statement_of statement.now) rows.now }
    ensures behind { result.1.now ≡ behind (statement_of statement.now) rows.now }
{
    let inside = behind_first(rows);
    match statement {
        Stmt::If { then, .. } => block_line(least, called, so_far, then, inside),
        Stmt::IfElse {
            then,
            otherwise,
            ..
        } => {
            let (first, other) = block_line(least, called, so_far, then, inside);
            let behind = behind_first(other);
            block_line(least, called, first, otherwise, behind)
        }
        Stmt::For { body, .. }
        | Stmt::ForEach { body, .. }
        | Stmt::While { body, .. }
        | Stmt::Lock { body, .. } => { block_line(least, called, so_far, body, inside) }
        Stmt::Action(Action::Call(call)) => (
            lesser(so_far, told_at(called, call.procedure, None)),
            inside,
        ),
        Stmt::Action(action) => (action_line(least, so_far, action, rows), inside),
    }
}

// That of an action that calls no procedure, by what its row tells.
fn action_line(least: &Least<'_>, so_far: Option<u32>, action: &Action, rows: &[Row]) -> Option<u32>
    ensures { result ≡ least_line (asks least.now.plan.now least.now.asked least.now.lam) so_far (made_alone (action_of action.now) (detail_told rows.now)) }
{
    match made_alone(action, detail_told(rows)) {
        Some(command) => with_line(asks(least, &command), command.spot.line, so_far),
        None => so_far,
    }
}

fn asks(least: &Least<'_>, command: &Command) -> bool
    ensures { result ≡ asks least.now.plan.now least.now.asked least.now.lam command.now }
{
    match least.asked {
        Question::Clears => could_clear(least.plan, least.lam, command),
        Question::Hides => could_hide(least.lam, command),
    }
}

fn lesser(so_far: Option<u32>, line: Option<u32>) -> Option<u32>
    ensures { result ≡ lesser so_far line }
{
    match line {
        Some(line) => with_line(true, line, so_far),
        None => so_far,
    }
}

fn with_line(passes: bool, line: u32, so_far: Option<u32>) -> Option<u32>
    ensures { result ≡ with_line passes line so_far }
{
    match (passes, so_far) {
        (false, _) => so_far,
        (true, None) => Some(line),
        (true, Some(other)) => Some(line.min(other)),
    }
}
