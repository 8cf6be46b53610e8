// Which services may clear their look-at-mes twice on one way: their texts, walked together with their rows.

ghost use Rattle.std.specs.Prelude.{◌≡◌, ◌<◌, ◌≤◌, ◌+◌, ◌-◌, ◌^◌, ◌++◌, IfOk, OnOk, length, map, min};
ghost use Rattle.camac_lang.specs.View.{action_of, service_of, statement_of, statements_of};
ghost use Rattle.camac_commands.specs.Commands.{behind, behind_block, detail_told, made_alone};
ghost use Rattle.camac_response.specs.Lams.{lams_of};
ghost use Rattle.camac_response.specs.Twice.{clears_alone, clears_block, clears_in, clears_made, cycles_of, in_turns, is_twice, steps_told, turns_told, twice_from, twice_of, up_to_two};

use crate::bodies::{Asked, told_at, told_over};
use crate::clears::lam_at;
use crate::command::{could_clear, places_of};
use camac_branch::Plan;
use camac_check_costs::{BodyCosts, costs_of};
use camac_check_rows::{Detail, Row};
use camac_commands::{behind_first, detail_told, made_alone};
use camac_esone::Address;
use camac_lang::{Action, Service, Stmt};
use camac_rules::Checked;
use std::alloc::{AllocError, Global};

/// Of each service whether there may be a way on which it clears its look-at-me twice. The error is want of memory.
pub fn twice_of(alloc: Global, checked: &Checked) -> Result<Vec<bool>, AllocError>
    ensures { IfOk result (λ v. v.items ≡ twice_of checked.now.plan checked.now.script) }
{
    let costs = costs_of(alloc, checked)?;
    let mut found = Vec::new(alloc);
    let services = checked.script().services();
    push_from(alloc, &mut found, checked, &costs, 0, services)?;
    Ok(found)
}

// Of these services, from this number on.
fn push_from(
    alloc: Global,
    found: &mut Vec<bool>,
    checked: &Checked,
    costs: &[BodyCosts],
    number: usize,
    services: &[Service],
) -> Result<(), AllocError>
    requires { number + length services.now < 2 ^ 64 }
    ensures { OnOk result (found.new.items ≡ found.old.items ++ twice_from checked.now.plan checked.now.script costs.now number (map service_of services.now)) }
{
    let [_, rest @ ..] = services else {
        return Ok(());
    };
    let twice = is_twice(alloc, checked, costs, number)?;
    found.push(twice)?;
    push_from(alloc, found, checked, costs, number + 1, rest)
}

fn is_twice(
    alloc: Global,
    checked: &Checked,
    costs: &[BodyCosts],
    number: usize,
) -> Result<bool, AllocError>
    ensures { IfOk result (λ b. b ≡ is_twice checked.now.plan checked.now.script costs.now number (lams_of checked.now.script number)) }
{
    let script = checked.script();
    let Some(service) = script.services().get(number) else {
        return Ok(false);
    };
    let Some(lam) = lam_at(script.lams(), service.lam) else {
        return Ok(false);
    };
    let plan = checked.plan();
    let found = told_over(alloc, &Cycles { plan, lam }, checked, costs)?;
    Ok(told_at(&found, number, 0) >= 2)
}

// How often a body may clear the look-at-me at an address on one way, up to two.
#[derive(Clone, Copy)]
struct Cycles<'a> {
    plan: &'a Plan,
    lam: Address,
}

impl<'a> Asked for Cycles<'a> {
    type Answer = u32;

    ghost told = { λ q. clears_in q.plan.now q.lam };

    fn of_body(&self, called: &[u32], body: &[Stmt], rows: &[Row]) -> u32 {
        block_clears(self, called, 0, body, rows).0
    }
}

// That of a block, whose rows come first, after so many; and the rows behind them. Of these procedures, by their numbers, it is known.
#[cycle(twice)]
fn block_clears<'r>(
    asked: &Cycles<'_>,
    called: &[u32],
    so_far: u32,
    block: &[Stmt],
    rows: &'r [Row],
) -> (u32, &'r [Row])
    ensures clears { result.0 ≡ clears_block asked.now.plan.now asked.now.lam called.now so_far (statements_of block.now) rows.now }
    ensures behind { result.1.now ≡ behind_block (statements_of block.now) rows.now }
{
    let mut clears = so_far;
    let mut left = rows;
    'statements: for statement in block {
        let (one, behind) = statement_clears(asked, called, statement, left);
        clears = up_to_two(clears, one);
        left = behind;
    }
    (clears, left)
}

#[cycle(twice)]
fn statement_clears<'r>(
    asked: &Cycles<'_>,
    called: &[u32],
    statement: &Stmt,
    rows: &'r [Row],
) -> (u32, &'r [Row])
    ensures clears { result.0 ≡ clears_made asked.now.plan.now asked.now.lam called.now (statement_of statement.now) rows.now }
    ensures behind { result.1.now ≡ behind (statement_of statement.now) rows.now }
{
    let inside = behind_first(rows);
    match statement {
        Stmt::If { then: body, .. } | Stmt::Lock { body, .. } => {
            block_clears(asked, called, 0, body, inside)
        }
        Stmt::IfElse {
            then,
            otherwise,
            ..
        } => {
            let (first, other) = block_clears(asked, called, 0, then, inside);
            let behind = behind_first(other);
            let (second, left) = block_clears(asked, called, 0, otherwise, behind);
            (first.max(second), left)
        }
        Stmt::For { body, .. } | Stmt::ForEach { body, .. } | Stmt::While { body, .. } => {
            let (once, left) = block_clears(asked, called, 0, body, inside);
            (in_turns(turns_told(detail_told(rows)), once), left)
        }
        Stmt::Action(Action::Call(call)) => (told_at(called, call.procedure, 0), inside),
        Stmt::Action(action) => (alone(asked, action, rows), inside),
    }
}

// That of an action that calls no procedure, by its row.
fn alone(asked: &Cycles<'_>, action: &Action, rows: &[Row]) -> u32
    ensures { result ≡ clears_alone asked.now.plan.now asked.now.lam (action_of action.now) (steps_told rows.now) (made_alone (action_of action.now) (detail_told rows.now)) }
{
    let Some(command) = made_alone(action, detail_told(rows)) else {
        return 0;
    };
    if could_clear(asked.plan, asked.lam, &command) {
        cycles_of(
            action,
            steps_told(rows),
            places_of(asked.plan, asked.lam, &command, 0),
        )
    } else {
        0
    }
}

fn cycles_of(action: &Action, steps: u64, places: u32) -> u32
    ensures { result ≡ cycles_of (action_of action.now) steps places }
{
    match action {
        Action::Scan(_) => places.min(transferred(steps)),
        Action::QStop { .. } | Action::QRepeat { .. } => transferred(steps),
        _ => 1,
    }
}

// The cycles of a transfer of so many steps, up to two.
fn transferred(steps: u64) -> u32
    ensures { result ≡ min (steps - 1) 2 }
{
    match steps {
        0 | 1 => 0,
        2 => 1,
        _ => 2,
    }
}

fn in_turns(turns: u64, once: u32) -> u32
    ensures { result ≡ in_turns turns once }
{
    if turns == 0 {
        0
    } else if turns == 1 {
        once
    } else {
        up_to_two(once, once)
    }
}

/// The sum of both, up to two.
pub fn up_to_two(first: u32, second: u32) -> u32
    ensures { result ≡ up_to_two first second }
{
    first.saturating_add(second).min(2)
}

fn steps_told(rows: &[Row]) -> u64
    ensures { result ≡ steps_told rows.now }
{
    match rows {
        [] => 0,
        [row, ..] => row.each.steps(),
    }
}

fn turns_told(detail: Detail) -> u64
    ensures { result ≡ turns_told detail }
{
    match detail {
        Detail::Turns(turns) => turns,
        Detail::Nothing | Detail::At(_) | Detail::Between(..) => 0,
        Detail::Crates(_) | Detail::Procedure(_) => 0,
    }
}
