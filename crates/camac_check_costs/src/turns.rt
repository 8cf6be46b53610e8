// The last turns that the checker begins of the loops around a statement.

ghost use Rattle.std.specs.Prelude.{◌≡◌, [], ◌++◌, IfOk, OnOk, map, option_copied};
ghost use Rattle.camac_lang.specs.View.{procedure_of, service_of, statement_of, statements_of};
ghost use Rattle.camac_rules.specs.Capped.{capped};
ghost use Rattle.camac_check_costs.specs.Places.{begin_of, each_around, each_at, place_with};
ghost use Rattle.camac_check_costs.specs.Turns.{block_of, block_on, last_number, last_turn, parameter_in, turn_text, turns_text, variable_in};

use crate::place::{find_place, holds, is_in};
use camac_branch::Plan;
use camac_check::CheckFault;
use camac_check_known::range_in;
use camac_lang::{Name, Procedure, Script, Service, Spot, Stmt};
use camac_lines::Line;
use camac_rules::Body;
use std::alloc::{AllocError, Global};

// A linked script, and one of its bodies.
#[derive(Clone, Copy)]
struct Sought<'a> {
    plan: &'a Plan,
    script: &'a Script,
    body: Body,
}

// A `for` loop with `each`: its variable, and the first statement in it.
#[derive(Clone, Copy)]
struct EachLoop {
    variable: usize,
    begin: Spot,
}

/// The last turn that the checker begins of each `for` loop with `each` around the statement of a linked script that begins at a spot, in the last turn of
/// those around it. If the statement is refused, it is refused in this turn. The text has the variable of each loop, the outermost first, and its number, as
/// in `i = 7, j = 2`. It is empty if there is no such loop, or if the checker does not come to the statement.
pub fn last_turn(
    alloc: Global,
    plan: &Plan,
    script: &Script,
    spot: Spot,
) -> Result<Vec<u8>, AllocError>
    ensures { IfOk result (λ v. v.items ≡ last_turn plan.now script.now spot.left) }
{
    match find_place(alloc, plan, script, spot, &[]) {
        Ok(Some(found)) => {
            let body = found.around.body();
            turns_of(alloc, &Sought { plan, script, body }, spot.left)
        }
        Err(CheckFault::OutOfMemory) => Err(AllocError),
        Ok(None) | Err(CheckFault::Broken { .. }) => Ok(Vec::new(alloc)),
    }
}

// The last turns of all `each` loops around a statement.
fn turns_of(alloc: Global, sought: &Sought, left: usize) -> Result<Vec<u8>, AllocError>
    ensures { IfOk result (λ v. v.items ≡ turns_text (place_with capped sought.now.plan.now sought.now.script.now) (variable_in sought.now.script.now sought.now.body)
        (each_around left (block_of sought.now.script.now sought.now.body)) []) }
{
    let mut text = Vec::new(alloc);
    let mut loops = Vec::new(alloc);
    let mut turns = Vec::new(alloc);
    let block = block_of(sought.script, sought.body);
    push_each_around(&mut loops, block, left)?;
    push_turns(alloc, &mut text, sought, loops.as_slice(), &mut turns)?;
    Ok(text)
}

fn block_of(script: &Script, body: Body) -> &[Stmt]
    ensures { statements_of result.now ≡ block_of script.now body }
{
    match body {
        Body::Procedure(number) => match script.procedures().get(number) {
            Some(procedure) => &procedure.body,
            None => &[],
        },
        Body::Service(lam) => block_on(lam, script.services()),
    }
}

fn block_on(lam: usize, services: &[Service]) -> &[Stmt]
    ensures { statements_of result.now ≡ block_on lam (map service_of services.now) }
{
    match services {
        [] => &[],
        [service, rest @ ..] => {
            if service.lam == lam {
                &service.body
            } else {
                block_on(lam, rest)
            }
        }
    }
}

// Puts the `each` loops around a statement in a block at the end, the outermost first.
#[cycle(around)]
#[tactic(auto, using(crate::proofs::PlaceLaws::around_on, crate::proofs::PlaceLaws::around_here, crate::proofs::PlaceLaws::around_none))]
fn push_each_around(
    loops: &mut Vec<EachLoop>,
    block: &[Stmt],
    left: usize,
) -> Result<(), AllocError>
    ensures { OnOk result (loops.new.items ≡ loops.old.items ++ each_around left (statements_of block.now)) }
{
    'statements: for statement in block {
        if is_in(statement, left) {
            return push_each(loops, statement, left);
        }
    }
    Ok(())
}

// The same of a statement: none if it is itself, else of one in it.
#[cycle(around)]
fn push_each(loops: &mut Vec<EachLoop>, statement: &Stmt, left: usize) -> Result<(), AllocError>
    ensures { OnOk result (loops.new.items ≡ loops.old.items ++ each_at left (statement_of statement.now)) }
{
    if statement.spot().left == left {
        return Ok(());
    }
    match statement {
        Stmt::IfElse {
            then,
            otherwise,
            ..
        } => {
            let arm = if holds(then, left) { then } else { otherwise };
            push_each_around(loops, arm, left)
        }
        Stmt::ForEach {
            spot,
            variable,
            body,
            ..
        } => {
            loops.push(EachLoop {
                variable: *variable,
                begin: begin_of(*spot, body),
            })?;
            push_each_around(loops, body, left)
        }
        Stmt::If { then: body, .. }
        | Stmt::For { body, .. }
        | Stmt::While { body, .. }
        | Stmt::Lock { body, .. } => push_each_around(loops, body, left),
        _ => Ok(()),
    }
}

// Where a block in a statement begins.
fn begin_of(spot: Spot, block: &[Stmt]) -> Spot
    ensures { result ≡ begin_of spot (statements_of block.now) }
{
    match block {
        [] => spot,
        [statement, ..] => statement.spot(),
    }
}

// Puts the last turns of these loops at the end, in these turns of the loops around them.
fn push_turns(
    alloc: Global,
    text: &mut Vec<u8>,
    sought: &Sought,
    loops: &[EachLoop],
    turns: &mut Vec<u32>,
) -> Result<(), AllocError>
    ensures { OnOk result (text.new.items ≡ text.old.items ++ turns_text (place_with capped sought.now.plan.now sought.now.script.now) (variable_in sought.now.script.now sought.now.body) loops.now turns.old.items) }
{
    let [outermost, rest @ ..] = loops else {
        return Ok(());
    };
    let Some(number) = last_number(alloc, sought, outermost, turns.as_slice())? else {
        return Ok(());
    };
    let name = variable_in(sought.script, sought.body, outermost.variable);
    text.extend_from_slice(turn_text(name, number, turns.as_slice()).as_bytes())?;
    turns.push(number)?;
    push_turns(alloc, text, sought, rest, turns)
}

fn last_number(
    alloc: Global,
    sought: &Sought,
    of: &EachLoop,
    turns: &[u32],
) -> Result<Option<u32>, AllocError>
    ensures { IfOk result (λ n. n ≡ last_number of.now.variable (place_with capped sought.now.plan.now sought.now.script.now of.now.begin.left turns.now)) }
{
    match find_place(alloc, sought.plan, sought.script, of.begin, turns) {
        Ok(Some(found)) => Ok(Some(range_in(found.known.ranges(), of.variable).hi())),
        Err(CheckFault::OutOfMemory) => Err(AllocError),
        Ok(None) | Err(CheckFault::Broken { .. }) => Ok(None),
    }
}

#[tactic(auto, using(crate::proofs::PlaceLaws::found))]
fn variable_in(script: &Script, body: Body, variable: usize) -> Option<&Name>
    ensures { option_copied result ≡ variable_in script.now body variable }
{
    match body {
        Body::Procedure(number) => match script.procedures().get(number) {
            Some(procedure) => parameter_in(procedure, variable),
            None => None,
        },
        Body::Service(_) => script.variables().get(variable),
    }
}

#[tactic(auto, using(crate::proofs::PlaceLaws::found))]
fn parameter_in(procedure: &Procedure, variable: usize) -> Option<&Name>
    ensures { option_copied result ≡ parameter_in variable (procedure_of procedure.now) }
{
    match procedure.parameters.get(variable) {
        Some(parameter) => Some(&parameter.name),
        None => None,
    }
}

fn turn_text(name: Option<&Name>, number: u32, outer: &[u32]) -> Line
    ensures { result ≡ turn_text (option_copied name.entry) number outer.now }
{
    let mut line = Line::new();
    if let [_, ..] = outer {
        line.push_str(", ");
    }
    if let Some(name) = name {
        line.push_bytes(name.as_bytes());
    }
    line.push_str(" = ");
    line.push_number(number);
    line
}
