// The rules of all statements, and of blocks of them.

ghost use Rattle.std.specs.Prelude.{◌≡◌, ◌≤◌, ◌+◌, ◌-◌, IfErr, IfOk, None, OnOk, Some, map, option_map};
ghost use Rattle.camac_range.specs.Interval.{only};
ghost use Rattle.camac_lang.specs.Tree.{choose, for_each, locked};
ghost use Rattle.camac_lang.specs.View.{action_of, expression_of, for_of, keep_of, part_of, statement_of, statements_of, while_of};
ghost use Rattle.camac_rules.specs.Capped.{capped};
ghost use Rattle.camac_rules.specs.Known.{with_range};
ghost use Rattle.camac_rules.specs.Loops.{for_rule, with_fixed};
ghost use Rattle.camac_rules.specs.Costs.{no_costs, unreached, verdict};
ghost use Rattle.camac_rules.specs.Refusal.{if_reached};
ghost use Rattle.camac_rules.specs.Statements.{accept_statement, accept_block};
ghost use Rattle.camac_check_rows.specs.Rows.{block_rows, block_verdict, statement_rows, with_rows};
ghost use Rattle.camac_check_rows.specs.Turns.{turned, turns_over};
ghost use Rattle.camac_check.specs.Ends.{each_judged, loop_end, turn_rule, with_turn};
ghost use Rattle.camac_check_simple.specs.Gives.{Gives, by_code, leaving, verdict_of};
ghost use Rattle.camac_check_known.specs.declared.fault.CheckFault.TheVariants.{OutOfMemory};
ghost use Rattle.camac_rules.specs.Cycles.{Around as Surroundings};

use crate::procedure::call;
use camac_check_known::{Around, CheckFault, Costs, Facts, between, join, split, waits_of};
use camac_check_loops::{EachHead, each_begins, for_limits, keeps_after, turn_bound, while_head};
use camac_check_rows::{
    Kind, Rows, detail_of, else_row, first_arm, if_row, lock_row, loop_row, once, second_arm,
    times_at, turning,
};
use camac_check_simple::{
    Context, Findings, Place, assign, crate_call, lam_call, lock_crate, put, q_repeat, q_stop,
    scan, set_register, single,
};
use camac_lang::{Action, Expr, ForHead, Keep, Part, Spot, Stmt, WhileHead};
use camac_rules::Body;
use std::alloc::{AllocError, Global};

/// Checks a block from what is known at its beginning, if it can be reached, and puts the rows of its statements.
#[cycle(statements)]
pub fn accept_block(
    alloc: Global,
    context: &Context,
    around: &Around,
    block: &[Stmt],
    known: Option<Facts>,
    rows: &mut Rows,
) -> Result<Findings, CheckFault>
    ensures found { Gives verdict_of result (if_reached unreached known (accept_block (by_code context.now) around.now (statements_of block.now))) }
    ensures rows { OnOk result (rows.new ≡ with_rows rows.old (block_rows (by_code context.now) around.now (statements_of block.now) known)) }
{
    let mut here = known;
    let mut costs = Costs::new(0, 0, 0);
    'statements: for statement in block {
        let next = match accept_next(alloc, context, around, statement, &mut here, rows) {
            Ok(next) => next,
            Err(fault) => return Err(fault),
        };
        costs = costs.then(next);
    }
    Ok(Findings { known: here, costs })
}

/// Checks a statement, if it can be reached, and puts its rows. What was known before it is changed in place.
#[cycle(statements)]
#[tactic(auto, unfolding(camac_rules::specs::Refusal::if_reached))]
#[inline(always)]
pub fn accept_next(
    alloc: Global,
    context: &Context,
    around: &Around,
    statement: &Stmt,
    known: &mut Option<Facts>,
    rows: &mut Rows,
) -> Result<Costs, CheckFault>
    ensures found { Gives (verdict known.new) result (if_reached unreached known.old (accept_statement (by_code context.now) around.now (statement_of statement.now))) }
    ensures rows { OnOk result (rows.new ≡ with_rows rows.old (statement_rows (by_code context.now) around.now (statement_of statement.now) known.old)) }
{
    let place = Place { context, around };
    match statement {
        Stmt::Action(action) => match known {
            Some(facts) => accept_action(alloc, &place, action, facts, rows),
            None => pass_over(alloc, context, statement, rows),
        },
        _ => Ok(accept_outer(alloc, &place, statement, known, rows)?),
    }
}

// Checks an action that can be reached.
#[tactic(auto, using(crate::proofs::Rows::off))]
fn accept_action(
    alloc: Global,
    place: &Place,
    action: &Action,
    known: &mut Facts,
    rows: &mut Rows,
) -> Result<Costs, CheckFault>
    ensures found { Gives (leaving known.new) result (accept_statement (by_code place.now.context.now) place.now.around.now (action_of action.now) known.old) }
    ensures rows { OnOk result (rows.new ≡ with_rows rows.old (statement_rows (by_code place.now.context.now) place.now.around.now (action_of action.now) (Some known.old))) }
{
    if rows.are_kept() {
        return with_its_row(alloc, place, action, known, rows);
    }
    by_its_rule(alloc, place, action, known)
}

// Passes over a statement that can't be reached. It stands apart, since this is rare.
#[inline(never)]
#[tactic(auto, unfolding(camac_rules::specs::Refusal::if_reached))]
fn pass_over(
    alloc: Global,
    context: &Context,
    statement: &Stmt,
    rows: &mut Rows,
) -> Result<Costs, CheckFault>
    ensures costs { IfOk result (λ c. c ≡ no_costs) }
    ensures memory { IfErr result (λ e. e ≡ OutOfMemory) }
    ensures rows { (around : Surroundings) → OnOk result (rows.new ≡ with_rows rows.old (statement_rows (by_code context.now) around (statement_of statement.now) None)) }
{
    rows.pass_over(alloc, context, statement)?;
    Ok(Costs::new(0, 0, 0))
}

// An action where rows are kept. It stands apart, so that a check makes no room for its row.
#[inline(never)]
#[tactic(auto, unfolding(camac_rules::specs::Refusal::if_reached))]
fn with_its_row(
    alloc: Global,
    place: &Place,
    action: &Action,
    known: &mut Facts,
    rows: &mut Rows,
) -> Result<Costs, CheckFault>
    ensures found { Gives (leaving known.new) result (accept_statement (by_code place.now.context.now) place.now.around.now (action_of action.now) known.old) }
    ensures rows { OnOk result (rows.new ≡ with_rows rows.old (statement_rows (by_code place.now.context.now) place.now.around.now (action_of action.now) (Some known.old))) }
{
    let detail = detail_of(place.context, action, Some(known))?;
    let costs = by_its_rule(alloc, place, action, known)?;
    rows.put(action, costs, detail)?;
    Ok(costs)
}

// The rule of an action.
fn by_its_rule(
    alloc: Global,
    place: &Place,
    action: &Action,
    known: &mut Facts,
) -> Result<Costs, CheckFault>
    ensures { Gives (leaving known.new) result (accept_statement (by_code place.now.context.now) place.now.around.now (action_of action.now) known.old) }
{
    match action {
        Action::Assign(assignment) => assign(place.around, assignment, known),
        Action::SetRegister(setting) => set_register(setting, known),
        Action::Put(action) => put(action, known),
        Action::Single(action) => single(place, action, known),
        Action::CrateCall(action) => crate_call(place, action, known),
        Action::LamCall(action) => lam_call(place, action, known),
        Action::Scan(transfer) => scan(place, transfer, known),
        Action::QStop { transfer } => q_stop(place, transfer, known),
        Action::QRepeat { transfer, limit } => q_repeat(place, transfer, limit, known),
        Action::Call(called) => call(alloc, place.context, called, known),
    }
}

// Checks a statement that holds blocks. It stands apart, as those below do, so that an action makes no room for its variables.
#[inline(never)]
#[cycle(statements)]
#[tactic(auto, unfolding(camac_rules::specs::Refusal::if_reached))]
fn accept_outer(
    alloc: Global,
    place: &Place,
    statement: &Stmt,
    known: &mut Option<Facts>,
    rows: &mut Rows,
) -> Result<Costs, CheckFault>
    ensures found { Gives (verdict known.new) result (if_reached unreached known.old (accept_statement (by_code place.now.context.now) place.now.around.now (statement_of statement.now))) }
    ensures rows { OnOk result (rows.new ≡ with_rows rows.old (statement_rows (by_code place.now.context.now) place.now.around.now (statement_of statement.now) known.old)) }
{
    match known.take() {
        None => pass_over(alloc, place.context, statement, rows),
        Some(facts) => {
            let found = accept_reached(alloc, place, statement, facts, rows)?;
            *known = found.known;
            Ok(found.costs)
        }
    }
}

// Checks a statement that can be reached.
#[cycle(statements)]
#[tactic(auto, unfolding(camac_rules::specs::Refusal::go_on, camac_rules::specs::Refusal::if_reached))]
fn accept_reached(
    alloc: Global,
    place: &Place,
    statement: &Stmt,
    known: Facts,
    rows: &mut Rows,
) -> Result<Findings, CheckFault>
    ensures found { Gives verdict_of result (accept_statement (by_code place.now.context.now) place.now.around.now (statement_of statement.now) known) }
    ensures rows { OnOk result (rows.new ≡ with_rows rows.old (statement_rows (by_code place.now.context.now) place.now.around.now (statement_of statement.now) (Some known))) }
{
    match statement {
        Stmt::If { spot, test, then } => {
            accept_if(alloc, place, *spot, &test.parts, then, known, rows)
        }
        Stmt::IfElse {
            spot,
            test,
            then,
            otherwise,
        } => {
            let ways = split(alloc, *spot, &test.parts, known)?;
            let times = times_at(&ways.fails);
            let mut one = rows.inside(alloc);
            let (context, around) = (place.context, place.around);
            let first = accept_block(alloc, context, around, then, ways.holds, &mut one)?;
            let mut two = rows.inside(alloc);
            let second = accept_block(alloc, context, around, otherwise, ways.fails, &mut two)?;
            let costs = first.costs.or(second.costs);
            let own = if_row(*spot, costs);
            rows.put_block(alloc, own, one, first_arm(first.costs, second.costs))?;
            let other = else_row(*spot, times, second.costs);
            rows.put_block(alloc, other, two, second_arm(first.costs, second.costs))?;
            Ok(Findings {
                known: join(alloc, first.known, second.known)?,
                costs,
            })
        }
        Stmt::Lock {
            spot,
            crate_no,
            body,
        } => accept_lock(alloc, place, *spot, crate_no, body, known, rows),
        Stmt::For { head, body } => accept_for(alloc, place, head, body, known, rows),
        Stmt::ForEach {
            spot,
            variable,
            first,
            last,
            body,
        } => {
            let head = EachHead {
                spot: *spot,
                variable: *variable,
                first: *first,
                last: *last,
            };
            accept_each(alloc, place, head, body, known, rows)
        }
        Stmt::While { head, body } => accept_while(alloc, place, head, body, known, rows),
        Stmt::Action(action) => {
            let mut known = known;
            let costs = accept_action(alloc, place, action, &mut known, rows)?;
            Ok(Findings {
                known: Some(known),
                costs,
            })
        }
    }
}

// Checks an `if`. It stands apart, as those below do, so that no other statement makes room for its variables.
#[inline(never)]
#[cycle(statements)]
#[tactic(auto, unfolding(camac_rules::specs::Refusal::go_on, camac_rules::specs::Refusal::if_reached))]
fn accept_if(
    alloc: Global,
    place: &Place,
    spot: Spot,
    test: &[Part],
    then: &[Stmt],
    known: Facts,
    rows: &mut Rows,
) -> Result<Findings, CheckFault>
    ensures found { Gives verdict_of result (accept_statement (by_code place.now.context.now) place.now.around.now (choose spot (map part_of test.now) (statements_of then.now)) known) }
    ensures rows { OnOk result (rows.new ≡ with_rows rows.old (statement_rows (by_code place.now.context.now) place.now.around.now (choose spot (map part_of test.now) (statements_of then.now)) (Some known))) }
{
    let ways = split(alloc, spot, test, known)?;
    let mut inner = rows.inside(alloc);
    let around = place.around;
    let first = accept_block(alloc, place.context, around, then, ways.holds, &mut inner)?;
    let costs = first.costs.or(Costs::new(0, 0, 0));
    rows.put_block(alloc, if_row(spot, costs), inner, once())?;
    Ok(Findings {
        known: join(alloc, first.known, ways.fails)?,
        costs,
    })
}

// Checks a `lock`.
#[inline(never)]
#[cycle(statements)]
#[tactic(auto, unfolding(camac_rules::specs::Refusal::go_on, camac_rules::specs::Refusal::if_reached))]
fn accept_lock(
    alloc: Global,
    place: &Place,
    spot: Spot,
    crate_no: &Expr,
    body: &[Stmt],
    known: Facts,
    rows: &mut Rows,
) -> Result<Findings, CheckFault>
    ensures found { Gives verdict_of result (accept_statement (by_code place.now.context.now) place.now.around.now (locked spot (expression_of crate_no.now) (statements_of body.now)) known) }
    ensures rows { OnOk result (rows.new ≡ with_rows rows.old (statement_rows (by_code place.now.context.now) place.now.around.now (locked spot (expression_of crate_no.now) (statements_of body.now)) (Some known))) }
{
    let c = lock_crate(place, spot, crate_no, &known)?;
    let inside = place.around.with_locked(alloc, c)?;
    let mut inner = rows.inside(alloc);
    let found = accept_block(alloc, place.context, &inside, body, Some(known), &mut inner)?;
    let waits = waits_of(place.context.plan, c);
    let costs = found.costs.in_lock(waits);
    rows.put_block(alloc, lock_row(spot, costs, waits, c), inner, once())?;
    Ok(Findings {
        known: found.known,
        costs,
    })
}

// Checks a `while`.
#[inline(never)]
#[cycle(statements)]
#[tactic(auto, unfolding(camac_rules::specs::Refusal::go_on, camac_rules::specs::Refusal::if_reached))]
fn accept_while(
    alloc: Global,
    place: &Place,
    limited: &WhileHead,
    body: &[Stmt],
    known: Facts,
    rows: &mut Rows,
) -> Result<Findings, CheckFault>
    ensures found { Gives verdict_of result (accept_statement (by_code place.now.context.now) place.now.around.now (while_of limited.now (statements_of body.now)) known) }
    ensures rows { OnOk result (rows.new ≡ with_rows rows.old (statement_rows (by_code place.now.context.now) place.now.around.now (while_of limited.now (statements_of body.now)) (Some known))) }
{
    let spot = limited.spot;
    let around = place.around;
    let top = while_head(around.body(), limited, body, known)?;
    let ways = split(alloc, spot, &limited.test.parts, top)?;
    let most = turn_bound(&ways.holds, limited.turns);
    let mut inner = rows.inside(alloc);
    let turn = accept_block(alloc, place.context, around, body, ways.holds, &mut inner)?;
    let most = u64::from(most);
    let found = end_loop(around.body(), spot, &limited.keeps, ways.fails, most, turn)?;
    let own = loop_row(spot, Kind::While, found.costs, most);
    rows.put_block(alloc, own, inner, turning(most))?;
    Ok(found)
}

// Checks a `for`.
#[inline(never)]
#[cycle(statements)]
#[tactic(auto, unfolding(camac_rules::specs::Refusal::go_on, camac_rules::specs::Refusal::if_reached))]
fn accept_for(
    alloc: Global,
    place: &Place,
    counted: &ForHead,
    body: &[Stmt],
    known: Facts,
    rows: &mut Rows,
) -> Result<Findings, CheckFault>
    ensures found { Gives verdict_of result (for_rule (by_code place.now.context.now) place.now.around.now counted.now.spot counted.now.variable (expression_of counted.now.from) (expression_of counted.now.to) (map keep_of counted.now.keeps.items) (statements_of body.now)
        (accept_block (by_code place.now.context.now) (with_fixed counted.now.variable place.now.around.now) (statements_of body.now)) known) }
    ensures rows { OnOk result (rows.new ≡ with_rows rows.old (statement_rows (by_code place.now.context.now) place.now.around.now (for_of counted.now (statements_of body.now)) (Some known))) }
{
    let spot = counted.spot;
    let around = place.around;
    let limits = for_limits(around, counted, &known)?;
    let inside = around.with_fixed(alloc, counted.variable)?;
    let facts = limits.facts(alloc, counted, body, known)?;
    let mut inner = rows.inside(alloc);
    let turn = accept_block(alloc, place.context, &inside, body, facts.head, &mut inner)?;
    let turns = limits.turns();
    let found = end_loop(
        around.body(),
        spot,
        &counted.keeps,
        Some(facts.after),
        turns,
        turn,
    )?;
    let own = loop_row(spot, Kind::For, found.costs, turns);
    rows.put_block(alloc, own, inner, turning(turns))?;
    Ok(found)
}

// Checks a `for` with `each`: its block once for each turn.
#[inline(never)]
#[cycle(statements)]
#[tactic(auto, unfolding(camac_rules::specs::Refusal::go_on, camac_rules::specs::Refusal::if_reached))]
fn accept_each(
    alloc: Global,
    place: &Place,
    head: EachHead,
    body: &[Stmt],
    known: Facts,
    rows: &mut Rows,
) -> Result<Findings, CheckFault>
    ensures found { Gives verdict_of result (accept_statement (by_code place.now.context.now) place.now.around.now (for_each head.spot head.variable head.first head.last (statements_of body.now)) known) }
    ensures rows { OnOk result (rows.new ≡ with_rows rows.old (statement_rows (by_code place.now.context.now) place.now.around.now (for_each head.spot head.variable head.first head.last (statements_of body.now)) (Some known))) }
{
    let turns = each_begins(place.around, head)?;
    let around = place.around.with_fixed(alloc, head.variable)?;
    let inside = Place {
        context: place.context,
        around: &around,
    };
    let mut all = before_turns(alloc, &inside, body, rows)?;
    let Turns { found, reached } = accept_turns(
        alloc, &inside, head, turns, body, known, &mut all,
    )?;
    let own = loop_row(head.spot, Kind::For, found.costs, reached);
    rows.put_block(alloc, own, all, once())?;
    Ok(found)
}

// The rows of the block of an `each` before its first turn: nothing is reached. None are made where these are not kept.
#[inline(never)]
#[cycle(statements)]
#[tactic(auto, unfolding(camac_rules::specs::Refusal::if_reached))]
fn before_turns(
    alloc: Global,
    inside: &Place,
    body: &[Stmt],
    rows: &Rows,
) -> Result<Rows, CheckFault>
    ensures rows { IfOk result (λ r. r ≡ option_map (λ before. block_rows (by_code inside.now.context.now) inside.now.around.now (statements_of body.now) None) rows.now) }
    ensures memory { IfErr result (λ e. e ≡ OutOfMemory) }
{
    let mut all = rows.inside(alloc);
    if rows.are_kept() {
        accept_block(alloc, inside.context, inside.around, body, None, &mut all)?;
    }
    Ok(all)
}

// What is found of all turns of an `each`, and how many of them can be reached.
#[derive(Drop)]
struct Turns {
    found: Findings,
    reached: u64,
}

// All turns of an `each`, with the statement's own step. The rows of each turn are merged into these.
#[inline(never)]
#[cycle(statements)]
fn accept_turns(
    alloc: Global,
    inside: &Place,
    head: EachHead,
    turns: u32,
    body: &[Stmt],
    known: Facts,
    rows: &mut Rows,
) -> Result<Turns, CheckFault>
    requires all { turns ≡ head.last + 1 - head.first }
    ensures found { Gives (λ e. verdict_of e.found) result (each_judged turns head.variable head.first head.last (accept_block (by_code inside.now.context.now) inside.now.around.now (statements_of body.now)) known) }
    ensures rows { IfOk result (λ e. option_map (turned e.reached) rows.new ≡ option_map (λ kept. turns_over capped turns head.variable head.first (block_verdict (by_code inside.now.context.now) inside.now.around.now (statements_of body.now))
        (block_rows (by_code inside.now.context.now) inside.now.around.now (statements_of body.now)) (Some known) (turned 0 kept)) rows.old) }
    ensures few { IfOk result (λ e. e.reached ≤ turns) }
{
    let mut costs = Costs::new(0, 0, 1);
    let mut here = Some(known);
    let mut reached = 0_u64;
    if turns == 0 {
        let found = Findings { known: here, costs };
        return Ok(Turns { found, reached });
    }
    'turns: for turn in 0..turns {
        reached += times_at(&here);
        let value = head.first + turn;
        let x = head.variable;
        let next = match accept_turn(alloc, inside, x, value, body, &mut here, rows) {
            Ok(next) => next,
            Err(fault) => return Err(fault),
        };
        costs = costs.then(next);
    }
    leave_last(&mut here, head.variable, head.last)?;
    let found = Findings { known: here, costs };
    Ok(Turns { found, reached })
}

// One turn of an `each`, if it can be reached, with its own step. What was known before it is changed in place.
#[cycle(statements)]
#[tactic(auto, unfolding(camac_rules::specs::Refusal::go_on, camac_rules::specs::Refusal::if_reached))]
fn accept_turn(
    alloc: Global,
    inside: &Place,
    variable: usize,
    value: u32,
    body: &[Stmt],
    known: &mut Option<Facts>,
    rows: &mut Rows,
) -> Result<Costs, CheckFault>
    ensures found { Gives (verdict known.new) result (if_reached unreached known.old (turn_rule variable value (accept_block (by_code inside.now.context.now) inside.now.around.now (statements_of body.now)))) }
    ensures rows { OnOk result (rows.new ≡ option_map (with_turn variable value (block_rows (by_code inside.now.context.now) inside.now.around.now (statements_of body.now)) known.old) rows.old) }
{
    let Some(mut begun) = known.take() else {
        return Ok(Costs::new(0, 0, 0));
    };
    begun.put_range(variable, between(value, value))?;
    let mut own = rows.inside(alloc);
    let turn = accept_block(
        alloc,
        inside.context,
        inside.around,
        body,
        Some(begun),
        &mut own,
    )?;
    rows.merge(alloc, own)?;
    *known = turn.known;
    Ok(Costs::new(0, 0, 1).then(turn.costs))
}

// After the turns the variable has the last value.
fn leave_last(known: &mut Option<Facts>, variable: usize, last: u32) -> Result<(), AllocError>
    ensures { OnOk result (known.new ≡ option_map (with_range variable (only last)) known.old) }
{
    match known {
        None => Ok(()),
        Some(facts) => facts.put_range(variable, between(last, last)),
    }
}

// What a loop of at most so many turns leaves and costs, where this is known after it and this was found of a turn.
#[tactic(auto, unfolding(camac_rules::specs::Refusal::go_on))]
fn end_loop(
    place: Body,
    spot: Spot,
    keeps: &[Keep],
    after: Option<Facts>,
    turns: u64,
    turn: Findings,
) -> Result<Findings, CheckFault>
    ensures { Gives verdict_of result (loop_end place spot (map keep_of keeps.now) after turns (verdict_of turn)) }
{
    keeps_after(place, keeps, &turn.known, spot)?;
    Ok(Findings {
        known: after,
        costs: turn.costs.in_loop(turns),
    })
}
