// What is known where a statement begins.

ghost use Rattle.std.specs.Prelude.{◌≡◌, ◌≤◌, None, [], drop, false, length, map, nat_eq};
ghost use Rattle.camac_lang.specs.Tree.{for_each};
ghost use Rattle.camac_lang.specs.View.{item_of, procedure_of, service_of, statement_of, statements_of};
ghost use Rattle.camac_rules.specs.Accept.{sections};
ghost use Rattle.camac_rules.specs.Capped.{capped};
ghost use Rattle.camac_rules.specs.Refusal.{if_reached};
ghost use Rattle.camac_check_simple.specs.Gives.{Gives, by_code, code_before};
ghost use Rattle.camac_check_costs.specs.Stands.{place_found};
ghost use Rattle.camac_check_costs.specs.Places.{holds, holds_at, place_in, place_in_block, place_in_body, place_over, place_with};

use crate::told::{known_at_turn, left_by, told_of_both};
use camac_branch::Plan;
use camac_check::{CheckFault, Context, accept_next, at_entry};
use camac_check_known::{Around, Facts, between, split};
use camac_check_loops::{EachHead, count_block, each_begins, for_limits, while_head};
use camac_check_rows::Rows;
use camac_check_simple::{Place, lock_crate};
use camac_lang::{Item, Script, Service, Spot, Stmt};
use camac_rules::Body;
use std::alloc::Global;

/// A statement to which the checker comes, what is around it, and what is known where it begins.
#[derive(Drop)]
pub struct Standing<'a> {
    pub statement: &'a Stmt,
    pub around: Around,
    pub known: Facts,
}

/// Finds what the checker knows before the statement of a linked script that begins at a spot. None if the checker does not come to it, or if none begins
/// there. If an earlier statement of its body is refused, it gives that refusal. Of the `for` loops with `each` around it, the outermost first, `turns` has
/// the number of the variable in the turn that is meant; none, too, if a loop has no such turn. Of further loops it is what is known in all turns to which
/// the checker comes.
pub fn find_place<'a>(
    alloc: Global,
    plan: &'a Plan,
    script: &'a Script,
    spot: Spot,
    turns: &[u32],
) -> Result<Option<Standing<'a>>, CheckFault>
    ensures { Gives place_found result (place_with capped plan.now script.now spot.left turns.now) }
{
    let whole = Context::of(plan, script);
    let services = script.services();
    place_over(alloc, &whole, script.order(), 0, services, spot.left, turns)
}

// The same in these declarations, after so many procedures.
fn place_over<'a>(
    alloc: Global,
    whole: &Context<'a>,
    items: &[Item],
    done: usize,
    services: &'a [Service],
    left: usize,
    turns: &[u32],
) -> Result<Option<Standing<'a>>, CheckFault>
    requires { done ≤ length whole.now.procedures.now }
    ensures { Gives place_found result (place_over (code_before whole.now done)
        (sections (map item_of items.now) (map procedure_of (drop done whole.now.procedures.now)) (map service_of services.now)) left turns.now) }
{
    match items {
        [] => Ok(None),
        [item, rest @ ..] => match (item, whole.procedures.get(done), services) {
            (Item::Procedure, Some(procedure), _) => {
                if !holds(&procedure.body, left) {
                    return place_over(alloc, whole, rest, done + 1, services, left, turns);
                }
                let here = whole.after(done);
                let body = Body::Procedure(here.procedures.len());
                let known = at_entry(alloc, &procedure.parameters)?;
                place_in_body(alloc, &here, body, &procedure.body, known, left, turns)
            }
            (Item::Service, _, [service, others @ ..]) => {
                if !holds(&service.body, left) {
                    return place_over(alloc, whole, rest, done, others, left, turns);
                }
                let here = whole.after(done);
                let body = Body::Service(service.lam);
                let known = Some(Facts::at_start(alloc));
                place_in_body(alloc, &here, body, &service.body, known, left, turns)
            }
            _ => place_over(alloc, whole, rest, done, services, left, turns),
        },
    }
}

// The same in a body, from what is known where it begins.
#[tactic(auto, unfolding(camac_rules::specs::Refusal::go_on))]
fn place_in_body<'a>(
    alloc: Global,
    context: &Context,
    body: Body,
    block: &'a [Stmt],
    known: Option<Facts>,
    left: usize,
    turns: &[u32],
) -> Result<Option<Standing<'a>>, CheckFault>
    ensures { Gives place_found result (place_in_body (by_code context.now) body (statements_of block.now) known left turns.now) }
{
    count_block(body, block, 0)?;
    let around = Around::alone_in(alloc, body);
    place_in_block(alloc, context, around, block, known, left, turns)
}

// Whether a statement begins there, or one in it.
#[cycle(holds)]
pub(crate) fn is_in(statement: &Stmt, left: usize) -> bool
    ensures { result ≡ holds_at left (statement_of statement.now) }
{
    if statement.spot().left == left {
        return true;
    }
    match statement {
        Stmt::If { then, .. } => holds(then, left),
        Stmt::IfElse {
            then,
            otherwise,
            ..
        } => holds(then, left) || holds(otherwise, left),
        Stmt::For { body, .. }
        | Stmt::ForEach { body, .. }
        | Stmt::While { body, .. }
        | Stmt::Lock { body, .. } => holds(body, left),
        _ => false,
    }
}

#[cycle(holds)]
#[tactic(auto, using(crate::proofs::PlaceLaws::holds_on, crate::proofs::PlaceLaws::holds_here, crate::proofs::PlaceLaws::holds_none))]
pub(crate) fn holds(block: &[Stmt], left: usize) -> bool
    ensures { result ≡ holds left (statements_of block.now) }
{
    'statements: for statement in block {
        if is_in(statement, left) {
            return true;
        }
    }
    false
}

// The place of the statement that is looked for, in a block, if that can be reached.
#[cycle(places)]
#[tactic(auto, using(crate::proofs::PlaceLaws::place_here, crate::proofs::PlaceLaws::place_on, crate::proofs::PlaceLaws::place_refused, crate::proofs::PlaceLaws::place_done), unfolding(camac_rules::specs::Refusal::if_reached))]
fn place_in_block<'a>(
    alloc: Global,
    context: &Context,
    around: Around,
    block: &'a [Stmt],
    known: Option<Facts>,
    left: usize,
    turns: &[u32],
) -> Result<Option<Standing<'a>>, CheckFault>
    ensures { Gives place_found result (if_reached None known (λ k. place_in_block (by_code context.now) around (statements_of block.now) k left turns.now)) }
{
    let mut here = known;
    let mut rows = Rows::none();
    'statements: for statement in block {
        if is_in(statement, left) {
            let Some(known) = here else {
                return Ok(None);
            };
            return place_in(alloc, context, around, statement, known, left, turns);
        }
        accept_next(alloc, context, &around, statement, &mut here, &mut rows)?;
    }
    Ok(None)
}

// The same in a statement: itself, or one in it.
#[cycle(places)]
#[tactic(auto, unfolding(camac_rules::specs::Refusal::go_on, camac_rules::specs::Refusal::if_reached))]
fn place_in<'a>(
    alloc: Global,
    context: &Context,
    around: Around,
    statement: &'a Stmt,
    known: Facts,
    left: usize,
    turns: &[u32],
) -> Result<Option<Standing<'a>>, CheckFault>
    ensures { Gives place_found result (place_in (by_code context.now) around (statement_of statement.now) known left turns.now) }
{
    if statement.spot().left == left {
        return Ok(Some(Standing {
            statement,
            around,
            known,
        }));
    }
    match statement {
        Stmt::If { spot, test, then } => {
            let ways = split(alloc, *spot, &test.parts, known)?;
            place_in_block(alloc, context, around, then, ways.holds, left, turns)
        }
        Stmt::IfElse {
            spot,
            test,
            then,
            otherwise,
        } => {
            let ways = split(alloc, *spot, &test.parts, known)?;
            if holds(then, left) {
                place_in_block(alloc, context, around, then, ways.holds, left, turns)
            } else {
                place_in_block(alloc, context, around, otherwise, ways.fails, left, turns)
            }
        }
        Stmt::Lock {
            spot,
            crate_no,
            body,
        } => {
            let place = Place {
                context: &*context,
                around: &around,
            };
            let c = lock_crate(&place, *spot, crate_no, &known)?;
            let locked = around.with_locked(alloc, c)?;
            place_in_block(alloc, context, locked, body, Some(known), left, turns)
        }
        Stmt::For { head, body } => {
            let limits = for_limits(&around, head, &known)?;
            let fixed = around.with_fixed(alloc, head.variable)?;
            let facts = limits.facts(alloc, head, body, known)?;
            place_in_block(alloc, context, fixed, body, facts.head, left, turns)
        }
        Stmt::ForEach {
            spot,
            variable,
            first,
            last,
            body,
        } => {
            let head = EachHead {
                spot: *spot,
                variable: *variable,
                first: *first,
                last: *last,
            };
            let place = Place {
                context: &*context,
                around: &around,
            };
            place_in_each(alloc, &place, head, body, known, left, turns)
        }
        Stmt::While { head, body } => {
            let top = while_head(around.body(), head, body, known)?;
            let ways = split(alloc, head.spot, &head.test.parts, top)?;
            place_in_block(alloc, context, around, body, ways.holds, left, turns)
        }
        _ => Ok(None),
    }
}

// The same in an `each`, of a statement inside: in the turn that is chosen, or over all turns.
#[cycle(places)]
#[tactic(auto, unfolding(camac_rules::specs::Refusal::go_on))]
fn place_in_each<'a>(
    alloc: Global,
    place: &Place,
    head: EachHead,
    body: &'a [Stmt],
    known: Facts,
    left: usize,
    turns: &[u32],
) -> Result<Option<Standing<'a>>, CheckFault>
    requires { nat_eq head.spot.left left ≡ false }
    ensures { Gives place_found result (place_in (by_code place.now.context.now) place.now.around.now (for_each head.spot head.variable head.first head.last (statements_of body.now)) known left turns.now) }
{
    let [value, inner @ ..] = turns else {
        return place_over_turns(alloc, place, head, body, known, left);
    };
    let count = each_begins(place.around, head)?;
    if *value < head.first || count <= *value - head.first {
        return Ok(None);
    }
    let fixed = place.around.with_fixed(alloc, head.variable)?;
    let begun = known_at_turn(alloc, place.context, &fixed, head, body, known, *value)?;
    place_in_block(alloc, place.context, fixed, body, begun, left, inner)
}

// The same over all turns.
#[cycle(places)]
#[tactic(auto, unfolding(camac_rules::specs::Refusal::go_on))]
fn place_over_turns<'a>(
    alloc: Global,
    place: &Place,
    head: EachHead,
    body: &'a [Stmt],
    known: Facts,
    left: usize,
) -> Result<Option<Standing<'a>>, CheckFault>
    requires { nat_eq head.spot.left left ≡ false }
    ensures { Gives place_found result (place_in (by_code place.now.context.now) place.now.around.now (for_each head.spot head.variable head.first head.last (statements_of body.now)) known left []) }
{
    let turns = each_begins(place.around, head)?;
    let mut here = known;
    let mut told = None;
    'turns: for turn in 0..turns {
        let value = head.first + turn;
        here.put_range(head.variable, between(value, value))?;
        let fixed = place.around.with_fixed(alloc, head.variable)?;
        let begun = here.try_clone(alloc)?;
        let start = Some(begun);
        let found = match place_in_block(alloc, place.context, fixed, body, start, left, &[]) {
            Ok(found) => found,
            Err(fault) => return Err(fault),
        };
        told = told_of_both(alloc, told, found)?;
        let inside = place.around.with_fixed(alloc, head.variable)?;
        here = match left_by(alloc, place.context, &inside, body, here)? {
            None => return Ok(told),
            Some(known) => known,
        };
    }
    Ok(told)
}
