// What is told of a statement in several turns, and what is known where one begins.

ghost use Rattle.std.specs.Prelude.{◌≡◌, ◌≤◌, ◌-◌, IfOk, Ok};
ghost use Rattle.camac_lang.specs.View.{statements_of};
ghost use Rattle.camac_rules.specs.Addresses.{crate_end};
ghost use Rattle.camac_rules.specs.Statements.{accept_block};
ghost use Rattle.camac_check_simple.specs.Gives.{Gives, by_code};
ghost use Rattle.camac_check_costs.specs.Stands.{place_found};
ghost use Rattle.camac_check_costs.specs.Places.{at_turn, left_by, locked_in_both, told_of_both};

use crate::place::Standing;
use camac_check::{CheckFault, Context, accept_block};
use camac_check_known::{Around, Facts, between};
use camac_check_loops::EachHead;
use camac_check_rows::Rows;
use camac_lang::Stmt;
use std::alloc::{AllocError, Global};

// The first number that no crate has.
const CRATE_END: u32 = 8;

// A turn that does not come to it adds nothing.
pub(crate) fn told_of_both<'a>(
    alloc: Global,
    first: Option<Standing<'a>>,
    second: Option<Standing<'a>>,
) -> Result<Option<Standing<'a>>, AllocError>
    ensures { IfOk result (λ t. place_found t ≡ told_of_both (place_found first.entry) (place_found second.entry)) }
{
    let Some(first) = first else {
        return Ok(second);
    };
    let Some(second) = second else {
        return Ok(Some(first));
    };
    Ok(Some(Standing {
        statement: first.statement,
        around: locked_in_both(alloc, &first.around, &second.around)?,
        known: first.known.join(alloc, &second.known)?,
    }))
}

// The crates that are locked in both.
fn locked_in_both(alloc: Global, first: &Around, second: &Around) -> Result<Around, AllocError>
    ensures { IfOk result (λ a. a ≡ locked_in_both crate_end first.now second.now) }
{
    let mut both = Around::alone_in(alloc, first.body());
    'crates: for crate_no in 0..CRATE_END {
        if first.is_locked(crate_no) && second.is_locked(crate_no) {
            both = both.with_locked(alloc, crate_no)?;
        }
    }
    Ok(both)
}

// What is known after a block, if it is accepted and its end can be reached.
#[tactic(auto, using(crate::proofs::PlaceTurns::known_left, crate::proofs::PlaceTurns::none_left))]
pub(crate) fn left_by(
    alloc: Global,
    context: &Context,
    around: &Around,
    block: &[Stmt],
    known: Facts,
) -> Result<Option<Facts>, CheckFault>
    ensures { Gives (λ o. o) result (Ok (left_by (accept_block (by_code context.now) around.now (statements_of block.now) known))) }
{
    let mut rows = Rows::none();
    match accept_block(alloc, context, around, block, Some(known), &mut rows) {
        Ok(found) => Ok(found.known),
        Err(CheckFault::OutOfMemory) => Err(CheckFault::OutOfMemory),
        Err(CheckFault::Broken { .. }) => Ok(None),
    }
}

// What is known where the turn of an `each` begins in which its variable is this number, if the turns before it are accepted and their ends can be
// reached.
#[tactic(auto, unfolding(camac_rules::specs::Refusal::go_on, camac_rules::specs::Refusal::if_reached))]
pub(crate) fn known_at_turn(
    alloc: Global,
    context: &Context,
    around: &Around,
    head: EachHead,
    body: &[Stmt],
    known: Facts,
    wanted: u32,
) -> Result<Option<Facts>, CheckFault>
    requires { head.first ≤ wanted }
    ensures { Gives (λ o. o) result (at_turn (accept_block (by_code context.now) around.now (statements_of body.now)) head.variable head.first (wanted - head.first) known) }
{
    let mut rows = Rows::none();
    let mut here = known;
    'turns: for value in head.first..wanted {
        here.put_range(head.variable, between(value, value))?;
        let found = accept_block(alloc, context, around, body, Some(here), &mut rows)?;
        let after = found.known;
        here = match after {
            None => return Ok(None),
            Some(known) => known,
        };
    }
    here.put_range(head.variable, between(wanted, wanted))?;
    Ok(Some(here))
}
