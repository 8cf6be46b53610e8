// What sets the crates back after a service that is left before its end.

ghost use Rattle.std.specs.Prelude.{◌≡◌, ◌+◌, ◌≤◌, ◌++◌, IsSome, length, map};
ghost use Rattle.camac_branch.specs.Branch.{reply_to};
ghost use Rattle.camac_branch.specs.Crates.{branch_of};
ghost use Rattle.camac_branch.specs.Plan.{crate_waits};
ghost use Rattle.camac_esone.specs.Calls.{crate_address, crate_function};
ghost use Rattle.camac_run.specs.Back.{back_at, call_in, commands_back, to_set};
ghost use Rattle.camac_run.specs.Operation.{quiet_answer};

use crate::progress::Wanted;
use arrayvec::ArrayVec;
use camac_branch::{Answer, Branch, Plan, cycle};
use camac_esone::crate_call;
use camac_lang::CrateCall;
use camac_word::{CrateNo, Word24};

/// What sets the crates back: two commands for each at most.
pub type Back = ArrayVec<Wanted, 14>;

/// The commands that lead from the crates as they are to those that were, but for the lockouts.
pub fn commands_back(plan: &Plan, now: &Branch, was: &Branch) -> Back
    ensures { result.items ≡ map Wanted.Cycle (commands_back plan.now (branch_of now.now) (branch_of was.now)) }
{
    let mut back = Back::new();
    'crates: for number in 1..8 {
        add_back(plan, now, was, number, &mut back);
    }
    back
}

// Adds those of one crate, if it is in the plan.
fn add_back(plan: &Plan, now: &Branch, was: &Branch, number: u32, back: &mut Back)
    requires crate_no { (1 ≤ number) × (number ≤ 7) }
    requires room { length back.old.items ≤ 12 }
    ensures added { back.new.items ≡ back.old.items ++ map Wanted.Cycle (back_at plan.now (branch_of now.now) (branch_of was.now) number) }
    ensures few { length back.new.items ≤ length back.old.items + 2 }
{
    match CrateNo::new(number) {
        Some(c) if plan.waits(c).is_some() => {
            let test = CrateCall::TestInhibit;
            let bits = (is_on(plan, now, c, test), is_on(plan, was, c, test));
            add_call(c, bits, CrateCall::InhibitOn, CrateCall::InhibitOff, back);
            let test = CrateCall::TestDemandOutput;
            let bits = (is_on(plan, now, c, test), is_on(plan, was, c, test));
            add_call(c, bits, CrateCall::DemandOn, CrateCall::DemandOff, back);
        }
        _ => {}
    }
}

// Adds the one that sets a bit, now and as it was, unless both are the same.
fn add_call(c: CrateNo, bits: (bool, bool), on: CrateCall, off: CrateCall, back: &mut Back)
    requires { length back.old.items ≤ 13 }
    ensures added { back.new.items ≡ back.old.items ++ map Wanted.Cycle (map (call_in c) (to_set bits.0 bits.1 on off)) }
    ensures few { length back.new.items ≤ length back.old.items + 1 }
{
    match bits {
        (true, false) => back.push(Wanted::Cycle(crate_call(off, c))),
        (false, true) => back.push(Wanted::Cycle(crate_call(on, c))),
        _ => {}
    }
}

// What a test of a crate's controller replies.
fn is_on(plan: &Plan, branch: &Branch, c: CrateNo, test: CrateCall) -> bool
    requires { IsSome (crate_waits plan.now c) }
    ensures { result ≡ (reply_to plan.now (branch_of branch.now) (crate_address test c) (crate_function test) quiet_answer).q }
{
    let zero = Word24::default();
    match (
        Answer::new(false, false, zero, 0, zero),
        crate_call(test, c),
    ) {
        (Some(quiet), command) => match cycle(&mut branch.copy(), plan, command, quiet) {
            Ok(done) => done.reply.q,
            Err(_) => unreachable!(),
        },
        (None, _) => unreachable!(),
    }
}
