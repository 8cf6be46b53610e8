//! The branch: its crates as the commands leave them, dataway cycles, locks and the graded-L operation.

ghost use Rattle.std.specs.Prelude.{◌≡◌, ◌≤◌, ◌<◌, ◌^◌, IsSome, IfOk, IfErr, OnOk, OnErr, is_ok, true, false, Some, bit_and, if◌then◌else◌};
ghost use Rattle.camac_branch.specs.Address.{address};
ghost use Rattle.camac_branch.specs.Branch.{start, reply_to, controller_reply, branch_after, effect_in, with_lock, enabled_bits, pattern_of};
ghost use Rattle.camac_branch.specs.Crates.{branch_of, is_permitted};
ghost use Rattle.camac_branch.specs.Plan.{crate_waits, crate_bits};

use crate::answer::{Answer, Command, CycleDone, Overrun, Reply};
use crate::plan::Plan;
use camac_crate::{ControllerOp, CrateState, LockState, apply, controller};
use camac_word::{CrateNo, Word24};
use std::marker::Model;

/// The crates 1 to 7 of a branch (EUR 4600, IEEE 596): inhibit and the demand output of each, and whether auxiliary controllers
/// are locked out of it (own, after IEEE 675).
#[derive(Drop)]
pub struct Branch {
    states: [CrateState; 7],
    locks: [LockState; 7],
}

impl Model for Branch {
    ghost use Rattle.std.specs.Prelude.{◌≡◌, length};
    ghost use Rattle.camac_branch.specs.Crates.{Crates};

    ghost Value = { Crates };

    ghost view = { λ b. record { states = b.states; locks = b.locks } };

    ghost invariant = { λ b. (length b.states ≡ 7) × (length b.locks ≡ 7) };
}

impl Branch {
    /// At the start inhibit is off and the demand output enabled in each crate, and none is locked (own).
    pub fn start() -> Branch
        ensures { branch_of result ≡ start }
    {
        Branch {
            states: [CrateState::start(); 7],
            locks: [LockState::Free; 7],
        }
    }

    /// The same crates once more.
    pub fn copy(&self) -> Branch
        ensures { result ≡ self.now }
    {
        Branch {
            states: self.states,
            locks: self.locks,
        }
    }
}

/// Makes a cycle with this answer (own): the reply of the crate's controller to its commands, else that of the module, which is the
/// answer's. Refused is a wait that is not permitted in the crate; the branch stays then.
#[inline(always)]
pub fn cycle(
    branch: &mut Branch,
    plan: &Plan,
    command: Command,
    answer: Answer,
) -> Result<CycleDone, Overrun>
    requires in_plan { IsSome (crate_waits plan.now command.c) }
    ensures permitted { is_ok result ≡ is_permitted plan.now (branch_of branch.old) command.c answer.wait }
    ensures command { IfOk result (λ d. d.command ≡ command) }
    ensures reply { IfOk result (λ d. d.reply ≡ reply_to plan.now (branch_of branch.old) (address command.c command.n command.a) command.f answer) }
    ensures wait { IfOk result (λ d. (d.wait ≡ answer.wait) × (d.wait ≤ 15)) }
    ensures next { OnOk result (branch_of branch.new ≡ branch_after (address command.c command.n command.a) command.f (branch_of branch.old)) }
    ensures overrun { IfErr result (λ o. (o.c ≡ command.c) × (o.wait ≡ answer.wait)) }
    ensures unchanged { OnErr result (branch.new ≡ branch.old) }
{
    let wait = wait_in(branch, plan, command.c, answer.wait)?;
    let reply = match controller(command.n, command.a, command.f) {
        Some(op) => {
            let (word, q) = controlled(branch, plan, command.c, op, answer.gl);
            Reply { x: true, q, word }
        }
        None => Reply {
            x: answer.x,
            q: answer.q,
            word: answer.word,
        },
    };
    Ok(CycleDone {
        command,
        reply,
        wait,
    })
}

// Whether a wait is permitted in a crate. Most cycles come after none, which each crate permits: for them the plan is not looked at.
#[inline(always)]
fn wait_in(branch: &Branch, plan: &Plan, c: CrateNo, wait: u8) -> Result<u8, Overrun>
    ensures permitted { is_ok result ≡ is_permitted plan.now (branch_of branch.now) c wait }
    ensures wait { IfOk result (λ w. (w ≡ wait) × (w ≤ 15)) }
    ensures overrun { IfErr result (λ o. (o.c ≡ c) × (o.wait ≡ wait)) }
{
    if wait == 0 || is_permitted(branch, plan, c, wait) {
        Ok(wait)
    } else {
        Err(Overrun { c, wait })
    }
}

// The same, as the plan and the lockout of the crate have it.
#[inline(never)]
fn is_permitted(branch: &Branch, plan: &Plan, c: CrateNo, wait: u8) -> bool
    ensures permitted { result ≡ is_permitted plan.now (branch_of branch.now) c wait }
    ensures in_range { result ≡ true → wait ≤ 15 }
{
    let waits = plan.waits(c).unwrap_or(0);
    branch.locks[(c.get() - 1) as usize].permits(wait, waits)
}

// The bits that both words have.
#[inline(always)]
fn common_bits(one: Word24, other: Word24) -> Word24
    ensures { result ≡ bit_and one other }
{
    match Word24::new(one.get() & other.get()) {
        Some(word) => word,
        None => unreachable!(),
    }
}

// Does a controller command in a crate with this pattern, and replies to it with X: the word and Q of the reply.
#[inline(never)]
fn controlled(
    branch: &mut Branch,
    plan: &Plan,
    c: CrateNo,
    op: ControllerOp,
    gl: Word24,
) -> (Word24, bool)
    ensures reply { record { x = true; q = result.1; word = result.0 } ≡ controller_reply op (branch_of branch.old c).bits (bit_and gl (crate_bits plan.now c)) }
    ensures next { branch_of branch.new ≡ effect_in c (Some op) (branch_of branch.old) }
{
    let gl = common_bits(gl, plan.crate_bits(c));
    let place = (c.get() - 1) as usize;
    let mut state = branch.states[place];
    let reply = apply(&mut state, op, gl);
    branch.states[place] = state;
    reply
}

/// Locks auxiliary controllers out of a crate after this wait (own, after IEEE 675), which may be as long as that of a cycle. Refused is a
/// wait that is not permitted; the branch stays then.
pub fn lock(branch: &mut Branch, plan: &Plan, c: CrateNo, wait: u8) -> Result<u8, Overrun>
    requires in_plan { IsSome (crate_waits plan.now c) }
    requires free { (branch_of branch.old c).locked ≡ false }
    ensures permitted { is_ok result ≡ is_permitted plan.now (branch_of branch.old) c wait }
    ensures wait { IfOk result (λ w. (w ≡ wait) × (w ≤ 15)) }
    ensures next { OnOk result (branch_of branch.new ≡ with_lock c true (branch_of branch.old)) }
    ensures overrun { IfErr result (λ o. (o.c ≡ c) × (o.wait ≡ wait)) }
    ensures unchanged { OnErr result (branch.new ≡ branch.old) }
{
    let wait = wait_in(branch, plan, c, wait)?;
    branch.locks[(c.get() - 1) as usize] = LockState::Locked;
    Ok(wait)
}

/// Lets auxiliary controllers into a crate again (own, after IEEE 675).
pub fn unlock(branch: &mut Branch, c: CrateNo)
    requires locked { (branch_of branch.old c).locked ≡ true }
    ensures next { branch_of branch.new ≡ with_lock c false (branch_of branch.old) }
{
    branch.locks[(c.get() - 1) as usize] = LockState::Free;
}

/// Whether auxiliary controllers are locked out of a crate.
pub fn locked(branch: &Branch, c: CrateNo) -> bool
    ensures { result ≡ (branch_of branch.now c).locked }
{
    branch.locks[(c.get() - 1) as usize] == LockState::Locked
}

/// The pattern of a graded-L operation (IEEE 596) with this answer, whose pattern alone counts: the bits of the stations in crates
/// whose demand output is enabled (own).
#[inline(always)]
pub fn demand(branch: &Branch, plan: &Plan, answer: Answer) -> Word24
    ensures { result ≡ pattern_of plan.now (branch_of branch.now) answer.gl }
{
    common_bits(answer.gl, enabled_bits(branch, plan))
}

// The bits of the stations in crates whose demand output is enabled.
#[inline(always)]
fn enabled_bits(branch: &Branch, plan: &Plan) -> Word24
    ensures { result ≡ enabled_bits (branch_of branch.now) 1 plan.now.crates }
{
    plan.is_plan();
    let mut bits = 0;
    'crates: for number in 1..8 {
        bits |= bits_if_enabled(branch, plan, number);
    }
    match Word24::new(bits) {
        Some(word) => word,
        None => unreachable!(),
    }
}

// What a crate adds to these bits.
fn bits_if_enabled(branch: &Branch, plan: &Plan, number: u32) -> u32
    requires { (1 ≤ number) × (number ≤ 7) }
    ensures value { result ≡ (if (branch_of branch.now number).bits.demand then crate_bits plan.now number else 0) }
    ensures in_range { result < 2 ^ 24 }
{
    match CrateNo::new(number) {
        Some(c) if branch.states[(number - 1) as usize].is_demand_enabled() => {
            plan.crate_bits(c).get()
        }
        _ => 0,
    }
}
