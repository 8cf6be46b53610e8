// What comes next, whatever is answered.

ghost use Rattle.std.specs.Prelude.{◌≡◌, ◌≤◌, ◌++◌, List, drop, false, length, map, set, slice_index_or, take};
ghost use Rattle.camac_run.specs.Ahead.{IsAhead};
ghost use Rattle.camac_run.specs.Requested.{held_in};
ghost use Rattle.camac_run.specs.declared.member.Member.{Member};
ghost use Rattle.camac_c.specs.Ahead.{block_in, fields_of, locks_behind, locks_in, member_in, numbers_ahead, of_none, waits_behind, waits_if, want_behind};
ghost use Rattle.camac_c.specs.Filled.{filled_words};
ghost use Rattle.camac_c.specs.Talk.{AnswersBytes, AnswersText, TellsBack, TellsServiceAhead, TellsWords};
ghost use Rattle.camac_c.specs.declared.plain.SessionAsk.TheVariants as ask;

use crate::handle::Handle;
use crate::plain::{
    BLOCK, CamacWant, MISUSE, NO_WANT, RANGE, RELEASE, SessionAsk, Told, only_code, short_of,
};
use crate::service::write_from;
use crate::session::{Session, counted, want_of};
use crate::transfer::mode_of;
use camac_branch::Plan;
use camac_lang::WordSize;
use camac_rules::Checked;
use camac_run::{Coming, FullRunner, Member, Wanted, service_ahead, setting_back_holds};
use camac_word::CrateNo;
use std::alloc::Global;
use std::marker::Model;

/// The numbers of a want.
const FIELDS: usize = 10;

/// What is told of a block besides.
const OF_BLOCK: usize = 5;

/// The numbers of a member of a list.
const OF_MEMBER: usize = FIELDS + OF_BLOCK;

/// The numbers of crates, from 0.
const CRATES: usize = 8;

/// What comes next, whatever is answered; also behind blocks and releases, if `far` is not 0. Of each member its kind, crate, station, sub-address, function,
/// data, waits, width, word and whether it moves 16 bits, and of a block (5) its mode, the final station and sub-address, and the most cycles and words; in
/// the form of words. Returns how many numbers these are.
#[tactic(auto, using(crate::proofs::Calls::bytes_answer))]
#[unsafe(no_mangle)]
pub extern "C" fn camac_raw_ahead(
    alloc: Global,
    handle: &mut Handle,
    far: u32,
    bytes: &mut [u8],
) -> usize
    ensures { AnswersBytes handle.old.value (ask.Ahead far) handle.new.value bytes.old bytes.new result }
{
    handle.ask(alloc, SessionAsk::Ahead(far), bytes).count
}

/// What sets the crates back, in the same form.
#[tactic(auto, using(crate::proofs::Calls::bytes_answer))]
#[unsafe(no_mangle)]
pub extern "C" fn camac_raw_back(alloc: Global, handle: &mut Handle, bytes: &mut [u8]) -> usize
    ensures { AnswersBytes handle.old.value ask.Back handle.new.value bytes.old bytes.new result }
{
    handle.ask(alloc, SessionAsk::Back, bytes).count
}

/// What a service surely does first, by its number from 1 on, in the same form. `RANGE`: there is none; `MISUSE`: no demand is wanted.
#[tactic(auto, using(crate::proofs::Calls::text_answers))]
#[unsafe(no_mangle)]
pub extern "C" fn camac_raw_service_ahead(
    alloc: Global,
    handle: &mut Handle,
    number: u32,
    far: u32,
    bytes: &mut [u8],
    size: &mut usize,
) -> u32
    ensures { AnswersText handle.old.value (ask.ServiceAhead number far) handle.new.value result bytes.old bytes.new size.new }
{
    let told = handle.ask(alloc, SessionAsk::ServiceAhead(number, far), bytes);
    *size = told.count;
    told.code
}

/// Room for a list, which is not cleared for each. What is left there is of no matter.
#[derive(Drop)]
pub struct Room {
    coming: Coming,
}

impl Model for Room {
    // without one of its own it had those of the file, which go in a circle
    ghost use Rattle.std.specs.Prelude.{◌≡◌};

    ghost Value = { Unit {0} };

    ghost view = { λ r. tt };
}

impl Room {
    /// Room, and nothing in it.
    pub fn new() -> Room {
        Room {
            coming: Coming::nothing(false),
        }
    }

    /// What comes next.
    pub fn tell_ahead(
        &mut self,
        checked: &Checked,
        runner: &FullRunner,
        far: bool,
        bytes: &mut [u8],
    ) -> Told
        ensures { (os : List Member) × IsAhead runner.now os × TellsWords (numbers_ahead checked.now.plan runner.now os) bytes.old bytes.new result }
    {
        runner.ahead(far, &mut self.coming);
        tell_members(checked, runner, self.coming.ahead.as_slice(), bytes)
    }
}

/// What sets the crates back.
pub fn back(session: &Session, bytes: &mut [u8]) -> Told
    ensures { TellsBack session.now bytes.old bytes.new result }
{
    setting_back_holds();
    let back = session.runner.back();
    tell_back(session.checked, &session.runner, back.as_slice(), bytes)
}

/// What a service surely does first, by its number from 1 on. The waits are those of now, since a demand locks no crate.
pub fn first_of(session: &Session, number: u32, far: bool, bytes: &mut [u8]) -> Told
    ensures { TellsServiceAhead session.now number bytes.old bytes.new result }
{
    if number == 0 {
        return only_code(RANGE);
    }
    let i = number as usize - 1;
    match session.checked.script().services().get(i) {
        None => only_code(RANGE),
        Some(_) => {
            if session.runner.in_service() {
                only_code(MISUSE)
            } else {
                let members = service_ahead(session.checked, i, far);
                tell_members(session.checked, &session.runner, members.as_slice(), bytes)
            }
        }
    }
}

// The numbers of members, one after another.
fn tell_members(
    checked: &Checked,
    runner: &FullRunner,
    members: &[Member],
    bytes: &mut [u8],
) -> Told
    requires { length members.now ≤ 64 }
    ensures { TellsWords (numbers_ahead checked.now.plan runner.now members.now) bytes.old bytes.new result }
{
    let mut locks = locks_of(runner);
    'members: for (i, member) in members.iter().enumerate() {
        tell_member(checked, runner, &locks, member, 4 * OF_MEMBER * i, bytes);
        lock(member, &mut locks);
    }
    counted(OF_MEMBER * members.len())
}

// Those of operations that set the crates back, one after another.
fn tell_back(checked: &Checked, runner: &FullRunner, back: &[Wanted], bytes: &mut [u8]) -> Told
    requires { length back.now ≤ 14 }
    ensures { TellsWords (numbers_ahead checked.now.plan runner.now (map of_none back.now)) bytes.old bytes.new result }
{
    let mut locks = locks_of(runner);
    'operations: for (i, operation) in back.iter().enumerate() {
        let member = Member::Makes(*operation, WordSize::Full);
        tell_member(checked, runner, &locks, &member, 4 * OF_MEMBER * i, bytes);
        lock(&member, &mut locks);
    }
    counted(OF_MEMBER * back.len())
}

// The numbers of a member, from a place on.
#[tactic(auto, using(crate::proofs::Over::behind))]
fn tell_member(
    checked: &Checked,
    runner: &FullRunner,
    locks: &[bool],
    member: &Member,
    start: usize,
    bytes: &mut [u8],
)
    requires { start ≤ 3840 }
    ensures { bytes.new ≡ take start bytes.old ++ filled_words (fields_of (member_in checked.now.plan runner.now locks.now member.now) ++ block_in member.now) (drop start bytes.old) }
{
    let want = want_of_member(checked, runner, locks, member);
    write_from(start, &fields_of(want), bytes);
    write_from(start + 4 * FIELDS, &block_of(member), bytes);
}

// Which crates are locked.
fn locks_of(runner: &FullRunner) -> [bool; CRATES]
    ensures { result ≡ locks_in runner.now }
{
    [
        false,
        is_locked(runner, 1),
        is_locked(runner, 2),
        is_locked(runner, 3),
        is_locked(runner, 4),
        is_locked(runner, 5),
        is_locked(runner, 6),
        is_locked(runner, 7),
    ]
}

fn is_locked(runner: &FullRunner, c: u32) -> bool
    requires from_1 { 1 ≤ c }
    requires to_7 { c ≤ 7 }
    ensures { result ≡ held_in runner.now c }
{
    match CrateNo::new(c) {
        Some(c) => runner.is_locked(c),
        None => unreachable!(),
    }
}

// What a member is told as, behind those that left these crates locked.
fn want_of_member(
    checked: &Checked,
    runner: &FullRunner,
    locks: &[bool],
    member: &Member,
) -> CamacWant
    ensures { result ≡ member_in checked.now.plan runner.now locks.now member.now }
{
    match member {
        Member::Makes(wanted, size) => CamacWant {
            is_short: short_of(*size),
            ..want_behind(checked, runner, locks, wanted)
        },
        Member::Block(left) => CamacWant {
            kind: BLOCK,
            ..want_behind(checked, runner, locks, &Wanted::Cycle(left.first))
        },
        Member::Release(c) => CamacWant {
            kind: RELEASE,
            c: c.get() as u8,
            ..NO_WANT
        },
    }
}

// The same of an operation.
fn want_behind(checked: &Checked, runner: &FullRunner, locks: &[bool], wanted: &Wanted) -> CamacWant
    ensures { result ≡ want_behind checked.now.plan runner.now locks.now wanted.now }
{
    let waits = waits_behind(checked.plan(), locks, wanted);
    CamacWant {
        waits,
        ..want_of(checked, runner, wanted)
    }
}

// The longest wait that is permitted there.
fn waits_behind(plan: &Plan, locks: &[bool], wanted: &Wanted) -> u8
    ensures { result ≡ waits_behind plan.now locks.now wanted.now }
{
    match wanted {
        Wanted::Demand => 15,
        Wanted::Cycle(command) => waits_if(plan, locks, command.c),
        Wanted::Lock(c) => waits_if(plan, locks, *c),
    }
}

// In a crate.
fn waits_if(plan: &Plan, locks: &[bool], c: CrateNo) -> u8
    ensures { result ≡ waits_if (slice_index_or locks.now c false) plan.now c }
{
    let i = c.get() as usize;
    if i < locks.len() && locks[i] {
        0
    } else {
        plan.waits(c).unwrap_or(0)
    }
}

// Locks a crate, or releases its lock, where a member does.
fn lock(member: &Member, locks: &mut [bool])
    ensures { locks.new ≡ locks_behind member.now locks.old }
{
    match member {
        Member::Makes(Wanted::Lock(c), _) => set(locks, *c, true),
        Member::Release(c) => set(locks, *c, false),
        _ => {}
    }
}

// Says whether a crate is locked.
fn set(locks: &mut [bool], c: CrateNo, is_locked: bool)
    ensures { locks.new ≡ set locks.old c is_locked }
{
    let i = c.get() as usize;
    if i < locks.len() {
        locks[i] = is_locked;
    }
}

// What is told of a block besides.
fn block_of(member: &Member) -> [u32; OF_BLOCK]
    ensures { result ≡ block_in member.now }
{
    match member {
        Member::Block(left) => [
            mode_of(left.mode),
            left.last.n,
            left.last.a,
            left.cycles,
            left.words,
        ],
        _ => [0; OF_BLOCK],
    }
}

fn fields_of(want: CamacWant) -> [u32; FIELDS]
    ensures { result ≡ fields_of want }
{
    [
        u32::from(want.kind),
        u32::from(want.c),
        u32::from(want.n),
        u32::from(want.a),
        u32::from(want.f),
        u32::from(want.data),
        u32::from(want.waits),
        u32::from(want.width),
        want.word,
        u32::from(want.is_short),
    ]
}
