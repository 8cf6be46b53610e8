// A run in progress: what is asked of it, and what it tells.

ghost use Rattle.std.specs.Prelude.{◌≡◌, ◌<◌, ◌-◌, ◌%◌, ◌^◌, ◌↔◌, ℕ, Option, false, true, nat_eq, nat_lt, if◌then◌else◌, IfOk, IfSome, IsSome};
ghost use Rattle.camac_machine.specs.Rest.{is_paused};
ghost use Rattle.camac_run.specs.Runner.{last_words_in};
ghost use Rattle.camac_run.specs.Size.{size_in};
ghost use Rattle.camac_run.specs.declared.progress.Wanted.{Wanted};
ghost use Rattle.camac_c.specs.Abandoned.{LeavesService};
ghost use Rattle.camac_c.specs.Last.{last_lines, last_record};
ghost use Rattle.camac_c.specs.Paused.{GoesOnIf, Limits};
ghost use Rattle.camac_c.specs.Plain.{only_code, short_in};
ghost use Rattle.camac_c.specs.Service.{name_at, numbers_at};
ghost use Rattle.camac_c.specs.Talk.{Begins, IsUsed, IsWanted, Lists, StartsOn, Steps, TellsAhead, TellsNext, TellsIf, TellsPlace, TellsStep, TellsThen, TellsWant, TellsWords, Uses, answers_left};
ghost use Rattle.camac_c.specs.Told.{InRange, answer_in, asked, counted, crates_in, did, event_in, flag_in, item_in, movement_in, service_in, want_in, while_paused, word_in, written_in};
ghost use Rattle.camac_c.specs.Width.{KnowsWidth, width_read, width_wanted};

use crate::abandon::write_crates;
use crate::ahead::{Room, back, first_of};
use crate::filling::{give, write_words};
use crate::held::{Held, keep_held, release_held, write_held};
use crate::last::{Deed, Last, give_lines, give_record};
use crate::loose::Loose;
use crate::place::numbers_of_place;
use crate::plain::{
    BUSY, CYCLE, CamacAnswer, CamacProgress, CamacWant, DEMAND, LOCK, NO_PROGRESS, NO_WANT, OK,
    OVERRUN, RANGE, SPENT, STOPPED, SessionAsk, Told, only_code, short_of,
};
use crate::service::{name_of, numbers_of, write_numbers};
use crate::transfer::{tell_transfer, tell_words_to_write};
use camac_branch::{Answer, Command, CycleDone, Overrun, Plan};
use camac_event::Usage;
use camac_func::DataMove;
use camac_machine::Item;
use camac_rules::Checked;
use camac_run::{FullRunner, Progress, Used, Wanted};
use camac_word::{CrateNo, GlBit, Word24};
use std::alloc::Global;

/// The most answers of a run.
const MOST_ANSWERS: u32 = 4_294_967_295;

/// A run in progress.
#[derive(Drop)]
pub struct Session<'a> {
    pub runner: FullRunner<'a>,
    pub checked: &'a Checked,
    // what the run did last
    last: Last,
    held: Held,
    // how wide the register is that the next answer is read from: to look it up takes 60 instructions
    width: u8,
    room: Room,
}

/// A run before its first demand, or the allocator where there is no memory.
pub fn start<'a>(alloc: Global, checked: &'a Checked) -> Result<Loose<Session<'a>, Global>, Global>
    ensures { IfOk result (λ l. StartsOn checked.now l.value) }
{
    checked.fits_greatest();
    match Box::new(
        alloc,
        Session {
            runner: FullRunner::start(checked),
            checked,
            last: Last {
                deed: Deed::Nothing,
                used: Used::new(),
            },
            held: Held::new(),
            width: 0,
            room: Room::new(),
        },
    ) {
        Ok(session) => Ok(Loose::of(session)),
        Err(_) => Err(alloc),
    }
}

/// Does what is asked, and tells it.
#[inline(always)]
pub fn step<'a>(
    run: Loose<Session<'a>, Global>,
    ask: SessionAsk,
    told: &mut Told,
    bytes: &mut [u8],
) -> Loose<Session<'a>, Global>
    ensures { Steps run.entry.value ask result.value bytes.old bytes.new told.new }
{
    let mut session = run.into_box();
    match ask {
        SessionAsk::Wants => wants(&session, told),
        SessionAsk::Ahead(far) => *told = ahead(&mut session, far != 0, bytes),
        SessionAsk::ServiceAhead(number, far) => {
            *told = first_of(&session, number, far != 0, bytes)
        },
        SessionAsk::Next(answer) => next(&mut session, answer, told),
        SessionAsk::Step(answer) => next_and_wants(&mut session, answer, told),
        SessionAsk::Words => *told = counted(write_words(session.runner.last_words(), bytes)),
        SessionAsk::Record => *told = record(&session, bytes),
        SessionAsk::Item => *told = item(&session, bytes),
        SessionAsk::Held => *told = counted(write_held(session.held.as_slice(), bytes)),
        SessionAsk::Where => *told = place(&session, bytes),
        SessionAsk::Left => *told = counted(left(&session) as usize),
        SessionAsk::Services => *told = counted(session.checked.services()),
        SessionAsk::Name(number) => *told = name(&session, number, bytes),
        SessionAsk::Numbers(number) => *told = numbers(&session, number, bytes),
        SessionAsk::Limit(most) => *told = limit(&mut session, most),
        SessionAsk::GoOn => *told = go_on(&mut session),
        SessionAsk::Transfer => *told = tell_transfer(&session.runner, bytes),
        SessionAsk::ToWrite => *told = tell_words_to_write(&session.runner, bytes),
        SessionAsk::Back => *told = back(&session, bytes),
        SessionAsk::Abandon => *told = abandon(&mut session, bytes),
        SessionAsk::Rewind => *told = rewind(&mut session),
    }
    Loose::of(session)
}

/// Drops a run, and returns its allocator.
pub fn finish<'a>(run: Loose<Session<'a>, Global>) -> Global
    ensures { result ≡ run.entry.alloc }
{
    let run = run.into_box();
    let alloc = *Box::allocator(&run);
    drop(run);
    alloc
}

fn wants(session: &Session, told: &mut Told)
    ensures { TellsWant session.now session.now told.new }
{
    let wanted = session.runner.wants();
    *told = only_code(if wanted.is_none() { OVERRUN } else { OK });
    tell_want(session, &wanted, &mut told.want);
    while_paused(session, told);
}

#[inline(always)]
fn tell_want(session: &Session, wanted: &Option<Wanted>, want: &mut CamacWant)
    ensures { want.new ≡ (asked session.now.width session.now.runner wanted.now).want }
{
    match wanted {
        None => *want = NO_WANT,
        Some(wanted) => tell_one(&session.runner, wanted, session.width, want),
    }
}

#[inline(always)]
fn tell_one(runner: &FullRunner, wanted: &Wanted, width: u8, want: &mut CamacWant)
    ensures { want.new ≡ record (want_in width runner.now wanted.now) { is_short = short_in (size_in runner.now) } }
{
    tell_operation(runner, wanted, width, want);
    want.is_short = short_of(runner.word_size());
}

#[inline(always)]
fn tell_operation(runner: &FullRunner, wanted: &Wanted, width: u8, want: &mut CamacWant)
    ensures { want.new ≡ want_in width runner.now wanted.now }
{
    match wanted {
        Wanted::Demand => {
            *want = CamacWant {
                kind: DEMAND,
                waits: runner.waits_of(Wanted::Demand),
                width,
                ..NO_WANT
            }
        }
        Wanted::Cycle(command) => {
            *want = CamacWant {
                kind: CYCLE,
                c: command.c.get() as u8,
                n: command.n.get() as u8,
                a: command.a.get() as u8,
                f: command.f.get() as u8,
                data: movement_of(command.mv),
                waits: runner.waits_of(Wanted::Cycle(*command)),
                width,
                word: written_of(command.mv),
                ..NO_WANT
            }
        }
        Wanted::Lock(c) => {
            *want = CamacWant {
                kind: LOCK,
                c: c.get() as u8,
                waits: runner.waits_of(Wanted::Lock(*c)),
                width,
                ..NO_WANT
            }
        }
    }
}

/// What an operation is told as.
pub fn want_of(checked: &Checked, runner: &FullRunner, wanted: &Wanted) -> CamacWant
    ensures { result ≡ want_in (width_read checked.now.plan wanted.now) runner.now wanted.now }
{
    let mut want = NO_WANT;
    let width = width_read(checked.plan(), wanted);
    tell_operation(runner, wanted, width, &mut want);
    want
}

// How wide the register is that an operation reads.
fn width_read(plan: &Plan, wanted: &Wanted) -> u8
    ensures { result ≡ width_read plan.now wanted.now }
{
    match wanted {
        Wanted::Cycle(command) => match command.mv {
            DataMove::In => plan
                .allowed(command.c, command.n, command.a, command.f)
                .unwrap_or(24),
            _ => 0,
        },
        _ => 0,
    }
}

// The same of what is wanted.
#[inline(always)]
fn width_wanted(session: &Session, wanted: &Option<Wanted>) -> u8
    ensures { result ≡ width_wanted session.now.checked.now.plan wanted.now }
{
    match wanted {
        None => 0,
        Some(wanted) => width_read(session.checked.plan(), wanted),
    }
}

fn movement_of(mv: DataMove) -> u8
    ensures { result ≡ movement_in mv }
{
    match mv {
        DataMove::None => 0,
        DataMove::In => 1,
        DataMove::Out(_) => 2,
    }
}

fn written_of(mv: DataMove) -> u32
    ensures { result ≡ written_in mv }
{
    match mv {
        DataMove::Out(word) => word.get(),
        _ => 0,
    }
}

// Takes an answer. A call of its own writes what is told in place: inlined, each field would be carried to the end of the export.
#[inline(never)]
fn next(session: &mut Session, answer: CamacAnswer, told: &mut Told)
    ensures { TellsNext answer session.old session.new told.new }
{
    if take(session, answer, told) {
        look(session, told);
    }
}

// Takes an answer where that may be, keeps and tells what it did; else it tells why not.
#[inline(always)]
fn take(session: &mut Session, answer: CamacAnswer, told: &mut Told) -> bool
    ensures used { result ≡ true → IsUsed answer session.old session.new told.new }
    ensures declined { result ≡ false → TellsNext answer session.old session.new told.new }
    ensures code { result ≡ false → nat_eq told.new.code 0 ≡ false }
{
    if session.runner.is_paused() {
        *told = only_code(BUSY);
        return false;
    }
    let Some(answer) = answer_of(answer) else {
        *told = only_code(RANGE);
        return false;
    };
    if session.runner.fed() >= MOST_ANSWERS {
        *told = only_code(SPENT);
        return false;
    }
    use_answer(session, answer, told);
    true
}

// Keeps how wide the register is that is read next. The code is `BUSY` while the run pauses.
#[inline(always)]
fn look(session: &mut Session, told: &mut Told)
    ensures knows { KnowsWidth session.new }
    ensures same { session.new ≡ record session.old { width = session.new.width } }
    ensures told { told.new ≡ while_paused (is_paused session.new.runner.pending) told.old }
    ensures wants { (wanted : Option Wanted) × IsWanted session.new.runner wanted }
{
    let wanted = session.runner.wants();
    session.width = width_wanted(session, &wanted);
    while_paused(session, told);
}

// Uses an answer, keeps and tells what it did.
#[inline(always)]
fn use_answer(session: &mut Session, answer: Answer, told: &mut Told)
    requires awake { is_paused session.old.runner.pending ≡ false }
    requires fed { session.old.runner.fed < 4294967295 }
    ensures { Uses answer session.old session.new told.new }
{
    match session.runner.advance(answer, &mut session.last.used) {
        None => {
            session.last.deed = Deed::Answer;
            let used = &session.last.used;
            keep_held(&mut session.held, &used.item, used.unlocks.as_slice());
            let words = session.runner.last_words().len() as u32;
            tell(session.width, used, words, told);
        }
        Some(overrun) => {
            session.last.deed = Deed::Nothing;
            tell_overrun(overrun, told);
        }
    }
}

// The code is `BUSY` while the run pauses.
#[inline(always)]
fn while_paused(session: &Session, told: &mut Told)
    ensures { told.new ≡ while_paused (is_paused session.now.runner.pending) told.old }
{
    if session.runner.is_paused() {
        told.code = BUSY;
    }
}

// Takes an answer. Where that is done, told is also what the next one is for.
#[inline(never)]
fn next_and_wants(session: &mut Session, answer: CamacAnswer, told: &mut Told)
    ensures { TellsStep answer session.old session.new told.new }
{
    if take(session, answer, told) {
        tell_next(session, told);
    } else {
        // what is wanted stays, and is not told
        let _ = session.runner.wants();
    }
}

// Looks at what is wanted once, for its width and to tell it, where nothing else is told.
#[inline(always)]
fn tell_next(session: &mut Session, told: &mut Told)
    ensures knows { KnowsWidth session.new }
    ensures same { session.new ≡ record session.old { width = session.new.width } }
    ensures told { TellsThen session.new told.old told.new }
{
    if is_done(session, told) {
        tell_wanted(session, &mut told.want);
    } else {
        look(session, told);
    }
}

// Whether an answer was taken, and the run does not pause.
#[inline(always)]
fn is_done(session: &Session, told: &Told) -> bool
    ensures { result ≡ nat_eq (while_paused (is_paused session.now.runner.pending) told.now).code 0 }
{
    told.code == OK && !session.runner.is_paused()
}

// Keeps how wide the register is that is read next, and tells what is wanted.
#[inline(always)]
fn tell_wanted(session: &mut Session, want: &mut CamacWant)
    ensures knows { KnowsWidth session.new }
    ensures same { session.new ≡ record session.old { width = session.new.width } }
    ensures tells { (wanted : Option Wanted) × IsWanted session.new.runner wanted × (want.new ≡ (asked session.new.width session.new.runner wanted).want) }
{
    match session.runner.wants() {
        None => {
            session.width = 0;
            *want = NO_WANT;
        }
        Some(wanted) => {
            let width = width_read(session.checked.plan(), &wanted);
            session.width = width;
            tell_one(&session.runner, &wanted, width, want);
        }
    }
}

/// What a call tells that counts.
pub fn counted(count: usize) -> Told
    ensures { result ≡ counted count }
{
    Told {
        count,
        ..only_code(OK)
    }
}

// What comes next, in the room of the session.
fn ahead(session: &mut Session, far: bool, bytes: &mut [u8]) -> Told
    ensures same { session.new ≡ session.old }
    ensures tells { TellsAhead session.old bytes.old bytes.new result }
{
    session
        .room
        .tell_ahead(session.checked, &session.runner, far, bytes)
}

fn item(session: &Session, bytes: &mut [u8]) -> Told
    ensures { Lists (last_lines session.now.checked.now.script session.now.last) bytes.old bytes.new result }
{
    let mut size = 0;
    give_lines(session.checked, &session.last, bytes, &mut size);
    counted(size)
}

fn record(session: &Session, bytes: &mut [u8]) -> Told
    ensures { Lists (last_record session.now.last (last_words_in session.now.runner)) bytes.old bytes.new result }
{
    let mut size = 0;
    give_record(&session.last, session.runner.last_words(), bytes, &mut size);
    counted(size)
}

fn place(session: &Session, bytes: &mut [u8]) -> Told
    ensures { TellsPlace session.now.runner bytes.old bytes.new result }
{
    let numbers = numbers_of_place(session.runner.at());
    counted(write_numbers(&numbers, bytes))
}

// How many answers may still come.
fn left(session: &Session) -> u32
    ensures { result ≡ answers_left session.now.runner }
{
    if session.runner.is_over() {
        0
    } else {
        MOST_ANSWERS - session.runner.fed()
    }
}

fn name(session: &Session, number: u32, bytes: &mut [u8]) -> Told
    ensures { TellsIf Lists (name_at session.now.checked.now.script number) bytes.old bytes.new result }
{
    match name_of(session.checked, number) {
        None => only_code(RANGE),
        Some(name) => {
            let mut size = 0;
            give(name, bytes, &mut size);
            counted(size)
        }
    }
}

fn numbers(session: &Session, number: u32, bytes: &mut [u8]) -> Told
    ensures { TellsIf TellsWords (numbers_at session.now.checked.now number) bytes.old bytes.new result }
{
    match numbers_of(session.checked, number) {
        None => only_code(RANGE),
        Some(numbers) => counted(write_numbers(&numbers, bytes)),
    }
}

// Sets how many steps the run makes at once.
fn limit(session: &mut Session, most: u32) -> Told
    ensures told { result ≡ only_code 0 }
    ensures limits { Limits most session.old session.new }
{
    session.runner.limit_steps(most);
    only_code(OK)
}

// Goes on after a pause.
fn go_on(session: &mut Session) -> Told
    ensures { GoesOnIf (is_paused session.old.runner.pending) session.old session.new result }
{
    if !session.runner.is_paused() {
        return only_code(if session.runner.is_over() {
            OVERRUN
        } else {
            OK
        });
    }
    let (unlocks, event) = session.runner.go_on();
    let mut told = only_code(OK);
    told.progress.unlocked = crates_of(unlocks.as_slice());
    let words = session.runner.last_words().len() as u32;
    tell_event(&event, words, &mut told.progress);
    release_held(&mut session.held, unlocks.len());
    session.last.deed = Deed::Pause;
    session.last.used.unlocks = unlocks;
    session.last.used.event = event;
    look(session, &mut told);
    told
}

// Leaves the service in progress.
fn abandon(session: &mut Session, bytes: &mut [u8]) -> Told
    ensures { LeavesService session.old session.new bytes.old bytes.new result }
{
    let unlocks = session.runner.abandon();
    session.held = Held::new();
    session.width = 0;
    counted(write_crates(unlocks.as_slice(), bytes))
}

// Begins anew.
fn rewind(session: &mut Session) -> Told
    ensures told { result ≡ only_code 0 }
    ensures begins { Begins session.old.checked.now session.new }
    ensures limit { session.new.runner.limit ≡ session.old.runner.limit }
{
    session.checked.fits_greatest();
    let kept = session.runner.limit();
    session.runner = FullRunner::start(session.checked);
    session.runner.limit_steps(kept);
    session.last.deed = Deed::Nothing;
    session.held = Held::new();
    session.width = 0;
    only_code(OK)
}

fn answer_of(answer: CamacAnswer) -> Option<Answer>
    ensures in_range { IsSome result ↔ InRange answer }
    ensures kept { IfSome result (λ a. a ≡ answer_in answer) }
{
    let word = Word24::new(answer.word)?;
    let gl = Word24::new(answer.gl)?;
    Answer::new(answer.x != 0, answer.q != 0, word, answer.wait, gl)
}

#[inline(always)]
fn tell(width: u8, used: &Used, words: u32, told: &mut Told)
    ensures { told.new ≡ did width (Progress.Went used.now.item used.now.unlocks used.now.event) words }
{
    told.code = OK;
    told.want = NO_WANT;
    told.count = 0;
    tell_item(width, &used.item, &mut told.progress);
    told.progress.unlocked = unlocked_of(used.unlocks.as_slice());
    tell_event(&used.event, words, &mut told.progress);
}

// A wait that is not permitted.
fn tell_overrun(overrun: Overrun, told: &mut Told)
    ensures { (width words : ℕ) → told.new ≡ did width (Progress.Overrun overrun) words }
{
    *told = only_code(OVERRUN);
    told.progress.kind = STOPPED;
    told.progress.c = overrun.c.get() as u8;
    told.progress.wait = overrun.wait;
}

#[inline(always)]
fn tell_item(width: u8, item: &Item, progress: &mut CamacProgress)
    ensures { progress.new ≡ item_in width item.now }
{
    *progress = NO_PROGRESS;
    match item {
        Item::Demand(pattern, service) => {
            progress.kind = DEMAND;
            progress.pattern = pattern.get();
            progress.service = service_of(*service);
        }
        Item::Cycle(done) => {
            progress.kind = CYCLE;
            progress.wait = done.wait;
            progress.x = flag_of(done.reply.x);
            progress.q = flag_of(done.reply.q);
            let word = word_of(done);
            progress.word = word;
            progress.cut = cut_of(width, word);
        }
        Item::Lock(c, wait) => {
            progress.kind = LOCK;
            progress.c = c.get() as u8;
            progress.wait = *wait;
        }
        Item::Unlock(_) => {}
    }
}

fn flag_of(is_so: bool) -> u8
    ensures { result ≡ flag_in is_so }
{
    if is_so { 1 } else { 0 }
}

// The word that a cycle read.
fn word_of(done: &CycleDone) -> u32
    ensures { result ≡ word_in done.now }
{
    match done.command.mv {
        DataMove::In => done.reply.word.get(),
        _ => 0,
    }
}

// Its bits above this width.
#[inline(always)]
fn cut_of(width: u8, word: u32) -> u32
    ensures { result ≡ (if nat_lt width 24 then word - word % 2 ^ width else 0) }
{
    if width < 24 {
        word - word % (1 << width)
    } else {
        0
    }
}

// A script has at most 24 services, so that the number is never cut.
pub fn service_of(service: Option<usize>) -> u32
    ensures { result ≡ service_in service }
{
    match service {
        None => 0,
        Some(number) => number.min(4_294_967_294) as u32 + 1,
    }
}

#[inline(always)]
fn tell_event(event: &Option<(u32, GlBit, Usage)>, words: u32, progress: &mut CamacProgress)
    ensures { progress.new ≡ event_in event.now words progress.old }
{
    if let Some((number, gl, usage)) = event {
        progress.event = *number;
        progress.event_gl = gl.get();
        progress.event_words = words;
        progress.event_cycles = usage.cycles;
        progress.event_missed = u32::from(usage.missed);
    }
}

// The crates to be released. Most answers release none, and make no call for it.
#[inline(always)]
fn unlocked_of(crates: &[CrateNo]) -> [u8; 8]
    ensures { result ≡ crates_in crates.now }
{
    if crates.is_empty() {
        [0; 8]
    } else {
        crates_of(crates)
    }
}

#[inline(never)]
fn crates_of(crates: &[CrateNo]) -> [u8; 8]
    ensures { result ≡ crates_in crates.now }
{
    let mut listed = [0; 8];
    let n = crates.len().min(listed.len());
    for i in 0..n {
        listed[i] = crates[i].get() as u8;
    }
    listed
}
