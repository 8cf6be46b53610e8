// A run that is fed an answer at a time, and takes no memory.

ghost use Rattle.std.specs.Prelude.{◌≡◌, ◌+◌, ◌<◌, ◌≤◌, List, [], length, true, Some, None, false, is_some, IsSome, IfSome, IfNone, OnSome, if◌then◌else◌};
ghost use Rattle.camac_branch.specs.Branch.{Answer};
ghost use Rattle.camac_machine.specs.MachineState.{bounds_at, pending_of};
ghost use Rattle.camac_machine.specs.Rest.{is_asking, is_pause, is_paused};
ghost use Rattle.camac_lang.specs.Fits.{fits};
ghost use Rattle.camac_model.specs.Behaviour.{stops, short, ends};
ghost use Rattle.camac_model.specs.Run.{the_run};
ghost use Rattle.camac_run.specs.Runner.{state_in, rest, last_words_in, event_in, GoesOn, KeepsLimit, NeverPauses, Progresses, Resumes, Stops, steps_of, words_of};
ghost use Rattle.camac_run.specs.Abandoned.{Abandons};
ghost use Rattle.camac_run.specs.Ahead.{IsAhead};
ghost use Rattle.camac_run.specs.Back.{back_in};
ghost use Rattle.camac_run.specs.Holds.{HoldsAfter};
ghost use Rattle.camac_run.specs.Operation.{IsWaiting, Wants, operation};
ghost use Rattle.camac_run.specs.Place.{IsPlace};
ghost use Rattle.camac_run.specs.Requested.{IsSafeRequest, held_in};
ghost use Rattle.camac_run.specs.Size.{size_in};
ghost use Rattle.camac_run.specs.Sure.{one_operation};
ghost use Rattle.camac_run.specs.Transfer.{CanGoOn, IsBlockOf, IsLeft, is_transfer};
ghost use Rattle.camac_run.specs.Waits.{GoesOnUpTo, waits_in, waits_of};

use crate::ahead::add_following;
use crate::back::{Back, commands_back};
use crate::leaving::leave_service;
use crate::list::Coming;
use crate::member::Member;
use crate::place::Place;
use crate::progress::{Progress, Used, Wanted};
use crate::service::service_for;
use crate::size::size_of;
use crate::transfer::{ReadBlock, TransferLeft, left_of};
use arrayvec::ArrayVec;
use camac_branch::{Answer, Branch, Overrun, demand, locked};
use camac_event::Usage;
use camac_lang::{WordSize, limits};
use camac_machine::{Item, Machine, NO_PAUSE, Pending};
use camac_rules::Checked;
use camac_word::{CrateNo, GlBit, Word24};
use std::marker::Model;

/// A run of a script over the answers so far, with room for `V` variables, `V` registers, `DEPTH` open blocks and `CAP` words of an
/// event. What it has answered so far is a prefix of the run on any longer list of answers.
#[derive(Drop)]
pub struct Runner<'a, const V: usize, const DEPTH: usize, const CAP: usize> {
    machine: Machine<'a, V, DEPTH, CAP>,
    // what the service in progress wants, where one is
    pending: Option<Pending<'a>>,
    fed: u32,
    events: u32,
    // whether the last answer left an event
    has_event: bool,
    // the wait that was not permitted
    overrun: Option<Overrun>,
    // the crates as they were at the demand that called the service in progress
    at_demand: Branch,
    // how many steps it makes at once, before it may pause
    limit: u32,
}

/// A runner with room for every script that is checked: the program's.
pub type FullRunner<'a> = Runner<
    'a,
    { limits::VARIABLES },
    { limits::DEPTH },
    { limits::EVENT_WORDS },
>;

impl<'a, const V: usize, const DEPTH: usize, const CAP: usize> Model for Runner<'a, V, DEPTH, CAP> {
    ghost use Rattle.std.specs.Coded.{codes};
    ghost use Rattle.camac_rules.specs.Checked.{checked_coded};
    ghost use Rattle.camac_machine.proofs.Codes.{want_coded, open_coded, statement_coded};
    ghost use Rattle.camac_run.specs.Runner.{RunnerState};
    ghost use Rattle.camac_run.specs.Sound.{runner_state, IsSound};

    ghost Value = { RunnerState };

    ghost coded = { Prim.hlevel (codes, checked_coded, want_coded, open_coded, statement_coded) };

    ghost view = { λ r. runner_state r.machine r.pending r.fed r.events r.has_event r.overrun r.at_demand r.limit };

    ghost invariant = { λ r. IsSound r.machine r.pending r.fed r.events r.at_demand };
}

impl<'a, const V: usize, const DEPTH: usize, const CAP: usize> Runner<'a, V, DEPTH, CAP> {
    /// A run before its first graded-L operation. It takes no memory. The script has to fit the sizes.
    pub fn start(checked: &'a Checked) -> Self
        requires { fits checked.now.script V DEPTH CAP ≡ true }
        ensures rest { (answers : List Answer) → rest result answers ≡ the_run checked.now.plan checked.now.script answers }
        ensures holds { HoldsAfter checked.now.plan checked.now.script [] [] result }
        ensures checked { result.checked ≡ checked.now }
        ensures fed { result.fed ≡ 0 }
        ensures events { result.events ≡ 0 }
        ensures overrun { result.overrun ≡ None }
        ensures quiet { last_words_in result ≡ [] }
        ensures never { NeverPauses result }
    {
        checked.is_checked();
        checked.script().well_formed();
        Runner {
            machine: Machine::start(checked),
            pending: None,
            fed: 0,
            events: 0,
            has_event: false,
            overrun: None,
            at_demand: Branch::start(),
            limit: NO_PAUSE,
        }
    }

    /// Sets how many steps the run makes at once: after more, in one answer or after a pause, it pauses, at most three more. With 4,294,967,295, as at
    /// the start, it never does. A run that pauses goes on to do so.
    pub fn limit_steps(&mut self, most: u32)
        ensures { self.new ≡ record self.old { limit = most } }
    {
        self.limit = most;
    }

    /// Takes an answer, the 4,294,967,295th at most, and returns what it was used for. It takes no memory. From the first wait on that is not permitted, it returns that
    /// wait, and nothing else changes. After more steps than its limit the run pauses, and what is told is what it did up to there.
    #[inline(always)]
    pub fn next(&mut self, answer: Answer) -> Progress
        requires fed { self.old.fed < 4294967295 }
        requires awake { is_paused self.old.pending ≡ false }
        ensures progresses { Progresses self.old answer result self.new }
        ensures keeps { KeepsLimit self.old self.new }
    {
        let mut used = Used::new();
        match self.advance(answer, &mut used) {
            None => Progress::Went {
                item: used.item,
                unlocks: used.unlocks,
                event: used.event,
            },
            Some(overrun) => Progress::Overrun(overrun),
        }
    }

    /// What `next` does, but what the answer was used for is written where the caller keeps it, since to move it for each answer costs a run some
    /// 4%. Returns a wait that is not permitted, and then that place stays as it was.
    #[inline(always)]
    pub fn advance(&mut self, answer: Answer, used: &mut Used) -> Option<Overrun>
        requires fed { self.old.fed < 4294967295 }
        requires awake { is_paused self.old.pending ≡ false }
        ensures goes { IfNone result (GoesOn self.old answer used.new.item used.new.unlocks.items used.new.event self.new) }
        ensures stops { IfSome result (λ o. Stops self.old answer o self.new) }
        ensures same { OnSome result (used.new ≡ used.old) }
        ensures keeps { KeepsLimit self.old self.new }
    {
        if let Some(overrun) = self.overrun {
            return Some(overrun);
        }
        match self.pending {
            None => {
                self.demand(answer, used);
                None
            }
            Some(_) => self.resume(answer, used),
        }
    }

    // A graded-L operation.
    #[inline(always)]
    fn demand(&mut self, answer: Answer, used: &mut Used)
        requires fed { self.old.fed < 4294967295 }
        requires first { self.old.overrun ≡ None }
        requires idle { self.old.pending ≡ None }
        ensures goes { GoesOn self.old answer used.new.item used.new.unlocks.items used.new.event self.new }
        ensures keeps { KeepsLimit self.old self.new }
    {
        let checked = self.machine.checked;
        let pattern = demand(&self.machine.branch, checked.plan(), answer);
        self.fed += 1;
        match service_for(checked, pattern) {
            None => {
                self.has_event = false;
                used.item = Item::Demand(pattern, None);
                used.unlocks.clear();
                used.tell_event(None);
            }
            Some(called) => {
                self.at_demand = self.machine.branch.copy();
                self.machine
                    .serve(called.number, &mut self.pending, self.limit);
                used.item = Item::Demand(pattern, Some(called.number));
                used.tell_unlocks(&mut self.machine.unlocks);
                let event = self.close();
                used.tell_event(event);
            }
        }
    }

    // The answer that the service in progress wants.
    #[inline(always)]
    fn resume(&mut self, answer: Answer, used: &mut Used) -> Option<Overrun>
        requires fed { self.old.fed < 4294967295 }
        requires first { self.old.overrun ≡ None }
        requires pending { IsSome self.old.pending }
        requires awake { is_paused self.old.pending ≡ false }
        ensures goes { IfNone result (GoesOn self.old answer used.new.item used.new.unlocks.items used.new.event self.new) }
        ensures stops { IfSome result (λ o. Stops self.old answer o self.new) }
        ensures same { OnSome result (used.new ≡ used.old) }
        ensures keeps { KeepsLimit self.old self.new }
    {
        let taken = match &self.pending {
            Some(pending) => self.machine.take(pending, answer, &mut used.item),
            None => unreachable!(),
        };
        match taken {
            None => {
                self.machine.go_further(&mut self.pending, self.limit);
                self.fed += 1;
                used.tell_unlocks(&mut self.machine.unlocks);
                let event = self.close();
                used.tell_event(event);
                None
            }
            Some(overrun) => {
                self.overrun = Some(overrun);
                self.overrun
            }
        }
    }

    /// Whether the run pauses: it wants no answer, but to go on.
    pub fn is_paused(&self) -> bool
        ensures { result ≡ is_paused self.now.pending }
    {
        match &self.pending {
            None => false,
            Some(pending) => is_pause(pending),
        }
    }

    /// Goes on after a pause, and may pause again. Returns the crates whose lockout was released, and the event if the service ended.
    pub fn go_on(&mut self) -> (ArrayVec<CrateNo, 7>, Option<(u32, GlBit, Usage)>)
        requires { is_paused self.old.pending ≡ true }
        ensures resumes { Resumes self.old result.0.items result.1 self.new }
        ensures keeps { KeepsLimit self.old self.new }
    {
        let most = self.limit;
        self.machine.go_further(&mut self.pending, most);
        let unlocks = self.machine.unlocks.take();
        let event = self.close();
        (unlocks, event)
    }

    // Counts the event of a service that is over, and tells it.
    #[inline(always)]
    fn close(&mut self) -> Option<(u32, GlBit, Usage)>
        requires service { self.old.service < length self.old.checked.script.services }
        requires events { self.old.events < self.old.fed }
        requires fed { self.old.fed ≤ 4294967295 }
        ensures ended { IfNone self.old.pending ((result ≡ Some (event_in self.old (self.old.events + 1))) × (self.new ≡ record self.old { events = self.old.events + 1; has_event = true })) }
        ensures goes_on { OnSome self.old.pending ((result ≡ None) × (self.new ≡ record self.old { has_event = false })) }
    {
        match self.pending {
            None => {
                self.events += 1;
                self.has_event = true;
                Some(self.machine.event(self.events))
            }
            Some(_) => {
                self.has_event = false;
                None
            }
        }
    }

    /// Leaves the service in progress, as after a fault of the crates or a wait that was not permitted, without an event. The run goes on at the demand
    /// that called it: with the crates and the number of events of then, and without the answers that it has used. Returns the crates whose lockout it
    /// held, in the order in which to release them. Between services nothing changes.
    pub fn abandon(&mut self) -> ArrayVec<CrateNo, 7>
        ensures { Abandons self.old result.items self.new }
    {
        match self.pending {
            None => ArrayVec::new(),
            Some(_) => {
                leave_service(&mut self.machine, self.at_demand.copy());
                self.pending = None;
                self.has_event = false;
                self.overrun = None;
                self.machine.unlocks.take()
            }
        }
    }

    /// The commands that set inhibit and demand output of each crate back, as they were at the demand of the service in progress.
    pub fn back(&self) -> Back
        ensures { result.items ≡ back_in self.now }
    {
        match self.pending {
            None => Back::new(),
            Some(_) => commands_back(
                self.machine.checked.plan(),
                &self.machine.branch,
                &self.at_demand,
            ),
        }
    }

    /// The operation that the next answer is for, whatever that answer is; without one the run does nothing more. None after a wait that was
    /// not permitted, and while the run pauses. A lock that is wanted is of a crate of the plan which is not locked.
    pub fn wants(&self) -> Option<Wanted>
        ensures wants { Wants self.now result }
        ensures paused { is_paused self.now.pending ≡ true → result ≡ None }
        ensures safe { IfSome result (IsSafeRequest self.now.checked.plan (held_in self.now)) }
        ensures waits { IfSome result (λ o. GoesOnUpTo self.now (waits_of self.now o)) }
    {
        if self.overrun.is_some() {
            return None;
        }
        match &self.pending {
            Some(pending) => operation(pending),
            None => Some(Wanted::Demand),
        }
    }

    /// The longest wait that is permitted before an operation, as the crates are.
    #[inline(always)]
    pub fn waits_of(&self, wanted: Wanted) -> u8
        ensures { result ≡ waits_of self.now wanted }
    {
        match wanted {
            Wanted::Demand => 15,
            Wanted::Cycle(command) => self.waits_in(command.c),
            Wanted::Lock(c) => self.waits_in(c),
        }
    }

    /// Whether a crate is locked.
    pub fn is_locked(&self, c: CrateNo) -> bool
        ensures { result ≡ held_in self.now c }
    {
        locked(&self.machine.branch, c)
    }

    // The same in a crate.
    fn waits_in(&self, c: CrateNo) -> u8
        ensures { result ≡ waits_in self.now c }
    {
        if locked(&self.machine.branch, c) {
            0
        } else {
            self.machine.checked.plan().waits(c).unwrap_or(0)
        }
    }

    /// What comes next, whatever is answered: the operation that the run wants now, and what surely follows it, `AHEAD` at most; with blocks and releases,
    /// if the list may go so far. None after a wait that was not permitted, and while the run pauses.
    pub fn ahead(&self, far: bool, coming: &mut Coming)
        ensures { IsAhead self.now coming.new.ahead.items }
    {
        coming.begin(far);
        let Some(first) = self.wants() else {
            return;
        };
        let size = self.word_size();
        let Some(pending) = &self.pending else {
            coming.ahead.push(Member::Makes(first, size));
            return;
        };
        if is_one(pending) {
            coming.ahead.push(Member::Makes(first, size));
            add_following(&self.machine, pending, coming);
            return;
        }
        if far {
            if let Some(block) = block_of(pending) {
                coming.ahead.push(Member::Block(block));
                add_following(&self.machine, pending, coming);
                return;
            }
        }
        coming.ahead.push(Member::Makes(first, size));
    }

    /// What is left of the transfer whose cycle the service in progress waits for; none where it waits for something else.
    pub fn transfer(&self) -> Option<TransferLeft<'a>>
        ensures left { IfSome result (IsLeft self.now) }
        ensures some { is_some result ≡ is_transfer self.now.pending }
    {
        match &self.pending {
            None => None,
            Some(pending) => match pending {
                Pending::Cycle(_) => None,
                Pending::Read { .. } => None,
                Pending::Lock { .. } => None,
                Pending::Transfer(transfer) => Some(left_of(transfer)),
                Pending::Pause => None,
            },
        }
    }

    /// The law that a run whose waits were all permitted wants an answer, unless it pauses.
    pub fn is_waiting(&self)
        requires first { self.now.overrun ≡ None }
        requires awake { is_paused self.now.pending ≡ false }
        ensures { IsWaiting self.now }
    {
        let _ = &self.pending;
    }

    /// Where the service in progress stands: the statement whose operation the next answer is for. None where no service is in progress, or where it
    /// pauses.
    pub fn at(&self) -> Option<Place>
        ensures place { IfSome result (IsPlace self.now) }
        ensures some { is_some result ≡ is_asking self.now.pending }
    {
        if self.is_asking() {
            Some(self.place())
        } else {
            None
        }
    }

    /// Of how many bits the words are that the next answer's cycle moves: 16 where the statement of `at` is `cssa`, else 24.
    pub fn word_size(&self) -> WordSize
        ensures { result ≡ size_in self.now }
    {
        if !self.is_asking() {
            return WordSize::Full;
        }
        match self.machine.begun {
            Some(begun) => size_of(begun),
            None => WordSize::Full,
        }
    }

    // Whether an answer is wanted in a service.
    fn is_asking(&self) -> bool
        ensures { result ≡ is_asking self.now.pending }
    {
        match &self.pending {
            None => false,
            Some(pending) => !is_pause(pending),
        }
    }

    // The same where an answer is wanted in a service.
    fn place(&self) -> Place
        requires { is_asking self.now.pending ≡ true }
        ensures { IsPlace self.now result }
    {
        match self.machine.begun {
            Some(begun) => Place {
                service: self.machine.service,
                line: begun.spot().line,
            },
            None => unreachable!(),
        }
    }

    /// Whether a service is in progress. Without a further answer the run then stops in it, unless it pauses.
    pub fn in_service(&self) -> bool
        ensures some { result ≡ is_some self.now.pending }
        ensures rest { is_paused self.now.pending ≡ false → rest self.now [] ≡ (if result then stops short (state_in self.now []) else ends tt) }
    {
        match self.pending {
            Some(_) => true,
            None => false,
        }
    }

    /// Whether a wait was not permitted.
    pub fn is_over(&self) -> bool
        ensures { result ≡ is_some self.now.overrun }
    {
        self.overrun.is_some()
    }

    /// How many steps the run makes at once.
    pub fn limit(&self) -> u32
        ensures { result ≡ self.now.limit }
    {
        self.limit
    }

    /// How many answers were used.
    pub fn fed(&self) -> u32
        ensures { result ≡ self.now.fed }
    {
        self.fed
    }

    /// How many words the event of the service in progress has, 0 where none is.
    pub fn event_words(&self) -> usize
        ensures so_far { IsSome self.now.pending → result ≡ length self.now.words }
        ensures words { is_paused self.now.pending ≡ false → result ≡ length (words_of (rest self.now [])) }
    {
        match self.pending {
            Some(_) => self.machine.words().len(),
            None => 0,
        }
    }

    /// How many steps the service in progress has made, 0 where none is.
    pub fn steps(&self) -> u32
        ensures so_far { IsSome self.now.pending → result ≡ self.now.steps }
        ensures steps { is_paused self.now.pending ≡ false → result ≡ steps_of (rest self.now []) }
        ensures within { result ≤ (bounds_at self.now.checked self.now.service).steps }
    {
        match self.pending {
            Some(_) => self.machine.steps,
            None => 0,
        }
    }

    /// The words of the event that the last answer left, none where it left none.
    pub fn last_words(&self) -> &[Word24]
        ensures words { result.now ≡ last_words_in self.now }
        ensures fits { length result.now ≤ CAP }
    {
        if self.has_event {
            self.machine.words()
        } else {
            &[]
        }
    }
}

// The operation that is waited for; none in a pause.
fn operation(pending: &Pending) -> Option<Wanted>
    ensures { result ≡ operation pending.now }
{
    match pending {
        Pending::Cycle(command) => Some(Wanted::Cycle(*command)),
        Pending::Read { command, .. } => Some(Wanted::Cycle(*command)),
        Pending::Lock { crate_no, .. } => Some(Wanted::Lock(*crate_no)),
        Pending::Transfer(transfer) => Some(Wanted::Cycle(transfer.command)),
        Pending::Pause => None,
    }
}

// Whether no answer is waited for.
fn is_pause(pending: &Pending) -> bool
    ensures { result ≡ is_pause (pending_of pending.now) }
{
    match pending {
        Pending::Cycle(_) => false,
        Pending::Read { .. } => false,
        Pending::Lock { .. } => false,
        Pending::Transfer(_) => false,
        Pending::Pause => true,
    }
}

// Whether what is waited for is one operation.
fn is_one(pending: &Pending) -> bool
    ensures { result ≡ is_some (one_operation (pending_of pending.now)) }
{
    match pending {
        Pending::Cycle(_) => true,
        Pending::Read { .. } => true,
        Pending::Lock { .. } => true,
        Pending::Transfer(_) => false,
        Pending::Pause => false,
    }
}

// What is left of a transfer that reads, if that is waited for.
fn block_of(pending: &Pending) -> Option<ReadBlock>
    requires { CanGoOn pending.now }
    ensures { IfSome result (IsBlockOf pending.now) }
{
    match pending {
        Pending::Cycle(_) => None,
        Pending::Read { .. } => None,
        Pending::Lock { .. } => None,
        Pending::Transfer(transfer) => left_of(transfer).read_block(),
        Pending::Pause => None,
    }
}
