// What an answer does: the cycle or the lock that it is for.

ghost use Rattle.std.specs.Prelude.{◌≡◌, ◌+◌, ◌<◌, ◌≤◌, [], List, length, true, false, None, Some, IsSome, IfOk, IfErr, OnErr, IfSome, IfNone, OnSome, IsSomeAnd, slice_set, ◌^◌, ◌%◌};
ghost use Rattle.camac_branch.specs.Branch.{Answer};
ghost use Rattle.camac_branch.specs.Crates.{branch_of, is_permitted};
ghost use Rattle.camac_branch.specs.Plan.{crate_waits};
ghost use Rattle.camac_lang.specs.Tree.{done};
ghost use Rattle.camac_model.specs.State.{missed_with};
ghost use Rattle.camac_machine.specs.MachineState.{stands, IsFineHere, FineThen, HasRoom, IsPending, CanFollow, asked, IsOf, StandsIn, pending_of, after_pending, Makes, TakesLock, IsRefused, PausesAfter, Proceeds, Settles, Takes, Overruns};

use crate::command::command;
use crate::item::Item;
use crate::machine::{Frame, Machine, Owner, Pending};
use camac_branch::{Answer, Command, CycleDone, Overrun, cycle, lock};
use camac_lang::Stmt;
use camac_word::{CrateNo, Word24};

// Counts a cycle with this X; the number stays at 65,535 (own). Most cycles have X, and write nothing.
fn add_missed(x: bool, missed: &mut u16)
    ensures { missed.new ≡ missed_with x missed.old }
{
    if !x {
        *missed = missed.saturating_add(1);
    }
}

// Keeps so many bits of a word in a variable.
fn keep(variables: &mut [u32], variable: usize, bits: u32, word: Word24)
    requires variable { variable < length variables.old }
    requires bits { bits ≤ 24 }
    ensures { variables.new ≡ slice_set variables.old variable (word % 2 ^ bits) }
{
    variables[variable] = word.get() % (1 << bits);
}

// The word that came in.
pub fn word_of(done: &CycleDone) -> Word24
    ensures { result ≡ done.now.reply.word }
{
    done.reply.word
}

impl<'a, const V: usize, const DEPTH: usize, const CAP: usize> Machine<'a, V, DEPTH, CAP> {
    // Makes a cycle with this answer, and sets the flags and the counts.
    #[inline(always)]
    pub(crate) fn make(&mut self, command: Command, answer: Answer) -> Result<CycleDone, Overrun>
        requires room { HasRoom self.old }
        requires in_plan { IsSome (crate_waits self.old.checked.now.plan command.c) }
        requires few { is_permitted self.old.checked.now.plan (branch_of self.old.branch) command.c answer.wait ≡ true → self.old.cost + (1 + answer.wait) < 2 ^ 32 }
        ensures made { IfOk result (λ d. Makes self.old command answer d self.new) }
        ensures overrun { IfErr result (λ o. IsRefused self.old command.c answer.wait o) }
        ensures same { OnErr result (self.new ≡ self.old) }
    {
        let done = cycle(&mut self.branch, self.checked.plan(), command, answer)?;
        self.q = done.reply.q;
        self.x = done.reply.x;
        self.cost += 1 + u32::from(done.wait);
        add_missed(done.reply.x, &mut self.missed);
        Ok(done)
    }

    // Locks auxiliary controllers out of a crate after this wait, and counts it.
    pub(crate) fn lock(&mut self, crate_no: CrateNo, wait: u8) -> Result<u8, Overrun>
        requires in_plan { IsSome (crate_waits self.old.checked.now.plan crate_no) }
        requires is_free { (branch_of self.old.branch crate_no).locked ≡ false }
        requires few { is_permitted self.old.checked.now.plan (branch_of self.old.branch) crate_no wait ≡ true → self.old.cost + wait < 2 ^ 32 }
        ensures took { IfOk result (λ w. TakesLock self.old crate_no wait w self.new) }
        ensures overrun { IfErr result (λ o. IsRefused self.old crate_no wait o) }
        ensures same { OnErr result (self.new ≡ self.old) }
    {
        let wait = lock(&mut self.branch, self.checked.plan(), crate_no, wait)?;
        self.cost += u32::from(wait);
        Ok(wait)
    }

    // Makes a cycle that keeps no word. A wait that is not permitted is returned as an `Option`, here and below: the place of a `Result` would be
    // cleared at each answer, which costs a run some 1%.
    #[inline(always)]
    pub(crate) fn take_cycle(
        &mut self,
        command: Command,
        answer: Answer,
        item: &mut Item,
    ) -> Option<Overrun>
        requires room { HasRoom self.old }
        requires pending { IsPending self.old (Pending.Cycle command) }
        requires fine { (answers : List Answer) → IsFineHere self.old (stands (Some (Pending.Cycle command)) self.old answers) }
        ensures took { IfNone result (Takes self.old (Pending.Cycle command) answer item.new self.new) }
        ensures overrun { IfSome result (λ o. Overruns self.old (Pending.Cycle command) answer o) }
        ensures same { OnSome result ((self.new ≡ self.old) × (item.new ≡ item.old)) }
    {
        match self.make(command, answer) {
            Ok(done) => {
                *item = Item::Cycle(done);
                None
            }
            Err(overrun) => Some(overrun),
        }
    }

    // Makes a cycle of which a variable keeps so many bits of the word.
    #[inline(always)]
    pub(crate) fn take_read(
        &mut self,
        command: Command,
        variable: usize,
        bits: u32,
        answer: Answer,
        item: &mut Item,
    ) -> Option<Overrun>
        requires room { HasRoom self.old }
        requires pending { IsPending self.old (Pending.Read command variable bits) }
        requires fine { (answers : List Answer) → IsFineHere self.old (stands (Some (Pending.Read command variable bits)) self.old answers) }
        ensures took { IfNone result (Takes self.old (Pending.Read command variable bits) answer item.new self.new) }
        ensures overrun { IfSome result (λ o. Overruns self.old (Pending.Read command variable bits) answer o) }
        ensures same { OnSome result ((self.new ≡ self.old) × (item.new ≡ item.old)) }
    {
        match self.make(command, answer) {
            Ok(done) => {
                let place = self.scope.variables.start + variable;
                keep(&mut self.variables, place, bits, word_of(&done));
                *item = Item::Cycle(done);
                None
            }
            Err(overrun) => Some(overrun),
        }
    }

    // Takes the lock of a crate, and opens its block. Of the answer the wait alone counts: the whole one would be laid out in memory for each cycle.
    #[inline(never)]
    pub(crate) fn take_lock(
        &mut self,
        crate_no: CrateNo,
        body: &'a [Stmt],
        wait: u8,
        item: &mut Item,
    ) -> Option<Overrun>
        requires room { HasRoom self.old }
        requires quiet { self.old.unlocks.items ≡ [] }
        requires pending { IsPending self.old (Pending.Lock crate_no body) }
        requires fine { (answers : List Answer) → IsFineHere self.old (stands (Some (Pending.Lock crate_no body)) self.old answers) }
        ensures took { (answer : Answer) → answer.wait ≡ wait → IfNone result (Takes self.old (Pending.Lock crate_no body.entry) answer item.new self.new) }
        ensures overrun { (answer : Answer) → answer.wait ≡ wait → IfSome result (λ o. Overruns self.old (Pending.Lock crate_no body.entry) answer o) }
        ensures same { OnSome result ((self.new ≡ self.old) × (item.new ≡ item.old)) }
    {
        match self.lock(crate_no, wait) {
            Ok(wait) => {
                self.frames.push(Frame {
                    rest: body,
                    owner: Owner::Locked(crate_no.get()),
                });
                *item = Item::Lock(crate_no, wait);
                None
            }
            Err(overrun) => Some(overrun),
        }
    }

    /// Takes the answer that is wanted, and writes the item that it was used for into its place. Where the answer's wait is not permitted, it
    /// returns that wait, and nothing changes.
    #[inline(always)]
    pub fn take(
        &mut self,
        pending: &Pending<'a>,
        answer: Answer,
        item: &mut Item,
    ) -> Option<Overrun>
        requires room { HasRoom self.old }
        requires quiet { self.old.unlocks.items ≡ [] }
        requires pending { IsPending self.old pending.now }
        requires fine { (answers : List Answer) → IsFineHere self.old (stands (Some pending.now) self.old answers) }
        ensures took { IfNone result (Takes self.old pending.now answer item.new self.new) }
        ensures overrun { IfSome result (λ o. Overruns self.old pending.now answer o) }
        ensures same { OnSome result ((self.new ≡ self.old) × (item.new ≡ item.old)) }
    {
        match pending {
            Pending::Cycle(command) => self.take_cycle(*command, answer, item),
            Pending::Read {
                command,
                variable,
                bits,
            } => self.take_read(*command, *variable, *bits, answer, item),
            Pending::Lock { crate_no, body } => self.take_lock(*crate_no, body, answer.wait, item),
            Pending::Transfer(transfer) => match self.make(transfer.command, answer) {
                Ok(done) => {
                    self.put_read(transfer.table, transfer.kept_width, &done);
                    self.steps += 1;
                    *item = Item::Cycle(done);
                    None
                }
                Err(overrun) => Some(overrun),
            },
            Pending::Pause => unreachable!(),
        }
    }

    /// Goes on after the answer that was wanted, or after a pause, until the next one is wanted, or the service is over: with the transfer that it
    /// was wanted for, or else with the open blocks. It pauses after more than `most` steps, at most two more.
    #[inline(always)]
    pub fn go_further(&mut self, pending: &mut Option<Pending<'a>>, most: u32)
        requires room { HasRoom self.old }
        requires quiet { self.old.unlocks.items ≡ [] }
        requires follows { IfSome pending.old (CanFollow self.old) }
        requires begun { IfSome (asked pending.old) (StandsIn self.old) }
        requires fine { FineThen self.old (λ c. after_pending c pending.old) }
        ensures settles { Settles self.old (λ c. after_pending c pending.old) pending.new self.new }
        ensures pauses { PausesAfter self.old.steps most pending.new self.new }
        ensures soon { self.new.steps ≤ self.old.steps + most + 2 }
    {
        if !self.follow_transfer(pending) {
            self.settle(pending, most);
        }
    }

    // Goes on with the transfer that an answer was wanted for, if one was: to its next cycle, or else to its tally. Answers whether a cycle
    // is wanted next.
    #[inline(always)]
    fn follow_transfer(&mut self, pending: &mut Option<Pending<'a>>) -> bool
        requires room { HasRoom self.old }
        requires follows { IfSome pending.old (CanFollow self.old) }
        requires fine { FineThen self.old (λ c. after_pending c pending.old) }
        ensures cycle { result ≡ true → IsSome pending.new × Proceeds self.old (λ c. after_pending c pending.old) pending.new self.new }
        ensures tally { result ≡ false → Proceeds self.old (λ c. after_pending c pending.old) None self.new }
        ensures same { result ≡ true → IsSomeAnd (asked pending.old) (λ w. IfSome pending.new (λ v. IsOf (pending_of w) (pending_of v))) }
    {
        match pending {
            Some(Pending::Transfer(transfer)) => {
                self.checked.plan().allows_commands();
                let stays = transfer.course.stays();
                transfer.course.take(self.q);
                if transfer.move_on(stays) {
                    return true;
                }
                self.set_variable(transfer.tally, transfer.course.tally());
                false
            }
            Some(Pending::Cycle(_)) => false,
            Some(Pending::Read { .. }) => false,
            Some(Pending::Lock { .. }) => false,
            Some(Pending::Pause) => false,
            None => false,
        }
    }
}
