// Block transfers, cycle by cycle.

ghost use Rattle.std.specs.Prelude.{◌≡◌, ◌<◌, ◌≤◌, length, [], true, None, Some, IsSome, IfSome, IfNone, is_some, ◌^◌, ◌%◌, if◌then◌else◌};
ghost use Rattle.camac_func.specs.declared.data.DataMove.TheVariants.{In};
ghost use Rattle.camac_branch.specs.Allowed.{width};
ghost use Rattle.camac_esone.specs.Calls.{IsOnBranch};
ghost use Rattle.camac_lang.specs.View.{q_repeat_of, q_stop_of, scan_of};
ghost use Rattle.camac_model.specs.Fine.{most_turns};
ghost use Rattle.camac_model.specs.Meaning.{sent, effect};
ghost use Rattle.camac_machine.specs.MachineState.{context_in, free, reach, FineThen, HasRoom, IsWidthOf, Proceeds, transferred};
ghost use Rattle.camac_machine.specs.Course.{data_of, keeps, left_at, words_sent, words_after};
ghost use Rattle.camac_machine.specs.Rest.{address_of};
ghost use Rattle.camac_machine.specs.Within.{StatementFits};

use crate::command::command;
use crate::machine::actions::bits_kept;
use crate::machine::answers::word_of;
use crate::machine::{Machine, Pending, TransferCycle};
use crate::transfer::{Course, Transfer};
use camac_branch::{Command, CycleDone, Plan};
use camac_esone::{Address, QRepeat, QStop, Scan};
use camac_lang::{AddressScan, BlockTransfer, Expr, WordSize};
use camac_word::Word24;

// Whether an event keeps the word of a transfer's cycle: that of a read with Q=1.
fn keeps(table: Option<&[Word24]>, q: bool) -> bool
    ensures { result ≡ keeps (words_sent table.entry) q }
{
    q && table.is_none()
}

// The low bits of a word.
fn cut(word: Word24, bits: u32) -> Word24
    requires { bits ≤ 24 }
    ensures { result ≡ word % 2 ^ bits }
{
    match Word24::new(word.get() % (1 << bits)) {
        Some(word) => word,
        None => unreachable!(),
    }
}

// The width of the command of a transfer whose cycles all have the same one.
fn width_to_keep(plan: &Plan, course: &Course, command: &Command) -> Option<u32>
    ensures { IfSome result (IsWidthOf plan.now command.now) }
{
    if course.stays() {
        Some(bits_kept(plan, command, WordSize::Full))
    } else {
        None
    }
}

// The width of a command: the kept one, or else that of the plan.
#[inline(always)]
fn width_of(plan: &Plan, kept: Option<u32>, command: &Command) -> u32
    requires { IfSome kept (IsWidthOf plan.now command.now) }
    ensures { IsWidthOf plan.now command.now result }
{
    match kept {
        Some(width) => width,
        None => bits_kept(plan, command, WordSize::Full),
    }
}

impl TransferCycle<'_> {
    // Makes the command that of the next cycle, if there is one. Of a transfer that stays at its address only the word is another.
    #[inline(always)]
    pub(crate) fn move_on(&mut self, stays: bool) -> bool
        requires at { IfSome ((left_at self.old.course).next_address []) IsOnBranch }
        requires data { IfSome ((left_at self.old.course).next_address []) (λ at. IsSome (data_of self.old.course (words_sent self.old.table))) }
        requires stays { stays ≡ true → IfSome ((left_at self.old.course).next_address []) (λ at. address_of self.old.command ≡ at) }
        requires reads { IfNone self.old.table (self.old.command.mv ≡ In) }
        ensures next { (left_at self.old.course).next_address [] ≡ (if result then Some (address_of self.new.command) else None) }
        ensures moves { result ≡ true → data_of self.old.course (words_sent self.old.table) ≡ Some self.new.command.mv }
        ensures same { self.new ≡ record self.old { command = self.new.command; kept_width = self.new.kept_width } }
        ensures function { self.new.command.f ≡ self.old.command.f }
        ensures width { IfSome self.new.kept_width (λ w. (self.old.kept_width ≡ Some w) × (address_of self.new.command ≡ address_of self.old.command)) }
    {
        match self.course.next() {
            None => false,
            Some(at) => {
                self.go_to(stays, at);
                if self.table.is_some() {
                    self.command.mv = self.course.data(self.table);
                }
                true
            }
        }
    }

    // Goes to an address, unless it stays at its own.
    #[inline(always)]
    fn go_to(&mut self, stays: bool, at: Address)
        requires at { IsOnBranch at }
        requires stays { stays ≡ true → address_of self.old.command ≡ at }
        ensures at { address_of self.new.command ≡ at }
        ensures moves { self.new.command.mv ≡ self.old.command.mv }
        ensures same { self.new ≡ record self.old { command = self.new.command; kept_width = self.new.kept_width } }
        ensures function { self.new.command.f ≡ self.old.command.f }
        ensures width { IfSome self.new.kept_width (λ w. (self.old.kept_width ≡ Some w) × (address_of self.new.command ≡ address_of self.old.command)) }
    {
        if !stays {
            self.command = command(at, self.command.f, self.command.mv);
            self.kept_width = None;
        }
    }
}

impl<'a, const V: usize, const DEPTH: usize, const CAP: usize> Machine<'a, V, DEPTH, CAP> {
    // The words of the table that a transfer sends, where it sends any.
    pub(crate) fn sent(&self, table: Option<usize>) -> Option<&'a [Word24]>
        requires { IsSome (sent (context_in self.now.checked.now) table) }
        ensures { sent (context_in self.now.checked.now) table ≡ Some (words_sent result) }
    {
        let checked = self.checked;
        match table {
            None => None,
            Some(number) => Some(checked.script().tables()[number].words.as_slice()),
        }
    }

    // `cfmad`.
    #[inline(never)]
    pub(crate) fn scan(&mut self, scan: &AddressScan, pending: &mut Option<Pending<'a>>) -> bool
        requires room { HasRoom self.old }
        requires fits { StatementFits (reach self.old) (free self.old) (scan_of scan.now) }
        requires fine { FineThen self.old (λ c. effect c most_turns (scan_of scan.now)) }
        ensures goes { Proceeds self.old (λ c. effect c most_turns (scan_of scan.now)) pending.new self.new }
        ensures some { result ≡ is_some pending.new }
    {
        let first = self.address_in(scan.first);
        let last = self.address_in(scan.last);
        let max = self.value_of(&scan.max);
        let transfer = Transfer {
            course: Course::Scan(Scan::new(first, last, max)),
            function: scan.function,
            table: None,
            tally: scan.tally,
        };
        self.proceed(&transfer, pending)
    }

    // `cfubc`.
    #[inline(never)]
    pub(crate) fn q_stop(
        &mut self,
        block: &BlockTransfer,
        pending: &mut Option<Pending<'a>>,
    ) -> bool
        requires room { HasRoom self.old }
        requires fits { StatementFits (reach self.old) (free self.old) (q_stop_of block.now) }
        requires fine { FineThen self.old (λ c. effect c most_turns (q_stop_of block.now)) }
        ensures goes { Proceeds self.old (λ c. effect c most_turns (q_stop_of block.now)) pending.new self.new }
        ensures some { result ≡ is_some pending.new }
    {
        let words = self.sent(block.table);
        let at = self.address_in(block.register);
        let max = self.value_of(&block.max);
        let transfer = Transfer {
            course: Course::Stop(QStop::new(at, max)),
            function: block.function,
            table: words,
            tally: block.tally,
        };
        self.proceed(&transfer, pending)
    }

    // `cfubr`.
    #[inline(never)]
    pub(crate) fn q_repeat(
        &mut self,
        block: &BlockTransfer,
        limit: &Expr,
        pending: &mut Option<Pending<'a>>,
    ) -> bool
        requires room { HasRoom self.old }
        requires fits { StatementFits (reach self.old) (free self.old) (q_repeat_of block.now limit.now) }
        requires fine { FineThen self.old (λ c. effect c most_turns (q_repeat_of block.now limit.now)) }
        ensures goes { Proceeds self.old (λ c. effect c most_turns (q_repeat_of block.now limit.now)) pending.new self.new }
        ensures some { result ≡ is_some pending.new }
    {
        let words = self.sent(block.table);
        let at = self.address_in(block.register);
        let max = self.value_of(&block.max);
        let limit = self.value_of(limit);
        let transfer = Transfer {
            course: Course::Repeat(QRepeat::new(at, max, limit)),
            function: block.function,
            table: words,
            tally: block.tally,
        };
        self.proceed(&transfer, pending)
    }

    // Goes on with a transfer: to its next cycle, or else to its tally. Answers whether a cycle is wanted next.
    #[inline(never)]
    fn proceed(&mut self, transfer: &Transfer<'a>, pending: &mut Option<Pending<'a>>) -> bool
        requires room { HasRoom self.old }
        requires tally { transfer.now.tally < (reach self.old).variables }
        requires fine { FineThen self.old (λ c. transferred c transfer.now) }
        ensures goes { Proceeds self.old (λ c. transferred c transfer.now) pending.new self.new }
        ensures some { result ≡ is_some pending.new }
    {
        let plan = self.checked.plan();
        plan.allows_commands();
        match transfer.course.command(transfer.function, transfer.table) {
            Some(command) => {
                let kept_width = width_to_keep(plan, &transfer.course, &command);
                *pending = Some(Pending::Transfer(TransferCycle {
                    command,
                    kept_width,
                    course: transfer.course,
                    table: transfer.table,
                    tally: transfer.tally,
                }));
                true
            }
            None => {
                self.set_variable(transfer.tally, transfer.course.tally());
                *pending = None;
                false
            }
        }
    }

    // Puts the word of a transfer's cycle into the event, where it is a read that had Q=1, cut to its width.
    #[inline(always)]
    pub(crate) fn put_read(
        &mut self,
        table: Option<&'a [Word24]>,
        kept: Option<u32>,
        done: &CycleDone,
    )
        requires kept { IfSome kept (IsWidthOf self.old.checked.now.plan done.now.command) }
        requires room { length (words_after (words_sent table) (width self.old.checked.now.plan (address_of done.now.command) done.now.command.f) done.now.reply self.old.words) ≤ CAP }
        ensures words { self.new.words ≡ words_after (words_sent table.entry) (width self.old.checked.now.plan (address_of done.now.command) done.now.command.f) done.now.reply self.old.words }
        ensures same { self.new ≡ record self.old { words = self.new.words } }
    {
        if keeps(table, done.reply.q) {
            let bits = width_of(self.checked.plan(), kept, &done.command);
            self.words.push(cut(word_of(done), bits));
        }
    }
}
