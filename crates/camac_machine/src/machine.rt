// What a service in progress holds: the open blocks, innermost last, and its store.

ghost use Rattle.std.specs.Prelude.{◌≡◌, ◌+◌, ◌*◌, ◌<◌, ◌≤◌, [], List, length, map, true, false, None, Some, IsSome, IfSome, slice_get};
ghost use Rattle.camac_branch.specs.Branch.{Answer, start};
ghost use Rattle.camac_lang.specs.View.{expression_of, part_of, statement_of};
ghost use Rattle.camac_branch.specs.Crates.{branch_of};
ghost use Rattle.camac_lang.specs.Tree.{Service};
ghost use Rattle.camac_model.specs.Behaviour.{ends};
ghost use Rattle.camac_model.specs.Fine.{most_turns};
ghost use Rattle.camac_model.specs.Meaning.{effect};
ghost use Rattle.camac_model.specs.State.{fresh, stepped};
ghost use Rattle.camac_model.specs.Value.{value, truth};
ghost use Rattle.camac_machine.specs.MachineState.{event_here, variables_here, registers_here, state_of, reach, stands, free, IsFineHere, FineThen, HasRoom, wanted_if, Wants, Advances, Settles, PausesAfter, Serves, is_paused_at};
ghost use Rattle.camac_lang.specs.Fits.{fits};
ghost use Rattle.camac_machine.specs.Store.{registers_in, held_at};
ghost use Rattle.camac_machine.specs.Within.{Refers, PartsRefer, StatementFits};

mod actions;
mod answers;
mod blocks;
mod pausing;
mod transfers;

use crate::arguments::wipe;
use crate::command::command;
use crate::condition::holds;
use crate::scope::Scope;
use crate::transfer::{Course, Transfer};
use crate::value::value_of;
use arrayvec::ArrayVec;
use camac_branch::{Answer, Branch, Command};
use camac_esone::{Address, QRepeat, QStop, Scan};
use camac_event::{EventBuffer, Usage};
use camac_lang::{Action, CrateCall, Expr, LamCall, Part, Stmt, limits};
use camac_rules::Checked;
use camac_word::{CrateNo, GlBit, Word24};

/// More steps than any service makes: with it none pauses.
pub const NO_PAUSE: u32 = 4_294_967_295;

/// What goes on after a block.
#[derive(Clone, Copy)]
pub enum Owner<'a> {
    /// The block around it.
    Plain,
    /// The lock of a crate is released first. It is by number, since a checked number is not copied out of a variant beside borrowed ones.
    Locked(u32),
    /// A `for` after the turn with this value of its variable, up to the last one, with the turns that it may still make.
    For {
        variable: usize,
        current: u32,
        last: u32,
        turns: u32,
        body: &'a [Stmt],
    },
    /// A `while` with the turns that it may still make.
    While {
        test: &'a [Part],
        turns: u32,
        body: &'a [Stmt],
    },
    /// The caller of a procedure, by what it sees.
    Return(Scope),
}

/// The statements that are left of an open block.
#[derive(Clone, Copy)]
pub struct Frame<'a> {
    pub rest: &'a [Stmt],
    pub owner: Owner<'a>,
}

impl<'a> Default for Frame<'a> {
    fn default() -> Frame<'a> {
        Frame {
            rest: &[],
            owner: Owner::Plain,
        }
    }
}

/// What a service in progress waits for: the operation that its next answer is used for, or to go on.
#[derive(Clone, Copy)]
pub enum Pending<'a> {
    /// A cycle that keeps no word.
    Cycle(Command),
    /// A cycle of which a variable keeps so many bits of the word, 24 at most.
    Read {
        command: Command,
        variable: usize,
        bits: u32,
    },
    /// The lock of a crate over a block.
    Lock {
        crate_no: CrateNo,
        body: &'a [Stmt],
    },
    /// The next cycle of a transfer.
    Transfer(TransferCycle<'a>),
    /// No answer: it has made more steps than it may at once, and goes on when it is told to.
    Pause,
}

/// A cycle of a transfer, with the words of the table that the transfer sends, where it sends any, and the variable of its tally.
#[derive(Clone, Copy)]
pub struct TransferCycle<'a> {
    pub command: Command,
    /// The width of the command, where all cycles have the same one; else it is looked up.
    pub kept_width: Option<u32>,
    pub course: Course,
    pub table: Option<&'a [Word24]>,
    pub tally: usize,
}

/// A service in progress, or the state between two services: the branch, the open blocks and the store, with room for `V` variables, `V`
/// registers, `DEPTH` open blocks and `CAP` words of an event. All is in fixed memory.
#[derive(Drop)]
pub struct Machine<'a, const V: usize, const DEPTH: usize, const CAP: usize> {
    pub checked: &'a Checked,
    /// The number of the service in progress, or of the last one.
    pub service: usize,
    /// The open blocks, innermost last.
    pub frames: ArrayVec<Frame<'a>, DEPTH>,
    pub variables: [u32; V],
    pub registers: [Option<Address>; V],
    /// What the innermost body sees of the variables and registers.
    pub scope: Scope,
    /// The statement that was begun last of those that wait for an answer.
    pub begun: Option<&'a Stmt>,
    /// Q and X of the last dataway cycle (EUR 4100, IEEE 583).
    pub q: bool,
    pub x: bool,
    /// The words of the event so far.
    pub words: EventBuffer<CAP>,
    /// Of the service so far (own): its steps, what its dataway cycles and locks cost with their waits, and its cycles without X, at most 65,535.
    pub steps: u32,
    pub cost: u32,
    pub missed: u16,
    pub branch: Branch,
    /// The crates whose locks were released since the last answer.
    pub unlocks: ArrayVec<CrateNo, 7>,
}

// The address that a register holds.
fn address_in(registers: &[Option<Address>], register: usize) -> Address
    requires declared { register < length registers.now }
    requires set { IsSome (registers_in registers.now register) }
    ensures { registers_in registers.now register ≡ Some result }
{
    match registers[register] {
        Some(at) => at,
        None => unreachable!(),
    }
}

// Says that nothing is wanted. It is no part of its callers, which would lay out the room of what is wanted once more at each call.
#[inline(never)]
pub(crate) fn wait_for_none(pending: &mut Option<Pending<'_>>)
    ensures { pending.new ≡ None }
{
    *pending = None;
}

impl<'a, const V: usize, const DEPTH: usize, const CAP: usize> Machine<'a, V, DEPTH, CAP> {
    /// A machine before the first service: no block is open, and its branch and its store are as a first service finds them. It takes no memory. The
    /// script has to fit the sizes.
    pub fn start(checked: &'a Checked) -> Self
        requires { fits checked.now.script V DEPTH CAP ≡ true }
        ensures room { HasRoom result }
        ensures checked { result.checked ≡ checked.entry }
        ensures idle { result.frames.items ≡ [] }
        ensures quiet { result.unlocks.items ≡ [] }
        ensures branch { branch_of result.branch ≡ start }
        ensures fresh { (answers : List Answer) → state_of result answers ≡ fresh start answers }
    {
        checked.is_checked();
        checked.script().well_formed();
        Machine {
            checked,
            service: 0,
            frames: ArrayVec::new(),
            variables: [0; V],
            registers: [None; V],
            scope: Scope::empty(),
            begun: None,
            q: false,
            x: false,
            words: EventBuffer::new(),
            steps: 0,
            cost: 0,
            missed: 0,
            branch: Branch::start(),
            unlocks: ArrayVec::new(),
        }
    }

    /// The words of the event of the service in progress, or of the last one, `CAP` at most.
    pub fn words(&self) -> &[Word24]
        ensures words { result.now ≡ self.now.words }
        ensures fits { length result.now ≤ CAP }
    {
        self.words.words()
    }

    // The variables of the innermost body.
    pub(crate) fn variables(&self) -> &[u32]
        requires { HasRoom self.now }
        ensures values { result.now ≡ held_at self.now.scope.variables self.now.variables }
        ensures count { length result.now ≡ (reach self.now).variables }
    {
        self.scope.variables.of(&self.variables)
    }

    // The registers of the innermost body.
    pub(crate) fn registers(&self) -> &[Option<Address>]
        requires { HasRoom self.now }
        ensures values { result.now ≡ held_at self.now.scope.registers self.now.registers }
        ensures count { length result.now ≡ (reach self.now).registers }
    {
        self.scope.registers.of(&self.registers)
    }

    // The value of an expression that has one.
    pub(crate) fn value_of(&self, e: &Expr) -> u32
        requires room { HasRoom self.now }
        requires declared { Refers (reach self.now).variables (expression_of e.now) }
        requires has_value { IsSome (value (expression_of e.now) (variables_here self.now)) }
        ensures { value (expression_of e.now) (variables_here self.now) ≡ Some result }
    {
        value_of(e, self.variables())
    }

    // Whether a condition that has a value holds.
    pub(crate) fn holds(&self, test: &[Part]) -> bool
        requires room { HasRoom self.now }
        requires declared { PartsRefer (reach self.now).variables (map part_of test.now) }
        requires has_value { IsSome (truth (map part_of test.now) (variables_here self.now) self.now.q self.now.x) }
        ensures { truth (map part_of test.now) (variables_here self.now) self.now.q self.now.x ≡ Some result }
    {
        holds(test, self.variables(), self.q, self.x)
    }

    // The address that a register holds.
    pub(crate) fn address_in(&self, register: usize) -> Address
        requires room { HasRoom self.now }
        requires declared { register < (reach self.now).registers }
        requires set { IsSome (registers_here self.now register) }
        ensures { registers_here self.now register ≡ Some result }
    {
        address_in(self.registers(), register)
    }

    // Begins a statement, and answers whether it waits for an answer: `pending` then says for what.
    #[inline(always)]
    pub(crate) fn begin(&mut self, statement: &'a Stmt, pending: &mut Option<Pending<'a>>) -> bool
        requires room { HasRoom self.old }
        requires fits { StatementFits (reach self.old) (free self.old) (statement_of statement.now) }
        requires fine { FineThen self.old (λ c s. effect c most_turns (statement_of statement.now) (stepped s)) }
        ensures advances { Advances 2 self.old (λ c s. effect c most_turns (statement_of statement.now) (stepped s)) (wanted_if result pending.new) self.new }
        ensures some { result ≡ true → IsSome pending.new }
        ensures wants { result ≡ true → IfSome pending.new (Wants self.old (λ c s. effect c most_turns (statement_of statement.now) (stepped s)) self.new) }
        ensures pace { length self.new.frames.items + 2 * self.old.steps < 2 * self.new.steps + length self.old.frames.items }
    {
        self.steps += 1;
        match statement {
            Stmt::Action(action) => match action {
                Action::Assign(assignment) => {
                    self.assign(assignment);
                    false
                }
                Action::SetRegister(setting) => {
                    self.set_register(setting);
                    false
                }
                Action::Put(action) => {
                    self.put(action);
                    false
                }
                Action::Single(action) => {
                    self.single(action, pending);
                    true
                }
                Action::CrateCall(action) => {
                    self.call_crate(action, pending);
                    true
                }
                Action::LamCall(action) => {
                    self.call_lam(action, pending);
                    true
                }
                Action::Scan(scan) => self.scan(scan, pending),
                Action::QStop { transfer } => self.q_stop(transfer, pending),
                Action::QRepeat { transfer, limit } => self.q_repeat(transfer, limit, pending),
                Action::Call(call) => {
                    self.call(call);
                    false
                }
            },
            Stmt::If { test, then, .. } => {
                self.choose(&test.parts, then, &[]);
                false
            }
            Stmt::IfElse {
                test,
                then,
                otherwise,
                ..
            } => {
                self.choose(&test.parts, then, otherwise);
                false
            }
            Stmt::Lock { crate_no, body, .. } => {
                self.want_lock(crate_no, body, pending);
                true
            }
            Stmt::For { head, body } => {
                self.begin_for(head, body);
                false
            }
            Stmt::ForEach {
                variable,
                first,
                last,
                body,
                ..
            } => {
                self.begin_from(*variable, *first, *last, body);
                false
            }
            Stmt::While { head, body } => {
                self.test_while(&head.test.parts, limits::TURNS, body);
                false
            }
        }
    }

    // Goes on until an answer is wanted, or the service is over.
    #[inline(always)]
    pub(crate) fn settle_at_once(&mut self, pending: &mut Option<Pending<'a>>)
        requires room { HasRoom self.old }
        requires quiet { self.old.unlocks.items ≡ [] }
        requires fine { (answers : List Answer) → IsFineHere self.old (stands None self.old answers) }
        ensures settles { Settles self.old (λ c. ends) pending.new self.new }
        ensures awake { is_paused_at pending.new ≡ false }
    {
        while !self.frames.is_empty() {
            if self.go_on(pending) {
                return;
            }
        }
        wait_for_none(pending);
    }

    /// Begins the service of this number, and goes on until it wants an answer, or is over: then nothing is wanted. It pauses after more than `most`
    /// steps, at most two more.
    pub fn serve(&mut self, number: usize, pending: &mut Option<Pending<'a>>, most: u32)
        requires room { HasRoom self.old }
        requires quiet { self.old.unlocks.items ≡ [] }
        requires idle { self.old.frames.items ≡ [] }
        requires fits { fits self.old.checked.now.script V DEPTH CAP ≡ true }
        requires number { number < length self.old.checked.now.script.services }
        ensures serves { (v : Service) → slice_get self.old.checked.now.script.services number ≡ Some v → Serves self.old number v pending.new self.new }
        ensures pauses { PausesAfter 0 most pending.new self.new }
        ensures soon { self.new.steps ≤ most + 2 }
    {
        let checked = self.checked;
        checked.is_checked();
        checked.script().well_formed();
        let script = checked.script();
        let service = &script.services()[number];
        self.service = number;
        self.scope = Scope::of_service(script, service);
        wipe(self.scope.variables, &mut self.variables, 0);
        wipe(self.scope.registers, &mut self.registers, None);
        self.q = false;
        self.x = false;
        self.words.clear();
        self.steps = 0;
        self.cost = 0;
        self.missed = 0;
        self.frames.push(Frame {
            rest: service.body.as_slice(),
            owner: Owner::Plain,
        });
        self.settle(pending, most);
    }

    /// The event of a service that is over, under this number: with its bit of the graded-L pattern and its usage.
    pub fn event(&self, number: u32) -> (u32, GlBit, Usage)
        requires { self.now.service < length self.now.checked.now.script.services }
        ensures { result ≡ event_here self.now number }
    {
        let usage = Usage {
            cycles: self.cost,
            missed: self.missed,
        };
        (number, self.checked.gl(self.service), usage)
    }
}
