// Blocks: how one is opened, what goes on after it, and calls of procedures.

ghost use Rattle.std.specs.Prelude.{◌≡◌, ℕ, suc, ◌+◌, ◌-◌, ◌<◌, ◌≤◌, length, ◌∷◌, ◌++◌, [], List, map, true, None, IsSome, IfSome, IfNone, IsSomeAnd};
ghost use Rattle.camac_branch.specs.Branch.{Answer};
ghost use Rattle.camac_lang.specs.View.{call_of, expression_of, for_of, part_of, statements_of};
ghost use Rattle.camac_lang.specs.Tree.{done, choose_else, locked, on_line};
ghost use Rattle.camac_model.specs.Fine.{most_turns};
ghost use Rattle.camac_model.specs.Meaning.{effect, block_meaning, for_from, for_turns, turns as while_turns};
ghost use Rattle.camac_model.specs.Value.{value};
ghost use Rattle.camac_machine.specs.MachineState.{context_in, reach, state_of, owner_in, opens_in, holds, free, FineThen, HasRoomFor, HasRoom, IsFineHere, stands, TakesFirst, StandsIn, TurnsAgain, ReturnsTo, LastIsOver, wanted_if, GoesOn, Advances, Enters, Awaits};
ghost use Rattle.camac_machine.specs.Rest.{releases, owed};
ghost use Rattle.camac_machine.specs.Within.{Refers, PartsRefer, Opens, OwnerFits, StatementFits, outer};

use crate::arguments::{pass, wipe};
use crate::condition::holds;
use crate::machine::{Frame, Machine, Owner, Pending};
use crate::scope::Scope;
use camac_branch::{Answer, unlock};
use camac_lang::{Expr, ForHead, Part, ProcedureCall, Stmt, limits};
use camac_word::CrateNo;

impl<'a, const V: usize, const DEPTH: usize, const CAP: usize> Machine<'a, V, DEPTH, CAP> {
    // The block of an `if` that is to be done.
    pub(crate) fn chosen(
        &self,
        test: &[Part],
        then: &'a [Stmt],
        otherwise: &'a [Stmt],
    ) -> &'a [Stmt]
        requires room { HasRoom self.now }
        requires declared { PartsRefer (reach self.now).variables (map part_of test.now) }
        requires then { Opens (reach self.now) (free self.now) (statements_of then.now) }
        requires otherwise { Opens (reach self.now) (free self.now) (statements_of otherwise.now) }
        requires fine { FineThen self.now (λ c. effect c most_turns (choose_else (on_line 0) (map part_of test.now) (statements_of then.now) (statements_of otherwise.now))) }
        ensures opens { Opens (reach self.now) (free self.now) (statements_of result.now) }
        ensures goes { (answers : List Answer) → block_meaning (context_in self.now.checked.now) most_turns (statements_of result.now) (state_of self.now answers) ≡ effect (context_in self.now.checked.now) most_turns (choose_else (on_line 0) (map part_of test.now) (statements_of then.now) (statements_of otherwise.now)) (state_of self.now answers) }
    {
        if self.holds(test) { then } else { otherwise }
    }

    // Opens a block inside the open ones, after which nothing is released and no caller goes on.
    pub(crate) fn open(&mut self, body: &'a [Stmt], owner: Owner<'a>)
        requires room { HasRoom self.old }
        requires body { Opens (reach self.old) (free self.old) (statements_of body.now) }
        requires owner { OwnerFits V self.old.checked.now.script self.old.scope (free self.old) (owner_in self.old owner) }
        requires stays { outer self.old.scope (owner_in self.old owner) ≡ self.old.scope }
        requires holds_none { (c : ℕ) → holds c (owner_in self.old owner) ≡ 0 }
        ensures room { HasRoom self.new }
        ensures frames { self.new.frames.items ≡ self.old.frames.items ++ record { rest = body.entry; owner = owner.entry } ∷ [] }
        ensures same { self.new ≡ record self.old { frames = self.new.frames } }
    {
        self.frames.push(Frame { rest: body, owner });
    }

    // `if`: opens the block that is to be done.
    pub(crate) fn choose(&mut self, test: &[Part], then: &'a [Stmt], otherwise: &'a [Stmt])
        requires room { HasRoom self.old }
        requires declared { PartsRefer (reach self.old).variables (map part_of test.now) }
        requires then { Opens (reach self.old) (free self.old) (statements_of then.now) }
        requires otherwise { Opens (reach self.old) (free self.old) (statements_of otherwise.now) }
        requires fine { FineThen self.old (λ c. effect c most_turns (choose_else (on_line 0) (map part_of test.now) (statements_of then.now) (statements_of otherwise.now))) }
        ensures { Enters self.old (λ c. effect c most_turns (choose_else (on_line 0) (map part_of test.now) (statements_of then.now) (statements_of otherwise.now))) self.new }
    {
        let body = self.chosen(test, then, otherwise);
        self.open(body, Owner::Plain);
    }

    // Begins a turn of a `for`.
    pub(crate) fn turn(
        &mut self,
        variable: usize,
        value: u32,
        last: u32,
        turns: u32,
        body: &'a [Stmt],
    )
        requires room { HasRoom self.old }
        requires variable { variable < (reach self.old).variables }
        requires body { Opens (reach self.old) (free self.old) (statements_of body.now) }
        requires fine { FineThen self.old (λ c. for_turns (suc (last - value)) turns variable value last (block_meaning c most_turns (statements_of body.now))) }
        ensures { Advances 1 self.old (λ c. for_turns (suc (last - value)) turns variable value last (block_meaning c most_turns (statements_of body.now))) None self.new }
    {
        self.set_variable(variable, value);
        self.steps += 1;
        self.open(
            body,
            Owner::For {
                variable,
                current: value,
                last,
                turns: turns - 1,
                body,
            },
        );
    }

    // `for`.
    #[inline(never)]
    pub(crate) fn begin_for(&mut self, head: &ForHead, body: &'a [Stmt])
        requires room { HasRoom self.old }
        requires fits { StatementFits (reach self.old) (free self.old) (for_of head.now (statements_of body.now)) }
        requires fine { FineThen self.old (λ c. effect c most_turns (for_of head.now (statements_of body.now))) }
        ensures { Advances 1 self.old (λ c. effect c most_turns (for_of head.now (statements_of body.now))) None self.new }
    {
        let first = self.value_of(&head.from);
        let last = self.value_of(&head.to);
        self.begin_from(head.variable, first, last, body);
    }

    // A `for` between two numbers.
    #[inline(never)]
    pub(crate) fn begin_from(&mut self, variable: usize, first: u32, last: u32, body: &'a [Stmt])
        requires room { HasRoom self.old }
        requires variable { variable < (reach self.old).variables }
        requires body { Opens (reach self.old) (free self.old) (statements_of body.now) }
        requires fine { FineThen self.old (λ c. for_from (last + 1 - first) most_turns variable first last (block_meaning c most_turns (statements_of body.now))) }
        ensures { Advances 1 self.old (λ c. for_from (last + 1 - first) most_turns variable first last (block_meaning c most_turns (statements_of body.now))) None self.new }
    {
        if first <= last {
            self.turn(variable, first, last, limits::TURNS, body);
        }
    }

    // Tests a `while`, and begins a turn where it holds.
    #[inline(never)]
    pub(crate) fn test_while(&mut self, test: &'a [Part], turns: u32, body: &'a [Stmt])
        requires room { HasRoom self.old }
        requires declared { PartsRefer (reach self.old).variables (map part_of test.now) }
        requires body { Opens (reach self.old) (free self.old) (statements_of body.now) }
        requires fine { FineThen self.old (λ c. while_turns turns (map part_of test.now) (block_meaning c most_turns (statements_of body.now))) }
        ensures { Advances 1 self.old (λ c. while_turns turns (map part_of test.now) (block_meaning c most_turns (statements_of body.now))) None self.new }
    {
        if self.holds(test) {
            self.steps += 1;
            self.open(
                body,
                Owner::While {
                    test,
                    turns: turns - 1,
                    body,
                },
            );
        }
    }

    // `lock`.
    pub(crate) fn want_lock(
        &self,
        crate_no: &Expr,
        body: &'a [Stmt],
        pending: &mut Option<Pending<'a>>,
    )
        requires room { HasRoom self.now }
        requires declared { Refers (reach self.now).variables (expression_of crate_no.now) }
        requires body { Opens (reach self.now) (free self.now) (statements_of body.now) }
        requires fine { FineThen self.now (λ c. effect c most_turns (locked (on_line 0) (expression_of crate_no.now) (statements_of body.now))) }
        ensures { IsSomeAnd pending.new (Awaits self.now (λ c. effect c most_turns (locked (on_line 0) (expression_of crate_no.now) (statements_of body.now)))) }
    {
        let plan = self.checked.plan();
        plan.is_plan();
        match CrateNo::new(self.value_of(crate_no)) {
            Some(crate_no) => *pending = Some(Pending::Lock { crate_no, body }),
            None => unreachable!(),
        }
    }

    // `call`: evaluates the arguments in the caller's store, and opens the body with no register set.
    #[inline(always)]
    pub(crate) fn call(&mut self, call: &ProcedureCall)
        requires room { HasRoom self.old }
        requires fits { StatementFits (reach self.old) (free self.old) (call_of call.now) }
        requires fine { FineThen self.old (λ c. effect c most_turns (call_of call.now)) }
        ensures { Enters self.old (λ c. effect c most_turns (call_of call.now)) self.new }
    {
        let script = self.checked.script();
        script.well_formed();
        let callee = &script.procedures()[call.procedure];
        let caller = self.scope;
        self.frames.push(Frame {
            rest: callee.body.as_slice(),
            owner: Owner::Return(caller),
        });
        let scope = caller.of_procedure(call.procedure, callee);
        self.scope = scope;
        wipe(scope.registers, &mut self.registers, None);
        pass(
            &call.arguments,
            caller.variables,
            scope.variables.start,
            &mut self.variables,
        );
    }

    // Releases the lock of a crate.
    pub(crate) fn release(&mut self, crate_no: u32)
        requires room { HasRoomFor self.old (opens_in self.old ++ record { block = done; owner = releases crate_no } ∷ []) }
        requires fine { FineThen self.old (λ c. owed c (releases crate_no)) }
        ensures { Advances 1 self.old (λ c. owed c (releases crate_no)) None self.new }
    {
        match CrateNo::new(crate_no) {
            Some(crate_no) => {
                unlock(&mut self.branch, crate_no);
                self.steps += 1;
                self.unlocks.push(crate_no);
            }
            None => unreachable!(),
        }
    }

    // Goes on after a block that is over.
    #[inline(always)]
    pub(crate) fn leave(&mut self, owner: &Owner<'a>)
        requires room { HasRoomFor self.old (opens_in self.old ++ record { block = done; owner = owner_in self.old owner.now } ∷ []) }
        requires fine { FineThen self.old (λ c. owed c (owner_in self.old owner.now)) }
        ensures { Advances 1 self.old (λ c. owed c (owner_in self.old owner.now)) None self.new }
    {
        match owner {
            Owner::Plain => {}
            Owner::Locked(crate_no) => {
                self.release(*crate_no);
            }
            Owner::For {
                variable,
                current,
                last,
                turns,
                body,
            } => {
                if *current < *last {
                    self.turn(*variable, *current + 1, *last, *turns, body);
                } else {
                    self.set_variable(*variable, *last);
                }
            }
            Owner::While { test, turns, body } => self.test_while(test, *turns, body),
            Owner::Return(caller) => self.scope = *caller,
        }
    }

    // Begins the next statement of the innermost block, or goes on after that block. Answers whether an answer is wanted: `pending` then
    // says for what.
    #[inline(always)]
    pub(crate) fn go_on(&mut self, pending: &mut Option<Pending<'a>>) -> bool
        requires room { HasRoom self.old }
        requires open { 1 ≤ length self.old.frames.items }
        requires fine { (answers : List Answer) → IsFineHere self.old (stands None self.old answers) }
        ensures goes { GoesOn self.old (wanted_if result pending.new) self.new }
        ensures some { result ≡ true → IsSome pending.new }
        ensures begun { result ≡ true → IfSome pending.new (StandsIn self.new) }
    {
        match next_statement(self.frames.as_mut_slice()) {
            Some(first) => {
                let waits = self.begin(first, pending);
                if waits {
                    self.begun = Some(first);
                }
                waits
            }
            None => {
                self.close();
                false
            }
        }
    }

    // Goes on after the innermost block, which is over: with the next turn of its `for`, which stays in its place, or without the block.
    fn close(&mut self)
        requires room { HasRoom self.old }
        requires open { 1 ≤ length self.old.frames.items }
        requires over { LastIsOver self.old.frames.items }
        requires fine { (answers : List Answer) → IsFineHere self.old (stands None self.old answers) }
        ensures { GoesOn self.old None self.new }
    {
        match next_turn(self.frames.as_mut_slice()) {
            Some((variable, value)) => {
                self.set_variable(variable, value);
                self.steps += 1;
            }
            None => self.end_block(),
        }
    }

    // Goes on after the innermost block, which is over, without it. Of the body of a procedure no more is read than what its caller sees.
    #[inline(always)]
    fn end_block(&mut self)
        requires room { HasRoom self.old }
        requires open { 1 ≤ length self.old.frames.items }
        requires over { LastIsOver self.old.frames.items }
        requires fine { (answers : List Answer) → IsFineHere self.old (stands None self.old answers) }
        ensures { GoesOn self.old None self.new }
    {
        match caller_of(self.frames.as_slice()) {
            Some(caller) => {
                self.scope = *caller;
                self.frames.pop();
            }
            None => self.pop_block(),
        }
    }

    // The same after any block. It is no part of its callers: a call at each end of a block costs less than the frame that would be moved through
    // memory there.
    #[inline(never)]
    fn pop_block(&mut self)
        requires room { HasRoom self.old }
        requires open { 1 ≤ length self.old.frames.items }
        requires over { LastIsOver self.old.frames.items }
        requires fine { (answers : List Answer) → IsFineHere self.old (stands None self.old answers) }
        ensures { GoesOn self.old None self.new }
    {
        match self.frames.pop() {
            Some(frame) => self.leave(&frame.owner),
            None => unreachable!(),
        }
    }
}

// Takes the first statement off the innermost block, unless that block is over or none is open.
fn next_statement<'a>(frames: &mut [Frame<'a>]) -> Option<&'a Stmt>
    ensures begun { IfSome result (λ first. TakesFirst frames.old first.now frames.new) }
    ensures over { IfNone result (LastIsOver frames.old × (frames.new ≡ frames.old)) }
{
    let count = frames.len();
    if count == 0 {
        return None;
    }
    let last = &mut frames[count - 1];
    match last.rest {
        [] => None,
        [first, rest @ ..] => {
            last.rest = rest;
            Some(first)
        }
    }
}

// What the caller of a procedure sees, where the innermost block is the body of one.
#[tactic(auto, using(crate::proofs::Lists::caller_last))]
fn caller_of<'b>(frames: &'b [Frame<'_>]) -> Option<&'b Scope>
    ensures { IfSome result (λ caller. ReturnsTo frames.now caller.now) }
{
    let count = frames.len();
    if count == 0 {
        return None;
    }
    match &frames[count - 1].owner {
        Owner::Return(caller) => Some(caller),
        _ => None,
    }
}

// Begins the next turn of the `for` whose body the innermost block is, where that has one: returns its variable and the value for it.
fn next_turn(frames: &mut [Frame]) -> Option<(usize, u32)>
    ensures turn { IfSome result (λ t. TurnsAgain frames.old t.0 t.1 frames.new) }
    ensures none { IfNone result (frames.new ≡ frames.old) }
{
    let count = frames.len();
    if count == 0 {
        return None;
    }
    let frame = &mut frames[count - 1];
    match frame.owner {
        Owner::For {
            variable,
            current,
            last,
            turns,
            body,
        } => {
            if current < last {
                let owner = Owner::For {
                    variable,
                    current: current + 1,
                    last,
                    turns: turns.saturating_sub(1),
                    body,
                };
                *frame = Frame { rest: body, owner };
                Some((variable, current + 1))
            } else {
                None
            }
        }
        _ => None,
    }
}
