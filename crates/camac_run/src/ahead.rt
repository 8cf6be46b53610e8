// The operations that surely follow the one that a service in progress waits for.

ghost use Rattle.std.specs.Prelude.{◌≡◌, ◌+◌, ◌-◌, ◌<◌, ◌≤◌, ℕ, Option, None, IfSome, IsSomeAnd, Some, true, false, map, replicate, slice_get, slice_index_or, []};
ghost use Rattle.arrayvec.specs.ArrayVec.{array_vec_len};
ghost use Rattle.camac_lang.specs.Tree.{locked};
ghost use Rattle.camac_lang.specs.View.{action_of, call_of, condition_of, expression_of, for_of, statement_of, statements_of};
ghost use Rattle.camac_lang.specs.declared.spot.Spot.{Spot};
ghost use Rattle.camac_machine.specs.MachineState.{context_in, left_in, opens_of, owner_in, pending_of};
ghost use Rattle.camac_machine.specs.Rest.{locks, owed, rest_in};
ghost use Rattle.camac_machine.specs.Store.{held_at, registers_in, variables_in};
ghost use Rattle.camac_model.specs.Behaviour.{then_do};
ghost use Rattle.camac_model.specs.Fine.{most_turns};
ghost use Rattle.camac_model.specs.Meaning.{block_meaning, effect, for_from, for_state, for_turns};
ghost use Rattle.camac_model.specs.State.{Variables, stepped};
ghost use Rattle.camac_run.specs.Ahead.{BeginsWith};
ghost use Rattle.camac_run.specs.Size.{AddsOfSize, size_of};
ghost use Rattle.camac_run.specs.Sure.{KnowsVariables, KnowsRegisters, HasValue, After, chooses, context_of, Adds, AddsFollowing, goes_on_with};

use crate::list::{Ahead, Coming, releases_first};
use crate::member::Member;
use crate::progress::Wanted;
use crate::size::size_of_action;
use crate::sure::{Sure, crate_of, forget, forget_block, known_of, note, truth_of, value_of};
use camac_esone::Address;
use camac_lang::{Action, Cond, Expr, ForHead, ProcedureCall, Stmt, limits};
use camac_machine::{Frame, Machine, Owner, Pending, Places, Scope};
use camac_rules::Checked;
use camac_word::CrateNo;

/// What is known of the variables and registers of a body.
#[derive(Drop)]
pub struct Known {
    pub variables: [Option<u32>; limits::VARIABLES],
    pub registers: [Option<Address>; limits::REGISTERS],
}

/// What a block may call, the procedures of a script before this one, and how many blocks more are looked into.
#[derive(Clone, Copy)]
pub struct Inside<'a> {
    pub checked: &'a Checked,
    pub procedures: usize,
    pub depth: u32,
}

impl Known {
    /// Nothing is known.
    pub fn nothing() -> Known
        ensures { result ≡ record { variables = replicate 64 None; registers = replicate 64 None } }
    {
        Known {
            variables: [None; limits::VARIABLES],
            registers: [None; limits::REGISTERS],
        }
    }

    // Where a service begins all variables are 0.
    fn at_begin() -> Known
        ensures { result ≡ record { variables = replicate 64 (Some 0); registers = replicate 64 None } }
    {
        Known {
            variables: [Some(0); limits::VARIABLES],
            registers: [None; limits::REGISTERS],
        }
    }

    // All is known of what a body sees.
    fn see(&mut self, scope: &Scope, variables: &[u32], registers: &[Option<Address>])
        ensures variables { KnowsVariables self.new.variables (variables_in (held_at scope.now.variables variables.now)) }
        ensures registers { KnowsRegisters self.new.registers (registers_in (held_at scope.now.registers registers.now)) }
    {
        see_variables(scope.variables, variables, &mut self.variables);
        see_registers(scope.registers, registers, &mut self.registers);
    }
}

impl<'a> Inside<'a> {
    // Sees all procedures of a script.
    fn of_all(checked: &'a Checked) -> Inside<'a>
        ensures checked { result.checked ≡ checked.entry }
        ensures context { context_of result ≡ context_in checked.entry.now }
    {
        Inside {
            checked,
            procedures: checked.script().procedures().len(),
            depth: limits::DEPTH as u32,
        }
    }

    /// Inside a block more, which sees the procedures before this one.
    pub fn within(&self, procedures: usize) -> Inside<'a>
        requires { 0 < self.now.depth }
        ensures { result ≡ record { checked = self.now.checked; procedures = procedures; depth = self.now.depth - 1 } }
    {
        Inside {
            checked: self.checked,
            procedures,
            depth: self.depth - 1,
        }
    }
}

/// Adds what surely follows the operation or the transfer that a service in progress waits for.
pub fn add_following<const V: usize, const DEPTH: usize, const CAP: usize>(
    machine: &Machine<'_, V, DEPTH, CAP>,
    pending: &Pending,
    coming: &mut Coming,
)
    ensures { AddsFollowing machine.now (pending_of pending.now) coming.old.ahead.items coming.new.ahead.items }
{
    let mut known = Known::nothing();
    known.see(&machine.scope, &machine.variables, &machine.registers);
    forget_read(pending, &mut known.variables);
    if let Pending::Lock { crate_no, body } = pending {
        add_locked(machine, *crate_no, body, &mut known, coming);
        return;
    }
    add_open(machine, machine.frames.as_slice(), &mut known, coming);
}

// Adds what surely follows the taking of a lock over a block.
fn add_locked<const V: usize, const DEPTH: usize, const CAP: usize>(
    machine: &Machine<'_, V, DEPTH, CAP>,
    c: CrateNo,
    body: &[Stmt],
    known: &mut Known,
    coming: &mut Coming,
)
    ensures { Adds machine.now.checked.now.plan (λ s. then_do (goes_on_with (context_in machine.now.checked.now) (locks c (statements_of body.now)) s) (left_in machine.now)) known.old coming.old.ahead.items false known.new coming.new.ahead.items }
{
    let inside = Inside::of_all(machine.checked);
    if !add_block(&inside, body, known, coming) {
        return;
    }
    if !coming.release(c) {
        return;
    }
    add_open(machine, machine.frames.as_slice(), known, coming);
}

/// What the service of this number, from 0, surely does first; with blocks and releases, if the list may go so far.
pub fn service_ahead(checked: &Checked, number: usize, far: bool) -> Ahead
    ensures { BeginsWith checked.now number result.items }
{
    checked.is_checked();
    checked.plan().is_plan();
    let mut coming = Coming::nothing(far);
    let services = checked.script().services();
    if number >= services.len() {
        return coming.ahead;
    }
    let service = &services[number];
    let mut known = Known::at_begin();
    let inside = Inside::of_all(checked);
    let body = service.body.as_slice();
    add_block(&inside, body, &mut known, &mut coming);
    if releases_first(coming.ahead.as_slice()) {
        return Ahead::new();
    }
    coming.ahead
}

// Forgets the variable that is set by what is waited for.
fn forget_read(pending: &Pending, variables: &mut [Option<u32>])
    ensures { (before after : Variables) → KnowsVariables variables.old before → After (pending_of pending.now) before after → KnowsVariables variables.new after }
{
    match pending {
        Pending::Cycle(_) => {}
        Pending::Read { variable, .. } => note(variables, *variable, None),
        Pending::Lock { .. } => {}
        Pending::Transfer(transfer) => note(variables, transfer.tally, None),
        Pending::Pause => {}
    }
}

// The value that lies at these places under this number.
fn seen<T: Copy>(places: Places, all: &[T], i: usize) -> Option<T>
    ensures { IfSome result (λ v. slice_get (held_at places all.now) i ≡ Some v) }
{
    if places.start > places.end || places.end > all.len() || i >= places.end - places.start {
        return None;
    }
    Some(all[places.start + i])
}

// Takes the variables at these places as known, and no others.
fn see_variables(places: Places, all: &[u32], known: &mut [Option<u32>])
    ensures { KnowsVariables known.new (variables_in (held_at places all.now)) }
{
    let count = known.len().min(places.end);
    'variables: for i in 0..count {
        known[i] = seen(places, all, i);
    }
    'others: for i in count..known.len() {
        known[i] = None;
    }
}

// The same of registers.
fn see_registers(places: Places, all: &[Option<Address>], known: &mut [Option<Address>])
    ensures { KnowsRegisters known.new (registers_in (held_at places all.now)) }
{
    let count = known.len().min(places.end);
    'registers: for i in 0..count {
        known[i] = match seen(places, all, i) {
            Some(register) => register,
            None => None,
        };
    }
    'others: for i in count..known.len() {
        known[i] = None;
    }
}

// Adds what the open blocks surely make, from the innermost on.
fn add_open<const V: usize, const DEPTH: usize, const CAP: usize>(
    machine: &Machine<'_, V, DEPTH, CAP>,
    frames: &[Frame<'_>],
    known: &mut Known,
    coming: &mut Coming,
)
    ensures { Adds machine.now.checked.now.plan (rest_in (context_in machine.now.checked.now) (opens_of machine.now.variables machine.now.registers frames.now)) known.old coming.old.ahead.items false known.new coming.new.ahead.items }
{
    if let [outer @ .., innermost] = frames {
        let inside = Inside::of_all(machine.checked);
        if !add_block(&inside, innermost.rest, known, coming) {
            return;
        }
        if !add_after(machine, &inside, &innermost.owner, known, coming) {
            return;
        }
        add_open(machine, outer, known, coming);
    }
}

// Adds what surely goes on after an open block. Answers whether that is all.
fn add_after<const V: usize, const DEPTH: usize, const CAP: usize>(
    machine: &Machine<'_, V, DEPTH, CAP>,
    inside: &Inside<'_>,
    owner: &Owner<'_>,
    known: &mut Known,
    coming: &mut Coming,
) -> bool
    ensures { Adds inside.now.checked.now.plan (owed (context_of inside.now) (owner_in machine.now owner.now)) known.old coming.old.ahead.items result known.new coming.new.ahead.items }
{
    match owner {
        Owner::Plain => true,
        Owner::Locked(c) => match CrateNo::new(*c) {
            Some(c) => coming.release(c),
            None => false,
        },
        Owner::For {
            variable,
            current,
            last,
            body,
            ..
        } => {
            if *current < *last {
                return add_turns(inside, *variable, *current + 1, *last, body, known, coming);
            }
            note(&mut known.variables, *variable, Some(*last));
            true
        }
        Owner::While { .. } => false,
        Owner::Return(caller) => {
            known.see(caller, &machine.variables, &machine.registers);
            true
        }
    }
}

// Adds what a block surely makes. Answers whether that is all of it; else it is not known how the block goes on.
#[cycle(walk)]
fn add_block(inside: &Inside<'_>, block: &[Stmt], known: &mut Known, coming: &mut Coming) -> bool
    ensures { Adds inside.now.checked.now.plan (block_meaning (context_of inside.now) most_turns (statements_of block.now)) known.old coming.old.ahead.items result known.new coming.new.ahead.items }
{
    'statements: for statement in block {
        if !add_statement(inside, statement, known, coming) {
            return false;
        }
    }
    true
}

// The same of a statement from its beginning on.
#[cycle(walk)]
fn add_statement(
    inside: &Inside<'_>,
    statement: &Stmt,
    known: &mut Known,
    coming: &mut Coming,
) -> bool
    ensures { Adds inside.now.checked.now.plan (λ s. effect (context_of inside.now) most_turns (statement_of statement.now) (stepped s)) known.old coming.old.ahead.items result known.new coming.new.ahead.items }
{
    if coming.ahead.is_full() {
        return false;
    }
    if !coming.step(1) {
        return false;
    }
    match statement {
        Stmt::For { head, body } => add_for(inside, head, body, known, coming),
        Stmt::ForEach {
            variable,
            first,
            last,
            body,
            ..
        } => add_from(inside, *variable, *first, *last, body, known, coming),
        Stmt::Lock { crate_no, body, .. } => add_lock(inside, crate_no, body, known, coming),
        Stmt::If { test, then, .. } => add_if(inside, test, then, &[], known, coming),
        Stmt::IfElse {
            test,
            then,
            otherwise,
            ..
        } => add_if(inside, test, then, otherwise, known, coming),
        Stmt::Action(action) => match action {
            Action::Call(call) => add_call(inside, call, known, coming),
            _ => add_action(inside, action, known, coming),
        },
        Stmt::While { .. } => forget(inside, statement, known, coming),
    }
}

// The same of an action.
fn add_action(inside: &Inside<'_>, action: &Action, known: &mut Known, coming: &mut Coming) -> bool
    requires { array_vec_len coming.old.ahead < 64 }
    ensures adds { Adds inside.now.checked.now.plan (effect (context_of inside.now) most_turns (action_of action.now)) known.old coming.old.ahead.items result known.new coming.new.ahead.items }
    ensures size { AddsOfSize (size_of (action_of action.now)) coming.old.ahead.items coming.new.ahead.items }
{
    match known_of(
        inside.checked,
        action,
        &mut known.variables,
        &mut known.registers,
    ) {
        Sure::Makes(command) => {
            let size = size_of_action(action);
            coming
                .ahead
                .push(Member::Makes(Wanted::Cycle(command), size));
            true
        }
        Sure::Transfers(block) => coming.transfer(block),
        Sure::NeedsNone => true,
        Sure::Unknown => false,
    }
}

// `lock`: its block between taking and releasing it.
#[cycle(walk)]
fn add_lock(
    inside: &Inside<'_>,
    crate_no: &Expr,
    body: &[Stmt],
    known: &mut Known,
    coming: &mut Coming,
) -> bool
    requires { array_vec_len coming.old.ahead < 64 }
    ensures { (spot : Spot) → Adds inside.now.checked.now.plan (effect (context_of inside.now) most_turns (locked spot (expression_of crate_no.now) (statements_of body.now))) known.old coming.old.ahead.items result known.new coming.new.ahead.items }
{
    let Some(c) = crate_of(crate_no, &known.variables) else {
        return false;
    };
    if inside.depth == 0 {
        return false;
    }
    coming.lock(c);
    if !add_block(&inside.within(inside.procedures), body, known, coming) {
        return false;
    }
    coming.release(c)
}

// `if`: the arm that is taken. If that is not known, none of both is to make an operation.
#[cycle(walk)]
fn add_if(
    inside: &Inside<'_>,
    test: &Cond,
    then: &[Stmt],
    otherwise: &[Stmt],
    known: &mut Known,
    coming: &mut Coming,
) -> bool
    ensures { Adds inside.now.checked.now.plan (chooses (condition_of test.now) (block_meaning (context_of inside.now) most_turns (statements_of then.now)) (block_meaning (context_of inside.now) most_turns (statements_of otherwise.now))) known.old coming.old.ahead.items result known.new coming.new.ahead.items }
{
    let Some(holds) = truth_of(test.parts.as_slice(), &known.variables) else {
        return forget_block(inside, then, known, coming)
            && forget_block(inside, otherwise, known, coming);
    };
    if inside.depth == 0 {
        return false;
    }
    let arm = inside.within(inside.procedures);
    if holds {
        add_block(&arm, then, known, coming)
    } else {
        add_block(&arm, otherwise, known, coming)
    }
}

// `for`.
#[cycle(walk)]
fn add_for(
    inside: &Inside<'_>,
    head: &ForHead,
    body: &[Stmt],
    known: &mut Known,
    coming: &mut Coming,
) -> bool
    ensures { Adds inside.now.checked.now.plan (effect (context_of inside.now) most_turns (for_of head.now (statements_of body.now))) known.old coming.old.ahead.items result known.new coming.new.ahead.items }
{
    let Some(first) = value_of(&head.from, &known.variables) else {
        return false;
    };
    let Some(last) = value_of(&head.to, &known.variables) else {
        return false;
    };
    add_from(inside, head.variable, first, last, body, known, coming)
}

// A `for` between two numbers.
#[cycle(walk)]
fn add_from(
    inside: &Inside<'_>,
    variable: usize,
    first: u32,
    last: u32,
    body: &[Stmt],
    known: &mut Known,
    coming: &mut Coming,
) -> bool
    ensures { Adds inside.now.checked.now.plan (for_from (last + 1 - first) most_turns variable first last (block_meaning (context_of inside.now) most_turns (statements_of body.now))) known.old coming.old.ahead.items result known.new coming.new.ahead.items }
{
    if first > last {
        return true;
    }
    add_turns(inside, variable, first, last, body, known, coming)
}

// The turns of a `for` from this one on.
#[cycle(walk)]
fn add_turns(
    inside: &Inside<'_>,
    variable: usize,
    first: u32,
    last: u32,
    body: &[Stmt],
    known: &mut Known,
    coming: &mut Coming,
) -> bool
    requires { first ≤ last }
    ensures { (n : ℕ) → Adds inside.now.checked.now.plan (for_turns (last + 1 - first) n variable first last (block_meaning (context_of inside.now) most_turns (statements_of body.now))) known.old coming.old.ahead.items result known.new coming.new.ahead.items }
{
    'turns: for value in first..last {
        if !add_turn(inside, variable, value, body, known, coming) {
            return false;
        }
    }
    if !add_turn(inside, variable, last, body, known, coming) {
        return false;
    }
    note(&mut known.variables, variable, Some(last));
    true
}

// One of them.
#[cycle(walk)]
fn add_turn(
    inside: &Inside<'_>,
    variable: usize,
    value: u32,
    body: &[Stmt],
    known: &mut Known,
    coming: &mut Coming,
) -> bool
    ensures { Adds inside.now.checked.now.plan (λ s. block_meaning (context_of inside.now) most_turns (statements_of body.now) (for_state variable value s)) known.old coming.old.ahead.items result known.new coming.new.ahead.items }
{
    if inside.depth == 0 {
        return false;
    }
    if !coming.step(1) {
        return false;
    }
    note(&mut known.variables, variable, Some(value));
    add_block(&inside.within(inside.procedures), body, known, coming)
}

// `call`: the body of a procedure, by what is known of its arguments.
#[cycle(walk)]
fn add_call(inside: &Inside<'_>, call: &ProcedureCall, known: &Known, coming: &mut Coming) -> bool
    ensures { Adds inside.now.checked.now.plan (effect (context_of inside.now) most_turns (call_of call.now)) known.now coming.old.ahead.items result known.now coming.new.ahead.items }
{
    let procedures = inside.checked.script().procedures();
    let number = call.procedure;
    if number >= inside.procedures || number >= procedures.len() || inside.depth == 0 {
        return false;
    }
    let callee = &procedures[number];
    let mut entered = Known::nothing();
    pass(
        call.arguments.as_slice(),
        &known.variables,
        &mut entered.variables,
    );
    let body = callee.body.as_slice();
    add_block(&inside.within(number), body, &mut entered, coming)
}

// Takes the arguments of a call as known, as far as they are.
fn pass(arguments: &[Expr], variables: &[Option<u32>], known: &mut [Option<u32>])
    ensures { (i v : ℕ) → slice_index_or known.new i None ≡ Some v → IsSomeAnd (slice_get (map expression_of arguments.now) i) (λ e. HasValue variables.now e v) }
{
    'arguments: for i in 0..known.len() {
        known[i] = if i < arguments.len() {
            value_of(&arguments[i], variables)
        } else {
            None
        };
    }
}
