// What a statement surely does, and whether a condition surely holds, by what is known of variables and registers.

ghost use Rattle.std.specs.Prelude.{◌≡◌, ℕ, List, [], Option, None, IfSome, true, map, set, slice_index_or};
ghost use Rattle.camac_branch.specs.Address.{Address as At};
ghost use Rattle.camac_esone.specs.Calls.{command_at};
ghost use Rattle.camac_lang.specs.View.{action_of, call_of, crate_action_of, expression_of, for_of, lam_action_of, part_of, single_of, statement_of, statements_of, term_of, test_of};
ghost use Rattle.camac_model.specs.Fine.{most_turns};
ghost use Rattle.camac_model.specs.Meaning.{Context, block_meaning, effect, fits_size};
ghost use Rattle.camac_model.specs.State.{stepped};
ghost use Rattle.camac_model.specs.Value.{part_value, test_value, truth};
ghost use Rattle.camac_range.specs.Compare.{compared};
ghost use Rattle.camac_run.specs.Foreseen.{known_address, known_after, known_behind, known_command, known_crate, known_cycle, known_part, known_test, known_truth, known_value, known_word};
ghost use Rattle.camac_run.specs.Sure.{Goes, HasTruth, HasValue, IsSure, KnowsLess, MakesCycle, context_before, context_of, sure_of, transfer_of};
ghost use Rattle.camac_run.specs.declared.ahead.Known.{Known};
ghost use Rattle.camac_run.specs.declared.sure.Sure.TheVariants.{Makes, NeedsNone};

use crate::ahead::{Inside, Known};
use crate::blocks::{q_repeat_block, q_stop_block, scan_block};
use crate::list::Coming;
use crate::transfer::ReadBlock;
use camac_branch::Command;
use camac_esone::{Address, crate_call, lam_function};
use camac_func::DataMove;
use camac_lang::{
    Action, CrateAction, Expr, ForHead, Form, LamAction, Move, Part, ProcedureCall,
    RegisterSetting, SingleAction, Stmt, Term, Test, WordSize,
};
use camac_range::Cmp;
use camac_rules::Checked;
use camac_word::{CrateNo, Function, Station, SubAddress, Word24};

/// What an action surely does.
pub enum Sure {
    /// It makes this cycle.
    Makes(Command),
    /// It makes the cycles of this block.
    Transfers(ReadBlock),
    /// It needs no answer.
    NeedsNone,
    /// That is not known.
    Unknown,
}

// What an action surely does. What is known is that before it, and then that after it.
pub fn known_of(
    checked: &Checked,
    action: &Action,
    variables: &mut [Option<u32>],
    registers: &mut [Option<Address>],
) -> Sure
    ensures sure { (i : ℕ) → IsSure (context_before checked.now i) variables.old registers.old (action_of action.now) result variables.new registers.new }
    ensures cycles { (i : ℕ) → IfSome (known_cycle (context_before checked.now i).lams variables.old registers.old (action_of action.now)) (λ k. (result ≡ Makes k) × (variables.new ≡ known_after variables.old (action_of action.now))) }
    ensures others { IfSome (known_behind variables.old registers.old (action_of action.now)) (λ after. (result ≡ NeedsNone) × (variables.new ≡ after.0) × (registers.new ≡ after.1)) }
{
    match action {
        Action::Put(_) => Sure::NeedsNone,
        Action::Assign(assignment) => {
            let value = value_of(&assignment.value, variables);
            note(variables, assignment.variable, value);
            Sure::NeedsNone
        }
        Action::SetRegister(setting) => {
            let at = address_of(setting, variables);
            note(registers, setting.register, at);
            Sure::NeedsNone
        }
        Action::Single(action) => made(single(action, variables, registers)),
        Action::CrateCall(action) => made(call_of_crate(action, variables)),
        Action::LamCall(action) => made(call_of_lam(checked, action)),
        Action::Scan(scan) => transfers(scan_block(scan, variables, registers)),
        Action::QStop { transfer } => transfers(q_stop_block(transfer, variables, registers)),
        Action::QRepeat { transfer, limit } => {
            transfers(q_repeat_block(transfer, limit, variables, registers))
        }
        _ => Sure::Unknown,
    }
}

// The cycle of a statement, if it is known.
fn made(cycle: Option<Command>) -> Sure
    ensures { result ≡ sure_of cycle }
{
    match cycle {
        Some(command) => Sure::Makes(command),
        None => Sure::Unknown,
    }
}

// The block of a statement, if it is known.
fn transfers(block: Option<ReadBlock>) -> Sure
    ensures { result ≡ transfer_of block }
{
    match block {
        Some(block) => Sure::Transfers(block),
        None => Sure::Unknown,
    }
}

// The value of an expression, if it is known.
pub fn value_of(e: &Expr, known: &[Option<u32>]) -> Option<u32>
    ensures sure { IfSome result (HasValue known.now (expression_of e.now)) }
    ensures exact { result ≡ known_value known.now (expression_of e.now) }
{
    value_in(e.term(), known)
}

// The same of one that stands in it.
fn value_in(e: Term<'_>, known: &[Option<u32>]) -> Option<u32>
    ensures { result ≡ known_value known.now (term_of e.entry) }
{
    match e.form() {
        Form::Number(n) => Some(n),
        Form::Variable(x) => at_place(known, x),
        Form::Group(e) => value_in(e, known),
        Form::Add(a, b) => value_in(a, known)?.checked_add(value_in(b, known)?),
        Form::Subtract(a, b) => value_in(a, known)?.checked_sub(value_in(b, known)?),
        Form::Multiply(a, b) => value_in(a, known)?.checked_mul(value_in(b, known)?),
        Form::Divide(e, divisor) => Some(value_in(e, known)? / divisor.get()),
        Form::Remainder(e, divisor) => Some(value_in(e, known)? % divisor.get()),
    }
}

// Whether all parts of a condition hold, if that is known of each up to the first that does not.
pub fn truth_of(parts: &[Part], known: &[Option<u32>]) -> Option<bool>
    ensures sure { IfSome result (HasTruth known.now (truth (map part_of parts.now))) }
    ensures exact { result ≡ known_truth known.now (map part_of parts.now) }
{
    match parts {
        [] => Some(true),
        [part, rest @ ..] => {
            if part_truth(part, known)? {
                truth_of(rest, known)
            } else {
                Some(false)
            }
        }
    }
}

// The same of one part.
fn part_truth(part: &Part, known: &[Option<u32>]) -> Option<bool>
    ensures sure { IfSome result (HasTruth known.now (part_value (part_of part.now))) }
    ensures exact { result ≡ known_part known.now (part_of part.now) }
{
    match part {
        Part::Plain(test) => test_truth(test, known),
        Part::Not(test) => Some(!test_truth(test, known)?),
    }
}

// A comparison of known numbers; what the last cycle's flags are is not known.
fn test_truth(test: &Test, known: &[Option<u32>]) -> Option<bool>
    ensures sure { IfSome result (HasTruth known.now (test_value (test_of test.now))) }
    ensures exact { result ≡ known_test known.now (test_of test.now) }
{
    match test {
        Test::Q | Test::X => None,
        Test::Compare(a, comparison, b) => {
            let a = value_of(a, known)?;
            Some(compared(*comparison, a, value_of(b, known)?))
        }
    }
}

// Whether a comparison holds of two numbers.
fn compared(comparison: Cmp, a: u32, b: u32) -> bool
    ensures { result ≡ compared comparison a b }
{
    match comparison {
        Cmp::Less => a < b,
        Cmp::AtMost => a <= b,
        Cmp::More => a > b,
        Cmp::AtLeast => a >= b,
        Cmp::Same => a == b,
        Cmp::Differs => a != b,
    }
}

// A crate, if it is known.
pub fn crate_of(e: &Expr, known: &[Option<u32>]) -> Option<CrateNo>
    ensures sure { IfSome result (HasValue known.now (expression_of e.now)) }
    ensures exact { result ≡ known_crate known.now (expression_of e.now) }
{
    CrateNo::new(value_of(e, known)?)
}

// What is known at a place.
pub fn at_place<T: Copy>(known: &[Option<T>], place: usize) -> Option<T>
    ensures { result ≡ slice_index_or known.now place None }
{
    if place < known.len() {
        known[place]
    } else {
        None
    }
}

// An address, if it is known.
fn address_of(setting: &RegisterSetting, known: &[Option<u32>]) -> Option<Address>
    ensures sure { IfSome result (λ at. HasValue known.now (expression_of setting.now.crate_no) at.crate_no × HasValue known.now (expression_of setting.now.station) at.station × HasValue known.now (expression_of setting.now.sub_address) at.sub_address) }
    ensures exact { result ≡ known_address known.now (expression_of setting.now.crate_no) (expression_of setting.now.station) (expression_of setting.now.sub_address) }
{
    Some(Address {
        c: value_of(&setting.crate_no, known)?,
        n: value_of(&setting.station, known)?,
        a: value_of(&setting.sub_address, known)?,
    })
}

// `cfsa`, `cssa`. What is read is not known.
fn single(
    action: &SingleAction,
    variables: &mut [Option<u32>],
    registers: &[Option<Address>],
) -> Option<Command>
    ensures sure { IfSome result (λ k. (c : Context) → MakesCycle c variables.old registers.now (single_of action.now) k variables.new) }
    ensures exact { (lams : List At) → result ≡ known_cycle lams variables.old registers.now (single_of action.now) }
    ensures after { IfSome result (λ k. variables.new ≡ known_after variables.old (single_of action.now)) }
{
    let f = action.function;
    let at = at_place(registers, action.register)?;
    match &action.data {
        Move::NoData => command_at(at, f, DataMove::None),
        Move::Into(variable) => {
            note(variables, *variable, None);
            command_at(at, f, DataMove::In)
        }
        Move::From(value) => {
            let word = word_of(action.size, value, variables)?;
            command_at(at, f, DataMove::Out(word))
        }
    }
}

// The word of a write, if it is known.
fn word_of(size: WordSize, e: &Expr, known: &[Option<u32>]) -> Option<Word24>
    ensures sure { IfSome result (λ word. HasValue known.now (expression_of e.now) word × (fits_size size word ≡ true)) }
    ensures exact { result ≡ known_word size known.now (expression_of e.now) }
{
    let word = Word24::new(value_of(e, known)?)?;
    match size {
        WordSize::Full => Some(word),
        WordSize::Short => {
            if word.get() <= 65_535 {
                Some(word)
            } else {
                None
            }
        }
    }
}

// A call of a crate's controller.
fn call_of_crate(action: &CrateAction, known: &[Option<u32>]) -> Option<Command>
    ensures sure { IfSome result (λ k. (c : Context) (registers : List (Option At)) → MakesCycle c known.now registers (crate_action_of action.now) k known.now) }
    ensures exact { (lams : List At) (registers : List (Option At)) → result ≡ known_cycle lams known.now registers (crate_action_of action.now) }
{
    let c = crate_of(&action.crate_no, known)?;
    Some(crate_call(action.call, c))
}

// A call at a LAM's address.
fn call_of_lam(checked: &Checked, action: &LamAction) -> Option<Command>
    ensures sure { IfSome result (λ k. (known : List (Option ℕ)) (registers : List (Option At)) → (i : ℕ) → MakesCycle (context_before checked.now i) known registers (lam_action_of action.now) k known) }
    ensures exact { (known : List (Option ℕ)) (registers : List (Option At)) (i : ℕ) → result ≡ known_cycle (context_before checked.now i).lams known registers (lam_action_of action.now) }
{
    let lams = checked.script().lams();
    if action.lam < lams.len() {
        let lam = &lams[action.lam];
        let at = Address {
            c: lam.crate_no,
            n: lam.station,
            a: lam.sub_address.get(),
        };
        command_at(at, lam_function(action.call), DataMove::None)
    } else {
        None
    }
}

// The command that moves this at an address, if there is such an address.
pub fn command_at(at: Address, f: Function, mv: DataMove) -> Option<Command>
    ensures sure { IfSome result (λ k. k ≡ command_at at f mv) }
    ensures exact { result ≡ known_command f mv at }
{
    Some(Command {
        c: CrateNo::new(at.c)?,
        n: Station::new(at.n)?,
        a: SubAddress::new(at.a)?,
        f,
        mv,
    })
}

// Takes the value at a place, if there is such a place, as this one, or as not known.
pub fn note<T: Copy>(known: &mut [Option<T>], place: usize, value: Option<T>)
    ensures { known.new ≡ set known.old place value }
{
    if place < known.len() {
        known[place] = value;
    }
}

/// Forgets what a block sets. Answers whether it makes no operation, nor more steps than may be looked ahead.
#[cycle(forget)]
pub fn forget_block(
    inside: &Inside<'_>,
    block: &[Stmt],
    known: &mut Known,
    coming: &mut Coming,
) -> bool
    ensures keeps { (k : Known) → KnowsLess known.new k → Goes inside.now.checked.now.plan (block_meaning (context_of inside.now) most_turns (statements_of block.now)) k [] result k }
    ensures less { KnowsLess known.old known.new }
    ensures none { coming.new ≡ record coming.old { steps = coming.new.steps } }
{
    'statements: for statement in block {
        if !forget(inside, statement, known, coming) {
            return false;
        }
    }
    true
}

/// The same of a statement from its beginning on.
#[cycle(forget)]
pub fn forget(inside: &Inside<'_>, statement: &Stmt, known: &mut Known, coming: &mut Coming) -> bool
    ensures keeps { (k : Known) → KnowsLess known.new k → Goes inside.now.checked.now.plan (λ s. effect (context_of inside.now) most_turns (statement_of statement.now) (stepped s)) k [] result k }
    ensures less { KnowsLess known.old known.new }
    ensures none { coming.new ≡ record coming.old { steps = coming.new.steps } }
{
    if inside.depth == 0 || !coming.step(1) {
        return false;
    }
    let arm = inside.within(inside.procedures);
    match statement {
        Stmt::Action(action) => forget_action(inside, action, known, coming),
        Stmt::If { then, .. } => forget_block(&arm, then, known, coming),
        Stmt::IfElse {
            then,
            otherwise,
            ..
        } => {
            forget_block(&arm, then, known, coming) && forget_block(&arm, otherwise, known, coming)
        }
        Stmt::For { head, body } => forget_for(&arm, head, body, known, coming),
        Stmt::ForEach {
            variable,
            first,
            last,
            body,
            ..
        } => {
            note(&mut known.variables, *variable, None);
            forget_turns(&arm, last.saturating_sub(*first), body, known, coming)
        }
        Stmt::While { head, body } => {
            forget_turns(&arm, head.turns.saturating_sub(1), body, known, coming)
        }
        Stmt::Lock { .. } => false,
    }
}

// The same of an action.
#[cycle(forget)]
fn forget_action(
    inside: &Inside<'_>,
    action: &Action,
    known: &mut Known,
    coming: &mut Coming,
) -> bool
    ensures keeps { (k : Known) → KnowsLess known.new k → Goes inside.now.checked.now.plan (effect (context_of inside.now) most_turns (action_of action.now)) k [] result k }
    ensures less { KnowsLess known.old known.new }
    ensures none { coming.new ≡ record coming.old { steps = coming.new.steps } }
{
    match action {
        Action::Put(_) => true,
        Action::Assign(assignment) => {
            note(&mut known.variables, assignment.variable, None);
            true
        }
        Action::SetRegister(setting) => {
            note(&mut known.registers, setting.register, None);
            true
        }
        Action::Call(call) => forget_call(inside, call, coming),
        _ => false,
    }
}

// `call`: its caller's variables and registers are as before.
#[cycle(forget)]
fn forget_call(inside: &Inside<'_>, call: &ProcedureCall, coming: &mut Coming) -> bool
    ensures keeps { (k : Known) → Goes inside.now.checked.now.plan (effect (context_of inside.now) most_turns (call_of call.now)) k [] result k }
    ensures none { coming.new ≡ record coming.old { steps = coming.new.steps } }
{
    let procedures = inside.checked.script().procedures();
    let number = call.procedure;
    if number >= inside.procedures || number >= procedures.len() || inside.depth == 0 {
        return false;
    }
    let callee = &procedures[number];
    let mut entered = Known::nothing();
    let body = callee.body.as_slice();
    forget_block(&inside.within(number), body, &mut entered, coming)
}

// `for` between two literals, since another number may be a new one the next time.
#[cycle(forget)]
fn forget_for(
    inside: &Inside<'_>,
    head: &ForHead,
    body: &[Stmt],
    known: &mut Known,
    coming: &mut Coming,
) -> bool
    ensures keeps { (k : Known) → KnowsLess known.new k → Goes inside.now.checked.now.plan (effect (context_of inside.now) most_turns (for_of head.now (statements_of body.now))) k [] result k }
    ensures less { KnowsLess known.old known.new }
    ensures none { coming.new ≡ record coming.old { steps = coming.new.steps } }
{
    let Some(first) = value_of(&head.from, &[]) else {
        return false;
    };
    let Some(last) = value_of(&head.to, &[]) else {
        return false;
    };
    note(&mut known.variables, head.variable, None);
    forget_turns(inside, last.saturating_sub(first), body, known, coming)
}

// The body of a loop, which has so many further turns at most: their steps are made, too.
#[cycle(forget)]
fn forget_turns(
    inside: &Inside<'_>,
    further: u32,
    body: &[Stmt],
    known: &mut Known,
    coming: &mut Coming,
) -> bool
    ensures keeps { (k : Known) → KnowsLess known.new k → Goes inside.now.checked.now.plan (block_meaning (context_of inside.now) most_turns (statements_of body.now)) k [] result k }
    ensures less { KnowsLess known.old known.new }
    ensures none { coming.new ≡ record coming.old { steps = coming.new.steps } }
{
    let before = coming.steps;
    if !coming.step(1) || !forget_block(inside, body, known, coming) {
        return false;
    }
    let turn = before.saturating_sub(coming.steps);
    coming.step(further.saturating_mul(turn) as usize)
}
