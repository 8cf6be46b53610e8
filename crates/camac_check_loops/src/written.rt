// What a body writes, and by how much a turn lowers a measure. All is read from the text.

ghost use Rattle.std.specs.Prelude.{◌≡◌, ◌≤◌, IfSome};
ghost use Rattle.camac_lang.specs.View.{action_of, term_of, move_of, statement_of, statements_of};
ghost use Rattle.camac_rules.specs.Conditions.{sole_variable};
ghost use Rattle.camac_rules.specs.Writes.{reads_into, writes, block_writes, positive, is_variable, fall_by, fall_in, fall_of};

use camac_check_known::sole_variable;
use camac_lang::{Action, Form, Move, Stmt, Term};

/// How much a turn takes from a measure: that of the one statement of the body itself that does so, where nothing else in it writes the
/// measure.
pub fn fall_of(measure: usize, body: &[Stmt]) -> Option<u32>
    ensures value { result ≡ fall_of measure (statements_of body.now) }
    ensures positive { IfSome result (λ k. 1 ≤ k) }
{
    match body {
        [] => None,
        [statement, rest @ ..] => {
            if !writes(statement, measure) {
                return fall_of(measure, rest);
            }
            if block_writes(rest, measure) {
                return None;
            }
            fall_in(measure, statement)
        }
    }
}

// Whether a block writes a variable anywhere in it. A call writes none.
#[cycle(writes)]
fn block_writes(block: &[Stmt], variable: usize) -> bool
    ensures { result ≡ block_writes (statements_of block.now) variable }
{
    'statements: for statement in block {
        if writes(statement, variable) {
            return true;
        }
    }
    false
}

#[cycle(writes)]
fn writes(statement: &Stmt, variable: usize) -> bool
    ensures { result ≡ writes (statement_of statement.now) variable }
{
    match statement {
        Stmt::Action(action) => action_writes(action, variable),
        Stmt::If { then, .. } => block_writes(then, variable),
        Stmt::IfElse {
            then,
            otherwise,
            ..
        } => block_writes(then, variable) || block_writes(otherwise, variable),
        Stmt::For { head, body } => variable == head.variable || block_writes(body, variable),
        Stmt::ForEach {
            variable: counted,
            body,
            ..
        } => variable == *counted || block_writes(body, variable),
        Stmt::While { body, .. } | Stmt::Lock { body, .. } => block_writes(body, variable),
    }
}

fn action_writes(action: &Action, variable: usize) -> bool
    ensures { result ≡ writes (action_of action.now) variable }
{
    match action {
        Action::Assign(assignment) => variable == assignment.variable,
        Action::Single(single) => reads_into(&single.data, variable),
        Action::Scan(scan) => variable == scan.tally,
        Action::QStop { transfer } | Action::QRepeat { transfer, .. } => variable == transfer.tally,
        Action::SetRegister(_) | Action::Put(_) => false,
        Action::CrateCall(_) | Action::LamCall(_) | Action::Call(_) => false,
    }
}

fn reads_into(moved: &Move, variable: usize) -> bool
    ensures { result ≡ reads_into (move_of moved.now) variable }
{
    match moved {
        Move::Into(x) => variable == *x,
        Move::NoData | Move::From(_) => false,
    }
}

// The number that a statement takes from a measure.
fn fall_in(measure: usize, statement: &Stmt) -> Option<u32>
    ensures value { result ≡ fall_in measure (statement_of statement.now) }
    ensures positive { IfSome result (λ k. 1 ≤ k) }
{
    match statement {
        Stmt::Action(Action::Assign(assignment)) => {
            if assignment.variable == measure {
                fall_by(measure, assignment.value.term())
            } else {
                None
            }
        }
        _ => None,
    }
}

// The number that stands after the measure and a minus, brackets aside.
fn fall_by(measure: usize, value: Term<'_>) -> Option<u32>
    ensures value { result ≡ fall_by measure (term_of value.entry) }
    ensures positive { IfSome result (λ k. 1 ≤ k) }
{
    match value.form() {
        Form::Subtract(left, right) => {
            if is_variable(measure, left) {
                positive(right)
            } else {
                None
            }
        }
        Form::Group(e) => fall_by(measure, e),
        Form::Number(_) | Form::Variable(_) | Form::Add(_, _) => None,
        Form::Multiply(_, _) | Form::Divide(_, _) | Form::Remainder(_, _) => None,
    }
}

fn is_variable(measure: usize, e: Term<'_>) -> bool
    ensures { result ≡ is_variable measure (sole_variable (term_of e.entry)) }
{
    match sole_variable(e) {
        Some(variable) => variable == measure,
        None => false,
    }
}

// A literal from 1, brackets aside.
fn positive(e: Term<'_>) -> Option<u32>
    ensures value { result ≡ positive (term_of e.entry) }
    ensures positive { IfSome result (λ k. 1 ≤ k) }
{
    match e.form() {
        Form::Number(n) => { if n == 0 { None } else { Some(n) } }
        Form::Group(e) => positive(e),
        Form::Variable(_) | Form::Add(_, _) | Form::Subtract(_, _) => None,
        Form::Multiply(_, _) | Form::Divide(_, _) | Form::Remainder(_, _) => None,
    }
}
