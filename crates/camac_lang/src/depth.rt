// How many brackets and braces are open at once.

ghost use Rattle.std.specs.Prelude.{◌≡◌, ◌≤◌, suc, [], length, map, slice_get};
ghost use Rattle.camac_lang.specs.Depth.{expression_depth, test_depth, part_depth, move_depth, depth_of, statement_depth, inner_depth, callable, callables_after, script_depth};
ghost use Rattle.camac_lang.specs.Tests.{most};
ghost use Rattle.camac_lang.specs.View.{expression_of, term_of, test_of, part_of, move_of, action_of, statement_of, statements_of, procedure_of, service_of, callable_of};

use crate::expression::{Expr, Form, Term};
use crate::limits::PROCEDURES;
use crate::script::{Procedure, Script, Service};
use crate::tree::{Action, Move, Part, Stmt, Test};
use arrayvec::ArrayVec;

/// A procedure as its callers see it: how many arguments a call gives, and how many brackets and braces are open at most from its own
/// brace on, calls counted.
#[derive(Clone, Copy, Debug, Default, PartialEq, Eq)]
pub struct Callable {
    pub parameters: usize,
    pub depth: u32,
}

impl Callable {
    /// A procedure as its callers see it, where these can be called in its body.
    pub fn new(procedure: &Procedure, callables: &[Callable]) -> Callable
        requires { suc (inner_depth (map callable_of callables.now) (procedure_of procedure.now).body) ≤ 16 }
        ensures { callable_of result ≡ callable (map callable_of callables.now) (procedure_of procedure.now) }
    {
        Callable {
            parameters: procedure.parameters.len(),
            depth: 1 + block_depth(callables, &procedure.body),
        }
    }
}

/// The depth of a script, calls counted.
pub fn script_depth(script: &Script) -> u32
    ensures { result ≡ script_depth script.now }
{
    script.well_formed();
    let callables = callables_of(script.procedures());
    let procedures = deepest(&callables);
    let services = services_depth(&callables, script.services());
    procedures.max(services)
}

// What can be called after these procedures.
fn callables_of(procedures: &[Procedure]) -> ArrayVec<Callable, PROCEDURES>
    requires room { length procedures.now ≤ 16 }
    requires shallow { most (λ q. q.depth) (callables_after [] (map procedure_of procedures.now)) ≤ 16 }
    ensures { map callable_of result.items ≡ callables_after [] (map procedure_of procedures.now) }
{
    let mut callables = ArrayVec::new();
    'procedures: for procedure in procedures {
        let callable = Callable::new(procedure, &callables);
        callables.push(callable);
    }
    callables
}

fn deepest(callables: &[Callable]) -> u32
    ensures { result ≡ most (λ q. q.depth) (map callable_of callables.now) }
{
    match callables {
        [] => 0,
        [callable, rest @ ..] => callable.depth.max(deepest(rest)),
    }
}

fn services_depth(callables: &[Callable], services: &[Service]) -> u32
    requires { most (λ v. suc (inner_depth (map callable_of callables.now) v.body)) (map service_of services.now) ≤ 16 }
    ensures { result ≡ most (λ v. suc (inner_depth (map callable_of callables.now) v.body)) (map service_of services.now) }
{
    match services {
        [] => 0,
        [service, rest @ ..] => {
            let depth = 1 + block_depth(callables, &service.body);
            depth.max(services_depth(callables, rest))
        }
    }
}

// Of a block inside its braces, where these can be called.
#[cycle(depth)]
fn block_depth(callables: &[Callable], block: &[Stmt]) -> u32
    requires { inner_depth (map callable_of callables.now) (statements_of block.now) ≤ 16 }
    ensures { result ≡ inner_depth (map callable_of callables.now) (statements_of block.now) }
{
    let mut deepest = 0;
    'statements: for statement in block {
        deepest = statement_depth(callables, statement).max(deepest);
    }
    deepest
}

#[cycle(depth)]
fn statement_depth(callables: &[Callable], statement: &Stmt) -> u32
    requires { statement_depth (map callable_of callables.now) (statement_of statement.now) ≤ 16 }
    ensures { result ≡ statement_depth (map callable_of callables.now) (statement_of statement.now) }
{
    match statement {
        Stmt::Action(action) => action_depth(callables, action),
        Stmt::If { test, then, .. } => parts_depth(&test.parts).max(
            1 + block_depth(callables, then),
        ),
        Stmt::IfElse {
            test,
            then,
            otherwise,
            ..
        } => parts_depth(&test.parts).max(
            (1 + block_depth(callables, then)).max(1 + block_depth(callables, otherwise)),
        ),
        Stmt::For { head, body } => expression_depth(&head.from).max(expression_depth(&head.to).max(
            1 + block_depth(callables, body),
        )),
        Stmt::ForEach { body, .. } => 1 + block_depth(callables, body),
        Stmt::While { head, body } => {
            parts_depth(&head.test.parts).max(1 + block_depth(callables, body))
        }
        Stmt::Lock { crate_no, body, .. } => {
            expression_depth(crate_no).max(1 + block_depth(callables, body))
        }
    }
}

fn action_depth(callables: &[Callable], action: &Action) -> u32
    requires { statement_depth (map callable_of callables.now) (action_of action.now) ≤ 16 }
    ensures { result ≡ statement_depth (map callable_of callables.now) (action_of action.now) }
{
    match action {
        Action::LamCall(_) => 0,
        Action::Assign(assignment) => expression_depth(&assignment.value),
        Action::Put(put) => expression_depth(&put.value),
        Action::SetRegister(setting) => expression_depth(&setting.crate_no).max(expression_depth(
            &setting.station,
        ).max(expression_depth(&setting.sub_address))),
        Action::Single(single) => move_depth(&single.data),
        Action::Scan(scan) => expression_depth(&scan.max),
        Action::QStop { transfer } => expression_depth(&transfer.max),
        Action::QRepeat { transfer, limit } => {
            expression_depth(&transfer.max).max(expression_depth(limit))
        }
        Action::CrateCall(action) => expression_depth(&action.crate_no),
        Action::Call(call) => (1 + arguments_depth(&call.arguments)).max(called_depth(
            callables,
            call.procedure,
        )),
    }
}

// Of the procedure with this number.
#[tactic(auto, using(crate::proofs::Depths::callable_found))]
fn called_depth(callables: &[Callable], procedure: usize) -> u32
    ensures { result ≡ depth_of (slice_get (map callable_of callables.now) procedure) }
{
    match callables.get(procedure) {
        Some(callable) => callable.depth,
        None => 0,
    }
}

fn parts_depth(parts: &[Part]) -> u32
    requires { most part_depth (map part_of parts.now) ≤ 16 }
    ensures { result ≡ most part_depth (map part_of parts.now) }
{
    match parts {
        [] => 0,
        [part, rest @ ..] => part_depth(part).max(parts_depth(rest)),
    }
}

fn part_depth(part: &Part) -> u32
    requires { part_depth (part_of part.now) ≤ 16 }
    ensures { result ≡ part_depth (part_of part.now) }
{
    match part {
        Part::Plain(test) | Part::Not(test) => test_depth(test),
    }
}

fn test_depth(test: &Test) -> u32
    requires { test_depth (test_of test.now) ≤ 16 }
    ensures { result ≡ test_depth (test_of test.now) }
{
    match test {
        Test::Q | Test::X => 0,
        Test::Compare(a, _, b) => expression_depth(a).max(expression_depth(b)),
    }
}

fn move_depth(moved: &Move) -> u32
    requires { move_depth (move_of moved.now) ≤ 16 }
    ensures { result ≡ move_depth (move_of moved.now) }
{
    match moved {
        Move::NoData | Move::Into(_) => 0,
        Move::From(value) => expression_depth(value),
    }
}

fn arguments_depth(arguments: &[Expr]) -> u32
    requires { most expression_depth (map expression_of arguments.now) ≤ 16 }
    ensures { result ≡ most expression_depth (map expression_of arguments.now) }
{
    match arguments {
        [] => 0,
        [argument, rest @ ..] => expression_depth(argument).max(arguments_depth(rest)),
    }
}

fn expression_depth(e: &Expr) -> u32
    requires { expression_depth (expression_of e.now) ≤ 16 }
    ensures { result ≡ expression_depth (expression_of e.now) }
{
    term_depth(e.term())
}

fn term_depth(e: Term<'_>) -> u32
    requires { expression_depth (term_of e) ≤ 16 }
    ensures { result ≡ expression_depth (term_of e.entry) }
{
    match e.form() {
        Form::Number(_) | Form::Variable(_) => 0,
        Form::Group(e) => 1 + term_depth(e),
        Form::Add(a, b) | Form::Subtract(a, b) | Form::Multiply(a, b) => {
            term_depth(a).max(term_depth(b))
        }
        Form::Divide(e, _) | Form::Remainder(e, _) => term_depth(e),
    }
}
