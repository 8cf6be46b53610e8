// The rules of calls, and where the body of a procedure starts.

ghost use Rattle.std.specs.Prelude.{◌≡◌, ◌+◌, ◌<◌, ◌^◌, IfOk, length, map, option_map, slice_get, if◌then◌else◌};
ghost use Rattle.camac_lang.specs.View.{expression_of, parameter_of, procedure_of};
ghost use Rattle.camac_rules.specs.Procedures.{ranges_of, parameter_range, arguments_fit, unfit, call_rule, can_be_called, at_entry};
ghost use Rattle.camac_rules.specs.Refusal.{given, required};
ghost use Rattle.camac_range.specs.Interval.{is_inside};
ghost use Rattle.camac_check_simple.specs.Gives.{Gives, by_code, leaving};

use camac_check_known::{CheckFault, Costs, Facts, numbers_of, range_of};
use camac_check_simple::Context;
use camac_lang::{Expr, Parameter, Procedure, ProcedureCall, Spot};
use camac_range::Range;
use camac_rules::{Case, CheckRule, Numbers};
use std::alloc::{AllocError, Global};

/// Checks a call, by the heading of the procedure.
#[tactic(auto, unfolding(camac_rules::specs::Refusal::go_on))]
pub fn call(
    alloc: Global,
    context: &Context,
    call: &ProcedureCall,
    known: &mut Facts,
) -> Result<Costs, CheckFault>
    ensures { Gives (leaving known.new) result (call_rule (by_code context.now) call.now.spot call.now.procedure (map expression_of call.now.arguments.items) known.old) }
{
    let spot = call.spot;
    let ranges = ranges_of(alloc, spot, &call.arguments, known.ranges())?;
    let called = procedure_at(context.procedures, call.procedure, spot)?;
    arguments_in_range(call.procedure, &ranges, &called.parameters, spot)?;
    Ok(Costs::of_call(called.cycles, called.words, called.steps))
}

// The ranges of these arguments.
#[tactic(auto, unfolding(camac_rules::specs::Refusal::go_on))]
fn ranges_of(
    alloc: Global,
    spot: Spot,
    arguments: &[Expr],
    ranges: &[Range],
) -> Result<Vec<Range>, CheckFault>
    ensures { Gives (λ v. v.items) result (ranges_of spot (map expression_of arguments.now) ranges.now) }
{
    match arguments {
        [] => Ok(Vec::new(alloc)),
        [argument, rest @ ..] => {
            let first = range_of(spot, argument, ranges)?;
            let mut all = ranges_of(alloc, spot, rest, ranges)?;
            all.insert(0, first)?;
            Ok(all)
        }
    }
}

// A procedure by its number. E21 where there is none.
#[tactic(auto, using(crate::proofs::Judged::procedures_by_number), unfolding(camac_rules::specs::Refusal::given))]
fn procedure_at(
    procedures: &[Procedure],
    number: usize,
    spot: Spot,
) -> Result<&Procedure, CheckFault>
    ensures { Gives (λ p. procedure_of p.now) result (given (slice_get (map procedure_of procedures.now) number) CheckRule.ArgumentOutOfRange spot Case.Malformed) }
{
    match procedures.get(number) {
        Some(procedure) => Ok(procedure),
        None => Err(CheckFault::Broken {
            rule: CheckRule::ArgumentOutOfRange,
            spot,
            case: Case::Malformed,
        }),
    }
}

// E21 where an argument is not in the range of its parameter.
#[tactic(auto, unfolding(camac_rules::specs::Refusal::required))]
fn arguments_in_range(
    procedure: usize,
    ranges: &[Range],
    parameters: &[Parameter],
    spot: Spot,
) -> Result<(), CheckFault>
    ensures { Gives (λ u. tt) result (required (arguments_fit ranges.now (map parameter_of parameters.now)) CheckRule.ArgumentOutOfRange spot (unfit procedure 0 ranges.now (map parameter_of parameters.now))) }
{
    if arguments_fit(ranges, parameters) {
        return Ok(());
    }
    Err(CheckFault::broken(
        CheckRule::ArgumentOutOfRange,
        spot,
        unfit(procedure, 0, ranges, parameters),
    ))
}

// The first argument, from the one of this number on, that is not in the range of its parameter.
fn unfit(procedure: usize, first: usize, ranges: &[Range], parameters: &[Parameter]) -> Case
    requires { first + length ranges.now < 2 ^ 64 }
    ensures { result ≡ unfit procedure first ranges.now (map parameter_of parameters.now) }
{
    match ranges {
        [] => Case::Malformed,
        [range, others @ ..] => match parameters {
            [] => Case::Malformed,
            [parameter, rest @ ..] => {
                if is_in_range(*range, parameter) {
                    return unfit(procedure, first + 1, others, rest);
                }
                Case::Argument {
                    procedure,
                    argument: first,
                    found: numbers_of(*range),
                    wanted: Numbers {
                        low: parameter.low,
                        high: parameter.high,
                    },
                }
            }
        },
    }
}

// Whether there are as many arguments as parameters, each in its range.
fn arguments_fit(ranges: &[Range], parameters: &[Parameter]) -> bool
    ensures { result ≡ arguments_fit ranges.now (map parameter_of parameters.now) }
{
    match ranges {
        [] => parameters.is_empty(),
        [range, others @ ..] => match parameters {
            [] => false,
            [parameter, rest @ ..] => {
                is_in_range(*range, parameter) && arguments_fit(others, rest)
            }
        },
    }
}

fn is_in_range(range: Range, parameter: &Parameter) -> bool
    ensures { result ≡ is_inside range (parameter_range (parameter_of parameter.now)) }
{
    parameter.low <= range.lo() && range.hi() <= parameter.high
}

/// What is known where the body of a procedure with these parameters starts, if it can be called at all. The error is want of memory.
pub fn at_entry(alloc: Global, parameters: &[Parameter]) -> Result<Option<Facts>, AllocError>
    ensures { IfOk result (λ k. k ≡ at_entry (map parameter_of parameters.now)) }
{
    match parameter_ranges(alloc, parameters)? {
        Some(ranges) => Ok(Some(Facts::at_call(alloc, ranges))),
        None => Ok(None),
    }
}

// The ranges of these parameters, if each has a number.
fn parameter_ranges(
    alloc: Global,
    parameters: &[Parameter],
) -> Result<Option<Vec<Range>>, AllocError>
    ensures { IfOk result (λ o. option_map (λ v. v.items) o ≡ (if can_be_called (map parameter_of parameters.now) then Some (map parameter_range (map parameter_of parameters.now)) else None)) }
{
    match parameters {
        [] => Ok(Some(Vec::new(alloc))),
        [parameter, rest @ ..] => {
            let Some(range) = Range::new(parameter.low, parameter.high) else {
                return Ok(None);
            };
            match parameter_ranges(alloc, rest)? {
                None => Ok(None),
                Some(mut all) => {
                    all.insert(0, range)?;
                    Ok(Some(all))
                }
            }
        }
    }
}
