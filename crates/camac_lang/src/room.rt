// Whether a script fits stores of fixed size.

ghost use Rattle.std.specs.Prelude.{◌≡◌, ◌+◌, ◌≤◌, length, map};
ghost use Rattle.camac_lang.specs.Tests.{total, most};
ghost use Rattle.camac_lang.specs.View.{procedure_of, service_of};
ghost use Rattle.camac_lang.specs.Fits.{fits};

use crate::depth::script_depth;
use crate::laws::limits_hold;
use crate::script::{Procedure, Script, Service};

/// Whether there is room for a script: for its variables and all parameters of procedures among so many variables, for the registers of each
/// service and those of all procedures among as many, for its depth, calls counted, and for the event of each service, in words.
pub fn fits(script: &Script, variables: usize, depth: usize, words: usize) -> bool
    ensures { result ≡ fits script.now variables depth words }
{
    variables_of(script) <= variables
        && registers_of(script) <= variables
        && script_depth(script) as usize <= depth
        && most_words(script.services()) <= words
}

// The variables and all parameters.
fn variables_of(script: &Script) -> usize
    ensures { result ≡ length script.now.variables + total (λ p. length p.parameters) script.now.procedures }
{
    script.well_formed();
    limits_hold();
    script.variables().len() + all_parameters(script.procedures())
}

fn all_parameters(procedures: &[Procedure]) -> usize
    requires { total (λ p. length p.parameters) (map procedure_of procedures.now) ≤ 64 }
    ensures { result ≡ total (λ p. length p.parameters) (map procedure_of procedures.now) }
{
    match procedures {
        [] => 0,
        [procedure, rest @ ..] => procedure.parameters.len() + all_parameters(rest),
    }
}

// The registers of all procedures, and of the service that has the most.
fn registers_of(script: &Script) -> usize
    ensures { result ≡ total (λ p. length p.registers) script.now.procedures + most (λ v. length v.registers) script.now.services }
{
    script.well_formed();
    limits_hold();
    all_registers(script.procedures()) + most_registers(script.services())
}

fn all_registers(procedures: &[Procedure]) -> usize
    requires { total (λ p. length p.registers) (map procedure_of procedures.now) ≤ 64 }
    ensures { result ≡ total (λ p. length p.registers) (map procedure_of procedures.now) }
{
    match procedures {
        [] => 0,
        [procedure, rest @ ..] => procedure.registers.len() + all_registers(rest),
    }
}

fn most_registers(services: &[Service]) -> usize
    ensures { result ≡ most (λ v. length v.registers) (map service_of services.now) }
{
    match services {
        [] => 0,
        [service, rest @ ..] => service.registers.len().max(most_registers(rest)),
    }
}

fn most_words(services: &[Service]) -> usize
    ensures { result ≡ most (λ v. v.words) (map service_of services.now) }
{
    match services {
        [] => 0,
        [service, rest @ ..] => (service.words as usize).max(most_words(rest)),
    }
}
