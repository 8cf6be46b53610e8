// The lines of what is known at a place.

ghost use Rattle.std.specs.Prelude.{◌≡◌, ◌+◌, ◌<◌, ◌^◌, ◌++◌, IfOk, OnOk, length, map};
ghost use Rattle.camac_lang.specs.View.{parameter_of, service_of};
ghost use Rattle.camac_check_costs.specs.Stands.{place_at};
ghost use Rattle.camac_check_costs.specs.Known.{known_text, locked_line, locked_text, register_line, registers_on, registers_text, variable_line, variables_text};

use crate::place::Standing;
use crate::texts::push_range;
use camac_check_known::{Around, Facts, Region, range_in};
use camac_lang::{Name, Parameter, Script, Service};
use camac_lines::Line;
use camac_range::Range;
use camac_rules::Body;
use std::alloc::{AllocError, Global};

/// Prints what is known where a statement begins: a line for each variable with its range, for each register that is set with its addresses, and
/// for each locked crate.
pub fn known_lines(
    alloc: Global,
    script: &Script,
    found: &Standing<'_>,
) -> Result<Vec<u8>, AllocError>
    ensures { IfOk result (λ v. v.items ≡ known_text script.now (place_at found.now)) }
{
    let known = &found.known;
    let mut lines = Vec::new(alloc);
    lines.extend_from_slice(b"reached\n")?;
    match found.around.body() {
        Body::Procedure(number) => {
            if let Some(procedure) = script.procedures().get(number) {
                push_parameters(&mut lines, known.ranges(), 0, &procedure.parameters)?;
                push_registers(&mut lines, known, 0, &procedure.registers)?;
            }
        }
        Body::Service(lam) => {
            push_variables(&mut lines, known.ranges(), 0, script.variables())?;
            push_registers(&mut lines, known, 0, registers_on(lam, script.services()))?;
        }
    }
    push_locked(&mut lines, &found.around)?;
    Ok(lines)
}

// The registers of the service on this LAM.
fn registers_on(lam: usize, services: &[Service]) -> &[Name]
    ensures { result.now ≡ registers_on lam (map service_of services.now) }
{
    match services {
        [] => &[],
        [service, rest @ ..] => {
            if service.lam == lam {
                &service.registers
            } else {
                registers_on(lam, rest)
            }
        }
    }
}

// Puts the lines of these variables, from the one of this number on, at the end.
fn push_variables(
    lines: &mut Vec<u8>,
    ranges: &[Range],
    first: usize,
    names: &[Name],
) -> Result<(), AllocError>
    requires { first + length names.now < 2 ^ 64 }
    ensures { OnOk result (lines.new.items ≡ lines.old.items ++ variables_text ranges.now first names.now) }
{
    match names {
        [] => Ok(()),
        [name, rest @ ..] => {
            push_variable(lines, name, range_in(ranges, first))?;
            push_variables(lines, ranges, first + 1, rest)
        }
    }
}

fn push_parameters(
    lines: &mut Vec<u8>,
    ranges: &[Range],
    first: usize,
    parameters: &[Parameter],
) -> Result<(), AllocError>
    requires { first + length parameters.now < 2 ^ 64 }
    ensures { OnOk result (lines.new.items ≡ lines.old.items ++ variables_text ranges.now first (map (λ q. q.name) (map parameter_of parameters.now))) }
{
    match parameters {
        [] => Ok(()),
        [parameter, rest @ ..] => {
            push_variable(lines, &parameter.name, range_in(ranges, first))?;
            push_parameters(lines, ranges, first + 1, rest)
        }
    }
}

fn push_variable(lines: &mut Vec<u8>, name: &Name, range: Range) -> Result<(), AllocError>
    ensures { OnOk result (lines.new.items ≡ lines.old.items ++ variable_line name.now range) }
{
    let mut line = Line::new();
    line.push_bytes(name.as_bytes());
    line.push_str(" ");
    push_range(&mut line, range);
    line.push_str("\n");
    lines.extend_from_slice(line.as_bytes())
}

// Puts the lines of these registers, from the one of this number on, at the end.
fn push_registers(
    lines: &mut Vec<u8>,
    known: &Facts,
    first: usize,
    names: &[Name],
) -> Result<(), AllocError>
    requires { first + length names.now < 2 ^ 64 }
    ensures { OnOk result (lines.new.items ≡ lines.old.items ++ registers_text known.now.registers first names.now) }
{
    match names {
        [] => Ok(()),
        [name, rest @ ..] => {
            push_register(lines, name, known.register(first))?;
            push_registers(lines, known, first + 1, rest)
        }
    }
}

fn push_register(lines: &mut Vec<u8>, name: &Name, region: Option<Region>) -> Result<(), AllocError>
    ensures { OnOk result (lines.new.items ≡ lines.old.items ++ register_line name.now region) }
{
    let Some(region) = region else {
        return Ok(());
    };
    let mut line = Line::new();
    line.push_bytes(name.as_bytes());
    line.push_str(" ");
    push_range(&mut line, region.crates());
    line.push_str(" ");
    push_range(&mut line, region.stations());
    line.push_str(" ");
    push_range(&mut line, region.sub_addresses());
    line.push_str("\n");
    lines.extend_from_slice(line.as_bytes())
}

// Puts a line for each crate that is locked at the end.
fn push_locked(lines: &mut Vec<u8>, around: &Around) -> Result<(), AllocError>
    ensures { OnOk result (lines.new.items ≡ lines.old.items ++ locked_text around.now.locked) }
{
    push_if_locked(lines, around, 1)?;
    push_if_locked(lines, around, 2)?;
    push_if_locked(lines, around, 3)?;
    push_if_locked(lines, around, 4)?;
    push_if_locked(lines, around, 5)?;
    push_if_locked(lines, around, 6)?;
    push_if_locked(lines, around, 7)
}

fn push_if_locked(lines: &mut Vec<u8>, around: &Around, crate_no: u32) -> Result<(), AllocError>
    ensures { OnOk result (lines.new.items ≡ lines.old.items ++ locked_line around.now.locked crate_no) }
{
    if !around.is_locked(crate_no) {
        return Ok(());
    }
    let mut line = Line::new();
    line.push_str("locked ");
    line.push_number(crate_no);
    line.push_str("\n");
    lines.extend_from_slice(line.as_bytes())
}
