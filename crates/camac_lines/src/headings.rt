// The lines of headings.

ghost use Rattle.std.specs.Prelude.{◌≡◌, ◌≤◌, ◌||◌, ◌++◌, length, is_err, map};
ghost use Rattle.camac_lang.specs.View.{lam_of, parameter_of, procedure_of, service_of};
ghost use Rattle.camac_lines.specs.Headings.{headings_text, parameter_text, parameters_text, procedure_end, procedure_heading, procedure_start, service_heading};
ghost use Rattle.camac_lines.specs.Verdict.{lam_name};
ghost use Rattle.camac_word.specs.Watched.{inner_of, has_failed};
ghost use Rattle.camac_word.specs.Writing.{Writes};

use crate::line::Line;
use crate::verdict::lam_name;
use camac_lang::{Item, Lam, Parameter, Procedure, Script, Service};
use camac_word::{Watched, WriteFault};
use std::io::Write;

/// Writes the headings of a script's procedures and services in text order, each a line as it stands before the brace of its body. After
/// a write fault a prefix of this was written.
pub fn write_headings<W: Write>(out: &mut Watched<W>, script: &Script) -> Result<(), WriteFault>
    ensures text { Writes (W.contents (inner_of out.old)) (W.contents (inner_of out.new)) result (headings_text script.now) }
    ensures failed { has_failed out.new ≡ (has_failed out.old || is_err result) }
{
    let mut procedures = script.procedures();
    let mut services = script.services();
    'items: for item in script.order() {
        match item {
            Item::Procedure => {
                if let [procedure, rest @ ..] = procedures {
                    write_procedure(out, procedure)?;
                    procedures = rest;
                }
            }
            Item::Service => {
                if let [service, rest @ ..] = services {
                    out.write_text(line_of_service(script.lams(), service).as_bytes())?;
                    services = rest;
                }
            }
            Item::Table => {}
            Item::Lam => {}
            Item::Variables { .. } => {}
        }
    }
    Ok(())
}

fn line_of_service(lams: &[Lam], service: &Service) -> Line
    ensures { result ≡ service_heading (lam_name (map lam_of lams.now) service.now.lam) (service_of service.now) }
{
    let mut line = Line::new();
    line.push_str("service ");
    line.push_bytes(lam_name(lams, service.lam));
    line.push_str(" within ");
    line.push_number(service.cycles);
    line.push_str(" cycles event ");
    line.push_number(service.words);
    line.push_str(" words\n");
    line
}

fn write_procedure<W: Write>(out: &mut Watched<W>, procedure: &Procedure) -> Result<(), WriteFault>
    ensures text { Writes (W.contents (inner_of out.old)) (W.contents (inner_of out.new)) result (procedure_heading (procedure_of procedure.now)) }
    ensures failed { has_failed out.new ≡ (has_failed out.old || is_err result) }
{
    out.write_text(start_of_procedure(procedure.name.as_bytes()).as_bytes())?;
    write_parameters(out, &procedure.parameters)?;
    out.write_text(end_of_procedure(procedure).as_bytes())
}

fn start_of_procedure(name: &[u8]) -> Line
    requires { length name.now ≤ 32 }
    ensures { result ≡ procedure_start name.now }
{
    let mut line = Line::new();
    line.push_str("proc ");
    line.push_bytes(name);
    line.push_str("(");
    line
}

fn end_of_procedure(procedure: &Procedure) -> Line
    ensures { result ≡ procedure_end procedure.now.cycles procedure.now.words procedure.now.steps }
{
    let mut line = Line::new();
    line.push_str(") within ");
    line.push_number(procedure.cycles);
    line.push_str(" cycles event ");
    line.push_number(procedure.words);
    line.push_str(" words steps ");
    line.push_number(procedure.steps);
    line.push_str("\n");
    line
}

fn write_parameters<W: Write>(
    out: &mut Watched<W>,
    parameters: &[Parameter],
) -> Result<(), WriteFault>
    ensures text { Writes (W.contents (inner_of out.old)) (W.contents (inner_of out.new)) result (parameters_text (map parameter_of parameters.now)) }
    ensures failed { has_failed out.new ≡ (has_failed out.old || is_err result) }
{
    let mut between: &[u8] = b"";
    'parameters: for parameter in parameters {
        out.write_text(line_of_parameter(between, parameter).as_bytes())?;
        between = b", ";
    }
    Ok(())
}

// A parameter after what stands between it and the one before.
fn line_of_parameter(between: &[u8], parameter: &Parameter) -> Line
    requires { length between.now ≤ 2 }
    ensures { result ≡ between.now ++ parameter_text (parameter_of parameter.now) }
{
    let mut line = Line::new();
    line.push_bytes(between);
    line.push_bytes(parameter.name.as_bytes());
    line.push_str(" in ");
    line.push_number(parameter.low);
    line.push_str("..");
    line.push_number(parameter.high);
    line
}
