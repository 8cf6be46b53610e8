// The lines of `camac response`.

ghost use Rattle.std.specs.Prelude.{◌≡◌, ◌<◌, ◌≤◌, ◌+◌, ◌||◌, ◌++◌, is_err, length, nat_eq};
ghost use Rattle.std.specs.List.{position};
ghost use Rattle.camac_lines.specs.Texts.{texts};
ghost use Rattle.camac_response.specs.Lines.{bit_text, cycles_text, limit_text, numbers_text, promised, rate_text, response_line, responses_text, service_text, unkept_line, unkept_text, why_text};
ghost use Rattle.camac_word.specs.Watched.{inner_of, has_failed};
ghost use Rattle.camac_word.specs.Writing.{Writes};

use crate::bodies::told_at;
use crate::of_checked::service_name;
use crate::unkept::{Unkept, Why, is_kept_to};
use camac_lines::Line;
use camac_response_times::{Rate, Response, Responses, Setting, Source, told_for};
use camac_rules::Checked;
use camac_word::{GlBit, Watched, WriteFault};
use std::io::Write;

const NOT_CLEARED: &str = "does not clear its look-at-me";

const CLEARED_BY: &str = "cleared by ";

const HIDDEN_BY: &str = "hidden by ";

/// Writes a line for each service, in the order of their bits: its bound, its rate, the most cycles from its look-at-me to its beginning and to
/// its end, with the number that was asked for, and its longest stretch. Numbers are told below the bits of what is unkept alone, and which services may clear their look-at-mes twice. Then a line for
/// each thing that is unkept. After a write fault a prefix of all was written.
pub fn write_responses<W: Write>(
    out: &mut Watched<W>,
    checked: &Checked,
    responses: &Responses,
    unkept: &[Unkept],
    twice: &[bool],
    within: &[Setting<'_>],
) -> Result<(), WriteFault>
    requires { length responses.now ≡ length checked.now.script.services }
    ensures text { Writes (W.contents (inner_of out.old)) (W.contents (inner_of out.new)) result (responses_text checked.now.script within.now unkept.now twice.now responses.now) }
    ensures failed { has_failed out.new ≡ (has_failed out.old || is_err result) }
{
    write_services(out, checked, responses, unkept, twice, within)?;
    write_unkept(out, checked, unkept)
}

fn write_services<W: Write>(
    out: &mut Watched<W>,
    checked: &Checked,
    responses: &Responses,
    unkept: &[Unkept],
    twice: &[bool],
    within: &[Setting<'_>],
) -> Result<(), WriteFault>
    requires { length responses.now ≡ length checked.now.script.services }
    ensures text { Writes (W.contents (inner_of out.old)) (W.contents (inner_of out.new)) result (texts (bit_text checked.now.script within.now unkept.now twice.now responses.now) 1 24) }
    ensures failed { has_failed out.new ≡ (has_failed out.old || is_err result) }
{
    'bits: for bit in 1..25 {
        let line = line_of_bit(checked, responses, unkept, twice, within, bit);
        out.write_text(line.as_bytes())?;
    }
    Ok(())
}

/// Writes a line for each thing that is unkept. After a write fault a prefix of all was written.
pub fn write_unkept<W: Write>(
    out: &mut Watched<W>,
    checked: &Checked,
    unkept: &[Unkept],
) -> Result<(), WriteFault>
    ensures text { Writes (W.contents (inner_of out.old)) (W.contents (inner_of out.new)) result (unkept_text checked.now.script unkept.now) }
    ensures failed { has_failed out.new ≡ (has_failed out.old || is_err result) }
{
    'found: for one in unkept {
        let line = unkept_line(checked, one);
        out.write_text(line.as_bytes())?;
    }
    Ok(())
}

fn unkept_line(checked: &Checked, unkept: &Unkept) -> Line
    ensures { result ≡ unkept_line checked.now.script unkept.now }
{
    let mut line = Line::new();
    line.push_str("unkept ");
    line.push_bytes(service_name(checked, unkept.service));
    line.push_str(" line ");
    line.push_number(unkept.line);
    line.push_str(": ");
    push_why(&mut line, checked, unkept.why);
    line.push_str("\n");
    line
}

fn push_why(line: &mut Line, checked: &Checked, why: Why)
    requires { length line.old ≤ 100 }
    ensures text { line.new ≡ line.old ++ why_text checked.now.script why }
    ensures len { length line.new ≤ length line.old + 43 }
{
    match why {
        Why::NotCleared => line.push_str(NOT_CLEARED),
        Why::ClearedBy(number) => {
            line.push_str(CLEARED_BY);
            line.push_bytes(service_name(checked, number));
        }
        Why::HiddenBy(number) => {
            line.push_str(HIDDEN_BY);
            line.push_bytes(service_name(checked, number));
        }
    }
}

// The line of the service of a bit, nothing where there is none.
fn line_of_bit(
    checked: &Checked,
    responses: &Responses,
    unkept: &[Unkept],
    twice: &[bool],
    within: &[Setting<'_>],
    bit: u32,
) -> Line
    ensures { result ≡ bit_text checked.now.script within.now unkept.now twice.now responses.now bit }
{
    match source_of(responses.sources(), bit) {
        Some(number) => line_of(checked, responses, unkept, twice, within, number),
        None => Line::new(),
    }
}

fn source_of(sources: &[Source], bit: u32) -> Option<usize>
    ensures { result ≡ position (λ t. nat_eq t.bit bit) sources.now }
{
    sources.iter().position(|source| source.bit.get() == bit)
}

fn line_of(
    checked: &Checked,
    responses: &Responses,
    unkept: &[Unkept],
    twice: &[bool],
    within: &[Setting<'_>],
    number: usize,
) -> Line
    requires { number < length responses.now }
    ensures { result ≡ service_text checked.now.script within.now unkept.now twice.now responses.now number }
{
    let name = service_name(checked, number);
    let bit = responses.sources()[number].bit;
    laid_out(
        name,
        responses.sources()[number],
        told_for(within, name),
        promised(unkept, bit, responses.at(number)),
        told_at(twice, number, false),
    )
}

// None where a look-at-me up to its bit is not kept to.
fn promised(unkept: &[Unkept], bit: GlBit, response: Option<Response>) -> Option<Response>
    ensures { result ≡ promised unkept.now bit response }
{
    if is_kept_to(unkept, bit) {
        response
    } else {
        None
    }
}

fn laid_out(
    name: &[u8],
    source: Source,
    within: Option<u32>,
    response: Option<Response>,
    twice: bool,
) -> Line
    requires { length name.now ≤ 32 }
    ensures { result ≡ response_line name.now source within response twice }
{
    let mut line = Line::new();
    line.push_str("service ");
    line.push_bytes(name);
    line.push_str(" gl ");
    line.push_number(source.bit.get());
    line.push_str(" cycles ");
    line.push_number(source.cycles);
    push_rate(&mut line, source.every);
    push_numbers(&mut line, within, response);
    if twice {
        line.push_str(" clears 2");
    }
    line.push_str("\n");
    line
}

fn push_rate(line: &mut Line, every: Option<Rate>)
    requires { length line.old ≤ 100 }
    ensures text { line.new ≡ line.old ++ rate_text every }
    ensures len { length line.new ≤ length line.old + 17 }
{
    match every {
        None => line.push_str(" once"),
        Some(rate) => {
            line.push_str(" every ");
            line.push_number(rate.get());
        }
    }
}

fn push_numbers(line: &mut Line, within: Option<u32>, response: Option<Response>)
    requires { length line.old ≤ 120 }
    ensures text { line.new ≡ line.old ++ numbers_text within response }
    ensures len { length line.new ≤ length line.old + 66 }
{
    line.push_str(" start ");
    push_cycles(line, response.map(|found| found.start));
    line.push_str(" end ");
    push_cycles(line, response.map(|found| found.end));
    push_limit(line, within);
    line.push_str(" longest ");
    push_cycles(line, response.map(|found| found.longest));
}

fn push_cycles(line: &mut Line, cycles: Option<u32>)
    requires { length line.old ≤ 200 }
    ensures text { line.new ≡ line.old ++ cycles_text cycles }
    ensures len { length line.new ≤ length line.old + 10 }
{
    match cycles {
        Some(cycles) => line.push_number(cycles),
        None => line.push_str("-"),
    }
}

fn push_limit(line: &mut Line, within: Option<u32>)
    requires { length line.old ≤ 160 }
    ensures text { line.new ≡ line.old ++ limit_text within }
    ensures len { length line.new ≤ length line.old + 14 }
{
    if let Some(cycles) = within {
        line.push_str(" of ");
        line.push_number(cycles);
    }
}
