// All that there is to tell of a script at once.

ghost use Rattle.std.specs.Prelude.{◌≡◌, ◌||◌, ◌++◌, IfOk, OnOk, Some, flat_map, is_err};
ghost use Rattle.camac_text.specs.Parser.{script_of};
ghost use Rattle.camac_lines.specs.Verdict.{verdict_text};
ghost use Rattle.camac_check_costs.specs.Texts.{costs_text};
ghost use Rattle.camac_response.specs.Lines.{unkept_text};
ghost use Rattle.camac_engines.specs.Engine.{IsWritten, is_write_fault};
ghost use Rattle.camac_engines.specs.Tell.{IsRefused, TellsAll, TellsChecked, TellsRefusals, told_refusal};
ghost use Rattle.camac_word.specs.Watched.{inner_of, has_failed};
ghost use Rattle.camac_word.specs.Writing.{Writes};

use crate::explaining::{explain_finding, push_details, read_script};
use crate::fault::ToolFault;
use crate::judging::{Judged, judge};
use crate::outcome::Outcome;
use crate::refusals::{findings_of, placed_refusal};
use camac_branch::Plan;
use camac_check::Checked;
use camac_check_costs::{BodyCosts, costs_of, write_costs};
use camac_explain::Finding;
use camac_lang::Script;
use camac_lines::write_verdict;
use camac_response::{Unkept, sources_of, unkept_of, write_unkept};
use camac_word::{Watched, WriteFault};
use std::alloc::{AllocError, Global};
use std::io::Write;

/// Writes the bounds of an accepted script, what they consist of, each statement with its place, and what it does not do for its look-at-mes; or
/// each refusal in full.
pub fn tell_all<W: Write>(
    alloc: Global,
    plan: &Plan,
    text: &[u8],
    out: &mut Watched<W>,
) -> Result<Outcome, ToolFault>
    ensures tells { IsWritten (TellsAll plan.now text.now) (W.contents (inner_of out.old)) (W.contents (inner_of out.new)) result }
    ensures failed { has_failed out.new ≡ (has_failed out.old || is_write_fault result) }
{
    let judged = judge(alloc, plan, text)?;
    match &judged {
        Judged::Accepted(checked) => tell_bounds(alloc, text, checked, out),
        Judged::Refused(_) => tell_refusals(alloc, plan, text, out),
    }
}

fn tell_bounds<W: Write>(
    alloc: Global,
    text: &[u8],
    checked: &Checked,
    out: &mut Watched<W>,
) -> Result<Outcome, ToolFault>
    ensures tells { IsWritten (TellsChecked checked.now text.now) (W.contents (inner_of out.old)) (W.contents (inner_of out.new)) result }
    ensures failed { has_failed out.new ≡ (has_failed out.old || is_write_fault result) }
{
    let bodies = costs_of(alloc, checked)?;
    let sources = sources_of(alloc, checked, &[])?;
    let unkept = unkept_of(alloc, checked, &sources)?;
    write_bounds(out, checked, text, &bodies, &unkept)?;
    Ok(Outcome::Good)
}

fn write_bounds<W: Write>(
    out: &mut Watched<W>,
    checked: &Checked,
    text: &[u8],
    bodies: &[BodyCosts],
    unkept: &[Unkept],
) -> Result<(), WriteFault>
    ensures text { Writes (W.contents (inner_of out.old)) (W.contents (inner_of out.new)) result (verdict_text checked.now.plan checked.now.script checked.now.bounds ++ (costs_text (Some text.now) checked.now.plan checked.now.script bodies.now ++ unkept_text checked.now.script unkept.now)) }
    ensures failed { has_failed out.new ≡ (has_failed out.old || is_err result) }
{
    write_verdict(out, checked)?;
    write_more(out, checked, text, bodies, unkept)
}

fn write_more<W: Write>(
    out: &mut Watched<W>,
    checked: &Checked,
    text: &[u8],
    bodies: &[BodyCosts],
    unkept: &[Unkept],
) -> Result<(), WriteFault>
    ensures text { Writes (W.contents (inner_of out.old)) (W.contents (inner_of out.new)) result (costs_text (Some text.now) checked.now.plan checked.now.script bodies.now ++ unkept_text checked.now.script unkept.now) }
    ensures failed { has_failed out.new ≡ (has_failed out.old || is_err result) }
{
    write_costs(out, checked, Some(text), bodies)?;
    write_unkept(out, checked, unkept)
}

fn tell_refusals<W: Write>(
    alloc: Global,
    plan: &Plan,
    text: &[u8],
    out: &mut Watched<W>,
) -> Result<Outcome, ToolFault>
    ensures tells { IsWritten (IsRefused (TellsRefusals plan.now text.now (script_of text.now))) (W.contents (inner_of out.old)) (W.contents (inner_of out.new)) result }
    ensures failed { has_failed out.new ≡ (has_failed out.old || is_write_fault result) }
{
    let lines = refusals_in(alloc, plan, text)?;
    out.write_text(&lines)?;
    Ok(Outcome::Refused)
}

// The lines of each refusal of a text.
fn refusals_in(alloc: Global, plan: &Plan, text: &[u8]) -> Result<Vec<u8>, AllocError>
    ensures { IfOk result (λ lines. TellsRefusals plan.now text.now (script_of text.now) lines.items) }
{
    let mut lines = Vec::new(alloc);
    match read_script(alloc, text)? {
        Ok(script) => {
            let findings = findings_of(alloc, &script, plan)?;
            push_refusals(alloc, &mut lines, plan, text, &script, &findings)?;
        }
        Err(fault) => {
            lines.extend_from_slice(placed_refusal(text, fault.finding).as_bytes())?;
            lines.extend_from_slice(&fault.lines)?;
        }
    }
    Ok(lines)
}

fn push_refusals(
    alloc: Global,
    lines: &mut Vec<u8>,
    plan: &Plan,
    text: &[u8],
    script: &Script,
    findings: &[Finding],
) -> Result<(), AllocError>
    ensures { OnOk result (lines.new.items ≡ lines.old.items ++ flat_map (told_refusal plan.now text.now script.now) findings.now) }
{
    'findings: for finding in findings {
        push_refusal(alloc, lines, plan, text, script, *finding)?;
    }
    Ok(())
}

// Puts the lines of a refusal at the end.
fn push_refusal(
    alloc: Global,
    lines: &mut Vec<u8>,
    plan: &Plan,
    text: &[u8],
    script: &Script,
    finding: Finding,
) -> Result<(), AllocError>
    ensures { OnOk result (lines.new.items ≡ lines.old.items ++ told_refusal plan.now text.now script.now finding) }
{
    lines.extend_from_slice(placed_refusal(text, finding).as_bytes())?;
    lines.extend_from_slice(&explain_finding(alloc, text, script, finding)?)?;
    push_details(alloc, lines, plan, text, script, finding)
}
