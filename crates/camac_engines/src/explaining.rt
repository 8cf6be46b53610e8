// Explains a refusal.

ghost use Rattle.std.specs.Prelude.{◌≡◌, ◌||◌, ◌++◌, Ok, Err, IfOk, OnOk, is_err};
ghost use Rattle.camac_text.specs.Parser.{script_of};
ghost use Rattle.camac_lines.specs.Refusal.{refusal_text};
ghost use Rattle.camac_explain.specs.Explanation.{explanation_of};
ghost use Rattle.camac_explain.specs.Sentence.{sentence_of};
ghost use Rattle.camac_engines.specs.Engine.{IsWritten, Shows, is_write_fault};
ghost use Rattle.camac_engines.specs.Explain.{IsRead, PlanExplained, ReportsMore, TellsExplained, TellsHeadings};
ghost use Rattle.camac_engines.specs.Plan.{HasCase};
ghost use Rattle.camac_engines.specs.Refusals.{detail_lines, turn_line_of};
ghost use Rattle.camac_engines.specs.Report.{refused_and, report_plan};
ghost use Rattle.camac_word.specs.Watched.{inner_of, has_failed};
ghost use Rattle.camac_word.specs.Writing.{Writes};

use crate::engine::show;
use crate::fault::ToolFault;
use crate::headings::{find_headings, show_headings};
use crate::judging::{Judged, judge_script};
use crate::outcome::Outcome;
use crate::plan::PlanRefusal;
use crate::refusals::{findings_of, push_also};
use camac_branch::Plan;
use camac_check::laws::first_is_refusal;
use camac_check_costs::last_turn;
use camac_explain::{Finding, explain_fault, explain_plan, explain_script, script_sentence};
use camac_explain_case::push_case;
use camac_explain_text::{TextTold, text_told};
use camac_lang::Script;
use camac_lines::{Refusal, write_refusal};
use camac_names::laws::first_is_link_fault;
use camac_text::{Choices, TextFault, parse_expecting};
use camac_word::{Watched, WriteFault};
use std::alloc::{AllocError, Global};
use std::io::Write;

/// Writes the line of a plan's refusal, and the lines that explain it.
#[tactic(auto, using(crate::proofs::Explained::plan_explained))]
pub fn explain_refusal<W: Write>(
    alloc: Global,
    text: &[u8],
    refusal: &PlanRefusal,
    out: &mut Watched<W>,
) -> Result<Outcome, ToolFault>
    requires { HasCase text.now refusal.now }
    ensures tells { IsWritten (ReportsMore (PlanExplained (Err (text.now, refusal.now.rule))) (report_plan (Err (text.now, refusal.now.rule)))) (W.contents (inner_of out.old)) (W.contents (inner_of out.new)) result }
    ensures failed { has_failed out.new ≡ (has_failed out.old || is_write_fault result) }
{
    let more = explain_plan(alloc, text, refusal.rule, refusal.case)?;
    refuse_and(out, Refusal::Plan(refusal.rule), &more)
}

/// Writes what `camac check` tells of a script's text, and after the line of a refusal the lines that explain it, and one for each further refusal.
pub fn explain_text<W: Write>(
    alloc: Global,
    plan: &Plan,
    text: &[u8],
    out: &mut Watched<W>,
) -> Result<Outcome, ToolFault>
    ensures tells { IsWritten (TellsExplained plan.now text.now) (W.contents (inner_of out.old)) (W.contents (inner_of out.new)) result }
    ensures failed { has_failed out.new ≡ (has_failed out.old || is_write_fault result) }
{
    match read_script(alloc, text)? {
        Ok(script) => explain_judged(alloc, plan, text, script, out),
        Err(fault) => refuse_and(out, fault.finding.refusal(), &fault.lines),
    }
}

// Of a text that is this script.
fn explain_judged<W: Write>(
    alloc: Global,
    plan: &Plan,
    text: &[u8],
    script: Script,
    out: &mut Watched<W>,
) -> Result<Outcome, ToolFault>
    requires { script_of text.now ≡ Ok script }
    ensures tells { IsWritten (TellsExplained plan.now text.now) (W.contents (inner_of out.old)) (W.contents (inner_of out.new)) result }
    ensures failed { has_failed out.new ≡ (has_failed out.old || is_write_fault result) }
{
    first_is_link_fault();
    first_is_refusal();
    let findings = findings_of(alloc, &script, plan)?;
    match findings.as_slice() {
        [] => show(out, &judge_script(alloc, plan, script)?),
        [first, further @ ..] => {
            let mut more = explain_finding(alloc, text, &script, *first)?;
            push_details(alloc, &mut more, plan, text, &script, *first)?;
            push_also(&mut more, text, further)?;
            refuse_and(out, first.refusal(), &more)
        }
    }
}

/// Writes what `camac bounds` tells of a script's text, and after the line of a refusal the lines that explain it.
pub fn explain_headings<W: Write>(
    alloc: Global,
    plan: &Plan,
    text: &[u8],
    out: &mut Watched<W>,
) -> Result<Outcome, ToolFault>
    ensures tells { IsWritten (TellsHeadings plan.now text.now) (W.contents (inner_of out.old)) (W.contents (inner_of out.new)) result }
    ensures failed { has_failed out.new ≡ (has_failed out.old || is_write_fault result) }
{
    match read_script(alloc, text)? {
        Ok(script) => explain_least(alloc, plan, text, script, out),
        Err(fault) => refuse_and(out, fault.finding.refusal(), &fault.lines),
    }
}

// Of a text that is this script. A copy of it keeps the names.
fn explain_least<W: Write>(
    alloc: Global,
    plan: &Plan,
    text: &[u8],
    script: Script,
    out: &mut Watched<W>,
) -> Result<Outcome, ToolFault>
    requires { script_of text.now ≡ Ok script }
    ensures tells { IsWritten (TellsHeadings plan.now text.now) (W.contents (inner_of out.old)) (W.contents (inner_of out.new)) result }
    ensures failed { has_failed out.new ≡ (has_failed out.old || is_write_fault result) }
{
    let named = script.try_clone(alloc)?;
    let judged = find_headings(alloc, plan, script)?;
    match &judged {
        Judged::Accepted(_) => show_headings(out, &judged),
        Judged::Refused(finding) => {
            let more = explain_finding(alloc, text, &named, *finding)?;
            refuse_and(out, finding.refusal(), &more)
        }
    }
}

/// The first fault of a text, and the lines that explain it.
#[derive(Drop)]
pub struct TextExplained {
    pub finding: Finding,
    pub lines: Vec<u8>,
}

/// The script of a text, or why it is none.
pub fn read_script(alloc: Global, text: &[u8]) -> Result<Result<Script, TextExplained>, AllocError>
    ensures { IfOk result (IsRead text.now) }
{
    let mut noted = Choices::none();
    match parse_expecting(alloc, text, &mut noted) {
        Ok(script) => Ok(Ok(script)),
        Err(TextFault::OutOfMemory) => Err(AllocError),
        Err(TextFault::Broken { case, spot }) => {
            let rule = case.rule();
            let finding = Finding::Text { rule, spot };
            let TextTold { sentence, hint } = text_told(alloc, text, case, spot.left, noted)?;
            let lines = explain_fault(alloc, text, finding, sentence, hint)?;
            Ok(Err(TextExplained { finding, lines }))
        }
    }
}

/// What is found of a script, explained.
pub fn explain_finding(
    alloc: Global,
    text: &[u8],
    script: &Script,
    finding: Finding,
) -> Result<Vec<u8>, AllocError>
    ensures { IfOk result (λ more. more.items ≡ explanation_of text.now finding (sentence_of script.now finding)) }
{
    let sentence = script_sentence(alloc, script, finding)?;
    explain_script(alloc, text, finding, sentence)
}

/// Puts what else is told of a finding at the end: the turn in which the checker refuses a statement, if an `each` loop is around it, and what its
/// case tells.
pub fn push_details(
    alloc: Global,
    lines: &mut Vec<u8>,
    plan: &Plan,
    text: &[u8],
    script: &Script,
    finding: Finding,
) -> Result<(), AllocError>
    ensures { OnOk result (lines.new.items ≡ lines.old.items ++ detail_lines plan.now text.now script.now finding) }
{
    let Finding::Check { rule, spot, case } = finding else {
        return Ok(());
    };
    let turn = last_turn(alloc, plan, script, spot)?;
    push_turn_line(lines, turn.as_slice())?;
    push_case(alloc, lines, plan, text, rule, spot, case)
}

#[tactic(auto, using(crate::proofs::Explained::turn_of_some))]
fn push_turn_line(lines: &mut Vec<u8>, turn: &[u8]) -> Result<(), AllocError>
    ensures { OnOk result (lines.new.items ≡ lines.old.items ++ turn_line_of turn.now) }
{
    let [_, ..] = turn else {
        return Ok(());
    };
    lines.extend_from_slice(b"Turn: ")?;
    lines.extend_from_slice(turn)?;
    lines.push(b'\n')?;
    Ok(())
}

fn refuse_and<W: Write>(
    out: &mut Watched<W>,
    refusal: Refusal,
    more: &[u8],
) -> Result<Outcome, ToolFault>
    ensures shows { Shows (refused_and refusal more.now) (W.contents (inner_of out.old)) (W.contents (inner_of out.new)) result }
    ensures failed { has_failed out.new ≡ (has_failed out.old || is_write_fault result) }
{
    write_refusal_and(out, refusal, more)?;
    Ok(Outcome::Refused)
}

// Writes the line of a refusal, and what follows it.
fn write_refusal_and<W: Write>(
    out: &mut Watched<W>,
    refusal: Refusal,
    more: &[u8],
) -> Result<(), WriteFault>
    ensures text { Writes (W.contents (inner_of out.old)) (W.contents (inner_of out.new)) result (refusal_text refusal ++ more.now) }
    ensures failed { has_failed out.new ≡ (has_failed out.old || is_err result) }
{
    write_refusal(out, refusal)?;
    out.write_text(more)
}
