// The engines: from the bytes of their inputs to the bytes of their output.

ghost use Rattle.std.specs.Prelude.{◌≡◌, ◌||◌, Err, false};
ghost use Rattle.camac_event.specs.Reading.{file_at};
ghost use Rattle.camac_engines.specs.Ask.{AnswersEvents, AnswersPlan, AnswersTexts, TellsFound, TellsPlan, TellsScript};
ghost use Rattle.camac_engines.specs.Engine.{IsWritten, Shows, is_write_fault};
ghost use Rattle.camac_engines.specs.Reading.{is_read_fault};
ghost use Rattle.camac_engines.specs.Found.{HaveCase, found_of};
ghost use Rattle.camac_engines.specs.Plan.{HasCase, HasCaseIf, found_by, plan_failed};
ghost use Rattle.camac_engines.specs.Report.{refused, report_events, report_of};
ghost use Rattle.camac_engines.specs.declared.ask.Ask.TheVariants as ask;
ghost use Rattle.camac_engines.specs.declared.ask.PlanAsk.TheVariants as plan_ask;
ghost use Rattle.camac_word.specs.Watched.{inner_of, has_failed};

use crate::ask::{Ask, PlanAsk};
use crate::costs::show_costs;
use crate::explaining::{explain_headings, explain_refusal, explain_text};
use crate::fault::ToolFault;
use crate::headings::{judge_headings, show_headings};
use crate::judging::{Judged, judge};
use crate::known::{find_known, show_known};
use crate::outcome::Outcome;
use crate::plan::{PlanRead, PlanRefusal, PlanSource, read_plan};
use crate::reading::{EVENTS_LIMIT, read_whole};
use crate::telling::tell_all;
use crate::texts::{Texts, read_texts};
use camac_answer::TextReader;
use camac_branch::Plan;
use camac_event::{EventFile, TextWriter};
use camac_lines::{
    Refusal, write_event_file, write_plan, write_plan_with_commands, write_refusal, write_verdict,
};
use camac_word::Watched;
use std::alloc::Global;
use std::io::Write;

/// Answers what is asked of a plan and a script: that, or the line of the first refusal, is written to `out`. The plan is read and judged
/// first, then the script. Nothing is written before a fault but one of the writer, which leaves a prefix of the text.
pub fn answer<P: TextReader, S: TextReader, W: Write>(
    alloc: Global,
    ask: Ask<'_>,
    plan: &mut PlanSource<P>,
    script: &mut S,
    out: &mut Watched<W>,
) -> Result<Outcome, ToolFault>
    ensures answers { AnswersTexts ask.entry P.remaining plan.old plan.new (S.remaining script.old) (S.remaining script.new) (W.contents (inner_of out.old)) (W.contents (inner_of out.new)) result }
    ensures out_failed { has_failed out.new ≡ (has_failed out.old || is_write_fault result) }
    ensures in_failed { (plan_failed P.failed plan.new || S.failed script.new)
        ≡ ((plan_failed P.failed plan.old || S.failed script.old) || is_read_fault result) }
{
    let texts = read_texts(alloc, plan, script)?;
    tell(alloc, ask, &texts, out)
}

/// The same of a plan alone.
pub fn answer_plan<P: TextReader, W: Write>(
    alloc: Global,
    ask: PlanAsk,
    plan: &mut PlanSource<P>,
    out: &mut Watched<W>,
) -> Result<Outcome, ToolFault>
    ensures answers { AnswersPlan ask P.remaining plan.old plan.new (W.contents (inner_of out.old)) (W.contents (inner_of out.new)) result }
    ensures out_failed { has_failed out.new ≡ (has_failed out.old || is_write_fault result) }
    ensures in_failed { plan_failed P.failed plan.new ≡ (plan_failed P.failed plan.old || is_read_fault result) }
{
    let PlanRead { text, says } = read_plan(alloc, plan)?;
    match says {
        Ok(plan) => list_plan(ask, &plan, out),
        Err(refusal) => tell_refusal(alloc, ask, &text, &refusal, out),
    }
}

/// Lists a plan.
pub fn engine_plan<P: TextReader, W: Write>(
    alloc: Global,
    plan: &mut PlanSource<P>,
    out: &mut Watched<W>,
) -> Result<Outcome, ToolFault>
    ensures answers { AnswersPlan plan_ask.Lines P.remaining plan.old plan.new (W.contents (inner_of out.old)) (W.contents (inner_of out.new)) result }
    ensures out_failed { has_failed out.new ≡ (has_failed out.old || is_write_fault result) }
    ensures in_failed { plan_failed P.failed plan.new ≡ (plan_failed P.failed plan.old || is_read_fault result) }
{
    answer_plan(alloc, PlanAsk::Lines, plan, out)
}

/// Checks a script against a plan.
pub fn engine_check<P: TextReader, S: TextReader, W: Write>(
    alloc: Global,
    plan: &mut PlanSource<P>,
    script: &mut S,
    out: &mut Watched<W>,
) -> Result<Outcome, ToolFault>
    ensures answers { AnswersTexts ask.Check P.remaining plan.old plan.new (S.remaining script.old) (S.remaining script.new) (W.contents (inner_of out.old)) (W.contents (inner_of out.new)) result }
    ensures out_failed { has_failed out.new ≡ (has_failed out.old || is_write_fault result) }
    ensures in_failed { (plan_failed P.failed plan.new || S.failed script.new)
        ≡ ((plan_failed P.failed plan.old || S.failed script.old) || is_read_fault result) }
{
    answer(alloc, Ask::Check, plan, script, out)
}

/// Finds the least headings of a script for a plan.
pub fn engine_bounds<P: TextReader, S: TextReader, W: Write>(
    alloc: Global,
    plan: &mut PlanSource<P>,
    script: &mut S,
    out: &mut Watched<W>,
) -> Result<Outcome, ToolFault>
    ensures answers { AnswersTexts ask.Bounds P.remaining plan.old plan.new (S.remaining script.old) (S.remaining script.new) (W.contents (inner_of out.old)) (W.contents (inner_of out.new)) result }
    ensures out_failed { has_failed out.new ≡ (has_failed out.old || is_write_fault result) }
    ensures in_failed { (plan_failed P.failed plan.new || S.failed script.new)
        ≡ ((plan_failed P.failed plan.old || S.failed script.old) || is_read_fault result) }
{
    answer(alloc, Ask::Bounds, plan, script, out)
}

/// Lists an event file of either version: its lines, or the line of its refusal, are written to `out`. Nothing is written before a fault
/// but one of the writer, which leaves a prefix of the text. No memory is taken but the file's bytes.
pub fn engine_events<R: TextReader, W: TextWriter>(
    alloc: Global,
    input: &mut R,
    out: &mut W,
) -> Result<Outcome, ToolFault>
    ensures answers { AnswersEvents (R.remaining input.old) (R.remaining input.new) (W.contents out.old) (W.contents out.new) result }
    ensures out_failed { W.failed out.new ≡ (W.failed out.old || is_write_fault result) }
    ensures in_failed { R.failed input.new ≡ (R.failed input.old || is_read_fault result) }
{
    let bytes = read_whole(alloc, input, EVENTS_LIMIT)?;
    list_events(&bytes, out)
}

fn list_events<W: TextWriter>(bytes: &[u8], out: &mut W) -> Result<Outcome, ToolFault>
    ensures shows { Shows (report_events (file_at bytes.now)) (W.contents out.old) (W.contents out.new) result }
    ensures failed { W.failed out.new ≡ (W.failed out.old || is_write_fault result) }
{
    match EventFile::new(bytes) {
        Ok(file) => {
            write_event_file(out, &file)?;
            Ok(Outcome::Good)
        }
        Err(flaw) => refuse(out, Refusal::Event(flaw)),
    }
}

fn list_plan<W: Write>(
    ask: PlanAsk,
    plan: &Plan,
    out: &mut Watched<W>,
) -> Result<Outcome, ToolFault>
    ensures tells { IsWritten (TellsPlan ask (Ok plan.now)) (W.contents (inner_of out.old)) (W.contents (inner_of out.new)) result }
    ensures failed { has_failed out.new ≡ (has_failed out.old || is_write_fault result) }
{
    match ask {
        PlanAsk::Commands => write_plan_with_commands(out, plan)?,
        PlanAsk::Lines => write_plan(out, plan)?,
        PlanAsk::Explain => write_plan(out, plan)?,
    }
    Ok(Outcome::Good)
}

fn tell_refusal<W: Write>(
    alloc: Global,
    ask: PlanAsk,
    text: &[u8],
    refusal: &PlanRefusal,
    out: &mut Watched<W>,
) -> Result<Outcome, ToolFault>
    requires { HasCase text.now refusal.now }
    ensures tells { IsWritten (TellsPlan ask (Err (text.now, refusal.now.rule))) (W.contents (inner_of out.old)) (W.contents (inner_of out.new)) result }
    ensures failed { has_failed out.new ≡ (has_failed out.old || is_write_fault result) }
{
    match ask {
        PlanAsk::Explain => explain_refusal(alloc, text, refusal, out),
        PlanAsk::Lines => refuse(out, Refusal::Plan(refusal.rule)),
        PlanAsk::Commands => refuse(out, Refusal::Plan(refusal.rule)),
    }
}

fn tell<W: Write>(
    alloc: Global,
    ask: Ask<'_>,
    texts: &Texts,
    out: &mut Watched<W>,
) -> Result<Outcome, ToolFault>
    requires { HaveCase texts.now }
    ensures tells { IsWritten (TellsFound ask.entry (found_of texts.now)) (W.contents (inner_of out.old)) (W.contents (inner_of out.new)) result }
    ensures failed { has_failed out.new ≡ (has_failed out.old || is_write_fault result) }
{
    match texts {
        Texts::Read(plan, text) => tell_script(alloc, ask, plan, text, out),
        Texts::Refused(text, refusal) => tell_refusal(alloc, ask.of_plan(), text, refusal, out),
    }
}

fn tell_script<W: Write>(
    alloc: Global,
    ask: Ask<'_>,
    plan: &Plan,
    text: &[u8],
    out: &mut Watched<W>,
) -> Result<Outcome, ToolFault>
    ensures tells { IsWritten (TellsScript ask.entry plan.now text.now) (W.contents (inner_of out.old)) (W.contents (inner_of out.new)) result }
    ensures failed { has_failed out.new ≡ (has_failed out.old || is_write_fault result) }
{
    match ask {
        Ask::Check => show(out, &judge(alloc, plan, text)?),
        Ask::Explain => explain_text(alloc, plan, text, out),
        Ask::ExplainBounds => explain_headings(alloc, plan, text, out),
        Ask::ExplainAt {
            line,
            column,
            turns,
        } => {
            let found = find_known(alloc, plan, text, line, column, turns.numbers())?;
            show_known(out, line, column, &found)
        }
        Ask::Bounds => show_headings(out, &judge_headings(alloc, plan, text)?),
        Ask::Costs => show_costs(alloc, &judge(alloc, plan, text)?, out),
        Ask::Tell => tell_all(alloc, plan, text, out),
    }
}

/// Writes the bounds of what was accepted, or the line of its refusal.
pub fn show<W: Write>(out: &mut Watched<W>, judged: &Judged) -> Result<Outcome, ToolFault>
    ensures shows { Shows (report_of judged.now) (W.contents (inner_of out.old)) (W.contents (inner_of out.new)) result }
    ensures failed { has_failed out.new ≡ (has_failed out.old || is_write_fault result) }
{
    match judged {
        Judged::Accepted(checked) => {
            write_verdict(out, checked)?;
            Ok(Outcome::Good)
        }
        Judged::Refused(finding) => refuse(out, finding.refusal()),
    }
}

/// Writes the line of a refusal. After a write fault a prefix of it was written.
pub fn refuse<W: TextWriter>(out: &mut W, refusal: Refusal) -> Result<Outcome, ToolFault>
    ensures shows { Shows (refused refusal) (W.contents out.old) (W.contents out.new) result }
    ensures failed { W.failed out.new ≡ (W.failed out.old || is_write_fault result) }
    ensures no_read { is_read_fault result ≡ false }
{
    write_refusal(out, refusal)?;
    Ok(Outcome::Refused)
}
