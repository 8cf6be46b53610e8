// What is told of the least headings of a script.

ghost use Rattle.std.specs.Prelude.{◌≡◌, ◌||◌};
ghost use Rattle.camac_check.specs.Least.{least};
ghost use Rattle.camac_engines.specs.Accepted.{Accepts};
ghost use Rattle.camac_engines.specs.Engine.{Shows, is_write_fault};
ghost use Rattle.camac_engines.specs.Headings.{FindsHeadings, headed, headed_found, headings_report, headings_report_of, headings_told};
ghost use Rattle.camac_word.specs.Watched.{inner_of, has_failed};

use crate::engine::refuse;
use crate::fault::ToolFault;
use crate::judging::Judged;
use crate::outcome::Outcome;
use camac_branch::Plan;
use camac_check::{LeastFault, least};
use camac_explain::Finding;
use camac_lang::Script;
use camac_lines::write_headings;
use camac_text::{TextFault, parse};
use camac_word::Watched;
use std::alloc::Global;
use std::io::Write;

/// Writes the headings, or the line of a refusal.
pub fn show_headings<W: Write>(out: &mut Watched<W>, found: &Judged) -> Result<Outcome, ToolFault>
    ensures shows { Shows (headings_report_of found.now) (W.contents (inner_of out.old)) (W.contents (inner_of out.new)) result }
    ensures failed { has_failed out.new ≡ (has_failed out.old || is_write_fault result) }
{
    match found {
        Judged::Accepted(checked) => {
            write_headings(out, checked.script())?;
            Ok(Outcome::Good)
        }
        Judged::Refused(finding) => refuse(out, finding.refusal()),
    }
}

/// Finds the script of a text with its least headings, checked, or what refuses it whatever its headings say.
pub fn judge_headings(alloc: Global, plan: &Plan, text: &[u8]) -> Result<Judged, ToolFault>
    ensures report { FindsHeadings result (headings_report plan.now text.now) }
    ensures script { Accepts result plan.now (headed plan.now text.now) }
{
    match parse(alloc, text) {
        Ok(script) => find_headings(alloc, plan, script),
        Err(TextFault::OutOfMemory) => Err(ToolFault::Memory),
        Err(TextFault::Broken { case, spot }) => {
            let rule = case.rule();
            Ok(Judged::Refused(Finding::Text { rule, spot }))
        }
    }
}

/// The same of a script.
pub fn find_headings(alloc: Global, plan: &Plan, script: Script) -> Result<Judged, ToolFault>
    ensures report { FindsHeadings result (headings_told (headed_found (least plan.now script))) }
    ensures script { Accepts result plan.now (headed_found (least plan.now script)) }
{
    match least(alloc, script, plan) {
        Ok(checked) => Ok(Judged::Accepted(checked)),
        Err(LeastFault::OutOfMemory) => Err(ToolFault::Memory),
        Err(LeastFault::Link { rule, spot, case }) => {
            Ok(Judged::Refused(Finding::Link { rule, spot, case }))
        }
        Err(LeastFault::Check { rule, spot, case }) => {
            Ok(Judged::Refused(Finding::Check { rule, spot, case }))
        }
    }
}
