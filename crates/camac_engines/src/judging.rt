// The judgement on a plan and a script: the script's text, then its links to the plan, then the checker's rules.

ghost use Rattle.std.specs.Prelude.{◌≡◌, ◌||◌, IfOk, IfErr};
ghost use Rattle.camac_names.specs.Link.{link_fault};
ghost use Rattle.camac_rules.specs.Accept.{accept};
ghost use Rattle.camac_engines.specs.Accepted.{Accepts, accepted, accepted_linked, accepted_checked};
ghost use Rattle.camac_engines.specs.Engine.{Judges};
ghost use Rattle.camac_engines.specs.Reading.{is_read_fault};
ghost use Rattle.camac_engines.specs.Found.{ReadsJudged};
ghost use Rattle.camac_engines.specs.Plan.{plan_failed};
ghost use Rattle.camac_engines.specs.Report.{report, report_linked, report_accepted};

use crate::fault::ToolFault;
use crate::plan::PlanSource;
use crate::texts::{Texts, read_texts};
use camac_answer::TextReader;
use camac_branch::Plan;
use camac_check::{CheckFault, Checked, check};
use camac_explain::Finding;
use camac_lang::Script;
use camac_names::{LinkFault, Linked, resolve};
use camac_text::{TextFault, parse};
use std::alloc::Global;

/// What is found of a script.
#[derive(Drop)]
pub enum Judged {
    Accepted(Checked),
    Refused(Finding),
}

/// Reads and judges a plan, and then a script for it.
pub fn read_judged<P: TextReader, S: TextReader>(
    alloc: Global,
    plan: &mut PlanSource<P>,
    script: &mut S,
) -> Result<Judged, ToolFault>
    ensures reads { ReadsJudged P.remaining plan.old plan.new (S.remaining script.old) (S.remaining script.new) result }
    ensures failed { (plan_failed P.failed plan.new || S.failed script.new) ≡ ((plan_failed P.failed plan.old || S.failed script.old) || is_read_fault result) }
{
    match read_texts(alloc, plan, script)? {
        Texts::Read(plan, script) => judge(alloc, &plan, &script),
        Texts::Refused(_, refusal) => Ok(Judged::Refused(Finding::Plan(refusal.rule))),
    }
}

/// Judges the text of a script for a plan.
pub fn judge(alloc: Global, plan: &Plan, text: &[u8]) -> Result<Judged, ToolFault>
    ensures report { Judges result (report plan.now text.now) }
    ensures script { Accepts result plan.now (accepted plan.now text.now) }
{
    match parse(alloc, text) {
        Ok(script) => judge_script(alloc, plan, script),
        Err(TextFault::OutOfMemory) => Err(ToolFault::Memory),
        Err(TextFault::Broken { case, spot }) => {
            let rule = case.rule();
            Ok(Judged::Refused(Finding::Text { rule, spot }))
        }
    }
}

/// Judges a script for a plan.
pub fn judge_script(alloc: Global, plan: &Plan, script: Script) -> Result<Judged, ToolFault>
    ensures report { Judges result (report_linked plan.now script (link_fault plan.now script)) }
    ensures script { Accepts result plan.now (accepted_linked plan.now script (link_fault plan.now script)) }
{
    match resolve(alloc, script, plan) {
        Ok(linked) => judge_linked(alloc, linked),
        Err(LinkFault::OutOfMemory) => Err(ToolFault::Memory),
        Err(LinkFault::Broken { rule, spot, case }) => {
            Ok(Judged::Refused(Finding::Link { rule, spot, case }))
        }
    }
}

fn judge_linked(alloc: Global, linked: Linked) -> Result<Judged, ToolFault>
    ensures report { Judges result (report_accepted linked.plan linked.script (accept linked.plan linked.script)) }
    ensures script { Accepts result linked.plan (accepted_checked linked.script (accept linked.plan linked.script)) }
{
    match check(alloc, linked) {
        Ok(checked) => Ok(Judged::Accepted(checked)),
        Err(CheckFault::OutOfMemory) => Err(ToolFault::Memory),
        Err(CheckFault::Broken { rule, spot, case }) => {
            Ok(Judged::Refused(Finding::Check { rule, spot, case }))
        }
    }
}
