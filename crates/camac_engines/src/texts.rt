// A plan, and the script that is read for it.

ghost use Rattle.std.specs.Prelude.{◌≡◌, ◌||◌};
ghost use Rattle.camac_engines.specs.Found.{ReadsTexts};
ghost use Rattle.camac_engines.specs.Plan.{plan_failed};
ghost use Rattle.camac_engines.specs.Reading.{is_read_fault};

use crate::fault::ToolFault;
use crate::plan::{PlanRead, PlanRefusal, PlanSource, read_plan};
use crate::reading::{TEXT_LIMIT, read_whole};
use camac_answer::TextReader;
use camac_branch::Plan;
use std::alloc::Global;

/// A plan and the text of a script; or the text of a plan that is refused, where no script is read.
#[derive(Drop)]
pub enum Texts {
    Read(Plan, Vec<u8>),
    Refused(Vec<u8>, PlanRefusal),
}

/// Reads a plan, and then the text of a script.
pub fn read_texts<P: TextReader, S: TextReader>(
    alloc: Global,
    plan: &mut PlanSource<P>,
    script: &mut S,
) -> Result<Texts, ToolFault>
    ensures reads { ReadsTexts P.remaining plan.old plan.new (S.remaining script.old) (S.remaining script.new) result }
    ensures failed { (plan_failed P.failed plan.new || S.failed script.new) ≡ ((plan_failed P.failed plan.old || S.failed script.old) || is_read_fault result) }
{
    let PlanRead { text, says } = read_plan(alloc, plan)?;
    match says {
        Ok(plan) => Ok(Texts::Read(plan, read_whole(alloc, script, TEXT_LIMIT)?)),
        Err(refusal) => Ok(Texts::Refused(text, refusal)),
    }
}
