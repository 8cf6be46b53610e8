// Where a plan comes from, and what it says.

ghost use Rattle.std.specs.Prelude.{◌≡◌, ◌||◌};
ghost use Rattle.camac_engines.specs.Plan.{JudgesPlan, ReadsPlan, plan_failed};
ghost use Rattle.camac_engines.specs.Reading.{is_read_fault};

use crate::fault::ToolFault;
use crate::reading::{TEXT_LIMIT, read_whole};
use crate::sample::sample_plan;
use camac_answer::TextReader;
use camac_branch::Plan;
use camac_plan::{PlanCase, PlanFault, PlanRule, read};
use std::alloc::Global;

/// Where a plan comes from.
#[derive(Drop)]
pub enum PlanSource<R> {
    /// The sample plan.
    Sample,
    /// The text that a reader has, as TOML.
    Text(R),
}

/// The first rule that a plan's text breaks, and its case.
#[derive(Clone, Copy, Debug)]
pub struct PlanRefusal {
    pub rule: PlanRule,
    pub case: PlanCase,
}

/// What a source says, with its text. The sample plan has none.
#[derive(Drop)]
pub struct PlanRead {
    pub text: Vec<u8>,
    pub says: Result<Plan, PlanRefusal>,
}

/// The plan of a source with its text, or the first rule that this breaks, with its case.
pub fn read_plan<R: TextReader>(
    alloc: Global,
    source: &mut PlanSource<R>,
) -> Result<PlanRead, ToolFault>
    ensures reads { ReadsPlan R.remaining source.old source.new result }
    ensures failed { plan_failed R.failed source.new ≡ (plan_failed R.failed source.old || is_read_fault result) }
{
    match source {
        PlanSource::Sample => Ok(PlanRead {
            text: Vec::new(alloc),
            says: Ok(sample_plan(alloc)?),
        }),
        PlanSource::Text(reader) => {
            let text = read_whole(alloc, reader, TEXT_LIMIT)?;
            let says = judge_plan(alloc, text.as_slice())?;
            Ok(PlanRead { text, says })
        }
    }
}

fn judge_plan(alloc: Global, text: &[u8]) -> Result<Result<Plan, PlanRefusal>, ToolFault>
    ensures { JudgesPlan result text.now }
{
    match read(alloc, text) {
        Ok(plan) => Ok(Ok(plan)),
        Err(PlanFault::Broken { rule, case }) => Ok(Err(PlanRefusal { rule, case })),
        Err(PlanFault::OutOfMemory) => Err(ToolFault::Memory),
    }
}
