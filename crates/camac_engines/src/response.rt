// The engine of how long look-at-mes wait for their services.

ghost use Rattle.std.specs.Prelude.{◌≡◌, ◌||◌, length};
ghost use Rattle.camac_response.specs.Checked.{AreKept};
ghost use Rattle.camac_engines.specs.Engine.{is_write_fault};
ghost use Rattle.camac_engines.specs.Reading.{is_read_fault};
ghost use Rattle.camac_engines.specs.Plan.{plan_failed};
ghost use Rattle.camac_engines.specs.Response.{Responds, RespondsOn, SaysKept};
ghost use Rattle.camac_engines.specs.declared.judging.Judged.TheVariants.{Accepted};
ghost use Rattle.camac_word.specs.Watched.{inner_of, has_failed};

use crate::engine::refuse;
use crate::fault::ToolFault;
use crate::judging::{Judged, read_judged};
use crate::outcome::Outcome;
use crate::plan::PlanSource;
use camac_answer::TextReader;
use camac_check::Checked;
use camac_response::{
    Misuse, Responses, Settings, Unkept, are_kept, no_service, sources_of, twice_of, unkept_of,
    write_responses,
};
use camac_word::Watched;
use std::alloc::Global;
use std::io::Write;

/// What became of the words and of the inputs.
#[derive(Clone, Copy, Debug)]
pub enum Responded<'a> {
    /// The inputs were judged. They are refused, too, where the script does not do its part of the promise, or a service does not end within the
    /// number that is asked for.
    Told(Outcome),
    /// The words are wrong, and nothing was written.
    Misused(Misuse<'a>),
}

/// Finds how long look-at-mes wait for their services, at the settings of the words after `--every` and `--within`: for each service a line, in
/// the order of their bits, and for each thing that the script does not do, or the line of the first refusal, are written to `out`. The plan is read first, then the script. Nothing is
/// written before a fault but one of the writer, which leaves a prefix of the text.
pub fn engine_response<'a, P: TextReader, S: TextReader, W: Write>(
    alloc: Global,
    settings: &Settings<'a>,
    plan: &mut PlanSource<P>,
    script: &mut S,
    out: &mut Watched<W>,
) -> Result<Responded<'a>, ToolFault>
    ensures responds { Responds settings.now P.remaining plan.old plan.new (S.remaining script.old) (S.remaining script.new) (W.contents (inner_of out.old)) (W.contents (inner_of out.new)) result }
    ensures out_failed { has_failed out.new ≡ (has_failed out.old || is_write_fault result) }
    ensures in_failed { (plan_failed P.failed plan.new || S.failed script.new)
        ≡ ((plan_failed P.failed plan.old || S.failed script.old) || is_read_fault result) }
{
    let judged = read_judged(alloc, plan, script)?;
    respond(alloc, settings, &judged, out)
}

fn respond<'a, W: Write>(
    alloc: Global,
    settings: &Settings<'a>,
    judged: &Judged,
    out: &mut Watched<W>,
) -> Result<Responded<'a>, ToolFault>
    ensures responds { RespondsOn settings.now judged.now (W.contents (inner_of out.old)) (W.contents (inner_of out.new)) result }
    ensures failed { has_failed out.new ≡ (has_failed out.old || is_write_fault result) }
{
    match judged {
        Judged::Accepted(checked) => respond_to(alloc, settings, checked, out),
        Judged::Refused(finding) => Ok(Responded::Told(refuse(out, finding.refusal())?)),
    }
}

fn respond_to<'a, W: Write>(
    alloc: Global,
    settings: &Settings<'a>,
    checked: &Checked,
    out: &mut Watched<W>,
) -> Result<Responded<'a>, ToolFault>
    ensures responds { RespondsOn settings.now (Accepted checked.now) (W.contents (inner_of out.old)) (W.contents (inner_of out.new)) result }
    ensures failed { has_failed out.new ≡ (has_failed out.old || is_write_fault result) }
{
    if let Some(misuse) = no_service(checked, settings) {
        return Ok(Responded::Misused(misuse));
    }
    let sources = sources_of(alloc, checked, &settings.every)?;
    let unkept = unkept_of(alloc, checked, &sources)?;
    let twice = twice_of(alloc, checked)?;
    let responses = Responses::of(alloc, sources)?;
    let outcome = outcome_of(checked, &responses, &unkept, settings);
    write_responses(out, checked, &responses, &unkept, &twice, &settings.within)?;
    Ok(Responded::Told(outcome))
}

fn outcome_of(
    checked: &Checked,
    responses: &Responses,
    unkept: &[Unkept],
    settings: &Settings<'_>,
) -> Outcome
    requires { length responses.now ≡ length checked.now.script.services }
    ensures { SaysKept (AreKept checked.now.script settings.now.within.items unkept.now responses.now) result }
{
    if are_kept(checked, responses, unkept, &settings.within) {
        Outcome::Good
    } else {
        Outcome::Refused
    }
}
