// A run on the devices of the program: its answers, its output and the event file.

ghost use Rattle.std.specs.Prelude.{◌≡◌, ◌||◌, Bool, true};
ghost use Rattle.camac_engines.specs.Engine.{is_write_fault};
ghost use Rattle.camac_engines.specs.Plan.{plan_failed};
ghost use Rattle.camac_engines.specs.Reading.{is_read_fault};
ghost use Rattle.camac_tool.specs.Devices.{IsHandedOn, RunsOnDevices};
ghost use Rattle.camac_tool_host.specs.Streams.{answers_of, before, behind, have_stopped, run_state};
ghost use Rattle.camac_tool_run.specs.World.{world};

use camac_answer::TextReader;
use camac_engines::{Outcome, PlanSource, ToolFault};
use camac_play::Telling;
use camac_tool_host::{AnswerLine, Device, Streams};
use camac_tool_run::run_over;
use camac_word::WriteFault;
use std::alloc::Global;

/// How a run ended, the reader of its answers, its outputs, and the line of answers that was refused.
#[derive(Drop)]
pub struct Ran<A: Drop, W: Drop, E: Drop> {
    pub outcome: Result<Outcome, ToolFault>,
    pub answers: A,
    pub listing: W,
    pub records: E,
    pub refused: Option<AnswerLine>,
}

/// Runs a script on a plan and the text of its answers, as `engine_run` does. The answers are read ahead. The listing and the event file
/// are gathered: all that was given is handed on before the reader of the answers is called, and at the end. An output that fails, also
/// then, is a write fault, and no other fault is one. At a read fault a reader has failed.
pub fn run_on_devices<
    P: TextReader,
    S: TextReader,
    A: TextReader + Drop,
    W: Device + Drop,
    E: Device + Drop,
>(
    alloc: Global,
    plan: &mut PlanSource<P>,
    script: &mut S,
    answers: A,
    listing: W,
    records: E,
) -> Ran<A, W, E>
    ensures runs { RunsOnDevices (world P.remaining P.failed S.remaining S.failed plan.old script.old (before (A.remaining answers) (W.contents listing) (E.contents records) (A.failed answers) (W.failed listing || E.failed records)))
        (world P.remaining P.failed S.remaining S.failed plan.new script.new) (W.contents result.listing) (E.contents result.records) result.outcome }
    ensures failed { (W.failed result.listing || E.failed result.records) ≡ ((W.failed listing || E.failed records) || is_write_fault result.outcome) }
    ensures unread { is_read_fault result.outcome ≡ true → ((plan_failed P.failed plan.new || S.failed script.new) || A.failed result.answers) ≡ true }
{
    match Streams::new(alloc, answers, listing, records) {
        Ok(mut streams) => {
            let outcome = run_over(alloc, Telling::Listing, plan, script, &mut streams);
            finish(streams, outcome)
        }
        Err((answers, listing, records)) => Ran {
            outcome: Err(ToolFault::Memory),
            answers,
            listing,
            records,
            refused: None,
        },
    }
}

// Hands on all that was given at the end of a run, and returns its reader and both outputs. One of these that fails is a write fault.
fn finish<R: TextReader + Drop, W: Device + Drop, E: Device + Drop>(
    mut streams: Streams<R, W, E>,
    outcome: Result<Outcome, ToolFault>,
) -> Ran<R, W, E>
    ensures handed { IsHandedOn (run_state R.remaining R.failed W.contents W.failed E.contents E.failed streams) (W.contents result.listing) (E.contents result.records) outcome result.outcome }
    ensures failed { (had : Bool) → have_stopped W.failed E.failed streams ≡ (had || is_write_fault outcome)
        → (W.failed result.listing || E.failed result.records) ≡ (had || is_write_fault result.outcome) }
    ensures answers { result.answers ≡ behind (answers_of streams) }
    ensures read { is_read_fault result.outcome ≡ true → is_read_fault outcome ≡ true }
{
    let outcome = match streams.hand_on() {
        Ok(()) => outcome,
        Err(WriteFault) => Err(ToolFault::Write),
    };
    let (answers, listing, records, refused) = streams.into_parts();
    Ran {
        outcome,
        answers,
        listing,
        records,
        refused,
    }
}
