// The engines of a run: from a plan, a script and answers to a listing or to requests, and to an event file.

ghost use Rattle.std.specs.Prelude.{◌≡◌, false, is_err};
ghost use Rattle.camac_tool_run.specs.Headline.{JudgedKeeps};
ghost use Rattle.camac_tool_run.specs.Run.{Runs, RunsJudged, RunsScript, outcome_of};
ghost use Rattle.camac_tool_run.specs.World.{streams, world};
ghost use Rattle.camac_engines.specs.Engine.{Shows, is_write_fault};
ghost use Rattle.camac_engines.specs.Reading.{is_read_fault};
ghost use Rattle.camac_engines.specs.Report.{refused};
ghost use Rattle.camac_engines.specs.declared.judging.Judged.TheVariants.{Accepted};
ghost use Rattle.camac_play.specs.RunIo.{FailsBy, OnlyLists, sent_in};

use camac_answer::TextReader;
use camac_engines::{Judged, Outcome, PlanSource, ToolFault, read_judged};
use camac_play::{Borrowed, Ending, PlayFault, RunIo, Telling, play_over};
use camac_report::{Refusal, refusal_line};
use camac_rules::Checked;
use camac_run::End;
use camac_word::Watched;
use std::alloc::Global;
use std::io::{Read, Write};

/// Runs a script on a plan and the text of its answers. The listing, or the line of the first refusal, is written to `out`, the event file
/// to `events`. The plan is read and judged first, then the script. Then the run begins, and what an answer did is written before the next
/// answer is read. A fault leaves nothing written, but for two. A fault of a writer leaves a prefix of what is sent to both, in one order.
/// A fault of the reader of the answers leaves what belongs to the answers before it. Where the plan or the script cannot be read, no
/// answer is.
pub fn engine_run<P: TextReader, S: TextReader, A: Read, L: Write, E: Write>(
    alloc: Global,
    plan: &mut PlanSource<P>,
    script: &mut S,
    answers: &mut Watched<A>,
    out: &mut Watched<L>,
    events: &mut Watched<E>,
) -> Result<Outcome, ToolFault>
    ensures { Runs (world P.remaining P.failed S.remaining S.failed plan.old script.old (streams A.remaining L.contents E.contents answers.old out.old events.old))
        (world P.remaining P.failed S.remaining S.failed plan.new script.new (streams A.remaining L.contents E.contents answers.new out.new events.new)) Telling.Listing result }
{
    let mut io = Borrowed {
        answers,
        out,
        events,
    };
    run_over(alloc, Telling::Listing, plan, script, &mut io)
}

/// Runs a script live, on a plan and the answers of a branch. The plan is read and judged first, then the script. Then each operation is
/// asked for on `requests` before its answer is read, and each lock that is released is told there. The event file goes to `events`. The
/// last line, or the line of the first refusal, goes to `requests`. A fault leaves nothing written, but for two. A fault of a writer
/// leaves a prefix of what the answers that were read call for, to both, in one order. A fault of the reader of the answers leaves all that
/// the answers before it call for, the open request too.
pub fn engine_drive<P: TextReader, S: TextReader, A: Read, L: Write, E: Write>(
    alloc: Global,
    plan: &mut PlanSource<P>,
    script: &mut S,
    answers: &mut Watched<A>,
    requests: &mut Watched<L>,
    events: &mut Watched<E>,
) -> Result<Outcome, ToolFault>
    ensures { Runs (world P.remaining P.failed S.remaining S.failed plan.old script.old (streams A.remaining L.contents E.contents answers.old requests.old events.old))
        (world P.remaining P.failed S.remaining S.failed plan.new script.new (streams A.remaining L.contents E.contents answers.new requests.new events.new)) Telling.Requests result }
{
    let mut io = Borrowed {
        answers,
        out: requests,
        events,
    };
    run_over(alloc, Telling::Requests, plan, script, &mut io)
}

/// Both engines over one value for the reader of the answers and both writers.
pub fn run_over<P: TextReader, S: TextReader, I: RunIo>(
    alloc: Global,
    telling: Telling,
    plan: &mut PlanSource<P>,
    script: &mut S,
    io: &mut I,
) -> Result<Outcome, ToolFault>
    ensures runs { Runs (world P.remaining P.failed S.remaining S.failed plan.old script.old (I.state io.old)) (world P.remaining P.failed S.remaining S.failed plan.new script.new (I.state io.new)) telling result }
    ensures gathers { (I.state io.new).gathers ≡ (I.state io.old).gathers }
    ensures same { (I.state io.new).names ≡ (I.state io.old).names }
{
    let judged = read_judged(alloc, plan, script)?;
    run_judged(telling, &judged, io)
}

fn run_judged<I: RunIo>(telling: Telling, judged: &Judged, io: &mut I) -> Result<Outcome, ToolFault>
    ensures runs { RunsJudged (I.state io.old).gathers telling judged.now (I.state io.old).remaining (I.state io.new).remaining (sent_in (I.state io.old)) (sent_in (I.state io.new)) result }
    ensures headline { JudgedKeeps telling judged.now (I.state io.old).remaining (I.state io.old).recorded (I.state io.new).recorded result }
    ensures fails { FailsBy (I.state io.old) (I.state io.new) (is_write_fault result) (is_read_fault result) }
{
    match judged {
        Judged::Accepted(checked) => run_checked(telling, checked, io),
        Judged::Refused(finding) => refuse(io, finding.refusal()),
    }
}

// Lists the line of a refusal. After a write fault a prefix of it was listed.
fn refuse<I: RunIo>(io: &mut I, refusal: Refusal) -> Result<Outcome, ToolFault>
    ensures shows { Shows (refused refusal) (I.state io.old).listed (I.state io.new).listed result }
    ensures only { OnlyLists (I.state io.old) (I.state io.new) (is_write_fault result) }
    ensures no_read { is_read_fault result ≡ false }
{
    io.list_line(&refusal_line(refusal))?;
    Ok(Outcome::Refused)
}

fn run_checked<I: RunIo>(
    telling: Telling,
    checked: &Checked,
    io: &mut I,
) -> Result<Outcome, ToolFault>
    ensures runs { RunsScript (I.state io.old).gathers telling checked.now.plan checked.now.script (I.state io.old).remaining (I.state io.new).remaining (sent_in (I.state io.old)) (sent_in (I.state io.new)) result }
    ensures headline { JudgedKeeps telling (Accepted checked.now) (I.state io.old).remaining (I.state io.old).recorded (I.state io.new).recorded result }
    ensures fails { FailsBy (I.state io.old) (I.state io.new) (is_write_fault result) (is_read_fault result) }
{
    checked.is_checked();
    match play_over(telling, checked, io) {
        Ok(ending) => Ok(outcome_of(ending)),
        Err(PlayFault::Read) => Err(ToolFault::Read),
        Err(PlayFault::Write) => Err(ToolFault::Write),
    }
}

// A wait that is not permitted and a fault of the answers refuse, the end of the answers does not.
fn outcome_of(ending: Ending) -> Outcome
    ensures { result ≡ outcome_of ending }
{
    match ending {
        Ending::End(End::Ended) => Outcome::Good,
        Ending::End(End::Short) => Outcome::Good,
        Ending::End(End::Overrun(_)) => Outcome::Refused,
        Ending::Refused(_) => Outcome::Refused,
    }
}
