// How a run tells what it does, and what is written at an answer and at the end.

ghost use Rattle.std.specs.Prelude.{◌≡◌, ◌≤◌, ◌<◌, ◌^◌, ◌++◌, [], length, is_err, IfSome, IfNone, None, false};
ghost use Rattle.camac_event.specs.Spelling.{header};
ghost use Rattle.camac_event.specs.declared.event.Version.TheVariants.{Two};
ghost use Rattle.camac_report.specs.Items.{unlock_texts};
ghost use Rattle.camac_machine.specs.MachineState.{piece_of};
ghost use Rattle.camac_machine.specs.Rest.{is_paused};
ghost use Rattle.camac_run.specs.Runner.{last_words_in};
ghost use Rattle.camac_play.specs.RunIo.{OnlyLists, OnlyRecords};
ghost use Rattle.camac_play.specs.Told.{most_answers, is_begun, begins_after, if_begun, item_line, called_after, left_line, ending_text, Asks, event_record};
ghost use Rattle.camac_word.specs.Writing.{Writes};

use crate::ending::Ending;
use crate::run_io::RunIo;
use camac_answer::{FILE_ANSWERS, LIVE_ANSWERS};
use camac_event::Usage;
use camac_report::{Refusal, abandoned_line, end_line, refusal_line, request_line, unlocks_line};
use camac_rules::Checked;
use camac_run::{FullRunner, Item};
use camac_word::{CrateNo, GlBit, WriteFault};

/// How a run tells what it does (own).
#[derive(Clone, Copy, Debug, PartialEq, Eq)]
pub enum Telling {
    /// By a listing: after an answer a line of what it was used for.
    Listing,
    /// By requests: before an answer a line of what it is wanted for.
    Requests,
}

impl Telling {
    /// How many lines of answers a run takes at most: those of an answer file, or of a live run.
    pub fn most_answers(self) -> u32
        ensures { result ≡ most_answers self }
    {
        match self {
            Telling::Listing => FILE_ANSWERS,
            Telling::Requests => LIVE_ANSWERS,
        }
    }

    /// Whether the event file is begun before the first operation.
    pub fn begins_first(self) -> bool
        ensures { result ≡ is_begun self [] false }
    {
        match self {
            Telling::Listing => false,
            Telling::Requests => true,
        }
    }

    /// Whether it is begun where so many lines were given and the next one is good or there is none.
    pub fn begins_after(self, given: u32) -> bool
        ensures { result ≡ begins_after self given }
    {
        match self {
            Telling::Listing => given == 0,
            Telling::Requests => false,
        }
    }
}

/// An event that a service left: its number, its bit and its usage.
pub type Left = (u32, GlBit, Usage);

/// Begins the event file, where that is due.
pub fn begin<I: RunIo>(is_due: bool, io: &mut I) -> Result<(), WriteFault>
    ensures text { Writes (I.state io.old).recorded (I.state io.new).recorded result (if_begun is_due (header Two)) }
    ensures only { OnlyRecords (I.state io.old) (I.state io.new) (is_err result) }
{
    if is_due { io.record_header() } else { Ok(()) }
}

/// Asks for the operation that a run wants. A listing asks for nothing.
pub fn ask<I: RunIo>(
    telling: Telling,
    runner: &FullRunner<'_>,
    io: &mut I,
) -> Result<(), WriteFault>
    requires first { runner.now.overrun ≡ None }
    requires awake { is_paused runner.now.pending ≡ false }
    ensures asks { Asks telling runner.now (I.state io.old).listed (I.state io.new).listed result }
    ensures only { OnlyLists (I.state io.old) (I.state io.new) (is_err result) }
{
    match telling {
        Telling::Listing => {
            runner.is_waiting();
            Ok(())
        }
        Telling::Requests => match runner.wants() {
            Some(wanted) => io.list_line(&request_line(wanted)),
            None => unreachable!(),
        },
    }
}

/// Writes what an answer did: in a listing what it was used for, and a line for each lock that was released.
pub fn tell<I: RunIo>(
    telling: Telling,
    checked: &Checked,
    item: &Item,
    unlocks: &[CrateNo],
    io: &mut I,
) -> Result<(), WriteFault>
    requires few { length unlocks.now ≤ 7 }
    ensures text { Writes (I.state io.old).listed (I.state io.new).listed result
        (item_line telling checked.now.script (piece_of item.now) ++ unlock_texts unlocks.now) }
    ensures only { OnlyLists (I.state io.old) (I.state io.new) (is_err result) }
{
    match telling {
        Telling::Listing => io.list_items(checked, item, unlocks),
        Telling::Requests => io.list_line(&unlocks_line(unlocks)),
    }
}

/// Keeps the service that is called, after an item.
#[inline(always)]
pub fn keep_called(called: &mut Option<usize>, item: &Item)
    ensures { called.new ≡ called_after called.old (piece_of item.now) }
{
    match item {
        Item::Demand(_, service) => *called = *service,
        Item::Cycle(_) => (),
        Item::Lock(_, _) => (),
        Item::Unlock(_) => (),
    }
}

/// Writes that this service is left: in a listing a line. It is no part of the loop, which would have the place of the service's name at hand for each answer.
#[inline(never)]
pub fn tell_left<I: RunIo>(
    telling: Telling,
    checked: &Checked,
    called: &Option<usize>,
    io: &mut I,
) -> Result<(), WriteFault>
    ensures text { Writes (I.state io.old).listed (I.state io.new).listed result (left_line telling checked.now.script called.now) }
    ensures only { OnlyLists (I.state io.old) (I.state io.new) (is_err result) }
{
    match telling {
        Telling::Listing => io.list_line(&abandoned_line(checked.script(), *called)),
        Telling::Requests => Ok(()),
    }
}

/// Writes the record of the event that a service left, where one was left. Its words are looked for only then.
pub fn write_event<I: RunIo>(
    io: &mut I,
    event: &Option<Left>,
    runner: &FullRunner<'_>,
) -> Result<(), WriteFault>
    requires usage { IfSome event.now (λ e. e.2.missed ≤ e.2.cycles) }
    ensures text { Writes (I.state io.old).recorded (I.state io.new).recorded result (event_record event.now (last_words_in runner.now)) }
    ensures only { OnlyRecords (I.state io.old) (I.state io.new) (is_err result) }
{
    match event {
        Some((number, bit, usage)) => io.record_event(*number, *bit, *usage, runner.last_words()),
        None => Ok(()),
    }
}

/// How many events there are after an answer, where so many were before it.
pub fn count_after(event: &Option<Left>, count: u32) -> u32
    ensures same { IfNone event.now (result ≡ count) }
    ensures next { IfSome event.now (λ e. result ≡ e.0) }
    ensures fits { result < 2 ^ 32 }
{
    match event {
        Some((number, _, _)) => *number,
        None => count,
    }
}

/// Writes the last line, after so many events.
pub fn close<I: RunIo>(io: &mut I, ending: &Ending, events: u32) -> Result<(), WriteFault>
    ensures text { Writes (I.state io.old).listed (I.state io.new).listed result (ending_text ending.now events) }
    ensures only { OnlyLists (I.state io.old) (I.state io.new) (is_err result) }
{
    match ending {
        Ending::End(end) => io.list_line(&end_line(*end, events)),
        Ending::Refused(fault) => io.list_line(&refusal_line(Refusal::Answer {
            rule: fault.rule,
            line: fault.line,
        })),
    }
}
