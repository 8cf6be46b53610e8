// A run, from the text of its answers to what it tells and its event file.

ghost use Rattle.std.specs.Prelude.{◌≡◌, ◌<◌, ◌^◌, is_err, IfOk, IfErr};
ghost use Rattle.camac_play.specs.Headline.{KeepsHeadline};
ghost use Rattle.camac_play.specs.Play.{PlaysIn, left_of, is_read_fault, is_write_fault};
ghost use Rattle.camac_play.specs.RunIo.{FailsBy, OnlyLists};
ghost use Rattle.camac_play.specs.Told.{ending_text};
ghost use Rattle.camac_play.specs.declared.fault.PlayFault.TheVariants.{Write};
ghost use Rattle.camac_word.specs.Writing.{Writes};

use crate::ending::Ending;
use crate::fault::PlayFault;
use crate::feeding::feed;
use crate::run_io::RunIo;
use crate::telling::{Telling, close};
use camac_rules::Checked;
use camac_run::{requests_are_safe, runs_by_headline};

/// Runs a checked script on the answers of a text: by `telling`, a listing or requests are listed, and the event file is recorded. That of a
/// listing is begun only once the first answer is good, or the answers have ended. What an answer did is told before the next one is read, and
/// the last line at the end; of a live run each operation is asked for before its answer is read. A fault of the text counts only where the run needs that answer, and no answer is read beyond a wait that is not permitted. After
/// a write fault nothing more is told; after a read fault no last line is. Where the streams hold what they are given, that may fail to be
/// handed on before an answer is read.
pub fn play_over<I: RunIo>(
    telling: Telling,
    checked: &Checked,
    io: &mut I,
) -> Result<Ending, PlayFault>
    ensures plays { PlaysIn telling checked.now.plan checked.now.script (I.state io.old) (I.state io.new) result }
    ensures headline { KeepsHeadline telling checked.now.plan checked.now.script checked.now.bounds (left_of telling (I.state io.old)) (I.state io.old).recorded (I.state io.new).recorded result }
    ensures fails { FailsBy (I.state io.old) (I.state io.new) (is_write_fault result) (is_read_fault result) }
{
    runs_by_headline(checked);
    requests_are_safe(checked);
    play_on(telling, checked, io)
}

// The run and its last line.
fn play_on<I: RunIo>(telling: Telling, checked: &Checked, io: &mut I) -> Result<Ending, PlayFault>
    ensures plays { PlaysIn telling checked.now.plan checked.now.script (I.state io.old) (I.state io.new) result }
    ensures fails { FailsBy (I.state io.old) (I.state io.new) (is_write_fault result) (is_read_fault result) }
{
    let (ending, count) = feed(telling, checked, io)?;
    finish(io, ending, count)
}

// The last line.
fn finish<I: RunIo>(io: &mut I, ending: Ending, count: u32) -> Result<Ending, PlayFault>
    ensures value { IfOk result (λ e. e ≡ ending) }
    ensures text { Writes (I.state io.old).listed (I.state io.new).listed result (ending_text ending count) }
    ensures fault { IfErr result (λ f. f ≡ Write) }
    ensures few { count < 2 ^ 32 }
    ensures only { OnlyLists (I.state io.old) (I.state io.new) (is_err result) }
{
    close(io, &ending, count)?;
    Ok(ending)
}
