// The loop that feeds a run its answers.

ghost use Rattle.std.specs.Prelude.{◌≡◌, [], false};
ghost use Rattle.camac_model.specs.Behaviour.{stop_of};
ghost use Rattle.camac_machine.specs.Rest.{is_paused};
ghost use Rattle.camac_run.specs.Ends.{stop_in};
ghost use Rattle.camac_run.specs.Runner.{rest};
ghost use Rattle.camac_play.specs.Play.{FeedsIn, is_read_fault, is_write_fault};
ghost use Rattle.camac_play.specs.RunIo.{FailsBy};

use crate::ending::Ending;
use crate::fault::PlayFault;
use crate::next::next_answer;
use crate::run_io::RunIo;
use crate::telling::{Telling, ask, begin, count_after, keep_called, tell, tell_left, write_event};
use camac_answer::Given;
use camac_rules::Checked;
use camac_run::{End, FullRunner, Used};

/// Gives the run all answers that it takes, and leaves the service in progress at a line `abandon`. What it wants is asked for before an answer is
/// read, and what an answer did is given before the next one. The event file of a live run is begun at first, that of a listing once the first answer is good or there is none. Returns how
/// the run ends, and how many events it left.
pub fn feed<I: RunIo>(
    telling: Telling,
    checked: &Checked,
    io: &mut I,
) -> Result<(Ending, u32), PlayFault>
    ensures feeds { FeedsIn telling checked.now.plan checked.now.script (I.state io.old) (I.state io.new) result }
    ensures fails { FailsBy (I.state io.old) (I.state io.new) (is_write_fault result) (is_read_fault result) }
{
    let limit = telling.most_answers();
    checked.fits_greatest();
    let mut runner = FullRunner::start(checked);
    let mut used = Used::new();
    let mut given = 0;
    let mut count = 0;
    let mut called = None;
    begin(telling.begins_first(), io)?;
    'answers: loop {
        let inside = runner.in_service();
        ask(telling, &runner, io)?;
        let read = next_answer(io, given, limit, inside)?;
        let next = match read {
            Ok(next) => next,
            Err(fault) => return Ok((Ending::Refused(fault), count)),
        };
        begin(telling.begins_after(given), io)?;
        let Some(line) = next else {
            return Ok((Ending::End(end_of(&runner)), count));
        };
        given += 1;
        match line {
            Given::Answer(answer) => match runner.advance(answer, &mut used) {
                None => {
                    tell(telling, checked, &used.item, &used.unlocks, io)?;
                    write_event(io, &used.event, &runner)?;
                    count = count_after(&used.event, count);
                    keep_called(&mut called, &used.item);
                }
                Some(overrun) => return Ok((Ending::End(End::Overrun(overrun)), count)),
            },
            Given::Abandon => {
                runner.abandon();
                tell_left(telling, checked, &called, io)?;
            }
        }
    }
}

// How a run ends where no answer is left.
fn end_of(runner: &FullRunner<'_>) -> End
    requires { is_paused runner.now.pending ≡ false }
    ensures { stop_in result ≡ stop_of (rest runner.now []) }
{
    if runner.in_service() {
        End::Short
    } else {
        End::Ended
    }
}
