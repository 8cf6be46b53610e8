// The next line of answers.

ghost use Rattle.std.specs.Prelude.{◌≡◌, ◌<◌, ◌+◌, true, IfOk, IsSome};
ghost use Rattle.camac_answer.specs.Answers.{left_in, window, IsOpen};
ghost use Rattle.camac_play.specs.Play.{heard, IsHeard, is_read_fault, is_write_fault};
ghost use Rattle.camac_play.specs.RunIo.{OnlyReads};

use crate::fault::PlayFault;
use crate::run_io::RunIo;
use camac_answer::{AnswerFault, AnswerRule, Given, LINE, judge, judged_by};

/// What the line after so many gives, or none at the end, or its fault. The line `abandon` is one in a service alone. A write fault is one in handing on, and then nothing was read.
pub fn next_answer<I: RunIo>(
    io: &mut I,
    given: u32,
    limit: u32,
    in_service: bool,
) -> Result<Result<Option<Given>, AnswerFault>, PlayFault>
    ensures next { IfOk result (λ r. IsHeard in_service given (left_in limit given (I.state io.old).remaining) r (left_in limit (given + 1) (I.state io.new).remaining)) }
    ensures few { IfOk result (λ r. IfOk r (λ g. IsSome g → given < limit)) }
    ensures open { is_read_fault result ≡ true → IsOpen (window limit given) (I.state io.old).remaining (I.state io.new).remaining }
    ensures unread { is_write_fault result ≡ true → (I.state io.new).remaining ≡ (I.state io.old).remaining }
    ensures holding { is_write_fault result ≡ true → (I.state io.old).gathers ≡ true }
    ensures only { OnlyReads (I.state io.old) (I.state io.new) (is_write_fault result) (is_read_fault result) }
{
    let mut room = [0; LINE];
    let line = &mut room[..judged_by(given, limit)];
    let len = io.read_line(line)?;
    let read = heard(in_service, given, judge(given, limit, &line[..len]));
    show_refused(io, &read, &line[..len]);
    Ok(read)
}

// What a run hears that is in a service or not.
#[inline(always)]
fn heard(
    in_service: bool,
    given: u32,
    read: Result<Option<Given>, AnswerFault>,
) -> Result<Option<Given>, AnswerFault>
    ensures { result ≡ heard in_service given read }
{
    if let Ok(Some(Given::Abandon)) = read {
        if !in_service {
            return Err(AnswerFault {
                rule: AnswerRule::LineShape,
                line: u64::from(given) + 1,
            });
        }
    }
    read
}

// Of a line that is one too many not all was read.
fn show_refused<I: RunIo>(io: &mut I, read: &Result<Option<Given>, AnswerFault>, line: &[u8])
    ensures { I.state io.new ≡ I.state io.old }
{
    if let Err(fault) = read {
        if fault.rule != AnswerRule::TooMany {
            io.see_refused(line);
        }
    }
}
