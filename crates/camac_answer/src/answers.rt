// A line of an answer text, judged where it was read.

ghost use Rattle.std.specs.Prelude.{◌≡◌, ◌<◌, IsSome, IfOk};
ghost use Rattle.camac_answer.specs.Answers.{AnswersAreFew, next_answer, window};

use crate::fault::{AnswerFault, AnswerRule};
use crate::filling::LINE;
use crate::given::Given;
use crate::line::first_given;

/// How many lines an answer file may have (own).
pub const FILE_ANSWERS: u32 = 1_000_000;

/// How many lines the answers of a live run may have, whose events are numbered in 32 bits (own).
pub const LIVE_ANSWERS: u32 = u32::MAX;

/// The result of the first line of these bytes, after so many lines of those that may come.
#[inline(always)]
pub fn judge(given: u32, limit: u32, bytes: &[u8]) -> Result<Option<Given>, AnswerFault>
    ensures value { result ≡ next_answer limit given bytes.now }
    ensures few { IfOk result (λ g. IsSome g → given < limit) }
{
    if bytes.is_empty() {
        return Ok(None);
    }
    if given >= limit {
        return Err(AnswerFault {
            rule: AnswerRule::TooMany,
            line: u64::from(limit) + 1,
        });
    }
    match first_given(bytes) {
        Ok(found) => Ok(Some(found)),
        Err(rule) => Err(AnswerFault {
            rule,
            line: u64::from(given) + 1,
        }),
    }
}

/// How many bytes judge a line after so many others: the first byte of one that is too many.
pub fn judged_by(given: u32, limit: u32) -> usize
    ensures { result ≡ window limit given }
{
    if given < limit { LINE } else { 1 }
}

/// The law that a text gives no more than it may have lines.
#[tactic(auto, using(crate::proofs::Readings::few))]
pub fn answers_are_few()
    ensures { AnswersAreFew }
{}
