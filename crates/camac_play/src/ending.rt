// How a run comes to its last line.

use camac_answer::AnswerFault;
use camac_run::End;

/// How a run comes to its last line (own).
#[derive(Clone, Copy, Debug, PartialEq, Eq)]
pub enum Ending {
    /// The answers were used up, or a wait was not permitted.
    End(End),
    /// The answer that it needs is not given: its line breaks a rule.
    Refused(AnswerFault),
}
