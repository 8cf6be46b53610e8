// What a line of an answer text gives.

use camac_branch::Answer;

/// What a line of an answer text gives (own).
#[derive(Clone, Copy, Debug, PartialEq, Eq)]
pub enum Given {
    /// An answer of the branch.
    Answer(Answer),
    /// The line `abandon`: the service in progress is left.
    Abandon,
}
