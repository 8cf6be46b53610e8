// Why a line is no answer.

/// A rule of answer texts (own).
#[derive(Clone, Copy, Debug, PartialEq, Eq)]
pub enum AnswerRule {
    /// A1: a line has not 19 bytes, or no space between its fields.
    LineShape,
    /// A2: a byte is no digit of its field.
    BadDigit,
    /// A4: the line is one more than may come.
    TooMany,
}

/// The first rule that a line breaks, and its number from 1.
#[derive(Clone, Copy, Debug, PartialEq, Eq)]
pub struct AnswerFault {
    pub rule: AnswerRule,
    pub line: u64,
}
