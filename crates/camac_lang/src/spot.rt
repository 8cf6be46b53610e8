// Where something stands in a script.

/// Where something stands in a script's text: the place of its first token (own).
#[derive(Clone, Copy, Debug, PartialEq, Eq)]
pub struct Spot {
    /// The line, from 1.
    pub line: u32,
    /// How many bytes of the text stand from there on.
    pub left: usize,
}
