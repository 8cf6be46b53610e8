// Where a run stands in its script.

/// A place in a script: a service, by its number from 0, and the line of a statement, from 1. In a procedure that a service calls, the
/// line is that of the procedure's statement.
#[derive(Clone, Copy, Debug, PartialEq, Eq)]
pub struct Place {
    pub service: usize,
    pub line: u32,
}
