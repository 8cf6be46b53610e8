// The rules of acceptance.

/// A rule that a script must keep (own).
#[derive(Clone, Copy, Debug, PartialEq, Eq)]
pub enum CheckRule {
    /// E1: a station may not be installed.
    StationNotInstalled,
    /// E2: a command may not be declared.
    CommandNotDeclared,
    /// E3: the direction of the data does not fit the function.
    WrongDirection,
    /// E4: a value may be out of range.
    ValueOutOfRange,
    /// E5: a value may be too wide for the command.
    ValueTooWide,
    /// E6: a register may be unset.
    RegisterUnset,
    /// E7: the rule on the measure of a loop is broken.
    MeasureBroken,
    /// E8: a kept range may fail at entry.
    KeepFailsAtEntry,
    /// E9: a kept range may fail after a turn.
    KeepFailsAfterTurn,
    /// E10: there may be too many turns.
    TooManyTurns,
    /// E11: there may be more event words than annotated.
    TooManyWords,
    /// E12: there may be more cycles than annotated.
    TooManyCycles,
    /// E13: the crates of a scan may differ.
    ScanCratesDiffer,
    /// E14: a count may be above the length of its table.
    CountAboveTable,
    /// E15: a crate is unfit for the call.
    CrateUnfit,
    /// E16: a word may be above 24 bits.
    WordTooWide,
    /// E17: the variable of a loop is assigned.
    LoopVariableAssigned,
    /// E18: there may be too many steps.
    TooManySteps,
    /// E21: an argument may be out of its range.
    ArgumentOutOfRange,
}
