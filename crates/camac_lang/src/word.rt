// The words of the language that a statement holds.

/// How many bits a single action moves: 24, or 16 for a short one.
#[derive(Clone, Copy, Debug, PartialEq, Eq)]
pub enum WordSize {
    /// `cfsa`: 24 bits.
    Full,
    /// `cssa`: 16 bits.
    Short,
}

/// A call of a crate's controller (ESONE names; the crate's commands are those of EUR 4100's crate controller).
#[derive(Clone, Copy, Debug, PartialEq, Eq)]
pub enum CrateCall {
    /// `cccz`: generate Z.
    Initialise,
    /// `cccc`: generate C.
    Clear,
    /// `ccci on`: set the inhibit I.
    InhibitOn,
    /// `ccci off`: remove I.
    InhibitOff,
    /// `ctci`: test I.
    TestInhibit,
    /// `cccd on`: enable the demand output.
    DemandOn,
    /// `cccd off`: disable the demand output.
    DemandOff,
    /// `ctcd`: test the demand output.
    TestDemandOutput,
    /// `ctgl`: test a present demand.
    TestDemand,
}

/// A call at a LAM's address (ESONE names).
#[derive(Clone, Copy, Debug, PartialEq, Eq)]
pub enum LamCall {
    /// `cclm on`: enable the LAM.
    Enable,
    /// `cclm off`: disable it.
    Disable,
    /// `cclc`: clear it.
    Clear,
    /// `ctlm`: test it.
    Test,
}
