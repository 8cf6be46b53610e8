// The commands of a crate controller.

ghost use Rattle.std.specs.Prelude.{◌≡◌};
ghost use Rattle.camac_crate.specs.Controller.{controller as command_at};

use camac_word::{Function, Station, SubAddress};

/// A command of the crate controller (own, after type A1 of EUR 4600).
#[derive(Clone, Copy, Debug, PartialEq, Eq)]
pub enum ControllerOp {
    /// Generates the common control Z, which sets inhibit and disables the demand output: N28 A8 F26.
    Initialise,
    /// Generates the common control C: N28 A9 F26.
    Clear,
    /// Reads the graded-L pattern of the crate: N30 A0 F0.
    ReadGl,
    /// Removes inhibit: N30 A9 F24.
    InhibitOff,
    /// Sets inhibit: N30 A9 F26.
    InhibitOn,
    /// Tests inhibit: N30 A9 F27.
    TestInhibit,
    /// Disables the demand output: N30 A10 F24.
    DemandOff,
    /// Enables the demand output: N30 A10 F26.
    DemandOn,
    /// Tests whether the demand output is enabled: N30 A10 F27.
    TestDemandOutput,
    /// Tests whether a demand is present: N30 A11 F27.
    TestDemand,
}

// The command that a table has at a station, a sub-address and a function.
macro_rules! command_in {
    ($at:expr, $($station:literal $sub_address:literal $function:literal => $op:ident,)*) => {
        match $at {
            $(($station, $sub_address, $function) => Some(ControllerOp::$op),)*
            _ => None,
        }
    };
}

/// The controller command that a function makes at a station and sub-address (own, after type A1 of EUR 4600).
/// None for each command that is not in the controller's table.
pub fn controller(
    station: Station,
    sub_address: SubAddress,
    function: Function,
) -> Option<ControllerOp>
    ensures { result ≡ command_at station sub_address function }
{
    command_in!(
        (station.get(), sub_address.get(), function.get()),
        28 8 26 => Initialise,
        28 9 26 => Clear,
        30 0 0 => ReadGl,
        30 9 24 => InhibitOff,
        30 9 26 => InhibitOn,
        30 9 27 => TestInhibit,
        30 10 24 => DemandOff,
        30 10 26 => DemandOn,
        30 10 27 => TestDemandOutput,
        30 11 27 => TestDemand,
    )
}
