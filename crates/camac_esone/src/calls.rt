// The commands of crate calls and LAM calls.

ghost use Rattle.std.specs.Prelude.{◌≡◌, ◌<◌};
ghost use Rattle.camac_esone.specs.Calls.{crate_address, crate_function, lam_function, IsOnBranch, command_at};

use crate::address::Address;
use camac_branch::Command;
use camac_func::DataMove;
use camac_lang::{CrateCall, LamCall};
use camac_word::{CrateNo, Function, Station, SubAddress};

/// The command of a crate call (own; ESONE's CCCZ, CCCC, CCCI, CTCI, CCCD, CTCD, CTGL).
pub fn crate_call(call: CrateCall, c: CrateNo) -> Command
    ensures { result ≡ command_at (crate_address call c) (crate_function call) DataMove.None }
{
    let (n, a, f) = match call {
        CrateCall::Initialise => (28, 8, 26),
        CrateCall::Clear => (28, 9, 26),
        CrateCall::InhibitOn => (30, 9, 26),
        CrateCall::InhibitOff => (30, 9, 24),
        CrateCall::TestInhibit => (30, 9, 27),
        CrateCall::DemandOn => (30, 10, 26),
        CrateCall::DemandOff => (30, 10, 24),
        CrateCall::TestDemandOutput => (30, 10, 27),
        CrateCall::TestDemand => (30, 11, 27),
    };
    command(Address { c: c.get(), n, a }, f)
}

/// The command of a LAM call, at the LAM's address (ESONE's CCLM, CCLC, CTLM).
pub fn lam_call(call: LamCall, at: Address) -> Command
    requires { IsOnBranch at }
    ensures { result ≡ command_at at (lam_function call) DataMove.None }
{
    command(at, lam_function(call).get())
}

/// The function of a LAM call: F26 enables, F24 disables, F10 clears, F8 tests (EUR 4100, IEEE 583).
pub fn lam_function(call: LamCall) -> Function
    ensures { result ≡ lam_function call }
{
    let function = match call {
        LamCall::Enable => 26,
        LamCall::Disable => 24,
        LamCall::Clear => 10,
        LamCall::Test => 8,
    };
    match Function::new(function) {
        Some(function) => function,
        None => unreachable!(),
    }
}

// A command that moves no data.
fn command(at: Address, f: u32) -> Command
    requires on_branch { IsOnBranch at }
    requires function { f < 32 }
    ensures { result ≡ command_at at f DataMove.None }
{
    match (
        CrateNo::new(at.c),
        Station::new(at.n),
        SubAddress::new(at.a),
        Function::new(f),
    ) {
        (Some(c), Some(n), Some(a), Some(f)) => Command {
            c,
            n,
            a,
            f,
            mv: DataMove::None,
        },
        _ => unreachable!(),
    }
}
