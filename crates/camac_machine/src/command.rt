// Commands at the addresses that scripts ask for.

ghost use Rattle.std.specs.Prelude.{◌≡◌};
ghost use Rattle.camac_esone.specs.Calls.{IsOnBranch, command_at};

use camac_branch::Command;
use camac_esone::Address;
use camac_func::DataMove;
use camac_word::{CrateNo, Function, Station, SubAddress};

/// The command that moves this at an address.
pub fn command(at: Address, f: Function, mv: DataMove) -> Command
    requires { IsOnBranch at }
    ensures { result ≡ command_at at f mv }
{
    match (
        CrateNo::new(at.c),
        Station::new(at.n),
        SubAddress::new(at.a),
    ) {
        (Some(c), Some(n), Some(a)) => Command { c, n, a, f, mv },
        _ => unreachable!(),
    }
}
