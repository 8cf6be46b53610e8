// A command that a service may make, by a statement of its text and the detail of that statement's row.

ghost use Rattle.std.specs.Prelude.{◌≡◌};
ghost use Rattle.camac_lang.specs.View.{action_of};
ghost use Rattle.camac_esone.specs.Calls.{command_at, crate_address, crate_function};
ghost use Rattle.camac_commands.specs.Commands.{as_list, called_at, made_alone, made_at, span, told_region};

use camac_branch::Command as BranchCommand;
use camac_check_known::Region;
use camac_check_rows::Detail;
use camac_esone::{crate_call, lam_function};
use camac_func::DataMove;
use camac_lang::{Action, CrateCall, Spot};
use camac_range::Range;
use camac_word::{CrateNo, Function};

/// A command that a service may make: its spot, its function, and the addresses at which it may be made.
#[derive(Clone, Copy)]
pub struct Command {
    pub spot: Spot,
    pub function: Function,
    pub region: Region,
}

/// The command of an action that calls no procedure, if it has one.
pub fn made_alone(action: &Action, detail: Detail) -> Option<Command>
    ensures { as_list result ≡ made_alone (action_of action.now) detail }
{
    match action {
        Action::Single(single) => made_at(single.spot, single.function, told_region(detail)),
        Action::Scan(scan) => made_at(scan.spot, scan.function, told_region(detail)),
        Action::QStop { transfer } | Action::QRepeat { transfer, .. } => {
            made_at(transfer.spot, transfer.function, told_region(detail))
        }
        Action::CrateCall(action) => {
            let function = called(action.call).f;
            made_at(action.spot, function, called_at(action.call, detail))
        }
        Action::LamCall(action) => {
            let function = lam_function(action.call);
            made_at(action.spot, function, told_region(detail))
        }
        Action::Assign(_) | Action::SetRegister(_) | Action::Put(_) | Action::Call(_) => None,
    }
}

fn made_at(spot: Spot, function: Function, region: Option<Region>) -> Option<Command>
    ensures { as_list result ≡ made_at spot function region }
{
    match region {
        Some(region) => Some(Command {
            spot,
            function,
            region,
        }),
        None => None,
    }
}

/// The addresses that a row tells: of a register or LAM, or those between two registers.
pub fn told_region(detail: Detail) -> Option<Region>
    ensures { result ≡ told_region detail }
{
    match detail {
        Detail::At(region) => Some(region),
        Detail::Between(first, last) => span(first, last),
        Detail::Nothing | Detail::Turns(_) | Detail::Crates(_) | Detail::Procedure(_) => None,
    }
}

fn span(first: Region, last: Region) -> Option<Region>
    ensures { result ≡ span first last }
{
    match Range::new(first.stations().lo(), last.stations().hi()) {
        Some(stations) => {
            let sub_addresses = Range::only(0).hull(Range::only(15));
            Some(Region::new(first.crates(), stations, sub_addresses))
        }
        None => None,
    }
}

// What a crate call sends, at crate 1.
fn called(call: CrateCall) -> BranchCommand
    ensures { result ≡ command_at (crate_address call 1) (crate_function call) DataMove.None }
{
    match CrateNo::new(1) {
        Some(one) => crate_call(call, one),
        None => unreachable!(),
    }
}

// Where it goes, at the crates that its row tells.
fn called_at(call: CrateCall, detail: Detail) -> Option<Region>
    ensures { result ≡ called_at call detail }
{
    let at_one = called(call);
    match detail {
        Detail::Crates(crates) => Some(Region::new(
            crates,
            Range::only(at_one.n.get()),
            Range::only(at_one.a.get()),
        )),
        Detail::Nothing | Detail::At(_) | Detail::Between(..) => None,
        Detail::Turns(_) | Detail::Procedure(_) => None,
    }
}
