// Leaves a service before its end.

ghost use Rattle.std.specs.Prelude.{◌≡◌, ℕ, ◌++◌, ◌∷◌, [], length, false};
ghost use Rattle.camac_branch.specs.Crates.{branch_of};
ghost use Rattle.camac_lang.specs.Tree.{done};
ghost use Rattle.camac_machine.specs.MachineState.{owner_in, opens_in, HasRoomFor, HasRoom};
ghost use Rattle.camac_run.specs.Locks.{lock_of, locks_in};

use camac_branch::{Branch, unlock};
use camac_machine::{Machine, Owner};
use camac_word::CrateNo;

// Leaves a block before its end: releases its lock, or sees what its caller sees.
fn leave_block<'a, const V: usize, const DEPTH: usize, const CAP: usize>(
    machine: &mut Machine<'a, V, DEPTH, CAP>,
    owner: &Owner<'a>,
)
    requires room { HasRoomFor machine.old (opens_in machine.old ++ record { block = done; owner = owner_in machine.old owner.now } ∷ []) }
    ensures room { HasRoom machine.new }
    ensures told { machine.new.unlocks.items ≡ machine.old.unlocks.items ++ lock_of (owner_in machine.old owner.now) }
    ensures same { machine.new ≡ record machine.old { scope = machine.new.scope; branch = machine.new.branch; unlocks = machine.new.unlocks } }
{
    match owner {
        Owner::Locked(crate_no) => match CrateNo::new(*crate_no) {
            Some(crate_no) => {
                unlock(&mut machine.branch, crate_no);
                machine.unlocks.push(crate_no);
            }
            None => unreachable!(),
        },
        Owner::Return(caller) => machine.scope = *caller,
        Owner::Plain => {}
        Owner::For { .. } => {}
        Owner::While { .. } => {}
    }
}

/// Leaves the service in progress. The locks of its open blocks are released, the last one first. After that the crates are these, of which none is
/// locked.
pub fn leave_service<const V: usize, const DEPTH: usize, const CAP: usize>(
    machine: &mut Machine<'_, V, DEPTH, CAP>,
    branch: Branch,
)
    requires room { HasRoom machine.old }
    requires quiet { machine.old.unlocks.items ≡ [] }
    requires free { (c : ℕ) → (branch_of branch c).locked ≡ false }
    ensures room { HasRoom machine.new }
    ensures idle { machine.new.frames.items ≡ [] }
    ensures checked { machine.new.checked ≡ machine.old.checked }
    ensures branch { machine.new.branch ≡ branch }
    ensures released { machine.new.unlocks.items ≡ locks_in (opens_in machine.old) }
{
    while let Some(frame) = machine.frames.pop() {
        leave_block(machine, &frame.owner);
    }
    machine.branch = branch;
}
