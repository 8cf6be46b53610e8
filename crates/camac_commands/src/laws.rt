//! What a service of an accepted script may do and surely does on the dataway, each law as the contract of a function that does nothing.

ghost use Rattle.camac_commands.specs.Commands.{CyclesAreListed};
ghost use Rattle.camac_commands.specs.Surely.{SureOnesAreMade};

/// A service of an accepted script makes only the commands of its list, whatever the branch is like and answers.
#[tactic(auto, using(crate::proofs::Services::cycles_are_listed))]
pub fn cycles_are_listed()
    ensures { CyclesAreListed }
{}

/// A service of an accepted script whose body surely makes a cycle of some kind has made one where it ends, whatever the branch is like and answers.
#[tactic(auto, using(crate::proofs::Services::sure_ones_are_made))]
pub fn sure_ones_are_made()
    ensures { SureOnesAreMade }
{}
