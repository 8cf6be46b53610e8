// A law of what is told at once, as the contract of a function that does nothing.

ghost use Rattle.camac_engines.specs.Tell.{TellEndsAsCheck};

/// `tell` accepts what `check` accepts, and refuses what that refuses.
#[tactic(auto, using(crate::proofs::Told::tell_ends_as_check))]
pub fn tell_ends_as_check()
    ensures { TellEndsAsCheck }
{}
