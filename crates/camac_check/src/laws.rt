// A law of all that is refused, as the contract of a function that does nothing.

ghost use Rattle.camac_check.specs.Refusals.{FirstIsRefusal};

/// The first of all refusals is the one that `check` tells, and there is none exactly if it accepts.
#[tactic(auto, using(crate::proofs::Judged::first_is_refusal))]
pub fn first_is_refusal()
    ensures { FirstIsRefusal }
{}
