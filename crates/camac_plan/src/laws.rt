// A law of the cases of a refused plan, as the contract of a function that does nothing.

ghost use Rattle.camac_plan.specs.Twice.{TwiceAreShown};

/// Where a value stands twice (P5, P6, P9, and P8 of a name), the case shows the table that is refused, the key, and the first table that has
/// the value at that key. It stands before the other one.
#[tactic(auto, using(crate::proofs::Twice::twice_are_shown))]
pub fn twice_are_shown()
    ensures { TwiceAreShown }
{}
