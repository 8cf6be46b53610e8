//! What holds of the places that are found, as contracts of functions that do nothing.

ghost use Rattle.camac_check_costs.specs.Places.{PlacesAreFound, PlacesAreReached, TurnsAreCovered, TurnsAreTold};

/// The place that is found is one to which the checker comes while it judges the body, with what it knows there, and the statement there begins at that
/// byte. In an `each` it is the place in one turn.
pub fn places_are_found()
    ensures { PlacesAreFound }
{}

/// Where the checker comes to the one statement that begins at a byte, something is told that holds there, or an earlier refusal.
pub fn places_are_reached()
    ensures { PlacesAreReached }
{}

/// What is told over several turns of an `each` is put together from places to which the checker comes.
#[tactic(auto, using(crate::proofs::PlaceLaws::turns_are_told))]
pub fn turns_are_told()
    ensures { TurnsAreTold }
{}

/// What is told over all turns of an `each` holds in each of them.
#[tactic(auto, using(crate::proofs::PlaceTurns::turns_are_covered))]
pub fn turns_are_covered()
    ensures { TurnsAreCovered }
{}
