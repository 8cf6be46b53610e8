// What acceptance promises, each law as the contract of a function that does nothing.

ghost use Rattle.camac_rules.specs.Laws.{AcceptedAreFine, AcceptedProceduresAreFine, AcceptedAreWithin};

/// Each service of an accepted script is fine by its costs, whatever the branch is like and answers: each cycle is safe, each number that
/// an expression takes is from 0 to `u32::MAX`, loops end, and at each moment it has cost no more cycles, words and steps.
#[tactic(auto, using(crate::proofs::Accepted::accepted_fine))]
pub fn accepted_are_fine()
    ensures { AcceptedAreFine }
{}

/// Each procedure of an accepted script is fine by its heading, on all arguments in the ranges of its parameters, whatever the branch is
/// like, which of its crates are locked, and what it answers.
pub fn accepted_procedures_are_fine()
    ensures { AcceptedProceduresAreFine }
{}

/// The costs of each service of an accepted script are within its heading, and its event fits the plan's buffer.
#[tactic(auto, using(crate::proofs::Accepted::accepted_within))]
pub fn accepted_are_within()
    ensures { AcceptedAreWithin }
{}
