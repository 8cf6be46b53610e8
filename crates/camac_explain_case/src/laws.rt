//! What holds of the lines that are told beside a rule, as contracts of functions that do nothing.

ghost use Rattle.camac_explain_case.specs.Case.{SetsAreBefore, WaitsAreOfThePlan};

/// Auxiliary controllers are told of too many cycles only where a crate of the plan has waits.
#[tactic(auto, using(crate::proofs::Told::waits_are_of_the_plan))]
pub fn waits_are_of_the_plan()
    ensures { WaitsAreOfThePlan }
{}

/// The `cdreg` that is told is the last one of the register before the statement.
#[tactic(auto, using(crate::proofs::Told::sets_are_before))]
pub fn sets_are_before()
    ensures { SetsAreBefore }
{}
