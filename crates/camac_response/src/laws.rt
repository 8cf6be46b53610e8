// Answers in time, each law as the contract of a function that does nothing.

ghost use Rattle.camac_response.specs.Checked.{CheckedRespond, Responds};
ghost use Rattle.camac_response.specs.Reach.{DecidedServe, HarmlessServe, ServicesServe};
ghost use Rattle.camac_response.specs.Laws.{AnswersInTime, LookAtMesAreAnswered, LowestAreCalled, StretchesEnd};

use camac_rules::Checked;

/// While the rates are kept, no stretch of a bit takes more cycles than any number that is enough for all that is wanted within it.
#[tactic(auto, using(crate::proofs::Answers::stretches_end))]
pub fn stretches_end()
    ensures { StretchesEnd }
{}

/// While the rates are kept, the n-th call of a service in a stretch of its bit comes, and its service has ended, within the cycles of the
/// response after n - 1 of its periods.
#[tactic(auto, using(crate::proofs::Answers::answers_in_time))]
pub fn answers_in_time()
    ensures { AnswersInTime }
{}

/// Each operation of a run calls the service of the lowest bit in its pattern that has one, or none where none has.
#[tactic(auto, using(crate::proofs::Lams::lowest_are_called))]
pub fn lowest_are_called()
    ensures { LowestAreCalled }
{}

/// Where services clear their own look-at-mes and hide none, and modules do what a user believes of them: a service is called, and has ended, within
/// the cycles of its response after its look-at-me was raised; and at each moment no look-at-me has waited longer.
#[tactic(auto, using(crate::proofs::Waits::look_at_mes_are_answered))]
pub fn look_at_mes_are_answered()
    ensures { LookAtMesAreAnswered }
{}

/// Where each service by itself clears its own look-at-me and no other, and hides none, all do so along every run.
#[tactic(auto, using(crate::proofs::Harmless::services_serve))]
pub fn services_serve()
    ensures { ServicesServe }
{}

/// A service that makes a cycle that clears its look-at-me, and whose cycles clear no other and hide none, does what is asked of it.
#[tactic(auto, using(crate::proofs::Harmless::harmless_serve))]
pub fn harmless_serve()
    ensures { HarmlessServe }
{}

/// Where each service makes only commands that clear no other look-at-me and hide none, and one that clears its own, services do what is asked of
/// them along every run.
#[tactic(auto, using(crate::proofs::Harmless::decided_serve))]
pub fn decided_serve()
    ensures { DecidedServe }
{}

/// All of this of every checked script.
#[tactic(auto, using(crate::proofs::Told::checked_respond))]
pub fn checked_respond()
    ensures { CheckedRespond }
{}

/// The same of this checked script, at all rates.
pub fn responds(checked: &Checked)
    ensures { Responds checked.now }
{
    checked.is_checked();
    checked.is_linked();
    checked.script().well_formed();
    checked.plan().is_plan();
}
