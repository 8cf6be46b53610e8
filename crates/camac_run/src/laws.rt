// Laws of every checked script: the headline, and what a runner holds and wants.

ghost use Rattle.std.specs.Prelude.{ℕ, List, Option};
ghost use Rattle.camac_run.specs.Abandoned.{AbandoningHolds};
ghost use Rattle.camac_run.specs.Ahead.{AheadIsMade, BeginningsAreAhead, FirstIsWanted};
ghost use Rattle.camac_run.specs.Back.{SettingBackHolds};
ghost use Rattle.camac_run.specs.Foreseen.{KnownIsSo, ValuesAreKnown};
ghost use Rattle.camac_run.specs.Holds.{AllIsTold, GoingOnHolds, ResumingHolds, WantsAreWanted};
ghost use Rattle.camac_run.specs.Headline.{RunsAlways, RunsByHeadline, LeavesFewEvents};
ghost use Rattle.camac_run.specs.Requested.{RequestsAreSafe};
ghost use Rattle.camac_run.specs.Transfer.{TransfersBegin, TransfersGoOn};
ghost use Rattle.camac_run.specs.Waits.{WaitsDecide};

use camac_rules::Checked;

/// The law that the headline is true of every run of this script (`always`), and of its event file where its events can be numbered. A run
/// leaves no more events than it has answers.
pub fn runs_by_headline(checked: &Checked)
    ensures always { RunsAlways checked.now.plan checked.now.script checked.now.bounds }
    ensures headline { RunsByHeadline checked.now.plan checked.now.script checked.now.bounds }
    ensures few { LeavesFewEvents checked.now.plan checked.now.script }
{
    checked.is_checked();
    checked.script().well_formed();
    checked.plan().is_plan();
}

/// The law that what a run of this script wants may be made, whatever was answered before, and whether or not an answer to it comes: each
/// command is safe, and each lock is of a crate of the plan that is not locked.
pub fn requests_are_safe(checked: &Checked)
    ensures { RequestsAreSafe checked.now.plan checked.now.script }
{
    checked.is_checked();
}

/// What a runner has told of the answers that it used is the beginning of the run on all answers that may follow, and it holds the rest: so it
/// is at its start, where nothing is told, and after each answer and each pause. Where it waits for an answer, what was told are all pieces of the
/// run on the answers so far, whatever its limit is, and what the runner wants is what the run wants after them.
pub fn runner_holds_the_rest()
    ensures goes_on { GoingOnHolds }
    ensures resumes { ResumingHolds }
    ensures told { AllIsTold }
    ensures wanted { WantsAreWanted }
{}

/// What is left after a service was abandoned is what the run had left at the demand that called it.
#[tactic(auto, using(crate::proofs::Abandoned::abandoning_holds))]
pub fn abandoning_holds()
    ensures { AbandoningHolds }
{}

/// What sets the crates back does so, and may be made.
pub fn setting_back_holds()
    ensures { SettingBackHolds }
{}

/// The run does what was told ahead, in its order, and nothing else before its end: it makes each operation by an answer, the cycles of a block by theirs,
/// and releases without one; and it wants each operation before its answer. A caller may ask for fewer: any beginning is ahead, too.
#[tactic(auto, using(crate::proofs::Following::ahead_is_made, crate::proofs::Following::first_is_wanted, crate::proofs::Following::beginnings_are_ahead))]
pub fn ahead_is_made()
    ensures made { AheadIsMade }
    ensures wanted { FirstIsWanted }
    ensures beginnings { BeginningsAreAhead }
{}

/// What is known before the answers is so, whatever is not known. Where each variable is known, so is each value.
pub fn known_is_so()
    ensures so { (known : List (Option ℕ)) → KnownIsSo known }
    ensures all { ValuesAreKnown }
{}

/// What is left of a transfer begins with the cycle that the run wants, and the run makes its cycles one after the other, as their Q want it.
pub fn transfers_go_on()
    ensures begins { TransfersBegin }
    ensures goes_on { TransfersGoOn }
{}

/// An answer is used exactly if its wait is not longer than the one that is told before it.
pub fn waits_decide()
    ensures { WaitsDecide }
{}
