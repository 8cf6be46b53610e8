// Why a script is refused.

ghost use Rattle.std.specs.Prelude.{◌≡◌};
ghost use Rattle.camac_rules.specs.Refusal.{required};
ghost use Rattle.camac_check_known.specs.declared.fault.CheckFault.TheVariants.{OutOfMemory, Broken};
ghost use Rattle.camac_check_known.specs.Gives.{Gives};
ghost use Rattle.camac_rules.specs.Cases.{numbers_of};

use camac_lang::Spot;
use camac_range::Range;
use camac_rules::{Case, CheckRule, Numbers};
use std::alloc::{AllocError, AllocFailed};
use thiserror::Error;

/// The numbers of a range.
pub fn numbers_of(range: Range) -> Numbers
    ensures { result ≡ numbers_of range }
{
    Numbers {
        low: range.lo(),
        high: range.hi(),
    }
}

/// The first rule that a script breaks, with the spot of the first token of the statement or heading that breaks it (own).
#[derive(Clone, Copy, Debug, PartialEq, Eq, Error)]
pub enum CheckFault {
    /// E19: memory ran out.
    #[error("memory")]
    OutOfMemory,
    #[error("line {}: {rule:?}", spot.line)]
    Broken {
        rule: CheckRule,
        spot: Spot,
        case: Case,
    },
}

impl From<AllocError> for CheckFault {
    ghost from_gives = { λ _ e. e ≡ OutOfMemory };

    fn from(_e: AllocError) -> CheckFault {
        CheckFault::OutOfMemory
    }
}

impl<T: Drop> From<AllocFailed<T>> for CheckFault {
    ghost from_gives = { λ _ e. e ≡ OutOfMemory };

    fn from(_e: AllocFailed<T>) -> CheckFault {
        CheckFault::OutOfMemory
    }
}

impl CheckFault {
    /// A rule that is broken at this spot, in this case.
    pub fn broken(rule: CheckRule, spot: Spot, case: Case) -> CheckFault
        ensures { result ≡ Broken rule spot case }
    {
        CheckFault::Broken { rule, spot, case }
    }
}

/// Refuses by a rule at this spot, in this case, unless its test holds.
#[tactic(auto, unfolding(camac_rules::specs::Refusal::required))]
pub fn required(test: bool, rule: CheckRule, spot: Spot, case: Case) -> Result<(), CheckFault>
    ensures { Gives (λ u. tt) result (required test rule spot case) }
{
    if test {
        Ok(())
    } else {
        Err(CheckFault::broken(rule, spot, case))
    }
}
