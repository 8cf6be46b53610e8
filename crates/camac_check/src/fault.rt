// Why a script has no least headings.

ghost use Rattle.std.specs.Prelude.{◌≡◌};
ghost use Rattle.camac_check.specs.Faults.{of_link, of_check};
ghost use Rattle.camac_check.specs.declared.fault.LeastFault.TheVariants.{OutOfMemory};

use camac_check_known::CheckFault;
use camac_lang::Spot;
use camac_names::{LinkCase, LinkFault, LinkRule};
use camac_rules::{Case, CheckRule};
use std::alloc::AllocError;
use thiserror::Error;

/// The first rule that a script breaks whatever the numbers of its headings, with its spot and its case: of linking, or of the checker (own).
#[derive(Clone, Copy, Debug, PartialEq, Eq, Error)]
pub enum LeastFault {
    /// L5, E19: memory ran out.
    #[error("memory")]
    OutOfMemory,
    #[error("line {}: {rule:?}", spot.line)]
    Link {
        rule: LinkRule,
        spot: Spot,
        case: LinkCase,
    },
    #[error("line {}: {rule:?}", spot.line)]
    Check {
        rule: CheckRule,
        spot: Spot,
        case: Case,
    },
}

impl From<AllocError> for LeastFault {
    ghost from_gives = { λ _ e. e ≡ OutOfMemory };

    fn from(_e: AllocError) -> LeastFault {
        LeastFault::OutOfMemory
    }
}

impl From<LinkFault> for LeastFault {
    ghost from_gives = { λ f e. e ≡ of_link f };

    fn from(fault: LinkFault) -> LeastFault {
        match fault {
            LinkFault::OutOfMemory => LeastFault::OutOfMemory,
            LinkFault::Broken { rule, spot, case } => LeastFault::Link { rule, spot, case },
        }
    }
}

impl From<CheckFault> for LeastFault {
    ghost from_gives = { λ f e. e ≡ of_check f };

    fn from(fault: CheckFault) -> LeastFault {
        match fault {
            CheckFault::OutOfMemory => LeastFault::OutOfMemory,
            CheckFault::Broken { rule, spot, case } => LeastFault::Check { rule, spot, case },
        }
    }
}
