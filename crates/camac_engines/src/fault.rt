// Why an engine stops.

ghost use Rattle.std.specs.Prelude.{◌≡◌};
ghost use Rattle.camac_engines.specs.declared.fault.ToolFault.TheVariants.{Memory, Write};

use camac_word::WriteFault;
use std::alloc::AllocError;
use thiserror::Error;

/// Why an engine stopped before its verdict.
#[derive(Clone, Copy, Debug, PartialEq, Eq, Error)]
pub enum ToolFault {
    /// G1: a reader answered an error.
    #[error("fault read")]
    Read,
    /// G2: a writer answered an error, or took nothing.
    #[error("fault write")]
    Write,
    /// G3: a growth of memory was refused.
    #[error("fault memory")]
    Memory,
    /// G4: an input is longer than its limit.
    #[error("fault input too long")]
    TooLong,
}

impl From<AllocError> for ToolFault {
    ghost from_gives = { λ _ fault. fault ≡ Memory };

    fn from(_error: AllocError) -> ToolFault {
        ToolFault::Memory
    }
}

impl From<WriteFault> for ToolFault {
    ghost from_gives = { λ _ fault. fault ≡ Write };

    fn from(_fault: WriteFault) -> ToolFault {
        ToolFault::Write
    }
}
