// Why a play stops before its last line.

ghost use Rattle.std.specs.Prelude.{◌≡◌};
ghost use Rattle.camac_play.specs.declared.fault.PlayFault.TheVariants.{Write};

use camac_word::WriteFault;
use thiserror::Error;

/// Why a play stopped before its last line.
#[derive(Clone, Copy, Debug, PartialEq, Eq, Error)]
pub enum PlayFault {
    /// The reader of the answers answered an error.
    #[error("read")]
    Read,
    /// A writer answered an error, or took nothing.
    #[error("write")]
    Write,
}

impl From<WriteFault> for PlayFault {
    ghost from_gives = { λ _ fault. fault ≡ Write };

    fn from(_fault: WriteFault) -> PlayFault {
        PlayFault::Write
    }
}
