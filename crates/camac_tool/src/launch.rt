// The words after the program's name.

ghost use Rattle.std.specs.Prelude.{◌≡◌};
ghost use Rattle.camac_tool.specs.declared.launch.ArgumentsFault.TheVariants.{Memory};

use std::alloc::AllocError;
use std::rt::Env;
use std::{env, io};
use thiserror::Error;

/// Why the program's arguments could not be read.
#[derive(Clone, Copy, Debug, PartialEq, Eq, Error)]
pub enum ArgumentsFault {
    /// One of them is no text.
    #[error("fault arguments are no text")]
    NotText,
    /// A growth of memory was refused.
    #[error("fault memory")]
    Memory,
}

impl From<AllocError> for ArgumentsFault {
    ghost from_gives = { λ _ fault. fault ≡ Memory };

    fn from(_error: AllocError) -> ArgumentsFault {
        ArgumentsFault::Memory
    }
}

/// The program's arguments without its own name.
pub fn arguments<R: Env + AllocGlobal>(rt: &R) -> Result<Vec<String>, ArgumentsFault> {
    match env::args(rt) {
        Ok(args) => Ok(args.skip(1).collect(rt.alloc())?),
        Err(error) if error.kind() == io::ErrorKind::OutOfMemory => Err(ArgumentsFault::Memory),
        Err(_) => Err(ArgumentsFault::NotText),
    }
}
