// What an engine answers, and what the program exits with.

ghost use Rattle.std.specs.Prelude.{◌≡◌};
ghost use Rattle.camac_engines.specs.Engine.{status_of};

use crate::fault::ToolFault;

/// What became of the inputs.
#[derive(Clone, Copy, Debug, PartialEq, Eq)]
pub enum Outcome {
    /// They were accepted, and the output is whole.
    Good,
    /// One of them was refused, and the output says why.
    Refused,
}

/// What the program exits with: 0 for `Good`, 1 for `Refused`, 3 for a fault.
pub fn status(answer: &Result<Outcome, ToolFault>) -> u8
    ensures { result ≡ status_of answer.now }
{
    match answer {
        Ok(Outcome::Good) => 0,
        Ok(Outcome::Refused) => 1,
        Err(_) => 3,
    }
}
