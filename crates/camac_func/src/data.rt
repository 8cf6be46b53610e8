// What a dataway cycle moves, and where it fits a function.

ghost use Rattle.std.specs.Prelude.{◌≡◌};
ghost use Rattle.camac_func.specs.Class.{fits as fits_class};

use crate::code::FunctionClass;
use camac_word::Word24;

/// The word that a dataway cycle moves.
#[derive(Clone, Copy, Debug, PartialEq, Eq)]
pub enum DataMove {
    /// A word comes in from the module, on the read lines.
    In,
    /// This word goes out to the module, on the write lines.
    Out(Word24),
    /// No word moves.
    None,
}

/// Whether a cycle moves this at a function of this class (EUR 4100, IEEE 583): `In` at a read, `Out` at a write, `None` at a
/// control function.
pub fn fits(class: FunctionClass, movement: &DataMove) -> bool
    ensures { result ≡ fits_class class movement.now }
{
    matches!(
        (class, movement),
        (FunctionClass::Read, DataMove::In)
            | (FunctionClass::Write, DataMove::Out(_))
            | (FunctionClass::Control, DataMove::None)
    )
}
