// The class and the name of each function code.

ghost use Rattle.std.specs.Prelude.{◌≡◌};
ghost use Rattle.camac_func.specs.Class.{class_of, name_of};

use camac_word::Function;

/// What a function does with the lines of the dataway (EUR 4100, IEEE 583).
#[derive(Clone, Copy, Debug, PartialEq, Eq)]
pub enum FunctionClass {
    /// It reads a word from the module: F0 to F7.
    Read,
    /// It writes a word to the module: F16 to F23.
    Write,
    /// It moves no data: F8 to F15 and F24 to F31.
    Control,
}

// One part of the row of a code: its class or its name.
macro_rules! by_code {
    ($part:ident of $code:expr) => {
        match $code {
            0 => $part!(Read, "read group 1"),
            1 => $part!(Read, "read group 2"),
            2 => $part!(Read, "read and clear group 1"),
            3 => $part!(Read, "read complement of group 1"),
            4 => $part!(Read, "non-standard"),
            5 => $part!(Read, "reserved"),
            6 => $part!(Read, "non-standard"),
            7 => $part!(Read, "reserved"),
            8 => $part!(Control, "test LAM"),
            9 => $part!(Control, "clear group 1"),
            10 => $part!(Control, "clear LAM"),
            11 => $part!(Control, "clear group 2"),
            12 => $part!(Control, "non-standard"),
            13 => $part!(Control, "reserved"),
            14 => $part!(Control, "non-standard"),
            15 => $part!(Control, "reserved"),
            16 => $part!(Write, "overwrite group 1"),
            17 => $part!(Write, "overwrite group 2"),
            18 => $part!(Write, "selective set group 1"),
            19 => $part!(Write, "selective set group 2"),
            20 => $part!(Write, "non-standard"),
            21 => $part!(Write, "selective clear group 1"),
            22 => $part!(Write, "non-standard"),
            23 => $part!(Write, "selective clear group 2"),
            24 => $part!(Control, "disable"),
            25 => $part!(Control, "execute"),
            26 => $part!(Control, "enable"),
            27 => $part!(Control, "test status"),
            28 => $part!(Control, "non-standard"),
            29 => $part!(Control, "reserved"),
            30 => $part!(Control, "non-standard"),
            31 => $part!(Control, "reserved"),
            _ => unreachable!(),
        }
    };
}

macro_rules! class_part {
    ($class:ident, $name:literal) => {
        FunctionClass::$class
    };
}

macro_rules! name_part {
    ($class:ident, $name:literal) => {
        $name
    };
}

/// The class of a function (EUR 4100, IEEE 583): F0 to F7 read, F16 to F23 write, all others move no data.
/// Non-standard and reserved codes have the class of their range (own).
pub fn class(function: Function) -> FunctionClass
    ensures { result ≡ class_of function }
{
    by_code!(class_part of function.get())
}

/// The name of a function (EUR 4100, IEEE 583), in ASCII; `non-standard` or `reserved` where it has none of its own.
#[tactic(auto, unfolding(crate::specs::Class::name_of))]
pub fn name(function: Function) -> &'static str
    ensures { result.now ≡ name_of function }
{
    by_code!(name_part of function.get())
}
