// Why a script's text is refused.

ghost use Rattle.std.specs.Prelude.{◌≡◌};
ghost use Rattle.camac_tokens.specs.declared.fault.TextFault.TheVariants.{OutOfMemory};
ghost use Rattle.camac_tokens.specs.Rules.{rule_of};

use camac_lang::Spot;
use std::alloc::{AllocError, AllocFailed};
use thiserror::Error;

/// A rule of the script language, by which a text is refused (own).
#[derive(Clone, Copy, Debug, PartialEq, Eq)]
pub enum TextRule {
    /// S1: a byte that begins no token.
    BadByte,
    /// S2: a token that the grammar does not allow there.
    UnexpectedToken,
    /// S3: a number that is too large for its place.
    NumberTooLarge,
    /// S4: a name that is declared already.
    DeclaredTwice,
    /// S5: a name that is not declared as the kind that is needed.
    NotDeclared,
    /// S6: a limit of the language is passed.
    LimitPassed,
    /// S7: a branch other than 1.
    BranchNotOne,
}

/// The kinds of names that a script declares. Where a variable is wanted, a parameter serves.
#[derive(Clone, Copy, Debug, PartialEq, Eq)]
pub enum NameKind {
    Table,
    Lam,
    Variable,
    Parameter,
    Procedure,
    Register,
}

/// What a name is, which is not declared as the kind that is wanted.
#[derive(Clone, Copy, Debug, PartialEq, Eq)]
pub enum Found {
    /// No name that is declared here.
    Nothing,
    /// A name of another kind.
    Other(NameKind),
    /// The procedure in whose heading or body it stands: it is called after its end alone.
    Itself,
    /// A variable of the script, which a procedure does not see.
    Hidden,
}

/// The limits of the language.
#[derive(Clone, Copy, Debug, PartialEq, Eq)]
pub enum Limit {
    /// Of a name.
    NameBytes,
    Tables,
    /// Of a table.
    TableWords,
    Lams,
    /// Of the script, with the parameters of all procedures.
    Variables,
    Procedures,
    /// Of a procedure.
    Parameters,
    Services,
    /// Of all procedures and any one service together.
    Registers,
    Statements,
    /// Of open braces and brackets.
    Depth,
    /// The same at a call, with those of the procedure that is called.
    CallDepth,
    /// Of an expression.
    Operators,
    /// Of a condition.
    Parts,
}

/// How a text breaks a rule.
#[derive(Clone, Copy, Debug, PartialEq, Eq)]
pub enum TextCase {
    /// S1: a byte that begins no token.
    Byte,
    /// S2: a token that the grammar does not allow there.
    Unexpected,
    /// S2: a divisor 0.
    ZeroDivisor,
    /// S2: `lock` in a procedure.
    LockInProcedure,
    /// S2: a call with another number of arguments than the procedure takes, which is told.
    ArgumentCount { wanted: usize },
    /// S3: a number above the greatest that may stand there, which is told.
    Number { most: u32 },
    /// S4: a name that is declared already, as this.
    Taken { by: NameKind },
    /// S4: a variable that the loop keeps already.
    KeptTwice,
    /// S4: the variable of the `for` itself is kept.
    CounterKept,
    /// S4: the measure of the `while` itself is kept.
    MeasureKept,
    /// S5: a name that is not declared as the kind that is wanted.
    Undeclared { wanted: NameKind, found: Found },
    /// S6: this limit is passed.
    Limit(Limit),
    /// S7: a branch other than 1.
    Branch,
}

impl TextCase {
    /// The rule that is broken.
    pub fn rule(self) -> TextRule
        ensures { result ≡ rule_of self }
    {
        match self {
            TextCase::Byte => TextRule::BadByte,
            TextCase::Unexpected
            | TextCase::ZeroDivisor
            | TextCase::LockInProcedure
            | TextCase::ArgumentCount { .. } => TextRule::UnexpectedToken,
            TextCase::Number { .. } => TextRule::NumberTooLarge,
            TextCase::Taken { .. }
            | TextCase::KeptTwice
            | TextCase::CounterKept
            | TextCase::MeasureKept => TextRule::DeclaredTwice,
            TextCase::Undeclared { .. } => TextRule::NotDeclared,
            TextCase::Limit(_) => TextRule::LimitPassed,
            TextCase::Branch => TextRule::BranchNotOne,
        }
    }
}

/// Why a text was not read.
#[derive(Clone, Copy, Debug, PartialEq, Eq, Error)]
pub enum TextFault {
    /// S8: a growth of memory was refused.
    #[error("out of memory")]
    OutOfMemory,
    /// How the text breaks a rule, and where the token stands that shows it.
    #[error("line {}: {case:?}", .spot.line)]
    Broken { case: TextCase, spot: Spot },
}

impl From<AllocError> for TextFault {
    ghost from_gives = { λ _ e. e ≡ OutOfMemory };

    fn from(_e: AllocError) -> TextFault {
        TextFault::OutOfMemory
    }
}

impl<T: Drop> From<AllocFailed<T>> for TextFault {
    ghost from_gives = { λ _ e. e ≡ OutOfMemory };

    fn from(_e: AllocFailed<T>) -> TextFault {
        TextFault::OutOfMemory
    }
}
