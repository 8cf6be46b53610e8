//! Why a plan is refused, and where.

ghost use Rattle.std.specs.Prelude.{◌≡◌};
ghost use Rattle.camac_plan.specs.Broken.{broken};
ghost use Rattle.camac_plan.specs.declared.fault.PlanFault.TheVariants.{Broken};

use crate::key::PlanKey;
use thiserror::Error;

/// A rule of the plan's text (own).
#[derive(Clone, Copy, Debug, PartialEq, Eq)]
pub enum PlanRule {
    /// P1: the bytes are no TOML.
    NotToml,
    /// P2: a table has a key that it can't have.
    UnknownKey,
    /// P3: a key is missing that its table must have, or holds a value of another kind.
    MissingOrWrongKind,
    /// P4: a number or a name is out of its range, or a type is the 65th.
    OutOfRange,
    /// P5: the crate stands above already.
    CrateTwice,
    /// P6: the station stands above already.
    StationTwice,
    /// P7: no type has the name.
    UnknownType,
    /// P8: a type's name, or a command of the type, is declared above already.
    DeclaredTwice,
    /// P9: a station above has the GL bit already.
    BitTwice,
    /// P11: more than 16 arrays, inline tables, dots of keys and keys of a heading stand in each other.
    TooDeep,
}

/// A table of a plan. A `place` is the number of a table in its array, in text order, from 0.
#[derive(Clone, Copy, Debug, PartialEq, Eq)]
pub enum PlanTable {
    Top,
    ModuleType { place: usize },
    Command { type_place: usize, place: usize },
    Crate { place: usize },
    Station { crate_place: usize, place: usize },
}

/// The kind of value that stands at a key, and of a number its range.
#[derive(Clone, Copy, Debug, PartialEq, Eq)]
pub enum ValueKind {
    /// A whole number from `low` to `high`.
    Number { low: u32, high: u32 },
    Flag,
    Text,
    /// An array of tables.
    Tables,
}

/// What a rule knew where it was broken.
#[derive(Clone, Copy, Debug, PartialEq, Eq)]
pub enum PlanCase {
    /// P1: how many bytes stand before the place at which the text is no TOML.
    Text {
        at: usize,
    },
    /// P11: how many bytes stand before the one that goes deeper.
    Nested {
        at: usize,
    },
    /// P2: the number of the key among those of its table, in the order of their bytes, from 0.
    Unknown {
        table: PlanTable,
        entry: usize,
    },
    /// P3: the key is not there.
    Missing {
        table: PlanTable,
        key: PlanKey,
        kind: ValueKind,
    },
    /// P3: the key holds a value of another kind.
    Kind {
        table: PlanTable,
        key: PlanKey,
        kind: ValueKind,
    },
    /// P4: the number at the key is below `low` or above `high`.
    Range {
        table: PlanTable,
        key: PlanKey,
        found: i64,
        low: u32,
        high: u32,
    },
    /// P4: the text at the key is no name of a type.
    Name {
        table: PlanTable,
        key: PlanKey,
    },
    /// P4: the width of a probe, which is not 24.
    Probe {
        table: PlanTable,
        width: u32,
    },
    /// P4: the probe is said to clear.
    ClearingProbe {
        table: PlanTable,
    },
    /// P4: the table is that of a 65th type.
    Full {
        table: PlanTable,
    },
    /// P5, P6, P8, P9: the key has the value that it has in `first`, the first such table.
    Twice {
        table: PlanTable,
        key: PlanKey,
        first: PlanTable,
    },
    /// P7: the text at the key is the name of no type.
    NoType {
        table: PlanTable,
        key: PlanKey,
    },
    /// P8: the function and the sub-address, and the first table that declares it.
    Command {
        table: PlanTable,
        f: u32,
        a: u32,
        first: PlanTable,
    },
}

/// A broken rule with its case.
#[derive(Clone, Copy)]
pub(crate) struct BrokenRule {
    rule: PlanRule,
    case: PlanCase,
}

pub(crate) fn broken(rule: PlanRule, case: PlanCase) -> BrokenRule
    ensures { result ≡ broken rule case }
{
    BrokenRule { rule, case }
}

/// The first rule that is broken, with its case; or P10, out of memory.
#[derive(Clone, Copy, Debug, PartialEq, Eq, Error)]
pub enum PlanFault {
    #[error("memory")]
    OutOfMemory,
    #[error("{rule:?}")]
    Broken { rule: PlanRule, case: PlanCase },
}

impl From<BrokenRule> for PlanFault {
    ghost from_gives = { λ b f. f ≡ Broken b.rule b.case };

    fn from(broken: BrokenRule) -> PlanFault {
        PlanFault::Broken {
            rule: broken.rule,
            case: broken.case,
        }
    }
}
