//! The keys of a plan's tables.

ghost use Rattle.std.specs.Prelude.{◌≡◌};
ghost use Rattle.camac_plan.specs.Key.{key_text, keys_of};

use crate::fault::PlanTable;

/// A key of one of a plan's tables.
#[derive(Clone, Copy, Debug, PartialEq, Eq)]
pub enum PlanKey {
    /// Of the top table.
    Buffer,
    Types,
    Crates,
    /// Of a type.
    Name,
    Commands,
    /// Of a command.
    F,
    A,
    To,
    Probe,
    Width,
    Clears,
    /// Of a crate.
    Number,
    Waits,
    Stations,
    /// Of a station.
    N,
    TypeName,
    Gl,
}

impl PlanKey {
    /// The key as it stands in a plan.
    pub fn text(self) -> &'static str
        ensures { result.now ≡ key_text self }
    {
        match self {
            PlanKey::Buffer => "buffer",
            PlanKey::Types | PlanKey::TypeName => "type",
            PlanKey::Crates => "crate",
            PlanKey::Name => "name",
            PlanKey::Commands => "commands",
            PlanKey::F => "f",
            PlanKey::A => "a",
            PlanKey::To => "to",
            PlanKey::Probe => "probe",
            PlanKey::Width => "width",
            PlanKey::Clears => "clears",
            PlanKey::Number => "number",
            PlanKey::Waits => "waits",
            PlanKey::Stations => "station",
            PlanKey::N => "n",
            PlanKey::Gl => "gl",
        }
    }
}

/// The keys that a table may have, in the order of docs/PLANS.md.
pub fn keys_of(table: PlanTable) -> &'static [PlanKey]
    ensures { result.now ≡ keys_of table }
{
    match table {
        PlanTable::Top => &[PlanKey::Buffer, PlanKey::Types, PlanKey::Crates],
        PlanTable::ModuleType { .. } => &[PlanKey::Name, PlanKey::Commands],
        PlanTable::Command { .. } => &[
            PlanKey::F,
            PlanKey::A,
            PlanKey::To,
            PlanKey::Width,
            PlanKey::Probe,
            PlanKey::Clears,
        ],
        PlanTable::Crate { .. } => &[PlanKey::Number, PlanKey::Waits, PlanKey::Stations],
        PlanTable::Station { .. } => &[PlanKey::N, PlanKey::TypeName, PlanKey::Gl],
    }
}
