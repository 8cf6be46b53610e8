// The tables of a plan by their places, and what they are called.

ghost use Rattle.std.specs.Prelude.{◌≡◌, option_map};
ghost use Rattle.toml.specs.View.{table_view, view};
ghost use Rattle.camac_plan.specs.Field.{value_at};
ghost use Rattle.camac_explain_plan.specs.Path.{item_at, kind_of, table_at, value_in};

use crate::texts;
use camac_plan::{PlanKey, PlanTable};
use toml::{Table, Value};

// The table at a place of a plan.
pub(crate) fn table_at<'a>(top: &'a Table, table: PlanTable) -> Option<&'a Table>
    ensures { option_map (λ t. table_view t.now) result ≡ table_at (table_view top.now) table }
{
    match table {
        PlanTable::Top => Some(top),
        PlanTable::ModuleType { place } => item_at(top, PlanKey::Types, place),
        PlanTable::Command { type_place, place } => {
            match item_at(top, PlanKey::Types, type_place) {
                Some(home) => item_at(home, PlanKey::Commands, place),
                None => None,
            }
        }
        PlanTable::Crate { place } => item_at(top, PlanKey::Crates, place),
        PlanTable::Station { crate_place, place } => {
            match item_at(top, PlanKey::Crates, crate_place) {
                Some(home) => item_at(home, PlanKey::Stations, place),
                None => None,
            }
        }
    }
}

// The table of this number in the array at a key.
fn item_at<'a>(table: &'a Table, key: PlanKey, place: usize) -> Option<&'a Table>
    ensures { option_map (λ t. table_view t.now) result ≡ item_at key place (table_view table.now) }
{
    match value_at(table, key) {
        Some(array) => match array.get(place) {
            Some(item) => item.as_table(),
            None => None,
        },
        None => None,
    }
}

// The value at a key of a table.
pub(crate) fn value_at<'a>(table: &'a Table, key: PlanKey) -> Option<&'a Value>
    ensures { option_map (λ v. view v.now) result ≡ value_at key (table_view table.now) }
{
    table.get(key.text())
}

// The value at a key of the table at a place, if there is one.
pub(crate) fn value_in<'a>(top: &'a Table, table: PlanTable, key: PlanKey) -> Option<&'a Value>
    ensures { option_map (λ v. view v.now) result ≡ value_in (table_view top.now) table key }
{
    match table_at(top, table) {
        Some(table) => value_at(table, key),
        None => None,
    }
}

// What a table is.
pub(crate) fn kind_of(table: PlanTable) -> &'static str
    ensures { result.now ≡ kind_of table }
{
    match table {
        PlanTable::Top => texts::PLAN,
        PlanTable::ModuleType { .. } => texts::TYPE,
        PlanTable::Command { .. } => texts::COMMAND,
        PlanTable::Crate { .. } => texts::CRATE,
        PlanTable::Station { .. } => texts::STATION,
    }
}
