// The way to a table: types by their names, crates and stations by their numbers; else by their places in the text, as commands are.

ghost use Rattle.std.specs.Prelude.{◌≡◌, IfOk, Some, option_copied, option_map, string_bytes};
ghost use Rattle.toml.specs.View.{table_view, view};
ghost use Rattle.camac_explain_plan.specs.Path.{is_known_by, comma, entry, known_by, known_for, nth, number_step, ordinal, path, step, type_step, way_to, way_to_key};

use crate::table::value_in;
use camac_lines::Quote;
use camac_plan::{PlanKey, PlanTable};
use std::alloc::{AllocError, Global};
use std::fmt;
use toml::{Table, Value};

static ORDINALS: [&str; 10] = [
    "first", "second", "third", "fourth", "fifth", "sixth", "seventh", "eighth", "ninth", "tenth",
];

fn ordinal(place: usize) -> Option<&'static str>
    ensures { option_copied result ≡ ordinal place }
{
    ORDINALS.get(place).copied()
}

// An entry by its place in the text, from 0.
#[derive(Clone, Copy)]
pub(crate) struct Nth {
    pub(crate) place: usize,
    pub(crate) of: &'static str,
}

impl fmt::Display for Nth {
    ghost output = { λ n. Some (nth n.place n.of.now) };

    fn fmt<W: fmt::Write>(&self, f: &mut fmt::Formatter<W>) -> fmt::Result {
        match ordinal(self.place) {
            Some(ordinal) => write!(f, "{ordinal} {}", self.of),
            None => write!(f, "{} number {}", self.of, self.place.saturating_add(1)),
        }
    }
}

// An entry of an array of the plan.
#[derive(Clone, Copy)]
struct Entry {
    place: usize,
    array: &'static str,
}

impl fmt::Display for Entry {
    ghost output = { λ e. Some (entry e.place e.array.now) };

    fn fmt<W: fmt::Write>(&self, f: &mut fmt::Formatter<W>) -> fmt::Result {
        let nth = Nth {
            place: self.place,
            of: "entry",
        };
        write!(f, "{nth} of `{}`", self.array)
    }
}

// A type, by its name if it has one.
#[derive(Clone, Copy)]
struct TypeStep<'a> {
    name: Option<&'a Value>,
    place: usize,
}

impl fmt::Display for TypeStep<'_> {
    ghost output = { λ t. Some (type_step (option_map (λ v. view v.now) t.name) t.place) };

    fn fmt<W: fmt::Write>(&self, f: &mut fmt::Formatter<W>) -> fmt::Result {
        match self.name {
            Some(Value::String(name)) => write!(f, "type {}", Quote(name.as_str().as_bytes())),
            _ => write!(
                f,
                "{}",
                Entry {
                    place: self.place,
                    array: "type"
                }
            ),
        }
    }
}

// A crate or a station, by its number if it has one.
#[derive(Clone, Copy)]
struct NumberStep<'a> {
    what: &'static str,
    number: Option<&'a Value>,
    place: usize,
}

impl fmt::Display for NumberStep<'_> {
    ghost output = { λ s. Some (number_step s.what.now (option_map (λ v. view v.now) s.number) s.place) };

    fn fmt<W: fmt::Write>(&self, f: &mut fmt::Formatter<W>) -> fmt::Result {
        match self.number {
            Some(Value::Integer(number)) => write!(f, "{} {number}", self.what),
            _ => write!(
                f,
                "{}",
                Entry {
                    place: self.place,
                    array: self.what
                }
            ),
        }
    }
}

// The last step of the way to a table, which may be known by a value, where the plan is given.
#[derive(Clone, Copy)]
struct Step<'a>(Option<&'a Table>, PlanTable);

// What a table is known by, where the plan is given.
fn known_by<'a>(known: Option<&'a Table>, table: PlanTable, key: PlanKey) -> Option<&'a Value>
    ensures { option_map (λ v. view v.now) result ≡ known_by (option_map (λ t. table_view t.now) known.entry) table key }
{
    match known {
        Some(top) => value_in(top, table, key),
        None => None,
    }
}

impl fmt::Display for Step<'_> {
    ghost output = { λ s. Some (step (option_map (λ t. table_view t.now) s.0) s.1) };

    fn fmt<W: fmt::Write>(&self, f: &mut fmt::Formatter<W>) -> fmt::Result {
        match self.1 {
            PlanTable::Top => Ok(()),
            PlanTable::Command { place, .. } => write!(
                f,
                "{}",
                Nth {
                    place,
                    of: "command"
                }
            ),
            PlanTable::ModuleType { place } => {
                let name = known_by(self.0, self.1, PlanKey::Name);
                write!(f, "{}", TypeStep { name, place })
            }
            PlanTable::Crate { place } => {
                let number = known_by(self.0, self.1, PlanKey::Number);
                write!(
                    f,
                    "{}",
                    NumberStep {
                        what: "crate",
                        number,
                        place
                    }
                )
            }
            PlanTable::Station { place, .. } => {
                let number = known_by(self.0, self.1, PlanKey::N);
                write!(
                    f,
                    "{}",
                    NumberStep {
                        what: "station",
                        number,
                        place
                    }
                )
            }
        }
    }
}

// The way to a table.
#[derive(Clone, Copy)]
pub(crate) struct Path<'a> {
    // The table around this one, if it has a name or a number.
    pub(crate) around: Option<&'a Table>,
    // This table, if it has one.
    pub(crate) own: Option<&'a Table>,
    pub(crate) table: PlanTable,
}

impl fmt::Display for Path<'_> {
    ghost output = { λ p. Some (path (option_map (λ t. table_view t.now) p.around) (option_map (λ t. table_view t.now) p.own) p.table) };

    fn fmt<W: fmt::Write>(&self, f: &mut fmt::Formatter<W>) -> fmt::Result {
        let own = Step(self.own, self.table);
        match self.table {
            PlanTable::Top => Ok(()),
            PlanTable::ModuleType { .. } | PlanTable::Crate { .. } => write!(f, "{own}"),
            PlanTable::Command { type_place, .. } => {
                let home = PlanTable::ModuleType { place: type_place };
                write!(f, "{}, {own}", Step(self.around, home))
            }
            PlanTable::Station { crate_place, .. } => {
                let home = PlanTable::Crate { place: crate_place };
                write!(f, "{}, {own}", Step(self.around, home))
            }
        }
    }
}

// What stands between a table and its key.
pub(crate) fn comma(table: PlanTable) -> &'static str
    ensures { result.now ≡ comma table }
{
    match table {
        PlanTable::Top => "",
        _ => ", ",
    }
}

// The way to a table, or to a key of it.
pub(crate) fn way_to(
    alloc: Global,
    top: &Table,
    table: PlanTable,
    key: Option<PlanKey>,
) -> Result<String, AllocError>
    ensures { IfOk result (λ s. string_bytes s ≡ way_to (table_view top.now) table key) }
{
    match key {
        Some(key) => way_to_key(alloc, top, table, key),
        None => {
            let path = Path {
                around: Some(top),
                own: Some(top),
                table,
            };
            format!(in alloc; "{path}")
        }
    }
}

fn way_to_key(
    alloc: Global,
    top: &Table,
    table: PlanTable,
    key: PlanKey,
) -> Result<String, AllocError>
    ensures { IfOk result (λ s. string_bytes s ≡ way_to_key (table_view top.now) table key) }
{
    let (own, comma, key) = (known_for(top, table, key), comma(table), key.text());
    let path = Path {
        around: Some(top),
        own,
        table,
    };
    format!(in alloc; "{path}{comma}{key}")
}

// What a type is known by is no way to its name.
fn known_for<'a>(top: &'a Table, table: PlanTable, key: PlanKey) -> Option<&'a Table>
    ensures { option_map (λ t. table_view t.now) result ≡ known_for (table_view top.now) table key }
{
    match (table, key) {
        (PlanTable::ModuleType { .. }, PlanKey::Name) => None,
        _ => Some(top),
    }
}

// A type is known by its name, a crate or a station by its number.
pub(crate) fn is_known_by(key: PlanKey) -> bool
    ensures { result ≡ is_known_by key }
{
    match key {
        PlanKey::Number | PlanKey::N | PlanKey::Name => true,
        _ => false,
    }
}
