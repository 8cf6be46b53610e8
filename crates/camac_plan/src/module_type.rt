//! The types of a plan.

ghost use Rattle.std.specs.Prelude.{◌≡◌, ◌<◌, length, Err, IsOk};
ghost use Rattle.toml.specs.View.{array_view, table_view};
ghost use Rattle.camac_plan.specs.Field.{Reads};
ghost use Rattle.camac_plan.specs.Types.{type_name_at, type_of, type_view, name_twice, with_type_line, with_type_table, with_types};
ghost use Rattle.camac_plan.specs.Reading.{AddsOrTells};

use crate::command::{TypeCommands, add_commands};
use crate::fault::{BrokenRule, PlanCase, PlanFault, PlanRule, PlanTable, broken};
use crate::field::{has_only, no_tables, required_tables_at, text_at};
use crate::key::PlanKey;
use camac_branch::{Plan, TypeName};
use camac_module::ModuleType;
use std::alloc::Global;
use toml::value::Array;
use toml::{Table, Value};

// A type as its table says.
#[derive(Drop)]
pub(crate) struct TypeLine<'a> {
    name: TypeName,
    commands: &'a Array,
}

// Puts the types into the plan, one after the other.
pub(crate) fn add_types(alloc: Global, plan: &mut Plan, items: &Array) -> Result<(), PlanFault>
    ensures { AddsOrTells result plan.new (with_types plan.old (array_view items.now)) }
{
    'types: for item in items {
        match item {
            Value::Table(table) => add_type_table(alloc, plan, table)?,
            _ => return Err(no_tables(PlanTable::Top, PlanKey::Types).into()),
        }
    }
    Ok(())
}

// Puts the type of a table into the plan. Its place is the number of types before.
fn add_type_table(alloc: Global, plan: &mut Plan, table: &Table) -> Result<(), PlanFault>
    ensures reads { AddsOrTells result plan.new (with_type_table plan.old (table_view table.now)) }
    ensures memory { result ≡ Err PlanFault.OutOfMemory → IsOk (with_type_table plan.old (table_view table.now)) }
{
    let at = PlanTable::ModuleType {
        place: plan.types(),
    };
    if plan.types() >= 64 {
        return Err(broken(PlanRule::OutOfRange, PlanCase::Full { table: at }).into());
    }
    match read_type(at, table) {
        Ok(line) => add_type(alloc, plan, line),
        Err(rule) => Err(rule.into()),
    }
}

// Puts a type and its commands into the plan.
fn add_type(alloc: Global, plan: &mut Plan, line: TypeLine) -> Result<(), PlanFault>
    requires { length plan.old.types < 64 }
    ensures reads { AddsOrTells result plan.new (with_type_line plan.old (type_view line.entry)) }
    ensures memory { result ≡ Err PlanFault.OutOfMemory → IsOk (with_type_line plan.old (type_view line.entry)) }
{
    let type_place = plan.types();
    if let Some(first) = plan.type_named(line.name.as_bytes()) {
        return Err(name_twice(type_place, first).into());
    }
    let mut commands = ModuleType::new(alloc);
    let all = TypeCommands {
        type_place,
        items: line.commands,
    };
    add_commands(&mut commands, &all)?;
    match plan.add_type(line.name, commands) {
        Ok(_) => Ok(()),
        Err(_) => Err(PlanFault::OutOfMemory),
    }
}

// The fault of a type whose name one before has: it names the first.
fn name_twice(place: usize, first: usize) -> BrokenRule
    ensures { result ≡ name_twice place first }
{
    broken(
        PlanRule::DeclaredTwice,
        PlanCase::Twice {
            table: PlanTable::ModuleType { place },
            key: PlanKey::Name,
            first: PlanTable::ModuleType { place: first },
        },
    )
}

// Reads the table of a type.
fn read_type(at: PlanTable, table: &Table) -> Result<TypeLine<'_>, BrokenRule>
    ensures { Reads type_view result (type_of at (table_view table.now)) }
{
    has_only(at, table)?;
    let name = type_name(at, table)?;
    let commands = required_tables_at(at, table, PlanKey::Commands)?;
    Ok(TypeLine { name, commands })
}

fn type_name(at: PlanTable, table: &Table) -> Result<TypeName, BrokenRule>
    ensures { result ≡ type_name_at at PlanKey.Name (table_view table.now) }
{
    let text = text_at(at, table, PlanKey::Name)?;
    TypeName::new(text.as_bytes()).ok_or(broken(
        PlanRule::OutOfRange,
        PlanCase::Name {
            table: at,
            key: PlanKey::Name,
        },
    ))
}
