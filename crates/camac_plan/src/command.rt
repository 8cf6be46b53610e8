//! The commands of a type.

ghost use Rattle.std.specs.Prelude.{◌≡◌, ◌≤◌, ◌<◌, true, IfOk};
ghost use Rattle.camac_module.specs.Kind.{is_probe};
ghost use Rattle.toml.specs.View.{view, array_view, table_view};
ghost use Rattle.camac_plan.specs.declared.fault.PlanTable.TheVariants.{Command};
ghost use Rattle.camac_plan.specs.Broken.{next};
ghost use Rattle.camac_plan.specs.Field.{Changes, required_number_at};
ghost use Rattle.camac_plan.specs.Commands.{commands_view, declared_twice, command_of, kind_at, width_at, with_commands, with_command, with_new, command_at, declares, first_declaring, fits};

use crate::fault::{BrokenRule, PlanCase, PlanRule, PlanTable, broken};
use crate::field::{flag_at, has_only, no_tables, number_at, out_of_range, required_number_at};
use crate::key::PlanKey;
use camac_module::{CommandKind, Decl, ModuleType};
use camac_word::{Function, SubAddress};
use toml::value::Array;
use toml::{Table, Value};

// A command as its table says, from its first sub-address to its last.
#[derive(Clone, Copy)]
pub(crate) struct CommandLine {
    pub(crate) f: Function,
    pub(crate) first: u32,
    pub(crate) last: u32,
    pub(crate) width: u8,
    pub(crate) kind: CommandKind,
}

// The array of the commands of a type, with the place of the type.
#[derive(Clone, Copy)]
pub(crate) struct TypeCommands<'a> {
    pub(crate) type_place: usize,
    pub(crate) items: &'a Array,
}

impl TypeCommands<'_> {
    // The table of a command by its place.
    fn table(&self, place: usize) -> PlanTable
        ensures { result ≡ Command self.now.type_place place }
    {
        PlanTable::Command {
            type_place: self.type_place,
            place,
        }
    }
}

// Declares the commands of a type, one after the other.
pub(crate) fn add_commands(commands: &mut ModuleType, all: &TypeCommands) -> Result<(), BrokenRule>
    ensures { Changes result commands.new (with_commands (commands_view all.now) 0 commands.old (array_view all.now.items.now)) }
{
    'commands: for place in 0..all.items.len() {
        match &all.items[place] {
            Value::Table(table) => add_command_table(commands, all, place, table)?,
            _ => {
                let at = PlanTable::ModuleType {
                    place: all.type_place,
                };
                return Err(no_tables(at, PlanKey::Commands));
            }
        }
    }
    Ok(())
}

// Declares the command of a table.
fn add_command_table(
    commands: &mut ModuleType,
    all: &TypeCommands,
    place: usize,
    table: &Table,
) -> Result<(), BrokenRule>
    ensures { Changes result commands.new (next (command_of (Command all.now.type_place place) (table_view table.now)) (λ line. with_command (commands_view all.now) place line commands.old)) }
{
    let line = read_command(all.table(place), table)?;
    declare_command(commands, all, place, &line)
}

// Declares a command at each of its sub-addresses.
fn declare_command(
    commands: &mut ModuleType,
    all: &TypeCommands,
    place: usize,
    line: &CommandLine,
) -> Result<(), BrokenRule>
    requires order { line.now.first ≤ line.now.last }
    requires in_range { line.now.last < 16 }
    requires width { fits line.now ≡ true }
    ensures { Changes result commands.new (with_command (commands_view all.now) place line.now commands.old) }
{
    'places: for x in line.first..line.last + 1 {
        match SubAddress::new(x) {
            Some(a) => match declare_at(commands, all, place, line, a) {
                Ok(()) => {}
                Err(rule) => return Err(rule),
            },
            None => {
                let at = all.table(place);
                return Err(out_of_range(at, PlanKey::A, i64::from(x), 0, 15));
            }
        }
    }
    Ok(())
}

// Declares a command at one of its sub-addresses.
fn declare_at(
    commands: &mut ModuleType,
    all: &TypeCommands,
    place: usize,
    line: &CommandLine,
    a: SubAddress,
) -> Result<(), BrokenRule>
    requires { fits line.now ≡ true }
    ensures { Changes result commands.new (with_new (commands_view all.now) place commands.old (command_at line.now a)) }
{
    let d = Decl {
        f: line.f,
        a,
        width: line.width,
        kind: line.kind,
    };
    match commands.declare(d) {
        Ok(()) => Ok(()),
        Err(_) => Err(declared_twice(all, place, line.f, a)),
    }
}

// The fault of a command that a table before declares: it names the first.
fn declared_twice(all: &TypeCommands, place: usize, f: Function, a: SubAddress) -> BrokenRule
    ensures { result ≡ declared_twice (commands_view all.now) place f a }
{
    let first = first_declaring(all.items, f.get(), a.get()).unwrap_or(place);
    broken(
        PlanRule::DeclaredTwice,
        PlanCase::Command {
            table: all.table(place),
            f: f.get(),
            a: a.get(),
            first: all.table(first),
        },
    )
}

// The place of the first table that declares a function at a sub-address.
fn first_declaring(items: &Array, f: u32, a: u32) -> Option<usize>
    ensures { result ≡ first_declaring f a 0 (array_view items.now) }
{
    'items: for place in 0..items.len() {
        if declares(&items[place], f, a) {
            return Some(place);
        }
    }
    None
}

// A place for a fault that is not told.
const ANY_COMMAND: PlanTable = PlanTable::Command {
    type_place: 0,
    place: 0,
};

// Whether a table declares a function at a sub-address.
fn declares(item: &Value, f: u32, a: u32) -> bool
    ensures { result ≡ declares f a (view item.now) }
{
    match item {
        Value::Table(table) => match read_command(ANY_COMMAND, table) {
            Ok(line) => line.f.get() == f && line.first <= a && a <= line.last,
            Err(_) => false,
        },
        _ => false,
    }
}

// Reads the table of a command.
fn read_command(at: PlanTable, table: &Table) -> Result<CommandLine, BrokenRule>
    ensures value { result ≡ command_of at (table_view table.now) }
    ensures in_range { IfOk result (λ k. (k.first ≤ k.last) × (k.last < 16)) }
    ensures width { IfOk result (λ k. fits k ≡ true) }
{
    has_only(at, table)?;
    let f = function_number(at, table)?;
    let first = required_number_at(at, table, PlanKey::A, 0, 15)?;
    let to = number_at(at, table, PlanKey::To, first, 15)?;
    let probe = flag_at(at, table, PlanKey::Probe)?.unwrap_or(false);
    let width = command_width(at, table, probe)?;
    let kind = command_kind(at, table, probe)?;
    Ok(CommandLine {
        f,
        first,
        last: to.unwrap_or(first),
        width,
        kind,
    })
}

fn function_number(at: PlanTable, table: &Table) -> Result<Function, BrokenRule>
    ensures { result ≡ required_number_at at PlanKey.F 0 31 (table_view table.now) }
{
    let f = required_number_at(at, table, PlanKey::F, 0, 31)?;
    Function::new(f).ok_or(out_of_range(at, PlanKey::F, i64::from(f), 0, 31))
}

// The width of a command, which has to be 24 at a probe.
fn command_width(at: PlanTable, table: &Table, probe: bool) -> Result<u8, BrokenRule>
    ensures value { result ≡ width_at at probe (table_view table.now) }
    ensures in_range { IfOk result (λ w. (1 ≤ w) × (w ≤ 24)) }
    ensures probe { IfOk result (λ w. probe ≡ true → w ≡ 24) }
{
    let width = number_at(at, table, PlanKey::Width, 1, 24)?.unwrap_or(24);
    if probe && width != 24 {
        return Err(broken(PlanRule::OutOfRange, PlanCase::Probe { table: at, width }));
    }
    Ok(width as u8)
}

// What a command does beside. A probe cannot clear.
fn command_kind(at: PlanTable, table: &Table, probe: bool) -> Result<CommandKind, BrokenRule>
    ensures value { result ≡ kind_at at probe (table_view table.now) }
    ensures probe { IfOk result (λ k. is_probe k ≡ probe) }
{
    let clears = flag_at(at, table, PlanKey::Clears)?.unwrap_or(false);
    if probe && clears {
        let case = PlanCase::ClearingProbe { table: at };
        return Err(broken(PlanRule::OutOfRange, case));
    }
    Ok(CommandKind::of(probe, clears))
}
