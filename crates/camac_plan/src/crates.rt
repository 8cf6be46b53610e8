//! The crates of a plan.

ghost use Rattle.std.specs.Prelude.{◌≡◌, ◌≤◌, unwrap_or, IfOk};
ghost use Rattle.toml.specs.View.{array_view, table_view};
ghost use Rattle.camac_plan.specs.Broken.{next};
ghost use Rattle.camac_plan.specs.Field.{Changes, Reads, number_at, required_number_at};
ghost use Rattle.camac_plan.specs.Crates.{crate_of, crate_view, crate_twice, with_crate_line, with_crates};

use crate::fault::{BrokenRule, PlanCase, PlanRule, PlanTable, broken};
use crate::field::{
    first_with, has_only, no_tables, number_at, out_of_range, required_number_at, tables_at,
};
use crate::key::PlanKey;
use crate::station::add_stations;
use camac_branch::Plan;
use camac_word::CrateNo;
use toml::value::Array;
use toml::{Table, Value};

// A crate as its table says, with its place in the array of the crates.
#[derive(Clone, Copy)]
pub(crate) struct CrateLine<'a> {
    pub(crate) place: usize,
    pub(crate) number: CrateNo,
    waits: u8,
    pub(crate) stations: Option<&'a Array>,
}

// Puts the crates into the plan, one after the other.
pub(crate) fn add_crates(plan: &mut Plan, crates: &Array) -> Result<(), BrokenRule>
    ensures { Changes result plan.new (with_crates (array_view crates.now) 0 plan.old (array_view crates.now)) }
{
    'crates: for place in 0..crates.len() {
        match &crates[place] {
            Value::Table(table) => add_crate_table(plan, crates, place, table)?,
            _ => return Err(no_tables(PlanTable::Top, PlanKey::Crates)),
        }
    }
    Ok(())
}

// Puts the crate of a table into the plan.
fn add_crate_table(
    plan: &mut Plan,
    crates: &Array,
    place: usize,
    table: &Table,
) -> Result<(), BrokenRule>
    ensures { Changes result plan.new (next (crate_of place (table_view table.now)) (with_crate_line (array_view crates.now) plan.old)) }
{
    match read_crate(place, table) {
        Ok(line) => add_crate(plan, crates, &line),
        Err(rule) => Err(rule),
    }
}

// Puts a crate and its stations into the plan.
fn add_crate(plan: &mut Plan, crates: &Array, line: &CrateLine) -> Result<(), BrokenRule>
    requires { line.now.waits ≤ 15 }
    ensures { Changes result plan.new (with_crate_line (array_view crates.now) plan.old (crate_view line.now)) }
{
    match plan.add_crate(line.number, line.waits) {
        Ok(()) => {}
        Err(_) => return Err(crate_twice(crates, line)),
    }
    match line.stations {
        Some(items) => add_stations(plan, crates, line, items),
        None => Ok(()),
    }
}

// The fault of a crate whose number a table before has: it names the first.
fn crate_twice(crates: &Array, line: &CrateLine) -> BrokenRule
    ensures { result ≡ crate_twice (array_view crates.now) (crate_view line.now) }
{
    let first = first_with(crates, PlanKey::Number, line.number.get());
    broken(
        PlanRule::CrateTwice,
        PlanCase::Twice {
            table: PlanTable::Crate { place: line.place },
            key: PlanKey::Number,
            first: PlanTable::Crate {
                place: first.unwrap_or(line.place),
            },
        },
    )
}

// Reads the table of a crate.
fn read_crate(place: usize, table: &Table) -> Result<CrateLine<'_>, BrokenRule>
    ensures value { Reads crate_view result (crate_of place (table_view table.now)) }
    ensures in_range { IfOk result (λ k. k.waits ≤ 15) }
{
    let at = PlanTable::Crate { place };
    has_only(at, table)?;
    let number = crate_number(at, table)?;
    let waits = crate_waits(at, table)?;
    let stations = tables_at(at, table, PlanKey::Stations)?;
    Ok(CrateLine {
        place,
        number,
        waits: waits.unwrap_or(0),
        stations,
    })
}

fn crate_number(at: PlanTable, table: &Table) -> Result<CrateNo, BrokenRule>
    ensures { result ≡ required_number_at at PlanKey.Number 1 7 (table_view table.now) }
{
    let number = required_number_at(at, table, PlanKey::Number, 1, 7)?;
    CrateNo::new(number).ok_or(out_of_range(at, PlanKey::Number, i64::from(number), 1, 7))
}

fn crate_waits(at: PlanTable, table: &Table) -> Result<Option<u8>, BrokenRule>
    ensures value { result ≡ number_at at PlanKey.Waits 0 15 (table_view table.now) }
    ensures in_range { IfOk result (λ w. unwrap_or w 0 ≤ 15) }
{
    match number_at(at, table, PlanKey::Waits, 0, 15)? {
        Some(waits) => Ok(Some(waits as u8)),
        None => Ok(None),
    }
}
