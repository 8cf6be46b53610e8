//! The stations of a crate.

ghost use Rattle.std.specs.Prelude.{◌≡◌, ◌≤◌, IfOk, IsSome, OnOk};
ghost use Rattle.toml.specs.View.{view, array_view, table_view};
ghost use Rattle.camac_branch.specs.Plan.{crate_at};
ghost use Rattle.camac_plan.specs.declared.fault.PlanTable.TheVariants as at_table;
ghost use Rattle.camac_plan.specs.Broken.{next};
ghost use Rattle.camac_plan.specs.Field.{Changes, Reads, required_number_at, number_at, first_with};
ghost use Rattle.camac_plan.specs.Crates.{crate_view, station_of, station_view, stations_in, first_with_bit, unknown_type, station_twice, bit_twice, with_station, with_stations};

use crate::crates::CrateLine;
use crate::fault::{BrokenRule, PlanCase, PlanRule, PlanTable, broken};
use crate::field::{
    first_with, has_only, no_tables, number_at, out_of_range, required_number_at, text_at, value_at,
};
use crate::key::PlanKey;
use camac_branch::Plan;
use camac_word::{GlBit, Station};
use toml::value::Array;
use toml::{Table, Value};

// A station as its table says, before its type is looked up.
#[derive(Clone, Copy)]
pub(crate) struct StationLine<'a> {
    n: Station,
    type_name: &'a str,
    gl: Option<GlBit>,
}

impl CrateLine<'_> {
    // The table of a station by its place.
    fn table(&self, place: usize) -> PlanTable
        ensures { result ≡ at_table.Station self.now.place place }
    {
        PlanTable::Station {
            crate_place: self.place,
            place,
        }
    }
}

// Puts the stations of a crate into the plan, one after the other.
pub(crate) fn add_stations(
    plan: &mut Plan,
    crates: &Array,
    k: &CrateLine,
    items: &Array,
) -> Result<(), BrokenRule>
    requires { IsSome (crate_at plan.old k.now.number) }
    ensures { Changes result plan.new (with_stations (array_view crates.now) (crate_view k.now) 0 plan.old (array_view items.now)) }
{
    'stations: for place in 0..items.len() {
        match &items[place] {
            Value::Table(table) => add_station_table(plan, crates, k, place, table)?,
            _ => {
                let at = PlanTable::Crate { place: k.place };
                return Err(no_tables(at, PlanKey::Stations));
            }
        }
    }
    Ok(())
}

// Puts the station of a table into its crate.
fn add_station_table(
    plan: &mut Plan,
    crates: &Array,
    k: &CrateLine,
    place: usize,
    table: &Table,
) -> Result<(), BrokenRule>
    requires { IsSome (crate_at plan.old k.now.number) }
    ensures reads { Changes result plan.new (next (station_of (at_table.Station k.now.place place) (table_view table.now)) (with_station (array_view crates.now) (crate_view k.now) place plan.old)) }
    ensures still_there { OnOk result (IsSome (crate_at plan.new k.now.number)) }
{
    match read_station(k.table(place), table) {
        Ok(line) => add_station(plan, crates, k, place, &line),
        Err(rule) => Err(rule),
    }
}

// Puts a station into its crate.
fn add_station(
    plan: &mut Plan,
    crates: &Array,
    k: &CrateLine,
    place: usize,
    line: &StationLine,
) -> Result<(), BrokenRule>
    requires in_plan { IsSome (crate_at plan.old k.now.number) }
    requires in_range { (1 ≤ line.now.n) × (line.now.n ≤ 23) }
    ensures reads { Changes result plan.new (with_station (array_view crates.now) (crate_view k.now) place plan.old (station_view line.now)) }
    ensures still_there { OnOk result (IsSome (crate_at plan.new k.now.number)) }
{
    if plan.station(k.number, line.n).is_some() {
        return Err(station_twice(k, place, line.n));
    }
    let type_no = match plan.type_named(line.type_name.as_bytes()) {
        Some(type_no) => type_no,
        None => return Err(unknown_type(k, place)),
    };
    match plan.add_station(k.number, line.n, type_no, line.gl) {
        Ok(()) => Ok(()),
        Err(_) => Err(bit_twice(crates, k, place, line.gl)),
    }
}

// The fault of a name that no type has.
fn unknown_type(k: &CrateLine, place: usize) -> BrokenRule
    ensures { result ≡ unknown_type (crate_view k.now) place }
{
    broken(
        PlanRule::UnknownType,
        PlanCase::NoType {
            table: k.table(place),
            key: PlanKey::TypeName,
        },
    )
}

// The fault of a station whose number a table of its crate has before: it names the first.
fn station_twice(k: &CrateLine, place: usize, n: Station) -> BrokenRule
    ensures { result ≡ station_twice (crate_view k.now) place n }
{
    let first = match k.stations {
        Some(items) => first_with(items, PlanKey::N, n.get()),
        None => None,
    };
    broken(
        PlanRule::StationTwice,
        PlanCase::Twice {
            table: k.table(place),
            key: PlanKey::N,
            first: k.table(first.unwrap_or(place)),
        },
    )
}

// The fault of a station whose GL bit a table before has: it names the first.
fn bit_twice(crates: &Array, k: &CrateLine, place: usize, gl: Option<GlBit>) -> BrokenRule
    ensures { result ≡ bit_twice (array_view crates.now) (crate_view k.now) place gl }
{
    let bit = match gl {
        Some(bit) => bit.get(),
        None => 0,
    };
    broken(
        PlanRule::BitTwice,
        PlanCase::Twice {
            table: k.table(place),
            key: PlanKey::Gl,
            first: first_with_bit(crates, bit),
        },
    )
}

// The first table of a station with a GL bit.
fn first_with_bit(crates: &Array, bit: u32) -> PlanTable
    ensures { result ≡ first_with_bit bit 0 (array_view crates.now) }
{
    'crates: for crate_place in 0..crates.len() {
        if let Some(place) = station_with_bit(&crates[crate_place], bit) {
            return PlanTable::Station { crate_place, place };
        }
    }
    PlanTable::Top
}

// The place of the first station of a crate's table with a GL bit.
fn station_with_bit(item: &Value, bit: u32) -> Option<usize>
    ensures { result ≡ first_with PlanKey.Gl bit 0 (stations_in (view item.now)) }
{
    match item {
        Value::Table(table) => match value_at(table, PlanKey::Stations) {
            Some(Value::Array(items)) => first_with(items, PlanKey::Gl, bit),
            _ => None,
        },
        _ => None,
    }
}

// Reads the table of a station.
fn read_station(at: PlanTable, table: &Table) -> Result<StationLine<'_>, BrokenRule>
    ensures value { Reads station_view result (station_of at (table_view table.now)) }
    ensures in_range { IfOk result (λ s. (1 ≤ s.n) × (s.n ≤ 23)) }
{
    has_only(at, table)?;
    let n = station_number(at, table)?;
    let type_name = text_at(at, table, PlanKey::TypeName)?;
    let gl = gl_bit(at, table)?;
    Ok(StationLine { n, type_name, gl })
}

fn station_number(at: PlanTable, table: &Table) -> Result<Station, BrokenRule>
    ensures value { result ≡ required_number_at at PlanKey.N 1 23 (table_view table.now) }
    ensures in_range { IfOk result (λ n. (1 ≤ n) × (n ≤ 23)) }
{
    let n = required_number_at(at, table, PlanKey::N, 1, 23)?;
    Station::new(n).ok_or(out_of_range(at, PlanKey::N, i64::from(n), 1, 23))
}

fn gl_bit(at: PlanTable, table: &Table) -> Result<Option<GlBit>, BrokenRule>
    ensures { result ≡ number_at at PlanKey.Gl 1 24 (table_view table.now) }
{
    match number_at(at, table, PlanKey::Gl, 1, 24)? {
        Some(x) => match GlBit::new(x) {
            Some(bit) => Ok(Some(bit)),
            None => Err(out_of_range(at, PlanKey::Gl, i64::from(x), 1, 24)),
        },
        None => Ok(None),
    }
}
