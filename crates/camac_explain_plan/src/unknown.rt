// What is told of a key that its table has not: what it may be, and the keys of the table.

ghost use Rattle.std.specs.Prelude.{◌≡◌, ◌++◌, IfOk, OnOk, length, option_copied, option_map, string_bytes};
ghost use Rattle.toml.specs.View.{table_view};
ghost use Rattle.std.specs.List.{list_any};
ghost use Rattle.camac_plan.specs.Field.{is_text};
ghost use Rattle.camac_explain_plan.specs.Told.{hint, hint_text, home_of, homes, key_in, key_item, keys_from, near_key, nth_key, unknown_sentence, unknown_text};

use crate::path::{comma, way_to};
use crate::table::{kind_of, table_at};
use crate::texts::{HOME, MEANT, UNKNOWN};
use camac_lines::{Quote, before_item, is_near};
use camac_plan::{PlanKey, PlanTable, keys_of};
use camac_sentence::{Part, fill};
use std::alloc::{AllocError, Global};
use toml::Table;

// Of the key of this number, in the order of their bytes, if the table has it.
pub(crate) fn unknown_sentence(
    alloc: Global,
    top: &Table,
    table: PlanTable,
    entry: usize,
) -> Result<Option<String>, AllocError>
    ensures { IfOk result (λ s. option_map string_bytes s ≡ unknown_sentence (table_view top.now) table entry) }
{
    match key_in(top, table, entry) {
        Some(key) => unknown_text(alloc, top, table, key).map(Some),
        None => Ok(None),
    }
}

fn key_in(top: &Table, table: PlanTable, entry: usize) -> Option<&str>
    ensures { option_copied result ≡ key_in (table_view top.now) table entry }
{
    match table_at(top, table) {
        Some(members) => nth_key(members, entry),
        None => None,
    }
}

fn nth_key(members: &Table, entry: usize) -> Option<&str>
    ensures { option_copied result ≡ nth_key entry (table_view members.now) }
{
    let mut left = entry;
    'members: for (key, _value) in members.iter() {
        if left == 0 {
            return Some(key.as_str());
        }
        left -= 1;
    }
    None
}

fn unknown_text(
    alloc: Global,
    top: &Table,
    table: PlanTable,
    key: &str,
) -> Result<String, AllocError>
    ensures { IfOk result (λ s. string_bytes s ≡ unknown_text (table_view top.now) table key.now) }
{
    let path = way_to(alloc, top, table, None)?;
    let hint = hint_text(alloc, hint(key, table))?;
    let keys = keys_text(alloc, keys_of(table))?;
    fill(
        alloc,
        UNKNOWN,
        &[
            Part::Word(path.as_str()),
            Part::Word(comma(table)),
            Part::Quoted(Quote(key.as_bytes())),
            Part::Word(hint.as_str()),
            Part::Word(kind_of(table)),
            Part::Word(keys.as_str()),
        ],
    )
}

// Keys in quotes, as a list.
fn keys_text(alloc: Global, keys: &[PlanKey]) -> Result<String, AllocError>
    ensures { IfOk result (λ s. string_bytes s ≡ keys_from 0 (length keys.now) keys.now) }
{
    let mut text = String::new(alloc);
    'keys: for place in 0..keys.len() {
        let before = before_item(place, keys.len(), " and ");
        push_key(alloc, &mut text, before, keys[place])?;
    }
    Ok(text)
}

fn push_key(alloc: Global, text: &mut String, before: &str, key: PlanKey) -> Result<(), AllocError>
    ensures { OnOk result (string_bytes text.new ≡ string_bytes text.old ++ key_item before.now key) }
{
    let key = key.text();
    let item = format!(in alloc; "{before}`{key}`")?;
    text.push_str(item.as_str())
}

// What an unknown key may be: a near one of its table, or one of another table.
#[derive(Clone, Copy)]
enum Meant {
    Near(PlanKey),
    Home(PlanTable),
    Nothing,
}

fn hint_text(alloc: Global, meant: Meant) -> Result<String, AllocError>
    ensures { IfOk result (λ s. string_bytes s ≡ hint_text meant) }
{
    match meant {
        Meant::Near(near) => fill(alloc, MEANT, &[Part::Word(near.text())]),
        Meant::Home(home) => fill(alloc, HOME, &[Part::Word(kind_of(home))]),
        Meant::Nothing => Ok(String::new(alloc)),
    }
}

fn hint(key: &str, table: PlanTable) -> Meant
    ensures { result ≡ hint key.now table }
{
    match near_key(key.as_bytes(), keys_of(table)) {
        Some(near) => Meant::Near(near),
        None => match home_of(key) {
            Some(home) => Meant::Home(home),
            None => Meant::Nothing,
        },
    }
}

fn near_key(key: &[u8], known: &[PlanKey]) -> Option<PlanKey>
    ensures { result ≡ near_key key.now known.now }
{
    'known: for near in known {
        if is_near(key, near.text().as_bytes()) {
            return Some(*near);
        }
    }
    None
}

// A table that has the key.
fn home_of(key: &str) -> Option<PlanTable>
    ensures { result ≡ home_of key.now homes }
{
    let (type_place, crate_place, place) = (0, 0, 0);
    first_home(
        key,
        &[
            PlanTable::Top,
            PlanTable::ModuleType { place },
            PlanTable::Command { type_place, place },
            PlanTable::Crate { place },
            PlanTable::Station { crate_place, place },
        ],
    )
}

fn first_home(key: &str, tables: &[PlanTable]) -> Option<PlanTable>
    ensures { result ≡ home_of key.now tables.now }
{
    'tables: for home in tables {
        if has_key(key, keys_of(*home)) {
            return Some(*home);
        }
    }
    None
}

fn has_key(key: &str, known: &[PlanKey]) -> bool
    ensures { result ≡ list_any (is_text key.now) known.now }
{
    'known: for it in known {
        if key == it.text() {
            return true;
        }
    }
    false
}
