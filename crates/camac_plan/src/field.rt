//! The keys of a table and what they hold, each with the first rule that is broken.

ghost use Rattle.std.specs.Prelude.{◌≡◌, ◌≤◌, option_map, IfOk, IfSome};
ghost use Rattle.std.specs.List.{list_any};
ghost use Rattle.toml.specs.View.{view, array_view, table_view};
ghost use Rattle.camac_plan.specs.Field.{is_text, first_unknown, has_only, value_at, number_in, number_at, required_number_at, text_in, text_at, flag_in, flag_at, are_tables, no_tables, tables_in, tables_at, required_tables_at, has_number, first_with, Reads, text_view, items_of, items_or_none};
ghost use Rattle.camac_plan.specs.Broken.{broken};

use crate::fault::{BrokenRule, PlanCase, PlanRule, PlanTable, ValueKind, broken};
use crate::key::{PlanKey, keys_of};
use toml::value::Array;
use toml::{Table, Value};

// Each key of the table is one that it may have.
pub(crate) fn has_only(at: PlanTable, table: &Table) -> Result<(), BrokenRule>
    ensures { result ≡ has_only at (table_view table.now) }
{
    match first_unknown(table, keys_of(at)) {
        Some(entry) => Err(broken(PlanRule::UnknownKey, PlanCase::Unknown { table: at, entry })),
        None => Ok(()),
    }
}

// The number of the first key that is none of these, from 0.
fn first_unknown(table: &Table, keys: &[PlanKey]) -> Option<usize>
    ensures { result ≡ first_unknown keys.now 0 (table_view table.now) }
{
    let size = table.len();
    let mut entry = 0;
    'members: for (key, _value) in table.iter() {
        if !is_one_of(key.as_str(), keys) {
            return Some(entry);
        }
        entry += 1;
    }
    None
}

fn is_one_of(key: &str, keys: &[PlanKey]) -> bool
    ensures { result ≡ list_any (is_text key.now) keys.now }
{
    'keys: for known in keys {
        if key == known.text() {
            return true;
        }
    }
    false
}

// The value at a key.
pub(crate) fn value_at(table: &Table, key: PlanKey) -> Option<&Value>
    ensures { option_map (λ v. view v.now) result ≡ value_at key (table_view table.now) }
{
    table.get(key.text())
}

fn missing(at: PlanTable, key: PlanKey, kind: ValueKind) -> BrokenRule
    ensures { result ≡ broken PlanRule.MissingOrWrongKind (PlanCase.Missing at key kind) }
{
    broken(
        PlanRule::MissingOrWrongKind,
        PlanCase::Missing {
            table: at,
            key,
            kind,
        },
    )
}

fn wrong_kind(at: PlanTable, key: PlanKey, kind: ValueKind) -> BrokenRule
    ensures { result ≡ broken PlanRule.MissingOrWrongKind (PlanCase.Kind at key kind) }
{
    broken(
        PlanRule::MissingOrWrongKind,
        PlanCase::Kind {
            table: at,
            key,
            kind,
        },
    )
}

// The fault of a number below the least or above the greatest.
pub(crate) fn out_of_range(
    at: PlanTable,
    key: PlanKey,
    found: i64,
    low: u32,
    high: u32,
) -> BrokenRule
    ensures { result ≡ broken PlanRule.OutOfRange (PlanCase.Range at key found low high) }
{
    broken(
        PlanRule::OutOfRange,
        PlanCase::Range {
            table: at,
            key,
            found,
            low,
            high,
        },
    )
}

// A number in a range.
fn number_in(
    at: PlanTable,
    key: PlanKey,
    value: &Value,
    low: u32,
    high: u32,
) -> Result<u32, BrokenRule>
    ensures value { result ≡ number_in at key low high (view value.now) }
    ensures in_range { IfOk result (λ x. (low ≤ x) × (x ≤ high)) }
{
    match value {
        Value::Integer(x) => match u32::try_from(*x) {
            Ok(n) => {
                if low <= n && n <= high {
                    Ok(n)
                } else {
                    Err(out_of_range(at, key, *x, low, high))
                }
            }
            Err(_) => Err(out_of_range(at, key, *x, low, high)),
        },
        _ => Err(wrong_kind(at, key, ValueKind::Number { low, high })),
    }
}

// The number at a key, if the key is there.
pub(crate) fn number_at(
    at: PlanTable,
    table: &Table,
    key: PlanKey,
    low: u32,
    high: u32,
) -> Result<Option<u32>, BrokenRule>
    ensures value { result ≡ number_at at key low high (table_view table.now) }
    ensures in_range { IfOk result (λ o. IfSome o (λ x. (low ≤ x) × (x ≤ high))) }
{
    match value_at(table, key) {
        Some(value) => Ok(Some(number_in(at, key, value, low, high)?)),
        None => Ok(None),
    }
}

// The number at a key that has to be there.
pub(crate) fn required_number_at(
    at: PlanTable,
    table: &Table,
    key: PlanKey,
    low: u32,
    high: u32,
) -> Result<u32, BrokenRule>
    ensures value { result ≡ required_number_at at key low high (table_view table.now) }
    ensures in_range { IfOk result (λ x. (low ≤ x) × (x ≤ high)) }
{
    match number_at(at, table, key, low, high)? {
        Some(x) => Ok(x),
        None => Err(missing(at, key, ValueKind::Number { low, high })),
    }
}

fn text_in(at: PlanTable, key: PlanKey, value: &Value) -> Result<&str, BrokenRule>
    ensures { Reads text_view result (text_in at key (view value.now)) }
{
    match value {
        Value::String(text) => Ok(text.as_str()),
        _ => Err(wrong_kind(at, key, ValueKind::Text)),
    }
}

// The text at a key that has to be there.
pub(crate) fn text_at(at: PlanTable, table: &Table, key: PlanKey) -> Result<&str, BrokenRule>
    ensures { Reads text_view result (text_at at key (table_view table.now)) }
{
    match value_at(table, key) {
        Some(value) => text_in(at, key, value),
        None => Err(missing(at, key, ValueKind::Text)),
    }
}

fn flag_in(at: PlanTable, key: PlanKey, value: &Value) -> Result<bool, BrokenRule>
    ensures { result ≡ flag_in at key (view value.now) }
{
    match value {
        Value::Boolean(flag) => Ok(*flag),
        _ => Err(wrong_kind(at, key, ValueKind::Flag)),
    }
}

// The flag at a key, if the key is there.
pub(crate) fn flag_at(
    at: PlanTable,
    table: &Table,
    key: PlanKey,
) -> Result<Option<bool>, BrokenRule>
    ensures { result ≡ flag_at at key (table_view table.now) }
{
    match value_at(table, key) {
        Some(value) => Ok(Some(flag_in(at, key, value)?)),
        None => Ok(None),
    }
}

// Whether each item of an array is a table.
fn are_tables(array: &Array) -> bool
    ensures { result ≡ are_tables (array_view array.now) }
{
    'items: for item in array {
        match item {
            Value::Table(_) => {}
            _ => return false,
        }
    }
    true
}

// The fault of a value that is no array of tables.
pub(crate) fn no_tables(at: PlanTable, key: PlanKey) -> BrokenRule
    ensures { result ≡ no_tables at key }
{
    wrong_kind(at, key, ValueKind::Tables)
}

fn tables_in(at: PlanTable, key: PlanKey, value: &Value) -> Result<&Array, BrokenRule>
    ensures { Reads items_of result (tables_in at key (view value.now)) }
{
    match value {
        Value::Array(array) => {
            if are_tables(array) {
                Ok(array)
            } else {
                Err(no_tables(at, key))
            }
        }
        _ => Err(no_tables(at, key)),
    }
}

// The array of tables at a key, if the key is there.
pub(crate) fn tables_at(
    at: PlanTable,
    table: &Table,
    key: PlanKey,
) -> Result<Option<&Array>, BrokenRule>
    ensures { Reads items_or_none result (tables_at at key (table_view table.now)) }
{
    match value_at(table, key) {
        Some(value) => Ok(Some(tables_in(at, key, value)?)),
        None => Ok(None),
    }
}

// The array of tables at a key that has to be there.
pub(crate) fn required_tables_at(
    at: PlanTable,
    table: &Table,
    key: PlanKey,
) -> Result<&Array, BrokenRule>
    ensures { Reads items_of result (required_tables_at at key (table_view table.now)) }
{
    match value_at(table, key) {
        Some(value) => tables_in(at, key, value),
        None => Err(missing(at, key, ValueKind::Tables)),
    }
}

// Whether a table has a number at a key.
fn has_number(item: &Value, key: PlanKey, number: u32) -> bool
    ensures { result ≡ has_number key number (view item.now) }
{
    match item {
        Value::Table(table) => match value_at(table, key) {
            Some(Value::Integer(x)) => match u32::try_from(*x) {
                Ok(n) => n == number,
                Err(_) => false,
            },
            _ => false,
        },
        _ => false,
    }
}

// The place of the first table that has a number at a key.
pub(crate) fn first_with(items: &Array, key: PlanKey, number: u32) -> Option<usize>
    ensures { result ≡ first_with key number 0 (array_view items.now) }
{
    'items: for place in 0..items.len() {
        if has_number(&items[place], key, number) {
            return Some(place);
        }
    }
    None
}
