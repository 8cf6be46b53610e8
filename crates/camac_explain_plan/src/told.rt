// What is told of a value: what it is, and what is expected there.

ghost use Rattle.std.specs.Prelude.{◌≡◌, IfOk, option_map, string_bytes};
ghost use Rattle.toml.specs.View.{array_view, table_view, view};
ghost use Rattle.camac_explain_plan.specs.Told.{command_place, first_other, key_hint, kind_name, kind_text, kind_told, missing_hint, missing_told, needed, other_in, plan_hint, shown, case_text, twice_told};
ghost use Rattle.camac_explain_plan.specs.Path.{nth};
ghost use Rattle.camac_sentence.specs.Filled.{part_text};

use crate::path::{Nth, Path, is_known_by};
use crate::place::hint_of_text;
use crate::texts;
use camac_lines::Quote;
use camac_plan::{PlanCase, PlanKey, PlanTable, ValueKind};
use camac_sentence::{Part, fill};
use std::alloc::{AllocError, Global};
use toml::value::Array;
use toml::{Table, Value};

// What has to stand at a key.
fn needed(alloc: Global, kind: ValueKind) -> Result<String, AllocError>
    ensures { IfOk result (λ s. string_bytes s ≡ needed kind) }
{
    match kind {
        ValueKind::Number { low, high } => fill(
            alloc,
            texts::WHOLE_NUMBER,
            &[Part::Number(low), Part::Number(high)],
        ),
        ValueKind::Flag => String::from_str(alloc, texts::FLAG),
        ValueKind::Text => String::from_str(alloc, texts::TEXT),
        ValueKind::Tables => String::from_str(alloc, texts::TABLES),
    }
}

// A value of a plan as it is told.
fn shown(value: Option<&Value>) -> Part<'_>
    ensures { part_text result ≡ shown (option_map (λ v. view v.now) value.entry) }
{
    match value {
        Some(Value::Integer(number)) => Part::Signed(*number),
        Some(Value::String(text)) => Part::Quoted(Quote(text.as_str().as_bytes())),
        _ => Part::Word("`?`"),
    }
}

/// How to write it right, if the case knows: the fix of this refusal, in place of what is told of its rule.
pub fn plan_hint(text: &[u8], case: PlanCase) -> Option<&'static str>
    ensures { option_map (λ h. h.now) result ≡ plan_hint text.now case }
{
    match case {
        PlanCase::Text { at } => hint_of_text(text, at),
        PlanCase::Kind { key, .. } => key_hint(key),
        PlanCase::Missing { key, .. } => missing_hint(key),
        _ => None,
    }
}

// What a rule knew of the value at its key, if there is one.
pub(crate) fn case_text(
    alloc: Global,
    top: &Table,
    value: Option<&Value>,
    case: PlanCase,
) -> Result<String, AllocError>
    ensures { IfOk result (λ s. string_bytes s ≡ case_text (table_view top.now) (option_map (λ v. view v.now) value.entry) case) }
{
    match case {
        PlanCase::Missing { kind, .. } => missing_told(alloc, kind),
        PlanCase::Kind { kind, .. } => kind_told(alloc, value, kind),
        PlanCase::Range {
            found,
            low,
            high,
            ..
        } => fill(
            alloc,
            texts::OUT_OF_RANGE,
            &[Part::Signed(found), Part::Number(low), Part::Number(high)],
        ),
        PlanCase::Name { .. } => fill(alloc, texts::NO_NAME, &[shown(value)]),
        PlanCase::Probe { width, .. } => fill(alloc, texts::PROBE, &[Part::Number(width)]),
        PlanCase::ClearingProbe { .. } => String::from_str(alloc, texts::CLEARING_PROBE),
        PlanCase::Full { .. } => String::from_str(alloc, texts::FULL),
        PlanCase::Twice { key, first, .. } => twice_told(alloc, top, value, key, first),
        PlanCase::Command { f, a, first, .. } => {
            let first = nth(alloc, command_place(first), "command")?;
            fill(
                alloc,
                texts::DECLARED,
                &[Part::Number(f), Part::Number(a), Part::Word(first.as_str())],
            )
        }
        _ => fill(alloc, texts::VALUE, &[shown(value)]),
    }
}

fn nth(alloc: Global, place: usize, of: &'static str) -> Result<String, AllocError>
    ensures { IfOk result (λ s. string_bytes s ≡ nth place of.now) }
{
    let nth = Nth { place, of };
    format!(in alloc; "{nth}")
}

fn missing_told(alloc: Global, wanted: ValueKind) -> Result<String, AllocError>
    ensures { IfOk result (λ s. string_bytes s ≡ missing_told wanted) }
{
    let needed = needed(alloc, wanted)?;
    fill(alloc, texts::MISSING, &[Part::Word(needed.as_str())])
}

// A value that the first table of it has. What this is known by is no way to it, but its home has a name.
fn twice_told(
    alloc: Global,
    top: &Table,
    value: Option<&Value>,
    key: PlanKey,
    first: PlanTable,
) -> Result<String, AllocError>
    ensures { IfOk result (λ s. string_bytes s ≡ twice_told (table_view top.now) (option_map (λ v. view v.now) value.entry) key first) }
{
    let own = if is_known_by(key) { None } else { Some(top) };
    let first = Path {
        around: Some(top),
        own,
        table: first,
    };
    let first = format!(in alloc; "{first}")?;
    fill(
        alloc,
        texts::USED,
        &[shown(value), Part::Word(first.as_str())],
    )
}

fn command_place(table: PlanTable) -> usize
    ensures { result ≡ command_place table }
{
    match table {
        PlanTable::Command { place, .. } => place,
        _ => 0,
    }
}

// Of a value of another kind, or of an array with an entry of another kind.
fn kind_told(alloc: Global, value: Option<&Value>, wanted: ValueKind) -> Result<String, AllocError>
    ensures { IfOk result (λ s. string_bytes s ≡ kind_told (option_map (λ v. view v.now) value.entry) wanted) }
{
    match other_in(wanted, value) {
        Some((place, kind)) => {
            let nth = nth(alloc, place, "entry")?;
            fill(
                alloc,
                texts::NO_TABLE,
                &[Part::Word(nth.as_str()), Part::Word(kind)],
            )
        }
        None => kind_text(alloc, value, wanted),
    }
}

fn kind_text(alloc: Global, value: Option<&Value>, wanted: ValueKind) -> Result<String, AllocError>
    ensures { IfOk result (λ s. string_bytes s ≡ kind_text (option_map (λ v. view v.now) value.entry) wanted) }
{
    let needed = needed(alloc, wanted)?;
    let kind = Part::Word(kind_name(value));
    fill(alloc, texts::KIND, &[kind, Part::Word(needed.as_str())])
}

fn kind_name(value: Option<&Value>) -> &'static str
    ensures { result.now ≡ kind_name (option_map (λ v. view v.now) value.entry) }
{
    match value {
        Some(value) => value.type_str(),
        None => "?",
    }
}

// How to write what belongs at a key.
fn key_hint(key: PlanKey) -> Option<&'static str>
    ensures { option_map (λ h. h.now) result ≡ key_hint key }
{
    match key {
        PlanKey::A => Some(texts::RANGE),
        PlanKey::Crates | PlanKey::Stations | PlanKey::Types => Some(texts::DOUBLE_BRACKETS),
        _ => None,
    }
}

// Where to write a key that is missing.
fn missing_hint(key: PlanKey) -> Option<&'static str>
    ensures { option_map (λ h. h.now) result ≡ missing_hint key }
{
    match key {
        PlanKey::Number => Some(texts::ABOVE_STATIONS),
        _ => None,
    }
}

// The first entry that is no table, where an array of tables is wanted, with its kind.
fn other_in(wanted: ValueKind, value: Option<&Value>) -> Option<(usize, &'static str)>
    ensures { option_map (λ o. (o.0, o.1.now)) result ≡ other_in wanted (option_map (λ v. view v.now) value.entry) }
{
    match (wanted, value) {
        (ValueKind::Tables, Some(Value::Array(items))) => first_other(items),
        _ => None,
    }
}

fn first_other(items: &Array) -> Option<(usize, &'static str)>
    ensures { option_map (λ o. (o.0, o.1.now)) result ≡ first_other 0 (array_view items.now) }
{
    'items: for place in 0..items.len() {
        match &items[place] {
            Value::Table(_) => {}
            other => return Some((place, other.type_str())),
        }
    }
    None
}
