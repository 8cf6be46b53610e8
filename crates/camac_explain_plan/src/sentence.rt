// The sentence of a refused plan.

ghost use Rattle.std.specs.Prelude.{◌≡◌, IfOk, Some, option_map, string_bytes};
ghost use Rattle.toml.specs.View.{table_view, view};
ghost use Rattle.camac_explain_plan.specs.Sentence.{IsPlanSentence, IsReadSentence, at_table, in_table, nested_at, nested_text, no_table, spot_in, unknown_in, value_at_key};

use crate::path::way_to;
use crate::place::{before, place_sentence};
use crate::table::value_in;
use crate::texts::DEEP;
use crate::told::case_text;
use crate::unknown::unknown_sentence;
use camac_plan::{PlanCase, PlanKey, PlanTable};
use std::alloc::{AllocError, Global};
use toml::{Table, Value};

/// What a rule of plans knew of a text, in words: the way to the place, what stands there, what is expected, and what it may be. Of a text
/// that is no TOML (P1) or nests too deep (P11) the line and the column, from 1. None where no table of the text has the place of the case.
#[tactic(auto, using(crate::proofs::Sentences::told_nested, crate::proofs::Sentences::told_read))]
pub fn plan_sentence(
    alloc: Global,
    text: &[u8],
    case: PlanCase,
) -> Result<Option<String>, AllocError>
    ensures { IfOk result (λ s. IsPlanSentence text.now case (option_map string_bytes s)) }
{
    match nested_at(case) {
        Some(at) => nested_sentence(alloc, text, at),
        None => read_sentence(alloc, text, case),
    }
}

fn nested_at(case: PlanCase) -> Option<usize>
    ensures { result ≡ nested_at case }
{
    match case {
        PlanCase::Nested { at } => Some(at),
        _ => None,
    }
}

fn nested_sentence(alloc: Global, text: &[u8], at: usize) -> Result<Option<String>, AllocError>
    ensures { IfOk result (λ s. option_map string_bytes s ≡ Some (nested_text text.now at)) }
{
    place_sentence(alloc, before(text, at), DEEP).map(Some)
}

// Of a text that is read as TOML.
fn read_sentence(alloc: Global, text: &[u8], case: PlanCase) -> Result<Option<String>, AllocError>
    ensures { IfOk result (λ s. IsReadSentence text.now case (option_map string_bytes s)) }
{
    match toml::table_from_slice(alloc, text) {
        Ok(top) => sentence_of_table(alloc, &top, case),
        Err(error) => {
            if error.is_memory() {
                return Err(AllocError);
            }
            sentence_of_text(alloc, text, error.message(), case)
        }
    }
}

// Of a text that says no table: how the TOML library calls the fault.
fn sentence_of_text(
    alloc: Global,
    text: &[u8],
    message: &str,
    case: PlanCase,
) -> Result<Option<String>, AllocError>
    ensures { IfOk result (λ s. option_map string_bytes s ≡ no_table message.now text.now case) }
{
    match case {
        PlanCase::Text { at } => place_sentence(alloc, before(text, at), message).map(Some),
        _ => Ok(None),
    }
}

// Of a text that says this table.
fn sentence_of_table(
    alloc: Global,
    top: &Table,
    case: PlanCase,
) -> Result<Option<String>, AllocError>
    ensures { IfOk result (λ s. option_map string_bytes s ≡ in_table (table_view top.now) case) }
{
    match unknown_in(case) {
        Some((table, entry)) => unknown_sentence(alloc, top, table, entry),
        None => match spot_in(case) {
            Some((table, key)) => at_table(alloc, top, table, key, case).map(Some),
            None => Ok(None),
        },
    }
}

fn unknown_in(case: PlanCase) -> Option<(PlanTable, usize)>
    ensures { result ≡ unknown_in case }
{
    match case {
        PlanCase::Unknown { table, entry } => Some((table, entry)),
        _ => None,
    }
}

// The table where a rule is broken, and the key, if it is one of those that a plan has.
fn spot_in(case: PlanCase) -> Option<(PlanTable, Option<PlanKey>)>
    ensures { result ≡ spot_in case }
{
    match case {
        PlanCase::Missing { table, key, .. }
        | PlanCase::Kind { table, key, .. }
        | PlanCase::Range { table, key, .. }
        | PlanCase::Name { table, key }
        | PlanCase::Twice { table, key, .. }
        | PlanCase::NoType { table, key } => Some((table, Some(key))),
        PlanCase::Probe { table, .. } => Some((table, Some(PlanKey::Width))),
        PlanCase::ClearingProbe { table } => Some((table, Some(PlanKey::Clears))),
        PlanCase::Full { table } | PlanCase::Command { table, .. } => Some((table, None)),
        PlanCase::Text { .. } | PlanCase::Nested { .. } | PlanCase::Unknown { .. } => None,
    }
}

// The way to the place, and what is told of it.
fn at_table(
    alloc: Global,
    top: &Table,
    table: PlanTable,
    key: Option<PlanKey>,
    case: PlanCase,
) -> Result<String, AllocError>
    ensures { IfOk result (λ s. string_bytes s ≡ at_table (table_view top.now) table key case) }
{
    let way = way_to(alloc, top, table, key)?;
    let told = case_text(alloc, top, value_at_key(top, table, key), case)?;
    format!(in alloc; "{way}: {told}")
}

fn value_at_key<'a>(top: &'a Table, table: PlanTable, key: Option<PlanKey>) -> Option<&'a Value>
    ensures { option_map (λ v. view v.now) result ≡ value_at_key (table_view top.now) table key }
{
    match key {
        Some(key) => value_in(top, table, key),
        None => None,
    }
}
