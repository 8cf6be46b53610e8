//! The text of a plan.

ghost use Rattle.std.specs.Prelude.{◌≡◌, ◌≤◌, ℕ, Ok, IfOk, IfErr, unwrap_or};
ghost use Rattle.toml.specs.View.{table_view};
ghost use Rattle.camac_plan.specs.Field.{number_at, items_or_none};
ghost use Rattle.camac_plan.specs.Types.{with_types};
ghost use Rattle.camac_plan.specs.Crates.{with_crates};
ghost use Rattle.camac_plan.specs.Nesting.{too_deep};
ghost use Rattle.camac_plan.specs.Reading.{AddsOrTells, GivesOrTells, ReadsOrTells, TellsCase, TellsBroken, plan_of, document_of, reading, shallow, stops_at, StopsWithin, TellsNoToml, TellsTooDeep};

use crate::crates::add_crates;
use crate::fault::{BrokenRule, PlanCase, PlanFault, PlanRule, PlanTable, broken};
use crate::field::{has_only, number_at, out_of_range, tables_at};
use crate::key::PlanKey;
use crate::module_type::add_types;
use crate::nesting::too_deep;
use camac_branch::Plan;
use std::alloc::Global;
use toml::Table;
use toml::value::Array;

/// Reads a plan from TOML (own). The first rule that is broken is answered, with its case: that the bytes nest at most 16 deep (P11), which is
/// judged before they are read; that they are TOML (P1); then the rules of the top table, then those of each type and its commands in
/// order, then those of each crate and its stations in order. A table is judged by its keys first, then by what each key holds, then by what
/// stands above it. P10: memory ran out.
pub fn read(alloc: Global, bytes: &[u8]) -> Result<Plan, PlanFault>
    ensures reads { ReadsOrTells result (reading bytes.now) }
    ensures case { IfErr result (TellsCase bytes.now) }
    ensures no_toml { TellsNoToml bytes.now }
    ensures too_deep { TellsTooDeep bytes.now }
{
    is_shallow(bytes)?;
    let table = read_document(alloc, bytes)?;
    read_table(alloc, &table)
}

// The bytes nest no deeper than a plan may.
fn is_shallow(bytes: &[u8]) -> Result<(), BrokenRule>
    ensures { result ≡ shallow (too_deep bytes.now) }
{
    match too_deep(bytes) {
        Some(at) => Err(broken(PlanRule::TooDeep, PlanCase::Nested { at })),
        None => Ok(()),
    }
}

// The table that a text says as TOML. Bytes that are not UTF-8 are no TOML.
fn read_document(alloc: Global, bytes: &[u8]) -> Result<Table, PlanFault>
    ensures ok { IfOk result (λ t. (at : ℕ) → document_of at bytes.now ≡ Ok (table_view t)) }
    ensures refused { IfErr result (λ e. TellsBroken e (document_of (stops_at e) bytes.now)) }
    ensures within { IfErr result (StopsWithin bytes.now) }
{
    match toml::table_from_slice(alloc, bytes) {
        Ok(table) => Ok(table),
        Err(e) => match e.span() {
            Some(span) => {
                let case = PlanCase::Text { at: span.start };
                Err(broken(PlanRule::NotToml, case).into())
            }
            None => Err(PlanFault::OutOfMemory),
        },
    }
}

// The plan that a table says.
fn read_table(alloc: Global, table: &Table) -> Result<Plan, PlanFault>
    ensures { GivesOrTells result (plan_of (table_view table.now)) }
{
    has_only(PlanTable::Top, table)?;
    let buffer = buffer_at(table)?.unwrap_or(4096);
    let types = tables_at(PlanTable::Top, table, PlanKey::Types)?;
    let crates = tables_at(PlanTable::Top, table, PlanKey::Crates)?;
    let mut plan = Plan::new(alloc, buffer).ok_or(out_of_range(
        PlanTable::Top,
        PlanKey::Buffer,
        i64::from(buffer),
        1,
        4096,
    ))?;
    add_any_types(alloc, &mut plan, types)?;
    add_any_crates(&mut plan, crates)?;
    Ok(plan)
}

fn buffer_at(table: &Table) -> Result<Option<u16>, BrokenRule>
    ensures value { result ≡ number_at PlanTable.Top PlanKey.Buffer 1 4096 (table_view table.now) }
    ensures in_range { IfOk result (λ b. (1 ≤ unwrap_or b 4096) × (unwrap_or b 4096 ≤ 4096)) }
{
    match number_at(PlanTable::Top, table, PlanKey::Buffer, 1, 4096)? {
        Some(buffer) => Ok(Some(buffer as u16)),
        None => Ok(None),
    }
}

// Puts the types into the plan, if there are any.
fn add_any_types(alloc: Global, plan: &mut Plan, types: Option<&Array>) -> Result<(), PlanFault>
    ensures { AddsOrTells result plan.new (with_types plan.old (items_or_none types.entry)) }
{
    match types {
        Some(items) => add_types(alloc, plan, items),
        None => Ok(()),
    }
}

// Puts the crates into the plan, if there are any.
fn add_any_crates(plan: &mut Plan, crates: Option<&Array>) -> Result<(), PlanFault>
    ensures { AddsOrTells result plan.new (with_crates (items_or_none crates.entry) 0 plan.old (items_or_none crates.entry)) }
{
    match crates {
        Some(items) => Ok(add_crates(plan, items)?),
        None => Ok(()),
    }
}
