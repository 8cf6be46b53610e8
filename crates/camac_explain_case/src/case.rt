// The lines that are told of a refused statement beside its rule.

ghost use Rattle.std.specs.Prelude.{◌≡◌, ◌++◌, IfOk, OnOk, option_map};
ghost use Rattle.std.specs.List.{flat_map};
ghost use Rattle.camac_explain_case.specs.Case.{case_lines, has_waits, place_text, places_line, places_text, set_among, set_line, set_of, waits_in, waits_line};

use crate::address::{last_set, register_at};
use camac_branch::Plan;
use camac_check_known::{is_declared, waits_of};
use camac_lang::Spot;
use camac_lines::Quote;
use camac_range::Range;
use camac_rules::{Case, CheckRule};
use camac_tokens::{TextFault, Token, tokens};
use camac_word::Function;
use std::alloc::{AllocError, Global};

pub static SUB_ADDRESSES: [u32; 16] = [0, 1, 2, 3, 4, 5, 6, 7, 8, 9, 10, 11, 12, 13, 14, 15];

pub const WAITS: &str =
    "Waits: auxiliary controllers may take up to the crate's `waits` before each of our cycles, and theirs count; several in one `lock` wait once.\n";

/// Puts at the end what is told of a statement or a heading that a rule refuses in this case.
#[tactic(auto, unfolding(crate::specs::Case::case_lines))]
pub fn push_case(
    alloc: Global,
    lines: &mut Vec<u8>,
    plan: &Plan,
    text: &[u8],
    rule: CheckRule,
    spot: Spot,
    case: Case,
) -> Result<(), AllocError>
    ensures { OnOk result (lines.new.items ≡ lines.old.items ++ case_lines plan.now text.now rule spot case) }
{
    match rule {
        CheckRule::StationNotInstalled => push_set(alloc, lines, text, spot),
        CheckRule::CommandNotDeclared => {
            push_set(alloc, lines, text, spot)?;
            push_places(alloc, lines, plan, case)
        }
        CheckRule::TooManyCycles => push_waits(lines, plan),
        _ => Ok(()),
    }
}

// Where the address of a statement was set, if a register holds it.
fn push_set(alloc: Global, lines: &mut Vec<u8>, text: &[u8], spot: Spot) -> Result<(), AllocError>
    ensures { OnOk result (lines.new.items ≡ lines.old.items ++ set_line text.now spot) }
{
    match tokens(alloc, text) {
        Ok(tokens) => push_set_among(alloc, lines, &tokens, spot),
        Err(TextFault::OutOfMemory) => Err(AllocError),
        Err(TextFault::Broken { .. }) => Ok(()),
    }
}

fn push_set_among(
    alloc: Global,
    lines: &mut Vec<u8>,
    tokens: &[Token],
    spot: Spot,
) -> Result<(), AllocError>
    ensures { OnOk result (lines.new.items ≡ lines.old.items ++ set_among tokens.now spot) }
{
    match register_at(tokens, spot.left) {
        Some(register) => push_set_of(
            alloc,
            lines,
            register,
            last_set(tokens, spot.left, register),
        ),
        None => Ok(()),
    }
}

fn push_set_of(
    alloc: Global,
    lines: &mut Vec<u8>,
    register: &[u8],
    line: Option<u32>,
) -> Result<(), AllocError>
    ensures { OnOk result (lines.new.items ≡ lines.old.items ++ set_of register.now line) }
{
    let Some(line) = line else {
        return Ok(());
    };
    let told = format!(in alloc;
        "Set: the `cdreg` of {} is on line {line}.\n",
        Quote(register)
    )?;
    lines.extend_from_slice(told.as_bytes())?;
    Ok(())
}

// Where the plan has the function that a station does not declare at some sub-address.
fn push_places(
    alloc: Global,
    lines: &mut Vec<u8>,
    plan: &Plan,
    case: Case,
) -> Result<(), AllocError>
    ensures { OnOk result (lines.new.items ≡ lines.old.items ++ places_line plan.now case) }
{
    let Case::NoCommand {
        function,
        crate_no,
        station,
        ..
    } = case
    else {
        return Ok(());
    };
    let Some(f) = Function::new(function) else {
        return Ok(());
    };
    let places = places_in(alloc, plan, f, crate_no, station, &SUB_ADDRESSES)?;
    push_places_of(alloc, lines, function, &places)
}

fn push_places_of(
    alloc: Global,
    lines: &mut Vec<u8>,
    function: u32,
    places: &[u8],
) -> Result<(), AllocError>
    ensures { OnOk result (lines.new.items ≡ lines.old.items ++ places_text function places.now) }
{
    match places {
        [] => Ok(()),
        [_, ..] => {
            lines.extend_from_slice(format!(in alloc; "Plan: F{function} is at")?.as_bytes())?;
            lines.extend_from_slice(places)?;
            lines.extend_from_slice(b".\n")?;
            Ok(())
        }
    }
}

fn places_in(
    alloc: Global,
    plan: &Plan,
    f: Function,
    crate_no: u32,
    station: u32,
    sub_addresses: &[u32],
) -> Result<Vec<u8>, AllocError>
    ensures { IfOk result (λ v. v.items ≡ flat_map (place_text plan.now f crate_no station) sub_addresses.now) }
{
    let mut places = Vec::new(alloc);
    'sub_addresses: for a in sub_addresses {
        if is_declared(plan, f, Range::only(*a), crate_no, station) {
            places.extend_from_slice(format!(in alloc; " A{}", *a)?.as_bytes())?;
        }
    }
    Ok(places)
}

fn push_waits(lines: &mut Vec<u8>, plan: &Plan) -> Result<(), AllocError>
    ensures { OnOk result (lines.new.items ≡ lines.old.items ++ waits_line plan.now) }
{
    if has_waits(plan) {
        lines.extend_from_slice(WAITS.as_bytes())?;
    }
    Ok(())
}

// Whether a cycle in some crate may wait.
fn has_waits(plan: &Plan) -> bool
    ensures { result ≡ has_waits plan.now }
{
    waits_in(plan, 1)
        || waits_in(plan, 2)
        || waits_in(plan, 3)
        || waits_in(plan, 4)
        || waits_in(plan, 5)
        || waits_in(plan, 6)
        || waits_in(plan, 7)
}

fn waits_in(plan: &Plan, crate_no: u32) -> bool
    ensures { result ≡ waits_in plan.now crate_no }
{
    waits_of(plan, crate_no) > 0
}
