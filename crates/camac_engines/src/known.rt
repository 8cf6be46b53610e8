// What is told of what is known at a place of a script.

ghost use Rattle.std.specs.Prelude.{◌≡◌, ◌||◌, ◌++◌, codes, decimal};
ghost use Rattle.camac_names.specs.Link.{link_fault};
ghost use Rattle.camac_tokens.specs.Scanning.{tokens_of};
ghost use Rattle.camac_engines.specs.Engine.{Shows, is_write_fault};
ghost use Rattle.camac_engines.specs.Known.{FindsKnown, FindsStanding, known_linked, known_report, known_report_of, known_there, standing_among};
ghost use Rattle.camac_word.specs.Watched.{inner_of, has_failed};

use crate::engine::refuse;
use crate::fault::ToolFault;
use crate::outcome::Outcome;
use crate::standing::standing_at;
use camac_branch::Plan;
use camac_check::CheckFault;
use camac_check_costs::{find_place, known_lines};
use camac_lang::{Script, Spot};
use camac_lines::{Line, Refusal};
use camac_names::{LinkFault, Linked, resolve};
use camac_text::{TextFault, parse};
use camac_tokens::tokens;
use camac_word::Watched;
use std::alloc::Global;
use std::io::Write;

/// What is known at a place.
#[derive(Drop)]
pub enum Known {
    Reached(Vec<u8>),
    NotReached,
    NoStatement,
    Refused(Refusal),
}

/// Writes what is known; that no statement is there, or the line of a refusal.
pub fn show_known<W: Write>(
    out: &mut Watched<W>,
    line: u32,
    column: u32,
    found: &Known,
) -> Result<Outcome, ToolFault>
    ensures shows { Shows (known_report_of line column found.now) (W.contents (inner_of out.old)) (W.contents (inner_of out.new)) result }
    ensures failed { has_failed out.new ≡ (has_failed out.old || is_write_fault result) }
{
    match found {
        Known::Reached(lines) => {
            out.write_text(lines)?;
            Ok(Outcome::Good)
        }
        Known::NotReached => {
            out.write_text(b"not reached\n")?;
            Ok(Outcome::Good)
        }
        Known::NoStatement => {
            out.write_text(no_statement(line, column).as_bytes())?;
            Ok(Outcome::Refused)
        }
        Known::Refused(refusal) => refuse(out, *refusal),
    }
}

fn no_statement(line: u32, column: u32) -> Line
    ensures { result ≡ codes "no statement at " ++ decimal line ++ codes ":" ++ decimal column ++ codes "\n" }
{
    let mut text = Line::new();
    text.push_str("no statement at ");
    text.push_number(line);
    text.push_str(":");
    text.push_number(column);
    text.push_str("\n");
    text
}

/// Finds what is known at a place of a text, in the turns that are chosen.
pub fn find_known(
    alloc: Global,
    plan: &Plan,
    text: &[u8],
    line: u32,
    column: u32,
    turns: &[u32],
) -> Result<Known, ToolFault>
    ensures { FindsKnown line column result (known_report line column turns.now plan.now text.now) }
{
    match parse(alloc, text) {
        Ok(script) => known_in(alloc, plan, text, line, column, turns, script),
        Err(TextFault::OutOfMemory) => Err(ToolFault::Memory),
        Err(TextFault::Broken { case, spot }) => {
            let (rule, line) = (case.rule(), spot.line);
            Ok(Known::Refused(Refusal::Text { rule, line }))
        }
    }
}

fn known_in(
    alloc: Global,
    plan: &Plan,
    text: &[u8],
    line: u32,
    column: u32,
    turns: &[u32],
    script: Script,
) -> Result<Known, ToolFault>
    ensures { FindsKnown line column result (known_linked plan.now text.now line column turns.now script (link_fault plan.now script)) }
{
    match resolve(alloc, script, plan) {
        Ok(linked) => {
            let spot = find_standing(alloc, text, line, column)?;
            known_there(alloc, &linked, line, column, turns, spot)
        }
        Err(LinkFault::OutOfMemory) => Err(ToolFault::Memory),
        Err(LinkFault::Broken { rule, spot, .. }) => {
            let line = spot.line;
            Ok(Known::Refused(Refusal::Link { rule, line }))
        }
    }
}

// Where the statement at a place of a text begins; none if the text has a fault.
fn find_standing(
    alloc: Global,
    text: &[u8],
    line: u32,
    column: u32,
) -> Result<Option<Spot>, ToolFault>
    ensures { FindsStanding result (standing_among text.now line column (tokens_of text.now)) }
{
    match tokens(alloc, text) {
        Ok(tokens) => Ok(standing_at(text, &tokens, line, column)),
        Err(TextFault::OutOfMemory) => Err(ToolFault::Memory),
        Err(TextFault::Broken { .. }) => Ok(None),
    }
}

fn known_there(
    alloc: Global,
    linked: &Linked,
    line: u32,
    column: u32,
    turns: &[u32],
    spot: Option<Spot>,
) -> Result<Known, ToolFault>
    ensures { FindsKnown line column result (known_there linked.now.plan linked.now.script line column turns.now spot) }
{
    let Some(spot) = spot else {
        return Ok(Known::NoStatement);
    };
    match find_place(alloc, linked.plan(), linked.script(), spot, turns) {
        Ok(Some(found)) => Ok(Known::Reached(known_lines(alloc, linked.script(), &found)?)),
        Ok(None) => Ok(Known::NotReached),
        Err(CheckFault::OutOfMemory) => Err(ToolFault::Memory),
        Err(CheckFault::Broken { rule, spot, .. }) => {
            let line = spot.line;
            Ok(Known::Refused(Refusal::Check { rule, line }))
        }
    }
}
