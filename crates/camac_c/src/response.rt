// The call of how long look-at-mes wait for their services.

ghost use Rattle.std.specs.Prelude.{IfOk, map};
ghost use Rattle.camac_c.specs.Response.{AnswersResponse, RespondsTo, RespondsToTexts, SplitsText};

use crate::filling::{code_of, fault_code, give, give_nothing};
use crate::plain::MISUSE;
use camac_engines::{Outcome, PlanSource, Responded, ToolFault, engine_response};
use camac_response::read_settings;
use camac_word::Watched;
use std::alloc::{AllocError, Global};

/// Finds how long look-at-mes wait for their services. `every` and `within` are texts of words SERVICE=CYCLES, as they stand after the
/// options of `camac response`. `MISUSE`: one of them is no UTF-8, or a word is wrong.
#[unsafe(no_mangle)]
pub extern "C" fn camac_raw_response(
    alloc: Global,
    plan: &[u8],
    script: &[u8],
    every: &[u8],
    within: &[u8],
    text: &mut [u8],
    size: &mut usize,
) -> u32
    ensures { AnswersResponse plan.now script.now every.now within.now result text.old text.new size.new }
{
    match respond(alloc, plan, script, every, within) {
        Ok(Some((outcome, told))) => {
            give(&told, text, size);
            code_of(&Ok(outcome))
        }
        Ok(None) => {
            give_nothing(text, size);
            MISUSE
        }
        Err(fault) => {
            give_nothing(text, size);
            fault_code(fault)
        }
    }
}

// The outcome with its text. None: the texts of words are misuse.
fn respond(
    alloc: Global,
    plan: &[u8],
    script: &[u8],
    every: &[u8],
    within: &[u8],
) -> Result<Option<(Outcome, Vec<u8>)>, ToolFault>
    ensures { RespondsToTexts plan.now script.now every.now within.now result }
{
    let Some(every) = words_in(alloc, every)? else {
        return Ok(None);
    };
    let Some(within) = words_in(alloc, within)? else {
        return Ok(None);
    };
    respond_to(alloc, plan, script, &every, &within)
}

// The words of a text, between white space. None: it is no UTF-8.
fn words_in(alloc: Global, text: &[u8]) -> Result<Option<Vec<&str>>, AllocError>
    ensures { IfOk result (SplitsText text.now) }
{
    match str::from_utf8(text) {
        Ok(text) => Ok(Some(text.split_whitespace().collect(alloc)?)),
        Err(_) => Ok(None),
    }
}

// The same of words that were split.
fn respond_to(
    alloc: Global,
    plan: &[u8],
    script: &[u8],
    every: &[&str],
    within: &[&str],
) -> Result<Option<(Outcome, Vec<u8>)>, ToolFault>
    ensures { RespondsTo plan.now script.now (map (λ w. w.now) every.now) (map (λ w. w.now) within.now) result }
{
    let settings = match read_settings(alloc, every, within)? {
        Ok(settings) => settings,
        Err(_) => return Ok(None),
    };
    let mut plan = PlanSource::Text(Watched::new(plan));
    let mut script = Watched::new(script);
    let mut out = Watched::new(Vec::new(alloc));
    match engine_response(alloc, &settings, &mut plan, &mut script, &mut out)? {
        Responded::Told(outcome) => Ok(Some((outcome, out.into_inner()))),
        Responded::Misused(_) => Ok(None),
    }
}
