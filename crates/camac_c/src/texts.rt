// The calls on texts: what the program's subcommands print, for bytes in memory.

ghost use Rattle.std.specs.Prelude.{◌≡◌};
ghost use Rattle.camac_c.specs.Run.{AnswersRun};
ghost use Rattle.camac_c.specs.Texts.{AnswersAsked, AnswersEvents, AnswersPlan, AnswersTexts, plan_asked, texts_asked};

use crate::filling::{code_of, give_answer, give_nothing};
use crate::plain::MISUSE;
use camac_engines::{Ask, PlanAsk, PlanSource, Turns, answer, answer_plan, engine_events};
use camac_tool_run::engine_run;
use camac_word::Watched;
use std::alloc::Global;

// What is asked, as camac.h numbers it.
const PLAN: u32 = 1;

const EXPLAIN_PLAN: u32 = 2;

const CHECK: u32 = 3;

const EXPLAIN: u32 = 4;

const EXPLAIN_BOUNDS: u32 = 5;

const BOUNDS: u32 = 6;

const COSTS: u32 = 7;

const TELL: u32 = 8;

const EXPLAIN_AT: u32 = 9;

// What is asked of a plan.
fn tell_plan(alloc: Global, ask: PlanAsk, plan: &[u8], text: &mut [u8], size: &mut usize) -> u32
    ensures { AnswersPlan ask plan.now result text.old text.new size.new }
{
    let mut plan = PlanSource::Text(Watched::new(plan));
    let mut out = Watched::new(Vec::new(alloc));
    let answer = answer_plan(alloc, ask, &mut plan, &mut out);
    give_answer(&answer, &out.into_inner(), text, size);
    code_of(&answer)
}

// What is asked of a plan and a script.
fn tell(
    alloc: Global,
    ask: Ask<'_>,
    plan: &[u8],
    script: &[u8],
    text: &mut [u8],
    size: &mut usize,
) -> u32
    ensures { AnswersTexts ask.entry plan.now script.now result text.old text.new size.new }
{
    let mut plan = PlanSource::Text(Watched::new(plan));
    let mut script = Watched::new(script);
    let mut out = Watched::new(Vec::new(alloc));
    let answer = answer(alloc, ask, &mut plan, &mut script, &mut out);
    give_answer(&answer, &out.into_inner(), text, size);
    code_of(&answer)
}

/// What the program prints of texts, by the number of what is asked. Line and column, both from 1, are those of `EXPLAIN_AT`. `MISUSE`: nothing is
/// asked by this number.
#[unsafe(no_mangle)]
pub extern "C" fn camac_raw_tell(
    alloc: Global,
    ask: u32,
    line: u32,
    column: u32,
    plan: &[u8],
    script: &[u8],
    text: &mut [u8],
    size: &mut usize,
) -> u32
    ensures { AnswersAsked (plan_asked ask) (texts_asked ask line column) plan.now script.now result text.old text.new size.new }
{
    if let Some(ask) = plan_asked(ask) {
        return tell_plan(alloc, ask, plan, text, size);
    }
    if let Some(ask) = texts_asked(ask, line, column) {
        return tell(alloc, ask, plan, script, text, size);
    }
    give_nothing(text, size);
    MISUSE
}

// What a number asks of a plan alone.
fn plan_asked(ask: u32) -> Option<PlanAsk>
    ensures { result ≡ plan_asked ask }
{
    match ask {
        PLAN => Some(PlanAsk::Lines),
        EXPLAIN_PLAN => Some(PlanAsk::Explain),
        _ => None,
    }
}

// What a number asks of a plan and a script.
fn texts_asked<'a>(ask: u32, line: u32, column: u32) -> Option<Ask<'a>>
    ensures { result ≡ texts_asked ask line column }
{
    match ask {
        CHECK => Some(Ask::Check),
        EXPLAIN => Some(Ask::Explain),
        EXPLAIN_BOUNDS => Some(Ask::ExplainBounds),
        EXPLAIN_AT => Some(Ask::ExplainAt {
            line,
            column,
            turns: Turns::of(&[]),
        }),
        BOUNDS => Some(Ask::Bounds),
        COSTS => Some(Ask::Costs),
        TELL => Some(Ask::Tell),
        _ => None,
    }
}

/// Runs a script on the text of its answers: the listing goes to `text`, the event file to `file`.
#[unsafe(no_mangle)]
pub extern "C" fn camac_raw_run(
    alloc: Global,
    plan: &[u8],
    script: &[u8],
    answers: &[u8],
    text: &mut [u8],
    size: &mut usize,
    file: &mut [u8],
    file_size: &mut usize,
) -> u32
    ensures { AnswersRun plan.now script.now answers.now result text.old text.new size.new file.old file.new file_size.new }
{
    let mut plan = PlanSource::Text(Watched::new(plan));
    let mut script = Watched::new(script);
    let mut answers = Watched::new(answers);
    let mut out = Watched::new(Vec::new(alloc));
    let mut events = Watched::new(Vec::new(alloc));
    let answer = engine_run(
        alloc,
        &mut plan,
        &mut script,
        &mut answers,
        &mut out,
        &mut events,
    );
    give_answer(&answer, &out.into_inner(), text, size);
    give_answer(&answer, &events.into_inner(), file, file_size);
    code_of(&answer)
}

/// Lists an event file.
#[unsafe(no_mangle)]
pub extern "C" fn camac_raw_events(
    alloc: Global,
    file: &[u8],
    text: &mut [u8],
    size: &mut usize,
) -> u32
    ensures { AnswersEvents file.now result text.old text.new size.new }
{
    let mut file = Watched::new(file);
    let mut out = Watched::new(Vec::new(alloc));
    let answer = engine_events(alloc, &mut file, &mut out);
    give_answer(&answer, &out.into_inner(), text, size);
    code_of(&answer)
}
