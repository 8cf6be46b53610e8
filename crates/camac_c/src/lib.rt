//! The checker and the runner for programs in C, C++ and Python: the exports behind `include/camac.h`.
#![tactic(auto)]

ghost use Rattle.std.specs.Prelude.{◌≡◌, None};
ghost use Rattle.camac_event.specs.Spelling.{header};
ghost use Rattle.camac_event.specs.declared.event.Version.TheVariants.{Two};
ghost use Rattle.camac_c.specs.Filled.{Gives};
ghost use Rattle.camac_c.specs.Open.{Opens};
ghost use Rattle.camac_c.specs.Talk.{AnswersBytes, AnswersCode, AnswersCount, AnswersNext, AnswersStep, AnswersText, AnswersWants};
ghost use Rattle.camac_c.specs.declared.plain.SessionAsk.TheVariants as ask;

mod abandon;
mod ahead;
mod filling;
mod handle;
mod held;
mod last;
mod loose;
mod opening;
mod pausing;
mod place;
mod plain;
mod response;
mod service;
mod session;
mod texts;
mod transfer;

use camac_word::Watched;
use filling::{fault_code, give, give_nothing};
use handle::Handle;
use opening::{is_open, open};
use plain::{CamacAnswer, CamacProgress, CamacWant, MISUSE, OK, REFUSED, SessionAsk, only_code};
use std::alloc::Global;

/// 10,000 times the first number of the version, 100 times the second, and the third.
const VERSION: u32 = 200;

/// The version of the library.
#[unsafe(no_mangle)]
pub extern "C" fn camac_raw_version() -> u32
    ensures { result ≡ 200 }
{
    VERSION
}

/// The header of an event file.
#[unsafe(no_mangle)]
pub extern "C" fn camac_raw_file_header(bytes: &mut [u8], size: &mut usize)
    ensures { Gives (header Two) bytes.old bytes.new size.new }
{
    give(b"CAMACEV2", bytes, size);
}

/// Checks a script against a plan, and opens a session at the beginning of its run. The text is that of `camac_raw_check`. A session that
/// is open stays, and the answer is `MISUSE`.
#[unsafe(no_mangle)]
pub extern "C" fn camac_raw_open(
    alloc: Global,
    handle: &mut Handle,
    plan: &[u8],
    script: &[u8],
    text: &mut [u8],
    size: &mut usize,
) -> u32
    ensures { Opens handle.old.value plan.now script.now handle.new.value result text.old text.new size.new }
{
    if is_open(alloc, handle) {
        give_nothing(text, size);
        return MISUSE;
    }
    let mut out = Watched::new(Vec::new(alloc));
    match open(alloc, plan, script, &mut out) {
        Ok(Some(session)) => {
            give(&out.into_inner(), text, size);
            *handle = session;
            OK
        }
        Ok(None) => {
            give(&out.into_inner(), text, size);
            REFUSED
        }
        Err(fault) => {
            give_nothing(text, size);
            fault_code(fault)
        }
    }
}

/// What the next answer is for; nothing changes. `OVERRUN`: the run is over, and nothing is wanted.
#[tactic(auto, using(crate::proofs::Calls::wants_answers))]
#[unsafe(no_mangle)]
pub extern "C" fn camac_raw_wants(alloc: Global, handle: &mut Handle, want: &mut CamacWant) -> u32
    ensures { AnswersWants handle.old.value handle.new.value result want.new }
{
    let told = handle.ask(alloc, SessionAsk::Wants, &mut []);
    *want = told.want;
    told.code
}

/// Takes the answer to what was wanted, and tells what it did.
#[tactic(auto, using(crate::proofs::Calls::next_answers))]
#[unsafe(no_mangle)]
pub extern "C" fn camac_raw_next(
    alloc: Global,
    handle: &mut Handle,
    answer: &CamacAnswer,
    progress: &mut CamacProgress,
) -> u32
    ensures { AnswersNext handle.old.value answer.now handle.new.value result progress.new }
{
    let mut told = only_code(MISUSE);
    handle.tell(alloc, SessionAsk::Next(*answer), &mut told, &mut []);
    *progress = told.progress;
    told.code
}

/// Takes the answer to what was wanted, and tells what it did and what the next one is for.
#[tactic(auto, using(crate::proofs::Calls::step_answers))]
#[unsafe(no_mangle)]
pub extern "C" fn camac_raw_step(
    alloc: Global,
    handle: &mut Handle,
    answer: &CamacAnswer,
    progress: &mut CamacProgress,
    want: &mut CamacWant,
) -> u32
    ensures { AnswersStep handle.old.value answer.now handle.new.value result progress.new want.new }
{
    let mut told = only_code(MISUSE);
    handle.tell(alloc, SessionAsk::Step(*answer), &mut told, &mut []);
    *progress = told.progress;
    *want = told.want;
    told.code
}

/// The words of the event that the last answer left, as many as there is room for, the least byte of each first; the number of all, 0 where
/// it left none.
#[tactic(auto, using(crate::proofs::Calls::bytes_answer))]
#[unsafe(no_mangle)]
pub extern "C" fn camac_raw_words(alloc: Global, handle: &mut Handle, bytes: &mut [u8]) -> usize
    ensures { AnswersBytes handle.old.value ask.Words handle.new.value bytes.old bytes.new result }
{
    handle.ask(alloc, SessionAsk::Words, bytes).count
}

/// The record of that event in an event file.
#[tactic(auto, using(crate::proofs::Calls::text_answers))]
#[unsafe(no_mangle)]
pub extern "C" fn camac_raw_record(
    alloc: Global,
    handle: &mut Handle,
    bytes: &mut [u8],
    size: &mut usize,
) -> u32
    ensures { AnswersText handle.old.value ask.Record handle.new.value result bytes.old bytes.new size.new }
{
    let told = handle.ask(alloc, SessionAsk::Record, bytes);
    *size = told.count;
    told.code
}

/// The lines of the listing for the last answer.
#[tactic(auto, using(crate::proofs::Calls::text_answers))]
#[unsafe(no_mangle)]
pub extern "C" fn camac_raw_item(
    alloc: Global,
    handle: &mut Handle,
    text: &mut [u8],
    size: &mut usize,
) -> u32
    ensures { AnswersText handle.old.value ask.Item handle.new.value result text.old text.new size.new }
{
    let told = handle.ask(alloc, SessionAsk::Item, text);
    *size = told.count;
    told.code
}

/// The crates whose lockout is held, the last first, as many as there is room for, in the form of words; the number of all.
#[tactic(auto, using(crate::proofs::Calls::bytes_answer))]
#[unsafe(no_mangle)]
pub extern "C" fn camac_raw_held(alloc: Global, handle: &mut Handle, bytes: &mut [u8]) -> usize
    ensures { AnswersBytes handle.old.value ask.Held handle.new.value bytes.old bytes.new result }
{
    handle.ask(alloc, SessionAsk::Held, bytes).count
}

/// How many answers may still come.
#[tactic(auto, using(crate::proofs::Calls::count_answers))]
#[unsafe(no_mangle)]
pub extern "C" fn camac_raw_answers_left(alloc: Global, handle: &mut Handle) -> usize
    ensures { AnswersCount handle.old.value ask.Left handle.new.value result }
{
    handle.ask(alloc, SessionAsk::Left, &mut []).count
}

/// How many services the script has.
#[tactic(auto, using(crate::proofs::Calls::count_answers))]
#[unsafe(no_mangle)]
pub extern "C" fn camac_raw_services(alloc: Global, handle: &mut Handle) -> usize
    ensures { AnswersCount handle.old.value ask.Services handle.new.value result }
{
    handle.ask(alloc, SessionAsk::Services, &mut []).count
}

/// The name of one of them, by its number from 1 on. `RANGE`: there is none.
#[tactic(auto, using(crate::proofs::Calls::text_answers))]
#[unsafe(no_mangle)]
pub extern "C" fn camac_raw_service_name(
    alloc: Global,
    handle: &mut Handle,
    number: u32,
    text: &mut [u8],
    size: &mut usize,
) -> u32
    ensures { AnswersText handle.old.value (ask.Name number) handle.new.value result text.old text.new size.new }
{
    let told = handle.ask(alloc, SessionAsk::Name(number), text);
    *size = told.count;
    told.code
}

/// Its numbers: crate, station and sub-address of its LAM, its bit, the line of its heading, the cycles, words and steps of its bounds, and the
/// cycles and words of its heading.
#[tactic(auto, using(crate::proofs::Calls::text_answers))]
#[unsafe(no_mangle)]
pub extern "C" fn camac_raw_service_numbers(
    alloc: Global,
    handle: &mut Handle,
    number: u32,
    bytes: &mut [u8],
    size: &mut usize,
) -> u32
    ensures { AnswersText handle.old.value (ask.Numbers number) handle.new.value result bytes.old bytes.new size.new }
{
    let told = handle.ask(alloc, SessionAsk::Numbers(number), bytes);
    *size = told.count;
    told.code
}

/// Begins the run anew.
#[tactic(auto, using(crate::proofs::Calls::code_answers))]
#[unsafe(no_mangle)]
pub extern "C" fn camac_raw_rewind(alloc: Global, handle: &mut Handle) -> u32
    ensures { AnswersCode handle.old.value ask.Rewind handle.new.value result }
{
    handle.ask(alloc, SessionAsk::Rewind, &mut []).code
}

/// Ends the run, and frees what it has.
#[unsafe(no_mangle)]
pub extern "C" fn camac_raw_close(alloc: Global, handle: &mut Handle)
    ensures { handle.new.value ≡ None }
{
    *handle = Handle::none(alloc);
}
