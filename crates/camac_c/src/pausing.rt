// A run that makes no more than so many steps at once.

ghost use Rattle.std.specs.Prelude.{◌≡◌};
ghost use Rattle.camac_c.specs.Talk.{AnswersCode, AnswersGoOn};
ghost use Rattle.camac_c.specs.declared.plain.SessionAsk.TheVariants as ask;

use crate::handle::Handle;
use crate::plain::{CamacProgress, SessionAsk};
use std::alloc::Global;

/// Sets how many steps the run makes at once: after more it pauses, and a call answers `BUSY`.
#[tactic(auto, using(crate::proofs::Calls::code_answers))]
#[unsafe(no_mangle)]
pub extern "C" fn camac_raw_limit_steps(alloc: Global, handle: &mut Handle, most: u32) -> u32
    ensures { AnswersCode handle.old.value (ask.Limit most) handle.new.value result }
{
    handle.ask(alloc, SessionAsk::Limit(most), &mut []).code
}

/// Goes on after a pause, and tells what the run did. `BUSY`: it pauses again.
#[tactic(auto, using(crate::proofs::Calls::go_on_answers))]
#[unsafe(no_mangle)]
pub extern "C" fn camac_raw_go_on(
    alloc: Global,
    handle: &mut Handle,
    progress: &mut CamacProgress,
) -> u32
    ensures { AnswersGoOn handle.old.value handle.new.value result progress.new }
{
    let told = handle.ask(alloc, SessionAsk::GoOn, &mut []);
    *progress = told.progress;
    told.code
}
