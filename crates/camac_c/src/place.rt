// Where a run stands in its script.

ghost use Rattle.std.specs.Prelude.{◌≡◌};
ghost use Rattle.camac_c.specs.Place.{numbers_of_place};
ghost use Rattle.camac_c.specs.Talk.{AnswersText};
ghost use Rattle.camac_c.specs.declared.plain.SessionAsk.TheVariants as ask;

use crate::handle::Handle;
use crate::plain::SessionAsk;
use crate::session::service_of;
use camac_run::Place;
use std::alloc::Global;

/// The service in progress and the line of the statement that wants an answer, in the form of words; zeros where no service is in progress.
#[tactic(auto, using(crate::proofs::Calls::text_answers))]
#[unsafe(no_mangle)]
pub extern "C" fn camac_raw_where(
    alloc: Global,
    handle: &mut Handle,
    bytes: &mut [u8],
    size: &mut usize,
) -> u32
    ensures { AnswersText handle.old.value ask.Where handle.new.value result bytes.old bytes.new size.new }
{
    let told = handle.ask(alloc, SessionAsk::Where, bytes);
    *size = told.count;
    told.code
}

/// A place in numbers.
pub fn numbers_of_place(place: Option<Place>) -> [u32; 2]
    ensures { result ≡ numbers_of_place place }
{
    match place {
        None => [0, 0],
        Some(place) => [service_of(Some(place.service)), place.line],
    }
}
