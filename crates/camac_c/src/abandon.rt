// A service that is left before its end.

ghost use Rattle.std.specs.Prelude.{◌≡◌, length};
ghost use Rattle.camac_c.specs.Filled.{filled_words};
ghost use Rattle.camac_c.specs.Talk.{AnswersText};
ghost use Rattle.camac_c.specs.declared.plain.SessionAsk.TheVariants as ask;

use crate::handle::Handle;
use crate::plain::SessionAsk;
use byteorder::{ByteOrder, LittleEndian};
use camac_word::CrateNo;
use std::alloc::Global;

/// Leaves the service in progress. Tells the crates whose lockout is to be released, in their order, in the form of words; the number of all.
#[tactic(auto, using(crate::proofs::Calls::text_answers))]
#[unsafe(no_mangle)]
pub extern "C" fn camac_raw_abandon(
    alloc: Global,
    handle: &mut Handle,
    bytes: &mut [u8],
    size: &mut usize,
) -> u32
    ensures { AnswersText handle.old.value ask.Abandon handle.new.value result bytes.old bytes.new size.new }
{
    let told = handle.ask(alloc, SessionAsk::Abandon, bytes);
    *size = told.count;
    told.code
}

/// Writes crates, as many as there is room for, the least byte of each number first. Returns the number of all.
pub fn write_crates(crates: &[CrateNo], bytes: &mut [u8]) -> usize
    ensures all { result ≡ length crates.now }
    ensures written { bytes.new ≡ filled_words crates.now bytes.old }
{
    let n = crates.len().min(bytes.len() / 4);
    for i in 0..n {
        LittleEndian::write_u32(&mut bytes[4 * i..], crates[i].get());
    }
    crates.len()
}
