// What goes out into a buffer of C.

ghost use Rattle.std.specs.Prelude.{◌≡◌, length};
ghost use Rattle.camac_engines.specs.declared.fault.ToolFault.{ToolFault};
ghost use Rattle.camac_c.specs.Filled.{Gives, GivesNothing, filled_words};
ghost use Rattle.camac_c.specs.Texts.{GoesOut, engine_code, fault_code};

use crate::plain::{LONG, NO_MEMORY, OK, REFUSED};
use byteorder::{ByteOrder, LittleEndian};
use camac_engines::{Outcome, ToolFault};
use camac_word::Word24;

/// Puts a whole text into a buffer, as far as there is room, and tells its size.
pub fn give(bytes: &[u8], text: &mut [u8], size: &mut usize)
    ensures { Gives bytes.now text.old text.new size.new }
{
    *size = bytes.len();
    let n = bytes.len().min(text.len());
    text[..n].copy_from_slice(&bytes[..n]);
}

/// Puts nothing there.
pub fn give_nothing(text: &mut [u8], size: &mut usize)
    ensures { GivesNothing text.old text.new size.new }
{
    let _ = text;
    *size = 0;
}

/// Puts what an engine wrote into a buffer, and nothing after a fault.
pub fn give_answer(
    answer: &Result<Outcome, ToolFault>,
    bytes: &[u8],
    text: &mut [u8],
    size: &mut usize,
)
    ensures { GoesOut answer.now bytes.now text.old text.new size.new }
{
    match answer {
        Ok(_) => give(bytes, text, size),
        Err(_) => give_nothing(text, size),
    }
}

/// The code of what an engine answered.
pub fn code_of(answer: &Result<Outcome, ToolFault>) -> u32
    ensures { result ≡ engine_code answer.now }
{
    match answer {
        Ok(Outcome::Good) => OK,
        Ok(Outcome::Refused) => REFUSED,
        Err(fault) => fault_code(*fault),
    }
}

/// The code of a fault. A slice is read without one, and a write into memory fails for want of it.
pub fn fault_code(fault: ToolFault) -> u32
    ensures { result ≡ fault_code fault }
{
    match fault {
        ToolFault::TooLong => LONG,
        _ => NO_MEMORY,
    }
}

/// As many words as there is room for, the least byte of each first; returns the number of all.
pub fn write_words(held: &[Word24], bytes: &mut [u8]) -> usize
    ensures all { result ≡ length held.now }
    ensures written { bytes.new ≡ filled_words held.now bytes.old }
{
    let n = held.len().min(bytes.len() / 4);
    for i in 0..n {
        LittleEndian::write_u32(&mut bytes[4 * i..], held[i].get());
    }
    held.len()
}
