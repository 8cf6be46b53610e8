// The crates whose lockout is held.

ghost use Rattle.std.specs.Prelude.{◌≡◌, length, reverse};
ghost use Rattle.camac_c.specs.Filled.{filled_words};
ghost use Rattle.camac_c.specs.Held.{held_after, without};

use arrayvec::ArrayVec;
use byteorder::{ByteOrder, LittleEndian};
use camac_machine::Item;
use camac_word::CrateNo;

/// The crates whose lockout is held, in the order in which it was taken.
pub type Held = ArrayVec<CrateNo, 7>;

/// Keeps the lockout that an answer took, and leaves those that were released after it, the last first.
pub fn keep_held(held: &mut Held, item: &Item, unlocks: &[CrateNo])
    ensures { held.new.items ≡ held_after item.now (length unlocks.now) held.old.items }
{
    if let Item::Lock(c, _) = item {
        if held.len() < 7 {
            held.push(*c);
        }
    }
    // most answers release none
    if !unlocks.is_empty() {
        release_held(held, unlocks.len());
    }
}

/// Leaves so many lockouts, the last first.
pub fn release_held(held: &mut Held, n: usize)
    ensures { held.new.items ≡ without n held.old.items }
{
    held.truncate(held.len() - n.min(held.len()));
}

/// Writes the crates, the last first, as many as there is room for, the least byte of each number first. Returns the number of all.
pub fn write_held(held: &[CrateNo], bytes: &mut [u8]) -> usize
    ensures all { result ≡ length held.now }
    ensures written { bytes.new ≡ filled_words (reverse held.now) bytes.old }
{
    let n = held.len().min(bytes.len() / 4);
    for i in 0..n {
        LittleEndian::write_u32(&mut bytes[4 * i..], held[held.len() - 1 - i].get());
    }
    held.len()
}
