//! Searches in the tables of a plan.

ghost use Rattle.std.specs.Prelude.{◌≡◌, ◌<◌, ◌≤◌, ◌^◌, bit_or, length, IfSome, IfOk, ℕ, Some};
ghost use Rattle.std.specs.List.{list_any};
ghost use Rattle.camac_branch.specs.Plan.{number_of_name, numbered, has_bit, crate_has_bit, is_some_and, bit_value};

use crate::name::TypeName;
use crate::plan::{Crate, Installed, Kind};
use camac_word::{GlBit, Word24};
use std::alloc::{AllocError, Global};

// The number of the type with a name.
pub(crate) fn number_of_name(types: &[Kind], name: &[u8]) -> Option<usize>
    ensures value { result ≡ number_of_name name.now 0 types.now }
    ensures known { IfSome result (λ t. t < length types.now) }
{
    'types: for (i, kind) in types.iter().enumerate() {
        if kind.name.as_bytes() == name {
            return Some(i);
        }
    }
    None
}

// What is installed at a station of a crate.
pub(crate) fn at_number(stations: &[Option<Installed>], number: usize) -> Option<Installed>
    ensures { result ≡ numbered stations.now number }
{
    if number < 1 {
        return None;
    }
    if number > stations.len() {
        return None;
    }
    stations[number - 1]
}

// Whether a station of the crate has the GL bit.
fn crate_has_bit(stations: &[Option<Installed>], bit: u32) -> bool
    ensures { result ≡ list_any (has_bit bit) stations.now }
{
    'stations: for station in stations {
        if let Some(s) = station {
            if let Some(b) = s.gl {
                if b.get() == bit {
                    return true;
                }
            }
        }
    }
    false
}

// Whether a station of the crates has the GL bit.
fn uses_bit(crates: &[Option<Crate>], bit: u32) -> bool
    ensures { result ≡ list_any (crate_has_bit bit) crates.now }
{
    'crates: for k in crates {
        if let Some(k) = k {
            if crate_has_bit(&k.stations, bit) {
                return true;
            }
        }
    }
    false
}

// Whether a station of the crates has the GL bit, where there is one.
pub(crate) fn is_in_use(crates: &[Option<Crate>], gl: &Option<GlBit>) -> bool
    ensures value { result ≡ is_some_and (λ b. list_any (crate_has_bit b) crates.now) gl.now }
    ensures in_range { (b : ℕ) → gl.now ≡ Some b → (1 ≤ b) × (b ≤ 24) }
{
    match gl {
        Some(bit) => uses_bit(crates, bit.get()),
        None => false,
    }
}

// The value of a bit of the graded-L pattern.
fn bit_value(gl: &Option<GlBit>) -> u32
    ensures value { result ≡ bit_value gl.now }
    ensures in_range { result < 2 ^ 24 }
{
    match gl {
        Some(b) => 1 << (b.get() - 1),
        None => 0,
    }
}

// The word with a bit of the graded-L pattern set.
pub(crate) fn with_bit(word: Word24, gl: &Option<GlBit>) -> Word24
    ensures { result ≡ bit_or word (bit_value gl.now) }
{
    match Word24::new(word.get() | bit_value(gl)) {
        Some(word) => word,
        None => unreachable!(),
    }
}

// The same types, once more.
pub(crate) fn copied_types(alloc: Global, types: &[Kind]) -> Result<Vec<Kind>, AllocError>
    ensures { IfOk result (λ copy. copy.items ≡ types.now) }
{
    let mut copy = Vec::new(alloc);
    'types: for kind in types {
        copy.push(Kind {
            name: kind.name.copy(),
            commands: kind.commands.try_clone(alloc)?,
        })?;
    }
    Ok(copy)
}

// The same crates, once more.
pub(crate) fn copied_crates(crates: &[Option<Crate>; 7]) -> [Option<Crate>; 7]
    ensures { result ≡ crates.now }
{
    let mut copy = [None; 7];
    copy.copy_from_slice(crates);
    copy
}
