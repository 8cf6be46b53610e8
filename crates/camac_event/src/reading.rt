// Reading an event file from left to right.

ghost use Rattle.std.specs.Prelude.{◌≡◌, ◌-◌, ℕ, length, Ok, IfSome};
ghost use Rattle.camac_event.specs.Spelling.{Entry};
ghost use Rattle.camac_event.specs.Records.{words_in};
ghost use Rattle.camac_event.specs.Reading.{Gives, GivesHead, Passes, PassesAll, number_at, marker_at, gl_at, event_number_at, missed_at, usage_at, count_at, word_at, words_at, record_at, records_at, header_at};

use crate::event::{Usage, Version};
use crate::fault::{EventFlaw, EventRule};
use byteorder::{BigEndian, ByteOrder, LittleEndian};
use camac_word::{GlBit, Word24};

/// What a record says before its words, of which `words` is the number.
#[derive(Drop)]
pub struct EventHead {
    pub gl: GlBit,
    pub usage: Option<Usage>,
    pub words: usize,
}

// Each reader takes its field from the prefix of `bytes`, what is left of a file of `total` bytes.

/// A rule broken by the field before which `left` bytes of the file were left.
fn broken(total: usize, left: usize, rule: EventRule) -> EventFlaw
    ensures { result ≡ record { rule = rule; offset = total - left } }
{
    EventFlaw {
        rule,
        offset: total.saturating_sub(left),
    }
}

fn u16_of(total: usize, bytes: &mut &[u8]) -> Result<u16, EventFlaw>
    ensures { Gives (λ n. n) result bytes.new.now (number_at 2 total bytes.old.now) }
{
    let all: &[u8] = *bytes;
    if all.len() < 2 {
        return Err(broken(total, all.len(), EventRule::Truncated));
    }
    *bytes = &all[2..];
    Ok(BigEndian::read_u16(all))
}

fn u32_of(total: usize, bytes: &mut &[u8]) -> Result<u32, EventFlaw>
    ensures { Gives (λ n. n) result bytes.new.now (number_at 4 total bytes.old.now) }
{
    let all: &[u8] = *bytes;
    if all.len() < 4 {
        return Err(broken(total, all.len(), EventRule::Truncated));
    }
    *bytes = &all[4..];
    Ok(BigEndian::read_u32(all))
}

#[tactic(auto, unfolding(crate::specs::Reading::marker_at))]
fn marker_of(total: usize, bytes: &mut &[u8]) -> Result<u16, EventFlaw>
    ensures { Gives (λ n. n) result bytes.new.now (marker_at total bytes.old.now) }
{
    let left = bytes.len();
    let marker = u16_of(total, bytes)?;
    if marker != 0xCA4D {
        return Err(broken(total, left, EventRule::WrongMarker));
    }
    Ok(marker)
}

#[tactic(auto, unfolding(crate::specs::Reading::gl_at))]
fn gl_of(total: usize, bytes: &mut &[u8]) -> Result<GlBit, EventFlaw>
    ensures { Gives (λ n. n) result bytes.new.now (gl_at total bytes.old.now) }
{
    let left = bytes.len();
    let number = u16_of(total, bytes)?;
    match GlBit::new(u32::from(number)) {
        Some(gl) => Ok(gl),
        None => Err(broken(total, left, EventRule::GlOutOfRange)),
    }
}

#[tactic(auto, unfolding(crate::specs::Reading::event_number_at))]
fn event_number_of(number: usize, total: usize, bytes: &mut &[u8]) -> Result<u32, EventFlaw>
    ensures { Gives (λ n. n) result bytes.new.now (event_number_at number total bytes.old.now) }
{
    let left = bytes.len();
    let found = u32_of(total, bytes)?;
    if found as usize != number {
        return Err(broken(total, left, EventRule::NumberOutOfOrder));
    }
    Ok(found)
}

#[tactic(auto, unfolding(crate::specs::Reading::missed_at))]
fn missed_of(cycles: u32, total: usize, bytes: &mut &[u8]) -> Result<u16, EventFlaw>
    ensures { Gives (λ n. n) result bytes.new.now (missed_at cycles total bytes.old.now) }
{
    let left = bytes.len();
    let missed = u16_of(total, bytes)?;
    if u32::from(missed) > cycles {
        return Err(broken(total, left, EventRule::MissedAboveCycles));
    }
    Ok(missed)
}

#[tactic(auto, unfolding(crate::specs::Reading::count_at))]
fn count_of(total: usize, bytes: &mut &[u8]) -> Result<u16, EventFlaw>
    ensures { Gives (λ n. n) result bytes.new.now (count_at total bytes.old.now) }
{
    let left = bytes.len();
    let count = u16_of(total, bytes)?;
    if count > 4096 {
        return Err(broken(total, left, EventRule::CountAboveLimit));
    }
    Ok(count)
}

#[tactic(auto, unfolding(crate::specs::Reading::word_at))]
fn word_of(total: usize, bytes: &mut &[u8]) -> Result<Word24, EventFlaw>
    ensures { Gives (λ n. n) result bytes.new.now (word_at total bytes.old.now) }
{
    let left = bytes.len();
    let number = u32_of(total, bytes)?;
    match Word24::new(number) {
        Some(word) => Ok(word),
        None => Err(broken(total, left, EventRule::WordTooWide)),
    }
}

#[tactic(auto, unfolding(crate::specs::Reading::usage_at))]
fn usage_of(version: Version, total: usize, bytes: &mut &[u8]) -> Result<Option<Usage>, EventFlaw>
    ensures { Gives (λ u. u) result bytes.new.now (usage_at version total bytes.old.now) }
{
    match version {
        Version::One => Ok(None),
        Version::Two => {
            let cycles = u32_of(total, bytes)?;
            let missed = missed_of(cycles, total, bytes)?;
            Ok(Some(Usage { cycles, missed }))
        }
    }
}

/// Reads the fields of a record up to its words.
#[tactic(auto, unfolding(crate::specs::Reading::record_at))]
pub fn head_of(
    version: Version,
    number: usize,
    total: usize,
    bytes: &mut &[u8],
) -> Result<EventHead, EventFlaw>
    ensures { GivesHead total result bytes.new.now (record_at version number total bytes.old.now) }
{
    marker_of(total, bytes)?;
    let gl = gl_of(total, bytes)?;
    event_number_of(number, total, bytes)?;
    let usage = usage_of(version, total, bytes)?;
    let count = count_of(total, bytes)?;
    Ok(EventHead {
        gl,
        usage,
        words: usize::from(count),
    })
}

// Reads words and keeps none.
fn pass_words(count: usize, total: usize, bytes: &mut &[u8]) -> Result<(), EventFlaw>
    ensures { Passes result bytes.new.now (words_at count total bytes.old.now) }
{
    if let Some(rest) = after_words(count, bytes) {
        *bytes = rest;
        return Ok(());
    }
    for _ in 0..count {
        word_of(total, bytes)?;
    }
    Ok(())
}

// What is left after that many words, where each has the highest byte 0. The OR of the words, read the lowest byte first, judges a record at once, so
// that only one with a fault is read word by word for its offset.
fn after_words(count: usize, bytes: &[u8]) -> Option<&[u8]>
    ensures { IfSome result (λ rest. (total : ℕ) → words_at count total bytes.now ≡ Ok (words_in count bytes.now, rest.now)) }
{
    if bytes.len() / 4 < count {
        return None;
    }
    let mut highest = 0;
    'words: for i in 0..count {
        highest |= LittleEndian::read_u32(&bytes[4 * i..]);
    }
    let low = highest % 256;
    if low == 0 {
        Some(&bytes[4 * count..])
    } else {
        None
    }
}

// Reads a record and keeps nothing of it.
fn pass_record(
    version: Version,
    number: usize,
    total: usize,
    bytes: &mut &[u8],
) -> Result<(), EventFlaw>
    ensures { Passes result bytes.new.now (record_at version number total bytes.old.now) }
{
    let head = head_of(version, number, total, bytes)?;
    pass_words(head.words, total, bytes)
}

/// Reads the records of a file of `total` bytes to its end, and keeps nothing of them.
pub fn pass_records(version: Version, total: usize, bytes: &[u8]) -> Result<(), EventFlaw>
    ensures { PassesAll result (records_at (length bytes.now) version 1 total bytes.now) }
{
    let mut number = 0;
    let mut rest = bytes;
    while !rest.is_empty() {
        number += 1;
        pass_record(version, number, total, &mut rest)?;
    }
    Ok(())
}

/// Reads the header of a file of `total` bytes.
#[tactic(auto, unfolding(crate::specs::Reading::header_at))]
pub fn header_of(total: usize, bytes: &mut &[u8]) -> Result<Version, EventFlaw>
    ensures { Gives (λ v. v) result bytes.new.now (header_at total bytes.old.now) }
{
    let all: &[u8] = *bytes;
    if all.starts_with(b"CAMACEV1") {
        *bytes = &all[8..];
        Ok(Version::One)
    } else if all.starts_with(b"CAMACEV2") {
        *bytes = &all[8..];
        Ok(Version::Two)
    } else {
        Err(broken(total, all.len(), EventRule::WrongHeader))
    }
}
