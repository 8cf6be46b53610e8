// What a run did last: the lines of the listing, and the record of the event file.

ghost use Rattle.std.specs.Prelude.{◌≡◌, ◌≤◌, ◌+◌, ◌*◌, ◌++◌, length, take, Some};
ghost use Rattle.std.specs.List.{flat_map};
ghost use Rattle.byteorder.specs.Endian.{big_bytes};
ghost use Rattle.camac_event.specs.Spelling.{head_of, record_of};
ghost use Rattle.camac_c.specs.Filled.{Gives};
ghost use Rattle.camac_c.specs.Last.{last_lines, last_record};
ghost use Rattle.camac_play.specs.Told.{event_record};

use crate::filling::give;
use byteorder::{BigEndian, ByteOrder};
use camac_event::Usage;
use camac_lines::{LONGEST_LINE, bytes_in};
use camac_report::{items_in, unlocks_line};
use camac_rules::Checked;
use camac_run::Used;
use camac_word::{GlBit, Word24};

/// The bytes of the longest record: what stands before its words, and 4,096 words.
const LONGEST_RECORD: usize = 16 + 4 * 4096;

/// What a run did last.
#[derive(Clone, Copy, Debug, PartialEq, Eq)]
pub enum Deed {
    /// It is at its beginning, or a wait was not permitted.
    Nothing,
    /// It took an answer.
    Answer,
    /// It went on after a pause.
    Pause,
}

/// What a run did last, and what that told, which is written in place.
#[derive(Drop)]
pub struct Last {
    pub deed: Deed,
    pub used: Used,
}

/// Puts the lines of the listing for that into a buffer, as far as there is room, and tells their size.
pub fn give_lines(checked: &Checked, last: &Last, bytes: &mut [u8], size: &mut usize)
    ensures { Gives (last_lines checked.now.script last.now) bytes.old bytes.new size.new }
{
    let unlocks = last.used.unlocks.as_slice();
    match last.deed {
        Deed::Answer => {
            let mut lines = [0; LONGEST_LINE];
            let end = items_in(&mut lines, 0, checked, &last.used.item, unlocks);
            give(&lines[..end], bytes, size);
        }
        Deed::Pause => give(unlocks_line(unlocks).as_bytes(), bytes, size),
        Deed::Nothing => give(&[], bytes, size),
    }
}

/// Puts the record of the event that it left, with these words, into a buffer, as far as there is room, and tells its size.
pub fn give_record(last: &Last, words: &[Word24], bytes: &mut [u8], size: &mut usize)
    requires { length words.now ≤ 4096 }
    ensures { Gives (last_record last.now words.now) bytes.old bytes.new size.new }
{
    match last.deed {
        Deed::Nothing => give(&[], bytes, size),
        _ => give_event(&last.used.event, words, bytes, size),
    }
}

fn give_event(
    event: &Option<(u32, GlBit, Usage)>,
    words: &[Word24],
    bytes: &mut [u8],
    size: &mut usize,
)
    requires { length words.now ≤ 4096 }
    ensures { Gives (event_record event.now words.now) bytes.old bytes.new size.new }
{
    match event {
        Some((number, gl, usage)) => {
            let end = 16 + 4 * words.len();
            if bytes.len() < end {
                return give_cut(*number, *gl, *usage, words, bytes, size);
            }
            *size = record_in(&mut bytes[..end], *number, *gl, *usage, words);
        }
        None => give(&[], bytes, size),
    }
}

// The same where there is no room for all of it.
#[inline(never)]
fn give_cut(
    number: u32,
    gl: GlBit,
    usage: Usage,
    words: &[Word24],
    bytes: &mut [u8],
    size: &mut usize,
)
    requires { length words.now ≤ 4096 }
    ensures { Gives (record_of number (record { gl = gl; usage = Some usage; words = words.now })) bytes.old bytes.new size.new }
{
    let mut record = [0; LONGEST_RECORD];
    let end = record_in(&mut record, number, gl, usage, words);
    give(&record[..end], bytes, size);
}

// Lays out a record, and returns its size.
fn record_in(bytes: &mut [u8], number: u32, gl: GlBit, usage: Usage, words: &[Word24]) -> usize
    requires few { length words.now ≤ 4096 }
    requires room { 16 + 4 * length words.now ≤ length bytes.old }
    ensures written { take result bytes.new ≡ record_of number (record { gl = gl; usage = Some usage; words = words.now }) }
    ensures end { result ≡ 16 + 4 * length words.now }
    ensures len { length bytes.new ≡ length bytes.old }
{
    let end = head_in(bytes, number, gl, usage, words.len());
    words_in(bytes, end, words)
}

fn head_in(bytes: &mut [u8], number: u32, gl: GlBit, usage: Usage, words: usize) -> usize
    requires few { words ≤ 4096 }
    requires room { 16 ≤ length bytes.old }
    ensures written { take result bytes.new ≡ head_of number gl (Some usage) words }
    ensures end { result ≡ 16 }
    ensures len { length bytes.new ≡ length bytes.old }
{
    let end = two_in(bytes, 0, 0xCA4D);
    let end = two_in(bytes, end, gl.get() as u16);
    let end = four_in(bytes, end, number);
    let end = four_in(bytes, end, usage.cycles);
    let end = two_in(bytes, end, usage.missed);
    two_in(bytes, end, words as u16)
}

fn words_in(bytes: &mut [u8], start: usize, words: &[Word24]) -> usize
    requires { start + 4 * length words.now ≤ length bytes.old }
    ensures written { take result bytes.new ≡ take start bytes.old ++ flat_map (big_bytes 4) words.now }
    ensures end { result ≡ start + 4 * length words.now }
    ensures len { length bytes.new ≡ length bytes.old }
{
    let mut end = start;
    'words: for word in words {
        end = four_in(bytes, end, word.get());
    }
    end
}

fn two_in(bytes: &mut [u8], start: usize, n: u16) -> usize
    requires { start + 2 ≤ length bytes.old }
    ensures written { take result bytes.new ≡ take start bytes.old ++ big_bytes 2 n }
    ensures end { result ≡ start + 2 }
    ensures len { length bytes.new ≡ length bytes.old }
{
    let mut field = [0; 2];
    BigEndian::write_u16(&mut field, n);
    bytes_in(bytes, start, &field)
}

fn four_in(bytes: &mut [u8], start: usize, n: u32) -> usize
    requires { start + 4 ≤ length bytes.old }
    ensures written { take result bytes.new ≡ take start bytes.old ++ big_bytes 4 n }
    ensures end { result ≡ start + 4 }
    ensures len { length bytes.new ≡ length bytes.old }
{
    let mut field = [0; 4];
    BigEndian::write_u32(&mut field, n);
    bytes_in(bytes, start, &field)
}
