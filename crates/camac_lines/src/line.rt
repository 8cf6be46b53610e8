// An output line while it is laid out.

ghost use Rattle.std.specs.Prelude.{◌≡◌, ◌<◌, ◌≤◌, ◌+◌, ◌-◌, ◌*◌, ◌^◌, ◌++◌, [], length, take, slice_index, decimal};
ghost use Rattle.std.specs.List.{between, flat_map};
ghost use Rattle.camac_branch.specs.Address.{address};
ghost use Rattle.camac_lines.specs.Cycles.{cycle_start};
ghost use Rattle.camac_lines.specs.Digits.{hex_word};
ghost use Rattle.camac_lines.specs.Events.{word_text};

use crate::bytes::{bytes_in, count_in, number_in, small_in};
use crate::cycle::command_in;
use crate::digits::{hex_bytes, hex_word, spaced};
use camac_branch::Command;
use camac_event::EventWords;
use camac_word::Word24;
use itoa::Integer;
use std::marker::Model;

/// The greatest length of a line, in bytes.
pub const LONGEST_LINE: usize = 256;

/// A line of at most `LONGEST_LINE` bytes. One is kept for many lines, since it is forgotten at no cost: an `ArrayVec` would write over all
/// its bytes.
#[derive(Drop)]
pub struct Line {
    bytes: [u8; LONGEST_LINE],
    // how many of them stand in the line
    len: usize,
}

impl Model for Line {
    ghost use Rattle.std.specs.Prelude.{List, ℕ, ◌≤◌, take};

    ghost Value = { List ℕ };

    ghost view = { λ l. take l.len l.bytes };

    ghost invariant = { λ l. l.len ≤ 256 };
}

// Writes a word of a file over the bytes from a place on, after a space, and returns the place after it.
#[inline(always)]
fn word_in(bytes: &mut [u8], start: usize, words: &EventWords<'_>, i: usize) -> usize
    requires place { i < length words.now }
    requires room { start + 7 ≤ length bytes.old }
    ensures written { take result bytes.new ≡ take start bytes.old ++ word_text (slice_index words.now i) }
    ensures end { result ≡ start + 7 }
    ensures len { length bytes.new ≡ length bytes.old }
{
    let [high, middle, low] = words.bytes(i);
    bytes_in(bytes, start, &spaced(hex_bytes(high, middle, low)))
}

// Writes words of a file over the bytes from a place on, each after a space, and returns the place after them.
#[inline(always)]
fn words_in(
    bytes: &mut [u8],
    start: usize,
    words: &EventWords<'_>,
    first: usize,
    last: usize,
) -> usize
    requires places { (first ≤ last) × (last ≤ length words.now) }
    requires room { start + 7 * (last - first) ≤ length bytes.old }
    ensures written { take result bytes.new ≡ take start bytes.old ++ flat_map word_text (between first last words.now) }
    ensures end { result ≡ start + 7 * (last - first) }
    ensures len { length bytes.new ≡ length bytes.old }
{
    let mut at = start;
    'words: for i in first..last {
        at = word_in(bytes, at, words, i);
    }
    at
}

// Four words of a file from a place on, each after a space.
#[inline(always)]
fn four_words(words: &EventWords<'_>, first: usize) -> [u8; 28]
    requires places { first + 4 ≤ length words.now }
    requires fits { first + 4 < 2 ^ 64 }
    ensures { result ≡ flat_map word_text (between first (first + 4) words.now) }
{
    let mut bytes = [0; 28];
    let mut at = 0;
    'words: for i in 0..4 {
        at = word_in(&mut bytes, at, words, first + i);
    }
    bytes
}

// The same as `words_in`, and quick where they are many: four are laid out in bytes of their own, so no copy of one is tested for an overlap.
#[inline(always)]
fn many_words_in(
    bytes: &mut [u8],
    start: usize,
    words: &EventWords<'_>,
    first: usize,
    last: usize,
) -> usize
    requires places { (first ≤ last) × (last ≤ length words.now) }
    requires room { start + 7 * (last - first) ≤ length bytes.old }
    ensures written { take result bytes.new ≡ take start bytes.old ++ flat_map word_text (between first last words.now) }
    ensures end { result ≡ start + 7 * (last - first) }
    ensures len { length bytes.new ≡ length bytes.old }
{
    let mut at = start;
    let mut next = first;
    'fours: while last - next >= 4 {
        at = bytes_in(bytes, at, &four_words(words, next));
        next += 4;
    }
    words_in(bytes, at, words, next, last)
}

impl Line {
    /// A line with nothing in it.
    pub fn new() -> Line
        ensures { result ≡ [] }
    {
        Line {
            bytes: [0; LONGEST_LINE],
            len: 0,
        }
    }

    /// Puts the text at the end.
    #[inline(always)]
    pub fn push_str(&mut self, text: &str)
        requires { length self.old + length text.now ≤ LONGEST_LINE }
        ensures bytes { self.new ≡ self.old ++ text.now }
        ensures len { length self.new ≡ length self.old + length text.now }
    {
        self.push_bytes(text.as_bytes());
    }

    /// Puts the bytes at the end.
    #[inline(always)]
    pub fn push_bytes(&mut self, bytes: &[u8])
        requires { length self.old + length bytes.now ≤ LONGEST_LINE }
        ensures bytes { self.new ≡ self.old ++ bytes.now }
        ensures len { length self.new ≡ length self.old + length bytes.now }
    {
        self.len = bytes_in(&mut self.bytes, self.len, bytes);
    }

    /// Puts the number at the end, in decimal.
    pub fn push_number<N: Integer>(&mut self, number: N)
        requires room { length self.old + N.MAX_STR_LEN ≤ LONGEST_LINE }
        ensures bytes { self.new ≡ self.old ++ N.text number }
        ensures len { length self.new ≤ length self.old + N.MAX_STR_LEN }
    {
        self.len = number_in(&mut self.bytes, self.len, number);
    }

    /// Puts the number at the end, in decimal. It is quick where the number has at most eight digits.
    pub(crate) fn push_count(&mut self, number: usize)
        requires room { length self.old + 20 ≤ LONGEST_LINE }
        ensures bytes { self.new ≡ self.old ++ decimal number }
        ensures len { length self.new ≤ length self.old + 20 }
    {
        self.len = count_in(&mut self.bytes, self.len, number);
    }

    /// Puts the number at the end, in decimal. It is quick where the number has one digit or two.
    #[inline(always)]
    pub fn push_small(&mut self, number: u8)
        requires room { length self.old + 3 ≤ LONGEST_LINE }
        ensures bytes { self.new ≡ self.old ++ decimal number }
        ensures len { length self.new ≤ length self.old + 3 }
    {
        self.len = small_in(&mut self.bytes, self.len, number);
    }

    /// Puts the word at the end, in six hexadecimal digits.
    pub fn push_word(&mut self, word: Word24)
        requires room { length self.old + 6 ≤ LONGEST_LINE }
        ensures bytes { self.new ≡ self.old ++ hex_word word }
        ensures len { length self.new ≡ length self.old + 6 }
    {
        self.push_bytes(&hex_word(word));
    }

    /// Puts words of a file at the end, from a place on up to another, each after a space.
    pub(crate) fn push_words(&mut self, words: &EventWords<'_>, first: usize, last: usize)
        requires places { (first ≤ last) × (last ≤ length words.now) }
        requires room { length self.old + 7 * (last - first) ≤ LONGEST_LINE }
        ensures text { self.new ≡ self.old ++ flat_map word_text (between first last words.now) }
        ensures len { length self.new ≡ length self.old + 7 * (last - first) }
    {
        self.len = words_in(&mut self.bytes, self.len, words, first, last);
    }

    /// Puts words of a file at the end as `push_words` does. It is quick where they are many.
    #[inline(always)]
    pub(crate) fn push_many_words(&mut self, words: &EventWords<'_>, first: usize, last: usize)
        requires places { (first ≤ last) × (last ≤ length words.now) }
        requires room { length self.old + 7 * (last - first) ≤ LONGEST_LINE }
        ensures text { self.new ≡ self.old ++ flat_map word_text (between first last words.now) }
        ensures len { length self.new ≡ length self.old + 7 * (last - first) }
    {
        self.len = many_words_in(&mut self.bytes, self.len, words, first, last);
    }

    /// Puts the beginning of a cycle's line at the end, the command alone.
    pub fn push_command(&mut self, command: &Command)
        requires room { length self.old + 22 ≤ LONGEST_LINE }
        ensures text { self.new ≡ self.old ++ cycle_start (address command.now.c command.now.n command.now.a) command.now.f }
        ensures len { length self.new ≤ length self.old + 22 }
    {
        self.len = command_in(&mut self.bytes, self.len, command);
    }

    /// How many bytes it has.
    pub fn len(&self) -> usize
        ensures value { result ≡ length self.now }
        ensures fits { result ≤ LONGEST_LINE }
    {
        self.len
    }

    /// Forgets what is in it.
    pub fn clear(&mut self)
        ensures { self.new ≡ [] }
    {
        self.len = 0;
    }

    pub fn as_bytes(&self) -> &[u8]
        ensures { result.now ≡ self.now }
    {
        &self.bytes[..self.len]
    }
}
