// A place in the text of a plan, and what is to be known of a text that is no TOML.

ghost use Rattle.std.specs.Prelude.{◌≡◌, ◌≤◌, IfOk, count_by, false, drop, length, option_map, string_bytes, take, take_while};
ghost use Rattle.std.specs.Char.{is_ascii_alphanumeric};
ghost use Rattle.camac_explain_plan.specs.Place.{begins_character, begins_like_a_script, begins_quote, begins_range, column_behind, from_word, hint_at, hint_of_text, is_declaration, is_single_bracket, is_table_heading, last_begin, line_behind, place_text};

use crate::texts;
use camac_sentence::{Part, fill};
use std::alloc::{AllocError, Global};

// How a sentence begins that is told of the place behind some bytes.
pub(crate) fn place_sentence(
    alloc: Global,
    before: &[u8],
    message: &str,
) -> Result<String, AllocError>
    ensures { IfOk result (λ s. string_bytes s ≡ place_text before.now message.now) }
{
    let (line, column) = (line_behind(before), column_behind(before));
    fill(
        alloc,
        texts::PLACE,
        &[Part::Count(line), Part::Count(column), Part::Word(message)],
    )
}

// The text from a place on, and before it.
fn from(text: &[u8], place: usize) -> &[u8]
    requires { place ≤ length text.now }
    ensures { result.now ≡ drop place text.now }
{
    &text[place..]
}

pub(crate) fn before(text: &[u8], place: usize) -> &[u8]
    ensures { result.now ≡ take place text.now }
{
    if place < text.len() {
        &text[..place]
    } else {
        text
    }
}

fn behind(text: &[u8], place: usize) -> &[u8]
    ensures { result.now ≡ drop place text.now }
{
    if place < text.len() {
        &text[place..]
    } else {
        &[]
    }
}

fn line_behind(before: &[u8]) -> usize
    ensures { result ≡ line_behind before.now }
{
    let mut line = 1;
    'bytes: for byte in before {
        if *byte == b'\n' {
            line += 1;
        }
    }
    line
}

fn column_behind(before: &[u8]) -> usize
    ensures { result ≡ column_behind before.now }
{
    characters(from(before, last_begin(before))) + 1
}

fn characters(line: &[u8]) -> usize
    ensures count { result ≡ count_by begins_character line.now }
    ensures fits { result ≤ length line.now }
{
    let mut count = 0;
    'bytes: for byte in line {
        if begins_character(*byte) {
            count += 1;
        }
    }
    count
}

// Whether a byte is the first of a character of UTF-8.
fn begins_character(byte: u8) -> bool
    ensures { result ≡ begins_character byte }
{
    byte < 128 || byte >= 192
}

// How many bytes stand before the last line.
fn last_begin(text: &[u8]) -> usize
    ensures begin { result ≡ last_begin text.now }
    ensures fits { result ≤ length text.now }
{
    let mut begin = 0;
    'bytes: for place in 0..text.len() {
        if text[place] == b'\n' {
            begin = place + 1;
        }
    }
    begin
}

// What is to be known of a text that is no TOML behind so many of its bytes.
pub(crate) fn hint_of_text(text: &[u8], at: usize) -> Option<&'static str>
    ensures { option_map (λ h. h.now) result ≡ hint_of_text text.now at }
{
    if begins_like_a_script(text) {
        Some(texts::SCRIPT_FIRST)
    } else if is_table_heading(text, at) {
        Some(texts::DOUBLE_BRACKETS)
    } else {
        hint_at(behind(text, at))
    }
}

// What is to be known of what stands where a text stops.
fn hint_at(rest: &[u8]) -> Option<&'static str>
    ensures { option_map (λ h. h.now) result ≡ hint_at rest.now }
{
    if rest.starts_with(b":") {
        Some(texts::EQUALS_SIGN)
    } else if begins_quote(rest) {
        Some(texts::CURLY_QUOTES)
    } else if begins_range(rest) {
        Some(texts::RANGE)
    } else {
        None
    }
}

// Whether a curly quote stands first.
fn begins_quote(rest: &[u8]) -> bool
    ensures { result ≡ begins_quote rest.now }
{
    match rest {
        [a, b, c, ..] => *a == 0xe2 && *b == 0x80 && 0x98 <= *c && *c <= 0x9d,
        _ => false,
    }
}

// Whether two points stand behind one digit or two.
fn begins_range(rest: &[u8]) -> bool
    ensures { result ≡ begins_range rest.now }
{
    match rest {
        [_, b, c, d, ..] => *c == b'.' && (*b == b'.' || *d == b'.'),
        _ => false,
    }
}

// Whether the line there is the heading of a table, and the text goes on.
fn is_table_heading(text: &[u8], at: usize) -> bool
    ensures { result ≡ is_table_heading text.now at }
{
    at < text.len() && is_single_bracket(from(text, last_begin(before(text, at))))
}

fn is_single_bracket(line: &[u8]) -> bool
    ensures { result ≡ is_single_bracket line.now }
{
    match line {
        [first, second, ..] => *first == b'[' && *second != b'[',
        [first] => *first == b'[',
        [] => false,
    }
}

// Whether a text's first word, behind white space and comments, is one that begins a script.
fn begins_like_a_script(text: &[u8]) -> bool
    ensures { result ≡ begins_like_a_script text.now }
{
    is_declaration(first_word(from(text, word_begin(text))))
}

fn is_declaration(word: &[u8]) -> bool
    ensures { result ≡ is_declaration word.now }
{
    word == "cdlam".as_bytes()
        || word == "var".as_bytes()
        || word == "table".as_bytes()
        || word == "proc".as_bytes()
        || word == "service".as_bytes()
}

fn first_word(text: &[u8]) -> &[u8]
    ensures { result.now ≡ take_while is_ascii_alphanumeric text.now }
{
    'bytes: for place in 0..text.len() {
        if !text[place].is_ascii_alphanumeric() {
            return before(text, place);
        }
    }
    text
}

// How many bytes stand before a text's first word.
fn word_begin(text: &[u8]) -> usize
    ensures rest { drop result text.now ≡ from_word false text.now }
    ensures fits { result ≤ length text.now }
{
    let mut in_comment = false;
    'bytes: for place in 0..text.len() {
        let byte = text[place];
        if in_comment {
            in_comment = byte != b'\n';
        } else if byte == b'#' {
            in_comment = true;
        } else if !byte.is_ascii_whitespace() {
            return place;
        }
    }
    text.len()
}
