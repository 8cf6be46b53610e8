// The token at the start of a text, put where it stays: a token is larger than all else that cutting it handles.

ghost use Rattle.std.specs.Prelude.{◌≡◌, ◌<◌, length, slice_index, take_while, true, Some, None};
ghost use Rattle.std.specs.Char.{is_ascii_digit};
ghost use Rattle.camac_tokens.specs.declared.fault.TextCase.{TextCase};
ghost use Rattle.camac_tokens.specs.Words.{keyword};
ghost use Rattle.camac_tokens.specs.Scanning.{is_name_byte, keyword_or, number_or_fault, pair_at, single_at, pair_or_single, start_of, wrong};
ghost use Rattle.camac_tokens.specs.Left.{BeginsNoGap, IsPut};

use crate::fault::{Limit, TextCase};
use crate::scanner::{name_text, pair_at, single_at};
use crate::token::{Token, TokenKind};
use crate::words::keyword;
use camac_lang::{Name, Spot, limits};

/// Puts the token at the start, the longest, in its place, and answers its number of bytes: 0, and no token, where a token fault stands.
#[tactic(auto, unfolding(crate::specs::Scanning::start_of))]
#[inline(always)]
pub fn put_token(next: &mut Option<Token>, text: &[u8], line: u32) -> usize
    requires some { 0 < length text.now }
    requires begins { BeginsNoGap text.now }
    ensures { IsPut result next.new line (length text.now) (start_of (slice_index text.now 0) text.now) }
{
    let b = text[0];
    if b.is_ascii_alphabetic() {
        return put_word(next, text, line);
    }
    if b.is_ascii_digit() {
        return put_number(next, text, line);
    }
    put_sign(next, text, line)
}

#[inline(always)]
fn put_word(next: &mut Option<Token>, text: &[u8], line: u32) -> usize
    requires { 0 < length (take_while is_name_byte text.now) }
    ensures { IsPut result next.new line (length text.now) (keyword_or (keyword (take_while is_name_byte text.now)) (take_while is_name_byte text.now)) }
{
    let left = text.len();
    let word = name_text(text);
    let size = word.len();
    if let Some(keyword) = keyword(word) {
        let kind = TokenKind::Keyword(keyword);
        let spot = Spot { line, left };
        *next = Some(Token { kind, spot });
        return size;
    }
    // A name is copied with what stands behind it. Where the text ends before, that takes another way: apart, so that all others come straight to their place.
    if left >= limits::NAME_BYTES {
        put_name(next, text, size, line)
    } else {
        put_late_name(next, text, size, line)
    }
}

#[inline(always)]
fn put_name(next: &mut Option<Token>, text: &[u8], size: usize, line: u32) -> usize
    requires some { 0 < size }
    requires size { size ≡ length (take_while is_name_byte text.now) }
    requires none { keyword (take_while is_name_byte text.now) ≡ None }
    ensures { IsPut result next.new line (length text.now) (keyword_or (keyword (take_while is_name_byte text.now)) (take_while is_name_byte text.now)) }
{
    if size > limits::NAME_BYTES {
        *next = None;
        return 0;
    }
    let kind = TokenKind::Name(Name::at_start(text, size));
    let left = text.len();
    let spot = Spot { line, left };
    *next = Some(Token { kind, spot });
    size
}

#[inline(never)]
fn put_late_name(next: &mut Option<Token>, text: &[u8], size: usize, line: u32) -> usize
    requires some { 0 < size }
    requires size { size ≡ length (take_while is_name_byte text.now) }
    requires none { keyword (take_while is_name_byte text.now) ≡ None }
    ensures { IsPut result next.new line (length text.now) (keyword_or (keyword (take_while is_name_byte text.now)) (take_while is_name_byte text.now)) }
{
    put_name(next, text, size, line)
}

// Most numbers have one digit.
#[tactic(auto, using(crate::proofs::Scans::one_digit))]
fn put_number(next: &mut Option<Token>, text: &[u8], line: u32) -> usize
    requires some { 0 < length text.now }
    requires begins { is_ascii_digit (slice_index text.now 0) ≡ true }
    ensures { IsPut result next.new line (length text.now) (number_or_fault (take_while is_ascii_digit text.now)) }
{
    match text {
        [digit, after, ..] if !after.is_ascii_digit() => {
            let kind = TokenKind::Number(u32::from(*digit - b'0'));
            let left = text.len();
            let spot = Spot { line, left };
            *next = Some(Token { kind, spot });
            1
        }
        _ => put_long_number(next, text, line),
    }
}

fn put_long_number(next: &mut Option<Token>, text: &[u8], line: u32) -> usize
    ensures { IsPut result next.new line (length text.now) (number_or_fault (take_while is_ascii_digit text.now)) }
{
    let mut value: u64 = 0;
    let mut rest = text;
    while let [byte, after @ ..] = rest {
        if !byte.is_ascii_digit() {
            break;
        }
        value = value * 10 + u64::from(*byte - b'0');
        if value > 4_294_967_295 {
            *next = None;
            return 0;
        }
        rest = after;
    }
    let kind = TokenKind::Number(value as u32);
    let left = text.len();
    let spot = Spot { line, left };
    *next = Some(Token { kind, spot });
    left - rest.len()
}

#[inline(always)]
fn put_sign(next: &mut Option<Token>, text: &[u8], line: u32) -> usize
    ensures { IsPut result next.new line (length text.now) (pair_or_single (pair_at text.now) (single_at text.now)) }
{
    let spot = Spot {
        line,
        left: text.len(),
    };
    match pair_at(text) {
        Some(sign) => {
            let kind = TokenKind::Sign(sign);
            *next = Some(Token { kind, spot });
            2
        }
        None => match single_at(text) {
            Some(sign) => {
                let kind = TokenKind::Sign(sign);
                *next = Some(Token { kind, spot });
                1
            }
            None => {
                *next = None;
                0
            }
        },
    }
}

/// What the token fault is that stands at the start.
#[tactic(auto, unfolding(crate::specs::Scanning::start_of))]
pub fn fault_at(text: &[u8]) -> TextCase
    requires some { 0 < length text.now }
    requires fault { (case : TextCase) × (wrong (start_of (slice_index text.now 0) text.now) ≡ Some case) }
    ensures { wrong (start_of (slice_index text.now 0) text.now) ≡ Some result }
{
    let b = text[0];
    if b.is_ascii_alphabetic() {
        TextCase::Limit(Limit::NameBytes)
    } else if b.is_ascii_digit() {
        TextCase::Number { most: u32::MAX }
    } else {
        TextCase::Byte
    }
}
