// Cuts a text into tokens.

ghost use Rattle.std.specs.Prelude.{◌≡◌, ◌<◌, ◌&&◌, List, length, take_while, Some, None, if◌then◌else◌, IfOk};
ghost use Rattle.camac_tokens.specs.declared.token.Token.{Token};
ghost use Rattle.camac_tokens.specs.Scanning.{is_name_byte, is_blank, is_no_line_feed, pair_at, single_at, line_number, tokens_of};
ghost use Rattle.camac_tokens.specs.Cut.{IsCut, HasTokens};
ghost use Rattle.camac_tokens.specs.Fault.{AnswersList};

use crate::fault::TextFault;
use crate::left::TokensLeft;
use crate::signs::{pair_sign, single_sign};
use crate::token::{Sign, Token};
use std::alloc::Global;

/// The tokens of a text (own), or its first token fault: S1, S3 or S6. Memory may be refused (S8).
/// A token's line is 1 plus the line feeds before it, from 4294967295 on that number.
pub fn tokens(alloc: Global, text: &[u8]) -> Result<Vec<Token>, TextFault>
    // The one list of tokens, or the first fault of one.
    ensures exact { AnswersList result (tokens_of text.now) }
    // The text is cut into gaps and tokens, each the longest, and these are its tokens.
    ensures cut { IfOk result (λ v. IsCut text.now v.items) }
    // A text that is cut so has no fault and no other tokens.
    ensures only { (ts : List Token) → IsCut text.now ts → HasTokens result ts }
{
    scan(alloc, text)
}

// What `tokens` does. That the text is cut so follows from the list of tokens, so `tokens` adds it without the loop.
fn scan(alloc: Global, text: &[u8]) -> Result<Vec<Token>, TextFault>
    ensures { AnswersList result (tokens_of text.now) }
{
    let mut left = TokensLeft::new(text);
    let mut tokens = Vec::new(alloc);
    while let Some(token) = left.first() {
        let kind = token.kind.duplicate();
        let spot = token.spot;
        tokens.push(Token { kind, spot })?;
        left.advance();
    }
    left.end()?;
    Ok(tokens)
}

fn is_name_byte(b: u8) -> bool
    ensures { result ≡ is_name_byte b }
{
    IS_NAME_BYTE[b as usize]
}

pub fn is_blank(b: u8) -> bool
    ensures { result ≡ is_blank b }
{
    b == b' ' || b == b'\t' || b == b'\r' || b == b'\n'
}

// Eight bytes are looked at in a turn, which costs less than one by one.
fn name_len(text: &[u8]) -> usize
    ensures { result ≡ length (take_while is_name_byte text.now) }
{
    let mut rest = text;
    let mut count = 0;
    while let [
        first,
        second,
        third,
        fourth,
        fifth,
        sixth,
        seventh,
        eighth,
        after @ ..,
    ] = rest
    {
        let run = run_of_four(*first, *second, *third, *fourth);
        if run < 4 {
            return count + run;
        }
        let run = run_of_four(*fifth, *sixth, *seventh, *eighth);
        if run < 4 {
            return count + 4 + run;
        }
        count += 8;
        rest = after;
    }
    count + short_name_len(rest)
}

// With how many of four bytes a name goes on.
#[inline(always)]
fn run_of_four(first: u8, second: u8, third: u8, fourth: u8) -> usize
    ensures { result ≡ (if is_name_byte first then (if is_name_byte second then (if is_name_byte third then (if is_name_byte fourth then 4 else 3) else 2) else 1) else 0) }
{
    if !is_name_byte(first) {
        0
    } else if !is_name_byte(second) {
        1
    } else if !is_name_byte(third) {
        2
    } else if !is_name_byte(fourth) {
        3
    } else {
        4
    }
}

// The same, byte by byte.
fn short_name_len(text: &[u8]) -> usize
    ensures { result ≡ length (take_while is_name_byte text.now) }
{
    text.iter().take_while(|b| is_name_byte(**b)).count()
}

// Eight bytes are looked at in a turn, since comments are long.
pub fn comment_len(text: &[u8]) -> usize
    ensures { result ≡ length (take_while is_no_line_feed text.now) }
{
    let mut rest = text;
    let mut count = 0;
    while let [
        first,
        second,
        third,
        fourth,
        fifth,
        sixth,
        seventh,
        eighth,
        after @ ..,
    ] = rest
    {
        if !has_no_line_feed(*first, *second, *third, *fourth)
            || !has_no_line_feed(*fifth, *sixth, *seventh, *eighth)
        {
            break;
        }
        count += 8;
        rest = after;
    }
    count + short_comment_len(rest)
}

// The same, byte by byte.
fn short_comment_len(text: &[u8]) -> usize
    ensures { result ≡ length (take_while is_no_line_feed text.now) }
{
    text.iter().take_while(|b| **b != b'\n').count()
}

fn has_no_line_feed(first: u8, second: u8, third: u8, fourth: u8) -> bool
    ensures { result ≡ (is_no_line_feed first && is_no_line_feed second && is_no_line_feed third && is_no_line_feed fourth) }
{
    first != b'\n' && second != b'\n' && third != b'\n' && fourth != b'\n'
}

pub fn line_number(line: usize) -> u32
    ensures { result ≡ line_number line }
{
    line.min(4_294_967_295) as u32
}

#[tactic(auto, using(crate::proofs::Scans::take_run))]
pub fn name_text(text: &[u8]) -> &[u8]
    ensures { result.now ≡ take_while is_name_byte text.now }
{
    &text[..name_len(text)]
}

pub fn pair_at(text: &[u8]) -> Option<Sign>
    ensures { result ≡ pair_at text.now }
{
    match text {
        [first, second, ..] => pair_sign(*first, *second),
        _ => None,
    }
}

#[inline(always)]
pub fn single_at(text: &[u8]) -> Option<Sign>
    ensures { result ≡ single_at text.now }
{
    match text {
        [first, ..] => single_sign(*first),
        _ => None,
    }
}

// The bytes of names. Most bytes of a script are asked for it, and one look costs less than several comparisons.
static IS_NAME_BYTE: [bool; 256] = [
    false, false, false, false, false, false, false, false, false, false, false, false, false,
    false, false, false, false, false, false, false, false, false, false, false, false, false,
    false, false, false, false, false, false, false, false, false, false, false, false, false,
    false, false, false, false, false, false, false, false, false, true, true, true, true, true,
    true, true, true, true, true, false, false, false, false, false, false, false, true, true,
    true, true, true, true, true, true, true, true, true, true, true, true, true, true, true, true,
    true, true, true, true, true, true, true, true, false, false, false, false, true, false, true,
    true, true, true, true, true, true, true, true, true, true, true, true, true, true, true, true,
    true, true, true, true, true, true, true, true, true, false, false, false, false, false, false,
    false, false, false, false, false, false, false, false, false, false, false, false, false,
    false, false, false, false, false, false, false, false, false, false, false, false, false,
    false, false, false, false, false, false, false, false, false, false, false, false, false,
    false, false, false, false, false, false, false, false, false, false, false, false, false,
    false, false, false, false, false, false, false, false, false, false, false, false, false,
    false, false, false, false, false, false, false, false, false, false, false, false, false,
    false, false, false, false, false, false, false, false, false, false, false, false, false,
    false, false, false, false, false, false, false, false, false, false, false, false, false,
    false, false, false, false, false, false, false, false, false, false, false, false, false,
    false, false, false, false, false, false, false, false, false, false,
];
