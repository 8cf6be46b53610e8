// What is left of the tokens of a text: they are cut one by one, where they are wanted, and judged as they are cut.

ghost use Rattle.std.specs.Prelude.{◌≡◌, ◌+◌, ◌≤◌, [], true, List, take, drop, length, slice_get, option_copied, IfNone, Ok};
ghost use Rattle.camac_tokens.specs.Scanning.{last_line, line_after, tokens_of};
ghost use Rattle.camac_tokens.specs.declared.token.Token.{Token};
ghost use Rattle.camac_tokens.specs.Left.{Ahead, ahead_from, ahead_of, end_by, with_next, IsLeft, EndIs, IsPastGaps, eight_spaces, two_spaces};

use crate::bytes::first_eight;
use crate::fault::TextFault;
use crate::first::{fault_at, put_token};
use crate::scanner::{comment_len, is_blank, line_number};
use crate::token::Token;
use camac_lang::Spot;
use std::marker::Model;

/// What is left of the tokens of a text (own): those before its first token fault, and what ends them, the line of the text's end or that fault.
/// It takes no memory.
#[derive(Drop)]
pub struct TokensLeft<'a> {
    next: Option<Token>,
    // The bytes behind the next token, and the line of the first of them. If there is no next token, these bytes begin with a token fault, or there are
    // none.
    rest: &'a [u8],
    line: usize,
}

impl<'a> Model for TokensLeft<'a> {
    ghost use Rattle.camac_tokens.specs.Left.{Ahead, with_next, IsLeft};

    ghost Value = { Ahead };

    ghost view = { λ t. with_next t.next t.line t.rest.now };

    ghost invariant = { λ t. IsLeft t.next t.line t.rest.now };
}

impl<'a> TokensLeft<'a> {
    /// The tokens of a text up to its first token fault: S1, S3 or S6. A token's line is 1 plus the line feeds before it, from 4294967295 on
    /// that number.
    pub fn new(text: &'a [u8]) -> Self
        ensures exact { result ≡ ahead_of text.now }
        // Without a token fault these are all tokens.
        ensures whole { (ts : List Token) → tokens_of text.now ≡ Ok ts → result ≡ record { tokens = ts; end = Ok (last_line text.now) } }
    {
        let mut next = None;
        let (rest, line) = cut(&mut next, text, 1);
        TokensLeft { next, rest, line }
    }

    /// The next token, unless none is left. It stays the next one.
    pub fn first(&self) -> Option<&Token>
        ensures first { option_copied result ≡ slice_get self.now.tokens 0 }
        ensures none { IfNone result (self.now.tokens ≡ []) }
    {
        self.next.as_ref()
    }

    /// Leaves the next token behind, if there is one.
    #[inline(never)]
    pub fn advance(&mut self)
        ensures { self.new ≡ record self.old { tokens = drop 1 self.old.tokens } }
    {
        if self.next.is_some() {
            let (rest, line) = cut(&mut self.next, self.rest, self.line);
            self.rest = rest;
            self.line = line;
        }
    }

    /// What ends the tokens, once none is left: the line of the text's end, from 1, or the first token fault.
    pub fn end(&self) -> Result<u32, TextFault>
        requires { self.now.tokens ≡ [] }
        ensures { EndIs result self.now.end }
    {
        let line = line_number(self.line);
        if self.rest.is_empty() {
            return Ok(line);
        }
        Err(TextFault::Broken {
            case: fault_at(self.rest),
            spot: Spot {
                line,
                left: self.rest.len(),
            },
        })
    }
}

/// The line of a text's end, from 1, or its first token fault: S1, S3 or S6.
pub fn end_of(text: &[u8]) -> Result<u32, TextFault>
    ensures { EndIs result (end_by (tokens_of text.now) (last_line text.now)) }
{
    let mut left = TokensLeft::new(text);
    while left.first().is_some() {
        left.advance();
    }
    left.end()
}

// Cuts the next token off bytes that begin on a line, and answers the bytes behind it, and the line of the first of them. Where a token fault
// stands, it answers the bytes from there on, and there is no next token.
#[inline(always)]
fn cut<'a>(next: &mut Option<Token>, text: &'a [u8], line: usize) -> (&'a [u8], usize)
    requires { line + length text.now ≤ 9223372036854775808 }
    ensures left { IsLeft next.new result.1 result.0.now }
    ensures ahead { with_next next.new result.1 result.0.now ≡ ahead_from line text.now }
{
    let (rest, line) = past_gaps(text, line);
    if rest.is_empty() {
        *next = None;
        return (rest, line);
    }
    let size = put_token(next, rest, line_number(line));
    let (_, behind) = rest.split_at(size);
    (behind, line)
}

// The bytes after blanks and comments, and their line. Before most tokens stands one space, or nothing.
#[inline(always)]
fn past_gaps(text: &[u8], line: usize) -> (&[u8], usize)
    requires { line + length text.now ≤ 9223372036854775808 }
    ensures { IsPastGaps line text.now result.1 result.0.now }
{
    match text {
        [first, second, ..] if *first == b' ' && *second > b'#' => {
            let (_, after) = text.split_at(1);
            (after, line)
        }
        [first, ..] if *first > b'#' => (text, line),
        [first, second, ..] if *first == b'\n' && *second > b'#' => {
            let (_, after) = text.split_at(1);
            (after, line + 1)
        }
        _ => past_long_gaps(text, line),
    }
}

// The same for gaps of all kinds.
#[inline(never)]
fn past_long_gaps(text: &[u8], line: usize) -> (&[u8], usize)
    requires { line + length text.now ≤ 9223372036854775808 }
    ensures { IsPastGaps line text.now result.1 result.0.now }
{
    let mut rest = text;
    let mut at = line;
    while !rest.is_empty() {
        let byte = rest[0];
        if byte > b'#' {
            return (rest, at);
        }
        if byte == b'#' {
            let (_, after) = rest.split_at(comment_len(rest));
            rest = after;
        } else if begins_with_eight_spaces(rest) {
            let (_, after) = rest.split_at(8);
            rest = after;
        } else if begins_with_two_spaces(rest) {
            let (_, after) = rest.split_at(2);
            rest = after;
        } else if is_blank(byte) {
            let (_, after) = rest.split_at(1);
            rest = after;
            at = line_after(at, byte);
        } else {
            return (rest, at);
        }
    }
    (rest, at)
}

// Long runs of spaces are passed by eight in a turn.
fn begins_with_eight_spaces(text: &[u8]) -> bool
    ensures { result ≡ true → take 8 text.now ≡ eight_spaces }
{
    if text.len() < 8 {
        return false;
    }
    first_eight(text) == 0x2020_2020_2020_2020
}

// Before most statements stands an even number of spaces.
fn begins_with_two_spaces(text: &[u8]) -> bool
    ensures { result ≡ true → take 2 text.now ≡ two_spaces }
{
    match text {
        [first, second, ..] => *first == b' ' && *second == b' ',
        _ => false,
    }
}

// The line of what follows a byte.
fn line_after(line: usize, byte: u8) -> usize
    requires { line ≤ 9223372036854775808 }
    ensures { result ≡ line_after line byte }
{
    if byte == b'\n' { line + 1 } else { line }
}
