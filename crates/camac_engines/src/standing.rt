// Where the statement at a place of a text begins.

ghost use Rattle.std.specs.Prelude.{◌≡◌, option_map};
ghost use Rattle.camac_engines.specs.Standing.{at_start, begins, bytes_from, chosen, from_line, is_else, is_equals, is_for, is_left_brace, is_right_brace, standing_at, walked};

use camac_lang::Spot;
use camac_text::begins_statement;
use camac_tokens::{Keyword, Sign, Token, TokenKind};

// What is known of a token: how many blocks are open, where the statement begins that it is one of, and whether it is a `for`, whose `=` begins none.
#[derive(Clone, Copy)]
struct Seen {
    depth: usize,
    statement: Option<Spot>,
    is_for: bool,
}

impl Seen {
    // Before the first token.
    fn at_start() -> Self
        ensures { result ≡ at_start }
    {
        Seen {
            depth: 0,
            statement: None,
            is_for: false,
        }
    }
}

/// Where the statement at a place begins: that of the last token of the line that begins at or before the column, or else of the first one. None if the
/// line has no token, or if that token is in no statement. Line and column are from 1, the column in bytes.
pub fn standing_at(text: &[u8], tokens: &[Token], line: u32, column: u32) -> Option<Spot>
    ensures { result ≡ standing_at text.now tokens.now line column }
{
    let from = bytes_from(text, line, column);
    let mut rest = tokens;
    let mut here = Seen::at_start();
    let mut found = None;
    while let [token, after @ ..] = rest {
        here = walked(here, token, after.first());
        found = chosen(line, from, token, here.statement, found);
        rest = after;
    }
    match found {
        Some(statement) => statement,
        None => None,
    }
}

// How many bytes a text has from a place on.
fn bytes_from(text: &[u8], line: u32, column: u32) -> usize
    ensures { result ≡ bytes_from text.now line column }
{
    let bytes = from_line(text, line.saturating_sub(1));
    bytes
        .len()
        .saturating_sub(column.saturating_sub(1) as usize)
}

// What is after this many line feeds.
fn from_line(text: &[u8], feeds: u32) -> &[u8]
    ensures { result.now ≡ from_line text.now feeds }
{
    let mut rest = text;
    let mut feeds = feeds;
    while let [byte, after @ ..] = rest {
        if feeds == 0 {
            return rest;
        }
        if *byte == b'\n' {
            feeds -= 1;
        }
        rest = after;
    }
    rest
}

// The statement of a token of the line if it begins at or before the column, or is the first one; else that of the tokens before.
fn chosen(
    line: u32,
    from: usize,
    token: &Token,
    statement: Option<Spot>,
    before: Option<Option<Spot>>,
) -> Option<Option<Spot>>
    ensures { result ≡ chosen line from token.now statement before }
{
    if token.spot.line != line {
        return before;
    }
    match before {
        None => Some(statement),
        Some(_) => {
            if from <= token.spot.left {
                Some(statement)
            } else {
                before
            }
        }
    }
}

// What is known of a token, after the one before, with the one after it.
fn walked(before: Seen, token: &Token, next: Option<&Token>) -> Seen
    ensures { result ≡ walked before token.now (option_map (λ t. t.now) next.entry) }
{
    let outside = Seen {
        statement: None,
        is_for: false,
        ..before
    };
    if is_left_brace(token) {
        return Seen {
            depth: before.depth.saturating_add(1),
            ..outside
        };
    }
    if is_right_brace(token) {
        return Seen {
            depth: before.depth.saturating_sub(1),
            ..outside
        };
    }
    if before.depth == 0 || is_else(token) {
        return outside;
    }
    let is_for = is_for(token);
    if begins(before.is_for, token, next) {
        return Seen {
            statement: Some(token.spot),
            is_for,
            ..before
        };
    }
    Seen { is_for, ..before }
}

// Whether a statement begins at a token: at its word, or at a variable before the `=` of an assignment.
fn begins(is_counted: bool, token: &Token, next: Option<&Token>) -> bool
    ensures { result ≡ begins is_counted token.now.kind (option_map (λ t. t.now) next.entry) }
{
    match &token.kind {
        TokenKind::Keyword(keyword) => begins_statement(*keyword),
        TokenKind::Name(_) => match next {
            Some(next) => !is_counted && is_equals(next),
            None => false,
        },
        TokenKind::Number(_) | TokenKind::Sign(_) => false,
    }
}

fn is_left_brace(token: &Token) -> bool
    ensures { result ≡ is_left_brace token.now.kind }
{
    match &token.kind {
        TokenKind::Sign(Sign::LeftBrace) => true,
        _ => false,
    }
}

fn is_right_brace(token: &Token) -> bool
    ensures { result ≡ is_right_brace token.now.kind }
{
    match &token.kind {
        TokenKind::Sign(Sign::RightBrace) => true,
        _ => false,
    }
}

fn is_equals(token: &Token) -> bool
    ensures { result ≡ is_equals token.now.kind }
{
    match &token.kind {
        TokenKind::Sign(Sign::Equals) => true,
        _ => false,
    }
}

fn is_else(token: &Token) -> bool
    ensures { result ≡ is_else token.now.kind }
{
    match &token.kind {
        TokenKind::Keyword(Keyword::Else) => true,
        _ => false,
    }
}

fn is_for(token: &Token) -> bool
    ensures { result ≡ is_for token.now.kind }
{
    match &token.kind {
        TokenKind::Keyword(Keyword::For) => true,
        _ => false,
    }
}
