// What is put into the gaps of a sentence.

ghost use Rattle.std.specs.Prelude.{◌≡◌, Some};
ghost use Rattle.camac_lines.specs.Words.{shown_text};
ghost use Rattle.camac_sentence.specs.Filled.{part_text};

use camac_lines::Quote;
use std::fmt;

/// A word, a name or a number.
#[derive(Clone, Copy)]
pub enum Part<'a> {
    Word(&'a str),
    Name(&'a [u8]),
    Quoted(Quote<'a>),
    Number(u32),
    Large(u64),
    Count(usize),
    Signed(i64),
    /// One number, or the first and the last of several.
    Range(u32, u32),
    /// A cost, whose greatest number is told of greater ones, too.
    Cost(u64),
}

impl fmt::Display for Part<'_> {
    ghost output = { λ p. Some (part_text p) };

    fn fmt<W: fmt::Write>(&self, f: &mut fmt::Formatter<W>) -> fmt::Result {
        match *self {
            Part::Word(word) => write!(f, "{word}"),
            Part::Name(name) => write!(f, "{}", shown_text(name)),
            Part::Quoted(name) => write!(f, "{name}"),
            Part::Number(number) => write!(f, "{number}"),
            Part::Large(number) => write!(f, "{number}"),
            Part::Count(number) => write!(f, "{number}"),
            Part::Signed(number) => write!(f, "{number}"),
            Part::Range(low, high) if low == high => write!(f, "{low}"),
            Part::Range(low, high) => write!(f, "{low} to {high}"),
            Part::Cost(u64::MAX) => write!(f, "more than {}", u64::MAX),
            Part::Cost(cost) => write!(f, "{cost}"),
        }
    }
}

// Bytes as they are, or a `?` where they are no text.
fn shown_text(bytes: &[u8]) -> &str
    ensures { result.now ≡ shown_text bytes.now }
{
    match str::from_utf8(bytes) {
        Ok(text) => text,
        Err(_) => "?",
    }
}
