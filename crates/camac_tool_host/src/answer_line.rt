// A refused line of answers: where it stops being one, and what stands there.

use camac_answer::LINE;
use std::fmt;
use std::io::Eprint;

/// The bytes that judge a line of answers, with LF behind them.
#[derive(Clone, Copy)]
pub struct AnswerLine([u8; LINE]);

impl AnswerLine {
    pub fn new(read: &[u8]) -> AnswerLine {
        let mut line = [b'\n'; LINE];
        for (place, byte) in read.iter().take(LINE).enumerate() {
            line[place] = *byte;
        }
        AnswerLine(line)
    }

    /// Tells on standard error where it stops being an answer, if it does.
    pub fn tell<R: Eprint>(&self, rt: &R, name: &str) {
        for place in 0..LINE {
            let byte = self.0[place];
            if !fits(place, byte) {
                let (column, wanted) = (place + 1, wanted_at(place));
                let line = &self.0;
                let found = Found { line, place, byte };
                let _ = eprintln!(rt;
                    "  {name}: column {column}: found {found}; expected {wanted}: `x q word wait gl`, as `1 1 123fff 0 000004`"
                );
                return;
            }
        }
    }
}

// Whether a byte can stand at this place of an answer.
fn fits(place: usize, byte: u8) -> bool {
    match place {
        0 | 2 => byte == b'0' || byte == b'1',
        1 | 3 | 10 | 12 => byte == b' ',
        19 => byte == b'\n',
        _ => byte.is_ascii_hexdigit(),
    }
}

fn wanted_at(place: usize) -> &'static str {
    match place {
        0 => "x, 0 or 1",
        2 => "q, 0 or 1",
        4..=9 => "a hexadecimal digit of word",
        11 => "a hexadecimal digit of wait",
        13..=18 => "a hexadecimal digit of gl",
        19 => "the end of the line",
        _ => "a space",
    }
}

// What stands at a place of a line.
#[derive(Clone, Copy)]
struct Found<'a> {
    line: &'a [u8; LINE],
    place: usize,
    byte: u8,
}

impl fmt::Display for Found<'_> {
    fn fmt<W: fmt::Write>(&self, f: &mut fmt::Formatter<W>) -> fmt::Result {
        let line = self.line;
        if line.starts_with(b"CAMACEV") {
            return f.write_str("an event file: ANSWERS comes before EVENTS");
        }
        if line.starts_with(b"abandon\n") {
            return f.write_str("`abandon` outside a service");
        }
        match (self.place, self.byte) {
            (0, b'\n') => f.write_str("an empty line"),
            (0, b'#') => f.write_str("a comment"),
            (0, 0xef) => f.write_str("a byte order mark (BOM)"),
            (_, b'\n') => f.write_str("the end of the line"),
            (_, b'\r') => f.write_str("CR, which `tr -d '\\r'` removes"),
            (_, b'\t') => f.write_str("a tab"),
            (_, b' ') => f.write_str("a space"),
            (_, byte) if byte.is_ascii_graphic() => write!(f, "`{}`", char::from(byte)),
            (_, byte) => write!(f, "the byte {byte:02x}"),
        }
    }
}
