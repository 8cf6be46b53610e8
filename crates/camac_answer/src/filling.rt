// Reading no further than a line.

ghost use Rattle.std.specs.Prelude.{◌≡◌, ◌≤◌, ◌<◌, ◌||◌, ◌⊎◌, ℕ, Bool, List, Option, length, take, is_err, IfOk, OnErr};
ghost use Rattle.std.specs.Io.{ReadsAtMost};
ghost use Rattle.std.specs.Io.KnownBytes.{Consumes, IsAtEnd, ReadConsumes};
ghost use Rattle.camac_word.specs.Watched.{inner_of, has_failed};
ghost use Rattle.camac_answer.specs.Answers.{IsOpen};
ghost use Rattle.camac_answer.specs.Lines.{first_line, IsNoMore};

use crate::line::line_length;
use camac_word::Watched;
use std::io;
use std::io::Read;

/// A reader answered an error.
#[derive(Clone, Copy, Debug, PartialEq, Eq)]
pub struct ReadFailed;

/// A reader that remembers whether one of its calls has failed: any watched reader, or one that reads ahead.
pub trait TextReader {
    /// The bytes that it has left, where they are known.
    ghost remaining: { Self → Option (List ℕ) };

    /// Whether a call has failed so far.
    ghost failed: { Self → Bool };

    /// Reads what comes next, as far as there is room for it; nothing at the end.
    fn read_piece(&mut self, buf: &mut [u8]) -> io::Result<usize>
        ensures bound { ReadsAtMost result buf.new }
        ensures bytes { ReadConsumes (remaining self.old) (remaining self.new) result buf.new }
        ensures failed { failed self.new ≡ (failed self.old || is_err result) };
}

impl<R: Read> TextReader for Watched<R> {
    ghost remaining = { λ w. R.remaining (inner_of w) };

    ghost failed = { λ w. has_failed w };

    #[inline(always)]
    fn read_piece(&mut self, buf: &mut [u8]) -> io::Result<usize> {
        self.read(buf)
    }
}

/// How many bytes an answer's line has with its LF (own). Any line that is longer is wrong, whatever else it holds.
pub const LINE: usize = 20;

/// How many bytes the line `abandon` has with its LF (own).
pub const ABANDON: usize = 8;

/// Fills the line with so many bytes as it has, or those up to the piece that has an LF, or all that are left, and tells how many they are.
/// Of what follows the line `abandon` nothing is read.
pub fn fill<R: TextReader>(reader: &mut R, line: &mut [u8]) -> Result<usize, ReadFailed>
    ensures within { IfOk result (λ n. n ≤ length line.old) }
    ensures len { length line.new ≡ length line.old }
    ensures bytes { IfOk result (λ n. Consumes (R.remaining reader.old) (R.remaining reader.new) (take n line.new)) }
    ensures short { IfOk result (λ n. n < length line.old → n ≤ length (first_line (take n line.new)) → IsAtEnd (R.remaining reader.new)) }
    ensures no_more { IfOk result (λ n. IsNoMore line.new n) }
    ensures open { OnErr result (IsOpen (length line.old) (R.remaining reader.old) (R.remaining reader.new)) }
    ensures failed { R.failed reader.new ≡ (R.failed reader.old || is_err result) }
{
    let mut len = 0;
    'pieces: while len < line.len() && (len == 0 || line_length(&line[..len]) >= len) {
        let end = piece_end(len, line.len());
        let Ok(taken) = reader.read_piece(&mut line[len..end]) else {
            return Err(ReadFailed);
        };
        if taken == 0 {
            return Ok(len);
        }
        len += taken;
    }
    Ok(len)
}

// How far a piece of a line may reach that begins there: not beyond the line `abandon`, where it is not known to be longer.
#[inline(always)]
fn piece_end(start: usize, most: usize) -> usize
    requires { start < most }
    ensures later { start < result }
    ensures within { result ≤ most }
    ensures no_more { (result ≤ 8) ⊎ (8 ≤ start) }
{
    if start < ABANDON && ABANDON < most {
        ABANDON
    } else {
        most
    }
}
