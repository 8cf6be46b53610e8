// Reading a whole input.

ghost use Rattle.std.specs.Prelude.{◌≡◌, ◌≤◌, ◌<◌, ◌+◌, ◌^◌, ◌||◌, ◌++◌, IfOk, IsErrOf, OnOk};
ghost use Rattle.std.specs.Io.KnownBytes.{Consumes, IsAtEnd};
ghost use Rattle.camac_engines.specs.Reading.{Reads, is_read_fault};

use crate::fault::ToolFault;
use camac_answer::TextReader;
use std::alloc::{AllocError, Global};

/// The greatest length of a plan and of a script, in bytes.
pub const TEXT_LIMIT: usize = 1_048_576;

/// The greatest length of an event file, in bytes.
pub const EVENTS_LIMIT: usize = 16_777_216;

/// How many bytes are asked for at a time.
const CHUNK: usize = 16_384;

/// How many bytes are copied at a time.
const PIECE: usize = 2_048;

/// All that the reader has left, where that is at most `limit` bytes. No more than one byte past
/// the limit is taken.
pub fn read_whole<R: TextReader>(
    alloc: Global,
    reader: &mut R,
    limit: usize,
) -> Result<Vec<u8>, ToolFault>
    requires { limit < 2 ^ 32 }
    ensures bytes { Reads (R.remaining reader.old) (R.remaining reader.new) limit result }
    ensures failed { R.failed reader.new ≡ (R.failed reader.old || is_read_fault result) }
{
    let mut bytes = Vec::new(alloc);
    let mut chunk = [0; CHUNK];
    while bytes.len() <= limit {
        let room = CHUNK.min(limit + 1 - bytes.len());
        let part = &mut chunk[..room];
        let Ok(taken) = reader.read_piece(part) else {
            return Err(ToolFault::Read);
        };
        if taken == 0 {
            return Ok(bytes);
        }
        append(&mut bytes, &part[..taken])?;
    }
    Err(ToolFault::TooLong)
}

// Puts bytes at the end, in pieces: the C library copies longer ones by an instruction that is slower here.
fn append(bytes: &mut Vec<u8>, part: &[u8]) -> Result<(), AllocError>
    ensures { OnOk result (bytes.new.items ≡ bytes.old.items ++ part.now) }
{
    let mut rest = part;
    while rest.len() > PIECE {
        let (piece, after) = rest.split_at(PIECE);
        bytes.extend_from_slice(piece)?;
        rest = after;
    }
    bytes.extend_from_slice(rest)
}
