// The writers of the program: what stands behind an output or EVENTS.

ghost use Rattle.std.specs.Prelude.{◌≡◌, ◌≤◌, ◌<◌, ◌||◌, length, take, is_err, OnOk, OnErr, ℕ, Bool, List, Option};
ghost use Rattle.std.specs.Io.{WritesAtMost};
ghost use Rattle.std.specs.Io.KnownBytes.{Appends, Keeps, WriteAppends};
ghost use Rattle.camac_word.specs.Watched.{inner_of, has_failed, is_write_failure};

use camac_event::TextWriter;
use camac_word::{Watched, WriteFault};
use std::io;
use std::io::Write;

/// A writer that knows whether a call of it has failed.
pub trait Device {
    /// The bytes that it was given, where they are known.
    ghost contents: { Self → Option (List ℕ) };

    /// Whether a call so far answered an error, or a write of at least one byte took nothing.
    ghost failed: { Self → Bool };

    /// Writes some of the bytes, as `write` does.
    fn write_some(&mut self, bytes: &[u8]) -> io::Result<usize>
        ensures bound { WritesAtMost result bytes.now }
        ensures bytes { WriteAppends (contents self.old) (contents self.new) result bytes.now }
        ensures failed { failed self.new ≡ (failed self.old || is_write_failure result bytes.now) };

    /// Hands on what it holds back, as `flush` does.
    fn hand_on(&mut self) -> io::Result<()>
        ensures bytes { Keeps (contents self.old) (contents self.new) }
        ensures failed { failed self.new ≡ (failed self.old || is_err result) };

    fn has_failed(&self) -> bool
        ensures { result ≡ failed self.now };
}

impl<W: Write> Device for Watched<W> {
    ghost contents = { λ w. W.contents (inner_of w) };

    ghost failed = { λ w. has_failed w };

    fn write_some(&mut self, bytes: &[u8]) -> io::Result<usize> {
        self.write(bytes)
    }

    fn hand_on(&mut self) -> io::Result<()> {
        self.flush()
    }

    fn has_failed(&self) -> bool {
        self.failed()
    }
}

/// A device that takes whole texts.
#[derive(Drop)]
pub struct Whole<D: Drop>(pub D);

impl<D: Device + Drop> TextWriter for Whole<D> {
    ghost contents = { λ w. D.contents w.0 };

    ghost failed = { λ w. D.failed w.0 };

    #[tactic(auto, using(crate::proofs::Lines::written_out))]
    fn put_text(&mut self, text: &[u8]) -> Result<(), WriteFault> {
        let (_, result) = write_out(text, &mut self.0);
        result
    }
}

/// Writes until all is written or a write fails, and returns how many bytes were written.
pub fn write_out<D: Device>(bytes: &[u8], to: &mut D) -> (usize, Result<(), WriteFault>)
    ensures bound { result.0 ≤ length bytes.now }
    ensures all { OnOk result.1 (result.0 ≡ length bytes.now) }
    ensures rest { OnErr result.1 (result.0 < length bytes.now) }
    ensures bytes { Appends (D.contents to.old) (D.contents to.new) (take result.0 bytes.now) }
    ensures failed { D.failed to.new ≡ (D.failed to.old || is_err result.1) }
{
    let mut written = 0;
    while written < bytes.len() {
        match to.write_some(&bytes[written..]) {
            Ok(0) => return (written, Err(WriteFault)),
            Ok(n) => written += n,
            Err(_) => return (written, Err(WriteFault)),
        }
    }
    (written, Ok(()))
}
