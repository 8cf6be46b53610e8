// Bytes that were read ahead. They are laid out once, as those of `Room`.

ghost use Rattle.std.specs.Prelude.{◌≡◌, ◌≤◌, ◌↔◌, ◌||◌, ◌++◌, [], IfOk, OnOk, OnErr, IsTrue, is_err, length, take, drop, min};
ghost use Rattle.std.specs.Io.KnownBytes.{Consumes, IsAtEnd, Keeps};

use camac_answer::TextReader;
use std::alloc::{AllocError, Global};
use std::io;
use std::marker::Model;

/// How many bytes it asks for at a time.
const AHEAD: usize = 32_768;

/// The bytes that were read and not taken yet, in their order.
#[derive(Drop)]
pub struct Unread {
    bytes: Vec<u8>,
    // the places between which they stand
    start: usize,
    end: usize,
}

impl Model for Unread {
    ghost use Rattle.std.specs.Prelude.{◌≡◌, List, ℕ, ◌≤◌, length, slice_range};

    ghost Value = { List ℕ };

    ghost view = { λ u. slice_range u.bytes.items u.start u.end };

    ghost invariant = { λ u. (length u.bytes.items ≡ 32768) × (u.start ≤ u.end) × (u.end ≤ 32768) };
}

impl Unread {
    /// An `Err` is out of memory.
    pub fn new(alloc: Global) -> Result<Unread, AllocError>
        ensures { IfOk result (λ u. u ≡ []) }
    {
        Ok(Unread {
            bytes: vec![in alloc; 0; AHEAD]?,
            start: 0,
            end: 0,
        })
    }

    #[inline(always)]
    pub fn as_slice(&self) -> &[u8]
        ensures { result.now ≡ self.now }
    {
        &self.bytes[self.start..self.end]
    }

    pub fn is_empty(&self) -> bool
        ensures { IsTrue result ↔ (self.now ≡ []) }
    {
        self.as_slice().is_empty()
    }

    /// Takes the first bytes away.
    #[inline(always)]
    pub fn drop_first(&mut self, count: usize)
        requires { count ≤ length self.old }
        ensures { self.new ≡ drop count self.old }
    {
        self.start += count;
    }

    /// Moves as many of the first bytes as there is room for, and tells how many.
    pub fn take(&mut self, buf: &mut [u8]) -> usize
        ensures count { result ≡ min (length self.old) (length buf.old) }
        ensures bytes { self.old ≡ take result buf.new ++ self.new }
        ensures len { length buf.new ≡ length buf.old }
    {
        let unread = self.as_slice();
        let count = unread.len().min(buf.len());
        buf[..count].copy_from_slice(&unread[..count]);
        self.drop_first(count);
        count
    }

    /// Where none is left, reads once.
    pub fn fill<R: TextReader>(&mut self, from: &mut R) -> io::Result<()>
        requires { self.old ≡ [] }
        ensures bytes { OnOk result (Consumes (R.remaining from.old) (R.remaining from.new) self.new) }
        ensures end { OnOk result (self.new ≡ [] → IsAtEnd (R.remaining from.new)) }
        ensures kept { OnErr result (Keeps (R.remaining from.old) (R.remaining from.new)) }
        ensures none { OnErr result (self.new ≡ []) }
        ensures failed { R.failed from.new ≡ (R.failed from.old || is_err result) }
    {
        self.start = 0;
        self.end = 0;
        self.end = from.read_piece(&mut self.bytes)?;
        Ok(())
    }
}
