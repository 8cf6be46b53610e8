// A reader that reads ahead of what it is asked for.

ghost use Rattle.std.specs.Prelude.{◌≡◌, [], true, false, IfOk, IfErr, IsTrue, length};
ghost use Rattle.std.specs.Io.KnownBytes.{Consumes};
ghost use Rattle.camac_answer.specs.Lines.{IsNoMore};
ghost use Rattle.camac_tool_host.specs.Streams.{behind, left_ahead, unread_in};

mod unread;

use self::unread::Unread;
use camac_answer::{ABANDON, LINE, TextReader};
use std::alloc::Global;
use std::io;

/// Reads ahead as far as its memory goes.
#[derive(Drop)]
pub struct Ahead<R: Drop> {
    reader: R,
    unread: Unread,
}

impl<R: TextReader + Drop> Ahead<R> {
    /// It has read nothing yet. Where memory is out the reader comes back.
    pub fn new(alloc: Global, reader: R) -> Result<Ahead<R>, R>
        ensures inner { IfOk result (λ a. behind a ≡ reader) }
        ensures none { IfOk result (λ a. unread_in a ≡ []) }
        ensures memory { IfErr result (λ same. same ≡ reader) }
    {
        match Unread::new(alloc) {
            Ok(unread) => Ok(Ahead { reader, unread }),
            Err(_) => Err(reader),
        }
    }

    /// The reader behind it. What was read ahead is lost.
    pub fn into_inner(self) -> R
        ensures { result ≡ behind self }
    {
        self.reader
    }

    /// Copies the line of an answer, if all of it was read ahead: a copy of a fixed length needs no call. The reader behind is left alone. Where an LF
    /// stands after seven bytes it copies none, since that may be the line `abandon`.
    #[inline(always)]
    pub fn take_line(&mut self, line: &mut [u8]) -> bool
        ensures len { length line.new ≡ length line.old }
        ensures bytes { IsTrue result → Consumes (left_ahead R.remaining self.old) (left_ahead R.remaining self.new) line.new }
        ensures no_more { IsTrue result → IsNoMore line.new (length line.new) }
        ensures none { result ≡ false → self.new ≡ self.old }
        ensures inner { behind self.new ≡ behind self.old }
    {
        if line.len() == LINE {
            if let Some(ahead) = self.unread.as_slice().first_chunk::<LINE>() {
                if ahead[ABANDON - 1] == b'\n' {
                    return false;
                }
                line.copy_from_slice(ahead);
                self.unread.drop_first(LINE);
                return true;
            }
        }
        false
    }
}

impl<R: TextReader + Drop> TextReader for Ahead<R> {
    ghost remaining = { left_ahead R.remaining };

    ghost failed = { λ a. R.failed (behind a) };

    fn read_piece(&mut self, buf: &mut [u8]) -> io::Result<usize> {
        if self.unread.is_empty() {
            self.unread.fill(&mut self.reader)?;
        }
        Ok(self.unread.take(buf))
    }
}
