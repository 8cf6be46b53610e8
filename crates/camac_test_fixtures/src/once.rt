// Readers and writers that share one log of their calls. One call fails, and the next ones go well.

use std::alloc::Global;
use std::cell::RefCell;
use std::io::{Error, ErrorKind, Read, Result, Write};

/// The calls of all readers and writers of a test in their order, each by the letter of what it called. One of them fails.
#[derive(Drop)]
pub struct Calls {
    log: RefCell<Vec<u8>>,
    failing: Option<usize>,
    kind: ErrorKind,
}

impl Calls {
    /// Calls of which the one with this number fails, counted from 0.
    pub fn new(alloc: Global, failing: Option<usize>, kind: ErrorKind) -> Calls {
        Calls {
            log: RefCell::new(Vec::new(alloc)),
            failing,
            kind,
        }
    }

    /// The letters of the calls that were made.
    pub fn made(self) -> Vec<u8> {
        self.log.into_inner()
    }

    fn call(&self, letter: u8) -> Result<()> {
        let Ok(mut log) = self.log.try_borrow_mut() else {
            return Err(Error::from(ErrorKind::Other));
        };
        let fails = self.failing == Some(log.len());
        log.push(letter)?;
        if fails {
            return Err(Error::from(self.kind));
        }
        Ok(())
    }
}

/// Gives its text in pieces of a size.
#[derive(Drop)]
pub struct OnceReader<'a> {
    pub letter: u8,
    pub text: &'a [u8],
    pub size: usize,
    pub calls: &'a Calls,
}

impl Read for OnceReader<'_> {
    fn read(&mut self, buf: &mut [u8]) -> Result<usize> {
        self.calls.call(self.letter)?;
        let text: &[u8] = self.text;
        let taken = text.len().min(buf.len()).min(self.size);
        buf[..taken].copy_from_slice(&text[..taken]);
        self.text = &text[taken..];
        Ok(taken)
    }
}

/// Takes all that it is given.
#[derive(Drop)]
pub struct OnceWriter<'a> {
    pub letter: u8,
    pub taken: Vec<u8>,
    pub calls: &'a Calls,
}

impl Write for OnceWriter<'_> {
    fn write(&mut self, buf: &[u8]) -> Result<usize> {
        self.calls.call(self.letter)?;
        self.taken.extend_from_slice(buf)?;
        Ok(buf.len())
    }

    fn flush(&mut self) -> Result<()> {
        self.calls.call(self.letter)
    }
}
