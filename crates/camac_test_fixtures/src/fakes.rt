// Readers and writers that fail.

use std::io::{Error, ErrorKind, Read, Result, Write};

/// Gives its bytes one at a time, and then fails.
#[derive(Drop)]
pub struct Broken<'a> {
    pub bytes: &'a [u8],
}

impl Read for Broken<'_> {
    fn read(&mut self, buf: &mut [u8]) -> Result<usize> {
        let left: &[u8] = self.bytes;
        match left.split_first() {
            Some((first, rest)) if !buf.is_empty() => {
                buf[0] = *first;
                self.bytes = rest;
                Ok(1)
            }
            _ => Err(Error::from(ErrorKind::Other)),
        }
    }
}

/// What a full writer answers.
#[derive(Clone, Copy)]
pub enum WhenFull {
    Error,
    Nothing,
}

/// Takes bytes one at a time while there is room.
#[derive(Drop)]
pub struct Narrow {
    pub taken: Vec<u8>,
    pub room: usize,
    pub when_full: WhenFull,
}

impl Write for Narrow {
    fn write(&mut self, buf: &[u8]) -> Result<usize> {
        let Some(first) = buf.first() else {
            return Ok(0);
        };
        if self.taken.len() < self.room {
            self.taken.push(*first)?;
            return Ok(1);
        }
        match self.when_full {
            WhenFull::Error => Err(Error::from(ErrorKind::Other)),
            WhenFull::Nothing => Ok(0),
        }
    }

    fn flush(&mut self) -> Result<()> {
        Ok(())
    }
}
