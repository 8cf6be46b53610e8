// What is known of files: which input a word names, how EVENTS is opened, and what may be emptied.

ghost use Rattle.std.specs.Prelude.{◌≡◌, ◌↔◌, IfOk, IsOk, IsTrue, codes};
ghost use Rattle.std.specs.Io.{ReadsAtMost};
ghost use Rattle.std.specs.Io.KnownBytes.{ReadConsumes};
ghost use Rattle.std.specs.Str.{bytes_eq};
ghost use Rattle.camac_tool_host.specs.Files.{HoldsBytes, IsCharacterDevice, SaysCompared, begins_as_events, events_options, is_standard, left_in, may_empty};

use crate::host::Earlier;
use std::fs::{Files, Metadata, OpenOptions};
use std::io::{Error, ErrorKind, Input as StandardInput, Read};
use std::os::unix::fs::MetadataExt;
use std::{fs, io};

/// The kind of a file in its mode, that of a character device, and the number of the null device.
const KIND: u32 = 0o170000;

const CHARACTER_DEVICE: u32 = 0o020000;

const NULL_DEVICE: u64 = 0x103;

/// An input of the program.
#[derive(Drop)]
pub enum Input<S: Drop, F: Drop> {
    Standard(S),
    File(F),
}

/// The input that a word names.
pub fn input_of<R: Files + StandardInput>(
    rt: &R,
    word: &str,
) -> io::Result<Input<R::Reader, R::File>>
    ensures { IfOk result (λ input. is_standard input ≡ bytes_eq word.now (codes "@in")) }
{
    if word == "@in" {
        return Ok(Input::Standard(rt.reader()));
    }
    Ok(Input::File(fs::open(rt, word)?))
}

impl<S: Read + Drop, F: Read + Drop> Read for Input<S, F> {
    ghost remaining = { λ i. left_in S.remaining F.remaining i };

    fn read(&mut self, buf: &mut [u8]) -> io::Result<usize>
        ensures bound { ReadsAtMost result buf.new }
        ensures bytes { ReadConsumes (left_in S.remaining F.remaining self.old) (left_in S.remaining F.remaining self.new) result buf.new }
    {
        match self {
            Input::Standard(reader) => match reader.read(buf) {
                // the place of a closed stream is held by a folder
                Err(why) if why.kind() == ErrorKind::IsADirectory => {
                    Err(Error::new(why.kind(), "it is closed, or a folder"))
                }
                result => result,
            },
            Input::File(reader) => reader.read(buf),
        }
    }
}

/// A file that is not there is made, and one that is there is not emptied.
pub fn events_options() -> OpenOptions
    ensures { result ≡ events_options }
{
    let mut options = OpenOptions::new();
    options.write(true);
    options.create(true);
    options
}

/// Refuses to empty an EVENTS that holds bytes and begins so.
pub fn may_empty(earlier: Earlier, beginning: &[u8]) -> io::Result<()>
    ensures { IsOk result ↔ IsTrue (may_empty earlier beginning.now) }
{
    match earlier {
        Earlier::Emptied if begins_as_events(beginning) => Ok(()),
        Earlier::Emptied => Err(Error::other("it is no event file")),
        Earlier::Refused => {
            let refusal = "it holds bytes; a live run needs a file of its own";
            Err(Error::new(ErrorKind::AlreadyExists, refusal))
        }
    }
}

// These bytes begin as an event file of either version.
fn begins_as_events(bytes: &[u8]) -> bool
    ensures { result ≡ begins_as_events bytes.now }
{
    bytes.starts_with(b"CAMACEV1") || bytes.starts_with(b"CAMACEV2")
}

/// What is no regular file holds no bytes.
pub fn holds_bytes(about: &Metadata) -> bool
    ensures { IsTrue result ↔ HoldsBytes about.now }
{
    about.is_file() && about.len() > 0
}

/// What was found, if it can be the same as another file. That nothing is there is no fault, and the null device keeps nothing.
pub fn compared(found: io::Result<Metadata>) -> io::Result<Option<Metadata>>
    ensures { SaysCompared found result }
{
    match found {
        Ok(about) if is_character_device(&about) && about.rdev() == NULL_DEVICE => Ok(None),
        Ok(about) => Ok(Some(about)),
        Err(why) if why.kind() == ErrorKind::NotFound => Ok(None),
        Err(why) => Err(why),
    }
}

fn is_character_device(about: &Metadata) -> bool
    ensures { IsTrue result ↔ IsCharacterDevice about.now }
{
    about.mode() & KIND == CHARACTER_DEVICE
}
