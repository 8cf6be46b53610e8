// The files and the standard input of the system, over std, of which no clause says what they hold.

ghost use Rattle.camac_tool_host.specs.Files.{left_in};

use crate::files::{Input, compared, events_options, holds_bytes, input_of, may_empty};
use crate::host::{Earlier, FileId, Host, RunWords};
use std::fmt::Display;
use std::fs::{Files, Metadata, OpenFile};
use std::io::{Error, ErrorKind, Input as StandardInput, Print, Read, Write};
use std::os::unix::fs::MetadataExt;
use std::{fs, io};

/// The name under which the system has the file behind standard input.
const STANDARD_INPUT: &str = "/proc/self/fd/0";

/// The length of the header of an event file.
const HEADER: usize = 8;

impl<R: Files + StandardInput + Print> Host for R {
    type Places = (R::File, R::File, R::File);

    type Input = Input<R::Reader, R::File>;

    type Events = Option<R::File>;

    ghost left = { λ i. left_in R.Reader.remaining R.File.remaining i };

    // A folder has the places, so that no file that is opened later is read or written for one of them. It can be opened, but each read and
    // each write of it fails.
    fn hold_places(&self) -> io::Result<(R::File, R::File, R::File)> {
        let hold = || fs::open(self, "/");
        Ok((hold()?, hold()?, hold()?))
    }

    fn open(&self, word: &str) -> io::Result<Input<R::Reader, R::File>> {
        input_of(self, word)
    }

    fn read(&self, input: &mut Input<R::Reader, R::File>, buf: &mut [u8]) -> io::Result<usize> {
        input.read(buf)
    }

    fn put(
        &self,
        events: &mut Option<R::File>,
        words: &RunWords<'_>,
        bytes: &[u8],
    ) -> io::Result<usize> {
        if let Some(file) = events {
            return file.write(bytes);
        }
        let mut file = events_options().open(self, words.events)?;
        let about = file.metadata()?;
        if holds_bytes(&about) {
            let beginning = beginning_of(self, words, id_in(&about))?;
            may_empty(words.earlier, &beginning)?;
            file.set_len(0)?;
        }
        let taken = file.write(bytes)?;
        *events = Some(file);
        Ok(taken)
    }

    fn sync(&self, events: &Option<R::File>) -> io::Result<()> {
        match events {
            Some(file) if file.metadata()?.is_file() => file.sync_all(),
            _ => Ok(()),
        }
    }

    fn find(&self, name: &str) -> io::Result<Option<FileId>> {
        Ok(compared(fs::metadata(self, name))?.map(|about| id_in(&about)))
    }

    fn id_at(&self, name: &str) -> io::Result<FileId> {
        Ok(id_in(&fs::metadata(self, name)?))
    }

    fn id_of(&self, input: &Input<R::Reader, R::File>) -> io::Result<FileId> {
        match input {
            Input::Standard(_) => Ok(id_in(&fs::metadata(self, STANDARD_INPUT)?)),
            Input::File(file) => Ok(id_in(&file.metadata()?)),
        }
    }

    fn print_text<D: Display + Drop>(&self, text: D) -> io::Result<()> {
        self.print(text)
    }
}

// The first bytes of the file that was opened. A live run reads none.
fn beginning_of<R: Files>(
    rt: &R,
    words: &RunWords<'_>,
    opened: FileId,
) -> io::Result<[u8; HEADER]> {
    let mut beginning = [0; HEADER];
    if words.earlier == Earlier::Refused {
        return Ok(beginning);
    }
    let mut file = fs::open(rt, words.events)?;
    if id_in(&file.metadata()?) != opened {
        return Err(Error::other("another file has its name"));
    }
    match file.read_exact(&mut beginning) {
        Err(why) if why.kind() != ErrorKind::UnexpectedEof => Err(why),
        _ => Ok(beginning),
    }
}

fn id_in(about: &Metadata) -> FileId {
    FileId {
        device: about.dev(),
        number: about.ino(),
    }
}
