// A writer that gathers what it is given, and hands it on.

ghost use Rattle.std.specs.Prelude.{◌≡◌, ◌≤◌, ◌<◌, ◌+◌, ◌||◌, ◌++◌, true, false, [], length, take, IfOk, IfErr, OnOk, is_err};
ghost use Rattle.std.specs.Io.{WritesAtMost};
ghost use Rattle.std.specs.Io.KnownBytes.{Keeps, Appends, WriteAppends};
ghost use Rattle.camac_event.specs.Spelling.{header};
ghost use Rattle.camac_event.specs.declared.event.Version.TheVariants.{Two};
ghost use Rattle.camac_report.specs.Items.{item_text, unlock_texts};
ghost use Rattle.camac_machine.specs.MachineState.{piece_of};
ghost use Rattle.camac_tool_host.specs.Streams.{device_of, given_to, has_stopped, held_in};
ghost use Rattle.camac_word.specs.Writing.{Writes};

mod room;

use self::room::{ROOM, Room};
use crate::device::{Device, Whole, write_out};
use camac_event::{TextWriter, write_header};
use camac_report::{LONGEST_LINE, Line};
use camac_rules::Checked;
use camac_run::Item;
use camac_word::{CrateNo, WriteFault};
use std::alloc::Global;
use std::io;
use std::io::{Error, ErrorKind, Write};

/// A writer that holds what it is given until it is flushed or its room is full, and then hands it on. So what was handed on is always a
/// prefix of what was given. Once a call of the writer behind it has failed, that writer is left alone and each later call fails: an
/// interrupted call is one that failed. What is held when it is dropped is lost.
#[derive(Drop)]
pub struct Gathered<W: Drop> {
    inner: Whole<W>,
    room: Room,
}

impl<W: Device + Drop> Gathered<W> {
    /// Nothing is held. Where memory is out the writer comes back.
    pub fn new(alloc: Global, inner: W) -> Result<Gathered<W>, W>
        ensures inner { IfOk result (λ g. device_of g ≡ inner) }
        ensures empty { IfOk result (λ g. held_in g ≡ []) }
        ensures memory { IfErr result (λ same. same ≡ inner) }
    {
        match Room::new(alloc) {
            Ok(room) => Ok(Gathered {
                inner: Whole(inner),
                room,
            }),
            Err(_) => Err(inner),
        }
    }

    /// Whether a call of the writer behind it has failed so far.
    pub fn failed(&self) -> bool
        ensures { result ≡ has_stopped W.failed self.now }
    {
        self.inner.0.has_failed()
    }

    /// The writer behind it. What is still held is lost.
    pub fn into_inner(self) -> W
        ensures { result ≡ device_of self }
    {
        self.inner.0
    }
}

impl<W: Device + Drop> Gathered<W> {
    // Hands on all that is held. What a failed call leaves stays held. The fault is small: an error of `std::io` would be laid out and
    // dropped at each write that this function is not called for.
    #[inline(never)]
    fn write_held(&mut self) -> Result<(), WriteFault>
        requires works { has_stopped W.failed self.old ≡ false }
        ensures empty { OnOk result (held_in self.new ≡ []) }
        ensures bytes { Keeps (given_to W.contents self.old) (given_to W.contents self.new) }
        ensures failed { has_stopped W.failed self.new ≡ is_err result }
    {
        let (written, result) = write_out(self.room.as_slice(), &mut self.inner.0);
        self.room.remove_prefix(written);
        result
    }

    // Where there is no room for so many bytes more, hands on all that is held.
    #[inline(always)]
    fn make_room(&mut self, count: usize) -> Result<(), WriteFault>
        requires { count ≤ ROOM }
        ensures room { OnOk result (length (held_in self.new) + count ≤ ROOM) }
        ensures bytes { Keeps (given_to W.contents self.old) (given_to W.contents self.new) }
        ensures failed { has_stopped W.failed self.new ≡ (has_stopped W.failed self.old || is_err result) }
        ensures stopped { has_stopped W.failed self.old ≡ true → (is_err result ≡ true) × (self.new ≡ self.old) }
    {
        if self.failed() {
            return Err(WriteFault);
        }
        if self.room.has_room(count) {
            return Ok(());
        }
        self.write_held()
    }

    /// Takes the header of an event file, and hands it on at once, with what is held before it.
    pub fn put_header(&mut self) -> Result<(), WriteFault>
        requires works { has_stopped W.failed self.old ≡ false }
        ensures text { Writes (given_to W.contents self.old) (given_to W.contents self.new) result (header Two) }
        ensures failed { has_stopped W.failed self.new ≡ is_err result }
    {
        self.write_held()?;
        write_header(&mut self.inner)
    }

    /// Takes the line of an item, and a line for each crate, at most seven, whose lockout was released after it: they are laid out where
    /// they are held.
    #[inline(always)]
    pub fn put_items(
        &mut self,
        checked: &Checked,
        item: &Item,
        unlocks: &[CrateNo],
    ) -> Result<(), WriteFault>
        requires { length unlocks.now ≤ 7 }
        ensures text { Writes (given_to W.contents self.old) (given_to W.contents self.new) result (item_text checked.now.script (piece_of item.now) ++ unlock_texts unlocks.now) }
        ensures failed { has_stopped W.failed self.new ≡ (has_stopped W.failed self.old || is_err result) }
        ensures stopped { has_stopped W.failed self.old ≡ true → (is_err result ≡ true) × (self.new ≡ self.old) }
    {
        self.make_room(LONGEST_LINE)?;
        self.room.put_items(checked, item, unlocks);
        Ok(())
    }

    /// Takes what a line holds.
    pub fn put_line(&mut self, line: &Line) -> Result<(), WriteFault>
        requires { 0 < length line.now }
        ensures text { Writes (given_to W.contents self.old) (given_to W.contents self.new) result line.now }
        ensures failed { has_stopped W.failed self.new ≡ (has_stopped W.failed self.old || is_err result) }
        ensures stopped { has_stopped W.failed self.old ≡ true → (is_err result ≡ true) × (self.new ≡ self.old) }
    {
        self.make_room(line.len())?;
        self.room.put(line.as_bytes());
        Ok(())
    }
}

impl<W: Device + Drop> TextWriter for Gathered<W> {
    ghost contents = { given_to W.contents };

    ghost failed = { has_stopped W.failed };

    fn put_text(&mut self, text: &[u8]) -> Result<(), WriteFault> {
        let mut rest = text;
        while !rest.is_empty() {
            match self.write(rest) {
                Ok(taken) => rest = &rest[taken..],
                Err(_) => return Err(WriteFault),
            }
        }
        Ok(())
    }
}

impl<W: Device + Drop> Write for Gathered<W> {
    ghost contents = { given_to W.contents };

    #[inline(always)]
    fn write(&mut self, buf: &[u8]) -> io::Result<usize>
        ensures bound { WritesAtMost result buf.now }
        ensures bytes { WriteAppends (given_to W.contents self.old) (given_to W.contents self.new) result buf.now }
        ensures some { IfOk result (λ taken. 0 < length buf.now → 0 < taken) }
        ensures failed { has_stopped W.failed self.new ≡ (has_stopped W.failed self.old || is_err result) }
        ensures stopped { has_stopped W.failed self.old ≡ true → (is_err result ≡ true) × (self.new ≡ self.old) }
    {
        if self.make_room(1).is_err() {
            return Err(stopped());
        }
        Ok(self.room.put(buf))
    }

    fn flush(&mut self) -> io::Result<()>
        ensures bytes { Keeps (given_to W.contents self.old) (given_to W.contents self.new) }
        ensures empty { OnOk result (held_in self.new ≡ []) }
        ensures failed { has_stopped W.failed self.new ≡ (has_stopped W.failed self.old || is_err result) }
        ensures stopped { has_stopped W.failed self.old ≡ true → (is_err result ≡ true) × (self.new ≡ self.old) }
    {
        if self.failed() {
            return Err(stopped());
        }
        if self.write_held().is_err() {
            return Err(stopped());
        }
        self.inner.0.hand_on()
    }
}

/// The error of each call that failed and of each that is not made.
pub fn stopped() -> Error {
    Error::from(ErrorKind::Other)
}
