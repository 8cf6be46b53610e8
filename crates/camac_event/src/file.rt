// The events of a file, read from its bytes where they lie.

ghost use Rattle.std.specs.Prelude.{◌≡◌, ◌<◌, ◌≤◌, ◌+◌, ◌∷◌, [], drop, length, slice_get, slice_index, IfSome, IfNone};
ghost use Rattle.byteorder.specs.Endian.{big_bytes, big_number};
ghost use Rattle.camac_event.specs.Spelling.{IsEvent, parts_of};
ghost use Rattle.camac_event.specs.Reading.{ReadsAll, file_at};

use crate::event::{Usage, Version};
use crate::fault::EventFlaw;
use crate::reading::{head_of, header_of, pass_records};
use byteorder::{BigEndian, ByteOrder};
use camac_word::{GlBit, Word24};
use std::marker::Model;

/// The words of an event, as its file spells them.
#[derive(Drop)]
pub struct EventWords<'a> {
    count: usize,
    bytes: &'a [u8],
}

impl<'a> Model for EventWords<'a> {
    ghost use Rattle.std.specs.Prelude.{List, ℕ};
    ghost use Rattle.camac_event.specs.Records.{words_in, AreWords};

    ghost Value = { List ℕ };

    ghost view = { λ w. words_in w.count w.bytes.now };

    ghost invariant = { λ w. AreWords w.count w.bytes.now };
}

impl<'a> EventWords<'a> {
    /// The number of words.
    pub fn len(&self) -> usize
        ensures { result ≡ length self.now }
    {
        self.count
    }

    /// The word at this place, counted from 0.
    pub fn get(&self, index: usize) -> Option<Word24>
        ensures { result ≡ slice_get self.now index }
    {
        if index < self.count {
            Word24::new(BigEndian::read_u32(&self.bytes[4 * index..]))
        } else {
            None
        }
    }

    /// The three bytes of the word at this place, counted from 0, the highest first.
    pub fn bytes(&self, index: usize) -> [u8; 3]
        requires { index < length self.now }
        ensures { result ≡ big_bytes 3 (slice_index self.now index) }
    {
        low_bytes(self.bytes, 4 * index)
    }
}

// The three low bytes of the number of four at a place.
#[tactic(auto, using(crate::proofs::InPlace::low_bytes_of))]
fn low_bytes(bytes: &[u8], at: usize) -> [u8; 3]
    requires { at + 4 ≤ length bytes.now }
    ensures { result ≡ big_bytes 3 (big_number 4 (drop at bytes.now)) }
{
    [bytes[at + 1], bytes[at + 2], bytes[at + 3]]
}

/// An event of a file: its number, its bit of the graded-L pattern, its usage in version Two, and its words.
#[derive(Drop)]
pub struct EventRecord<'a> {
    pub number: usize,
    pub gl: GlBit,
    pub usage: Option<Usage>,
    pub words: EventWords<'a>,
}

/// The events of a file that are still to be read, and how many were read.
#[derive(Drop)]
pub struct EventRecords<'a> {
    version: Version,
    read: usize,
    rest: &'a [u8],
}

impl<'a> Model for EventRecords<'a> {
    ghost use Rattle.std.specs.Prelude.{◌+◌};
    ghost use Rattle.camac_event.specs.Records.{Unread, events_in, AreRecords};

    ghost Value = { Unread };

    ghost view = { λ r. record { version = r.version; read = r.read; events = events_in r.version (r.read + 1) r.rest.now } };

    ghost invariant = { λ r. AreRecords r.version (r.read + 1) r.rest.now (events_in r.version (r.read + 1) r.rest.now) };
}

impl<'a> EventRecords<'a> {
    ghost use Rattle.camac_event.specs.Found.{entry_in};

    /// The next event, in the order of the file, or `None` after the last one. It takes no memory.
    pub fn next(&mut self) -> Option<EventRecord<'a>>
        ensures some { IfSome result (λ r. self.old.events ≡ entry_in r ∷ self.new.events) }
        ensures number { IfSome result (λ r. r.number ≡ self.new.read) }
        ensures fits { IfSome result (λ r. IsEvent self.old.version (entry_in r)) }
        ensures read { IfSome result (λ _. self.new.read ≡ self.old.read + 1) }
        ensures none { IfNone result ((self.old.events ≡ []) × (self.new ≡ self.old)) }
        ensures version { self.new.version ≡ self.old.version }
    {
        if self.rest.is_empty() {
            return None;
        }
        let number = self.read + 1;
        let mut rest = self.rest;
        let Ok(head) = head_of(self.version, number, 0, &mut rest) else {
            unreachable!();
        };
        let (bytes, rest) = rest.split_at(4 * head.words);
        self.rest = rest;
        self.read = number;
        Some(EventRecord {
            number,
            gl: head.gl,
            usage: head.usage,
            words: EventWords {
                count: head.words,
                bytes,
            },
        })
    }

    /// How many events were read.
    pub fn read(&self) -> usize
        ensures { result ≡ self.now.read }
    {
        self.read
    }
}

/// A whole event file that is known to be right. It is its bytes and takes no memory.
#[derive(Drop)]
pub struct EventFile<'a> {
    version: Version,
    records: &'a [u8],
}

impl<'a> Model for EventFile<'a> {
    ghost use Rattle.camac_event.specs.Spelling.{Listing};
    ghost use Rattle.camac_event.specs.Records.{events_in, AreRecords};

    ghost Value = { Listing };

    ghost view = { λ f. record { version = f.version; events = events_in f.version 1 f.records.now } };

    ghost invariant = { λ f. AreRecords f.version 1 f.records.now (events_in f.version 1 f.records.now) };
}

impl<'a> EventFile<'a> {
    /// The file of these bytes. The first field that is wrong is answered with the offset of its first byte: V1 of the header; of each record
    /// V2 marker, V3 GL number, V4 event number, V9 missed in version Two, V5 count, V6 of each word; V7 where the bytes end inside the field.
    pub fn new(bytes: &'a [u8]) -> Result<Self, EventFlaw>
        ensures { ReadsAll parts_of result (file_at bytes.now) }
    {
        let mut records = bytes;
        let version = header_of(bytes.len(), &mut records)?;
        pass_records(version, bytes.len(), records)?;
        Ok(EventFile { version, records })
    }

    /// The version in which the file is written.
    pub fn version(&self) -> Version
        ensures { result ≡ self.now.version }
    {
        self.version
    }

    /// The events from the first one on.
    pub fn records(&self) -> EventRecords<'a>
        ensures { result ≡ record { version = self.now.version; read = 0; events = self.now.events } }
    {
        EventRecords {
            version: self.version,
            read: 0,
            rest: self.records,
        }
    }
}
