// Writing events, into memory in either version, and to a writer in version Two.

ghost use Rattle.std.specs.Prelude.{◌≡◌, ◌≤◌, ◌<◌, ◌+◌, ◌*◌, ◌^◌, ◌++◌, ◌||◌, length, OnOk, IfOk, Some, is_err, All, ℕ, Bool, List, Option};
ghost use Rattle.std.specs.List.{flat_map};
ghost use Rattle.std.specs.Io.KnownBytes.{Appends};
ghost use Rattle.arrayvec.specs.ArrayVec.{array_vec_len};
ghost use Rattle.byteorder.specs.Endian.{big_bytes};
ghost use Rattle.camac_event.specs.Spelling.{entries_of, records_from, header, usage_fields, head_of, record_of, spelling};
ghost use Rattle.camac_event.specs.declared.event.Version.TheVariants.{Two};
ghost use Rattle.camac_word.specs.Watched.{inner_of, has_failed};
ghost use Rattle.camac_word.specs.Writing.{Writes};

use crate::event::{Event, Events, Usage, Version};
use arrayvec::ArrayVec;
use byteorder::{BigEndian, ByteOrder};
use camac_word::{GlBit, Watched, Word24, WriteFault};
use std::alloc::{AllocError, Global};
use std::io::Write;

/// A writer of whole texts: any watched writer, or one that gathers.
pub trait TextWriter {
    /// The bytes that it was given, where they are known.
    ghost contents: { Self → Option (List ℕ) };

    /// Whether a call has failed so far.
    ghost failed: { Self → Bool };

    /// Writes the text. After a fault a prefix of it was written.
    fn put_text(&mut self, text: &[u8]) -> Result<(), WriteFault>
        ensures text { Writes (contents self.old) (contents self.new) result text.now }
        ensures failed { failed self.new ≡ (failed self.old || is_err result) };
}

impl<W: Write> TextWriter for Watched<W> {
    ghost contents = { λ w. W.contents (inner_of w) };

    ghost failed = { λ w. has_failed w };

    fn put_text(&mut self, text: &[u8]) -> Result<(), WriteFault> {
        self.write_text(text)
    }
}

/// The one spelling of the events, in their own version. An `Err` is out of memory.
pub fn encode(alloc: Global, events: &Events) -> Result<Vec<u8>, AllocError>
    ensures { IfOk result (λ v. v.items ≡ spelling events.now.version events.now.events) }
{
    let mut out = Watched::new(Vec::new(alloc));
    // A write to a vector fails only where memory runs out.
    out.write_text(header_text(events.version))
        .map_err(|_| AllocError)?;
    write_records(&mut out, &events.items).map_err(|_| AllocError)?;
    Ok(out.into_inner())
}

/// Writes the header of a file of version Two. After a fault a prefix of it was written.
pub fn write_header<W: TextWriter>(out: &mut W) -> Result<(), WriteFault>
    ensures text { Writes (W.contents out.old) (W.contents out.new) result (header Two) }
    ensures failed { W.failed out.new ≡ (W.failed out.old || is_err result) }
{
    out.put_text(header_text(Version::Two))
}

/// Writes the record of an event of version Two, at most 4,096 words, under its number (1, 2, ..). After a fault a prefix of it was written.
pub fn write_record<W: TextWriter>(
    out: &mut W,
    number: u32,
    gl: GlBit,
    usage: Usage,
    words: &[Word24],
) -> Result<(), WriteFault>
    requires words { length words.now ≤ 4096 }
    requires usage { usage.missed ≤ usage.cycles }
    ensures text { Writes (W.contents out.old) (W.contents out.new) result
        (record_of number (record { gl = gl; usage = Some usage; words = words.now })) }
    ensures failed { W.failed out.new ≡ (W.failed out.old || is_err result) }
{
    write_entry(out, number, gl, Some(usage), words)
}

// Writes the records of the events, numbered one after the other.
fn write_records<W: TextWriter>(out: &mut W, events: &[Event]) -> Result<(), WriteFault>
    requires few { length events.now < 2 ^ 32 }
    requires short { All (λ e. length e.words.items ≤ 4096) events.now }
    ensures { OnOk result (Appends (W.contents out.old) (W.contents out.new)
        (records_from 1 (entries_of events.now))) }
{
    let mut number = 0;
    for event in events {
        number += 1;
        write_entry(out, number, event.gl, event.usage, &event.words)?;
    }
    Ok(())
}

// Writes the record of an event of either version.
fn write_entry<W: TextWriter>(
    out: &mut W,
    number: u32,
    gl: GlBit,
    usage: Option<Usage>,
    words: &[Word24],
) -> Result<(), WriteFault>
    requires { length words.now ≤ 4096 }
    ensures text { Writes (W.contents out.old) (W.contents out.new) result
        (record_of number (record { gl = gl; usage = usage; words = words.now })) }
    ensures failed { W.failed out.new ≡ (W.failed out.old || is_err result) }
{
    let mut layout = PieceBytes::new();
    lay_head(&mut layout, number, gl, usage, words.len());
    write_words(out, &mut layout, words)
}

// Writes what is laid out and the words after it, piece by piece.
fn write_words<W: TextWriter>(
    out: &mut W,
    layout: &mut PieceBytes,
    words: &[Word24],
) -> Result<(), WriteFault>
    ensures text { Writes (W.contents out.old) (W.contents out.new) result
        (layout.old.items ++ flat_map (big_bytes 4) words.now) }
    ensures failed { W.failed out.new ≡ (W.failed out.old || is_err result) }
{
    'words: for word in words {
        if layout.remaining_capacity() < 4 {
            out.put_text(layout)?;
            layout.clear();
        }
        lay_u32(layout, word.get());
    }
    out.put_text(layout)
}

fn header_text(version: Version) -> &'static [u8; 8]
    ensures { result.now ≡ header version }
{
    match version {
        Version::One => b"CAMACEV1",
        Version::Two => b"CAMACEV2",
    }
}

/// The greatest length of a piece, in bytes: what stands before the words of a record of version Two, and 56 words.
const PIECE: usize = 18 + 4 * 56;

/// A piece of a record while it is laid out.
type PieceBytes = ArrayVec<u8, PIECE>;

// Lays out a record up to its words, of which `words` is the number.
fn lay_head(out: &mut PieceBytes, number: u32, gl: GlBit, usage: Option<Usage>, words: usize)
    requires room { array_vec_len out.old + 18 ≤ PIECE }
    requires words { words ≤ 4096 }
    ensures { out.new.items ≡ out.old.items ++ head_of number gl usage words }
{
    lay_u16(out, 0xCA4D);
    lay_u16(out, gl.get() as u16);
    lay_u32(out, number);
    lay_usage(out, usage);
    lay_u16(out, words as u16);
}

fn lay_usage(out: &mut PieceBytes, usage: Option<Usage>)
    requires { array_vec_len out.old + 6 ≤ PIECE }
    ensures items { out.new.items ≡ out.old.items ++ usage_fields usage }
    ensures len { array_vec_len out.new ≤ array_vec_len out.old + 6 }
{
    if let Some(usage) = usage {
        lay_u32(out, usage.cycles);
        lay_u16(out, usage.missed);
    }
}

fn lay_u16(out: &mut PieceBytes, n: u16)
    requires { array_vec_len out.old + 2 ≤ PIECE }
    ensures items { out.new.items ≡ out.old.items ++ big_bytes 2 n }
    ensures len { array_vec_len out.new ≡ array_vec_len out.old + 2 }
{
    let mut field = [0; 2];
    BigEndian::write_u16(&mut field, n);
    out.try_extend_from_slice(&field).unwrap();
}

fn lay_u32(out: &mut PieceBytes, n: u32)
    requires { array_vec_len out.old + 4 ≤ PIECE }
    ensures items { out.new.items ≡ out.old.items ++ big_bytes 4 n }
    ensures len { array_vec_len out.new ≡ array_vec_len out.old + 4 }
{
    let mut field = [0; 4];
    BigEndian::write_u32(&mut field, n);
    out.try_extend_from_slice(&field).unwrap();
}
