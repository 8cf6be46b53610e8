// The lines of an event file.

ghost use Rattle.std.specs.Prelude.{◌≡◌, ◌≤◌, ◌<◌, ◌+◌, ◌||◌, ◌++◌, length, is_err, codes, decimal, OnOk, Some};
ghost use Rattle.std.specs.List.{flat_map};
ghost use Rattle.camac_event.specs.Found.{entry_in};
ghost use Rattle.camac_lines.specs.Events.{usage_text, start_text, word_text, event_line, last_line, events_text};
ghost use Rattle.camac_lines.specs.Texts.{Puts};
ghost use Rattle.camac_word.specs.Writing.{Writes};

use crate::line::{LONGEST_LINE, Line};
use camac_event::{EventFile, EventRecord, EventWords, TextWriter, Usage};
use camac_word::{GlBit, WriteFault};

/// Writes the events of a file: of each a line of its number from 1, its GL bit, its usage in version Two, and its words; then a line of how
/// many there are. After a write fault a prefix of this was written. It takes no memory.
pub fn write_event_file<W: TextWriter>(out: &mut W, file: &EventFile<'_>) -> Result<(), WriteFault>
    ensures text { Writes (W.contents out.old) (W.contents out.new) result (events_text file.now.events) }
    ensures failed { W.failed out.new ≡ (W.failed out.old || is_err result) }
{
    let mut line = Line::new();
    let mut records = file.records();
    'records: while let Some(record) = records.next() {
        put_record(out, &mut line, &record)?;
    }
    push_last(&mut line, records.read());
    out.put_text(line.as_bytes())
}

// Puts the line of an event after what is laid out and not written yet.
fn put_record<W: TextWriter>(
    out: &mut W,
    line: &mut Line,
    record: &EventRecord<'_>,
) -> Result<(), WriteFault>
    requires { length line.old ≤ FULL }
    ensures text { Puts (W.contents out.old) (W.contents out.new) result (line.old ++ event_line record.now.number (entry_in record.now)) line.new }
    ensures room { OnOk result (length line.new ≤ FULL) }
    ensures failed { W.failed out.new ≡ (W.failed out.old || is_err result) }
{
    push_start(
        line,
        record.number,
        record.gl,
        record.usage,
        record.words.len(),
    );
    put_file_words(out, line, &record.words)?;
    make_room(out, line)
}

// Writes what is laid out where the line of another event may not fit after it.
fn make_room<W: TextWriter>(out: &mut W, line: &mut Line) -> Result<(), WriteFault>
    ensures text { Puts (W.contents out.old) (W.contents out.new) result line.old line.new }
    ensures room { OnOk result (length line.new ≤ FULL) }
    ensures failed { W.failed out.new ≡ (W.failed out.old || is_err result) }
{
    if line.len() <= FULL {
        return Ok(());
    }
    out.put_text(line.as_bytes())?;
    line.clear();
    Ok(())
}

/// Puts the line up to the words, of which `words` is the number.
fn push_start(line: &mut Line, number: usize, gl: GlBit, usage: Option<Usage>, words: usize)
    requires { length line.old ≤ FULL }
    ensures text { line.new ≡ line.old ++ start_text number gl usage words }
    ensures short { length line.new ≤ length line.old + 100 }
{
    line.push_str("event ");
    line.push_count(number);
    line.push_str(" gl ");
    line.push_small(gl.get() as u8);
    if let Some(usage) = usage {
        push_usage(line, usage);
    }
    line.push_str(" words ");
    push_words_count(line, words);
}

// How many words an event has. Most have few, which is quick.
#[inline(always)]
fn push_words_count(line: &mut Line, words: usize)
    requires { length line.old + 20 ≤ LONGEST_LINE }
    ensures text { line.new ≡ line.old ++ decimal words }
    ensures short { length line.new ≤ length line.old + 20 }
{
    if words < 100 {
        line.push_small(words as u8);
    } else {
        line.push_count(words);
    }
}

fn push_usage(line: &mut Line, usage: Usage)
    requires { length line.old ≤ 200 }
    ensures bytes { line.new ≡ line.old ++ usage_text (Some usage) }
    ensures len { length line.new ≤ length line.old + 31 }
{
    line.push_str(" cycles ");
    line.push_number(usage.cycles);
    line.push_str(" missed ");
    line.push_number(usage.missed);
}

// Puts the words of a file and an LF after what is laid out. Where there is no more room, that is written.
fn put_file_words<W: TextWriter>(
    out: &mut W,
    line: &mut Line,
    words: &EventWords<'_>,
) -> Result<(), WriteFault>
    requires { length line.old < LAST_WORD }
    ensures text { Puts (W.contents out.old) (W.contents out.new) result (line.old ++ flat_map word_text words.now ++ codes "\n") line.new }
    ensures failed { W.failed out.new ≡ (W.failed out.old || is_err result) }
{
    let mut first = 0;
    let mut room = (LONGEST_LINE - 1 - line.len()) / 7;
    'pieces: while words.len() - first > room {
        line.push_many_words(words, first, first + room);
        out.put_text(line.as_bytes())?;
        line.clear();
        first += room;
        room = MOST_WORDS;
    }
    line.push_words(words, first, words.len());
    line.push_str("\n");
    Ok(())
}

/// How many words a line has room for beside an LF.
const MOST_WORDS: usize = (LONGEST_LINE - 1) / 7;

/// Where a line has no more room for a word and an LF.
const LAST_WORD: usize = LONGEST_LINE - 7;

/// The greatest length after which a line has room for the numbers of another event.
const FULL: usize = LONGEST_LINE - 116;

fn push_last(line: &mut Line, events: usize)
    requires { length line.old ≤ FULL }
    ensures { line.new ≡ line.old ++ last_line events }
{
    line.push_str("events ");
    line.push_count(events);
    line.push_str("\n");
}
