// Decoding an event file into a list of its events.

ghost use Rattle.std.specs.Prelude.{◌≡◌, Ok, IfOk, List};
ghost use Rattle.camac_event.specs.Spelling.{Entry, parts_of, entries_of, spelling, AreEvents};
ghost use Rattle.camac_event.specs.declared.event.Version.{Version};
ghost use Rattle.camac_event.specs.Reading.{file_at, GivesAll};

use crate::event::{Event, Events};
use crate::fault::EventFault;
use crate::file::{EventFile, EventWords};
use camac_word::Word24;
use std::alloc::{AllocError, Global};

/// The events that the bytes of a file spell. The first field that is wrong is answered with the offset of its first byte: V1 of the
/// header; of each record V2 marker, V3 GL number, V4 event number, V9 missed in version Two, V5 count, V6 of each word; V7 where the
/// bytes end inside the field. V8 is out of memory.
pub fn decode(alloc: Global, bytes: &[u8]) -> Result<Events, EventFault>
    // What is read is spelled so.
    ensures found { IfOk result (λ e. AreEvents e.version e.events × (bytes.now ≡ spelling e.version e.events)) }
    // What is spelled so is read, unless memory runs out.
    ensures only { (version : Version) (events : List Entry) → AreEvents version events → bytes.now ≡ spelling version events
        → GivesAll parts_of result (Ok (version, events)) }
    // Which fault it is.
    ensures exact { GivesAll parts_of result (file_at bytes.now) }
{
    let file = EventFile::new(bytes)?;
    let items = events_of(alloc, &file)?;
    Ok(Events {
        alloc,
        version: file.version(),
        items,
    })
}

fn events_of(alloc: Global, file: &EventFile<'_>) -> Result<Vec<Event>, AllocError>
    ensures { IfOk result (λ v. entries_of v.items ≡ file.now.events) }
{
    let mut events = Vec::new(alloc);
    let mut records = file.records();
    while let Some(record) = records.next() {
        let words = words_of(alloc, &record.words)?;
        events.push(Event {
            gl: record.gl,
            usage: record.usage,
            words,
        })?;
    }
    Ok(events)
}

fn words_of(alloc: Global, words: &EventWords<'_>) -> Result<Vec<Word24>, AllocError>
    ensures { IfOk result (λ v. v.items ≡ words.now) }
{
    let mut copy = Vec::with_capacity(alloc, words.len())?;
    for i in 0..words.len() {
        copy.push(words.get(i).unwrap())?;
    }
    Ok(copy)
}
