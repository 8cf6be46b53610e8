// Events, and the list of them that a file holds.

ghost use Rattle.std.specs.Prelude.{◌≡◌, ◌<◌, ◌≤◌, ◌-◌, ◌^◌, ◌∷◌, [], ◌++◌, length, slice_get, option_map, option_copied, OnOk, OnErr, IfOk, IfSome};
ghost use Rattle.std.specs.List.{AllByRecursion};

use camac_word::{GlBit, Word24};
use std::alloc::{AllocError, Global};
use std::marker::Model;

/// How a file is written (own): version Two tells the usage of each event.
#[derive(Clone, Copy, Debug, PartialEq, Eq)]
pub enum Version {
    One,
    Two,
}

/// What a service used: the dataway cycles that it cost, and how many of its cycles had the reply X=0, staying at 65,535.
#[derive(Clone, Copy, Debug, PartialEq, Eq)]
pub struct Usage {
    pub cycles: u32,
    pub missed: u16,
}

/// What a service left that ended: its bit of the graded-L pattern, its usage and its words.
#[derive(Debug, Drop)]
pub struct Event {
    pub gl: GlBit,
    pub usage: Option<Usage>,
    pub words: Vec<Word24>,
}

/// The events of a file, in their order, and the version in which they are written.
#[derive(Drop)]
pub struct Events {
    pub(crate) alloc: Global,
    pub(crate) version: Version,
    pub(crate) items: Vec<Event>,
}

impl Model for Events {
    ghost use Rattle.camac_event.specs.Spelling.{Listing, entries_of, AreEvents};

    ghost Value = { Listing };

    ghost view = { λ e. record { version = e.version; events = entries_of e.items.items } };

    ghost invariant = { λ e. AreEvents e.version (entries_of e.items.items) };
}

impl Events {
    ghost use Rattle.camac_event.specs.Spelling.{HasUsage, IsEvent, entry_of};

    /// No events. It takes no memory.
    pub fn new(alloc: Global, version: Version) -> Self
        ensures { result ≡ record { version = version; events = [] } }
    {
        Events {
            alloc,
            version,
            items: Vec::new(alloc),
        }
    }

    /// The version in which `encode` writes them.
    pub fn version(&self) -> Version
        ensures { result ≡ self.now.version }
    {
        self.version
    }

    /// The number of events.
    pub fn len(&self) -> usize
        ensures { result ≡ length self.now.events }
    {
        self.items.len()
    }

    /// The event at this place, counted from 0.
    pub fn get(&self, index: usize) -> Option<&Event>
        ensures event { option_map entry_of (option_copied result) ≡ slice_get self.now.events index }
        ensures fits { IfSome result (λ e. IsEvent self.now.version (entry_of e.now)) }
    {
        self.items.get(index)
    }

    /// Adds an event of at most 4,096 words at the end, with a usage exactly in version Two. An `Err`, where memory ran out, leaves the
    /// events as they were.
    pub fn append(
        &mut self,
        gl: GlBit,
        usage: Option<Usage>,
        words: &[Word24],
    ) -> Result<(), AllocError>
        requires words { length words.now ≤ 4096 }
        requires room { length self.old.events < 2 ^ 32 - 1 }
        requires usage { HasUsage self.old.version usage }
        ensures ok { OnOk result (self.new ≡ record {
          version = self.old.version;
          events = self.old.events ++ record { gl = gl; usage = usage; words = words.now } ∷ [];
        }) }
        ensures err { OnErr result (self.new ≡ self.old) }
    {
        let words = copy_of(self.alloc, words)?;
        // opens the bit's range for the invariant
        let _ = gl.get();
        self.items.push(Event { gl, usage, words })?;
        Ok(())
    }
}

fn copy_of(alloc: Global, words: &[Word24]) -> Result<Vec<Word24>, AllocError>
    ensures items { IfOk result (λ v. v.items ≡ words.now) }
    ensures fits { OnOk result (AllByRecursion (λ w. w < 2 ^ 24) words.now) }
{
    let mut copy = Vec::with_capacity(alloc, words.len())?;
    for word in words {
        // opens the word's range for the clause `fits`
        prove!(word.get() < 1 << 24);
        copy.push(*word)?;
    }
    Ok(copy)
}
