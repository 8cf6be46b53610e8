// The end of a run, what an answer was used for, and what the next one is wanted for.

ghost use Rattle.std.specs.Prelude.{◌≡◌, []};

use arrayvec::ArrayVec;
use camac_branch::{Command, Overrun};
use camac_event::Usage;
use camac_machine::Item;
use camac_word::{CrateNo, GlBit, Word24};

/// How a run ended (own).
#[derive(Clone, Copy, Debug, PartialEq, Eq)]
pub enum End {
    /// The answers were used up at a graded-L operation.
    Ended,
    /// They were used up inside a service, which leaves no event.
    Short,
    /// An answer's wait was not permitted.
    Overrun(Overrun),
}

/// What an answer was used for (own).
#[derive(Debug, PartialEq, Eq, Drop)]
pub enum Progress {
    /// It was used for this item. After it the lockout of these crates was released. Where a service ended then, its event has this number
    /// from 1, this bit of the graded-L pattern and this usage.
    Went {
        item: Item,
        unlocks: ArrayVec<CrateNo, 7>,
        event: Option<(u32, GlBit, Usage)>,
    },
    /// Its wait is not permitted, or an earlier one was not. The run stays where it was.
    Overrun(Overrun),
}

/// What an answer was used for, as `Progress::Went` has it (own). A caller keeps one for all answers of a run.
#[derive(Debug, PartialEq, Eq, Drop)]
pub struct Used {
    pub item: Item,
    pub unlocks: ArrayVec<CrateNo, 7>,
    pub event: Option<(u32, GlBit, Usage)>,
}

impl Used {
    /// Before the first answer. It takes no memory.
    pub fn new() -> Used {
        Used {
            item: Item::Demand(Word24::default(), None),
            unlocks: ArrayVec::new(),
            event: None,
        }
    }

    // Tells the crates whose lockout was released, and leaves none of them. Most answers release none after one that released none, and to
    // write that anew, and that no event was left, would cost a run some 3%.
    #[inline(always)]
    pub(crate) fn tell_unlocks(&mut self, unlocks: &mut ArrayVec<CrateNo, 7>)
        ensures told { self.new.unlocks.items ≡ unlocks.old.items }
        ensures taken { unlocks.new.items ≡ [] }
        ensures same { self.new ≡ record self.old { unlocks = self.new.unlocks } }
    {
        if !unlocks.is_empty() || !self.unlocks.is_empty() {
            self.unlocks = unlocks.take();
        }
    }

    // Tells the event that was left. Most answers leave none after one that left none, as with the crates.
    #[inline(always)]
    pub(crate) fn tell_event(&mut self, event: Option<(u32, GlBit, Usage)>)
        ensures { self.new ≡ record self.old { event = event } }
    {
        if event.is_some() || self.event.is_some() {
            self.event = event;
        }
    }
}

/// The operation that a run wants its next answer for (own).
#[derive(Clone, Copy, Debug, PartialEq, Eq)]
pub enum Wanted {
    /// A graded-L operation (IEEE 596).
    Demand,
    /// A dataway cycle with this command (EUR 4100, IEEE 583).
    Cycle(Command),
    /// The lockout of auxiliary controllers in a crate (own, after IEEE 675).
    Lock(CrateNo),
}

impl Default for Wanted {
    fn default() -> Wanted {
        Wanted::Demand
    }
}
