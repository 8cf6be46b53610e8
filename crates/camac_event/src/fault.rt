// Why an event file can't be read.

ghost use Rattle.std.specs.Prelude.{◌≡◌};
ghost use Rattle.camac_event.specs.declared.fault.EventFault.TheVariants.{OutOfMemory, Broken};

use std::alloc::{AllocError, AllocFailed};
use thiserror::Error;

/// A rule of the event file (own), in the words of what breaks it.
#[derive(Clone, Copy, Debug, PartialEq, Eq)]
pub enum EventRule {
    /// V1: the first 8 bytes are the header of neither version.
    WrongHeader,
    /// V2: a record does not begin with its marker.
    WrongMarker,
    /// V3: a GL number is not 1 to 24.
    GlOutOfRange,
    /// V4: an event number is not the next one.
    NumberOutOfOrder,
    /// V5: a record counts more than 4,096 words.
    CountAboveLimit,
    /// V6: a word has more than 24 bits.
    WordTooWide,
    /// V7: the bytes end inside a field.
    Truncated,
    /// V9: more dataway cycles were missed than made.
    MissedAboveCycles,
}

/// The first rule that is broken, and the offset in bytes of its field's first byte.
#[derive(Clone, Copy, Debug, PartialEq, Eq)]
pub struct EventFlaw {
    pub rule: EventRule,
    pub offset: usize,
}

/// The first rule that is broken, with the offset in bytes of its field's first byte; or V8, out of memory.
#[derive(Clone, Copy, Debug, PartialEq, Eq, Error)]
pub enum EventFault {
    #[error("memory")]
    OutOfMemory,
    #[error("byte {offset}: {rule:?}")]
    Broken { rule: EventRule, offset: usize },
}

impl From<EventFlaw> for EventFault {
    ghost from_gives = { λ flaw fault. fault ≡ Broken flaw.rule flaw.offset };

    fn from(flaw: EventFlaw) -> EventFault {
        EventFault::Broken {
            rule: flaw.rule,
            offset: flaw.offset,
        }
    }
}

impl From<AllocError> for EventFault {
    ghost from_gives = { λ _ fault. fault ≡ OutOfMemory };

    fn from(_error: AllocError) -> EventFault {
        EventFault::OutOfMemory
    }
}

impl<T: Drop> From<AllocFailed<T>> for EventFault {
    ghost from_gives = { λ _ fault. fault ≡ OutOfMemory };

    fn from(_error: AllocFailed<T>) -> EventFault {
        EventFault::OutOfMemory
    }
}
