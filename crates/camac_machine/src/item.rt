// The items of a run.

use camac_branch::CycleDone;
use camac_word::{CrateNo, Word24};

/// One line of a listing.
#[derive(Clone, Copy, Debug, PartialEq, Eq)]
pub enum Item {
    /// A dataway cycle (EUR 4100, IEEE 583).
    Cycle(CycleDone),
    /// The lockout of auxiliary controllers was taken in a crate, after this many of their cycles (own, after IEEE 675).
    Lock(CrateNo, u8),
    /// The lockout of a crate was released.
    Unlock(CrateNo),
    /// A graded-L operation (IEEE 596): its pattern, and the number of the service that it called.
    Demand(Word24, Option<usize>),
}
