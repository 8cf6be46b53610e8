//! Why a plan refuses an entry.

use thiserror::Error;

/// Why an entry of a plan is refused: the first that holds, in this order.
#[derive(Clone, Copy, Debug, PartialEq, Eq, Error)]
pub enum BuildFault {
    /// B3: there are 64 types, the waits are above 15, the station is not 1 to 23, or the crate or the type is not in the plan.
    #[error("a number is out of its range, or names nothing in the plan")]
    OutOfRange,
    /// B1: a type has the name already.
    #[error("a type has the name already")]
    TypeTwice,
    /// B2: the crate is in the plan already.
    #[error("the crate is in the plan already")]
    CrateTwice,
    /// B4: the station is installed already.
    #[error("the station is installed already")]
    StationTwice,
    /// B5: a station has the GL bit already.
    #[error("a station has the GL bit already")]
    BitTwice,
    /// B6: memory ran out.
    #[error("out of memory")]
    OutOfMemory,
}
