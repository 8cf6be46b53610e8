// Why a script can't be linked to a plan.

use camac_lang::Spot;
use thiserror::Error;

/// A rule of linking (own).
#[derive(Clone, Copy, Debug, PartialEq, Eq)]
pub enum LinkRule {
    /// L1: a LAM stands at no installed station.
    LamNotInstalled,
    /// L2: a service's station has no bit of the graded-L pattern.
    StationWithoutBit,
    /// L3: an earlier service is on the same station.
    StationServedTwice,
    /// L4: the event words of a service's heading are more than the plan's buffer.
    EventAboveBuffer,
}

/// What a rule of linking knew where it was broken.
#[derive(Clone, Copy, Debug, PartialEq, Eq)]
pub enum LinkCase {
    /// L1, L2: the crate and the station of the LAM, as the script has them.
    Place {
        crate_no: u32,
        station: u32,
    },
    /// L3: the crate and the station, and where the first service there stands.
    Served {
        crate_no: u32,
        station: u32,
        spot: Spot,
    },
    /// L4: the event words that the heading allows, and those that the plan's buffer holds.
    Words {
        allowed: u32,
        buffer: u16,
    },
    /// The script has no LAM of the service's number. No script that was read is so.
    Malformed,
}

/// The first rule that is broken, where the declaration begins, with its case; or L5, out of memory.
#[derive(Clone, Copy, Debug, PartialEq, Eq, Error)]
pub enum LinkFault {
    #[error("memory")]
    OutOfMemory,
    #[error("line {}: {rule:?}", spot.line)]
    Broken {
        rule: LinkRule,
        spot: Spot,
        case: LinkCase,
    },
}
