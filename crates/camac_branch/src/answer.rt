//! A command, what comes to it from the branch, and the cycle that both make.

ghost use Rattle.std.specs.Prelude.{◌≡◌, ◌≤◌, ◌↔◌, IsSome, IfSome};

use camac_func::DataMove;
use camac_word::{CrateNo, Function, Station, SubAddress, Word24};
use std::marker::Model;

/// A command of the branch, and the word that its cycle moves (EUR 4600).
#[derive(Clone, Copy, Debug, PartialEq, Eq)]
pub struct Command {
    /// The crate.
    pub c: CrateNo,
    /// The station in it.
    pub n: Station,
    /// The sub-address at the station.
    pub a: SubAddress,
    /// The function code.
    pub f: Function,
    /// What is moved.
    pub mv: DataMove,
}

/// What the branch would answer next (own): the reply of a module to a cycle, the auxiliary cycles before it (IEEE 675), and the
/// pattern of a graded-L operation (IEEE 596). Who asks looks at what he needs.
#[derive(Clone, Copy, Debug, PartialEq, Eq)]
pub struct Answer {
    /// Whether the command was accepted (EUR 4100, IEEE 583).
    pub x: bool,
    /// The response Q (EUR 4100, IEEE 583).
    pub q: bool,
    /// The word on the read lines.
    pub word: Word24,
    /// How many auxiliary cycles come first, 0 to 15.
    pub wait: u8,
    /// The graded-L pattern: bit k has the value 2^(k-1).
    pub gl: Word24,
}

impl Model for Answer {
    ghost use Rattle.std.specs.Prelude.{◌≤◌};
    ghost use Rattle.camac_branch.specs.Branch.{Answer as BranchAnswer};

    ghost Value = { BranchAnswer };

    ghost view = { λ a. record { x = a.x; q = a.q; word = a.word; wait = a.wait; gl = a.gl } };

    ghost invariant = { λ a. a.wait ≤ 15 };

    ghost inverse = { λ a. record { x = a.x; q = a.q; word = a.word; wait = a.wait; gl = a.gl } };
}

impl Answer {
    /// The answer, unless its wait is above 15.
    pub fn new(x: bool, q: bool, word: Word24, wait: u8, gl: Word24) -> Option<Answer>
        ensures in_range { IsSome result ↔ (wait ≤ 15) }
        ensures kept { IfSome result (λ a. a ≡ record { x = x; q = q; word = word; wait = wait; gl = gl }) }
    {
        if wait > 15 {
            return None;
        }
        Some(Answer {
            x,
            q,
            word,
            wait,
            gl,
        })
    }
}

/// What a module or a crate controller replies to a cycle (EUR 4100, IEEE 583).
#[derive(Clone, Copy, Debug, PartialEq, Eq)]
pub struct Reply {
    /// Whether the command was accepted.
    pub x: bool,
    /// The response Q.
    pub q: bool,
    /// The word on the read lines.
    pub word: Word24,
}

impl Model for Reply {
    ghost use Rattle.camac_branch.specs.Branch.{Reply as BranchReply};

    ghost Value = { BranchReply };

    ghost view = { λ r. record { x = r.x; q = r.q; word = r.word } };

    ghost inverse = { λ r. record { x = r.x; q = r.q; word = r.word } };
}

/// A cycle that was made.
#[derive(Clone, Copy, Debug, PartialEq, Eq)]
pub struct CycleDone {
    /// What was asked for.
    pub command: Command,
    /// What was replied.
    pub reply: Reply,
    /// How many auxiliary cycles came first, 0 to 15.
    pub wait: u8,
}

/// A wait that is not permitted (own): the cycle or the lock did not happen.
#[derive(Clone, Copy, Debug, PartialEq, Eq)]
pub struct Overrun {
    /// The crate.
    pub c: CrateNo,
    /// How many auxiliary cycles would have come first.
    pub wait: u8,
}
