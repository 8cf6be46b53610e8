// What a list of operations holds.

use crate::progress::Wanted;
use crate::transfer::ReadBlock;
use camac_lang::WordSize;
use camac_word::CrateNo;

/// A member of a list (own).
#[derive(Clone, Copy)]
pub enum Member {
    /// An operation, which has an answer, and how many bits its statement moves.
    Makes(Wanted, WordSize),
    /// What is left of a transfer that reads, as many cycles as their Q want: each has an answer.
    Block(ReadBlock),
    /// The release of a crate's lockout, which has none.
    Release(CrateNo),
}

impl Default for Member {
    fn default() -> Member {
        Member::Makes(Wanted::Demand, WordSize::Full)
    }
}
