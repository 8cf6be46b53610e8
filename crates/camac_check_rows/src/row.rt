// What a statement has of the bound of its body.

use camac_check_known::{Costs, Region};
use camac_lang::Spot;
use camac_range::Range;

/// The word by which a statement is known, and that of the second arm of a choice.
#[derive(Clone, Copy, Debug, PartialEq, Eq)]
pub enum Kind {
    /// `=`
    Assign,
    Cdreg,
    Put,
    Cfsa,
    Cssa,
    Cfmad,
    Cfubc,
    Cfubr,
    Cccz,
    Cccc,
    Ccci,
    Ctci,
    Cccd,
    Ctcd,
    Ctgl,
    Cclm,
    Cclc,
    Ctlm,
    If,
    Else,
    For,
    While,
    Lock,
    Call,
}

/// What else there is to tell of a statement.
#[derive(Clone, Copy)]
pub enum Detail {
    Nothing,
    /// The addresses that its register can hold, or that of its LAM.
    At(Region),
    /// Those between the addresses of its two registers.
    Between(Region, Region),
    /// The most turns of a loop.
    Turns(u64),
    /// The crate that is locked, or those whose controller may be called.
    Crates(Range),
    /// The procedure that is called, by its number.
    Procedure(usize),
}

/// A statement of a body, or the `else` of one, with its part of the bound. Numbers stay at the greatest of 64 bits; those of an accepted
/// script are below it (own).
#[derive(Clone, Copy)]
pub struct Row {
    /// Where the statement's first token stands.
    pub spot: Spot,
    /// 1 in the body itself, 1 more in each block.
    pub depth: u64,
    pub kind: Kind,
    /// The most times that one service or call makes it; 0 where it can't be reached.
    pub times: u64,
    /// What one time can cost, with what stands in its blocks.
    pub each: Costs,
    /// Its part of the body's bound, without what stands in its blocks.
    pub share: Costs,
    pub detail: Detail,
}
