//! The rules of loops: what the body writes and sets, what is known at the head, and the turns. All rules are own.
// A crate of its own, so that it is proved beside the rules of simple statements.
#![tactic(auto)]

mod each;
mod for_loop;
mod forgotten;
mod judged;
mod keeps;
mod while_loop;
mod written;

pub use each::{EachHead, each_begins};
pub use for_loop::{Limits, LoopFacts, for_limits};
pub use judged::count_block;
pub use keeps::keeps_after;
pub use while_loop::{turn_bound, while_head};
