//! The rules of simple statements, which hold no others: what each may do, what is known after it, and what it can cost. All rules are own.
// A crate of its own, so that it is proved beside the rules of loops, and the walk over all statements without it.
#![tactic(auto)]

mod calls;
mod context;
mod cycle;
mod plain;
mod statement;
mod table;
mod transfer;
mod window;

pub use calls::{crate_call, lam_call, lam_region, lock_crate};
pub use context::{Context, Place};
pub use cycle::single;
pub use plain::{assign, put, set_register};
pub use statement::Findings;
pub use transfer::{q_repeat, q_stop, scan};
