//! Linking: each LAM of a script stands at an installed station, and each service on a graded-L bit of its own.
#![tactic(auto)]

mod fault;
pub mod laws;
mod link;
mod linked;

pub use fault::{LinkCase, LinkFault, LinkRule};
pub use link::{link_faults, resolve};
pub use linked::Linked;
