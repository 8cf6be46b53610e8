//! Numbers of a CAMAC dataway, each in its range; readers and writers whose failures are remembered; writing whole texts.
#![tactic(auto)]

mod number;
mod watched;
mod writing;

pub use number::{CrateNo, Function, GlBit, Station, SubAddress, Word24};
pub use watched::Watched;
pub use writing::WriteFault;
