//! The transfers, named after ESONE's CFUBC, CFUBR and CFMAD; their rules are own. The commands of crate calls and LAM calls.
// Each transfer in progress holds the numbers that are left, so what is left is a smaller transfer, and its steps need no second definition. The
// table of the calls' commands stands here alone, by the names that the tree of camac_lang has for them; the meaning takes it from here.
#![tactic(auto)]

mod address;
mod address_scan;
mod calls;
pub mod laws;
mod q_repeat;
mod q_stop;

pub use address::Address;
pub use address_scan::Scan;
pub use calls::{crate_call, lam_call, lam_function};
pub use q_repeat::QRepeat;
pub use q_stop::QStop;
