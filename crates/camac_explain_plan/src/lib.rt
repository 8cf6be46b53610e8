//! Why a plan is refused: the place, and what its rule knew.
#![tactic(auto)]

mod path;
mod place;
mod sentence;
mod table;
mod texts;
mod told;
mod unknown;

pub use sentence::plan_sentence;
pub use told::plan_hint;
