//! Why the text of a script is refused: what might stand at the place of its fault, and what may be meant.
// A crate of its own beside the explanations of rules, so that both are proved at once, and a change of one leaves the other.
#![tactic(auto)]

mod byte;
mod hint;
mod marked;
mod mistake;
mod own;
mod sentence;
mod texts;

pub use sentence::{TextTold, text_told};
