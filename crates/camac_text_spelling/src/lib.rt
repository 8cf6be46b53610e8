//! Which tokens spell which tree of a script, by the cases of the grammar.
// A crate of its own, on which none stands: its proof is the longest of the parser's.
#![tactic(auto)]

mod laws;

pub use laws::{
    example_is_spelled, fault_spells_nothing, read_is_spelled, refused_is_not_spelled,
    spelled_is_read, spelled_once, spelled_tokens_are_read,
};
