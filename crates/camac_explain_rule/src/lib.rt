//! What is said of each rule, whatever the case: its code and meaning, why it is there, each way to fix it, and an example.
#![tactic(auto)]

mod advice;
mod example;
mod pages;
mod rule;

pub use advice::{Advice, check_advice, rule_advice};
pub use pages::MORE;
pub use rule::{Rule, explain_rule, push_line};
