//! Words of scripts and of other languages, in words of English: what the language does not have, the forms of what it has, its limits.
#![tactic(auto)]

mod absent;
mod forms;
mod limit;
mod parts;
mod spelled;

pub use absent::{Absent, absent_sign, absent_word, is_same_word};
pub use forms::{ASSIGNMENT, form_of};
pub use limit::limit_told;
pub use parts::{behind, character, first_byte, prefix};
pub use spelled::{is_hexadecimal, sign_text, word_text};
