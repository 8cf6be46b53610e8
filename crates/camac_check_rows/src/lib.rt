//! What each statement has of the bound of its body, as a row, and where the checker's walk puts these: in a list, or nowhere. All is own.
// Below the walk, so that one walk judges a script and finds its rows.
#![tactic(auto)]

mod found;
mod inside;
mod row;
mod rows;
mod statement;
mod turns;
mod unreached;

pub use inside::{Weight, first_arm, once, second_arm, turning};
pub use row::{Detail, Kind, Row};
pub use rows::Rows;
pub use statement::{detail_of, else_row, if_row, lock_row, loop_row, times_at};
