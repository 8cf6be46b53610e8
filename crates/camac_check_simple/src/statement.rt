// What is found of a statement.

use camac_check_known::{Costs, Facts};

/// What is known after a statement, none where it can't be reached, and what it can cost.
#[derive(Drop)]
pub struct Findings {
    pub known: Option<Facts>,
    pub costs: Costs,
}
