//! What the bounds of a script consist of: for each statement of a service or procedure how often it can be made, what one time can cost,
//! and its share of the bound; and what is known where it begins. All is own.
#![tactic(auto)]

mod bodies;
mod known;
pub mod laws;
mod place;
mod texts;
mod told;
mod turns;

pub use bodies::{BodyCosts, Owner, costs_of, procedure_costs, service_costs};
pub use camac_check_rows::{Detail, Kind, Row};
pub use known::known_lines;
pub use place::{Standing, find_place};
pub use texts::write_costs;
pub use turns::last_turn;
