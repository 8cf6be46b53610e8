//! The engines that tell of a plan, a script or an event file, and run nothing: `plan`, `check`, `explain`, `bounds`, `costs`,
//! `tell`, `response` and `events`.
// A crate of its own beside the runner, whose proof is the longest, so that both are proved at once.
#![tactic(auto)]

mod ask;
mod costs;
mod engine;
mod explaining;
mod fault;
mod headings;
mod judging;
mod known;
pub mod laws;
mod outcome;
mod plan;
mod reading;
mod refusals;
mod response;
mod rule;
mod sample;
mod standing;
mod telling;
mod texts;

pub use ask::{Ask, PlanAsk, Turns};
pub use engine::{
    answer, answer_plan, engine_bounds, engine_check, engine_events, engine_plan, refuse,
};
pub use fault::ToolFault;
pub use judging::{Judged, read_judged};
pub use outcome::{Outcome, status};
pub use plan::PlanSource;
pub use response::{Responded, engine_response};
pub use rule::engine_explain_rule;
pub use sample::sample_plan;
