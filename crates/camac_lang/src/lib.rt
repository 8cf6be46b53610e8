//! A readout script's tree. Each use of a variable, register, table, LAM or procedure is its number; names stand where they are declared.
#![tactic(auto)]

mod copy;
mod depth;
mod expression;
mod headings;
mod laws;
pub mod limits;
mod name;
mod room;
mod script;
mod spot;
mod tree;
mod word;

pub use depth::Callable;
pub use expression::{Expr, Form, Node, Term};
pub use laws::{limits_hold, procedures_stand, registers_grow, services_stand};
pub use name::Name;
pub use room::fits;
pub use script::{Item, Lam, Parameter, Procedure, Script, Service, Table};
pub use spot::Spot;
pub use tree::{
    Action, AddressScan, Assignment, BlockTransfer, Cond, CrateAction, Divisor, ForHead, Keep,
    LamAction, Move, Part, ProcedureCall, PutAction, RegisterSetting, SingleAction, Stmt, Test,
    WhileHead,
};
pub use word::{CrateCall, LamCall, WordSize};
