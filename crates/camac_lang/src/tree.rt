// Conditions and statements: a variant for each form of the grammar. A form that holds no block is a struct, and so is the head of a loop.
// A variable, register, table, LAM or procedure is its number: see `script.rt`.

ghost use Rattle.std.specs.Prelude.{◌≡◌, ◌≤◌, ◌↔◌, IfSome, IsSome};
ghost use Rattle.camac_lang.specs.Tree.{spot_of};
ghost use Rattle.camac_lang.specs.View.{action_of, statement_of};

use crate::expression::Expr;
use crate::spot::Spot;
use crate::word::{CrateCall, LamCall, WordSize};
use camac_range::Cmp;
use camac_word::Function;
use std::marker::Model;

/// A literal divisor: 1 to 4,294,967,295 (own).
#[derive(Clone, Copy, Debug, PartialEq, Eq)]
pub struct Divisor {
    value: u32,
}

impl Model for Divisor {
    ghost use Rattle.std.specs.Prelude.{ℕ, ◌≤◌};

    ghost Value = { ℕ };

    ghost view = { λ a. a.value };

    ghost invariant = { λ a. 1 ≤ a.value };

    ghost inverse = { λ n. record { value = n } };
}

impl Divisor {
    /// The divisor, None exactly where it is 0.
    pub fn new(value: u32) -> Option<Self>
        ensures kept { IfSome result (λ r. r ≡ value) }
        ensures in_range { IsSome result ↔ (1 ≤ value) }
    {
        if value == 0 {
            None
        } else {
            Some(Divisor { value })
        }
    }

    /// The number.
    pub fn get(self) -> u32
        ensures value { result ≡ self }
        ensures in_range { 1 ≤ result }
    {
        self.value
    }
}

/// What one part of a condition tests.
#[derive(Drop)]
pub enum Test {
    /// `q`: the reply's Q of the last cycle.
    Q,
    /// `x`: the reply's X of the last cycle.
    X,
    /// Two numbers compared.
    Compare(Expr, Cmp, Expr),
}

/// One part of a condition.
#[derive(Drop)]
pub enum Part {
    /// True where the test holds.
    Plain(Test),
    /// `not`: true where it does not hold.
    Not(Test),
}

/// A condition: its 1 to 16 parts, joined by `and`.
#[derive(Drop)]
pub struct Cond {
    pub parts: Vec<Part>,
}

/// What a single action moves.
#[derive(Drop)]
pub enum Move {
    /// No data.
    NoData,
    /// `->`: a read into a variable.
    Into(usize),
    /// `<-`: a write of a value.
    From(Expr),
}

/// A variable that a loop keeps in a range (own).
#[derive(Drop)]
pub struct Keep {
    pub variable: usize,
    pub low: u32,
    pub high: u32,
}

/// `v = e`
#[derive(Drop)]
pub struct Assignment {
    pub spot: Spot,
    pub variable: usize,
    pub value: Expr,
}

/// `cdreg`: a register's address (ESONE CDREG); branch 1 is left out.
#[derive(Drop)]
pub struct RegisterSetting {
    pub spot: Spot,
    pub register: usize,
    pub crate_no: Expr,
    pub station: Expr,
    pub sub_address: Expr,
}

/// `cfsa`, `cssa`: one cycle with 24 or 16 bits (ESONE CFSA, CSSA).
#[derive(Drop)]
pub struct SingleAction {
    pub spot: Spot,
    pub size: WordSize,
    pub function: Function,
    pub register: usize,
    pub data: Move,
}

/// `cfmad`: the address scan (ESONE CFMAD), of at most `max` words.
#[derive(Drop)]
pub struct AddressScan {
    pub spot: Spot,
    pub function: Function,
    pub first: usize,
    pub last: usize,
    pub max: Expr,
    pub tally: usize,
}

/// A block transfer of at most `max` words, which a write takes from a table.
#[derive(Drop)]
pub struct BlockTransfer {
    pub spot: Spot,
    pub function: Function,
    pub register: usize,
    pub table: Option<usize>,
    pub max: Expr,
    pub tally: usize,
}

/// `put`: a word of the event (own).
#[derive(Drop)]
pub struct PutAction {
    pub spot: Spot,
    pub value: Expr,
}

/// A call of a crate's controller (ESONE CCCZ and others).
#[derive(Drop)]
pub struct CrateAction {
    pub spot: Spot,
    pub call: CrateCall,
    pub crate_no: Expr,
}

/// A call at a LAM's address (ESONE CCLM and others).
#[derive(Drop)]
pub struct LamAction {
    pub spot: Spot,
    pub call: LamCall,
    pub lam: usize,
}

/// `call` of a procedure (own)
#[derive(Drop)]
pub struct ProcedureCall {
    pub spot: Spot,
    pub procedure: usize,
    pub arguments: Vec<Expr>,
}

/// What stands before the body of a `for`, from a number up to another.
#[derive(Drop)]
pub struct ForHead {
    pub spot: Spot,
    pub variable: usize,
    pub from: Expr,
    pub to: Expr,
    pub keeps: Vec<Keep>,
}

/// What stands before the body of a `while`, annotated with its most turns and a variable that measures them.
#[derive(Drop)]
pub struct WhileHead {
    pub spot: Spot,
    pub test: Cond,
    pub turns: u32,
    pub measure: usize,
    pub keeps: Vec<Keep>,
}

/// A statement that holds no others. What each does is the language's meaning (camac_model).
#[derive(Drop)]
pub enum Action {
    Assign(Assignment),
    SetRegister(RegisterSetting),
    Single(SingleAction),
    Scan(AddressScan),
    /// `cfubc`: cycles up to the first Q=0, at most `max` (ESONE CFUBC).
    QStop {
        transfer: BlockTransfer,
    },
    /// `cfubr`: cycles up to `max` words, at most `limit` (ESONE CFUBR).
    QRepeat {
        transfer: BlockTransfer,
        limit: Expr,
    },
    Put(PutAction),
    CrateCall(CrateAction),
    LamCall(LamAction),
    Call(ProcedureCall),
}

impl Action {
    /// Where its first token stands.
    pub fn spot(&self) -> Spot
        ensures { result ≡ spot_of (action_of self.now) }
    {
        match self {
            Action::Assign(assignment) => assignment.spot,
            Action::SetRegister(setting) => setting.spot,
            Action::Single(single) => single.spot,
            Action::Scan(scan) => scan.spot,
            Action::QStop { transfer } | Action::QRepeat { transfer, .. } => transfer.spot,
            Action::Put(put) => put.spot,
            Action::CrateCall(action) => action.spot,
            Action::LamCall(action) => action.spot,
            Action::Call(call) => call.spot,
        }
    }
}

/// A statement, with the spot of its first token: an action, or one that holds blocks.
#[derive(Drop)]
pub enum Stmt {
    Action(Action),
    /// `if` without `else`
    If {
        spot: Spot,
        test: Cond,
        then: Vec<Stmt>,
    },
    /// `if` with `else`
    IfElse {
        spot: Spot,
        test: Cond,
        then: Vec<Stmt>,
        otherwise: Vec<Stmt>,
    },
    For {
        head: ForHead,
        body: Vec<Stmt>,
    },
    /// `for` with `each`: from a number up to another, judged turn by turn (own)
    ForEach {
        spot: Spot,
        variable: usize,
        first: u32,
        last: u32,
        body: Vec<Stmt>,
    },
    While {
        head: WhileHead,
        body: Vec<Stmt>,
    },
    /// `lock`: a block with a crate to itself (own)
    Lock {
        spot: Spot,
        crate_no: Expr,
        body: Vec<Stmt>,
    },
}

impl Stmt {
    /// Where its first token stands.
    pub fn spot(&self) -> Spot
        ensures { result ≡ spot_of (statement_of self.now) }
    {
        match self {
            Stmt::Action(action) => action.spot(),
            Stmt::For { head, .. } => head.spot,
            Stmt::While { head, .. } => head.spot,
            Stmt::If { spot, .. }
            | Stmt::IfElse { spot, .. }
            | Stmt::ForEach { spot, .. }
            | Stmt::Lock { spot, .. } => *spot,
        }
    }
}
