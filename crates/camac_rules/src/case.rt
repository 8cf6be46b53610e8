// What a rule knows where a script breaks it.

use camac_func::FunctionClass;

/// An operator that may have no number as its result.
#[derive(Clone, Copy, Debug, PartialEq, Eq)]
pub enum Operator {
    /// `+`
    Add,
    /// `-`
    Sub,
    /// `*`
    Mul,
}

/// The numbers from `low` to `high`.
#[derive(Clone, Copy, Debug, PartialEq, Eq)]
pub struct Numbers {
    pub low: u32,
    pub high: u32,
}

/// The body that is judged. Its variables and registers are told by their numbers there, and several bodies may stand on one line.
#[derive(Clone, Copy, Debug, PartialEq, Eq)]
pub enum Body {
    /// That of the procedure of this number, from 0.
    Procedure(usize),
    /// That of the service on the LAM of this number, from 0.
    Service(usize),
}

/// The numbers of a broken rule, of which its sentence is made. The rule tells them in the line that refuses, so that no second walk has to find
/// them. A cost past 64 bits is given as the greatest number of them.
#[derive(Clone, Copy, Debug, PartialEq, Eq)]
pub enum Case {
    /// A tree that no text gives: it names a LAM, a procedure or a table that is not there.
    Malformed,
    /// E1: the first crate of the addresses that is not in the plan.
    NoCrate {
        crate_no: u32,
    },
    /// E1: the first station of the addresses that is not installed.
    NoModule {
        crate_no: u32,
        station: u32,
    },
    /// E2: the first of the addresses at which the function is not declared.
    NoCommand {
        function: u32,
        crate_no: u32,
        station: u32,
        sub_address: u32,
    },
    /// E3: a function, its class, and what the statement moves.
    Direction {
        function: u32,
        class: FunctionClass,
        moves: FunctionClass,
    },
    /// E4: an operator, and the numbers on both sides of it.
    Operation {
        operator: Operator,
        left: Numbers,
        right: Numbers,
    },
    /// E5: the greatest value, and the bits that there are for it.
    Width {
        greatest: u32,
        bits: u32,
    },
    /// E6: the register.
    Unset {
        body: Body,
        register: usize,
    },
    /// E7: the measure.
    Measure {
        body: Body,
        variable: usize,
    },
    /// E8, E9: the first kept variable that is not in its range, its numbers, and that range.
    Kept {
        body: Body,
        variable: usize,
        found: Numbers,
        kept: Numbers,
    },
    /// E10: the turns that a loop may need, and the most that are allowed.
    Turns {
        needed: u64,
        allowed: u32,
    },
    /// E10: the number after `turns`, where it is above the most that any loop may have.
    Annotation {
        turns: u32,
        allowed: u32,
    },
    /// E10: the statements and turns that the `each` loops of the body judge, 2^64 - 1 where it is more, and the most that are allowed.
    Judged {
        body: Body,
        needed: u64,
        allowed: u32,
    },
    /// E11, E12, E18: what the body may cost, 2^64 - 1 where it is more, and what is allowed.
    Budget {
        body: Body,
        needed: u64,
        allowed: u32,
    },
    /// E13: the crates of both registers.
    Crates {
        first: Numbers,
        last: Numbers,
    },
    /// E14: the words that a transfer may send, and those of its table.
    Count {
        count: u32,
        words: usize,
    },
    /// E15: the numbers of a crate that are several, or not one of the plan.
    Crate {
        numbers: Numbers,
    },
    /// E15: the crate that is locked already.
    Locked {
        crate_no: u32,
    },
    /// E16: the greatest word.
    Word {
        greatest: u32,
    },
    /// E17: the variable of a `for` around the statement.
    Counted {
        body: Body,
        variable: usize,
    },
    /// E21: the first argument that is not in the range of its parameter, from 0, its numbers, and that range.
    Argument {
        procedure: usize,
        argument: usize,
        found: Numbers,
        wanted: Numbers,
    },
}
