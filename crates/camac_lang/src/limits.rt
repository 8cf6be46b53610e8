// The limits of the language (own), and how large an event may be.

/// The most bytes of a name.
pub const NAME_BYTES: usize = 32;

/// The most variables of a script and parameters of all its procedures together.
pub const VARIABLES: usize = 64;

/// The most registers of a service and of all procedures together.
pub const REGISTERS: usize = 64;

/// The most parameters of a procedure.
pub const PARAMETERS: usize = 8;

/// The most tables of a script.
pub const TABLES: usize = 16;

/// The most words of a table.
pub const TABLE_WORDS: usize = 1_024;

/// The most LAMs of a script.
pub const LAMS: usize = 64;

/// The most procedures of a script.
pub const PROCEDURES: usize = 16;

/// The most services of a script: one for each GL bit.
pub const SERVICES: usize = 24;

/// The most statements of a script, those inside others counted.
pub const STATEMENTS: u32 = 4_096;

/// The most operators of an expression.
pub const OPERATORS: u32 = 32;

/// The most parts of a condition.
pub const CONDITION_PARTS: usize = 16;

/// The most brackets and braces that are open at once, calls counted.
pub const DEPTH: usize = 16;

/// The most turns of a loop.
pub const TURNS: u32 = 65_535;

/// The most words of an event, which is the largest buffer that a plan can have.
pub const EVENT_WORDS: usize = 4_096;
