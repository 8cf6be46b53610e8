// What crosses to C, in numbers, and what passes between a call and a run.

ghost use Rattle.std.specs.Prelude.{◌≡◌};
ghost use Rattle.camac_c.specs.Plain.{only_code, short_in};

use camac_lang::WordSize;

/// An answer of the branch. `x` and `q` are true where they are not 0.
#[repr(C)]
#[derive(Clone, Copy)]
pub struct CamacAnswer {
    pub word: u32,
    pub gl: u32,
    pub x: u8,
    pub q: u8,
    pub wait: u8,
    pub unused: u8,
}

/// What the next answer is for.
#[repr(C)]
#[derive(Clone, Copy)]
pub struct CamacWant {
    pub kind: u8,
    pub c: u8,
    pub n: u8,
    pub a: u8,
    pub f: u8,
    pub data: u8,
    /// The longest wait that is permitted before it.
    pub waits: u8,
    /// How wide the register is that it reads; 0 where it reads none.
    pub width: u8,
    pub word: u32,
    /// What is told of a block, which the caller adds.
    pub of_block: [u8; 3],
    /// Whether its statement is `cssa`.
    pub is_short: u8,
}

/// What an answer did.
#[repr(C)]
#[derive(Clone, Copy)]
pub struct CamacProgress {
    pub kind: u8,
    pub c: u8,
    pub wait: u8,
    pub x: u8,
    pub q: u8,
    pub unused: [u8; 3],
    /// The crates to be released, in this order; zeros behind them.
    pub unlocked: [u8; 8],
    pub word: u32,
    pub pattern: u32,
    pub service: u32,
    pub event: u32,
    pub event_gl: u32,
    pub event_words: u32,
    pub event_cycles: u32,
    pub event_missed: u32,
    /// The service that left it, which the caller adds.
    pub event_service: u32,
    /// The bits of the word above the width of its register.
    pub cut: u32,
}

/// What a call asks of a run.
#[derive(Clone, Copy)]
pub enum SessionAsk {
    /// What the next answer is for.
    Wants,
    /// What comes next, whatever is answered; also behind blocks and releases, if this is not 0.
    Ahead(u32),
    /// What a service surely does first, by its number from 1 on; the same.
    ServiceAhead(u32, u32),
    /// To take an answer.
    Next(CamacAnswer),
    /// To take an answer, and then what the next one is for.
    Step(CamacAnswer),
    /// The words of the event that the last answer left.
    Words,
    /// The record of that event in an event file.
    Record,
    /// The lines of the listing for the last answer.
    Item,
    /// The crates whose lockout is held.
    Held,
    /// The service in progress, and the line of the statement that wants an answer.
    Where,
    /// How many answers may still come.
    Left,
    /// How many services the script has.
    Services,
    /// The name of one of them, from 1 on.
    Name(u32),
    /// Its numbers.
    Numbers(u32),
    /// To make no more than so many steps at once.
    Limit(u32),
    /// To go on after a pause.
    GoOn,
    /// What is left of the transfer whose cycle is wanted.
    Transfer,
    /// The words that are left to write in it.
    ToWrite,
    /// What sets the crates back, as they were at the demand of the service in progress.
    Back,
    /// To leave the service in progress.
    Abandon,
    /// To begin anew.
    Rewind,
}

/// What a run tells: a code, and what was asked for. The rest is zeros.
#[derive(Clone, Copy)]
pub struct Told {
    pub code: u32,
    pub want: CamacWant,
    pub progress: CamacProgress,
    /// How many there are: bytes, words or numbers, of which as many were written as there is room for, answers, services.
    pub count: usize,
}

/// Done.
pub const OK: u32 = 0;

/// Plan, script, answers or event file broke a rule.
pub const REFUSED: u32 = 1;

/// There is no session, or it is open already.
pub const MISUSE: u32 = 2;

/// A growth of memory was refused.
pub const NO_MEMORY: u32 = 3;

/// A wait that is not permitted.
pub const OVERRUN: u32 = 4;

/// An answer out of its range.
pub const RANGE: u32 = 5;

/// The run has used 4,294,967,295 answers.
pub const SPENT: u32 = 6;

/// A text above its limit.
pub const LONG: u32 = 7;

/// The run pauses: it wants no answer, but to go on.
pub const BUSY: u32 = 8;

pub const DEMAND: u8 = 1;

pub const CYCLE: u8 = 2;

pub const LOCK: u8 = 3;

pub const STOPPED: u8 = 4;

pub const BLOCK: u8 = 5;

pub const RELEASE: u8 = 6;

/// Nothing wanted.
pub const NO_WANT: CamacWant = CamacWant {
    kind: 0,
    c: 0,
    n: 0,
    a: 0,
    f: 0,
    data: 0,
    waits: 0,
    width: 0,
    word: 0,
    of_block: [0; 3],
    is_short: 0,
};

/// Nothing done.
pub const NO_PROGRESS: CamacProgress = CamacProgress {
    kind: 0,
    c: 0,
    wait: 0,
    x: 0,
    q: 0,
    unused: [0; 3],
    unlocked: [0; 8],
    word: 0,
    pattern: 0,
    service: 0,
    event: 0,
    event_gl: 0,
    event_words: 0,
    event_cycles: 0,
    event_missed: 0,
    event_service: 0,
    cut: 0,
};

/// Nothing but a code.
#[inline(always)]
pub fn only_code(code: u32) -> Told
    ensures { result ≡ only_code code }
{
    Told {
        code,
        want: NO_WANT,
        progress: NO_PROGRESS,
        count: 0,
    }
}

/// Whether a cycle moves 16 bits.
#[inline(always)]
pub fn short_of(size: WordSize) -> u8
    ensures { result ≡ short_in size }
{
    match size {
        WordSize::Full => 0,
        WordSize::Short => 1,
    }
}
