// The texts of explanations. A `%` is a gap.

// Of a line that is shown.
pub const END: &str = "(end of the script)";

// Of the rules of linking and of the checker.
pub const LAM_WITHOUT_MODULE: &str =
    "The LAM % is at crate %, station %, where the plan has no module.";

pub const LAM_WITHOUT_BIT: &str =
    "The LAM % is at crate %, station %, which has no GL bit in the plan.";

pub const SERVED: &str = "Crate %, station % has a service already, on line %.";

pub const ABOVE_BUFFER: &str = "The event may have % words, and the plan's buffer holds %.";

pub const NO_CRATE: &str = "The plan has no crate %.";

pub const NO_MODULE: &str = "The plan has no module at crate %, station %.";

pub const NO_COMMAND: &str = "The plan declares no F% at crate %, station %, A%.";

pub const DIRECTION: &str = "F% %, and the statement %.";

pub const READS: &str = "reads";

pub const WRITES: &str = "writes";

pub const MOVES_NO_DATA: &str = "moves no data";

pub const SIDES: &str = "The left of `%` may be %, the right %.";

pub const TOO_WIDE: &str = "The value may be %, but has to fit in % bits.";

pub const UNSET: &str = "The register % may be unset here.";

pub const NOT_LOWERED: &str =
    "The body itself has to lower % once by a number, and nothing else in it may write %.";

pub const BEFORE_LOOP: &str = "Before the loop % may be %, and it is kept in % to %.";

pub const AFTER_TURN: &str = "After a turn % may be %, and it is kept in % to %.";

pub const TURNS: &str = "The loop may take % turns, and % are allowed.";

pub const ANNOTATION: &str =
    "The number after `turns` is %, and no loop may take more than % turns.";

pub const JUDGED: &str =
    "The `each` loops of the % judge % statements and turns, and % are allowed.";

pub const SERVICE_STEPS: &str = "The service may take % steps, and % are allowed.";

pub const WORDS: &str = "The % may keep % event words";

pub const CYCLES: &str = "The % may take % dataway cycles";

pub const STEPS: &str = "The % may take % steps";

pub const ITS_HEADING: &str = ", its heading allows %.";

pub const ANY_HEADING: &str = ", and a heading allows at most %.";

pub const REGISTERS: &str = "The first register holds crate %, the last one crate %.";

pub const TABLE: &str = "The transfer may send % words, and the table has %.";

pub const NOT_ONE_CRATE: &str = "The crate is % here, which is not one crate of the plan.";

pub const LOCKED: &str = "Crate % is locked already.";

pub const WIDE_WORD: &str = "The word may be %, and 24 bits hold at most 16777215.";

pub const COUNTED: &str = "A `for` around this line counts the variable %.";

pub const ARGUMENT: &str = "Argument % may be %, and % takes % to %.";
