// The texts of sentences and hints on plans. A `%` is a gap.

// Of a text that is no TOML.
pub const PLACE: &str = "Line %, column %: %.";

pub const DEEP: &str = "this is 17 deep";

pub const SCRIPT_FIRST: &str = "This begins like a script: PLAN comes first, then SCRIPT.";

pub const DOUBLE_BRACKETS: &str =
    "Write crates, stations and types in double brackets: `[[crate]]`, `[[crate.station]]`, `[[type]]`.";

pub const RANGE: &str = "A range is written as `a = 0, to = 11`.";

pub const EQUALS_SIGN: &str = "Write `=` between a key and its value.";

pub const CURLY_QUOTES: &str = "Curly quotes are none: write `\"`.";

// Of a value.
pub const WHOLE_NUMBER: &str = "a whole number from % to %";

pub const FLAG: &str = "`true` or `false`";

pub const TEXT: &str = "a text in double quotes";

pub const TABLES: &str = "an array of tables";

pub const MISSING: &str = "the key is missing; expected %.";

pub const ABOVE_STATIONS: &str = "It stands above the crate's first `[[crate.station]]`.";

pub const KIND: &str = "the value is of the kind %; expected %.";

pub const NO_TABLE: &str = "the % is of the kind %; expected a table, such as `{ f = 0, a = 0 }`.";

pub const VALUE: &str = "the value is %.";

pub const OUT_OF_RANGE: &str = "the value is %; expected % to %.";

pub const NO_NAME: &str = "the value is %, and a name has 1 to 32 letters, digits, `_` or `-`.";

pub const PROBE: &str = "the value is %, and a probe has 24 bits.";

pub const CLEARING_PROBE: &str = "a probe clears no look-at-me.";

pub const FULL: &str = "there are at most 64 types.";

pub const USED: &str = "the value is %, which is already used at %.";

pub const DECLARED: &str = "F% at A% is declared already, at the %.";

// Of a key.
pub const UNKNOWN: &str = "%%%: there is no such key.% The keys of % are %.";

pub const MEANT: &str = " Did you mean `%`?";

pub const HOME: &str = " It is a key of %.";

// Of a table: what it is.
pub const PLAN: &str = "the plan itself";

pub const TYPE: &str = "a `[[type]]`";

pub const COMMAND: &str = "a command";

pub const CRATE: &str = "a `[[crate]]`";

pub const STATION: &str = "a `[[crate.station]]`";
