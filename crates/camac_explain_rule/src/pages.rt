// What is told of each rule. The page docs/REFUSALS.md has the same texts: tests/explain_test.py compares them.

/// A rule's code, why the rule is there, and what to do where it is broken.
pub type Row = (&'static str, &'static str, &'static str);

/// What a way to mend is for, and what to do.
pub type Fix = (&'static str, &'static str);

/// A rule's code, why the rule is there, and each way to mend what breaks it.
pub type CheckRow = (&'static str, &'static str, &'static [Fix]);

/// The rules of plans, each at its number.
pub static OF_PLANS: [Row; 10] = [
    (
        "P1",
        "a plan is a text in TOML, and here it breaks the grammar of TOML.",
        "correct it at the place given: write texts in double quotes, give each key one value, and begin a comment with `#`.",
    ),
    (
        "P2",
        "each table of a plan has its own keys, and one that camac does not know may be mistyped.",
        "write one of the keys that docs/PLANS.md lists for this table, or remove it.",
    ),
    (
        "P3",
        "some keys have to be there, and each holds one kind of value: a number, a text, true or false, or tables.",
        "add the key, or give it a value of its kind, as docs/PLANS.md lists them.",
    ),
    (
        "P4",
        "crates have numbers 1 to 7, stations 1 to 23, sub-addresses 0 to 15, functions 0 to 31, GL bits 1 to 24, and data have 1 to 24 bits.",
        "write a value in the range that docs/PLANS.md lists for this key.",
    ),
    (
        "P5",
        "each crate of the branch has a number of its own.",
        "give this crate its own number, or move its stations to the first one.",
    ),
    (
        "P6",
        "a station holds one module.",
        "give this module the number of its own station, or remove the one that is not installed.",
    ),
    (
        "P7",
        "the type of a station says which commands its module knows, and no type has this name.",
        "add a type of this name, or correct the name; upper and lower case differ.",
    ),
    (
        "P8",
        "no two types share a name, and each command of a type has one width.",
        "remove one of the two, or end the range of sub-addresses before the other begins.",
    ),
    (
        "P9",
        "a bit of the graded-L pattern says which station calls, so it belongs to one station.",
        "give one of the stations another bit, as it is wired.",
    ),
    (
        "P11",
        "a plan opens at most 16 arrays, inline tables, dots of keys and keys of a heading in each other, which bounds the stack that it takes; docs/PLANS.md needs 4.",
        "close the brackets that are still open, or write the tables as docs/PLANS.md shows them.",
    ),
];

/// The rules of a script's text.
pub static OF_TEXTS: [Row; 7] = [
    (
        "S1",
        "outside of comments a script has letters, digits, blanks, `_` and the signs that docs/LANGUAGE.md lists.",
        "remove the byte, or begin a comment before it with `#`.",
    ),
    (
        "S2",
        "the grammar has no place for this word, number or sign here.",
        "look here and at the end of the line before: a word may be mistyped or missing, or a `{` or `(` not closed.",
    ),
    (
        "S3",
        "a function is at most 31, a sub-address at most 15, a word at most 16777215, and any number at most 4294967295.",
        "write a number in this range.",
    ),
    (
        "S4",
        "a name has one meaning, and a loop keeps no variable twice and not its own.",
        "choose another name for one of the two, or remove the second.",
    ),
    (
        "S5",
        "a name is declared before it is used; upper and lower case differ; a procedure sees no variable of the script.",
        "correct the name, or declare it above; give a procedure what it needs as a parameter.",
    ),
    (
        "S6",
        "the language has limits, so that each script is judged and run in a bounded memory.",
        "make it shorter or fewer; docs/LANGUAGE.md lists the limits.",
    ),
    (
        "S7",
        "the first number of an address is the branch, and there is only branch 1.",
        "write 1, then the crate, the station and the sub-address.",
    ),
];

/// The rules of linking.
pub static OF_LINKS: [Row; 4] = [
    (
        "L1",
        "a LAM comes from a module, and the plan has none at this station.",
        "correct the crate or the station of the `cdlam`, or add the station to the plan.",
    ),
    (
        "L2",
        "a service runs when its station's bit is set in the graded-L pattern, and the plan gives this station no bit.",
        "add `gl` to the station in the plan, or serve the LAM of another station.",
    ),
    (
        "L3",
        "a station has one bit of the graded-L pattern, and a bit calls one service.",
        "join the two services into one, which asks each LAM with `ctlm`.",
    ),
    (
        "L4",
        "an event is kept in the buffer of the plan until its service has ended.",
        "write a smaller number after `event`, or a larger `buffer` in the plan, at most 4096.",
    ),
];

/// The rules of answers.
pub static OF_ANSWERS: [Row; 3] = [
    (
        "A1",
        "an answer is a line of 19 bytes, `x q word wait gl`, as `1 1 123fff 0 000004`.",
        "write one digit for `x`, `q` and `wait`, six for `word` and `gl`, and one space between two fields; no comma, tab, comment or empty line, and no CR (`tr -d '\\r'`).",
    ),
    (
        "A2",
        "`x` and `q` are 0 or 1, and the digits of the other fields hexadecimal.",
        "correct the digit; write no `0x`.",
    ),
    (
        "A4",
        "a run takes at most 1000000 answers, a live run 4294967295.",
        "play several runs.",
    ),
];

const KEEP: &str = "keep the records before it, as docs/RUNNING.md says.";

/// The rules of event files.
pub static OF_EVENTS: [Row; 8] = [
    (
        "V1",
        "an event file begins with `CAMACEV1` or `CAMACEV2`.",
        "name the EVENTS of a run; one is empty where the disk had no room.",
    ),
    (
        "V2",
        "a record begins with the bytes ca 4d; bytes are lost, or the count of the record before is wrong.",
        KEEP,
    ),
    ("V3", "the bit of a look-at-me is 1 to 24.", KEEP),
    (
        "V4",
        "events are numbered 1, 2, 3 and so on.",
        "take joined files apart, or keep the records before it, as docs/RUNNING.md says.",
    ),
    ("V5", "an event has at most 4096 words.", KEEP),
    ("V6", "a word has 24 bits, the highest byte first.", KEEP),
    ("V7", "the file ends inside a record.", KEEP),
    ("V9", "a service misses no more cycles than it makes.", KEEP),
];

/// What accepted scripts are warned of.
pub static OF_WARNINGS: [Row; 17] = [
    (
        "W1",
        "this loop makes no turn, whatever the modules answer; the checker accepts even a wrong command in it.",
        "correct the ends of the loop, or remove it.",
    ),
    (
        "W2",
        "the first address of this `cfmad` is after its last one, or its `max` is 0.",
        "exchange the two registers, or write a larger `max`.",
    ),
    (
        "W3",
        "a service may end without a clear, so most modules would call for ever; or one may clear or hide the look-at-me of another.",
        "write `cclc NAME` at the end of the service, and leave it to the service of NAME alone.",
    ),
    (
        "W4",
        "a loop keeps a variable in a range, and the script is also accepted without it.",
        "remove this bound; each was left out alone.",
    ),
    (
        "W5",
        "a run of this script makes no cycle; if its lines end with CR alone, a first comment takes them all.",
        "write a service, or save the file with LF.",
    ),
    (
        "W6",
        "a longer service on a lower bit can hold this one up, and one in progress on a greater bit, too; with the greatest bit for the longer one, one of them alone can.",
        "give the longer one the greatest bit, in the wiring and in the plan, unless it is the more urgent one; docs/RESPONSE.md has more.",
    ),
    (
        "W7",
        "all turns of this `for` pay for what a few do.",
        "write `each` before the block.",
    ),
    (
        "W8",
        "a loop keeps a variable in a range, and a smaller one is accepted, too; one that is too wide may refuse what you write later.",
        "write the range that the warning names.",
    ),
    (
        "W9",
        "neither the word nor Q or X of its cycle is used on any way; nothing is said of a cycle that may be there to clear, as each F2.",
        "use the word, or leave out the cycle.",
    ),
    (
        "W10",
        "no answer of a module changes what is put here.",
        "set the variable before, correct the expression, or put the number itself.",
    ),
    (
        "W11",
        "each service begins with all variables 0.",
        "set the variable first; a register of a module keeps what has to last.",
    ),
    (
        "W12",
        "one function is sent by both: to a channel twice, and maybe never to another.",
        "correct an address, or use one register.",
    ),
    (
        "W13",
        "`q` and `x` are 0 until the service makes a cycle.",
        "make the cycle first.",
    ),
    (
        "W14",
        "another name may stand where this one is meant.",
        "use it, or remove it.",
    ),
    (
        "W15",
        "such a number is octal in other languages; here all are decimal.",
        "write the number that you mean, without the 0.",
    ),
    (
        "W16",
        "so say the ranges that are known before it, whatever the modules answer.",
        "correct the condition, or remove what it leaves out.",
    ),
    (
        "W17",
        "in all its turns the loop may add more to the sum than this condition lets in.",
        "make fewer turns, widen the bound, or say in an `else` what is done then.",
    ),
];

pub const READS: Fix = (
    ", a function that reads",
    "with a function that reads, write `-> v` after the register of `cfsa` or `cssa`, and name no `table` in `cfubc` or `cfubr`.",
);

pub const WRITES: Fix = (
    ", a function that writes",
    "with a function that writes, write `<- e` after the register of `cfsa` or `cssa`, and name a `table` in `cfubc` or `cfubr`; `cfmad` only reads.",
);

pub const MOVES_NONE: Fix = (
    ", a function that moves no data",
    "with a function that moves no data, write `cfsa` or `cssa` without an arrow.",
);

pub const RESULT: Fix = (
    ", of other results",
    "test the variables by `if` before, or in the condition of a `while`, bound them by `%`, or let a loop `keep` them in a range.",
);

pub const DIFFERENCE: Fix = (
    ", of a difference of two variables",
    "ranges know no relation between two variables: add the greatest number of the right side first, as in `v + 4095 - w`, and test the result by `if`.",
);

pub const ANY_RIGHT: Fix = (
    ", of a difference whose right side may be any number",
    "a loop forgets what its body writes: let it `keep` such a right side in a range, as `camac-check --keeps` finds it; then add its greatest number first, as in `v + 4095 - w`, and test the result by `if`.",
);

pub const ANY_SIDE: Fix = (
    ", of other results of a number that may be any",
    "bound the variable by `if` or `%` before. A loop forgets what its body writes: write `each` after the ends of a `for`, or let it `keep` such a variable in a range. `camac-check --keeps` finds what it needs.",
);

pub const VALUE: Fix = (
    "",
    "bound the value by `%` or `if`, write a smaller word into the table, or correct the `width` in the plan.",
);

pub const ANY_VALUE: Fix = (
    ", of a value that may be any",
    "bound the value by `%` or `if`. A loop forgets what its body writes: write `each` after the ends of a `for`, or let it `keep` such a variable in a range. `camac-check --keeps` finds what it needs.",
);

pub const MORE_TURNS: Fix = (
    ", where at most 65535 turns are needed",
    "write a larger number after `turns`, or begin with a smaller value.",
);

pub const TWO_LOOPS: Fix = (
    ", where more are needed",
    "no larger number is allowed: bound the variable after `by` or the ends of the `for` by `if` or `%`, or write two loops, one in the other.",
);

pub const MOST_TURNS: Fix = (
    ", where the number after `turns` is above 65535",
    "write at most 65535 after `turns`; for more turns write two loops, one in the other.",
);

pub const FEWER_EACH: Fix = (
    ", where all `each` judge more than 65536",
    "leave `each` out of the loop with the most turns and let it `keep` what it needs, or make fewer turns.",
);

pub const MORE_WORDS: Fix = (
    ", up to 4,096 words",
    "write a larger number after `event`, as `camac bounds` prints it, or keep fewer words.",
);

pub const FEWER_WORDS: Fix = (
    ", above that",
    "keep fewer words: the plan's buffer holds at most 4096.",
);

pub const MORE_CYCLES: Fix = (
    "",
    "write a larger number after `within`, as `camac bounds` prints it, or make fewer cycles.",
);

pub const FEWER_CYCLES: Fix = (
    ", where more than 4294967295 are needed",
    "make fewer cycles, or fewer turns: no number after `within` can be that large.",
);

pub const WORD: Fix = (
    "",
    "bound the value by `% 16777216`, or by an `if` on a variable that has it; let a loop `keep` it in a range, or put it as two words.",
);

pub const ANY_WORD: Fix = (
    ", of a value that may be any",
    "bound the value by `% 16777216` or `if`. A loop forgets what its body writes: write `each` after the ends of a `for`, or `keep v in 0..16777215` after its head. `camac-check --keeps` finds what it needs.",
);

pub const MORE_STEPS: Fix = (
    "",
    "write a larger number after `steps`, as `camac bounds` prints it, or make fewer turns.",
);

pub const FEWER_STEPS: Fix = (
    ", where more than 4294967295 are needed",
    "make fewer turns: no heading allows more than 4294967295 steps.",
);

/// The rules of the checker. If the case decides what helps, a rule has several ways.
pub static OF_CHECKER: [CheckRow; 19] = [
    (
        "E1",
        "a command goes only to a station with a module, or to station 28 or 30 of a crate's controller, whatever address the register may hold.",
        &[(
            "",
            "correct the `cdreg`, add the station to the plan, or bound a computed number before the `cdreg` by `if` or `%`.",
        )],
    ),
    (
        "E2",
        "a module is sent only what the plan declares for its type, at every sub-address that the register may hold.",
        &[(
            "",
            "correct the function, or the address in the `cdreg` or `cdlam`; or add the command to the type in the plan; or bound a computed number by `if` or `%`.",
        )],
    ),
    (
        "E3",
        "F0 to F7 read, F16 to F23 write, and the others move no data; `cfmad` reads, and a block transfer writes if it names a table.",
        &[READS, WRITES, MOVES_NONE],
    ),
    (
        "E4",
        "no result may be below 0 or above 4294967295, for all values that the variables may have here.",
        &[RESULT, DIFFERENCE, ANY_RIGHT, ANY_SIDE],
    ),
    (
        "E5",
        "a write sends all bits of its value, so the value has to fit the register's width in the plan, and for `cssa` 16 bits.",
        &[VALUE, ANY_VALUE],
    ),
    (
        "E6",
        "on some path to this line no `cdreg` has set the register; at the start of each turn of a loop, registers that its body sets count as unset.",
        &[(
            "",
            "set it in the same block before this line, as in `cdreg r 1 c n a`.",
        )],
    ),
    (
        "E7",
        "the variable after `by` shows that the loop ends: its body lowers it once, by a number from 1, and nothing else in it writes it.",
        &[(
            "",
            "write one `m = m - 1` into the body itself, in no `if` and no inner loop, and let nothing else write `m`.",
        )],
    ),
    (
        "E8",
        "a kept variable is in its range when the loop begins, for all values that it may have.",
        &[(
            "",
            "set the variable before the loop, widen its range after `keep`, or leave out a variable that the body does not write. For one that it writes, `camac-check --keeps` finds the range.",
        )],
    ),
    (
        "E9",
        "a kept variable is in its range again after each turn, for all values that it may have.",
        &[(
            "",
            "a sum grows in each turn, so a wider range is refused again: for a sum write `each` in place of `keep`, as in `for i = 0 to 11 each { k = k + v }`. A value that is set again needs a bound or a wider range. `camac-check --keeps` finds what a loop needs.",
        )],
    ),
    (
        "E10",
        "a loop makes at most 65535 turns, and a `while` at most those after `turns`.",
        &[MORE_TURNS, TWO_LOOPS, MOST_TURNS, FEWER_EACH],
    ),
    (
        "E11",
        "each `put` is a word, and so is each that a block read or an address scan may keep.",
        &[MORE_WORDS, FEWER_WORDS],
    ),
    (
        "E12",
        "each dataway cycle counts, on the longest way through the body.",
        &[MORE_CYCLES, FEWER_CYCLES],
    ),
    (
        "E13",
        "an address scan goes from station to station of one crate.",
        &[(
            "",
            "give both registers the same crate, a known one, and scan each crate by its own `cfmad`.",
        )],
    ),
    (
        "E14",
        "a block write sends a word of its table for each that it counts.",
        &[("", "write a smaller `max`, or a longer table.")],
    ),
    (
        "E15",
        "a crate call or a `lock` is for one crate of the plan, known before the run, and no crate is locked twice.",
        &[(
            "",
            "write the number of a crate of the plan, or remove the inner `lock`.",
        )],
    ),
    ("E16", "a word of an event has 24 bits.", &[WORD, ANY_WORD]),
    (
        "E17",
        "a `for` counts its variable itself, so nothing in its body may write it.",
        &[("", "use another variable in the body.")],
    ),
    (
        "E18",
        "each statement, each turn of a loop and each cycle of a transfer is a step; a service may take at most 4294967295.",
        &[MORE_STEPS, FEWER_STEPS],
    ),
    (
        "E21",
        "a procedure's body is checked once, for the ranges in its heading, so each argument has to be in the range of its parameter.",
        &[(
            "",
            "bound the argument by `%` or `if`, or widen the range in the heading.",
        )],
    ),
];

/// Before a code, at the end of an explanation.
pub const MORE: &str = "More: docs/REFUSALS.md, ";

// The meanings of warnings.
pub const NEVER_REACHED: &str = "never reached";

pub const SCAN_WITHOUT_CYCLE: &str = "a scan without a cycle";

pub const NO_NUMBER: &str = "no number for look-at-mes";

pub const KEEP_NOT_NEEDED: &str = "a kept bound that is not needed";

pub const NO_SERVICE: &str = "no service";

pub const LONGER_FIRST: &str = "a longer service goes first";

pub const DEAR_LOOP: &str = "a loop that costs less turn by turn";

pub const KEEP_TOO_WIDE: &str = "a kept bound that is wider than it has to be";

pub const WORD_NOT_USED: &str = "a word that is read and never used";

pub const ONE_NUMBER: &str = "a word that is always one number";

pub const USED_BEFORE_SET: &str = "used before it is set";

pub const ONE_ADDRESS_TWICE: &str = "two registers of one address";

pub const FLAG_BEFORE_CYCLE: &str = "a flag before any cycle";

pub const NAME_NOT_USED: &str = "a name that is never used";

pub const LEADING_ZERO: &str = "a 0 before a number";

pub const ALWAYS_TRUE_OR_FALSE: &str = "a condition that is always true or always false";

pub const GUARD_LEAVES_OUT: &str = "a guard that leaves something out";
