// The texts of sentences and hints. A `%` is a gap.

// Of a text's fault.
pub const PLAN_FIRST: &str = "This begins like a plan: PLAN comes first, then SCRIPT.";

pub const FOUND: &str = "Found %.";

pub const EXPECTED: &str = "Found %; expected %.";

pub const END: &str = "the end of the script";

pub const NO_LOCK: &str = "A procedure has no `lock`: put the `call` into one.";

pub const BYTE: &str = "The byte % begins no token.";

pub const CHARACTER: &str = "The character % begins no token.";

pub const ABOVE_ALL: &str = "The number % is above 4294967295, the greatest of all.";

pub const ABOVE: &str = "The number % is above %, the greatest allowed here.";

pub const TAKEN: &str = "The name % is taken: it is declared as a %.";

pub const TAKEN_AT: &str = "The name % is taken: it is declared on line % as a %.";

pub const OTHER: &str = "The name % is declared as a %; expected a %.";

pub const OTHER_AT: &str = "The name % is declared on line % as a %; expected a %.";

pub const MISSING: &str = "The name % is not declared above as a %.";

pub const ITSELF: &str = "The procedure % can be called only after its end.";

pub const HIDDEN: &str = "A procedure does not see the variable % of the script.";

pub const KEPT_TWICE: &str = "The variable % is kept twice.";

pub const COUNTER_KEPT: &str = "The `for` counts the variable %, which needs no `keep`.";

pub const MEASURE_KEPT: &str = "The variable % is the measure after `by`, and needs no `keep`.";

pub const BRANCH: &str = "The branch is % here, and there is only branch 1.";

// Of what may be meant.
pub const MEANT: &str = "Did you mean `%`?";

pub const MEANT_NAME: &str = "Did you mean %?";

pub const MEANT_BEFORE: &str = "Did you mean `%` instead of %?";

pub const OPEN: &str = "The `{` of line % is still open.";

pub const INSIDE: &str =
    "`%` belongs outside of services and procedures, and the `{` of line % is still open.";

pub const TAKES_ONE: &str = "The procedure % takes 1 argument.";

pub const TAKES: &str = "The procedure % takes % arguments.";

pub const BRACKETS: &str = "Write arguments in brackets: `call %(..)`.";

pub const CALLED: &str = "A procedure is called by `call %(..)`.";

pub const NO_RESULT: &str = "A procedure has no result: call it by `call %(..)`.";

pub const ADDRESS: &str = "A register holds an address: `cfsa 0 % -> v` reads from it into `v`.";

pub const TESTED: &str = "A LAM has no value: `ctlm %` tests it, and the answer is the flag `q`.";

pub const NO_ARROW: &str = "Before `%` an arrow is missing: `-> %` reads, `<- %` writes.";

pub const OF_LANGUAGE: &str = "`%` is a word of the language: choose another name.";

pub const ABSENT: &str = "camac has no %; write %.";

pub const FORM: &str = "Write %.";

pub const DIGITS: &str = "Write numbers in decimal digits, as `255` for `0xff`.";

pub const MARKED: &str =
    "A `#` begins a comment: write numbers in decimal digits, as `255` for `#ff`.";

pub const NO_STATEMENT: &str = "No statement begins with this word, and a comment begins with `#`.";

pub const CYCLES_SET: &str = "Each cycle sets the flags, and nothing else does.";

pub const BYTE_ORDER: &str =
    "It is a byte order mark (BOM), which cannot be seen: save the script without it.";

pub const FIRST_LETTER: &str = "A name begins with a letter.";

// Of mistakes that are made often.
pub const TABLE_READ: &str = "A table cannot be read: it is for block writes.";

pub const SET_REGISTER: &str = "Set a register to an address first, by `cdreg`.";

pub const NAME_LAM: &str = "Write the name of a LAM here, which `cdlam` declares.";

pub const OUTSIDE: &str = "A statement belongs in the braces of a service or a procedure.";

pub const NAMES_APART: &str = "Write names without commas, as in `var v k`.";

pub const BEGINS_AS_0: &str = "A variable begins as 0: a service sets it, as in `v = 3`.";

pub const WORDS_APART: &str = "Write words without commas, as in `table t = 1 2`.";

pub const ONE_VALUE: &str = "A `put` has one value: write `put` before each.";

pub const ONE_READ: &str = "A read sets one variable, and the flags `q` and `x` by themselves.";

pub const BEFORE_EACH: &str =
    "Before `each` stand two numbers, and no `keep`: `for i = 0 to 11 each { .. }`.";

pub const TWO_SIDES: &str = "A range is tested by two comparisons: `v >= A and v <= B`.";

pub const COMPARES: &str = "A condition compares, as in `v != 0`.";

pub const JOINED: &str = "Comparisons are joined by `and`: `a < v and v < b`.";

pub const NO_DASH: &str = "A name has letters, digits and `_`, and no dash.";

pub const REPEATED: &str = "Repeat the variable after the `=`, as in `v = v + 1`.";

pub const FLAG_ALONE: &str = "Write a flag alone: `q`, or `not q`.";

pub const NO_CALL: &str =
    "A `call` calls a procedure: write this statement without it, as in `cfsa 0 channel -> v`.";

pub const AFTER_NOT: &str = "After `not`, write a comparison, `q` or `x`.";

pub const AFTER_ELSE: &str = "Write the block of `else` in braces; an `if` may be in it.";

pub const AFTER_INTO: &str = "A read sets a variable after `->`; a write has `<-` and a value.";

pub const DIVISOR: &str = "A divisor is a number of at least 1.";

pub const NONE_BELOW_0: &str = "There are no numbers below 0.";

pub const NO_NUMBER: &str = "A flag is no number: write `v = 0  if q { v = 1 }`.";

pub const NO_BRACKETS: &str = "Brackets are for expressions, not for conditions.";

pub const ANSWER: &str = "The answer is the flag `q`.";
