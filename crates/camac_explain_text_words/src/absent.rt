// What the language does not have. The page docs/LANGUAGE.md shows the table: tests/explain_test.py compares them.

ghost use Rattle.std.specs.Prelude.{◌≡◌, map, option_map};
ghost use Rattle.std.specs.Str.{str_eq_ignore_ascii_case};
ghost use Rattle.camac_explain_text_words.specs.Absent.{absent_of, absent_sign, absent_table, absent_word, begins_before, is_no_word, is_sign_around, is_spelled, row_of, sign_at, sign_in, word_in};

// Words and signs of other languages, and what a script has in their place.
type Row = (&'static [&'static str], &'static str);

static ABSENT: [Row; 50] = [
    (
        &["print", "printf", "println", "echo", "append", "push"],
        "`put v`, which makes `v` a word of the event",
    ),
    (
        &["read"],
        "`cfsa 0 r -> v`, which reads at the address of the register `r`",
    ),
    (
        &["write"],
        "`put v` to keep `v` in the event, and `cfsa 16 r <- v` to write it to a module",
    ),
    (&["return", "stop"], "an `if` around the rest of the body"),
    (
        &["break", "exit"],
        "a further part of the condition of a `while`, as `and not q`",
    ),
    (&["continue"], "an `if` around the rest of the block"),
    (&["goto", "gosub"], "a loop, an `if` or a `call`"),
    (
        &["delay", "wait", "sleep", "usleep", "pause"],
        "a `while` that polls a module: no statement waits for a time",
    ),
    (&["unlock"], "`lock c { .. }`, which unlocks at its `}`"),
    (
        &["step"],
        "`k * 2` in the body, since a `for` counts `k` by 1",
    ),
    (
        &["downto"],
        "a `for` that counts up, and a difference in its body",
    ),
    (
        &["or", "||", ".OR.", ".or."],
        "one `if` into the `else` of the other, or a variable that both set",
    ),
    (&["elif", "elseif", "elsif"], "`else { if c { .. } }`"),
    (
        &[
            "then", "begin", "end", "endif", "enddo", "next", "wend", "done",
        ],
        "`{` and `}` around a block",
    ),
    (
        &[
            "do", "foreach", "range", "repeat", "until", "loop", "forever",
        ],
        "`for i = A to B { .. }`, or `while c turns N by k { .. }`",
    ),
    (&["switch", "case", "select"], "an `if` for each value"),
    (&["pass"], "an empty block"),
    (
        &["try", "except", "catch", "raise", "throw", "assert"],
        "an `if` on `q` or `x` after the cycle: nothing else can fail",
    ),
    (
        &[
            "let", "const", "int", "uint", "unsigned", "long", "short", "char", "float", "double",
            "real", "integer", "logical", "bool", "dim",
        ],
        "a `var` above the services: each variable is a number from 0 to 4294967295",
    ),
    (
        &["def", "function", "func", "fn", "void", "sub", "subroutine"],
        "`proc p(a in A..B) within C cycles event W words steps S { .. }`",
    ),
    (&["import", "include"], "all in one text: `cat` joins two"),
    (
        &["true", "false"],
        "1 and 0, and a comparison as in `v == 1`",
    ),
    (
        &["none", "null", "nil"],
        "0, since a variable is always a number",
    ),
    (&["mod"], "`%` between the two numbers"),
    (
        &["|", "^", "~", "<<", ">>", "xor", "shl", "shr"],
        "`/` and `%` with powers of two: `v % 256` is the low byte of `v`, and `v * 4` shifts it left by two",
    ),
    (
        &["&H", "&h", "&B", "&b", "$"],
        "decimal digits: `255` for `0xff`",
    ),
    (
        &["&"],
        "`v % 256` for the low byte of `v`, and `v` alone for its address",
    ),
    (
        &["CALL"],
        "`cfsa 0 channel -> v` for `CALL CFSA(..)`, and `call p(..)` for a procedure",
    ),
    (&["&&", ".AND.", ".and."], "`and`"),
    (
        &["!"],
        "`not` before a comparison or a flag, and `#` before a comment",
    ),
    (&[".NOT.", ".not."], "`not` before a comparison or a flag"),
    (&[".GT.", ".gt."], "`>`"),
    (&[".LT.", ".lt."], "`<`"),
    (&[".EQ.", ".eq."], "`==`"),
    (&["<>", "≠", ".NE.", ".ne."], "`!=`"),
    (
        &["/="],
        "`!=` to compare, and the whole to divide, as in `v = v / 2`",
    ),
    (&[":="], "`=`"),
    (&["=>", ".GE.", ".ge."], "`>=`"),
    (&["=<", ".LE.", ".le."], "`<=`"),
    (
        &["++", "--", "+=", "-=", "*=", "%="],
        "the whole, as in `v = v + 1`",
    ),
    (&["**"], "a product, as in `v * v`"),
    (&["?"], "`if c { .. } else { .. }`"),
    (&[":"], "`{` and `}` around a block"),
    (&[";"], "statements without a sign at their end"),
    (
        &["//"],
        "`#` before a comment, and `/` to divide: it rounds down",
    ),
    (&["/*", "*/", "rem"], "`#` before each line of a comment"),
    (
        &["\"", "'", "“", "”", "‘", "’"],
        "text only in a comment, after `#`",
    ),
    (
        &["[", "]", "dimension", "array"],
        "several variables, or a `table` for a block write",
    ),
    (
        &["."],
        "whole numbers in a smaller unit, and `A..B` for a range",
    ),
    (&["→"], "`->`"),
];

#[tactic(auto, unfolding(crate::specs::Absent::absent_table))]
fn absent_table() -> &'static [Row]
    ensures { map row_of result.now ≡ absent_table }
{
    &ABSENT
}

/// A word or a sign of the table, and what to write in its place.
#[derive(Clone, Copy)]
pub struct Absent<'a> {
    pub spelled: &'a [u8],
    pub write: &'static str,
}

/// The word of the table that this is, in any case of its letters.
pub fn absent_word(word: &[u8]) -> Option<Absent<'_>>
    ensures { option_map absent_of result ≡ absent_word word.now }
{
    word_in(absent_table(), word)
}

fn word_in<'a>(rows: &[Row], word: &'a [u8]) -> Option<Absent<'a>>
    ensures { option_map absent_of result ≡ word_in (map row_of rows.now) word.now }
{
    'rows: for row in rows {
        let (spellings, write) = *row;
        if is_spelled(spellings, word) {
            let spelled = word;
            return Some(Absent { spelled, write });
        }
    }
    None
}

fn is_spelled(spellings: &[&str], word: &[u8]) -> bool
    ensures { result ≡ is_spelled (map (λ s. s.now) spellings.now) word.now }
{
    'spellings: for known in spellings {
        if is_same_word(known, word) {
            return true;
        }
    }
    false
}

/// Whether a word is this one, in any case of its letters.
pub fn is_same_word(known: &str, word: &[u8]) -> bool
    ensures { result ≡ str_eq_ignore_ascii_case known.now word.now }
{
    known.as_bytes().eq_ignore_ascii_case(word)
}

/// The longest sign of the table in which the bytes before a place end, or with which those from it on begin; of several the first.
pub fn absent_sign(before: &[u8], rest: &[u8]) -> Option<Absent<'static>>
    ensures { option_map absent_of result ≡ absent_sign before.now rest.now }
{
    let table = absent_table();
    if let Some(absent) = sign_in(table, 5, before, rest) {
        return Some(absent);
    }
    if let Some(absent) = sign_in(table, 4, before, rest) {
        return Some(absent);
    }
    if let Some(absent) = sign_in(table, 3, before, rest) {
        return Some(absent);
    }
    if let Some(absent) = sign_in(table, 2, before, rest) {
        return Some(absent);
    }
    sign_in(table, 1, before, rest)
}

// The first sign of so many bytes that stands at a place.
fn sign_in(rows: &'static [Row], size: usize, before: &[u8], rest: &[u8]) -> Option<Absent<'static>>
    ensures { option_map absent_of result ≡ sign_in (map row_of rows.now) size before.now rest.now }
{
    'rows: for row in rows {
        let (spellings, write) = *row;
        if let Some(sign) = sign_at(spellings, size, before, rest) {
            let spelled = sign.as_bytes();
            return Some(Absent { spelled, write });
        }
    }
    None
}

fn sign_at(
    spellings: &'static [&'static str],
    size: usize,
    before: &[u8],
    rest: &[u8],
) -> Option<&'static str>
    ensures { option_map (λ s. s.now) result ≡ sign_at (map (λ s. s.now) spellings.now) size before.now rest.now }
{
    'spellings: for sign in spellings {
        if is_sign_around(sign.as_bytes(), size, before, rest) {
            return Some(*sign);
        }
    }
    None
}

// Whether a sign has so many bytes, and stands at a place, or begins one byte before it.
fn is_sign_around(sign: &[u8], size: usize, before: &[u8], rest: &[u8]) -> bool
    ensures { result ≡ is_sign_around sign.now size before.now rest.now }
{
    sign.len() == size
        && is_no_word(sign)
        && (rest.starts_with(sign) || begins_before(sign, before, rest))
}

fn is_no_word(spelled: &[u8]) -> bool
    ensures { result ≡ is_no_word spelled.now }
{
    match spelled {
        [first, ..] => !first.is_ascii_alphabetic(),
        [] => false,
    }
}

// Whether a sign of two bytes or more begins with the last byte before a place, and goes on from there.
fn begins_before(sign: &[u8], before: &[u8], rest: &[u8]) -> bool
    ensures { result ≡ begins_before sign.now before.now rest.now }
{
    match sign {
        [first, behind @ ..] => {
            !behind.is_empty() && before.ends_with(&[*first]) && rest.starts_with(behind)
        }
        [] => false,
    }
}
