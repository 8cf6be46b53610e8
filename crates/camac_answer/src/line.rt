// What a line gives.

ghost use Rattle.std.specs.Prelude.{◌≡◌, ◌≤◌, ◌<◌, ◌-◌, ◌^◌, ◌⊎◌, length, IfOk, IfSome, IfNone, true, slice_index, Ok, Err, if◌then◌else◌};
ghost use Rattle.camac_answer.specs.Lines.{first_line, IsJudged, bit_at, word_at, digit_number, wait_at, has_shape as is_shaped, fields_after, fields_answer, line_answer, line_given, is_abandon};
ghost use Rattle.camac_answer.specs.declared.fault.AnswerRule.TheVariants.{LineShape, BadDigit};

use crate::fault::AnswerRule;
use crate::filling::LINE;
use crate::given::Given;
use camac_branch::Answer;
use camac_word::Word24;

// How many bytes come before the first LF.
#[inline(never)]
pub(crate) fn line_length(bytes: &[u8]) -> usize
    ensures { result ≡ length (first_line bytes.now) }
{
    bytes.iter().take_while(|byte| **byte != b'\n').count()
}

// The word that six digits spell.
#[inline(always)]
fn word_of(digits: &[u8]) -> Result<Word24, AnswerRule>
    requires { length digits.now ≡ 6 }
    ensures { result ≡ word_at digits.now }
{
    let number = value_of(0, digits[0])
        + value_of(1, digits[1])
        + value_of(2, digits[2])
        + value_of(3, digits[3])
        + value_of(4, digits[4])
        + value_of(5, digits[5]);
    match Word24::new(number) {
        Some(word) => Ok(word),
        None => Err(AnswerRule::BadDigit),
    }
}

// What a digit spells at a place of a word, or more than six digits do.
#[inline(always)]
fn value_of(place: usize, digit: u8) -> u32
    requires { place < 6 }
    ensures value { result ≡ digit_number (16 ^ (5 - place)) digit }
    ensures most { result ≤ 2 ^ 24 }
{
    VALUES[place][digit as usize]
}

// What stands in the tables for a byte that is no digit: more than six digits spell.
const NO: u32 = 1 << 24;

// What each byte spells as a hexadecimal digit that counts so much.
macro_rules! values {
    ($unit:literal) => {
        [
            NO, NO, NO, NO, NO, NO, NO, NO, NO, NO, NO, NO, NO, NO, NO, NO, NO, NO, NO, NO, NO,
            NO, NO, NO, NO, NO, NO, NO, NO, NO, NO, NO, NO, NO, NO, NO, NO, NO, NO, NO, NO, NO,
            NO, NO, NO, NO, NO, NO, 0, $unit, 2 * $unit, 3 * $unit, 4 * $unit, 5 * $unit,
            6 * $unit, 7 * $unit, 8 * $unit, 9 * $unit, NO, NO, NO, NO, NO, NO, NO, 10 * $unit,
            11 * $unit, 12 * $unit, 13 * $unit, 14 * $unit, 15 * $unit, NO, NO, NO, NO, NO, NO,
            NO, NO, NO, NO, NO, NO, NO, NO, NO, NO, NO, NO, NO, NO, NO, NO, NO, NO, NO, NO,
            10 * $unit, 11 * $unit, 12 * $unit, 13 * $unit, 14 * $unit, 15 * $unit, NO, NO, NO,
            NO, NO, NO, NO, NO, NO, NO, NO, NO, NO, NO, NO, NO, NO, NO, NO, NO, NO, NO, NO, NO,
            NO, NO, NO, NO, NO, NO, NO, NO, NO, NO, NO, NO, NO, NO, NO, NO, NO, NO, NO, NO, NO,
            NO, NO, NO, NO, NO, NO, NO, NO, NO, NO, NO, NO, NO, NO, NO, NO, NO, NO, NO, NO, NO,
            NO, NO, NO, NO, NO, NO, NO, NO, NO, NO, NO, NO, NO, NO, NO, NO, NO, NO, NO, NO, NO,
            NO, NO, NO, NO, NO, NO, NO, NO, NO, NO, NO, NO, NO, NO, NO, NO, NO, NO, NO, NO, NO,
            NO, NO, NO, NO, NO, NO, NO, NO, NO, NO, NO, NO, NO, NO, NO, NO, NO, NO, NO, NO, NO,
            NO, NO, NO, NO, NO, NO, NO, NO, NO, NO, NO, NO, NO, NO, NO, NO, NO, NO, NO, NO, NO,
            NO, NO, NO,
        ]
    };
}

// The same at each place of a word.
static VALUES: [[u32; 256]; 6] = [
    values!(0x100000),
    values!(0x10000),
    values!(0x1000),
    values!(0x100),
    values!(0x10),
    values!(1),
];

// The wait that a digit spells.
#[inline(always)]
fn wait_of(digit: u8) -> Result<u8, AnswerRule>
    ensures value { result ≡ wait_at digit }
    ensures in_range { IfOk result (λ w. w ≤ 15) }
{
    let value = value_of(5, digit);
    if value > 15 {
        return Err(AnswerRule::BadDigit);
    }
    Ok(value as u8)
}

// Whether a line has the length and the spaces of an answer.
#[inline(always)]
fn has_shape(line: &[u8]) -> bool
    ensures { result ≡ is_shaped line.now }
{
    line.len() == 19 && line[1] == b' ' && line[3] == b' ' && line[10] == b' ' && line[12] == b' '
}

// The fields after X and Q.
#[inline(always)]
fn fields_after(x: bool, q: bool, line: &[u8]) -> Result<Answer, AnswerRule>
    requires { length line.now ≡ 19 }
    ensures { result ≡ fields_after x q line.now }
{
    let word = word_of(&line[4..10])?;
    let wait = wait_of(line[11])?;
    let gl = word_of(&line[13..19])?;
    match Answer::new(x, q, word, wait, gl) {
        Some(answer) => Ok(answer),
        None => unreachable!(),
    }
}

/// What the first line of these bytes gives.
#[inline(always)]
pub(crate) fn first_given(bytes: &[u8]) -> Result<Given, AnswerRule>
    ensures { result ≡ line_given (first_line bytes.now) }
{
    match first_answer(bytes) {
        Ok(answer) => Ok(Given::Answer(answer)),
        Err(rule) => {
            if is_abandon(&bytes[..line_length(bytes)]) {
                Ok(Given::Abandon)
            } else {
                Err(rule)
            }
        }
    }
}

// Whether a line without its LF is `abandon`.
#[inline(never)]
fn is_abandon(line: &[u8]) -> bool
    ensures { result ≡ is_abandon line.now }
{
    line.len() == 7 && line.starts_with(b"abandon")
}

// The answer of the first line of these bytes.
#[inline(always)]
fn first_answer(bytes: &[u8]) -> Result<Answer, AnswerRule>
    ensures { result ≡ line_answer (first_line bytes.now) }
{
    let len = judged_length(bytes);
    match answer_of(&bytes[..len]) {
        Ok(answer) => Ok(answer),
        Err(rule) => {
            if line_length(bytes) == len {
                Err(rule)
            } else {
                Err(AnswerRule::LineShape)
            }
        }
    }
}

// How many bytes are judged as the first line. Of a whole line it is all but its LF: what spells an answer has no LF in it, so an earlier one
// is looked for only where these bytes spell none.
#[inline(always)]
fn judged_length(bytes: &[u8]) -> usize
    ensures { IsJudged bytes.now result }
{
    if bytes.len() == LINE && bytes[LINE - 1] == b'\n' {
        LINE - 1
    } else {
        line_length(bytes)
    }
}

// The answer of a line without its LF.
#[inline(always)]
fn answer_of(line: &[u8]) -> Result<Answer, AnswerRule>
    ensures { result ≡ line_answer line.now }
{
    match flags_in(line) {
        Some((x, q)) => fields_after(x, q, line),
        None => Err(broken_rule(line)),
    }
}

// X and Q of a line that has the length and the spaces of an answer, where it spells both.
#[inline(always)]
fn flags_in(line: &[u8]) -> Option<(bool, bool)>
    ensures shape { IfSome result (λ f. is_shaped line.now ≡ true) }
    ensures bits { IfSome result (λ f. (bit_at (slice_index line.now 0) ≡ Ok f.0) × (bit_at (slice_index line.now 2) ≡ Ok f.1)) }
    ensures none { IfNone result (is_shaped line.now ≡ true → (bit_at (slice_index line.now 0) ≡ Err BadDigit) ⊎ (bit_at (slice_index line.now 2) ≡ Err BadDigit)) }
{
    if line.len() == 19 && line[10] == b' ' && line[12] == b' ' {
        flags_of(line[0], line[1], line[2], line[3])
    } else {
        None
    }
}

// X and Q, where these bytes spell both, each with a space after it. They are looked at as one number, of which the first byte is the lowest: a
// digit is 0x30 or 0x31, and a space 0x20.
#[inline(always)]
fn flags_of(x: u8, after_x: u8, q: u8, after_q: u8) -> Option<(bool, bool)>
    ensures spaces { IfSome result (λ f. (after_x ≡ 32) × (after_q ≡ 32)) }
    ensures bits { IfSome result (λ f. (bit_at x ≡ Ok f.0) × (bit_at q ≡ Ok f.1)) }
    ensures none { IfNone result (after_x ≡ 32 → after_q ≡ 32 → (bit_at x ≡ Err BadDigit) ⊎ (bit_at q ≡ Err BadDigit)) }
{
    let flags = u32::from_le_bytes([x, after_x, q, after_q]);
    if flags == 0x2031_2031 {
        Some((true, true))
    } else if flags == 0x2030_2031 {
        Some((true, false))
    } else if flags == 0x2031_2030 {
        Some((false, true))
    } else if flags == 0x2030_2030 {
        Some((false, false))
    } else {
        None
    }
}

// The rule that a line breaks which has no X and Q: that of its shape comes first.
#[inline(never)]
fn broken_rule(line: &[u8]) -> AnswerRule
    ensures { result ≡ (if is_shaped line.now then BadDigit else LineShape) }
{
    if has_shape(line) {
        AnswerRule::BadDigit
    } else {
        AnswerRule::LineShape
    }
}
