// What is told of a text's fault.

ghost use Rattle.std.specs.Prelude.{◌≡◌, IfOk, None, Some, option_map, string_bytes};
ghost use Rattle.camac_explain_text_words.specs.Absent.{absent_of};
ghost use Rattle.camac_tokens.specs.Words.{or_else};
ghost use Rattle.camac_explain_text.specs.Hint.{hint_text};
ghost use Rattle.camac_explain_text.specs.Meant.{word_before};
ghost use Rattle.camac_explain_text.specs.Mistake.{outside_of_bodies};
ghost use Rattle.camac_explain_text_place.specs.Place.{place_of};
ghost use Rattle.camac_explain_text.specs.Sentence.{begins_like_a_plan, fault_said, absent_variable, arguments_said, byte_said, case_said, expected_sentence, found_said, found_text, is_of_another_language, is_value, not_there, noun, number_text, of_word, other_byte_text, other_kind, other_text, said_of, taken, taken_text, undeclared, unexpected};
ghost use Rattle.camac_sentence.specs.Filled.{part_text};

use crate::byte::byte_hint;
use crate::hint::{Hint, absent_hint, kind_hint, name_hint, takes, unexpected_hint, word_before};
use crate::mistake::outside_of_bodies;
use crate::own::own_sentence;
use crate::texts::{
    ABOVE, ABOVE_ALL, BRANCH, BYTE, CHARACTER, COUNTER_KEPT, DIVISOR, END, EXPECTED, FOUND, HIDDEN,
    ITSELF, KEPT_TWICE, MEASURE_KEPT, MISSING, NO_LOCK, OTHER, OTHER_AT, PLAN_FIRST, TAKEN,
    TAKEN_AT,
};
use camac_explain_text_place::{Found, expected_list, kind_at, rest_of};
use camac_explain_text_words::{Absent, character, first_byte, is_same_word, limit_told};
use camac_lines::Quote;
use camac_sentence::{Part, fill};
use camac_text::{Choices, NameKind, TextCase, TokenKind};
use std::alloc::{AllocError, Global};

/// What is told of a text's fault: a sentence on it, and a hint, which is its fix, where this fault has one of its own.
#[derive(Drop)]
pub struct TextTold {
    pub sentence: Option<String>,
    pub hint: Option<String>,
}

/// What the first rule that a text breaks knew, in this case, and what may be meant: so many bytes of the text are left from its fault on, where
/// these choices were noted.
pub fn text_told(
    alloc: Global,
    text: &[u8],
    case: TextCase,
    left: usize,
    noted: Choices,
) -> Result<TextTold, AllocError>
    ensures { IfOk result (λ t. said_of t ≡ fault_said (begins_like_a_plan left text.now) noted text.now case left) }
{
    if begins_like_a_plan(text, left) {
        return told(alloc, None, Some(Hint::Told(PLAN_FIRST)));
    }
    let found = Found::new(alloc, text, left, noted)?;
    case_told(alloc, &found, case)
}

// Whether a text begins with the word `buffer` or, where a fault is first, with a `[` there.
fn begins_like_a_plan(text: &[u8], left: usize) -> bool
    ensures { result ≡ begins_like_a_plan left text.now }
{
    match kind_at(text) {
        Some(TokenKind::Name(name)) => name.as_bytes().starts_with(b"buffer"),
        Some(_) => false,
        None => rest_of(text, left).starts_with(b"["),
    }
}

#[tactic(auto, unfolding(crate::specs::Sentence::case_said))]
fn case_told(alloc: Global, found: &Found<'_>, case: TextCase) -> Result<TextTold, AllocError>
    ensures { IfOk result (λ t. said_of t ≡ case_said (place_of found.now) case) }
{
    match case {
        TextCase::Byte => byte_told(alloc, found),
        TextCase::Unexpected => unexpected(alloc, found),
        TextCase::ZeroDivisor => found_told(alloc, found.word, Some(Hint::Told(DIVISOR))),
        TextCase::LockInProcedure => told(alloc, None, Some(Hint::Told(NO_LOCK))),
        TextCase::ArgumentCount { wanted } => {
            arguments_told(alloc, found.word, found.before.called(), wanted)
        }
        TextCase::Number { most } => plain(alloc, number_told(alloc, found.word, most)?),
        TextCase::Taken { by } => taken(alloc, found, by),
        TextCase::KeptTwice => of_word(alloc, KEPT_TWICE, found.word),
        TextCase::CounterKept => of_word(alloc, COUNTER_KEPT, found.word),
        TextCase::MeasureKept => of_word(alloc, MEASURE_KEPT, found.word),
        TextCase::Undeclared {
            wanted,
            found: what,
        } => undeclared(alloc, found, wanted, what),
        TextCase::Limit(limit) => plain(alloc, limit_told(alloc, found.word, limit)?),
        TextCase::Branch => of_word(alloc, BRANCH, found.word),
    }
}

// Of the word at a place.
fn of_word(alloc: Global, text: &str, word: &[u8]) -> Result<TextTold, AllocError>
    ensures { IfOk result (λ t. said_of t ≡ of_word text.now word.now) }
{
    plain(alloc, fill(alloc, text, &[Part::Quoted(Quote(word))])?)
}

fn plain(alloc: Global, sentence: String) -> Result<TextTold, AllocError>
    ensures { IfOk result (λ t. said_of t ≡ (Some (string_bytes sentence), None)) }
{
    told(alloc, Some(sentence), None)
}

fn told(
    alloc: Global,
    sentence: Option<String>,
    hint: Option<Hint<'_>>,
) -> Result<TextTold, AllocError>
    ensures { IfOk result (λ t. said_of t ≡ (option_map string_bytes sentence, option_map hint_text hint.entry)) }
{
    let Some(hint) = hint else {
        let hint = None;
        return Ok(TextTold { sentence, hint });
    };
    let hint = Some(hint.told(alloc)?);
    Ok(TextTold { sentence, hint })
}

// Of a number above the greatest that may stand there.
fn number_told(alloc: Global, token: &[u8], most: u32) -> Result<String, AllocError>
    ensures { IfOk result (λ s. string_bytes s ≡ number_text token.now most) }
{
    let token = Part::Quoted(Quote(token));
    match most {
        u32::MAX => fill(alloc, ABOVE_ALL, &[token]),
        _ => fill(alloc, ABOVE, &[token, Part::Number(most)]),
    }
}

// Of a byte that begins no token: what is to be known, or a sign that the language does not have, or the byte.
fn byte_told(alloc: Global, found: &Found<'_>) -> Result<TextTold, AllocError>
    ensures { IfOk result (λ t. said_of t ≡ byte_said (place_of found.now)) }
{
    if let Some(hint) = byte_hint(found) {
        let sentence = other_byte_told(alloc, found.rest)?;
        return told(alloc, Some(sentence), Some(hint));
    }
    match found.absent_sign() {
        Some(absent) => told(alloc, None, Some(absent_hint(absent))),
        None => plain(alloc, other_byte_told(alloc, found.rest)?),
    }
}

fn other_byte_told(alloc: Global, rest: &[u8]) -> Result<String, AllocError>
    ensures { IfOk result (λ s. string_bytes s ≡ other_byte_text rest.now) }
{
    let (byte, character) = (first_byte(rest), character(rest));
    if character.is_empty() {
        fill(alloc, BYTE, &[Part::Number(u32::from(byte))])
    } else {
        fill(alloc, CHARACTER, &[Part::Quoted(Quote(character))])
    }
}

#[tactic(auto, unfolding(crate::specs::Sentence::unexpected))]
fn unexpected(alloc: Global, found: &Found<'_>) -> Result<TextTold, AllocError>
    ensures { IfOk result (λ t. said_of t ≡ unexpected (place_of found.now)) }
{
    if let Some(own) = own_sentence(found) {
        return told(alloc, None, Some(own));
    }
    let sentence = expected_told(alloc, found.word, found.expected)?;
    told(alloc, Some(sentence), unexpected_hint(found))
}

#[tactic(auto, unfolding(crate::specs::Sentence::expected_sentence))]
fn expected_told(alloc: Global, token: &[u8], noted: Choices) -> Result<String, AllocError>
    ensures { IfOk result (λ s. string_bytes s ≡ expected_sentence token.now noted) }
{
    let list = expected_list(alloc, noted)?;
    fill(
        alloc,
        EXPECTED,
        &[what_stands(token), Part::Word(list.as_str())],
    )
}

fn what_stands(token: &[u8]) -> Part<'_>
    ensures { part_text result ≡ found_text token.now }
{
    match token {
        [] => Part::Word(END),
        [_, ..] => Part::Quoted(Quote(token)),
    }
}

// Of a call, where its procedure is known.
fn arguments_told(
    alloc: Global,
    token: &[u8],
    procedure: Option<&[u8]>,
    wanted: usize,
) -> Result<TextTold, AllocError>
    ensures { IfOk result (λ t. said_of t ≡ arguments_said token.now (option_map (λ n. n.now) procedure.entry) wanted) }
{
    match procedure {
        Some(procedure) => found_told(alloc, token, Some(takes(procedure, wanted))),
        None => found_told(alloc, token, None),
    }
}

fn found_told(alloc: Global, token: &[u8], hint: Option<Hint<'_>>) -> Result<TextTold, AllocError>
    ensures { IfOk result (λ t. said_of t ≡ found_said token.now (option_map hint_text hint.entry)) }
{
    told(
        alloc,
        Some(fill(alloc, FOUND, &[what_stands(token)])?),
        hint,
    )
}

#[tactic(auto, unfolding(crate::specs::Sentence::taken))]
fn taken(alloc: Global, found: &Found<'_>, by: NameKind) -> Result<TextTold, AllocError>
    ensures { IfOk result (λ t. said_of t ≡ taken (place_of found.now) by) }
{
    let sentence = taken_told(alloc, found.word, found.declared_line(), by)?;
    told(alloc, Some(sentence), taken_hint(found))
}

fn taken_hint<'a>(found: &'a Found<'_>) -> Option<Hint<'a>>
    ensures { option_map hint_text result ≡ or_else (outside_of_bodies (place_of found.now)) (word_before (place_of found.now)) }
{
    match outside_of_bodies(found) {
        Some(told) => Some(Hint::Told(told)),
        None => word_before(found),
    }
}

fn taken_told(
    alloc: Global,
    name: &[u8],
    line: Option<u32>,
    by: NameKind,
) -> Result<String, AllocError>
    ensures { IfOk result (λ s. string_bytes s ≡ taken_text name.now line by) }
{
    let (name, kind) = (Part::Quoted(Quote(name)), Part::Word(noun(by)));
    match line {
        Some(line) => fill(alloc, TAKEN_AT, &[name, Part::Number(line), kind]),
        None => fill(alloc, TAKEN, &[name, kind]),
    }
}

fn undeclared(
    alloc: Global,
    found: &Found<'_>,
    wanted: NameKind,
    what: camac_text::Found,
) -> Result<TextTold, AllocError>
    ensures { IfOk result (λ t. said_of t ≡ undeclared (place_of found.now) wanted what) }
{
    match what {
        camac_text::Found::Nothing => not_there(alloc, found, wanted),
        camac_text::Found::Other(kind) => other_kind(alloc, found, wanted, kind),
        camac_text::Found::Itself => of_word(alloc, ITSELF, found.word),
        camac_text::Found::Hidden => of_word(alloc, HIDDEN, found.word),
    }
}

// Of a name that is declared as another kind.
#[tactic(auto, unfolding(crate::specs::Sentence::other_kind))]
fn other_kind(
    alloc: Global,
    found: &Found<'_>,
    wanted: NameKind,
    kind: NameKind,
) -> Result<TextTold, AllocError>
    ensures { IfOk result (λ t. said_of t ≡ other_kind (place_of found.now) wanted kind) }
{
    let line = found.declared_line();
    let sentence = other_told(alloc, found.word, line, wanted, kind)?;
    told(alloc, Some(sentence), kind_hint(found, wanted, kind))
}

fn other_told(
    alloc: Global,
    name: &[u8],
    line: Option<u32>,
    wanted: NameKind,
    kind: NameKind,
) -> Result<String, AllocError>
    ensures { IfOk result (λ s. string_bytes s ≡ other_text name.now line wanted kind) }
{
    let (is, needed) = (Part::Word(noun(kind)), Part::Word(noun(wanted)));
    let name = Part::Quoted(Quote(name));
    match line {
        Some(line) => fill(alloc, OTHER_AT, &[name, Part::Number(line), is, needed]),
        None => fill(alloc, OTHER, &[name, is, needed]),
    }
}

#[tactic(auto, unfolding(crate::specs::Sentence::not_there))]
fn not_there(alloc: Global, found: &Found<'_>, wanted: NameKind) -> Result<TextTold, AllocError>
    ensures { IfOk result (λ t. said_of t ≡ not_there (place_of found.now) wanted) }
{
    if let Some(absent) = absent_variable(found, wanted) {
        return told(alloc, None, Some(absent_hint(absent)));
    }
    let name = Part::Quoted(Quote(found.word));
    let sentence = fill(alloc, MISSING, &[name, Part::Word(noun(wanted))])?;
    told(alloc, Some(sentence), name_hint(found, wanted))
}

fn absent_variable<'a>(found: &'a Found<'_>, wanted: NameKind) -> Option<Absent<'a>>
    ensures { option_map absent_of result ≡ absent_variable (place_of found.now) wanted }
{
    if wanted == NameKind::Variable && is_of_another_language(found) {
        found.absent_word()
    } else {
        None
    }
}

// Whether a word stands as in another language, and is no name of a variable that is not declared: it begins a statement that is no
// assignment, or is called, or is a value.
fn is_of_another_language(found: &Found<'_>) -> bool
    ensures { result ≡ is_of_another_language (place_of found.now) }
{
    is_value(found.word)
        || found.is_before(b"(")
        || (found.begins_statement() && !found.is_assigned())
}

// Whether a word is a value of another language.
fn is_value(word: &[u8]) -> bool
    ensures { result ≡ is_value word.now }
{
    is_same_word("true", word)
        || is_same_word("false", word)
        || is_same_word("none", word)
        || is_same_word("null", word)
        || is_same_word("nil", word)
}

// What a name of a kind is called.
fn noun(kind: NameKind) -> &'static str
    ensures { result.now ≡ noun kind }
{
    match kind {
        NameKind::Lam => "LAM",
        NameKind::Parameter => "parameter",
        NameKind::Procedure => "procedure",
        NameKind::Register => "register",
        NameKind::Table => "table",
        NameKind::Variable => "variable",
    }
}
