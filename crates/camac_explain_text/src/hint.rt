// What may be meant where a text is refused.

ghost use Rattle.std.specs.Prelude.{◌≡◌, IfOk, Some, None, option_copied, option_map, string_bytes, if◌then◌else◌};
ghost use Rattle.camac_lines.specs.Words.{is_near, shown_text};
ghost use Rattle.camac_tokens.specs.declared.token.Keyword.TheVariants as keyword;
ghost use Rattle.camac_text_cursor.specs.declared.choice.Choice.TheVariants as choice;
ghost use Rattle.camac_explain_text_place.specs.Before.{standing_of};
ghost use Rattle.camac_explain_text.specs.Hint.{absent_text, hint_text, no_arrow_text, takes_text};
ghost use Rattle.camac_explain_text.specs.Meant.{arguments, arguments_of_call, arrow_before_number, arrow_before_value, decimal_digits, fits, form_at, from_end, if_expected, kind_hint, meant_by_name, meant_by_sign, missing_arrow, name_hint, near_among, near_beginning, near_each, near_fitting, near_named, near_word, of_two_before, open_block, taken_for, unexpected_hint, word_before, word_before_beginning};
ghost use Rattle.camac_explain_text.specs.Mistake.{is_either};
ghost use Rattle.camac_explain_text.specs.declared.texts.TheConstants.{FORM, MEANT};
ghost use Rattle.camac_explain_text_place.specs.Place.{expects, place_of};
ghost use Rattle.camac_explain_text_words.specs.Absent.{absent_of};
ghost use Rattle.camac_explain_text_words.specs.Spelled.{word_text};
ghost use Rattle.camac_sentence.specs.Filled.{with};

use crate::marked::ends_in_marked_number;
use crate::mistake::{told_of_kind, usual_mistake};
use crate::texts::{
    ABSENT, ADDRESS, BRACKETS, CALLED, DIGITS, FORM, MARKED, MEANT, MEANT_BEFORE, MEANT_NAME,
    NO_ARROW, NO_RESULT, NO_STATEMENT, OPEN, TAKES, TAKES_ONE, TESTED,
};
use camac_explain_text_place::{Before, Found};
use camac_explain_text_words::{ASSIGNMENT, Absent, form_of, is_hexadecimal, sign_text, word_text};
use camac_lines::{Quote, is_near};
use camac_sentence::{Part, fill};
use camac_text::{Choice, NameKind, TokenKind};
use camac_tokens::{KEYWORDS, Keyword, Sign};
use std::alloc::{AllocError, Global};

/// What may be meant, or what is to be known: a text, and what stands in its gaps.
#[derive(Clone, Copy)]
pub enum Hint<'a> {
    Told(&'static str),
    One(&'static str, Part<'a>),
    Two(&'static str, Part<'a>, Part<'a>),
    Three(&'static str, Part<'a>, Part<'a>, Part<'a>),
}

impl Hint<'_> {
    /// In words.
    pub fn told(self, alloc: Global) -> Result<String, AllocError>
        ensures { IfOk result (λ s. string_bytes s ≡ hint_text self.entry) }
    {
        match self {
            Hint::Told(text) => String::from_str(alloc, text),
            Hint::One(text, a) => fill(alloc, text, &[a]),
            Hint::Two(text, a, b) => fill(alloc, text, &[a, b]),
            Hint::Three(text, a, b, c) => fill(alloc, text, &[a, b, c]),
        }
    }
}

/// How many arguments a procedure takes.
pub fn takes(procedure: &[u8], count: usize) -> Hint<'_>
    ensures { hint_text result ≡ takes_text procedure.now count }
{
    let procedure = Part::Quoted(Quote(procedure));
    match count {
        1 => Hint::One(TAKES_ONE, procedure),
        _ => Hint::Two(TAKES, procedure, Part::Count(count)),
    }
}

/// What the language does not have.
pub fn absent_hint(absent: Absent<'_>) -> Hint<'_>
    ensures { hint_text result ≡ absent_text (absent_of absent.entry) }
{
    let Absent { spelled, write } = absent;
    Hint::Two(ABSENT, Part::Quoted(Quote(spelled)), Part::Word(write))
}

// With the name of a declaration.
fn of_name<'a>(text: &'static str, name: &'a [u8]) -> Hint<'a>
    ensures { hint_text result ≡ with text.now (shown_text name.now) }
{
    Hint::One(text, Part::Name(name))
}

// A word or a sign of the language.
fn meant(word: &'static str) -> Hint<'static>
    ensures { hint_text result ≡ with MEANT.now word.now }
{
    Hint::One(MEANT, Part::Word(word))
}

// Before a name or a number, the arrow of a cycle.
fn no_arrow(value: &[u8]) -> Hint<'_>
    ensures { hint_text result ≡ no_arrow_text value.now }
{
    let value = Part::Name(value);
    Hint::Three(NO_ARROW, value, value, value)
}

/// What may be meant by a token that may not stand where it is, but for a word that is near, which may.
#[tactic(auto, unfolding(crate::specs::Meant::unexpected_hint))]
pub fn unexpected_hint<'a>(found: &'a Found<'_>) -> Option<Hint<'a>>
    ensures { option_map hint_text result ≡ unexpected_hint (place_of found.now) }
{
    if let Some(sign) = meant_by_sign(found) {
        return Some(meant(sign));
    }
    if let Some(told) = decimal_digits(found) {
        return Some(Hint::Told(told));
    }
    if let Some(hint) = missing_arrow(found) {
        return Some(hint);
    }
    if let Some(told) = usual_mistake(found) {
        return Some(Hint::Told(told));
    }
    if let Some(word) = near_word(found) {
        return Some(meant(word));
    }
    if let Some(hint) = word_before_beginning(found) {
        return Some(hint);
    }
    if let Some(hint) = arguments(found) {
        return Some(hint);
    }
    if let Some(hint) = open_block(found) {
        return Some(hint);
    }
    form_hint(found)
}

/// What may be meant by a name that is not declared: the near word of the language, which may stand there, else the near name.
#[tactic(auto, unfolding(crate::specs::Meant::name_hint))]
pub fn name_hint<'a>(found: &'a Found<'_>, wanted: NameKind) -> Option<Hint<'a>>
    ensures { option_map hint_text result ≡ name_hint (place_of found.now) wanted }
{
    if let Some(told) = decimal_digits(found) {
        return Some(Hint::Told(told));
    }
    if let Some(word) = near_word(found) {
        return Some(meant(word));
    }
    if let Some(near) = found.before.near(found.word, wanted) {
        return Some(Hint::One(MEANT_NAME, Part::Quoted(Quote(near.name.as_bytes()))));
    }
    if wanted == NameKind::Variable && found.is_before(b"(") {
        return Some(of_name(CALLED, found.word));
    }
    if wanted == NameKind::Variable && !found.is_assigned() && is_hexadecimal(found.word) {
        return Some(Hint::Told(DIGITS));
    }
    if found.begins_line() && found.begins_statement() && found.is_before_name() {
        return Some(Hint::Told(NO_STATEMENT));
    }
    None
}

fn word_before_beginning<'a>(found: &'a Found<'_>) -> Option<Hint<'a>>
    ensures { option_map hint_text result ≡ word_before_beginning (place_of found.now) }
{
    if found.expects(Choice::Declaration) || found.begins_statement() {
        word_before(found)
    } else {
        None
    }
}

/// One of the two words before, which a `var` takes for names, and which is near a word that begins a declaration.
#[tactic(auto, unfolding(crate::specs::Meant::word_before))]
pub fn word_before<'a>(found: &'a Found<'_>) -> Option<Hint<'a>>
    ensures { option_map hint_text result ≡ word_before (place_of found.now) }
{
    if found.before.first_word() == Some(Keyword::Var) {
        of_two_before(&found.before)
    } else {
        None
    }
}

fn of_two_before(before: &Before) -> Option<Hint<'_>>
    ensures { option_map hint_text result ≡ of_two_before (standing_of before.now) }
{
    if let Some(hint) = meant_by_name(from_end(before, 1)) {
        return Some(hint);
    }
    meant_by_name(from_end(before, 2))
}

// The token that stands so many before the end of the phrase, or its first one.
fn from_end(before: &Before, count: usize) -> Option<&TokenKind>
    ensures { option_copied result ≡ from_end count (standing_of before.now) }
{
    before.phrase.get(before.phrase.len().saturating_sub(count))
}

fn meant_by_name(kind: Option<&TokenKind>) -> Option<Hint<'_>>
    ensures { option_map hint_text result ≡ meant_by_name (option_copied kind.entry) }
{
    let Some(TokenKind::Name(name)) = kind else {
        return None;
    };
    let word = name.as_bytes();
    match near_beginning(word) {
        Some(meant) => Some(Hint::Two(MEANT_BEFORE, Part::Word(meant), Part::Quoted(Quote(word)))),
        None => None,
    }
}

// The first word that begins a declaration, and is near a name.
#[tactic(auto, unfolding(crate::specs::Meant::near_beginning))]
fn near_beginning(name: &[u8]) -> Option<&'static str>
    ensures { option_map (λ s. s.now) result ≡ near_beginning name.now }
{
    near_among(name, &KEYWORDS)
}

#[tactic(auto, unfolding(crate::specs::Meant::near_among))]
fn near_among(name: &[u8], words: &[Keyword]) -> Option<&'static str>
    ensures { option_map (λ s. s.now) result ≡ near_among name.now words.now }
{
    'words: for word in words {
        if Choice::Declaration.has_word(*word) && is_near_word(name, *word) {
            return Some(word_text(*word));
        }
    }
    None
}

fn is_near_word(name: &[u8], word: Keyword) -> bool
    ensures { result ≡ is_near name.now (word_text word) }
{
    is_near(name, word_text(word).as_bytes())
}

// The first word of the language that is near a name and may stand in its place.
#[tactic(auto, unfolding(crate::specs::Meant::near_word))]
fn near_word(found: &Found<'_>) -> Option<&'static str>
    ensures { option_map (λ s. s.now) result ≡ near_word (place_of found.now) }
{
    match found.kind {
        Some(TokenKind::Name(_)) => near_named(found),
        _ => None,
    }
}

fn near_named(found: &Found<'_>) -> Option<&'static str>
    ensures { option_map (λ s. s.now) result ≡ near_named (place_of found.now) }
{
    if let Some(word) = near_fitting(found, &KEYWORDS) {
        return Some(word);
    }
    near_each(found)
}

// `each` is no word elsewhere.
fn near_each(found: &Found<'_>) -> Option<&'static str>
    ensures { option_map (λ s. s.now) result ≡ near_each (place_of found.now) }
{
    if found.expects(Choice::Each) && is_near(found.word, b"each") {
        return Some("each");
    }
    None
}

#[tactic(auto, unfolding(crate::specs::Meant::near_fitting))]
fn near_fitting(found: &Found<'_>, words: &[Keyword]) -> Option<&'static str>
    ensures { option_map (λ s. s.now) result ≡ near_fitting (place_of found.now) words.now }
{
    'words: for word in words {
        if fits(found, *word) && is_near_word(found.word, *word) {
            return Some(word_text(*word));
        }
    }
    None
}

fn fits(found: &Found<'_>, word: Keyword) -> bool
    ensures { result ≡ fits (place_of found.now) word }
{
    found.expects(Choice::Word(word))
        || (found.begins_statement() && !found.before.in_procedure && word == Keyword::Lock)
}

// A word right after a number, as in `0x1F`, or a comment where a number may stand, as in `put #ff`.
#[tactic(auto, unfolding(crate::specs::Meant::decimal_digits))]
fn decimal_digits(found: &Found<'_>) -> Option<&'static str>
    ensures { option_map (λ s. s.now) result ≡ decimal_digits (place_of found.now) }
{
    match (&found.kind, found.last()) {
        (Some(TokenKind::Name(_) | TokenKind::Keyword(_)), Some(TokenKind::Number(_)))
            if found.adjoins_word() => { Some(DIGITS) }
        _ if found.expects(Choice::Number) && ends_in_marked_number(found.text) => Some(MARKED),
        _ => None,
    }
}

// A sign that is taken for another one, or for a word, that may stand there.
#[tactic(auto, unfolding(crate::specs::Meant::meant_by_sign))]
fn meant_by_sign(found: &Found<'_>) -> Option<&'static str>
    ensures { option_map (λ s. s.now) result ≡ meant_by_sign (place_of found.now) }
{
    match &found.kind {
        Some(TokenKind::Sign(Sign::UpTo)) => meant_by_range(found),
        Some(TokenKind::Sign(sign)) => if_expected(found, taken_for(found, *sign)),
        _ => None,
    }
}

fn meant_by_range(found: &Found<'_>) -> Option<&'static str>
    ensures { option_map (λ s. s.now) result ≡ (if expects (place_of found.now) (choice.Word keyword.To) then Some (word_text keyword.To) else None) }
{
    if found.expects(Choice::Word(Keyword::To)) {
        Some(word_text(Keyword::To))
    } else {
        None
    }
}

// What a sign is taken for.
fn taken_for(found: &Found<'_>, sign: Sign) -> Option<Sign>
    ensures { result ≡ taken_for (place_of found.now) sign }
{
    match sign {
        Sign::Equals if found.expects(Choice::Comparison) => Some(Sign::Same),
        Sign::Equals => Some(Sign::From),
        Sign::Less => Some(Sign::From),
        Sign::Same => Some(Sign::Equals),
        Sign::More => Some(Sign::Into),
        Sign::Minus => Some(Sign::Into),
        _ => None,
    }
}

fn if_expected(found: &Found<'_>, meant: Option<Sign>) -> Option<&'static str>
    ensures { option_map (λ s. s.now) result ≡ if_expected (place_of found.now) meant }
{
    match meant {
        Some(sign) if found.expects(Choice::Mark(sign)) => Some(sign_text(sign)),
        _ => None,
    }
}

// What stands where the arrow of a cycle is missing: a name that then begins an assignment, or a number.
#[tactic(auto, unfolding(crate::specs::Meant::missing_arrow))]
fn missing_arrow<'a>(found: &'a Found<'_>) -> Option<Hint<'a>>
    ensures { option_map hint_text result ≡ missing_arrow (place_of found.now) }
{
    use TokenKind::{Keyword as Word, Name, Number};
    match found.before.phrase.as_slice() {
        [Word(word), Number(_), Name(_), Name(value)] => {
            arrow_before_value(found, *word, value.as_bytes())
        }
        [Word(word), Number(_), Name(_)] => arrow_before_number(found, *word),
        _ => None,
    }
}

fn arrow_before_value<'a>(found: &Found<'_>, first: Keyword, value: &'a [u8]) -> Option<Hint<'a>>
    ensures { option_map hint_text result ≡ arrow_before_value (place_of found.now) first value.now }
{
    if is_transfer(first) && found.expects(Choice::Mark(Sign::Equals)) {
        Some(no_arrow(value))
    } else {
        None
    }
}

fn arrow_before_number<'a>(found: &'a Found<'_>, first: Keyword) -> Option<Hint<'a>>
    ensures { option_map hint_text result ≡ arrow_before_number (place_of found.now) first }
{
    if is_transfer(first) && matches!(found.kind, Some(TokenKind::Number(_))) {
        Some(no_arrow(found.word))
    } else {
        None
    }
}

fn is_transfer(word: Keyword) -> bool
    ensures { result ≡ is_either keyword.Cfsa keyword.Cssa word }
{
    word == Keyword::Cfsa || word == Keyword::Cssa
}

/// What a procedure, a register or a LAM is for, in the place of a variable.
#[tactic(auto, unfolding(crate::specs::Meant::kind_hint))]
pub fn kind_hint<'a>(found: &'a Found<'_>, wanted: NameKind, kind: NameKind) -> Option<Hint<'a>>
    ensures { option_map hint_text result ≡ kind_hint (place_of found.now) wanted kind }
{
    match (wanted, kind) {
        (NameKind::Variable, NameKind::Procedure) if found.begins_statement() => Some(of_name(
            CALLED, found.word,
        )),
        (NameKind::Variable, NameKind::Procedure) => Some(of_name(NO_RESULT, found.word)),
        (NameKind::Variable, NameKind::Register) => Some(of_name(ADDRESS, found.word)),
        (NameKind::Variable, NameKind::Lam) => Some(of_name(TESTED, found.word)),
        _ => match told_of_kind(wanted, kind) {
            Some(told) => Some(Hint::Told(told)),
            None => None,
        },
    }
}

// How many arguments the procedure of a call takes, unless they are complete.
#[tactic(auto, unfolding(crate::specs::Meant::arguments))]
fn arguments<'a>(found: &'a Found<'_>) -> Option<Hint<'a>>
    ensures { option_map hint_text result ≡ arguments (place_of found.now) }
{
    match found.before.called() {
        Some(procedure) => arguments_of_call(&found.before, procedure),
        None => None,
    }
}

fn arguments_of_call<'a>(before: &Before, procedure: &'a [u8]) -> Option<Hint<'a>>
    ensures { option_map hint_text result ≡ arguments_of_call (standing_of before.now) procedure.now }
{
    if before.phrase.len() == 2 {
        return Some(of_name(BRACKETS, procedure));
    }
    match before.declared(procedure) {
        Some(declared) if before.is_in_brackets() => { Some(takes(procedure, declared.parameters)) }
        _ => None,
    }
}

// The `{` that is open where the text ends.
#[tactic(auto, unfolding(crate::specs::Meant::open_block))]
fn open_block<'a>(found: &'a Found<'_>) -> Option<Hint<'a>>
    ensures { option_map hint_text result ≡ open_block (place_of found.now) }
{
    match found.before.open_line() {
        Some(line) if found.word.is_empty() => Some(Hint::One(OPEN, Part::Number(line))),
        _ => None,
    }
}

fn form_hint<'a>(found: &'a Found<'_>) -> Option<Hint<'a>>
    ensures { option_map hint_text result ≡ option_map (with FORM.now) (form_at (place_of found.now)) }
{
    match form_at(found) {
        Some(form) => Some(Hint::One(FORM, Part::Word(form))),
        None => None,
    }
}

// The form of what is in hand, unless another one may begin.
#[tactic(auto, unfolding(crate::specs::Meant::form_at))]
fn form_at(found: &Found<'_>) -> Option<&'static str>
    ensures { option_map (λ s. s.now) result ≡ form_at (place_of found.now) }
{
    if found.expects(Choice::Mark(Sign::Equals)) && found.before.phrase.len() != 2 {
        return Some(ASSIGNMENT);
    }
    if found.begins_statement() || found.expects(Choice::Declaration) {
        return None;
    }
    match found.before.first_word() {
        Some(word) => form_of(word),
        None => None,
    }
}
