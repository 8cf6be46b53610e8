// Mistakes that are made often.

ghost use Rattle.std.specs.Prelude.{◌≡◌, option_copied, option_map};
ghost use Rattle.camac_explain_text_place.specs.Before.{first_of, word_of};
ghost use Rattle.camac_explain_text.specs.Mistake.{begins_action, compares_or_sets, ends_expression, is_of_condition, joins_comparisons, mistake_after, mistake_after_value, mistake_after_word, mistake_at, mistake_for_value, mistake_in, mistaken_condition, mistaken_sign, of_both, outside_of_bodies, told_of_kind, usual_mistake};
ghost use Rattle.camac_explain_text_place.specs.Place.{last, place_of};

use crate::texts::{
    AFTER_ELSE, AFTER_INTO, AFTER_NOT, ANSWER, BEFORE_EACH, BEGINS_AS_0, COMPARES, DIVISOR,
    FLAG_ALONE, JOINED, NAME_LAM, NAMES_APART, NO_BRACKETS, NO_CALL, NO_DASH, NO_NUMBER,
    NONE_BELOW_0, ONE_READ, ONE_VALUE, OUTSIDE, REPEATED, SET_REGISTER, TABLE_READ, TWO_SIDES,
    WORDS_APART,
};
use camac_explain_text_place::{Found, is_name, is_operator};
use camac_text::{Choice, NameKind, TokenKind, begins_statement};
use camac_tokens::{Keyword, Sign, are_same};

/// What is to be known of a name of one kind in the place of another.
pub fn told_of_kind(wanted: NameKind, found: NameKind) -> Option<&'static str>
    ensures { option_map (λ s. s.now) result ≡ told_of_kind wanted found }
{
    match (wanted, found) {
        (NameKind::Variable, NameKind::Table) => Some(TABLE_READ),
        (NameKind::Register, _) => Some(SET_REGISTER),
        (NameKind::Lam, _) => Some(NAME_LAM),
        _ => None,
    }
}

/// Of a statement that stands outside of services and procedures.
#[tactic(auto, unfolding(crate::specs::Mistake::outside_of_bodies))]
pub fn outside_of_bodies(found: &Found<'_>) -> Option<&'static str>
    ensures { option_map (λ s. s.now) result ≡ outside_of_bodies (place_of found.now) }
{
    if begins_action(found) && !found.before.in_body() {
        return Some(OUTSIDE);
    }
    None
}

fn begins_action(found: &Found<'_>) -> bool
    ensures { result ≡ begins_action (place_of found.now) found.now.kind }
{
    match &found.kind {
        Some(TokenKind::Keyword(word)) => begins_statement(*word),
        Some(TokenKind::Name(_)) => found.is_assigned(),
        _ => false,
    }
}

/// What is to be known where a token may not stand.
#[tactic(auto, unfolding(crate::specs::Mistake::usual_mistake))]
pub fn usual_mistake(found: &Found<'_>) -> Option<&'static str>
    ensures { option_map (λ s. s.now) result ≡ usual_mistake (place_of found.now) }
{
    if let Some(told) = outside_of_bodies(found) {
        return Some(told);
    }
    if let Some(told) = told_at(found) {
        return Some(told);
    }
    if let Some(told) = told_after(found) {
        return Some(told);
    }
    told_in(found)
}

fn told_at(found: &Found<'_>) -> Option<&'static str>
    ensures { option_map (λ s. s.now) result ≡ of_both (mistake_at (place_of found.now)) (word_of (first_of (place_of found.now).before)) found.now.kind }
{
    match (found.before.first_word(), &found.kind) {
        (Some(first), Some(kind)) => mistake_at(found, first, kind),
        _ => None,
    }
}

fn told_after(found: &Found<'_>) -> Option<&'static str>
    ensures { option_map (λ s. s.now) result ≡ of_both (mistake_after (place_of found.now)) (last (place_of found.now)) found.now.kind }
{
    match (found.last(), &found.kind) {
        (Some(last), Some(kind)) => mistake_after(found, last, kind),
        _ => None,
    }
}

fn told_in(found: &Found<'_>) -> Option<&'static str>
    ensures { option_map (λ s. s.now) result ≡ of_both (mistake_in (place_of found.now)) (word_of (first_of (place_of found.now).before)) found.now.kind }
{
    match (found.before.first_word(), &found.kind) {
        (Some(first), Some(kind)) => mistake_in(found, first, kind),
        _ => None,
    }
}

// What is wrong with a token in a declaration or a statement of this kind.
fn mistake_at(found: &Found<'_>, first: Keyword, kind: &TokenKind) -> Option<&'static str>
    ensures { option_map (λ s. s.now) result ≡ mistake_at (place_of found.now) first kind.now }
{
    if let Some(told) = mistaken_sign(found, first, kind) {
        return Some(told);
    }
    mistaken_condition(found, first, kind)
}

#[tactic(auto, unfolding(crate::specs::Mistake::mistaken_sign))]
fn mistaken_sign(found: &Found<'_>, first: Keyword, kind: &TokenKind) -> Option<&'static str>
    ensures { option_map (λ s. s.now) result ≡ mistaken_sign (place_of found.now) first kind.now }
{
    let TokenKind::Sign(sign) = kind else {
        return None;
    };
    match (first, *sign) {
        (Keyword::Var, Sign::Comma) => Some(NAMES_APART),
        (Keyword::Var, Sign::Equals) => Some(BEGINS_AS_0),
        (Keyword::Table, Sign::Comma) => Some(WORDS_APART),
        (Keyword::Put, Sign::Comma) => Some(ONE_VALUE),
        (Keyword::Cfsa | Keyword::Cssa, Sign::Comma) if found.begins_statement() => Some(ONE_READ),
        _ => None,
    }
}

#[tactic(auto, unfolding(crate::specs::Mistake::mistaken_condition))]
fn mistaken_condition(found: &Found<'_>, first: Keyword, kind: &TokenKind) -> Option<&'static str>
    ensures { option_map (λ s. s.now) result ≡ mistaken_condition (place_of found.now) first kind.now }
{
    use TokenKind::{Keyword as Word, Sign as Mark};
    match (first, kind) {
        (Keyword::For, TokenKind::Name(name)) if are_same(name.as_bytes(), b"each") => Some(
            BEFORE_EACH,
        ),
        (Keyword::If | Keyword::While, Word(Keyword::In)) => Some(TWO_SIDES),
        (Keyword::If | Keyword::While, Mark(Sign::LeftBrace))
            if found.expects(Choice::Comparison) => Some(COMPARES),
        _ if joins_comparisons(found, kind) => Some(JOINED),
        _ => None,
    }
}

// Whether a token compares once more what was compared.
fn joins_comparisons(found: &Found<'_>, kind: &TokenKind) -> bool
    ensures { result ≡ joins_comparisons (place_of found.now) kind.now }
{
    match kind {
        TokenKind::Sign(sign) => {
            Choice::Comparison.has_sign(*sign)
                && found.expects(Choice::Word(Keyword::And))
                && ends_expression(found.last())
        }
        _ => false,
    }
}

// Whether a token ends an expression.
fn ends_expression(kind: Option<&TokenKind>) -> bool
    ensures { result ≡ ends_expression (option_copied kind.entry) }
{
    matches!(
        kind,
        Some(TokenKind::Name(_) | TokenKind::Number(_) | TokenKind::Sign(Sign::RightBracket))
    )
}

fn compares_or_sets(kind: &TokenKind) -> bool
    ensures { result ≡ compares_or_sets (Some kind.now) }
{
    match kind {
        TokenKind::Sign(sign) => Choice::Comparison.has_sign(*sign) || *sign == Sign::Equals,
        _ => false,
    }
}

// What is wrong with a token after the one before.
fn mistake_after(found: &Found<'_>, before: &TokenKind, kind: &TokenKind) -> Option<&'static str>
    ensures { option_map (λ s. s.now) result ≡ mistake_after (place_of found.now) before.now kind.now }
{
    if let Some(told) = mistake_after_value(found, before, kind) {
        return Some(told);
    }
    if let Some(told) = mistake_after_word(before, kind) {
        return Some(told);
    }
    mistake_for_value(found, before, kind)
}

#[tactic(auto, unfolding(crate::specs::Mistake::mistake_after_value))]
fn mistake_after_value(
    found: &Found<'_>,
    before: &TokenKind,
    kind: &TokenKind,
) -> Option<&'static str>
    ensures { option_map (λ s. s.now) result ≡ mistake_after_value (place_of found.now) before.now kind.now }
{
    use TokenKind::{Keyword as Word, Name, Sign as Mark};
    match (before, kind) {
        (Name(_), Mark(Sign::Minus)) if found.adjoins_word() => Some(NO_DASH),
        (Name(_), Mark(sign)) if is_operator(*sign) && found.expects(Choice::Mark(Sign::Equals)) =>
            Some(REPEATED),
        (Word(Keyword::Q | Keyword::X), _) if compares_or_sets(kind) => Some(FLAG_ALONE),
        _ => None,
    }
}

#[tactic(auto, unfolding(crate::specs::Mistake::mistake_after_word))]
fn mistake_after_word(before: &TokenKind, kind: &TokenKind) -> Option<&'static str>
    ensures { option_map (λ s. s.now) result ≡ mistake_after_word before.now kind.now }
{
    use TokenKind::Keyword as Word;
    match (before, kind) {
        (Word(Keyword::Call), Word(word)) if begins_statement(*word) => Some(NO_CALL),
        (Word(Keyword::Not), Word(Keyword::Not)) => Some(AFTER_NOT),
        (Word(Keyword::Else), Word(Keyword::If)) => Some(AFTER_ELSE),
        _ => None,
    }
}

#[tactic(auto, unfolding(crate::specs::Mistake::mistake_for_value))]
fn mistake_for_value(
    found: &Found<'_>,
    before: &TokenKind,
    kind: &TokenKind,
) -> Option<&'static str>
    ensures { option_map (λ s. s.now) result ≡ mistake_for_value (place_of found.now) before.now kind.now }
{
    use TokenKind::{Keyword as Word, Sign as Mark};
    match (before, kind) {
        (Mark(Sign::Into), _) => Some(AFTER_INTO),
        (Mark(Sign::Over | Sign::Modulo), _) => Some(DIVISOR),
        (_, Mark(Sign::Minus)) if found.expects(Choice::Number) => Some(NONE_BELOW_0),
        (_, Word(Keyword::Q | Keyword::X))
            if found.expects(Choice::Number) && !found.before.is_in_brackets() => Some(NO_NUMBER),
        _ => None,
    }
}

// What is wrong with a token in a declaration or a statement.
#[tactic(auto, unfolding(crate::specs::Mistake::mistake_in))]
fn mistake_in(found: &Found<'_>, first: Keyword, kind: &TokenKind) -> Option<&'static str>
    ensures { option_map (λ s. s.now) result ≡ mistake_in (place_of found.now) first kind.now }
{
    match (first, kind) {
        (Keyword::If | Keyword::While, _)
            if is_of_condition(kind) && found.before.is_in_brackets() => Some(NO_BRACKETS),
        (
            Keyword::Ctlm | Keyword::Ctci | Keyword::Ctcd | Keyword::Ctgl,
            TokenKind::Sign(Sign::Into),
        ) => Some(ANSWER),
        _ if !is_name(found.expected) => None,
        _ => match found.needed() {
            NameKind::Register => Some(SET_REGISTER),
            NameKind::Lam => Some(NAME_LAM),
            _ => None,
        },
    }
}

fn is_of_condition(kind: &TokenKind) -> bool
    ensures { result ≡ is_of_condition kind.now }
{
    match kind {
        TokenKind::Sign(sign) => Choice::Comparison.has_sign(*sign),
        TokenKind::Keyword(Keyword::And | Keyword::Not | Keyword::Q | Keyword::X) => true,
        _ => false,
    }
}
