// What is to be known of a byte that begins no token.

ghost use Rattle.std.specs.Prelude.{◌≡◌, None, Some, if◌then◌else◌, is_none, nat_eq, option_copied, option_map, slice_get};
ghost use Rattle.std.specs.List.{starts_with};
ghost use Rattle.camac_tokens.specs.declared.token.TokenKind.TheVariants as kind;
ghost use Rattle.camac_explain_text.specs.Byte.{byte_hint, foreign, foreign_in, is_uncalled, method, told_of_byte};
ghost use Rattle.camac_explain_text.specs.Hint.{absent_text, hint_text};
ghost use Rattle.camac_explain_text.specs.declared.texts.TheConstants.{FORM};
ghost use Rattle.camac_explain_text_place.specs.Before.{declared, standing_of};
ghost use Rattle.camac_explain_text_place.specs.Place.{place_of};
ghost use Rattle.camac_explain_text_words.specs.Absent.{absent_word};
ghost use Rattle.camac_explain_text_words.specs.Forms.{form_of};
ghost use Rattle.camac_sentence.specs.Filled.{with};

use crate::hint::{Hint, absent_hint};
use crate::texts::{BYTE_ORDER, DIGITS, FIRST_LETTER, FORM};
use camac_explain_text_place::{Before, Found, word_at};
use camac_explain_text_words::{absent_word, behind, form_of};
use camac_sentence::Part;
use camac_text::{Token, TokenKind};
use camac_tokens::{Keyword, Sign, are_same};

/// The first word before the byte, in its line, that another language has there; or what the byte is part of.
#[tactic(auto, unfolding(crate::specs::Byte::byte_hint))]
pub fn byte_hint<'a>(found: &'a Found<'_>) -> Option<Hint<'a>>
    ensures { option_map hint_text result ≡ byte_hint (place_of found.now) }
{
    if let Some(hint) = foreign_in(&found.before, &found.line) {
        return Some(hint);
    }
    if let Some(hint) = method(found) {
        return Some(hint);
    }
    match told_of_byte(found) {
        Some(told) => Some(Hint::Told(told)),
        None => None,
    }
}

fn foreign_in<'a>(before: &Before, tokens: &'a [Token]) -> Option<Hint<'a>>
    ensures { option_map hint_text result ≡ foreign_in (standing_of before.now) tokens.now }
{
    let mut rest = tokens;
    while let [token, after @ ..] = rest {
        if let Some(hint) = foreign(before, &token.kind, first_kind(after)) {
            return Some(hint);
        }
        rest = after;
    }
    None
}

fn first_kind(tokens: &[Token]) -> Option<&TokenKind>
    ensures { option_copied result ≡ option_map (λ t. t.kind) (slice_get tokens.now 0) }
{
    match tokens {
        [token, ..] => Some(&token.kind),
        [] => None,
    }
}

// A word of another language that is not declared, or one of the language that is called as there.
fn foreign<'a>(before: &Before, kind: &'a TokenKind, next: Option<&TokenKind>) -> Option<Hint<'a>>
    ensures { option_map hint_text result ≡ foreign (standing_of before.now) kind.now (option_copied next.entry) }
{
    match (kind, next) {
        (TokenKind::Name(name), _) => free_word(before, name.as_bytes()),
        (TokenKind::Keyword(word), Some(TokenKind::Sign(Sign::LeftBracket)))
            if is_uncalled(*word) => form_of_word(*word),
        _ => None,
    }
}

fn free_word<'a>(before: &Before, word: &'a [u8]) -> Option<Hint<'a>>
    ensures { option_map hint_text result ≡ (if is_none (declared word.now (standing_of before.now)) then option_map absent_text (absent_word word.now) else None) }
{
    match before.declared(word) {
        Some(_) => None,
        None => foreign_word(word),
    }
}

fn foreign_word(word: &[u8]) -> Option<Hint<'_>>
    ensures { option_map hint_text result ≡ option_map absent_text (absent_word word.now) }
{
    match absent_word(word) {
        Some(absent) => Some(absent_hint(absent)),
        None => None,
    }
}

fn form_of_word(word: Keyword) -> Option<Hint<'static>>
    ensures { option_map hint_text result ≡ option_map (with FORM.now) (form_of word) }
{
    match form_of(word) {
        Some(form) => Some(Hint::One(FORM, Part::Word(form))),
        None => None,
    }
}

// Whether no bracket stands behind a word.
fn is_uncalled(word: Keyword) -> bool
    ensures { result ≡ is_uncalled (Some (kind.Keyword word)) }
{
    use Keyword::{Cclc, Cclm, Cdreg, Cfmad, Cfsa, Cfubc, Cfubr, Cssa, Ctlm, For, Service};
    match word {
        Cfsa | Cssa | Cfubc | Cfubr | Cfmad => true,
        Service | Cclm | Cclc | Ctlm => true,
        Cdreg | For => true,
        _ => false,
    }
}

// A word of another language behind a point, as `append` in `words.append(v)`.
fn method<'a>(found: &'a Found<'_>) -> Option<Hint<'a>>
    ensures { option_map hint_text result ≡ method (place_of found.now) }
{
    match found.absent_sign() {
        Some(sign) if are_same(sign.spelled, b".") => foreign_word(word_at(behind(found.rest, 1))),
        _ => None,
    }
}

#[tactic(auto, unfolding(crate::specs::Byte::told_of_byte))]
fn told_of_byte(found: &Found<'_>) -> Option<&'static str>
    ensures { option_map (λ s. s.now) result ≡ told_of_byte (place_of found.now) }
{
    if found.adjoins_word() && (begins_with(found, b"_") || begins_with(found, b"'")) {
        return Some(DIGITS);
    }
    if begins_with(found, &[0xEF, 0xBB, 0xBF]) {
        return Some(BYTE_ORDER);
    }
    if begins_with(found, b"_") {
        return Some(FIRST_LETTER);
    }
    None
}

fn begins_with(found: &Found<'_>, bytes: &[u8]) -> bool
    ensures { result ≡ starts_with nat_eq found.now.rest.now bytes.now }
{
    found.rest.starts_with(bytes)
}
