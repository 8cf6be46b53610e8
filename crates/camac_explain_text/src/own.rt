// What takes the place of all that might stand at a place.

ghost use Rattle.std.specs.Prelude.{◌≡◌, option_map};
ghost use Rattle.camac_explain_text.specs.Hint.{hint_text};
ghost use Rattle.camac_explain_text.specs.Meant.{inside, is_name_wanted, is_set, kept_word, own_of_word, own_sentence, sign_of_another};
ghost use Rattle.camac_explain_text.specs.declared.texts.TheConstants.{OF_LANGUAGE};
ghost use Rattle.camac_explain_text_place.specs.Place.{place_of};
ghost use Rattle.camac_explain_text_words.specs.Spelled.{word_text};
ghost use Rattle.camac_sentence.specs.Filled.{with};

use crate::hint::{Hint, absent_hint, word_before};
use crate::texts::{CYCLES_SET, INSIDE, OF_LANGUAGE};
use camac_explain_text_place::Found;
use camac_explain_text_words::word_text;
use camac_sentence::Part;
use camac_text::{Choice, TokenKind, begins_statement};
use camac_tokens::Keyword;

/// A word or a sign of another language, a declaration in a body, a word of the language where a name has to stand.
#[tactic(auto, unfolding(crate::specs::Meant::own_sentence))]
pub fn own_sentence<'a>(found: &'a Found<'_>) -> Option<Hint<'a>>
    ensures { option_map hint_text result ≡ own_sentence (place_of found.now) }
{
    if let Some(absent) = found.absent_word() {
        return Some(absent_hint(absent));
    }
    if let Some(hint) = sign_of_another(found) {
        return Some(hint);
    }
    match found.keyword() {
        Some(word) => own_of_word(found, word),
        None => None,
    }
}

// A sign of the language may begin as one of another, as `..` does.
fn sign_of_another<'a>(found: &'a Found<'_>) -> Option<Hint<'a>>
    ensures { option_map hint_text result ≡ sign_of_another (place_of found.now) found.now.kind }
{
    match (&found.kind, found.absent_sign()) {
        (Some(TokenKind::Sign(_)), Some(absent)) if absent.spelled.len() > 1 => Some(absent_hint(
            absent,
        )),
        _ => None,
    }
}

fn own_of_word<'a>(found: &'a Found<'_>, word: Keyword) -> Option<Hint<'a>>
    ensures { option_map hint_text result ≡ own_of_word (place_of found.now) word }
{
    if let Some(hint) = inside(found, word) {
        return Some(hint);
    }
    kept_word(found, word)
}

#[tactic(auto, unfolding(crate::specs::Meant::inside))]
fn inside<'a>(found: &'a Found<'_>, keyword: Keyword) -> Option<Hint<'a>>
    ensures { option_map hint_text result ≡ inside (place_of found.now) keyword }
{
    let is_declaration = Choice::Declaration.has_word(keyword)
        && (keyword != Keyword::Table || found.begins_line());
    match found.before.open_line() {
        Some(line) if is_declaration => {
            let word = Part::Word(word_text(keyword));
            Some(Hint::Two(INSIDE, word, Part::Number(line)))
        }
        _ => None,
    }
}

// A word of the language where a name has to stand, or before an `=`.
#[tactic(auto, unfolding(crate::specs::Meant::kept_word))]
fn kept_word<'a>(found: &'a Found<'_>, word: Keyword) -> Option<Hint<'a>>
    ensures { option_map hint_text result ≡ kept_word (place_of found.now) word }
{
    if is_name_wanted(found) {
        return Some(of_language(word));
    }
    match word {
        _ if !is_set(found, word) => None,
        Keyword::Q | Keyword::X => Some(Hint::Told(CYCLES_SET)),
        _ => Some(of_language(word)),
    }
}

fn of_language(word: Keyword) -> Hint<'static>
    ensures { hint_text result ≡ with OF_LANGUAGE.now (word_text word) }
{
    Hint::One(OF_LANGUAGE, Part::Word(word_text(word)))
}

fn is_name_wanted(found: &Found<'_>) -> bool
    ensures { result ≡ is_name_wanted (place_of found.now) }
{
    found.before.wants_new_name() && !found.begins_line() && word_before(found).is_none()
}

fn is_set(found: &Found<'_>, word: Keyword) -> bool
    ensures { result ≡ is_set (place_of found.now) word }
{
    found.is_assigned() && !begins_statement(word)
}
