// A number behind a `#`, which begins a comment.

ghost use Rattle.std.specs.Prelude.{◌≡◌, length, take_while};
ghost use Rattle.std.specs.Char.{is_ascii_hexdigit};
ghost use Rattle.camac_explain_text.specs.Mistake.{ends_in_marked_number, is_number_alone};

use camac_explain_text_place::kind_at;
use camac_explain_text_words::behind;

/// Whether a text ends in a `#` and hexadecimal digits.
pub fn ends_in_marked_number(text: &[u8]) -> bool
    ensures { result ≡ ends_in_marked_number text.now }
{
    let mut rest = text;
    while let [byte, after @ ..] = rest {
        if *byte == b'#' && is_number_alone(after) {
            return true;
        }
        rest = after;
    }
    false
}

fn is_number_alone(text: &[u8]) -> bool
    ensures { result ≡ is_number_alone text.now }
{
    let digits = digits_length(text);
    match kind_at(behind(text, digits)) {
        None => digits > 0,
        Some(_) => false,
    }
}

fn digits_length(text: &[u8]) -> usize
    ensures { result ≡ length (take_while is_ascii_hexdigit text.now) }
{
    text.iter().take_while(|b| b.is_ascii_hexdigit()).count()
}
