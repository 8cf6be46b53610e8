// How words, signs and numbers are spelled.

ghost use Rattle.std.specs.Prelude.{◌≡◌, length, take_while};
ghost use Rattle.camac_explain_text_words.specs.Spelled.{is_hexadecimal, is_hexadecimal_digit, sign_text, word_text};

use crate::absent::is_same_word;
use crate::parts::behind;
use camac_tokens::{Keyword, Sign};

#[tactic(auto, using(crate::proofs::Spellings::of_word))]
pub fn word_text(word: Keyword) -> &'static str
    ensures { result.now ≡ word_text word }
{
    word.spelling()
}

#[tactic(auto, using(crate::proofs::Spellings::of_sign))]
pub fn sign_text(sign: Sign) -> &'static str
    ensures { result.now ≡ sign_text sign }
{
    sign.spelling()
}

/// Whether a word is a number in other languages: hexadecimal digits, and then an `h`.
pub fn is_hexadecimal(word: &[u8]) -> bool
    ensures { result ≡ is_hexadecimal word.now }
{
    let digits = digits_length(word);
    digits > 0 && is_same_word("h", behind(word, digits))
}

fn digits_length(word: &[u8]) -> usize
    ensures { result ≡ length (take_while is_hexadecimal_digit word.now) }
{
    word.iter()
        .take_while(|b| is_hexadecimal_digit(**b))
        .count()
}

fn is_hexadecimal_digit(byte: u8) -> bool
    ensures { result ≡ is_hexadecimal_digit byte }
{
    byte.is_ascii_digit() || (b'A' <= byte && byte <= b'F') || (b'a' <= byte && byte <= b'f')
}
