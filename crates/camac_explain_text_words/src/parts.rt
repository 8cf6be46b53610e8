// The character with which a text begins, and other parts of it.

ghost use Rattle.std.specs.Prelude.{◌≡◌, drop, take};
ghost use Rattle.std.specs.Str.{is_utf8};
ghost use Rattle.camac_explain_text_words.specs.Spelled.{character, character_size, first_byte, or_empty};

/// The byte with which a text begins; 0 where there is none.
pub fn first_byte(text: &[u8]) -> u8
    ensures { result ≡ first_byte text.now }
{
    match text {
        [byte, ..] => *byte,
        [] => 0,
    }
}

/// The bytes of the character with which a text begins, where it is one that can be shown.
pub fn character(text: &[u8]) -> &[u8]
    ensures { result.now ≡ character text.now }
{
    or_empty(prefix(text, character_size(first_byte(text))))
}

// Bytes that are a text, or nothing.
fn or_empty(bytes: &[u8]) -> &[u8]
    ensures { result.now ≡ or_empty bytes.now }
{
    if is_text(bytes) { bytes } else { &[] }
}

fn is_text(bytes: &[u8]) -> bool
    ensures { result ≡ is_utf8 bytes.now }
{
    match str::from_utf8(bytes) {
        Ok(_) => true,
        Err(_) => false,
    }
}

fn character_size(first: u8) -> usize
    ensures { result ≡ character_size first }
{
    if first.is_ascii_graphic() {
        1
    } else if first < 0xC3 {
        0
    } else if first < 0xE0 {
        2
    } else if first < 0xF0 {
        3
    } else {
        4
    }
}

/// The first bytes of a text, at most so many.
#[tactic(auto, using(std::proofs::lemmas::List::take_min))]
pub fn prefix(text: &[u8], most: usize) -> &[u8]
    ensures { result.now ≡ take most text.now }
{
    &text[..most.min(text.len())]
}

/// A text from the byte of this number on.
pub fn behind(text: &[u8], size: usize) -> &[u8]
    ensures { result.now ≡ drop size text.now }
{
    if size < text.len() {
        &text[size..]
    } else {
        &[]
    }
}
