// Words of 24 bits in hexadecimal, and two digits in decimal.

ghost use Rattle.std.specs.Prelude.{◌≡◌, ◌<◌, ◌/◌, ◌%◌, ◌++◌, ◌∷◌, [], codes, slice_index};
ghost use Rattle.hex.specs.Hex.{encode_lower, lower_digits};
ghost use Rattle.camac_lines.specs.Digits.{hex_word, two_digits};

use camac_word::Word24;

/// The two digits of each byte, in lower case.
static PAIRS: [u8; 512] =
    *b"000102030405060708090a0b0c0d0e0f101112131415161718191a1b1c1d1e1f202122232425262728292a2b2c2d2e2f303132333435363738393a3b3c3d3e3f404142434445464748494a4b4c4d4e4f505152535455565758595a5b5c5d5e5f606162636465666768696a6b6c6d6e6f707172737475767778797a7b7c7d7e7f808182838485868788898a8b8c8d8e8f909192939495969798999a9b9c9d9e9fa0a1a2a3a4a5a6a7a8a9aaabacadaeafb0b1b2b3b4b5b6b7b8b9babbbcbdbebfc0c1c2c3c4c5c6c7c8c9cacbcccdcecfd0d1d2d3d4d5d6d7d8d9dadbdcdddedfe0e1e2e3e4e5e6e7e8e9eaebecedeeeff0f1f2f3f4f5f6f7f8f9fafbfcfdfeff";

/// The six digits of a word, in lower case.
#[inline(always)]
pub fn hex_word(word: Word24) -> [u8; 6]
    ensures { result ≡ hex_word word }
{
    let word = word.get();
    hex_bytes(
        (word / 0x10000) as u8,
        (word / 0x100 % 0x100) as u8,
        (word % 0x100) as u8,
    )
}

/// The digits of three bytes, in lower case.
#[inline(always)]
pub fn hex_bytes(high: u8, middle: u8, low: u8) -> [u8; 6]
    ensures { result ≡ encode_lower (high ∷ middle ∷ low ∷ []) }
{
    [
        high_digit(high),
        low_digit(high),
        high_digit(middle),
        low_digit(middle),
        high_digit(low),
        low_digit(low),
    ]
}

/// Six digits after a space.
#[inline(always)]
pub fn spaced(digits: [u8; 6]) -> [u8; 7]
    ensures { result ≡ codes " " ++ digits }
{
    let [a, b, c, d, e, f] = digits;
    [b' ', a, b, c, d, e, f]
}

// The digit of a byte's high four bits.
#[inline(always)]
#[tactic(auto, using(crate::proofs::Words::PAIRS_at))]
fn high_digit(byte: u8) -> u8
    ensures { result ≡ slice_index lower_digits (byte / 16) }
{
    PAIRS[byte as usize * 2]
}

// The digit of a byte's low four bits.
#[inline(always)]
#[tactic(auto, using(crate::proofs::Words::PAIRS_at))]
fn low_digit(byte: u8) -> u8
    ensures { result ≡ slice_index lower_digits (byte % 16) }
{
    PAIRS[byte as usize * 2 + 1]
}

/// The two digits of each number below 100.
static DECIMAL_PAIRS: [u8; 200] =
    *b"00010203040506070809101112131415161718192021222324252627282930313233343536373839404142434445464748495051525354555657585960616263646566676869707172737475767778798081828384858687888990919293949596979899";

/// The two digits of a number below 100.
#[inline(always)]
#[tactic(auto, using(crate::proofs::Words::DECIMAL_PAIRS_at))]
pub fn two_digits(number: usize) -> [u8; 2]
    requires { number < 100 }
    ensures { result ≡ two_digits number }
{
    let at = number * 2;
    [DECIMAL_PAIRS[at], DECIMAL_PAIRS[at + 1]]
}
