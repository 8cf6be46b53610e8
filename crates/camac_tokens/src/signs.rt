// The signs of the language.

ghost use Rattle.std.specs.Prelude.{◌≡◌, [], ◌∷◌, Some};
ghost use Rattle.camac_tokens.specs.Words.{spelled_in, or_else, pair_signs, single_signs};

use crate::token::Sign;

/// The signs of the language.
pub const SIGNS: [Sign; 20] = [
    Sign::LeftBrace,
    Sign::RightBrace,
    Sign::LeftBracket,
    Sign::RightBracket,
    Sign::Plus,
    Sign::Minus,
    Sign::Times,
    Sign::Over,
    Sign::Modulo,
    Sign::Equals,
    Sign::Comma,
    Sign::Less,
    Sign::AtMost,
    Sign::More,
    Sign::AtLeast,
    Sign::Same,
    Sign::Differs,
    Sign::Into,
    Sign::From,
    Sign::UpTo,
];

impl Sign {
    /// How the sign is spelled.
    pub fn spelling(self) -> &'static str
        ensures { or_else (spelled_in pair_signs result.now) (spelled_in single_signs result.now) ≡ Some self }
    {
        match self {
            Sign::LeftBrace => "{",
            Sign::RightBrace => "}",
            Sign::LeftBracket => "(",
            Sign::RightBracket => ")",
            Sign::Plus => "+",
            Sign::Minus => "-",
            Sign::Times => "*",
            Sign::Over => "/",
            Sign::Modulo => "%",
            Sign::Equals => "=",
            Sign::Comma => ",",
            Sign::Less => "<",
            Sign::AtMost => "<=",
            Sign::More => ">",
            Sign::AtLeast => ">=",
            Sign::Same => "==",
            Sign::Differs => "!=",
            Sign::Into => "->",
            Sign::From => "<-",
            Sign::UpTo => "..",
        }
    }
}

/// The sign of these two bytes.
pub fn pair_sign(first: u8, second: u8) -> Option<Sign>
    ensures { result ≡ spelled_in pair_signs (first ∷ second ∷ []) }
{
    match (first, second) {
        (b'<', b'=') => Some(Sign::AtMost),
        (b'>', b'=') => Some(Sign::AtLeast),
        (b'=', b'=') => Some(Sign::Same),
        (b'!', b'=') => Some(Sign::Differs),
        (b'-', b'>') => Some(Sign::Into),
        (b'<', b'-') => Some(Sign::From),
        (b'.', b'.') => Some(Sign::UpTo),
        _ => None,
    }
}

/// The sign of this one byte.
#[inline(always)]
pub fn single_sign(byte: u8) -> Option<Sign>
    ensures { result ≡ spelled_in single_signs (byte ∷ []) }
{
    match byte {
        b'{' => Some(Sign::LeftBrace),
        b'}' => Some(Sign::RightBrace),
        b'(' => Some(Sign::LeftBracket),
        b')' => Some(Sign::RightBracket),
        b'+' => Some(Sign::Plus),
        b'-' => Some(Sign::Minus),
        b'*' => Some(Sign::Times),
        b'/' => Some(Sign::Over),
        b'%' => Some(Sign::Modulo),
        b'=' => Some(Sign::Equals),
        b',' => Some(Sign::Comma),
        b'<' => Some(Sign::Less),
        b'>' => Some(Sign::More),
        _ => None,
    }
}
