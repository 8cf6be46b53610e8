// The words of the language.

ghost use Rattle.std.specs.Prelude.{◌≡◌, Some};
ghost use Rattle.std.specs.Str.{bytes_eq};
ghost use Rattle.camac_tokens.specs.Words.{spelled_in, declaration_words, action_words, call_words, control_words, keyword, HasNumber, IsShort};

use crate::token::Keyword;

// The length of the longest, `service`.
const LONGEST: usize = 7;

/// The words of the language, in the order of its list.
pub const KEYWORDS: [Keyword; 47] = [
    Keyword::Table,
    Keyword::Cdlam,
    Keyword::Var,
    Keyword::Proc,
    Keyword::Service,
    Keyword::Within,
    Keyword::Cycles,
    Keyword::Event,
    Keyword::Words,
    Keyword::Steps,
    Keyword::Cdreg,
    Keyword::Cfsa,
    Keyword::Cssa,
    Keyword::Cfmad,
    Keyword::Cfubc,
    Keyword::Cfubr,
    Keyword::Max,
    Keyword::Limit,
    Keyword::Tally,
    Keyword::Put,
    Keyword::Cccz,
    Keyword::Cccc,
    Keyword::Ctci,
    Keyword::Ctcd,
    Keyword::Ctgl,
    Keyword::Ccci,
    Keyword::Cccd,
    Keyword::On,
    Keyword::Off,
    Keyword::Cclm,
    Keyword::Cclc,
    Keyword::Ctlm,
    Keyword::If,
    Keyword::Else,
    Keyword::For,
    Keyword::To,
    Keyword::While,
    Keyword::Turns,
    Keyword::By,
    Keyword::Keep,
    Keyword::In,
    Keyword::Lock,
    Keyword::Call,
    Keyword::And,
    Keyword::Not,
    Keyword::Q,
    Keyword::X,
];

impl Keyword {
    /// How the word is spelled.
    #[tactic(auto, unfolding(crate::specs::Words::keyword))]
    pub fn spelling(self) -> &'static str
        ensures { keyword result.now ≡ Some self }
    {
        match self {
            Keyword::Table => "table",
            Keyword::Cdlam => "cdlam",
            Keyword::Var => "var",
            Keyword::Proc => "proc",
            Keyword::Service => "service",
            Keyword::Within => "within",
            Keyword::Cycles => "cycles",
            Keyword::Event => "event",
            Keyword::Words => "words",
            Keyword::Steps => "steps",
            Keyword::Cdreg => "cdreg",
            Keyword::Cfsa => "cfsa",
            Keyword::Cssa => "cssa",
            Keyword::Cfmad => "cfmad",
            Keyword::Cfubc => "cfubc",
            Keyword::Cfubr => "cfubr",
            Keyword::Max => "max",
            Keyword::Limit => "limit",
            Keyword::Tally => "tally",
            Keyword::Put => "put",
            Keyword::Cccz => "cccz",
            Keyword::Cccc => "cccc",
            Keyword::Ctci => "ctci",
            Keyword::Ctcd => "ctcd",
            Keyword::Ctgl => "ctgl",
            Keyword::Ccci => "ccci",
            Keyword::Cccd => "cccd",
            Keyword::On => "on",
            Keyword::Off => "off",
            Keyword::Cclm => "cclm",
            Keyword::Cclc => "cclc",
            Keyword::Ctlm => "ctlm",
            Keyword::If => "if",
            Keyword::Else => "else",
            Keyword::For => "for",
            Keyword::To => "to",
            Keyword::While => "while",
            Keyword::Turns => "turns",
            Keyword::By => "by",
            Keyword::Keep => "keep",
            Keyword::In => "in",
            Keyword::Lock => "lock",
            Keyword::Call => "call",
            Keyword::And => "and",
            Keyword::Not => "not",
            Keyword::Q => "q",
            Keyword::X => "x",
        }
    }
}

// The first word that is spelled so.
macro_rules! spelled {
    ($text:expr, $number:expr; $($letters:literal => $word:ident),*) => {{
        $(
            if is_word($text, $number, $letters.as_slice()) {
                return Some(Keyword::$word);
            }
        )*
        None
    }};
}

/// The keyword that is spelled so.
#[inline(always)]
#[tactic(auto, unfolding(crate::specs::Words::keyword), using(crate::proofs::Spellings::no_long_keyword))]
pub fn keyword(text: &[u8]) -> Option<Keyword>
    ensures { result ≡ keyword text.now }
{
    if text.len() > LONGEST {
        return None;
    }
    short_keyword(text)
}

// The same, for a text that may be a keyword by its length. All words are compared at once, as numbers.
#[inline(never)]
#[tactic(auto, unfolding(crate::specs::Words::keyword))]
fn short_keyword(text: &[u8]) -> Option<Keyword>
    ensures { result ≡ keyword text.now }
{
    let number = number_of(text);
    if let Some(word) = declaration_word(text, number) {
        return Some(word);
    }
    if let Some(word) = action_word(text, number) {
        return Some(word);
    }
    if let Some(word) = call_word(text, number) {
        return Some(word);
    }
    control_word(text, number)
}

// A text of one to seven bytes as a number, which no other text has: its bytes, and how many they are. All others have 0.
#[inline(always)]
fn number_of(text: &[u8]) -> u64
    ensures { HasNumber text.now result }
{
    match text {
        [] => u64::from_le_bytes([0, 0, 0, 0, 0, 0, 0, 0]),
        [a] => u64::from_le_bytes([*a, 0, 0, 0, 0, 0, 0, 1]),
        [a, b] => u64::from_le_bytes([*a, *b, 0, 0, 0, 0, 0, 2]),
        [a, b, c] => u64::from_le_bytes([*a, *b, *c, 0, 0, 0, 0, 3]),
        [a, b, c, d] => u64::from_le_bytes([*a, *b, *c, *d, 0, 0, 0, 4]),
        [a, b, c, d, e] => u64::from_le_bytes([*a, *b, *c, *d, *e, 0, 0, 5]),
        [a, b, c, d, e, f] => u64::from_le_bytes([*a, *b, *c, *d, *e, *f, 0, 6]),
        [a, b, c, d, e, f, g] => u64::from_le_bytes([*a, *b, *c, *d, *e, *f, *g, 7]),
        [_, _, _, _, _, _, _, _, ..] => u64::from_le_bytes([0, 0, 0, 0, 0, 0, 0, 0]),
    }
}

#[inline(always)]
fn is_word(text: &[u8], number: u64, word: &[u8]) -> bool
    requires number { HasNumber text.now number }
    requires short { IsShort word.now }
    ensures { result ≡ bytes_eq text.now word.now }
{
    number == number_of(word)
}

#[inline(always)]
fn declaration_word(text: &[u8], number: u64) -> Option<Keyword>
    requires { HasNumber text.now number }
    ensures { result ≡ spelled_in declaration_words text.now }
{
    spelled!(text, number; b"table" => Table, b"cdlam" => Cdlam, b"var" => Var, b"proc" => Proc,
        b"service" => Service, b"within" => Within, b"cycles" => Cycles, b"event" => Event,
        b"words" => Words, b"steps" => Steps)
}

#[inline(always)]
fn action_word(text: &[u8], number: u64) -> Option<Keyword>
    requires { HasNumber text.now number }
    ensures { result ≡ spelled_in action_words text.now }
{
    spelled!(text, number; b"cdreg" => Cdreg, b"cfsa" => Cfsa, b"cssa" => Cssa, b"cfmad" => Cfmad,
        b"cfubc" => Cfubc, b"cfubr" => Cfubr, b"max" => Max, b"limit" => Limit,
        b"tally" => Tally, b"put" => Put)
}

#[inline(always)]
fn call_word(text: &[u8], number: u64) -> Option<Keyword>
    requires { HasNumber text.now number }
    ensures { result ≡ spelled_in call_words text.now }
{
    spelled!(text, number; b"cccz" => Cccz, b"cccc" => Cccc, b"ctci" => Ctci, b"ctcd" => Ctcd,
        b"ctgl" => Ctgl, b"ccci" => Ccci, b"cccd" => Cccd, b"on" => On, b"off" => Off,
        b"cclm" => Cclm, b"cclc" => Cclc, b"ctlm" => Ctlm)
}

#[inline(always)]
fn control_word(text: &[u8], number: u64) -> Option<Keyword>
    requires { HasNumber text.now number }
    ensures { result ≡ spelled_in control_words text.now }
{
    spelled!(text, number; b"if" => If, b"else" => Else, b"for" => For, b"to" => To, b"while" => While,
        b"turns" => Turns, b"by" => By, b"keep" => Keep, b"in" => In, b"lock" => Lock,
        b"call" => Call, b"and" => And, b"not" => Not, b"q" => Q, b"x" => X)
}
