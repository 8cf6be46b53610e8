// The tokens of a script's text.

ghost use Rattle.std.specs.Prelude.{◌≡◌};

use camac_lang::{Name, Spot};

/// A word that the language keeps for itself.
#[derive(Clone, Copy, Debug, PartialEq, Eq)]
pub enum Keyword {
    Table,
    Cdlam,
    Var,
    Proc,
    Service,
    Within,
    Cycles,
    Event,
    Words,
    Steps,
    Cdreg,
    Cfsa,
    Cssa,
    Cfmad,
    Cfubc,
    Cfubr,
    Max,
    Limit,
    Tally,
    Put,
    Cccz,
    Cccc,
    Ctci,
    Ctcd,
    Ctgl,
    Ccci,
    Cccd,
    On,
    Off,
    Cclm,
    Cclc,
    Ctlm,
    If,
    Else,
    For,
    To,
    While,
    Turns,
    By,
    Keep,
    In,
    Lock,
    Call,
    And,
    Not,
    Q,
    X,
}

/// A sign of one or two bytes.
#[derive(Clone, Copy, Debug, PartialEq, Eq)]
pub enum Sign {
    /// `{`
    LeftBrace,
    /// `}`
    RightBrace,
    /// `(`
    LeftBracket,
    /// `)`
    RightBracket,
    /// `+`
    Plus,
    /// `-`
    Minus,
    /// `*`
    Times,
    /// `/`
    Over,
    /// `%`
    Modulo,
    /// `=`
    Equals,
    /// `,`
    Comma,
    /// `<`
    Less,
    /// `<=`
    AtMost,
    /// `>`
    More,
    /// `>=`
    AtLeast,
    /// `==`
    Same,
    /// `!=`
    Differs,
    /// `->`
    Into,
    /// `<-`
    From,
    /// `..`
    UpTo,
}

/// What a token is.
#[derive(Drop)]
pub enum TokenKind {
    Name(Name),
    Number(u32),
    Keyword(Keyword),
    Sign(Sign),
}

impl TokenKind {
    /// The same kind once more.
    pub fn duplicate(&self) -> TokenKind
        ensures { result ≡ self.now }
    {
        match self {
            TokenKind::Name(name) => TokenKind::Name(name.duplicate()),
            TokenKind::Number(number) => TokenKind::Number(*number),
            TokenKind::Keyword(keyword) => TokenKind::Keyword(*keyword),
            TokenKind::Sign(sign) => TokenKind::Sign(*sign),
        }
    }
}

/// A token, and where it stands: its line, and how many bytes of the text stand from its first byte on. A line past 4294967295 has
/// that number, so that no call needs a condition on the length of its text.
#[derive(Drop)]
pub struct Token {
    pub kind: TokenKind,
    pub spot: Spot,
}
