// What may stand at a place of a text.

ghost use Rattle.std.specs.Prelude.{◌≡◌, Some};
ghost use Rattle.camac_tokens.specs.declared.token.TokenKind.TheVariants as kind;
ghost use Rattle.camac_text_cursor.specs.Choice.{begins_statement, is_lock, takes, group_of_word, group_of_sign, group};
ghost use Rattle.camac_text_cursor.specs.Tried.{place};

use camac_tokens::{Keyword, Sign, TokenKind};

/// Tokens of which the grammar takes any one at a place.
#[derive(Clone, Copy, Debug, PartialEq, Eq)]
pub enum Choice {
    Word(Keyword),
    Mark(Sign),
    Name,
    Number,
    /// The words that begin a declaration.
    Declaration,
    /// The words that begin a statement, but for `lock`: a procedure has none, by a case of its own.
    Statement,
    /// `q` and `x`.
    Flag,
    /// `on` and `off`.
    Switch,
    /// `->` and `<-`.
    Arrow,
    /// `+` and `-`.
    Sum,
    /// `*`, `/` and `%`.
    Product,
    /// `<` and the others that compare.
    Comparison,
    /// `each`, which is a name elsewhere.
    Each,
}

impl Choice {
    /// Whether a word is one of these.
    pub fn has_word(self, word: Keyword) -> bool
        ensures { result ≡ takes self (Some (kind.Keyword word)) }
    {
        match self {
            Choice::Word(own) => word == own,
            Choice::Declaration => matches!(
                word,
                Keyword::Table | Keyword::Cdlam | Keyword::Var | Keyword::Proc | Keyword::Service
            ),
            Choice::Statement => matches!(
                word,
                Keyword::Cdreg
                    | Keyword::Cfsa
                    | Keyword::Cssa
                    | Keyword::Cfmad
                    | Keyword::Cfubc
                    | Keyword::Cfubr
                    | Keyword::Put
                    | Keyword::Cccz
                    | Keyword::Cccc
                    | Keyword::Ctci
                    | Keyword::Ctcd
                    | Keyword::Ctgl
                    | Keyword::Ccci
                    | Keyword::Cccd
                    | Keyword::Cclm
                    | Keyword::Cclc
                    | Keyword::Ctlm
                    | Keyword::If
                    | Keyword::For
                    | Keyword::While
                    | Keyword::Call
            ),
            Choice::Flag => matches!(word, Keyword::Q | Keyword::X),
            Choice::Switch => matches!(word, Keyword::On | Keyword::Off),
            _ => false,
        }
    }

    /// Whether a sign is one of these.
    pub fn has_sign(self, sign: Sign) -> bool
        ensures { result ≡ takes self (Some (kind.Sign sign)) }
    {
        match self {
            Choice::Mark(own) => sign == own,
            Choice::Arrow => matches!(sign, Sign::Into | Sign::From),
            Choice::Sum => matches!(sign, Sign::Plus | Sign::Minus),
            Choice::Product => matches!(sign, Sign::Times | Sign::Over | Sign::Modulo),
            Choice::Comparison => matches!(
                sign,
                Sign::Less | Sign::AtMost | Sign::More | Sign::AtLeast | Sign::Same | Sign::Differs
            ),
            _ => false,
        }
    }

    /// The choice that takes all that this one takes and more, if there is one, else itself.
    fn group(self) -> Choice
        ensures { result ≡ group self }
    {
        match self {
            Choice::Word(word) => group_of_word(word),
            Choice::Mark(sign) => group_of_sign(sign),
            _ => self,
        }
    }

    // Its place in a set.
    #[inline(always)]
    fn place(self) -> u32
        ensures { result ≡ place self }
    {
        match self {
            Choice::Word(word) => word as u32,
            Choice::Mark(sign) => 47 + sign as u32,
            Choice::Name => 67,
            Choice::Number => 68,
            Choice::Declaration => 69,
            Choice::Statement => 70,
            Choice::Flag => 71,
            Choice::Switch => 72,
            Choice::Arrow => 73,
            Choice::Sum => 74,
            Choice::Product => 75,
            Choice::Comparison => 76,
            Choice::Each => 77,
        }
    }
}

/// Whether a word begins a statement: `lock`, too.
pub fn begins_statement(word: Keyword) -> bool
    ensures { result ≡ begins_statement word }
{
    Choice::Statement.has_word(word) || is_lock(word)
}

fn is_lock(word: Keyword) -> bool
    ensures { result ≡ is_lock word }
{
    match word {
        Keyword::Lock => true,
        _ => false,
    }
}

fn group_of_word(word: Keyword) -> Choice
    ensures { result ≡ group_of_word word }
{
    if Choice::Declaration.has_word(word) {
        Choice::Declaration
    } else if Choice::Statement.has_word(word) {
        Choice::Statement
    } else if Choice::Flag.has_word(word) {
        Choice::Flag
    } else if Choice::Switch.has_word(word) {
        Choice::Switch
    } else {
        Choice::Word(word)
    }
}

fn group_of_sign(sign: Sign) -> Choice
    ensures { result ≡ group_of_sign sign }
{
    if Choice::Arrow.has_sign(sign) {
        Choice::Arrow
    } else if Choice::Sum.has_sign(sign) {
        Choice::Sum
    } else if Choice::Product.has_sign(sign) {
        Choice::Product
    } else if Choice::Comparison.has_sign(sign) {
        Choice::Comparison
    } else {
        Choice::Mark(sign)
    }
}

/// All that may stand at a place.
#[derive(Clone, Copy, Debug, PartialEq, Eq)]
pub struct Choices(u128);

impl Choices {
    ghost use Rattle.camac_text_cursor.specs.Choice.{held, has};
    ghost use Rattle.camac_text_cursor.specs.Tried.{none, added};

    /// Nothing.
    pub fn none() -> Self
        ensures { held result ≡ none }
    {
        Choices(0)
    }

    /// These, and one choice more.
    #[inline(always)]
    pub fn with(self, choice: Choice) -> Self
        ensures { held result ≡ added choice (held self) }
    {
        Choices(self.0 | 1 << choice.place())
    }

    /// Whether all of a choice are among these.
    pub fn has(self, choice: Choice) -> bool
        ensures { result ≡ has choice (held self) }
    {
        self.holds(choice) || self.holds(choice.group())
    }

    fn holds(self, choice: Choice) -> bool
        ensures { result ≡ held self choice }
    {
        self.0 >> choice.place() & 1 == 1
    }
}
