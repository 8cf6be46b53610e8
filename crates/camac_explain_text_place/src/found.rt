// The token at which a fault shows.

ghost use Rattle.std.specs.Prelude.{◌≡◌, IfOk, [], ◌∷◌, false, length, option_copied, option_map, take_while};
ghost use Rattle.std.specs.Char.{is_ascii_digit};
ghost use Rattle.camac_tokens.specs.Scanning.{is_name_byte, pair_at};
ghost use Rattle.camac_tokens.specs.Words.{pair_signs, spelled_in};
ghost use Rattle.camac_explain_text_words.specs.Absent.{absent_of, absent_sign};
ghost use Rattle.camac_explain_text_place.specs.Before.{standing_of, word_of};
ghost use Rattle.camac_explain_text_place.specs.Place.{begun_length, kind_at, rest_of, sign_length, text_before, word_at, word_length, absent_word_at, adjoins_word, begins_line, begins_statement_at, declared_line, ends_in_blanks, expects, is_assigned, is_before, is_before_name, is_free_name, last, line_from, needed, place_at, place_of, tokens_in, wants_register, without_blanks};

use crate::before::{Before, word_of};
use camac_explain_text_words::{Absent, absent_sign, absent_word, behind, prefix};
use camac_text::{Choice, Choices, NameKind, TextFault, Token, TokenKind, TokensLeft, tokens};
use camac_tokens::Keyword;
use std::alloc::{AllocError, Global};

/// The token at which a fault shows, and what stands around it.
#[derive(Drop)]
pub struct Found<'a> {
    /// Its bytes; of a byte that begins no token, this byte; nothing at the text's end.
    pub word: &'a [u8],
    /// None where it is no token of the language.
    pub kind: Option<TokenKind>,
    /// The texts before it, and from it on.
    pub text: &'a [u8],
    pub rest: &'a [u8],
    pub before: Before,
    /// The tokens before it in its line.
    pub line: Vec<Token>,
    /// What may stand in its place.
    pub expected: Choices,
}

impl<'a> Found<'a> {
    /// The token that begins where so many bytes of a text are left.
    pub fn new(
        alloc: Global,
        text: &'a [u8],
        left: usize,
        expected: Choices,
    ) -> Result<Self, AllocError>
        ensures { IfOk result (λ f. place_of f ≡ place_at expected left text.now) }
    {
        let rest = rest_of(text, left);
        let text = text_before(text, left);
        let (word, kind) = (word_at(rest), kind_at(rest));
        let tokens = tokens_in(alloc, text)?;
        let before = Before::new(alloc, &tokens)?;
        let line = tokens_in(alloc, line_of(text))?;
        Ok(Found {
            word,
            kind,
            text,
            rest,
            before,
            line,
            expected,
        })
    }

    /// The token before, if it belongs to the same declaration or statement.
    pub fn last(&self) -> Option<&TokenKind>
        ensures { option_copied result ≡ last (place_of self.now) }
    {
        self.before.phrase.last()
    }

    /// The word of the language that it is.
    pub fn keyword(&self) -> Option<Keyword>
        ensures { result ≡ word_of self.now.kind }
    {
        word_of(self.kind.as_ref())
    }

    /// Whether it stands right after a name, a word or a number.
    pub fn adjoins_word(&self) -> bool
        ensures { result ≡ adjoins_word (place_of self.now) }
    {
        match self.text.last() {
            Some(byte) => is_name_byte(*byte),
            None => false,
        }
    }

    /// Whether it is the first of its line.
    pub fn begins_line(&self) -> bool
        ensures { result ≡ begins_line (place_of self.now) }
    {
        ends_in_blanks(self.text)
    }

    /// Whether these bytes stand behind it, after blanks.
    pub fn is_before(&self, bytes: &[u8]) -> bool
        ensures { result ≡ is_before (place_of self.now) bytes.now }
    {
        without_blanks(behind(self.rest, self.word.len())).starts_with(bytes)
    }

    /// Whether a name stands behind it.
    pub fn is_before_name(&self) -> bool
        ensures { result ≡ is_before_name (place_of self.now) }
    {
        matches!(
            kind_at(behind(self.rest, self.word.len())),
            Some(TokenKind::Name(_))
        )
    }

    /// Whether this may stand in its place.
    pub fn expects(&self, choice: Choice) -> bool
        ensures { result ≡ expects (place_of self.now) choice }
    {
        self.expected.has(choice)
    }

    /// Whether a statement may begin in its place.
    pub fn begins_statement(&self) -> bool
        ensures { result ≡ begins_statement_at (place_of self.now) }
    {
        self.expects(Choice::Statement)
    }

    /// Whether an `=` that sets follows it.
    #[tactic(auto, unfolding(crate::specs::Place::is_assigned))]
    pub fn is_assigned(&self) -> bool
        ensures { result ≡ is_assigned (place_of self.now) }
    {
        self.is_before(b"=") && !self.is_before(b"==")
    }

    /// The sign of another language that stands here.
    pub fn absent_sign(&self) -> Option<Absent<'static>>
        ensures { option_map absent_of result ≡ absent_sign self.now.text.now self.now.rest.now }
    {
        absent_sign(self.text, self.rest)
    }

    /// The word of another language that it is, unless the script declares it.
    #[tactic(auto, unfolding(crate::specs::Place::absent_word_at))]
    pub fn absent_word(&self) -> Option<Absent<'a>>
        ensures { option_map absent_of result ≡ absent_word_at (place_of self.now) }
    {
        if self.is_free_name() {
            absent_word(self.word)
        } else {
            None
        }
    }

    /// The line on which the script declares it.
    pub fn declared_line(&self) -> Option<u32>
        ensures { result ≡ declared_line (place_of self.now) }
    {
        let declared = self.before.declared(self.word)?;
        Some(declared.line)
    }

    fn is_free_name(&self) -> bool
        ensures { result ≡ is_free_name (place_of self.now) }
    {
        matches!(self.kind, Some(TokenKind::Name(_))) && self.before.declared(self.word).is_none()
    }

    /// The kind of name that its place needs.
    #[tactic(auto, unfolding(crate::specs::Place::needed))]
    pub fn needed(&self) -> NameKind
        ensures { result ≡ needed (place_of self.now) }
    {
        use Keyword::{Call, Cclc, Cclm, Ctlm, Service, Table};
        match word_of(self.last()) {
            Some(Service | Cclm | Cclc | Ctlm) => NameKind::Lam,
            Some(Call) => NameKind::Procedure,
            Some(Table) => NameKind::Table,
            _ if self.wants_register() => NameKind::Register,
            _ => NameKind::Variable,
        }
    }

    // A register stands third in a transfer, and fourth in a scan.
    fn wants_register(&self) -> bool
        ensures { result ≡ wants_register (standing_of self.now.before) }
    {
        use Keyword::{Cfmad, Cfsa, Cfubc, Cfubr, Cssa};
        match self.before.first_word() {
            Some(Cfsa | Cssa | Cfubc | Cfubr) => self.before.phrase.len() == 2,
            Some(Cfmad) => self.before.phrase.len() == 2 || self.before.phrase.len() == 3,
            _ => false,
        }
    }
}

// The tokens of a text; none where it has a fault of a token.
#[tactic(auto, using(crate::proofs::Tokens::of_tokens, crate::proofs::Tokens::of_token_fault))]
fn tokens_in(alloc: Global, text: &[u8]) -> Result<Vec<Token>, AllocError>
    ensures { IfOk result (λ v. v.items ≡ tokens_in text.now) }
{
    match tokens(alloc, text) {
        Ok(tokens) => Ok(tokens),
        Err(TextFault::OutOfMemory) => Err(AllocError),
        Err(TextFault::Broken { .. }) => Ok(Vec::new(alloc)),
    }
}

// What stands behind the last line feed of a text.
fn line_of(text: &[u8]) -> &[u8]
    ensures { result.now ≡ line_from text.now text.now }
{
    let mut line = text;
    let mut rest = text;
    while let [byte, after @ ..] = rest {
        if *byte == b'\n' {
            line = after;
        }
        rest = after;
    }
    line
}

// Whether only blanks stand behind the last line feed of a text.
fn ends_in_blanks(text: &[u8]) -> bool
    ensures { result ≡ ends_in_blanks false text.now }
{
    let mut is_blank_line = false;
    'bytes: for byte in text {
        is_blank_line = *byte == b'\n' || (is_blank_line && byte.is_ascii_whitespace());
    }
    is_blank_line
}

fn without_blanks(text: &[u8]) -> &[u8]
    ensures { result.now ≡ without_blanks text.now }
{
    text.trim_ascii_start()
}

/// A text from the place on where so many bytes are left.
pub fn rest_of(text: &[u8], left: usize) -> &[u8]
    ensures { result.now ≡ rest_of left text.now }
{
    &text[text.len().saturating_sub(left)..]
}

fn text_before(text: &[u8], left: usize) -> &[u8]
    ensures { result.now ≡ text_before left text.now }
{
    &text[..text.len().saturating_sub(left)]
}

/// The word, the number, the sign or the one byte with which a text begins.
pub fn word_at(text: &[u8]) -> &[u8]
    ensures { result.now ≡ word_at text.now }
{
    prefix(text, word_length(text))
}

fn word_length(text: &[u8]) -> usize
    ensures { result ≡ word_length text.now }
{
    match text {
        [first, ..] => begun_length(*first, text),
        [] => 0,
    }
}

fn begun_length(first: u8, text: &[u8]) -> usize
    ensures { result ≡ begun_length first text.now }
{
    if first.is_ascii_alphabetic() {
        name_length(text)
    } else if first.is_ascii_digit() {
        digits_length(text)
    } else {
        sign_length(text)
    }
}

fn name_length(text: &[u8]) -> usize
    ensures { result ≡ length (take_while is_name_byte text.now) }
{
    text.iter().take_while(|b| is_name_byte(**b)).count()
}

fn digits_length(text: &[u8]) -> usize
    ensures { result ≡ length (take_while is_ascii_digit text.now) }
{
    text.iter().take_while(|b| b.is_ascii_digit()).count()
}

fn sign_length(text: &[u8]) -> usize
    ensures { result ≡ sign_length (pair_at text.now) }
{
    match text {
        [first, second, ..] => pair_length(*first, *second),
        _ => 1,
    }
}

// Two bytes may be a sign.
fn pair_length(first: u8, second: u8) -> usize
    ensures { result ≡ sign_length (spelled_in pair_signs (first ∷ second ∷ [])) }
{
    match (first, second) {
        (b'<', b'=') => 2,
        (b'>', b'=') => 2,
        (b'=', b'=') => 2,
        (b'!', b'=') => 2,
        (b'-', b'>') => 2,
        (b'<', b'-') => 2,
        (b'.', b'.') => 2,
        _ => 1,
    }
}

/// The kind of the first token of a text, unless none is left, or what is no token stands there.
pub fn kind_at(text: &[u8]) -> Option<TokenKind>
    ensures { result ≡ kind_at text.now }
{
    let tokens = TokensLeft::new(text);
    match tokens.first() {
        Some(token) => Some(token.kind.duplicate()),
        None => None,
    }
}

fn is_name_byte(byte: u8) -> bool
    ensures { result ≡ is_name_byte byte }
{
    byte.is_ascii_alphabetic() || byte.is_ascii_digit() || byte == b'_'
}
