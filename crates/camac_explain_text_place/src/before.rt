// What stands before a place of a script.

ghost use Rattle.std.specs.Prelude.{◌≡◌, IfOk, OnOk, filter, option_copied, option_map, slice_get};
ghost use Rattle.camac_explain_text_place.specs.Before.{assigned, begun, behind_token, called_in, closed, count_of, declared, declared_as, ended, in_body, is_before_variable, is_in_brackets, is_of_for, is_outside, is_sign, kind_behind, kind_declared_next, last_alone, near, open_line, opened, seen_as, standing, standing_of, wants_new_name, with_parameters, word_of};

use camac_lang::Name;
use camac_lines::is_near;
use camac_text::{Choice, NameKind, begins_statement};
use camac_tokens::{Keyword, Sign, Token, TokenKind};
use std::alloc::{AllocError, Global};

/// A name, what it is declared as, and on which line.
#[derive(Drop)]
pub struct Declared {
    pub name: Name,
    pub kind: NameKind,
    pub line: u32,
    /// Of a procedure that has ended: how many parameters it has.
    pub parameters: usize,
}

/// What stands before a place of a script that is right up to there.
#[derive(Drop)]
pub struct Before {
    /// The declaration or the statement in hand, as far as it goes.
    pub phrase: Vec<TokenKind>,
    // The lines of the `{` that are open.
    blocks: Vec<u32>,
    /// The names that are declared so far, and those of the body in hand.
    pub names: Vec<Declared>,
    /// Whether it ends in a procedure's body.
    pub in_procedure: bool,
}

impl Before {
    /// What these tokens come to.
    pub fn new(alloc: Global, tokens: &[Token]) -> Result<Self, AllocError>
        ensures { IfOk result (λ b. standing_of b ≡ standing tokens.now) }
    {
        let mut before = Before {
            phrase: Vec::new(alloc),
            blocks: Vec::new(alloc),
            names: Vec::new(alloc),
            in_procedure: false,
        };
        'tokens: for token in tokens {
            before.take(&token.kind, token.spot.line)?;
        }
        Ok(before)
    }

    /// The first word of the declaration or the statement in hand.
    pub fn first_word(&self) -> Option<Keyword>
        ensures { result ≡ word_of (slice_get self.now.phrase.items 0) }
    {
        word_of(self.phrase.first())
    }

    /// The procedure that the statement in hand calls.
    pub fn called(&self) -> Option<&[u8]>
        ensures { option_map (λ n. n.now) result ≡ called_in self.now.phrase.items }
    {
        match self.phrase.as_slice() {
            [TokenKind::Keyword(Keyword::Call), TokenKind::Name(name), ..] => {
                Some(name.as_bytes())
            }
            _ => None,
        }
    }

    /// Whether a name that is new, or that of a variable, has to stand next.
    pub fn wants_new_name(&self) -> bool
        ensures { result ≡ wants_new_name (standing_of self.now) }
    {
        is_before_variable(self.phrase.last()) || self.kind_declared_next().is_some()
    }

    /// Whether it ends in brackets, and so in an expression.
    pub fn is_in_brackets(&self) -> bool
        ensures { result ≡ is_in_brackets (standing_of self.now) }
    {
        count_of(&self.phrase, Sign::LeftBracket) > count_of(&self.phrase, Sign::RightBracket)
    }

    /// Whether it ends in a body.
    pub fn in_body(&self) -> bool
        ensures { result ≡ in_body (standing_of self.now) }
    {
        !self.blocks.is_empty()
    }

    /// The line of the last `{` that is open.
    pub fn open_line(&self) -> Option<u32>
        ensures { result ≡ open_line (standing_of self.now) }
    {
        self.blocks.last().copied()
    }

    /// What a name is declared as.
    pub fn declared(&self, name: &[u8]) -> Option<&Declared>
        ensures { option_copied result ≡ declared name.now (standing_of self.now) }
    {
        self.names.iter().find(|it| it.name.as_bytes() == name)
    }

    /// The first name of a kind that is near a word.
    pub fn near(&self, word: &[u8], kind: NameKind) -> Option<&Declared>
        ensures { option_copied result ≡ near word.now kind (standing_of self.now) }
    {
        let seen = self.seen_as(kind);
        let mut names = self.names.iter();
        names.find(|it| it.kind == seen && is_near(word, it.name.as_bytes()))
    }

    // A procedure sees its parameters in place of the variables of the script.
    fn seen_as(&self, kind: NameKind) -> NameKind
        ensures { result ≡ seen_as kind (standing_of self.now) }
    {
        if self.in_procedure && kind == NameKind::Variable {
            NameKind::Parameter
        } else {
            kind
        }
    }

    #[tactic(auto, unfolding(crate::specs::Before::behind_token))]
    fn take(&mut self, kind: &TokenKind, line: u32) -> Result<(), AllocError>
        ensures { OnOk result (standing_of self.new ≡ behind_token line kind.now (standing_of self.old)) }
    {
        match kind {
            TokenKind::Sign(Sign::LeftBrace) => return self.open_block(line),
            TokenKind::Sign(Sign::RightBrace) => return self.close_block(),
            TokenKind::Sign(Sign::Equals) => self.begin_assignment()?,
            TokenKind::Sign(_) | TokenKind::Number(_) => {}
            TokenKind::Keyword(word) => self.begin(*word),
            TokenKind::Name(name) => self.declare(name, line)?,
        }
        self.phrase.push(kind.duplicate())?;
        Ok(())
    }

    // A word that begins a declaration or a statement ends the one before.
    fn begin(&mut self, word: Keyword)
        ensures { standing_of self.new ≡ begun word (standing_of self.old) }
    {
        let begins = if self.in_body() {
            begins_statement(word)
        } else {
            Choice::Declaration.has_word(word)
        };
        if begins {
            self.phrase.clear();
        }
    }

    // An `=` in a body makes the name before it the beginning of a statement, but in `for i =`.
    fn begin_assignment(&mut self) -> Result<(), AllocError>
        ensures { OnOk result (standing_of self.new ≡ assigned (standing_of self.old)) }
    {
        if self.in_body() && !self.is_of_for() {
            keep_last(&mut self.phrase)?;
        }
        Ok(())
    }

    fn is_of_for(&self) -> bool
        ensures { result ≡ is_of_for (standing_of self.now) }
    {
        self.phrase.len() == 2 && self.first_word() == Some(Keyword::For)
    }

    fn declare(&mut self, name: &Name, line: u32) -> Result<(), AllocError>
        ensures { OnOk result (standing_of self.new ≡ declared_as (kind_declared_next (standing_of self.old)) name.now line (standing_of self.old)) }
    {
        let Some(kind) = self.kind_declared_next() else {
            return Ok(());
        };
        if self.declared(name.as_bytes()).is_none() {
            self.names.push(Declared {
                name: name.duplicate(),
                kind,
                line,
                parameters: 0,
            })?;
        }
        Ok(())
    }

    // As what the phrase declares the name that follows it.
    fn kind_declared_next(&self) -> Option<NameKind>
        ensures { result ≡ kind_declared_next (standing_of self.now) }
    {
        kind_behind(self.first_word()?, self.phrase.last()?)
    }

    fn open_block(&mut self, line: u32) -> Result<(), AllocError>
        ensures { OnOk result (standing_of self.new ≡ opened line (standing_of self.old)) }
    {
        if !self.in_body() {
            self.in_procedure = self.first_word() == Some(Keyword::Proc);
        }
        self.phrase.clear();
        self.blocks.push(line)?;
        Ok(())
    }

    fn close_block(&mut self) -> Result<(), AllocError>
        ensures { OnOk result (standing_of self.new ≡ closed (standing_of self.old)) }
    {
        let _ = self.blocks.pop();
        self.phrase.clear();
        if self.in_body() {
            return Ok(());
        }
        self.end_body()
    }

    // What the body declared is declared no more.
    fn end_body(&mut self) -> Result<(), AllocError>
        ensures { OnOk result (standing_of self.new ≡ ended (standing_of self.old)) }
    {
        let mut names = self.names.iter();
        let parameters = names.filter(|it| it.kind == NameKind::Parameter).count();
        keep_outside(&mut self.names);
        if self.in_procedure {
            set_parameters(&mut self.names, parameters)?;
        }
        self.in_procedure = false;
        Ok(())
    }
}

#[tactic(auto, using(crate::proofs::Tokens::last_of_more))]
fn keep_last(phrase: &mut Vec<TokenKind>) -> Result<(), AllocError>
    ensures { OnOk result (phrase.new.items ≡ last_alone phrase.old.items) }
{
    if let Some(last) = phrase.pop() {
        phrase.clear();
        phrase.push(last)?;
    }
    Ok(())
}

fn keep_outside(names: &mut Vec<Declared>)
    ensures { names.new.items ≡ filter is_outside names.old.items }
{
    names.retain(is_outside);
}

// Whether a name is declared outside of bodies.
fn is_outside(declared: &Declared) -> bool
    ensures { result ≡ is_outside declared.now }
{
    !matches!(declared.kind, NameKind::Register | NameKind::Parameter)
}

// The last of these names is that of a procedure with so many parameters.
#[tactic(auto, using(crate::proofs::Tokens::with_last))]
fn set_parameters(names: &mut Vec<Declared>, parameters: usize) -> Result<(), AllocError>
    ensures { OnOk result (names.new.items ≡ with_parameters parameters names.old.items) }
{
    if let Some(mut procedure) = names.pop() {
        procedure.parameters = parameters;
        names.push(procedure)?;
    }
    Ok(())
}

fn is_before_variable(last: Option<&TokenKind>) -> bool
    ensures { result ≡ is_before_variable (option_copied last.entry) }
{
    match last {
        Some(TokenKind::Keyword(Keyword::For | Keyword::Keep | Keyword::By | Keyword::Tally)) => {
            true
        }
        Some(TokenKind::Sign(Sign::Into)) => true,
        _ => false,
    }
}

// As what a phrase that begins with this word and ends in this token declares the name that follows it.
fn kind_behind(first: Keyword, last: &TokenKind) -> Option<NameKind>
    ensures { result ≡ kind_behind first last.now }
{
    match (first, last) {
        (Keyword::Cdreg, TokenKind::Keyword(_)) => Some(NameKind::Register),
        (Keyword::Cdlam, TokenKind::Keyword(_)) => Some(NameKind::Lam),
        (Keyword::Table, TokenKind::Keyword(_)) => Some(NameKind::Table),
        (Keyword::Proc, TokenKind::Keyword(Keyword::Proc)) => Some(NameKind::Procedure),
        (Keyword::Proc, TokenKind::Sign(Sign::LeftBracket)) => Some(NameKind::Parameter),
        (Keyword::Proc, TokenKind::Sign(Sign::Comma)) => Some(NameKind::Parameter),
        (Keyword::Var, _) => Some(NameKind::Variable),
        _ => None,
    }
}

// How often a sign stands in a phrase.
fn count_of(phrase: &[TokenKind], wanted: Sign) -> usize
    ensures { result ≡ count_of wanted phrase.now }
{
    let mut count = 0;
    'kinds: for kind in phrase {
        if is_sign(kind, wanted) {
            count += 1;
        }
    }
    count
}

fn is_sign(kind: &TokenKind, wanted: Sign) -> bool
    ensures { result ≡ is_sign wanted kind.now }
{
    match kind {
        TokenKind::Sign(sign) => *sign == wanted,
        _ => false,
    }
}

/// The word of the language that a token is.
pub fn word_of(kind: Option<&TokenKind>) -> Option<Keyword>
    ensures { result ≡ word_of (option_copied kind.entry) }
{
    match kind {
        Some(TokenKind::Keyword(word)) => Some(*word),
        _ => None,
    }
}
