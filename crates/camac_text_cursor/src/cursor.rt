// The parser's state, and its steps over single tokens.

ghost use Rattle.std.specs.Prelude.{◌≡◌, [], false, not, ◌&&◌, ◌==◌, is_none, option_copied};
ghost use Rattle.camac_text_cursor.specs.Reading.{spot_of, kind_of, past, missed};
ghost use Rattle.camac_text_cursor.specs.Readers.{begin, is_keyword, is_sign, is_name, is_number, is_each, expect, expect_sign, name_here, number_here, any_number, branch_number, function_number, sub_address_number};
ghost use Rattle.camac_text_cursor.specs.Choice.{takes, held};
ghost use Rattle.camac_text_cursor.specs.Tried.{Told};
ghost use Rattle.camac_text_cursor.specs.Parser.{state, unread, line_in, Gives};
ghost use Rattle.camac_tokens.specs.declared.fault.TextCase.TheVariants.{Unexpected};

use crate::choice::{Choice, Choices};
use camac_lang::{Callable, Item, Lam, Name, Node, Procedure, Service, Spot, Table, limits};
use camac_tokens::{Keyword, Limit, Sign, TextCase, TextFault, TokenKind, TokensLeft, are_same};
use camac_word::{Function, SubAddress};
use std::alloc::Global;
use std::mem::replace;

/// What is left of the tokens, and what is declared so far.
#[derive(Drop)]
pub struct Parser<'a> {
    pub(crate) alloc: Global,
    rest: TokensLeft<'a>,
    pub(crate) order: Vec<Item>,
    pub(crate) tables: Vec<Table>,
    pub(crate) lams: Vec<Lam>,
    // Those that the body in hand sees: the script's, and in a procedure its parameters.
    pub(crate) variables: Vec<Name>,
    pub(crate) procedures: Vec<Procedure>,
    pub(crate) services: Vec<Service>,
    // What can be called, one for each procedure.
    pub(crate) callables: Vec<Callable>,
    // Whether the body in hand is a procedure's, and then the variables of the script, which it does not see.
    pub(crate) in_procedure: bool,
    pub(crate) outside: Vec<Name>,
    // The variables of the script and the parameters of all procedures.
    pub(crate) variable_count: usize,
    // The names of tables, LAMs, variables and procedures and, in a procedure, of its parameters.
    pub(crate) declared: Vec<Name>,
    // The registers of the body in hand.
    pub(crate) registers: Vec<Name>,
    // The statements of all bodies.
    statements: u32,
    // Room for the nodes of the next expression.
    nodes: Vec<Node>,
    // What was looked for at the next token and is not there.
    missed: Choices,
}

impl<'a> Parser<'a> {
    /// A parser of these tokens, with no declarations yet.
    pub fn new(alloc: Global, rest: TokensLeft<'a>) -> Self
        ensures { state result ≡ unread rest.entry.tokens (line_in rest.entry.end) }
    {
        Parser {
            alloc,
            rest,
            order: Vec::new(alloc),
            tables: Vec::new(alloc),
            lams: Vec::new(alloc),
            variables: Vec::new(alloc),
            procedures: Vec::new(alloc),
            services: Vec::new(alloc),
            callables: Vec::new(alloc),
            in_procedure: false,
            outside: Vec::new(alloc),
            variable_count: 0,
            declared: Vec::new(alloc),
            registers: Vec::new(alloc),
            statements: 0,
            nodes: Vec::new(alloc),
            missed: Choices::none(),
        }
    }

    /// An empty list, to gather the nodes of an expression in. A list that was given back is given once more.
    pub fn take_nodes(&mut self) -> Vec<Node>
        ensures empty { result.items ≡ [] }
        ensures same { state self.new ≡ state self.old }
    {
        let mut nodes = replace(&mut self.nodes, Vec::new(self.alloc));
        nodes.truncate(0);
        nodes
    }

    /// Takes a list back, for its memory.
    pub fn give_back_nodes(&mut self, nodes: Vec<Node>)
        ensures { state self.new ≡ state self.old }
    {
        self.nodes = nodes;
    }

    /// Where all that is read is allocated.
    pub fn alloc(&self) -> Global
        ensures { result ≡ self.now.alloc }
    {
        self.alloc
    }

    /// Whether the body in hand is a procedure's.
    pub fn in_procedure(&self) -> bool
        ensures { result ≡ (state self.now).in_procedure }
    {
        self.in_procedure
    }
}

impl Parser<'_> {
    /// The kind of the next token. It stays the next one.
    pub fn peek(&self) -> Option<&TokenKind>
        ensures { option_copied result ≡ kind_of (state self.now).rest }
    {
        match self.rest.first() {
            Some(next) => Some(&next.kind),
            None => None,
        }
    }

    /// Where the next token stands, or the text's end. The line is 0 where a token fault ends the tokens.
    pub fn spot_here(&self) -> Spot
        ensures { result ≡ spot_of (state self.now).rest (state self.now).end_line }
    {
        match self.rest.first() {
            Some(token) => token.spot,
            None => Spot {
                line: self.rest.end().unwrap_or(0),
                left: 0,
            },
        }
    }

    /// Whether the text's end stands next, and no token fault.
    pub fn is_at_end(&self) -> bool
        ensures { result ≡ (is_none (kind_of (state self.now).rest) && not ((state self.now).end_line == 0)) }
    {
        self.rest.first().is_none() && self.spot_here().line != 0
    }

    /// A fault at the next token.
    pub fn fault(&self, case: TextCase) -> TextFault
        ensures { result ≡ TextFault.Broken case (spot_of (state self.now).rest (state self.now).end_line) }
    {
        TextFault::Broken {
            case,
            spot: self.spot_here(),
        }
    }

    /// Remembers that the next token is none of these, any of which may stand in its place.
    #[inline(always)]
    pub fn miss(&mut self, choice: Choice)
        requires { takes choice (kind_of (state self.old).rest) ≡ false }
        ensures { state self.new ≡ missed choice (state self.old) }
    {
        self.missed = self.missed.with(choice);
    }

    /// The fault of the next token, which is none of these. What was looked for before may stand in its place, too.
    #[inline(never)]
    pub fn unexpected(&mut self, choice: Choice) -> TextFault
        requires { takes choice (kind_of (state self.old).rest) ≡ false }
        ensures fault { result ≡ TextFault.Broken Unexpected (spot_of (state self.old).rest (state self.old).end_line) }
        ensures missed { state self.new ≡ missed choice (state self.old) }
    {
        self.miss(choice);
        self.fault(TextCase::Unexpected)
    }

    /// What was looked for at the next token and is not there: at a fault all that may stand in its place.
    pub fn missed(&self) -> Choices
        ensures { Told (held result) ≡ (state self.now).tried }
    {
        self.missed
    }

    /// Takes the next token, if there is one.
    pub fn advance(&mut self)
        ensures { state self.new ≡ past (state self.old) }
    {
        self.missed = Choices::none();
        self.rest.advance();
    }

    /// Whether this keyword stands next.
    pub fn next_is(&self, keyword: Keyword) -> bool
        ensures { result ≡ is_keyword keyword (kind_of (state self.now).rest) }
    {
        match self.peek() {
            Some(TokenKind::Keyword(next)) => *next == keyword,
            _ => false,
        }
    }

    /// Whether this sign stands next.
    pub fn next_is_sign(&self, sign: Sign) -> bool
        ensures { result ≡ is_sign sign (kind_of (state self.now).rest) }
    {
        match self.peek() {
            Some(TokenKind::Sign(next)) => *next == sign,
            _ => false,
        }
    }

    /// Whether a name stands next.
    pub fn next_is_name(&self) -> bool
        ensures { result ≡ is_name (kind_of (state self.now).rest) }
    {
        matches!(self.peek(), Some(TokenKind::Name(_)))
    }

    /// Whether a number stands next.
    pub fn next_is_number(&self) -> bool
        ensures { result ≡ is_number (kind_of (state self.now).rest) }
    {
        matches!(self.peek(), Some(TokenKind::Number(_)))
    }

    /// Whether the word `each` stands next, which is a name elsewhere.
    pub fn next_is_each(&self) -> bool
        ensures { result ≡ is_each (kind_of (state self.now).rest) }
    {
        match self.peek() {
            Some(TokenKind::Name(name)) => are_same(name.as_bytes(), b"each"),
            _ => false,
        }
    }

    /// Takes this keyword, else answers S2 at what stands there.
    #[tactic(auto, unfolding(crate::specs::Readers::expect))]
    pub fn expect(&mut self, keyword: Keyword) -> Result<(), TextFault>
        ensures { Gives (λ _. tt) result self.new (expect keyword (state self.old)) }
    {
        if !self.next_is(keyword) {
            return Err(self.unexpected(Choice::Word(keyword)));
        }
        self.advance();
        Ok(())
    }

    /// Takes this sign, else answers S2 at what stands there.
    #[tactic(auto, unfolding(crate::specs::Readers::expect_sign))]
    pub fn expect_sign(&mut self, sign: Sign) -> Result<(), TextFault>
        ensures { Gives (λ _. tt) result self.new (expect_sign sign (state self.old)) }
    {
        if !self.next_is_sign(sign) {
            return Err(self.unexpected(Choice::Mark(sign)));
        }
        self.advance();
        Ok(())
    }

    /// The name that stands next, and stays there; S2 at anything else.
    #[tactic(auto, unfolding(crate::specs::Readers::name_here))]
    pub fn name_here(&mut self) -> Result<Name, TextFault>
        ensures { Gives (λ n. n) result self.new (name_here (state self.old)) }
    {
        match self.peek() {
            Some(TokenKind::Name(name)) => Ok(name.duplicate()),
            _ => Err(self.unexpected(Choice::Name)),
        }
    }

    /// The number that stands next, and stays there; S2 at anything else.
    #[tactic(auto, unfolding(crate::specs::Readers::number_here))]
    pub fn number_here(&mut self) -> Result<u32, TextFault>
        ensures { Gives (λ n. n) result self.new (number_here (state self.old)) }
    {
        match self.peek() {
            Some(TokenKind::Number(number)) => Ok(*number),
            _ => Err(self.unexpected(Choice::Number)),
        }
    }

    /// Takes a number, else answers S2 at what stands there.
    #[tactic(auto, unfolding(crate::specs::Readers::any_number))]
    pub fn any_number(&mut self) -> Result<u32, TextFault>
        ensures { Gives (λ n. n) result self.new (any_number (state self.old)) }
    {
        let number = self.number_here()?;
        self.advance();
        Ok(number)
    }

    /// Takes the number 1, else answers S2 where no number stands, S7 at another one.
    #[tactic(auto, unfolding(crate::specs::Readers::branch_number))]
    pub fn branch_number(&mut self) -> Result<(), TextFault>
        ensures { Gives (λ _. tt) result self.new (branch_number (state self.old)) }
    {
        let number = self.number_here()?;
        if number != 1 {
            return Err(self.fault(TextCase::Branch));
        }
        self.advance();
        Ok(())
    }

    /// Takes a function code, 0 to 31, else answers S2 where no number stands, S3 at a greater one.
    #[tactic(auto, unfolding(crate::specs::Readers::function_number))]
    pub fn function_number(&mut self) -> Result<Function, TextFault>
        ensures { Gives (λ n. n) result self.new (function_number (state self.old)) }
    {
        let number = self.number_here()?;
        match Function::new(number) {
            Some(function) => {
                self.advance();
                Ok(function)
            }
            None => Err(self.fault(TextCase::Number { most: 31 })),
        }
    }

    /// Takes a sub-address, 0 to 15, else answers S2 where no number stands, S3 at a greater one.
    #[tactic(auto, unfolding(crate::specs::Readers::sub_address_number))]
    pub fn sub_address_number(&mut self) -> Result<SubAddress, TextFault>
        ensures { Gives (λ n. n) result self.new (sub_address_number (state self.old)) }
    {
        let number = self.number_here()?;
        match SubAddress::new(number) {
            Some(sub_address) => {
                self.advance();
                Ok(sub_address)
            }
            None => Err(self.fault(TextCase::Number { most: 15 })),
        }
    }

    /// Takes the first token of a statement, which is counted; S6 where 4,096 are there already.
    #[tactic(auto, unfolding(crate::specs::Readers::begin))]
    pub fn begin(&mut self) -> Result<(), TextFault>
        ensures { Gives (λ _. tt) result self.new (begin (state self.old)) }
    {
        if self.statements >= limits::STATEMENTS {
            return Err(self.fault(TextCase::Limit(Limit::Statements)));
        }
        self.statements += 1;
        self.advance();
        Ok(())
    }
}
