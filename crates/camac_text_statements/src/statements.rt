// Blocks and statements.

ghost use Rattle.std.specs.Prelude.{◌≡◌, Some, true, false, map, suc};
ghost use Rattle.camac_lang.specs.View.{statement_of};
ghost use Rattle.camac_text_cursor.specs.Choice.{takes};
ghost use Rattle.camac_text_cursor.specs.declared.choice.Choice.TheVariants as choice;
ghost use Rattle.camac_text_cursor.specs.Reading.{kind_of, spot_of, many, missed};
ghost use Rattle.camac_tokens.specs.declared.fault.TextCase.TheVariants.{Unexpected};
ghost use Rattle.camac_tokens.specs.declared.token.TokenKind.TheVariants as kind;
ghost use Rattle.camac_text_statements.specs.Statements.{is_frequent, nested_by, statement_by, statement_with, is_no_end, block_at, Adds};
ghost use Rattle.camac_text_cursor.specs.Parser.{state, Gives};

use crate::actions::{assignment, put_action, register_setting, single_action};
use crate::calls::{crate_action, crate_switch, lam_action, lam_switch};
use crate::nesting::{for_statement, if_statement, lock_statement, while_statement};
use crate::transfers::{call, q_repeat, q_stop, scan};
use camac_lang::{CrateCall, LamCall, Spot, Stmt, WordSize};
use camac_text_cursor::{Choice, Parser};
use camac_tokens::{Keyword, Limit, Sign, TextCase, TextFault, TokenKind};

/// The statements between two braces, where so many braces and brackets may be open at once.
#[cycle(statement)]
#[tactic(auto, unfolding(crate::specs::Statements::block_at))]
pub fn block(parser: &mut Parser<'_>, room: u32) -> Result<Vec<Stmt>, TextFault>
    ensures { Gives (λ b. map statement_of b.items) result parser.new (block_at room (state parser.old)) }
{
    if room == 0 {
        if parser.next_is_sign(Sign::LeftBrace) {
            return Err(parser.fault(TextCase::Limit(Limit::Depth)));
        }
        return Err(parser.unexpected(Choice::Mark(Sign::LeftBrace)));
    }
    in_braces(parser, room - 1)
}

#[cycle(statement)]
#[tactic(auto, unfolding(crate::specs::Statements::block_at))]
fn in_braces(parser: &mut Parser<'_>, room: u32) -> Result<Vec<Stmt>, TextFault>
    ensures { Gives (λ b. map statement_of b.items) result parser.new (block_at (suc room) (state parser.old)) }
{
    parser.expect_sign(Sign::LeftBrace)?;
    let body = statements(parser, room)?;
    parser.expect_sign(Sign::RightBrace)?;
    Ok(body)
}

#[cycle(statement)]
#[tactic(auto, unfolding(camac_text_cursor::specs::Reading::many))]
fn statements(parser: &mut Parser<'_>, room: u32) -> Result<Vec<Stmt>, TextFault>
    ensures { Gives (λ b. map statement_of b.items) result parser.new (many is_no_end (statement_with room (block_at room)) (state parser.old)) }
{
    let mut body = Vec::new(parser.alloc());
    while is_in_block(parser) {
        statement(parser, room, &mut body)?;
    }
    Ok(body)
}

/// Whether no closing brace stands next.
fn is_in_block(parser: &Parser<'_>) -> bool
    ensures { result ≡ is_no_end (kind_of (state parser.now).rest) }
{
    !parser.next_is_sign(Sign::RightBrace)
}

/// Puts a statement behind those of the block before it, where the block may end, too.
#[cycle(statement)]
#[tactic(auto, unfolding(crate::specs::Statements::statement_with))]
fn statement(parser: &mut Parser<'_>, room: u32, body: &mut Vec<Stmt>) -> Result<(), TextFault>
    requires { is_no_end (kind_of (state parser.old).rest) ≡ true }
    ensures { Adds body.old.items body.new.items result parser.new (statement_with room (block_at room) (state parser.old)) }
{
    parser.miss(Choice::Mark(Sign::RightBrace));
    let spot = parser.spot_here();
    match parser.peek() {
        Some(TokenKind::Name(_)) => {
            parser.miss(Choice::Statement);
            assignment(parser, room, spot, body)
        }
        Some(TokenKind::Keyword(word)) => {
            let word = *word;
            keyword_statement(parser, word, room, spot, body)
        }
        _ => Err(no_statement(parser)),
    }
}

/// The fault of a token that begins no statement.
fn no_statement(parser: &mut Parser<'_>) -> TextFault
    requires statement { takes choice.Statement (kind_of (state parser.old).rest) ≡ false }
    requires name { takes choice.Name (kind_of (state parser.old).rest) ≡ false }
    ensures fault { result ≡ TextFault.Broken Unexpected (spot_of (state parser.old).rest (state parser.old).end_line) }
    ensures missed { state parser.new ≡ missed choice.Name (missed choice.Statement (state parser.old)) }
{
    parser.miss(Choice::Statement);
    parser.unexpected(Choice::Name)
}

/// Puts the statement that begins with this keyword, which stands next, behind others.
#[cycle(statement)]
fn keyword_statement(
    parser: &mut Parser<'_>,
    word: Keyword,
    room: u32,
    spot: Spot,
    body: &mut Vec<Stmt>,
) -> Result<(), TextFault>
    requires { kind_of (state parser.old).rest ≡ Some (kind.Keyword word) }
    ensures { Adds body.old.items body.new.items result parser.new (statement_by room (block_at room) spot (Some (kind.Keyword word)) (state parser.old)) }
{
    match word {
        Keyword::Cdreg => register_setting(parser, room, spot, body),
        Keyword::Cfsa => single_action(parser, WordSize::Full, room, spot, body),
        Keyword::Cssa => single_action(parser, WordSize::Short, room, spot, body),
        Keyword::Put => put_action(parser, room, spot, body),
        _ => rare_statement(parser, word, room, spot, body),
    }
}

/// The same, but none of those that most scripts have most of. It stands apart, so that these make no room for its statement.
#[inline(never)]
#[cycle(statement)]
fn rare_statement(
    parser: &mut Parser<'_>,
    word: Keyword,
    room: u32,
    spot: Spot,
    body: &mut Vec<Stmt>,
) -> Result<(), TextFault>
    requires next { kind_of (state parser.old).rest ≡ Some (kind.Keyword word) }
    requires rare { is_frequent word ≡ false }
    ensures { Adds body.old.items body.new.items result parser.new (nested_by room (block_at room) spot (Some (kind.Keyword word)) (state parser.old)) }
{
    let statement = other_statement(parser, word, room, spot)?;
    body.push(statement)?;
    Ok(())
}

/// The statement that begins with this keyword, which stands next, but none of those that most scripts have most of.
#[cycle(statement)]
fn other_statement(
    parser: &mut Parser<'_>,
    word: Keyword,
    room: u32,
    spot: Spot,
) -> Result<Stmt, TextFault>
    requires next { kind_of (state parser.old).rest ≡ Some (kind.Keyword word) }
    requires rare { is_frequent word ≡ false }
    ensures { Gives statement_of result parser.new (nested_by room (block_at room) spot (Some (kind.Keyword word)) (state parser.old)) }
{
    match word {
        Keyword::If => if_statement(parser, room, spot),
        Keyword::For => for_statement(parser, room, spot),
        Keyword::While => while_statement(parser, room, spot),
        Keyword::Lock => lock_statement(parser, room, spot),
        Keyword::Cfmad => scan(parser, room, spot),
        Keyword::Cfubc => q_stop(parser, room, spot),
        Keyword::Cfubr => q_repeat(parser, room, spot),
        Keyword::Call => call(parser, room, spot),
        Keyword::Cccz => crate_action(parser, CrateCall::Initialise, room, spot),
        Keyword::Cccc => crate_action(parser, CrateCall::Clear, room, spot),
        Keyword::Ctci => crate_action(parser, CrateCall::TestInhibit, room, spot),
        Keyword::Ctcd => crate_action(parser, CrateCall::TestDemandOutput, room, spot),
        Keyword::Ctgl => crate_action(parser, CrateCall::TestDemand, room, spot),
        Keyword::Ccci => crate_switch(
            parser,
            CrateCall::InhibitOn,
            CrateCall::InhibitOff,
            room,
            spot,
        ),
        Keyword::Cccd => crate_switch(
            parser,
            CrateCall::DemandOn,
            CrateCall::DemandOff,
            room,
            spot,
        ),
        Keyword::Cclm => lam_switch(parser, spot),
        Keyword::Cclc => lam_action(parser, LamCall::Clear, spot),
        Keyword::Ctlm => lam_action(parser, LamCall::Test, spot),
        _ => Err(no_statement(parser)),
    }
}
