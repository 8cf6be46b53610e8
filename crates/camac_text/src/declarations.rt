// Declarations.

ghost use Rattle.std.specs.Prelude.{◌≡◌, suc};
ghost use Rattle.camac_text_cursor.specs.Reading.{kind_of, until};
ghost use Rattle.camac_text_cursor.specs.declared.choice.Choice.TheVariants as choice;
ghost use Rattle.camac_text_cursor.specs.Readers.{is_name};
ghost use Rattle.camac_text.specs.Declarations.{lam_declaration, one_more_variable, variable_declaration, service_declaration, declaration_at, is_token, declarations_at};
ghost use Rattle.camac_text_cursor.specs.Parser.{state, Gives};

use crate::procedures::procedure_declaration;
use crate::tables::table_declaration;
use camac_lang::{Lam, Spot, limits};
use camac_text_cursor::{Choice, Parser};
use camac_text_statements::block;
use camac_tokens::{Keyword, Limit, TextCase, TextFault, TokenKind};

/// All declarations to the text's end.
#[tactic(auto, unfolding(crate::specs::Declarations::declarations_at))]
pub fn declarations(parser: &mut Parser<'_>) -> Result<(), TextFault>
    ensures { Gives (λ _. tt) result parser.new (declarations_at (state parser.old)) }
{
    while has_token(parser) {
        declaration(parser)?;
    }
    Ok(())
}

fn has_token(parser: &Parser<'_>) -> bool
    ensures { result ≡ is_token (kind_of (state parser.now).rest) }
{
    parser.peek().is_some()
}

#[tactic(auto, unfolding(crate::specs::Declarations::declaration_at))]
fn declaration(parser: &mut Parser<'_>) -> Result<(), TextFault>
    ensures { Gives (λ _. tt) result parser.new (declaration_at (state parser.old)) }
{
    let spot = parser.spot_here();
    match parser.peek() {
        Some(TokenKind::Keyword(Keyword::Table)) => table_declaration(parser, spot),
        Some(TokenKind::Keyword(Keyword::Cdlam)) => lam_declaration(parser, spot),
        Some(TokenKind::Keyword(Keyword::Var)) => variable_declaration(parser, spot),
        Some(TokenKind::Keyword(Keyword::Proc)) => procedure_declaration(parser, spot),
        Some(TokenKind::Keyword(Keyword::Service)) => service_declaration(parser, spot),
        _ => Err(parser.unexpected(Choice::Declaration)),
    }
}

#[tactic(auto, unfolding(crate::specs::Declarations::lam_declaration))]
fn lam_declaration(parser: &mut Parser<'_>, spot: Spot) -> Result<(), TextFault>
    ensures { Gives (λ _. tt) result parser.new (lam_declaration spot (state parser.old)) }
{
    if parser.lam_count() >= limits::LAMS {
        return Err(parser.fault(TextCase::Limit(Limit::Lams)));
    }
    parser.advance();
    let name = parser.new_name()?;
    parser.advance();
    parser.branch_number()?;
    let crate_no = parser.any_number()?;
    let station = parser.any_number()?;
    let sub_address = parser.sub_address_number()?;
    parser.add_lam(Lam {
        spot,
        name,
        crate_no,
        station,
        sub_address,
    })
}

#[tactic(auto, unfolding(crate::specs::Declarations::variable_declaration))]
fn variable_declaration(parser: &mut Parser<'_>, spot: Spot) -> Result<(), TextFault>
    ensures { Gives (λ _. tt) result parser.new (variable_declaration spot (state parser.old)) }
{
    parser.advance();
    parser.new_variable()?;
    let count = more_variables(parser)?;
    parser.add_variables(spot, count)
}

/// The number of variables of a declaration, of which one is read.
fn more_variables(parser: &mut Parser<'_>) -> Result<usize, TextFault>
    ensures { Gives (λ n. n) result parser.new (until choice.Name is_name one_more_variable 1 (state parser.old)) }
{
    let mut count = 1;
    while parser.next_is_name() {
        parser.new_variable()?;
        count += 1;
    }
    parser.miss(Choice::Name);
    Ok(count)
}

#[tactic(auto, unfolding(crate::specs::Declarations::service_declaration))]
fn service_declaration(parser: &mut Parser<'_>, spot: Spot) -> Result<(), TextFault>
    ensures { Gives (λ _. tt) result parser.new (service_declaration spot (state parser.old)) }
{
    if parser.service_count() >= limits::SERVICES {
        return Err(parser.fault(TextCase::Limit(Limit::Services)));
    }
    parser.advance();
    let lam = parser.used_lam()?;
    parser.expect(Keyword::Within)?;
    let cycles = parser.any_number()?;
    parser.expect(Keyword::Cycles)?;
    parser.expect(Keyword::Event)?;
    let words = parser.any_number()?;
    parser.expect(Keyword::Words)?;
    let body = block(parser, limits::DEPTH as u32)?;
    parser.add_service(spot, lam, cycles, words, body)
}
