// Procedures.

ghost use Rattle.std.specs.Prelude.{◌≡◌, map};
ghost use Rattle.camac_lang.specs.View.{parameter_of};
ghost use Rattle.camac_text_cursor.specs.Parser.{state, Gives};
ghost use Rattle.camac_text.specs.Headings.{heading_of};
ghost use Rattle.camac_text.specs.Procedures.{parameter_at, next_parameter, parameter_list, parameters_at, heading_at, procedure_declaration};

use camac_lang::{Parameter, Procedure, Spot, limits};
use camac_text_cursor::{Choice, Parser};
use camac_text_statements::block;
use camac_tokens::{Keyword, Limit, Sign, TextCase, TextFault};

/// What stands in a procedure's heading after its name.
#[derive(Drop)]
pub struct Heading {
    parameters: Vec<Parameter>,
    cycles: u32,
    words: u32,
    steps: u32,
}

/// `proc`
#[tactic(auto, unfolding(crate::specs::Procedures::procedure_declaration))]
pub fn procedure_declaration(parser: &mut Parser<'_>, spot: Spot) -> Result<(), TextFault>
    ensures { Gives (λ _. tt) result parser.new (procedure_declaration spot (state parser.old)) }
{
    if parser.procedure_count() >= limits::PROCEDURES {
        return Err(parser.fault(TextCase::Limit(Limit::Procedures)));
    }
    parser.advance();
    let name = parser.new_name()?;
    parser.advance();
    let names = parser.open_procedure(&name)?;
    let heading = read_heading(parser)?;
    let body = block(parser, limits::DEPTH as u32)?;
    let registers = parser.take_registers();
    let procedure = Procedure {
        spot,
        name,
        parameters: heading.parameters,
        cycles: heading.cycles,
        words: heading.words,
        steps: heading.steps,
        registers,
        body,
    };
    parser.close_procedure(procedure, names)
}

#[tactic(auto, unfolding(crate::specs::Procedures::heading_at))]
fn read_heading(parser: &mut Parser<'_>) -> Result<Heading, TextFault>
    ensures { Gives heading_of result parser.new (heading_at (state parser.old)) }
{
    parser.expect_sign(Sign::LeftBracket)?;
    let parameters = parameters(parser)?;
    parser.expect_sign(Sign::RightBracket)?;
    parser.expect(Keyword::Within)?;
    let cycles = parser.any_number()?;
    parser.expect(Keyword::Cycles)?;
    parser.expect(Keyword::Event)?;
    let words = parser.any_number()?;
    parser.expect(Keyword::Words)?;
    parser.expect(Keyword::Steps)?;
    let steps = parser.any_number()?;
    Ok(Heading {
        parameters,
        cycles,
        words,
        steps,
    })
}

#[tactic(auto, unfolding(crate::specs::Procedures::parameters_at))]
fn parameters(parser: &mut Parser<'_>) -> Result<Vec<Parameter>, TextFault>
    ensures { Gives (λ ps. map parameter_of ps.items) result parser.new (parameters_at (state parser.old)) }
{
    if parser.next_is_sign(Sign::RightBracket) {
        return Ok(Vec::new(parser.alloc()));
    }
    parser.miss(Choice::Mark(Sign::RightBracket));
    parameter_list(parser)
}

#[tactic(auto, unfolding(crate::specs::Procedures::parameter_list))]
fn parameter_list(parser: &mut Parser<'_>) -> Result<Vec<Parameter>, TextFault>
    ensures { Gives (λ ps. map parameter_of ps.items) result parser.new (parameter_list (state parser.old)) }
{
    let first = parameter(parser)?;
    let mut parameters = Vec::new(parser.alloc());
    parameters.push(first)?;
    while parser.next_is_sign(Sign::Comma) {
        let parameter = next_parameter(parser)?;
        parameters.push(parameter)?;
    }
    parser.miss(Choice::Mark(Sign::Comma));
    Ok(parameters)
}

/// `,` and a parameter.
#[tactic(auto, unfolding(crate::specs::Procedures::next_parameter))]
fn next_parameter(parser: &mut Parser<'_>) -> Result<Parameter, TextFault>
    ensures { Gives parameter_of result parser.new (next_parameter (state parser.old)) }
{
    parser.advance();
    parameter(parser)
}

#[tactic(auto, unfolding(crate::specs::Procedures::parameter_at))]
fn parameter(parser: &mut Parser<'_>) -> Result<Parameter, TextFault>
    ensures { Gives parameter_of result parser.new (parameter_at (state parser.old)) }
{
    let name = parser.new_parameter()?;
    parser.expect(Keyword::In)?;
    let low = parser.any_number()?;
    parser.expect_sign(Sign::UpTo)?;
    let high = parser.any_number()?;
    Ok(Parameter { name, low, high })
}
