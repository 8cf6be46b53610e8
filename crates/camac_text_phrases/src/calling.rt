// The arguments of a call.

ghost use Rattle.std.specs.Prelude.{◌≡◌, map, suc, []};
ghost use Rattle.camac_lang.specs.View.{expression_of};
ghost use Rattle.camac_text_cursor.specs.Parser.{state, Gives};
ghost use Rattle.camac_text_cursor.specs.Reading.{kind_of};
ghost use Rattle.camac_text_cursor.specs.Readers.{is_sign};
ghost use Rattle.camac_tokens.specs.declared.token.Sign.TheVariants.{Comma, RightBracket};
ghost use Rattle.camac_text_phrases.specs.Arguments.{begins_value, shows_more, counted_sign, argument_after, more_arguments, arguments_at};

use crate::expressions::expression;
use camac_lang::Expr;
use camac_text_cursor::{Choice, Parser};
use camac_tokens::{Limit, Sign, TextCase, TextFault, TokenKind};

/// So many arguments in their brackets, where so many brackets may be open at once: S2 at the token where another number of
/// arguments shows, S6 at a bracket too many, else the faults of expressions.
#[tactic(auto, unfolding(crate::specs::Arguments::arguments_at))]
pub fn arguments(parser: &mut Parser<'_>, room: u32, count: usize) -> Result<Vec<Expr>, TextFault>
    ensures { Gives (λ es. map expression_of es.items) result parser.new (arguments_at room count (state parser.old)) }
{
    if room == 0 {
        if parser.next_is_sign(Sign::LeftBracket) {
            return Err(parser.fault(TextCase::Limit(Limit::Depth)));
        }
        return Err(parser.unexpected(Choice::Mark(Sign::LeftBracket)));
    }
    in_brackets(parser, room - 1, count)
}

#[tactic(auto, unfolding(crate::specs::Arguments::arguments_at))]
fn in_brackets(parser: &mut Parser<'_>, room: u32, count: usize) -> Result<Vec<Expr>, TextFault>
    ensures { Gives (λ es. map expression_of es.items) result parser.new (arguments_at (suc room) count (state parser.old)) }
{
    parser.expect_sign(Sign::LeftBracket)?;
    let arguments = argument_list(parser, room, count)?;
    closing_bracket(parser, count)?;
    Ok(arguments)
}

fn argument_list(parser: &mut Parser<'_>, room: u32, count: usize) -> Result<Vec<Expr>, TextFault>
    ensures { Gives (λ es. map expression_of es.items) result parser.new (more_arguments count room count [] (state parser.old)) }
{
    let mut arguments = Vec::new(parser.alloc());
    while arguments.len() < count {
        let argument = argument(parser, room, &arguments, count)?;
        arguments.push(argument)?;
    }
    Ok(arguments)
}

/// An argument after these, of so many.
fn argument(
    parser: &mut Parser<'_>,
    room: u32,
    before: &[Expr],
    count: usize,
) -> Result<Expr, TextFault>
    ensures { Gives expression_of result parser.new (argument_after count room (map expression_of before.now) (state parser.old)) }
{
    match before {
        [] => first_argument(parser, room, count),
        [_, ..] => {
            comma(parser, count)?;
            expression(parser, room)
        }
    }
}

fn first_argument(parser: &mut Parser<'_>, room: u32, count: usize) -> Result<Expr, TextFault>
    ensures { Gives expression_of result parser.new (argument_after count room [] (state parser.old)) }
{
    if parser.next_is_sign(Sign::RightBracket) {
        return Err(parser.fault(TextCase::ArgumentCount { wanted: count }));
    }
    expression(parser, room)
}

/// The `,` between two of so many arguments, where `)` shows that one is missing.
#[tactic(auto, unfolding(crate::specs::Arguments::counted_sign))]
fn comma(parser: &mut Parser<'_>, count: usize) -> Result<(), TextFault>
    ensures { Gives (λ _. tt) result parser.new (counted_sign Comma (is_sign RightBracket) count (state parser.old)) }
{
    if parser.next_is_sign(Sign::Comma) {
        parser.advance();
        return Ok(());
    }
    if parser.next_is_sign(Sign::RightBracket) {
        return Err(parser.fault(TextCase::ArgumentCount { wanted: count }));
    }
    Err(parser.unexpected(Choice::Mark(Sign::Comma)))
}

/// The `)` after so many arguments, where `,` or a value shows one too many.
#[tactic(auto, unfolding(crate::specs::Arguments::counted_sign))]
fn closing_bracket(parser: &mut Parser<'_>, count: usize) -> Result<(), TextFault>
    ensures { Gives (λ _. tt) result parser.new (counted_sign RightBracket (shows_more count) count (state parser.old)) }
{
    if parser.next_is_sign(Sign::RightBracket) {
        parser.advance();
        return Ok(());
    }
    if shows_more(parser, count) {
        return Err(parser.fault(TextCase::ArgumentCount { wanted: count }));
    }
    Err(parser.unexpected(Choice::Mark(Sign::RightBracket)))
}

/// Whether what stands next shows one argument too many after so many.
fn shows_more(parser: &Parser<'_>, count: usize) -> bool
    ensures { result ≡ shows_more count (kind_of (state parser.now).rest) }
{
    if count > 0 {
        return parser.next_is_sign(Sign::Comma);
    }
    begins_value(parser)
}

/// Whether an expression begins next.
fn begins_value(parser: &Parser<'_>) -> bool
    ensures { result ≡ begins_value (kind_of (state parser.now).rest) }
{
    matches!(
        parser.peek(),
        Some(TokenKind::Number(_))
            | Some(TokenKind::Name(_))
            | Some(TokenKind::Sign(Sign::LeftBracket))
    )
}
