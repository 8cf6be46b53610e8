// Conditions.

ghost use Rattle.std.specs.Prelude.{◌≡◌, false};
ghost use Rattle.camac_lang.specs.View.{test_of, part_of, condition_of};
ghost use Rattle.camac_text_phrases.specs.Conditions.{comparison_sign, compared, test_at, part_at, part_limit, and_part, condition_at};
ghost use Rattle.camac_text_cursor.specs.Choice.{takes};
ghost use Rattle.camac_text_cursor.specs.declared.choice.Choice.TheVariants as choice;
ghost use Rattle.camac_text_cursor.specs.Reading.{kind_of, missed, spot_of};
ghost use Rattle.camac_tokens.specs.declared.fault.TextCase.TheVariants.{Unexpected};
ghost use Rattle.camac_tokens.specs.declared.token.Keyword.TheVariants as word;
ghost use Rattle.camac_tokens.specs.declared.token.Sign.TheVariants as sign;
ghost use Rattle.camac_text_cursor.specs.Parser.{state, Gives};

use crate::expressions::expression;
use camac_lang::{Cond, Part, Test, limits};
use camac_range::Cmp;
use camac_text_cursor::{Choice, Parser};
use camac_tokens::{Keyword, Limit, Sign, TextCase, TextFault, TokenKind};

/// A condition, where so many brackets may be open at once.
#[tactic(auto, unfolding(crate::specs::Conditions::condition_at))]
pub fn condition(parser: &mut Parser<'_>, room: u32) -> Result<Cond, TextFault>
    ensures { Gives condition_of result parser.new (condition_at room (state parser.old)) }
{
    let first = part(parser, room)?;
    let mut parts = Vec::new(parser.alloc());
    parts.push(first)?;
    while parser.next_is(Keyword::And) {
        let part = and_part(parser, room, parts.len())?;
        parts.push(part)?;
    }
    parser.miss(Choice::Word(Keyword::And));
    Ok(Cond { parts })
}

/// `and` and a part, after so many parts.
#[tactic(auto, unfolding(crate::specs::Conditions::and_part))]
fn and_part(parser: &mut Parser<'_>, room: u32, count: usize) -> Result<Part, TextFault>
    ensures { Gives part_of result parser.new (and_part room count (state parser.old)) }
{
    parser.advance();
    part_limit(parser, count)?;
    part(parser, room)
}

/// Refuses the first token of a part too many.
#[tactic(auto, unfolding(crate::specs::Conditions::part_limit))]
fn part_limit(parser: &mut Parser<'_>, count: usize) -> Result<(), TextFault>
    ensures { Gives (λ _. tt) result parser.new (part_limit count (state parser.old)) }
{
    if count < limits::CONDITION_PARTS {
        return Ok(());
    }
    match parser.peek() {
        Some(TokenKind::Keyword(Keyword::Q)) => Err(parser.fault(TextCase::Limit(Limit::Parts))),
        Some(TokenKind::Keyword(Keyword::X)) => Err(parser.fault(TextCase::Limit(Limit::Parts))),
        Some(TokenKind::Keyword(Keyword::Not)) => Err(parser.fault(TextCase::Limit(Limit::Parts))),
        Some(TokenKind::Number(_)) => Err(parser.fault(TextCase::Limit(Limit::Parts))),
        Some(TokenKind::Name(_)) => {
            parser.variable_here()?;
            Err(parser.fault(TextCase::Limit(Limit::Parts)))
        }
        Some(TokenKind::Sign(Sign::LeftBracket)) => Err(parser.fault(TextCase::Limit(
            Limit::Parts,
        ))),
        _ => Err(no_part(parser)),
    }
}

/// The fault of a token that begins no part.
fn no_part(parser: &mut Parser<'_>) -> TextFault
    requires not { takes (choice.Word word.Not) (kind_of (state parser.old).rest) ≡ false }
    requires flag { takes choice.Flag (kind_of (state parser.old).rest) ≡ false }
    requires number { takes choice.Number (kind_of (state parser.old).rest) ≡ false }
    requires name { takes choice.Name (kind_of (state parser.old).rest) ≡ false }
    requires bracket { takes (choice.Mark sign.LeftBracket) (kind_of (state parser.old).rest) ≡ false }
    ensures fault { result ≡ TextFault.Broken Unexpected (spot_of (state parser.old).rest (state parser.old).end_line) }
    ensures missed { state parser.new ≡ missed (choice.Mark sign.LeftBracket) (missed choice.Name (missed choice.Number (missed choice.Flag (missed (choice.Word word.Not) (state parser.old))))) }
{
    parser.miss(Choice::Word(Keyword::Not));
    parser.miss(Choice::Flag);
    parser.miss(Choice::Number);
    parser.miss(Choice::Name);
    parser.unexpected(Choice::Mark(Sign::LeftBracket))
}

#[tactic(auto, unfolding(crate::specs::Conditions::part_at))]
fn part(parser: &mut Parser<'_>, room: u32) -> Result<Part, TextFault>
    ensures { Gives part_of result parser.new (part_at room (state parser.old)) }
{
    match parser.peek() {
        Some(TokenKind::Keyword(Keyword::Not)) => {
            parser.advance();
            let test = test(parser, room)?;
            Ok(Part::Not(test))
        }
        _ => {
            parser.miss(Choice::Word(Keyword::Not));
            let test = test(parser, room)?;
            Ok(Part::Plain(test))
        }
    }
}

#[tactic(auto, unfolding(crate::specs::Conditions::test_at))]
fn test(parser: &mut Parser<'_>, room: u32) -> Result<Test, TextFault>
    ensures { Gives test_of result parser.new (test_at room (state parser.old)) }
{
    match parser.peek() {
        Some(TokenKind::Keyword(Keyword::Q)) => {
            parser.advance();
            Ok(Test::Q)
        }
        Some(TokenKind::Keyword(Keyword::X)) => {
            parser.advance();
            Ok(Test::X)
        }
        _ => {
            parser.miss(Choice::Flag);
            compared(parser, room)
        }
    }
}

#[tactic(auto, unfolding(crate::specs::Conditions::compared))]
fn compared(parser: &mut Parser<'_>, room: u32) -> Result<Test, TextFault>
    ensures { Gives test_of result parser.new (compared room (state parser.old)) }
{
    let left = expression(parser, room)?;
    let how = comparison_sign(parser)?;
    let right = expression(parser, room)?;
    Ok(Test::Compare(left, how, right))
}

#[tactic(auto, unfolding(crate::specs::Conditions::comparison_sign))]
fn comparison_sign(parser: &mut Parser<'_>) -> Result<Cmp, TextFault>
    ensures { Gives (λ c. c) result parser.new (comparison_sign (state parser.old)) }
{
    let how = match parser.peek() {
        Some(TokenKind::Sign(Sign::Less)) => Cmp::Less,
        Some(TokenKind::Sign(Sign::AtMost)) => Cmp::AtMost,
        Some(TokenKind::Sign(Sign::More)) => Cmp::More,
        Some(TokenKind::Sign(Sign::AtLeast)) => Cmp::AtLeast,
        Some(TokenKind::Sign(Sign::Same)) => Cmp::Same,
        Some(TokenKind::Sign(Sign::Differs)) => Cmp::Differs,
        _ => return Err(parser.unexpected(Choice::Comparison)),
    };
    parser.advance();
    Ok(how)
}
