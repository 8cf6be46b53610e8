// Statements that hold blocks.

ghost use Rattle.std.specs.Prelude.{◌≡◌};
ghost use Rattle.camac_lang.specs.View.{expression_of, statement_of};
ghost use Rattle.camac_text_statements.specs.Statements.{if_statement, for_statement, single_number, while_statement, lock_statement, block_at};
ghost use Rattle.camac_text_cursor.specs.Parser.{state, Gives};

use crate::statements::block;
use camac_lang::{Expr, ForHead, Form, Spot, Stmt, WhileHead};
use camac_text_cursor::{Choice, Parser};
use camac_text_phrases::{Own, condition, expression, keeps};
use camac_tokens::{Keyword, Sign, TextCase, TextFault, TokenKind};

/// `if`
#[cycle(statement)]
#[tactic(auto, unfolding(crate::specs::Statements::if_statement))]
pub fn if_statement(parser: &mut Parser<'_>, room: u32, spot: Spot) -> Result<Stmt, TextFault>
    ensures { Gives statement_of result parser.new (if_statement room (block_at room) spot (state parser.old)) }
{
    parser.begin()?;
    let test = condition(parser, room)?;
    let then = block(parser, room)?;
    match parser.peek() {
        Some(TokenKind::Keyword(Keyword::Else)) => {
            parser.advance();
            let otherwise = block(parser, room)?;
            Ok(Stmt::IfElse {
                spot,
                test,
                then,
                otherwise,
            })
        }
        _ => {
            parser.miss(Choice::Word(Keyword::Else));
            Ok(Stmt::If { spot, test, then })
        }
    }
}

/// `for`
#[cycle(statement)]
#[tactic(auto, unfolding(crate::specs::Statements::for_statement))]
pub fn for_statement(parser: &mut Parser<'_>, room: u32, spot: Spot) -> Result<Stmt, TextFault>
    ensures { Gives statement_of result parser.new (for_statement room (block_at room) spot (state parser.old)) }
{
    parser.begin()?;
    let variable = parser.used_variable()?;
    parser.expect_sign(Sign::Equals)?;
    let from = expression(parser, room)?;
    parser.expect(Keyword::To)?;
    let to = expression(parser, room)?;
    if let (Some(first), Some(last)) = (single_number(&from), single_number(&to)) {
        if parser.next_is_each() {
            parser.advance();
            let body = block(parser, room)?;
            return Ok(Stmt::ForEach {
                spot,
                variable,
                first,
                last,
                body,
            });
        }
        parser.miss(Choice::Each);
    }
    let keeps = keeps(parser, Own::Counter(variable))?;
    let body = block(parser, room)?;
    let head = ForHead {
        spot,
        variable,
        from,
        to,
        keeps,
    };
    Ok(Stmt::For { head, body })
}

/// The number that an expression is, if it is no more than that.
fn single_number(expression: &Expr) -> Option<u32>
    ensures { result ≡ single_number (expression_of expression.now) }
{
    match expression.term().form() {
        Form::Number(number) => Some(number),
        _ => None,
    }
}

/// `while`
#[cycle(statement)]
#[tactic(auto, unfolding(crate::specs::Statements::while_statement))]
pub fn while_statement(parser: &mut Parser<'_>, room: u32, spot: Spot) -> Result<Stmt, TextFault>
    ensures { Gives statement_of result parser.new (while_statement room (block_at room) spot (state parser.old)) }
{
    parser.begin()?;
    let test = condition(parser, room)?;
    parser.expect(Keyword::Turns)?;
    let turns = parser.any_number()?;
    parser.expect(Keyword::By)?;
    let measure = parser.used_variable()?;
    let keeps = keeps(parser, Own::Measure(measure))?;
    let body = block(parser, room)?;
    let head = WhileHead {
        spot,
        test,
        turns,
        measure,
        keeps,
    };
    Ok(Stmt::While { head, body })
}

/// `lock`, which stands in no procedure
#[cycle(statement)]
#[tactic(auto, unfolding(crate::specs::Statements::lock_statement))]
pub fn lock_statement(parser: &mut Parser<'_>, room: u32, spot: Spot) -> Result<Stmt, TextFault>
    ensures { Gives statement_of result parser.new (lock_statement room (block_at room) spot (state parser.old)) }
{
    if parser.in_procedure() {
        return Err(parser.fault(TextCase::LockInProcedure));
    }
    parser.begin()?;
    let crate_no = expression(parser, room)?;
    let body = block(parser, room)?;
    Ok(Stmt::Lock {
        spot,
        crate_no,
        body,
    })
}
