// Transfers, and calls of procedures.

ghost use Rattle.std.specs.Prelude.{◌≡◌};
ghost use Rattle.camac_lang.specs.View.{expression_of, statement_of};
ghost use Rattle.camac_text_cursor.specs.Parser.{state, Gives};
ghost use Rattle.camac_text_statements.specs.Transfers.{last_bound, table_at, scan_statement, q_stop_statement, q_repeat_statement, call_statement};

use camac_lang::{Action, AddressScan, BlockTransfer, Expr, ProcedureCall, Spot, Stmt};
use camac_text_cursor::{Choice, Parser};
use camac_text_phrases::{arguments, expression};
use camac_tokens::{Keyword, TextFault, TokenKind};

/// `cfmad`
#[tactic(auto, unfolding(crate::specs::Transfers::scan_statement))]
pub fn scan(parser: &mut Parser<'_>, room: u32, spot: Spot) -> Result<Stmt, TextFault>
    ensures { Gives statement_of result parser.new (scan_statement room spot (state parser.old)) }
{
    parser.begin()?;
    let function = parser.function_number()?;
    let first = parser.used_register()?;
    let last = parser.used_register()?;
    let (max, tally) = last_bound(parser, Keyword::Max, room)?;
    Ok(Stmt::Action(Action::Scan(AddressScan {
        spot,
        function,
        first,
        last,
        max,
        tally,
    })))
}

/// `cfubc`
#[tactic(auto, unfolding(crate::specs::Transfers::q_stop_statement))]
pub fn q_stop(parser: &mut Parser<'_>, room: u32, spot: Spot) -> Result<Stmt, TextFault>
    ensures { Gives statement_of result parser.new (q_stop_statement room spot (state parser.old)) }
{
    parser.begin()?;
    let function = parser.function_number()?;
    let register = parser.used_register()?;
    let table = table(parser)?;
    let (max, tally) = last_bound(parser, Keyword::Max, room)?;
    let transfer = BlockTransfer {
        spot,
        function,
        register,
        table,
        max,
        tally,
    };
    Ok(Stmt::Action(Action::QStop { transfer }))
}

/// `cfubr`
#[tactic(auto, unfolding(crate::specs::Transfers::q_repeat_statement))]
pub fn q_repeat(parser: &mut Parser<'_>, room: u32, spot: Spot) -> Result<Stmt, TextFault>
    ensures { Gives statement_of result parser.new (q_repeat_statement room spot (state parser.old)) }
{
    parser.begin()?;
    let function = parser.function_number()?;
    let register = parser.used_register()?;
    let table = table(parser)?;
    parser.expect(Keyword::Max)?;
    let max = expression(parser, room)?;
    let (limit, tally) = last_bound(parser, Keyword::Limit, room)?;
    let transfer = BlockTransfer {
        spot,
        function,
        register,
        table,
        max,
        tally,
    };
    Ok(Stmt::Action(Action::QRepeat { transfer, limit }))
}

/// The table of a write, if one is named.
#[tactic(auto, unfolding(crate::specs::Transfers::table_at))]
fn table(parser: &mut Parser<'_>) -> Result<Option<usize>, TextFault>
    ensures { Gives (λ t. t) result parser.new (table_at (state parser.old)) }
{
    match parser.peek() {
        Some(TokenKind::Keyword(Keyword::Table)) => {
            parser.advance();
            let place = parser.used_table()?;
            Ok(Some(place))
        }
        _ => {
            parser.miss(Choice::Word(Keyword::Table));
            Ok(None)
        }
    }
}

/// The last bound of a transfer after its word, and the tally.
#[tactic(auto, unfolding(crate::specs::Transfers::last_bound))]
fn last_bound(
    parser: &mut Parser<'_>,
    after_first: Keyword,
    room: u32,
) -> Result<(Expr, usize), TextFault>
    ensures { Gives (λ p. (expression_of p.0, p.1)) result parser.new (last_bound after_first room (state parser.old)) }
{
    parser.expect(after_first)?;
    let bound = expression(parser, room)?;
    parser.expect(Keyword::Tally)?;
    let tally = parser.used_variable()?;
    Ok((bound, tally))
}

/// `call`
#[tactic(auto, unfolding(crate::specs::Transfers::call_statement))]
pub fn call(parser: &mut Parser<'_>, room: u32, spot: Spot) -> Result<Stmt, TextFault>
    ensures { Gives statement_of result parser.new (call_statement room spot (state parser.old)) }
{
    parser.begin()?;
    let procedure = parser.procedure_here()?;
    let wanted = parser.called(room, procedure)?;
    let arguments = arguments(parser, room, wanted)?;
    Ok(Stmt::Action(Action::Call(ProcedureCall {
        spot,
        procedure,
        arguments,
    })))
}
