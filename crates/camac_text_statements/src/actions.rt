// Assignments, registers, single actions and words of the event: what most scripts have most of. Each is put behind the others where it is made, since it
// is large: as a result it would be copied twice.

ghost use Rattle.std.specs.Prelude.{◌≡◌};
ghost use Rattle.camac_lang.specs.View.{move_of};
ghost use Rattle.camac_text_statements.specs.Statements.{Adds, assignment, register_setting, move_at, single_action, put_action};
ghost use Rattle.camac_text_cursor.specs.Parser.{state, Gives};

use camac_lang::{
    Action, Assignment, Move, PutAction, RegisterSetting, SingleAction, Spot, Stmt, WordSize,
};
use camac_text_cursor::{Choice, Parser};
use camac_text_phrases::expression;
use camac_tokens::{Sign, TextFault, TokenKind};

#[tactic(auto, unfolding(crate::specs::Statements::assignment))]
pub fn assignment(
    parser: &mut Parser<'_>,
    room: u32,
    spot: Spot,
    body: &mut Vec<Stmt>,
) -> Result<(), TextFault>
    ensures { Adds body.old.items body.new.items result parser.new (assignment room spot (state parser.old)) }
{
    let variable = parser.variable_here()?;
    parser.begin()?;
    parser.expect_sign(Sign::Equals)?;
    let value = expression(parser, room)?;
    body.push(Stmt::Action(Action::Assign(Assignment {
        spot,
        variable,
        value,
    })))?;
    Ok(())
}

#[tactic(auto, unfolding(crate::specs::Statements::register_setting))]
pub fn register_setting(
    parser: &mut Parser<'_>,
    room: u32,
    spot: Spot,
    body: &mut Vec<Stmt>,
) -> Result<(), TextFault>
    ensures { Adds body.old.items body.new.items result parser.new (register_setting room spot (state parser.old)) }
{
    parser.begin()?;
    let register = parser.set_name()?;
    parser.branch_number()?;
    let crate_no = expression(parser, room)?;
    let station = expression(parser, room)?;
    let sub_address = expression(parser, room)?;
    body.push(Stmt::Action(Action::SetRegister(RegisterSetting {
        spot,
        register,
        crate_no,
        station,
        sub_address,
    })))?;
    Ok(())
}

#[tactic(auto, unfolding(crate::specs::Statements::single_action))]
pub fn single_action(
    parser: &mut Parser<'_>,
    size: WordSize,
    room: u32,
    spot: Spot,
    body: &mut Vec<Stmt>,
) -> Result<(), TextFault>
    ensures { Adds body.old.items body.new.items result parser.new (single_action size room spot (state parser.old)) }
{
    parser.begin()?;
    let function = parser.function_number()?;
    let register = parser.used_register()?;
    let data = data_move(parser, room)?;
    body.push(Stmt::Action(Action::Single(SingleAction {
        spot,
        size,
        function,
        register,
        data,
    })))?;
    Ok(())
}

/// What a single action moves.
#[tactic(auto, unfolding(crate::specs::Statements::move_at))]
fn data_move(parser: &mut Parser<'_>, room: u32) -> Result<Move, TextFault>
    ensures { Gives move_of result parser.new (move_at room (state parser.old)) }
{
    match parser.peek() {
        Some(TokenKind::Sign(Sign::Into)) => {
            parser.advance();
            let place = parser.used_variable()?;
            Ok(Move::Into(place))
        }
        Some(TokenKind::Sign(Sign::From)) => {
            parser.advance();
            let value = expression(parser, room)?;
            Ok(Move::From(value))
        }
        _ => {
            parser.miss(Choice::Arrow);
            Ok(Move::NoData)
        }
    }
}

#[tactic(auto, unfolding(crate::specs::Statements::put_action))]
pub fn put_action(
    parser: &mut Parser<'_>,
    room: u32,
    spot: Spot,
    body: &mut Vec<Stmt>,
) -> Result<(), TextFault>
    ensures { Adds body.old.items body.new.items result parser.new (put_action room spot (state parser.old)) }
{
    parser.begin()?;
    let value = expression(parser, room)?;
    body.push(Stmt::Action(Action::Put(PutAction { spot, value })))?;
    Ok(())
}
