// Crate calls and LAM calls.

ghost use Rattle.std.specs.Prelude.{◌≡◌};
ghost use Rattle.camac_lang.specs.View.{statement_of};
ghost use Rattle.camac_text_statements.specs.Statements.{switch, crate_action, crate_switch, lam_action, lam_switch};
ghost use Rattle.camac_text_cursor.specs.Parser.{state, Gives};

use camac_lang::{Action, CrateAction, CrateCall, LamAction, LamCall, Spot, Stmt};
use camac_text_cursor::{Choice, Parser};
use camac_text_phrases::expression;
use camac_tokens::{Keyword, TextFault, TokenKind};

#[tactic(auto, unfolding(crate::specs::Statements::crate_action))]
pub fn crate_action(
    parser: &mut Parser<'_>,
    call: CrateCall,
    room: u32,
    spot: Spot,
) -> Result<Stmt, TextFault>
    ensures { Gives statement_of result parser.new (crate_action call room spot (state parser.old)) }
{
    parser.begin()?;
    let crate_no = expression(parser, room)?;
    Ok(Stmt::Action(Action::CrateCall(CrateAction {
        spot,
        call,
        crate_no,
    })))
}

/// A crate call that is switched on or off.
#[tactic(auto, unfolding(crate::specs::Statements::crate_switch))]
pub fn crate_switch(
    parser: &mut Parser<'_>,
    on: CrateCall,
    off: CrateCall,
    room: u32,
    spot: Spot,
) -> Result<Stmt, TextFault>
    ensures { Gives statement_of result parser.new (crate_switch on off room spot (state parser.old)) }
{
    parser.begin()?;
    let crate_no = expression(parser, room)?;
    let call = if switch(parser)? { on } else { off };
    Ok(Stmt::Action(Action::CrateCall(CrateAction {
        spot,
        call,
        crate_no,
    })))
}

#[tactic(auto, unfolding(crate::specs::Statements::lam_action))]
pub fn lam_action(parser: &mut Parser<'_>, call: LamCall, spot: Spot) -> Result<Stmt, TextFault>
    ensures { Gives statement_of result parser.new (lam_action call spot (state parser.old)) }
{
    parser.begin()?;
    let lam = parser.used_lam()?;
    Ok(Stmt::Action(Action::LamCall(LamAction { spot, call, lam })))
}

#[tactic(auto, unfolding(crate::specs::Statements::lam_switch))]
pub fn lam_switch(parser: &mut Parser<'_>, spot: Spot) -> Result<Stmt, TextFault>
    ensures { Gives statement_of result parser.new (lam_switch spot (state parser.old)) }
{
    parser.begin()?;
    let lam = parser.used_lam()?;
    let call = if switch(parser)? {
        LamCall::Enable
    } else {
        LamCall::Disable
    };
    Ok(Stmt::Action(Action::LamCall(LamAction { spot, call, lam })))
}

/// Whether `on` stands next, and not `off`.
#[tactic(auto, unfolding(crate::specs::Statements::switch))]
fn switch(parser: &mut Parser<'_>) -> Result<bool, TextFault>
    ensures { Gives (λ b. b) result parser.new (switch (state parser.old)) }
{
    match parser.peek() {
        Some(TokenKind::Keyword(Keyword::On)) => {
            parser.advance();
            Ok(true)
        }
        Some(TokenKind::Keyword(Keyword::Off)) => {
            parser.advance();
            Ok(false)
        }
        _ => Err(parser.unexpected(Choice::Switch)),
    }
}
