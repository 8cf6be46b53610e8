// From the text of a script to its tree.

ghost use Rattle.camac_tokens.specs.Fault.{Answers};
ghost use Rattle.camac_tokens.specs.Left.{ahead_of};
ghost use Rattle.camac_tokens.specs.Scanning.{tokens_of};
ghost use Rattle.camac_text_cursor.specs.Parser.{Gives};
ghost use Rattle.camac_text.specs.Declarations.{declarations_at};
ghost use Rattle.camac_text.specs.Places.{HasFault, FaultIs};
ghost use Rattle.camac_text.specs.Expecting.{TellsExpected, Expects};
ghost use Rattle.camac_text.specs.Parser.{unread_in, judged, script_of};

use crate::declarations::declarations;
use camac_lang::Script;
use camac_text_cursor::{Choices, Parser};
use camac_tokens::{TextFault, TokensLeft, end_of};
use std::alloc::Global;

// A fault of a token comes before each fault of the grammar, wherever the two stand. Tokens are judged as they are read, and kept nowhere: a list of them
// took more memory than all else in a check. So they are read once more, to the end, unless the grammar took all of them.

/// The script that a text spells.
///
/// A text is refused by its first token fault (S1, S3, S6), else at its first token from left to right that the grammar or a
/// rule of names, numbers or limits does not allow there (S2 to S7); the text's end counts as a token. Memory may be refused
/// (S8). The language is the project's own, with the ESONE names `cdlam`, `cdreg`, `cfsa`, `cssa`, `cccz` and the like.
pub fn parse(alloc: Global, text: &[u8]) -> Result<Script, TextFault>
    // The tree of the text, or its first fault.
    ensures exact { Answers result (script_of text.now) }
    // A fault of the tokens, or one at a token that no tokens after it change.
    ensures placed { FaultIs result (HasFault text.now) }
{
    let mut expected = Choices::none();
    parse_expecting(alloc, text, &mut expected)
}

/// The same as `parse`, and all that may stand in the place of the token that a fault of the grammar shows: at S2 the tokens that are not refused
/// there by S2. A fault of a token leaves `expected` as it is.
#[tactic(auto, unfolding(crate::specs::Parser::script_of, crate::specs::Parser::tree_of_tokens))]
pub fn parse_expecting(
    alloc: Global,
    text: &[u8],
    expected: &mut Choices,
) -> Result<Script, TextFault>
    ensures exact { Answers result (script_of text.now) }
    ensures tells { TellsExpected text.now result expected.new }
    // A token fits in that place exactly where the set admits it.
    ensures expects { Expects text.now result expected.new }
{
    let mut parser = Parser::new(alloc, TokensLeft::new(text));
    let read = declarations(&mut parser);
    judge_tokens(text, &read, &parser)?;
    *expected = parser.missed();
    read?;
    Ok(parser.into_script())
}

// Whether a text that was read so has no token fault, else its first one. What was read to the text's end has none.
fn judge_tokens(
    text: &[u8],
    read: &Result<(), TextFault>,
    parser: &Parser<'_>,
) -> Result<(), TextFault>
    requires { Gives (λ _. tt) read.now parser.now (declarations_at (unread_in (ahead_of text.now))) }
    ensures { Answers result (judged (tokens_of text.now)) }
{
    match read {
        Ok(()) if parser.is_at_end() => Ok(()),
        _ => {
            end_of(text)?;
            Ok(())
        }
    }
}
