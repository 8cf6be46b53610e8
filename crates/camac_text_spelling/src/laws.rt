// What holds of the spelling of trees: each law is the contract of a function that does nothing.

ghost use Rattle.camac_text_spelling.specs.Spells.{ExampleIsSpelled, ReadIsSpelled, SpelledTokensAreRead, SpelledIsRead, SpelledOnce, FaultSpellsNothing, RefusedIsNotSpelled};

/// The tokens of the standard example's text spell its tree.
#[tactic(auto, using(crate::proofs::SpelledScripts::example_is_spelled))]
pub fn example_is_spelled()
    ensures { ExampleIsSpelled }
{}

/// The tree that is read of a text, which `parse` answers, is one that the text's tokens spell.
#[tactic(auto, using(crate::proofs::SpelledScripts::read_is_spelled))]
pub fn read_is_spelled()
    ensures { ReadIsSpelled }
{}

/// A tree that tokens spell is what is read of them, whatever the line of the end.
#[tactic(auto, using(crate::proofs::Read::spelled_tokens_are_read))]
pub fn spelled_tokens_are_read()
    ensures { SpelledTokensAreRead }
{}

/// A tree that the tokens of a text spell is what is read of the text, so `parse` answers it.
pub fn spelled_is_read()
    ensures { SpelledIsRead }
{}

/// Tokens spell at most one tree.
#[tactic(auto, using(crate::proofs::Read::spelled_once))]
pub fn spelled_once()
    ensures { SpelledOnce }
{}

/// Where `parse` answers a fault at a token, no list of tokens that is the same up to and with this token spells a tree.
pub fn fault_spells_nothing()
    ensures { FaultSpellsNothing }
{}

/// A text that is refused has no tree that its tokens spell.
pub fn refused_is_not_spelled()
    ensures { RefusedIsNotSpelled }
{}
