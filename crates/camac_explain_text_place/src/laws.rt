// A law, as the contract of a function that does nothing.

ghost use Rattle.std.specs.Prelude.{◌≡◌, find, is_some, true};
ghost use Rattle.camac_tokens.specs.declared.token.Keyword.{Keyword};
ghost use Rattle.camac_tokens.specs.declared.token.Sign.{Sign};
ghost use Rattle.camac_explain_text_words.specs.Spelled.{is_mark, is_word, keywords};
ghost use Rattle.camac_explain_text_place.specs.Expected.{signs};

/// Each sign and each word of the language is looked at for what may stand at a place.
#[tactic(auto, using(crate::proofs::Whole::each_sign, crate::proofs::Whole::each_word))]
pub fn lists_are_whole()
    ensures signs { (s : Sign) → is_some (find (is_mark s) signs) ≡ true }
    ensures words { (w : Keyword) → is_some (find (is_word w) keywords) ≡ true }
{}
