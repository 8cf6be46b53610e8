// The forms of declarations and statements. The page docs/LANGUAGE.md has them: tests/explain_test.py compares them.

ghost use Rattle.std.specs.Prelude.{◌≡◌, map, option_map};
ghost use Rattle.camac_explain_text_words.specs.Forms.{form_in, form_of, form_table, row_of};

use camac_tokens::Keyword;

// A word, and the forms of what begins with it.
type Row = (Keyword, &'static str);

/// What begins with the name of a variable.
pub const ASSIGNMENT: &str = "`VARIABLE = VALUE`";

static FORMS: [Row; 28] = [
    (Keyword::Cdlam, "`cdlam NAME 1 CRATE STATION SUB_ADDRESS`"),
    (Keyword::Var, "`var NAME ..`"),
    (Keyword::Table, "`table NAME = WORD ..`"),
    (
        Keyword::Proc,
        "`proc NAME(P in L..H, ..) within C cycles event W words steps S { .. }`",
    ),
    (
        Keyword::Service,
        "`service NAME within C cycles event W words { .. }`",
    ),
    (
        Keyword::Cdreg,
        "`cdreg REGISTER 1 CRATE STATION SUB_ADDRESS`",
    ),
    (
        Keyword::Cfsa,
        "`cfsa F REGISTER`, `cfsa F REGISTER -> VARIABLE` or `cfsa F REGISTER <- VALUE`",
    ),
    (
        Keyword::Cssa,
        "`cssa F REGISTER`, `cssa F REGISTER -> VARIABLE` or `cssa F REGISTER <- VALUE`",
    ),
    (Keyword::Put, "`put VALUE`"),
    (Keyword::If, "`if CONDITION { .. }`"),
    (Keyword::Else, "`if CONDITION { .. } else { .. }`"),
    (
        Keyword::For,
        "`for VARIABLE = VALUE to VALUE { .. }` or `for VARIABLE = NUMBER to NUMBER each { .. }`",
    ),
    (
        Keyword::While,
        "`while CONDITION turns N by VARIABLE { .. }`",
    ),
    (
        Keyword::Cfmad,
        "`cfmad F REGISTER REGISTER max VALUE tally VARIABLE`",
    ),
    (
        Keyword::Cfubc,
        "`cfubc F REGISTER max VALUE tally VARIABLE`",
    ),
    (
        Keyword::Cfubr,
        "`cfubr F REGISTER max VALUE limit VALUE tally VARIABLE`",
    ),
    (Keyword::Call, "`call NAME(VALUE, ..)`"),
    (Keyword::Lock, "`lock CRATE { .. }`"),
    (Keyword::Cccz, "`cccz CRATE`"),
    (Keyword::Cccc, "`cccc CRATE`"),
    (Keyword::Ccci, "`ccci CRATE on` or `ccci CRATE off`"),
    (Keyword::Ctci, "`ctci CRATE`"),
    (Keyword::Cccd, "`cccd CRATE on` or `cccd CRATE off`"),
    (Keyword::Ctcd, "`ctcd CRATE`"),
    (Keyword::Ctgl, "`ctgl CRATE`"),
    (Keyword::Cclm, "`cclm LAM on` or `cclm LAM off`"),
    (Keyword::Cclc, "`cclc LAM`"),
    (Keyword::Ctlm, "`ctlm LAM`"),
];

#[tactic(auto, unfolding(crate::specs::Forms::form_table))]
fn form_table() -> &'static [Row]
    ensures { map row_of result.now ≡ form_table }
{
    &FORMS
}

/// The forms of what begins with a word.
pub fn form_of(word: Keyword) -> Option<&'static str>
    ensures { option_map (λ s. s.now) result ≡ form_of word }
{
    form_in(form_table(), word)
}

fn form_in(rows: &'static [Row], word: Keyword) -> Option<&'static str>
    ensures { option_map (λ s. s.now) result ≡ form_in (map row_of rows.now) word }
{
    'rows: for row in rows {
        let (first, form) = *row;
        if first == word {
            return Some(form);
        }
    }
    None
}
