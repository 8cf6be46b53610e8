// The table that a block transfer writes, if it names one.

ghost use Rattle.std.specs.Prelude.{◌≡◌, ◌≤◌, ◌^◌, length, map, nat_lt};
ghost use Rattle.camac_lang.specs.Tests.{each};
ghost use Rattle.camac_lang.specs.View.{table_of};
ghost use Rattle.camac_rules.specs.Transfers.{greatest_of, has_words, words_fit, words_sent};

use camac_lang::Table;
use camac_word::Word24;

/// Whether a table has so many words; where none is written there is no need. A table that is not there is wrong at the statement that names it, as
/// a LAM or a procedure is.
#[tactic(auto, using(crate::proofs::Steps::word_lists))]
pub fn has_words(tables: &[Table], table: Option<usize>, n: u32) -> bool
    ensures { result ≡ has_words (map (λ t. t.words) (map table_of tables.now)) table n }
{
    match table {
        None => true,
        Some(table) => match tables.get(table) {
            Some(table) => n as usize <= table.words.len(),
            None => false,
        },
    }
}

/// Whether each word of a table fits a width.
#[tactic(auto, using(crate::proofs::Steps::word_lists))]
pub fn words_fit(tables: &[Table], table: Option<usize>, width: u32) -> bool
    requires { width ≤ 24 }
    ensures { result ≡ words_fit (map (λ t. t.words) (map table_of tables.now)) table width }
{
    match table {
        None => true,
        Some(table) => match tables.get(table) {
            Some(table) => all_fit(&table.words, width),
            None => true,
        },
    }
}

#[tactic(auto, using(crate::proofs::Steps::power_below))]
fn all_fit(words: &[Word24], width: u32) -> bool
    requires { width ≤ 24 }
    ensures { result ≡ each (λ v. nat_lt v (2 ^ width)) words.now }
{
    let end = 2u32.pow(width);
    'words: for word in words {
        if word.get() >= end {
            return false;
        }
    }
    true
}

/// How many words of its table a block transfer may send, 0 of a read.
#[tactic(auto, using(crate::proofs::Steps::word_lists))]
pub fn count_sent(tables: &[Table], table: Option<usize>) -> usize
    ensures { result ≡ length (words_sent (map (λ t. t.words) (map table_of tables.now)) table) }
{
    match table {
        None => 0,
        Some(table) => match tables.get(table) {
            Some(table) => table.words.len(),
            None => 0,
        },
    }
}

/// The greatest of these words, 0 of none.
#[tactic(auto, using(crate::proofs::Steps::word_lists))]
pub fn greatest_sent(tables: &[Table], table: Option<usize>) -> u32
    ensures { result ≡ greatest_of (words_sent (map (λ t. t.words) (map table_of tables.now)) table) }
{
    match table {
        None => 0,
        Some(table) => match tables.get(table) {
            Some(table) => greatest_of(&table.words),
            None => 0,
        },
    }
}

fn greatest_of(words: &[Word24]) -> u32
    ensures { result ≡ greatest_of words.now }
{
    match words {
        [] => 0,
        [first, rest @ ..] => first.get().max(greatest_of(rest)),
    }
}
