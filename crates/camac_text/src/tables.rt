// Tables.

ghost use Rattle.std.specs.Prelude.{◌≡◌};
ghost use Rattle.camac_text_cursor.specs.Parser.{state, Gives};
ghost use Rattle.camac_text.specs.Tables.{word_after, table_words, table_declaration};

use camac_lang::{Spot, Table, limits};
use camac_text_cursor::{Choice, Parser};
use camac_tokens::{Limit, Sign, TextCase, TextFault};
use camac_word::Word24;

/// `table`
#[tactic(auto, unfolding(crate::specs::Tables::table_declaration))]
pub fn table_declaration(parser: &mut Parser<'_>, spot: Spot) -> Result<(), TextFault>
    ensures { Gives (λ _. tt) result parser.new (table_declaration spot (state parser.old)) }
{
    if parser.table_count() >= limits::TABLES {
        return Err(parser.fault(TextCase::Limit(Limit::Tables)));
    }
    parser.advance();
    let name = parser.new_name()?;
    parser.advance();
    parser.expect_sign(Sign::Equals)?;
    let words = table_words(parser)?;
    parser.add_table(Table { spot, name, words })
}

#[tactic(auto, unfolding(crate::specs::Tables::table_words))]
fn table_words(parser: &mut Parser<'_>) -> Result<Vec<Word24>, TextFault>
    ensures { Gives (λ ws. ws.items) result parser.new (table_words (state parser.old)) }
{
    let first = word_after(parser, 0)?;
    let mut words = Vec::new(parser.alloc());
    words.push(first)?;
    while parser.next_is_number() {
        let word = word_after(parser, words.len())?;
        words.push(word)?;
    }
    parser.miss(Choice::Number);
    Ok(words)
}

/// A word after so many words.
#[tactic(auto, unfolding(crate::specs::Tables::word_after))]
fn word_after(parser: &mut Parser<'_>, count: usize) -> Result<Word24, TextFault>
    ensures { Gives (λ w. w) result parser.new (word_after count (state parser.old)) }
{
    let number = parser.number_here()?;
    match Word24::new(number) {
        Some(word) => {
            if count >= limits::TABLE_WORDS {
                return Err(parser.fault(TextCase::Limit(Limit::TableWords)));
            }
            parser.advance();
            Ok(word)
        }
        None => Err(parser.fault(TextCase::Number { most: 16_777_215 })),
    }
}
