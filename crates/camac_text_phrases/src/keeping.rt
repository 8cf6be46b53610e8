// The ranges that a loop keeps.

ghost use Rattle.std.specs.Prelude.{◌≡◌, ◌==◌, map};
ghost use Rattle.std.specs.List.{list_any};
ghost use Rattle.camac_lang.specs.View.{keep_of};
ghost use Rattle.camac_text_phrases.specs.Keeps.{own_place, own_case, is_free, kept_case, keep_at, next_keep, keep_list, keeps_at};
ghost use Rattle.camac_text_cursor.specs.Parser.{state, Gives};

use camac_lang::Keep;
use camac_text_cursor::{Choice, Parser};
use camac_tokens::{Keyword, Sign, TextCase, TextFault};

/// The variable of a loop's own, which it may not keep.
#[derive(Clone, Copy)]
pub enum Own {
    /// That which a `for` sets.
    Counter(usize),
    /// That by which a `while` ends.
    Measure(usize),
}

impl Own {
    fn place(self) -> usize
        ensures { result ≡ own_place self }
    {
        match self {
            Own::Counter(place) | Own::Measure(place) => place,
        }
    }

    /// What is told where it is kept.
    fn case(self) -> TextCase
        ensures { result ≡ own_case self }
    {
        match self {
            Own::Counter(_) => TextCase::CounterKept,
            Own::Measure(_) => TextCase::MeasureKept,
        }
    }
}

/// Whether one of these keeps a variable.
fn is_kept(keeps: &[Keep], variable: usize) -> bool
    ensures { result ≡ list_any (λ k. k.variable == variable) keeps.now }
{
    keeps.iter().any(|keep| keep.variable == variable)
}

/// Whether a variable is neither a loop's own nor kept.
fn is_free(variable: usize, own: Own, keeps: &[Keep]) -> bool
    ensures { result ≡ is_free variable own (map keep_of keeps.now) }
{
    own.place() != variable && !is_kept(keeps, variable)
}

/// What is told of a variable that is not free.
fn kept_case(own: Own, variable: usize) -> TextCase
    ensures { result ≡ kept_case own variable }
{
    if own.place() == variable {
        own.case()
    } else {
        TextCase::KeptTwice
    }
}

/// The ranges that a loop keeps beside this variable of its own.
#[tactic(auto, unfolding(crate::specs::Keeps::keeps_at))]
pub fn keeps(parser: &mut Parser<'_>, own: Own) -> Result<Vec<Keep>, TextFault>
    ensures { Gives (λ ks. map keep_of ks.items) result parser.new (keeps_at own (state parser.old)) }
{
    if !parser.next_is(Keyword::Keep) {
        parser.miss(Choice::Word(Keyword::Keep));
        return Ok(Vec::new(parser.alloc()));
    }
    keep_list(parser, own)
}

#[tactic(auto, unfolding(crate::specs::Keeps::keep_list))]
fn keep_list(parser: &mut Parser<'_>, own: Own) -> Result<Vec<Keep>, TextFault>
    ensures { Gives (λ ks. map keep_of ks.items) result parser.new (keep_list own (state parser.old)) }
{
    parser.advance();
    let mut keeps = Vec::new(parser.alloc());
    let first = keep(parser, own, &keeps)?;
    keeps.push(first)?;
    'more: while parser.next_is_sign(Sign::Comma) {
        let keep = next_keep(parser, own, &keeps)?;
        keeps.push(keep)?;
    }
    parser.miss(Choice::Mark(Sign::Comma));
    Ok(keeps)
}

/// `,` and a keep.
#[tactic(auto, unfolding(crate::specs::Keeps::next_keep))]
fn next_keep(parser: &mut Parser<'_>, own: Own, keeps: &[Keep]) -> Result<Keep, TextFault>
    ensures { Gives keep_of result parser.new (next_keep own (map keep_of keeps.now) (state parser.old)) }
{
    parser.advance();
    keep(parser, own, keeps)
}

#[tactic(auto, unfolding(crate::specs::Keeps::keep_at))]
fn keep(parser: &mut Parser<'_>, own: Own, keeps: &[Keep]) -> Result<Keep, TextFault>
    ensures { Gives keep_of result parser.new (keep_at own (map keep_of keeps.now) (state parser.old)) }
{
    let variable = parser.variable_here()?;
    if !is_free(variable, own, keeps) {
        return Err(parser.fault(kept_case(own, variable)));
    }
    parser.advance();
    parser.expect(Keyword::In)?;
    let low = parser.any_number()?;
    parser.expect_sign(Sign::UpTo)?;
    let high = parser.any_number()?;
    Ok(Keep {
        variable,
        low,
        high,
    })
}
