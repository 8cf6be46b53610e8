// A text with gaps, each of which is a `%`.

ghost use Rattle.std.specs.Prelude.{◌≡◌, ◌++◌, IfOk, OnOk, map, string_bytes};
ghost use Rattle.std.specs.List.{after_first, before_first};
ghost use Rattle.camac_sentence.specs.Filled.{filled, is_gap, part_text};

use crate::part::Part;
use std::alloc::{AllocError, Global};

/// The text with these parts in its gaps, one after the other.
pub fn fill(alloc: Global, text: &str, parts: &[Part<'_>]) -> Result<String, AllocError>
    ensures { IfOk result (λ s. string_bytes s ≡ filled text.now (map part_text parts.now)) }
{
    let mut sentence = String::new(alloc);
    let mut rest = text;
    'parts: for part in parts {
        let (before, behind) = around_gap(rest);
        push_part(alloc, &mut sentence, before, *part)?;
        rest = behind;
    }
    sentence.push_str(rest)?;
    Ok(sentence)
}

fn push_part(
    alloc: Global,
    sentence: &mut String,
    before: &str,
    part: Part<'_>,
) -> Result<(), AllocError>
    ensures { OnOk result (string_bytes sentence.new ≡ string_bytes sentence.old ++ (before.now ++ part_text part.entry)) }
{
    let piece = format!(in alloc; "{before}{part}")?;
    sentence.push_str(piece.as_str())
}

// What stands before the first gap, and behind it.
fn around_gap(text: &str) -> (&str, &str)
    ensures before { result.0.now ≡ before_first is_gap text.now }
    ensures behind { result.1.now ≡ after_first is_gap text.now }
{
    match text.split_once('%') {
        Some(around) => around,
        None => (text, ""),
    }
}
