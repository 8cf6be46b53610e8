// The engine that explains a rule.

ghost use Rattle.std.specs.Prelude.{◌≡◌, ◌||◌};
ghost use Rattle.camac_engines.specs.Engine.{IsWritten, is_write_fault};
ghost use Rattle.camac_engines.specs.Explain.{TellsRule};
ghost use Rattle.camac_word.specs.Watched.{inner_of, has_failed};

use crate::fault::ToolFault;
use crate::outcome::Outcome;
use camac_explain_rule::{Rule, explain_rule};
use camac_word::Watched;
use std::alloc::Global;
use std::io::Write;

/// Explains a rule, whatever plan or script breaks it. It writes to `out` the code and meaning, why the rule is there, each way to fix it, and an
/// example. A fault of the writer leaves a prefix of the text; before any other fault nothing is written.
pub fn engine_explain_rule<W: Write>(
    alloc: Global,
    rule: Rule,
    out: &mut Watched<W>,
) -> Result<Outcome, ToolFault>
    ensures tells { IsWritten (TellsRule rule) (W.contents (inner_of out.old)) (W.contents (inner_of out.new)) result }
    ensures failed { has_failed out.new ≡ (has_failed out.old || is_write_fault result) }
{
    let lines = explain_rule(alloc, rule)?;
    out.write_text(&lines)?;
    Ok(Outcome::Good)
}
