// What is told of what the bounds of a script consist of.

ghost use Rattle.std.specs.Prelude.{◌≡◌, ◌||◌};
ghost use Rattle.camac_engines.specs.Headings.{costs_report_of};
ghost use Rattle.camac_engines.specs.Engine.{IsWritten, is_write_fault};
ghost use Rattle.camac_engines.specs.Report.{Reports};
ghost use Rattle.camac_word.specs.Watched.{inner_of, has_failed};

use crate::engine::refuse;
use crate::fault::ToolFault;
use crate::judging::Judged;
use crate::outcome::Outcome;
use camac_check_costs::{costs_of, write_costs};
use camac_word::Watched;
use std::alloc::Global;
use std::io::Write;

/// Writes the costs of an accepted script, or the line of a refusal.
pub fn show_costs<W: Write>(
    alloc: Global,
    judged: &Judged,
    out: &mut Watched<W>,
) -> Result<Outcome, ToolFault>
    ensures tells { IsWritten (Reports (costs_report_of judged.now)) (W.contents (inner_of out.old)) (W.contents (inner_of out.new)) result }
    ensures failed { has_failed out.new ≡ (has_failed out.old || is_write_fault result) }
{
    match judged {
        Judged::Accepted(checked) => {
            let bodies = costs_of(alloc, checked)?;
            write_costs(out, checked, None, &bodies)?;
            Ok(Outcome::Good)
        }
        Judged::Refused(finding) => refuse(out, finding.refusal()),
    }
}
