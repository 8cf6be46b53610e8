// The check of a linked script.

ghost use Rattle.std.specs.Prelude.{IfOk};
ghost use Rattle.camac_rules.specs.Checked.{IsChecked};
ghost use Rattle.camac_check.specs.Judges.{Judges};

use crate::accept::accept_script;
use camac_check_known::CheckFault;
use camac_names::Linked;
use camac_rules::Checked;
use std::alloc::Global;

/// Checks a linked script. It is accepted exactly where no rule is broken, with the costs of each service as its bounds. Else the error is
/// the first broken rule in text order, with its spot: E1 to E18 and E21. It is E19 where memory ran out.
pub fn check(alloc: Global, linked: Linked) -> Result<Checked, CheckFault>
    ensures exact { Judges linked result }
    // The headline: whatever the branch answers.
    ensures safe { IfOk result IsChecked }
{
    linked.plan().is_plan();
    let _order = linked.script().order();
    let bounds = accept_script(alloc, linked.plan(), linked.script())?;
    Ok(Checked::new(linked, bounds))
}
