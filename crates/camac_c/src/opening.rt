// Opening a session: the two texts are judged, and a run is begun.

ghost use Rattle.std.specs.Prelude.{◌≡◌, IfErr, IfOk, is_some};
ghost use Rattle.camac_engines.specs.declared.fault.ToolFault.TheVariants.{Memory};
ghost use Rattle.camac_word.specs.Watched.{inner_of};
ghost use Rattle.camac_c.specs.Open.{OpensInto};
ghost use Rattle.camac_c.specs.Talk.{Holds, StartsOn};

use crate::handle::Handle;
use crate::loose::Loose;
use crate::plain::{MISUSE, SessionAsk};
use camac_engines::{Judged, PlanSource, ToolFault, read_judged, refuse};
use camac_lines::write_verdict;
use camac_rules::Checked;
use camac_word::Watched;
use std::alloc::Global;

/// Whether a session is open.
pub fn is_open(alloc: Global, handle: &mut Handle) -> bool
    ensures same { handle.new.value ≡ handle.old.value }
    ensures open { result ≡ is_some handle.old.value }
{
    handle.ask(alloc, SessionAsk::Wants, &mut []).code != MISUSE
}

/// Judges the two texts, writes what `check` prints to `out`, and begins a run of an accepted script. None where it is refused.
pub fn open(
    alloc: Global,
    plan: &[u8],
    script: &[u8],
    out: &mut Watched<Vec<u8>>,
) -> Result<Option<Handle>, ToolFault>
    ensures { OpensInto plan.now script.now (inner_of out.old) (inner_of out.new) result }
{
    let mut plan = PlanSource::Text(Watched::new(plan));
    let mut script = Watched::new(script);
    match read_judged(alloc, &mut plan, &mut script)? {
        Judged::Accepted(checked) => {
            checked.is_checked();
            match write_verdict(out, &checked) {
                Ok(()) => Ok(Some(begin(alloc, checked)?)),
                Err(_) => Err(ToolFault::Write),
            }
        }
        Judged::Refused(finding) => {
            refuse(out, finding.refusal())?;
            Ok(None)
        }
    }
}

fn begin(alloc: Global, checked: Checked) -> Result<Handle, ToolFault>
    ensures begun { IfOk result (λ h. Holds h.value (StartsOn checked)) }
    ensures memory { IfErr result (λ fault. fault ≡ Memory) }
{
    let Ok(held) = Box::new(alloc, checked) else {
        return Err(ToolFault::Memory);
    };
    match Handle::begin(Loose::of(held)) {
        Ok(session) => Ok(session),
        Err(script) => {
            drop(script.into_box());
            Err(ToolFault::Memory)
        }
    }
}
