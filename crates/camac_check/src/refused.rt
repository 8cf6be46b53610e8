// All that is refused of a linked script.

ghost use Rattle.std.specs.Prelude.{◌≡◌, ◌≤◌, ◌++◌, List, Result, IfOk, OnOk, drop, length, map};
ghost use Rattle.camac_lang.specs.View.{item_of, procedure_of, service_of};
ghost use Rattle.camac_model.specs.Fine.{Bounds};
ghost use Rattle.camac_rules.specs.Accept.{sections};
ghost use Rattle.camac_rules.specs.Fault.{Fault};
ghost use Rattle.camac_check_simple.specs.Gives.{Gives, rules_before};
ghost use Rattle.camac_check.specs.Refusals.{fault_of, refusal_first, refusals, section_refusals};

use crate::accept::{accept_procedure, accept_service};
use camac_branch::Plan;
use camac_check_known::CheckFault;
use camac_check_simple::Context;
use camac_lang::{Item, Script, Service};
use camac_rules::Bounds;
use std::alloc::{AllocError, Global};

/// All that is refused of a script that linking does not refuse, in text order: of each procedure and service the first rule that its body
/// breaks, if any. Each is judged by itself. A call takes its procedure's heading as it stands, even if the procedure is refused. The first
/// is the error of `check`. The one error is out of memory.
pub fn refusals(alloc: Global, script: &Script, plan: &Plan) -> Result<Vec<CheckFault>, AllocError>
    ensures { IfOk result (λ v. v.items ≡ map fault_of (refusals plan.now script.now)) }
{
    let whole = Context::of(plan, script);
    let mut found = Vec::new(alloc);
    push_refusals(
        alloc,
        &mut found,
        &whole,
        script.order(),
        0,
        script.services(),
    )?;
    Ok(found)
}

// Puts what is refused of these items at the end, after so many procedures.
fn push_refusals(
    alloc: Global,
    found: &mut Vec<CheckFault>,
    whole: &Context,
    items: &[Item],
    done: usize,
    services: &[Service],
) -> Result<(), AllocError>
    requires { done ≤ length whole.now.procedures.now }
    ensures { OnOk result (found.new.items ≡ found.old.items ++ map fault_of (section_refusals (rules_before whole.now done) (sections (map item_of items.now) (map procedure_of (drop done whole.now.procedures.now)) (map service_of services.now)))) }
{
    match items {
        [] => Ok(()),
        [Item::Procedure, rest @ ..] => match whole.procedures.get(done) {
            None => push_refusals(alloc, found, whole, rest, done, services),
            Some(procedure) => {
                let here = whole.after(done);
                push_fault(found, accept_procedure(alloc, &here, procedure))?;
                push_refusals(alloc, found, whole, rest, done + 1, services)
            }
        },
        [Item::Service, rest @ ..] => match services {
            [] => push_refusals(alloc, found, whole, rest, done, services),
            [service, others @ ..] => {
                let here = whole.after(done);
                push_fault(found, accept_service(alloc, &here, service))?;
                push_refusals(alloc, found, whole, rest, done, others)
            }
        },
        [_, rest @ ..] => push_refusals(alloc, found, whole, rest, done, services),
    }
}

// Puts the fault of a body at the end, if it has one.
fn push_fault(
    found: &mut Vec<CheckFault>,
    judged: Result<Bounds, CheckFault>,
) -> Result<(), AllocError>
    ensures { (r : Result Bounds Fault) → Gives (λ b. b) judged r → (fs : List Fault) → OnOk result (found.new.items ++ map fault_of fs ≡ found.old.items ++ map fault_of (refusal_first r fs)) }
{
    match judged {
        Ok(_) => Ok(()),
        Err(CheckFault::OutOfMemory) => Err(AllocError),
        Err(fault) => Ok(found.push(fault)?),
    }
}
