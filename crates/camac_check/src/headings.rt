// The least headings of a script.

ghost use Rattle.std.specs.Prelude.{◌≡◌, ◌<◌, ◌≤◌, length, slice_get, Some, IfOk, option_map};
ghost use Rattle.camac_lang.specs.Headings.{unannotated};
ghost use Rattle.camac_lang.specs.Tree.{Procedure as ProcedureTree, Service as ServiceTree};
ghost use Rattle.camac_lang.specs.View.{item_of};
ghost use Rattle.camac_check_simple.specs.Gives.{by_rules};
ghost use Rattle.camac_check.specs.Least.{Finds, AreHeadings, Heads, after_procedures, least, least_from, linked, procedure_needs, service_needs};
ghost use Rattle.camac_names.specs.Link.{link_fault};

use crate::accept::{procedure_within, service_needs};
use crate::fault::LeastFault;
use crate::judge::check;
use camac_branch::Plan;
use camac_check_simple::Context;
use camac_lang::{Item, Script};
use camac_names::laws::first_is_link_fault;
use camac_names::{link_faults, resolve};
use camac_rules::{Bounds, Checked};
use std::alloc::Global;

/// The script with the least headings that its bodies need, checked: the numbers of each heading are the costs of its body by the
/// checker's rules, where each call costs what its procedure needs. The script's own numbers are not looked at. The error is the first
/// rule that is broken whatever the headings say: L1 to L3, then E1 to E18 and E21 in text order, with L4 of a service after E11.
pub fn least(alloc: Global, script: Script, plan: &Plan) -> Result<Checked, LeastFault>
    ensures least { Finds (λ c. c.script) result (least plan.now script) }
    ensures plan { IfOk result (λ c. c.plan ≡ plan.now) }
    // All but the numbers of the headings stays.
    ensures same { IfOk result (λ c. unannotated c.script ≡ unannotated script) }
    // The bounds are the numbers of the headings.
    ensures exact { IfOk result (λ c. AreHeadings c.bounds c.script.services) }
{
    let mut script = script;
    script.unannotate();
    link(alloc, &script, plan)?;
    least_from(alloc, plan, &mut script, 0, 0, 0)?;
    let linked = resolve(alloc, script, plan)?;
    Ok(check(alloc, linked)?)
}

// By the rules of linking.
fn link(alloc: Global, script: &Script, plan: &Plan) -> Result<(), LeastFault>
    ensures { Finds (λ u. u) result (linked (link_fault plan.now script.now)) }
{
    first_is_link_fault();
    let faults = link_faults(alloc, script, plan)?;
    match faults.first() {
        Some(fault) => Err(LeastFault::from(*fault)),
        None => Ok(()),
    }
}

// Gives the procedures and services after so many their least headings, from the declaration of this number on.
fn least_from(
    alloc: Global,
    plan: &Plan,
    script: &mut Script,
    k: usize,
    done: usize,
    served: usize,
) -> Result<(), LeastFault>
    requires item { k ≤ length script.old.order }
    requires done { done ≤ length script.old.procedures }
    requires served { served ≤ length script.old.services }
    ensures { Heads (least_from plan.now script.old k done served) script.old script.new done served result }
{
    if k == script.order().len() {
        return Ok(());
    }
    match item_at(script, k) {
        None => Ok(()),
        Some(Item::Procedure) => {
            if done == script.procedures().len() {
                return least_from(alloc, plan, script, k + 1, done, served);
            }
            let needs = procedure_needs(alloc, plan, script, done)?;
            script.annotate_procedure(done, needs.cycles, needs.words, needs.steps);
            least_from(alloc, plan, script, k + 1, done + 1, served)
        }
        Some(Item::Service) => {
            if served == script.services().len() {
                return least_from(alloc, plan, script, k + 1, done, served);
            }
            let needs = needs_of_service(alloc, plan, script, done, served)?;
            script.annotate_service(served, needs.cycles, needs.words);
            least_from(alloc, plan, script, k + 1, done, served + 1)
        }
        Some(Item::Table) => least_from(alloc, plan, script, k + 1, done, served),
        Some(Item::Lam) => least_from(alloc, plan, script, k + 1, done, served),
        Some(Item::Variables { .. }) => least_from(alloc, plan, script, k + 1, done, served),
    }
}

fn item_at(script: &Script, k: usize) -> Option<Item>
    ensures { option_map item_of result ≡ slice_get script.now.order k }
{
    script.order().get(k).copied()
}

// What may be referred to after so many procedures.
fn after_procedures<'a>(plan: &'a Plan, script: &'a Script, done: usize) -> Context<'a>
    requires { done ≤ length script.now.procedures }
    ensures { by_rules result ≡ after_procedures plan.now script.now done }
{
    let whole = Context::of(plan, script);
    whole.after(done)
}

// What the procedure of this number needs, whatever its heading says.
fn procedure_needs(
    alloc: Global,
    plan: &Plan,
    script: &Script,
    i: usize,
) -> Result<Bounds, LeastFault>
    requires { i < length script.now.procedures }
    ensures { (p : ProcedureTree) → slice_get script.now.procedures i ≡ Some p
        → Finds (λ k. k) result (procedure_needs (after_procedures plan.now script.now i) p) }
{
    let here = after_procedures(plan, script, i);
    let procedure = &script.procedures()[i];
    let needs = procedure_within(alloc, &here, procedure, u32::MAX, u32::MAX, u32::MAX)?;
    Ok(needs)
}

// What the service of this number needs, after so many procedures.
fn needs_of_service(
    alloc: Global,
    plan: &Plan,
    script: &Script,
    done: usize,
    i: usize,
) -> Result<Bounds, LeastFault>
    requires done { done ≤ length script.now.procedures }
    requires there { i < length script.now.services }
    ensures { (v : ServiceTree) → slice_get script.now.services i ≡ Some v
        → Finds (λ k. k) result (service_needs (after_procedures plan.now script.now done) v) }
{
    let here = after_procedures(plan, script, done);
    service_needs(alloc, &here, &script.services()[i])
}
