// Acceptance of a whole script: procedures and services in text order, each within its heading.

ghost use Rattle.std.specs.Prelude.{◌≡◌, ◌≤◌, drop, length, map};
ghost use Rattle.camac_lang.specs.View.{item_of, procedure_of, service_of};
ghost use Rattle.camac_rules.specs.Accept.{within, accept_procedure, accept_service, accept_items, accept};
ghost use Rattle.camac_lang.specs.Headings.{annotate};
ghost use Rattle.camac_rules.specs.Cases.{budget};
ghost use Rattle.camac_check_simple.specs.Gives.{Gives, by_code, by_rules, rules_before};
ghost use Rattle.camac_check.specs.Least.{Finds, event_fits, most, service_needs};

use crate::fault::LeastFault;
use crate::procedure::at_entry;
use crate::statement::accept_block;
use camac_branch::Plan;
use camac_check_known::{Around, CheckFault, Costs, Facts};
use camac_check_loops::count_block;
use camac_check_rows::Rows;
use camac_check_simple::Context;
use camac_lang::{Item, Procedure, Script, Service, Spot};
use camac_names::{LinkCase, LinkRule};
use camac_rules::{Body, Bounds, Case, CheckRule};
use std::alloc::Global;

/// What each service can cost.
pub fn accept_script(alloc: Global, plan: &Plan, script: &Script) -> Result<Vec<Bounds>, CheckFault>
    ensures { Gives (λ v. v.items) result (accept plan.now script.now) }
{
    let whole = Context::of(plan, script);
    accept_items(alloc, &whole, script.order(), 0, script.services())
}

// What these services can cost, in the order of these items, after so many procedures.
#[tactic(auto, unfolding(camac_rules::specs::Refusal::go_on))]
fn accept_items(
    alloc: Global,
    whole: &Context,
    items: &[Item],
    done: usize,
    services: &[Service],
) -> Result<Vec<Bounds>, CheckFault>
    requires { done ≤ length whole.now.procedures.now }
    ensures { Gives (λ v. v.items) result (accept_items (rules_before whole.now done) (map item_of items.now) (map procedure_of (drop done whole.now.procedures.now)) (map service_of services.now)) }
{
    match items {
        [] => Ok(Vec::new(alloc)),
        [Item::Procedure, rest @ ..] => match whole.procedures.get(done) {
            None => accept_items(alloc, whole, rest, done, services),
            Some(procedure) => {
                let here = whole.after(done);
                let _found = accept_procedure(alloc, &here, procedure)?;
                accept_items(alloc, whole, rest, done + 1, services)
            }
        },
        [Item::Service, rest @ ..] => match services {
            [] => accept_items(alloc, whole, rest, done, services),
            [service, others @ ..] => {
                let here = whole.after(done);
                let first = accept_service(alloc, &here, service)?;
                let mut all = accept_items(alloc, whole, rest, done, others)?;
                all.insert(0, first)?;
                Ok(all)
            }
        },
        [_, rest @ ..] => accept_items(alloc, whole, rest, done, services),
    }
}

/// What a procedure can cost.
pub fn accept_procedure(
    alloc: Global,
    context: &Context,
    procedure: &Procedure,
) -> Result<Bounds, CheckFault>
    ensures { Gives (λ b. b) result (accept_procedure (by_rules context.now) (procedure_of procedure.now)) }
{
    procedure_within(
        alloc,
        context,
        procedure,
        procedure.cycles,
        procedure.words,
        procedure.steps,
    )
}

/// What a procedure can cost, with these numbers in the place of those of its heading.
pub fn procedure_within(
    alloc: Global,
    context: &Context,
    procedure: &Procedure,
    cycles: u32,
    words: u32,
    steps: u32,
) -> Result<Bounds, CheckFault>
    ensures { Gives (λ b. b) result (accept_procedure (by_rules context.now) (annotate cycles words steps (procedure_of procedure.now))) }
{
    procedure_in_64_bits(alloc, context, procedure, cycles, words, steps)
}

// The same with costs in 64 bits that stay at their greatest number, since the code has no larger ones. The rules count without bounds:
// the function above proves from this clause that both give one result.
#[tactic(auto, unfolding(camac_rules::specs::Refusal::go_on, camac_rules::specs::Refusal::if_reached))]
fn procedure_in_64_bits(
    alloc: Global,
    context: &Context,
    procedure: &Procedure,
    cycles: u32,
    words: u32,
    steps: u32,
) -> Result<Bounds, CheckFault>
    ensures { Gives (λ b. b) result (accept_procedure (by_code context.now) (annotate cycles words steps (procedure_of procedure.now))) }
{
    let body = Body::Procedure(context.procedures.len());
    count_block(body, &procedure.body, 0)?;
    let around = Around::alone_in(alloc, body);
    let known = at_entry(alloc, &procedure.parameters)?;
    let mut none = Rows::none();
    let found = accept_block(alloc, context, &around, &procedure.body, known, &mut none)?;
    let most = Bounds {
        cycles,
        words,
        steps,
    };
    within(body, most, found.costs, procedure.spot)
}

/// What a service can cost.
pub fn accept_service(
    alloc: Global,
    context: &Context,
    service: &Service,
) -> Result<Bounds, CheckFault>
    ensures { Gives (λ b. b) result (accept_service (by_rules context.now) (service_of service.now)) }
{
    accept_in_64_bits(alloc, context, service, service.cycles, service.words)
}

// The same with costs in 64 bits, as above.
#[tactic(auto, unfolding(camac_rules::specs::Refusal::go_on, camac_rules::specs::Refusal::if_reached))]
fn accept_in_64_bits(
    alloc: Global,
    context: &Context,
    service: &Service,
    cycles: u32,
    words: u32,
) -> Result<Bounds, CheckFault>
    requires cycles { cycles ≡ service.now.cycles }
    requires words { words ≡ service.now.words }
    ensures { Gives (λ b. b) result (accept_service (by_code context.now) (service_of service.now)) }
{
    let body = Body::Service(service.lam);
    count_block(body, &service.body, 0)?;
    let around = Around::alone_in(alloc, body);
    let known = Some(Facts::at_start(alloc));
    let mut none = Rows::none();
    let found = accept_block(alloc, context, &around, &service.body, known, &mut none)?;
    let most = Bounds {
        cycles,
        words,
        steps: u32::MAX,
    };
    within(body, most, found.costs, service.spot)
}

/// What a service needs, whatever its heading says.
#[tactic(auto, using(crate::proofs::Capped::needs_cut))]
pub fn service_needs(
    alloc: Global,
    context: &Context,
    service: &Service,
) -> Result<Bounds, LeastFault>
    ensures { Finds (λ b. b) result (service_needs (by_rules context.now) (service_of service.now)) }
{
    needs_in_64_bits(alloc, context, service)
}

// The same with costs in 64 bits, as above.
#[tactic(auto, unfolding(camac_rules::specs::Refusal::go_on, camac_rules::specs::Refusal::if_reached, crate::specs::Least::and_then))]
fn needs_in_64_bits(
    alloc: Global,
    context: &Context,
    service: &Service,
) -> Result<Bounds, LeastFault>
    ensures { Finds (λ b. b) result (service_needs (by_code context.now) (service_of service.now)) }
{
    let body = Body::Service(service.lam);
    count_block(body, &service.body, 0)?;
    let around = Around::alone_in(alloc, body);
    let known = Some(Facts::at_start(alloc));
    let mut none = Rows::none();
    let found = accept_block(alloc, context, &around, &service.body, known, &mut none)?;
    event_fits(body, context.plan, found.costs.words(), service.spot)?;
    Ok(within(body, most(), found.costs, service.spot)?)
}

// So many words of an event as a number of a heading, and in the plan's buffer.
fn event_fits(body: Body, plan: &Plan, words: u64, spot: Spot) -> Result<(), LeastFault>
    ensures { Finds (λ _. tt) result (event_fits body plan.now words spot) }
{
    if words > u64::from(u32::MAX) {
        return Err(LeastFault::Check {
            rule: CheckRule::TooManyWords,
            spot,
            case: budget(body, words, u32::MAX),
        });
    }
    if words > u64::from(plan.buffer()) {
        return Err(LeastFault::Link {
            rule: LinkRule::EventAboveBuffer,
            spot,
            case: LinkCase::Words {
                allowed: words as u32,
                buffer: plan.buffer(),
            },
        });
    }
    Ok(())
}

// The greatest numbers of a heading.
fn most() -> Bounds
    ensures { result ≡ most }
{
    Bounds {
        cycles: u32::MAX,
        words: u32::MAX,
        steps: u32::MAX,
    }
}

// The costs of a body within the numbers of its heading, at this spot.
#[tactic(auto, using(camac_check_known::proofs::Steps::steps), unfolding(camac_rules::specs::Refusal::go_on, camac_rules::specs::Refusal::required))]
fn within(body: Body, most: Bounds, found: Costs, spot: Spot) -> Result<Bounds, CheckFault>
    ensures { Gives (λ b. b) result (within body most found spot) }
{
    if found.words() > u64::from(most.words) {
        let case = budget(body, found.words(), most.words);
        return Err(CheckFault::broken(CheckRule::TooManyWords, spot, case));
    }
    if found.cycles() > u64::from(most.cycles) {
        let case = budget(body, found.cycles(), most.cycles);
        return Err(CheckFault::broken(CheckRule::TooManyCycles, spot, case));
    }
    if found.steps() > u64::from(most.steps) {
        let case = budget(body, found.steps(), most.steps);
        return Err(CheckFault::broken(CheckRule::TooManySteps, spot, case));
    }
    Ok(Bounds {
        cycles: found.cycles() as u32,
        words: found.words() as u32,
        steps: found.steps() as u32,
    })
}

// A cost and what is allowed.
fn budget(body: Body, needed: u64, allowed: u32) -> Case
    ensures { result ≡ budget body needed allowed }
{
    Case::Budget {
        body,
        needed,
        allowed,
    }
}
