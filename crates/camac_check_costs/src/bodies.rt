// The costs of the bodies of a script, in the order of the text.

ghost use Rattle.std.specs.Prelude.{◌≡◌, ◌≤◌, ◌<◌, ◌+◌, ◌^◌, ◌++◌, IfOk, OnOk, drop, length, map};
ghost use Rattle.camac_lang.specs.View.{item_of, procedure_of, service_of, statements_of};
ghost use Rattle.camac_rules.specs.Accept.{sections};
ghost use Rattle.camac_rules.specs.Capped.{capped};
ghost use Rattle.camac_check_simple.specs.Gives.{by_code, code_before};
ghost use Rattle.camac_check_costs.specs.Bodies.{body_costs, costs_over, costs_with, procedure_costs, service_costs};

use camac_check::{CheckFault, Checked, Context, accept_block, at_entry};
use camac_check_known::{Around, Costs, Facts};
use camac_check_rows::{Row, Rows};
use camac_lang::{Item, Procedure, Script, Service, Stmt};
use camac_rules::Body;
use std::alloc::{AllocError, Global};
use std::marker::Model;

/// Whose body it is, by its number in the script, from 0.
#[derive(Clone, Copy, Debug, PartialEq, Eq)]
pub enum Owner {
    Procedure(usize),
    Service(usize),
}

/// The bound of a body, and the rows of its statements in the order of the text.
#[derive(Drop)]
pub struct BodyCosts {
    owner: Owner,
    costs: Costs,
    rows: Vec<Row>,
}

impl Model for BodyCosts {
    ghost use Rattle.camac_check_costs.specs.Body.{BodyRows};

    ghost Value = { BodyRows };

    ghost view = { λ b. record { owner = b.owner; costs = b.costs; rows = b.rows.items } };
}

impl BodyCosts {
    /// Whose body it is.
    pub fn owner(&self) -> Owner
        ensures { result ≡ self.now.owner }
    {
        self.owner
    }

    /// What it can cost.
    pub fn costs(&self) -> Costs
        ensures { result ≡ self.now.costs }
    {
        self.costs
    }

    /// What each statement has of that.
    pub fn rows(&self) -> &[Row]
        ensures { result.now ≡ self.now.rows }
    {
        &self.rows
    }
}

/// The costs of the procedures and services of an accepted script (own), in the order of the text. The error is want of memory.
pub fn costs_of(alloc: Global, checked: &Checked) -> Result<Vec<BodyCosts>, AllocError>
    ensures { IfOk result (λ v. v.items ≡ costs_with capped checked.now.plan checked.now.script) }
{
    let script = checked.script();
    let whole = Context::of(checked.plan(), script);
    let mut all = Vec::new(alloc);
    push_bodies(
        alloc,
        &whole,
        script.order(),
        0,
        script.services(),
        0,
        &mut all,
    )?;
    Ok(all)
}

// Puts those of these declarations at the end, after so many procedures and services.
fn push_bodies(
    alloc: Global,
    whole: &Context,
    items: &[Item],
    done: usize,
    services: &[Service],
    served: usize,
    all: &mut Vec<BodyCosts>,
) -> Result<(), AllocError>
    requires before { done ≤ length whole.now.procedures.now }
    requires few { served + length items.now < 2 ^ 64 }
    ensures { OnOk result (all.new.items ≡ all.old.items ++ costs_over (code_before whole.now done) done served
        (sections (map item_of items.now) (map procedure_of (drop done whole.now.procedures.now)) (map service_of services.now))) }
{
    match items {
        [] => Ok(()),
        [item, rest @ ..] => match (item, whole.procedures.get(done), services) {
            (Item::Procedure, Some(procedure), _) => {
                let here = whole.after(done);
                all.push(procedure_costs(alloc, &here, done, procedure)?)?;
                push_bodies(alloc, whole, rest, done + 1, services, served, all)
            }
            (Item::Service, _, [service, others @ ..]) => {
                let here = whole.after(done);
                all.push(service_costs(alloc, &here, served, service)?)?;
                push_bodies(alloc, whole, rest, done, others, served + 1, all)
            }
            _ => push_bodies(alloc, whole, rest, done, services, served, all),
        },
    }
}

/// The costs of the procedure of this number, from 0, by the checker's rules. The error is want of memory.
pub fn procedure_costs(
    alloc: Global,
    context: &Context,
    number: usize,
    procedure: &Procedure,
) -> Result<BodyCosts, AllocError>
    ensures { IfOk result (λ b. b ≡ procedure_costs (by_code context.now) number (procedure_of procedure.now)) }
{
    let around = Around::alone_in(alloc, Body::Procedure(context.procedures.len()));
    let known = at_entry(alloc, &procedure.parameters)?;
    body_costs(
        alloc,
        context,
        Owner::Procedure(number),
        &around,
        &procedure.body,
        known,
    )
}

/// The costs of the service of this number, from 0, by the checker's rules. The error is want of memory.
pub fn service_costs(
    alloc: Global,
    context: &Context,
    number: usize,
    service: &Service,
) -> Result<BodyCosts, AllocError>
    ensures { IfOk result (λ b. b ≡ service_costs (by_code context.now) number (service_of service.now)) }
{
    let around = Around::alone_in(alloc, Body::Service(service.lam));
    let known = Facts::at_start(alloc);
    body_costs(
        alloc,
        context,
        Owner::Service(number),
        &around,
        &service.body,
        Some(known),
    )
}

// A body that is refused has no costs.
#[tactic(auto, using(crate::proofs::Whole::body_found, crate::proofs::Whole::body_refused))]
fn body_costs(
    alloc: Global,
    context: &Context,
    owner: Owner,
    around: &Around,
    block: &[Stmt],
    known: Option<Facts>,
) -> Result<BodyCosts, AllocError>
    ensures { IfOk result (λ b. b ≡ body_costs (by_code context.now) owner around.now (statements_of block.now) known) }
{
    let mut rows = Rows::new(alloc);
    match accept_block(alloc, context, around, block, known, &mut rows) {
        Ok(found) => Ok(BodyCosts {
            owner,
            costs: found.costs,
            rows: rows.into_vec(alloc)?,
        }),
        Err(CheckFault::OutOfMemory) => Err(AllocError),
        Err(CheckFault::Broken { .. }) => Ok(BodyCosts {
            owner,
            costs: Costs::new(0, 0, 0),
            rows: Vec::new(alloc),
        }),
    }
}
