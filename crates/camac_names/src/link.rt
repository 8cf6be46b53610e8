// Linking a script to a plan: each LAM in text order, then each service in text order.

ghost use Rattle.std.specs.Prelude.{◌≡◌, ◌≢◌, ◌<◌, ◌≤◌, length, map, is_some, slice_get, [], IfOk, IfErr, OnOk, ◌++◌, Some, None};
ghost use Rattle.std.specs.Result.{result_err};
ghost use Rattle.camac_lang.specs.View.{lam_of, service_of};
ghost use Rattle.camac_branch.specs.Plan.{IsPlan, installed, gl};
ghost use Rattle.camac_names.specs.Link.{lam_fault, lams_fault, lams_faults, services_faults, link_faults, service_bit, same_station, is_there, is_served, first_spot, at_lam, service_fault, services_fault, link_fault};

use crate::fault::{LinkCase, LinkFault, LinkRule};
use crate::linked::Linked;
use camac_branch::Plan;
use camac_lang::{Lam, Script, Service, Spot};
use camac_word::{CrateNo, GlBit, Station};
use std::alloc::{AllocError, Global};

/// Links a script to a plan, of which it keeps a copy. The error is the first rule that is broken, with the spot of the declaration's first
/// token and the rule's case: L1 of each LAM in text order, then L2, L3 and L4 of each service in text order. It is L5 where memory ran out.
pub fn resolve(alloc: Global, script: Script, plan: &Plan) -> Result<Linked, LinkFault>
    ensures ok { IfOk result (λ l. (link_fault plan.now script ≡ None) × (l ≡ record { plan = plan.now; script = script })) }
    ensures refused { IfErr result (λ e. e ≢ LinkFault.OutOfMemory → link_fault plan.now script ≡ Some e) }
{
    plan.is_plan();
    link_lams(script.lams(), plan)?;
    let bits = link_services(alloc, script.lams(), script.services(), plan)?;
    let plan = plan.try_clone(alloc).map_err(|_| LinkFault::OutOfMemory)?;
    Ok(Linked { script, plan, bits })
}

/// All that linking refuses, of which the first is the error of `resolve`: L1 of each LAM in text order, then of each service in text order the
/// first of L2, L3 and L4 that it breaks, if any. The one error is out of memory.
pub fn link_faults(
    alloc: Global,
    script: &Script,
    plan: &Plan,
) -> Result<Vec<LinkFault>, AllocError>
    ensures { IfOk result (λ v. v.items ≡ link_faults plan.now script.now) }
{
    plan.is_plan();
    let mut faults = Vec::new(alloc);
    push_lam_faults(&mut faults, script.lams(), plan)?;
    push_service_faults(&mut faults, script.lams(), script.services(), plan)?;
    Ok(faults)
}

fn push_lam_faults(faults: &mut Vec<LinkFault>, lams: &[Lam], plan: &Plan) -> Result<(), AllocError>
    requires { IsPlan plan.now }
    ensures { OnOk result (faults.new.items ≡ faults.old.items ++ lams_faults plan.now (map lam_of lams.now)) }
{
    'lams: for lam in lams {
        if let Some(fault) = lam_fault(lam, plan) {
            faults.push(fault)?;
        }
    }
    Ok(())
}

fn push_service_faults(
    faults: &mut Vec<LinkFault>,
    lams: &[Lam],
    services: &[Service],
    plan: &Plan,
) -> Result<(), AllocError>
    requires { IsPlan plan.now }
    ensures { OnOk result (faults.new.items ≡ faults.old.items ++ services_faults plan.now (map lam_of lams.now) [] (map service_of services.now)) }
{
    'services: for i in 0..services.len() {
        if let Err(fault) = link_service(lams, &services[..i], &services[i], plan) {
            faults.push(fault)?;
        }
    }
    Ok(())
}

// L1 of each LAM.
fn link_lams(lams: &[Lam], plan: &Plan) -> Result<(), LinkFault>
    requires { IsPlan plan.now }
    ensures { result_err result ≡ lams_fault plan.now (map lam_of lams.now) }
{
    'lams: for lam in lams {
        if let Some(fault) = lam_fault(lam, plan) {
            return Err(fault);
        }
    }
    Ok(())
}

// L1 of a LAM.
fn lam_fault(lam: &Lam, plan: &Plan) -> Option<LinkFault>
    requires { IsPlan plan.now }
    ensures { result ≡ lam_fault plan.now (lam_of lam.now) }
{
    if is_installed(plan, lam.crate_no, lam.station) {
        return None;
    }
    Some(broken(LinkRule::LamNotInstalled, lam.spot, at_lam(lam)))
}

// The bit of each service, unless a rule is broken.
fn link_services(
    alloc: Global,
    lams: &[Lam],
    services: &[Service],
    plan: &Plan,
) -> Result<Vec<GlBit>, LinkFault>
    requires { IsPlan plan.now }
    ensures ok { IfOk result (λ bits. (services_fault plan.now (map lam_of lams.now) [] (map service_of services.now) ≡ None) × (map (service_bit plan.now (map lam_of lams.now)) (map service_of services.now) ≡ map Some bits.items)) }
    ensures refused { IfErr result (λ e. e ≢ LinkFault.OutOfMemory → services_fault plan.now (map lam_of lams.now) [] (map service_of services.now) ≡ Some e) }
{
    let mut bits = Vec::new(alloc);
    'services: for i in 0..services.len() {
        let bit = link_service(lams, &services[..i], &services[i], plan)?;
        bits.push(bit).map_err(|_| LinkFault::OutOfMemory)?;
    }
    Ok(bits)
}

// The bit of a service that stands after these services, unless a rule is broken.
#[tactic(auto, using(crate::proofs::Places::found))]
fn link_service(
    lams: &[Lam],
    earlier: &[Service],
    service: &Service,
    plan: &Plan,
) -> Result<GlBit, LinkFault>
    requires { IsPlan plan.now }
    ensures ok { IfOk result (λ bit. (service_fault plan.now (map lam_of lams.now) (map service_of earlier.now) (service_of service.now) ≡ None) × (service_bit plan.now (map lam_of lams.now) (service_of service.now) ≡ Some bit)) }
    ensures refused { IfErr result (λ e. service_fault plan.now (map lam_of lams.now) (map service_of earlier.now) (service_of service.now) ≡ Some e) }
{
    let spot = service.spot;
    let Some(lam) = lams.get(service.lam) else {
        return Err(broken(LinkRule::LamNotInstalled, spot, LinkCase::Malformed));
    };
    let Some(bit) = bit_at(plan, lam.crate_no, lam.station) else {
        return Err(broken(LinkRule::StationWithoutBit, spot, at_lam(lam)));
    };
    if let Some(first) = first_spot(lams, lam, earlier) {
        let case = LinkCase::Served {
            crate_no: lam.crate_no,
            station: lam.station,
            spot: first,
        };
        return Err(broken(LinkRule::StationServedTwice, spot, case));
    }
    if service.words > plan.buffer() as u32 {
        let case = LinkCase::Words {
            allowed: service.words,
            buffer: plan.buffer(),
        };
        return Err(broken(LinkRule::EventAboveBuffer, spot, case));
    }
    Ok(bit)
}

fn broken(rule: LinkRule, spot: Spot, case: LinkCase) -> LinkFault
    ensures { result ≡ LinkFault.Broken rule spot case }
{
    LinkFault::Broken { rule, spot, case }
}

fn at_lam(lam: &Lam) -> LinkCase
    ensures { result ≡ at_lam (lam_of lam.now) }
{
    LinkCase::Place {
        crate_no: lam.crate_no,
        station: lam.station,
    }
}

// Where the first of these services that is on the LAM's station stands.
fn first_spot(lams: &[Lam], lam: &Lam, services: &[Service]) -> Option<Spot>
    ensures spot { result ≡ first_spot (map lam_of lams.now) (lam_of lam.now) (map service_of services.now) }
    ensures served { is_some result ≡ is_served (map lam_of lams.now) (lam_of lam.now) (map service_of services.now) }
{
    'services: for service in services {
        if is_there(lams, lam, service) {
            return Some(service.spot);
        }
    }
    None
}

#[tactic(auto, using(crate::proofs::Places::found))]
fn is_there(lams: &[Lam], lam: &Lam, service: &Service) -> bool
    ensures { result ≡ is_there (map lam_of lams.now) (lam_of lam.now) (service_of service.now) }
{
    match lams.get(service.lam) {
        Some(other) => same_station(lam, other),
        None => false,
    }
}

fn same_station(lam: &Lam, other: &Lam) -> bool
    ensures { result ≡ same_station (lam_of lam.now) (lam_of other.now) }
{
    lam.crate_no == other.crate_no && lam.station == other.station
}

// Whether a module is installed at a station, for any numbers.
#[tactic(auto, using(crate::proofs::Places::no_crate, crate::proofs::Places::no_station))]
fn is_installed(plan: &Plan, crate_no: u32, station: u32) -> bool
    requires { IsPlan plan.now }
    ensures { result ≡ is_some (installed plan.now crate_no station) }
{
    match CrateNo::new(crate_no) {
        Some(c) => match Station::new(station) {
            Some(n) => plan.station(c, n).is_some(),
            None => false,
        },
        None => false,
    }
}

// The graded-L bit of a station, for any numbers.
#[tactic(auto, using(crate::proofs::Places::no_crate, crate::proofs::Places::no_station))]
fn bit_at(plan: &Plan, crate_no: u32, station: u32) -> Option<GlBit>
    requires { IsPlan plan.now }
    ensures { result ≡ gl plan.now crate_no station }
{
    match CrateNo::new(crate_no) {
        Some(c) => match Station::new(station) {
            Some(n) => plan.gl(c, n),
            None => None,
        },
        None => None,
    }
}
