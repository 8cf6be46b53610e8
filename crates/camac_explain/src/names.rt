// The names of a script, for its sentences.

ghost use Rattle.std.specs.Prelude.{◌≡◌, Some, map, option_copied};
ghost use Rattle.camac_lang.specs.View.{lam_of, procedure_of, service_of};
ghost use Rattle.camac_explain.specs.Sentence.{is_at, is_served_at, first_lam, first_served, name_at, parameter_in, parameter_of, register_in, register_in_service, register_of, shown, variable_of};

use camac_lang::{Lam, Name, Procedure, Script, Service};
use camac_lines::Quote;
use camac_rules::Body;

/// The variable or parameter of this number in a body.
pub fn variable(script: &Script, body: Body, number: usize) -> Quote<'_>
    ensures { result.0.now ≡ shown (variable_of script.now body number) }
{
    match body {
        Body::Procedure(procedure) => parameter(script, procedure, number),
        Body::Service(_) => quoted(script.variables().get(number)),
    }
}

/// The parameter of this number of a procedure.
#[tactic(auto, using(crate::proofs::Told::found))]
pub fn parameter(script: &Script, procedure: usize, number: usize) -> Quote<'_>
    ensures { result.0.now ≡ shown (parameter_of script.now procedure number) }
{
    match script.procedures().get(procedure) {
        Some(procedure) => parameter_in(procedure, number),
        None => quoted(None),
    }
}

/// The register of this number in a body.
#[tactic(auto, using(crate::proofs::Told::found))]
pub fn register(script: &Script, body: Body, number: usize) -> Quote<'_>
    ensures { result.0.now ≡ shown (register_of script.now body number) }
{
    match body {
        Body::Procedure(place) => match script.procedures().get(place) {
            Some(procedure) => quoted(procedure.registers.get(number)),
            None => quoted(None),
        },
        Body::Service(lam) => register_of_service(script.services(), lam, number),
    }
}

/// The first LAM at a station.
pub fn lam_at(script: &Script, crate_no: u32, station: u32) -> Quote<'_>
    ensures { result.0.now ≡ shown (first_lam crate_no station script.now.lams) }
{
    first_lam(script.lams(), crate_no, station)
}

/// The LAM of the first service at a station.
pub fn served_at(script: &Script, crate_no: u32, station: u32) -> Quote<'_>
    ensures { result.0.now ≡ shown (first_served crate_no station script.now.lams script.now.services) }
{
    first_served(script.lams(), script.services(), crate_no, station)
}

#[tactic(auto, using(crate::proofs::Told::found))]
fn parameter_in(procedure: &Procedure, number: usize) -> Quote<'_>
    ensures { result.0.now ≡ shown (parameter_in number (procedure_of procedure.now)) }
{
    match procedure.parameters.get(number) {
        Some(parameter) => quoted(Some(&parameter.name)),
        None => quoted(None),
    }
}

// The register of this number in the first service of a LAM.
fn register_of_service(services: &[Service], lam: usize, number: usize) -> Quote<'_>
    ensures { result.0.now ≡ shown (register_in_service lam number (map service_of services.now)) }
{
    'services: for service in services {
        if service.lam == lam {
            return register_in(service, number);
        }
    }
    quoted(None)
}

fn register_in(service: &Service, number: usize) -> Quote<'_>
    ensures { result.0.now ≡ shown (register_in number (service_of service.now)) }
{
    quoted(service.registers.get(number))
}

fn first_lam(lams: &[Lam], crate_no: u32, station: u32) -> Quote<'_>
    ensures { result.0.now ≡ shown (first_lam crate_no station (map lam_of lams.now)) }
{
    'lams: for lam in lams {
        if is_at(lam, crate_no, station) {
            return quoted(Some(&lam.name));
        }
    }
    quoted(None)
}

fn first_served<'a>(lams: &'a [Lam], services: &[Service], crate_no: u32, station: u32) -> Quote<'a>
    ensures { result.0.now ≡ shown (first_served crate_no station (map lam_of lams.now) (map service_of services.now)) }
{
    'services: for service in services {
        if is_served_at(lams, service, crate_no, station) {
            return name_at(lams, service.lam);
        }
    }
    quoted(None)
}

#[tactic(auto, using(crate::proofs::Told::found))]
fn is_served_at(lams: &[Lam], service: &Service, crate_no: u32, station: u32) -> bool
    ensures { result ≡ is_served_at crate_no station (map lam_of lams.now) (service_of service.now) }
{
    match lams.get(service.lam) {
        Some(lam) => is_at(lam, crate_no, station),
        None => false,
    }
}

#[tactic(auto, using(crate::proofs::Told::found))]
fn name_at(lams: &[Lam], place: usize) -> Quote<'_>
    ensures { result.0.now ≡ shown (name_at (map lam_of lams.now) place) }
{
    match lams.get(place) {
        Some(lam) => quoted(Some(&lam.name)),
        None => quoted(None),
    }
}

fn is_at(lam: &Lam, crate_no: u32, station: u32) -> bool
    ensures { result ≡ is_at crate_no station (lam_of lam.now) }
{
    lam.crate_no == crate_no && lam.station == station
}

// A name, or a `?` where there is none.
fn quoted(name: Option<&Name>) -> Quote<'_>
    ensures { result.0.now ≡ shown (option_copied name.entry) }
{
    match name {
        Some(name) => Quote(name.as_bytes()),
        None => Quote(b"?"),
    }
}
