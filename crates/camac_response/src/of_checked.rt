// The services of a checked script as sources of look-at-mes, and the names that settings have for them.

ghost use Rattle.std.specs.Prelude.{◌≡◌, ◌<◌, ◌≤◌, IfOk, length, map, option_map};
ghost use Rattle.camac_lang.specs.View.{lam_of, service_of};
ghost use Rattle.camac_response_times.specs.Setting.{told_for};
ghost use Rattle.camac_response.specs.Checked.{AreTold, IsNoService, first_unknown, has_name, has_service, rate_of, service_name};

use camac_lang::{Lam, Service};
use camac_lines::lam_name;
use camac_response_times::{Misuse, Rate, Setting, SettingOption, Settings, Source, told_for};
use camac_rules::Checked;
use std::alloc::{AllocError, Global};

/// The services of a checked script, in their order, each at the rate that is told for its name. The error is want of memory.
pub fn sources_of(
    alloc: Global,
    checked: &Checked,
    every: &[Setting<'_>],
) -> Result<Vec<Source>, AllocError>
    ensures { IfOk result (λ v. AreTold checked.now every.now v.items) }
{
    let mut sources = Vec::new(alloc);
    'services: for i in 0..checked.services() {
        sources.push(Source {
            bit: checked.gl(i),
            cycles: checked.bounds(i).cycles,
            every: rate_of(checked, every, i),
        })?;
    }
    Ok(sources)
}

// The rate that is told for a service.
fn rate_of(checked: &Checked, every: &[Setting<'_>], number: usize) -> Option<Rate>
    requires { number < length checked.now.script.services }
    ensures { result ≡ rate_of (told_for every.now (service_name checked.now.script number)) }
{
    Rate::new(told_for(every, service_name(checked, number))?)
}

/// The name of a service, which is that of its LAM. It is empty where there is no such service.
pub fn service_name(checked: &Checked, number: usize) -> &[u8]
    ensures name { result.now ≡ service_name checked.now.script number }
    ensures short { length result.now ≤ 32 }
{
    let script = checked.script();
    match script.services().get(number) {
        Some(service) => lam_name(script.lams(), service.lam),
        None => &[],
    }
}

/// The first setting for a service that the script does not have: those after `--every` come first.
pub fn no_service<'a>(checked: &Checked, settings: &Settings<'a>) -> Option<Misuse<'a>>
    ensures { IsNoService checked.now.script settings.now.every.items settings.now.within.items result }
{
    if let Some(service) = first_unknown(checked, &settings.every) {
        return Some(Misuse::NoService(SettingOption::Every, service));
    }
    match first_unknown(checked, &settings.within) {
        Some(service) => Some(Misuse::NoService(SettingOption::Within, service)),
        None => None,
    }
}

fn first_unknown<'a>(checked: &Checked, settings: &[Setting<'a>]) -> Option<&'a str>
    ensures { option_map (λ name. name.now) result ≡ first_unknown checked.now.script settings.now }
{
    let [setting, rest @ ..] = settings else {
        return None;
    };
    if has_service(checked, setting.service.as_bytes()) {
        first_unknown(checked, rest)
    } else {
        Some(setting.service)
    }
}

fn has_service(checked: &Checked, name: &[u8]) -> bool
    ensures { result ≡ has_service checked.now.script name.now }
{
    let script = checked.script();
    has_name(script.lams(), script.services(), name)
}

fn has_name(lams: &[Lam], services: &[Service], name: &[u8]) -> bool
    ensures { result ≡ has_name (map lam_of lams.now) (map service_of services.now) name.now }
{
    let [service, rest @ ..] = services else {
        return false;
    };
    lam_name(lams, service.lam) == name || has_name(lams, rest, name)
}
