// Whether services end within the numbers that are asked for.

ghost use Rattle.std.specs.Prelude.{◌≡◌, ◌<◌, ◌↔◌, IsTrue, length};
ghost use Rattle.camac_response.specs.Checked.{AreKept, IsKept, service_name};
ghost use Rattle.camac_response_times.specs.Found.{response_at};
ghost use Rattle.camac_response_times.specs.Setting.{told_for};

use crate::of_checked::service_name;
use crate::unkept::Unkept;
use camac_response_times::{Responses, Setting, told_for};
use camac_rules::Checked;

/// Whether the script does its part of the promise, and each service for which a number is asked for has a response and has ended by then.
pub fn are_kept(
    checked: &Checked,
    responses: &Responses,
    unkept: &[Unkept],
    within: &[Setting<'_>],
) -> bool
    requires { length responses.now ≡ length checked.now.script.services }
    ensures { IsTrue result ↔ AreKept checked.now.script within.now unkept.now responses.now }
{
    if !unkept.is_empty() {
        return false;
    }
    'services: for number in 0..responses.sources().len() {
        if !is_kept(checked, responses, within, number) {
            return false;
        }
    }
    true
}

fn is_kept(checked: &Checked, responses: &Responses, within: &[Setting<'_>], number: usize) -> bool
    requires { number < length checked.now.script.services }
    ensures { IsTrue result ↔ IsKept (told_for within.now (service_name checked.now.script number)) (response_at responses.now number) }
{
    let Some(most) = told_for(within, service_name(checked, number)) else {
        return true;
    };
    match responses.at(number) {
        Some(response) => response.end <= most,
        None => false,
    }
}
