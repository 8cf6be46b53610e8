// What is told of the services of a script, by their numbers from 1 on.

ghost use Rattle.std.specs.Prelude.{◌≡◌, ◌<◌, ◌++◌, drop, length, option_copied, take};
ghost use Rattle.camac_lang.specs.View.{service_of as service_tree};
ghost use Rattle.camac_c.specs.Filled.{filled_words};
ghost use Rattle.camac_c.specs.Service.{name_at, name_in, numbers_at, numbers_in};

use byteorder::{ByteOrder, LittleEndian};
use camac_lang::Service;
use camac_lines::lam_name;
use camac_rules::Checked;

/// The name of a service. None where there is none.
pub fn name_of(checked: &Checked, number: u32) -> Option<&[u8]>
    ensures { option_copied result ≡ name_at checked.now.script number }
{
    if number == 0 {
        return None;
    }
    let i = number as usize - 1;
    match checked.script().services().get(i) {
        None => None,
        Some(service) => Some(name_in(checked, service)),
    }
}

#[tactic(auto, unfolding(crate::specs::Service::name_in))]
fn name_in<'a>(checked: &'a Checked, service: &Service) -> &'a [u8]
    ensures { result.now ≡ name_in checked.now.script (service_tree service.now) }
{
    lam_name(checked.script().lams(), service.lam)
}

/// The numbers of a service. None where there is none.
pub fn numbers_of(checked: &Checked, number: u32) -> Option<[u32; 10]>
    ensures { result ≡ numbers_at checked.now number }
{
    if number == 0 {
        return None;
    }
    let i = number as usize - 1;
    match checked.script().services().get(i) {
        None => None,
        Some(service) => Some(numbers_in(checked, i, service)),
    }
}

fn numbers_in(checked: &Checked, i: usize, service: &Service) -> [u32; 10]
    requires { i < length checked.now.script.services }
    ensures { result ≡ numbers_in checked.now i (service_tree service.now) }
{
    let (c, n, a) = match checked.script().lams().get(service.lam) {
        None => (0, 0, 0),
        Some(lam) => (lam.crate_no, lam.station, lam.sub_address.get()),
    };
    let gl = checked.gl(i).get();
    let bounds = checked.bounds(i);
    [
        c,
        n,
        a,
        gl,
        service.spot.line,
        bounds.cycles,
        bounds.words,
        bounds.steps,
        service.cycles,
        service.words,
    ]
}

/// Writes numbers, as many as there is room for, the least byte of each first. Returns the number of all.
#[inline(always)]
pub fn write_numbers(numbers: &[u32], bytes: &mut [u8]) -> usize
    ensures all { result ≡ length numbers.now }
    ensures written { bytes.new ≡ filled_words numbers.now bytes.old }
{
    if numbers.len() <= bytes.len() / 4 {
        LittleEndian::write_u32_into(numbers, &mut bytes[..4 * numbers.len()]);
    } else {
        let n = bytes.len() / 4;
        LittleEndian::write_u32_into(&numbers[..n], &mut bytes[..4 * n]);
    }
    numbers.len()
}

/// The same from a place on.
#[inline(always)]
pub fn write_from(start: usize, numbers: &[u32], bytes: &mut [u8])
    ensures { bytes.new ≡ take start bytes.old ++ filled_words numbers.now (drop start bytes.old) }
{
    if start <= bytes.len() {
        write_numbers(numbers, &mut bytes[start..]);
    }
}
