// What a script does not do of its part in the promise of look-at-mes.

ghost use Rattle.std.specs.Prelude.{◌≡◌, ◌<◌, ◌≤◌, ◌+◌, ◌^◌, IfOk, OnOk, length, slice_get};
ghost use Rattle.camac_lang.specs.View.{service_of};
ghost use Rattle.camac_response.specs.Lams.{lams_of};
ghost use Rattle.camac_response.specs.Unkept.{comes_after, is_kept_to, not_cleared, rank_of, with_unkept_at, told_cleared, told_from, told_hidden, told_if, unkept_of};

use crate::clears::{clears_lam, lam_at};
use crate::least::{Question, lines_of};
use camac_check_costs::{BodyCosts, costs_of};
use camac_esone::Address;
use camac_lang::Service;
use camac_response_times::Source;
use camac_rules::Checked;
use camac_word::GlBit;
use std::alloc::{AllocError, Global};

/// Why a look-at-me is not what the promise asks for; other services by their numbers.
#[derive(Clone, Copy, Debug, PartialEq, Eq)]
pub enum Why {
    /// Its service has a way on which it does not clear it.
    NotCleared,
    /// Another service may clear it.
    ClearedBy(usize),
    /// A service, maybe its own, may hide it.
    HiddenBy(usize),
}

/// What is told of the look-at-me of a service: its bit, its service by number, and the line.
#[derive(Clone, Copy, Debug, PartialEq, Eq)]
pub struct Unkept {
    pub bit: GlBit,
    pub service: usize,
    pub line: u32,
    pub why: Why,
}

/// What is told of the look-at-mes of these services, in the order of bits, then of lines. The error is want of memory.
pub fn unkept_of(
    alloc: Global,
    checked: &Checked,
    sources: &[Source],
) -> Result<Vec<Unkept>, AllocError>
    ensures { IfOk result (λ v. v.items ≡ unkept_of checked.now.plan checked.now.script sources.now) }
{
    let costs = costs_of(alloc, checked)?;
    let mut found = Vec::new(alloc);
    tell_from(alloc, &mut found, checked, &costs, 0, sources)?;
    Ok(found)
}

// Of the services from this number on.
fn tell_from(
    alloc: Global,
    found: &mut Vec<Unkept>,
    checked: &Checked,
    costs: &[BodyCosts],
    number: usize,
    sources: &[Source],
) -> Result<(), AllocError>
    requires { number + length sources.now < 2 ^ 64 }
    ensures { OnOk result (found.new.items ≡ told_from checked.now.plan checked.now.script costs.now number sources.now found.old.items) }
{
    let [source, rest @ ..] = sources else {
        return Ok(());
    };
    tell_if(alloc, found, checked, costs, source.bit, number)?;
    tell_from(alloc, found, checked, costs, number + 1, rest)
}

// Of the service of this number, if there is one.
fn tell_if(
    alloc: Global,
    found: &mut Vec<Unkept>,
    checked: &Checked,
    costs: &[BodyCosts],
    bit: GlBit,
    number: usize,
) -> Result<(), AllocError>
    ensures { OnOk result (found.new.items ≡ told_if checked.now.plan checked.now.script costs.now bit number (slice_get checked.now.script.services number) (lams_of checked.now.script number) found.old.items) }
{
    let script = checked.script();
    let Some(service) = script.services().get(number) else {
        return Ok(());
    };
    let Some(lam) = lam_at(script.lams(), service.lam) else {
        return Ok(());
    };
    let heading = not_cleared(alloc, checked, costs, lam, number, service)?;
    tell(found, bit, number, Why::NotCleared, heading)?;
    let clearing = lines_of(alloc, checked, costs, Question::Clears, lam)?;
    tell_cleared(found, bit, number, 0, &clearing)?;
    let hiding = lines_of(alloc, checked, costs, Question::Hides, lam)?;
    tell_hidden(found, bit, number, 0, &hiding)
}

// The line of the heading, where the service has a way on which it does not clear its look-at-me.
fn not_cleared(
    alloc: Global,
    checked: &Checked,
    costs: &[BodyCosts],
    lam: Address,
    number: usize,
    service: &Service,
) -> Result<Option<u32>, AllocError>
    ensures { IfOk result (λ line. line ≡ not_cleared checked.now.plan checked.now.script costs.now lam number (service_of service.now)) }
{
    let clears = clears_lam(alloc, checked, costs, lam, number)?;
    Ok(if clears {
        None
    } else {
        Some(service.spot.line)
    })
}

// By the services from this number on, of which these are the lines.
fn tell_cleared(
    found: &mut Vec<Unkept>,
    bit: GlBit,
    number: usize,
    by: usize,
    lines: &[Option<u32>],
) -> Result<(), AllocError>
    requires { by + length lines.now < 2 ^ 64 }
    ensures { OnOk result (found.new.items ≡ told_cleared bit number by lines.now found.old.items) }
{
    let [line, rest @ ..] = lines else {
        return Ok(());
    };
    let line = if by == number { None } else { *line };
    tell(found, bit, number, Why::ClearedBy(by), line)?;
    tell_cleared(found, bit, number, by + 1, rest)
}

fn tell_hidden(
    found: &mut Vec<Unkept>,
    bit: GlBit,
    number: usize,
    by: usize,
    lines: &[Option<u32>],
) -> Result<(), AllocError>
    requires { by + length lines.now < 2 ^ 64 }
    ensures { OnOk result (found.new.items ≡ told_hidden bit number by lines.now found.old.items) }
{
    let [line, rest @ ..] = lines else {
        return Ok(());
    };
    tell(found, bit, number, Why::HiddenBy(by), *line)?;
    tell_hidden(found, bit, number, by + 1, rest)
}

// One more, where there is a line.
fn tell(
    found: &mut Vec<Unkept>,
    bit: GlBit,
    service: usize,
    why: Why,
    line: Option<u32>,
) -> Result<(), AllocError>
    ensures { OnOk result (found.new.items ≡ with_unkept_at bit service why line found.old.items) }
{
    let Some(line) = line else {
        return Ok(());
    };
    let place = rank_of(found, bit.get(), line);
    found.insert(
        place,
        Unkept {
            bit,
            service,
            line,
            why,
        },
    )?;
    Ok(())
}

// Before the first that comes after one of this bit and line.
fn rank_of(found: &[Unkept], bit: u32, line: u32) -> usize
    ensures place { result ≡ rank_of bit line found.now }
    ensures inside { result ≤ length found.now }
{
    let [first, rest @ ..] = found else {
        return 0;
    };
    if comes_after(bit, line, first) {
        0
    } else {
        rank_of(rest, bit, line) + 1
    }
}

fn comes_after(bit: u32, line: u32, next: &Unkept) -> bool
    ensures { result ≡ comes_after bit line next.now }
{
    bit < next.bit.get() || (next.bit.get() == bit && line < next.line)
}

/// Whether nothing is told of look-at-mes up to this bit, so that numbers are.
pub fn is_kept_to(unkept: &[Unkept], bit: GlBit) -> bool
    ensures { result ≡ is_kept_to unkept.now bit }
{
    let [first, rest @ ..] = unkept else {
        return true;
    };
    first.bit > bit && is_kept_to(rest, bit)
}
