// The service that a graded-L operation calls (own; IEEE 596 has the operation alone).

ghost use Rattle.std.specs.Prelude.{◌≡◌, ◌≤◌, ◌<◌, ◌-◌, ◌/◌, ◌^◌, nat_eq, length, Some, IfSome, option_and_then};
ghost use Rattle.camac_rules.specs.Checked.{linked_of};
ghost use Rattle.camac_model.specs.Meaning.{context};
ghost use Rattle.camac_model.specs.Run.{is_bit_set, with_bit, first_service, service_for};
ghost use Rattle.camac_names.specs.Linked.{bit_of_service};
ghost use Rattle.camac_run.specs.Called.{chosen_of};

use camac_rules::Checked;
use camac_word::{GlBit, Word24};

const BIT_END: u32 = 25;

/// The number of a service, and its bit of the graded-L pattern.
#[derive(Clone, Copy)]
pub struct Called {
    pub number: usize,
    pub gl: GlBit,
}

/// The service of the least bit of the pattern that has one.
pub fn service_for(checked: &Checked, pattern: Word24) -> Option<Called>
    ensures chosen { service_for (context checked.now.plan checked.now.script) pattern checked.now.script.services ≡ option_and_then (chosen_of checked.now.script.services) result }
    ensures known { IfSome result (λ k. k.number < length checked.now.script.services) }
    ensures bit { IfSome result (λ k. bit_of_service (linked_of checked.now) k.number ≡ Some k.gl) }
{
    first_service(checked, pattern, 1)
}

// The same among the bits from this one on.
fn first_service(checked: &Checked, pattern: Word24, first: u32) -> Option<Called>
    requires { first ≤ 25 }
    ensures chosen { first_service (context checked.now.plan checked.now.script) (25 - first) first pattern checked.now.script.services ≡ option_and_then (chosen_of checked.now.script.services) result }
    ensures known { IfSome result (λ k. k.number < length checked.now.script.services) }
    ensures bit { IfSome result (λ k. bit_of_service (linked_of checked.now) k.number ≡ Some k.gl) }
{
    'bits: for bit in first..BIT_END {
        if ends_before(pattern, bit) {
            return None;
        }
        if is_bit_set(pattern, bit) {
            if let Some(called) = with_bit(checked, bit) {
                return Some(called);
            }
        }
    }
    None
}

// Whether a pattern has no bit from this one on.
fn ends_before(pattern: Word24, bit: u32) -> bool
    requires { bit ≤ 24 }
    ensures { result ≡ nat_eq (pattern / 2 ^ (bit - 1)) 0 }
{
    pattern.get() >> bit.saturating_sub(1) == 0
}

// Whether a pattern has a bit, where bit k has the value 2^(k-1).
fn is_bit_set(pattern: Word24, bit: u32) -> bool
    requires { bit ≤ 24 }
    ensures { result ≡ is_bit_set pattern bit }
{
    (pattern.get() >> bit.saturating_sub(1)) % 2 == 1
}

// The first service with a bit.
fn with_bit(checked: &Checked, bit: u32) -> Option<Called>
    ensures chosen { with_bit (context checked.now.plan checked.now.script) bit 0 checked.now.script.services ≡ option_and_then (chosen_of checked.now.script.services) result }
    ensures known { IfSome result (λ k. k.number < length checked.now.script.services) }
    ensures bit { IfSome result (λ k. bit_of_service (linked_of checked.now) k.number ≡ Some k.gl) }
{
    'services: for number in 0..checked.services() {
        let gl = checked.gl(number);
        if gl.get() == bit {
            return Some(Called { number, gl });
        }
    }
    None
}
