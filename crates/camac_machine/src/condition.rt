// Whether a condition holds.

ghost use Rattle.std.specs.Prelude.{◌≡◌, length, map, Some, IsSome};
ghost use Rattle.camac_lang.specs.View.{test_of, part_of};
ghost use Rattle.camac_model.specs.Value.{test_value, part_value, truth};
ghost use Rattle.camac_range.specs.Compare.{compared};
ghost use Rattle.camac_machine.specs.Store.{variables_in};
ghost use Rattle.camac_machine.specs.Within.{TestRefers, PartRefers, PartsRefer};

use crate::value::value_of;
use camac_lang::{Part, Test};
use camac_range::Cmp;

/// Whether a condition that has a value holds. A part is looked at where all earlier ones hold.
pub fn holds(parts: &[Part], variables: &[u32], q: bool, x: bool) -> bool
    requires declared { PartsRefer (length variables.now) (map part_of parts.now) }
    requires has_value { IsSome (truth (map part_of parts.now) (variables_in variables.now) q x) }
    ensures { truth (map part_of parts.now) (variables_in variables.now) q x ≡ Some result }
{
    match parts {
        [] => true,
        [part, rest @ ..] => {
            if part_holds(part, variables, q, x) {
                holds(rest, variables, q, x)
            } else {
                false
            }
        }
    }
}

fn part_holds(part: &Part, variables: &[u32], q: bool, x: bool) -> bool
    requires declared { PartRefers (length variables.now) (part_of part.now) }
    requires has_value { IsSome (part_value (part_of part.now) (variables_in variables.now) q x) }
    ensures { part_value (part_of part.now) (variables_in variables.now) q x ≡ Some result }
{
    match part {
        Part::Plain(test) => test_holds(test, variables, q, x),
        Part::Not(test) => !test_holds(test, variables, q, x),
    }
}

fn test_holds(test: &Test, variables: &[u32], q: bool, x: bool) -> bool
    requires declared { TestRefers (length variables.now) (test_of test.now) }
    requires has_value { IsSome (test_value (test_of test.now) (variables_in variables.now) q x) }
    ensures { test_value (test_of test.now) (variables_in variables.now) q x ≡ Some result }
{
    match test {
        Test::Q => q,
        Test::X => x,
        Test::Compare(a, comparison, b) => compared(
            *comparison,
            value_of(a, variables),
            value_of(b, variables),
        ),
    }
}

// Whether a comparison holds of two numbers.
fn compared(comparison: Cmp, a: u32, b: u32) -> bool
    ensures { result ≡ compared comparison a b }
{
    match comparison {
        Cmp::Less => a < b,
        Cmp::AtMost => a <= b,
        Cmp::More => a > b,
        Cmp::AtLeast => a >= b,
        Cmp::Same => a == b,
        Cmp::Differs => a != b,
    }
}
