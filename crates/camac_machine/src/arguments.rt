// What the places of a body hold when it is entered.

ghost use Rattle.std.specs.Prelude.{◌≡◌, ◌+◌, ◌≤◌, length, map, take, replicate, slice_range, Some, IsSome};
ghost use Rattle.camac_lang.specs.View.{expression_of};
ghost use Rattle.camac_model.specs.Value.{values};
ghost use Rattle.camac_machine.specs.Store.{size, variables_in, held_at};
ghost use Rattle.camac_machine.specs.Within.{AllRefer};

use crate::scope::Places;
use crate::value::value_of;
use camac_lang::Expr;

/// Sets the places from this one on to the values of arguments, in their order. The caller sees none of these places.
pub fn pass(arguments: &[Expr], caller: Places, place: usize, variables: &mut [u32])
    requires caller { caller.start ≤ caller.end }
    requires after { caller.end ≤ place }
    requires room { place + length arguments.now ≤ length variables.old }
    requires declared { AllRefer (size caller) (map expression_of arguments.now) }
    requires have_values { IsSome (values (map expression_of arguments.now) (variables_in (held_at caller variables.old))) }
    ensures values { values (map expression_of arguments.now) (variables_in (held_at caller variables.old)) ≡ Some (slice_range variables.new place (place + length arguments.now)) }
    ensures before { take place variables.new ≡ take place variables.old }
    ensures count { length variables.new ≡ length variables.old }
{
    match arguments {
        [] => {}
        [first, rest @ ..] => {
            variables[place] = value_of(first, &variables[caller.start..caller.end]);
            pass(rest, caller, place + 1, variables);
        }
    }
}

/// Sets these places to one value.
#[inline(always)]
pub fn wipe<T: Copy>(places: Places, all: &mut [T], value: T)
    requires order { places.start ≤ places.end }
    requires room { places.end ≤ length all.old }
    ensures wiped { held_at places all.new ≡ replicate (size places) value }
    ensures before { take places.start all.new ≡ take places.start all.old }
    ensures count { length all.new ≡ length all.old }
{
    'places: for place in places.start..places.end {
        all[place] = value;
    }
}
