// The rules of single actions.

ghost use Rattle.std.specs.Prelude.{◌≡◌, ◌≤◌, ◌^◌, ◌-◌, ◌&&◌, nat_lt};
ghost use Rattle.camac_func.specs.Class.{class_of};
ghost use Rattle.camac_rules.specs.Cases.{direction};
ghost use Rattle.camac_lang.specs.View.{expression_of, move_of};
ghost use Rattle.camac_model.specs.Cycle.{sized};
ghost use Rattle.camac_model.specs.Meaning.{fits_size};
ghost use Rattle.camac_range.specs.Interval.{interval};
ghost use Rattle.camac_rules.specs.Cycles.{may_write, same_class, one_cycle, control_rule, read_rule, write_rule, single_rule};
ghost use Rattle.camac_rules.specs.Known.{region_at};
ghost use Rattle.camac_rules.specs.Refusal.{given, required};
ghost use Rattle.camac_check_simple.specs.Gives.{Gives, by_code, leaving};

use crate::context::{Context, Place};
use camac_check_known::{
    Around, CheckFault, Costs, Facts, Region, command_widths, cycle_cost, range_of, required,
};
use camac_func::{FunctionClass, class};
use camac_lang::{Expr, Move, SingleAction, Spot, WordSize};
use camac_range::Range;
use camac_rules::{Case, CheckRule};
use camac_word::Function;

/// Checks a single action.
pub fn single(place: &Place, action: &SingleAction, known: &mut Facts) -> Result<Costs, CheckFault>
    ensures { Gives (leaving known.new) result (single_rule (by_code place.now.context.now) place.now.around.now action.now.spot action.now.size action.now.function action.now.register (move_of action.now.data) known.old) }
{
    match &action.data {
        Move::NoData => control(place, action, known),
        Move::Into(variable) => read(place, action, *variable, known),
        Move::From(value) => write(place, action, value, known),
    }
}

// A cycle without data.
#[tactic(auto, unfolding(camac_rules::specs::Refusal::go_on))]
fn control(place: &Place, action: &SingleAction, known: &mut Facts) -> Result<Costs, CheckFault>
    ensures { Gives (leaving known.new) result (control_rule (by_code place.now.context.now) place.now.around.now action.now.spot action.now.function action.now.register known.old) }
{
    let g = addresses_of(place.around, known, action.register, action.spot)?;
    let _widths = command_widths(place.context.plan, action.spot, action.function, g)?;
    moves(action.function, FunctionClass::Control, action.spot)?;
    Ok(one_cycle(place.context, place.around, g.crates()))
}

// A read.
#[tactic(auto, unfolding(camac_rules::specs::Refusal::go_on))]
fn read(
    place: &Place,
    action: &SingleAction,
    variable: usize,
    known: &mut Facts,
) -> Result<Costs, CheckFault>
    ensures { Gives (leaving known.new) result (read_rule (by_code place.now.context.now) place.now.around.now action.now.spot action.now.size action.now.function action.now.register variable known.old) }
{
    may_write(place.around, variable, action.spot)?;
    let g = addresses_of(place.around, known, action.register, action.spot)?;
    let widths = command_widths(place.context.plan, action.spot, action.function, g)?;
    moves(action.function, FunctionClass::Read, action.spot)?;
    let word = words_of(action.size, widths.hi());
    known.put_range(variable, word)?;
    Ok(one_cycle(place.context, place.around, g.crates()))
}

// A write.
#[tactic(auto, unfolding(camac_rules::specs::Refusal::go_on))]
fn write(
    place: &Place,
    action: &SingleAction,
    value: &Expr,
    known: &mut Facts,
) -> Result<Costs, CheckFault>
    ensures { Gives (leaving known.new) result (write_rule (by_code place.now.context.now) place.now.around.now action.now.spot action.now.size action.now.function action.now.register (expression_of value.now) known.old) }
{
    let v = range_of(action.spot, value, known.ranges())?;
    let g = addresses_of(place.around, known, action.register, action.spot)?;
    let widths = command_widths(place.context.plan, action.spot, action.function, g)?;
    moves(action.function, FunctionClass::Write, action.spot)?;
    value_fits(action.size, v, widths, action.spot)?;
    Ok(one_cycle(place.context, place.around, g.crates()))
}

/// The addresses of a register. E6 where it may be unset.
#[tactic(auto, unfolding(camac_rules::specs::Refusal::given))]
pub fn addresses_of(
    around: &Around,
    known: &Facts,
    register: usize,
    spot: Spot,
) -> Result<Region, CheckFault>
    ensures { Gives (λ g. g) result (given (region_at known.now.registers register) CheckRule.RegisterUnset spot (Case.Unset around.now.body register)) }
{
    match known.register(register) {
        Some(region) => Ok(region),
        None => Err(CheckFault::broken(
            CheckRule::RegisterUnset,
            spot,
            Case::Unset {
                body: around.body(),
                register,
            },
        )),
    }
}

/// E17 where a `for` around counts the variable.
pub fn may_write(around: &Around, variable: usize, spot: Spot) -> Result<(), CheckFault>
    ensures { Gives (λ u. tt) result (required (may_write around.now variable) CheckRule.LoopVariableAssigned spot (Case.Counted around.now.body variable)) }
{
    let body = around.body();
    required(
        around.may_write(variable),
        CheckRule::LoopVariableAssigned,
        spot,
        Case::Counted { body, variable },
    )
}

/// E3 where a function is not of the class that a statement needs.
pub fn moves(f: Function, wanted: FunctionClass, spot: Spot) -> Result<(), CheckFault>
    ensures { Gives (λ u. tt) result (required (same_class wanted (class_of f)) CheckRule.WrongDirection spot (direction f wanted)) }
{
    let class = class(f);
    required(
        same_class(wanted, class),
        CheckRule::WrongDirection,
        spot,
        Case::Direction {
            function: f.get(),
            class,
            moves: wanted,
        },
    )
}

fn same_class(a: FunctionClass, b: FunctionClass) -> bool
    ensures { result ≡ same_class a b }
{
    a == b
}

/// The costs of one cycle.
pub fn one_cycle(context: &Context, around: &Around, crates: Range) -> Costs
    ensures { result ≡ one_cycle (by_code context.now) around.now crates }
{
    Costs::new(cycle_cost(context.plan, around, crates), 0, 1)
}

// The words that a read of this size keeps at this width.
#[tactic(auto, using(crate::proofs::Steps::power_below))]
fn words_of(size: WordSize, width: u32) -> Range
    requires { width ≤ 24 }
    ensures { result ≡ interval 0 (2 ^ sized size width - 1) }
{
    let bits = sized(size, width);
    match Range::new(0, (1u32 << bits) - 1) {
        Some(words) => words,
        None => Range::only(0),
    }
}

// The bits of a register of this width that a word of this size has.
fn sized(size: WordSize, width: u32) -> u32
    ensures { result ≡ sized size width }
{
    match size {
        WordSize::Full => width,
        WordSize::Short => width.min(16),
    }
}

// E5 where a write of this size can't send each number of a range at these widths.
#[tactic(auto, using(crate::proofs::Steps::power_below, crate::proofs::Steps::fits_sized))]
fn value_fits(size: WordSize, values: Range, widths: Range, spot: Spot) -> Result<(), CheckFault>
    requires { widths.hi ≤ 24 }
    ensures { Gives (λ u. tt) result (required (nat_lt values.hi (2 ^ widths.lo) && fits_size size values.hi) CheckRule.ValueTooWide spot (Case.Width values.hi (sized size widths.lo))) }
{
    let greatest = values.hi();
    let bits = sized(size, widths.lo());
    required(
        greatest < 1u32 << bits,
        CheckRule::ValueTooWide,
        spot,
        Case::Width { greatest, bits },
    )
}
