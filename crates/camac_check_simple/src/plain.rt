// The rules of statements without a dataway cycle.

ghost use Rattle.camac_lang.specs.View.{expression_of};
ghost use Rattle.camac_rules.specs.Statements.{assign_rule, register_rule, put_rule};
ghost use Rattle.camac_check_simple.specs.Gives.{Gives, leaving};

use crate::cycle::may_write;
use camac_check_known::{Around, CheckFault, Costs, Facts, Region, range_of, required};
use camac_lang::{Assignment, PutAction, RegisterSetting};
use camac_rules::{Case, CheckRule};

/// Checks an assignment.
#[tactic(auto, unfolding(camac_rules::specs::Refusal::go_on))]
pub fn assign(
    around: &Around,
    assignment: &Assignment,
    known: &mut Facts,
) -> Result<Costs, CheckFault>
    ensures { Gives (leaving known.new) result (assign_rule around.now assignment.now.spot assignment.now.variable (expression_of assignment.now.value) known.old) }
{
    let assigned = range_of(assignment.spot, &assignment.value, known.ranges())?;
    may_write(around, assignment.variable, assignment.spot)?;
    known.put_range(assignment.variable, assigned)?;
    Ok(Costs::new(0, 0, 1))
}

/// Checks `cdreg`.
#[tactic(auto, unfolding(camac_rules::specs::Refusal::go_on))]
pub fn set_register(setting: &RegisterSetting, known: &mut Facts) -> Result<Costs, CheckFault>
    ensures { Gives (leaving known.new) result (register_rule setting.now.spot setting.now.register (expression_of setting.now.crate_no) (expression_of setting.now.station) (expression_of setting.now.sub_address) known.old) }
{
    let c = range_of(setting.spot, &setting.crate_no, known.ranges())?;
    let n = range_of(setting.spot, &setting.station, known.ranges())?;
    let a = range_of(setting.spot, &setting.sub_address, known.ranges())?;
    known.put_region(setting.register, Region::new(c, n, a))?;
    Ok(Costs::new(0, 0, 1))
}

/// Checks `put`.
#[tactic(auto, unfolding(camac_rules::specs::Refusal::go_on))]
pub fn put(action: &PutAction, known: &mut Facts) -> Result<Costs, CheckFault>
    ensures { Gives (leaving known.new) result (put_rule action.now.spot (expression_of action.now.value) known.old) }
{
    let r = range_of(action.spot, &action.value, known.ranges())?;
    let greatest = r.hi();
    required(
        greatest <= 16_777_215,
        CheckRule::WordTooWide,
        action.spot,
        Case::Word { greatest },
    )?;
    Ok(Costs::new(0, 1, 1))
}
