// What holds of headings, of calls and of refusals, each law as the contract of a function that does nothing.

ghost use Rattle.camac_laws.specs.Calls.{AcceptedCallsKeep, CallsKeepToRanges, GuardsOnlyStop, GuardsStop};
ghost use Rattle.camac_laws.specs.Lower.{CostsGrow, CheckedHaveLeast, LeastAreLeast, RefusedHaveNone};
ghost use Rattle.camac_laws.specs.ShownAddresses.{RegistersHaveAddresses, MissingAreShown, UndeclaredAreShown};
ghost use Rattle.camac_laws.specs.Refused.{HeadingsAreShown, RefusedAtPlaces};
ghost use Rattle.camac_laws.specs.Regions.{CommandsAreJudged, CostIsGreatest, StationsAreAll, WaitsMayCome, WidthsAreAll};
ghost use Rattle.camac_laws.specs.Scans.{ScansAreJudged, WindowsAreCounted, WindowsAreDeclared, WindowsAreInstalled, MissingOverAreShown, UndeclaredOverAreShown};
ghost use Rattle.camac_laws.specs.Shown.{ArgumentsAreShown, EachTurnsAreShown, ForTurnsAreShown, KeptAreShown, UnfitHaveOne, UnkeptHaveOne, WhileTurnsAreShown, ConditionsAreShown, ExpressionsAreShown, PartsAreShown};
ghost use Rattle.camac_laws.specs.Values.{BlocksAreFit, ReadsAreAll, WritesAreFit};

use camac_check::Checked;

/// With lower numbers in the headings of its procedures a block is judged the same, and costs no more.
#[tactic(auto, using(crate::proofs::Least::costs_grow))]
pub fn costs_grow()
    ensures { CostsGrow }
{}

/// Whatever headings a linked script is accepted with, its least headings are there, and no number of them is greater.
#[tactic(auto, using(crate::proofs::Least::least_are_least))]
pub fn least_are_least()
    ensures { LeastAreLeast }
{}

/// Where a script has no least headings, no numbers in its headings make it linked and accepted.
#[tactic(auto, using(crate::proofs::Least::refused_have_none))]
pub fn refused_have_none()
    ensures { RefusedHaveNone }
{}

/// Where `check` accepts a linked script, `least` answers Ok, with no number above those of its headings; or memory ran out.
#[tactic(auto, using(crate::proofs::Least::checked_have_least))]
pub fn checked_have_least()
    ensures { CheckedHaveLeast }
{}

/// A guarded call is wrong, where its arguments are not in the ranges of its procedure's parameters.
#[tactic(auto, using(crate::proofs::Guarded::guards_stop))]
pub fn guards_stop()
    ensures { GuardsStop }
{}

/// Of any script: a guarded block does the same as the plain one, unless it stops as wrong.
#[tactic(auto, using(crate::proofs::Guarded::guards_only_stop))]
pub fn guards_only_stop()
    ensures { GuardsOnlyStop }
{}

/// In every run of an accepted script each call of a procedure has its arguments in the ranges of the heading. With guards the script means
/// the same as without them, and nothing is wrong.
#[tactic(auto, using(crate::proofs::Guarded::accepted_calls_keep))]
pub fn accepted_calls_keep()
    ensures { AcceptedCallsKeep }
{}

/// The same of this checked script.
pub fn calls_keep_to_ranges(checked: &Checked)
    ensures { CallsKeepToRanges checked.now.plan checked.now.script }
{
    checked.is_checked();
    checked.script().well_formed();
    checked.plan().is_plan();
}

/// Where a script is refused, all procedures and services before one are accepted, and this one is refused. A statement of its body, to which
/// the checker comes as all before it are accepted, has this fault, on its line, and none of those in its blocks has one; in an `each` it is so in
/// some turn. Or with an `each` on this line more is judged than its body may. Or its body is accepted and costs more than its heading has.
#[tactic(auto, using(crate::proofs::RefusedAt::refused_at_places))]
pub fn refused_at_places()
    ensures { RefusedAtPlaces }
{}

/// Where the body of a procedure or service is accepted and the whole is not (E11, E12, E18), the case shows what the body costs and the lower
/// number of its heading. A heading with any number that is at least the cost is not refused by that rule.
#[tactic(auto, using(crate::proofs::RefusedAt::headings_are_shown))]
pub fn headings_are_shown()
    ensures { HeadingsAreShown }
{}

/// Where an argument is not in the range of its parameter (E21), the case shows the first such argument of the call and both ranges. With
/// as many arguments as parameters there is always such a case.
#[tactic(auto, using(crate::proofs::ShownExpressions::arguments_are_shown, crate::proofs::ShownExpressions::unfit_have_one))]
pub fn arguments_are_shown()
    ensures first { ArgumentsAreShown }
    ensures always { UnfitHaveOne }
{}

/// Where a kept range may fail (E8, E9), the case shows the first variable that is not in it, and both ranges. There
/// is always such a case.
#[tactic(auto, using(crate::proofs::ShownExpressions::kept_are_shown, crate::proofs::ShownExpressions::unkept_have_one))]
pub fn kept_are_shown()
    ensures first { KeptAreShown }
    ensures always { UnkeptHaveOne }
{}

/// Where a `while` may have too many turns (E10), the case shows the turns that it needs, which are the greatest value of its measure divided by
/// its step, and the number after `turns`. With a number that is enough it is not refused by that rule. Or that number is above the most
/// that any loop may have, and the case shows both.
#[tactic(auto, using(crate::proofs::ShownTurns::while_turns_are_shown))]
pub fn while_turns_are_shown()
    ensures { WhileTurnsAreShown }
{}

/// Where a `for` may have too many turns (E10), the case shows the turns from the least first value to the greatest last one, and the most
/// that any loop may have; with `each`, from its first number to its last one.
#[tactic(auto, using(crate::proofs::ShownTurns::for_turns_are_shown, crate::proofs::ShownTurns::each_turns_are_shown))]
pub fn for_turns_are_shown()
    ensures plain { ForTurnsAreShown }
    ensures each { EachTurnsAreShown }
{}

/// Where an expression may have no number as its value (E4), the case shows an operator in it, and the numbers of the parts on both sides, on
/// which it has no result. Else the expression has a number above the greatest or a division by 0, which no text gives.
#[tactic(auto, using(crate::proofs::ShownExpressions::expressions_are_shown))]
pub fn expressions_are_shown()
    ensures { ExpressionsAreShown }
{}

/// Where a condition is refused, one of its parts is, in the state in which all parts before it hold.
#[tactic(auto, using(crate::proofs::ShownExpressions::conditions_are_shown))]
pub fn conditions_are_shown()
    ensures { ConditionsAreShown }
{}

/// Where a part of a condition is refused, its fault is that of one of the two expressions in it.
#[tactic(auto, using(crate::proofs::ShownExpressions::parts_are_shown))]
pub fn parts_are_shown()
    ensures { PartsAreShown }
{}

/// Where a station may not be installed (E1), the case shows the first crate of the addresses not all of whose stations are there. Where that
/// crate is in the plan, it shows its first station that is not installed.
#[tactic(auto, using(crate::proofs::ShownAddresses::missing_are_shown))]
pub fn missing_are_shown()
    ensures { MissingAreShown }
{}

/// Where a command may not be declared (E2), the case shows the function, the first crate that has not the command at all addresses, its first
/// such station, and the first sub-address there that has not the command.
#[tactic(auto, using(crate::proofs::ShownAddresses::undeclared_are_shown))]
pub fn undeclared_are_shown()
    ensures { UndeclaredAreShown }
{}

/// The same of a scan, whose addresses are those of its window: from its first to its last, in the order of stations and then of
/// sub-addresses. Where a station may not be installed (E1), the case shows the crate, which is not in the plan; or it is, and the station is
/// the first of the window that is not installed.
#[tactic(auto, using(crate::proofs::ShownWindows::missing_over_are_shown))]
pub fn missing_over_are_shown()
    ensures { MissingOverAreShown }
{}

/// Where a scan may come to an address that does not declare its command (E2), the case shows the function and the first such address of the
/// window. Or one of its registers may hold a sub-address past the last, and the case shows the first of these.
#[tactic(auto, using(crate::proofs::ShownWindows::undeclared_over_are_shown))]
pub fn undeclared_over_are_shown()
    ensures { UndeclaredOverAreShown }
{}

/// Each register that is set where the checker comes to a statement has an address: each of its three ranges has a number. So it is in
/// the body of a service, and in that of a procedure.
#[tactic(auto, using(crate::proofs::Places::registers_have_addresses))]
pub fn registers_have_addresses()
    ensures { RegistersHaveAddresses }
{}

/// A command passes E1 exactly where each station that its register can hold is installed. Its crate is in the plan, and it has a module, or
/// the controller answers for it.
#[tactic(auto, using(crate::proofs::Regions::stations_are_all))]
pub fn stations_are_all()
    ensures { StationsAreAll }
{}

/// Where they are, the widths of a function are the least and the greatest that it has at an address of the register. There are none exactly
/// where some address does not allow the function.
#[tactic(auto, using(crate::proofs::Regions::widths_are_all))]
pub fn widths_are_all()
    ensures { WidthsAreAll }
{}

/// So a command is refused by E1 exactly where some station is not installed. It is refused by E2 exactly where all are, and some address
/// does not allow its function.
#[tactic(auto, using(crate::proofs::Regions::commands_are_judged))]
pub fn commands_are_judged()
    ensures { CommandsAreJudged }
{}

/// A single write is accepted only where the greatest value of its expression fits at each address of its register, and a block transfer only
/// where each word that it sends does. E5 refuses them only where the value, or the greatest word, does not fit at some address: the case shows
/// it, and the bits that are sent there.
#[tactic(auto, using(crate::proofs::Values::writes_are_fit, crate::proofs::Values::blocks_are_fit))]
pub fn values_are_fit()
    ensures single { WritesAreFit }
    ensures block { BlocksAreFit }
{}

/// After a read its variable has the range of the words that have no more bits than the function has at some address of the register, and for
/// `cssa` no more than 16. All else is known as before it.
#[tactic(auto, using(crate::proofs::Values::reads_are_all))]
pub fn reads_are_all()
    ensures { ReadsAreAll }
{}

/// The cost of a cycle is 1 plus the greatest number of waits that may come before it in some crate of the register. No crate has more, and
/// one has so many. Those that may come are the ones up to the plan's number, and none in a locked crate.
#[tactic(auto, using(crate::proofs::Regions::cost_is_greatest, crate::proofs::Regions::waits_may_come))]
pub fn cost_is_greatest()
    ensures cost { CostIsGreatest }
    ensures waits { WaitsMayCome }
{}

/// The tests of a scan are of the addresses of its window, from its first to its last, in the order of stations and then of sub-addresses.
/// The station of each is installed; each allows the function; and the window's size is how many there are.
#[tactic(auto, using(crate::proofs::ShownWindows::windows_are_installed, crate::proofs::ShownWindows::windows_are_declared, crate::proofs::ShownWindows::windows_are_counted))]
pub fn windows_are_between()
    ensures installed { WindowsAreInstalled }
    ensures declared { WindowsAreDeclared }
    ensures counted { WindowsAreCounted }
{}

/// So a scan is refused by E1 exactly where the station of an address of its window is not installed. It is refused by E2 exactly where all
/// are, and a register may hold a sub-address above 15, or an address of the window does not allow the function.
#[tactic(auto, using(crate::proofs::ScansJudged::scans_are_judged))]
pub fn scans_are_judged()
    ensures { ScansAreJudged }
{}
