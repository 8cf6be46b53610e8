// What holds of the rows of a script, and of the lines of a plan, each law as the contract of a function that does nothing.

ghost use Rattle.camac_laws.specs.CostsBounds.{CostsAreBounds, SharesAddUp};
ghost use Rattle.camac_laws.specs.Listed.{CommandsAreListed};
ghost use Rattle.camac_laws.specs.Made.{RowsAreOfRuns, TimesInSteps};

/// The shares of a body's rows add up to its bound, in cycles, in words and in steps, unless a number of it is the greatest of 64 bits.
#[tactic(auto, using(crate::proofs::Shares::shares_add_up))]
pub fn shares_add_up()
    ensures { SharesAddUp }
{}

/// No statement is made more often than the bound of its body has steps.
#[tactic(auto, using(crate::proofs::Times::times_in_steps))]
pub fn times_in_steps()
    ensures { TimesInSteps }
{}

/// In an accepted script the bounds of the services in its costs are those of the check, and the shares of each body add up to its bound.
#[tactic(auto, using(crate::proofs::Shares::costs_are_bounds))]
pub fn costs_are_bounds()
    ensures { CostsAreBounds }
{}

/// No run makes a statement of an accepted script more often in one service or call than its row says, and no time of it costs more cycles,
/// words or steps than its row says of one.
#[tactic(auto, using(crate::proofs::MadeRuns::rows_are_of_runs))]
pub fn rows_are_of_runs()
    ensures { RowsAreOfRuns }
{}

/// What `camac plan --commands` lists of a type is lines in order, one for each function and the neighbours that are alike. Each sub-address
/// of a line has that command, and each command that is declared stands in one line.
#[tactic(auto, using(crate::proofs::Listed::commands_are_listed))]
pub fn commands_are_listed()
    ensures { CommandsAreListed }
{}
