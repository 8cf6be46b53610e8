// What the engines are asked.

ghost use Rattle.std.specs.Prelude.{◌≡◌};
ghost use Rattle.camac_engines.specs.Ask.{of_plan};

use std::marker::Model;

/// What is asked of a plan and a script.
#[derive(Drop)]
pub enum Ask<'a> {
    /// The bounds of each service.
    Check,
    /// The same, and why a plan or a script is refused, with a line for each further refusal: of linking, or else of the checker, which judges each
    /// procedure and service by itself.
    Explain,
    /// The headings of `Bounds`, and why a plan is refused, or a script whatever its headings say.
    ExplainBounds,
    /// What the checker knows before the statement at a place: a line for each variable, for each register that is set and for each locked
    /// crate, or that the checker does not come there. Line and column are from 1, the column in bytes.
    ExplainAt {
        line: u32,
        column: u32,
        turns: Turns<'a>,
    },
    /// The headings with the least numbers that are accepted. The script's own numbers there are not looked at.
    Bounds,
    /// What the bounds consist of: a line for each procedure and service, and one for each of its statements.
    Costs,
    /// All at once: what `Check` and `Costs` tell, with the column of each statement, or each refusal, with what `Explain` tells of the first.
    Tell,
}

/// What is asked of a plan alone.
#[derive(Clone, Copy, Debug)]
pub enum PlanAsk {
    /// What it says.
    Lines,
    /// The same, and after the line of each type the lines of its commands.
    Commands,
    /// What it says, and why it is refused.
    Explain,
}

/// The turns that are chosen of the `each` loops around a statement, the outermost first: the numbers that their variables have there. Of further loops
/// all turns are meant.
#[derive(Drop)]
pub struct Turns<'a> {
    numbers: &'a [u32],
}

impl<'a> Model for Turns<'a> {
    ghost use Rattle.std.specs.Prelude.{List, ℕ};

    ghost Value = { List ℕ };

    ghost view = { λ t. t.numbers.now };
}

impl<'a> Turns<'a> {
    pub fn of(numbers: &'a [u32]) -> Turns<'a>
        ensures { result ≡ numbers.now }
    {
        Turns { numbers }
    }

    pub fn numbers(self) -> &'a [u32]
        ensures { result.now ≡ self.entry }
    {
        self.numbers
    }
}

impl Ask<'_> {
    /// What is asked of a plan that is refused.
    pub fn of_plan(self) -> PlanAsk
        ensures { result ≡ of_plan self.entry }
    {
        match self {
            Ask::Explain | Ask::ExplainBounds | Ask::Tell => PlanAsk::Explain,
            _ => PlanAsk::Lines,
        }
    }
}
