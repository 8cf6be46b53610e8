// What is found wrong with an input.

ghost use Rattle.std.specs.Prelude.{◌≡◌};
ghost use Rattle.camac_explain.specs.Explanation.{refusal_of};

use camac_lang::Spot;
use camac_lines::Refusal;
use camac_names::{LinkCase, LinkRule};
use camac_plan::PlanRule;
use camac_rules::{Case, CheckRule};
use camac_text::TextRule;

/// The first rule that a plan or a script breaks, where that is in the script, and what the rule knew there.
#[derive(Clone, Copy, Debug, PartialEq, Eq)]
pub enum Finding {
    Plan(PlanRule),
    Text {
        rule: TextRule,
        spot: Spot,
    },
    Link {
        rule: LinkRule,
        spot: Spot,
        case: LinkCase,
    },
    Check {
        rule: CheckRule,
        spot: Spot,
        case: Case,
    },
}

impl Finding {
    /// The refusal without its case.
    pub fn refusal(self) -> Refusal
        ensures { result ≡ refusal_of self }
    {
        match self {
            Finding::Plan(rule) => Refusal::Plan(rule),
            Finding::Text { rule, spot } => Refusal::Text {
                rule,
                line: spot.line,
            },
            Finding::Link { rule, spot, .. } => Refusal::Link {
                rule,
                line: spot.line,
            },
            Finding::Check { rule, spot, .. } => Refusal::Check {
                rule,
                line: spot.line,
            },
        }
    }
}
