// The code of each rule: its name and its meaning.

ghost use Rattle.std.specs.Prelude.{◌≡◌, ◌≤◌, length};
ghost use Rattle.camac_lines.specs.Codes.{plan_code, text_code, link_code, check_code, answer_code, event_code};

use camac_answer::AnswerRule;
use camac_event::EventRule;
use camac_names::LinkRule;
use camac_plan::PlanRule;
use camac_rules::CheckRule;
use camac_tokens::TextRule;

/// The code of a rule, as the line of a refusal has it.
#[derive(Clone, Copy, Debug)]
pub struct Code {
    /// A letter and a number.
    pub name: &'static str,
    /// What is wrong where the rule is broken, in a few words.
    pub meaning: &'static str,
}

/// The length of the longest name of a code, in bytes.
pub const LONGEST_NAME: usize = 3;

/// The length of the longest meaning of a code, in bytes.
pub const LONGEST_MEANING: usize = 31;

/// The code of a rule of plans: P1 to P9, and P11.
pub fn plan_code(rule: PlanRule) -> Code
    ensures name { result.name.now ≡ (plan_code rule).0 }
    ensures meaning { result.meaning.now ≡ (plan_code rule).1 }
    ensures short { (length result.name.now ≤ LONGEST_NAME) × (length result.meaning.now ≤ LONGEST_MEANING) }
{
    let (name, meaning) = match rule {
        PlanRule::NotToml => ("P1", "not TOML"),
        PlanRule::UnknownKey => ("P2", "unknown key"),
        PlanRule::MissingOrWrongKind => ("P3", "missing key or wrong kind"),
        PlanRule::OutOfRange => ("P4", "value out of range"),
        PlanRule::CrateTwice => ("P5", "crate twice"),
        PlanRule::StationTwice => ("P6", "station twice"),
        PlanRule::UnknownType => ("P7", "unknown module type"),
        PlanRule::DeclaredTwice => ("P8", "declared twice"),
        PlanRule::BitTwice => ("P9", "GL bit twice"),
        PlanRule::TooDeep => ("P11", "nested too deeply"),
    };
    Code { name, meaning }
}

/// The code of a rule of a script's text: S1 to S7.
pub fn text_code(rule: TextRule) -> Code
    ensures name { result.name.now ≡ (text_code rule).0 }
    ensures meaning { result.meaning.now ≡ (text_code rule).1 }
    ensures short { (length result.name.now ≤ LONGEST_NAME) × (length result.meaning.now ≤ LONGEST_MEANING) }
{
    let (name, meaning) = match rule {
        TextRule::BadByte => ("S1", "bad byte"),
        TextRule::UnexpectedToken => ("S2", "unexpected token"),
        TextRule::NumberTooLarge => ("S3", "number too large"),
        TextRule::DeclaredTwice => ("S4", "name declared twice"),
        TextRule::NotDeclared => ("S5", "name not declared"),
        TextRule::LimitPassed => ("S6", "limit passed"),
        TextRule::BranchNotOne => ("S7", "branch not 1"),
    };
    Code { name, meaning }
}

/// The code of a rule of linking: L1 to L4.
pub fn link_code(rule: LinkRule) -> Code
    ensures name { result.name.now ≡ (link_code rule).0 }
    ensures meaning { result.meaning.now ≡ (link_code rule).1 }
    ensures short { (length result.name.now ≤ LONGEST_NAME) × (length result.meaning.now ≤ LONGEST_MEANING) }
{
    let (name, meaning) = match rule {
        LinkRule::LamNotInstalled => ("L1", "LAM at no installed station"),
        LinkRule::StationWithoutBit => ("L2", "station without GL bit"),
        LinkRule::StationServedTwice => ("L3", "two services on one station"),
        LinkRule::EventAboveBuffer => ("L4", "event above the buffer"),
    };
    Code { name, meaning }
}

/// The code of a rule of the checker: E1 to E18, or E21.
pub fn check_code(rule: CheckRule) -> Code
    ensures name { result.name.now ≡ (check_code rule).0 }
    ensures meaning { result.meaning.now ≡ (check_code rule).1 }
    ensures short { (length result.name.now ≤ LONGEST_NAME) × (length result.meaning.now ≤ LONGEST_MEANING) }
{
    let (name, meaning) = match rule {
        CheckRule::StationNotInstalled => ("E1", "station may not be installed"),
        CheckRule::CommandNotDeclared => ("E2", "command may not be declared"),
        CheckRule::WrongDirection => ("E3", "data direction does not fit"),
        CheckRule::ValueOutOfRange => ("E4", "value out of range"),
        CheckRule::ValueTooWide => ("E5", "value too wide"),
        CheckRule::RegisterUnset => ("E6", "register may be unset"),
        CheckRule::MeasureBroken => ("E7", "measure rule broken"),
        CheckRule::KeepFailsAtEntry => ("E8", "keep fails at entry"),
        CheckRule::KeepFailsAfterTurn => ("E9", "keep fails after a turn"),
        CheckRule::TooManyTurns => ("E10", "too many turns"),
        CheckRule::TooManyWords => ("E11", "more event words than annotated"),
        CheckRule::TooManyCycles => ("E12", "more cycles than annotated"),
        CheckRule::ScanCratesDiffer => ("E13", "crates of a scan differ"),
        CheckRule::CountAboveTable => ("E14", "count above the table"),
        CheckRule::CrateUnfit => ("E15", "crate unfit for the call"),
        CheckRule::WordTooWide => ("E16", "word above 24 bits"),
        CheckRule::LoopVariableAssigned => ("E17", "loop variable assigned"),
        CheckRule::TooManySteps => ("E18", "too many steps"),
        CheckRule::ArgumentOutOfRange => ("E21", "argument out of range"),
    };
    Code { name, meaning }
}

/// The code of a rule of answers: A1, A2 or A4.
pub fn answer_code(rule: AnswerRule) -> Code
    ensures name { result.name.now ≡ (answer_code rule).0 }
    ensures meaning { result.meaning.now ≡ (answer_code rule).1 }
    ensures short { (length result.name.now ≤ LONGEST_NAME) × (length result.meaning.now ≤ LONGEST_MEANING) }
{
    let (name, meaning) = match rule {
        AnswerRule::LineShape => ("A1", "line shape"),
        AnswerRule::BadDigit => ("A2", "bad digit"),
        AnswerRule::TooMany => ("A4", "too many answers"),
    };
    Code { name, meaning }
}

/// The code of a rule of event files: V1 to V7, or V9.
pub fn event_code(rule: EventRule) -> Code
    ensures name { result.name.now ≡ (event_code rule).0 }
    ensures meaning { result.meaning.now ≡ (event_code rule).1 }
    ensures short { (length result.name.now ≤ LONGEST_NAME) × (length result.meaning.now ≤ LONGEST_MEANING) }
{
    let (name, meaning) = match rule {
        EventRule::WrongHeader => ("V1", "header"),
        EventRule::WrongMarker => ("V2", "marker"),
        EventRule::GlOutOfRange => ("V3", "GL number"),
        EventRule::NumberOutOfOrder => ("V4", "event number"),
        EventRule::CountAboveLimit => ("V5", "count"),
        EventRule::WordTooWide => ("V6", "word"),
        EventRule::Truncated => ("V7", "truncated"),
        EventRule::MissedAboveCycles => ("V9", "X count"),
    };
    Code { name, meaning }
}
