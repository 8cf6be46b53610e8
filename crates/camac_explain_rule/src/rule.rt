// The rules by their codes, and what is said of each without a case.

ghost use Rattle.std.specs.Prelude.{◌≡◌, ◌++◌, IfOk, OnOk, codes, map};
ghost use Rattle.std.specs.List.{flat_map};
ghost use Rattle.std.specs.Str.{str_eq_ignore_ascii_case};
ghost use Rattle.camac_explain_rule.specs.Advice.{line_of, Grows, IsRuleOf, IsRuleText, Names, fix_line, fixes_of, rule_code, warning_code};
ghost use Rattle.camac_lines.specs.Codes.{answer_code, check_code, event_code, link_code, plan_code, text_code};

use crate::advice::{check_page, rule_advice};
use crate::example::{check_example, link_example, plan_example, text_example};
use crate::pages::{self, Fix, MORE};
use camac_answer::AnswerRule;
use camac_event::{EventFlaw, EventRule};
use camac_lines::{Code, Refusal};
use camac_names::LinkRule;
use camac_plan::PlanRule;
use camac_rules::CheckRule;
use camac_text::TextRule;
use std::alloc::{AllocError, Global};

/// A rule of plans, of a script's text, of linking, of the checker, of answers or of event files, or a warning.
#[derive(Clone, Copy, Debug, PartialEq, Eq)]
pub enum Rule {
    Plan(PlanRule),
    Text(TextRule),
    Link(LinkRule),
    Check(CheckRule),
    Answer(AnswerRule),
    Event(EventRule),
    Warning(Warning),
}

/// What `camac-check` warns of in an accepted script.
#[derive(Clone, Copy, Debug, PartialEq, Eq)]
pub enum Warning {
    NeverReached,
    ScanWithoutCycle,
    NoNumber,
    KeepNotNeeded,
    NoService,
    LongerFirst,
    DearLoop,
    KeepTooWide,
    WordNotUsed,
    OneNumber,
    UsedBeforeSet,
    OneAddressTwice,
    FlagBeforeCycle,
    NameNotUsed,
    LeadingZero,
    AlwaysTrueOrFalse,
    GuardLeavesOut,
}

impl Rule {
    /// The rule of a code in either case, as E12 or w3.
    pub fn of_code(code: &str) -> Option<Rule>
        ensures { IsRuleOf code.now result }
    {
        if let Some(rule) = plan_rule(code) {
            return Some(Rule::Plan(rule));
        }
        if let Some(rule) = text_rule(code) {
            return Some(Rule::Text(rule));
        }
        if let Some(rule) = link_rule(code) {
            return Some(Rule::Link(rule));
        }
        if let Some(rule) = check_rule(code) {
            return Some(Rule::Check(rule));
        }
        if let Some(rule) = answer_rule(code) {
            return Some(Rule::Answer(rule));
        }
        if let Some(rule) = event_rule(code) {
            return Some(Rule::Event(rule));
        }
        match warning_of(code) {
            Some(rule) => Some(Rule::Warning(rule)),
            None => None,
        }
    }

    /// Its code.
    pub fn code(self) -> Code
        ensures name { result.name.now ≡ (rule_code self).0 }
        ensures meaning { result.meaning.now ≡ (rule_code self).1 }
    {
        let line = 1;
        let refusal = match self {
            Rule::Plan(rule) => Refusal::Plan(rule),
            Rule::Text(rule) => Refusal::Text { rule, line },
            Rule::Link(rule) => Refusal::Link { rule, line },
            Rule::Check(rule) => Refusal::Check { rule, line },
            Rule::Answer(rule) => Refusal::Answer { rule, line: 1 },
            Rule::Event(rule) => Refusal::Event(EventFlaw { rule, offset: 0 }),
            Rule::Warning(warning) => return warning_code(warning),
        };
        refusal.code()
    }
}

fn warning_code(warning: Warning) -> Code
    ensures name { result.name.now ≡ (warning_code warning).0 }
    ensures meaning { result.meaning.now ≡ (warning_code warning).1 }
{
    let (name, meaning) = match warning {
        Warning::NeverReached => ("W1", pages::NEVER_REACHED),
        Warning::ScanWithoutCycle => ("W2", pages::SCAN_WITHOUT_CYCLE),
        Warning::NoNumber => ("W3", pages::NO_NUMBER),
        Warning::KeepNotNeeded => ("W4", pages::KEEP_NOT_NEEDED),
        Warning::NoService => ("W5", pages::NO_SERVICE),
        Warning::LongerFirst => ("W6", pages::LONGER_FIRST),
        Warning::DearLoop => ("W7", pages::DEAR_LOOP),
        Warning::KeepTooWide => ("W8", pages::KEEP_TOO_WIDE),
        Warning::WordNotUsed => ("W9", pages::WORD_NOT_USED),
        Warning::OneNumber => ("W10", pages::ONE_NUMBER),
        Warning::UsedBeforeSet => ("W11", pages::USED_BEFORE_SET),
        Warning::OneAddressTwice => ("W12", pages::ONE_ADDRESS_TWICE),
        Warning::FlagBeforeCycle => ("W13", pages::FLAG_BEFORE_CYCLE),
        Warning::NameNotUsed => ("W14", pages::NAME_NOT_USED),
        Warning::LeadingZero => ("W15", pages::LEADING_ZERO),
        Warning::AlwaysTrueOrFalse => ("W16", pages::ALWAYS_TRUE_OR_FALSE),
        Warning::GuardLeavesOut => ("W17", pages::GUARD_LEAVES_OUT),
    };
    Code { name, meaning }
}

// The first of these rules whose name this code is.
macro_rules! rule_of {
    ($code:ident,) => { None };
    ($code:ident, $name:literal => $rule:path, $($rest:tt)*) => {
        if is_code($name, $code) { Some($rule) } else { rule_of!($code, $($rest)*) }
    };
}

fn is_code(name: &str, code: &str) -> bool
    ensures { result ≡ str_eq_ignore_ascii_case name.now code.now }
{
    name.eq_ignore_ascii_case(code)
}

fn plan_rule(code: &str) -> Option<PlanRule>
    ensures { Names plan_code code.now result }
{
    rule_of!(code,
        "P1" => PlanRule::NotToml,
        "P2" => PlanRule::UnknownKey,
        "P3" => PlanRule::MissingOrWrongKind,
        "P4" => PlanRule::OutOfRange,
        "P5" => PlanRule::CrateTwice,
        "P6" => PlanRule::StationTwice,
        "P7" => PlanRule::UnknownType,
        "P8" => PlanRule::DeclaredTwice,
        "P9" => PlanRule::BitTwice,
        "P11" => PlanRule::TooDeep,
    )
}

fn text_rule(code: &str) -> Option<TextRule>
    ensures { Names text_code code.now result }
{
    rule_of!(code,
        "S1" => TextRule::BadByte,
        "S2" => TextRule::UnexpectedToken,
        "S3" => TextRule::NumberTooLarge,
        "S4" => TextRule::DeclaredTwice,
        "S5" => TextRule::NotDeclared,
        "S6" => TextRule::LimitPassed,
        "S7" => TextRule::BranchNotOne,
    )
}

fn link_rule(code: &str) -> Option<LinkRule>
    ensures { Names link_code code.now result }
{
    rule_of!(code,
        "L1" => LinkRule::LamNotInstalled,
        "L2" => LinkRule::StationWithoutBit,
        "L3" => LinkRule::StationServedTwice,
        "L4" => LinkRule::EventAboveBuffer,
    )
}

fn check_rule(code: &str) -> Option<CheckRule>
    ensures { Names check_code code.now result }
{
    rule_of!(code,
        "E1" => CheckRule::StationNotInstalled,
        "E2" => CheckRule::CommandNotDeclared,
        "E3" => CheckRule::WrongDirection,
        "E4" => CheckRule::ValueOutOfRange,
        "E5" => CheckRule::ValueTooWide,
        "E6" => CheckRule::RegisterUnset,
        "E7" => CheckRule::MeasureBroken,
        "E8" => CheckRule::KeepFailsAtEntry,
        "E9" => CheckRule::KeepFailsAfterTurn,
        "E10" => CheckRule::TooManyTurns,
        "E11" => CheckRule::TooManyWords,
        "E12" => CheckRule::TooManyCycles,
        "E13" => CheckRule::ScanCratesDiffer,
        "E14" => CheckRule::CountAboveTable,
        "E15" => CheckRule::CrateUnfit,
        "E16" => CheckRule::WordTooWide,
        "E17" => CheckRule::LoopVariableAssigned,
        "E18" => CheckRule::TooManySteps,
        "E21" => CheckRule::ArgumentOutOfRange,
    )
}

fn answer_rule(code: &str) -> Option<AnswerRule>
    ensures { Names answer_code code.now result }
{
    rule_of!(code,
        "A1" => AnswerRule::LineShape,
        "A2" => AnswerRule::BadDigit,
        "A4" => AnswerRule::TooMany,
    )
}

fn event_rule(code: &str) -> Option<EventRule>
    ensures { Names event_code code.now result }
{
    rule_of!(code,
        "V1" => EventRule::WrongHeader,
        "V2" => EventRule::WrongMarker,
        "V3" => EventRule::GlOutOfRange,
        "V4" => EventRule::NumberOutOfOrder,
        "V5" => EventRule::CountAboveLimit,
        "V6" => EventRule::WordTooWide,
        "V7" => EventRule::Truncated,
        "V9" => EventRule::MissedAboveCycles,
    )
}

fn warning_of(code: &str) -> Option<Warning>
    ensures { Names warning_code code.now result }
{
    rule_of!(code,
        "W1" => Warning::NeverReached,
        "W2" => Warning::ScanWithoutCycle,
        "W3" => Warning::NoNumber,
        "W4" => Warning::KeepNotNeeded,
        "W5" => Warning::NoService,
        "W6" => Warning::LongerFirst,
        "W7" => Warning::DearLoop,
        "W8" => Warning::KeepTooWide,
        "W9" => Warning::WordNotUsed,
        "W10" => Warning::OneNumber,
        "W11" => Warning::UsedBeforeSet,
        "W12" => Warning::OneAddressTwice,
        "W13" => Warning::FlagBeforeCycle,
        "W14" => Warning::NameNotUsed,
        "W15" => Warning::LeadingZero,
        "W16" => Warning::AlwaysTrueOrFalse,
        "W17" => Warning::GuardLeavesOut,
    )
}

/// Explains a rule without a case: its code and meaning, why it is there, each way to fix it, and of plans and scripts an example.
pub fn explain_rule(alloc: Global, rule: Rule) -> Result<Vec<u8>, AllocError>
    ensures { IfOk result (λ v. IsRuleText rule v.items) }
{
    let code = rule.code();
    let mut lines = Vec::new(alloc);
    push_labelled(&mut lines, code.name, code.meaning)?;
    push_line(&mut lines, "Why: ", rule_advice(rule).why)?;
    push_fixes(&mut lines, rule)?;
    push_example(&mut lines, rule)?;
    push_line(&mut lines, MORE, code.name)?;
    Ok(lines)
}

fn push_labelled(lines: &mut Vec<u8>, label: &str, text: &str) -> Result<(), AllocError>
    ensures { OnOk result (lines.new.items ≡ lines.old.items ++ line_of (label.now ++ codes ": ") text.now) }
{
    lines.extend_from_slice(label.as_bytes())?;
    push_line(lines, ": ", text)
}

fn push_fixes(lines: &mut Vec<u8>, rule: Rule) -> Result<(), AllocError>
    ensures { OnOk result (lines.new.items ≡ lines.old.items ++ fixes_of rule) }
{
    match rule {
        Rule::Check(rule) => push_each(lines, check_page(rule).1),
        _ => push_line(lines, "Fix: ", rule_advice(rule).fix),
    }
}

// Each way to mend, behind what it is for.
fn push_each(lines: &mut Vec<u8>, fixes: &[Fix]) -> Result<(), AllocError>
    ensures { OnOk result (lines.new.items ≡ lines.old.items ++ flat_map fix_line (map (λ f. (f.0.now, f.1.now)) fixes.now)) }
{
    'fixes: for (purpose, fix) in fixes {
        lines.extend_from_slice(b"Fix")?;
        push_labelled(lines, purpose, fix)?;
    }
    Ok(())
}

// Of a rule for plans and scripts there is one.
fn push_example(lines: &mut Vec<u8>, rule: Rule) -> Result<(), AllocError>
    ensures { OnOk result (Grows lines.old.items lines.new.items) }
{
    let example = match rule {
        Rule::Plan(rule) => plan_example(rule),
        Rule::Text(rule) => text_example(rule),
        Rule::Link(rule) => link_example(rule),
        Rule::Check(rule) => check_example(rule),
        Rule::Answer(_) | Rule::Event(_) | Rule::Warning(_) => return Ok(()),
    };
    lines.extend_from_slice(example.head.as_bytes())?;
    lines.push(b'\n')?;
    lines.extend_from_slice(example.text.as_bytes())?;
    Ok(())
}

/// Puts a line at the end, which begins with a label.
pub fn push_line(lines: &mut Vec<u8>, label: &str, text: &str) -> Result<(), AllocError>
    ensures { OnOk result (lines.new.items ≡ lines.old.items ++ line_of label.now text.now) }
{
    lines.extend_from_slice(label.as_bytes())?;
    lines.extend_from_slice(text.as_bytes())?;
    lines.push(b'\n')?;
    Ok(())
}
