// Why each rule is there, and what to do where it is broken.

ghost use Rattle.std.specs.Prelude.{◌≡◌, map};
ghost use Rattle.camac_explain_rule.specs.Advice.{check_fix, check_page, check_told, is_any, is_difference, is_forgotten, is_right_forgotten, is_side_forgotten, is_within, rule_told};

use crate::pages::{self, Fix, Row};
use crate::rule::Rule;
use camac_func::FunctionClass;
use camac_lang::limits;
use camac_rules::{Case, CheckRule, Numbers, Operator};

// The greatest number of words that a plan's buffer holds.
const BUFFER: u32 = 4096;

/// What is told of a rule.
#[derive(Clone, Copy, Debug)]
pub struct Advice {
    /// Why the rule is there.
    pub why: &'static str,
    /// What to do where it is broken.
    pub fix: &'static str,
}

/// What is told of a rule: of one of the checker the first way to mend.
#[tactic(auto, unfolding(crate::specs::Advice::check_page, crate::specs::Advice::rule_told))]
pub fn rule_advice(rule: Rule) -> Advice
    ensures why { result.why.now ≡ (rule_told rule).why }
    ensures fix { result.fix.now ≡ (rule_told rule).fix }
{
    match rule {
        Rule::Plan(rule) => of_row(pages::OF_PLANS[rule as usize]),
        Rule::Text(rule) => of_row(pages::OF_TEXTS[rule as usize]),
        Rule::Link(rule) => of_row(pages::OF_LINKS[rule as usize]),
        Rule::Check(rule) => {
            let (_, why, fixes) = pages::OF_CHECKER[rule as usize];
            let (_, fix) = fixes[0];
            Advice { why, fix }
        }
        Rule::Answer(rule) => of_row(pages::OF_ANSWERS[rule as usize]),
        Rule::Event(rule) => of_row(pages::OF_EVENTS[rule as usize]),
        Rule::Warning(warning) => of_row(pages::OF_WARNINGS[warning as usize]),
    }
}

fn of_row(row: Row) -> Advice
    ensures why { result.why.now ≡ row.entry.1.now }
    ensures fix { result.fix.now ≡ row.entry.2.now }
{
    let (_, why, fix) = row;
    Advice { why, fix }
}

/// Why a rule of the checker is there, and each way to mend what breaks it.
#[tactic(auto, unfolding(crate::specs::Advice::check_page))]
pub fn check_page(rule: CheckRule) -> (&'static str, &'static [Fix])
    ensures why { result.0.now ≡ (check_page rule).why }
    ensures fixes { map (λ f. (f.0.now, f.1.now)) result.1.now ≡ (check_page rule).fixes }
{
    let (_, why, fixes) = pages::OF_CHECKER[rule as usize];
    (why, fixes)
}

/// What is told of a rule of the checker in this case.
#[tactic(auto, unfolding(crate::specs::Advice::check_page))]
pub fn check_advice(rule: CheckRule, case: Case) -> Advice
    ensures why { result.why.now ≡ (check_told rule case).why }
    ensures fix { result.fix.now ≡ (check_told rule case).fix }
{
    let (_, why, fixes) = pages::OF_CHECKER[rule as usize];
    let (_, fix) = match rule {
        CheckRule::WrongDirection => direction_fix(case),
        CheckRule::ValueOutOfRange => operation_fix(case),
        CheckRule::ValueTooWide => width_fix(case),
        CheckRule::TooManyTurns => turns_fix(case),
        CheckRule::TooManyWords => words_fix(case),
        CheckRule::TooManyCycles => cycles_fix(case),
        CheckRule::WordTooWide => word_fix(case),
        CheckRule::TooManySteps => steps_fix(case),
        _ => fixes[0],
    };
    Advice { why, fix }
}

// E3: by what the function does.
fn direction_fix(case: Case) -> Fix
    ensures { result.1.now ≡ check_fix CheckRule.WrongDirection case }
{
    match case {
        Case::Direction {
            class: FunctionClass::Read,
            ..
        } => pages::READS,
        Case::Direction {
            class: FunctionClass::Write,
            ..
        } => pages::WRITES,
        _ => pages::MOVES_NONE,
    }
}

// E4: a loop forgets what its body writes; a difference of two unknown numbers has a form of its own.
fn operation_fix(case: Case) -> Fix
    ensures { result.1.now ≡ check_fix CheckRule.ValueOutOfRange case }
{
    if is_right_forgotten(case) {
        pages::ANY_RIGHT
    } else if is_side_forgotten(case) {
        pages::ANY_SIDE
    } else if is_difference(case) {
        pages::DIFFERENCE
    } else {
        pages::RESULT
    }
}

fn is_right_forgotten(case: Case) -> bool
    ensures { result ≡ is_right_forgotten case }
{
    match case {
        Case::Operation {
            operator: Operator::Sub,
            right,
            ..
        } => is_forgotten(right),
        _ => false,
    }
}

fn is_side_forgotten(case: Case) -> bool
    ensures { result ≡ is_side_forgotten case }
{
    match case {
        Case::Operation { left, right, .. } => is_forgotten(left) || is_forgotten(right),
        _ => false,
    }
}

// Whether nothing is known above the lowest number.
fn is_forgotten(numbers: Numbers) -> bool
    ensures { result ≡ is_forgotten numbers }
{
    numbers.low < numbers.high && numbers.high == u32::MAX
}

// A difference of two unknown numbers whose greatest have a sum.
fn is_difference(case: Case) -> bool
    ensures { result ≡ is_difference case }
{
    match case {
        Case::Operation {
            operator: Operator::Sub,
            left,
            right,
        } => {
            left.low < left.high && right.low < right.high && left.high <= u32::MAX - right.high
        }
        _ => false,
    }
}

// E5: of a value of which nothing is known, too.
fn width_fix(case: Case) -> Fix
    ensures { result.1.now ≡ check_fix CheckRule.ValueTooWide case }
{
    if is_any(case) {
        pages::ANY_VALUE
    } else {
        pages::VALUE
    }
}

// E16: of a word of which nothing is known, too.
fn word_fix(case: Case) -> Fix
    ensures { result.1.now ≡ check_fix CheckRule.WordTooWide case }
{
    if is_any(case) {
        pages::ANY_WORD
    } else {
        pages::WORD
    }
}

// Whether a value may be any number.
fn is_any(case: Case) -> bool
    ensures { result ≡ is_any case }
{
    match case {
        Case::Width { greatest, .. } => greatest == u32::MAX,
        Case::Word { greatest } => greatest == u32::MAX,
        _ => false,
    }
}

// E10: a larger number after `turns`, where that is allowed.
fn turns_fix(case: Case) -> Fix
    ensures { result.1.now ≡ check_fix CheckRule.TooManyTurns case }
{
    match case {
        Case::Turns { needed, .. } if needed <= u64::from(limits::TURNS) => { pages::MORE_TURNS }
        Case::Judged { .. } => pages::FEWER_EACH,
        Case::Turns { .. } => pages::TWO_LOOPS,
        _ => pages::MOST_TURNS,
    }
}

// E11: a larger number in the heading, where a plan's buffer can hold it.
fn words_fix(case: Case) -> Fix
    ensures { result.1.now ≡ check_fix CheckRule.TooManyWords case }
{
    if is_within(BUFFER, case) {
        pages::MORE_WORDS
    } else {
        pages::FEWER_WORDS
    }
}

// E12: a larger number in the heading, where one is large enough.
fn cycles_fix(case: Case) -> Fix
    ensures { result.1.now ≡ check_fix CheckRule.TooManyCycles case }
{
    if is_within(u32::MAX, case) {
        pages::MORE_CYCLES
    } else {
        pages::FEWER_CYCLES
    }
}

// E18: a larger number in the heading, where one is large enough.
fn steps_fix(case: Case) -> Fix
    ensures { result.1.now ≡ check_fix CheckRule.TooManySteps case }
{
    if is_within(u32::MAX, case) {
        pages::MORE_STEPS
    } else {
        pages::FEWER_STEPS
    }
}

// Whether a body needs at most so much.
fn is_within(most: u32, case: Case) -> bool
    ensures { result ≡ is_within most case }
{
    match case {
        Case::Budget { needed, .. } => needed <= u64::from(most),
        _ => false,
    }
}
