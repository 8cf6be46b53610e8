// The sentences on the rules of linking and of the checker.

ghost use Rattle.std.specs.Prelude.{◌≡◌, IfOk, map, option_map, string_bytes};
ghost use Rattle.camac_names.specs.declared.fault.LinkCase.TheVariants.{Place};
ghost use Rattle.camac_explain.specs.Sentence.{budget_text, check_sentence_of, costs_text, does, is_service_steps, kept_text, limit_text, link_sentence_of, says, sentence_of, sign_of, who};
ghost use Rattle.camac_sentence.specs.Filled.{part_text, range};

use crate::finding::Finding;
use crate::{names, texts};
use camac_func::FunctionClass;
use camac_lang::Script;
use camac_names::{LinkCase, LinkRule};
use camac_rules::{Body, Case, CheckRule, Numbers, Operator};
use camac_sentence::Part::{self, Cost, Count, Large, Number, Quoted, Word};
use camac_sentence::fill;
use std::alloc::{AllocError, Global};

// The numbers from the first to the last.
fn range(numbers: Numbers) -> Part<'static>
    ensures { part_text result ≡ range numbers.low numbers.high }
{
    Part::Range(numbers.low, numbers.high)
}

fn say(alloc: Global, text: &str, parts: &[Part<'_>]) -> Result<Option<String>, AllocError>
    ensures { IfOk result (λ s. option_map string_bytes s ≡ says text.now (map part_text parts.now)) }
{
    fill(alloc, text, parts).map(Some)
}

/// What a rule knew of a script, in words. None of a rule of the text itself, and of a plan's.
pub fn script_sentence(
    alloc: Global,
    script: &Script,
    finding: Finding,
) -> Result<Option<String>, AllocError>
    ensures { IfOk result (λ s. option_map string_bytes s ≡ sentence_of script.now finding) }
{
    match finding {
        Finding::Plan(_) | Finding::Text { .. } => Ok(None),
        Finding::Link { rule, case, .. } => link_sentence(alloc, script, rule, case),
        Finding::Check { rule, case, .. } => check_sentence(alloc, script, rule, case),
    }
}

// What a rule of linking knew.
fn link_sentence(
    alloc: Global,
    script: &Script,
    rule: LinkRule,
    case: LinkCase,
) -> Result<Option<String>, AllocError>
    ensures { IfOk result (λ s. option_map string_bytes s ≡ link_sentence_of script.now rule case) }
{
    match case {
        LinkCase::Malformed => Ok(None),
        LinkCase::Place { crate_no, station } => {
            place_sentence(alloc, script, rule, crate_no, station)
        }
        LinkCase::Served {
            crate_no,
            station,
            spot,
        } => say(
            alloc,
            texts::SERVED,
            &[Number(crate_no), Number(station), Number(spot.line)],
        ),
        LinkCase::Words { allowed, buffer } => say(
            alloc,
            texts::ABOVE_BUFFER,
            &[Number(allowed), Number(u32::from(buffer))],
        ),
    }
}

// Of the LAM at a station.
fn place_sentence(
    alloc: Global,
    script: &Script,
    rule: LinkRule,
    crate_no: u32,
    station: u32,
) -> Result<Option<String>, AllocError>
    ensures { IfOk result (λ s. option_map string_bytes s ≡ link_sentence_of script.now rule (Place crate_no station)) }
{
    let (text, lam) = match rule {
        LinkRule::LamNotInstalled => {
            (
                texts::LAM_WITHOUT_MODULE,
                names::lam_at(script, crate_no, station),
            )
        }
        _ => (
            texts::LAM_WITHOUT_BIT,
            names::served_at(script, crate_no, station),
        ),
    };
    say(
        alloc,
        text,
        &[Quoted(lam), Number(crate_no), Number(station)],
    )
}

// What a rule of the checker knew.
fn check_sentence(
    alloc: Global,
    script: &Script,
    rule: CheckRule,
    case: Case,
) -> Result<Option<String>, AllocError>
    ensures { IfOk result (λ s. option_map string_bytes s ≡ check_sentence_of script.now rule case) }
{
    match case {
        Case::Malformed => Ok(None),
        Case::NoCrate { crate_no } => say(alloc, texts::NO_CRATE, &[Number(crate_no)]),
        Case::NoModule { crate_no, station } => {
            say(
                alloc,
                texts::NO_MODULE,
                &[Number(crate_no), Number(station)],
            )
        }
        Case::NoCommand {
            function: f,
            crate_no,
            station,
            sub_address: a,
        } => say(
            alloc,
            texts::NO_COMMAND,
            &[Number(f), Number(crate_no), Number(station), Number(a)],
        ),
        Case::Direction {
            function: f,
            class,
            moves,
        } => say(
            alloc,
            texts::DIRECTION,
            &[Number(f), Word(does(class)), Word(does(moves))],
        ),
        Case::Operation {
            operator,
            left,
            right,
        } => say(
            alloc,
            texts::SIDES,
            &[Word(sign_of(operator)), range(left), range(right)],
        ),
        Case::Width { greatest, bits } => say(
            alloc,
            texts::TOO_WIDE,
            &[Number(greatest), Number(bits)],
        ),
        Case::Unset { body, register } => {
            say(
                alloc,
                texts::UNSET,
                &[Quoted(names::register(script, body, register))],
            )
        }
        Case::Measure { body, variable } => {
            let variable = Quoted(names::variable(script, body, variable));
            say(alloc, texts::NOT_LOWERED, &[variable, variable])
        }
        Case::Kept {
            body,
            variable,
            found,
            kept: Numbers { low, high },
        } => {
            let variable = Quoted(names::variable(script, body, variable));
            say(
                alloc,
                kept_text(rule),
                &[variable, range(found), Number(low), Number(high)],
            )
        }
        Case::Turns { needed, allowed } => say(
            alloc,
            texts::TURNS,
            &[Large(needed), Number(allowed)],
        ),
        Case::Annotation { turns, allowed } => {
            say(alloc, texts::ANNOTATION, &[Number(turns), Number(allowed)])
        }
        Case::Judged {
            body,
            needed,
            allowed,
        } => say(
            alloc,
            texts::JUDGED,
            &[Word(who(body)), Cost(needed), Number(allowed)],
        ),
        Case::Budget {
            body,
            needed,
            allowed,
        } => budget_sentence(alloc, rule, body, needed, allowed).map(Some),
        Case::Crates { first, last } => say(alloc, texts::REGISTERS, &[range(first), range(last)]),
        Case::Count { count, words } => say(alloc, texts::TABLE, &[Number(count), Count(words)]),
        Case::Crate { numbers } => say(alloc, texts::NOT_ONE_CRATE, &[range(numbers)]),
        Case::Locked { crate_no } => say(alloc, texts::LOCKED, &[Number(crate_no)]),
        Case::Word { greatest } => say(alloc, texts::WIDE_WORD, &[Number(greatest)]),
        Case::Counted { body, variable } => {
            say(
                alloc,
                texts::COUNTED,
                &[Quoted(names::variable(script, body, variable))],
            )
        }
        Case::Argument {
            procedure,
            argument,
            found,
            wanted: Numbers { low, high },
        } => {
            let place = Count(argument.saturating_add(1));
            let parameter = Quoted(names::parameter(script, procedure, argument));
            say(
                alloc,
                texts::ARGUMENT,
                &[place, range(found), parameter, Number(low), Number(high)],
            )
        }
    }
}

// What a function or a statement of this class does.
fn does(class: FunctionClass) -> &'static str
    ensures { result.now ≡ does class }
{
    match class {
        FunctionClass::Read => texts::READS,
        FunctionClass::Write => texts::WRITES,
        FunctionClass::Control => texts::MOVES_NO_DATA,
    }
}

fn sign_of(operator: Operator) -> &'static str
    ensures { result.now ≡ sign_of operator }
{
    match operator {
        Operator::Add => "+",
        Operator::Sub => "-",
        Operator::Mul => "*",
    }
}

fn budget_sentence(
    alloc: Global,
    rule: CheckRule,
    body: Body,
    needed: u64,
    allowed: u32,
) -> Result<String, AllocError>
    ensures { IfOk result (λ s. string_bytes s ≡ budget_text rule body needed allowed) }
{
    if is_service_steps(rule, body) {
        return fill(
            alloc,
            texts::SERVICE_STEPS,
            &[Cost(needed), Number(allowed)],
        );
    }
    let mut sentence = fill(alloc, costs_text(rule), &[Word(who(body)), Cost(needed)])?;
    sentence.push_str(limit_sentence(alloc, allowed)?.as_str())?;
    Ok(sentence)
}

// What its heading allows, or any heading.
fn limit_sentence(alloc: Global, allowed: u32) -> Result<String, AllocError>
    ensures { IfOk result (λ s. string_bytes s ≡ limit_text allowed) }
{
    match allowed {
        u32::MAX => fill(alloc, texts::ANY_HEADING, &[Number(allowed)]),
        _ => fill(alloc, texts::ITS_HEADING, &[Number(allowed)]),
    }
}

fn is_service_steps(rule: CheckRule, body: Body) -> bool
    ensures { result ≡ is_service_steps rule body }
{
    match (rule, body) {
        (CheckRule::TooManySteps, Body::Service(_)) => true,
        _ => false,
    }
}

fn who(body: Body) -> &'static str
    ensures { result.now ≡ who body }
{
    match body {
        Body::Procedure(_) => "procedure",
        Body::Service(_) => "service",
    }
}

fn costs_text(rule: CheckRule) -> &'static str
    ensures { result.now ≡ costs_text rule }
{
    match rule {
        CheckRule::TooManyWords => texts::WORDS,
        CheckRule::TooManyCycles => texts::CYCLES,
        _ => texts::STEPS,
    }
}

// When a kept variable leaves its range.
fn kept_text(rule: CheckRule) -> &'static str
    ensures { result.now ≡ kept_text rule }
{
    match rule {
        CheckRule::KeepFailsAtEntry => texts::BEFORE_LOOP,
        _ => texts::AFTER_TURN,
    }
}
