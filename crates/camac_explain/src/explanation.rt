// The lines of an explanation.

ghost use Rattle.std.specs.Prelude.{◌≡◌, ◌++◌, [], Some, IfOk, OnOk, option_map, string_bytes};
ghost use Rattle.camac_explain_rule.specs.Advice.{line_of, why_and_fix};
ghost use Rattle.camac_explain.specs.Explanation.{IsPlanExplanation, advice_text, closing, explanation_of, sentence_line, text_explanation, told_of};
ghost use Rattle.camac_explain.specs.Source.{source_of};

use crate::finding::Finding;
use crate::source::{push_shown, push_source};
use camac_explain_plan::{plan_hint, plan_sentence};
use camac_explain_rule::{Advice, MORE, Rule, check_advice, push_line, rule_advice};
use camac_lines::Refusal;
use camac_plan::{PlanCase, PlanRule};
use std::alloc::{AllocError, Global};

/// Why a plan's text is refused by a rule in this case: the lines that follow the refusal.
pub fn explain_plan(
    alloc: Global,
    text: &[u8],
    rule: PlanRule,
    case: PlanCase,
) -> Result<Vec<u8>, AllocError>
    ensures { IfOk result (λ v. IsPlanExplanation text.now rule case v.items) }
{
    let mut lines = Vec::new(alloc);
    let sentence = plan_sentence(alloc, text, case)?;
    let code = Refusal::Plan(rule).code();
    push_sentence(&mut lines, sentence)?;
    push_closing(
        &mut lines,
        plan_hint(text, case),
        rule_advice(Rule::Plan(rule)),
        code.name,
    )?;
    Ok(lines)
}

/// Why a script's text is refused: the lines that follow the refusal, with a mark where it is broken, and with this sentence of what the rule
/// knew.
pub fn explain_script(
    alloc: Global,
    text: &[u8],
    finding: Finding,
    sentence: Option<String>,
) -> Result<Vec<u8>, AllocError>
    ensures { IfOk result (λ v. v.items ≡ explanation_of text.now finding (option_map string_bytes sentence)) }
{
    explain_fault(alloc, text, finding, sentence, None)
}

/// The same of a text's fault, which may have a hint of its own: that is the fix, in place of what is told of the rule.
pub fn explain_fault(
    alloc: Global,
    text: &[u8],
    finding: Finding,
    sentence: Option<String>,
    hint: Option<String>,
) -> Result<Vec<u8>, AllocError>
    ensures { IfOk result (λ v. v.items ≡ text_explanation text.now finding (option_map string_bytes sentence) (option_map string_bytes hint)) }
{
    let mut lines = Vec::new(alloc);
    push_source(&mut lines, text, finding)?;
    let code = finding.refusal().code();
    push_sentence(&mut lines, sentence)?;
    push_closing(&mut lines, shown(&hint), advice_of(finding), code.name)?;
    Ok(lines)
}

fn shown(text: &Option<String>) -> Option<&str>
    ensures { option_map (λ t. t.now) result ≡ option_map string_bytes text.now }
{
    match text {
        Some(text) => Some(text.as_str()),
        None => None,
    }
}

fn advice_of(finding: Finding) -> Advice
    ensures why { result.why.now ≡ (told_of finding).why }
    ensures fix { result.fix.now ≡ (told_of finding).fix }
{
    match finding {
        Finding::Plan(rule) => rule_advice(Rule::Plan(rule)),
        Finding::Text { rule, .. } => rule_advice(Rule::Text(rule)),
        Finding::Link { rule, .. } => rule_advice(Rule::Link(rule)),
        Finding::Check { rule, case, .. } => check_advice(rule, case),
    }
}

// Puts a sentence at the end, if there is one, on a line of its own.
fn push_sentence(lines: &mut Vec<u8>, sentence: Option<String>) -> Result<(), AllocError>
    ensures { OnOk result (lines.new.items ≡ lines.old.items ++ sentence_line (option_map string_bytes sentence)) }
{
    match sentence {
        Some(sentence) => push_told(lines, sentence.as_bytes()),
        None => Ok(()),
    }
}

fn push_told(lines: &mut Vec<u8>, sentence: &[u8]) -> Result<(), AllocError>
    ensures { OnOk result (lines.new.items ≡ lines.old.items ++ sentence_line (Some sentence.now)) }
{
    push_shown(lines, sentence)?;
    lines.push(b'\n')?;
    Ok(())
}

// Puts the hint at the end, if there is one, or what is told of the rule of this code.
fn push_closing(
    lines: &mut Vec<u8>,
    hint: Option<&str>,
    advice: Advice,
    code: &str,
) -> Result<(), AllocError>
    ensures { OnOk result (lines.new.items ≡ lines.old.items ++ closing (option_map (λ h. h.now) hint.entry) (why_and_fix advice.why.now advice.fix.now) code.now) }
{
    match hint {
        Some(hint) => push_hint(lines, hint.as_bytes(), code),
        None => push_advice(lines, advice, code),
    }
}

fn push_hint(lines: &mut Vec<u8>, hint: &[u8], code: &str) -> Result<(), AllocError>
    ensures { OnOk result (lines.new.items ≡ lines.old.items ++ closing (Some hint.now) (why_and_fix [] []) code.now) }
{
    lines.extend_from_slice(b"Fix: ")?;
    push_told(lines, hint)?;
    push_line(lines, MORE, code)
}

fn push_advice(lines: &mut Vec<u8>, advice: Advice, code: &str) -> Result<(), AllocError>
    ensures { OnOk result (lines.new.items ≡ lines.old.items ++ advice_text (why_and_fix advice.why.now advice.fix.now) code.now) }
{
    push_line(lines, "Why: ", advice.why)?;
    push_line(lines, "Fix: ", advice.fix)?;
    push_line(lines, MORE, code)
}
