// The line of a refusal.

ghost use Rattle.std.specs.Prelude.{◌≡◌, ◌≤◌, ◌+◌, ◌||◌, ◌++◌, length, is_err, decimal};
ghost use Rattle.camac_lines.specs.Refusal.{code_of, place_text, refusal_text, refusal_text_at};
ghost use Rattle.camac_word.specs.Writing.{Writes};

use crate::code::{
    Code, LONGEST_MEANING, LONGEST_NAME, answer_code, check_code, event_code, link_code, plan_code,
    text_code,
};
use crate::line::Line;
use camac_answer::AnswerRule;
use camac_event::{EventFlaw, TextWriter};
use camac_names::LinkRule;
use camac_plan::PlanRule;
use camac_rules::CheckRule;
use camac_tokens::TextRule;
use camac_word::WriteFault;

/// Why an input was refused, and where.
#[derive(Clone, Copy, Debug, PartialEq, Eq)]
pub enum Refusal {
    Plan(PlanRule),
    /// A script's text, at a line from 1.
    Text { rule: TextRule, line: u32 },
    /// A script on its plan, at a line from 1.
    Link { rule: LinkRule, line: u32 },
    /// A linked script, at a line from 1.
    Check { rule: CheckRule, line: u32 },
    /// A text of answers, at a line from 1.
    Answer { rule: AnswerRule, line: u64 },
    /// An event file, at an offset in bytes from 0.
    Event(EventFlaw),
}

impl Refusal {
    /// The code of the rule that is broken.
    pub fn code(self) -> Code
        ensures name { result.name.now ≡ (code_of self).0 }
        ensures meaning { result.meaning.now ≡ (code_of self).1 }
        ensures short { (length result.name.now ≤ LONGEST_NAME) × (length result.meaning.now ≤ LONGEST_MEANING) }
    {
        match self {
            Refusal::Plan(rule) => plan_code(rule),
            Refusal::Text { rule, .. } => text_code(rule),
            Refusal::Link { rule, .. } => link_code(rule),
            Refusal::Check { rule, .. } => check_code(rule),
            Refusal::Answer { rule, .. } => answer_code(rule),
            Refusal::Event(flaw) => event_code(flaw.rule),
        }
    }
}

/// Writes the line of a refusal. After a write fault a prefix of it was written.
pub fn write_refusal<W: TextWriter>(out: &mut W, refusal: Refusal) -> Result<(), WriteFault>
    ensures text { Writes (W.contents out.old) (W.contents out.new) result (refusal_text refusal) }
    ensures failed { W.failed out.new ≡ (W.failed out.old || is_err result) }
{
    out.put_text(refusal_line(refusal).as_bytes())
}

/// The line of a refusal.
pub fn refusal_line(refusal: Refusal) -> Line
    ensures { result ≡ refusal_text refusal }
{
    let code = refusal.code();
    let mut line = Line::new();
    line.push_str("refused ");
    line.push_str(code.name);
    push_place(&mut line, refusal);
    line.push_str(": ");
    line.push_str(code.meaning);
    line.push_str("\n");
    line
}

/// The same with a column behind the line.
pub fn refusal_line_at(refusal: Refusal, column: usize) -> Line
    ensures { result ≡ refusal_text_at refusal column }
{
    let code = refusal.code();
    let mut line = Line::new();
    line.push_str("refused ");
    line.push_str(code.name);
    push_place(&mut line, refusal);
    push_number(&mut line, " column ", column);
    line.push_str(": ");
    line.push_str(code.meaning);
    line.push_str("\n");
    line
}

// Puts the line or the byte of a refusal at the end.
fn push_place(text: &mut Line, refusal: Refusal)
    requires { length text.old ≤ 40 }
    ensures text { text.new ≡ text.old ++ place_text refusal }
    ensures short { length text.new ≤ length text.old + 40 }
{
    match refusal {
        Refusal::Plan(_) => {}
        Refusal::Text { line, .. } => push_number(text, " line ", line as usize),
        Refusal::Link { line, .. } => push_number(text, " line ", line as usize),
        Refusal::Check { line, .. } => push_number(text, " line ", line as usize),
        Refusal::Answer { line, .. } => push_number(text, " line ", line as usize),
        Refusal::Event(flaw) => push_number(text, " byte ", flaw.offset),
    }
}

// Puts a word and a number at the end.
fn push_number(text: &mut Line, word: &str, number: usize)
    requires word { length word.now ≤ 8 }
    requires room { length text.old ≤ 80 }
    ensures text { text.new ≡ text.old ++ word.now ++ decimal number }
    ensures short { length text.new ≤ length text.old + 40 }
{
    text.push_str(word);
    text.push_number(number);
}
