// What might stand at a place, in words.

ghost use Rattle.std.specs.Prelude.{◌≡◌, ◌++◌, IfOk, OnOk, Some, filter, length, map, string_bytes};
ghost use Rattle.camac_explain_text_place.specs.Expected.{each_if, expected_of, expected_text, group_text, is_condition, is_group, is_name, is_of_condition, is_operator, is_sign_alone, is_value, is_word_alone, items_from, list_text};
ghost use Rattle.camac_explain_text_place.specs.declared.expected.Expected.TheVariants as expected;

use camac_explain_text_words::{sign_text, word_text};
use camac_lines::before_item;
use camac_text::{Choice, Choices, begins_statement};
use camac_tokens::{KEYWORDS, Keyword, SIGNS, Sign};
use std::alloc::{AllocError, Global};
use std::fmt;

/// Tokens that an explanation names together.
#[derive(Clone, Copy)]
pub enum Group {
    Declaration,
    Statement,
    Condition,
    Expression,
    Number,
    Name,
    Operator,
    Comparison,
}

const DECLARATION: &str = "a declaration";

const STATEMENT: &str = "a statement";

const CONDITION: &str = "a condition";

const EXPRESSION: &str = "an expression";

const NUMBER: &str = "a number";

const NAME: &str = "a name";

const OPERATOR: &str = "an operator";

const COMPARISON: &str = "a comparison";

const GROUPS: [Group; 8] = [
    Group::Declaration,
    Group::Statement,
    Group::Condition,
    Group::Expression,
    Group::Number,
    Group::Name,
    Group::Operator,
    Group::Comparison,
];

/// What might stand at a place of a script.
#[derive(Clone, Copy)]
pub enum Expected {
    Group(Group),
    Sign(Sign),
    Word(Keyword),
    /// `each`, which is a name elsewhere.
    Each,
}

impl fmt::Display for Expected {
    ghost output = { λ e. Some (expected_text e) };

    fn fmt<W: fmt::Write>(&self, f: &mut fmt::Formatter<W>) -> fmt::Result {
        match self {
            Expected::Group(group) => write!(f, "{}", group_text(*group)),
            Expected::Sign(sign) => write!(f, "`{}`", sign_text(*sign)),
            Expected::Word(word) => write!(f, "`{}`", word_text(*word)),
            Expected::Each => write!(f, "`each`"),
        }
    }
}

fn group_text(group: Group) -> &'static str
    ensures { result.now ≡ group_text group }
{
    match group {
        Group::Declaration => DECLARATION,
        Group::Statement => STATEMENT,
        Group::Condition => CONDITION,
        Group::Expression => EXPRESSION,
        Group::Number => NUMBER,
        Group::Name => NAME,
        Group::Operator => OPERATOR,
        Group::Comparison => COMPARISON,
    }
}

/// What might stand where these choices are: the groups, and each sign and word that is in none of them.
#[tactic(auto, unfolding(crate::specs::Expected::expected_of))]
fn expected_of(alloc: Global, noted: Choices) -> Result<Vec<Expected>, AllocError>
    ensures { IfOk result (λ v. v.items ≡ expected_of noted) }
{
    let mut found = Vec::new(alloc);
    push_groups(&mut found, &GROUPS, noted)?;
    push_signs(&mut found, &SIGNS, noted)?;
    push_words(&mut found, &KEYWORDS, noted)?;
    push_each(&mut found, noted)?;
    Ok(found)
}

fn push_groups(
    found: &mut Vec<Expected>,
    groups: &[Group],
    noted: Choices,
) -> Result<(), AllocError>
    ensures { OnOk result (found.new.items ≡ found.old.items ++ map expected.Group (filter (is_group noted) groups.now)) }
{
    'groups: for group in groups {
        if is_group(noted, *group) {
            found.push(Expected::Group(*group))?;
        }
    }
    Ok(())
}

fn push_signs(found: &mut Vec<Expected>, signs: &[Sign], noted: Choices) -> Result<(), AllocError>
    ensures { OnOk result (found.new.items ≡ found.old.items ++ map expected.Sign (filter (is_sign_alone noted) signs.now)) }
{
    'signs: for sign in signs {
        if is_sign_alone(noted, *sign) {
            found.push(Expected::Sign(*sign))?;
        }
    }
    Ok(())
}

fn push_words(
    found: &mut Vec<Expected>,
    words: &[Keyword],
    noted: Choices,
) -> Result<(), AllocError>
    ensures { OnOk result (found.new.items ≡ found.old.items ++ map expected.Word (filter (is_word_alone noted) words.now)) }
{
    'words: for word in words {
        if is_word_alone(noted, *word) {
            found.push(Expected::Word(*word))?;
        }
    }
    Ok(())
}

fn push_each(found: &mut Vec<Expected>, noted: Choices) -> Result<(), AllocError>
    ensures { OnOk result (found.new.items ≡ found.old.items ++ each_if noted) }
{
    if noted.has(Choice::Each) {
        found.push(Expected::Each)?;
    }
    Ok(())
}

fn is_group(noted: Choices, group: Group) -> bool
    ensures { result ≡ is_group noted group }
{
    match group {
        Group::Declaration => noted.has(Choice::Declaration),
        Group::Statement => noted.has(Choice::Statement),
        Group::Condition => is_condition(noted),
        Group::Expression => is_value(noted) && !is_condition(noted),
        Group::Number => noted.has(Choice::Number) && !is_value(noted),
        Group::Name => is_name(noted),
        Group::Operator => noted.has(Choice::Sum),
        Group::Comparison => noted.has(Choice::Comparison),
    }
}

// A second `not` may not stand after one.
fn is_condition(noted: Choices) -> bool
    ensures { result ≡ is_condition noted }
{
    noted.has(Choice::Flag) && noted.has(Choice::Word(Keyword::Not))
}

fn is_value(noted: Choices) -> bool
    ensures { result ≡ is_value noted }
{
    noted.has(Choice::Number) && noted.has(Choice::Mark(Sign::LeftBracket))
}

/// Whether a name might stand at a place, and neither a number nor the beginning of a statement.
pub fn is_name(noted: Choices) -> bool
    ensures { result ≡ is_name noted }
{
    noted.has(Choice::Name) && !noted.has(Choice::Number) && !noted.has(Choice::Statement)
}

/// Whether a sign is one of arithmetic.
pub fn is_operator(sign: Sign) -> bool
    ensures { result ≡ is_operator sign }
{
    Choice::Sum.has_sign(sign) || Choice::Product.has_sign(sign)
}

// Whether a sign might stand there, and is in none of the groups.
fn is_sign_alone(noted: Choices, sign: Sign) -> bool
    ensures { result ≡ is_sign_alone noted sign }
{
    noted.has(Choice::Mark(sign))
        && !(is_operator(sign)
            || Choice::Comparison.has_sign(sign)
            || (sign == Sign::LeftBracket && is_value(noted)))
}

fn is_word_alone(noted: Choices, word: Keyword) -> bool
    ensures { result ≡ is_word_alone noted word }
{
    noted.has(Choice::Word(word))
        && !((Choice::Declaration.has_word(word) && noted.has(Choice::Declaration))
            || begins_statement(word)
            || (is_of_condition(word) && is_condition(noted)))
}

fn is_of_condition(word: Keyword) -> bool
    ensures { result ≡ is_of_condition word }
{
    word == Keyword::Not || word == Keyword::Q || word == Keyword::X
}

/// All that might stand where these choices are, as a list.
pub fn expected_list(alloc: Global, noted: Choices) -> Result<String, AllocError>
    ensures { IfOk result (λ s. string_bytes s ≡ list_text (expected_of noted)) }
{
    let expected = expected_of(alloc, noted)?;
    list_text(alloc, &expected)
}

fn list_text(alloc: Global, expected: &[Expected]) -> Result<String, AllocError>
    ensures { IfOk result (λ s. string_bytes s ≡ items_from 0 (length expected.now) expected.now) }
{
    let mut text = String::new(alloc);
    'items: for place in 0..expected.len() {
        let before = before_item(place, expected.len(), " or ");
        push_item(alloc, &mut text, before, expected[place])?;
    }
    Ok(text)
}

fn push_item(
    alloc: Global,
    text: &mut String,
    before: &str,
    item: Expected,
) -> Result<(), AllocError>
    ensures { OnOk result (string_bytes text.new ≡ string_bytes text.old ++ (before.now ++ expected_text item)) }
{
    let item = format!(in alloc; "{before}{item}")?;
    text.push_str(item.as_str())
}
