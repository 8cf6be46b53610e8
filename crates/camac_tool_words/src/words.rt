// What the words after the program's name ask for.

ghost use Rattle.std.specs.Prelude.{◌≡◌, ◌≤◌, ◌↔◌, ℕ, List, IfNone, IfSome, IsTrue, false, option_map, map, string_bytes, codes, None, Some, IfOk, IfErr};
ghost use Rattle.std.specs.Str.{bytes_eq};
ghost use Rattle.clap.specs.Words.{first_of, found_of, rows_of, subcommand_of, subcommand_rows_of};
ghost use Rattle.camac_tool_words.specs.declared.words.JobFault.TheVariants.{Usage};
ghost use Rattle.camac_tool_words.specs.Words.{camac_app, AreNumbers, IsCount, IsNumber, IsPlace, are_digits, has_code_form, is_digit, is_on, IsJob, IsFaultOf, IsOfMemory, NamesJob, input_count_of, values_of};

use crate::command::camac_command;
use clap::error::ErrorKind;
use clap::{ArgMatches, Error};
use std::alloc::{AllocError, Global};

/// What the program is asked to do, with its words.
#[derive(Drop)]
pub enum Job<'a> {
    Plan(&'a str),
    /// A plan with its commands.
    Commands(&'a str),
    Check(&'a str, &'a str),
    Explain(&'a str, &'a str),
    /// Why the least headings of a script on a plan are refused.
    ExplainBounds(&'a str, &'a str),
    /// A line and a column, from 1, the numbers after `--turn`, a plan and a script.
    ExplainAt(u32, u32, Vec<u32>, &'a str, &'a str),
    ExplainPlan(&'a str),
    /// A word that has the form of a code.
    ExplainRule(&'a str),
    Bounds(&'a str, &'a str),
    Costs(&'a str, &'a str),
    Tell(&'a str, &'a str),
    /// A plan, a script, and the words after `--every` and `--within`.
    Response(&'a str, &'a str, Vec<&'a str>, Vec<&'a str>),
    Run(&'a str, &'a str, &'a str, &'a str),
    Drive(&'a str, &'a str, &'a str),
    Events(&'a str),
}

/// Why the words name no job.
#[derive(Drop)]
pub enum JobFault {
    /// `clap` refused them, or asks for its help to be shown.
    Usage(Error),
    /// Standard input is named for two inputs.
    InTwice,
}

impl From<Error> for JobFault {
    ghost from_gives = { λ error fault. fault ≡ Usage error };

    fn from(error: Error) -> JobFault {
        JobFault::Usage(error)
    }
}

impl From<AllocError> for JobFault {
    ghost from_gives = { λ _ fault. IsOfMemory fault };

    fn from(error: AllocError) -> JobFault {
        JobFault::Usage(Error::from(error))
    }
}

/// The job that the words after the program's name ask for.
pub fn read_words<'a>(alloc: Global, words: &'a [String]) -> Result<Job<'a>, JobFault>
    // The subcommand and, in order, the values that the matches of the words hold.
    ensures job { IfOk result (λ job. IsJob job (subcommand_of camac_app (map string_bytes words.now))) }
    ensures inputs { IfOk result (λ job. input_count_of job ≤ 1) }
    ensures fault { IfErr result (IsFaultOf (map string_bytes words.now)) }
{
    let mut command = camac_command(alloc)?;
    let matches = command.try_get_matches_from_mut(words)?;
    let Some(job) = job_of(alloc, &matches)? else {
        // Of `explain` alone: the other words are required.
        let error = command.error(
            ErrorKind::ValueValidation,
            "'--at <LINE:COLUMN>' needs two numbers from 1, a plan and a script; '--turn <N>' needs a number and '--at'; '--bounds' needs a plan and a script",
        )?;
        return Err(JobFault::Usage(error));
    };
    if input_count(&job) > 1 {
        return Err(JobFault::InTwice);
    }
    Ok(job)
}

// The value of a word.
fn value_of<'a>(found: &ArgMatches<'a>, id: &str) -> Option<&'a str>
    ensures { option_map (λ s. s.now) result ≡ first_of id.now (rows_of (found_of found.now)) }
{
    found.get_str(id)
}

// The values of an option, of all its uses.
fn values_of<'a>(
    alloc: Global,
    found: &ArgMatches<'a>,
    id: &str,
) -> Result<Vec<&'a str>, AllocError>
    ensures { IfOk result (λ v. map (λ s. s.now) v.items ≡ values_of id.now (rows_of (found_of found.now))) }
{
    match found.get_strs(id) {
        Some(values) => copied(alloc, values),
        None => Ok(Vec::new(alloc)),
    }
}

fn copied<'a>(alloc: Global, values: &[&'a str]) -> Result<Vec<&'a str>, AllocError>
    ensures { IfOk result (λ v. v.items ≡ values.now) }
{
    let mut all = Vec::new(alloc);
    all.extend_from_slice(values)?;
    Ok(all)
}

// Whether an option is among the words.
fn is_on(found: &ArgMatches<'_>, id: &str) -> bool
    ensures { result ≡ is_on id.now (rows_of (found_of found.now)) }
{
    match value_of(found, id) {
        Some(text) => text == "true",
        None => false,
    }
}

fn plan_job<'a>(found: &ArgMatches<'a>) -> Option<Job<'a>>
    ensures { NamesJob (Some (codes "plan", rows_of (found_of found.now))) result }
{
    let plan = value_of(found, "PLAN")?;
    Some(if is_on(found, "commands") {
        Job::Commands(plan)
    } else {
        Job::Plan(plan)
    })
}

fn check_job<'a>(found: &ArgMatches<'a>) -> Option<Job<'a>>
    ensures { NamesJob (Some (codes "check", rows_of (found_of found.now))) result }
{
    Some(Job::Check(value_of(found, "PLAN")?, value_of(found, "SCRIPT")?))
}

fn explain_job<'a>(alloc: Global, found: &ArgMatches<'a>) -> Result<Option<Job<'a>>, AllocError>
    ensures { IfOk result (NamesJob (Some (codes "explain", rows_of (found_of found.now)))) }
{
    let Some(place) = value_of(found, "at") else {
        return Ok(whole_job(found));
    };
    if is_on(found, "bounds") {
        return Ok(None);
    }
    let turns = values_of(alloc, found, "turn")?;
    match numbers_in(alloc, &turns)? {
        Some(turns) => Ok(place_job(found, place, turns)),
        None => Ok(None),
    }
}

// That of `explain` at a place.
fn place_job<'a>(found: &ArgMatches<'a>, place: &str, turns: Vec<u32>) -> Option<Job<'a>>
    requires bounds { is_on (codes "bounds") (rows_of (found_of found.now)) ≡ false }
    requires place { first_of (codes "at") (rows_of (found_of found.now)) ≡ Some place.now }
    requires turns { AreNumbers (values_of (codes "turn") (rows_of (found_of found.now))) turns.items }
    ensures { NamesJob (Some (codes "explain", rows_of (found_of found.now))) result }
{
    let (line, column) = place_in(place)?;
    let plan = value_of(found, "PLAN")?;
    Some(Job::ExplainAt(line, column, turns, plan, value_of(found, "SCRIPT")?))
}

// That of `explain` without a place.
fn whole_job<'a>(found: &ArgMatches<'a>) -> Option<Job<'a>>
    requires { first_of (codes "at") (rows_of (found_of found.now)) ≡ None }
    ensures { NamesJob (Some (codes "explain", rows_of (found_of found.now))) result }
{
    if let Some(_) = value_of(found, "turn") {
        return None;
    }
    let plan = value_of(found, "PLAN")?;
    if is_on(found, "bounds") {
        return Some(Job::ExplainBounds(plan, value_of(found, "SCRIPT")?));
    }
    Some(match value_of(found, "SCRIPT") {
        Some(script) => Job::Explain(plan, script),
        None if has_code_form(plan) => Job::ExplainRule(plan),
        None => Job::ExplainPlan(plan),
    })
}

// The line and the column on the two sides of the first `:`.
fn place_in(word: &str) -> Option<(u32, u32)>
    ensures some { IfSome result (λ p. IsPlace word.now p.0 p.1) }
    ensures none { IfNone result ((line column : ℕ) → IsPlace word.now line column → ⊥) }
{
    let (line, column) = word.split_once(':')?;
    counts_in(line, column)
}

fn counts_in(line: &str, column: &str) -> Option<(u32, u32)>
    ensures some { IfSome result (λ p. IsCount line.now p.0 × IsCount column.now p.1) }
    ensures none { IfNone result ((l c : ℕ) → IsCount line.now l → IsCount column.now c → ⊥) }
{
    let line = count_in(line)?;
    let column = count_in(column)?;
    Some((line, column))
}

// The number, from 1, of decimal digits without a sign.
fn count_in(digits: &str) -> Option<u32>
    ensures some { IfSome result (λ n. IsCount digits.now n) }
    ensures none { IfNone result ((n : ℕ) → IsCount digits.now n → ⊥) }
{
    let count = number_in(digits)?;
    if count == 0 {
        return None;
    }
    Some(count)
}

// The number of decimal digits without a sign.
fn number_in(digits: &str) -> Option<u32>
    ensures some { IfSome result (λ n. IsNumber digits.now n) }
    ensures none { IfNone result ((n : ℕ) → IsNumber digits.now n → ⊥) }
{
    if digits.starts_with('+') {
        return None;
    }
    digits.parse::<u32>().ok()
}

// The numbers that words write, if each of them writes one.
fn numbers_in(alloc: Global, words: &[&str]) -> Result<Option<Vec<u32>>, AllocError>
    ensures some { IfOk result (λ o. IfSome o (λ v. AreNumbers (map (λ w. w.now) words.now) v.items)) }
    ensures none { IfOk result (λ o. IfNone o ((ns : List ℕ) → AreNumbers (map (λ w. w.now) words.now) ns → ⊥)) }
{
    let mut numbers = Vec::new(alloc);
    'words: for word in words {
        let Some(number) = number_in(word) else {
            return Ok(None);
        };
        numbers.push(number)?;
    }
    Ok(Some(numbers))
}

// Whether a word is a letter and digits after it.
fn has_code_form(word: &str) -> bool
    ensures { result ≡ has_code_form word.now }
{
    match word.as_bytes() {
        [letter, digit, rest @ ..] => {
            letter.is_ascii_alphabetic() && is_digit(*digit) && are_digits(rest)
        }
        _ => false,
    }
}

fn are_digits(bytes: &[u8]) -> bool
    ensures { result ≡ are_digits bytes.now }
{
    match bytes {
        [] => true,
        [first, rest @ ..] => is_digit(*first) && are_digits(rest),
    }
}

fn is_digit(byte: u8) -> bool
    ensures { result ≡ is_digit byte }
{
    b'0' <= byte && byte <= b'9'
}

fn bounds_job<'a>(found: &ArgMatches<'a>) -> Option<Job<'a>>
    ensures { NamesJob (Some (codes "bounds", rows_of (found_of found.now))) result }
{
    Some(Job::Bounds(value_of(found, "PLAN")?, value_of(found, "SCRIPT")?))
}

fn costs_job<'a>(found: &ArgMatches<'a>) -> Option<Job<'a>>
    ensures { NamesJob (Some (codes "costs", rows_of (found_of found.now))) result }
{
    Some(Job::Costs(value_of(found, "PLAN")?, value_of(found, "SCRIPT")?))
}

fn tell_job<'a>(found: &ArgMatches<'a>) -> Option<Job<'a>>
    ensures { NamesJob (Some (codes "tell", rows_of (found_of found.now))) result }
{
    Some(Job::Tell(value_of(found, "PLAN")?, value_of(found, "SCRIPT")?))
}

fn response_job<'a>(alloc: Global, found: &ArgMatches<'a>) -> Result<Option<Job<'a>>, AllocError>
    ensures { IfOk result (NamesJob (Some (codes "response", rows_of (found_of found.now)))) }
{
    let Some(plan) = value_of(found, "PLAN") else {
        return Ok(None);
    };
    let Some(script) = value_of(found, "SCRIPT") else {
        return Ok(None);
    };
    let every = values_of(alloc, found, "every")?;
    Ok(Some(Job::Response(plan, script, every, values_of(alloc, found, "within")?)))
}

fn run_job<'a>(found: &ArgMatches<'a>) -> Option<Job<'a>>
    ensures { NamesJob (Some (codes "run", rows_of (found_of found.now))) result }
{
    let plan = value_of(found, "PLAN")?;
    let script = value_of(found, "SCRIPT")?;
    let answers = value_of(found, "ANSWERS")?;
    Some(Job::Run(plan, script, answers, value_of(found, "EVENTS")?))
}

fn drive_job<'a>(found: &ArgMatches<'a>) -> Option<Job<'a>>
    ensures { NamesJob (Some (codes "drive", rows_of (found_of found.now))) result }
{
    let plan = value_of(found, "PLAN")?;
    let script = value_of(found, "SCRIPT")?;
    Some(Job::Drive(plan, script, value_of(found, "EVENTS")?))
}

fn events_job<'a>(found: &ArgMatches<'a>) -> Option<Job<'a>>
    ensures { NamesJob (Some (codes "events", rows_of (found_of found.now))) result }
{
    Some(Job::Events(value_of(found, "FILE")?))
}

fn is_word(word: &str, text: &str) -> bool
    ensures { IsTrue result ↔ (word.now ≡ text.now) }
{
    word == text
}

// The job of a subcommand with its matches.
fn job_in<'a>(
    alloc: Global,
    name: &str,
    found: &ArgMatches<'a>,
) -> Result<Option<Job<'a>>, AllocError>
    ensures { IfOk result (NamesJob (Some (name.now, rows_of (found_of found.now)))) }
{
    if is_word(name, "response") {
        return response_job(alloc, found);
    }
    if is_word(name, "explain") {
        return explain_job(alloc, found);
    }
    Ok(plain_job(name, found))
}

// That of a subcommand whose words each have one value.
fn plain_job<'a>(name: &str, found: &ArgMatches<'a>) -> Option<Job<'a>>
    requires response { name.now ≡ codes "response" → ⊥ }
    requires explain { name.now ≡ codes "explain" → ⊥ }
    ensures { NamesJob (Some (name.now, rows_of (found_of found.now))) result }
{
    if is_word(name, "plan") {
        plan_job(found)
    } else if is_word(name, "check") {
        check_job(found)
    } else if is_word(name, "bounds") {
        bounds_job(found)
    } else if is_word(name, "costs") {
        costs_job(found)
    } else if is_word(name, "tell") {
        tell_job(found)
    } else if is_word(name, "run") {
        run_job(found)
    } else if is_word(name, "drive") {
        drive_job(found)
    } else if is_word(name, "events") {
        events_job(found)
    } else {
        None
    }
}

fn job_of<'a>(alloc: Global, matches: &ArgMatches<'a>) -> Result<Option<Job<'a>>, AllocError>
    ensures { IfOk result (NamesJob (subcommand_rows_of matches.now)) }
{
    match matches.subcommand() {
        Some((name, found)) => job_in(alloc, name, found),
        None => Ok(None),
    }
}

fn is_standard_input(word: &str) -> bool
    ensures { result ≡ bytes_eq word.now (codes "@in") }
{
    word == "@in"
}

// How many inputs are standard input. Of a live run the answers are.
fn input_count(job: &Job<'_>) -> usize
    ensures { result ≡ input_count_of job.now }
{
    let is_in = |word: &str| usize::from(is_standard_input(word));
    match job {
        Job::Plan(plan) | Job::Commands(plan) | Job::ExplainPlan(plan) => is_in(plan),
        Job::Check(plan, script)
        | Job::Explain(plan, script)
        | Job::ExplainBounds(plan, script)
        | Job::ExplainAt(_, _, _, plan, script)
        | Job::Bounds(plan, script)
        | Job::Costs(plan, script)
        | Job::Tell(plan, script)
        | Job::Response(plan, script, _, _) => is_in(plan) + is_in(script),
        Job::Run(plan, script, answers, _) => is_in(plan) + is_in(script) + is_in(answers),
        Job::Drive(plan, script, _) => 1 + is_in(plan) + is_in(script),
        Job::Events(file) => is_in(file),
        Job::ExplainRule(_) => 0,
    }
}
