// The command line as `clap` is told of it.

ghost use Rattle.std.specs.Prelude.{◌≡◌, IfOk, false};
ghost use Rattle.clap.specs.Words.{app_of, kind_of, new_app, rule_of};
ghost use Rattle.clap.specs.declared.builder.command.Command.TheViews.{out-Command};
ghost use Rattle.clap.specs.declared.error.kind.ErrorKind.TheVariants.{ValueValidation};
ghost use Rattle.camac_tool_words.specs.Words.{word_rule, named_rule, optional_rule, option_rule, place_rule, script_app, plan_app, check_app, explain_app, bounds_app, costs_app, tell_app, response_app, setting_rule, run_app, drive_app, events_app, camac_top, camac_app};

use crate::texts;
use clap::error::ErrorKind;
use clap::{Arg, ArgAction, Command, Error};
use std::alloc::{AllocError, Global};
use std::fmt::Display;

/// The program's command line: the subcommands with their words, and what help says of each. `clap`'s own `help` stays beside `--help`.
pub fn camac_command<'a>(alloc: Global) -> Result<Command<'a>, AllocError>
    ensures { IfOk result (λ c. app_of c ≡ camac_app) }
{
    top_command(alloc)?
        .subcommand(plan_command(alloc)?)?
        .subcommand(check_command(alloc)?)?
        .subcommand(explain_command(alloc)?)?
        .subcommand(bounds_command(alloc)?)?
        .subcommand(costs_command(alloc)?)?
        .subcommand(tell_command(alloc)?)?
        .subcommand(response_command(alloc)?)?
        .subcommand(run_command(alloc)?)?
        .subcommand(drive_command(alloc)?)?
        .subcommand(events_command(alloc)?)
}

// The program itself. Its name is not among the words, and has to be told for the lines on usage.
fn top_command<'a>(alloc: Global) -> Result<Command<'a>, AllocError>
    ensures { IfOk result (λ c. app_of c ≡ camac_top) }
{
    subcommand(alloc, "camac", texts::PROGRAM, texts::AFTER_PROGRAM)
        .version(texts::VERSION)
        .no_binary_name(true)
        .subcommand_required(true)
        .bin_name("camac")
}

// A word that has to be given, and what help says of it.
fn word<'a>(alloc: Global, name: &'a str, help: &'a str) -> Arg<'a>
    ensures rule { rule_of result ≡ word_rule name.entry.now }
    ensures local { result.global ≡ false }
{
    Arg::new(alloc, name).required(true).help(help)
}

// A word that has to be given, what it is shown as, and what help says of it.
fn named_word<'a>(alloc: Global, name: &'a str, shown: &'a str, help: &'a str) -> Arg<'a>
    ensures rule { rule_of result ≡ named_rule name.entry.now }
    ensures local { result.global ≡ false }
{
    word(alloc, name, help).value_name(shown)
}

// A word that may be missing, and what help says of it.
fn optional_word<'a>(alloc: Global, name: &'a str, help: &'a str) -> Arg<'a>
    ensures rule { rule_of result ≡ optional_rule name.entry.now }
    ensures local { result.global ≡ false }
{
    Arg::new(alloc, name).help(help)
}

// An option without a value, and what help says of it.
fn option<'a>(alloc: Global, name: &'a str, help: &'a str) -> Arg<'a>
    ensures rule { rule_of result ≡ option_rule name.entry.now }
    ensures local { result.global ≡ false }
{
    Arg::new(alloc, name)
        .long(name)
        .action(ArgAction::SetTrue)
        .help(help)
}

// An option with a value, which may stand several times, what the value is shown as, and what help says of it.
fn setting<'a>(alloc: Global, name: &'a str, shown: &'a str, help: &'a str) -> Arg<'a>
    ensures rule { rule_of result ≡ setting_rule name.entry.now }
    ensures local { result.global ≡ false }
{
    Arg::new(alloc, name)
        .long(name)
        .action(ArgAction::Append)
        .value_name(shown)
        .help(help)
}

// An option with the place of a script as its value, and what help says of it.
fn place_option<'a>(alloc: Global, name: &'a str, help: &'a str) -> Arg<'a>
    ensures rule { rule_of result ≡ place_rule name.entry.now }
    ensures local { result.global ≡ false }
{
    Arg::new(alloc, name)
        .long(name)
        .action(ArgAction::Set)
        .value_name("LINE:COLUMN")
        .help(help)
}

// A command without words, what help says of it, and the examples after that.
fn subcommand<'a>(alloc: Global, name: &'a str, about: &'a str, after: &'a str) -> Command<'a>
    ensures app { app_of result ≡ new_app name.entry.now }
    ensures local { (out-Command result).has_globals ≡ false }
{
    Command::new(alloc, name).about(about).after_help(after)
}

fn plan_command<'a>(alloc: Global) -> Result<Command<'a>, AllocError>
    ensures app { IfOk result (λ c. app_of c ≡ plan_app) }
    ensures local { IfOk result (λ c. (out-Command c).has_globals ≡ false) }
{
    subcommand(alloc, "plan", texts::PLAN_COMMAND, texts::AFTER_PLAN)
        .arg(word(alloc, "PLAN", texts::PLAN))?
        .arg(option(alloc, "commands", texts::COMMANDS))
}

// A command that takes a plan and a script.
fn script_command<'a>(
    alloc: Global,
    name: &'a str,
    about: &'a str,
    after: &'a str,
) -> Result<Command<'a>, AllocError>
    ensures app { IfOk result (λ c. app_of c ≡ script_app name.entry.now) }
    ensures local { IfOk result (λ c. (out-Command c).has_globals ≡ false) }
{
    subcommand(alloc, name, about, after)
        .arg(word(alloc, "PLAN", texts::PLAN))?
        .arg(word(alloc, "SCRIPT", texts::SCRIPT))
}

fn check_command<'a>(alloc: Global) -> Result<Command<'a>, AllocError>
    ensures app { IfOk result (λ c. app_of c ≡ check_app) }
    ensures local { IfOk result (λ c. (out-Command c).has_globals ≡ false) }
{
    script_command(alloc, "check", texts::CHECK_COMMAND, texts::AFTER_CHECK)
}

fn explain_command<'a>(alloc: Global) -> Result<Command<'a>, AllocError>
    ensures app { IfOk result (λ c. app_of c ≡ explain_app) }
    ensures local { IfOk result (λ c. (out-Command c).has_globals ≡ false) }
{
    subcommand(
        alloc,
        "explain",
        texts::EXPLAIN_COMMAND,
        texts::AFTER_EXPLAIN,
    )
    .arg(named_word(alloc, "PLAN", "PLAN|CODE", texts::PLAN_OR_CODE))?
    .arg(optional_word(alloc, "SCRIPT", texts::SCRIPT))?
    .arg(place_option(alloc, "at", texts::AT))?
    .arg(setting(alloc, "turn", "N", texts::TURN))?
    .arg(option(alloc, "bounds", texts::EXPLAIN_BOUNDS))
}

fn bounds_command<'a>(alloc: Global) -> Result<Command<'a>, AllocError>
    ensures app { IfOk result (λ c. app_of c ≡ bounds_app) }
    ensures local { IfOk result (λ c. (out-Command c).has_globals ≡ false) }
{
    script_command(alloc, "bounds", texts::BOUNDS_COMMAND, texts::AFTER_BOUNDS)
}

fn costs_command<'a>(alloc: Global) -> Result<Command<'a>, AllocError>
    ensures app { IfOk result (λ c. app_of c ≡ costs_app) }
    ensures local { IfOk result (λ c. (out-Command c).has_globals ≡ false) }
{
    script_command(alloc, "costs", texts::COSTS_COMMAND, texts::AFTER_COSTS)
}

fn tell_command<'a>(alloc: Global) -> Result<Command<'a>, AllocError>
    ensures app { IfOk result (λ c. app_of c ≡ tell_app) }
    ensures local { IfOk result (λ c. (out-Command c).has_globals ≡ false) }
{
    script_command(alloc, "tell", texts::TELL_COMMAND, texts::AFTER_TELL)
}

fn response_command<'a>(alloc: Global) -> Result<Command<'a>, AllocError>
    ensures app { IfOk result (λ c. app_of c ≡ response_app) }
    ensures local { IfOk result (λ c. (out-Command c).has_globals ≡ false) }
{
    script_command(
        alloc,
        "response",
        texts::RESPONSE_COMMAND,
        texts::AFTER_RESPONSE,
    )?
    .arg(setting(alloc, "every", "SERVICE=CYCLES", texts::EVERY))?
    .arg(setting(alloc, "within", "SERVICE=CYCLES", texts::WITHIN))
}

/// The usage fault of a word after an option of `response` that is no SERVICE=CYCLES.
pub fn setting_error<T: Display + Drop>(
    alloc: Global,
    option: T,
    word: &str,
) -> Result<Error, AllocError>
    ensures { IfOk result (λ e. kind_of e ≡ ValueValidation) }
{
    let mut command = response_command(alloc)?.bin_name("camac response")?;
    let message = format!(in alloc;
        "invalid value '{word}' for '{option} <SERVICE=CYCLES>': CYCLES is a whole number of dataway cycles, as in 'adc=200'"
    )?;
    command.error(ErrorKind::ValueValidation, &message)
}

fn run_command<'a>(alloc: Global) -> Result<Command<'a>, AllocError>
    ensures app { IfOk result (λ c. app_of c ≡ run_app) }
    ensures local { IfOk result (λ c. (out-Command c).has_globals ≡ false) }
{
    script_command(alloc, "run", texts::RUN_COMMAND, texts::AFTER_RUN)?
        .arg(word(alloc, "ANSWERS", texts::ANSWERS))?
        .arg(word(alloc, "EVENTS", texts::EVENTS))
}

fn drive_command<'a>(alloc: Global) -> Result<Command<'a>, AllocError>
    ensures app { IfOk result (λ c. app_of c ≡ drive_app) }
    ensures local { IfOk result (λ c. (out-Command c).has_globals ≡ false) }
{
    subcommand(alloc, "drive", texts::DRIVE_COMMAND, texts::AFTER_DRIVE)
        .arg(word(alloc, "PLAN", texts::PLAN_OF_DRIVE))?
        .arg(word(alloc, "SCRIPT", texts::SCRIPT_OF_DRIVE))?
        .arg(word(alloc, "EVENTS", texts::EVENTS_OF_DRIVE))
}

fn events_command<'a>(alloc: Global) -> Result<Command<'a>, AllocError>
    ensures app { IfOk result (λ c. app_of c ≡ events_app) }
    ensures local { IfOk result (λ c. (out-Command c).has_globals ≡ false) }
{
    let events = subcommand(alloc, "events", texts::EVENTS_COMMAND, texts::AFTER_EVENTS);
    events.arg(word(alloc, "FILE", texts::FILE))
}
