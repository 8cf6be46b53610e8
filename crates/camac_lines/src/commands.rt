// The lines of the commands of a type.

ghost use Rattle.std.specs.Prelude.{◌≡◌, ◌≤◌, ◌<◌, ◌+◌, ◌||◌, ◌++◌, length, is_err};
ghost use Rattle.camac_branch.specs.Plan.{kind};
ghost use Rattle.camac_module.specs.Commands.{declared, entry};
ghost use Rattle.camac_lines.specs.Commands.{is_same, goes_on, last_same, to_text, kind_text, command_line, command_text, function_text, commands_text};
ghost use Rattle.camac_lines.specs.Texts.{texts};
ghost use Rattle.camac_word.specs.Watched.{inner_of, has_failed};
ghost use Rattle.camac_word.specs.Writing.{Writes};

use crate::line::Line;
use camac_branch::Plan;
use camac_func::{FunctionClass, class};
use camac_module::Decl;
use camac_word::{Function, SubAddress, Watched, WriteFault};
use std::io::Write;

// Writes the commands of a type, by function and sub-address.
pub(crate) fn write_commands<W: Write>(
    out: &mut Watched<W>,
    plan: &Plan,
    t: usize,
) -> Result<(), WriteFault>
    requires { t < length plan.now.types }
    ensures text { Writes (W.contents (inner_of out.old)) (W.contents (inner_of out.new)) result (commands_text (kind plan.now t).commands) }
    ensures failed { has_failed out.new ≡ (has_failed out.old || is_err result) }
{
    'functions: for f in 0..32 {
        write_function(out, plan, t, Function::new(f).unwrap())?;
    }
    Ok(())
}

fn write_function<W: Write>(
    out: &mut Watched<W>,
    plan: &Plan,
    t: usize,
    f: Function,
) -> Result<(), WriteFault>
    requires { t < length plan.now.types }
    ensures text { Writes (W.contents (inner_of out.old)) (W.contents (inner_of out.new)) result (function_text (kind plan.now t).commands f) }
    ensures failed { has_failed out.new ≡ (has_failed out.old || is_err result) }
{
    'places: for a in 0..16 {
        let line = line_at(plan, t, f, SubAddress::new(a).unwrap());
        out.write_text(line.as_bytes())?;
    }
    Ok(())
}

// The line of the command at a sub-address, or nothing where its neighbour before has told it.
fn line_at(plan: &Plan, t: usize, f: Function, a: SubAddress) -> Line
    requires { t < length plan.now.types }
    ensures { result ≡ command_text (kind plan.now t).commands f a }
{
    match plan.declaration(t, f, a) {
        Some(d) => {
            if goes_on(plan, t, &d) {
                Line::new()
            } else {
                line_of(&d, last_same(plan, t, &d))
            }
        }
        None => Line::new(),
    }
}

// Whether a type declares a command of this width and kind at a sub-address.
fn is_same(plan: &Plan, t: usize, d: &Decl, a: SubAddress) -> bool
    requires { t < length plan.now.types }
    ensures { result ≡ is_same (declared d.now) (entry (kind plan.now t).commands d.now.f a) }
{
    match plan.declaration(t, d.f, a) {
        Some(other) => other.width == d.width && other.kind == d.kind,
        None => false,
    }
}

fn goes_on(plan: &Plan, t: usize, d: &Decl) -> bool
    requires { t < length plan.now.types }
    ensures { result ≡ goes_on (kind plan.now t).commands d.now.f d.now.a (declared d.now) }
{
    let a = d.a.get();
    a > 0 && is_same(plan, t, d, SubAddress::new(a - 1).unwrap())
}

// The last sub-address of the neighbours that are the same.
fn last_same(plan: &Plan, t: usize, d: &Decl) -> u32
    requires { t < length plan.now.types }
    ensures { result ≡ last_same (kind plan.now t).commands d.now.f d.now.a (declared d.now) }
{
    let first = d.a.get();
    'places: for a in first + 1..16 {
        if !is_same(plan, t, d, SubAddress::new(a).unwrap()) {
            return a - 1;
        }
    }
    15
}

fn line_of(d: &Decl, last: u32) -> Line
    ensures { result ≡ command_line d.now.f d.now.a last (declared d.now) }
{
    let mut line = Line::new();
    line.push_str("command f ");
    line.push_number(d.f.get());
    line.push_str(" a ");
    line.push_number(d.a.get());
    push_last(&mut line, d.a.get(), last);
    push_kind(&mut line, d);
    line.push_str("\n");
    line
}

fn push_last(line: &mut Line, first: u32, last: u32)
    requires { length line.old ≤ 100 }
    ensures bytes { line.new ≡ line.old ++ to_text first last }
    ensures len { length line.new ≤ length line.old + 20 }
{
    if first < last {
        line.push_str(" to ");
        line.push_number(last);
    }
}

fn push_kind(line: &mut Line, d: &Decl)
    requires { length line.old ≤ 130 }
    ensures bytes { line.new ≡ line.old ++ kind_text d.now.f (declared d.now) }
    ensures len { length line.new ≤ length line.old + 30 }
{
    if d.kind.is_probe() {
        line.push_str(" probe");
        return;
    }
    if class(d.f) != FunctionClass::Control {
        line.push_str(" width ");
        line.push_number(d.width);
    }
    if d.kind.clears() {
        line.push_str(" clears");
    }
}
