// The lines of a plan.

ghost use Rattle.std.specs.Prelude.{◌≡◌, ◌≤◌, ◌<◌, ◌||◌, ◌++◌, length, is_err, codes, decimal};
ghost use Rattle.camac_branch.specs.Plan.{kind, type_counts};
ghost use Rattle.camac_lines.specs.Plan.{buffer_line, crate_line, bit_text, type_text, type_in, station_text, crate_text, plan_in, plan_text, plan_with_commands};
ghost use Rattle.camac_lines.specs.Texts.{texts};
ghost use Rattle.camac_word.specs.Watched.{inner_of, has_failed};
ghost use Rattle.camac_word.specs.Writing.{Writes};

use crate::commands::write_commands;
use crate::line::Line;
use camac_branch::Plan;
use camac_word::{CrateNo, GlBit, Station, Watched, WriteFault};
use std::io::Write;

// What is told of a type.
#[derive(Clone, Copy)]
pub(crate) enum Detail {
    Types,
    Commands,
}

/// Writes a plan: a line of its buffer, a line for each type in order, and for each crate by number its line and a line for each of its
/// stations by number. After a write fault a prefix of this was written.
pub fn write_plan<W: Write>(out: &mut Watched<W>, plan: &Plan) -> Result<(), WriteFault>
    ensures text { Writes (W.contents (inner_of out.old)) (W.contents (inner_of out.new)) result (plan_text plan.now) }
    ensures failed { has_failed out.new ≡ (has_failed out.old || is_err result) }
{
    write_in(out, plan, Detail::Types)
}

/// Writes the same, and after the line of each type a line for each of its commands by function and sub-address. Neighbours of one
/// function, width and kind stand in one line.
pub fn write_plan_with_commands<W: Write>(
    out: &mut Watched<W>,
    plan: &Plan,
) -> Result<(), WriteFault>
    ensures text { Writes (W.contents (inner_of out.old)) (W.contents (inner_of out.new)) result (plan_with_commands plan.now) }
    ensures failed { has_failed out.new ≡ (has_failed out.old || is_err result) }
{
    write_in(out, plan, Detail::Commands)
}

fn write_in<W: Write>(out: &mut Watched<W>, plan: &Plan, detail: Detail) -> Result<(), WriteFault>
    ensures text { Writes (W.contents (inner_of out.old)) (W.contents (inner_of out.new)) result (plan_in detail plan.now) }
    ensures failed { has_failed out.new ≡ (has_failed out.old || is_err result) }
{
    out.write_text(line_of_buffer(plan.buffer()).as_bytes())?;
    write_types(out, plan, detail)?;
    write_crates(out, plan)
}

fn line_of_buffer(buffer: u16) -> Line
    ensures { result ≡ buffer_line buffer }
{
    let mut line = Line::new();
    line.push_str("buffer ");
    line.push_number(buffer);
    line.push_str("\n");
    line
}

fn write_types<W: Write>(
    out: &mut Watched<W>,
    plan: &Plan,
    detail: Detail,
) -> Result<(), WriteFault>
    ensures text { Writes (W.contents (inner_of out.old)) (W.contents (inner_of out.new)) result (texts (type_in detail plan.now) 0 (length plan.now.types)) }
    ensures failed { has_failed out.new ≡ (has_failed out.old || is_err result) }
{
    'types: for t in 0..plan.types() {
        write_type_in(out, plan, t, detail)?;
    }
    Ok(())
}

fn write_type_in<W: Write>(
    out: &mut Watched<W>,
    plan: &Plan,
    t: usize,
    detail: Detail,
) -> Result<(), WriteFault>
    requires { t < length plan.now.types }
    ensures text { Writes (W.contents (inner_of out.old)) (W.contents (inner_of out.new)) result (type_in detail plan.now t) }
    ensures failed { has_failed out.new ≡ (has_failed out.old || is_err result) }
{
    match detail {
        Detail::Types => write_type(out, plan, t),
        Detail::Commands => {
            write_type(out, plan, t)?;
            write_commands(out, plan, t)
        }
    }
}

fn write_type<W: Write>(out: &mut Watched<W>, plan: &Plan, t: usize) -> Result<(), WriteFault>
    requires { t < length plan.now.types }
    ensures text { Writes (W.contents (inner_of out.old)) (W.contents (inner_of out.new)) result (type_text plan.now t) }
    ensures failed { has_failed out.new ≡ (has_failed out.old || is_err result) }
{
    let (commands, probes) = plan.type_counts(t);
    let mut start = Line::new();
    start.push_str("type ");
    write_around(
        out,
        &start,
        plan.type_name(t).as_bytes(),
        &end_of_type(commands, probes),
    )
}

fn end_of_type(commands: u32, probes: u32) -> Line
    ensures { result ≡ codes " commands " ++ decimal commands ++ codes " probes " ++ decimal probes ++ codes "\n" }
{
    let mut line = Line::new();
    line.push_str(" commands ");
    line.push_number(commands);
    line.push_str(" probes ");
    line.push_number(probes);
    line.push_str("\n");
    line
}

fn write_crates<W: Write>(out: &mut Watched<W>, plan: &Plan) -> Result<(), WriteFault>
    ensures text { Writes (W.contents (inner_of out.old)) (W.contents (inner_of out.new)) result (texts (crate_text plan.now) 1 7) }
    ensures failed { has_failed out.new ≡ (has_failed out.old || is_err result) }
{
    'crates: for c in 1..8 {
        write_crate(out, plan, CrateNo::new(c).unwrap())?;
    }
    Ok(())
}

fn write_crate<W: Write>(out: &mut Watched<W>, plan: &Plan, c: CrateNo) -> Result<(), WriteFault>
    ensures text { Writes (W.contents (inner_of out.old)) (W.contents (inner_of out.new)) result (crate_text plan.now c) }
    ensures failed { has_failed out.new ≡ (has_failed out.old || is_err result) }
{
    let Some(waits) = plan.waits(c) else {
        return Ok(());
    };
    out.write_text(line_of_crate(c, waits).as_bytes())?;
    write_stations(out, plan, c)
}

fn line_of_crate(c: CrateNo, waits: u8) -> Line
    ensures { result ≡ crate_line c waits }
{
    let mut line = Line::new();
    line.push_str("crate ");
    line.push_number(c.get());
    line.push_str(" waits ");
    line.push_number(waits);
    line.push_str("\n");
    line
}

fn write_stations<W: Write>(out: &mut Watched<W>, plan: &Plan, c: CrateNo) -> Result<(), WriteFault>
    ensures text { Writes (W.contents (inner_of out.old)) (W.contents (inner_of out.new)) result (texts (station_text plan.now c) 1 23) }
    ensures failed { has_failed out.new ≡ (has_failed out.old || is_err result) }
{
    'stations: for n in 1..24 {
        write_station(out, plan, c, Station::new(n).unwrap())?;
    }
    Ok(())
}

fn write_station<W: Write>(
    out: &mut Watched<W>,
    plan: &Plan,
    c: CrateNo,
    n: Station,
) -> Result<(), WriteFault>
    ensures text { Writes (W.contents (inner_of out.old)) (W.contents (inner_of out.new)) result (station_text plan.now c n) }
    ensures failed { has_failed out.new ≡ (has_failed out.old || is_err result) }
{
    let Some(t) = plan.station(c, n) else {
        return Ok(());
    };
    write_around(
        out,
        &start_of_station(n),
        plan.type_name(t).as_bytes(),
        &end_of_station(plan.gl(c, n)),
    )
}

fn start_of_station(n: Station) -> Line
    ensures { result ≡ codes "station " ++ decimal n ++ codes " " }
{
    let mut line = Line::new();
    line.push_str("station ");
    line.push_number(n.get());
    line.push_str(" ");
    line
}

fn end_of_station(bit: Option<GlBit>) -> Line
    ensures { result ≡ codes " gl " ++ bit_text bit ++ codes "\n" }
{
    let mut line = Line::new();
    line.push_str(" gl ");
    match bit {
        Some(bit) => line.push_number(bit.get()),
        None => line.push_str("-"),
    }
    line.push_str("\n");
    line
}

// Writes a line with a name in it.
fn write_around<W: Write>(
    out: &mut Watched<W>,
    start: &Line,
    name: &[u8],
    end: &Line,
) -> Result<(), WriteFault>
    ensures text { Writes (W.contents (inner_of out.old)) (W.contents (inner_of out.new)) result (start.now ++ name.now ++ end.now) }
    ensures failed { has_failed out.new ≡ (has_failed out.old || is_err result) }
{
    out.write_text(start.as_bytes())?;
    out.write_text(name)?;
    out.write_text(end.as_bytes())
}
