// The lines of `camac costs`.

ghost use Rattle.std.specs.Prelude.{◌≡◌, ◌≤◌, ◌<◌, ◌+◌, ◌||◌, ◌++◌, [], decimal, is_err, length, map, option_map, slice_get, unwrap_or};
ghost use Rattle.std.specs.List.{flat_map};
ghost use Rattle.camac_lang.specs.View.{lam_of, procedure_of, service_of};
ghost use Rattle.camac_check_costs.specs.Texts.{address_after, body_text, column_in, costs_text, detail_text, head_text, in_last_line, kind_word, procedure_line, procedure_name, range_text, region_text, row_end, row_start, row_text, service_line, service_text, window_text};
ghost use Rattle.camac_rules.specs.Windows.{window_of};
ghost use Rattle.camac_word.specs.Watched.{inner_of, has_failed};
ghost use Rattle.camac_word.specs.Writing.{Writes};

use crate::bodies::{BodyCosts, Owner};
use camac_check::Checked;
use camac_check_known::{Costs, Region};
use camac_check_rows::{Detail, Kind, Row};
use camac_lang::{Lam, Procedure, Service, Spot};
use camac_lines::Line;
use camac_range::Range;
use camac_word::{GlBit, Watched, WriteFault};
use std::io::Write;

/// Writes the costs of bodies of a script: a line of each body, with each of its numbers beside that of its heading, and after it a line for
/// each of its statements, with its column if the script's text is given. After a write fault a prefix of this was written.
pub fn write_costs<W: Write>(
    out: &mut Watched<W>,
    checked: &Checked,
    text: Option<&[u8]>,
    bodies: &[BodyCosts],
) -> Result<(), WriteFault>
    ensures text { Writes (W.contents (inner_of out.old)) (W.contents (inner_of out.new)) result (costs_text (option_map (λ t. t.now) text.entry) checked.now.plan checked.now.script bodies.now) }
    ensures failed { has_failed out.new ≡ (has_failed out.old || is_err result) }
{
    'bodies: for body in bodies {
        write_body(out, checked, text, body)?;
    }
    Ok(())
}

fn write_body<W: Write>(
    out: &mut Watched<W>,
    checked: &Checked,
    text: Option<&[u8]>,
    body: &BodyCosts,
) -> Result<(), WriteFault>
    ensures text { Writes (W.contents (inner_of out.old)) (W.contents (inner_of out.new)) result (body_text (option_map (λ t. t.now) text.entry) checked.now.plan checked.now.script body.now) }
    ensures failed { has_failed out.new ≡ (has_failed out.old || is_err result) }
{
    let head = line_of_body(checked, body.owner(), body.costs());
    out.write_text(head.as_bytes())?;
    write_rows(out, checked.script().procedures(), text, body.rows())
}

fn write_rows<W: Write>(
    out: &mut Watched<W>,
    procedures: &[Procedure],
    text: Option<&[u8]>,
    rows: &[Row],
) -> Result<(), WriteFault>
    ensures text { Writes (W.contents (inner_of out.old)) (W.contents (inner_of out.new)) result (flat_map (row_text (option_map (λ t. t.now) text.entry) (map procedure_of procedures.now)) rows.now) }
    ensures failed { has_failed out.new ≡ (has_failed out.old || is_err result) }
{
    // One for all rows, since it is forgotten at no cost.
    let mut line = Line::new();
    'rows: for row in rows {
        write_row(out, procedures, text, row, &mut line)?;
    }
    Ok(())
}

fn write_row<W: Write>(
    out: &mut Watched<W>,
    procedures: &[Procedure],
    text: Option<&[u8]>,
    row: &Row,
    line: &mut Line,
) -> Result<(), WriteFault>
    ensures text { Writes (W.contents (inner_of out.old)) (W.contents (inner_of out.new)) result (row_text (option_map (λ t. t.now) text.entry) (map procedure_of procedures.now) row.now) }
    ensures failed { has_failed out.new ≡ (has_failed out.old || is_err result) }
{
    start_row(line, text, row);
    out.write_text(line.as_bytes())?;
    end_row(line, procedures, row);
    out.write_text(line.as_bytes())
}

fn start_row(line: &mut Line, text: Option<&[u8]>, row: &Row)
    ensures { line.new ≡ row_start (option_map (λ t. t.now) text.entry) row.now }
{
    line.clear();
    line.push_str("line ");
    push_count(line, u64::from(row.spot.line));
    if let Some(text) = text {
        line.push_str(" column ");
        push_count(line, column_in(text, row.spot) as u64);
    }
    line.push_str(" depth ");
    push_count(line, row.depth);
    line.push_str(" ");
    line.push_str(kind_word(row.kind));
    line.push_str(" times ");
    push_count(line, row.times);
    line.push_str(" cycles ");
    push_count(line, row.each.cycles());
    line.push_str(" words ");
    push_count(line, row.each.words());
    line.push_str(" steps ");
    push_count(line, row.each.steps());
}

// The column of a spot of a text, from 1.
fn column_in(text: &[u8], spot: Spot) -> usize
    ensures { result ≡ column_in text.now spot }
{
    let before = &text[..text.len().saturating_sub(spot.left)];
    in_last_line(before).saturating_add(1)
}

// How many bytes stand after the last line feed.
fn in_last_line(bytes: &[u8]) -> usize
    ensures { result ≡ in_last_line bytes.now }
{
    bytes.iter().rev().take_while(|b| **b != b'\n').count()
}

// Puts the number at the end, in decimal. It is quick where the number has at most four digits.
fn push_count(line: &mut Line, number: u64)
    requires { length line.old ≤ 236 }
    ensures text { line.new ≡ line.old ++ decimal number }
    ensures len { length line.new ≤ length line.old + 20 }
{
    if number < 100 {
        line.push_small(number as u8);
    } else if number < 10_000 {
        line.push_small((number / 100) as u8);
        let tens = b'0' + (number / 10 % 10) as u8;
        let ones = b'0' + (number % 10) as u8;
        line.push_bytes(&[tens, ones]);
    } else {
        line.push_number(number);
    }
}

fn end_row(line: &mut Line, procedures: &[Procedure], row: &Row)
    ensures { line.new ≡ row_end (map procedure_of procedures.now) row.now }
{
    line.clear();
    line.push_str(" share ");
    push_count(line, row.share.cycles());
    line.push_str(" ");
    push_count(line, row.share.words());
    line.push_str(" ");
    push_count(line, row.share.steps());
    push_detail(line, procedures, row.detail);
    line.push_str("\n");
}

fn push_detail(line: &mut Line, procedures: &[Procedure], detail: Detail)
    requires { length line.old ≤ 80 }
    ensures text { line.new ≡ line.old ++ detail_text (map procedure_of procedures.now) detail }
    ensures len { length line.new ≤ length line.old + 96 }
{
    match detail {
        Detail::Nothing => {}
        Detail::At(region) => push_region(line, region),
        Detail::Turns(turns) => {
            line.push_str(" turns ");
            line.push_number(turns);
        }
        Detail::Between(first, last) => push_window(line, first, last),
        Detail::Crates(crates) => {
            line.push_str(" crate ");
            push_range(line, crates);
        }
        Detail::Procedure(number) => {
            line.push_str(" proc ");
            line.push_bytes(name_of(procedures, number));
        }
    }
}

fn push_region(line: &mut Line, region: Region)
    requires { length line.old ≤ 100 }
    ensures text { line.new ≡ line.old ++ region_text region }
    ensures len { length line.new ≤ length line.old + 72 }
{
    line.push_str(" at ");
    push_range(line, region.crates());
    line.push_str(" ");
    push_range(line, region.stations());
    line.push_str(" ");
    push_range(line, region.sub_addresses());
}

// The window of a scan between the addresses of two registers.
fn push_window(line: &mut Line, first: Region, last: Region)
    requires { length line.old ≤ 80 }
    ensures text { line.new ≡ line.old ++ window_text first.crates (window_of first last) }
    ensures len { length line.new ≤ length line.old + 96 }
{
    let crates = first.crates();
    push_address(
        line,
        " at ",
        crates,
        first.stations().lo(),
        first.sub_addresses().lo(),
    );
    let to = last.sub_addresses().hi().min(15);
    push_address(line, " to ", crates, last.stations().hi(), to);
}

// An address after a word, in one crate or each of several.
fn push_address(line: &mut Line, word: &str, crates: Range, n: u32, a: u32)
    requires room { length line.old ≤ 140 }
    requires word { length word.now ≤ 4 }
    ensures text { line.new ≡ line.old ++ address_after word.now crates n a }
    ensures len { length line.new ≤ length line.old + 48 }
{
    line.push_str(word);
    push_range(line, crates);
    line.push_str(" ");
    line.push_number(n);
    line.push_str(" ");
    line.push_number(a);
}

/// Puts one number, or the first and the last of several, at the end.
pub fn push_range(line: &mut Line, range: Range)
    requires { length line.old ≤ 200 }
    ensures text { line.new ≡ line.old ++ range_text range }
    ensures len { length line.new ≤ length line.old + 22 }
{
    line.push_number(range.lo());
    if range.lo() != range.hi() {
        line.push_str("..");
        line.push_number(range.hi());
    }
}

// The name of a procedure by its number, nothing where there is none.
fn name_of(procedures: &[Procedure], number: usize) -> &[u8]
    ensures name { result.now ≡ procedure_name (map procedure_of procedures.now) number }
    ensures short { length result.now ≤ 32 }
{
    match procedures.get(number) {
        Some(procedure) => procedure.name.as_bytes(),
        None => &[],
    }
}

// The word of a statement.
fn kind_word(kind: Kind) -> &'static str
    ensures word { result.now ≡ kind_word kind }
    ensures short { length result.now ≤ 5 }
{
    match kind {
        Kind::Assign => "=",
        Kind::Cdreg => "cdreg",
        Kind::Put => "put",
        Kind::Cfsa => "cfsa",
        Kind::Cssa => "cssa",
        Kind::Cfmad => "cfmad",
        Kind::Cfubc => "cfubc",
        Kind::Cfubr => "cfubr",
        Kind::Cccz => "cccz",
        Kind::Cccc => "cccc",
        Kind::Ccci => "ccci",
        Kind::Ctci => "ctci",
        Kind::Cccd => "cccd",
        Kind::Ctcd => "ctcd",
        Kind::Ctgl => "ctgl",
        Kind::Cclm => "cclm",
        Kind::Cclc => "cclc",
        Kind::Ctlm => "ctlm",
        Kind::If => "if",
        Kind::Else => "else",
        Kind::For => "for",
        Kind::While => "while",
        Kind::Lock => "lock",
        Kind::Call => "call",
    }
}

// The line of a body, nothing where the script has none of this number.
fn line_of_body(checked: &Checked, owner: Owner, costs: Costs) -> Line
    ensures { result ≡ head_text checked.now.plan checked.now.script owner costs }
{
    match owner {
        Owner::Procedure(number) => line_of_procedure(checked.script().procedures(), number, costs),
        Owner::Service(number) => line_of_service(checked, number, costs),
    }
}

fn line_of_procedure(procedures: &[Procedure], number: usize, costs: Costs) -> Line
    ensures { result ≡ unwrap_or (option_map (λ p. procedure_line p costs) (slice_get (map procedure_of procedures.now) number)) [] }
{
    match procedures.get(number) {
        Some(procedure) => procedure_line(procedure, costs),
        None => Line::new(),
    }
}

fn line_of_service(checked: &Checked, number: usize, costs: Costs) -> Line
    ensures { result ≡ unwrap_or (option_map (λ v. service_text checked.now.plan checked.now.script.lams v costs) (slice_get checked.now.script.services number)) [] }
{
    let script = checked.script();
    match script.services().get(number) {
        Some(service) => line_of_lam(script.lams(), checked.gl(number), service, costs),
        None => Line::new(),
    }
}

// Nothing where there is no such LAM.
fn line_of_lam(lams: &[Lam], bit: GlBit, service: &Service, costs: Costs) -> Line
    ensures { result ≡ unwrap_or (option_map (λ l. service_line l bit (service_of service.now) costs) (slice_get (map lam_of lams.now) service.now.lam)) [] }
{
    match lams.get(service.lam) {
        Some(lam) => service_line(lam, bit, service, costs),
        None => Line::new(),
    }
}

fn service_line(lam: &Lam, bit: GlBit, service: &Service, costs: Costs) -> Line
    ensures { result ≡ service_line (lam_of lam.now) bit (service_of service.now) costs }
{
    let mut line = Line::new();
    line.push_str("service ");
    line.push_bytes(lam.name.as_bytes());
    line.push_str(" line ");
    line.push_number(service.spot.line);
    line.push_str(" gl ");
    line.push_number(bit.get());
    push_address(
        &mut line,
        " at ",
        Range::only(lam.crate_no),
        lam.station,
        lam.sub_address.get(),
    );
    line.push_str(" cycles ");
    line.push_number(costs.cycles());
    line.push_str(" of ");
    line.push_number(service.cycles);
    line.push_str(" words ");
    line.push_number(costs.words());
    line.push_str(" of ");
    line.push_number(service.words);
    line.push_str(" steps ");
    line.push_number(costs.steps());
    line.push_str("\n");
    line
}

fn procedure_line(procedure: &Procedure, costs: Costs) -> Line
    ensures { result ≡ procedure_line (procedure_of procedure.now) costs }
{
    let mut line = Line::new();
    line.push_str("proc ");
    line.push_bytes(procedure.name.as_bytes());
    line.push_str(" line ");
    line.push_number(procedure.spot.line);
    line.push_str(" cycles ");
    line.push_number(costs.cycles());
    line.push_str(" of ");
    line.push_number(procedure.cycles);
    line.push_str(" words ");
    line.push_number(costs.words());
    line.push_str(" of ");
    line.push_number(procedure.words);
    line.push_str(" steps ");
    line.push_number(costs.steps());
    line.push_str(" of ");
    line.push_number(procedure.steps);
    line.push_str("\n");
    line
}
