// The line of a script as it is shown.

ghost use Rattle.std.specs.Prelude.{◌≡◌, ◌≤◌, ◌++◌, length, map, take, OnOk};
ghost use Rattle.std.specs.List.{flat_map};
ghost use Rattle.camac_explain.specs.Source.{shown_byte, line_length, first_line, after_line, from_line, column_of, begin_of, dots, gap, blank_below, mark_line, marked_text, shown_line, shown_or_end, number_column, source_text, source_of};

use crate::finding::Finding;
use crate::texts;
use camac_lang::Spot;
use itoa::Buffer;
use std::alloc::AllocError;

/// The greatest number of bytes of a line that are shown.
const LONGEST_SHOWN: usize = 120;

/// Puts the line of a finding at the end: its number in five columns, and at most 120 of its bytes, control bytes other than tabs as `?`.
/// They are those around the token where it stands, and a `^` is below that on a line of its own. `..` stands for the others. An empty line is
/// told as the end of the script, since a rule is broken on no other.
pub fn push_source(lines: &mut Vec<u8>, text: &[u8], finding: Finding) -> Result<(), AllocError>
    ensures { OnOk result (lines.new.items ≡ lines.old.items ++ source_of text.now finding) }
{
    match finding {
        Finding::Plan(_) => Ok(()),
        Finding::Text { spot, .. } | Finding::Link { spot, .. } | Finding::Check { spot, .. } => {
            push_marked(lines, text, spot)
        }
    }
}

/// How many bytes of its line stand before a spot of a text.
pub fn column_of(text: &[u8], spot: Spot) -> usize
    ensures { result ≡ column_of text.now spot }
{
    from_line(text, spot.line).len().saturating_sub(spot.left)
}

// Puts the line of a spot at the end, and a mark below it.
fn push_marked(lines: &mut Vec<u8>, text: &[u8], spot: Spot) -> Result<(), AllocError>
    ensures { OnOk result (lines.new.items ≡ lines.old.items ++ marked_text text.now spot) }
{
    let line = first_line(from_line(text, spot.line));
    let column = column_of(text, spot);
    push_line(lines, line, spot.line, column)?;
    push_mark(lines, line, column)
}

// Puts a line at the end, which has this number, with a token after so many of its bytes.
fn push_line(lines: &mut Vec<u8>, line: &[u8], number: u32, column: usize) -> Result<(), AllocError>
    ensures { OnOk result (lines.new.items ≡ lines.old.items ++ source_text line.now number column) }
{
    push_number(lines, number)?;
    push_shown_line(lines, line, column)?;
    lines.push(b'\n')?;
    Ok(())
}

fn push_shown_line(lines: &mut Vec<u8>, line: &[u8], column: usize) -> Result<(), AllocError>
    ensures { OnOk result (lines.new.items ≡ lines.old.items ++ shown_or_end line.now column) }
{
    if line.is_empty() {
        lines.extend_from_slice(texts::END.as_bytes())?;
        Ok(())
    } else {
        push_part(lines, line, column)
    }
}

// Puts a line's number and a bar at the end.
fn push_number(lines: &mut Vec<u8>, line: u32) -> Result<(), AllocError>
    ensures { OnOk result (lines.new.items ≡ lines.old.items ++ number_column line) }
{
    let mut buffer = Buffer::new();
    let digits = buffer.format(line);
    let blanks = b"     ";
    lines.extend_from_slice(&blanks[digits.len().min(5)..])?;
    lines.extend_from_slice(digits.as_bytes())?;
    lines.extend_from_slice(b" | ")
}

// The text from the line of this number on, from 1.
fn from_line(text: &[u8], line: u32) -> &[u8]
    ensures { result.now ≡ from_line line text.now }
{
    let mut rest = text;
    let mut lines = line.saturating_sub(1);
    while lines > 0 {
        rest = after_line(rest);
        lines -= 1;
    }
    rest
}

fn first_line(text: &[u8]) -> &[u8]
    ensures { result.now ≡ first_line text.now }
{
    &text[..line_length(text)]
}

// What stands after the first line feed.
fn after_line(text: &[u8]) -> &[u8]
    ensures { result.now ≡ after_line text.now }
{
    let end = line_length(text);
    if end < text.len() {
        &text[end + 1..]
    } else {
        &[]
    }
}

#[tactic(auto, using(camac_tokens::proofs::Scans::run_le))]
fn line_length(text: &[u8]) -> usize
    ensures length { result ≡ line_length text.now }
    ensures fits { result ≤ length text.now }
{
    text.iter().take_while(|b| **b != b'\n').count()
}

// Puts at most 120 bytes of a line at the end, with the one of this column among them.
fn push_part(lines: &mut Vec<u8>, line: &[u8], column: usize) -> Result<(), AllocError>
    ensures { OnOk result (lines.new.items ≡ lines.old.items ++ shown_line line.now column) }
{
    let last_begin = line.len().saturating_sub(LONGEST_SHOWN);
    let begin = begin_of(line, column);
    push_dots(lines, begin > 0)?;
    push_shown(lines, prefix(&line[begin..], LONGEST_SHOWN))?;
    push_dots(lines, begin < last_begin)
}

// The first byte of a line that is shown.
fn begin_of(line: &[u8], column: usize) -> usize
    ensures begin { result ≡ begin_of line.now column }
    ensures fits { result ≤ length line.now }
{
    let last_begin = line.len().saturating_sub(LONGEST_SHOWN);
    column.saturating_sub(LONGEST_SHOWN / 2).min(last_begin)
}

// Puts a `^` below the byte of this column of a line that is shown, on a line of its own. A tab stands below each tab before it.
fn push_mark(lines: &mut Vec<u8>, line: &[u8], column: usize) -> Result<(), AllocError>
    ensures { OnOk result (lines.new.items ≡ lines.old.items ++ mark_line line.now column) }
{
    let begin = begin_of(line, column);
    lines.extend_from_slice(b"      | ")?;
    push_gap(lines, begin > 0)?;
    push_blanks(lines, prefix(&line[begin..], column.saturating_sub(begin)))?;
    lines.extend_from_slice(b"^\n")
}

// Puts two blanks at the end below the `..`.
fn push_gap(lines: &mut Vec<u8>, left_out: bool) -> Result<(), AllocError>
    ensures { OnOk result (lines.new.items ≡ lines.old.items ++ gap left_out) }
{
    if left_out {
        lines.extend_from_slice(b"  ")?;
    }
    Ok(())
}

// Puts what stands below bytes at the end.
fn push_blanks(lines: &mut Vec<u8>, bytes: &[u8]) -> Result<(), AllocError>
    ensures { OnOk result (lines.new.items ≡ lines.old.items ++ flat_map blank_below bytes.now) }
{
    'bytes: for byte in bytes {
        push_blank(lines, *byte)?;
    }
    Ok(())
}

// Puts a tab below a tab at the end, a blank below the first byte of any other character, nothing below its others.
fn push_blank(lines: &mut Vec<u8>, byte: u8) -> Result<(), AllocError>
    ensures { OnOk result (lines.new.items ≡ lines.old.items ++ blank_below byte) }
{
    if byte == b'\t' {
        lines.push(b'\t')?;
    } else if byte < 128 || byte >= 192 {
        lines.push(b' ')?;
    }
    Ok(())
}

// Puts `..` at the end in the place of what is left out.
fn push_dots(lines: &mut Vec<u8>, left_out: bool) -> Result<(), AllocError>
    ensures { OnOk result (lines.new.items ≡ lines.old.items ++ dots left_out) }
{
    if left_out {
        lines.extend_from_slice(b"..")?;
    }
    Ok(())
}

// At most so many of the first bytes of these.
fn prefix(bytes: &[u8], most: usize) -> &[u8]
    ensures { result.now ≡ take most bytes.now }
{
    if bytes.len() < most {
        bytes
    } else {
        &bytes[..most]
    }
}

/// Puts bytes at the end, control bytes other than tabs as `?`.
pub fn push_shown(lines: &mut Vec<u8>, bytes: &[u8]) -> Result<(), AllocError>
    ensures { OnOk result (lines.new.items ≡ lines.old.items ++ map shown_byte bytes.now) }
{
    'bytes: for byte in bytes {
        lines.push(shown_byte(*byte))?;
    }
    Ok(())
}

fn shown_byte(byte: u8) -> u8
    ensures { result ≡ shown_byte byte }
{
    if (byte < 32 && byte != b'\t') || byte == 127 {
        b'?'
    } else {
        byte
    }
}
