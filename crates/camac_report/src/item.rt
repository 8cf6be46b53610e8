// The lines of the items of a run.

ghost use Rattle.std.specs.Prelude.{◌≡◌, ◌≤◌, ◌+◌, ◌*◌, ◌||◌, ◌++◌, length, take, is_err};
ghost use Rattle.camac_report.specs.Items.{service_name, called_text, demand_text, abandoned_text, lock_text, unlock_text, unlock_texts, item_text};
ghost use Rattle.camac_machine.specs.MachineState.{piece_of};
ghost use Rattle.camac_word.specs.Watched.{inner_of, has_failed};
ghost use Rattle.camac_word.specs.Writing.{Writes};

use camac_lang::Script;
use camac_lines::{LONGEST_LINE, Line, bytes_in, cycle_in, hex_word, lam_name, small_in, text_in};
use camac_rules::Checked;
use camac_run::Item;
use camac_word::{CrateNo, Watched, Word24, WriteFault};
use std::io::Write;

/// Writes the line of an item, and in the same write a line for each crate, at most seven, whose lockout was released after it. After a
/// write fault a prefix of them was written.
pub fn write_items<W: Write>(
    out: &mut Watched<W>,
    checked: &Checked,
    item: &Item,
    unlocks: &[CrateNo],
) -> Result<(), WriteFault>
    requires { length unlocks.now ≤ 7 }
    ensures text { Writes (W.contents (inner_of out.old)) (W.contents (inner_of out.new)) result (item_text checked.now.script (piece_of item.now) ++ unlock_texts unlocks.now) }
    ensures failed { has_failed out.new ≡ (has_failed out.old || is_err result) }
{
    let mut lines = [0; LONGEST_LINE];
    let end = items_in(&mut lines, 0, checked, item, unlocks);
    out.write_text(&lines[..end])
}

/// Lays out the line of an item, and a line for each crate, at most seven, whose lockout was released after it, over the bytes from a place
/// on. Returns the place after them.
pub fn items_in(
    bytes: &mut [u8],
    start: usize,
    checked: &Checked,
    item: &Item,
    unlocks: &[CrateNo],
) -> usize
    requires few { length unlocks.now ≤ 7 }
    requires room { start + LONGEST_LINE ≤ length bytes.old }
    ensures written { take result bytes.new ≡ take start bytes.old ++ (item_text checked.now.script (piece_of item.now) ++ unlock_texts unlocks.now) }
    ensures end { result ≤ start + LONGEST_LINE }
    ensures len { length bytes.new ≡ length bytes.old }
{
    let end = item_in(bytes, start, checked, item);
    unlocks_in(bytes, end, unlocks)
}

fn item_in(bytes: &mut [u8], start: usize, checked: &Checked, item: &Item) -> usize
    requires { start + 80 ≤ length bytes.old }
    ensures written { take result bytes.new ≡ take start bytes.old ++ item_text checked.now.script (piece_of item.now) }
    ensures end { result ≤ start + 80 }
    ensures len { length bytes.new ≡ length bytes.old }
{
    match item {
        Item::Cycle(done) => cycle_in(bytes, start, done),
        Item::Lock(c, wait) => lock_in(bytes, start, *c, *wait),
        Item::Unlock(c) => unlock_in(bytes, start, *c),
        Item::Demand(pattern, service) => {
            demand_in(bytes, start, checked.script(), *pattern, *service)
        }
    }
}

fn demand_in(
    bytes: &mut [u8],
    start: usize,
    script: &Script,
    pattern: Word24,
    service: Option<usize>,
) -> usize
    requires { start + 80 ≤ length bytes.old }
    ensures written { take result bytes.new ≡ take start bytes.old ++ demand_text script.now pattern service }
    ensures end { result ≤ start + 80 }
    ensures len { length bytes.new ≡ length bytes.old }
{
    let word = text_in(bytes, start, "demand ");
    let space = bytes_in(bytes, word, &hex_word(pattern));
    let name = text_in(bytes, space, " ");
    let end = bytes_in(bytes, name, called_name(script, service));
    text_in(bytes, end, "\n")
}

/// The line of a service that was left.
pub fn abandoned_line(script: &Script, service: Option<usize>) -> Line
    ensures { result ≡ abandoned_text script.now service }
{
    let mut line = Line::new();
    line.push_str("abandoned service ");
    line.push_bytes(called_name(script, service));
    line.push_str("\n");
    line
}

// The name of the service that is called.
fn called_name(script: &Script, service: Option<usize>) -> &[u8]
    ensures name { result.now ≡ called_text script.now service }
    ensures short { length result.now ≤ 32 }
{
    match service {
        Some(i) => service_name(script, i),
        None => b"-",
    }
}

// A service has the name of its LAM.
fn service_name(script: &Script, i: usize) -> &[u8]
    ensures name { result.now ≡ service_name script.now i }
    ensures short { length result.now ≤ 32 }
{
    match script.services().get(i) {
        Some(service) => lam_name(script.lams(), service.lam),
        None => &[],
    }
}

fn lock_in(bytes: &mut [u8], start: usize, c: CrateNo, wait: u8) -> usize
    requires { start + 80 ≤ length bytes.old }
    ensures written { take result bytes.new ≡ take start bytes.old ++ lock_text c wait }
    ensures end { result ≤ start + 80 }
    ensures len { length bytes.new ≡ length bytes.old }
{
    let number = text_in(bytes, start, "lock ");
    let word = small_in(bytes, number, c.get() as u8);
    let waited = text_in(bytes, word, " wait ");
    let end = small_in(bytes, waited, wait);
    text_in(bytes, end, "\n")
}

fn unlock_in(bytes: &mut [u8], start: usize, c: CrateNo) -> usize
    requires { start + 18 ≤ length bytes.old }
    ensures written { take result bytes.new ≡ take start bytes.old ++ unlock_text c }
    ensures end { result ≤ start + 18 }
    ensures len { length bytes.new ≡ length bytes.old }
{
    let number = text_in(bytes, start, "unlock ");
    let end = small_in(bytes, number, c.get() as u8);
    text_in(bytes, end, "\n")
}

/// Lays out a line for each crate whose lockout was released, and returns the place after them.
pub fn unlocks_in(bytes: &mut [u8], start: usize, unlocks: &[CrateNo]) -> usize
    requires { start + 18 * length unlocks.now ≤ length bytes.old }
    ensures written { take result bytes.new ≡ take start bytes.old ++ unlock_texts unlocks.now }
    ensures end { result ≤ start + 18 * length unlocks.now }
    ensures len { length bytes.new ≡ length bytes.old }
{
    let mut end = start;
    'unlocks: for c in unlocks {
        end = unlock_in(bytes, end, *c);
    }
    end
}
