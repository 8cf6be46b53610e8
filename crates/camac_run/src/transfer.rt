// What is left of the transfer in which a run stands.

ghost use Rattle.std.specs.Prelude.{◌≡◌, ◌<◌, ◌∷◌, [], IfSome, Some, is_some};
ghost use Rattle.camac_esone.specs.InProgress.{q_repeat_left, q_stop_left, scan_left};
ghost use Rattle.camac_esone.specs.Transfers.{is_by, successor};
ghost use Rattle.camac_machine.specs.Course.{left_at, words_from, words_sent};
ghost use Rattle.camac_machine.specs.Rest.{address_of};
ghost use Rattle.camac_run.specs.Transfer.{Leaves, left_by, next_in, window};

use camac_branch::Command;
use camac_esone::{Address, QRepeat, QStop, Scan};
use camac_machine::{Course, TransferCycle};
use camac_word::Word24;

/// How a transfer goes on from cycle to cycle (ESONE's CFUBC, CFUBR and CFMAD).
#[derive(Clone, Copy, Debug, PartialEq, Eq)]
pub enum TransferMode {
    /// Up to the first Q=0, at one address.
    QStop,
    /// At one address, where Q=0 asks for the same cycle again.
    QRepeat,
    /// Over the addresses of a crate.
    Scan,
}

/// What is left of a transfer (own).
#[derive(Clone, Copy)]
pub struct TransferLeft<'a> {
    pub mode: TransferMode,
    /// Its next cycle.
    pub first: Command,
    /// The final address of a scan, else that of the next cycle.
    pub last: Address,
    /// How many further cycles there are at most.
    pub cycles: u32,
    /// How many of them have Q=1 at most.
    pub words: u32,
    /// The words that are left to write; a read has none.
    pub table: Option<&'a [Word24]>,
}

/// What is left of a transfer that reads (own).
#[derive(Clone, Copy)]
pub struct ReadBlock {
    pub mode: TransferMode,
    /// Its next cycle.
    pub first: Command,
    /// The final address of a scan, else that of the next cycle.
    pub last: Address,
    /// How many further cycles there are at most.
    pub cycles: u32,
    /// How many of them have Q=1 at most.
    pub words: u32,
}

impl<'a> TransferLeft<'a> {
    /// The same without the table; none of one that writes.
    pub fn read_block(&self) -> Option<ReadBlock>
        ensures { IfSome result (λ b. self.now ≡ left_by b) }
    {
        match self.table {
            Some(_) => None,
            None => Some(ReadBlock {
                mode: self.mode,
                first: self.first,
                last: self.last,
                cycles: self.cycles,
                words: self.words,
            }),
        }
    }

    /// Whether there is another cycle after the next one, if that has this Q.
    pub fn goes_on(&self, q: bool) -> bool
        ensures { result ≡ is_some (next_in self.now (q ∷ [])) }
    {
        let counted = u32::from(q);
        match self.mode {
            TransferMode::QStop => q && self.cycles > 1,
            TransferMode::QRepeat => self.words > counted && self.cycles > 1,
            TransferMode::Scan => self.words > counted && is_by(&self.last, &self.successor(q)),
        }
    }

    // The address after the next one in a scan, if that has this Q.
    fn successor(&self, q: bool) -> Address
        ensures { result ≡ successor q (address_of self.now.first) }
    {
        let first = command_address(&self.first);
        if q && first.a < 15 {
            Address {
                a: first.a + 1,
                ..first
            }
        } else {
            Address {
                n: first.n + 1,
                a: 0,
                ..first
            }
        }
    }
}

/// Whether an address is not past the final one.
pub fn is_by(last: &Address, at: &Address) -> bool
    ensures { result ≡ is_by last.now at.now }
{
    at.n < last.n || (at.n == last.n && at.a <= last.a)
}

// Where a command goes.
fn command_address(command: &Command) -> Address
    ensures at { result ≡ address_of command.now }
    ensures station { result.station < 32 }
{
    Address {
        c: command.c.get(),
        n: command.n.get(),
        a: command.a.get(),
    }
}

/// How many addresses there are from the first to the last, with 16 at each station.
pub fn window(first: &Address, last: &Address) -> u32
    ensures { result ≡ window first.now last.now }
{
    let end = 16 * u64::from(last.n) + u64::from(last.a) + 1;
    let begin = 16 * u64::from(first.n) + u64::from(first.a);
    end.saturating_sub(begin).min(4_294_967_295) as u32
}

// The words of a table after the first so many.
fn words_from<'a>(table: Option<&'a [Word24]>, sent: u32) -> Option<&'a [Word24]>
    ensures { words_sent result ≡ words_from sent (words_sent table.entry) }
{
    match table {
        None => None,
        Some(words) => {
            let sent = words.len().min(sent as usize);
            Some(&words[sent..])
        }
    }
}

// What is left of Q-stop.
fn stop_left<'a>(first: &Command, table: Option<&'a [Word24]>, stop: &QStop) -> TransferLeft<'a>
    requires { (q_stop_left stop.now).next_address [] ≡ Some (address_of first.now) }
    ensures { Leaves (q_stop_left stop.now) first.now (words_sent table.entry) result }
{
    let most = stop.cycles();
    let table = words_from(table, stop.tally());
    TransferLeft {
        mode: TransferMode::QStop,
        first: *first,
        last: command_address(first),
        cycles: most,
        words: most,
        table,
    }
}

// What is left of Q-repeat.
fn repeat_left<'a>(
    first: &Command,
    table: Option<&'a [Word24]>,
    repeat: &QRepeat,
) -> TransferLeft<'a>
    requires { (q_repeat_left repeat.now).next_address [] ≡ Some (address_of first.now) }
    ensures { Leaves (q_repeat_left repeat.now) first.now (words_sent table.entry) result }
{
    let cycles = repeat.cycles();
    let words = repeat.words();
    let table = words_from(table, repeat.tally());
    TransferLeft {
        mode: TransferMode::QRepeat,
        first: *first,
        last: command_address(first),
        cycles,
        words,
        table,
    }
}

// What is left of a scan.
fn scan_left<'a>(first: &Command, table: Option<&'a [Word24]>, scan: &Scan) -> TransferLeft<'a>
    requires { (scan_left scan.now).next_address [] ≡ Some (address_of first.now) }
    ensures { Leaves (scan_left scan.now) first.now (words_sent table.entry) result }
{
    let last = scan.last();
    let cycles = window(&command_address(first), &last);
    let words = scan.words();
    let table = words_from(table, scan.tally());
    TransferLeft {
        mode: TransferMode::Scan,
        first: *first,
        last,
        cycles,
        words,
        table,
    }
}

/// What is left of a transfer.
pub fn left_of<'a>(transfer: &TransferCycle<'a>) -> TransferLeft<'a>
    requires { (left_at transfer.now.course).next_address [] ≡ Some (address_of transfer.now.command) }
    ensures { Leaves (left_at transfer.now.course) transfer.now.command (words_sent transfer.now.table) result }
{
    match &transfer.course {
        Course::Stop(stop) => stop_left(&transfer.command, transfer.table, stop),
        Course::Repeat(repeat) => repeat_left(&transfer.command, transfer.table, repeat),
        Course::Scan(scan) => scan_left(&transfer.command, transfer.table, scan),
    }
}
