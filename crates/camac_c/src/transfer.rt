// What is left of the transfer whose cycle a run wants.

ghost use Rattle.std.specs.Prelude.{◌≡◌, [], unwrap_or};
ghost use Rattle.camac_machine.specs.Course.{words_sent};
ghost use Rattle.camac_c.specs.Talk.{AnswersBytes, TellsTransfer};
ghost use Rattle.camac_c.specs.Transfer.{mode_in, numbers_in};
ghost use Rattle.camac_c.specs.declared.plain.SessionAsk.TheVariants as ask;

use crate::filling::write_words;
use crate::handle::Handle;
use crate::plain::{SessionAsk, Told};
use crate::service::write_numbers;
use crate::session::counted;
use camac_run::{FullRunner, TransferLeft, TransferMode};
use camac_word::Word24;
use std::alloc::Global;

/// What is left of the transfer whose cycle is wanted: its mode (1 Q-stop, 2 Q-repeat, 4 scan), the final station and sub-address, the most cycles and the
/// most words, and whether there is another cycle after the next one, if that has Q=0, and if it has Q=1; in the form of words. Returns how many numbers
/// these are: 7, or 0 where no such cycle is wanted.
#[tactic(auto, using(crate::proofs::Calls::bytes_answer))]
#[unsafe(no_mangle)]
pub extern "C" fn camac_raw_transfer(alloc: Global, handle: &mut Handle, bytes: &mut [u8]) -> usize
    ensures { AnswersBytes handle.old.value ask.Transfer handle.new.value bytes.old bytes.new result }
{
    handle.ask(alloc, SessionAsk::Transfer, bytes).count
}

/// The words that are left to write in it, as many as there is room for; the number of all.
#[tactic(auto, using(crate::proofs::Calls::bytes_answer))]
#[unsafe(no_mangle)]
pub extern "C" fn camac_raw_to_write(alloc: Global, handle: &mut Handle, bytes: &mut [u8]) -> usize
    ensures { AnswersBytes handle.old.value ask.ToWrite handle.new.value bytes.old bytes.new result }
{
    handle.ask(alloc, SessionAsk::ToWrite, bytes).count
}

/// The number of a mode.
pub fn mode_of(mode: TransferMode) -> u32
    ensures { result ≡ mode_in mode }
{
    match mode {
        TransferMode::QStop => 1,
        TransferMode::QRepeat => 2,
        TransferMode::Scan => 4,
    }
}

fn numbers_of(left: &TransferLeft) -> [u32; 7]
    ensures { result ≡ numbers_in left.now }
{
    [
        mode_of(left.mode),
        left.last.n,
        left.last.a,
        left.cycles,
        left.words,
        u32::from(left.goes_on(false)),
        u32::from(left.goes_on(true)),
    ]
}

/// What is left of the transfer whose cycle the run wants, in numbers.
pub fn tell_transfer(runner: &FullRunner, bytes: &mut [u8]) -> Told
    ensures { TellsTransfer numbers_in runner.now bytes.old bytes.new result }
{
    match runner.transfer() {
        None => counted(write_numbers(&[], bytes)),
        Some(left) => counted(write_numbers(&numbers_of(&left), bytes)),
    }
}

/// The words that are left to write in it.
pub fn tell_words_to_write(runner: &FullRunner, bytes: &mut [u8]) -> Told
    ensures { TellsTransfer (λ t. unwrap_or (words_sent t.table) []) runner.now bytes.old bytes.new result }
{
    match runner.transfer() {
        None => counted(write_words(&[], bytes)),
        Some(left) => counted(write_words(words_of(&left), bytes)),
    }
}

fn words_of<'a>(left: &TransferLeft<'a>) -> &'a [Word24]
    ensures { result.now ≡ unwrap_or (words_sent left.now.table) [] }
{
    match left.table {
        None => &[],
        Some(words) => words,
    }
}
