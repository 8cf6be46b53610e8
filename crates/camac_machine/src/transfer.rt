// A transfer in progress.

ghost use Rattle.std.specs.Prelude.{◌≡◌, ◌<◌, ◌^◌, [], Some, IsSome, IfSome, option_map};
ghost use Rattle.camac_esone.specs.Calls.{IsOnBranch};
ghost use Rattle.camac_esone.specs.Progress.{Continues};
ghost use Rattle.camac_machine.specs.Course.{left_at, data_of, stays, words_sent};
ghost use Rattle.camac_machine.specs.Rest.{address_of};

use crate::command::command;
use camac_branch::Command;
use camac_esone::{Address, QRepeat, QStop, Scan};
use camac_func::DataMove;
use camac_word::{Function, Word24};

/// How far a transfer is: the smaller one that is left, and no list of the Q that came before.
#[derive(Clone, Copy)]
pub enum Course {
    /// Q-stop.
    Stop(QStop),
    /// Q-repeat.
    Repeat(QRepeat),
    /// The address scan.
    Scan(Scan),
}

impl Course {
    // Where the next cycle goes, or none at the end.
    pub(crate) fn next(&self) -> Option<Address>
        ensures { result ≡ (left_at self.now).next_address [] }
    {
        match self {
            Course::Stop(stop) => stop.next(),
            Course::Repeat(repeat) => repeat.next(),
            Course::Scan(scan) => scan.next(),
        }
    }

    // Whether all its cycles go to one address.
    pub(crate) fn stays(&self) -> bool
        ensures { result ≡ stays self.now }
    {
        match self {
            Course::Stop(_) => true,
            Course::Repeat(_) => true,
            Course::Scan(_) => false,
        }
    }

    // Takes the Q of the cycle that `next` asked for.
    pub(crate) fn take(&mut self, q: bool)
        requires { IsSome ((left_at self.old).next_address []) }
        ensures { Continues (left_at self.old) q (left_at self.new) }
    {
        match self {
            Course::Stop(stop) => stop.take(q),
            Course::Repeat(repeat) => repeat.take(q),
            Course::Scan(scan) => scan.take(q),
        }
    }

    // How many cycles had Q=1.
    pub(crate) fn tally(&self) -> u32
        ensures { result ≡ (left_at self.now).tally }
    {
        match self {
            Course::Stop(stop) => stop.tally(),
            Course::Repeat(repeat) => repeat.tally(),
            Course::Scan(scan) => scan.tally(),
        }
    }

    // The number of the table word that the next cycle sends, from 0.
    fn index(&self) -> usize
        ensures value { result ≡ (left_at self.now).tally }
        ensures in_range { result < 2 ^ 32 }
    {
        self.tally() as usize
    }

    // The command of the next cycle, with this function and the words of the table that are sent, or none at the end.
    pub(crate) fn command(&self, function: Function, table: Option<&[Word24]>) -> Option<Command>
        requires at { IfSome ((left_at self.now).next_address []) IsOnBranch }
        requires data { IfSome ((left_at self.now).next_address []) (λ at. IsSome (data_of self.now (words_sent table))) }
        ensures next_address { (left_at self.now).next_address [] ≡ option_map address_of result }
        ensures moves { IfSome result (λ k. (data_of self.now (words_sent table.entry) ≡ Some k.mv) × (k.f ≡ function)) }
    {
        match self.next() {
            None => None,
            Some(at) => Some(command(at, function, self.data(table))),
        }
    }

    // What the next cycle moves.
    pub(crate) fn data(&self, table: Option<&[Word24]>) -> DataMove
        requires { IsSome (data_of self.now (words_sent table)) }
        ensures { data_of self.now (words_sent table.entry) ≡ Some result }
    {
        match table {
            None => DataMove::In,
            Some(words) => DataMove::Out(words[self.index()]),
        }
    }
}

/// A transfer in progress.
#[derive(Clone, Copy)]
pub struct Transfer<'a> {
    pub course: Course,
    pub function: Function,
    /// The words of the table that it sends; a read sends none.
    pub table: Option<&'a [Word24]>,
    /// The variable that is set to the tally at the end.
    pub tally: usize,
}
