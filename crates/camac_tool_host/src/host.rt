// What the program wants of its system: the inputs that words name, and EVENTS.

ghost use Rattle.std.specs.Prelude.{◌≡◌, ◌<◌, Bool, true, IfOk, OnErr, List, ℕ, None, Option, Some, length, ⊤};
ghost use Rattle.std.specs.Io.{ReadsAtMost, WritesAtMost};
ghost use Rattle.std.specs.Io.KnownBytes.{Keeps, ReadConsumes, WriteAppends};
ghost use Rattle.camac_tool_host.specs.Apart.{IsApartFrom, Opens, Words, words_of};
ghost use Rattle.camac_tool_host.specs.declared.host.FileId.{FileId};
ghost use Rattle.camac_word.specs.Watched.{is_write_failure};

use std::fmt::Display;
use std::io;

/// By what the system knows a file: its device, and its number there.
#[derive(Clone, Copy, PartialEq, Eq)]
pub struct FileId {
    pub device: u64,
    pub number: u64,
}

/// What becomes of an EVENTS that holds bytes. It is emptied only if it is an event file.
#[derive(Clone, Copy, PartialEq, Eq)]
pub enum Earlier {
    Emptied,
    Refused,
}

/// The words of a run, and what becomes of an EVENTS that holds bytes.
#[derive(Drop)]
pub struct RunWords<'a> {
    pub plan: &'a str,
    pub script: &'a str,
    pub answers: &'a str,
    pub events: &'a str,
    pub earlier: Earlier,
}

impl<'a> RunWords<'a> {
    pub fn new(
        plan: &'a str,
        script: &'a str,
        answers: &'a str,
        events: &'a str,
        earlier: Earlier,
    ) -> RunWords<'a>
        ensures { words_of result ≡ record { plan = plan.now; script = script.now; answers = answers.now; events = events.now; earlier = earlier } }
    {
        RunWords {
            plan,
            script,
            answers,
            events,
            earlier,
        }
    }
}

/// The system that the program is run on. All that the program does with files and standard input it does by this, and so it tells its help.
pub trait Host {
    type Places: Drop;

    type Input: Drop;

    /// EVENTS, which is opened and emptied before its first byte.
    type Events: Drop;

    /// Of each word the bytes of the input that it names, where they are known.
    ghost bytes_of: { Self → List ℕ → Option (List ℕ) } = { λ _ _. None };

    /// What an input has left to read, where its bytes are known.
    ghost left: { Self.Input → Option (List ℕ) } = { λ _. None };

    /// Which file was found under a name: none, if there is none that can be the same as another.
    ghost finds: { Self → List ℕ → Option FileId → Type 0 } = { λ _ _ _. ⊤ };

    /// Which file an input reads.
    ghost reads: { Self → Self.Input → FileId → Type 0 } = { λ _ _ _. ⊤ };

    /// What was written to EVENTS, where the bytes of files are known.
    ghost holds: { Self.Events → Option (List ℕ) } = { λ _. None };

    /// This EVENTS was made for the words.
    ghost made: { Self → Words → Self.Events → Bool } = { λ _ _ _. true };

    /// The EVENTS that was made for the words is on its disk, and holds this.
    ghost saved: { Self → Words → Option (List ℕ) → Bool } = { λ _ _ _. true };

    /// Whether a call of it fails.
    ghost fails: { Self → Bool } = { λ _. true };

    /// Takes the places of standard streams that are closed, for as long as the result lives.
    fn hold_places(&self) -> io::Result<Self::Places>
        ensures { OnErr result (fails self.now ≡ true) };

    /// The input that a word names: `@in` is standard input, and any other word a file.
    fn open(&self, word: &str) -> io::Result<Self::Input>
        ensures bytes { IfOk result (λ input. Keeps (bytes_of self.now word.now) (left input)) }
        ensures file { IfOk result (λ input. Opens (finds self.now) (reads self.now input) word.now) }
        ensures fails { OnErr result (fails self.now ≡ true) };

    /// Reads what an input has next, as `read` does.
    fn read(&self, input: &mut Self::Input, buf: &mut [u8]) -> io::Result<usize>
        ensures bound { ReadsAtMost result buf.new }
        ensures bytes { ReadConsumes (left input.old) (left input.new) result buf.new }
        ensures fails { OnErr result (fails self.now ≡ true) };

    /// Writes bytes to EVENTS, as `write` does. Before the first it is made: opened, and emptied. The words' files were compared before. It has
    /// failed also where it took nothing.
    fn put(
        &self,
        events: &mut Self::Events,
        words: &RunWords<'_>,
        bytes: &[u8],
    ) -> io::Result<usize>
        requires apart { ∥ IsApartFrom (finds self.now) (words_of words.now) ∥₁ }
        requires some { 0 < length bytes.now }
        ensures made { IfOk result (λ _. made self.now (words_of words.now) events.new ≡ true) }
        ensures remains { (w : Words) → made self.now w events.old ≡ true → made self.now w events.new ≡ true }
        ensures bound { WritesAtMost result bytes.now }
        ensures bytes { WriteAppends (holds events.old) (holds events.new) result bytes.now }
        ensures same { OnErr result (holds events.new ≡ holds events.old) }
        ensures fails { is_write_failure result bytes.now ≡ true → fails self.now ≡ true };

    /// Waits until EVENTS is on its disk, where it was made, and is a regular file.
    fn sync(&self, events: &Self::Events) -> io::Result<()>
        ensures saved { IfOk result (λ _. (w : Words) → made self.now w events.now ≡ true → saved self.now w (holds events.now) ≡ true) }
        ensures fails { OnErr result (fails self.now ≡ true) };

    /// The file of a name, if there is one that can be the same as another.
    fn find(&self, name: &str) -> io::Result<Option<FileId>>
        ensures found { IfOk result (finds self.now name.now) }
        ensures fails { OnErr result (fails self.now ≡ true) };

    /// The file of a name.
    fn id_at(&self, name: &str) -> io::Result<FileId>
        ensures found { IfOk result (λ file. finds self.now name.now (Some file)) }
        ensures fails { OnErr result (fails self.now ≡ true) };

    /// The file that an input reads.
    fn id_of(&self, input: &Self::Input) -> io::Result<FileId>
        ensures file { IfOk result (reads self.now input.now) }
        ensures fails { OnErr result (fails self.now ≡ true) };

    /// Prints a text to standard output.
    fn print_text<D: Display + Drop>(&self, text: D) -> io::Result<()>
        ensures fails { OnErr result (fails self.now ≡ true) };
}
