// The reader and both writers of a run, as one value.

ghost use Rattle.std.specs.Prelude.{◌≡◌, ◌≤◌, ◌<◌, ◌||◌, ◌++◌, ◌∷◌, [], true, false, length, take, is_err, IfOk};
ghost use Rattle.std.specs.Io.KnownBytes.{Consumes, IsAtEnd};
ghost use Rattle.camac_answer.specs.Answers.{IsOpen};
ghost use Rattle.camac_answer.specs.Lines.{first_line, IsNoMore};
ghost use Rattle.camac_event.specs.Spelling.{header, record_of};
ghost use Rattle.camac_event.specs.declared.event.Version.TheVariants.{Two};
ghost use Rattle.camac_report.specs.Items.{item_text, unlock_texts};
ghost use Rattle.camac_machine.specs.MachineState.{piece_of};
ghost use Rattle.camac_play.specs.Play.{is_read_fault, is_write_fault};
ghost use Rattle.camac_play.specs.RunIo.{RunState, OnlyLists, OnlyReads, OnlyRecords};
ghost use Rattle.camac_word.specs.Watched.{inner_of, has_failed};
ghost use Rattle.camac_word.specs.Writing.{Writes};

use crate::fault::PlayFault;
use camac_answer::fill;
use camac_event::{Usage, write_header, write_record};
use camac_report::{Line, write_items};
use camac_rules::Checked;
use camac_run::Item;
use camac_word::{CrateNo, GlBit, Watched, Word24, WriteFault};
use std::io::{Read, Write};

/// The reader and both writers of a run.
pub trait RunIo {
    ghost state: { Self → RunState };

    /// Fills the line with so many bytes as it has, or those up to the piece that has an LF, or all that are left, and tells how many they
    /// are; of what follows the line `abandon` nothing. Of what is held all is handed on before an answer is waited for; a write fault is one in that, and then nothing was read.
    fn read_line(&mut self, line: &mut [u8]) -> Result<usize, PlayFault>
        ensures within { IfOk result (λ n. n ≤ length line.old) }
        ensures len { length line.new ≡ length line.old }
        ensures bytes { IfOk result (λ n. Consumes (state self.old).remaining (state self.new).remaining (take n line.new)) }
        ensures short { IfOk result (λ n. n < length line.old → n ≤ length (first_line (take n line.new)) → IsAtEnd (state self.new).remaining) }
        ensures no_more { IfOk result (λ n. IsNoMore line.new n) }
        ensures open { is_read_fault result ≡ true → IsOpen (length line.old) (state self.old).remaining (state self.new).remaining }
        ensures unread { is_write_fault result ≡ true → (state self.new).remaining ≡ (state self.old).remaining }
        ensures holding { is_write_fault result ≡ true → (state self.old).gathers ≡ true }
        ensures only { OnlyReads (state self.old) (state self.new) (is_write_fault result) (is_read_fault result) };

    /// Is shown the line of answers that is refused.
    fn see_refused(&mut self, _line: &[u8])
        ensures { state self.new ≡ state self.old }
    {}

    /// Lists what the line holds. After a write fault a prefix of it was.
    fn list_line(&mut self, line: &Line) -> Result<(), WriteFault>
        ensures text { Writes (state self.old).listed (state self.new).listed result line.now }
        ensures only { OnlyLists (state self.old) (state self.new) (is_err result) };

    /// Lists the line of an item, and a line for each crate, at most seven, whose lockout was released after it.
    fn list_items(
        &mut self,
        checked: &Checked,
        item: &Item,
        unlocks: &[CrateNo],
    ) -> Result<(), WriteFault>
        requires { length unlocks.now ≤ 7 }
        ensures text { Writes (state self.old).listed (state self.new).listed result (item_text checked.now.script (piece_of item.now) ++ unlock_texts unlocks.now) }
        ensures only { OnlyLists (state self.old) (state self.new) (is_err result) };

    /// Records the header of an event file.
    fn record_header(&mut self) -> Result<(), WriteFault>
        ensures text { Writes (state self.old).recorded (state self.new).recorded result (header Two) }
        ensures only { OnlyRecords (state self.old) (state self.new) (is_err result) };

    /// Records an event, at most 4,096 words, under its number.
    fn record_event(
        &mut self,
        number: u32,
        gl: GlBit,
        usage: Usage,
        words: &[Word24],
    ) -> Result<(), WriteFault>
        requires words { length words.now ≤ 4096 }
        requires usage { usage.missed ≤ usage.cycles }
        ensures text { Writes (state self.old).recorded (state self.new).recorded result (record_of number (record { gl = gl; usage = Some usage; words = words.now })) }
        ensures only { OnlyRecords (state self.old) (state self.new) (is_err result) };
}

/// Three streams that are borrowed. Nothing is held.
#[derive(Drop)]
pub struct Borrowed<'r, 'l, 'e, R, L, E> {
    pub answers: &'r mut Watched<R>,
    pub out: &'l mut Watched<L>,
    pub events: &'e mut Watched<E>,
}

impl<R: Read, L: Write, E: Write> RunIo for Borrowed<'_, '_, '_, R, L, E> {
    ghost state = { λ b. record {
      remaining = R.remaining (inner_of b.answers.now);
      listed = L.contents (inner_of b.out.now);
      recorded = E.contents (inner_of b.events.now);
      read_failed = has_failed b.answers.now;
      write_failed = has_failed b.out.now || has_failed b.events.now;
      gathers = false;
      names = b.answers.ghost_name ∷ b.out.ghost_name ∷ b.events.ghost_name ∷ [];
    } };

    fn read_line(&mut self, line: &mut [u8]) -> Result<usize, PlayFault> {
        match fill(self.answers, line) {
            Ok(len) => Ok(len),
            Err(_) => Err(PlayFault::Read),
        }
    }

    fn list_line(&mut self, line: &Line) -> Result<(), WriteFault> {
        self.out.write_text(line.as_bytes())
    }

    fn list_items(
        &mut self,
        checked: &Checked,
        item: &Item,
        unlocks: &[CrateNo],
    ) -> Result<(), WriteFault> {
        write_items(self.out, checked, item, unlocks)
    }

    fn record_header(&mut self) -> Result<(), WriteFault> {
        write_header(self.events)
    }

    fn record_event(
        &mut self,
        number: u32,
        gl: GlBit,
        usage: Usage,
        words: &[Word24],
    ) -> Result<(), WriteFault> {
        write_record(self.events, number, gl, usage, words)
    }
}
