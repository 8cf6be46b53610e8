// The streams of a run: its answers, its listing and its event file.

ghost use Rattle.std.specs.Prelude.{◌≡◌, ◌⊎◌, ◌≤◌, ◌<◌, ◌||◌, [], true, false, length, take, OnOk, IfOk, IfErr, is_err};
ghost use Rattle.std.specs.Io.KnownBytes.{Keeps, Consumes, IsAtEnd};
ghost use Rattle.camac_answer.specs.Answers.{IsOpen};
ghost use Rattle.camac_answer.specs.Lines.{first_line, IsNoMore};
ghost use Rattle.camac_tool_host.specs.Streams.{HoldNothing, answers_of, before, behind, device_of, given_to, has_stopped, have_stopped, left_ahead, listing_of, records_of, run_state};
ghost use Rattle.camac_play.specs.Play.{is_read_fault, is_write_fault};

use crate::ahead::Ahead;
use crate::answer_line::AnswerLine;
use crate::device::Device;
use crate::gathered::Gathered;
use camac_answer::{TextReader, fill};
use camac_event::{Usage, write_record};
use camac_play::{PlayFault, RunIo};
use camac_report::Line;
use camac_rules::Checked;
use camac_run::Item;
use camac_word::{CrateNo, GlBit, Word24, WriteFault};
use std::alloc::Global;
use std::io::Write;

/// The answers of a run, which are read ahead, the line of them that is refused, and its listing and its event file, each gathered but the
/// header. Once a call of one output has failed, both are left alone, and each later call fails.
#[derive(Drop)]
pub struct Streams<R: Drop, W: Drop, E: Drop> {
    answers: Ahead<R>,
    listing: Gathered<W>,
    records: Gathered<E>,
    refused: Option<AnswerLine>,
}

impl<R: TextReader + Drop, W: Device + Drop, E: Device + Drop> Streams<R, W, E> {
    /// Whether a call of either output has failed so far.
    pub fn failed(&self) -> bool
        ensures { result ≡ have_stopped W.failed E.failed self.now }
    {
        self.listing.failed() || self.records.failed()
    }
}

impl<R: TextReader + Drop, W: Device + Drop, E: Device + Drop> Streams<R, W, E> {
    /// Nothing was read yet, and nothing is held. Where memory is out all three come back.
    pub fn new(
        alloc: Global,
        answers: R,
        listing: W,
        records: E,
    ) -> Result<Streams<R, W, E>, (R, W, E)>
        ensures works { IfOk result (λ s. run_state R.remaining R.failed W.contents W.failed E.contents E.failed s ≡ before (R.remaining answers) (W.contents listing) (E.contents records) (R.failed answers) (W.failed listing || E.failed records)) }
        ensures memory { IfErr result (λ same. (same.0 ≡ answers) × (same.1 ≡ listing) × (same.2 ≡ records)) }
    {
        let answers = match Ahead::new(alloc, answers) {
            Ok(answers) => answers,
            Err(answers) => return Err((answers, listing, records)),
        };
        let listing = match Gathered::new(alloc, listing) {
            Ok(listing) => listing,
            Err(listing) => return Err((answers.into_inner(), listing, records)),
        };
        match Gathered::new(alloc, records) {
            Ok(records) => Ok(Streams {
                answers,
                listing,
                records,
                refused: None,
            }),
            Err(records) => Err((answers.into_inner(), listing.into_inner(), records)),
        }
    }

    /// Hands on all that was given, first the listing.
    pub fn hand_on(&mut self) -> Result<(), WriteFault>
        ensures empty { OnOk result (HoldNothing self.new) }
        ensures answers { answers_of self.new ≡ answers_of self.old }
        ensures listing { Keeps (given_to W.contents (listing_of self.old)) (given_to W.contents (listing_of self.new)) }
        ensures records { Keeps (given_to E.contents (records_of self.old)) (given_to E.contents (records_of self.new)) }
        ensures order { has_stopped W.failed (listing_of self.new) ≡ true → records_of self.new ≡ records_of self.old }
        ensures failed { have_stopped W.failed E.failed self.new ≡ (have_stopped W.failed E.failed self.old || is_err result) }
        ensures stopped { have_stopped W.failed E.failed self.old ≡ true → (is_err result ≡ true) × (self.new ≡ self.old) }
    {
        if self.failed() || self.listing.flush().is_err() || self.records.flush().is_err() {
            return Err(WriteFault);
        }
        Ok(())
    }

    /// The reader of the answers, both outputs, and the line of answers that was refused. What was read ahead and what is still held is lost.
    pub fn into_parts(self) -> (R, W, E, Option<AnswerLine>)
        ensures answers { result.0 ≡ behind (answers_of self) }
        ensures listing { result.1 ≡ device_of (listing_of self) }
        ensures records { result.2 ≡ device_of (records_of self) }
    {
        (
            self.answers.into_inner(),
            self.listing.into_inner(),
            self.records.into_inner(),
            self.refused,
        )
    }

    /// Gives the bytes of a line. A line that was read ahead is given at once. Else all that was given to the outputs is handed on, and only
    /// then the reader behind is read; where that fails nothing is read.
    pub fn fill_line(&mut self, line: &mut [u8]) -> Result<usize, PlayFault>
        ensures first { is_write_fault result ≡ false → (behind (answers_of self.new) ≡ behind (answers_of self.old)) ⊎ HoldNothing self.new }
        ensures within { IfOk result (λ n. n ≤ length line.old) }
        ensures len { length line.new ≡ length line.old }
        ensures bytes { IfOk result (λ n. Consumes (left_ahead R.remaining (answers_of self.old)) (left_ahead R.remaining (answers_of self.new)) (take n line.new)) }
        ensures short { IfOk result (λ n. n < length line.old → n ≤ length (first_line (take n line.new)) → IsAtEnd (left_ahead R.remaining (answers_of self.new))) }
        ensures no_more { IfOk result (λ n. IsNoMore line.new n) }
        ensures open { is_read_fault result ≡ true → IsOpen (length line.old) (left_ahead R.remaining (answers_of self.old)) (left_ahead R.remaining (answers_of self.new)) }
        ensures unread { is_write_fault result ≡ true → answers_of self.new ≡ answers_of self.old }
        ensures listing { Keeps (given_to W.contents (listing_of self.old)) (given_to W.contents (listing_of self.new)) }
        ensures records { Keeps (given_to E.contents (records_of self.old)) (given_to E.contents (records_of self.new)) }
        ensures in_failed { R.failed (behind (answers_of self.new)) ≡ (R.failed (behind (answers_of self.old)) || is_read_fault result) }
        ensures out_failed { have_stopped W.failed E.failed self.new ≡ (have_stopped W.failed E.failed self.old || is_write_fault result) }
    {
        if self.answers.take_line(line) {
            return Ok(line.len());
        }
        if self.hand_on().is_err() {
            return Err(PlayFault::Write);
        }
        match fill(&mut self.answers, line) {
            Ok(len) => Ok(len),
            Err(_) => Err(PlayFault::Read),
        }
    }
}

impl<R: TextReader + Drop, W: Device + Drop, E: Device + Drop> RunIo for Streams<R, W, E> {
    ghost state = { run_state R.remaining R.failed W.contents W.failed E.contents E.failed };

    #[inline(always)]
    fn read_line(&mut self, line: &mut [u8]) -> Result<usize, PlayFault> {
        self.fill_line(line)
    }

    fn see_refused(&mut self, line: &[u8]) {
        self.refused = Some(AnswerLine::new(line));
    }

    fn list_line(&mut self, line: &Line) -> Result<(), WriteFault> {
        if line.len() == 0 {
            return Ok(());
        }
        if self.failed() {
            return Err(WriteFault);
        }
        self.listing.put_line(line)
    }

    #[inline(always)]
    fn list_items(
        &mut self,
        checked: &Checked,
        item: &Item,
        unlocks: &[CrateNo],
    ) -> Result<(), WriteFault> {
        if self.failed() {
            return Err(WriteFault);
        }
        self.listing.put_items(checked, item, unlocks)
    }

    fn record_header(&mut self) -> Result<(), WriteFault> {
        if self.failed() {
            return Err(WriteFault);
        }
        self.records.put_header()
    }

    fn record_event(
        &mut self,
        number: u32,
        gl: GlBit,
        usage: Usage,
        words: &[Word24],
    ) -> Result<(), WriteFault> {
        if self.failed() {
            return Err(WriteFault);
        }
        write_record(&mut self.records, number, gl, usage, words)
    }
}
