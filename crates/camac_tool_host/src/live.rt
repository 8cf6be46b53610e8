// The streams of a live run.

ghost use Rattle.std.specs.Prelude.{◌||◌, false, []};

use crate::device::{Device, Whole};
use camac_answer::{TextReader, fill};
use camac_event::{TextWriter, Usage, write_header, write_record};
use camac_play::{PlayFault, RunIo};
use camac_report::{LONGEST_LINE, Line, items_in};
use camac_rules::Checked;
use camac_run::Item;
use camac_word::{CrateNo, GlBit, Word24, WriteFault};

/// Its answers, its requests and its event file. Nothing is held, and nothing is read ahead.
#[derive(Drop)]
pub struct Live<R: Drop, L: Drop, E: Drop> {
    pub answers: R,
    pub requests: Whole<L>,
    pub records: Whole<E>,
}

impl<R: TextReader + Drop, L: Device + Drop, E: Device + Drop> RunIo for Live<R, L, E> {
    ghost state = { λ s. record {
      remaining = R.remaining s.answers;
      listed = L.contents s.requests.0;
      recorded = E.contents s.records.0;
      read_failed = R.failed s.answers;
      write_failed = L.failed s.requests.0 || E.failed s.records.0;
      gathers = false;
      names = [];
    } };

    fn read_line(&mut self, line: &mut [u8]) -> Result<usize, PlayFault> {
        match fill(&mut self.answers, line) {
            Ok(len) => Ok(len),
            Err(_) => Err(PlayFault::Read),
        }
    }

    fn list_line(&mut self, line: &Line) -> Result<(), WriteFault> {
        self.requests.put_text(line.as_bytes())
    }

    fn list_items(
        &mut self,
        checked: &Checked,
        item: &Item,
        unlocks: &[CrateNo],
    ) -> Result<(), WriteFault> {
        let mut lines = [0; LONGEST_LINE];
        let end = items_in(&mut lines, 0, checked, item, unlocks);
        self.requests.put_text(&lines[..end])
    }

    fn record_header(&mut self) -> Result<(), WriteFault> {
        write_header(&mut self.records)
    }

    fn record_event(
        &mut self,
        number: u32,
        gl: GlBit,
        usage: Usage,
        words: &[Word24],
    ) -> Result<(), WriteFault> {
        write_record(&mut self.records, number, gl, usage, words)
    }
}
