// A run over a whole list of answers.

ghost use Rattle.std.specs.Prelude.{◌≡◌, ◌<◌, ◌≤◌, ◌++◌, length, true, false, IfOk, OnOk, IfSome, []};
ghost use Rattle.camac_event.specs.Spelling.{spelling};
ghost use Rattle.camac_event.specs.declared.event.Version.TheVariants.{Two};
ghost use Rattle.camac_run.specs.Ends.{stop_in};
ghost use Rattle.camac_run.specs.Headline.{Headline};
ghost use Rattle.camac_run.specs.Log.{IsLogOf, left_entries, unlock_items};
ghost use Rattle.camac_model.specs.Behaviour.{items, events, stop_of};
ghost use Rattle.camac_model.specs.Run.{the_run};
ghost use Rattle.camac_machine.specs.Rest.{is_paused};
ghost use Rattle.camac_run.specs.Runner.{rest};

use crate::items::Items;
use crate::laws::runs_by_headline;
use crate::progress::{End, Progress};
use crate::runner::FullRunner;
use camac_branch::Answer;
use camac_event::{Events, Usage, Version};
use camac_machine::Item;
use camac_rules::Checked;
use camac_word::{CrateNo, GlBit, Word24};
use std::alloc::{AllocError, Global};

/// What a run did: its items in their order, its events as a list of version Two, and how it ended.
#[derive(Drop)]
pub struct Log {
    pub items: Items,
    pub events: Events,
    pub end: End,
}

/// Runs a checked script on at most 1,000,000 answers. The log has each item and each event, and how the run ended: at a graded-L
/// operation (`Ended`), inside a service (`Short`), which then leaves no event, or at a wait that is not permitted (`Overrun`). The error
/// is out of memory.
pub fn run(alloc: Global, checked: &Checked, answers: &[Answer]) -> Result<Log, AllocError>
    requires answers { length answers.now ≤ 1000000 }
    ensures log { IfOk result (λ log. IsLogOf log (the_run checked.now.plan checked.now.script answers.now)) }
    ensures headline { IfOk result (λ log. Headline checked.now.plan checked.now.script checked.now.bounds answers.now
        (spelling log.events.version log.events.events)) }
{
    runs_by_headline(checked);
    checked.fits_greatest();
    let mut runner = FullRunner::start(checked);
    let mut items = Items::new(alloc);
    let mut events = Events::new(alloc, Version::Two);
    'answers: for answer in answers {
        match runner.next(*answer) {
            Progress::Went {
                item,
                unlocks,
                event,
            } => {
                items.push(item)?;
                add_unlocks(&mut items, &unlocks)?;
                add_event(&mut events, &event, runner.last_words())?;
            }
            Progress::Overrun(overrun) => {
                return Ok(Log {
                    items,
                    events,
                    end: End::Overrun(overrun),
                });
            }
        }
    }
    let end = end_of(&runner);
    Ok(Log { items, events, end })
}

// The crates whose lockout was released.
fn add_unlocks(items: &mut Items, unlocks: &[CrateNo]) -> Result<(), AllocError>
    ensures { OnOk result (items.new ≡ items.old ++ unlock_items unlocks.now) }
{
    match unlocks {
        [] => Ok(()),
        [crate_no, rest @ ..] => {
            items.push(Item::Unlock(*crate_no))?;
            add_unlocks(items, rest)
        }
    }
}

// The event that a service left, where one did.
fn add_event(
    events: &mut Events,
    event: &Option<(u32, GlBit, Usage)>,
    words: &[Word24],
) -> Result<(), AllocError>
    requires version { events.old.version ≡ Two }
    requires room { length events.old.events < 1000000 }
    requires words { length words.now ≤ 4096 }
    requires usage { IfSome event.now (λ e. e.2.missed ≤ e.2.cycles) }
    ensures { OnOk result (events.new ≡ record { version = Two; events = events.old.events ++ left_entries event.now words.now }) }
{
    match event {
        Some((_, bit, usage)) => events.append(*bit, Some(*usage), words),
        None => Ok(()),
    }
}

// How a run ends where no answer is left.
fn end_of(runner: &FullRunner<'_>) -> End
    requires { is_paused runner.now.pending ≡ false }
    ensures stop { stop_in result ≡ stop_of (rest runner.now []) }
    ensures quiet_items { items (rest runner.now []) ≡ [] }
    ensures quiet_events { events (rest runner.now []) ≡ [] }
{
    if runner.in_service() {
        End::Short
    } else {
        End::Ended
    }
}
