// Pauses: a service makes no more than so many steps at once.

ghost use Rattle.std.specs.Prelude.{◌≡◌, ◌+◌, ◌≤◌, [], List, None, Some};
ghost use Rattle.camac_branch.specs.Branch.{Answer};
ghost use Rattle.camac_model.specs.Behaviour.{ends};
ghost use Rattle.camac_machine.specs.MachineState.{stands, IsFineHere, HasRoom, PausesAfter, Settles};

use crate::machine::{Machine, NO_PAUSE, Pending, wait_for_none};

// Says that it pauses.
#[inline(never)]
fn pause(pending: &mut Option<Pending<'_>>)
    ensures { pending.new ≡ Some Pending.Pause }
{
    *pending = Some(Pending::Pause);
}

impl<'a, const V: usize, const DEPTH: usize, const CAP: usize> Machine<'a, V, DEPTH, CAP> {
    // Goes on until an answer is wanted, or the service is over. It pauses after more than so many steps. A call for each answer would cost a run some 3%.
    #[inline(always)]
    pub(crate) fn settle(&mut self, pending: &mut Option<Pending<'a>>, most: u32)
        requires room { HasRoom self.old }
        requires quiet { self.old.unlocks.items ≡ [] }
        requires fine { (answers : List Answer) → IsFineHere self.old (stands None self.old answers) }
        ensures settles { Settles self.old (λ c. ends) pending.new self.new }
        ensures pauses { PausesAfter self.old.steps most pending.new self.new }
        ensures soon { self.new.steps ≤ self.old.steps + most + 2 }
    {
        if most == NO_PAUSE {
            self.settle_at_once(pending);
        } else {
            self.settle_within(pending, most);
        }
    }

    // The same with a limit. It is a loop of its own, since a test at each move would cost a run without one some 3%.
    #[inline(never)]
    fn settle_within(&mut self, pending: &mut Option<Pending<'a>>, most: u32)
        requires room { HasRoom self.old }
        requires quiet { self.old.unlocks.items ≡ [] }
        requires fine { (answers : List Answer) → IsFineHere self.old (stands None self.old answers) }
        ensures settles { Settles self.old (λ c. ends) pending.new self.new }
        ensures pauses { PausesAfter self.old.steps most pending.new self.new }
        ensures soon { self.new.steps ≤ self.old.steps + most + 2 }
    {
        let end = self.steps.saturating_add(most);
        while !self.frames.is_empty() {
            if self.steps > end {
                return pause(pending);
            }
            if self.go_on(pending) {
                return;
            }
        }
        wait_for_none(pending);
    }
}
