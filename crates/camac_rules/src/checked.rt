// A checked script.

ghost use Rattle.std.specs.Prelude.{◌≡◌, ◌<◌, length, Some, slice_get};
ghost use Rattle.camac_names.specs.Linked.{IsLinked, bit_of_service};
ghost use Rattle.camac_rules.specs.Checked.{linked_of, checked_with, IsChecked};

use camac_branch::Plan;
use camac_lang::Script;
use camac_names::Linked;
use camac_word::GlBit;
use std::marker::Model;

/// The most that a service can need: dataway cycles (those of auxiliary controllers before them included), words of its event, steps.
#[derive(Clone, Copy, Debug, PartialEq, Eq)]
pub struct Bounds {
    pub cycles: u32,
    pub words: u32,
    pub steps: u32,
}

impl Model for Bounds {
    ghost use Rattle.camac_model.specs.Fine.{Bounds as Numbers};

    ghost Value = { Numbers };

    ghost view = { λ b. record { cycles = b.cycles; words = b.words; steps = b.steps } };

    ghost inverse = { λ n. record { cycles = n.cycles; words = n.words; steps = n.steps } };
}

/// A linked script that is accepted, and the bounds of each of its services. Whatever the branch answers: each cycle of its runs is safe,
/// each number that an expression takes is 0 to `u32::MAX`, and its loops end. Each service stays within its bounds, and these are within
/// its heading.
#[derive(Drop)]
pub struct Checked {
    linked: Linked,
    bounds: Vec<Bounds>,
}

impl Model for Checked {
    ghost use Rattle.camac_rules.specs.Checked.{CheckedScript, checked_coded, IsChecked};

    ghost Value = { CheckedScript };

    ghost coded = { checked_coded };

    ghost view = { λ c. record { plan = c.linked.plan; script = c.linked.script; bounds = c.bounds.items } };

    ghost invariant = { λ c. IsChecked (record { plan = c.linked.plan; script = c.linked.script; bounds = c.bounds.items }) };
}

impl Checked {
    /// A linked script with the bounds of its services, of which the headline holds: `camac_check::check` is what finds them.
    pub fn new(linked: Linked, bounds: Vec<Bounds>) -> Checked
        requires { IsChecked (checked_with linked bounds.items) }
        ensures { result ≡ checked_with linked bounds.items }
    {
        Checked { linked, bounds }
    }

    /// The script.
    pub fn script(&self) -> &Script
        ensures { result.now ≡ self.now.script }
    {
        self.linked.script()
    }

    /// The plan that it is linked to.
    pub fn plan(&self) -> &Plan
        ensures { result.now ≡ self.now.plan }
    {
        self.linked.plan()
    }

    /// The number of services.
    pub fn services(&self) -> usize
        ensures services { result ≡ length self.now.script.services }
        ensures bounds { result ≡ length self.now.bounds }
    {
        self.bounds.len()
    }

    /// The bit of the graded-L pattern that calls the service of this number, from 0.
    pub fn gl(&self, i: usize) -> GlBit
        requires { i < length self.now.script.services }
        ensures { bit_of_service (linked_of self.now) i ≡ Some result }
    {
        self.linked.gl(i)
    }

    /// The bounds of the service of this number, from 0.
    pub fn bounds(&self, i: usize) -> Bounds
        requires { i < length self.now.script.services }
        ensures { slice_get self.now.bounds i ≡ Some result }
    {
        self.bounds[i]
    }

    /// The law that a checked script is linked to its plan.
    pub fn is_linked(&self)
        ensures { IsLinked (linked_of self.now) }
    {
        let _ = self.linked.script();
    }

    /// The law that what is true of each checked script is true of this one.
    pub fn is_checked(&self)
        ensures { IsChecked self.now }
    {
        let _ = &self.bounds;
    }
}
