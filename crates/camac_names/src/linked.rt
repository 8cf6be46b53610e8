// A linked script.

ghost use Rattle.std.specs.Prelude.{◌≡◌, ◌<◌, length, Some};
ghost use Rattle.camac_names.specs.Linked.{IsLinked, bit_of_service};

use camac_branch::Plan;
use camac_lang::Script;
use camac_word::GlBit;
use std::marker::Model;

/// A script and the plan that it is linked to: each LAM is at an installed station, and each service has a graded-L bit of its own.
#[derive(Drop)]
pub struct Linked {
    pub(crate) script: Script,
    pub(crate) plan: Plan,
    pub(crate) bits: Vec<GlBit>,
}

impl Model for Linked {
    ghost use Rattle.camac_names.specs.Linked.{LinkedScript, linked_coded, IsLinked, HasBits};

    ghost Value = { LinkedScript };

    ghost coded = { linked_coded };

    ghost view = { λ l. record { plan = l.plan; script = l.script } };

    ghost invariant = { λ l. IsLinked (record { plan = l.plan; script = l.script }) × HasBits (record { plan = l.plan; script = l.script }) l.bits.items };
}

impl Linked {
    /// The script.
    pub fn script(&self) -> &Script
        ensures value { result.now ≡ self.now.script }
        ensures linked { IsLinked self.now }
    {
        &self.script
    }

    /// The plan.
    pub fn plan(&self) -> &Plan
        ensures { result.now ≡ self.now.plan }
    {
        &self.plan
    }

    /// The bit of the graded-L pattern that calls the service of this number, from 0.
    #[tactic(auto, using(crate::proofs::Places::found_bit))]
    pub fn gl(&self, i: usize) -> GlBit
        requires { i < length self.now.script.services }
        ensures { bit_of_service self.now i ≡ Some result }
    {
        self.bits[i]
    }
}
