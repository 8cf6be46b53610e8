// The bits of a crate, and what the controller commands answer and change.

ghost use Rattle.std.specs.Prelude.{⊤, ◌≡◌, ◌==◌, [], ◌∷◌, codes};
ghost use Rattle.camac_crate.specs.State.{start_bits, reply_word, reply_q, effect};

use crate::command::ControllerOp;
use bitflags::{Flag, Flags, bitflag_items};
use camac_word::Word24;
use std::marker::Model;

// The bits as a set. It stands inside `CrateState`, since a set of flags may hold other bits, and the state of a crate has none.
#[derive(Clone, Copy, Debug, PartialEq, Eq)]
struct BitSet(u8);

bitflag_items! {
    impl BitSet: u8 {
        const INHIBIT = 1;
        const DEMAND = 2;
    }
}

impl Flags for BitSet {
    type Bits = u8;

    ghost exact = { ⊤ };

    ghost table = { (codes "INHIBIT", 1) ∷ (codes "DEMAND", 2) ∷ [] };

    ghost set_of = { λ s. s.0 };

    fn flags<'a>() -> &'a [Flag<BitSet>] {
        BitSet::FLAGS
    }

    fn bits(&self) -> u8 {
        self.0
    }

    fn from_bits_retain(bits: u8) -> BitSet {
        BitSet(bits)
    }
}

/// The state of a crate: the common control I, inhibit (EUR 4100, IEEE 583), and whether its demand output is enabled (own).
#[derive(Clone, Copy, Debug, PartialEq, Eq)]
pub struct CrateState {
    // private, since a set can hold bits that are not known, which the invariant forbids
    bits: BitSet,
}

impl Model for CrateState {
    ghost use Rattle.camac_crate.specs.State.{CrateBits};

    ghost Value = { CrateBits };

    ghost use Rattle.std.proofs.Common.{ap};
    ghost use Rattle.camac_crate.specs.State.{bits_of, number_of, HasNoOther};

    ghost view = { λ a. bits_of a.bits.0 };

    ghost invariant = { λ a. HasNoOther a.bits.0 };

    ghost inverse = { λ b. record { bits = record { 0 = number_of b } } };

    ghost inverse_ok = { λ a h. ap (λ n. record { bits = record { 0 = n } }) h };
}

impl CrateState {
    /// At the start inhibit is off and the demand output is enabled (own).
    pub fn start() -> Self
        ensures { result ≡ start_bits }
    {
        CrateState {
            bits: BitSet::DEMAND,
        }
    }

    /// Whether inhibit is set.
    pub fn is_inhibited(&self) -> bool
        ensures { result ≡ self.now.inhibit }
    {
        self.bits.contains(BitSet::INHIBIT)
    }

    /// Whether the demand output is enabled.
    pub fn is_demand_enabled(&self) -> bool
        ensures { result ≡ self.now.demand }
    {
        self.bits.contains(BitSet::DEMAND)
    }

    // Sets or removes inhibit.
    fn set_inhibit(&mut self, inhibit: bool)
        ensures { self.new ≡ record self.old { inhibit = inhibit } }
    {
        self.bits.set(BitSet::INHIBIT, inhibit);
    }

    // Enables or disables the demand output.
    fn set_demand(&mut self, demand: bool)
        ensures { self.new ≡ record self.old { demand = demand } }
    {
        self.bits.set(BitSet::DEMAND, demand);
    }
}

// The word without a bit.
fn no_word() -> Word24
    ensures { result ≡ 0 }
{
    match Word24::new(0) {
        Some(word) => word,
        None => unreachable!(),
    }
}

/// Does a controller command, and answers the word and Q of its reply (own).
/// `gl` is the graded-L pattern, restricted to the bits of the crate's stations.
/// Reading it answers it with Q 1. Q of a test is the tested bit; a demand is present where `gl` is not 0, also where the
/// demand output is disabled. Every other word and Q is 0.
pub fn apply(state: &mut CrateState, op: ControllerOp, gl: Word24) -> (Word24, bool)
    ensures word { result.0 ≡ reply_word op state.old gl }
    ensures q { result.1 ≡ reply_q op state.old gl }
    ensures next { state.new ≡ effect op state.old }
{
    let zero = no_word();
    match op {
        ControllerOp::Initialise => {
            state.set_inhibit(true);
            state.set_demand(false);
            (zero, false)
        }
        ControllerOp::Clear => (zero, false),
        ControllerOp::ReadGl => (gl, true),
        ControllerOp::InhibitOff => {
            state.set_inhibit(false);
            (zero, false)
        }
        ControllerOp::InhibitOn => {
            state.set_inhibit(true);
            (zero, false)
        }
        ControllerOp::TestInhibit => (zero, state.is_inhibited()),
        ControllerOp::DemandOff => {
            state.set_demand(false);
            (zero, false)
        }
        ControllerOp::DemandOn => {
            state.set_demand(true);
            (zero, false)
        }
        ControllerOp::TestDemandOutput => (zero, state.is_demand_enabled()),
        ControllerOp::TestDemand => (zero, gl.get() != 0),
    }
}
