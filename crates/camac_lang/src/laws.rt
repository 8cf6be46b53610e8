// What holds in every well-formed script: each law is the contract of a function that does nothing.

ghost use Rattle.camac_lang.specs.Laws.{LimitsHold, ServicesStand, ProceduresStand, RegistersGrow};

/// A well-formed script is within the limits of the language (own).
pub fn limits_hold()
    ensures { LimitsHold }
{}

/// A service of a well-formed script names one of its LAMs, and its body refers to what the script declares.
pub fn services_stand()
    ensures { ServicesStand }
{}

/// The body of a procedure of a well-formed script refers to its parameters, to what the script declares, and to the procedures before it.
pub fn procedures_stand()
    ensures { ProceduresStand }
{}

/// Registers are only added along a body.
#[tactic(auto, using(crate::proofs::Grows::block_grows))]
pub fn registers_grow()
    ensures { RegistersGrow }
{}
