// The part of a machine's store that a body sees. A procedure in progress has places of its own, after those of its caller.

ghost use Rattle.std.specs.Prelude.{◌≡◌, ◌≤◌, ◌+◌, ◌<◌, ◌^◌, length, vec_len};
ghost use Rattle.camac_lang.specs.View.{procedure_of, service_of};
ghost use Rattle.camac_machine.specs.Store.{held_at, nothing_seen, seen_by_procedure, seen_by_service};

use camac_lang::{Procedure, Script, Service};

/// Places of a store, from the start up to the end, which is the first place past them.
#[derive(Clone, Copy)]
pub struct Places {
    pub start: usize,
    pub end: usize,
}

impl Places {
    // What lies at these places.
    pub(crate) fn of<T>(self, all: &[T]) -> &[T]
        requires order { self.start ≤ self.end }
        requires inside { self.end ≤ length all.now }
        ensures values { result.now ≡ held_at self all.now }
    {
        &all[self.start..self.end]
    }
}

/// What a body sees: its variables, its registers, and so many of the script's procedures. Those of a procedure in progress lie right after its
/// caller's, so a call saves and copies nothing. Procedures call earlier ones alone, so the places that the limits allow are enough.
#[derive(Clone, Copy)]
pub struct Scope {
    pub variables: Places,
    pub registers: Places,
    pub procedures: usize,
}

impl Scope {
    // Sees nothing.
    pub(crate) fn empty() -> Scope
        ensures { result ≡ nothing_seen }
    {
        let none = Places { start: 0, end: 0 };
        Scope {
            variables: none,
            registers: none,
            procedures: 0,
        }
    }

    // What a procedure of this number sees that is called here.
    pub(crate) fn of_procedure(&self, number: usize, procedure: &Procedure) -> Scope
        requires variables { self.now.variables.end + vec_len procedure.now.parameters < 2 ^ 64 }
        requires registers { self.now.registers.end + vec_len procedure.now.registers < 2 ^ 64 }
        ensures { result ≡ seen_by_procedure self.now number (procedure_of procedure.now) }
    {
        Scope {
            variables: Places {
                start: self.variables.end,
                end: self.variables.end + procedure.parameters.len(),
            },
            registers: Places {
                start: self.registers.end,
                end: self.registers.end + procedure.registers.len(),
            },
            procedures: number,
        }
    }

    // What a service sees: all that the script declares, and its own registers.
    pub(crate) fn of_service(script: &Script, service: &Service) -> Scope
        ensures { result ≡ seen_by_service script.now (service_of service.now) }
    {
        Scope {
            variables: Places {
                start: 0,
                end: script.variables().len(),
            },
            registers: Places {
                start: 0,
                end: service.registers.len(),
            },
            procedures: script.procedures().len(),
        }
    }
}
