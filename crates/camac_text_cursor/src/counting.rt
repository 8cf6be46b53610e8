// How many registers count beside those of the body in hand.

ghost use Rattle.std.specs.Prelude.{◌≡◌, min, map, length};
ghost use Rattle.camac_lang.specs.Tests.{total, most};
ghost use Rattle.camac_lang.specs.View.{procedure_of, service_of};
ghost use Rattle.camac_text_cursor.specs.Readers.{other_registers};
ghost use Rattle.camac_text_cursor.specs.Parser.{state};

use crate::cursor::Parser;
use camac_lang::{Procedure, Service, limits};

impl Parser<'_> {
    /// The registers that count beside those of the body in hand, or 64 where they are more.
    pub fn other_registers(&self) -> usize
        ensures { result ≡ min 64 (other_registers (state self.now)) }
    {
        let of_procedures = registers_of_all(&self.procedures);
        if !self.in_procedure {
            return of_procedures;
        }
        let of_service = most_registers(&self.services);
        (of_procedures + of_service).min(limits::REGISTERS)
    }
}

/// The registers of these procedures together, or 64 where they are more.
fn registers_of_all(procedures: &[Procedure]) -> usize
    ensures { result ≡ min 64 (total (λ p. length p.registers) (map procedure_of procedures.now)) }
{
    let mut count: usize = 0;
    for procedure in procedures {
        count = (count + procedure.registers.len()).min(limits::REGISTERS);
    }
    count
}

/// The registers of the service that has the most, or 64 where they are more.
fn most_registers(services: &[Service]) -> usize
    ensures { result ≡ min 64 (most (λ v. length v.registers) (map service_of services.now)) }
{
    let mut count: usize = 0;
    for service in services {
        count = count.max(service.registers.len()).min(limits::REGISTERS);
    }
    count
}
