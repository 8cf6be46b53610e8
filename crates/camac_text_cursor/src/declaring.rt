// What is declared so far, and the steps that declare more.

ghost use Rattle.std.specs.Prelude.{◌≡◌, ◌≤◌, IsTrue, length, map};
ghost use Rattle.camac_lang.specs.Depth.{inner_depth};
ghost use Rattle.camac_lang.specs.Scope.{is_well_formed};
ghost use Rattle.camac_lang.specs.View.{table_of, lam_of, statement_of, procedure_of};
ghost use Rattle.camac_text_cursor.specs.Reading.{change};
ghost use Rattle.camac_text_cursor.specs.Declaring.{with_table, with_lam, with_variables_of, with_service, opened, without_registers, with_procedure, tree_so_far};
ghost use Rattle.camac_text_cursor.specs.Parser.{state, Gives};

use crate::cursor::Parser;
use camac_lang::{Callable, Item, Lam, Name, Procedure, Script, Service, Spot, Stmt, Table};
use camac_tokens::TextFault;
use std::mem;

impl Parser<'_> {
    /// How many tables are declared so far.
    pub fn table_count(&self) -> usize
        ensures { result ≡ length (state self.now).tables }
    {
        self.tables.len()
    }

    /// How many LAMs are declared so far.
    pub fn lam_count(&self) -> usize
        ensures { result ≡ length (state self.now).lams }
    {
        self.lams.len()
    }

    /// How many procedures are declared so far.
    pub fn procedure_count(&self) -> usize
        ensures { result ≡ length (state self.now).procedures }
    {
        self.procedures.len()
    }

    /// How many services are declared so far.
    pub fn service_count(&self) -> usize
        ensures { result ≡ length (state self.now).services }
    {
        self.services.len()
    }

    /// Declares a table, and its name; S8 where memory is refused.
    pub fn add_table(&mut self, table: Table) -> Result<(), TextFault>
        ensures { Gives (λ _. tt) result self.new (change (with_table (table_of table)) (state self.old)) }
    {
        self.declared.push(table.name.duplicate())?;
        self.tables.push(table)?;
        self.order.push(Item::Table)?;
        Ok(())
    }

    /// Declares a LAM, and its name; S8 where memory is refused.
    pub fn add_lam(&mut self, lam: Lam) -> Result<(), TextFault>
        ensures { Gives (λ _. tt) result self.new (change (with_lam (lam_of lam)) (state self.old)) }
    {
        self.declared.push(lam.name.duplicate())?;
        self.lams.push(lam)?;
        self.order.push(Item::Lam)?;
        Ok(())
    }

    /// Ends a declaration of so many variables, whose names are declared already; S8 where memory is refused.
    pub fn add_variables(&mut self, spot: Spot, count: usize) -> Result<(), TextFault>
        ensures { Gives (λ _. tt) result self.new (change (with_variables_of spot count) (state self.old)) }
    {
        self.order.push(Item::Variables { spot, count })?;
        Ok(())
    }

    /// Declares a service with the registers of the body in hand, which is the service's: the next body has none yet. S8 where
    /// memory is refused.
    pub fn add_service(
        &mut self,
        spot: Spot,
        lam: usize,
        cycles: u32,
        words: u32,
        body: Vec<Stmt>,
    ) -> Result<(), TextFault>
        ensures { Gives (λ _. tt) result self.new (change (with_service spot lam cycles words (map statement_of body.items)) (state self.old)) }
    {
        let registers = self.take_registers();
        self.services.push(Service {
            spot,
            lam,
            cycles,
            words,
            registers,
            body,
        })?;
        self.order.push(Item::Service)?;
        Ok(())
    }

    /// The registers of the body in hand. The next body has none yet.
    pub fn take_registers(&mut self) -> Vec<Name>
        ensures registers { result.items ≡ (state self.old).registers }
        ensures left { state self.new ≡ without_registers (state self.old) }
    {
        mem::replace(&mut self.registers, Vec::new(self.alloc))
    }

    /// Begins a procedure with this name, which is declared: it sees no variables but its parameters. Answers how many names stay
    /// declared after it; S8 where memory is refused. The script's variables are set aside, so that one look-up serves both kinds of bodies.
    pub fn open_procedure(&mut self, name: &Name) -> Result<usize, TextFault>
        ensures { Gives (λ n. n) result self.new (opened name.now (state self.old)) }
    {
        self.outside = mem::replace(&mut self.variables, Vec::new(self.alloc));
        self.in_procedure = true;
        self.declared.push(name.duplicate())?;
        Ok(self.declared.len())
    }

    /// Declares a procedure, which can be called from here on, and ends it: its parameters and registers are declared no more, and
    /// the script has again what it had before. S8 where memory is refused.
    pub fn close_procedure(&mut self, procedure: Procedure, names: usize) -> Result<(), TextFault>
        requires { inner_depth (state self.old).callables (procedure_of procedure).body ≤ 15 }
        ensures { Gives (λ _. tt) result self.new (change (with_procedure (procedure_of procedure) names) (state self.old)) }
    {
        let callable = Callable::new(&procedure, &self.callables);
        self.variables = mem::replace(&mut self.outside, Vec::new(self.alloc));
        self.declared.truncate(names);
        self.registers = Vec::new(self.alloc);
        self.in_procedure = false;
        self.callables.push(callable)?;
        self.procedures.push(procedure)?;
        self.order.push(Item::Procedure)?;
        Ok(())
    }

    /// The script of all that is declared.
    pub fn into_script(self) -> Script
        requires { IsTrue (is_well_formed (tree_so_far (state self))) }
        ensures { result ≡ tree_so_far (state self.entry) }
    {
        Script::new(
            self.order,
            self.tables,
            self.lams,
            self.variables,
            self.procedures,
            self.services,
        )
    }
}
