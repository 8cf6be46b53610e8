// Names that are declared, and names that are used.

ghost use Rattle.std.specs.Prelude.{◌≡◌, true, Some, None, Ok, IfSome, IfNone, IsSome, if◌then◌else◌};
ghost use Rattle.camac_lang.specs.Tests.{is_new};
ghost use Rattle.camac_tokens.specs.declared.fault.NameKind.TheVariants.{Parameter, Register, Variable};
ghost use Rattle.camac_tokens.specs.declared.fault.TextCase.TheVariants.{Undeclared};
ghost use Rattle.camac_text_cursor.specs.Reading.{kind_of, spot_of};
ghost use Rattle.camac_text_cursor.specs.Readers.{is_name, new_name, added, new_variable, new_parameter, register_at, set_name, declared_as, found_as, found_here, no_name, used_register, used_variable, used_lam, used_table, variable_here, procedure_here, called};
ghost use Rattle.camac_text_cursor.specs.Parser.{state, FailsWith, Gives};

use crate::choice::Choice;
use crate::cursor::Parser;
use crate::names::{is_new, lam_place, name_place, procedure_place, table_place};
use camac_lang::{Name, limits};
use camac_tokens::{Found, Limit, NameKind, TextCase, TextFault, TokenKind};

impl Parser<'_> {
    // Whether no table, LAM, variable or procedure before it has this name.
    fn is_free(&self, name: &Name) -> bool
        ensures { result ≡ is_new name.now self.now.declared.items }
    {
        is_new(&self.declared, name)
    }

    /// A name that no table, LAM, variable or procedure before it has. It stays where it is.
    #[tactic(auto, unfolding(crate::specs::Readers::new_name, crate::specs::Readers::name_here))]
    pub fn new_name(&mut self) -> Result<Name, TextFault>
        ensures { Gives (λ n. n) result self.new (new_name (state self.old)) }
    {
        let here: &Self = self;
        let Some(TokenKind::Name(name)) = here.peek() else {
            return Err(self.unexpected(Choice::Name));
        };
        if !here.is_free(name) {
            let by = here.declared_as(name);
            return Err(here.fault(TextCase::Taken { by }));
        }
        Ok(name.duplicate())
    }

    /// The name that stands next, as one more variable or parameter.
    #[tactic(auto, unfolding(crate::specs::Readers::added))]
    fn added(&mut self, name: Name) -> Result<(), TextFault>
        ensures { Gives (λ _. tt) result self.new (added name (state self.old)) }
    {
        if self.variable_count >= limits::VARIABLES {
            return Err(self.fault(TextCase::Limit(Limit::Variables)));
        }
        self.advance();
        self.variable_count += 1;
        self.variables.push(name.duplicate())?;
        self.declared.push(name)?;
        Ok(())
    }

    /// Declares the variable that is named next: S4 at a name that is taken, S6 where there are 64 variables and parameters.
    #[tactic(auto, unfolding(crate::specs::Readers::new_variable))]
    pub fn new_variable(&mut self) -> Result<(), TextFault>
        ensures { Gives (λ _. tt) result self.new (new_variable (state self.old)) }
    {
        let name = self.new_name()?;
        self.added(name)
    }

    /// Declares the parameter that is named next, and answers its name: S4 at a name that is taken, S6 at a ninth parameter and
    /// where there are 64 variables and parameters.
    #[tactic(auto, unfolding(crate::specs::Readers::new_parameter))]
    pub fn new_parameter(&mut self) -> Result<Name, TextFault>
        ensures { Gives (λ n. n) result self.new (new_parameter (state self.old)) }
    {
        let name = self.new_name()?;
        if self.variables.len() >= limits::PARAMETERS {
            return Err(self.fault(TextCase::Limit(Limit::Parameters)));
        }
        self.added(name.duplicate())?;
        Ok(name)
    }

    /// Takes the name of a register that has no number yet, and answers its number: S6 at a register too many.
    #[tactic(auto, using(crate::proofs::Searches::room_for_one))]
    fn new_register(&mut self, name: Name) -> Result<usize, TextFault>
        ensures { Gives (λ n. n) result self.new (register_at name None (state self.old)) }
    {
        let register = self.registers.len();
        if self.other_registers() + register >= limits::REGISTERS {
            return Err(self.fault(TextCase::Limit(Limit::Registers)));
        }
        self.advance();
        self.registers.push(name)?;
        Ok(register)
    }

    /// Takes the name of the register that a `cdreg` sets, and answers its number: S4 at a name that is declared otherwise, S6 at a register too many.
    #[tactic(auto, unfolding(crate::specs::Readers::set_name, crate::specs::Readers::new_name, crate::specs::Readers::name_here))]
    pub fn set_name(&mut self) -> Result<usize, TextFault>
        ensures { Gives (λ n. n) result self.new (set_name (state self.old)) }
    {
        let here: &Self = self;
        let Some(TokenKind::Name(name)) = here.peek() else {
            return Err(self.unexpected(Choice::Name));
        };
        if !here.is_free(name) {
            let by = here.declared_as(name);
            return Err(here.fault(TextCase::Taken { by }));
        }
        match name_place(&here.registers, name) {
            Some(place) => {
                self.advance();
                Ok(place)
            }
            None => {
                let name = name.duplicate();
                self.new_register(name)
            }
        }
    }

    /// As what a name that is declared is declared: one that is none of the others is a procedure's, that in hand among them.
    fn declared_as(&self, name: &Name) -> NameKind
        ensures { result ≡ declared_as name.now (state self.now) }
    {
        if table_place(&self.tables, name).is_some() {
            return NameKind::Table;
        }
        if lam_place(&self.lams, name).is_some() {
            return NameKind::Lam;
        }
        if name_place(&self.variables, name).is_some() {
            return self.variable_kind();
        }
        if name_place(&self.outside, name).is_some() {
            return NameKind::Variable;
        }
        if name_place(&self.registers, name).is_some() {
            return NameKind::Register;
        }
        NameKind::Procedure
    }

    /// What the variables are that the body in hand sees.
    fn variable_kind(&self) -> NameKind
        ensures { result ≡ (if self.now.in_procedure then Parameter else Variable) }
    {
        if self.in_procedure {
            NameKind::Parameter
        } else {
            NameKind::Variable
        }
    }

    /// What a name is that is not declared as the kind that is wanted.
    fn found_here(&self, wanted: NameKind, name: &Name) -> Found
        ensures { result ≡ found_here wanted name.now (state self.now) }
    {
        if self.is_free(name) && is_new(&self.registers, name) {
            return Found::Nothing;
        }
        found_as(wanted, self.declared_as(name))
    }

    /// The fault of a name that is not declared as the kind that is wanted.
    fn undeclared(&self, wanted: NameKind, name: &Name) -> TextFault
        ensures { result ≡ TextFault.Broken (Undeclared wanted (found_here wanted name.now (state self.now))) (spot_of (state self.now).rest (state self.now).end_line) }
    {
        let found = self.found_here(wanted, name);
        self.fault(TextCase::Undeclared { wanted, found })
    }

    // The fault of a token that should be a name of this kind, and is none.
    #[inline(never)]
    #[tactic(auto, unfolding(crate::specs::Readers::no_name, crate::specs::Readers::name_here))]
    fn no_name(&mut self, wanted: NameKind) -> TextFault
        ensures { FailsWith result (state self.new).tried (no_name wanted (state self.old)) }
    {
        let here: &Self = self;
        match here.peek() {
            Some(TokenKind::Name(name)) => here.undeclared(wanted, name),
            _ => self.unexpected(Choice::Name),
        }
    }

    // Takes the name of a register, if one stands next, and answers its number. Else nothing is taken.
    #[inline(never)]
    #[tactic(auto, unfolding(crate::specs::Readers::used, crate::specs::Readers::no_name, crate::specs::Readers::name_here))]
    fn take_register(&mut self) -> Option<usize>
        ensures some { IfSome result (λ n. used_register (state self.old) ≡ Ok (n, state self.new)) }
        ensures none { IfNone result ((state self.new ≡ state self.old) × (used_register (state self.old) ≡ no_name Register (state self.old))) }
    {
        let here: &Self = self;
        let Some(TokenKind::Name(name)) = here.peek() else {
            return None;
        };
        let place = name_place(&here.registers, name)?;
        self.advance();
        Some(place)
    }

    /// Takes the name of a register, and answers its number; S5 where there is none.
    #[inline(always)]
    pub fn used_register(&mut self) -> Result<usize, TextFault>
        ensures { Gives (λ n. n) result self.new (used_register (state self.old)) }
    {
        match self.take_register() {
            Some(place) => Ok(place),
            None => Err(self.no_name(NameKind::Register)),
        }
    }

    /// Takes the name of a variable, if one stands next, and answers its number. Else nothing is taken. It is quick, since it tells no fault.
    #[inline(never)]
    #[tactic(auto, unfolding(crate::specs::Readers::used, crate::specs::Readers::no_name, crate::specs::Readers::name_here))]
    pub fn take_variable(&mut self) -> Option<usize>
        ensures name { IsSome result → is_name (kind_of (state self.old).rest) ≡ true }
        ensures some { IfSome result (λ n. used_variable (state self.old) ≡ Ok (n, state self.new)) }
        ensures none { IfNone result ((state self.new ≡ state self.old) × (used_variable (state self.old) ≡ no_name Variable (state self.old))) }
    {
        let here: &Self = self;
        let Some(TokenKind::Name(name)) = here.peek() else {
            return None;
        };
        let place = name_place(&here.variables, name)?;
        self.advance();
        Some(place)
    }

    /// Takes the name of a variable, and answers its number; S5 where there is none.
    #[inline(always)]
    pub fn used_variable(&mut self) -> Result<usize, TextFault>
        ensures { Gives (λ n. n) result self.new (used_variable (state self.old)) }
    {
        match self.take_variable() {
            Some(place) => Ok(place),
            None => Err(self.no_name(NameKind::Variable)),
        }
    }

    /// Takes the name of a LAM, and answers its number; S5 where there is none.
    #[tactic(auto, unfolding(crate::specs::Readers::used, crate::specs::Readers::name_here))]
    pub fn used_lam(&mut self) -> Result<usize, TextFault>
        ensures { Gives (λ n. n) result self.new (used_lam (state self.old)) }
    {
        let here: &Self = self;
        let Some(TokenKind::Name(name)) = here.peek() else {
            return Err(self.unexpected(Choice::Name));
        };
        match lam_place(&here.lams, name) {
            Some(place) => {
                self.advance();
                Ok(place)
            }
            None => Err(here.undeclared(NameKind::Lam, name)),
        }
    }

    /// The number of a variable whose name stays where it is.
    #[tactic(auto, unfolding(crate::specs::Readers::known, crate::specs::Readers::name_here))]
    pub fn variable_here(&mut self) -> Result<usize, TextFault>
        ensures { Gives (λ n. n) result self.new (variable_here (state self.old)) }
    {
        let here: &Self = self;
        let Some(TokenKind::Name(name)) = here.peek() else {
            return Err(self.unexpected(Choice::Name));
        };
        match name_place(&here.variables, name) {
            Some(place) => Ok(place),
            None => Err(here.undeclared(NameKind::Variable, name)),
        }
    }

    /// Takes the name of a table, and answers its number; S5 where there is none.
    #[tactic(auto, unfolding(crate::specs::Readers::used, crate::specs::Readers::name_here))]
    pub fn used_table(&mut self) -> Result<usize, TextFault>
        ensures { Gives (λ n. n) result self.new (used_table (state self.old)) }
    {
        let here: &Self = self;
        let Some(TokenKind::Name(name)) = here.peek() else {
            return Err(self.unexpected(Choice::Name));
        };
        match table_place(&here.tables, name) {
            Some(place) => {
                self.advance();
                Ok(place)
            }
            None => Err(here.undeclared(NameKind::Table, name)),
        }
    }

    /// The number of a procedure whose name stays where it is; S5 where there is none.
    #[tactic(auto, unfolding(crate::specs::Readers::known, crate::specs::Readers::name_here))]
    pub fn procedure_here(&mut self) -> Result<usize, TextFault>
        ensures { Gives (λ n. n) result self.new (procedure_here (state self.old)) }
    {
        let here: &Self = self;
        let Some(TokenKind::Name(name)) = here.peek() else {
            return Err(self.unexpected(Choice::Name));
        };
        match procedure_place(&here.procedures, name) {
            Some(place) => Ok(place),
            None => Err(here.undeclared(NameKind::Procedure, name)),
        }
    }

    /// Takes the name of the procedure with this number, and answers how many arguments it wants; S6 where it has more braces and
    /// brackets open than may be.
    #[tactic(auto, unfolding(crate::specs::Readers::called), using(camac_lang::proofs::Depths::callable_found))]
    pub fn called(&mut self, room: u32, place: usize) -> Result<usize, TextFault>
        ensures { Gives (λ n. n) result self.new (called room place (state self.old)) }
    {
        match self.callables.get(place) {
            Some(callable) => {
                let parameters = callable.parameters;
                if callable.depth > room {
                    return Err(self.fault(TextCase::Limit(Limit::CallDepth)));
                }
                self.advance();
                Ok(parameters)
            }
            None => Err(self.fault(TextCase::Undeclared {
                wanted: NameKind::Procedure,
                found: Found::Nothing,
            })),
        }
    }
}

/// What a name of a kind is where this one is wanted, as which it is not declared.
fn found_as(wanted: NameKind, kind: NameKind) -> Found
    ensures { result ≡ found_as wanted (Some kind) }
{
    match (wanted, kind) {
        (NameKind::Variable, NameKind::Variable) => Found::Hidden,
        (NameKind::Procedure, NameKind::Procedure) => Found::Itself,
        _ => Found::Other(kind),
    }
}
