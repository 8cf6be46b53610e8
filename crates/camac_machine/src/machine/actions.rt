// Statements that set or write something, and those that make one cycle.

ghost use Rattle.std.specs.Prelude.{◌≡◌, ◌<◌, ◌≤◌, length, None, Some, slice_set, IsSomeAnd};
ghost use Rattle.camac_branch.specs.Allowed.{width};
ghost use Rattle.camac_lang.specs.View.{assignment_of, crate_action_of, lam_action_of, put_of, setting_of, single_of};
ghost use Rattle.camac_model.specs.Cycle.{sized};
ghost use Rattle.camac_model.specs.Fine.{most_turns};
ghost use Rattle.camac_model.specs.Meaning.{effect};
ghost use Rattle.camac_model.specs.Value.{value};
ghost use Rattle.camac_machine.specs.MachineState.{free, reach, with_value, FineThen, HasRoom, Advances, Awaits};
ghost use Rattle.camac_machine.specs.Rest.{address_of};
ghost use Rattle.camac_machine.specs.Within.{StatementFits};

use crate::command::command;
use crate::machine::{Machine, Pending};
use camac_branch::{Command, Plan};
use camac_esone::{Address, crate_call, lam_call};
use camac_func::DataMove;
use camac_lang::{
    Assignment, CrateAction, LamAction, Move, PutAction, RegisterSetting, SingleAction, WordSize,
};
use camac_word::{CrateNo, Word24};

// How many bits a read of this size keeps.
pub fn bits_kept(plan: &Plan, command: &Command, size: WordSize) -> u32
    ensures value { result ≡ sized size (width plan.now (address_of command.now) command.now.f) }
    ensures in_range { result ≤ 24 }
{
    let width = plan
        .allowed(command.c, command.n, command.a, command.f)
        .unwrap_or(24);
    match size {
        WordSize::Full => u32::from(width),
        WordSize::Short => u32::from(width.min(16)),
    }
}

// Sets a register.
fn set_in(registers: &mut [Option<Address>], register: usize, at: Address)
    requires { register < length registers.old }
    ensures { registers.new ≡ slice_set registers.old register (Some at) }
{
    registers[register] = Some(at);
}

impl<'a, const V: usize, const DEPTH: usize, const CAP: usize> Machine<'a, V, DEPTH, CAP> {
    // `cdreg`.
    #[inline(always)]
    pub(crate) fn set_register(&mut self, setting: &RegisterSetting)
        requires room { HasRoom self.old }
        requires fits { StatementFits (reach self.old) (free self.old) (setting_of setting.now) }
        requires fine { FineThen self.old (λ c. effect c most_turns (setting_of setting.now)) }
        ensures { Advances 1 self.old (λ c. effect c most_turns (setting_of setting.now)) None self.new }
    {
        let c = self.value_of(&setting.crate_no);
        let n = self.value_of(&setting.station);
        let a = self.value_of(&setting.sub_address);
        let place = self.scope.registers.start + setting.register;
        set_in(&mut self.registers, place, Address { c, n, a });
    }

    // `v = e`.
    pub(crate) fn assign(&mut self, assignment: &Assignment)
        requires room { HasRoom self.old }
        requires fits { StatementFits (reach self.old) (free self.old) (assignment_of assignment.now) }
        requires fine { FineThen self.old (λ c. effect c most_turns (assignment_of assignment.now)) }
        ensures { Advances 1 self.old (λ c. effect c most_turns (assignment_of assignment.now)) None self.new }
    {
        let value = self.value_of(&assignment.value);
        self.set_variable(assignment.variable, value);
    }

    // `put`.
    pub(crate) fn put(&mut self, action: &PutAction)
        requires room { HasRoom self.old }
        requires fits { StatementFits (reach self.old) (free self.old) (put_of action.now) }
        requires fine { FineThen self.old (λ c. effect c most_turns (put_of action.now)) }
        ensures { Advances 1 self.old (λ c. effect c most_turns (put_of action.now)) None self.new }
    {
        match Word24::new(self.value_of(&action.value)) {
            Some(word) => self.words.push(word),
            None => unreachable!(),
        }
    }

    // Sets a variable of the innermost body.
    pub(crate) fn set_variable(&mut self, variable: usize, value: u32)
        requires room { HasRoom self.old }
        requires variable { variable < (reach self.old).variables }
        ensures room { HasRoom self.new }
        ensures same { self.new ≡ with_value self.old variable value }
    {
        let place = self.scope.variables.start + variable;
        self.variables[place] = value;
    }

    // `cfsa`, `cssa`. What is wanted is written in its place, here and below: it is too large to be returned in registers.
    #[inline(always)]
    pub(crate) fn single(&self, action: &SingleAction, pending: &mut Option<Pending<'a>>)
        requires room { HasRoom self.now }
        requires fits { StatementFits (reach self.now) (free self.now) (single_of action.now) }
        requires fine { FineThen self.now (λ c. effect c most_turns (single_of action.now)) }
        ensures { IsSomeAnd pending.new (Awaits self.now (λ c. effect c most_turns (single_of action.now))) }
    {
        let f = action.function;
        let at = self.address_in(action.register);
        let plan = self.checked.plan();
        plan.allows_commands();
        match &action.data {
            Move::NoData => *pending = Some(Pending::Cycle(command(at, f, DataMove::None))),
            Move::Into(variable) => {
                let command = command(at, f, DataMove::In);
                let bits = bits_kept(plan, &command, action.size);
                *pending = Some(Pending::Read {
                    command,
                    variable: *variable,
                    bits,
                });
            }
            Move::From(value) => match Word24::new(self.value_of(value)) {
                Some(word) => *pending = Some(Pending::Cycle(command(at, f, DataMove::Out(word)))),
                None => unreachable!(),
            },
        }
    }

    // A call of a crate's controller.
    pub(crate) fn call_crate(&self, action: &CrateAction, pending: &mut Option<Pending<'a>>)
        requires room { HasRoom self.now }
        requires fits { StatementFits (reach self.now) (free self.now) (crate_action_of action.now) }
        requires fine { FineThen self.now (λ c. effect c most_turns (crate_action_of action.now)) }
        ensures { IsSomeAnd pending.new (Awaits self.now (λ c. effect c most_turns (crate_action_of action.now))) }
    {
        let plan = self.checked.plan();
        plan.allows_commands();
        match CrateNo::new(self.value_of(&action.crate_no)) {
            Some(c) => *pending = Some(Pending::Cycle(crate_call(action.call, c))),
            None => unreachable!(),
        }
    }

    // A call at a LAM's address.
    pub(crate) fn call_lam(&self, action: &LamAction, pending: &mut Option<Pending<'a>>)
        requires fits { StatementFits (reach self.now) (free self.now) (lam_action_of action.now) }
        requires fine { FineThen self.now (λ c. effect c most_turns (lam_action_of action.now)) }
        ensures { IsSomeAnd pending.new (Awaits self.now (λ c. effect c most_turns (lam_action_of action.now))) }
    {
        let plan = self.checked.plan();
        plan.allows_commands();
        let lam = &self.checked.script().lams()[action.lam];
        let at = Address {
            c: lam.crate_no,
            n: lam.station,
            a: lam.sub_address.get(),
        };
        *pending = Some(Pending::Cycle(lam_call(action.call, at)));
    }
}
