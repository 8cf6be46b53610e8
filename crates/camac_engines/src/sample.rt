// The sample plan.

ghost use Rattle.std.specs.Prelude.{◌≡◌, ◌<◌, IfOk, None, OnOk, true};
ghost use Rattle.camac_branch.specs.Name.{is_type_name};
ghost use Rattle.camac_branch.specs.Plan.{add_type_fault, with_type};
ghost use Rattle.camac_module.specs.Commands.{none_declared};
ghost use Rattle.camac_engines.specs.Sample.{adc, command, commands_of, declare_all, probe, reg, sample, sample_types};

use camac_branch::{Plan, TypeName};
use camac_module::{CommandKind, Decl, ModuleFault, ModuleType};
use camac_word::{CrateNo, Function, GlBit, Station, SubAddress};
use std::alloc::{AllocError, Global};

/// The sample plan: one crate, with a converter that calls by GL bit 3 at station 5, and an output register at station 6.
pub fn sample_plan(alloc: Global) -> Result<Plan, AllocError>
    ensures { IfOk result (λ plan. plan ≡ sample) }
{
    let mut plan = plan_of_types(alloc)?;
    let crate_no = CrateNo::new(1).unwrap();
    plan.add_crate(crate_no, 2).unwrap();
    plan.add_station(crate_no, Station::new(5).unwrap(), 0, GlBit::new(3))
        .unwrap();
    plan.add_station(crate_no, Station::new(6).unwrap(), 1, None)
        .unwrap();
    Ok(plan)
}

fn plan_of_types(alloc: Global) -> Result<Plan, AllocError>
    ensures { IfOk result (λ plan. plan ≡ sample_types) }
{
    let mut plan = Plan::new(alloc, 4096).unwrap();
    add_type(&mut plan, b"ADC", converter(alloc))?;
    add_type(&mut plan, b"REG", register(alloc))?;
    Ok(plan)
}

// Puts a type into the plan. Where there is room and no other type has the name, only memory can be missing.
fn add_type(plan: &mut Plan, name: &[u8], commands: ModuleType) -> Result<(), AllocError>
    requires name { is_type_name name.now ≡ true }
    requires room { add_type_fault plan.old name.now ≡ None }
    ensures { OnOk result (plan.new ≡ with_type plan.old name.now commands) }
{
    match plan.add_type(TypeName::new(name).unwrap(), commands) {
        Ok(_) => Ok(()),
        Err(_) => Err(AllocError),
    }
}

fn converter(alloc: Global) -> ModuleType
    ensures { result ≡ commands_of adc }
{
    module_type(alloc, &adc()).unwrap()
}

fn register(alloc: Global) -> ModuleType
    ensures { result ≡ commands_of reg }
{
    module_type(alloc, &reg()).unwrap()
}

fn module_type(alloc: Global, commands: &[Decl]) -> Result<ModuleType, ModuleFault>
    ensures { result ≡ declare_all (none_declared 16) commands.now }
{
    let mut declared = ModuleType::new(alloc);
    'commands: for command in commands {
        declared.declare(*command)?;
    }
    Ok(declared)
}

// A converter of twelve channels, with a LAM at A12.
#[tactic(auto, unfolding(crate::specs::Sample::adc))]
fn adc() -> [Decl; 20]
    ensures { result ≡ adc }
{
    [
        command(0, 0, 12),
        command(0, 1, 12),
        command(0, 2, 12),
        command(0, 3, 12),
        command(0, 4, 12),
        command(0, 5, 12),
        command(0, 6, 12),
        command(0, 7, 12),
        command(0, 8, 12),
        command(0, 9, 12),
        command(0, 10, 12),
        command(0, 11, 12),
        probe(0, 12),
        probe(0, 13),
        probe(0, 14),
        probe(0, 15),
        command(8, 12, 24),
        command(10, 12, 24),
        command(24, 12, 24),
        command(26, 12, 24),
    ]
}

// An output register of eight bits.
#[tactic(auto, unfolding(crate::specs::Sample::reg))]
fn reg() -> [Decl; 4]
    ensures { result ≡ reg }
{
    [
        command(16, 0, 8),
        command(0, 0, 24),
        command(27, 0, 24),
        command(5, 0, 24),
    ]
}

// A function at a sub-address, which moves so many bits.
fn command(f: u32, a: u32, width: u8) -> Decl
    requires { (f < 32) × (a < 16) }
    ensures { result ≡ command f a width }
{
    Decl {
        f: Function::new(f).unwrap(),
        a: SubAddress::new(a).unwrap(),
        width,
        kind: CommandKind::Plain,
    }
}

// A sub-address without a register.
fn probe(f: u32, a: u32) -> Decl
    requires { (f < 32) × (a < 16) }
    ensures { result ≡ probe f a }
{
    Decl {
        kind: CommandKind::Probe,
        ..command(f, a, 24)
    }
}
