//! The commands that a type of module declares.

ghost use Rattle.std.specs.Prelude.{◌≡◌, ◌≤◌, option_map, IfSome, OnOk, OnErr};
ghost use Rattle.std.specs.Result.{result_err};
ghost use Rattle.camac_module.specs.Commands.{entry, declared, width, counts, widths, none_declared, with_declared, DeclaresOne, declare_fault, fits_width, IsCommandMap};

use crate::kind::CommandKind;
use crate::row::Row;
use camac_word::{Function, SubAddress};
use std::alloc::{AllocError, Global};
use std::marker::Model;
use thiserror::Error;

/// A command as a plan declares it (own).
#[derive(Clone, Copy, Debug)]
pub struct Decl {
    pub f: Function,
    pub a: SubAddress,
    /// The bits that it moves, 1 to 24.
    pub width: u8,
    pub kind: CommandKind,
}

/// Why a declaration is refused (own).
#[derive(Clone, Copy, Debug, PartialEq, Eq, Error)]
pub enum ModuleFault {
    /// M1: the command is declared already.
    #[error("the command is declared already")]
    DeclaredBefore,
    /// M2: the width is not 1 to 24 bits, or not 24 at a probe.
    #[error("the width is not 1 to 24 bits, or not 24 at a probe")]
    WidthOutOfRange,
    /// M4: the map has no such sub-address.
    #[error("the map has no such sub-address")]
    NoSuchSubAddress,
}

/// The commands that a module declares at its first `A` sub-addresses. No sub-address is above 15 (IEEE 583).
#[derive(Drop)]
pub struct CommandMap<const A: usize> {
    rows: [Row; A],
}

/// The commands of a type of module.
pub type ModuleType = CommandMap<16>;

impl<const A: usize> Model for CommandMap<A> {
    ghost use Rattle.std.specs.Prelude.{map};
    ghost use Rattle.camac_module.specs.Commands.{Commands, IsCommandMap};
    ghost use Rattle.camac_module.specs.Row.{entries_of};

    ghost Value = { Commands };

    ghost view = { λ m. map entries_of m.rows };

    ghost invariant = { λ m. IsCommandMap (map entries_of m.rows) };
}

impl<const A: usize> CommandMap<A> {
    /// A map in which nothing is declared. `A` may be any number: rows from sub-address 16 on stay empty.
    pub fn new(_alloc: Global) -> Self
        ensures { result ≡ none_declared A }
    {
        CommandMap {
            rows: [Row::new(); A],
        }
    }

    /// A copy, which takes no memory.
    pub fn try_clone(&self, _alloc: Global) -> Result<Self, AllocError>
        ensures { result ≡ Ok self.now }
    {
        Ok(CommandMap { rows: self.rows })
    }

    /// Declares a command. Refused in this order: a width out of range (M2), a sub-address that the map does not have (M4), a command that
    /// is declared already (M1). A refusal leaves the map as it was. Else this command is declared now, and each other is as it was.
    pub fn declare(&mut self, d: Decl) -> Result<(), ModuleFault>
        ensures refused { result_err result ≡ declare_fault A self.old d }
        ensures ok { OnOk result (self.new ≡ with_declared self.old d) }
        ensures one { OnOk result (DeclaresOne self.old self.new d) }
        ensures err { OnErr result (self.new ≡ self.old) }
    {
        if !fits_width(&d) {
            return Err(ModuleFault::WidthOutOfRange);
        }
        let a = d.a.get() as usize;
        if a >= A {
            return Err(ModuleFault::NoSuchSubAddress);
        }
        if self.rows[a].width(d.f.get()).is_some() {
            return Err(ModuleFault::DeclaredBefore);
        }
        self.rows[a].declare(d.f.get(), d.width, d.kind);
        Ok(())
    }

    /// The width of a command, 1 to 24 bits. None: it is not declared.
    pub fn width(&self, f: Function, a: SubAddress) -> Option<u8>
        ensures value { result ≡ width self.now f a }
        ensures in_range { IfSome result (λ w. (1 ≤ w) × (w ≤ 24)) }
    {
        let a = a.get() as usize;
        if a < A {
            self.rows[a].width(f.get())
        } else {
            None
        }
    }

    /// A command as it was declared. None: it is not declared.
    pub fn declaration(&self, f: Function, a: SubAddress) -> Option<Decl>
        ensures entry { option_map declared result ≡ entry self.now f a }
        ensures place { IfSome result (λ d. (d.f ≡ f) × (d.a ≡ a)) }
    {
        let row = a.get() as usize;
        if row < A {
            match self.rows[row].entry(f.get()) {
                Some((width, kind)) => Some(Decl { f, a, width, kind }),
                None => None,
            }
        } else {
            None
        }
    }

    /// The number of commands, and of probes among them.
    pub fn counts(&self) -> (u32, u32)
        ensures { result ≡ counts self.now }
    {
        let mut commands = 0;
        let mut probes = 0;
        let reachable = &self.rows[..A.min(16)];
        'rows: for row in reachable {
            let (c, p) = row.counts();
            commands += c;
            probes += p;
        }
        (commands, probes)
    }

    /// The least and the greatest width of a function from one sub-address to another, in bits. None: it is not declared at one of them.
    pub fn widths(&self, f: Function, first: SubAddress, last: SubAddress) -> Option<(u8, u8)>
        requires { first ≤ last }
        ensures { result ≡ widths self.now f first last }
    {
        let mut least = self.width(f, first)?;
        let mut greatest = least;
        'places: for a in first.get() + 1..last.get() + 1 {
            let w = self.width(f, SubAddress::new(a)?)?;
            least = least.min(w);
            greatest = greatest.max(w);
        }
        Some((least, greatest))
    }

    /// The law that each declared command is 1 to 24 bits wide, and each probe 24.
    pub fn is_command_map(&self)
        ensures { IsCommandMap self.now }
    {
        let _ = &self.rows;
    }
}

// Whether the width is one that a command can have.
fn fits_width(d: &Decl) -> bool
    ensures { result ≡ fits_width d.now }
{
    1 <= d.width && d.width <= 24 && (!d.kind.is_probe() || d.width == 24)
}
