// What the checker knows where a statement begins.

ghost use Rattle.std.specs.Prelude.{◌≡◌, ◌≤◌, IfOk, OnOk, OnErr, length};
ghost use Rattle.camac_range.specs.Interval.{interval};
ghost use Rattle.camac_rules.specs.Joined.{join_region, join_facts};
ghost use Rattle.camac_rules.specs.Known.{write, region, facts, range_at, region_at, with_range, with_region};
ghost use Rattle.camac_rules.specs.Writes.{forget_variable, forget_register};

use crate::joined::{hulls, join_registers};
use camac_range::Range;
use std::alloc::{AllocError, Global};
use std::marker::Model;

/// The addresses that a register can hold.
#[derive(Clone, Copy)]
pub struct Region {
    crates: Range,
    stations: Range,
    sub_addresses: Range,
}

impl Model for Region {
    ghost use Rattle.camac_rules.specs.Known.{Region as Addresses};

    ghost Value = { Addresses };

    ghost view = { λ g. record { crates = g.crates; stations = g.stations; sub_addresses = g.sub_addresses } };

    ghost inverse = { λ g. record { crates = g.crates; stations = g.stations; sub_addresses = g.sub_addresses } };
}

impl Region {
    pub fn new(crates: Range, stations: Range, sub_addresses: Range) -> Self
        ensures { result ≡ region crates stations sub_addresses }
    {
        Region {
            crates,
            stations,
            sub_addresses,
        }
    }

    /// The smallest region around both.
    pub fn join(self, other: Region) -> Self
        ensures { result ≡ join_region self other }
    {
        Region {
            crates: self.crates.hull(other.crates),
            stations: self.stations.hull(other.stations),
            sub_addresses: self.sub_addresses.hull(other.sub_addresses),
        }
    }

    pub fn crates(self) -> Range
        ensures { result ≡ self.crates }
    {
        self.crates
    }

    pub fn stations(self) -> Range
        ensures { result ≡ self.stations }
    {
        self.stations
    }

    pub fn sub_addresses(self) -> Range
        ensures { result ≡ self.sub_addresses }
    {
        self.sub_addresses
    }
}

/// A range for each variable, 0 past the end. For each register its addresses, or none where it may be unset.
#[derive(Drop)]
pub struct Facts {
    ranges: Vec<Range>,
    registers: Vec<Option<Region>>,
}

impl Model for Facts {
    ghost use Rattle.camac_rules.specs.Known.{Facts as Known};

    ghost Value = { Known };

    ghost view = { λ k. record { ranges = k.ranges.items; registers = k.registers.items } };
}

impl Facts {
    ghost use Rattle.std.specs.Prelude.{[]};

    /// Where a service starts: variables are 0, registers unset.
    pub fn at_start(alloc: Global) -> Self
        ensures { result ≡ facts [] [] }
    {
        Facts {
            ranges: Vec::new(alloc),
            registers: Vec::new(alloc),
        }
    }

    /// Where the body of a procedure starts: parameters in these ranges, registers unset.
    pub fn at_call(alloc: Global, ranges: Vec<Range>) -> Self
        ensures { result ≡ facts ranges.items [] }
    {
        Facts {
            ranges,
            registers: Vec::new(alloc),
        }
    }

    pub fn try_clone(&self, alloc: Global) -> Result<Self, AllocError>
        ensures { IfOk result (λ k. k ≡ self.now) }
    {
        Ok(Facts {
            ranges: Vec::from_slice(alloc, &self.ranges)?,
            registers: Vec::from_slice(alloc, &self.registers)?,
        })
    }

    /// The ranges of the variables.
    pub fn ranges(&self) -> &[Range]
        ensures { result.now ≡ self.now.ranges }
    {
        &self.ranges
    }

    /// The addresses of a register, unless it may be unset.
    pub fn register(&self, register: usize) -> Option<Region>
        ensures { result ≡ region_at self.now.registers register }
    {
        region_in(&self.registers, register)
    }

    /// What is known where this way and another meet.
    pub fn join(&self, alloc: Global, other: &Facts) -> Result<Self, AllocError>
        ensures { IfOk result (λ k. k ≡ join_facts self.now other.now) }
    {
        Ok(Facts {
            ranges: hulls(alloc, &self.ranges, &other.ranges)?,
            registers: join_registers(alloc, &self.registers, &other.registers)?,
        })
    }

    /// Leaves a range in a variable. All else stays, and all of it where memory runs out.
    pub fn put_range(&mut self, variable: usize, range: Range) -> Result<(), AllocError>
        ensures ok { OnOk result (self.new ≡ with_range variable range self.old) }
        ensures err { OnErr result (self.new ≡ self.old) }
    {
        put_at(&mut self.ranges, variable, range, Range::only(0))
    }

    /// Leaves addresses in a register. All else stays, and all of it where memory runs out.
    pub fn put_region(&mut self, register: usize, region: Region) -> Result<(), AllocError>
        ensures ok { OnOk result (self.new ≡ with_region register region self.old) }
        ensures err { OnErr result (self.new ≡ self.old) }
    {
        put_at(&mut self.registers, register, Some(region), None)
    }

    /// Leaves any number in a variable. All else stays, and all of it where memory runs out.
    pub fn forget_variable(&mut self, variable: usize) -> Result<(), AllocError>
        ensures ok { OnOk result (self.new ≡ forget_variable variable self.old) }
        ensures err { OnErr result (self.new ≡ self.old) }
    {
        self.put_range(variable, between(0, u32::MAX))
    }

    /// From here on a register may be unset. All else stays, and all of it where memory runs out.
    pub fn forget_register(&mut self, register: usize) -> Result<(), AllocError>
        ensures ok { OnOk result (self.new ≡ forget_register register self.old) }
        ensures err { OnErr result (self.new ≡ self.old) }
    {
        put_at(&mut self.registers, register, None, None)
    }
}

/// The addresses of a register, unless it may be unset.
pub fn region_in(registers: &[Option<Region>], register: usize) -> Option<Region>
    ensures { result ≡ region_at registers.now register }
{
    match registers.get(register) {
        Some(region) => *region,
        None => None,
    }
}

/// The range of a variable.
pub fn range_in(ranges: &[Range], variable: usize) -> Range
    ensures { result ≡ range_at ranges.now variable }
{
    match ranges.get(variable) {
        Some(range) => *range,
        None => Range::only(0),
    }
}

// Puts a value at a place. The list grows where it is too short.
#[tactic(auto, using(crate::proofs::Steps::write_set))]
fn put_at<T: Copy>(items: &mut Vec<T>, place: usize, value: T, filler: T) -> Result<(), AllocError>
    ensures ok { OnOk result (items.new.items ≡ write filler items.old.items place value) }
    ensures err { OnErr result (items.new.items ≡ items.old.items) }
{
    if place < items.len() {
        items[place] = value;
        return Ok(());
    }
    put_past(items, place, value, filler)
}

// The same past the end. It stands apart, since this is rare.
#[inline(never)]
fn put_past<T: Copy>(
    items: &mut Vec<T>,
    place: usize,
    value: T,
    filler: T,
) -> Result<(), AllocError>
    requires { length items.old.items ≤ place }
    ensures ok { OnOk result (items.new.items ≡ write filler items.old.items place value) }
    ensures err { OnErr result (items.new.items ≡ items.old.items) }
{
    let Some(end) = place.checked_add(1) else {
        return Err(AllocError);
    };
    items.resize(end, filler)?;
    items[place] = value;
    Ok(())
}

/// The numbers between two, both included.
pub fn between(lo: u32, hi: u32) -> Range
    requires { lo ≤ hi }
    ensures { result ≡ interval lo hi }
{
    match Range::new(lo, hi) {
        Some(range) => range,
        None => unreachable!(),
    }
}
