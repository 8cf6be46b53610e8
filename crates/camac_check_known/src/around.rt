// What stands around a statement.

ghost use Rattle.std.specs.Prelude.{◌≡◌, IfOk};
ghost use Rattle.camac_rules.specs.Addresses.{is_among};
ghost use Rattle.camac_rules.specs.Cycles.{alone_in, with_locked, may_write};
ghost use Rattle.camac_rules.specs.Loops.{with_fixed};

use camac_rules::Body;
use std::alloc::{AllocError, Global};
use std::marker::Model;

/// The body, the variables of the `for` loops around, and the crates that are locked there.
#[derive(Drop)]
pub struct Around {
    body: Body,
    fixed: Vec<usize>,
    locked: Vec<u32>,
}

impl Model for Around {
    ghost use Rattle.camac_rules.specs.Cycles.{Around as Surroundings};

    ghost Value = { Surroundings };

    ghost view = { λ a. record { body = a.body; fixed = a.fixed.items; locked = a.locked.items } };
}

impl Around {
    /// Nothing stands around the statements of a body itself.
    pub fn alone_in(alloc: Global, body: Body) -> Self
        ensures { result ≡ alone_in body }
    {
        Around {
            body,
            fixed: Vec::new(alloc),
            locked: Vec::new(alloc),
        }
    }

    /// What stands around a block that locks one more crate.
    pub fn with_locked(&self, alloc: Global, crate_no: u32) -> Result<Self, AllocError>
        ensures { IfOk result (λ a. a ≡ with_locked crate_no self.now) }
    {
        let mut locked = Vec::from_slice(alloc, &self.locked)?;
        locked.insert(0, crate_no)?;
        Ok(Around {
            body: self.body,
            fixed: Vec::from_slice(alloc, &self.fixed)?,
            locked,
        })
    }

    /// What stands around the body of a `for` with this variable.
    pub fn with_fixed(&self, alloc: Global, variable: usize) -> Result<Self, AllocError>
        ensures { IfOk result (λ a. a ≡ with_fixed variable self.now) }
    {
        let mut fixed = Vec::from_slice(alloc, &self.fixed)?;
        fixed.insert(0, variable)?;
        Ok(Around {
            body: self.body,
            fixed,
            locked: Vec::from_slice(alloc, &self.locked)?,
        })
    }

    /// The body that is judged.
    pub fn body(&self) -> Body
        ensures { result ≡ self.now.body }
    {
        self.body
    }

    /// Whether a statement may write a variable.
    pub fn may_write(&self, variable: usize) -> bool
        ensures { result ≡ may_write self.now variable }
    {
        !is_fixed(&self.fixed, variable)
    }

    pub fn is_locked(&self, crate_no: u32) -> bool
        ensures { result ≡ is_among crate_no self.now.locked }
    {
        is_locked(&self.locked, crate_no)
    }
}

fn is_fixed(list: &[usize], variable: usize) -> bool
    ensures { result ≡ is_among variable list.now }
{
    match list {
        [] => false,
        [first, rest @ ..] => variable == *first || is_fixed(rest, variable),
    }
}

fn is_locked(list: &[u32], crate_no: u32) -> bool
    ensures { result ≡ is_among crate_no list.now }
{
    match list {
        [] => false,
        [first, rest @ ..] => crate_no == *first || is_locked(rest, crate_no),
    }
}
