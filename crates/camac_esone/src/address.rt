// An address on the branch.

use std::marker::Model;

/// An address on the branch, as a script asks for it: any numbers (ESONE's CDREG).
#[derive(Clone, Copy, Debug, PartialEq, Eq)]
pub struct Address {
    /// The crate.
    pub c: u32,
    /// The station in it.
    pub n: u32,
    /// The sub-address at the station.
    pub a: u32,
}

impl Model for Address {
    ghost use Rattle.camac_branch.specs.Address.{Address as BranchAddress};

    ghost Value = { BranchAddress };

    ghost view = { λ at. record { crate_no = at.c; station = at.n; sub_address = at.a } };

    ghost inverse = { λ at. record { c = at.crate_no; n = at.station; a = at.sub_address } };
}
