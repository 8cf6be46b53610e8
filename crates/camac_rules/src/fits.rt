// Whether a checked script fits stores of fixed size.

ghost use Rattle.std.specs.Prelude.{◌≡◌, true};
ghost use Rattle.camac_lang.specs.Fits.{fits};

use crate::checked::Checked;
use camac_lang::fits;

impl Checked {
    /// Whether there is room for the script: for its variables and all parameters of procedures among `v`, for the registers of each
    /// service and those of all procedures among `v`, for its depth, calls counted, and for the event of each service.
    pub fn fits(&self, v: usize, depth: usize, cap: usize) -> bool
        ensures { result ≡ fits self.now.script v depth cap }
    {
        fits(self.script(), v, depth, cap)
    }

    /// The law that 64 variables, 64 registers, a depth of 16 and events of 4,096 words are room for each checked script.
    pub fn fits_greatest(&self)
        ensures { fits self.now.script 64 16 4096 ≡ true }
    {
        self.is_checked();
        self.script().well_formed();
        self.plan().is_plan();
    }
}
