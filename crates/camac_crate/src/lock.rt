// The lockout of auxiliary controllers, and the waits that it permits.

ghost use Rattle.std.specs.Prelude.{◌≡◌};
ghost use Rattle.camac_crate.specs.Lock.{is_locked, permitted};

/// Whether auxiliary controllers are locked out of a crate (own, after IEEE 675).
#[derive(Clone, Copy, Debug, PartialEq, Eq)]
pub enum LockState {
    /// Auxiliary controllers may take the dataway.
    Free,
    /// The branch has the dataway to itself.
    Locked,
}

impl LockState {
    /// Whether a cycle may come after `wait` auxiliary cycles, in a crate that allows `waits` of them (own, after IEEE 675):
    /// always after none, else where the crate is not locked and `wait` is at most `waits`.
    pub fn permits(self, wait: u8, waits: u8) -> bool
        ensures { result ≡ permitted (is_locked self) waits wait }
    {
        wait == 0 || (self == LockState::Free && wait <= waits)
    }
}
