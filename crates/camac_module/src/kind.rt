//! What a command does beside moving its data.

ghost use Rattle.std.specs.Prelude.{◌≡◌};
ghost use Rattle.camac_module.specs.Kind.{clears, is_probe, kind_of};

/// What a command does beside moving its data (own).
#[derive(Clone, Copy, Debug, PartialEq, Eq)]
pub enum CommandKind {
    /// Nothing more.
    Plain,
    /// It clears the look-at-me of its module.
    Clearing,
    /// It is a probe: a command at a sub-address without a register, which a scan may reach. Its width is 24.
    Probe,
}

impl CommandKind {
    /// The kind of a command that is a probe, or else clears, or neither.
    pub fn of(probe: bool, clears: bool) -> CommandKind
        ensures { result ≡ kind_of probe clears }
    {
        match (probe, clears) {
            (true, _) => CommandKind::Probe,
            (false, true) => CommandKind::Clearing,
            (false, false) => CommandKind::Plain,
        }
    }

    /// Whether it is a probe.
    pub fn is_probe(self) -> bool
        ensures { result ≡ is_probe self }
    {
        self == CommandKind::Probe
    }

    /// Whether it clears the look-at-me of its module.
    pub fn clears(self) -> bool
        ensures { result ≡ clears self }
    {
        self == CommandKind::Clearing
    }
}
