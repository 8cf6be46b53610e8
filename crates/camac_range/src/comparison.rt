// How two numbers are compared.

ghost use Rattle.std.specs.Prelude.{◌≡◌};
ghost use Rattle.camac_range.specs.Compare.{opposite, turned};

/// A comparison of two numbers.
#[derive(Clone, Copy, Debug, PartialEq, Eq)]
pub enum Cmp {
    /// `<`
    Less,
    /// `<=`
    AtMost,
    /// `>`
    More,
    /// `>=`
    AtLeast,
    /// `==`
    Same,
    /// `!=`
    Differs,
}

impl Cmp {
    /// The comparison that holds exactly where this one does not.
    pub fn opposite(self) -> Self
        ensures { result ≡ opposite self }
    {
        match self {
            Cmp::Less => Cmp::AtLeast,
            Cmp::AtMost => Cmp::More,
            Cmp::More => Cmp::AtMost,
            Cmp::AtLeast => Cmp::Less,
            Cmp::Same => Cmp::Differs,
            Cmp::Differs => Cmp::Same,
        }
    }

    /// The same comparison with its sides exchanged.
    pub fn turned(self) -> Self
        ensures { result ≡ turned self }
    {
        match self {
            Cmp::Less => Cmp::More,
            Cmp::AtMost => Cmp::AtLeast,
            Cmp::More => Cmp::Less,
            Cmp::AtLeast => Cmp::AtMost,
            Cmp::Same => Cmp::Same,
            Cmp::Differs => Cmp::Differs,
        }
    }
}
