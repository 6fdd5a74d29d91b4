ghost use Rattle.std.specs.Prelude.{◌≡◌};
ghost use Rattle.calculus.specs.Kinds.{other};

/// The sign of a formula: T is given, F is to be shown.
#[derive(Clone, Copy, Debug, PartialEq, Eq)]
pub enum Sign {
    T,
    F,
}

impl Sign {
    /// The sign that a negation gives to its part.
    pub fn other(self) -> Sign
        ensures { result ≡ other self }
    {
        match self {
            Sign::T => Sign::F,
            Sign::F => Sign::T,
        }
    }
}

/// The side that a selection follows where an alpha formula has two components.
#[derive(Clone, Copy, Debug, PartialEq, Eq)]
pub enum Side {
    Left,
    Right,
}
