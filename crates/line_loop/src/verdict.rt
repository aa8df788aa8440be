//! What an answer says of the input.
ghost use Rattle.std.specs.Prelude.{◌≡◌};
ghost use Rattle.line_loop.specs.Run.{is_fault};

/// What an answer says of the input, for the exit status.
#[derive(Clone, Copy)]
pub enum Verdict {
    /// Nothing is wrong with it.
    Fine,
    /// It has a fault, or what it asks for was refused: the exit status of the run is 1.
    Fault,
}

impl Verdict {
    pub fn is_fault(self) -> bool
        ensures { result ≡ is_fault self }
    {
        match self {
            Verdict::Fine => false,
            Verdict::Fault => true,
        }
    }
}
