//! How a command ended.
ghost use Rattle.std.specs.Prelude.{◌≡◌};
ghost use Rattle.cli_refusals.specs.Code.{code_of};

/// What the program answers.
#[derive(Clone, Copy, Debug, PartialEq, Eq)]
pub enum Status {
    Done,
    Usage,
    ReadFault,
    WriteFault,
    TooLong,
    SchemaRefused,
    BagRefused,
    TypeRefused,
    CellRefused,
    TextRefused,
    ValueRefused,
    PathRefused,
    ProofRefused,
    NoMemory,
}

impl Status {
    /// The exit status of the program.
    pub fn code(&self) -> u8
        ensures { result ≡ code_of self.now }
    {
        *self as u8
    }
}
