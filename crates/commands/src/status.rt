//! How the program ends.
ghost use Rattle.std.specs.Prelude.{◌≡◌};
ghost use Rattle.commands.specs.Statuses.{status_number};

/// How a run ends.
#[derive(Clone, Copy, Debug, PartialEq, Eq)]
pub enum Status {
    /// Yes, or the thing asked for was printed.
    Yes,
    /// No: the walks are different, not freely homotopic or not homologous, or the certificate is rejected.
    No,
    /// The input is refused, with one line that says why.
    Refused,
    /// A file could not be read. Nothing was written.
    ReadFault,
    /// The answer could not be written whole. A first part of it was written.
    WriteFault,
    /// Memory was wanting. Nothing was written.
    OutOfMemory,
}

impl Status {
    /// The number that the program ends with.
    pub fn number(self) -> u8
        ensures { result ≡ status_number self }
    {
        match self {
            Status::Yes => 0,
            Status::No => 1,
            Status::Refused => 2,
            Status::ReadFault => 3,
            Status::WriteFault => 4,
            Status::OutOfMemory => 5,
        }
    }
}
