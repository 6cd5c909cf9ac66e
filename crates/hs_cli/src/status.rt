//! How a call ended.

ghost use Rattle.std.specs.Prelude.{◌≡◌};
ghost use Rattle.hs_cli.specs.Status.{code_of};

/// How a call ended.
#[derive(Clone, Copy, Debug, PartialEq, Eq)]
pub enum Status {
    /// The command was carried out.
    Done,
    /// The source breaks a rule.
    Refused,
    /// The words match no form.
    Usage,
    /// The files lack the name.
    NotThere,
    /// The document of vectors is not readable or breaks its form.
    BadVectors,
    /// A case of the report is not `ok`.
    Failing,
    /// A file was not read. The count of faults of the files rose.
    ReadFault,
    /// A sink took no more. The count of faults of a sink rose.
    WriteFault,
    /// There was no memory.
    NoMemory,
    /// A file is longer than its limit.
    TooLarge,
}

impl Status {
    /// The number that the program ends with: 0 to 9, in the order of the variants.
    pub fn code(&self) -> u8
        ensures { result ≡ code_of self.now }
    {
        match self {
            Status::Done => 0,
            Status::Refused => 1,
            Status::Usage => 2,
            Status::NotThere => 3,
            Status::BadVectors => 4,
            Status::Failing => 5,
            Status::ReadFault => 6,
            Status::WriteFault => 7,
            Status::NoMemory => 8,
            Status::TooLarge => 9,
        }
    }
}
