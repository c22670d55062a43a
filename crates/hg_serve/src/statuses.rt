//! How a run ends.

/// How a run ends. Its number is the status of the program.
#[derive(Clone, Copy, PartialEq, Eq, Debug)]
pub enum Status {
    Clean,
    Errors,
    Usage,
    SourceFault,
    SinkFault,
    NoMemory,
    TooLong,
}

impl Status {
    ghost use Rattle.std.specs.Prelude.{◌≡◌};
    ghost use Rattle.hg_serve.specs.Number.{number_of};

    /// The status of the program.
    pub fn number(self) -> u8
        ensures { result ≡ number_of self }
    {
        match self {
            Status::Clean => 0,
            Status::Errors => 1,
            Status::Usage => 2,
            Status::SourceFault => 3,
            Status::SinkFault => 4,
            Status::NoMemory => 5,
            Status::TooLong => 6,
        }
    }
}
