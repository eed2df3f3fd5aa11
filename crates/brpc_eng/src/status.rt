ghost use Rattle.std.specs.Prelude.{◌≡◌};

/// How the program ends.
#[derive(Clone, Copy)]
pub enum Status {
    /// The command was done.
    Done,
    /// The words ask for no command.
    WrongWords,
    /// The input is no script.
    FaultyScript,
    /// A read failed.
    SourceFailed,
    /// A write of the report failed.
    SinkFailed,
    /// More bytes came than a script may have, or than `frames` prints the frames of.
    TooLong,
    NoMemory,
    /// A link couldn't be opened.
    OpenFailed,
    /// A frame of the input is faulty.
    FaultyFrames,
}

impl Status {
    ghost use Rattle.brpc_eng.specs.StatusNumbers.{number_of};

    /// The number with which the program ends.
    pub fn number(self) -> u8
        ensures { result ≡ number_of self }
    {
        match self {
            Status::Done => 0,
            Status::WrongWords => 2,
            Status::FaultyScript => 3,
            Status::SourceFailed => 4,
            Status::SinkFailed => 5,
            Status::TooLong => 6,
            Status::NoMemory => 7,
            Status::OpenFailed => 8,
            Status::FaultyFrames => 9,
        }
    }
}
