//! How a call of the program ends.
ghost use Rattle.std.specs.Prelude.{◌≡◌};
ghost use Rattle.command_server.specs.Status.{number_of};

/// How a call of the program ends. Its number is the exit status of the program.
#[derive(Clone, Copy, Debug, PartialEq, Eq)]
pub enum Status {
    /// The action is done.
    Done,
    /// The words, an option or a number are outside the table of actions.
    Usage,
    /// The image stands for nothing.
    BadVolume,
    /// The disk failed.
    Device,
    /// The source failed.
    SourceFailed,
    /// The sink failed.
    SinkFailed,
    /// Memory was wanting.
    NoMemory,
    /// The input is no list of lines.
    BadStream,
    /// The input is longer than a session may be.
    Budget,
}

impl Status {
    ghost use Rattle.command_server.specs.Status.{number_of};

    /// The exit status: 0, and from 2 on.
    pub fn number(&self) -> u8
        ensures { result ≡ number_of self.now }
    {
        match self {
            Status::Done => 0,
            Status::Usage => 2,
            Status::BadVolume => 3,
            Status::Device => 4,
            Status::SourceFailed => 5,
            Status::SinkFailed => 6,
            Status::NoMemory => 7,
            Status::BadStream => 8,
            Status::Budget => 9,
        }
    }
}
