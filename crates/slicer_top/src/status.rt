//! How a call ends: the statuses and their exit codes.
ghost use Rattle.std.specs.Prelude.{◌≡◌};
ghost use Rattle.std.specs.Process.{exit_status};
ghost use Rattle.slicer_top.specs.Statuses.{code_of};

use std::process::ExitCode;

/// How a call ends. Each status has its exit code; a call of `run_slicer` puts a line on err for all but `Done`, where err
/// takes it.
#[derive(Clone, Copy, Debug, PartialEq, Eq)]
pub enum Status {
    /// What was asked for is written. Code 0.
    Done,
    /// The text isn't accepted, or no statement starts on one of the lines. Code 1.
    Refused,
    /// The words are outside the grammar. Code 2.
    Usage,
    /// The file couldn't be read. Code 3.
    ReadFault,
    /// What was asked for, or the line of another status on err, couldn't be written. Code 4.
    WriteFault,
    /// There was no memory for the work. Code 5.
    NoMemory,
    /// An act of the run is undefined. Code 6.
    Undefined,
    /// The run needs more acts than it may have. Code 7.
    Steps,
    /// The program nests too deep, an array, an object or the graph of it is too large, or more than 64 lines are asked
    /// for. Code 8.
    Limit,
    /// The file is longer than 1,048,576 bytes. Code 9.
    TooLong,
}

impl Status {
    ghost use Rattle.slicer_top.specs.Statuses.{code_of};

    /// The exit code.
    pub fn code(self) -> u8
        ensures { result ≡ code_of self }
    {
        match self {
            Status::Done => 0,
            Status::Refused => 1,
            Status::Usage => 2,
            Status::ReadFault => 3,
            Status::WriteFault => 4,
            Status::NoMemory => 5,
            Status::Undefined => 6,
            Status::Steps => 7,
            Status::Limit => 8,
            Status::TooLong => 9,
        }
    }
}

impl From<Status> for ExitCode {
    ghost from_gives = { λ status code. exit_status code ≡ code_of status };

    fn from(status: Status) -> ExitCode {
        ExitCode::from(status.code())
    }
}
