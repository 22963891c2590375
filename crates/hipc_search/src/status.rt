//! How the program ends.
ghost use Rattle.std.specs.Prelude.{◌≡◌};
ghost use Rattle.std.specs.Process.{exit_status};
ghost use Rattle.hipc_search.specs.Status.{number_of};

use std::process::ExitCode;

/// How a search ended. All but the last two say that the text that is due was written whole.
#[derive(Clone, Copy)]
pub enum Status {
    /// A schedule leads to what is looked for, or schedules lead to the states at rest; they were
    /// written.
    Found,
    /// The states at rest to which schedules of as many events lead as there may be; they were
    /// written.
    FoundWithin,
    /// No schedule does, of any length.
    NoneAtAll,
    /// No schedule does of as many events as there may be.
    NoneWithin,
    /// There are more states than there may be, so nothing is known.
    NotKnown,
    /// The words are no command; the usage line was written.
    Usage,
    /// A file could not be loaded; a line that names it was written.
    CannotRead,
    /// The script is outside its grammar; a line with its first fault was written.
    BadScript,
    /// The schedule that comes first is outside its grammar, or too long; a line with its first
    /// fault was written.
    BadSchedule,
    /// The goal, or a list of kills or of hangups, is outside its grammar; a line with the first
    /// fault was written.
    BadGoal,
    /// The text could not be written whole; a prefix of it was.
    WriteFailed,
    /// Memory was wanted and not found; nothing was written.
    NoMemory,
}

impl Status {
    /// The exit number of the program.
    pub fn number(self) -> u8
        ensures { result ≡ number_of self }
    {
        match self {
            Status::Found => 0,
            Status::NoneAtAll => 1,
            Status::Usage => 2,
            Status::CannotRead => 3,
            Status::BadScript => 4,
            Status::BadSchedule => 5,
            Status::WriteFailed => 6,
            Status::NoMemory => 7,
            Status::NoneWithin => 9,
            Status::BadGoal => 10,
            Status::NotKnown => 11,
            Status::FoundWithin => 12,
        }
    }

    /// How the process ends.
    pub fn exit_code(self) -> ExitCode
        ensures { exit_status result ≡ number_of self }
    {
        ExitCode::from(self.number())
    }
}
