//! How the program ends.
ghost use Rattle.std.specs.Prelude.{◌≡◌};
ghost use Rattle.std.specs.Process.{exit_status};
ghost use Rattle.command_line.specs.Status.{number_of};

use std::process::ExitCode;

/// How a command ended. All but the last two say that the text that is due was written whole.
#[derive(Clone, Copy, PartialEq, Eq, Drop)]
pub enum Status {
    /// Both files were read to their end, and the text of the run was written.
    Done,
    /// The words are no command; the usage line was written.
    Usage,
    /// A file could not be loaded; a line that names it was written.
    CannotRead,
    /// The script is outside its grammar; a line with its first fault was written.
    BadScript,
    /// The schedule is outside its grammar; a line with its first fault was written.
    BadSchedule,
    /// A trace that is checked is too long, cannot be read or breaks a law; a line that says so was
    /// written.
    BadTrace,
    /// The text could not be written whole; a prefix of it was.
    WriteFailed,
    /// Memory was wanted and not found; nothing or a prefix of the text was written.
    NoMemory,
}

impl Status {
    /// The exit number of the program.
    pub fn number(self) -> u8
        ensures { result ≡ number_of self }
    {
        match self {
            Status::Done => 0,
            Status::Usage => 2,
            Status::CannotRead => 3,
            Status::BadScript => 4,
            Status::BadSchedule => 5,
            Status::WriteFailed => 6,
            Status::NoMemory => 7,
            Status::BadTrace => 8,
        }
    }

    /// How the process ends.
    pub fn exit_code(self) -> ExitCode
        ensures { exit_status result ≡ number_of self }
    {
        ExitCode::from(self.number())
    }
}
