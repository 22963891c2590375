//! Why a script or a schedule is not read.
ghost use Rattle.std.specs.Prelude.{◌≡◌};
ghost use Rattle.script_lines.specs.Text.{text_of_reason};
ghost use Rattle.script_lines.specs.declared.fault.LineFault.TheVariants.{Bad, NoMemory as LineNoMemory};
ghost use Rattle.script_lines.specs.declared.fault.ScriptFault.TheVariants as scripts;
ghost use Rattle.script_lines.specs.declared.fault.ScheduleFault.TheVariants as schedules;

use ipc_ids::NoMemory;
use std::alloc::{AllocError, AllocFailed};
use std::fmt;

/// Why a file is not read, as the text after the number of its line says it.
#[derive(Clone, Copy, Debug, PartialEq, Eq)]
pub enum Reason {
    /// The file has more than 1,048,576 bytes. Its line is 0.
    TooLong,
    /// A byte of the line is none that a line may have.
    BadByte,
    /// No line begins with this word.
    UnknownOperation,
    /// The line does not stand where the task or the body before it takes it.
    OutOfPlace,
    /// No form of the line has so many words.
    WrongCount,
    /// In each form with so many words some word is not of its kind.
    BadWord,
    /// No task on an earlier line has this name; in a schedule, no task of the script or of an
    /// earlier line, and behind `spawn` no template.
    UnknownName,
    /// An earlier task or template has this name, or it is `ns`.
    NameTaken,
    /// The phone is out of its task's range, or leads somewhere already.
    BadPhone,
    /// There are as many tasks, templates, bodies of this kind or operations in the body as there
    /// may be.
    TooMany,
    /// There is no room for so many events more.
    TooManyEvents,
}

impl Reason {
    /// The words that say this reason.
    fn text(&self) -> &'static str
        ensures { result.now ≡ text_of_reason self.now }
    {
        match self {
            Reason::TooLong => "too long",
            Reason::BadByte => "bad byte",
            Reason::UnknownOperation => "unknown operation",
            Reason::OutOfPlace => "out of place",
            Reason::WrongCount => "wrong number of words",
            Reason::BadWord => "bad word",
            Reason::UnknownName => "unknown name",
            Reason::NameTaken => "name taken",
            Reason::BadPhone => "bad phone",
            Reason::TooMany => "too many",
            Reason::TooManyEvents => "too many events",
        }
    }
}

impl fmt::Display for Reason {
    ghost use Rattle.std.specs.Prelude.{Some};
    ghost use Rattle.script_lines.specs.Text.{text_of_reason};

    ghost output = { λ reason. Some (text_of_reason reason) };

    fn fmt<W: fmt::Write>(&self, f: &mut fmt::Formatter<W>) -> fmt::Result {
        f.write_str(self.text())
    }
}

/// Why a script is not read.
#[derive(Clone, Copy)]
pub enum ScriptFault {
    /// The first line at fault, numbered from 1. Line 0 is at fault where the file is too long.
    Bad { line: u64, reason: Reason },
    /// No memory was found.
    NoMemory,
}

/// Why a schedule is not read.
#[derive(Clone, Copy)]
pub enum ScheduleFault {
    /// The first line at fault, numbered from 1. Line 0 is at fault where the file is too long.
    Bad { line: u64, reason: Reason },
    /// No memory was found.
    NoMemory,
}

/// Why a line is not read.
#[derive(Clone, Copy)]
pub enum LineFault {
    Bad(Reason),
    NoMemory,
}

impl From<Reason> for LineFault {
    ghost from_gives = { λ reason e. e ≡ Bad reason };

    fn from(reason: Reason) -> LineFault {
        LineFault::Bad(reason)
    }
}

impl From<NoMemory> for LineFault {
    ghost from_gives = { λ _ e. e ≡ LineNoMemory };

    fn from(_error: NoMemory) -> LineFault {
        LineFault::NoMemory
    }
}

impl From<AllocError> for LineFault {
    ghost from_gives = { λ _ e. e ≡ LineNoMemory };

    fn from(_error: AllocError) -> LineFault {
        LineFault::NoMemory
    }
}

impl<T: Drop> From<AllocFailed<T>> for LineFault {
    ghost from_gives = { λ _ e. e ≡ LineNoMemory };

    fn from(_error: AllocFailed<T>) -> LineFault {
        LineFault::NoMemory
    }
}

impl From<AllocError> for ScriptFault {
    ghost from_gives = { λ _ e. e ≡ scripts.NoMemory };

    fn from(_error: AllocError) -> ScriptFault {
        ScriptFault::NoMemory
    }
}

impl From<NoMemory> for ScriptFault {
    ghost from_gives = { λ _ e. e ≡ scripts.NoMemory };

    fn from(_error: NoMemory) -> ScriptFault {
        ScriptFault::NoMemory
    }
}

impl From<AllocError> for ScheduleFault {
    ghost from_gives = { λ _ e. e ≡ schedules.NoMemory };

    fn from(_error: AllocError) -> ScheduleFault {
        ScheduleFault::NoMemory
    }
}

impl From<NoMemory> for ScheduleFault {
    ghost from_gives = { λ _ e. e ≡ schedules.NoMemory };

    fn from(_error: NoMemory) -> ScheduleFault {
        ScheduleFault::NoMemory
    }
}
