//! Reads what a goal asks of one state.
ghost use Rattle.std.specs.Prelude.{◌≡◌};
ghost use Rattle.search_goals.specs.Conditions.{register_in, holding};
ghost use Rattle.search_goals.specs.Conditions.{of_subject, numbered, asked_of};

use crate::stops::{Stop, cut_at};
use ipc_ids::{FibrilNo, TaskNo};
use script_lines::number;

/// Whose state a condition is about: a task or, where `fibril` is one, that fibril of it.
#[derive(Clone, Copy)]
pub struct Subject {
    pub task: TaskNo,
    pub fibril: Option<FibrilNo>,
}

/// What is asked of one state.
#[derive(Clone, Copy)]
pub enum Condition {
    /// The next operation is this one of the body, from 0 on.
    At(Subject, u64),
    /// This register, 0 to 31, holds that.
    Holds(Subject, u32, u64),
    /// The body has no next operation.
    AtEnd(Subject),
    /// The task was killed.
    Killed(TaskNo),
}

/// The register `rK`, of 32.
fn register_in(word: &[u8]) -> Option<u32>
    ensures { result ≡ register_in word.now }
{
    match word {
        [b'r', digits @ ..] => match number(digits) {
            Some(register) if register < 32 => Some(register as u32),
            _ => None,
        },
        _ => None,
    }
}

/// `rK=N`: register K holds N.
fn holding(subject: Subject, word: &[u8]) -> Option<Condition>
    ensures { result ≡ holding subject word.now }
{
    let (name, value) = cut_at(Stop::Mark(b'='), word);
    let [b'=', digits @ ..] = value else {
        return None;
    };
    match (register_in(name), number(digits)) {
        (Some(register), Some(value)) => Some(Condition::Holds(subject, register, value)),
        _ => None,
    }
}

/// What the bytes behind a task and its fibril ask.
fn of_subject(subject: Subject, bytes: &[u8]) -> Option<Condition>
    ensures { result ≡ of_subject subject bytes.now }
{
    match bytes {
        [b'$'] => Some(Condition::AtEnd(subject)),
        [b'@', digits @ ..] => match number(digits) {
            Some(place) => Some(Condition::At(subject, place)),
            None => None,
        },
        [b'.', word @ ..] => holding(subject, word),
        _ => None,
    }
}

/// What the bytes behind a task and `/` ask of a fibril of it.
fn numbered(task: TaskNo, bytes: &[u8]) -> Option<Condition>
    ensures { result ≡ numbered task bytes.now }
{
    let (digits, rest) = cut_at(Stop::NameEnd, bytes);
    match number(digits) {
        Some(fibril) => of_subject(
            Subject {
                task,
                fibril: Some(FibrilNo(fibril)),
            },
            rest,
        ),
        None => None,
    }
}

/// What the bytes behind the name of a task ask; `None` where they ask nothing.
pub(crate) fn asked_of(task: TaskNo, bytes: &[u8]) -> Option<Condition>
    ensures { result ≡ asked_of task bytes.now }
{
    match bytes {
        [b'!'] => Some(Condition::Killed(task)),
        [b'/', behind @ ..] => numbered(task, behind),
        _ => of_subject(Subject { task, fibril: None }, bytes),
    }
}
