//! The line of an entry.
ghost use Rattle.std.specs.Prelude.{◌≡◌, ◌↔◌, ◌+◌, ◌≤◌, [], ◌∷◌, ◌++◌, length, map, OnOk, OnErr, IsOk, IsTrue, vec_len, vec_capacity};
ghost use Rattle.trace_print.specs.Text.{text_of_entry};

use crate::comparison::Comparison;
use crate::count::Count;
use crate::effect::push_effect;
use crate::head::{push_outcome, push_request};
use crate::page::Page;
use crate::part::{push_numbered, push_task};
use crate::pen::Pen;
use ipc_ids::{Entry, NoMemory, Outcome};

#[tactic(auto, using(crate::proofs::Marks::map_append))]
fn push_line<P: Pen>(pen: &mut P, entry: &Entry)
    requires room { 256 ≤ P.left pen.old }
    ensures text { P.seen pen.new ≡ P.seen pen.old ++ map P.mark (text_of_entry entry.now) }
    ensures left { P.left pen.old ≤ P.left pen.new + 256 }
{
    match entry {
        Entry::Head(task, request) => {
            push_task(pen, *task);
            pen.byte(b' ');
            push_request(pen, request);
            pen.byte(b'\n');
        }
        Entry::Kill(task) => {
            pen.word(b"kill ");
            push_task(pen, *task);
            pen.byte(b'\n');
        }
        Entry::Gone(task) => {
            push_task(pen, *task);
            pen.word(b" ended\n");
        }
        Entry::Spawn(task) => {
            pen.word(b"spawn ");
            push_task(pen, *task);
            pen.byte(b'\n');
        }
        Entry::Outcome(Outcome::Done) => pen.word(b"  = EOK\n"),
        Entry::Outcome(Outcome::Accepted(call)) => {
            push_numbered(pen, b"  = call ", call.0);
            pen.byte(b'\n');
        }
        Entry::Outcome(outcome) => {
            pen.word(b"  = ");
            push_outcome(pen, outcome);
            pen.byte(b'\n');
        }
        effect => {
            push_effect(pen, effect);
            pen.byte(b'\n');
        }
    }
}

/// Adds the line of an entry, of at most 256 bytes, for which there is room.
#[tactic(auto, using(crate::proofs::Marks::map_same))]
pub fn push_entry<const SIZE: usize>(entry: &Entry, into: &mut Page<SIZE>)
    requires room { length into.old + 256 ≤ SIZE }
    ensures text { into.new ≡ into.old ++ text_of_entry entry.now }
{
    push_line(into, entry);
}

/// Adds the line of an entry, of at most 256 bytes, and takes no memory but for `into` itself.
///
/// # Errors
///
/// `NoMemory` where `into` found no memory for the line; never where it has room for 256 bytes
/// more.
pub fn entry_text(entry: &Entry, into: &mut Vec<u8>) -> Result<(), NoMemory>
    ensures ok { OnOk result (into.new.items ≡ into.old.items ++ text_of_entry entry.now) }
    ensures err { OnErr result (into.new.items ≡ into.old.items) }
    ensures short { length (text_of_entry entry.now) ≤ 256 }
    ensures room { vec_len into.old + 256 ≤ vec_capacity into.old → IsOk result }
    ensures capacity { vec_capacity into.old ≤ vec_capacity into.new }
{
    let mut line = Page::<256>::new();
    push_entry(entry, &mut line);
    into.extend_from_slice(line.as_slice())?;
    Ok(())
}

/// How long the line of an entry is, in bytes, without the line: at most 256.
#[tactic(auto, using(crate::proofs::Counts::count_is))]
pub fn entry_length(entry: &Entry) -> u64
    ensures length { result ≡ length (text_of_entry entry.now) }
    ensures short { length (text_of_entry entry.now) ≤ 256 }
{
    let mut count = Count { length: 0 };
    push_line(&mut count, entry);
    count.length
}

impl<'a> Comparison<'a> {
    /// Whether the line of the entry is these bytes and a line feed. It takes no memory.
    pub fn is_of(&mut self, entry: &Entry, line: &'a [u8]) -> bool
        ensures { IsTrue result ↔ (text_of_entry entry.now ≡ line.now ++ 10 ∷ []) }
    {
        self.begin(line);
        push_line(self, entry);
        self.is_whole()
    }
}
