//! What is answered for the bytes of a trace.
ghost use Rattle.std.specs.Prelude.{◌≡◌, ◌≢◌, ◌≤◌, ◌<◌};
ghost use Rattle.std.specs.Io.KnownBytes.{Keeps};
ghost use Rattle.io_edge.specs.Edge.{AppendsStart, Rose};
ghost use Rattle.law_check.specs.Finding.{IsLawfulTrace, line_of};
ghost use Rattle.command_line.specs.Check.{status_of, DueForTrace};
ghost use Rattle.command_line.specs.Due.{Whole, Part};
ghost use Rattle.command_line.specs.declared.status.Status.TheVariants.{Done, BadTrace, WriteFailed, NoMemory as Memory};

use crate::Status;
use crate::answer::tell;
use io_edge::Sink;
use ipc_ids::NoMemory;
use law_check::{Finding, check_trace, finding_text};
use std::alloc::Global;

// The status that a finding comes to.
fn status_of(finding: Finding) -> Status
    ensures value { result ≡ status_of finding }
    ensures whole { result ≢ WriteFailed }
    ensures found { result ≢ Memory }
{
    match finding {
        Finding::Lawful { .. } => Status::Done,
        Finding::TooLong | Finding::Unreadable { .. } | Finding::Breaks(_) => Status::BadTrace,
    }
}

/// Checks bytes as a trace, and writes the line of what is found.
pub fn check_bytes<K: Sink>(alloc: Global, bytes: &[u8], sink: &mut K) -> Status
    ensures whole { Whole (DueForTrace bytes.now) (K.written sink.old) (K.written sink.new) result }
    ensures part { result ≡ WriteFailed →
        Part (DueForTrace bytes.now) (K.written sink.old) (K.written sink.new) }
    ensures memory { result ≡ Memory → Keeps (K.written sink.old) (K.written sink.new) }
    ensures write_failed { result ≡ WriteFailed → Rose (K.faults sink.old) (K.faults sink.new) }
    ensures risen { K.faults sink.old < K.faults sink.new → result ≡ WriteFailed }
    ensures later { K.faults sink.old ≤ K.faults sink.new }
    ensures done { result ≡ Done → IsLawfulTrace bytes.now }
    ensures bad { result ≡ BadTrace → IsLawfulTrace bytes.now → ⊥ }
{
    let finding = match check_trace(alloc, bytes) {
        Ok(finding) => finding,
        Err(NoMemory) => return Status::NoMemory,
    };
    match finding_text(alloc, finding) {
        Ok(text) => tell(status_of(finding), &text, sink),
        Err(NoMemory) => Status::NoMemory,
    }
}
