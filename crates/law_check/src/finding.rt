//! What a check of bytes as a trace finds.
ghost use Rattle.std.specs.Prelude.{◌≡◌, ◌↔◌, IfOk};
ghost use Rattle.law_check.specs.Finding.{IsFinding, IsLawfulTrace, IsLawfulFinding, line_of, unreadable_line, entries_part, calls_part, lawful_line, breaks_line};

use crate::reading::Reading;
use crate::verdict::Verdict;
use ipc_ids::NoMemory;
use std::alloc::Global;
use trace_reader::Reader;

const MOST: usize = 16_777_216;

/// What bytes are, as a trace.
#[derive(Clone, Copy)]
pub enum Finding {
    /// More bytes than a trace may have.
    TooLong,
    /// The first line that is the text of no entry, or lacks its line feed.
    Unreadable { line: u64 },
    /// A trace that keeps the laws, of so many entries and calls.
    Lawful { entries: u64, calls: u64 },
    /// A trace; the first law that it breaks.
    Breaks(u32),
}

/// Whether the bytes are a trace, and one that keeps the laws. Each line is read and judged before
/// the next one, so that the entries never stand in memory together.
///
/// # Errors
///
/// `NoMemory` where memory ran out.
pub fn check_trace(alloc: Global, bytes: &[u8]) -> Result<Finding, NoMemory>
    ensures is { IfOk result (λ finding. IsFinding bytes.now finding) }
    ensures lawful { IfOk result (λ finding. IsLawfulFinding finding ↔ IsLawfulTrace bytes.now) }
{
    if bytes.len() > MOST {
        return Ok(Finding::TooLong);
    }
    let mut reader = Reader::new();
    let mut reading = Reading::new(alloc);
    let mut rest = bytes;
    while !rest.is_empty() {
        match reader.first_entry(rest) {
            Some((entry, behind)) => {
                reading.take(entry)?;
                rest = behind;
            }
            None => {
                return Ok(Finding::Unreadable {
                    line: reading.entries + 1,
                })
            }
        }
    }
    let entries = reading.entries;
    match reading.laws.verdict() {
        Verdict::Lawful { calls } => Ok(Finding::Lawful { entries, calls }),
        Verdict::Breaks(law) => Ok(Finding::Breaks(law)),
    }
}

fn unreadable_text(alloc: Global, line: u64) -> Result<Vec<u8>, NoMemory>
    ensures { IfOk result (λ text. text.items ≡ unreadable_line line) }
{
    let text = format!(in alloc; "trace line {line}: unreadable\n")?;
    Ok(text.into_bytes())
}

fn entries_text(alloc: Global, entries: u64) -> Result<Vec<u8>, NoMemory>
    ensures { IfOk result (λ text. text.items ≡ entries_part entries) }
{
    let text = format!(in alloc; "trace ok entries {entries}")?;
    Ok(text.into_bytes())
}

fn calls_text(alloc: Global, calls: u64) -> Result<Vec<u8>, NoMemory>
    ensures { IfOk result (λ text. text.items ≡ calls_part calls) }
{
    let text = format!(in alloc; " calls {calls}\n")?;
    Ok(text.into_bytes())
}

fn lawful_text(alloc: Global, entries: u64, calls: u64) -> Result<Vec<u8>, NoMemory>
    ensures { IfOk result (λ text. text.items ≡ lawful_line entries calls) }
{
    let mut text = entries_text(alloc, entries)?;
    let rest = calls_text(alloc, calls)?;
    text.extend_from_slice(&rest)?;
    Ok(text)
}

fn breaks_text(alloc: Global, law: u32) -> Result<Vec<u8>, NoMemory>
    ensures { IfOk result (λ text. text.items ≡ breaks_line law) }
{
    let text = format!(in alloc; "trace breaks L{law}\n")?;
    Ok(text.into_bytes())
}

/// The line of a finding.
pub fn finding_text(alloc: Global, finding: Finding) -> Result<Vec<u8>, NoMemory>
    ensures { IfOk result (λ text. text.items ≡ line_of finding) }
{
    match finding {
        Finding::TooLong => {
            let text = format!(in alloc; "trace line 0: too long\n")?;
            Ok(text.into_bytes())
        }
        Finding::Unreadable { line } => unreadable_text(alloc, line),
        Finding::Lawful { entries, calls } => lawful_text(alloc, entries, calls),
        Finding::Breaks(law) => breaks_text(alloc, law),
    }
}
