//! Runs generated input, and sums it up in one line.
ghost use Rattle.std.specs.Prelude.{◌≡◌, ◌≢◌, ◌≤◌, ◌<◌, ◌+◌, ◌∷◌, [], length, IfOk, OnOk};
ghost use Rattle.std.specs.Io.KnownBytes.{Appends, Keeps};
ghost use Rattle.io_edge.specs.Edge.{AppendsStart, Rose};
ghost use Rattle.script_reader.specs.Schedule.{MayAllCome};
ghost use Rattle.task_system.specs.Run.{run};
ghost use Rattle.command_line.specs.Summary.{no_tally, with_entries, tally_of, first_half, second_half, tally_line, summary_line};
ghost use Rattle.command_line.specs.declared.status.Status.TheVariants.{Done, WriteFailed, NoMemory as Memory};

use crate::Status;
use crate::answer::tell;
use io_edge::Sink;
use ipc_ids::{Entry, NoMemory, Trace};
use schedule_replay::{Feed, GeneratedFeed, Replay, generated_script};
use script_reader::Script;
use std::alloc::Global;
use trace_print::entry_length;

/// How many calls a run accepts, answers, lets vanish and delivers, and how many bytes its text has.
#[derive(Clone, Copy)]
pub struct Tally {
    pub calls: u64,
    pub answered: u64,
    pub vanished: u64,
    pub delivered: u64,
    pub bytes: u64,
}

// One more, where 64 bits can count it.
fn add_one(count: &mut u64) -> Result<(), NoMemory>
    ensures { OnOk result (count.new ≡ count.old + 1) }
{
    *count = count.checked_add(1).ok_or(NoMemory)?;
    Ok(())
}

impl Tally {
    // Counts what the entry tells of a call.
    fn count(&mut self, entry: &Entry) -> Result<(), NoMemory>
        ensures { OnOk result (self.new
            ≡ record (with_entries self.old (entry.now ∷ [])) { bytes = self.old.bytes }) }
    {
        match entry {
            Entry::Accepted { .. } => add_one(&mut self.calls),
            Entry::Answered { .. } => add_one(&mut self.answered),
            Entry::Vanished(_) => add_one(&mut self.vanished),
            Entry::Delivered { .. } => add_one(&mut self.delivered),
            _ => Ok(()),
        }
    }

    // Counts an entry and its text.
    fn add(&mut self, entry: &Entry) -> Result<(), NoMemory>
        ensures { OnOk result (self.new ≡ with_entries self.old (entry.now ∷ [])) }
    {
        self.count(entry)?;
        self.bytes = self.bytes.checked_add(entry_length(entry)).ok_or(NoMemory)?;
        Ok(())
    }

    fn add_all(&mut self, entries: &[Entry]) -> Result<(), NoMemory>
        ensures { OnOk result (self.new ≡ with_entries self.old entries.now) }
    {
        for entry in entries {
            self.add(entry)?;
        }
        Ok(())
    }
}

// What the run of a script under the events of a feed comes to.
fn tally_run<F: Feed>(alloc: Global, script: &Script, feed: &mut F) -> Result<Tally, NoMemory>
    requires few { length (F.left feed.old) ≤ 65536 }
    requires may { MayAllCome (length script.now.tasks) (length script.now.templates)
        (F.left feed.old) }
    ensures { IfOk result (λ tally. tally ≡ tally_of (run script.now (F.left feed.old))) }
{
    let mut replay = Replay::new(alloc, script)?;
    let mut trace = Trace::new(alloc);
    let mut tally = Tally {
        calls: 0,
        answered: 0,
        vanished: 0,
        delivered: 0,
        bytes: 0,
    };
    while let Some(event) = feed.next() {
        trace.clear();
        match replay.step(&event, &mut trace) {
            Ok(()) => {}
            Err(NoMemory) => {
                replay.close();
                return Err(NoMemory);
            }
        }
        match tally.add_all(trace.entries()) {
            Ok(()) => {}
            Err(NoMemory) => {
                replay.close();
                return Err(NoMemory);
            }
        }
    }
    replay.close();
    Ok(tally)
}

// The first half of the line: events, calls and answers.
fn first_half(alloc: Global, events: u64, tally: Tally) -> Result<Vec<u8>, NoMemory>
    ensures { IfOk result (λ text. text.items ≡ first_half events tally) }
{
    let (calls, answered) = (tally.calls, tally.answered);
    let text = format!(in alloc; "events {events} calls {calls} answered {answered}")?;
    Ok(text.into_bytes())
}

// The second half: what vanished and what was delivered, and the bytes.
fn second_half(alloc: Global, tally: Tally) -> Result<Vec<u8>, NoMemory>
    ensures { IfOk result (λ text. text.items ≡ second_half tally) }
{
    let (vanished, delivered, bytes) = (tally.vanished, tally.delivered, tally.bytes);
    let text = format!(in alloc; " vanished {vanished} delivered {delivered} bytes {bytes}\n")?;
    Ok(text.into_bytes())
}

// The line of so many events and what they come to.
fn tally_text(alloc: Global, events: u64, tally: Tally) -> Result<Vec<u8>, NoMemory>
    ensures { IfOk result (λ text. text.items ≡ tally_line events tally) }
{
    let mut text = first_half(alloc, events, tally)?;
    let rest = second_half(alloc, tally)?;
    text.extend_from_slice(&rest)?;
    Ok(text)
}

// The line that sums up the run of generated input.
fn summary_text(alloc: Global, seed: u64, events: u64) -> Result<Vec<u8>, NoMemory>
    requires few { events ≤ 65536 }
    ensures { IfOk result (λ text. text.items ≡ summary_line seed events) }
{
    let script = generated_script(alloc)?;
    let mut feed = GeneratedFeed::new(seed, events);
    let tally = tally_run(alloc, &script, &mut feed)?;
    tally_text(alloc, events, tally)
}

/// Runs generated input and writes the line that sums it up.
pub fn tell_summary<K: Sink>(alloc: Global, seed: u64, events: u64, sink: &mut K) -> Status
    requires few { events ≤ 65536 }
    ensures ok { result ≢ WriteFailed → result ≢ Memory → (result ≡ Done)
        × Appends (K.written sink.old) (K.written sink.new) (summary_line seed events) }
    ensures part { result ≡ WriteFailed →
        AppendsStart (K.written sink.old) (K.written sink.new) (summary_line seed events) }
    ensures memory { result ≡ Memory → Keeps (K.written sink.old) (K.written sink.new) }
    ensures cause { result ≡ WriteFailed → Rose (K.faults sink.old) (K.faults sink.new) }
    ensures risen { K.faults sink.old < K.faults sink.new → result ≡ WriteFailed }
    ensures later { K.faults sink.old ≤ K.faults sink.new }
{
    match summary_text(alloc, seed, events) {
        Ok(text) => tell(Status::Done, &text, sink),
        Err(NoMemory) => Status::NoMemory,
    }
}
