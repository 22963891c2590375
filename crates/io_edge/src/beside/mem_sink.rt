//! A sink in memory, whose puts can be told to fail.
ghost use Rattle.std.specs.Prelude.{◌≡◌, ◌≤◌, ◌<◌, ◌↔◌, ◌+◌, ◌^◌, ◌++◌, [], ◌∷◌, IsOk, IfOk};
ghost use Rattle.std.specs.Prelude.{OnOk, OnErr, Some, None, length, map};
ghost use Rattle.io_edge.specs.Edge.{AppendsStart, Rose, next_count};
ghost use Rattle.io_edge.specs.Memory.{empty_sink, with_failing_put, kept_by, next_kept, Fits};
ghost use Rattle.io_edge.specs.Memory.{bytes_after_failure};
ghost use Rattle.io_edge.specs.Stops.{stop_pair};

use crate::{PutFailed, Sink};
use ipc_ids::NoMemory;
use std::alloc::Global;
use std::marker::Model;

// A put that fails, and how many bytes of it are kept.
#[derive(Clone, Copy, Drop)]
struct Stop {
    put: u64,
    kept: usize,
}

/// A sink that tells its bytes, with room for so many.
#[derive(Drop)]
pub struct MemSink {
    bytes: Vec<u8>,
    room: usize,
    puts: u64,
    faults: u64,
    stops: Vec<Stop>,
}

impl Model for MemSink {
    ghost use Rattle.std.specs.Prelude.{map, ◌≤◌, vec_len, vec_capacity};
    ghost use Rattle.io_edge.specs.Memory.{SinkState};
    ghost use Rattle.io_edge.specs.Stops.{stop_pair};

    ghost Value = { SinkState };

    ghost view = { λ sink. record {
      bytes = sink.bytes.items;
      room = sink.room;
      puts = sink.puts;
      faults = sink.faults;
      puts_to_fail = map stop_pair sink.stops.items;
    } };

    // The bytes are within the room, all of which was taken at the start.
    ghost invariant = { λ sink.
        (vec_len sink.bytes ≤ sink.room) × (sink.room ≤ vec_capacity sink.bytes) };
}

// How many bytes of the put of this number are kept, if it is to fail.
fn kept_of(stops: &[Stop], put: u64) -> Option<usize>
    ensures { result ≡ kept_by (map stop_pair stops.now) put }
{
    for stop in stops {
        if stop.put == put {
            return Some(stop.kept);
        }
    }
    None
}

impl MemSink {
    /// An empty sink with room for `room` bytes, which it takes at once.
    pub fn new(alloc: Global, room: usize) -> Result<MemSink, NoMemory>
        ensures { IfOk result (λ sink. sink ≡ empty_sink room) }
    {
        Ok(MemSink {
            bytes: Vec::with_capacity(alloc, room)?,
            room,
            puts: 0,
            faults: 0,
            stops: Vec::new(alloc),
        })
    }

    /// The `nth` put from now, counted from 1, fails after `kept` bytes, or after the whole
    /// piece if that is shorter.
    pub fn fail_at(&mut self, nth: u64, kept: usize) -> Result<(), NoMemory>
        ensures ok { OnOk result (self.new ≡ with_failing_put self.old (self.old.puts + nth) kept) }
        ensures unchanged { OnErr result (self.new ≡ self.old) }
    {
        if let Some(put) = self.puts.checked_add(nth) {
            self.stops.push(Stop { put, kept })?;
        }
        Ok(())
    }

    /// All bytes that were written.
    pub fn written(&self) -> &[u8]
        ensures { result.now ≡ self.now.bytes }
    {
        &self.bytes
    }
}

impl Sink for MemSink {
    ghost written = { λ sink. Some sink.bytes };

    ghost faults = { λ sink. sink.faults };

    fn put(&mut self, piece: &[u8]) -> Result<(), PutFailed>
        ensures ok { OnOk result (self.new.bytes ≡ self.old.bytes ++ piece.now) }
        ensures err { OnErr result (
            AppendsStart (Some self.old.bytes) (Some self.new.bytes) piece.now) }
        ensures none { OnOk result (self.new.faults ≡ self.old.faults) }
        ensures cause { OnErr result (self.new.faults ≡ next_count self.old.faults) }
        ensures later { self.old.faults ≤ self.new.faults }
        ensures last { self.new.faults < 2 ^ 64 }
        // It fails exactly where the call is listed or the piece passes the room.
        ensures succeeds { IsOk result ↔ (next_kept self.old ≡ None) × Fits self.old piece.now }
        ensures kept { OnErr result (self.new.bytes ≡ bytes_after_failure self.old piece.now) }
        ensures counted { self.new.puts ≡ next_count self.old.puts }
        ensures same { (self.new.room ≡ self.old.room)
            × (self.new.puts_to_fail ≡ self.old.puts_to_fail) }
    {
        let faults = self.faults;
        self.puts = self.puts.saturating_add(1);
        let left = self.room - self.bytes.len();
        let stop = kept_of(&self.stops, self.puts);
        if stop.is_none() && piece.len() <= left {
            self.bytes.extend_from_slice(piece).unwrap();
            return Ok(());
        }
        let kept = stop.unwrap_or(piece.len()).min(left).min(piece.len());
        self.bytes.extend_from_slice(&piece[..kept]).unwrap();
        self.faults = faults.saturating_add(1);
        Err(PutFailed)
    }
}
