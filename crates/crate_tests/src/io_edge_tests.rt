//! The calls that want memory where there is enough of it, and reads and writes that are cut short.
use io_edge::{LoadFault, MemShelf, MemSink, OutSink, Shelf, Sink, read_most};
use ipc_ids::NoMemory;
use std::alloc::Global;
use std::io;
use std::io::{ErrorKind, Read, Write};

/// A name, how many bytes are asked for at most, and the bytes that come; none where the load
/// fails.
type Load<'a> = (&'a str, usize, Option<&'a [u8]>);

/// A piece, and whether it is written whole.
type Put<'a> = (&'a [u8], bool);

fn gives<S: Shelf>(shelf: &mut S, alloc: Global, load: Load) -> bool {
    let (name, most, wanted) = load;
    match (shelf.load(alloc, name, most), wanted) {
        (Ok(bytes), Some(wanted)) => bytes.as_slice() == wanted,
        (Err(fault), None) => fault == LoadFault::Failed,
        _ => false,
    }
}

/// Whether these loads come to that, one after the other.
fn gives_all<S: Shelf>(shelf: &mut S, alloc: Global, loads: &[Load]) -> bool {
    for load in loads {
        if !gives(shelf, alloc, *load) {
            return false;
        }
    }
    true
}

/// Whether these puts come to that, one after the other.
fn takes_all<S: Sink>(sink: &mut S, puts: &[Put]) -> bool {
    for (piece, whole) in puts {
        if sink.put(piece).is_ok() != *whole {
            return false;
        }
    }
    true
}

/// Two files, one of them added twice; the third load fails.
fn fill(shelf: &mut MemShelf) -> Result<(), NoMemory> {
    shelf.add("a", b"old")?;
    shelf.add("b", b"other")?;
    shelf.add("a", b"newer")?;
    shelf.fail_at(3)
}

fn memory_gives(alloc: Global, loads: &[Load]) -> bool {
    let mut shelf = MemShelf::new(alloc);
    fill(&mut shelf).is_ok() && gives_all(&mut shelf, alloc, loads)
}

#[test]
fn a_shelf_in_memory_gives_the_newest_bytes(rt: HostRuntime) {
    let loads: [Load; 5] = [
        ("a", 100, Some(b"newer")),
        ("a", 2, Some(b"ne")),
        ("b", 100, None),
        ("b", 100, Some(b"other")),
        ("c", 100, None),
    ];
    assert!(rt; memory_gives(rt.alloc(), &loads));
}

fn memory_takes(alloc: Global, puts: &[Put], written: &[u8]) -> bool {
    match MemSink::new(alloc, 8) {
        Ok(mut sink) => {
            sink.fail_at(2, 1).is_ok() && takes_all(&mut sink, puts) && sink.written() == written
        }
        Err(_) => false,
    }
}

#[test]
fn a_sink_in_memory_keeps_what_fits(rt: HostRuntime) {
    let puts: [Put; 4] = [
        (b"abc", true),
        (b"def", false),
        (b"ghijkl", false),
        (b"", true),
    ];
    assert!(rt; memory_takes(rt.alloc(), &puts, b"abcdghij"));
}

const TEXT: &[u8] = b"seven b";

// Gives TEXT in pieces of so many bytes; each second call is interrupted.
#[derive(Drop)]
struct SlowReader {
    piece: usize,
    given: usize,
    calls: u32,
    // the call that fails, if it comes
    broken: u32,
}

impl Read for SlowReader {
    fn read(&mut self, into: &mut [u8]) -> io::Result<usize> {
        self.calls = self.calls.wrapping_add(1);
        if self.calls == self.broken {
            return Err(io::Error::from(ErrorKind::TimedOut));
        }
        if self.calls % 2 == 0 {
            return Err(io::Error::from(ErrorKind::Interrupted));
        }
        let left = &TEXT[self.given.min(TEXT.len())..];
        let count = left.len().min(into.len()).min(self.piece);
        into[..count].copy_from_slice(&left[..count]);
        self.given = self.given.saturating_add(count);
        Ok(count)
    }
}

fn slow_reader(piece: usize, broken: u32) -> SlowReader {
    SlowReader {
        piece,
        given: 0,
        calls: 0,
        broken,
    }
}

fn reads(alloc: Global, piece: usize, most: usize, wanted: &[u8]) -> bool {
    match read_most(alloc, slow_reader(piece, 0), most) {
        Ok(bytes) => bytes.as_slice() == wanted,
        Err(_) => false,
    }
}

fn tells_the_fault(alloc: Global) -> bool {
    match read_most(alloc, slow_reader(2, 3), 100) {
        Ok(_) => false,
        Err(e) => e.kind() == ErrorKind::TimedOut,
    }
}

#[test]
fn an_interrupted_read_is_tried_again(rt: HostRuntime) {
    let alloc = rt.alloc();
    assert!(rt; reads(alloc, 2, 100, TEXT));
    assert!(rt; reads(alloc, 1, 100, TEXT));
    assert!(rt; reads(alloc, 2, 7, TEXT));
    assert!(rt; reads(alloc, 2, 3, b"sev"));
    assert!(rt; reads(alloc, 2, 0, b""));
    assert!(rt; tells_the_fault(alloc));
}

// Takes pieces of so many bytes; each second call is interrupted. With no room left it takes 0 bytes.
#[derive(Drop)]
struct SlowWriter {
    bytes: Vec<u8>,
    piece: usize,
    room: usize,
    calls: u32,
}

impl Write for SlowWriter {
    fn write(&mut self, piece: &[u8]) -> io::Result<usize> {
        self.calls = self.calls.wrapping_add(1);
        if self.calls % 2 == 0 {
            return Err(io::Error::from(ErrorKind::Interrupted));
        }
        let left = self.room.saturating_sub(self.bytes.len());
        let count = piece.len().min(left).min(self.piece);
        self.bytes.extend_from_slice(&piece[..count])?;
        Ok(count)
    }

    fn flush(&mut self) -> io::Result<()> {
        Ok(())
    }
}

fn writer_takes(alloc: Global, piece: usize, puts: &[Put], written: &[u8]) -> bool {
    let mut writer = SlowWriter {
        bytes: Vec::new(alloc),
        piece,
        room: 7,
        calls: 0,
    };
    let mut sink = OutSink::new(&mut writer);
    takes_all(&mut sink, puts) && writer.bytes.as_slice() == written
}

#[test]
fn a_short_write_goes_on(rt: HostRuntime) {
    let puts: [Put; 4] = [(b"abcde", true), (b"", true), (b"fghi", false), (b"", true)];
    assert!(rt; writer_takes(rt.alloc(), 2, &puts, b"abcdefg"));
    assert!(rt; writer_takes(rt.alloc(), 1, &puts, b"abcdefg"));
}
