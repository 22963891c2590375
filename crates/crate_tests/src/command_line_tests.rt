//! Loads and puts that fail, each with what is answered and what was written by then, over a shelf and a
//! sink in memory.
use command_line::{Status, replay_bytes, run};
use io_edge::{MemShelf, MemSink};
use std::alloc::{AllocError, Global};
use std::test::Fail;

/// The first lesson: a call is answered.
const FIRST_CALL_SCRIPT: &[u8] = b"task a raw\n\
call 0 512 7\n\
receive\n\
task b raw\n\
receive\n\
answer r2 EOK 8\n\
wire a 0 b\n";

const FIRST_CALL_SCHEDULE: &[u8] = b"step a\n\
step b x 2\n\
step a\n";

/// The words of a command line.
fn words(alloc: Global, line: &[&str]) -> Result<Vec<String>, AllocError> {
    let mut words = Vec::new(alloc);
    for word in line {
        words.push(String::from_str(alloc, *word)?)?;
    }
    Ok(words)
}

// A word of the seventh line begins no line of a script.
const FAULTY_SCRIPT: &[u8] = b"task a raw\n\
call 0 512 7\n\
receive\n\
receive\n\
receive\n\
receive\n\
frob 1\n\
receive\n\
frob 2\n";

/// A run whose files or output fail.
#[derive(Clone, Copy)]
struct FaultRow {
    shows: &'static str,
    script: &'static [u8],
    /// The load that fails, or 0 where none does.
    load: u64,
    /// The put that fails, or 0, and how many of its bytes are kept.
    put: (u64, usize),
    status: Status,
    text: &'static [u8],
}

const FAULTS: [FaultRow; 5] = [
    FaultRow {
        shows: "the script is loaded first, and its load fails",
        script: FIRST_CALL_SCRIPT,
        load: 1,
        put: (0, 0),
        status: Status::CannotRead,
        text: b"cannot read script\n",
    },
    FaultRow {
        shows: "the schedule is loaded next, and its load fails",
        script: FIRST_CALL_SCRIPT,
        load: 2,
        put: (0, 0),
        status: Status::CannotRead,
        text: b"cannot read schedule\n",
    },
    FaultRow {
        shows: "the first put fails, and keeps nothing",
        script: FIRST_CALL_SCRIPT,
        load: 0,
        put: (1, 0),
        status: Status::WriteFailed,
        text: b"",
    },
    FaultRow {
        shows: "the first put fails, and keeps the start of its text",
        script: FIRST_CALL_SCRIPT,
        load: 0,
        put: (1, 5),
        status: Status::WriteFailed,
        text: b"t1 ca",
    },
    FaultRow {
        shows: "the line of a fault is put, and fails",
        script: FAULTY_SCRIPT,
        load: 0,
        put: (1, 5),
        status: Status::WriteFailed,
        text: b"scrip",
    },
];

/// Whether a replay whose files or output fail so comes to the status and the text of the row.
fn fails_so(alloc: Global, row: FaultRow) -> Result<bool, Fail> {
    let mut sink = MemSink::new(alloc, 1000)?;
    let words = words(alloc, &["replay", "script", "schedule"])?;
    let mut shelf = MemShelf::new(alloc);
    runs_so(alloc, &words, row, &mut shelf, &mut sink)
}

/// The same, over a shelf without files and a sink to which nothing was written.
fn runs_so(
    alloc: Global,
    words: &[String],
    row: FaultRow,
    shelf: &mut MemShelf,
    sink: &mut MemSink,
) -> Result<bool, Fail> {
    shelf.add("script", row.script)?;
    shelf.add("schedule", FIRST_CALL_SCHEDULE)?;
    shelf.fail_at(row.load)?;
    sink.fail_at(row.put.0, row.put.1)?;
    let status = run(alloc, words, shelf, sink);
    Ok(status == row.status && sink.written() == row.text)
}

#[test]
fn each_file_that_fails_has_its_status(rt: HostRuntime) -> Result<(), Fail> {
    for row in &FAULTS {
        let shows = row.shows;
        assert!(rt; fails_so(rt.alloc(), *row)?, "{shows}");
    }
    Ok(())
}

// Task a calls until its phone takes no more calls; b answers one of them.
const LIMIT_SCRIPT: &[u8] = b"task a raw\n\
call 0 512\n\
jumpeq r0 0 0\n\
receive\n\
jump 0\n\
task b raw\n\
receive\n\
answer r2 EOK\n\
wire a 0 b\n";

const LIMIT_SCHEDULE: &[u8] = b"step a x 129\nstep b x 2\nstep a x 4\n";

/// Whether the text up to a put that fails stands, and is whole just where none of the first two does.
fn keeps_its_start(alloc: Global, nth: u64) -> Result<bool, Fail> {
    let mut whole = MemSink::new(alloc, 10_000)?;
    let done = replay_bytes(alloc, LIMIT_SCRIPT, LIMIT_SCHEDULE, &mut whole);
    let mut sink = MemSink::new(alloc, 10_000)?;
    sink.fail_at(nth, 100)?;
    let status = replay_bytes(alloc, LIMIT_SCRIPT, LIMIT_SCHEDULE, &mut sink);
    let cut = sink.written().len() < whole.written().len();
    Ok(
        done == Status::Done
            && whole.written().starts_with(sink.written())
            && cut == (nth < 3)
            && cut == (status == Status::WriteFailed),
    )
}

#[test]
fn what_was_put_before_a_fault_stands(rt: HostRuntime) -> Result<(), Fail> {
    for nth in [1, 2, 3] {
        assert!(rt; keeps_its_start(rt.alloc(), nth)?);
    }
    Ok(())
}
