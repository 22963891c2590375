//! A generated run that is made whole.
use io_edge::MemSink;
use schedule_replay::{SliceFeed, generate, replay};
use std::alloc::Global;
use std::test::Fail;

/// Three events of the seed 0: two calls of the second task, and one of the tenth.
const GENERATED_TEXT: &[u8] = b"t2 call 0 512 0 0 0 0 0\n\
\x20 call 1 accepted t2.0 method 512 to t3\n\
\x20 = call 1\n\
t2 call 1 512 0 0 0 0 0\n\
\x20 call 2 accepted t2.1 method 512 to t4\n\
\x20 = call 2\n\
t10 call 0 512 0 0 0 0 0\n\
\x20 call 3 accepted t10.0 method 512 to t11\n\
\x20 = call 3\n";

/// Whether a run of sixteen tasks is generated, where memory is ample, and replayed whole.
fn replays_generated(alloc: Global, sink: &mut MemSink) -> bool {
    match generate(alloc, 0, 3) {
        Ok(run) => {
            let mut feed = SliceFeed::new(run.events.as_slice());
            let done = replay(alloc, &run.script, &mut feed, sink);
            done.is_ok() && run.script.tasks.as_slice().len() == 16
        }
        Err(_) => false,
    }
}

/// Whether it prints its text.
fn is_generated(alloc: Global) -> Result<bool, Fail> {
    let mut sink = MemSink::new(alloc, 1000)?;
    Ok(replays_generated(alloc, &mut sink) && sink.written() == GENERATED_TEXT)
}

#[test]
fn a_run_is_generated_whole(rt: HostRuntime) -> Result<(), Fail> {
    assert!(rt; is_generated(rt.alloc())?);
    Ok(())
}
