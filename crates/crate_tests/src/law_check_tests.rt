//! Traces that are read and judged, with ample memory. What `check_trace` finds stands in `laws/`.

use law_check::{Verdict, check_laws};
use std::alloc::Global;
use trace_reader::read_trace;

/// Whether the text is read as so many entries, and this is the verdict on them.
fn is_judged(alloc: Global, text: &str, count: usize, verdict: Verdict) -> bool {
    match read_trace(alloc, text.as_bytes()) {
        Ok(trace) => {
            let found = check_laws(alloc, trace.entries());
            trace.entries().len() == count && found == Ok(verdict)
        }
        Err(_) => false,
    }
}

const CALL: &str = "t1 call 0 512 7 0 0 0 0\n  \
    call 1 accepted t1.0 method 512 to t2\n  \
    = call 1\n\
    t2 receive\n  \
    call 1 received t2\n\
    t2 answer 1 EOK 8 0 0 0 0\n  \
    call 1 answered EOK 8 0 0 0 0 by t2\n";

const TWICE: &str = "t1 call 0 512 7 0 0 0 0\n  \
    call 1 accepted t1.0 method 512 to t2\n\
    t2 receive\n  \
    call 1 received t2\n  \
    call 1 received t2\n";

const KILL: &str = "t1 call 0 512 7 0 0 0 0\n  \
    call 1 accepted t1.0 method 512 to t2\n\
    kill t2\n";

#[test]
fn entries_are_read_and_judged(rt: HostRuntime) {
    assert!(rt; is_judged(rt.alloc(), CALL, 7, Verdict::Lawful { calls: 1 }));
    assert!(rt; is_judged(rt.alloc(), TWICE, 5, Verdict::Breaks(1)));
    assert!(rt; is_judged(rt.alloc(), KILL, 3, Verdict::Breaks(3)));
}
