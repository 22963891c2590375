//! What schedules say, in both ways of reading. Scripts are read by the lessons and by `words-of-a-script` and
//! `templates-between-tasks` of runs/; the tables of what is at fault are in faults/, at the top.
use ipc_ids::{Event, TaskNo};
use script_reader::{EventsLeft, Script, read_repeated_events, read_schedule, read_script};
use std::alloc::Global;

/// Whether a schedule says just these events one by one.
fn lists_events(alloc: Global, script: &Script, schedule: &[u8], wanted: &[Event]) -> bool {
    match read_schedule(alloc, schedule, script) {
        Err(_) => false,
        Ok(events) => events.as_slice() == wanted,
    }
}

/// Whether a schedule, where steps of a task in a row are kept once, gives just these events.
fn gives_events(alloc: Global, script: &Script, schedule: &[u8], wanted: &[Event]) -> bool {
    match read_repeated_events(alloc, schedule, script) {
        Err(_) => false,
        Ok(events) => {
            let mut left = EventsLeft::new(&events);
            for event in wanted {
                if left.take_first() != Some(*event) {
                    return false;
                }
            }
            left.take_first().is_none()
        }
    }
}

/// Whether a schedule over a script says just these events, in both ways of reading.
fn says_events(alloc: Global, script: &[u8], schedule: &[u8], wanted: &[Event]) -> bool {
    match read_script(alloc, script) {
        Err(_) => false,
        Ok(script) => {
            lists_events(alloc, &script, schedule, wanted)
                && gives_events(alloc, &script, schedule, wanted)
        }
    }
}

/// Two tasks.
const TASKS: &[u8] = b"task client raw 2\ntask s_9 raw\n";

/// Templates between tasks.
const TEMPLATES: &[u8] =
    b"ns\ntask a raw\ntemplate w raw 2\ntemplate v async\nfibril\nnext\ntask b raw\nreceive\n";

const STEPS: &[u8] =
    b"step client#once\n\nstep s_9 x 2\nkill s_9\n\thangup s_9 18446744073709551615 \n";

/// The events of `STEPS`.
const STEP_EVENTS: [Event; 5] = [
    Event::Step(TaskNo(1)),
    Event::Step(TaskNo(2)),
    Event::Step(TaskNo(2)),
    Event::Kill(TaskNo(2)),
    Event::Hangup(TaskNo(2), u64::MAX),
];

const SPAWNS: &[u8] = b"spawn v x\nstep x\nkill ns\nspawn w y\nspawn v z\nhangup z 0\nstep b";

/// The events of `SPAWNS`.
const SPAWN_EVENTS: [Event; 7] = [
    Event::Spawn(1),
    Event::Step(TaskNo(4)),
    Event::Kill(TaskNo(1)),
    Event::Spawn(0),
    Event::Spawn(1),
    Event::Hangup(TaskNo(6), 0),
    Event::Step(TaskNo(3)),
];

/// Equal events on lines behind each other.
const EQUAL_LINES: &[u8] =
    b"step s_9\nstep s_9 x 2\nstep client\nkill s_9\nkill s_9\nstep client\nstep client x 1\n";

/// The events of `EQUAL_LINES`.
const EQUAL_EVENTS: [Event; 8] = [
    Event::Step(TaskNo(2)),
    Event::Step(TaskNo(2)),
    Event::Step(TaskNo(2)),
    Event::Step(TaskNo(1)),
    Event::Kill(TaskNo(2)),
    Event::Kill(TaskNo(2)),
    Event::Step(TaskNo(1)),
    Event::Step(TaskNo(1)),
];

/// A name begins with another, and one is new among steps of the others.
const NAMES: &[u8] = b"task c raw\ntask c1 raw\ntemplate w raw\n";

const NAMED_STEPS: &[u8] =
    b"step c\nstep c1\nstep c x 02\nstep c1 x 1\nspawn w c_1\nstep c_1\nstep c1\nstep c\nstep c_1 \n";

/// The events of `NAMED_STEPS`.
const NAMED_EVENTS: [Event; 10] = [
    Event::Step(TaskNo(1)),
    Event::Step(TaskNo(2)),
    Event::Step(TaskNo(1)),
    Event::Step(TaskNo(1)),
    Event::Step(TaskNo(2)),
    Event::Spawn(0),
    Event::Step(TaskNo(3)),
    Event::Step(TaskNo(2)),
    Event::Step(TaskNo(1)),
    Event::Step(TaskNo(3)),
];

/// Counts of several digits, of which the last has more than a count can have.
const COUNTS: &[u8] = b"step c1 x 10\nstep c1 x 00100\nstep c1 x 000016\n";

#[test]
fn schedules_say_their_events(rt: HostRuntime) {
    assert!(rt; says_events(rt.alloc(), TASKS, STEPS, &STEP_EVENTS));
    assert!(rt; says_events(rt.alloc(), TEMPLATES, SPAWNS, &SPAWN_EVENTS));
    assert!(rt; says_events(rt.alloc(), TASKS, EQUAL_LINES, &EQUAL_EVENTS));
    assert!(rt; says_events(rt.alloc(), NAMES, NAMED_STEPS, &NAMED_EVENTS));
    assert!(rt; says_events(rt.alloc(), NAMES, COUNTS, &[Event::Step(TaskNo(2)); 126]));
    assert!(rt; says_events(rt.alloc(), TASKS, b"#", &[]));
}
