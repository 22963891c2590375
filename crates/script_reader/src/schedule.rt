//! Reads a schedule, line by line.
ghost use Rattle.std.specs.Prelude.{◌≡◌, ◌≢◌, ◌≤◌, ◌<◌, ℕ, List, [], ◌++◌, length, replicate, true, false, is_some, Some, Ok, Err, IfOk, IsOkAnd};
ghost use Rattle.std.specs.Option.{option_map};
ghost use Rattle.ipc_ids.specs.declared.message.Event.{Event};
ghost use Rattle.script_lines.specs.declared.fault.Reason.{Reason};
ghost use Rattle.script_lines.specs.Text.{texts, lines, first_line, behind};
ghost use Rattle.script_lines.specs.Draft.{Follows};
ghost use Rattle.script_reader.specs.Schedule.{MayAllCome, event_verb_of, count_of, with_events, step_with, step_of, kill_of, hangup_of};
ghost use Rattle.script_reader.specs.EventLine.{is_taken, spawn_place, with_spawn, with_repeated, spawn_of, after_event_verb, after_event_words, after_event_line, no_events, after_event, SpellsEvents};
ghost use Rattle.script_lines.specs.Names.{task_names, place_of};
ghost use Rattle.script_lines.specs.Word.{is_name};
ghost use Rattle.script_reader.specs.Recent.{KnowsBoth};
ghost use Rattle.script_reader.specs.StepLine.{with_steps};
ghost use Rattle.script_reader.specs.Grammar.{IsFirstFault};
ghost use Rattle.script_reader.specs.Reasons.{event_reasons};
ghost use Rattle.script_reader.specs.Reading.{lines_from, reading, events_alone, schedule_of, events_in, fault_in_schedule, Reads, Agrees};

use crate::recent::RecentTasks;
use crate::repeated::RepeatedEvents;
use crate::step_line::step_line;
use ipc_ids::{Event, look_up};
use script_lines::{
    LineFault, MOST_BYTES, MOST_TASKS, Names, Reason, ScheduleFault, Script, is_name, is_ns,
    names_of, number, split_line,
};
use std::alloc::Global;

/// What a word was read or found as; where it is nothing, the line is at fault for this reason.
macro_rules! needed {
    ($part:expr, $reason:expr) => {
        match $part {
            Some(part) => part,
            None => return Err($reason),
        }
    };
}

const MOST_EVENTS: u64 = 65_536;

/// The first word of a line.
#[derive(Clone, Copy)]
pub enum EventVerb {
    Step,
    Kill,
    Hangup,
    Spawn,
}

/// The first words of lines.
const EVENT_VERBS: [(&[u8], EventVerb); 4] = [
    (b"step", EventVerb::Step),
    (b"kill", EventVerb::Kill),
    (b"hangup", EventVerb::Hangup),
    (b"spawn", EventVerb::Spawn),
];

fn event_verb_of(word: &[u8]) -> Option<EventVerb>
    ensures { result ≡ event_verb_of word.now }
{
    look_up(&EVENT_VERBS, word)
}

/// Adds an event so many times, if there is room for it.
#[inline(always)]
#[tactic(auto, unfolding(crate::specs::Schedule::with_events))]
fn add_events(events: &mut RepeatedEvents, event: Event, count: u64) -> Result<(), LineFault>
    ensures { Follows result events.new (with_events events.old event count) }
{
    if count > MOST_EVENTS || events.len() > MOST_EVENTS - count {
        return Err(LineFault::Bad(Reason::TooManyEvents));
    }
    events.push_times(event, count)?;
    Ok(())
}

/// `x N`, where N is from 1 to 65,536
#[tactic(auto, unfolding(crate::specs::Schedule::count_of))]
fn count_of(times: &[u8], word: &[u8]) -> Option<u64>
    ensures { result ≡ count_of times.now word.now }
{
    let count = number(word)?;
    match times {
        [b'x'] if 1 <= count && count <= MOST_EVENTS => Some(count),
        _ => None,
    }
}

#[tactic(auto, unfolding(crate::specs::Schedule::step_with, script_lines::specs::Word::name_of))]
fn step_with(names: &Names, name: &[u8], count: Option<u64>) -> Result<(Event, u64), Reason>
    ensures { result ≡ step_with names.now name.now count }
{
    if !is_name(name) {
        return Err(Reason::BadWord);
    }
    let count = needed!(count, Reason::BadWord);
    let task = needed!(names.task_named(name), Reason::UnknownName);
    Ok((Event::Step(task), count))
}

/// `NAME`, or `NAME x N`
#[tactic(auto, unfolding(crate::specs::Schedule::step_of))]
fn step_of(names: &Names, words: &[&[u8]]) -> Result<(Event, u64), Reason>
    ensures { result ≡ step_of names.now (texts words.now) }
{
    match words {
        [name] => step_with(names, *name, Some(1)),
        [name, times, count] => step_with(names, *name, count_of(*times, *count)),
        _ => Err(Reason::WrongCount),
    }
}

/// `NAME`
#[tactic(auto, unfolding(crate::specs::Schedule::kill_of, script_lines::specs::Word::name_of))]
fn kill_of(names: &Names, words: &[&[u8]]) -> Result<(Event, u64), Reason>
    ensures { result ≡ kill_of names.now (texts words.now) }
{
    match words {
        [name] => {
            if !is_name(*name) {
                return Err(Reason::BadWord);
            }
            let task = needed!(names.task_named(*name), Reason::UnknownName);
            Ok((Event::Kill(task), 1))
        }
        _ => Err(Reason::WrongCount),
    }
}

/// `NAME N`
#[tactic(auto, unfolding(crate::specs::Schedule::hangup_of, script_lines::specs::Word::name_of))]
fn hangup_of(names: &Names, words: &[&[u8]]) -> Result<(Event, u64), Reason>
    ensures { result ≡ hangup_of names.now (texts words.now) }
{
    match words {
        [name, phone] => {
            if !is_name(*name) {
                return Err(Reason::BadWord);
            }
            let phone = needed!(number(*phone), Reason::BadWord);
            let task = needed!(names.task_named(*name), Reason::UnknownName);
            Ok((Event::Hangup(task, phone), 1))
        }
        _ => Err(Reason::WrongCount),
    }
}

/// Whether a new task may not have this name.
#[tactic(auto, unfolding(crate::specs::EventLine::is_taken))]
fn is_taken(templates: &Names, names: &Names, name: &[u8]) -> bool
    ensures { result ≡ is_taken templates.now names.now name.now }
{
    names.place_of(name).is_some() || templates.place_of(name).is_some() || is_ns(name)
}

/// The place of the template that makes the next task, where it may have this name.
#[tactic(auto, unfolding(crate::specs::EventLine::spawn_place, script_lines::specs::Word::name_of, crate::specs::EventLine::is_taken))]
fn spawn_place(
    templates: &Names,
    names: &Names,
    template: &[u8],
    name: &[u8],
) -> Result<usize, Reason>
    ensures value { result ≡ spawn_place templates.now names.now template.now name.now }
    ensures small { IfOk result (λ place. place < 64) }
    ensures new { IfOk result (λ place. is_some (place_of names.now name.now) ≡ false) }
    ensures room { IfOk result (λ place. length names.now < 64) }
{
    if !is_name(template) {
        return Err(Reason::BadWord);
    }
    if !is_name(name) {
        return Err(Reason::BadWord);
    }
    let place = needed!(templates.place_of(template), Reason::UnknownName);
    if is_taken(templates, names, name) {
        return Err(Reason::NameTaken);
    }
    if names.len() >= MOST_TASKS {
        return Err(Reason::TooMany);
    }
    Ok(place)
}

/// Adds the event that makes a task, and its name.
fn add_spawn(
    events: &mut RepeatedEvents,
    names: &mut Names,
    alloc: Global,
    place: usize,
    name: &[u8],
) -> Result<(), LineFault>
    requires small { place < 64 }
    requires new { is_some (place_of names.old name.now) ≡ false }
    requires room { length names.old < 64 }
    ensures { Follows result (record { events = events.new; names = names.new })
        (with_spawn (record { events = events.old; names = names.old }) place name.now) }
{
    add_events(events, Event::Spawn(place as u32), 1)?;
    names.push(alloc, name)?;
    Ok(())
}

/// `TEMPLATE NAME`
fn add_named(
    events: &mut RepeatedEvents,
    names: &mut Names,
    alloc: Global,
    templates: &Names,
    words: &[&[u8]],
) -> Result<(), LineFault>
    ensures { Follows result (record { events = events.new; names = names.new })
        (spawn_of templates.now (record { events = events.old; names = names.old })
        (texts words.now)) }
{
    match words {
        [template, name] => {
            let place = spawn_place(templates, names, *template, *name)?;
            add_spawn(events, names, alloc, place, *name)
        }
        _ => Err(LineFault::Bad(Reason::WrongCount)),
    }
}

/// Adds what the words behind a first one say.
fn add_others(
    events: &mut RepeatedEvents,
    names: &mut Names,
    alloc: Global,
    templates: &Names,
    verb: Option<EventVerb>,
    words: &[&[u8]],
) -> Result<(), LineFault>
    ensures { Follows result (record { events = events.new; names = names.new })
        (after_event_verb templates.now (record { events = events.old; names = names.old })
        verb (texts words.now)) }
{
    let (event, count) = match verb {
        None => return Err(LineFault::Bad(Reason::UnknownOperation)),
        Some(EventVerb::Step) => step_of(names, words)?,
        Some(EventVerb::Kill) => kill_of(names, words)?,
        Some(EventVerb::Hangup) => hangup_of(names, words)?,
        Some(EventVerb::Spawn) => return add_named(events, names, alloc, templates, words),
    };
    add_events(events, event, count)
}

fn add_words(
    events: &mut RepeatedEvents,
    names: &mut Names,
    alloc: Global,
    templates: &Names,
    words: &[&[u8]],
) -> Result<(), LineFault>
    ensures { Follows result (record { events = events.new; names = names.new })
        (after_event_words templates.now (record { events = events.old; names = names.old })
        (texts words.now)) }
{
    let [first, others @ ..] = words else {
        return Ok(());
    };
    add_others(
        events,
        names,
        alloc,
        templates,
        event_verb_of(*first),
        others,
    )
}

/// The number of the last event's task, which is the place of the task after it; 0 where the last
/// event is no step.
#[inline(always)]
fn next_place(events: &RepeatedEvents) -> usize {
    match events.last() {
        Some(Event::Step(task)) => task.0 as usize,
        _ => 0,
    }
}

/// Adds so many steps of the task of a name, and keeps which task that is.
#[tactic(auto, unfolding(crate::specs::Schedule::step_with, script_lines::specs::Word::name_of))]
fn add_named_steps<'a>(
    events: &mut RepeatedEvents,
    names: &Names,
    recent: &mut RecentTasks<'a>,
    name: &'a [u8],
    count: u64,
) -> Result<(), LineFault>
    requires named { is_name name.now ≡ true }
    requires known { KnowsBoth names.now recent.old }
    ensures value { Follows result (record { events = events.new; names = names.now })
        (with_steps (record { events = events.old; names = names.now }) name.now count) }
    ensures known { IfOk result (λ _. KnowsBoth names.now recent.new) }
{
    let Some(task) = names.task_near(next_place(events), name) else {
        return Err(LineFault::Bad(Reason::UnknownName));
    };
    recent.push(name, task);
    add_events(events, Event::Step(task), count)
}

/// Adds what the first line of a text says, and returns what stands behind it; `None` where it is
/// the last. A step in its usual form is read at once, and which task it names is kept; every other
/// line is read word by word.
#[inline(never)]
#[tactic(auto, unfolding(crate::specs::EventLine::after_event_line))]
fn add_other_line<'a>(
    events: &mut RepeatedEvents,
    names: &mut Names,
    alloc: Global,
    templates: &Names,
    words: &mut Vec<&'a [u8]>,
    recent: &mut RecentTasks<'a>,
    text: &'a [u8],
) -> Result<Option<&'a [u8]>, LineFault>
    requires { KnowsBoth names.old recent.old }
    ensures value { Follows result (record { events = events.new; names = names.new })
        (after_event_line templates.now (record { events = events.old; names = names.old })
        (first_line text.now)) }
    ensures behind { IfOk result (λ others. option_map (λ t. t.now) others ≡ behind text.now) }
    ensures known { IfOk result (λ _. KnowsBoth names.new recent.new) }
{
    if let Some(line) = step_line(text) {
        add_named_steps(events, names, recent, line.name, line.count)?;
        return Ok(Some(line.others));
    }
    *recent = RecentTasks::new();
    let (allowed, others) = split_line(text, words)?;
    if !allowed {
        return Err(LineFault::Bad(Reason::BadByte));
    }
    add_words(events, names, alloc, templates, words.as_slice())?;
    Ok(others)
}

/// Adds what the first line of a text says, and returns what stands behind it, as
/// `add_other_line`; the tasks that were looked up last are tried first.
#[inline(always)]
fn add_line<'a>(
    events: &mut RepeatedEvents,
    names: &mut Names,
    alloc: Global,
    templates: &Names,
    words: &mut Vec<&'a [u8]>,
    recent: &mut RecentTasks<'a>,
    text: &'a [u8],
) -> Result<Option<&'a [u8]>, LineFault>
    requires { KnowsBoth names.old recent.old }
    ensures value { Follows result (record { events = events.new; names = names.new })
        (after_event_line templates.now (record { events = events.old; names = names.old })
        (first_line text.now)) }
    ensures behind { IfOk result (λ others. option_map (λ t. t.now) others ≡ behind text.now) }
    ensures known { IfOk result (λ _. KnowsBoth names.new recent.new) }
{
    match recent.steps_in(text) {
        Some(steps) => {
            add_events(events, Event::Step(steps.task), steps.count)?;
            Ok(Some(steps.others))
        }
        None => add_other_line(events, names, alloc, templates, words, recent, text),
    }
}

fn add_lines(
    events: &mut RepeatedEvents,
    names: &mut Names,
    alloc: Global,
    templates: &Names,
    text: &[u8],
) -> Result<(), ScheduleFault>
    ensures { Reads fault_in_schedule result
        (record { events = events.new; names = names.new })
        (lines_from (after_event_line templates.now) 1
        (record { events = events.old; names = names.old }) (lines text.now)) }
{
    let mut words = Vec::new(alloc);
    let mut recent = RecentTasks::new();
    let mut left = Some(text);
    let mut line = 0;
    while let Some(text) = left {
        line += 1;
        match add_line(
            events,
            names,
            alloc,
            templates,
            &mut words,
            &mut recent,
            text,
        ) {
            Ok(others) => left = others,
            Err(LineFault::NoMemory) => return Err(ScheduleFault::NoMemory),
            Err(LineFault::Bad(reason)) => return Err(ScheduleFault::Bad { line, reason }),
        }
    }
    Ok(())
}

#[tactic(auto, unfolding(crate::specs::Reading::reading))]
fn read(
    alloc: Global,
    bytes: &[u8],
    names: &mut Names,
    templates: &Names,
) -> Result<RepeatedEvents, ScheduleFault>
    ensures { Agrees fault_in_schedule result
        (events_alone (reading (after_event_line templates.now)
        (record { events = []; names = names.old }) bytes.now)) }
{
    if bytes.len() > MOST_BYTES {
        return Err(ScheduleFault::Bad {
            line: 0,
            reason: Reason::TooLong,
        });
    }
    let mut events = RepeatedEvents::new(alloc);
    match add_lines(&mut events, names, alloc, templates, bytes) {
        Ok(()) => Ok(events),
        Err(fault) => Err(fault),
    }
}

/// The events, where the names of the script's tasks are known.
fn read_from(
    alloc: Global,
    bytes: &[u8],
    script: &Script,
    names: &mut Names,
) -> Result<RepeatedEvents, ScheduleFault>
    requires { names.old ≡ task_names script.now.tasks }
    ensures { Agrees fault_in_schedule result (schedule_of script.now bytes.now) }
{
    let templates = names_of(alloc, script.templates.as_slice())?;
    let events = read(alloc, bytes, names, &templates);
    drop(templates);
    events
}

fn read_for(alloc: Global, bytes: &[u8], script: &Script) -> Result<RepeatedEvents, ScheduleFault>
    ensures { Agrees fault_in_schedule result (schedule_of script.now bytes.now) }
{
    let mut names = names_of(alloc, script.tasks.as_slice())?;
    let events = read_from(alloc, bytes, script, &mut names);
    drop(names);
    events
}

/// The events that the bytes of a file spell, for the tasks and templates of a script: at most
/// 65,536, each on a task of the script or one that an earlier event makes. Steps of a task in a
/// row are kept once.
///
/// # Errors
///
/// `Bad` where they spell none, with their first fault; `NoMemory` where memory ran out, which may
/// come for any bytes.
pub fn read_repeated_events(
    alloc: Global,
    bytes: &[u8],
    script: &Script,
) -> Result<RepeatedEvents, ScheduleFault>
    ensures value { Agrees fault_in_schedule result (schedule_of script.now bytes.now) }
    ensures few { IfOk result (λ events. length events ≤ 65536) }
    ensures may { IfOk result (λ events. MayAllCome (length script.now.tasks)
        (length script.now.templates) events) }
{
    read_for(alloc, bytes, script)
}

/// The events, each as often as it comes.
fn read_one_by_one(
    alloc: Global,
    bytes: &[u8],
    script: &Script,
) -> Result<Vec<Event>, ScheduleFault>
    ensures { Agrees fault_in_schedule (events_in result) (schedule_of script.now bytes.now) }
{
    let events = read_for(alloc, bytes, script)?;
    let events = events.to_vec(alloc)?;
    Ok(events)
}

/// The events that the bytes of a file spell, for the tasks and templates of a script: at most
/// 65,536, each on a task of the script or one that an earlier event makes.
///
/// # Errors
///
/// `Bad` where they spell none, with their first fault; `NoMemory` where memory ran out, which may
/// come for any bytes.
pub fn read_schedule(
    alloc: Global,
    bytes: &[u8],
    script: &Script,
) -> Result<Vec<Event>, ScheduleFault>
    ensures value { Agrees fault_in_schedule (events_in result) (schedule_of script.now bytes.now) }
    ensures few { IfOk result (λ events. length events.items ≤ 65536) }
    ensures may { IfOk result (λ events. MayAllCome (length script.now.tasks)
        (length script.now.templates) events.items) }
    ensures read { IfOk result (λ got. SpellsEvents script.now bytes.now got.items) }
    ensures spelled { (events : List Event) → SpellsEvents script.now bytes.now events
        → result ≢ Err ScheduleFault.NoMemory → IsOkAnd result (λ got. got.items ≡ events) }
    ensures fault { (line : ℕ) (reason : Reason)
        → result ≡ Err (ScheduleFault.Bad line reason)
        → IsFirstFault (after_event script.now) (event_reasons script.now)
        (no_events script.now) bytes.now line reason }
    ensures at_fault { (line : ℕ) (reason : Reason)
        → IsFirstFault (after_event script.now) (event_reasons script.now)
        (no_events script.now) bytes.now line reason
        → result ≢ Err ScheduleFault.NoMemory
        → result ≡ Err (ScheduleFault.Bad line reason) }
{
    read_one_by_one(alloc, bytes, script)
}
