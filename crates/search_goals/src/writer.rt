//! The text of events, as lines of a schedule.
ghost use Rattle.std.specs.Prelude.{◌≡◌, ◌≤◌, ◌<◌, ◌^◌, ◌+◌, ◌*◌, [], ◌∷◌, ◌++◌, Ok, IfOk, OnOk, IfSome, IfNone, length, replicate, take, ◌⊎◌, codes};
ghost use Rattle.ipc_ids.specs.declared.message.Event.TheVariants as events;
ghost use Rattle.script_lines.specs.Names.{task_names};
ghost use Rattle.script_reader.specs.Schedule.{MayCome, MayAllCome};
ghost use Rattle.search_goals.specs.Lines.{times_text, step_text, hangup_text, spawn_text};
ghost use Rattle.search_goals.specs.Writing.{IsStep, AreNamed, Writes, IsFront};

use crate::names::{TaskNames, next_name};
use ipc_ids::{Event, NoMemory, TaskNo};
use script_reader::Script;
use std::alloc::Global;

/// Adds three texts, and the end of the line.
fn push_rest(text: &mut Vec<u8>, first: &[u8], second: &[u8], third: &[u8]) -> Result<(), NoMemory>
    ensures { OnOk result (text.new.items
        ≡ text.old.items ++ (first.now ++ (second.now ++ (third.now ++ codes "\n")))) }
{
    text.extend_from_slice(first)?;
    text.extend_from_slice(second)?;
    text.extend_from_slice(third)?;
    text.push(b'\n')?;
    Ok(())
}

/// ` x N`, where there is more than one step.
fn times_text(alloc: Global, count: u64) -> Result<String, NoMemory>
    ensures { IfOk result (λ times. times.bytes.items ≡ times_text count) }
{
    if count <= 1 {
        return Ok(String::new(alloc));
    }
    let times = format!(in alloc; " x {count}")?;
    Ok(times)
}

/// Adds the line of so many steps.
fn push_step(alloc: Global, text: &mut Vec<u8>, name: &[u8], count: u64) -> Result<(), NoMemory>
    ensures { OnOk result (text.new.items ≡ text.old.items ++ step_text name.now count) }
{
    let times = times_text(alloc, count)?;
    push_rest(text, b"step ", name, times.as_bytes())
}

/// Adds the line of a hangup.
fn push_hangup(alloc: Global, text: &mut Vec<u8>, name: &[u8], phone: u64) -> Result<(), NoMemory>
    ensures text { OnOk result (text.new.items ≡ text.old.items ++ hangup_text name.now phone) }
    ensures fits { phone < 2 ^ 64 }
{
    let digits = format!(in alloc; " {phone}")?;
    push_rest(text, b"hangup ", name, digits.as_bytes())
}

/// Adds the line by which a task of a template is made.
fn push_spawn(text: &mut Vec<u8>, template: &[u8], name: &[u8]) -> Result<(), NoMemory>
    ensures { OnOk result (text.new.items ≡ text.old.items ++ spawn_text template.now name.now) }
{
    text.extend_from_slice(b"spawn ")?;
    push_rest(text, template, b" ", name)
}

/// Adds the line by which a task of the template at a place is made, which gets a name of its own.
fn push_made(
    alloc: Global,
    text: &mut Vec<u8>,
    script: &Script,
    names: &mut TaskNames,
    place: u32,
) -> Result<(), NoMemory>
    requires named { AreNamed script.now.templates }
    requires template { place < length script.now.templates }
    requires room { length names.old < 64 }
    ensures { OnOk result (Writes (task_names script.now.templates) names.old text.old.items
        text.new.items (events.Spawn place ∷ []) names.new) }
{
    let templates = script.templates.as_slice();
    let name = next_name(alloc, templates, names)?;
    let template = templates[place as usize].name.as_slice();
    push_spawn(text, template, name.as_slice())?;
    names.push(alloc, name.as_slice())
}

/// Adds the line of an event that comes so many times in a row, as only a step may.
fn push_line(
    alloc: Global,
    text: &mut Vec<u8>,
    script: &Script,
    names: &mut TaskNames,
    event: Event,
    count: u64,
) -> Result<(), NoMemory>
    requires named { AreNamed script.now.templates }
    requires may { MayCome (length names.old) (length script.now.templates) event }
    requires some { 1 ≤ count }
    requires few { count ≤ 16384 }
    requires times { IsStep event ⊎ (count ≡ 1) }
    ensures { OnOk result (Writes (task_names script.now.templates) names.old text.old.items
        text.new.items (replicate count event) names.new) }
{
    match event {
        Event::Step(task) => push_step(alloc, text, names.name_of(task), count),
        Event::Kill(task) => push_rest(text, b"kill ", names.name_of(task), &[]),
        Event::Hangup(task, phone) => push_hangup(alloc, text, names.name_of(task), phone),
        Event::Spawn(place) => push_made(alloc, text, script, names, place),
    }
}

/// How many events at the front are steps of the task of this step; none where it is no step.
fn same_steps(event: Event, events: &[Event]) -> usize
    ensures within { result ≤ length events.now }
    ensures same { take result events.now ≡ replicate result event }
    ensures steps { IsStep event ⊎ (result ≡ 0) }
{
    let Event::Step(task) = event else {
        return 0;
    };
    let mut count = 0;
    for other in events {
        match other {
            Event::Step(TaskNo(number)) if *number == task.0 => count += 1,
            _ => return count,
        }
    }
    count
}

/// Events at the front that one line says, and what stands behind them.
#[derive(Clone, Copy)]
struct Front<'a> {
    first: Event,
    count: u64,
    others: &'a [Event],
}

/// The events at the front that one line says; `None` where there are none.
fn front_of(events: &[Event]) -> Option<Front<'_>>
    requires few { length events.now ≤ 16384 }
    ensures some { IfSome result (λ front.
        IsFront events.now front.first front.count front.others.now) }
    ensures none { IfNone result (events.now ≡ []) }
{
    match events {
        [] => None,
        [first, others @ ..] => {
            let more = same_steps(*first, others);
            Some(Front {
                first: *first,
                count: 1 + more as u64,
                others: &others[more..],
            })
        }
    }
}

/// Adds the lines of events to a schedule of a script, behind which the tasks have these names; the
/// steps of one task in a row are one line, and a task that is made gets a name that no other has.
/// There are at most 16,384 events.
///
/// # Errors
///
/// `NoMemory` where no memory was found.
pub fn push_events(
    alloc: Global,
    text: &mut Vec<u8>,
    script: &Script,
    names: &mut TaskNames,
    events: &[Event],
) -> Result<(), NoMemory>
    requires named { AreNamed script.now.templates }
    requires may { MayAllCome (length names.old) (length script.now.templates) events.now }
    requires few { length events.now ≤ 16384 }
    ensures { OnOk result (Writes (task_names script.now.templates) names.old text.old.items
        text.new.items events.now names.new) }
{
    let mut rest = events;
    while let Some(front) = front_of(rest) {
        push_line(alloc, text, script, names, front.first, front.count)?;
        rest = front.others;
    }
    Ok(())
}
