//! The moves of a search: a step of each task, and the kills, hangups and spawns that are listed.
ghost use Rattle.std.specs.Prelude.{◌≡◌, ◌≤◌, ◌<◌, ◌==◌, ◌+◌, ◌++◌, ◌∷◌, [], cond, IfOk, OnOk, IfSome, length, position};
ghost use Rattle.std.specs.List.{position_or_len};
ghost use Rattle.std.specs.Option.{option_map};
ghost use Rattle.script_lines.specs.Draft.{Follows};
ghost use Rattle.search_goals.specs.GoalText.{Answers};
ghost use Rattle.hipc_search.specs.Moves.{kill_in, phone_in, hangup_in, event_in, words_of, words_left, listed_of, listed_in};
ghost use Rattle.hipc_search.specs.Moves.{some_tasks, count_in, bound_in, is_bound, with_bound, bounds_of, bounds_in, spawns_in, most_ever};
ghost use Rattle.hipc_search.specs.Moves.{kills_task, is_killed, is_living, step_by, kill_of, for_chosen, living_steps, moves_of};

use ipc_ids::{Event, NoMemory, TaskNo};
use schedule_search::MostMade;
use script_lines::{LineFault, MOST_TASKS, Names};
use script_reader::{Reason, number};
use search_goals::GoalFault;
use std::alloc::Global;

const MOST_LISTED: usize = 4096;

/// What the words of a list say.
#[derive(Clone, Copy)]
pub(crate) enum Listed {
    /// `NAME`: a kill of that task.
    Kills,
    /// `NAME.NUMBER`: a hangup of that phone of that task.
    Hangups,
}

/// The kill of the task of this name.
#[tactic(auto, unfolding(crate::specs::Moves::kill_in))]
fn kill_in(names: &Names, word: &[u8]) -> Result<Event, Reason>
    ensures { result ≡ kill_in names.now word.now }
{
    let task = names.task_named(word).ok_or(Reason::UnknownName)?;
    Ok(Event::Kill(task))
}

/// Where a byte stands first in a text.
fn byte_at(byte: u8, text: &[u8]) -> Option<usize>
    ensures { result ≡ position (λ b. b == byte) text.now }
{
    text.iter().position(|other| *other == byte)
}

/// The same; the length of the text where it has none.
#[tactic(auto, using(script_reader::proofs::StepLines::no_end, search_goals::proofs::GoalWords::found_at))]
fn byte_place(byte: u8, text: &[u8]) -> usize
    ensures value { result ≡ position_or_len (λ b. b == byte) text.now }
    ensures within { result ≤ length text.now }
{
    match byte_at(byte, text) {
        Some(at) => at,
        None => text.len(),
    }
}

/// The number behind a `.` at the front.
fn phone_in(word: &[u8]) -> Option<u64>
    ensures { result ≡ phone_in word.now }
{
    match word {
        [b'.', digits @ ..] => number(digits),
        _ => None,
    }
}

/// The hangup that a word says.
#[tactic(auto, unfolding(crate::specs::Moves::hangup_in))]
fn hangup_in(names: &Names, word: &[u8]) -> Result<Event, Reason>
    ensures { result ≡ hangup_in names.now word.now }
{
    let (name, behind) = word.split_at(byte_place(b'.', word));
    let phone = phone_in(behind).ok_or(Reason::BadWord)?;
    let task = names.task_named(name).ok_or(Reason::UnknownName)?;
    Ok(Event::Hangup(task, phone))
}

/// The event that a word of a list says.
fn event_in(kind: Listed, names: &Names, word: &[u8]) -> Result<Event, Reason>
    ensures { result ≡ event_in kind names.now word.now }
{
    match kind {
        Listed::Kills => kill_in(names, word),
        Listed::Hangups => hangup_in(names, word),
    }
}

/// The first word of a list, and what stands behind its comma; `None` where it has none.
#[tactic(auto, using(crate::proofs::ListWords::last_piece))]
fn first_word(text: &[u8]) -> (&[u8], Option<&[u8]>)
    ensures cut { words_of text.now
        ≡ result.0.now ∷ words_left (option_map (λ others. others.now) result.1) }
    ensures shorter { IfSome result.1 (λ others. length others.now < length text.now) }
{
    match byte_at(b',', text) {
        Some(at) => {
            let (word, _) = text.split_at(at);
            (word, Some(&text[at + 1..]))
        }
        None => (text, None),
    }
}

/// The events that a list says.
fn listed_of(
    alloc: Global,
    kind: Listed,
    names: &Names,
    text: &[u8],
) -> Result<Vec<Event>, GoalFault>
    ensures value { Answers (λ events. events.items) result (listed_of kind names.now text.now) }
    ensures few { IfOk result (λ events. length events.items ≤ 4096) }
{
    let mut events = Vec::new(alloc);
    let mut left = Some(text);
    let mut place = 1;
    while let Some(rest) = left {
        if events.len() >= MOST_LISTED {
            return Err(GoalFault::Bad {
                word: place,
                reason: Reason::TooMany,
            });
        }
        let (word, others) = first_word(rest);
        match event_in(kind, names, word) {
            Ok(event) => events.push(event)?,
            Err(reason) => return Err(GoalFault::Bad {
                word: place,
                reason,
            }),
        }
        left = others;
        place += 1;
    }
    Ok(events)
}

/// The events of a list that may be missing. Each is on a task with one of the names.
pub(crate) fn listed_in(
    alloc: Global,
    kind: Listed,
    names: &Names,
    text: Option<&str>,
) -> Result<Vec<Event>, GoalFault>
    ensures value { Answers (λ events. events.items) result
        (listed_in kind names.now (option_map (λ text. text.now) text.entry)) }
    ensures few { IfOk result (λ events. length events.items ≤ 4096) }
{
    match text {
        None => Ok(Vec::new(alloc)),
        Some(text) => listed_of(alloc, kind, names, text.as_bytes()),
    }
}

/// A number from 1 to 64.
fn some_tasks(number: Option<u64>) -> Option<u32>
    ensures { result ≡ some_tasks number }
{
    match number {
        Some(number) if 1 <= number && number <= 64 => Some(number as u32),
        _ => None,
    }
}

/// The number behind a `:` at the front.
fn count_in(word: &[u8]) -> Option<u32>
    ensures { result ≡ count_in word.now }
{
    match word {
        [b':', digits @ ..] => some_tasks(number(digits)),
        _ => None,
    }
}

/// How many tasks of a template may be made, as a word says it.
#[tactic(auto, unfolding(crate::specs::Moves::bound_in))]
fn bound_in(templates: &Names, word: &[u8]) -> Result<MostMade, Reason>
    ensures { result ≡ bound_in templates.now word.now }
{
    let (name, behind) = word.split_at(byte_place(b':', word));
    let most = count_in(behind).ok_or(Reason::BadWord)?;
    let place = templates.place_of(name).ok_or(Reason::UnknownName)?;
    Ok(MostMade {
        place: place as u32,
        most,
    })
}

/// Whether one of these is for that template.
fn is_bound(bounds: &[MostMade], place: u32) -> bool
    ensures { result ≡ is_bound bounds.now place }
{
    bounds.iter().any(|bound| bound.place == place)
}

/// Adds how many tasks of a template may be made, as a word says it.
#[tactic(auto, unfolding(crate::specs::Moves::with_bound))]
fn add_bound(templates: &Names, bounds: &mut Vec<MostMade>, word: &[u8]) -> Result<(), LineFault>
    ensures value { Follows result bounds.new.items
        (with_bound templates.now bounds.old.items word.now) }
    ensures one { OnOk result (length bounds.new.items ≡ length bounds.old.items + 1) }
    ensures few { OnOk result (length bounds.new.items ≤ 64) }
{
    if bounds.len() >= MOST_TASKS {
        return Err(LineFault::Bad(Reason::TooMany));
    }
    let bound = bound_in(templates, word)?;
    if is_bound(bounds.as_slice(), bound.place) {
        return Err(LineFault::Bad(Reason::NameTaken));
    }
    bounds.push(bound)?;
    Ok(())
}

/// The templates of which tasks may be made, as a list says it.
fn bounds_of(alloc: Global, templates: &Names, text: &[u8]) -> Result<Vec<MostMade>, GoalFault>
    ensures value { Answers (λ bounds. bounds.items) result (bounds_of templates.now text.now) }
    ensures few { IfOk result (λ bounds. length bounds.items ≤ 64) }
{
    let mut bounds = Vec::new(alloc);
    let mut left = Some(text);
    let mut place = 1;
    while let Some(rest) = left {
        let (word, others) = first_word(rest);
        match add_bound(templates, &mut bounds, word) {
            Ok(()) => {}
            Err(LineFault::Bad(reason)) => return Err(GoalFault::Bad {
                word: place,
                reason,
            }),
            Err(LineFault::NoMemory) => return Err(GoalFault::NoMemory),
        }
        left = others;
        place += 1;
    }
    Ok(bounds)
}

/// The same of a list that may be missing.
pub(crate) fn bounds_in(
    alloc: Global,
    templates: &Names,
    text: Option<&str>,
) -> Result<Vec<MostMade>, GoalFault>
    ensures value { Answers (λ bounds. bounds.items) result
        (bounds_in templates.now (option_map (λ text. text.now) text.entry)) }
    ensures few { IfOk result (λ bounds. length bounds.items ≤ 64) }
{
    match text {
        None => Ok(Vec::new(alloc)),
        Some(text) => bounds_of(alloc, templates, text.as_bytes()),
    }
}

/// Whether an event is a kill of a task.
fn kills_task(task: u64, event: Event) -> bool
    ensures { result ≡ kills_task task event }
{
    match event {
        Event::Kill(killed) => killed.0 == task,
        Event::Step(_) | Event::Hangup(_, _) | Event::Spawn(_) => false,
    }
}

/// Whether one of the events kills a task.
fn is_killed(events: &[Event], task: u64) -> bool
    ensures { result ≡ is_killed events.now task }
{
    events.iter().any(|event| kills_task(task, *event))
}

/// Whether no event kills a task.
fn is_living(first: &[Event], later: &[Event], task: u64) -> bool
    ensures { result ≡ is_living first.now later.now task }
{
    !is_killed(first, task) && !is_killed(later, task)
}

/// Adds an event where it is chosen.
fn push_chosen(chosen: bool, event: Event, events: &mut Vec<Event>) -> Result<(), NoMemory>
    ensures { OnOk result (events.new.items ≡ events.old.items ++ cond chosen (event ∷ []) []) }
{
    if chosen {
        events.push(event)?;
    }
    Ok(())
}

/// Adds a step of each of so many tasks that none of the events kills.
pub(crate) fn push_living(
    first: &[Event],
    later: &[Event],
    tasks: u64,
    events: &mut Vec<Event>,
) -> Result<(), NoMemory>
    requires { tasks ≤ 64 }
    ensures { OnOk result (events.new.items
        ≡ events.old.items ++ living_steps first.now later.now tasks) }
{
    for place in 0..tasks {
        let task = place + 1;
        let living = is_living(first, later, task);
        push_chosen(living, Event::Step(TaskNo(task)), events)?;
    }
    Ok(())
}

/// Adds a kill of each of so many tasks that one of the events kills.
fn push_kills(killed: &[Event], tasks: u64, events: &mut Vec<Event>) -> Result<(), NoMemory>
    requires { tasks ≤ 64 }
    ensures { OnOk result (events.new.items
        ≡ events.old.items ++ for_chosen kill_of (is_killed killed.now) tasks) }
{
    for place in 0..tasks {
        let task = place + 1;
        let chosen = is_killed(killed, task);
        push_chosen(chosen, Event::Kill(TaskNo(task)), events)?;
    }
    Ok(())
}

/// Adds a spawn for each template of which tasks may be made.
fn push_spawns(bounds: &[MostMade], events: &mut Vec<Event>) -> Result<(), NoMemory>
    ensures { OnOk result (events.new.items ≡ events.old.items ++ spawns_in bounds.now) }
{
    for bound in bounds {
        events.push(Event::Spawn(bound.place))?;
    }
    Ok(())
}

/// How many tasks there may ever be, where there are so many at first.
fn most_ever(tasks: u64, bounds: &[MostMade]) -> u64
    requires tasks { tasks ≤ 64 }
    requires few { length bounds.now ≤ 64 }
    ensures value { result ≡ most_ever tasks bounds.now }
    ensures few { result ≤ 64 }
{
    let mut all = tasks;
    for bound in bounds {
        all += bound.most as u64;
    }
    if 64 < all { 64 } else { all }
}

/// The moves of a search over so many tasks: a step of each that there is or may be, a kill of each
/// that is killed, the hangups, and the spawns.
pub(crate) fn moves_of(
    alloc: Global,
    tasks: u64,
    killed: &[Event],
    hangups: &[Event],
    bounds: &[MostMade],
) -> Result<Vec<Event>, NoMemory>
    requires tasks { tasks ≤ 64 }
    requires few { length bounds.now ≤ 64 }
    ensures { IfOk result (λ moves. moves.items ≡ moves_of tasks killed.now hangups.now bounds.now) }
{
    let mut moves = Vec::new(alloc);
    push_living(&[], &[], most_ever(tasks, bounds), &mut moves)?;
    push_kills(killed, tasks, &mut moves)?;
    moves.extend_from_slice(hangups)?;
    push_spawns(bounds, &mut moves)?;
    Ok(moves)
}
