//! Reads a goal.
ghost use Rattle.std.specs.Prelude.{◌≡◌, ◌≤◌, ◌∷◌, length};
ghost use Rattle.std.specs.List.{list_all};
ghost use Rattle.std.specs.Option.{option_map};
ghost use Rattle.script_lines.specs.Text.{is_allowed};
ghost use Rattle.search_goals.specs.declared.goal.GoalFault.TheVariants as faults;
ghost use Rattle.search_goals.specs.Goals.{text_words, listed};
ghost use Rattle.search_goals.specs.GoalText.{said, named_task, behind_at, word_in, with_word, words_in};
ghost use Rattle.search_goals.specs.GoalText.{owner_of, in_word, line_of, goal_by, goal_alone, stuck_task, stuck_of};
ghost use Rattle.search_goals.specs.GoalText.{condition_of, condition_in, conditions_in, when_all, when_of};
ghost use Rattle.search_goals.specs.GoalText.{goal_from, goal_of_words, goal_of, Answers};

use crate::conditions::{Condition, asked_of};
use crate::line_shapes::may_begin;
use crate::meeting::{is_word, next_word};
use crate::names::made_name;
use crate::places::{is_known_of, plan_of};
use crate::stops::{Stop, cut_at};
use ipc_ids::{NoMemory, TaskNo};
use script_lines::{MOST_BYTES, Names, Reason, TaskPlan};
use std::alloc::{AllocError, AllocFailed, Global};

/// What a search looks for.
#[derive(Drop)]
pub enum Goal {
    /// A state in which a call of a living task is not answered, and is not behind any steps of tasks.
    Lost,
    /// A state in which no step of a living task changes anything but counters.
    Rest,
    /// The same, and a call of this task is not answered or, with `None`, a call of any living task.
    Stuck(Option<TaskNo>),
    /// A state in which each of these holds.
    When(Vec<Condition>),
    /// An event whose first line begins with the words of `head`, and some line of which begins with
    /// those of `asked`, where `*` is any word.
    Line {
        head: Vec<Vec<u8>>,
        asked: Vec<Vec<u8>>,
    },
}

/// Why a goal is not read.
#[derive(Clone, Copy)]
pub enum GoalFault {
    /// The first word at fault, numbered from 1; 0 for the text as a whole, which is too long or
    /// has a byte that may not stand in a line.
    Bad { word: u64, reason: Reason },
    /// No memory was found.
    NoMemory,
}

impl From<NoMemory> for GoalFault {
    ghost from_gives = { λ _ e. e ≡ faults.NoMemory };

    fn from(_error: NoMemory) -> GoalFault {
        GoalFault::NoMemory
    }
}

impl From<AllocError> for GoalFault {
    ghost from_gives = { λ _ e. e ≡ faults.NoMemory };

    fn from(_error: AllocError) -> GoalFault {
        GoalFault::NoMemory
    }
}

impl<T: Drop> From<AllocFailed<T>> for GoalFault {
    ghost from_gives = { λ _ e. e ≡ faults.NoMemory };

    fn from(_error: AllocFailed<T>) -> GoalFault {
        GoalFault::NoMemory
    }
}

/// Whether each byte may stand in a line.
fn all_allowed(text: &[u8]) -> bool
    ensures { result ≡ list_all is_allowed text.now }
{
    cut_at(Stop::LineEnd, text).1.is_empty()
}

/// The name before a colon, which is the last byte.
#[tactic(auto, unfolding(crate::specs::GoalText::owner_of))]
fn owner_of(word: &[u8]) -> Option<&[u8]>
    ensures { option_map (λ name. name.now) result ≡ owner_of word.now }
{
    let len = word.len();
    if 0 < len && word[len - 1] == b':' {
        Some(&word[..len - 1])
    } else {
        None
    }
}

/// `t` and the number of the task with this name.
#[tactic(auto, unfolding(crate::specs::GoalText::named_task))]
fn named_task(alloc: Global, names: &Names, place: u64, name: &[u8]) -> Result<Vec<u8>, GoalFault>
    ensures { Answers (λ text. text.items) result (in_word place (named_task names.now name.now)) }
{
    match names.task_named(name) {
        None => Err(GoalFault::Bad {
            word: place,
            reason: Reason::UnknownName,
        }),
        Some(task) => {
            let text = made_name(alloc, task.0)?;
            Ok(text)
        }
    }
}

/// The same of a name at the front, and what stands behind it.
#[tactic(auto, unfolding(crate::specs::GoalText::behind_at))]
fn behind_at(alloc: Global, names: &Names, place: u64, word: &[u8]) -> Result<Vec<u8>, GoalFault>
    ensures { Answers (λ text. text.items) result (in_word place (behind_at names.now word.now)) }
{
    let (name, rest) = cut_at(Stop::NameEnd, word);
    let mut text = named_task(alloc, names, place, name)?;
    text.extend_from_slice(rest)?;
    Ok(text)
}

/// A word of a goal: itself, or `@` and the name of a task.
#[tactic(auto, unfolding(crate::specs::GoalText::word_in))]
fn word_in(alloc: Global, names: &Names, place: u64, word: &[u8]) -> Result<Vec<u8>, GoalFault>
    ensures { Answers (λ text. text.items) result (in_word place (word_in names.now word.now)) }
{
    match word {
        [b'@', behind @ ..] => behind_at(alloc, names, place, behind),
        _ => {
            let text = Vec::from_slice(alloc, word)?;
            Ok(text)
        }
    }
}

/// Adds what a word says, where a line of a trace may begin with all of the words then.
#[tactic(auto, unfolding(crate::specs::GoalText::with_word))]
fn with_word(
    alloc: Global,
    names: &Names,
    place: u64,
    word: &[u8],
    words: &mut Vec<Vec<u8>>,
) -> Result<(), GoalFault>
    ensures { Answers (λ _. listed words.new.items) result
        (in_word place (with_word names.now (listed words.old.items) word.now)) }
{
    let text = word_in(alloc, names, place, word)?;
    words.push(text)?;
    if !may_begin(words.as_slice()) {
        return Err(GoalFault::Bad {
            word: place,
            reason: Reason::BadWord,
        });
    }
    Ok(())
}

/// The words of a text, numbered from this place on.
fn words_in(
    alloc: Global,
    names: &Names,
    place: u64,
    text: &[u8],
) -> Result<Vec<Vec<u8>>, GoalFault>
    requires low { place ≤ 2 }
    requires small { length text.now ≤ 1048576 }
    ensures { Answers (λ words. listed words.items) result
        (words_in names.now place (text_words text.now)) }
{
    let mut words = Vec::new(alloc);
    let mut rest = text;
    let mut number = place;
    while let Some((word, others)) = next_word(rest) {
        match with_word(alloc, names, number, word, &mut words) {
            Ok(()) => {}
            Err(fault) => return Err(fault),
        }
        rest = others;
        number += 1;
    }
    Ok(words)
}

/// At least one word is asked for, behind so many.
fn line_of(place: u64, head: Vec<Vec<u8>>, asked: Vec<Vec<u8>>) -> Result<Goal, GoalFault>
    ensures { Answers said result (line_of place (listed head.items) (listed asked.items)) }
{
    if asked.is_empty() {
        return Err(GoalFault::Bad {
            word: place,
            reason: Reason::WrongCount,
        });
    }
    Ok(Goal::Line { head, asked })
}

/// A line, of a task where the first word says so.
fn goal_by(
    alloc: Global,
    names: &Names,
    owner: Option<&[u8]>,
    text: &[u8],
    first: &[u8],
    others: &[u8],
) -> Result<Goal, GoalFault>
    requires parts { text_words text.now ≡ first.now ∷ text_words others.now }
    requires small { length text.now ≤ 1048576 }
    requires less { length others.now ≤ 1048576 }
    ensures { Answers said result (goal_by names.now (option_map (λ name. name.now) owner.entry) first.now
        (text_words others.now)) }
{
    match owner {
        None => {
            let asked = words_in(alloc, names, 1, text)?;
            line_of(1, Vec::new(alloc), asked)
        }
        Some(owner) => {
            let task = named_task(alloc, names, 1, owner)?;
            let asked = words_in(alloc, names, 2, others)?;
            let mut head = Vec::new(alloc);
            head.push(task)?;
            line_of(2, head, asked)
        }
    }
}

/// This goal, where no word stands behind.
fn goal_alone(goal: Goal, others: &[u8]) -> Result<Goal, GoalFault>
    ensures { Answers said result (goal_alone (said goal) (text_words others.now)) }
{
    match next_word(others) {
        None => Ok(goal),
        Some(_) => Err(GoalFault::Bad {
            word: 2,
            reason: Reason::WrongCount,
        }),
    }
}

/// That a call of the task with this name is not answered.
#[tactic(auto, unfolding(crate::specs::GoalText::stuck_task))]
fn stuck_task(names: &Names, name: &[u8]) -> Result<Goal, GoalFault>
    ensures { Answers said result (stuck_task names.now name.now) }
{
    match names.task_named(name) {
        None => Err(GoalFault::Bad {
            word: 2,
            reason: Reason::UnknownName,
        }),
        Some(task) => Ok(Goal::Stuck(Some(task))),
    }
}

/// That nothing moves and a call is not answered: of the task that is named, if one is.
fn stuck_of(names: &Names, others: &[u8]) -> Result<Goal, GoalFault>
    ensures { Answers said result (stuck_of names.now (text_words others.now)) }
{
    match next_word(others) {
        None => Ok(Goal::Stuck(None)),
        Some((name, more)) => match next_word(more) {
            None => stuck_task(names, name),
            Some(_) => Err(GoalFault::Bad {
                word: 3,
                reason: Reason::WrongCount,
            }),
        },
    }
}

/// What the bytes behind the name of a task ask of it.
#[tactic(auto, unfolding(crate::specs::GoalText::condition_of))]
fn condition_of(
    tasks: &[TaskPlan],
    task: TaskNo,
    place: u64,
    bytes: &[u8],
) -> Result<Condition, GoalFault>
    ensures { Answers (λ condition. condition) result
        (in_word place (condition_of tasks.now task bytes.now)) }
{
    match asked_of(task, bytes) {
        None => Err(GoalFault::Bad {
            word: place,
            reason: Reason::BadWord,
        }),
        Some(condition) => {
            if !is_known_of(plan_of(tasks, task), &condition) {
                return Err(GoalFault::Bad {
                    word: place,
                    reason: Reason::UnknownOperation,
                });
            }
            Ok(condition)
        }
    }
}

/// What is asked of the state of the task whose name stands at the front.
#[tactic(auto, unfolding(crate::specs::GoalText::condition_in))]
fn condition_in(
    names: &Names,
    tasks: &[TaskPlan],
    place: u64,
    word: &[u8],
) -> Result<Condition, GoalFault>
    ensures { Answers (λ condition. condition) result
        (in_word place (condition_in names.now tasks.now word.now)) }
{
    let (name, rest) = cut_at(Stop::NameEnd, word);
    match names.task_named(name) {
        None => Err(GoalFault::Bad {
            word: place,
            reason: Reason::UnknownName,
        }),
        Some(task) => condition_of(tasks, task, place, rest),
    }
}

/// What the words behind the first ask of one state.
fn conditions_in(
    alloc: Global,
    names: &Names,
    tasks: &[TaskPlan],
    text: &[u8],
) -> Result<Vec<Condition>, GoalFault>
    requires small { length text.now ≤ 1048576 }
    ensures { Answers (λ conditions. conditions.items) result
        (conditions_in names.now tasks.now (text_words text.now)) }
{
    let mut conditions = Vec::new(alloc);
    let mut rest = text;
    let mut number = 2;
    while let Some((word, others)) = next_word(rest) {
        match condition_in(names, tasks, number, word) {
            Ok(condition) => conditions.push(condition)?,
            Err(fault) => return Err(fault),
        }
        rest = others;
        number += 1;
    }
    Ok(conditions)
}

/// At least one thing is asked.
fn when_all(conditions: Vec<Condition>) -> Result<Goal, GoalFault>
    ensures { Answers said result (when_all conditions.items) }
{
    if conditions.is_empty() {
        return Err(GoalFault::Bad {
            word: 2,
            reason: Reason::WrongCount,
        });
    }
    Ok(Goal::When(conditions))
}

/// What is asked of one state.
fn when_of(
    alloc: Global,
    names: &Names,
    tasks: &[TaskPlan],
    others: &[u8],
) -> Result<Goal, GoalFault>
    requires small { length others.now ≤ 1048576 }
    ensures { Answers said result (when_of names.now tasks.now (text_words others.now)) }
{
    let conditions = conditions_in(alloc, names, tasks, others)?;
    when_all(conditions)
}

/// What a text of at least one word says: something of a state, or a line.
fn goal_from(
    alloc: Global,
    names: &Names,
    tasks: &[TaskPlan],
    text: &[u8],
    first: &[u8],
    others: &[u8],
) -> Result<Goal, GoalFault>
    requires parts { text_words text.now ≡ first.now ∷ text_words others.now }
    requires small { length text.now ≤ 1048576 }
    requires less { length others.now ≤ 1048576 }
    ensures { Answers said result (goal_from names.now tasks.now first.now (text_words others.now)) }
{
    if is_word(first, b"lost") {
        return goal_alone(Goal::Lost, others);
    }
    if is_word(first, b"rest") {
        return goal_alone(Goal::Rest, others);
    }
    if is_word(first, b"stuck") {
        return stuck_of(names, others);
    }
    if is_word(first, b"when") {
        return when_of(alloc, names, tasks, others);
    }
    goal_by(alloc, names, owner_of(first), text, first, others)
}

/// What the words of a text say.
fn goal_of_words(
    alloc: Global,
    names: &Names,
    tasks: &[TaskPlan],
    text: &[u8],
) -> Result<Goal, GoalFault>
    requires small { length text.now ≤ 1048576 }
    ensures { Answers said result (goal_of_words names.now tasks.now (text_words text.now)) }
{
    match next_word(text) {
        None => Err(GoalFault::Bad {
            word: 1,
            reason: Reason::WrongCount,
        }),
        Some((first, others)) => goal_from(alloc, names, tasks, text, first, others),
    }
}

/// The goal that a text of at most 1,048,576 bytes says for tasks of these names. The first of them
/// are the tasks of a script, of which the operations are known. The words of the text stand between
/// spaces, tabs and line feeds:
///
/// - `lost` says `Lost`, `rest` says `Rest`, and `stuck` with the name of a task or alone says `Stuck`;
/// - `when` says `When`; each word behind it is the name of a task, of a fibril of it also `/` and
///   the number, and then `@N` (it stands at operation N), `.rK=N` (register K holds N) or `$` (it is
///   at its end), or for a task `!` (it was killed);
/// - all else says a line, of an event of that task where the first word is its name and `:`. A word
///   `@NAME` there, with whatever follows the name, stands for the number of that task.
///
/// # Errors
///
/// `Bad` where it says none, with its first fault: a text that is too long, a byte that may not
/// stand in a line, too few or too many words, a name of no task, a condition that is none, an
/// operation that no body of its task has, or a word with which no line of a trace goes on.
/// `NoMemory` where no memory was found.
#[tactic(auto, unfolding(crate::specs::GoalText::goal_of))]
pub fn read_goal_for(
    alloc: Global,
    names: &Names,
    tasks: &[TaskPlan],
    text: &[u8],
) -> Result<Goal, GoalFault>
    ensures { Answers said result (goal_of names.now tasks.now text.now) }
{
    if text.len() > MOST_BYTES {
        return Err(GoalFault::Bad {
            word: 0,
            reason: Reason::TooLong,
        });
    }
    if !all_allowed(text) {
        return Err(GoalFault::Bad {
            word: 0,
            reason: Reason::BadByte,
        });
    }
    goal_of_words(alloc, names, tasks, text)
}
