//! What the words of a command line ask.
ghost use Rattle.std.specs.Prelude.{◌≡◌, ◌≤◌, ◌<◌, ◌∷◌, IfSome, IfNone, is_some, length};
ghost use Rattle.std.specs.Option.{option_map};
ghost use Rattle.command_line.specs.Command.{texts};
ghost use Rattle.hipc_search.specs.Command.{goals_behind, is_known, value_of, comes_once, later_goals, up_to, given_or, given, command_for};
ghost use Rattle.hipc_search.specs.Command.{is_option, is_asked, first_and_others, asks_for, command_of, goals_in, said_asks, said};

use script_reader::number;

const MOST_KILLS: u32 = 65_536;

const MOST_EVENTS: u32 = 10_000;

const MOST_STATES: u32 = 100_000_000;

/// The names of the options; each option comes once at most.
const OPTION_NAMES: [&str; 7] = [
    "--kill", "--hangup", "--spawn", "--from", "--kills", "--events", "--states",
];

/// What is asked of the schedules of a script.
#[derive(Clone, Copy)]
pub(crate) enum Asks<'a> {
    /// The first that meets the goal of a text and then, in turn, those of the words, in which each
    /// stands behind `--then`.
    Goals { first: &'a str, later: &'a [String] },
    /// Each state at rest.
    Survey,
}

/// What is searched.
#[derive(Clone, Copy)]
pub(crate) struct Command<'a> {
    /// The file of the script.
    pub script: &'a str,
    pub asks: Asks<'a>,
    /// The names of the tasks that may be killed, with commas between them.
    pub kill: Option<&'a str>,
    /// The phones that may be hung up, each `NAME.PHONE`, with commas between them.
    pub hangup: Option<&'a str>,
    /// The templates of which tasks may be made, each `TEMPLATE:N`, with commas between them.
    pub spawn: Option<&'a str>,
    /// The file of the events that come first.
    pub from: Option<&'a str>,
    /// How many kills there may be, at most 65,536; any number where it is `None`.
    pub kills: Option<u32>,
    /// How many events there may be behind the first ones, at most 10,000.
    pub events: u32,
    /// How many states may be gone on from, at most 100,000,000.
    pub states: u32,
}

/// An option and its value, and the words behind them.
#[derive(Clone, Copy)]
pub(crate) struct Pair<'a> {
    pub option: &'a str,
    pub value: &'a str,
    pub others: &'a [String],
}

/// The option and its value at the front; `None` where there are fewer than two words.
pub(crate) fn next_pair(words: &[String]) -> Option<Pair<'_>>
    ensures some { IfSome result (λ pair. texts words.now
        ≡ pair.option.now ∷ pair.value.now ∷ texts pair.others.now) }
    ensures none { IfNone result (length words.now < 2) }
    ensures shorter { IfSome result (λ pair. length pair.others.now < length words.now) }
{
    match words {
        [option, value, others @ ..] => Some(Pair {
            option: option.as_str(),
            value: value.as_str(),
            others,
        }),
        _ => None,
    }
}

/// Whether the words are `--then` and a goal, again and again. There are no more calls than goals.
fn are_goals(words: &[String]) -> bool
    ensures { result ≡ is_some (goals_behind (texts words.now)) }
{
    match next_pair(words) {
        Some(pair) => {
            if pair.option == "--then" {
                are_goals(pair.others)
            } else {
                false
            }
        }
        None => words.is_empty(),
    }
}

/// The words, where they are goals.
fn last_goals(words: &[String]) -> Option<&[String]>
    ensures { option_map (λ goals. goals_in (texts goals.now)) result
        ≡ goals_behind (texts words.now) }
{
    if are_goals(words) { Some(words) } else { None }
}

/// Whether a word is the name of an option.
fn is_known(word: &str) -> bool
    ensures { result ≡ is_known word.now }
{
    OPTION_NAMES.contains(&word)
}

/// The value of the option of this name; `None` where it does not come. There are no more calls than
/// options.
fn value_of<'a>(words: &'a [String], name: &str) -> Option<&'a str>
    ensures { option_map (λ value. value.now) result ≡ value_of name.now (texts words.now) }
{
    match next_pair(words) {
        Some(pair) => {
            if pair.option == "--then" {
                return None;
            }
            if pair.option == name {
                return Some(pair.value);
            }
            value_of(pair.others, name)
        }
        None => None,
    }
}

/// Whether an option is known, and comes no more in the words behind it.
fn comes_once(option: &str, others: &[String]) -> bool
    ensures { result ≡ comes_once option.now (value_of option.now (texts others.now)) }
{
    match value_of(others, option) {
        None => is_known(option),
        Some(_) => false,
    }
}

/// The words of the goals behind options, each of which is known, comes once and has its value behind
/// it. There are no more calls than options.
fn later_goals(words: &[String]) -> Option<&[String]>
    ensures { option_map (λ goals. goals_in (texts goals.now)) result
        ≡ later_goals (texts words.now) }
{
    match next_pair(words) {
        Some(pair) => {
            if pair.option == "--then" {
                return last_goals(words);
            }
            if comes_once(pair.option, pair.others) {
                later_goals(pair.others)
            } else {
                None
            }
        }
        None => last_goals(words),
    }
}

/// A number of at most so many.
fn up_to(most: u32, number: Option<u64>) -> Option<u32>
    ensures value { result ≡ up_to most number }
    ensures within { IfSome result (λ n. n ≤ most) }
{
    match number {
        Some(number) if number <= u64::from(most) => Some(number as u32),
        _ => None,
    }
}

/// The number behind an option, of at most so many, or else another.
fn given_or(words: &[String], name: &str, most: u32, other: u32) -> Option<u32>
    ensures value { result ≡ given_or most other (value_of name.now (texts words.now)) }
    ensures within { other ≤ most → IfSome result (λ n. n ≤ most) }
{
    match value_of(words, name) {
        None => Some(other),
        Some(value) => up_to(most, number(value.as_bytes())),
    }
}

/// The same, or else none.
fn given(words: &[String], name: &str, most: u32) -> Option<Option<u32>>
    ensures { result ≡ given most (value_of name.now (texts words.now)) }
{
    match value_of(words, name) {
        None => Some(None),
        Some(value) => match up_to(most, number(value.as_bytes())) {
            Some(number) => Some(Some(number)),
            None => None,
        },
    }
}

/// The command of a script, what is asked, and the words of options.
#[tactic(auto, unfolding(crate::specs::Command::command_for))]
fn command_for<'a>(script: &'a str, asks: Asks<'a>, words: &'a [String]) -> Option<Command<'a>>
    ensures command { option_map said result
        ≡ command_for script.now (said_asks asks.entry) (texts words.now) }
    ensures few { IfSome result (λ command. command.events ≤ 10000) }
{
    let kills = given(words, "--kills", MOST_KILLS)?;
    let events = given_or(words, "--events", MOST_EVENTS, 64)?;
    let states = given_or(words, "--states", MOST_STATES, 1_000_000)?;
    Some(Command {
        script,
        asks,
        kill: value_of(words, "--kill"),
        hangup: value_of(words, "--hangup"),
        spawn: value_of(words, "--spawn"),
        from: value_of(words, "--from"),
        kills,
        events,
        states,
    })
}

/// Whether a word is an option.
fn is_option(word: &str) -> bool
    ensures { result ≡ is_option word.now }
{
    match word.as_bytes() {
        [b'-', b'-', ..] => true,
        _ => false,
    }
}

/// Whether a word says what is asked: it is a goal, or `--survey`.
fn is_asked(word: &str) -> bool
    ensures { result ≡ is_asked word.now }
{
    word == "--survey" || !is_option(word)
}

/// The word that says what is asked, where the words begin with one, else `lost`; and the words that
/// are left.
fn first_and_others(words: &[String]) -> (&str, &[String])
    ensures { (result.0.now, texts result.1.now) ≡ first_and_others (texts words.now) }
{
    match words {
        [] => ("lost", words),
        [word, others @ ..] => {
            if is_asked(word.as_str()) {
                (word.as_str(), others)
            } else {
                ("lost", words)
            }
        }
    }
}

/// What is asked by that word, and by the goals that come later; a survey has none.
fn asks_for<'a>(first: &'a str, later: &'a [String]) -> Option<Asks<'a>>
    ensures { option_map said_asks result ≡ asks_for first.now (goals_in (texts later.now)) }
{
    if first == "--survey" {
        match next_pair(later) {
            None => Some(Asks::Survey),
            Some(_) => None,
        }
    } else {
        Some(Asks::Goals { first, later })
    }
}

/// The command that the words are, `SCRIPT`, `SCRIPT GOAL` or `SCRIPT --survey`, options, and then
/// goals, each behind `--then`; `None` where they are no command.
pub(crate) fn command_of(words: &[String]) -> Option<Command<'_>>
    ensures command { option_map said result ≡ command_of (texts words.now) }
    ensures few { IfSome result (λ command. command.events ≤ 10000) }
{
    let [script, behind @ ..] = words else {
        return None;
    };
    let script = script.as_str();
    if is_option(script) {
        return None;
    }
    let (first, options) = first_and_others(behind);
    let later = later_goals(options)?;
    let asks = asks_for(first, later)?;
    command_for(script, asks, options)
}
