//! What the words of a command line ask.
ghost use Rattle.std.specs.Prelude.{◌≡◌, IfSome};
ghost use Rattle.std.specs.Option.{option_map};
ghost use Rattle.script_lines.specs.Word.{number};
ghost use Rattle.command_line.specs.Command.{texts, said, generate, command_of, HasFewEvents};

use script_reader::number;

const MOST_EVENTS: u64 = 65_536;

/// What the program is asked to do.
#[derive(Clone, Copy)]
pub enum Command<'a> {
    /// Replay a schedule over a script: the names of the files of the script and of the schedule.
    Replay(&'a str, &'a str),
    /// Run generated input: the seed, and how many events, at most 65,536.
    Generate(u64, u64),
    /// Check a trace, by the name of its file.
    Check(&'a str),
}

// The command of these two words behind `gen`, if they are one.
fn generate<'a>(seed: &str, events: &str) -> Option<Command<'a>>
    ensures command { option_map said result ≡ generate (number seed.now) (number events.now) }
    ensures few { IfSome result HasFewEvents }
{
    let seed = number(seed.as_bytes())?;
    let events = number(events.as_bytes())?;
    if events > MOST_EVENTS {
        return None;
    }
    Some(Command::Generate(seed, events))
}

/// The command that the words are, `replay SCRIPT SCHEDULE` or `gen SEED EVENTS`; `None` where they
/// are no command.
pub fn command_of(words: &[String]) -> Option<Command<'_>>
    ensures command { option_map said result ≡ command_of (texts words.now) }
    ensures few { IfSome result HasFewEvents }
{
    match words {
        [command, script, schedule] if command.as_str() == "replay" => {
            Some(Command::Replay(script.as_str(), schedule.as_str()))
        }
        [command, seed, events] if command.as_str() == "gen" => {
            generate(seed.as_str(), events.as_str())
        }
        [command, trace] if command.as_str() == "check" => Some(Command::Check(trace.as_str())),
        _ => None,
    }
}
