//! Reads a script, line by line.
ghost use Rattle.std.specs.Prelude.{◌≡◌, ◌≢◌, ℕ, Ok, Err, OnOk};
ghost use Rattle.script_lines.specs.declared.fault.Reason.{Reason};
ghost use Rattle.script_lines.specs.Text.{lines};
ghost use Rattle.script_lines.specs.Plan.{Plan};
ghost use Rattle.script_lines.specs.Line.{after_line};
ghost use Rattle.script_lines.specs.ScriptParts.{no_parts, script_of_parts, parts_of, AreWhole, PartsFit};
ghost use Rattle.script_reader.specs.Grammar.{IsFirstFault, SpellsScript};
ghost use Rattle.script_reader.specs.Reasons.{line_reasons};
ghost use Rattle.script_reader.specs.Reading.{lines_from, script_of, fault_in_script, Reads, Agrees};

use ipc_ids::NoMemory;
use script_lines::{Drafts, LineFault, MOST_BYTES, Reason, Script, ScriptFault, add_line};
use std::alloc::Global;

fn add_lines(drafts: &mut Drafts, alloc: Global, text: &[u8]) -> Result<(), ScriptFault>
    requires { AreWhole drafts.old }
    ensures value { Reads fault_in_script result (parts_of drafts.new)
        (lines_from after_line 1 (parts_of drafts.old) (lines text.now)) }
    ensures whole { OnOk result (AreWhole drafts.new) }
{
    let mut words = Vec::new(alloc);
    let mut kept = None;
    let mut left = Some(text);
    let mut line = 0;
    while let Some(text) = left {
        line += 1;
        match add_line(drafts, alloc, &mut words, &mut kept, text) {
            Ok(others) => left = others,
            Err(LineFault::NoMemory) => return Err(ScriptFault::NoMemory),
            Err(LineFault::Bad(reason)) => return Err(ScriptFault::Bad { line, reason }),
        }
    }
    Ok(())
}

/// The script of all the lines.
fn finish(drafts: Drafts) -> Result<Script, ScriptFault>
    requires whole { AreWhole drafts }
    requires fit { PartsFit (parts_of drafts) }
    ensures { Agrees fault_in_script result (Ok (script_of_parts (parts_of drafts))) }
{
    match drafts.into_script() {
        Ok(script) => Ok(script),
        Err(NoMemory) => Err(ScriptFault::NoMemory),
    }
}

#[tactic(auto, unfolding(crate::specs::Reading::reading))]
fn read(alloc: Global, bytes: &[u8]) -> Result<Script, ScriptFault>
    ensures { Agrees fault_in_script result (script_of bytes.now) }
{
    if bytes.len() > MOST_BYTES {
        return Err(ScriptFault::Bad {
            line: 0,
            reason: Reason::TooLong,
        });
    }
    let mut drafts = Drafts::new(alloc);
    match add_lines(&mut drafts, alloc, bytes) {
        Ok(()) => finish(drafts),
        Err(fault) => {
            drop(drafts);
            Err(fault)
        }
    }
}

/// The script that the bytes of a file spell.
///
/// # Errors
///
/// `Bad` where they spell none, with their first fault; `NoMemory` where memory ran out, which may
/// come for any bytes.
pub fn read_script(alloc: Global, bytes: &[u8]) -> Result<Script, ScriptFault>
    ensures value { Agrees fault_in_script result (script_of bytes.now) }
    ensures read { (plan : Plan) → result ≡ Ok plan → SpellsScript bytes.now plan }
    ensures spelled { (plan : Plan) → SpellsScript bytes.now plan
        → result ≢ Err ScriptFault.NoMemory → result ≡ Ok plan }
    ensures fault { (line : ℕ) (reason : Reason)
        → result ≡ Err (ScriptFault.Bad line reason)
        → IsFirstFault after_line line_reasons no_parts bytes.now line reason }
    ensures at_fault { (line : ℕ) (reason : Reason)
        → IsFirstFault after_line line_reasons no_parts bytes.now line reason
        → result ≢ Err ScriptFault.NoMemory
        → result ≡ Err (ScriptFault.Bad line reason) }
{
    read(alloc, bytes)
}
