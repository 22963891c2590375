//! What is read is what bytes spell, and a fault is the first reason of its table.
ghost use Rattle.std.specs.Prelude.{◌≡◌, ◌↔◌, ℕ, List, [], Ok, Err, true};
ghost use Rattle.ipc_ids.specs.declared.message.Event.{Event};
ghost use Rattle.script_lines.specs.declared.fault.Reason.{Reason};
ghost use Rattle.script_reader.specs.Grammar.{IsFirstFault, Makes, SpellsScript};
ghost use Rattle.script_lines.specs.Line.{after_line};
ghost use Rattle.script_reader.specs.Reasons.{line_reasons, event_reasons};
ghost use Rattle.script_reader.specs.Rows.{fault_in, first_reason, IsFirstReason, NoReason};
ghost use Rattle.script_lines.specs.Plan.{Plan};
ghost use Rattle.script_lines.specs.ScriptParts.{ScriptParts, no_parts, script_of_parts};
ghost use Rattle.script_lines.specs.Draft.{stands_first};
ghost use Rattle.script_reader.specs.FirstLine.{HaveNoWords};
ghost use Rattle.script_reader.specs.Reading.{script_of, schedule_of};
ghost use Rattle.script_reader.specs.EventLine.{EventsAndNames, no_events, after_event, SpellsEvents};

/// What `script_of` and `schedule_of` compute is what bytes spell, and else their first fault.
pub fn readings_are_what_bytes_spell()
    ensures script_spelled { (text : List ℕ) (script : Plan)
        → (script_of text ≡ Ok script) ↔ SpellsScript text script }
    ensures script_at_fault { (text : List ℕ) (line : ℕ) (reason : Reason)
        → (script_of text ≡ Err (line, reason))
        ↔ IsFirstFault after_line line_reasons no_parts text line reason }
    ensures schedule_spelled { (script : Plan) (text : List ℕ) (events : List Event)
        → (schedule_of script text ≡ Ok events) ↔ SpellsEvents script text events }
    ensures schedule_at_fault { (script : Plan) (text : List ℕ) (line : ℕ) (reason : Reason)
        → (schedule_of script text ≡ Err (line, reason))
        ↔ IsFirstFault (after_event script) (event_reasons script) (no_events script)
        text line reason }
{}

/// Reading a line finds the first reason of its table whose test holds, whatever the lines before
/// it made, and no fault where none holds.
pub fn faults_are_the_first_reasons()
    ensures script_line { (before : ScriptParts) (line : List ℕ)
        → fault_in (after_line before line) ≡ first_reason (line_reasons before line) }
    ensures schedule_line { (script : Plan) (before : EventsAndNames) (line : List ℕ)
        → fault_in (after_event script before line)
        ≡ first_reason (event_reasons script before line) }
    ensures script_fault { (before : ScriptParts) (line : List ℕ) (reason : Reason)
        → (after_line before line ≡ Err reason) ↔ IsFirstReason (line_reasons before line) reason }
    ensures script_good { (before : ScriptParts) (line : List ℕ)
        → ((made : ScriptParts) × (after_line before line ≡ Ok made))
        ↔ NoReason (line_reasons before line) }
    ensures schedule_fault { (script : Plan) (before : EventsAndNames) (line : List ℕ)
        (reason : Reason) → (after_event script before line ≡ Err reason)
        ↔ IsFirstReason (event_reasons script before line) reason }
    ensures schedule_good { (script : Plan) (before : EventsAndNames) (line : List ℕ)
        → ((made : EventsAndNames) × (after_event script before line ≡ Ok made))
        ↔ NoReason (event_reasons script before line) }
{}

/// `ns` has its place behind these lines, which are not at fault, just where none of them has words.
pub fn the_service_is_the_first_line()
    ensures { (before : List (List ℕ)) (made : ScriptParts)
        → Makes after_line no_parts before made
        → (stands_first (script_of_parts made) ≡ true) ↔ HaveNoWords before }
{}
