//! That no line of a trace is told as a fault of a goal.
ghost use Rattle.std.specs.Prelude.{◌≡◌, ℕ, true, false, List, Ok};
ghost use Rattle.ipc_ids.specs.declared.entry.Entry.{Entry};
ghost use Rattle.search_goals.specs.Goals.{entry_fits};
ghost use Rattle.search_goals.specs.GoalText.{words_in};
ghost use Rattle.search_goals.specs.LineShapes.{may_begin};
ghost use Rattle.search_goals.specs.SaidWords.{AreSaid};

/// Where no shape of a line may begin with some words, the line of no entry does. So words with
/// which the line of an entry begins are read, and are no fault.
pub fn lines_of_entries_are_no_fault()
    ensures none { (asked : List (List ℕ)) → may_begin asked ≡ false → (e : Entry)
        → entry_fits asked e ≡ false }
    ensures read { (names words asked : List (List ℕ)) (n : ℕ) (e : Entry)
        → AreSaid names words asked → entry_fits asked e ≡ true
        → words_in names n words ≡ Ok asked }
{}
