//! The verdict on a list of entries.
ghost use Rattle.std.specs.Prelude.{◌≡◌, ◌<◌, ◌≤◌, ◌+◌, ◌^◌, ◌↔◌, List, [], ◌∷◌, OnOk, IsTrue};
ghost use Rattle.ipc_ids.specs.Holdings.{present};
ghost use Rattle.ipc_ids.specs.Laws.{LivesAreLawful};
ghost use Rattle.ipc_ids.specs.declared.entry.Entry.{Entry};
ghost use Rattle.law_check.specs.AreaState.{entry_of, newest};
ghost use Rattle.law_check.specs.Passing.{in_order};
ghost use Rattle.law_check.specs.Judging.{Judges, Stands, events_of};
ghost use Rattle.law_check.specs.Verdict.{IsVerdict};

use crate::areas::Areas;
use crate::kills::Kills;
use ipc_ids::{Entry, NoMemory};
use std::alloc::Global;

/// What the laws say of a list of entries.
#[derive(Clone, Copy, PartialEq, Eq)]
pub enum Verdict {
    /// All four laws hold; so many calls were accepted.
    Lawful { calls: u64 },
    /// The first law that fails, from 1 on.
    Breaks(u32),
}

/// What the entries so far say of the laws. It keeps what it has to know of calls, tasks and areas,
/// and no entry.
#[derive(Drop)]
pub struct Laws {
    kills: Kills,
    areas: Areas,
    /// The law of a call's life may still hold; where it is broken, nothing else counts.
    lives_hold: bool,
    kills_hold: bool,
    areas_hold: bool,
}

impl Laws {
    /// Before any entry. It takes no memory.
    pub fn new(alloc: Global) -> Laws
        ensures judges { Judges [] result }
        ensures events { events_of result ≡ 0 }
    {
        let kills = Kills::new(alloc);
        let areas = Areas::new(alloc);
        Laws {
            kills,
            areas,
            lives_hold: true,
            kills_hold: true,
            areas_hold: true,
        }
    }

    /// Takes the next entry, in the event with this head, after this last entry. Any entry may be
    /// given.
    ///
    /// # Errors
    ///
    /// `NoMemory` where memory ran out; then nothing is known.
    pub fn take(
        &mut self,
        now: Option<&Entry>,
        last: Option<&Entry>,
        entry: &Entry,
    ) -> Result<(), NoMemory>
        requires few { events_of self.old < 2 ^ 63 }
        ensures judges { (p : List Entry) → Judges p self.old → entry_of now.entry ≡ present p
            → entry_of last.entry ≡ newest p → OnOk result (Judges (entry.now ∷ p) self.new) }
        ensures events { events_of self.new ≤ events_of self.old + 1 }
    {
        if !self.lives_hold {
            return Ok(());
        }
        if !self.kills.lives.allows(entry) {
            self.lives_hold = false;
            return Ok(());
        }
        self.kills_hold = self.kills.go_on(self.kills_hold, entry)?;
        self.areas_hold = self.areas.go_on(self.areas_hold, now, last, entry)?;
        Ok(())
    }

    /// The entries that were taken satisfy the law of a call's life.
    fn lives_are_lawful(&self) -> bool
        ensures lawful { (p : List Entry) → Judges p self.now
            → (IsTrue result ↔ LivesAreLawful (in_order p [])) }
        ensures stand { (p : List Entry) → Judges p self.now → IsTrue result → Stands p self.now }
    {
        self.lives_hold && self.kills.lives.is_round()
    }

    /// The verdict on the entries that were taken. None may be taken after it. It takes no memory.
    pub fn verdict(&mut self) -> Verdict
        ensures { (p : List Entry) → Judges p self.old → IsVerdict (in_order p []) result }
    {
        if !self.lives_are_lawful() {
            return Verdict::Breaks(1);
        }
        if !self.kills.hold(self.kills_hold) {
            return Verdict::Breaks(3);
        }
        if !self.areas.hold(self.areas_hold) {
            return Verdict::Breaks(4);
        }
        Verdict::Lawful {
            calls: self.kills.lives.count(),
        }
    }
}
