//! The areas of the tasks, and what a task does with them.
ghost use Rattle.std.specs.Prelude.{◌≡◌, ◌^◌, ◌≤◌};
ghost use Rattle.address_space.specs.Memory.{count_areas as count_of, first_area};
ghost use Rattle.switchboard.specs.Areas.{make_area as made, drop_area as gone, poke as poked, peek as peeked, lose_first_area};
ghost use Rattle.switchboard.specs.Board.{IsAdded};
ghost use Rattle.switchboard.specs.Rooms.{HasRoom, UsesRoom};
ghost use Rattle.switchboard.specs.Serving.{Does, Serves, ServesOrLeaves};

use crate::board::Switchboard;
use address_space::SpaceFault;
use ipc_ids::{Entry, NoMemory, Outcome, Short, TaskNo, Trace};

impl Switchboard {
    /// A task makes an area of zeros.
    ///
    /// # Errors
    ///
    /// `NoMemory` where no memory was found for its bytes; then nothing has changed.
    pub fn make_area(
        &mut self,
        t: TaskNo,
        base: u64,
        pages: u64,
        rights: u64,
        out: &mut Trace,
    ) -> Result<Outcome, NoMemory>
        requires added { IsAdded self.old.state t }
        requires few_stores { self.old.state.memory.next_store ≤ 2 ^ 32 }
        requires room { HasRoom self.old out.old 0 0 1 }
        ensures served { ServesOrLeaves result self.old self.new out.old out.new
            (made self.old.state t base pages rights) }
        ensures room { UsesRoom self.old self.new out.old out.new 0 0 1 }
    {
        match self.spaces.make(t, base, pages, rights) {
            Ok(store) => {
                out.push(Entry::AreaMade {
                    task: t,
                    base,
                    pages,
                    rights,
                    store,
                });
                Ok(Outcome::Done)
            }
            Err(SpaceFault::Refused(code)) => Ok(Outcome::Refused(code)),
            Err(SpaceFault::NoMemory) => Err(NoMemory),
        }
    }

    /// A task drops the area with this base.
    pub fn drop_area(&mut self, t: TaskNo, base: u64, out: &mut Trace) -> Outcome
        requires added { IsAdded self.old.state t }
        requires room { HasRoom self.old out.old 0 0 1 }
        ensures served { Serves self.new result out.old out.new (gone self.old.state t base) }
        ensures room { UsesRoom self.old self.new out.old out.new 0 0 1 }
    {
        match self.spaces.drop_area(t, base) {
            Ok(()) => {
                out.push(Entry::AreaGone { task: t, base });
                Outcome::Done
            }
            Err(code) => Outcome::Refused(code),
        }
    }

    /// A task writes these bytes from an address on.
    pub fn poke(&mut self, t: TaskNo, at: u64, bytes: &Short, out: &mut Trace) -> Outcome
        requires added { IsAdded self.old.state t }
        requires room { HasRoom self.old out.old 0 0 1 }
        ensures served { Serves self.new result out.old out.new
            (poked self.old.state t at bytes.now) }
        ensures room { UsesRoom self.old self.new out.old out.new 0 0 1 }
    {
        let bytes = bytes.as_slice();
        match self.spaces.write(t, at, bytes) {
            Ok(Some(store)) => {
                let count = bytes.len() as u64;
                out.push(Entry::Wrote {
                    task: t,
                    at,
                    count,
                    store,
                });
                Outcome::Done
            }
            Ok(None) => Outcome::Done,
            Err(code) => Outcome::Refused(code),
        }
    }

    /// A task reads so many bytes from an address on.
    pub fn peek(&self, t: TaskNo, at: u64, count: u64) -> Outcome
        requires added { IsAdded self.now.state t }
        ensures { result ≡ (peeked self.now.state t at count).outcome }
    {
        match self.spaces.peek(t, at, count) {
            Ok(bytes) => Outcome::Bytes(bytes),
            Err(code) => Outcome::Refused(code),
        }
    }

    /// How many areas the task has.
    pub fn count_areas(&self, t: TaskNo) -> usize
        requires added { IsAdded self.now.state t }
        ensures areas { result ≡ count_of self.now.state.memory t }
        ensures few { result ≤ 16 }
    {
        self.spaces.count_areas(t)
    }

    /// Drops the first area of the task, where it has one.
    pub fn lose_first_area(&mut self, t: TaskNo, out: &mut Trace)
        requires added { IsAdded self.old.state t }
        requires room { HasRoom self.old out.old 0 0 1 }
        ensures step { Does self.new out.old out.new
            (lose_first_area t self.old.state (first_area self.old.state.memory t)) }
        ensures room { UsesRoom self.old self.new out.old out.new 0 0 1 }
    {
        if let Some(base) = self.spaces.first_area(t) {
            let _dropped = self.spaces.drop_area(t, base);
            out.push(Entry::AreaGone { task: t, base });
        }
    }
}
