//! The areas of all tasks.
ghost use Rattle.std.specs.Prelude.{◌≡◌, ◌+◌, ◌^◌, ◌<◌, ◌≤◌, length, IfSome, IfOk, IsOk, OnOk, OnErr, slice_get, All, remove, IsSome, Some, false, ◌++◌, ◌∷◌, []};
ghost use Rattle.std.specs.FinMap.{get};
ghost use Rattle.std.specs.Option.{option_copied};
ghost use Rattle.address_space.specs.Areas.{IsInRange, is_taken};
ghost use Rattle.address_space.specs.Stores.{HasBytes};
ghost use Rattle.address_space.specs.Sound.{IsOver};
ghost use Rattle.address_space.specs.Memory.{tested, Did, Tells, IsAdded, no_memory, with_task, without_last, areas_of, count_areas, spot_of, bytes_at, with_areas, with_store, is_used, release, make, drop_area, read, peek, write, first_area, area_at, area, share};

use crate::area::{HeldArea, PAGE, Right, is_subset};
use crate::areas::TaskAreas;
use crate::bytes::Bytes;
use crate::facts::Area;
use crate::stores::Stores;
use ipc_ids::{Buffer, Code, NoMemory, Short, StoreNo, TaskNo};
use std::alloc::Global;
use std::marker::Model;

/// Why a task gets no area or no bytes.
#[derive(Clone, Copy, Debug, PartialEq, Eq)]
pub enum SpaceFault {
    Refused(Code),
    NoMemory,
}

/// Where in a store a byte lies.
#[derive(Clone, Copy, PartialEq, Eq)]
struct Spot {
    store: u64,
    offset: usize,
}

/// The areas of all tasks, which are numbered from 1, and their stores.
#[derive(Drop)]
pub struct Spaces {
    tasks: Vec<TaskAreas>,
    stores: Stores,
}

impl Model for Spaces {
    ghost use Rattle.address_space.specs.Memory.{Memory, memory_code};
    ghost use Rattle.address_space.specs.Sound.{IsSound};

    ghost Value = { Memory };

    ghost coded = { memory_code };

    ghost view = { λ a. record {
      areas = a.tasks.items;
      stores = a.stores.stores;
      next_store = a.stores.next_store;
    } };

    ghost invariant = { λ a. IsSound (record {
      areas = a.tasks.items;
      stores = a.stores.stores;
      next_store = a.stores.next_store;
    }) };
}

impl Spaces {
    /// No tasks and no stores; it takes no memory.
    pub fn new(alloc: Global) -> Spaces
        ensures { result ≡ no_memory }
    {
        Spaces {
            tasks: Vec::new(alloc),
            stores: Stores::new(alloc),
        }
    }

    /// Adds a task, without areas.
    ///
    /// # Errors
    ///
    /// `NoMemory` where no memory was found; then nothing has changed.
    pub fn add_task(&mut self) -> Result<(), NoMemory>
        ensures ok { OnOk result (self.new ≡ with_task self.old) }
        ensures err { OnErr result (self.new ≡ self.old) }
    {
        if self.tasks.reserve(1).is_err() {
            return Err(NoMemory);
        }
        self.tasks.push_reserved(TaskAreas::new());
        Ok(())
    }

    /// Takes back the task that was added last, which has no areas; it takes no memory.
    pub fn take_back(&mut self)
        requires no_areas { self.old ≡ with_task (without_last self.old) }
        ensures { self.new ≡ without_last self.old }
    {
        self.tasks.pop();
    }

    /// Makes an area of zeros for a task, and tells the number of its store.
    ///
    /// # Errors
    ///
    /// `EINVAL` where there can be no such area; `EEXIST` where it overlaps another of the task;
    /// `ELIMIT` where the task has 16; `NoMemory`. Then nothing has changed.
    pub fn make(
        &mut self,
        t: TaskNo,
        base: u64,
        pages: u64,
        rights: u64,
    ) -> Result<StoreNo, SpaceFault>
        requires added { IsAdded self.old t }
        requires few_stores { self.old.next_store ≤ 2 ^ 32 }
        ensures told { Tells result (make self.old t base pages rights).told }
        ensures made { OnOk result (self.new ≡ (make self.old t base pages rights).memory) }
        ensures unchanged { OnErr result (self.new ≡ self.old) }
    {
        if let Some(code) = self.areas(t).refusal(base, pages, rights) {
            return Err(SpaceFault::Refused(code));
        }
        let Ok(store) = self.new_store(pages * PAGE) else {
            return Err(SpaceFault::NoMemory);
        };
        self.place_area(t, HeldArea::new(base, pages, rights, store));
        Ok(StoreNo(store))
    }

    /// Drops an area of a task, and its store with the last area over it; it takes no memory.
    ///
    /// # Errors
    ///
    /// `ENOENT` where the task has no area with this base; then nothing has changed.
    pub fn drop_area(&mut self, t: TaskNo, base: u64) -> Result<(), Code>
        requires added { IsAdded self.old t }
        ensures { Did self.new result (drop_area self.old t base) }
    {
        let Some(place) = self.areas(t).place_of(base) else {
            return Err(Code::ENOENT);
        };
        let area = self.take_area(t, place);
        self.release(area.store());
        Ok(())
    }

    /// The bytes of a task from `at` on; 0 bytes take no memory.
    ///
    /// # Errors
    ///
    /// `EPERM` where no area with the right to read holds them all; `NoMemory`.
    pub fn read(&self, alloc: Global, t: TaskNo, at: u64, count: u64) -> Result<Buffer, SpaceFault>
        requires added { IsAdded self.now t }
        ensures told { Tells result (read self.now t at count) }
        ensures empty { count ≡ 0 → IsOk result }
        ensures counted { IfOk result (λ buffer. length buffer ≡ count) }
    {
        if count == 0 {
            return Ok(Buffer::new(alloc));
        }
        match self.spot(t, at, count, Right::Read) {
            Some(spot) => match Buffer::from_slice(alloc, self.bytes(spot, count)) {
                Ok(buffer) => Ok(buffer),
                Err(_) => Err(SpaceFault::NoMemory),
            },
            None => Err(SpaceFault::Refused(Code::EPERM)),
        }
    }

    /// Whether a task may read its bytes from `at` on; it takes no memory.
    ///
    /// # Errors
    ///
    /// `EPERM` where no area with the right to read holds them all.
    pub fn may_read(&self, t: TaskNo, at: u64, count: u64) -> Result<(), Code>
        requires added { IsAdded self.now t }
        ensures { result ≡ tested (read self.now t at count) }
    {
        if count == 0 {
            return Ok(());
        }
        match self.spot(t, at, count, Right::Read) {
            Some(_) => Ok(()),
            None => Err(Code::EPERM),
        }
    }

    /// Up to 64 bytes of a task from `at` on; it takes no memory.
    ///
    /// # Errors
    ///
    /// `EINVAL` above 64 bytes; `EPERM` where no area with the right to read holds them all.
    pub fn peek(&self, t: TaskNo, at: u64, count: u64) -> Result<Short, Code>
        requires added { IsAdded self.now t }
        ensures { result ≡ peek self.now t at count }
    {
        if count > 64 {
            return Err(Code::EINVAL);
        }
        if count == 0 {
            return Ok(Short::from_slice(&[]).unwrap());
        }
        match self.spot(t, at, count, Right::Read) {
            Some(spot) => Ok(Short::from_slice(self.bytes(spot, count)).unwrap()),
            None => Err(Code::EPERM),
        }
    }

    /// Writes bytes of a task from `at` on, and tells the store; `None` where there are no bytes.
    /// It takes no memory.
    ///
    /// # Errors
    ///
    /// `EPERM` where no area with the right to write holds them all; then nothing has changed.
    pub fn write(&mut self, t: TaskNo, at: u64, bytes: &[u8]) -> Result<Option<StoreNo>, Code>
        requires added { IsAdded self.old t }
        ensures { Did self.new result (write self.old t at bytes.now) }
    {
        if bytes.is_empty() {
            return Ok(None);
        }
        match self.spot(t, at, bytes.len() as u64, Right::Write) {
            Some(spot) => {
                self.stores.write(spot.store, spot.offset, bytes);
                Ok(Some(StoreNo(spot.store)))
            }
            None => Err(Code::EPERM),
        }
    }

    /// Gives a task an area over the store of another area, which may be of another task, and
    /// tells the store. It takes no memory.
    ///
    /// # Errors
    ///
    /// `ENOENT` where `from` has no area with this base; `EPERM` where that area has other pages,
    /// or fewer rights; then what `make` refuses. Then nothing has changed.
    pub fn share(
        &mut self,
        from: TaskNo,
        base: u64,
        to: TaskNo,
        target: u64,
        pages: u64,
        rights: u64,
    ) -> Result<StoreNo, Code>
        requires from_added { IsAdded self.old from }
        requires to_added { IsAdded self.old to }
        ensures { Did self.new result (share self.old from base to target pages rights) }
    {
        let Some(source) = self.area_at(from, base) else {
            return Err(Code::ENOENT);
        };
        if source.pages() != pages || !is_subset(rights, source.rights()) {
            return Err(Code::EPERM);
        }
        let store = source.store();
        if let Some(code) = self.areas(to).refusal(target, pages, rights) {
            return Err(code);
        }
        self.place_area(to, HeldArea::new(target, pages, rights, store));
        Ok(StoreNo(store))
    }

    /// What is told of the area of a task with this base; `None` where it has none. It takes no
    /// memory.
    pub fn area(&self, t: TaskNo, base: u64) -> Option<Area>
        requires added { IsAdded self.now t }
        ensures { result ≡ area self.now t base }
    {
        match self.area_at(t, base) {
            Some(area) => Some(Area {
                pages: area.pages(),
                rights: area.rights(),
                store: StoreNo(area.store()),
            }),
            None => None,
        }
    }

    /// How many areas a task has.
    pub fn count_areas(&self, t: TaskNo) -> usize
        requires added { IsAdded self.now t }
        ensures count { result ≡ count_areas self.now t }
        ensures few { result ≤ 16 }
    {
        self.areas(t).len()
    }

    /// The least base of a task's areas; `None` where it has none.
    pub fn first_area(&self, t: TaskNo) -> Option<u64>
        requires added { IsAdded self.now t }
        ensures { result ≡ first_area self.now t }
    {
        self.areas(t).least_base()
    }

    /// The areas of each task, from the first on.
    pub fn tasks(&self) -> &[TaskAreas]
        ensures { result.now ≡ self.now.areas }
    {
        self.tasks.as_slice()
    }

    /// The bytes of a store; `None` where there is no such store.
    pub fn store(&self, store: u64) -> Option<&Bytes>
        ensures { option_copied result ≡ get self.now.stores store }
    {
        self.stores.get(store)
    }

    /// The number of the next store.
    pub fn next_store(&self) -> u64
        ensures { result ≡ self.now.next_store }
    {
        self.stores.next_store()
    }

    fn areas(&self, t: TaskNo) -> &TaskAreas
        requires added { IsAdded self.now t }
        ensures areas { result.now ≡ areas_of self.now t }
        ensures over { All (IsOver self.now.stores self.now.next_store) result.now }
    {
        &self.tasks[t.0 as usize - 1]
    }

    /// The area of a task with this base.
    fn area_at(&self, t: TaskNo, base: u64) -> Option<&HeldArea>
        requires added { IsAdded self.now t }
        ensures area { option_copied result ≡ area_at self.now t base }
        ensures over { IfSome result (λ a. IsOver self.now.stores self.now.next_store a.now) }
    {
        let areas = self.areas(t);
        match areas.place_of(base) {
            Some(place) => Some(areas.at(place)),
            None => None,
        }
    }

    /// Where these bytes of a task lie, if one area with that right holds them all.
    fn spot(&self, t: TaskNo, at: u64, count: u64, right: Right) -> Option<Spot>
        requires added { IsAdded self.now t }
        ensures spot { result ≡ spot_of self.now t at count right }
        ensures room { IfSome result (λ s.
            HasBytes (get self.now.stores s.store) (s.offset + count)) }
    {
        match self.areas(t).holder(at, count, right) {
            Some(area) => Some(Spot {
                store: area.store(),
                offset: (at - area.base()) as usize,
            }),
            None => None,
        }
    }

    /// So many bytes from a spot on.
    fn bytes(&self, spot: Spot, count: u64) -> &[u8]
        requires room { HasBytes (get self.now.stores spot.store) (spot.offset + count) }
        ensures { result.now ≡ bytes_at self.now spot count }
    {
        let bytes = self.stores.get(spot.store).unwrap().as_slice();
        &bytes[spot.offset..][..count as usize]
    }

    /// Makes a store of so many zeros.
    fn new_store(&mut self, count: u64) -> Result<u64, NoMemory>
        requires few_stores { self.old.next_store < 2 ^ 63 }
        ensures ok { OnOk result (self.new ≡ with_store self.old count) }
        ensures number { IfOk result (λ n. n ≡ self.old.next_store) }
        ensures err { OnErr result (self.new ≡ self.old) }
    {
        self.stores.add(count as usize)
    }

    /// Gives a task one area more.
    fn place_area(&mut self, t: TaskNo, area: HeldArea)
        requires added { IsAdded self.old t }
        requires room { length (areas_of self.old t) < 16 }
        requires over { IsOver self.old.stores self.old.next_store area }
        requires in_range { IsInRange area.base area.pages area.rights }
        requires free { is_taken area.base area.pages (areas_of self.old t) ≡ false }
        ensures { self.new ≡ with_areas self.old t (areas_of self.old t ++ area ∷ []) }
    {
        self.tasks[t.0 as usize - 1].push(area);
    }

    /// Takes an area from a task.
    fn take_area(&mut self, t: TaskNo, place: usize) -> HeldArea
        requires added { IsAdded self.old t }
        requires place { place < length (areas_of self.old t) }
        ensures area { slice_get (areas_of self.old t) place ≡ Some result }
        ensures areas { self.new ≡ with_areas self.old t (remove (areas_of self.old t) place) }
        ensures there { IsSome (get self.new.stores result.store) }
    {
        self.tasks[t.0 as usize - 1].remove(place)
    }

    /// Removes a store that no area stands over.
    fn release(&mut self, store: u64)
        requires there { IsSome (get self.old.stores store) }
        ensures { self.new ≡ release self.old store }
    {
        if !is_used(&self.tasks, store) {
            self.stores.remove(store);
        }
    }
}

/// Whether an area of some task stands over that store.
fn is_used(tasks: &[TaskAreas], store: u64) -> bool
    ensures { result ≡ is_used store tasks.now }
{
    tasks.iter().any(|areas| areas.stand_over(store))
}
