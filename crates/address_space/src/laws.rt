//! What holds of every sound memory.
ghost use Rattle.std.specs.Prelude.{◌≡◌, ◌+◌, ◌*◌, ◌≤◌, List, Option, Ok, Some, ℕ, length, true};
ghost use Rattle.std.specs.FinMap.{get};
ghost use Rattle.ipc_ids.specs.declared.numbers.TaskNo.{TaskNo};
ghost use Rattle.address_space.specs.declared.facts.Area.{Area};
ghost use Rattle.address_space.specs.Memory.{Memory, IsAdded, no_memory, with_task, make, drop_area, share, area, is_used, read, write};
ghost use Rattle.ipc_ids.specs.declared.numbers.StoreNo.{StoreNo};
ghost use Rattle.address_space.specs.Sound.{IsSound, AreHeld};

/// A memory that is sound is so after each request, of any task.
pub fn requests_keep_memory_sound()
    ensures task { (m : Memory) → IsSound m → IsSound (with_task m) }
    ensures make { (m : Memory) (t : TaskNo) (base pages rights : ℕ) → IsSound m
        → IsSound (make m t base pages rights).memory }
    ensures drop_area { (m : Memory) (t : TaskNo) (base : ℕ) → IsSound m
        → IsSound (drop_area m t base).memory }
    ensures write { (m : Memory) (t : TaskNo) (at : ℕ) (bytes : List ℕ) → IsSound m
        → IsSound (write m t at bytes).memory }
    ensures share { (m : Memory) (from : TaskNo) (base : ℕ) (to : TaskNo)
        (target pages rights : ℕ) → IsSound m
        → IsSound (share m from base to target pages rights).memory }
{}

/// Where each store is below the next number and under an area, it is so after each request, of any
/// task.
pub fn requests_leave_no_store_alone()
    ensures first { AreHeld no_memory }
    ensures task { (m : Memory) → AreHeld m → AreHeld (with_task m) }
    ensures make { (m : Memory) (t : TaskNo) (base pages rights : ℕ) → IsAdded m t → AreHeld m
        → AreHeld (make m t base pages rights).memory }
    ensures drop_area { (m : Memory) (t : TaskNo) (base : ℕ) → AreHeld m
        → AreHeld (drop_area m t base).memory }
    ensures write { (m : Memory) (t : TaskNo) (at : ℕ) (bytes : List ℕ) → AreHeld m
        → AreHeld (write m t at bytes).memory }
    ensures share { (m : Memory) (from : TaskNo) (base : ℕ) (to : TaskNo)
        (target pages rights : ℕ) → AreHeld m
        → AreHeld (share m from base to target pages rights).memory }
{}

/// What a task writes into bytes that it may read, it reads there.
pub fn writes_are_read_back()
    ensures { (m : Memory) (t : TaskNo) (at : ℕ) (new old : List ℕ) (store : Option StoreNo)
        → IsSound m → read m t at (length new) ≡ Ok old → (write m t at new).told ≡ Ok store
        → read (write m t at new).memory t at (length new) ≡ Ok new }
{}

/// What a task writes into an area, each task that may read there reads at the same place of any
/// area over the same store.
pub fn shared_bytes_are_seen()
    ensures { (m : Memory) (t u : TaskNo) (from to offset : ℕ) (a b : Area) (new old : List ℕ)
        (store : Option StoreNo) → IsSound m → area m t from ≡ Some a → area m u to ≡ Some b
        → a.store ≡ b.store → offset + length new ≤ a.pages * 4096
        → (write m t (from + offset) new).told ≡ Ok store
        → read m u (to + offset) (length new) ≡ Ok old
        → read (write m t (from + offset) new).memory u (to + offset) (length new) ≡ Ok new }
{}

/// Where a task drops an area, a store that another area stands over keeps its bytes.
pub fn stores_stay_while_used()
    ensures { (m : Memory) (t : TaskNo) (base store : ℕ)
        → is_used store (drop_area m t base).memory.areas ≡ true
        → get (drop_area m t base).memory.stores store ≡ get m.stores store }
{}
