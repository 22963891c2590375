//! The stores of bytes, in one list by rising number.
ghost use Rattle.std.specs.Prelude.{◌≡◌, ◌+◌, ◌^◌, ◌<◌, ◌≤◌, length, IsSome, IfSome, IfNone, IfOk, OnOk, OnErr, None};
ghost use Rattle.std.specs.Option.{option_copied};
ghost use Rattle.std.specs.Ordering.{nat_cmp};
ghost use Rattle.std.specs.FinMap.{get, find};
ghost use Rattle.address_space.specs.Stores.{no_stores, HasBytes, with_zeros, with_bytes, without_store};
ghost use Rattle.address_space.specs.Kept.{keyed, StandsAt};

use crate::bytes::Bytes;
use ipc_ids::NoMemory;
use std::alloc::Global;
use std::marker::Model;

/// A store of bytes.
#[derive(Drop)]
struct Store {
    number: u64,
    bytes: Bytes,
}

/// All stores.
#[derive(Drop)]
pub struct Stores {
    stores: Vec<Store>,
    next_store: u64,
}

impl Model for Stores {
    ghost use Rattle.address_space.specs.Stores.{StoreTable, store_table_code};
    ghost use Rattle.address_space.specs.Kept.{map_of, RisesWithin};

    ghost Value = { StoreTable };

    ghost coded = { store_table_code };

    ghost view = { λ a. record { stores = map_of a.stores.items; next_store = a.next_store } };

    ghost invariant = { λ a. RisesWithin 1 a.stores.items a.next_store };
}

impl Stores {
    pub fn new(alloc: Global) -> Stores
        ensures { result ≡ no_stores }
    {
        Stores {
            stores: Vec::new(alloc),
            next_store: 1,
        }
    }

    /// The bytes of a store; `None` where there is no such store.
    pub fn get(&self, store: u64) -> Option<&Bytes>
        ensures { option_copied result ≡ get self.now.stores store }
    {
        match position_of(&self.stores, store) {
            Some(i) => Some(&self.stores[i].bytes),
            None => None,
        }
    }

    /// The number of the next store.
    pub fn next_store(&self) -> u64
        ensures { result ≡ self.now.next_store }
    {
        self.next_store
    }

    /// Adds a store of so many zeros, and tells its number.
    ///
    /// # Errors
    ///
    /// `NoMemory` where no memory was found; then nothing has changed.
    pub fn add(&mut self, count: usize) -> Result<u64, NoMemory>
        requires { self.old.next_store < 2 ^ 63 }
        ensures ok { OnOk result (self.new ≡ with_zeros self.old count) }
        ensures number { IfOk result (λ n. n ≡ self.old.next_store) }
        ensures err { OnErr result (self.new ≡ self.old) }
    {
        let Ok(bytes) = Bytes::zeros(*self.stores.allocator(), count) else {
            return Err(NoMemory);
        };
        if self.stores.reserve(1).is_err() {
            return Err(NoMemory);
        }
        let number = self.next_store;
        self.stores.push_reserved(Store { number, bytes });
        self.next_store = number + 1;
        Ok(number)
    }

    /// Writes into a store, from `at` on.
    pub fn write(&mut self, store: u64, at: usize, bytes: &[u8])
        requires { HasBytes (get self.old.stores store) (at + length bytes.now) }
        ensures { self.new ≡ with_bytes self.old store at bytes.now }
    {
        let i = position_of(&self.stores, store).unwrap();
        let written = &mut self.stores[i];
        written.bytes.write(at, bytes);
    }

    /// Removes a store, with its bytes.
    pub fn remove(&mut self, store: u64)
        requires { IsSome (get self.old.stores store) }
        ensures { self.new ≡ without_store self.old store }
    {
        let i = position_of(&self.stores, store).unwrap();
        self.stores.remove(i);
    }
}

/// Where the store with this number stands.
fn position_of(stores: &[Store], number: u64) -> Option<usize>
    ensures none { IfNone result (find nat_cmp number (keyed stores.now) ≡ None) }
    ensures found { IfSome result (StandsAt stores.now number) }
{
    for (i, store) in stores.iter().enumerate() {
        if store.number == number {
            return Some(i);
        }
    }
    None
}
