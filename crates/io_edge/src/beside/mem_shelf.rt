//! Files in memory, whose loads can be told to fail.
ghost use Rattle.std.specs.Prelude.{◌≡◌, ◌≤◌, ◌+◌, ◌++◌, ◌⊎◌, [], ◌∷◌, length, IfOk, OnOk, OnErr};
ghost use Rattle.std.specs.Prelude.{IsErrOf, Some, None, option_copied};
ghost use Rattle.io_edge.specs.declared.shelf.LoadFault.TheVariants.{Failed, NoMemory as Memory};
ghost use Rattle.io_edge.specs.Edge.{file_of, Gives, next_count};
ghost use Rattle.io_edge.specs.Memory.{empty_shelf, with_failing_load, IsNextLoadListed};
ghost use Rattle.io_edge.specs.Stored.{all_named};

use crate::{LoadFault, Shelf};
use ipc_ids::NoMemory;
use std::alloc::Global;
use std::marker::Model;

#[derive(Drop)]
struct StoredFile {
    name: String,
    bytes: Vec<u8>,
}

/// A shelf that tells its files, which are those that were added.
#[derive(Drop)]
pub struct MemShelf {
    alloc: Global,
    // the newest first
    files: Vec<StoredFile>,
    failed: Vec<String>,
    loads: u64,
    loads_to_fail: Vec<u64>,
}

impl Model for MemShelf {
    ghost use Rattle.std.specs.Prelude.{map, string_bytes};
    ghost use Rattle.io_edge.specs.Memory.{ShelfState};
    ghost use Rattle.io_edge.specs.Stored.{all_named};

    ghost Value = { ShelfState };

    ghost view = { λ shelf. record {
      files = all_named shelf.files.items;
      failed = map string_bytes shelf.failed.items;
      loads = shelf.loads;
      loads_to_fail = shelf.loads_to_fail.items;
    } };
}

// The bytes of the first file of this name.
fn find<'a>(files: &'a [StoredFile], name: &str) -> Option<&'a [u8]>
    ensures { option_copied result ≡ file_of (all_named files.now) name.now }
{
    for file in files {
        if file.name.as_str() == name {
            return Some(&file.bytes);
        }
    }
    None
}

impl MemShelf {
    /// A shelf with no files; it takes no memory.
    pub fn new(alloc: Global) -> MemShelf
        ensures { result ≡ empty_shelf }
    {
        MemShelf {
            alloc,
            files: Vec::new(alloc),
            failed: Vec::new(alloc),
            loads: 0,
            loads_to_fail: Vec::new(alloc),
        }
    }

    /// Adds a file. A name that is there gets the new bytes.
    pub fn add(&mut self, name: &str, bytes: &[u8]) -> Result<(), NoMemory>
        ensures ok { OnOk result (
            self.new ≡ record self.old { files = (name.now, bytes.now) ∷ self.old.files }) }
        ensures unchanged { OnErr result (self.new ≡ self.old) }
    {
        let name = String::from_str(self.alloc, name)?;
        let bytes = Vec::from_slice(self.alloc, bytes)?;
        self.files.insert(0, StoredFile { name, bytes })?;
        Ok(())
    }

    /// The `nth` load from now, counted from 1, fails.
    pub fn fail_at(&mut self, nth: u64) -> Result<(), NoMemory>
        ensures ok { OnOk result (self.new ≡ with_failing_load self.old (self.old.loads + nth)) }
        ensures unchanged { OnErr result (self.new ≡ self.old) }
    {
        if let Some(load) = self.loads.checked_add(nth) {
            self.loads_to_fail.push(load)?;
        }
        Ok(())
    }
}

impl Shelf for MemShelf {
    ghost files = { λ shelf. Some shelf.files };

    ghost failed = { λ shelf. shelf.failed };

    fn load(&mut self, alloc: Global, name: &str, most: usize) -> Result<Vec<u8>, LoadFault>
        ensures bytes { IfOk result (λ bytes.
            Gives (Some self.old.files) name.now most bytes.items) }
        ensures most { IfOk result (λ bytes. length bytes.items ≤ most) }
        ensures files { self.new.files ≡ self.old.files }
        ensures ok { OnOk result (
            self.new ≡ record self.old { loads = next_count self.old.loads }) }
        ensures no_memory { IsErrOf result Memory → self.new ≡ self.old }
        ensures failed { IsErrOf result Failed →
            self.new.failed ≡ self.old.failed ++ name.now ∷ [] }
        ensures counted { IsErrOf result Failed → self.new.loads ≡ next_count self.old.loads }
        ensures loads_to_fail { self.new.loads_to_fail ≡ self.old.loads_to_fail }
        // It fails exactly where the call is listed or the name is missing, want of memory aside.
        ensures due { IsErrOf result Failed →
            IsNextLoadListed self.old ⊎ (file_of self.old.files name.now ≡ None) }
        ensures unlisted { OnOk result (¬ IsNextLoadListed self.old) }
    {
        let entry = String::from_str(self.alloc, name)?;
        self.failed.reserve(1)?;
        let number = self.loads.saturating_add(1);
        if self.loads_to_fail.contains(&number) {
            self.loads = number;
            self.failed.push(entry).unwrap();
            return Err(LoadFault::Failed);
        }
        match find(&self.files, name) {
            Some(bytes) => {
                let count = bytes.len().min(most);
                let loaded = Vec::from_slice(alloc, &bytes[..count])?;
                self.loads = number;
                Ok(loaded)
            }
            None => {
                self.loads = number;
                self.failed.push(entry).unwrap();
                Err(LoadFault::Failed)
            }
        }
    }
}
