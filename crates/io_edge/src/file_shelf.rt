//! Real files. It tells no content.
ghost use Rattle.std.specs.Prelude.{◌≡◌, ◌≤◌, [], None, length, IfOk};

use crate::{LoadFault, Shelf, read_most};
use std::alloc::Global;
use std::io::ErrorKind;
use std::marker::Model;
use std::rt::Files;
use std::{fs, io};

/// The files of the system. Contracts see the names whose load failed.
#[derive(Drop)]
pub struct FileShelf<R: Files> {
    rt: R,
    alloc: Global,
    failed: Vec<String>,
}

impl<R: Files> Model for FileShelf<R> {
    ghost use Rattle.std.specs.Prelude.{List, ℕ, map, string_bytes};

    ghost Value = { List (List ℕ) };

    ghost view = { λ shelf. map string_bytes shelf.failed.items };
}

impl<R: Files> FileShelf<R> {
    /// The files that `rt` reaches, before any load.
    pub fn new(rt: R, alloc: Global) -> FileShelf<R>
        ensures { result ≡ [] }
    {
        FileShelf {
            rt,
            alloc,
            failed: Vec::new(alloc),
        }
    }
}

// The first `most` bytes of the named file, or all where it is shorter.
fn open_and_read<R: Files>(rt: &R, alloc: Global, name: &str, most: usize) -> io::Result<Vec<u8>>
    ensures { IfOk result (λ bytes. length bytes.items ≤ most) }
{
    read_most(alloc, fs::open(rt, name)?, most)
}

impl<R: Files> Shelf for FileShelf<R> {
    ghost files = { λ _. None };

    ghost failed = { λ failed. failed };

    fn load(&mut self, alloc: Global, name: &str, most: usize) -> Result<Vec<u8>, LoadFault> {
        // Room for the name first, so that a failure can always be kept.
        let entry = String::from_str(self.alloc, name)?;
        self.failed.reserve(1)?;
        match open_and_read(&self.rt, alloc, name, most) {
            Ok(bytes) => Ok(bytes),
            Err(e) if e.kind() == ErrorKind::OutOfMemory => Err(LoadFault::NoMemory),
            Err(_) => {
                self.failed.push(entry).unwrap();
                Err(LoadFault::Failed)
            }
        }
    }
}
