//! The words that a program is called with.

use ipc_ids::NoMemory;
use std::alloc::Global;
use std::env;
use std::env::FillError;
use std::io::ErrorKind;
use std::rt::Env;

/// The words behind a program's name, each by its place. The name itself is passed over.
#[derive(Drop)]
struct BehindName<R: Env + Drop> {
    rt: R,
}

impl<R: Env + Drop> Env for BehindName<R> {
    fn arg(&self, i: usize, buf: &mut [u8]) -> Result<usize, FillError> {
        match i.checked_add(1) {
            Some(place) => self.rt.arg(place, buf),
            None => Err(FillError::NotPresent),
        }
    }

    fn var(&self, name: &str, buf: &mut [u8]) -> Result<usize, FillError> {
        self.rt.var(name, buf)
    }

    fn var_at(&self, i: usize, buf: &mut [u8]) -> Result<usize, FillError> {
        self.rt.var_at(i, buf)
    }
}

/// The words behind the program's name, which may be no text. Where another word is no text, there
/// are none.
///
/// # Errors
///
/// `NoMemory` where no memory was found.
pub fn words_behind_name<R: Env + Drop>(rt: R, alloc: Global) -> Result<Vec<String>, NoMemory> {
    match env::args(&(BehindName { rt }, alloc)) {
        Ok(words) => Ok(words.collect(alloc)?),
        Err(e) if e.kind() == ErrorKind::OutOfMemory => Err(NoMemory),
        Err(_) => Ok(Vec::new(alloc)),
    }
}
