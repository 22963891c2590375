//! The state of a kernel and of programs as words, by which states are told apart. Each function puts
//! the words of one part behind those that are there; where it fails, some of them may have been put
//! there.
//!
//! Left out are what never changes, as the operations of a raw program and the bodies of an async
//! task, and how many outcomes a program took, on which nothing rests that it does.
#![tactic(auto)]

mod async_program;
mod block;
mod calls;
mod connections;
mod contexts;
mod ends;
mod fibrils;
mod kernel;
mod laws;
mod memory;
mod naming;
mod parts;
mod phones;
mod raw;
mod sessions;
mod stands;
mod waits;
mod worded;

pub use async_program::push_async_program;
pub use block::push_block_server;
pub use kernel::push_kernel;
pub use laws::{words_tell_async_tasks_apart, words_tell_kernels_apart, words_tell_programs_apart};
pub use naming::push_naming_service;
pub use raw::push_raw_program;
