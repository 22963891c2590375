//! The phones of all tasks.
#![tactic(auto)]

mod hung;
mod phones;
mod rows;

pub use hung::Hung;
pub use phones::Phones;
pub use rows::PhoneRows;
