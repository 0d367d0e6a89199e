//! Checks a database file, block by block or read whole, and walks over its records.
#![tactic(auto)]

mod checking;
mod directory;
mod keys;
mod reading;
mod records;
mod slots;
mod stored;
#[cfg(test)]
mod tests;
mod walking;
mod whole;

pub use crate::checking::readable;
pub use crate::reading::{Stopped, file_len, fill, read_some};
pub use crate::records::Records;
pub use crate::walking::Walk;
pub use crate::whole::{check, file_refusal};
