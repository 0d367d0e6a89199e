//! A new file: its sizes, its header, and its three blocks in a vault.
//!
//! The definitions of `specs/` have its bytes, field by field; `docs/FORMAT.md` says the same in words.
#![tactic(auto)]

mod blocks;
mod laws;
mod make;
mod puts;
mod sizes;
#[cfg(test)]
mod tests;

pub use crate::laws::new_file_is_sound;
pub use crate::make::make_file;
pub use crate::sizes::{bits_for, block_for, new_header};
