//! May a database file be opened, to read or to write? `readable` is checked by gd_readable, which stands below and has the
//! walk over the records too; `sound` is checked here: a readable file whose free space is right, and of whose extents
//! none meets another.
#![tactic(auto)]

mod apart;
mod buckets;
mod directory;
mod free;
mod held;
mod meeting;
#[cfg(test)]
mod meeting_tests;
mod sounding;
mod stack;
#[cfg(test)]
mod tests;

pub use crate::sounding::sound;
pub use gd_readable::{Walk, readable};
