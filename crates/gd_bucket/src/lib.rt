//! A bucket as a small hash table: probing from the home of a hash on, inserting, removing and splitting.
//!
//! Each change keeps every full slot reached from its home: all slots from its home up to it are full.
#![tactic(auto)]

mod laws;
mod probing;
mod removing;
mod splitting;
#[cfg(test)]
mod tests;

pub use crate::laws::{look_up_by_candidates, map_by_slots, slot_replaced};
pub use crate::probing::{find, insert_slot};
pub use crate::removing::remove_slot;
pub use crate::splitting::{divide, split};
