//! What changes an open database file: one record is put or removed, and room is made for one more in a full bucket.
//!
//! `put` and `remove` change one record in the bucket of its key: they take and give back room, and write the record, the
//! bucket's block and the header's block. `make_room` splits the bucket of a hash, and doubles the directory (`split_once`,
//! `double`), until it has an empty slot, and writes the header's block once, at the end. No memory is taken. The caller has
//! looked the key up, and has read the bucket.
#![tactic(auto)]

mod change;
#[cfg(test)]
mod change_tests;
mod copying;
mod doubling;
mod errors;
mod growing;
#[cfg(test)]
mod growing_tests;
mod last;
mod laws;
mod pages;
mod record;
mod rooms;
mod runs;
mod slots;
#[cfg(test)]
mod split_tests;
mod splitting;
#[cfg(test)]
mod trial;

pub use crate::change::{put, remove};
pub use crate::growing::{is_crowded, make_room};
pub use crate::laws::{
    doubling_holds, full_has_spare, growth_begins, growth_ends, held_is_whole, put_keeps_sound,
    remove_keeps_sound, same_lookups, sound_is_held, split_holds, splits_end,
};
pub use gd_base::DbError;
