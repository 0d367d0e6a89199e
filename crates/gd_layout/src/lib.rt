//! The parts of a file over the bytes of their blocks: the hash of a key, the fields, the header and the buckets.
//!
//! Each reading call equals its definition over the bytes in `gd_format`; `docs/FORMAT.md` has the layout in words.
#![tactic(auto)]

mod avail;
mod bucket;
mod entries;
mod fields;
mod front;
#[cfg(test)]
mod front_tests;
mod hashing;
mod header;
mod laws;
#[cfg(test)]
mod tests;
mod writing;

pub use crate::avail::{AvailBlock, has_right_extent};
pub use crate::bucket::{Bucket, LayoutError};
pub use crate::fields::{i32_from, i64_from, u32_from, u64_from};
pub use crate::hashing::{hash, hash_end, hash_more, hash_start};
pub use crate::laws::header_fits;
pub use crate::writing::{full_count, is_full};
pub use gd_base::{DbError, Format};
pub use gd_format::{Counts, Extent, Header, RawAvail, RawExtent, RawSlot, Slot};

/// A layout of the file: `W` bytes make a file offset, and `BIG` is 1 where the first byte of a number is its
/// highest, else 0.
pub struct Layout<const W: usize, const BIG: usize>;

/// The layout of x86-64 Linux: 64-bit offsets, the least byte first.
pub type Native = Layout<8, 0>;
