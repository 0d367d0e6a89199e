//! The file format of the database: the plain values that stand in a file, and the refusals of a file.
//!
//! The definitions of `specs/` say where each value stands, what is refused, and which records a file has;
//! `docs/FORMAT.md` says the same in words.
#![tactic(auto)]

pub use gd_base::{DbError, Format};

/// The header of a file that has no header fault.
#[derive(Clone, Copy, Debug, PartialEq, Eq)]
pub struct Header {
    pub format: Format,
    pub magic: u32,
    pub block: u32,
    pub dir: u64,
    pub dir_bits: u32,
    pub elems: u32,
    pub next_block: u64,
    pub version: u32,
    pub numsync: u32,
    pub reserved: [u32; 6],
    pub avail_size: u32,
}

/// A slot of a bucket as it stands.
#[derive(Clone, Copy, Debug, PartialEq, Eq)]
pub struct RawSlot {
    pub hash: i32,
    pub start: [u8; 4],
    pub at: i64,
    pub key_size: i32,
    pub value_size: i32,
}

/// A free extent as it stands.
#[derive(Clone, Copy, Debug, PartialEq, Eq)]
pub struct RawExtent {
    pub size: i32,
    pub at: i64,
}

/// The head of a block of free space as it stands.
#[derive(Clone, Copy, Debug, PartialEq, Eq)]
pub struct RawAvail {
    pub size: i32,
    pub count: i32,
    pub next_block: i64,
}

/// The three counts of a bucket as they stand.
#[derive(Clone, Copy, Debug, PartialEq, Eq)]
pub struct Counts {
    pub free: i32,
    pub bits: i32,
    pub full: i32,
}

/// A free extent.
#[derive(Clone, Copy, Debug, PartialEq, Eq)]
pub struct Extent {
    pub at: u64,
    pub size: u32,
}

/// An extent of a file, with the address that its refusal names.
#[derive(Clone, Copy, Debug, PartialEq, Eq)]
pub struct Held {
    pub extent: Extent,
    pub by: u64,
}

/// A slot of a bucket.
#[derive(Clone, Copy, Debug, PartialEq, Eq)]
pub enum Slot {
    Empty,
    Full {
        hash: u32,
        start: [u8; 4],
        at: u64,
        key_size: u32,
        value_size: u32,
    },
}
