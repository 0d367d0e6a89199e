//! What a dump is read as.

use gd_base::{Datum, Format};

/// Why a dump is refused.
#[derive(Clone, Copy, Debug, PartialEq, Eq)]
pub enum DumpKind {
    /// No dump, or none of a version that is known.
    Version,
    /// A line that is not in its place, or not of its form.
    Parameter,
    /// A text that has not the length that was said.
    Length,
    Base64,
    /// A count that is not the number of pairs, or none.
    Count,
    /// The input ends too early.
    Truncated,
    /// A datum or a pair above 2^30 bytes.
    TooLarge,
}

/// A refusal with its place, counted in bytes from the input's start, or want of memory.
#[derive(Clone, Copy, Debug, PartialEq, Eq)]
pub enum DumpError {
    Bad { kind: DumpKind, place: u64 },
    OutOfMemory,
}

/// What the head of a dump says.
#[derive(Debug, Drop)]
pub struct DumpHead {
    pub format: Option<Format>,
    /// The name of the file that was dumped.
    pub file: Option<Datum>,
}

/// A part of a dump: one head, then pairs of a key and a value, then one end.
#[derive(Debug, Drop)]
pub enum Item {
    Head(DumpHead),
    Pair(Datum, Datum),
    End,
}

/// How much of a piece was taken, and the item that ends there.
#[derive(Debug, Drop)]
pub struct Fed {
    pub taken: usize,
    pub item: Option<Item>,
}

/// Why a dump is refused, and where.
#[derive(Clone, Copy, Debug, PartialEq, Eq)]
pub struct Refusal {
    pub kind: DumpKind,
    pub place: u64,
}
