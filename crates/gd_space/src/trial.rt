//! A file with its free space, for tests.

ghost use Rattle.std.specs.Prelude.{◌≡◌, pos};
ghost use Rattle.gd_format.specs.HeaderFault.{is_block_size};

use crate::Space;
use crate::marks::Marks;
use gd_base::Format;
use gd_format::{Extent, Header};
use gd_layout::Bucket;
use gd_testvault::SmallVault;
use gd_vault::FileId;
use std::alloc::Global;
use std::marker::Model;

/// A new standard file of block 512, of which the header, the table and the bucket are held.
#[derive(Drop)]
pub struct Trial {
    pub vault: SmallVault,
    space: Space,
    header: Header,
    bucket: Bucket,
}

impl Model for Trial {
    ghost use Rattle.gd_space.specs.Trial.{FitsTrial};
    ghost use Rattle.gd_format.specs.declared.Header.{Header};

    ghost Value = { Header };

    ghost view = { λ t. t.header };

    ghost invariant = { λ t. FitsTrial t.header t.space };
}

const NEW: Header = Header {
    format: Format::Standard,
    magic: 0x1357_9acf,
    block: 512,
    dir: 512,
    dir_bits: 6,
    elems: 16,
    next_block: 2048,
    version: 0,
    numsync: 0,
    reserved: [0; 6],
    avail_size: 28,
};

// Is it the size of a block?
#[tactic(auto, unfolding(gd_format::specs::HeaderFault::is_block_size))]
fn is_block(n: u32) -> bool
    ensures { result ≡ is_block_size (pos n) }
{
    n >= 512 && n <= 1_048_576 && n.is_power_of_two()
}

impl Trial {
    /// A new file in a vault of so many bytes.
    pub fn new(alloc: Global, size: usize) -> Option<Trial> {
        let Ok(bytes) = vec![in alloc; 0u8; size] else {
            return None;
        };
        let mut vault = SmallVault::new(bytes, u64::MAX);
        let header = NEW;
        if !is_block(header.block) {
            return None;
        }
        let Ok(space) = Space::load(alloc, &mut vault, FileId(0), &header) else {
            return None;
        };
        let Ok(mut bucket) = Bucket::empty(alloc, 16, 0) else {
            return None;
        };
        bucket.push_free(Extent {
            at: 1536,
            size: 512,
        });
        Some(Trial {
            vault,
            space,
            header,
            bucket,
        })
    }

    pub fn take(&mut self, n: u32) -> Option<u64> {
        if n == 0 {
            return None;
        }
        match self.space.take(
            &mut self.vault,
            FileId(0),
            &mut self.header,
            1024,
            &mut self.bucket,
            n,
        ) {
            Ok(at) => Some(at),
            Err(_) => None,
        }
    }

    pub fn give(&mut self, at: u64, size: u32) -> bool {
        if at >= 1 << 63 || size >= 1 << 31 {
            return false;
        }
        self.space
            .give(
                &mut self.vault,
                FileId(0),
                &mut self.header,
                1024,
                &mut self.bucket,
                Extent { at, size },
            )
            .is_ok()
    }

    pub fn recut(&mut self, capacity: u32) -> bool {
        if capacity < 2 || capacity > 26 {
            return false;
        }
        match self.space.recut(
            &mut self.vault,
            FileId(0),
            &mut self.header,
            1024,
            &mut self.bucket,
            capacity,
        ) {
            Ok(()) => true,
            Err(_) => false,
        }
    }

    /// Where the file ends, for those who ask for room.
    pub fn next_block(&self) -> u64 {
        self.header.next_block
    }

    /// Does no extent of the table or the bucket begin in the n bytes from the first block of the stack on?
    pub fn is_clear(&self, n: u64) -> bool {
        let top = self.space.table().next_block();
        !begins_within(self.space.table().extents(), top, n)
            && !begins_within(self.bucket.free(), top, n)
    }

    /// What the file has of free space, where no extent of it meets another one or one of those in use.
    pub fn count(&self, alloc: Global, used: &[Extent]) -> Option<Counted> {
        let Ok(bytes) = vec![in alloc; false; self.header.next_block as usize] else {
            return None;
        };
        let mut marks = Marks { bytes, marked: 0 };
        if !marks.mark(0, 1536) || !marks.mark_all(used) {
            return None;
        }
        let in_use = marks.marked;
        if !marks.mark_all(self.space.table().extents()) || !marks.mark_all(self.bucket.free()) {
            return None;
        }
        let (blocks, held) = marks.mark_stack(&self.vault.bytes, self.space.table().next_block())?;
        Some(Counted {
            free: marks.marked.saturating_sub(in_use).saturating_sub(held),
            lost: self.header.next_block.saturating_sub(marks.marked),
            table: self.space.table().extents().len(),
            bucket: self.bucket.free().len(),
            blocks,
        })
    }
}

// Does one of the extents begin in the n bytes from a place on?
fn begins_within(extents: &[Extent], at: u64, n: u64) -> bool {
    for e in extents {
        if e.at >= at && e.at - at < n {
            return true;
        }
    }
    false
}

/// What a file has of free space.
#[derive(Clone, Copy, Debug, PartialEq, Eq)]
pub struct Counted {
    /// The bytes of its free extents.
    pub free: u64,
    /// The bytes that are in no extent.
    pub lost: u64,
    pub table: usize,
    pub bucket: usize,
    /// The blocks of the stack.
    pub blocks: u64,
}
