//! A file with one bucket, for tests.

ghost use Rattle.std.specs.Prelude.{◌≡◌, ◌<◌, ◌≤◌, true, pos, length, slice_index_or, IfNone, IfSome};
ghost use Rattle.gd_format.specs.declared.Slot.TheVariants.{Empty};
ghost use Rattle.gd_format.specs.Slots.{count, is_full};
ghost use Rattle.gd_format.specs.HeaderFault.{is_block_size};

use crate::{put, remove};
use gd_base::{DbError, Format};
use gd_format::Header;
use gd_layout::{Bucket, full_count, is_full};
use gd_open::OpenFile;
use gd_space::Space;
use gd_testvault::SmallVault;
use gd_vault::FileId;
use std::alloc::Global;
use std::marker::Model;

/// A new standard file of block 512, with the only bucket, at 1024.
#[derive(Drop)]
pub struct Trial {
    pub vault: SmallVault,
    file: OpenFile,
    bucket: Bucket,
}

impl Model for Trial {
    ghost use Rattle.std.specs.Prelude.{◌≡◌, length};
    ghost use Rattle.gd_format.specs.declared.Header.{Header};

    ghost Value = { Header };

    ghost view = { λ t. t.file.header };

    ghost invariant = { λ t. length t.bucket.slots ≡ t.file.header.elems };
}

const NEW: Header = Header {
    format: Format::Standard,
    magic: 0x1357_9acf,
    block: 512,
    dir: 512,
    dir_bits: 0,
    elems: 16,
    next_block: 1536,
    version: 0,
    numsync: 0,
    reserved: [0; 6],
    avail_size: 28,
};

// Is it the size of a block?
#[tactic(auto, unfolding(gd_format::specs::HeaderFault::is_block_size))]
fn is_block(n: u32) -> bool
    ensures { result ≡ is_block_size (pos n) }
{
    n >= 512 && n <= 1_048_576 && n.is_power_of_two()
}

// May the slot at a place be replaced, or a slot be added?
fn may_put(bucket: &Bucket, place: Option<u32>) -> bool
    ensures some { result ≡ true → IfSome place (λ p. is_full (slice_index_or bucket.now.slots p Empty) ≡ true) }
    ensures none { result ≡ true → IfNone place (count is_full bucket.now.slots < length bucket.now.slots) }
{
    let slots = bucket.slots();
    let Some(place) = place else {
        return full_count(slots) < slots.len();
    };
    (place as usize) < slots.len() && is_full(&slots[place as usize])
}

impl Trial {
    /// A new file in a vault of so many bytes.
    #[tactic(auto, unfolding(gd_format::specs::HeaderFault::is_native))]
    pub fn new(alloc: Global, size: usize) -> Option<Trial> {
        let Ok(bytes) = vec![in alloc; 0u8; size] else {
            return None;
        };
        let Ok(block) = vec![in alloc; 0u8; 512] else {
            return None;
        };
        let header = NEW;
        if !is_block(header.block) {
            return None;
        }
        let space = Space::empty(alloc, &header)?;
        let Ok(bucket) = Bucket::empty(alloc, 16, 0) else {
            return None;
        };
        Some(Trial {
            vault: SmallVault::new(bytes, u64::MAX),
            file: OpenFile::new(FileId(0), header, space, block),
            bucket,
        })
    }

    /// Stores a pair. `place` is the slot that has the key.
    pub fn put(&mut self, key: &[u8], value: &[u8], place: Option<u32>) -> Result<(), DbError> {
        if key.len() > 1000 || value.len() > 1000 || self.file.header().next_block > 1 << 40 {
            return Err(DbError::TooLarge);
        }
        if !may_put(&self.bucket, place) {
            return Err(DbError::ItemNotFound);
        }
        put(
            &mut self.file,
            &mut self.vault,
            1024,
            &mut self.bucket,
            place,
            key,
            value,
        )
    }

    /// Removes the record of a slot.
    pub fn remove(&mut self, place: u32) -> Result<(), DbError> {
        if !may_put(&self.bucket, Some(place)) || self.file.header().next_block > 1 << 40 {
            return Err(DbError::ItemNotFound);
        }
        remove(
            &mut self.file,
            &mut self.vault,
            1024,
            &mut self.bucket,
            place,
        )
    }

    pub fn header(&self) -> &Header {
        self.file.header()
    }

    pub fn bucket(&self) -> &Bucket {
        &self.bucket
    }
}
