//! Fills a block of the stack, where no bytes are taken.

ghost use Rattle.std.specs.Prelude.{◌≡◌, ◌+◌, ◌*◌, ◌<◌, ◌≤◌, ◌^◌, ℕ, length, max, [], ◌∷◌, nat_lt, if◌then◌else◌, IfNone, IfSome};
ghost use Rattle.std.specs.List.{AllByRecursion};
ghost use Rattle.gd_format.specs.Avail.{avail_size};
ghost use Rattle.gd_format.specs.FreeSide.{IsBelow};
ghost use Rattle.gd_space.specs.Sizes.{largest};
ghost use Rattle.gd_layout.specs.Fits.{FitsExtent};
ghost use Rattle.gd_space.specs.Effect.{grown};
ghost use Rattle.gd_space.specs.Lists.{Step};

use crate::half::{move_last, place_block};
use gd_format::{Extent, Header};
use gd_layout::{AvailBlock, Bucket};

/// Where a block of the stack goes, with the room behind it that is kept for it, and by how much the file grows.
#[derive(Clone, Copy, Debug)]
pub struct Filled {
    pub block: Extent,
    pub grown: u64,
}

/// Moves the last `count` extents of a table into an empty block, for which it finds a place of `wide` bytes where there
/// is one. In new room, what is over goes into the block too. None where the file would grow too long.
pub fn fill_block(
    table: &mut AvailBlock,
    spare: &mut AvailBlock,
    bucket: &mut Bucket,
    header: &Header,
    count: u32,
    wide: u32,
) -> Option<Filled>
    requires empty { spare.old.extents ≡ [] }
    requires enough { count < length table.old.extents }
    requires spare_room { count < spare.old.room }
    requires room { length table.old.extents ≤ table.old.room }
    requires few { table.old.room < 2 ^ 32 }
    requires wider { avail_size (count + 1) ≤ wide }
    requires block { wide < header.now.block }
    requires large { header.now.block ≤ 1048576 }
    requires next { header.now.next_block ≤ 2 ^ 46 }
    requires fields { AllByRecursion FitsExtent table.old.extents }
    ensures step { IfSome result (λ p. AllByRecursion (IsBelow header.now.next_block) table.old.extents → AllByRecursion (IsBelow header.now.next_block) bucket.old.free → Step (header.now.next_block + p.grown) table.old.extents bucket.old.free table.new.extents bucket.new.free (grown header.now.next_block (header.now.next_block + p.grown)) (p.block ∷ spare.new.extents)) }
    ensures spare_below { IfSome result (λ p. AllByRecursion (IsBelow header.now.next_block) table.old.extents → AllByRecursion (IsBelow header.now.next_block) bucket.old.free → AllByRecursion (IsBelow (header.now.next_block + p.grown)) spare.new.extents) }
    ensures block_below { IfSome result (λ p. 0 < header.now.next_block → AllByRecursion (IsBelow header.now.next_block) table.old.extents → AllByRecursion (IsBelow header.now.next_block) bucket.old.free → IsBelow (header.now.next_block + p.grown) p.block) }
    ensures holds { IfSome result (λ p. avail_size (length spare.new.extents) ≤ p.block.size) }
    ensures wide { IfSome result (λ p. p.block.size ≤ wide) }
    ensures growth { IfSome result (λ p. p.grown ≡ (if nat_lt (max (largest table.old.extents) (largest bucket.old.free)) (avail_size count) then header.now.block else 0)) }
    ensures below { IfSome result (λ p. header.now.next_block + p.grown ≤ 2 ^ 46) }
    ensures least { IfSome result (λ p. count ≤ length spare.new.extents) }
    ensures most { IfSome result (λ p. length spare.new.extents ≤ count + 1) }
    ensures length { IfSome result (λ p. length table.new.extents + count ≤ length table.old.extents) }
    ensures shorter { length table.new.extents ≤ length table.old.extents }
    ensures none { IfNone result (max (largest table.old.extents) (largest bucket.old.free) < avail_size count) }
    ensures full { IfNone result (2 ^ 46 < header.now.next_block + header.now.block) }
    ensures same_table { IfNone result (table.new ≡ table.old) }
    ensures same_bucket { IfNone result (bucket.new ≡ bucket.old) }
    ensures fields { AllByRecursion FitsExtent table.new.extents }
    ensures spare_fields { IfSome result (λ p. AllByRecursion FitsExtent spare.new.extents) }
    ensures room { table.new.room ≡ table.old.room }
    ensures spare_room { spare.new.room ≡ spare.old.room }
    ensures next { table.new.next_block ≡ table.old.next_block }
    ensures bits { bucket.new.bits ≡ bucket.old.bits }
    ensures slots { bucket.new.slots ≡ bucket.old.slots }
{
    if let Some(block) = place_block(table, bucket, 16 + 16 * count, wide) {
        move_last(table, spare, count);
        return Some(Filled { block, grown: 0 });
    }
    if header.next_block + u64::from(header.block) > 1 << 46 {
        return None;
    }
    move_last(table, spare, count);
    spare.push(Extent {
        at: header.next_block + u64::from(wide),
        size: header.block - wide,
    });
    let block = Extent {
        at: header.next_block,
        size: wide,
    };
    Some(Filled {
        block,
        grown: u64::from(header.block),
    })
}
