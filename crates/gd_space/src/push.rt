//! Takes room where both lists are full.

ghost use Rattle.std.specs.Prelude.{◌≡◌, ◌≢◌, ◌+◌, ◌*◌, ◌/◌, ◌<◌, ◌≤◌, ◌^◌, ℕ, length, max, [], ◌∷◌, nat_lt, if◌then◌else◌, IfOk, IfErr, OnOk, OnErr};
ghost use Rattle.std.specs.List.{AllByRecursion};
ghost use Rattle.gd_format.specs.Sound.{extent, most_of};
ghost use Rattle.gd_space.specs.Sizes.{largest};
ghost use Rattle.gd_layout.specs.Fits.{FitsExtent};
ghost use Rattle.gd_format.specs.Avail.{avail_size};
ghost use Rattle.gd_format.specs.FreeSide.{IsBelow};
ghost use Rattle.gd_base.specs.Causes.{Rose};
ghost use Rattle.gd_space.specs.Effect.{whole_blocks, grown, half_size, WritesAtMost};
ghost use Rattle.gd_space.specs.Lists.{Step};
ghost use Rattle.gd_space.specs.Calls.{HasFreeSide};
ghost use Rattle.gd_space.specs.Stacks.{Pushed};
ghost use Rattle.gd_space.specs.declared.stack.SpaceError.TheVariants.{VaultFault};
ghost use Rattle.gd_vault.specs.Views.{HasFile};
ghost use Rattle.gd_vault.specs.Streams.{OnlyWrites};

use crate::grow::whole_for;
use crate::half::{move_last, place_block};
use crate::stack::{SpaceError, write_block};
use gd_format::{Extent, Header};
use gd_layout::{AvailBlock, Bucket};
use gd_vault::{FileId, Vault};

/// Where a block of the stack goes, what is over of new room, and how much of that there is.
#[derive(Clone, Copy, Debug)]
pub struct Chosen {
    pub block: Extent,
    pub over: Extent,
    pub grown: u64,
}

/// Chooses the place of a block of the stack, for a growth by n bytes.
pub fn choose(table: &mut AvailBlock, bucket: &mut Bucket, header: &Header, n: u32) -> Chosen
    requires some { 0 < n }
    requires room { length table.old.extents ≤ table.old.room }
    requires few { table.old.room < 2 ^ 32 }
    requires capacity { header.now.avail_size ≤ most_of header.now }
    requires block { 512 ≤ header.now.block }
    requires large { header.now.block ≤ 1048576 }
    requires next { header.now.next_block ≤ 2 ^ 46 }
    requires over { whole_blocks n header.now.block ≢ n }
    ensures step { AllByRecursion (IsBelow header.now.next_block) table.old.extents → AllByRecursion (IsBelow header.now.next_block) bucket.old.free → Step (header.now.next_block + result.grown) table.old.extents bucket.old.free table.new.extents bucket.new.free (grown header.now.next_block (header.now.next_block + result.grown)) (extent header.now.next_block n ∷ result.block ∷ result.over ∷ []) }
    ensures block_below { AllByRecursion (IsBelow header.now.next_block) table.old.extents → AllByRecursion (IsBelow header.now.next_block) bucket.old.free → IsBelow (header.now.next_block + result.grown) result.block }
    ensures over_below { IsBelow (header.now.next_block + result.grown) result.over }
    ensures over_field { FitsExtent result.over }
    ensures size { avail_size (header.now.avail_size / 2) ≤ result.block.size }
    ensures wide { result.block.size ≤ 8 * header.now.avail_size + 32 }
    ensures bound { result.grown < n + 2 * header.now.block }
    ensures growth { result.grown ≡ (if nat_lt (max (largest table.old.extents) (largest bucket.old.free)) (avail_size (header.now.avail_size / 2)) then whole_blocks n header.now.block + header.now.block else whole_blocks n header.now.block) }
    ensures fields { AllByRecursion FitsExtent table.old.extents → AllByRecursion FitsExtent table.new.extents }
    ensures length { length table.new.extents ≤ length table.old.extents }
    ensures least { length table.old.extents ≤ length table.new.extents + 1 }
    ensures room { table.new.room ≡ table.old.room }
    ensures next { table.new.next_block ≡ table.old.next_block }
    ensures bits { bucket.new.bits ≡ bucket.old.bits }
    ensures slots { bucket.new.slots ≡ bucket.old.slots }
{
    let size = 16 + 16 * (header.avail_size / 2);
    let wide = 8 * header.avail_size + 32;
    let whole = whole_for(n, header.block);
    let rest = (whole - u64::from(n)) as u32;
    let behind = header.next_block + u64::from(n);
    if let Some(block) = place_block(table, bucket, size, wide) {
        let over = Extent {
            at: behind,
            size: rest,
        };
        return Chosen {
            block,
            over,
            grown: whole,
        };
    }
    let block = Extent {
        at: behind,
        size: wide,
    };
    let over = Extent {
        at: behind + u64::from(wide),
        size: rest + header.block - wide,
    };
    Chosen {
        block,
        over,
        grown: whole + u64::from(header.block),
    }
}

/// Takes n bytes at the file's end where both lists are full: half of the table is pushed as a block
/// of the stack.
pub fn take_pushing<V: Vault>(
    vault: &mut V,
    f: FileId,
    table: &mut AvailBlock,
    spare: &mut AvailBlock,
    bucket: &mut Bucket,
    header: &mut Header,
    n: u32,
    buf: &mut [u8],
) -> Result<u64, SpaceError>
    requires file { HasFile (V.view_of vault.old) f.0 }
    requires side { HasFreeSide (V.view_of vault.old) f.0 header.old table.old.next_block table.old.extents bucket.old.free }
    requires some { 0 < n }
    requires full { length table.old.extents ≡ header.old.avail_size }
    requires room { header.old.avail_size ≤ table.old.room }
    requires spare_room { header.old.avail_size ≤ spare.old.room }
    requires few { table.old.room < 2 ^ 32 }
    requires two { 2 ≤ header.old.avail_size }
    requires capacity { header.old.avail_size ≤ most_of header.old }
    requires block { 512 ≤ header.old.block }
    requires large { header.old.block ≤ 1048576 }
    requires next { header.old.next_block ≤ 2 ^ 46 }
    requires over { whole_blocks n header.old.block ≢ n }
    requires buffer { header.old.block ≤ length buf.old }
    requires fields { AllByRecursion FitsExtent table.old.extents }
    ensures pushed { IfOk result (λ at. Pushed (V.view_of vault.old) (V.view_of vault.new) f.0 header.old header.new header.old.avail_size table.old.next_block table.new.next_block table.old.extents bucket.old.free table.new.extents bucket.new.free [] (extent at n ∷ []) 32) }
    ensures at { IfOk result (λ at. at ≡ header.old.next_block) }
    ensures growth { OnOk result (header.new.next_block ≡ header.old.next_block + (if nat_lt (max (largest table.old.extents) (largest bucket.old.free)) (avail_size (header.old.avail_size / 2)) then whole_blocks n header.old.block + header.old.block else whole_blocks n header.old.block)) }
    ensures header { OnOk result (header.new ≡ record header.old { next_block = header.new.next_block }) }
    ensures fields { AllByRecursion FitsExtent table.new.extents }
    ensures room { table.new.room ≡ table.old.room }
    ensures spare_room { spare.new.room ≡ spare.old.room }
    ensures length { length table.new.extents ≤ header.old.avail_size }
    ensures same_header { IfErr result (λ e. header.new ≡ header.old) }
    ensures bits { bucket.new.bits ≡ bucket.old.bits }
    ensures slots { bucket.new.slots ≡ bucket.old.slots }
    ensures frame { OnlyWrites f.0 (V.view_of vault.old) (V.view_of vault.new) }
    ensures amount { WritesAtMost (half_size header.old.avail_size) (V.view_of vault.old) (V.view_of vault.new) }
    ensures error { IfErr result (λ e. e ≡ VaultFault) }
    ensures fault { OnErr result (Rose (V.view_of vault.old).faults (V.view_of vault.new).faults) }
    ensures answered { OnOk result ((V.view_of vault.new).faults ≡ (V.view_of vault.old).faults) }
    ensures once { OnErr result ((V.view_of vault.new).faults ≤ (V.view_of vault.old).faults + 1) }
{
    let chosen = choose(table, bucket, header, n);
    let half = header.avail_size / 2;
    spare.clear();
    move_last(table, spare, half);
    spare.set_next_block(table.next_block());
    let size = header.avail_size;
    write_block(vault, f, spare, chosen.block.at, size, buf)?;
    table.push(chosen.over);
    table.set_next_block(chosen.block.at);
    let at = header.next_block;
    header.next_block = at + chosen.grown;
    Ok(at)
}
