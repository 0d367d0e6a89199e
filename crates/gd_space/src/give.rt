//! Gives room back, and changes the capacity of the table.

ghost use Rattle.std.specs.Prelude.{◌≡◌, ◌≢◌, ◌⊎◌, ◌+◌, ◌-◌, ◌*◌, ◌/◌, ◌<◌, ◌≤◌, ◌^◌, ℕ, length, max, nat_le, if◌then◌else◌, [], ◌∷◌, ◌++◌, IfOk, IfErr, OnOk, OnErr};
ghost use Rattle.std.specs.List.{AllByRecursion};
ghost use Rattle.gd_base.specs.Causes.{Rose};
ghost use Rattle.gd_format.specs.Avail.{avail_size};
ghost use Rattle.gd_format.specs.Sound.{most_of};
ghost use Rattle.gd_layout.specs.Fits.{FitsExtent};
ghost use Rattle.gd_space.specs.Effect.{WritesAtMost, push_growth, room_growth, give_growth, recut_growth, push_size, give_pushes, recut_pushes, give_writes, recut_writes, recut_loses};
ghost use Rattle.gd_space.specs.Calls.{HasFreeSide, Done, Gave};
ghost use Rattle.gd_space.specs.Stacks.{Pushed, Stacks, all_kept};
ghost use Rattle.gd_space.specs.declared.stack.SpaceError.TheVariants.{VaultFault, FileFull};
ghost use Rattle.gd_vault.specs.Views.{HasFile};
ghost use Rattle.gd_vault.specs.Streams.{OnlyWrites};

use crate::filling::fill_block;
use crate::stack::{SpaceError, write_block};
use gd_format::{Extent, Header};
use gd_layout::{AvailBlock, Bucket};
use gd_vault::{FileId, Vault};

/// Pushes the last `count` extents of a table as a block of the stack, which gets `wide` bytes where one range has them,
/// and `size` in its size field.
#[tactic(auto, using(gd_vault::proofs::Writes::writes))]
pub fn push_last<V: Vault>(
    vault: &mut V,
    f: FileId,
    table: &mut AvailBlock,
    spare: &mut AvailBlock,
    bucket: &mut Bucket,
    header: &mut Header,
    count: u32,
    wide: u32,
    size: u32,
    buf: &mut [u8],
) -> Result<(), SpaceError>
    requires file { HasFile (V.view_of vault.old) f.0 }
    requires side { HasFreeSide (V.view_of vault.old) f.0 header.old table.old.next_block table.old.extents bucket.old.free }
    requires enough { count < length table.old.extents }
    requires room { length table.old.extents ≤ table.old.room }
    requires few { table.old.room < 2 ^ 32 }
    requires spare_room { count < spare.old.room }
    requires most { count < most_of header.old }
    requires wider { avail_size (count + 1) ≤ wide }
    requires block { wide < header.old.block }
    requires large { header.old.block ≤ 1048576 }
    requires size { size < 2 ^ 31 }
    requires next { header.old.next_block ≤ 2 ^ 46 }
    requires buffer { header.old.block ≤ length buf.old }
    requires fields { AllByRecursion FitsExtent table.old.extents }
    ensures pushed { OnOk result (Pushed (V.view_of vault.old) (V.view_of vault.new) f.0 header.old header.new size table.old.next_block table.new.next_block table.old.extents bucket.old.free table.new.extents bucket.new.free [] [] (wide - avail_size count)) }
    ensures header { OnOk result (header.new ≡ record header.old { next_block = header.new.next_block }) }
    ensures growth { OnOk result (header.new.next_block ≡ header.old.next_block + push_growth count header.old table.old.extents bucket.old.free) }
    ensures below { OnOk result (header.new.next_block ≤ 2 ^ 46) }
    ensures length { OnOk result (length table.new.extents + count ≤ length table.old.extents) }
    ensures shorter { length table.new.extents ≤ length table.old.extents }
    ensures full { IfErr result (λ e. e ≡ FileFull → 2 ^ 46 < header.old.next_block + push_growth count header.old table.old.extents bucket.old.free) }
    ensures same_table { IfErr result (λ e. e ≡ FileFull → table.new ≡ table.old) }
    ensures same_bucket { IfErr result (λ e. e ≡ FileFull → bucket.new ≡ bucket.old) }
    ensures same_header { IfErr result (λ e. header.new ≡ header.old) }
    ensures same_vault { IfErr result (λ e. e ≡ FileFull → V.view_of vault.new ≡ V.view_of vault.old) }
    ensures error { IfErr result (λ e. (e ≡ VaultFault) ⊎ (e ≡ FileFull)) }
    ensures fault { IfErr result (λ e. e ≡ VaultFault → Rose (V.view_of vault.old).faults (V.view_of vault.new).faults) }
    ensures answered { OnOk result ((V.view_of vault.new).faults ≡ (V.view_of vault.old).faults) }
    ensures once { OnErr result ((V.view_of vault.new).faults ≤ (V.view_of vault.old).faults + 1) }
    ensures counted { IfErr result (λ e. e ≢ VaultFault → (V.view_of vault.new).faults ≡ (V.view_of vault.old).faults) }
    ensures fields { AllByRecursion FitsExtent table.new.extents }
    ensures room { table.new.room ≡ table.old.room }
    ensures spare_room { spare.new.room ≡ spare.old.room }
    ensures bits { bucket.new.bits ≡ bucket.old.bits }
    ensures slots { bucket.new.slots ≡ bucket.old.slots }
    ensures frame { OnlyWrites f.0 (V.view_of vault.old) (V.view_of vault.new) }
    ensures amount { WritesAtMost (push_size count) (V.view_of vault.old) (V.view_of vault.new) }
{
    spare.clear();
    let Some(filled) = fill_block(table, spare, bucket, header, count, wide) else {
        return Err(SpaceError::FileFull);
    };
    spare.set_next_block(table.next_block());
    write_block(vault, f, spare, filled.block.at, size, buf)?;
    table.set_next_block(filled.block.at);
    header.next_block += filled.grown;
    Ok(())
}

/// Pushes half of a table that is full.
#[tactic(auto, using(gd_vault::proofs::Writes::writes))]
pub fn make_room<V: Vault>(
    vault: &mut V,
    f: FileId,
    table: &mut AvailBlock,
    spare: &mut AvailBlock,
    bucket: &mut Bucket,
    header: &mut Header,
    buf: &mut [u8],
) -> Result<(), SpaceError>
    requires file { HasFile (V.view_of vault.old) f.0 }
    requires side { HasFreeSide (V.view_of vault.old) f.0 header.old table.old.next_block table.old.extents bucket.old.free }
    requires fits { length table.old.extents ≤ header.old.avail_size }
    requires room { header.old.avail_size ≤ table.old.room }
    requires few { table.old.room < 2 ^ 32 }
    requires spare_room { header.old.avail_size ≤ spare.old.room }
    requires two { 2 ≤ header.old.avail_size }
    requires capacity { header.old.avail_size ≤ most_of header.old }
    requires block { 512 ≤ header.old.block }
    requires large { header.old.block ≤ 1048576 }
    requires next { header.old.next_block ≤ 2 ^ 46 }
    requires buffer { header.old.block ≤ length buf.old }
    requires fields { AllByRecursion FitsExtent table.old.extents }
    ensures done { OnOk result (Done (V.view_of vault.old) (V.view_of vault.new) f.0 header.old header.new table.old.next_block table.new.next_block table.old.extents bucket.old.free table.new.extents bucket.new.free [] [] 32) }
    ensures stack { OnOk result (Stacks (V.view_of vault.old) (V.view_of vault.new) f.0 header.old header.old.avail_size table.old.next_block table.new.next_block table.old.extents bucket.old.free (λ blocks. nat_le header.old.avail_size (length table.old.extents)) all_kept) }
    ensures header { OnOk result (header.new ≡ record header.old { next_block = header.new.next_block }) }
    ensures had_room { length table.old.extents < header.old.avail_size → (table.new ≡ table.old) × (bucket.new ≡ bucket.old) }
    ensures half { OnOk result (header.old.avail_size ≤ length table.old.extents → length table.new.extents + header.old.avail_size / 2 ≤ length table.old.extents) }
    ensures growth { OnOk result (header.new.next_block ≡ header.old.next_block + room_growth header.old table.old.extents bucket.old.free) }
    ensures below { OnOk result (header.new.next_block ≤ 2 ^ 46) }
    ensures length { OnOk result (length table.new.extents < header.old.avail_size) }
    ensures shorter { length table.new.extents ≤ length table.old.extents }
    ensures full { IfErr result (λ e. e ≡ FileFull → 2 ^ 46 < header.old.next_block + room_growth header.old table.old.extents bucket.old.free) }
    ensures same_table { IfErr result (λ e. e ≡ FileFull → table.new ≡ table.old) }
    ensures same_bucket { IfErr result (λ e. e ≡ FileFull → bucket.new ≡ bucket.old) }
    ensures same_header { IfErr result (λ e. header.new ≡ header.old) }
    ensures same_vault { IfErr result (λ e. e ≡ FileFull → V.view_of vault.new ≡ V.view_of vault.old) }
    ensures error { IfErr result (λ e. (e ≡ VaultFault) ⊎ (e ≡ FileFull)) }
    ensures fault { IfErr result (λ e. e ≡ VaultFault → Rose (V.view_of vault.old).faults (V.view_of vault.new).faults) }
    ensures answered { OnOk result ((V.view_of vault.new).faults ≡ (V.view_of vault.old).faults) }
    ensures once { OnErr result ((V.view_of vault.new).faults ≤ (V.view_of vault.old).faults + 1) }
    ensures counted { IfErr result (λ e. e ≢ VaultFault → (V.view_of vault.new).faults ≡ (V.view_of vault.old).faults) }
    ensures fields { AllByRecursion FitsExtent table.new.extents }
    ensures room { table.new.room ≡ table.old.room }
    ensures spare_room { spare.new.room ≡ spare.old.room }
    ensures bits { bucket.new.bits ≡ bucket.old.bits }
    ensures slots { bucket.new.slots ≡ bucket.old.slots }
    ensures frame { OnlyWrites f.0 (V.view_of vault.old) (V.view_of vault.new) }
    ensures amount { WritesAtMost (if nat_le header.old.avail_size (length table.old.extents) then push_size (header.old.avail_size / 2) else 0) (V.view_of vault.old) (V.view_of vault.new) }
{
    let capacity = header.avail_size;
    if table.extents().len() < capacity as usize {
        return Ok(());
    }
    let wide = 8 * capacity + 32;
    let half = capacity / 2;
    push_last(
        vault, f, table, spare, bucket, header, half, wide, capacity, buf,
    )?;
    Ok(())
}

/// Forgets an extent of at most 4 bytes, and puts a larger one into the bucket where that has fewer than six, else into
/// the table, of which half is pushed first where it is full.
#[tactic(auto, using(gd_vault::proofs::Writes::writes))]
pub fn give<V: Vault>(
    vault: &mut V,
    f: FileId,
    table: &mut AvailBlock,
    spare: &mut AvailBlock,
    bucket: &mut Bucket,
    header: &mut Header,
    extent: Extent,
    buf: &mut [u8],
) -> Result<(), SpaceError>
    requires file { HasFile (V.view_of vault.old) f.0 }
    requires side { HasFreeSide (V.view_of vault.old) f.0 header.old table.old.next_block table.old.extents bucket.old.free }
    requires size { extent.size < 2 ^ 31 }
    requires at { extent.at < 2 ^ 63 }
    requires fits { length table.old.extents ≤ header.old.avail_size }
    requires room { header.old.avail_size ≤ table.old.room }
    requires few { table.old.room < 2 ^ 32 }
    requires spare_room { header.old.avail_size ≤ spare.old.room }
    requires two { 2 ≤ header.old.avail_size }
    requires capacity { header.old.avail_size ≤ most_of header.old }
    requires block { 512 ≤ header.old.block }
    requires large { header.old.block ≤ 1048576 }
    requires next { header.old.next_block ≤ 2 ^ 46 }
    requires buffer { header.old.block ≤ length buf.old }
    requires fields { AllByRecursion FitsExtent table.old.extents }
    ensures gave { OnOk result (Gave (V.view_of vault.old) (V.view_of vault.new) f.0 header.old header.new table.old.next_block table.new.next_block table.old.extents bucket.old.free table.new.extents bucket.new.free extent) }
    ensures stack { OnOk result (Stacks (V.view_of vault.old) (V.view_of vault.new) f.0 header.old header.old.avail_size table.old.next_block table.new.next_block table.old.extents bucket.old.free (λ blocks. give_pushes extent header.old table.old.extents bucket.old.free) all_kept) }
    ensures header { OnOk result (header.new ≡ record header.old { next_block = header.new.next_block }) }
    ensures small { extent.size ≤ 4 → (table.new ≡ table.old) × (bucket.new ≡ bucket.old) × (header.new ≡ header.old) }
    ensures in_bucket { 4 < extent.size → length bucket.old.free < 6 → (table.new ≡ table.old) × (bucket.new ≡ record bucket.old { free = bucket.old.free ++ extent ∷ [] }) }
    ensures in_table { OnOk result (4 < extent.size → 6 ≤ length bucket.old.free → length table.old.extents < header.old.avail_size → (table.new ≡ record table.old { extents = table.old.extents ++ extent ∷ [] }) × (bucket.new ≡ bucket.old)) }
    ensures half { OnOk result (4 < extent.size → 6 ≤ length bucket.old.free → header.old.avail_size ≤ length table.old.extents → length table.new.extents + header.old.avail_size / 2 ≤ header.old.avail_size + 1) }
    ensures growth { OnOk result (header.new.next_block ≡ header.old.next_block + give_growth extent header.old table.old.extents bucket.old.free) }
    ensures below { OnOk result (header.new.next_block ≤ 2 ^ 46) }
    ensures length { length table.new.extents ≤ header.old.avail_size }
    ensures full { IfErr result (λ e. e ≡ FileFull → 2 ^ 46 < header.old.next_block + give_growth extent header.old table.old.extents bucket.old.free) }
    ensures same_table { IfErr result (λ e. e ≡ FileFull → table.new ≡ table.old) }
    ensures same_bucket { IfErr result (λ e. e ≡ FileFull → bucket.new ≡ bucket.old) }
    ensures same_header { IfErr result (λ e. header.new ≡ header.old) }
    ensures same_vault { IfErr result (λ e. e ≡ FileFull → V.view_of vault.new ≡ V.view_of vault.old) }
    ensures error { IfErr result (λ e. (e ≡ VaultFault) ⊎ (e ≡ FileFull)) }
    ensures fault { IfErr result (λ e. e ≡ VaultFault → Rose (V.view_of vault.old).faults (V.view_of vault.new).faults) }
    ensures answered { OnOk result ((V.view_of vault.new).faults ≡ (V.view_of vault.old).faults) }
    ensures once { OnErr result ((V.view_of vault.new).faults ≤ (V.view_of vault.old).faults + 1) }
    ensures counted { IfErr result (λ e. e ≢ VaultFault → (V.view_of vault.new).faults ≡ (V.view_of vault.old).faults) }
    ensures fields { AllByRecursion FitsExtent table.new.extents }
    ensures room { table.new.room ≡ table.old.room }
    ensures spare_room { spare.new.room ≡ spare.old.room }
    ensures bits { bucket.new.bits ≡ bucket.old.bits }
    ensures slots { bucket.new.slots ≡ bucket.old.slots }
    ensures frame { OnlyWrites f.0 (V.view_of vault.old) (V.view_of vault.new) }
    ensures amount { WritesAtMost (give_writes extent header.old table.old.extents bucket.old.free) (V.view_of vault.old) (V.view_of vault.new) }
{
    if extent.size <= 4 {
        return Ok(());
    }
    if bucket.free().len() < 6 {
        bucket.push_free(extent);
        return Ok(());
    }
    make_room(vault, f, table, spare, bucket, header, buf)?;
    table.push(extent);
    Ok(())
}

// How many bytes a block of so many extents and one more is given, with room for what is freed with it by a table of
// either capacity.
fn wide_for(one: u32, other: u32, count: u32) -> u32
    requires one { one ≤ 65536 }
    requires other { other ≤ 65536 }
    requires count { count < 65536 }
    ensures { result ≡ max (8 * max one other + 32) (push_size count) }
{
    let widest = 8 * one.max(other) + 32;
    widest.max(32 + 16 * count)
}

/// Changes the capacity of the table, and pushes what does not fit.
#[tactic(auto, using(gd_vault::proofs::Writes::writes))]
pub fn recut<V: Vault>(
    vault: &mut V,
    f: FileId,
    table: &mut AvailBlock,
    spare: &mut AvailBlock,
    bucket: &mut Bucket,
    header: &mut Header,
    capacity: u32,
    buf: &mut [u8],
) -> Result<(), SpaceError>
    requires file { HasFile (V.view_of vault.old) f.0 }
    requires side { HasFreeSide (V.view_of vault.old) f.0 header.old table.old.next_block table.old.extents bucket.old.free }
    requires two { 2 ≤ capacity }
    requires most { capacity ≤ most_of header.old }
    requires fits { length table.old.extents ≤ header.old.avail_size }
    requires room { header.old.avail_size ≤ table.old.room }
    requires few { table.old.room < 2 ^ 32 }
    requires spare_room { header.old.avail_size ≤ spare.old.room }
    requires capacity { header.old.avail_size ≤ most_of header.old }
    requires block { 512 ≤ header.old.block }
    requires large { header.old.block ≤ 1048576 }
    requires next { header.old.next_block ≤ 2 ^ 46 }
    requires buffer { header.old.block ≤ length buf.old }
    requires fields { AllByRecursion FitsExtent table.old.extents }
    ensures done { OnOk result (Done (V.view_of vault.old) (V.view_of vault.new) f.0 header.old header.new table.old.next_block table.new.next_block table.old.extents bucket.old.free table.new.extents bucket.new.free [] [] (recut_loses capacity header.old table.old.extents)) }
    ensures stack { OnOk result (Stacks (V.view_of vault.old) (V.view_of vault.new) f.0 header.old capacity table.old.next_block table.new.next_block table.old.extents bucket.old.free (λ blocks. recut_pushes capacity table.old.extents) all_kept) }
    ensures header { OnOk result (header.new ≡ record header.old { next_block = header.new.next_block; avail_size = capacity }) }
    ensures fitted { length table.old.extents ≤ capacity → (table.new ≡ table.old) × (bucket.new ≡ bucket.old) }
    ensures growth { OnOk result (header.new.next_block ≡ header.old.next_block + recut_growth capacity header.old table.old.extents bucket.old.free) }
    ensures below { OnOk result (header.new.next_block ≤ 2 ^ 46) }
    ensures length { OnOk result (length table.new.extents ≤ capacity) }
    ensures shorter { length table.new.extents ≤ length table.old.extents }
    ensures full { IfErr result (λ e. e ≡ FileFull → 2 ^ 46 < header.old.next_block + recut_growth capacity header.old table.old.extents bucket.old.free) }
    ensures same_table { IfErr result (λ e. e ≡ FileFull → table.new ≡ table.old) }
    ensures same_bucket { IfErr result (λ e. e ≡ FileFull → bucket.new ≡ bucket.old) }
    ensures same_header { IfErr result (λ e. header.new ≡ header.old) }
    ensures same_vault { IfErr result (λ e. e ≡ FileFull → V.view_of vault.new ≡ V.view_of vault.old) }
    ensures error { IfErr result (λ e. (e ≡ VaultFault) ⊎ (e ≡ FileFull)) }
    ensures fault { IfErr result (λ e. e ≡ VaultFault → Rose (V.view_of vault.old).faults (V.view_of vault.new).faults) }
    ensures answered { OnOk result ((V.view_of vault.new).faults ≡ (V.view_of vault.old).faults) }
    ensures once { OnErr result ((V.view_of vault.new).faults ≤ (V.view_of vault.old).faults + 1) }
    ensures counted { IfErr result (λ e. e ≢ VaultFault → (V.view_of vault.new).faults ≡ (V.view_of vault.old).faults) }
    ensures fields { AllByRecursion FitsExtent table.new.extents }
    ensures room { table.new.room ≡ table.old.room }
    ensures spare_room { spare.new.room ≡ spare.old.room }
    ensures bits { bucket.new.bits ≡ bucket.old.bits }
    ensures slots { bucket.new.slots ≡ bucket.old.slots }
    ensures frame { OnlyWrites f.0 (V.view_of vault.old) (V.view_of vault.new) }
    ensures amount { WritesAtMost (recut_writes capacity table.old.extents) (V.view_of vault.old) (V.view_of vault.new) }
{
    let len = table.extents().len() as u32;
    if len <= capacity {
        header.avail_size = capacity;
        return Ok(());
    }
    let count = len - capacity;
    let wide = wide_for(header.avail_size, capacity, count);
    push_last(
        vault, f, table, spare, bucket, header, count, wide, capacity, buf,
    )?;
    header.avail_size = capacity;
    Ok(())
}
