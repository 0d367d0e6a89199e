//! Makes a block of the stack of a full table.

ghost use Rattle.std.specs.Prelude.{◌≡◌, ◌+◌, ◌<◌, ◌≤◌, ◌^◌, ℕ, length, slice_index_or, max, [], ◌∷◌, ◌++◌, IfNone, IfSome};
ghost use Rattle.std.specs.List.{AllByRecursion};
ghost use Rattle.gd_format.specs.Sound.{extent};
ghost use Rattle.gd_format.specs.Avail.{avail_size};
ghost use Rattle.gd_space.specs.Sizes.{largest};
ghost use Rattle.gd_layout.specs.Fits.{FitsExtent};
ghost use Rattle.gd_format.specs.FreeSide.{IsBelow};
ghost use Rattle.gd_space.specs.Lists.{Step, Split};

use crate::lists::{cut_bucket, cut_table, first_fit, serve};
use gd_format::Extent;
use gd_layout::{AvailBlock, Bucket};

/// Moves the last k extents of a table into an empty block.
pub fn move_last(table: &mut AvailBlock, spare: &mut AvailBlock, k: u32)
    requires enough { k ≤ length table.old.extents }
    requires empty { spare.old.extents ≡ [] }
    requires room { k ≤ spare.old.room }
    requires few { length table.old.extents < 2 ^ 32 }
    ensures split { (next : ℕ) → AllByRecursion (IsBelow next) table.old.extents → Split next table.old.extents table.new.extents spare.new.extents }
    ensures fields { AllByRecursion FitsExtent table.old.extents → AllByRecursion FitsExtent table.new.extents }
    ensures spare_fields { AllByRecursion FitsExtent table.old.extents → AllByRecursion FitsExtent spare.new.extents }
    ensures length { length table.new.extents + k ≡ length table.old.extents }
    ensures count { length spare.new.extents ≡ k }
    ensures room { table.new.room ≡ table.old.room }
    ensures spare_room { spare.new.room ≡ spare.old.room }
    ensures next { table.new.next_block ≡ table.old.next_block }
    ensures spare_next { spare.new.next_block ≡ spare.old.next_block }
{
    for _i in 0..k {
        let last = table.extents().len() - 1;
        let e = table.remove(last as u32);
        spare.push(e);
    }
}

/// Takes out a whole free extent of at least so many bytes.
pub fn serve_whole(table: &mut AvailBlock, bucket: &mut Bucket, size: u32) -> Option<Extent>
    requires some { 0 < size }
    requires room { length table.old.extents ≤ table.old.room }
    requires few { table.old.room < 2 ^ 32 }
    ensures step { IfSome result (λ e. (next : ℕ) → next < 2 ^ 63 → AllByRecursion (IsBelow next) table.old.extents → AllByRecursion (IsBelow next) bucket.old.free → Step next table.old.extents bucket.old.free table.new.extents bucket.new.free [] (e ∷ [])) }
    ensures size { IfSome result (λ e. size ≤ e.size) }
    ensures most { IfSome result (λ e. e.size ≤ max (largest table.old.extents) (largest bucket.old.free)) }
    ensures none { IfNone result (max (largest table.old.extents) (largest bucket.old.free) < size) }
    ensures same_table { IfNone result (table.new ≡ table.old) }
    ensures same_bucket { IfNone result (bucket.new ≡ bucket.old) }
    ensures fields { AllByRecursion FitsExtent table.old.extents → AllByRecursion FitsExtent table.new.extents }
    ensures length { length table.new.extents ≤ length table.old.extents }
    ensures least { length table.old.extents ≤ length table.new.extents + 1 }
    ensures room { table.new.room ≡ table.old.room }
    ensures next { table.new.next_block ≡ table.old.next_block }
    ensures bits { bucket.new.bits ≡ bucket.old.bits }
    ensures slots { bucket.new.slots ≡ bucket.old.slots }
{
    if let Some(i) = first_fit(bucket.free(), size) {
        let n = bucket.free()[i].size;
        let at = cut_bucket(bucket, i, n);
        return Some(Extent { at, size: n });
    }
    if let Some(i) = first_fit(table.extents(), size) {
        let n = table.extents()[i].size;
        let at = cut_table(table, i, n);
        return Some(Extent { at, size: n });
    }
    None
}

/// Finds a place for a block of the stack of so many bytes in the lists at hand, of a wider range
/// where there is one.
pub fn place_block(
    table: &mut AvailBlock,
    bucket: &mut Bucket,
    size: u32,
    wide: u32,
) -> Option<Extent>
    requires some { 0 < size }
    requires wider { size ≤ wide }
    requires room { length table.old.extents ≤ table.old.room }
    requires few { table.old.room < 2 ^ 32 }
    ensures step { IfSome result (λ e. (next : ℕ) → next < 2 ^ 63 → AllByRecursion (IsBelow next) table.old.extents → AllByRecursion (IsBelow next) bucket.old.free → Step next table.old.extents bucket.old.free table.new.extents bucket.new.free [] (e ∷ [])) }
    ensures size { IfSome result (λ e. size ≤ e.size) }
    ensures wide { IfSome result (λ e. e.size ≤ wide) }
    ensures held { IfSome result (λ e. size ≤ max (largest table.old.extents) (largest bucket.old.free)) }
    ensures none { IfNone result (max (largest table.old.extents) (largest bucket.old.free) < size) }
    ensures same_table { IfNone result (table.new ≡ table.old) }
    ensures same_bucket { IfNone result (bucket.new ≡ bucket.old) }
    ensures fields { AllByRecursion FitsExtent table.old.extents → AllByRecursion FitsExtent table.new.extents }
    ensures length { length table.new.extents ≤ length table.old.extents }
    ensures least { length table.old.extents ≤ length table.new.extents + 1 }
    ensures room { table.new.room ≡ table.old.room }
    ensures next { table.new.next_block ≡ table.old.next_block }
    ensures bits { bucket.new.bits ≡ bucket.old.bits }
    ensures slots { bucket.new.slots ≡ bucket.old.slots }
{
    if let Some(at) = serve(table, bucket, wide) {
        return Some(Extent { at, size: wide });
    }
    let e = serve_whole(table, bucket, size)?;
    Some(e)
}

/// Puts the extents of a block, and the block itself, into a table.
pub fn take_back(table: &mut AvailBlock, spare: &AvailBlock, at: u64)
    requires room { length table.old.extents + length spare.now.extents + 1 ≤ table.old.room }
    requires few { length spare.now.extents ≤ 65536 }
    ensures extents { table.new.extents ≡ table.old.extents ++ spare.now.extents ++ extent at (avail_size (length spare.now.extents)) ∷ [] }
    ensures fields { AllByRecursion FitsExtent table.old.extents → AllByRecursion FitsExtent spare.now.extents → at < 2 ^ 63 → AllByRecursion FitsExtent table.new.extents }
    ensures next { table.new.next_block ≡ spare.now.next_block }
    ensures room { table.new.room ≡ table.old.room }
{
    for e in spare.extents() {
        table.push(*e);
    }
    table.push(Extent {
        at,
        size: 16 + 16 * spare.extents().len() as u32,
    });
    table.set_next_block(spare.next_block());
}
