//! Steps on lists of extents.

ghost use Rattle.std.specs.Prelude.{◌≡◌, ◌+◌, ◌<◌, ◌≤◌, ◌^◌, ℕ, length, slice_index_or, IfNone, IfSome, ◌-◌, max, true, false, nat_lt, ◌||◌, [], ◌∷◌};
ghost use Rattle.std.specs.List.{AllByRecursion};
ghost use Rattle.gd_format.specs.Sound.{extent};
ghost use Rattle.gd_space.specs.Sizes.{largest};
ghost use Rattle.gd_layout.specs.Fits.{FitsExtent};
ghost use Rattle.gd_format.specs.FreeSide.{IsBelow};
ghost use Rattle.gd_space.specs.Lists.{Cut, Served, Step};

use gd_format::Extent;
use gd_layout::{AvailBlock, Bucket};

/// The size of the largest one, 0 where there is none.
pub fn largest_in(list: &[Extent]) -> u32
    ensures { result ≡ largest list.now }
{
    let mut most = 0;
    for e in list {
        if e.size > most {
            most = e.size;
        }
    }
    most
}

/// The place of the first that has n bytes.
pub fn first_fit(list: &[Extent], n: u32) -> Option<usize>
    requires { 0 < n }
    ensures none { IfNone result (largest list.now < n) }
    ensures held { IfSome result (λ i. n ≤ largest list.now) }
    ensures some { IfSome result (λ i. (i < length list.now) × (n ≤ (slice_index_or list.now i (extent 0 0)).size)) }
{
    for (i, e) in list.iter().enumerate() {
        if n <= e.size {
            return Some(i);
        }
    }
    None
}

/// What is left of an extent behind its first n bytes.
pub fn rest_of(e: Extent, n: u32) -> Extent
    requires { n ≤ e.size }
    ensures size { result.size ≡ e.size - n }
    ensures at { e.at + n < 2 ^ 63 → result.at ≡ e.at + n }
    ensures field { result.at < 2 ^ 63 }
    ensures fields { n < e.size → e.size < 2 ^ 31 → FitsExtent result }
{
    Extent {
        at: e
            .at
            .saturating_add(u64::from(n))
            .min(9_223_372_036_854_775_807),
        size: e.size - n,
    }
}

/// Cuts n bytes from the extent of a table at a place, and answers their address.
pub fn cut_table(table: &mut AvailBlock, i: usize, n: u32) -> u64
    requires some { 0 < n }
    requires there { i < length table.old.extents }
    requires fits { n ≤ (slice_index_or table.old.extents i (extent 0 0)).size }
    requires room { length table.old.extents ≤ table.old.room }
    requires few { table.old.room < 2 ^ 32 }
    ensures cut { (next : ℕ) → next < 2 ^ 63 → AllByRecursion (IsBelow next) table.old.extents → Cut next table.old.extents table.new.extents result n }
    ensures fields { AllByRecursion FitsExtent table.old.extents → AllByRecursion FitsExtent table.new.extents }
    ensures length { length table.new.extents ≤ length table.old.extents }
    ensures least { length table.old.extents ≤ length table.new.extents + 1 }
    ensures room { table.new.room ≡ table.old.room }
    ensures next { table.new.next_block ≡ table.old.next_block }
{
    let e = table.remove(i as u32);
    if e.size > n {
        table.push(rest_of(e, n));
    }
    e.at
}

/// Cuts n bytes from the free extent of a bucket at a place, and answers their address.
pub fn cut_bucket(bucket: &mut Bucket, i: usize, n: u32) -> u64
    requires some { 0 < n }
    requires there { i < length bucket.old.free }
    requires fits { n ≤ (slice_index_or bucket.old.free i (extent 0 0)).size }
    requires room { length bucket.old.free ≤ 6 }
    ensures cut { (next : ℕ) → next < 2 ^ 63 → AllByRecursion (IsBelow next) bucket.old.free → Cut next bucket.old.free bucket.new.free result n }
    ensures length { length bucket.new.free ≤ length bucket.old.free }
    ensures bits { bucket.new.bits ≡ bucket.old.bits }
    ensures slots { bucket.new.slots ≡ bucket.old.slots }
{
    let e = bucket.remove_free(i as u32);
    if e.size > n {
        bucket.push_free(rest_of(e, n));
    }
    e.at
}

/// Takes n bytes from a free extent of the bucket, else of the table, and answers their address.
pub fn serve(table: &mut AvailBlock, bucket: &mut Bucket, n: u32) -> Option<u64>
    requires some { 0 < n }
    requires room { length table.old.extents ≤ table.old.room }
    requires few { table.old.room < 2 ^ 32 }
    ensures cut { IfSome result (λ at. (next : ℕ) → next < 2 ^ 63 → AllByRecursion (IsBelow next) table.old.extents → AllByRecursion (IsBelow next) bucket.old.free → Served next table.old.extents bucket.old.free table.new.extents bucket.new.free at n) }
    ensures held { IfSome result (λ at. n ≤ max (largest table.old.extents) (largest bucket.old.free)) }
    ensures none { IfNone result (max (largest table.old.extents) (largest bucket.old.free) < n) }
    ensures same_table { IfNone result (table.new ≡ table.old) }
    ensures same_bucket { IfNone result (bucket.new ≡ bucket.old) }
    ensures fields { AllByRecursion FitsExtent table.old.extents → AllByRecursion FitsExtent table.new.extents }
    ensures length { length table.new.extents ≤ length table.old.extents }
    ensures least { length table.old.extents ≤ length table.new.extents + 1 }
    ensures room { table.new.room ≡ table.old.room }
    ensures next { table.new.next_block ≡ table.old.next_block }
    ensures bits { bucket.new.bits ≡ bucket.old.bits }
    ensures slots { bucket.new.slots ≡ bucket.old.slots }
{
    if let Some(i) = first_fit(bucket.free(), n) {
        return Some(cut_bucket(bucket, i, n));
    }
    if let Some(i) = first_fit(table.extents(), n) {
        return Some(cut_table(table, i, n));
    }
    None
}

/// Puts an extent into the bucket where that has fewer than six, else into the table where that has
/// fewer than its capacity.
pub fn put(table: &mut AvailBlock, bucket: &mut Bucket, capacity: u32, e: Extent) -> bool
    requires room { capacity ≤ table.old.room }
    ensures step { result ≡ true → (next : ℕ) → IsBelow next e → AllByRecursion (IsBelow next) table.old.extents → AllByRecursion (IsBelow next) bucket.old.free → Step next table.old.extents bucket.old.free table.new.extents bucket.new.free (e ∷ []) [] }
    ensures had_room { result ≡ (nat_lt (length bucket.old.free) 6 || nat_lt (length table.old.extents) capacity) }
    ensures same_table { result ≡ false → table.new ≡ table.old }
    ensures same_bucket { result ≡ false → bucket.new ≡ bucket.old }
    ensures fields { FitsExtent e → AllByRecursion FitsExtent table.old.extents → AllByRecursion FitsExtent table.new.extents }
    ensures length { length table.new.extents ≤ max capacity (length table.old.extents) }
    ensures room { table.new.room ≡ table.old.room }
    ensures next { table.new.next_block ≡ table.old.next_block }
    ensures bits { bucket.new.bits ≡ bucket.old.bits }
    ensures slots { bucket.new.slots ≡ bucket.old.slots }
{
    if bucket.free().len() < 6 {
        bucket.push_free(e);
        return true;
    }
    if table.extents().len() < capacity as usize {
        table.push(e);
        return true;
    }
    false
}
