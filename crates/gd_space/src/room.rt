//! Takes room from the lists at hand or from the file's end.

ghost use Rattle.std.specs.Prelude.{◌≡◌, ◌≢◌, ◌⊎◌, ◌+◌, ◌*◌, ◌<◌, ◌≤◌, ◌^◌, ℕ, length, max, IfSome, IfNone, true, false, ◌&&◌, nat_lt, ◌==◌, not, if◌then◌else◌};
ghost use Rattle.std.specs.List.{AllByRecursion};
ghost use Rattle.gd_space.specs.Sizes.{largest};
ghost use Rattle.gd_layout.specs.Fits.{FitsExtent};
ghost use Rattle.gd_format.specs.FreeSide.{IsBelow};
ghost use Rattle.gd_space.specs.Effect.{whole_blocks};
ghost use Rattle.gd_space.specs.Lists.{Took};

use crate::grow::whole_for;
use crate::lists::{put, serve};
use gd_format::{Extent, Header};
use gd_layout::{AvailBlock, Bucket};

/// Takes n bytes from a free extent at hand, else from new room. None where what is over of new room
/// finds no place.
pub fn take_room(
    table: &mut AvailBlock,
    bucket: &mut Bucket,
    header: &mut Header,
    n: u32,
) -> Option<u64>
    requires some { 0 < n }
    requires room { length table.old.extents ≤ table.old.room }
    requires few { table.old.room < 2 ^ 32 }
    requires capacity { header.old.avail_size ≤ table.old.room }
    requires block { 0 < header.old.block }
    requires large { header.old.block ≤ 1048576 }
    requires next { header.old.next_block ≤ 2 ^ 46 }
    ensures took { IfSome result (λ at. AllByRecursion (IsBelow header.old.next_block) table.old.extents → AllByRecursion (IsBelow header.old.next_block) bucket.old.free → Took header.old.next_block header.new.next_block table.old.extents bucket.old.free table.new.extents bucket.new.free at n) }
    ensures growth { IfSome result (λ at. header.new.next_block ≡ (if nat_lt (max (largest table.old.extents) (largest bucket.old.free)) n then header.old.next_block + whole_blocks n header.old.block else header.old.next_block)) }
    ensures fit { IfSome result (λ at. max (largest table.old.extents) (largest bucket.old.free) < n → whole_blocks n header.old.block ≢ n → (length bucket.old.free < 6) ⊎ (length table.old.extents < header.old.avail_size)) }
    ensures none_over { IfNone result (whole_blocks n header.old.block ≢ n) }
    ensures header { header.new ≡ record header.old { next_block = header.new.next_block } }
    ensures none { IfNone result (6 ≤ length bucket.old.free) }
    ensures none_table { IfNone result (header.old.avail_size ≤ length table.old.extents) }
    ensures none_most { IfNone result (max (largest table.old.extents) (largest bucket.old.free) < n) }
    ensures same_table { IfNone result (table.new ≡ table.old) }
    ensures same_bucket { IfNone result (bucket.new ≡ bucket.old) }
    ensures same_header { IfNone result (header.new ≡ header.old) }
    ensures fields { AllByRecursion FitsExtent table.old.extents → AllByRecursion FitsExtent table.new.extents }
    ensures length { length table.new.extents ≤ max header.old.avail_size (length table.old.extents) }
    ensures room { table.new.room ≡ table.old.room }
    ensures next { table.new.next_block ≡ table.old.next_block }
    ensures bits { bucket.new.bits ≡ bucket.old.bits }
    ensures slots { bucket.new.slots ≡ bucket.old.slots }
{
    if let Some(at) = serve(table, bucket, n) {
        return Some(at);
    }
    let whole = whole_for(n, header.block);
    let at = header.next_block;
    let rest = (whole - u64::from(n)) as u32;
    if rest > 0 {
        let over = Extent {
            at: at + u64::from(n),
            size: rest,
        };
        if !put(table, bucket, header.avail_size, over) {
            return None;
        }
    }
    header.next_block = at + whole;
    Some(at)
}
