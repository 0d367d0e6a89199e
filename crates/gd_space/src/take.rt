//! Takes room.

ghost use Rattle.std.specs.Prelude.{◌≡◌, ◌≢◌, ◌⊎◌, ◌+◌, ◌*◌, ◌<◌, ◌≤◌, ◌^◌, ℕ, false, Some, length, max, [], ◌∷◌, ◌++◌, take, IfOk, IfErr, OnOk, OnErr};
ghost use Rattle.std.specs.List.{AllByRecursion};
ghost use Rattle.gd_base.specs.Causes.{Rose};
ghost use Rattle.gd_format.specs.FreeSide.{IsBelow};
ghost use Rattle.gd_format.specs.Sound.{extent, most_of, is_stack_block};
ghost use Rattle.gd_space.specs.Sizes.{largest};
ghost use Rattle.gd_layout.specs.Fits.{FitsExtent};
ghost use Rattle.gd_space.specs.Effect.{growth, half_size, table_after, blocks_after, take_pushes, LiesInOne, WritesAtMost, TellsNone};
ghost use Rattle.gd_space.specs.Calls.{HasFreeSide, Done, Backed, OnTable, growth_of};
ghost use Rattle.gd_space.specs.Stacks.{Stacks, all_kept};
ghost use Rattle.gd_space.specs.declared.stack.SpaceError.TheVariants.{VaultFault, FileFull, BadAvail, OutOfMemory};
ghost use Rattle.gd_vault.specs.Content.{File};
ghost use Rattle.gd_vault.specs.Views.{HasFile, IsAt};
ghost use Rattle.gd_vault.specs.Streams.{OnlyWrites};

use crate::grow::growth_for;
use crate::half::take_back;
use crate::lists::largest_in;
use crate::push::take_pushing;
use crate::room::take_room;
use crate::stack::{SpaceError, read_block};
use gd_format::Header;
use gd_layout::{AvailBlock, Bucket};
use gd_vault::{FileId, Vault};

/// By how much the file grows for n bytes from the lists at hand.
pub fn growth_here(table: &AvailBlock, bucket: &Bucket, header: &Header, n: u32) -> u64
    requires { 0 < header.now.block }
    ensures is { result ≡ growth_of n header.now table.now.extents bucket.now.free }
    ensures bound { result < n + 2 * header.now.block }
{
    let mut most = largest_in(table.extents());
    let other = largest_in(bucket.free());
    if other > most {
        most = other;
    }
    growth_for(
        n,
        header.block,
        header.avail_size,
        most,
        table.extents().len(),
        bucket.free().len(),
    )
}

/// Takes n bytes from the lists at hand or from the file's end.
#[tactic(auto, using(gd_vault::proofs::Writes::writes))]
pub fn take_now<V: Vault>(
    vault: &mut V,
    f: FileId,
    table: &mut AvailBlock,
    spare: &mut AvailBlock,
    bucket: &mut Bucket,
    header: &mut Header,
    n: u32,
    buf: &mut [u8],
) -> Result<u64, SpaceError>
    requires file { HasFile (V.view_of vault.old) f.0 }
    requires side { HasFreeSide (V.view_of vault.old) f.0 header.old table.old.next_block table.old.extents bucket.old.free }
    requires some { 0 < n }
    requires fits { length table.old.extents ≤ header.old.avail_size }
    requires room { header.old.avail_size ≤ table.old.room }
    requires spare_room { header.old.avail_size ≤ spare.old.room }
    requires few { table.old.room < 2 ^ 32 }
    requires two { 2 ≤ header.old.avail_size }
    requires capacity { header.old.avail_size ≤ most_of header.old }
    requires block { 512 ≤ header.old.block }
    requires large { header.old.block ≤ 1048576 }
    requires next { header.old.next_block ≤ 2 ^ 46 }
    requires buffer { header.old.block ≤ length buf.old }
    requires fields { AllByRecursion FitsExtent table.old.extents }
    ensures done { IfOk result (λ at. Done (V.view_of vault.old) (V.view_of vault.new) f.0 header.old header.new table.old.next_block table.new.next_block table.old.extents bucket.old.free table.new.extents bucket.new.free [] (extent at n ∷ []) 32) }
    ensures stack { OnOk result (Stacks (V.view_of vault.old) (V.view_of vault.new) f.0 header.old header.old.avail_size table.old.next_block table.new.next_block table.old.extents bucket.old.free (λ blocks. take_pushes n header.old table.old.extents bucket.old.free) all_kept) }
    ensures place { IfOk result (λ at. AllByRecursion (IsBelow header.old.next_block) table.old.extents → AllByRecursion (IsBelow header.old.next_block) bucket.old.free → LiesInOne (extent at n) (table.old.extents ++ bucket.old.free) ⊎ (header.old.next_block ≤ at)) }
    ensures growth { OnOk result (header.new.next_block ≡ header.old.next_block + growth_of n header.old table.old.extents bucket.old.free) }
    ensures below { OnOk result (header.new.next_block ≤ 2 ^ 46) }
    ensures header { OnOk result (header.new ≡ record header.old { next_block = header.new.next_block }) }
    ensures fields { AllByRecursion FitsExtent table.new.extents }
    ensures room { table.new.room ≡ table.old.room }
    ensures spare_room { spare.new.room ≡ spare.old.room }
    ensures length { length table.new.extents ≤ header.old.avail_size }
    ensures bits { bucket.new.bits ≡ bucket.old.bits }
    ensures slots { bucket.new.slots ≡ bucket.old.slots }
    ensures frame { OnlyWrites f.0 (V.view_of vault.old) (V.view_of vault.new) }
    ensures amount { WritesAtMost (half_size header.old.avail_size) (V.view_of vault.old) (V.view_of vault.new) }
    ensures error { IfErr result (λ e. (e ≡ VaultFault) ⊎ (e ≡ FileFull)) }
    ensures fault { IfErr result (λ e. e ≡ VaultFault → Rose (V.view_of vault.old).faults (V.view_of vault.new).faults) }
    ensures answered { OnOk result ((V.view_of vault.new).faults ≡ (V.view_of vault.old).faults) }
    ensures once { OnErr result ((V.view_of vault.new).faults ≤ (V.view_of vault.old).faults + 1) }
    ensures counted { IfErr result (λ e. e ≢ VaultFault → (V.view_of vault.new).faults ≡ (V.view_of vault.old).faults) }
    ensures full_any { IfErr result (λ e. e ≡ FileFull → 2 ^ 46 < header.old.next_block + (n + 2 * header.old.block)) }
    ensures full { IfErr result (λ e. e ≡ FileFull → 2 ^ 46 < header.old.next_block + growth_of n header.old table.old.extents bucket.old.free) }
    ensures same_table { IfErr result (λ e. e ≡ FileFull → table.new ≡ table.old) }
    ensures same_bucket { IfErr result (λ e. e ≡ FileFull → bucket.new ≡ bucket.old) }
    ensures same_header { IfErr result (λ e. header.new ≡ header.old) }
    ensures same_vault { IfErr result (λ e. e ≡ FileFull → V.view_of vault.new ≡ V.view_of vault.old) }
{
    let grown = growth_here(table, bucket, header, n);
    if header.next_block + grown > 1 << 46 {
        return Err(SpaceError::FileFull);
    }
    if let Some(at) = take_room(table, bucket, header, n) {
        return Ok(at);
    }
    let at = take_pushing(vault, f, table, spare, bucket, header, n, buf)?;
    Ok(at)
}

/// Takes back the block at the top of the stack where the table is less than half full and has room
/// for the block's extents and the block.
#[tactic(auto, using(gd_vault::proofs::Writes::writes))]
pub fn back_up<V: Vault>(
    vault: &mut V,
    f: FileId,
    table: &mut AvailBlock,
    spare: &mut AvailBlock,
    header: &Header,
    buf: &mut [u8],
) -> Result<bool, SpaceError>
    requires file { HasFile (V.view_of vault.old) f.0 }
    requires fits { length table.old.extents ≤ header.now.avail_size }
    requires room { header.now.avail_size ≤ table.old.room }
    requires spare_room { spare.old.room ≡ most_of header.now }
    requires few { table.old.room < 2 ^ 32 }
    requires capacity { header.now.avail_size ≤ most_of header.now }
    requires block { 512 ≤ header.now.block }
    requires large { header.now.block ≤ 1048576 }
    requires buffer { header.now.block ≤ length buf.old }
    ensures back { OnOk result (Backed (V.view_of vault.old) f.0 header.now table.old.next_block table.new.next_block table.old.extents table.new.extents) }
    ensures front { OnOk result (take (length table.old.extents) table.new.extents ≡ table.old.extents) }
    ensures length { length table.new.extents ≤ header.now.avail_size }
    ensures room { table.new.room ≡ table.old.room }
    ensures spare_room { spare.new.room ≡ spare.old.room }
    ensures told { (V.view_of vault.new).told ≡ (V.view_of vault.old).told }
    ensures frame { OnlyWrites f.0 (V.view_of vault.old) (V.view_of vault.new) }
    ensures fields { AllByRecursion FitsExtent table.old.extents → AllByRecursion FitsExtent table.new.extents }
    ensures kept { OnErr result (table.new ≡ table.old) }
    ensures amount { WritesAtMost 0 (V.view_of vault.old) (V.view_of vault.new) }
    ensures error { IfErr result (λ e. (e ≡ VaultFault) ⊎ (e ≡ BadAvail table.old.next_block)) }
    ensures fault { IfErr result (λ e. e ≡ VaultFault → Rose (V.view_of vault.old).faults (V.view_of vault.new).faults) }
    ensures answered { OnOk result ((V.view_of vault.new).faults ≡ (V.view_of vault.old).faults) }
    ensures once { OnErr result ((V.view_of vault.new).faults ≤ (V.view_of vault.old).faults + 1) }
    ensures counted { IfErr result (λ e. e ≢ VaultFault → (V.view_of vault.new).faults ≡ (V.view_of vault.old).faults) }
    ensures bad { IfErr result (λ e. e ≢ VaultFault → table.old.next_block ≢ 0) }
    ensures no_block { IfErr result (λ e. e ≢ VaultFault → IsAt (V.view_of vault.old) (λ c. (x : File) → c.files f.0 ≡ Some x → is_stack_block x.bytes (most_of header.now) table.old.next_block ≡ false)) }
{
    let top = table.next_block();
    let old = table.extents().len();
    if top == 0 || 2 * old >= header.avail_size as usize {
        return Ok(false);
    }
    if top >= 1 << 63 {
        return Err(SpaceError::BadAvail(top));
    }
    let most = (header.block - 56) / 16;
    read_block(vault, f, top, most, spare, buf)?;
    if old + spare.extents().len() + 1 > header.avail_size as usize {
        return Ok(false);
    }
    take_back(table, spare, top);
    Ok(true)
}

/// Takes n bytes, and answers their address.
#[tactic(auto, using(gd_vault::proofs::Writes::writes))]
pub fn take<V: Vault>(
    vault: &mut V,
    f: FileId,
    table: &mut AvailBlock,
    spare: &mut AvailBlock,
    bucket: &mut Bucket,
    header: &mut Header,
    n: u32,
    buf: &mut [u8],
) -> Result<u64, SpaceError>
    requires file { HasFile (V.view_of vault.old) f.0 }
    requires side { HasFreeSide (V.view_of vault.old) f.0 header.old table.old.next_block table.old.extents bucket.old.free }
    requires some { 0 < n }
    requires fits { length table.old.extents ≤ header.old.avail_size }
    requires room { header.old.avail_size ≤ table.old.room }
    requires spare_room { spare.old.room ≡ most_of header.old }
    requires few { table.old.room < 2 ^ 32 }
    requires two { 2 ≤ header.old.avail_size }
    requires capacity { header.old.avail_size ≤ most_of header.old }
    requires block { 512 ≤ header.old.block }
    requires large { header.old.block ≤ 1048576 }
    requires next { header.old.next_block ≤ 2 ^ 46 }
    requires buffer { header.old.block ≤ length buf.old }
    requires fields { AllByRecursion FitsExtent table.old.extents }
    ensures done { IfOk result (λ at. Done (V.view_of vault.old) (V.view_of vault.new) f.0 header.old header.new table.old.next_block table.new.next_block table.old.extents bucket.old.free table.new.extents bucket.new.free [] (extent at n ∷ []) 32) }
    ensures header { OnOk result (header.new ≡ record header.old { next_block = header.new.next_block }) }
    ensures below { OnOk result (header.new.next_block ≤ 2 ^ 46) }
    ensures fields { AllByRecursion FitsExtent table.new.extents }
    ensures room { table.new.room ≡ table.old.room }
    ensures spare_room { spare.new.room ≡ spare.old.room }
    ensures length { length table.new.extents ≤ header.old.avail_size }
    ensures bits { bucket.new.bits ≡ bucket.old.bits }
    ensures slots { bucket.new.slots ≡ bucket.old.slots }
    ensures frame { OnlyWrites f.0 (V.view_of vault.old) (V.view_of vault.new) }
    ensures stack { OnOk result (Stacks (V.view_of vault.old) (V.view_of vault.new) f.0 header.old header.old.avail_size table.old.next_block table.new.next_block table.old.extents bucket.old.free (λ blocks. take_pushes n header.old (table_after header.old.avail_size table.old.extents blocks) bucket.old.free) (blocks_after header.old.avail_size table.old.extents)) }
    ensures place { IfOk result (λ at. OnTable (V.view_of vault.old) f.0 header.old table.old.next_block table.old.extents bucket.old.free (λ table. LiesInOne (extent at n) (table ++ bucket.old.free) ⊎ (header.old.next_block ≤ at))) }
    ensures growth { OnOk result (OnTable (V.view_of vault.old) f.0 header.old table.old.next_block table.old.extents bucket.old.free (λ table. header.new.next_block ≡ header.old.next_block + growth_of n header.old table bucket.old.free)) }
    ensures bound { OnOk result (header.new.next_block < header.old.next_block + (n + 2 * header.old.block)) }
    ensures amount { WritesAtMost (half_size header.old.avail_size) (V.view_of vault.old) (V.view_of vault.new) }
    ensures fault { IfErr result (λ e. e ≡ VaultFault → Rose (V.view_of vault.old).faults (V.view_of vault.new).faults) }
    ensures answered { OnOk result ((V.view_of vault.new).faults ≡ (V.view_of vault.old).faults) }
    ensures once { OnErr result ((V.view_of vault.new).faults ≤ (V.view_of vault.old).faults + 1) }
    ensures counted { IfErr result (λ e. e ≢ VaultFault → (V.view_of vault.new).faults ≡ (V.view_of vault.old).faults) }
    ensures bad { IfErr result (λ e. (a : ℕ) → e ≡ BadAvail a → (a ≡ table.old.next_block) × TellsNone (V.view_of vault.old)) }
    ensures memory { IfErr result (λ e. e ≢ OutOfMemory) }
    ensures full_any { IfErr result (λ e. e ≡ FileFull → 2 ^ 46 < header.old.next_block + (n + 2 * header.old.block)) }
    ensures full { IfErr result (λ e. e ≡ FileFull → OnTable (V.view_of vault.old) f.0 header.old table.old.next_block table.old.extents bucket.old.free (λ table. 2 ^ 46 < header.old.next_block + growth_of n header.old table bucket.old.free)) }
    ensures same_table { IfErr result (λ e. e ≡ FileFull → table.new ≡ table.old) }
    ensures same_bucket { IfErr result (λ e. e ≡ FileFull → bucket.new ≡ bucket.old) }
    ensures same_header { IfErr result (λ e. header.new ≡ header.old) }
    ensures same_told { IfErr result (λ e. e ≡ FileFull → (V.view_of vault.new).told ≡ (V.view_of vault.old).told) }
{
    let old = table.extents().len();
    let top = table.next_block();
    if let Err(refused) = back_up(vault, f, table, spare, header, buf) {
        return Err(refused);
    }
    match take_now(vault, f, table, spare, bucket, header, n, buf) {
        Ok(at) => Ok(at),
        Err(SpaceError::FileFull) => {
            table.truncate(old);
            table.set_next_block(top);
            Err(SpaceError::FileFull)
        }
        Err(e) => Err(e),
    }
}
