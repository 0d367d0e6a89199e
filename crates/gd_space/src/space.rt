//! The free space of one file.

ghost use Rattle.std.specs.Prelude.{◌≡◌, ◌≢◌, ◌⊎◌, ◌+◌, ◌*◌, ◌/◌, ◌<◌, ◌≤◌, ◌^◌, ℕ, true, false, Some, length, [], ◌∷◌, ◌++◌, IfOk, IfErr, IfSome, OnOk, OnErr};
ghost use Rattle.std.specs.List.{AllByRecursion};
ghost use Rattle.gd_base.specs.Causes.{Rose};
ghost use Rattle.gd_layout.specs.Fits.{FitsExtent};
ghost use Rattle.gd_format.specs.HeaderFault.{table_room};
ghost use Rattle.gd_format.specs.Headers.{IsHeader};
ghost use Rattle.gd_format.specs.Avail.{avail_at, is_avail};
ghost use Rattle.gd_format.specs.Sound.{extent, most_of, place_of, table_of};
ghost use Rattle.gd_space.specs.Effect.{LiesInOne, WritesAtMost, TellsNone, half_size, table_after, blocks_after, take_pushes, give_growth, give_pushes, give_writes, recut_growth, recut_pushes, recut_writes, recut_loses};
ghost use Rattle.gd_space.specs.Calls.{HasFreeSide, Done, Gave, OnTable, growth_of};
ghost use Rattle.gd_space.specs.Stacks.{Stacks, all_kept};
ghost use Rattle.gd_space.specs.declared.stack.SpaceError.TheVariants.{VaultFault, FileFull, BadAvail, OutOfMemory};
ghost use Rattle.gd_vault.specs.Content.{File};
ghost use Rattle.gd_vault.specs.Views.{HasFile, IsAt, OnlyAsks};
ghost use Rattle.gd_vault.specs.Streams.{OnlyWrites};

use crate::stack::{SpaceError, count_of, refill};
use crate::{give, take};
use gd_format::{Extent, Header};
use gd_layout::{AvailBlock, Bucket, Native};
use gd_vault::{FileId, Vault};
use std::alloc::Global;
use std::marker::Model;

// Reads the table of the header.
fn read_table<V: Vault>(
    vault: &mut V,
    f: FileId,
    header: &Header,
    table: &mut AvailBlock,
    buf: &mut [u8],
) -> Result<(), SpaceError>
    requires file { HasFile (V.view_of vault.old) f.0 }
    requires block { 512 ≤ header.now.block }
    requires large { header.now.block ≤ 1048576 }
    requires capacity { header.now.avail_size ≤ table_room header.now.magic header.now.block }
    requires room { table.old.room ≡ most_of header.now }
    requires buffer { length buf.old ≡ header.now.block }
    ensures asks { OnlyAsks (V.view_of vault.old) (V.view_of vault.new) }
    ensures fits { OnOk result (length table.new.extents ≤ header.now.avail_size) }
    ensures table { OnOk result (IsAt (V.view_of vault.old) (λ c. (x : File) → c.files f.0 ≡ Some x → table.new ≡ avail_at (table_of x.bytes header.now) (most_of header.now))) }
    ensures right { OnOk result (IsAt (V.view_of vault.old) (λ c. (x : File) → c.files f.0 ≡ Some x → is_avail (table_of x.bytes header.now) header.now.avail_size ≡ true)) }
    ensures fields { OnOk result (AllByRecursion FitsExtent table.new.extents) }
    ensures room { table.new.room ≡ table.old.room }
    ensures error { IfErr result (λ e. (e ≡ VaultFault) ⊎ (e ≡ BadAvail (place_of header.now))) }
    ensures fault { IfErr result (λ e. e ≡ VaultFault → Rose (V.view_of vault.old).faults (V.view_of vault.new).faults) }
    ensures answered { OnOk result ((V.view_of vault.new).faults ≡ (V.view_of vault.old).faults) }
    ensures once { OnErr result ((V.view_of vault.new).faults ≤ (V.view_of vault.old).faults + 1) }
    ensures counted { IfErr result (λ e. e ≢ VaultFault → (V.view_of vault.new).faults ≡ (V.view_of vault.old).faults) }
    ensures bad { IfErr result (λ e. e ≢ VaultFault → IsAt (V.view_of vault.old) (λ c. (x : File) → c.files f.0 ≡ Some x → (is_avail (table_of x.bytes header.now) header.now.avail_size ≡ false) ⊎ (length x.bytes < header.now.block))) }
{
    let place = place_in(header);
    let size = header.block as usize - place as usize;
    let part = &mut buf[..size];
    let n = vault.read_at(f, place, part)?;
    if n < size {
        return Err(SpaceError::BadAvail(place));
    }
    let Some(_count) = count_of(part, header.avail_size) else {
        return Err(SpaceError::BadAvail(place));
    };
    if !refill(part, table) {
        return Err(SpaceError::BadAvail(place));
    }
    Ok(())
}

// The place of the table in the header's block.
fn place_in(header: &Header) -> u64
    ensures is { result ≡ place_of header.now }
    ensures most { result ≤ 72 }
{
    if header.magic == 0x1357_9ad1 {
        return 72;
    }
    40
}

/// The free space of one file: the table of its header, and room for one block of the stack.
#[derive(Drop)]
pub struct Space {
    table: AvailBlock,
    spare: AvailBlock,
    buf: Vec<u8>,
    block: u32,
}

impl Model for Space {
    ghost use Rattle.std.specs.Prelude.{length};
    ghost use Rattle.gd_space.specs.Held.{HeldSpace, FitsSpace};

    ghost Value = { HeldSpace };

    ghost view = { λ s. record { table = s.table; block = s.block } };

    ghost invariant = { λ s. FitsSpace s.table s.spare.room (length s.buf.items) s.block };
}

impl Space {
    /// Reads the table of free space of a file, and takes the room for all further calls.
    ///
    /// Over a vault that tells its content the table is refused exactly where it isn't right.
    #[tactic(auto, using(crate::proofs::Fits::bounds))]
    pub fn load<V: Vault>(
        alloc: Global,
        vault: &mut V,
        f: FileId,
        header: &Header,
    ) -> Result<Space, SpaceError>
        requires file { HasFile (V.view_of vault.old) f.0 }
        requires header { IsHeader header.now }
        ensures asks { OnlyAsks (V.view_of vault.old) (V.view_of vault.new) }
        ensures block { IfOk result (λ s. s.block ≡ header.now.block) }
        ensures room { IfOk result (λ s. s.table.room ≡ most_of header.now) }
        ensures fits { IfOk result (λ s. length s.table.extents ≤ header.now.avail_size) }
        ensures table { IfOk result (λ s. IsAt (V.view_of vault.old) (λ c. (x : File) → c.files f.0 ≡ Some x → s.table ≡ avail_at (table_of x.bytes header.now) (most_of header.now))) }
        ensures right { IfOk result (λ s. IsAt (V.view_of vault.old) (λ c. (x : File) → c.files f.0 ≡ Some x → is_avail (table_of x.bytes header.now) header.now.avail_size ≡ true)) }
        ensures fault { IfErr result (λ e. e ≡ VaultFault → Rose (V.view_of vault.old).faults (V.view_of vault.new).faults) }
        ensures answered { OnOk result ((V.view_of vault.new).faults ≡ (V.view_of vault.old).faults) }
        ensures once { OnErr result ((V.view_of vault.new).faults ≤ (V.view_of vault.old).faults + 1) }
        ensures counted { IfErr result (λ e. e ≢ VaultFault → (V.view_of vault.new).faults ≡ (V.view_of vault.old).faults) }
        ensures bad { IfErr result (λ e. (a : ℕ) → e ≡ BadAvail a → (a ≡ place_of header.now) × IsAt (V.view_of vault.old) (λ c. (x : File) → c.files f.0 ≡ Some x → (is_avail (table_of x.bytes header.now) header.now.avail_size ≡ false) ⊎ (length x.bytes < header.now.block))) }
        ensures full { IfErr result (λ e. e ≢ FileFull) }
    {
        let room = (header.block - 56) / 16;
        let Ok(mut table) = AvailBlock::new(alloc, room) else {
            return Err(SpaceError::OutOfMemory);
        };
        let Ok(spare) = AvailBlock::new(alloc, room) else {
            return Err(SpaceError::OutOfMemory);
        };
        let Ok(mut buf) = vec![in alloc; 0u8; header.block as usize] else {
            return Err(SpaceError::OutOfMemory);
        };
        read_table(vault, f, header, &mut table, &mut buf)?;
        Ok(Space {
            table,
            spare,
            buf,
            block: header.block,
        })
    }

    /// The free space of a file whose table has no extent, and whose stack has no block. Takes the room for all further calls.
    #[tactic(auto, using(crate::proofs::Fits::bounds))]
    pub fn empty(alloc: Global, header: &Header) -> Option<Space>
        requires header { IsHeader header.now }
        ensures block { IfSome result (λ s. s.block ≡ header.now.block) }
        ensures table { IfSome result (λ s. s.table ≡ record { extents = []; next_block = 0; room = most_of header.now }) }
    {
        let room = (header.block - 56) / 16;
        let Ok(table) = AvailBlock::new(alloc, room) else {
            return None;
        };
        let Ok(spare) = AvailBlock::new(alloc, room) else {
            return None;
        };
        let Ok(buf) = vec![in alloc; 0u8; header.block as usize] else {
            return None;
        };
        Some(Space {
            table,
            spare,
            buf,
            block: header.block,
        })
    }

    /// Takes n bytes, and answers their address: from an extent of the bucket, else of the table, else from new room.
    /// Before that a block of the stack is taken back, where the table is less than half full and has room for it.
    #[tactic(auto, using(crate::proofs::Fits::bounds))]
    pub fn take<V: Vault>(
        &mut self,
        vault: &mut V,
        f: FileId,
        header: &mut Header,
        _at: u64,
        bucket: &mut Bucket,
        n: u32,
    ) -> Result<u64, SpaceError>
        requires file { HasFile (V.view_of vault.old) f.0 }
        requires header { IsHeader header.old }
        requires block { header.old.block ≡ self.old.block }
        requires fits { length self.old.table.extents ≤ header.old.avail_size }
        requires some { 0 < n }
        requires side { HasFreeSide (V.view_of vault.old) f.0 header.old self.old.table.next_block self.old.table.extents bucket.old.free }
        ensures done { IfOk result (λ at. Done (V.view_of vault.old) (V.view_of vault.new) f.0 header.old header.new self.old.table.next_block self.new.table.next_block self.old.table.extents bucket.old.free self.new.table.extents bucket.new.free [] (extent at n ∷ []) 32) }
        ensures stack { OnOk result (Stacks (V.view_of vault.old) (V.view_of vault.new) f.0 header.old header.old.avail_size self.old.table.next_block self.new.table.next_block self.old.table.extents bucket.old.free (λ blocks. take_pushes n header.old (table_after header.old.avail_size self.old.table.extents blocks) bucket.old.free) (blocks_after header.old.avail_size self.old.table.extents)) }
        ensures place { IfOk result (λ at. OnTable (V.view_of vault.old) f.0 header.old self.old.table.next_block self.old.table.extents bucket.old.free (λ table. LiesInOne (extent at n) (table ++ bucket.old.free) ⊎ (header.old.next_block ≤ at))) }
        ensures growth { OnOk result (OnTable (V.view_of vault.old) f.0 header.old self.old.table.next_block self.old.table.extents bucket.old.free (λ table. header.new.next_block ≡ header.old.next_block + growth_of n header.old table bucket.old.free)) }
        ensures bound { OnOk result (header.new.next_block < header.old.next_block + (n + 2 * header.old.block)) }
        ensures below { OnOk result (header.new.next_block ≤ 2 ^ 46) }
        ensures header { OnOk result (header.new ≡ record header.old { next_block = header.new.next_block }) }
        ensures length { length self.new.table.extents ≤ header.old.avail_size }
        ensures full { IfErr result (λ e. e ≡ FileFull → OnTable (V.view_of vault.old) f.0 header.old self.old.table.next_block self.old.table.extents bucket.old.free (λ table. 2 ^ 46 < header.old.next_block + growth_of n header.old table bucket.old.free)) }
        ensures full_any { IfErr result (λ e. e ≡ FileFull → 2 ^ 46 < header.old.next_block + (n + 2 * header.old.block)) }
        ensures same_table { IfErr result (λ e. e ≡ FileFull → self.new.table ≡ self.old.table) }
        ensures same_bucket { IfErr result (λ e. e ≡ FileFull → bucket.new ≡ bucket.old) }
        ensures same_header { IfErr result (λ e. header.new ≡ header.old) }
        ensures same_told { IfErr result (λ e. e ≡ FileFull → (V.view_of vault.new).told ≡ (V.view_of vault.old).told) }
        ensures fault { IfErr result (λ e. e ≡ VaultFault → Rose (V.view_of vault.old).faults (V.view_of vault.new).faults) }
        ensures answered { OnOk result ((V.view_of vault.new).faults ≡ (V.view_of vault.old).faults) }
        ensures once { OnErr result ((V.view_of vault.new).faults ≤ (V.view_of vault.old).faults + 1) }
        ensures counted { IfErr result (λ e. e ≢ VaultFault → (V.view_of vault.new).faults ≡ (V.view_of vault.old).faults) }
        ensures bad { IfErr result (λ e. (a : ℕ) → e ≡ BadAvail a → (a ≡ self.old.table.next_block) × TellsNone (V.view_of vault.old)) }
        ensures memory { IfErr result (λ e. e ≢ OutOfMemory) }
        ensures bits { bucket.new.bits ≡ bucket.old.bits }
        ensures slots { bucket.new.slots ≡ bucket.old.slots }
        ensures block { self.new.block ≡ self.old.block }
        ensures room { self.new.table.room ≡ self.old.table.room }
        ensures frame { OnlyWrites f.0 (V.view_of vault.old) (V.view_of vault.new) }
        ensures amount { WritesAtMost (half_size header.old.avail_size) (V.view_of vault.old) (V.view_of vault.new) }
        ensures half_block { WritesAtMost (header.old.block / 2 + 16) (V.view_of vault.old) (V.view_of vault.new) }
    {
        take::take(
            vault,
            f,
            &mut self.table,
            &mut self.spare,
            bucket,
            header,
            n,
            &mut self.buf,
        )
    }

    /// Forgets an extent of at most 4 bytes, and puts a larger one into the bucket where that has fewer than six, else
    /// into the table, of which half is pushed as a block of the stack first where it is full.
    #[tactic(auto, using(crate::proofs::Fits::bounds))]
    pub fn give<V: Vault>(
        &mut self,
        vault: &mut V,
        f: FileId,
        header: &mut Header,
        _at: u64,
        bucket: &mut Bucket,
        extent: Extent,
    ) -> Result<(), SpaceError>
        requires file { HasFile (V.view_of vault.old) f.0 }
        requires header { IsHeader header.old }
        requires block { header.old.block ≡ self.old.block }
        requires fits { length self.old.table.extents ≤ header.old.avail_size }
        requires size { extent.size < 2 ^ 31 }
        requires at { extent.at < 2 ^ 63 }
        requires side { HasFreeSide (V.view_of vault.old) f.0 header.old self.old.table.next_block self.old.table.extents bucket.old.free }
        ensures gave { OnOk result (Gave (V.view_of vault.old) (V.view_of vault.new) f.0 header.old header.new self.old.table.next_block self.new.table.next_block self.old.table.extents bucket.old.free self.new.table.extents bucket.new.free extent) }
        ensures stack { OnOk result (Stacks (V.view_of vault.old) (V.view_of vault.new) f.0 header.old header.old.avail_size self.old.table.next_block self.new.table.next_block self.old.table.extents bucket.old.free (λ blocks. give_pushes extent header.old self.old.table.extents bucket.old.free) all_kept) }
        ensures small { extent.size ≤ 4 → (self.new.table ≡ self.old.table) × (bucket.new ≡ bucket.old) × (header.new ≡ header.old) }
        ensures in_bucket { 4 < extent.size → length bucket.old.free < 6 → (self.new.table ≡ self.old.table) × (bucket.new ≡ record bucket.old { free = bucket.old.free ++ extent ∷ [] }) }
        ensures in_table { OnOk result (4 < extent.size → 6 ≤ length bucket.old.free → length self.old.table.extents < header.old.avail_size → (self.new.table ≡ record self.old.table { extents = self.old.table.extents ++ extent ∷ [] }) × (bucket.new ≡ bucket.old)) }
        ensures half { OnOk result (4 < extent.size → 6 ≤ length bucket.old.free → header.old.avail_size ≤ length self.old.table.extents → length self.new.table.extents + header.old.avail_size / 2 ≤ header.old.avail_size + 1) }
        ensures growth { OnOk result (header.new.next_block ≡ header.old.next_block + give_growth extent header.old self.old.table.extents bucket.old.free) }
        ensures below { OnOk result (header.new.next_block ≤ 2 ^ 46) }
        ensures header { OnOk result (header.new ≡ record header.old { next_block = header.new.next_block }) }
        ensures length { length self.new.table.extents ≤ header.old.avail_size }
        ensures full { IfErr result (λ e. e ≡ FileFull → 2 ^ 46 < header.old.next_block + give_growth extent header.old self.old.table.extents bucket.old.free) }
        ensures same_table { IfErr result (λ e. e ≡ FileFull → self.new.table ≡ self.old.table) }
        ensures same_bucket { IfErr result (λ e. e ≡ FileFull → bucket.new ≡ bucket.old) }
        ensures same_header { IfErr result (λ e. header.new ≡ header.old) }
        ensures same_vault { IfErr result (λ e. e ≡ FileFull → V.view_of vault.new ≡ V.view_of vault.old) }
        ensures error { IfErr result (λ e. (e ≡ VaultFault) ⊎ (e ≡ FileFull)) }
        ensures fault { IfErr result (λ e. e ≡ VaultFault → Rose (V.view_of vault.old).faults (V.view_of vault.new).faults) }
        ensures answered { OnOk result ((V.view_of vault.new).faults ≡ (V.view_of vault.old).faults) }
        ensures once { OnErr result ((V.view_of vault.new).faults ≤ (V.view_of vault.old).faults + 1) }
        ensures counted { IfErr result (λ e. e ≢ VaultFault → (V.view_of vault.new).faults ≡ (V.view_of vault.old).faults) }
        ensures bits { bucket.new.bits ≡ bucket.old.bits }
        ensures slots { bucket.new.slots ≡ bucket.old.slots }
        ensures block { self.new.block ≡ self.old.block }
        ensures room { self.new.table.room ≡ self.old.table.room }
        ensures frame { OnlyWrites f.0 (V.view_of vault.old) (V.view_of vault.new) }
        ensures amount { WritesAtMost (give_writes extent header.old self.old.table.extents bucket.old.free) (V.view_of vault.old) (V.view_of vault.new) }
        ensures half_block { WritesAtMost (header.old.block / 2 + 16) (V.view_of vault.old) (V.view_of vault.new) }
    {
        give::give(
            vault,
            f,
            &mut self.table,
            &mut self.spare,
            bucket,
            header,
            extent,
            &mut self.buf,
        )
    }

    /// Changes the capacity of the table, and pushes what does not fit as a block of the stack.
    #[tactic(auto, using(crate::proofs::Fits::bounds))]
    pub fn recut<V: Vault>(
        &mut self,
        vault: &mut V,
        f: FileId,
        header: &mut Header,
        _at: u64,
        bucket: &mut Bucket,
        capacity: u32,
    ) -> Result<(), SpaceError>
        requires file { HasFile (V.view_of vault.old) f.0 }
        requires header { IsHeader header.old }
        requires block { header.old.block ≡ self.old.block }
        requires fits { length self.old.table.extents ≤ header.old.avail_size }
        requires least { 2 ≤ capacity }
        requires most { capacity ≤ table_room header.old.magic header.old.block }
        requires side { HasFreeSide (V.view_of vault.old) f.0 header.old self.old.table.next_block self.old.table.extents bucket.old.free }
        ensures done { OnOk result (Done (V.view_of vault.old) (V.view_of vault.new) f.0 header.old header.new self.old.table.next_block self.new.table.next_block self.old.table.extents bucket.old.free self.new.table.extents bucket.new.free [] [] (recut_loses capacity header.old self.old.table.extents)) }
        ensures stack { OnOk result (Stacks (V.view_of vault.old) (V.view_of vault.new) f.0 header.old capacity self.old.table.next_block self.new.table.next_block self.old.table.extents bucket.old.free (λ blocks. recut_pushes capacity self.old.table.extents) all_kept) }
        ensures fitted { length self.old.table.extents ≤ capacity → (self.new.table ≡ self.old.table) × (bucket.new ≡ bucket.old) }
        ensures growth { OnOk result (header.new.next_block ≡ header.old.next_block + recut_growth capacity header.old self.old.table.extents bucket.old.free) }
        ensures below { OnOk result (header.new.next_block ≤ 2 ^ 46) }
        ensures header { OnOk result (header.new ≡ record header.old { next_block = header.new.next_block; avail_size = capacity }) }
        ensures length { OnOk result (length self.new.table.extents ≤ capacity) }
        ensures shorter { length self.new.table.extents ≤ length self.old.table.extents }
        ensures full { IfErr result (λ e. e ≡ FileFull → 2 ^ 46 < header.old.next_block + recut_growth capacity header.old self.old.table.extents bucket.old.free) }
        ensures same_table { IfErr result (λ e. e ≡ FileFull → self.new.table ≡ self.old.table) }
        ensures same_bucket { IfErr result (λ e. e ≡ FileFull → bucket.new ≡ bucket.old) }
        ensures same_header { IfErr result (λ e. header.new ≡ header.old) }
        ensures same_vault { IfErr result (λ e. e ≡ FileFull → V.view_of vault.new ≡ V.view_of vault.old) }
        ensures error { IfErr result (λ e. (e ≡ VaultFault) ⊎ (e ≡ FileFull)) }
        ensures fault { IfErr result (λ e. e ≡ VaultFault → Rose (V.view_of vault.old).faults (V.view_of vault.new).faults) }
        ensures answered { OnOk result ((V.view_of vault.new).faults ≡ (V.view_of vault.old).faults) }
        ensures once { OnErr result ((V.view_of vault.new).faults ≤ (V.view_of vault.old).faults + 1) }
        ensures counted { IfErr result (λ e. e ≢ VaultFault → (V.view_of vault.new).faults ≡ (V.view_of vault.old).faults) }
        ensures bits { bucket.new.bits ≡ bucket.old.bits }
        ensures slots { bucket.new.slots ≡ bucket.old.slots }
        ensures block { self.new.block ≡ self.old.block }
        ensures room { self.new.table.room ≡ self.old.table.room }
        ensures frame { OnlyWrites f.0 (V.view_of vault.old) (V.view_of vault.new) }
        ensures amount { WritesAtMost (recut_writes capacity self.old.table.extents) (V.view_of vault.old) (V.view_of vault.new) }
        ensures block_amount { WritesAtMost header.old.block (V.view_of vault.old) (V.view_of vault.new) }
    {
        give::recut(
            vault,
            f,
            &mut self.table,
            &mut self.spare,
            bucket,
            header,
            capacity,
            &mut self.buf,
        )
    }

    /// The table of the header as it has to be written.
    pub fn table(&self) -> &AvailBlock
        ensures { result.now ≡ self.now.table }
    {
        &self.table
    }
}
