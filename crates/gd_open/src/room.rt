//! Free space of an open file.

ghost use Rattle.std.specs.Prelude.{◌≡◌, ◌≢◌, ◌⊎◌, ◌+◌, ◌*◌, ◌/◌, ◌<◌, ◌≤◌, ◌^◌, ℕ, [], ◌∷◌, ◌++◌, length, IfOk, IfErr, OnOk, OnErr};
ghost use Rattle.gd_base.specs.Causes.{Rose};
ghost use Rattle.gd_format.specs.Sound.{extent};
ghost use Rattle.gd_space.specs.Calls.{HasFreeSide, Done, Gave, OnTable, growth_of};
ghost use Rattle.gd_space.specs.Effect.{LiesInOne, WritesAtMost, TellsNone, blocks_after, half_size, give_growth, give_pushes, give_writes, table_after, take_pushes};
ghost use Rattle.gd_space.specs.Stacks.{Stacks, all_kept};
ghost use Rattle.gd_space.specs.declared.stack.SpaceError.TheVariants.{VaultFault, BadAvail, FileFull, OutOfMemory};
ghost use Rattle.gd_vault.specs.Streams.{OnlyWrites};
ghost use Rattle.gd_vault.specs.Views.{HasFile};
ghost use Rattle.gd_open.specs.Open.{IsFit};

use crate::file::OpenFile;
use gd_format::Extent;
use gd_layout::Bucket;
use gd_space::SpaceError;
use gd_vault::Vault;

impl OpenFile {
    /// Takes n bytes, and answers their address: from an extent of the bucket, else of the table, else from new room.
    /// Before that a block of the stack is taken back, where the table is less than half full and has room for it.
    pub fn take<V: Vault>(
        &mut self,
        vault: &mut V,
        at: u64,
        bucket: &mut Bucket,
        n: u32,
    ) -> Result<u64, SpaceError>
        requires file { HasFile (V.view_of vault.old) self.old.id }
        requires some { 0 < n }
        requires side { HasFreeSide (V.view_of vault.old) self.old.id self.old.header self.old.table.next_block self.old.table.extents bucket.old.free }
        ensures done { IfOk result (λ at. Done (V.view_of vault.old) (V.view_of vault.new) self.old.id self.old.header self.new.header self.old.table.next_block self.new.table.next_block self.old.table.extents bucket.old.free self.new.table.extents bucket.new.free [] (extent at n ∷ []) 32) }
        ensures stack { OnOk result (Stacks (V.view_of vault.old) (V.view_of vault.new) self.old.id self.old.header self.old.header.avail_size self.old.table.next_block self.new.table.next_block self.old.table.extents bucket.old.free (λ blocks. take_pushes n self.old.header (table_after self.old.header.avail_size self.old.table.extents blocks) bucket.old.free) (blocks_after self.old.header.avail_size self.old.table.extents)) }
        ensures place { IfOk result (λ at. OnTable (V.view_of vault.old) self.old.id self.old.header self.old.table.next_block self.old.table.extents bucket.old.free (λ table. LiesInOne (extent at n) (table ++ bucket.old.free) ⊎ (self.old.header.next_block ≤ at))) }
        ensures growth { OnOk result (OnTable (V.view_of vault.old) self.old.id self.old.header self.old.table.next_block self.old.table.extents bucket.old.free (λ table. self.new.header.next_block ≡ self.old.header.next_block + growth_of n self.old.header table bucket.old.free)) }
        ensures bound { OnOk result (self.new.header.next_block < self.old.header.next_block + (n + 2 * self.old.header.block)) }
        ensures below { OnOk result (self.new.header.next_block ≤ 2 ^ 46) }
        ensures full { IfErr result (λ e. e ≡ FileFull → OnTable (V.view_of vault.old) self.old.id self.old.header self.old.table.next_block self.old.table.extents bucket.old.free (λ table. 2 ^ 46 < self.old.header.next_block + growth_of n self.old.header table bucket.old.free)) }
        ensures full_any { IfErr result (λ e. e ≡ FileFull → 2 ^ 46 < self.old.header.next_block + (n + 2 * self.old.header.block)) }
        ensures same_table { IfErr result (λ e. e ≡ FileFull → self.new.table ≡ self.old.table) }
        ensures same_bucket { IfErr result (λ e. e ≡ FileFull → bucket.new ≡ bucket.old) }
        ensures same_told { IfErr result (λ e. e ≡ FileFull → (V.view_of vault.new).told ≡ (V.view_of vault.old).told) }
        ensures fault { IfErr result (λ e. e ≡ VaultFault → Rose (V.view_of vault.old).faults (V.view_of vault.new).faults) }
        ensures answered { OnOk result ((V.view_of vault.new).faults ≡ (V.view_of vault.old).faults) }
        ensures once { OnErr result ((V.view_of vault.new).faults ≤ (V.view_of vault.old).faults + 1) }
        ensures counted { IfErr result (λ e. e ≢ VaultFault → (V.view_of vault.new).faults ≡ (V.view_of vault.old).faults) }
        ensures bad { IfErr result (λ e. (a : ℕ) → e ≡ BadAvail a → (a ≡ self.old.table.next_block) × TellsNone (V.view_of vault.old)) }
        ensures memory { IfErr result (λ e. e ≢ OutOfMemory) }
        ensures bits { bucket.new.bits ≡ bucket.old.bits }
        ensures slots { bucket.new.slots ≡ bucket.old.slots }
        ensures frame { OnlyWrites self.old.id (V.view_of vault.old) (V.view_of vault.new) }
        ensures amount { WritesAtMost (half_size self.old.header.avail_size) (V.view_of vault.old) (V.view_of vault.new) }
        ensures half_block { WritesAtMost (self.old.header.block / 2 + 16) (V.view_of vault.old) (V.view_of vault.new) }
        ensures header { self.new.header ≡ record self.old.header { next_block = self.new.header.next_block } }
        ensures same_header { IfErr result (λ e. self.new.header ≡ self.old.header) }
        ensures room { self.new.table.room ≡ self.old.table.room }
        ensures rest { self.new ≡ record self.old { header = self.new.header; table = self.new.table } }
        ensures fit { IsFit self.new }
        ensures id { self.new.id ≡ self.old.id }
        ensures there { HasFile (V.view_of vault.new) self.new.id }
    {
        self.space
            .take(vault, self.id, &mut self.header, at, bucket, n)
    }

    /// Gives an extent back: it is forgotten where it has at most 4 bytes, and stands then in the bucket, where that has fewer
    /// than six, else in the table, of which half is pushed as a block of the stack first where it is full.
    pub fn give<V: Vault>(
        &mut self,
        vault: &mut V,
        at: u64,
        bucket: &mut Bucket,
        extent: Extent,
    ) -> Result<(), SpaceError>
        requires file { HasFile (V.view_of vault.old) self.old.id }
        requires size { extent.size < 2 ^ 31 }
        requires at { extent.at < 2 ^ 63 }
        requires side { HasFreeSide (V.view_of vault.old) self.old.id self.old.header self.old.table.next_block self.old.table.extents bucket.old.free }
        ensures gave { OnOk result (Gave (V.view_of vault.old) (V.view_of vault.new) self.old.id self.old.header self.new.header self.old.table.next_block self.new.table.next_block self.old.table.extents bucket.old.free self.new.table.extents bucket.new.free extent) }
        ensures stack { OnOk result (Stacks (V.view_of vault.old) (V.view_of vault.new) self.old.id self.old.header self.old.header.avail_size self.old.table.next_block self.new.table.next_block self.old.table.extents bucket.old.free (λ blocks. give_pushes extent self.old.header self.old.table.extents bucket.old.free) all_kept) }
        ensures small { extent.size ≤ 4 → (self.new.table ≡ self.old.table) × (bucket.new ≡ bucket.old) × (self.new.header ≡ self.old.header) }
        ensures in_bucket { 4 < extent.size → length bucket.old.free < 6 → (self.new.table ≡ self.old.table) × (bucket.new ≡ record bucket.old { free = bucket.old.free ++ extent ∷ [] }) }
        ensures in_table { OnOk result (4 < extent.size → 6 ≤ length bucket.old.free → length self.old.table.extents < self.old.header.avail_size → (self.new.table ≡ record self.old.table { extents = self.old.table.extents ++ extent ∷ [] }) × (bucket.new ≡ bucket.old)) }
        ensures half { OnOk result (4 < extent.size → 6 ≤ length bucket.old.free → self.old.header.avail_size ≤ length self.old.table.extents → length self.new.table.extents + self.old.header.avail_size / 2 ≤ self.old.header.avail_size + 1) }
        ensures growth { OnOk result (self.new.header.next_block ≡ self.old.header.next_block + give_growth extent self.old.header self.old.table.extents bucket.old.free) }
        ensures below { OnOk result (self.new.header.next_block ≤ 2 ^ 46) }
        ensures full { IfErr result (λ e. e ≡ FileFull → 2 ^ 46 < self.old.header.next_block + give_growth extent self.old.header self.old.table.extents bucket.old.free) }
        ensures same_table { IfErr result (λ e. e ≡ FileFull → self.new.table ≡ self.old.table) }
        ensures same_bucket { IfErr result (λ e. e ≡ FileFull → bucket.new ≡ bucket.old) }
        ensures same_vault { IfErr result (λ e. e ≡ FileFull → V.view_of vault.new ≡ V.view_of vault.old) }
        ensures error { IfErr result (λ e. (e ≡ VaultFault) ⊎ (e ≡ FileFull)) }
        ensures fault { IfErr result (λ e. e ≡ VaultFault → Rose (V.view_of vault.old).faults (V.view_of vault.new).faults) }
        ensures answered { OnOk result ((V.view_of vault.new).faults ≡ (V.view_of vault.old).faults) }
        ensures once { OnErr result ((V.view_of vault.new).faults ≤ (V.view_of vault.old).faults + 1) }
        ensures counted { IfErr result (λ e. e ≢ VaultFault → (V.view_of vault.new).faults ≡ (V.view_of vault.old).faults) }
        ensures bits { bucket.new.bits ≡ bucket.old.bits }
        ensures slots { bucket.new.slots ≡ bucket.old.slots }
        ensures frame { OnlyWrites self.old.id (V.view_of vault.old) (V.view_of vault.new) }
        ensures amount { WritesAtMost (give_writes extent self.old.header self.old.table.extents bucket.old.free) (V.view_of vault.old) (V.view_of vault.new) }
        ensures half_block { WritesAtMost (self.old.header.block / 2 + 16) (V.view_of vault.old) (V.view_of vault.new) }
        ensures header { self.new.header ≡ record self.old.header { next_block = self.new.header.next_block } }
        ensures same_header { IfErr result (λ e. self.new.header ≡ self.old.header) }
        ensures room { self.new.table.room ≡ self.old.table.room }
        ensures rest { self.new ≡ record self.old { header = self.new.header; table = self.new.table } }
        ensures fit { IsFit self.new }
        ensures id { self.new.id ≡ self.old.id }
        ensures there { HasFile (V.view_of vault.new) self.new.id }
    {
        self.space
            .give(vault, self.id, &mut self.header, at, bucket, extent)
    }
}
