//! A store without a split, and a deletion.

ghost use Rattle.std.specs.Prelude.{◌≡◌, ◌≢◌, ◌⊎◌, ◌+◌, ◌*◌, ◌<◌, ◌≤◌, ◌^◌, ℕ, true, None, Some, length, slice_index_or, IfNone, IfSome, IfOk, IfErr, OnOk, OnErr};
ghost use Rattle.std.specs.FinMap.{insert, remove};
ghost use Rattle.gd_base.specs.Causes.{Rose};
ghost use Rattle.gd_base.specs.declared.errors.DbError.TheVariants.{VaultFault, BadAvail};
ghost use Rattle.gd_format.specs.File.{records};
ghost use Rattle.gd_format.specs.declared.Slot.TheVariants.{Empty};
ghost use Rattle.gd_format.specs.Slots.{count, is_full};
ghost use Rattle.gd_map_laws.specs.Maps.{pair_map};
ghost use Rattle.gd_open.specs.Open.{IsFit};
ghost use Rattle.gd_space.specs.Effect.{WritesAtMost, TellsNone};
ghost use Rattle.gd_space.specs.Calls.{OnTable, growth_of};
ghost use Rattle.gd_vault.specs.Content.{File};
ghost use Rattle.gd_vault.specs.Views.{HasFile, IsAt};
ghost use Rattle.gd_vault.specs.Streams.{OnlyWrites};
ghost use Rattle.gd_update.specs.Calls.{CanChange, Changes};
ghost use Rattle.gd_update.specs.Open.{IsPlaceOf, slot_key, slot_growth};

use crate::last::finish;
use crate::record::place_record;
use crate::slots::{put_slot, slot_for};
use gd_base::DbError;
use gd_bucket::remove_slot;
use gd_layout::{Bucket, hash};
use gd_open::OpenFile;
use gd_vault::Vault;

/// Stores a pair in the bucket of its key, which stands at the address `at`. `place` is the slot that has the key; where
/// none has it, the bucket has an empty slot.
///
/// The new record is written before the room of the old one is given back.
#[tactic(auto, using(gd_vault::proofs::Writes::writes))]
pub fn put<V: Vault>(
    file: &mut OpenFile,
    vault: &mut V,
    at: u64,
    bucket: &mut Bucket,
    place: Option<u32>,
    key: &[u8],
    value: &[u8],
) -> Result<(), DbError>
    requires file { HasFile (V.view_of vault.old) file.old.id }
    requires elems { length bucket.old.slots ≡ file.old.header.elems }
    requires some { IfSome place (λ p. is_full (slice_index_or bucket.old.slots p Empty) ≡ true) }
    requires none { IfNone place (count is_full bucket.old.slots < length bucket.old.slots) }
    requires size { length key.now + length value.now ≤ 2 ^ 30 }
    requires room { file.old.header.next_block + (length key.now + length value.now) + 2 ^ 25 ≤ 2 ^ 46 }
    requires told { CanChange (V.view_of vault.old) file.old.id file.old.header file.old.table at bucket.old (λ x. key.now) }
    requires place { IsAt (V.view_of vault.old) (λ c. (x : File) → c.files file.old.id ≡ Some x → IsPlaceOf x.bytes bucket.old.slots key.now place) }
    ensures changes { OnOk result (Changes (V.view_of vault.old) (V.view_of vault.new) file.old.id file.new.header file.new.table at bucket.new (λ x. key.now) (λ x. insert (pair_map (records x)) key.now value.now) 64) }
    ensures growth { OnOk result (OnTable (V.view_of vault.old) file.old.id file.old.header file.old.table.next_block file.old.table.extents bucket.old.free (λ table. file.old.header.next_block + growth_of (length key.now + length value.now) file.old.header table bucket.old.free ≤ file.new.header.next_block)) }
    ensures growth_most { OnOk result (OnTable (V.view_of vault.old) file.old.id file.old.header file.old.table.next_block file.old.table.extents bucket.old.free (λ table. file.new.header.next_block ≤ file.old.header.next_block + growth_of (length key.now + length value.now) file.old.header table bucket.old.free + file.old.header.block)) }
    ensures growth_absent { OnOk result (place ≡ None → OnTable (V.view_of vault.old) file.old.id file.old.header file.old.table.next_block file.old.table.extents bucket.old.free (λ table. file.new.header.next_block ≡ file.old.header.next_block + growth_of (length key.now + length value.now) file.old.header table bucket.old.free)) }
    ensures bound { OnOk result (file.new.header.next_block ≤ file.old.header.next_block + (length key.now + length value.now + 3 * file.old.header.block)) }
    ensures below { file.new.header.next_block ≤ 2 ^ 46 }
    ensures header { file.new.header ≡ record file.old.header { next_block = file.new.header.next_block } }
    ensures error { IfErr result (λ e. (e ≡ VaultFault) ⊎ ((a : ℕ) × (e ≡ BadAvail a) × TellsNone (V.view_of vault.old))) }
    ensures fault { IfErr result (λ e. e ≡ VaultFault → Rose (V.view_of vault.old).faults (V.view_of vault.new).faults) }
    ensures answered { OnOk result ((V.view_of vault.new).faults ≡ (V.view_of vault.old).faults) }
    ensures once { OnErr result ((V.view_of vault.new).faults ≤ (V.view_of vault.old).faults + 1) }
    ensures counted { IfErr result (λ e. e ≢ VaultFault → (V.view_of vault.new).faults ≡ (V.view_of vault.old).faults) }
    ensures elems { length bucket.new.slots ≡ length bucket.old.slots }
    ensures bits { bucket.new.bits ≡ bucket.old.bits }
    ensures table_room { file.new.table.room ≡ file.old.table.room }
    ensures there { HasFile (V.view_of vault.new) file.new.id }
    ensures fit { IsFit file.new }
    ensures id { file.new.id ≡ file.old.id }
    ensures frame { OnlyWrites file.old.id (V.view_of vault.old) (V.view_of vault.new) }
    ensures amount { WritesAtMost (length key.now + length value.now + 3 * file.old.header.block) (V.view_of vault.old) (V.view_of vault.new) }
{
    // the parts of an open file are fit
    let _header = file.header();
    let record = place_record(file, vault, at, bucket, key, value)?;
    let slot = slot_for(hash(key), key, value.len() as u32, record);
    let gone = put_slot(bucket, place, slot);
    finish(file, vault, at, bucket, &gone)?;
    Ok(())
}

/// Removes the record of the full slot at a place from its bucket, which stands at the address `at`.
#[tactic(auto, using(gd_vault::proofs::Writes::writes))]
pub fn remove<V: Vault>(
    file: &mut OpenFile,
    vault: &mut V,
    at: u64,
    bucket: &mut Bucket,
    place: u32,
) -> Result<(), DbError>
    requires file { HasFile (V.view_of vault.old) file.old.id }
    requires elems { length bucket.old.slots ≡ file.old.header.elems }
    requires full { is_full (slice_index_or bucket.old.slots place Empty) ≡ true }
    requires room { file.old.header.next_block + 2 ^ 25 ≤ 2 ^ 46 }
    requires told { CanChange (V.view_of vault.old) file.old.id file.old.header file.old.table at bucket.old (λ x. slot_key x (slice_index_or bucket.old.slots place Empty)) }
    ensures changes { OnOk result (Changes (V.view_of vault.old) (V.view_of vault.new) file.old.id file.new.header file.new.table at bucket.new (λ x. slot_key x (slice_index_or bucket.old.slots place Empty)) (λ x. remove (pair_map (records x)) (slot_key x (slice_index_or bucket.old.slots place Empty))) 32) }
    ensures growth { OnOk result (file.new.header.next_block ≡ file.old.header.next_block + slot_growth (slice_index_or bucket.old.slots place Empty) file.old.header file.old.table.extents bucket.old.free) }
    ensures bound { file.new.header.next_block ≤ file.old.header.next_block + file.old.header.block }
    ensures below { file.new.header.next_block ≤ 2 ^ 46 }
    ensures header { file.new.header ≡ record file.old.header { next_block = file.new.header.next_block } }
    ensures error { IfErr result (λ e. e ≡ VaultFault) }
    ensures fault { OnErr result (Rose (V.view_of vault.old).faults (V.view_of vault.new).faults) }
    ensures answered { OnOk result ((V.view_of vault.new).faults ≡ (V.view_of vault.old).faults) }
    ensures once { OnErr result ((V.view_of vault.new).faults ≤ (V.view_of vault.old).faults + 1) }
    ensures elems { length bucket.new.slots ≡ length bucket.old.slots }
    ensures bits { bucket.new.bits ≡ bucket.old.bits }
    ensures table_room { file.new.table.room ≡ file.old.table.room }
    ensures there { HasFile (V.view_of vault.new) file.new.id }
    ensures fit { IsFit file.new }
    ensures id { file.new.id ≡ file.old.id }
    ensures frame { OnlyWrites file.old.id (V.view_of vault.old) (V.view_of vault.new) }
    ensures amount { WritesAtMost (3 * file.old.header.block) (V.view_of vault.old) (V.view_of vault.new) }
{
    // the parts of an open file are fit
    let _header = file.header();
    let gone = bucket.slots()[place as usize];
    remove_slot(bucket, place);
    finish(file, vault, at, bucket, &gone)?;
    Ok(())
}
