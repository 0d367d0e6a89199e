//! The last steps of a change: the old record's room is given back, and the blocks of the bucket and of the header are
//! written.

ghost use Rattle.std.specs.Prelude.{◌≡◌, ◌+◌, ◌*◌, ◌/◌, ◌<◌, ◌≤◌, ◌^◌, Some, length, IfErr, OnOk, OnErr, ◌≢◌};
ghost use Rattle.gd_base.specs.Causes.{Rose};
ghost use Rattle.gd_update.specs.declared.errors.UpdateError.TheVariants.{VaultFault};
ghost use Rattle.gd_layout.specs.Fits.{FitsFields};
ghost use Rattle.gd_open.specs.Open.{IsFit};
ghost use Rattle.gd_space.specs.Effect.{push_size, WritesAtMost};
ghost use Rattle.gd_space.specs.Calls.{HasFreeSide};
ghost use Rattle.gd_vault.specs.Content.{File};
ghost use Rattle.gd_vault.specs.Views.{HasFile, IsAt};
ghost use Rattle.gd_vault.specs.Streams.{OnlyWrites};
ghost use Rattle.gd_update.specs.Calls.{GivesBack, Finishes};
ghost use Rattle.gd_update.specs.Open.{slot_growth};

use crate::errors::UpdateError;
use crate::slots::record_in;
use gd_format::Slot;
use gd_layout::Bucket;
use gd_open::OpenFile;
use gd_vault::Vault;

// Gives back the room of a slot's record, where it has a byte.
#[tactic(auto, using(gd_vault::proofs::Writes::writes))]
fn give_back<V: Vault>(
    file: &mut OpenFile,
    vault: &mut V,
    at: u64,
    bucket: &mut Bucket,
    gone: &Slot,
) -> Result<(), UpdateError>
    requires file { HasFile (V.view_of vault.old) file.old.id }
    requires fit { IsFit file.old }
    requires room { file.old.header.next_block + 2 ^ 22 ≤ 2 ^ 46 }
    requires fields { FitsFields gone.now }
    requires side { HasFreeSide (V.view_of vault.old) file.old.id file.old.header file.old.table.next_block file.old.table.extents bucket.old.free }
    ensures back { OnOk result (GivesBack (V.view_of vault.old) (V.view_of vault.new) file.old.id file.old.header file.new.header file.old.table file.new.table bucket.old.free bucket.new.free gone.now) }
    ensures growth { OnOk result (file.new.header.next_block ≡ file.old.header.next_block + slot_growth gone.now file.old.header file.old.table.extents bucket.old.free) }
    ensures bound { file.new.header.next_block ≤ file.old.header.next_block + file.old.header.block }
    ensures header { file.new.header ≡ record file.old.header { next_block = file.new.header.next_block } }
    ensures error { IfErr result (λ e. e ≡ VaultFault) }
    ensures fault { OnErr result (Rose (V.view_of vault.old).faults (V.view_of vault.new).faults) }
    ensures answered { OnOk result ((V.view_of vault.new).faults ≡ (V.view_of vault.old).faults) }
    ensures once { OnErr result ((V.view_of vault.new).faults ≤ (V.view_of vault.old).faults + 1) }
    ensures bits { bucket.new.bits ≡ bucket.old.bits }
    ensures slots { bucket.new.slots ≡ bucket.old.slots }
    ensures table_room { file.new.table.room ≡ file.old.table.room }
    ensures there { HasFile (V.view_of vault.new) file.new.id }
    ensures fit { IsFit file.new }
    ensures id { file.new.id ≡ file.old.id }
    ensures frame { OnlyWrites file.old.id (V.view_of vault.old) (V.view_of vault.new) }
    ensures amount { WritesAtMost (push_size (file.old.header.avail_size / 2)) (V.view_of vault.old) (V.view_of vault.new) }
{
    let Some(extent) = record_in(gone) else {
        return Ok(());
    };
    match file.give(vault, at, bucket, extent) {
        Ok(()) => Ok(()),
        Err(_full_or_fault) => Err(UpdateError::VaultFault),
    }
}

/// Gives back the room of the record that goes, and writes the blocks of the bucket and of the header.
#[tactic(auto, using(gd_vault::proofs::Writes::writes))]
pub fn finish<V: Vault>(
    file: &mut OpenFile,
    vault: &mut V,
    at: u64,
    bucket: &mut Bucket,
    gone: &Slot,
) -> Result<(), UpdateError>
    requires file { HasFile (V.view_of vault.old) file.old.id }
    requires fit { IsFit file.old }
    requires room { file.old.header.next_block + 2 ^ 22 ≤ 2 ^ 46 }
    requires fields { FitsFields gone.now }
    requires elems { length bucket.old.slots ≡ file.old.header.elems }
    requires side { HasFreeSide (V.view_of vault.old) file.old.id file.old.header file.old.table.next_block file.old.table.extents bucket.old.free }
    requires place { IsAt (V.view_of vault.old) (λ c. (x : File) → c.files file.old.id ≡ Some x → at ≤ 2 ^ 46) }
    ensures done { OnOk result (Finishes (V.view_of vault.old) (V.view_of vault.new) file.old.id file.old.header file.new.header file.old.table file.new.table at bucket.old bucket.new gone.now) }
    ensures growth { OnOk result (file.new.header.next_block ≡ file.old.header.next_block + slot_growth gone.now file.old.header file.old.table.extents bucket.old.free) }
    ensures bound { file.new.header.next_block ≤ file.old.header.next_block + file.old.header.block }
    ensures header { file.new.header ≡ record file.old.header { next_block = file.new.header.next_block } }
    ensures error { IfErr result (λ e. e ≡ VaultFault) }
    ensures fault { OnErr result (Rose (V.view_of vault.old).faults (V.view_of vault.new).faults) }
    ensures answered { OnOk result ((V.view_of vault.new).faults ≡ (V.view_of vault.old).faults) }
    ensures once { OnErr result ((V.view_of vault.new).faults ≤ (V.view_of vault.old).faults + 1) }
    ensures bits { bucket.new.bits ≡ bucket.old.bits }
    ensures slots { bucket.new.slots ≡ bucket.old.slots }
    ensures table_room { file.new.table.room ≡ file.old.table.room }
    ensures there { HasFile (V.view_of vault.new) file.new.id }
    ensures fit { IsFit file.new }
    ensures id { file.new.id ≡ file.old.id }
    ensures frame { OnlyWrites file.old.id (V.view_of vault.old) (V.view_of vault.new) }
    ensures amount { WritesAtMost (2 * file.old.header.block + push_size (file.old.header.avail_size / 2)) (V.view_of vault.old) (V.view_of vault.new) }
{
    give_back(file, vault, at, bucket, gone)?;
    file.write_bucket(vault, at, bucket)?;
    file.write_header(vault)?;
    Ok(())
}
