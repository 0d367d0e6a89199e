//! Room that is taken and given by the extents of the table, and of a bucket that has no place yet.

ghost use Rattle.std.specs.Prelude.{◌≡◌, ◌≢◌, ◌+◌, ◌*◌, ◌/◌, ◌^◌, ◌<◌, ◌≤◌, ℕ, [], ◌∷◌, IfOk, IfErr, OnOk, OnErr};
ghost use Rattle.gd_base.specs.Causes.{Rose};
ghost use Rattle.gd_format.specs.Sound.{extent};
ghost use Rattle.gd_open.specs.Open.{IsFit};
ghost use Rattle.gd_space.specs.Calls.{HasFreeSide, Done, Gave};
ghost use Rattle.gd_space.specs.Effect.{WritesAtMost, TellsNone};
ghost use Rattle.gd_update.specs.declared.errors.UpdateError.TheVariants.{VaultFault, BadDirEntry};
ghost use Rattle.gd_vault.specs.Views.{HasFile};
ghost use Rattle.gd_vault.specs.Streams.{OnlyWrites};

use crate::errors::UpdateError;
use gd_format::Extent;
use gd_layout::Bucket;
use gd_open::OpenFile;
use gd_space::SpaceError;
use gd_vault::Vault;

/// Takes n bytes, where the file has room to grow for them. Their end is below 2^63 in every vault.
pub fn take_room<V: Vault>(
    file: &mut OpenFile,
    vault: &mut V,
    loose: &mut Bucket,
    n: u32,
) -> Result<u64, UpdateError>
    requires file { HasFile (V.view_of vault.old) file.old.id }
    requires fit { IsFit file.old }
    requires some { 0 < n }
    requires room { file.old.header.next_block + (n + 2 * file.old.header.block) ≤ 2 ^ 46 }
    requires side { HasFreeSide (V.view_of vault.old) file.old.id file.old.header file.old.table.next_block file.old.table.extents loose.old.free }
    ensures done { IfOk result (λ at. Done (V.view_of vault.old) (V.view_of vault.new) file.old.id file.old.header file.new.header file.old.table.next_block file.new.table.next_block file.old.table.extents loose.old.free file.new.table.extents loose.new.free [] (extent at n ∷ []) 32) }
    ensures low { IfOk result (λ at. at ≤ 2 ^ 62) }
    ensures header { OnOk result (file.new.header ≡ record file.old.header { next_block = file.new.header.next_block }) }
    ensures bound { OnOk result (file.new.header.next_block < file.old.header.next_block + (n + 2 * file.old.header.block)) }
    ensures kept { OnErr result (file.new.header ≡ record file.old.header { next_block = file.new.header.next_block }) }
    ensures bits { loose.new.bits ≡ loose.old.bits }
    ensures slots { loose.new.slots ≡ loose.old.slots }
    ensures same_room { file.new.table.room ≡ file.old.table.room }
    ensures there { HasFile (V.view_of vault.new) file.new.id }
    ensures fit { IsFit file.new }
    ensures id { file.new.id ≡ file.old.id }
    ensures frame { OnlyWrites file.old.id (V.view_of vault.old) (V.view_of vault.new) }
    ensures amount { WritesAtMost (file.old.header.block / 2 + 16) (V.view_of vault.old) (V.view_of vault.new) }
    ensures fault { IfErr result (λ e. e ≡ VaultFault → Rose (V.view_of vault.old).faults (V.view_of vault.new).faults) }
    ensures answered { OnOk result ((V.view_of vault.new).faults ≡ (V.view_of vault.old).faults) }
    ensures once { OnErr result ((V.view_of vault.new).faults ≤ (V.view_of vault.old).faults + 1) }
    ensures counted { IfErr result (λ e. e ≢ VaultFault → (V.view_of vault.new).faults ≡ (V.view_of vault.old).faults) }
    ensures entry { IfErr result (λ e. (i : ℕ) → e ≢ BadDirEntry i) }
    ensures told { IfErr result (λ e. e ≢ VaultFault → TellsNone (V.view_of vault.old)) }
{
    match file.take(vault, 0, loose, n) {
        Ok(at) => {
            if at > 1 << 62 {
                return Err(UpdateError::BadAvail(at));
            }
            Ok(at)
        }
        Err(SpaceError::VaultFault) => Err(UpdateError::VaultFault),
        Err(SpaceError::BadAvail(at)) => Err(UpdateError::BadAvail(at)),
        Err(SpaceError::FileFull | SpaceError::OutOfMemory) => unreachable!(),
    }
}

/// Gives an extent back, where the file has room to grow for a block.
pub fn give_room<V: Vault>(
    file: &mut OpenFile,
    vault: &mut V,
    loose: &mut Bucket,
    given: Extent,
) -> Result<(), UpdateError>
    requires file { HasFile (V.view_of vault.old) file.old.id }
    requires fit { IsFit file.old }
    requires size { given.size < 2 ^ 31 }
    requires at { given.at < 2 ^ 63 }
    requires room { file.old.header.next_block + file.old.header.block ≤ 2 ^ 46 }
    requires side { HasFreeSide (V.view_of vault.old) file.old.id file.old.header file.old.table.next_block file.old.table.extents loose.old.free }
    ensures gave { OnOk result (Gave (V.view_of vault.old) (V.view_of vault.new) file.old.id file.old.header file.new.header file.old.table.next_block file.new.table.next_block file.old.table.extents loose.old.free file.new.table.extents loose.new.free given) }
    ensures header { file.new.header ≡ record file.old.header { next_block = file.new.header.next_block } }
    ensures bound { file.new.header.next_block ≤ file.old.header.next_block + file.old.header.block }
    ensures bits { loose.new.bits ≡ loose.old.bits }
    ensures slots { loose.new.slots ≡ loose.old.slots }
    ensures same_room { file.new.table.room ≡ file.old.table.room }
    ensures there { HasFile (V.view_of vault.new) file.new.id }
    ensures fit { IsFit file.new }
    ensures id { file.new.id ≡ file.old.id }
    ensures frame { OnlyWrites file.old.id (V.view_of vault.old) (V.view_of vault.new) }
    ensures amount { WritesAtMost (file.old.header.block / 2 + 16) (V.view_of vault.old) (V.view_of vault.new) }
    ensures error { IfErr result (λ e. e ≡ VaultFault) }
    ensures fault { OnErr result (Rose (V.view_of vault.old).faults (V.view_of vault.new).faults) }
    ensures answered { OnOk result ((V.view_of vault.new).faults ≡ (V.view_of vault.old).faults) }
    ensures once { OnErr result ((V.view_of vault.new).faults ≤ (V.view_of vault.old).faults + 1) }
{
    match file.give(vault, 0, loose, given) {
        Ok(()) => Ok(()),
        Err(SpaceError::VaultFault) => Err(UpdateError::VaultFault),
        Err(_) => unreachable!(),
    }
}
