//! Takes room for a record, and writes it there.

ghost use Rattle.std.specs.Prelude.{◌≡◌, ◌⊎◌, ◌+◌, ◌*◌, ◌<◌, ◌≤◌, ◌^◌, ℕ, Some, length, max, [], ◌∷◌, ◌++◌, IfOk, IfErr, OnOk, OnErr, ◌≢◌};
ghost use Rattle.gd_base.specs.Causes.{Rose};
ghost use Rattle.gd_base.specs.declared.errors.DbError.TheVariants.{VaultFault, BadAvail};
ghost use Rattle.gd_format.specs.Sound.{extent};
ghost use Rattle.gd_open.specs.Files.{FileBecomes};
ghost use Rattle.gd_open.specs.Open.{IsFit};
ghost use Rattle.gd_space.specs.Effect.{half_size, WritesAtMost, TellsNone};
ghost use Rattle.gd_space.specs.Calls.{HasFreeSide, Done, OnTable, growth_of};
ghost use Rattle.gd_vault.specs.Content.{File};
ghost use Rattle.gd_vault.specs.Views.{HasFile, IsAt};
ghost use Rattle.gd_vault.specs.Streams.{OnlyWrites};
ghost use Rattle.gd_update.specs.declared.errors.UpdateError.TheVariants as update;
ghost use Rattle.gd_update.specs.Calls.{db_error_of, PutsRecord};
ghost use Rattle.gd_update.specs.Writes.{PutAt};

use crate::errors::UpdateError;
use gd_base::DbError;
use gd_layout::Bucket;
use gd_open::OpenFile;
use gd_space::SpaceError;
use gd_vault::Vault;

pub fn db_error(e: SpaceError) -> DbError
    ensures { result ≡ db_error_of e }
{
    match e {
        SpaceError::VaultFault => DbError::VaultFault,
        SpaceError::FileFull => DbError::FileFull,
        SpaceError::BadAvail(at) => DbError::BadAvail(at),
        SpaceError::OutOfMemory => DbError::OutOfMemory,
    }
}

// Writes bytes at a place, where there are any.
#[tactic(auto, using(gd_vault::proofs::Writes::writes))]
fn put_bytes<V: Vault>(
    file: &OpenFile,
    vault: &mut V,
    at: u64,
    bytes: &[u8],
) -> Result<(), UpdateError>
    requires file { HasFile (V.view_of vault.old) file.now.id }
    requires place { IsAt (V.view_of vault.old) (λ c. (x : File) → c.files file.now.id ≡ Some x → at ≤ max (length x.bytes) (2 ^ 47)) }
    ensures put { OnOk result (FileBecomes (V.view_of vault.old) (V.view_of vault.new) file.now.id (λ x y. PutAt x y at bytes.now)) }
    ensures amount { WritesAtMost (length bytes.now) (V.view_of vault.old) (V.view_of vault.new) }
    ensures there { HasFile (V.view_of vault.new) file.now.id }
    ensures frame { OnlyWrites file.now.id (V.view_of vault.old) (V.view_of vault.new) }
    ensures error { IfErr result (λ e. e ≡ update.VaultFault) }
    ensures fault { OnErr result (Rose (V.view_of vault.old).faults (V.view_of vault.new).faults) }
    ensures answered { OnOk result ((V.view_of vault.new).faults ≡ (V.view_of vault.old).faults) }
    ensures once { OnErr result ((V.view_of vault.new).faults ≤ (V.view_of vault.old).faults + 1) }
{
    if bytes.is_empty() {
        return Ok(());
    }
    file.write_bytes(vault, at, bytes)?;
    Ok(())
}

// Takes room for n bytes, which may be none.
#[tactic(auto, using(gd_vault::proofs::Writes::writes))]
fn take_room<V: Vault>(
    file: &mut OpenFile,
    vault: &mut V,
    at: u64,
    bucket: &mut Bucket,
    n: u32,
) -> Result<u64, DbError>
    requires file { HasFile (V.view_of vault.old) file.old.id }
    requires fit { IsFit file.old }
    requires room { file.old.header.next_block + n + 2 ^ 24 ≤ 2 ^ 46 }
    requires side { HasFreeSide (V.view_of vault.old) file.old.id file.old.header file.old.table.next_block file.old.table.extents bucket.old.free }
    ensures done { IfOk result (λ record_at. Done (V.view_of vault.old) (V.view_of vault.new) file.old.id file.old.header file.new.header file.old.table.next_block file.new.table.next_block file.old.table.extents bucket.old.free file.new.table.extents bucket.new.free [] (extent record_at n ∷ []) 32) }
    ensures growth { OnOk result (OnTable (V.view_of vault.old) file.old.id file.old.header file.old.table.next_block file.old.table.extents bucket.old.free (λ table. file.new.header.next_block ≡ file.old.header.next_block + growth_of n file.old.header table bucket.old.free)) }
    ensures place { IfOk result (λ record_at. record_at < 2 ^ 63) }
    ensures inside { IfOk result (λ record_at. IsAt (V.view_of vault.old) (λ c. (x : File) → c.files file.old.id ≡ Some x → record_at + n ≤ file.new.header.next_block)) }
    ensures bound { OnOk result (file.new.header.next_block ≤ file.old.header.next_block + (n + 2 * file.old.header.block)) }
    ensures below { file.new.header.next_block ≤ 2 ^ 46 }
    ensures header { file.new.header ≡ record file.old.header { next_block = file.new.header.next_block } }
    ensures error { IfErr result (λ e. (e ≡ VaultFault) ⊎ ((a : ℕ) × (e ≡ BadAvail a) × TellsNone (V.view_of vault.old))) }
    ensures fault { IfErr result (λ e. e ≡ VaultFault → Rose (V.view_of vault.old).faults (V.view_of vault.new).faults) }
    ensures answered { OnOk result ((V.view_of vault.new).faults ≡ (V.view_of vault.old).faults) }
    ensures once { OnErr result ((V.view_of vault.new).faults ≤ (V.view_of vault.old).faults + 1) }
    ensures counted { IfErr result (λ e. e ≢ VaultFault → (V.view_of vault.new).faults ≡ (V.view_of vault.old).faults) }
    ensures bits { bucket.new.bits ≡ bucket.old.bits }
    ensures slots { bucket.new.slots ≡ bucket.old.slots }
    ensures table_room { file.new.table.room ≡ file.old.table.room }
    ensures there { HasFile (V.view_of vault.new) file.new.id }
    ensures fit { IsFit file.new }
    ensures id { file.new.id ≡ file.old.id }
    ensures frame { OnlyWrites file.old.id (V.view_of vault.old) (V.view_of vault.new) }
    ensures amount { WritesAtMost (half_size file.old.header.avail_size) (V.view_of vault.old) (V.view_of vault.new) }
{
    if n == 0 {
        return Ok(0);
    }
    match file.take(vault, at, bucket, n) {
        Ok(place) => {
            if place >= 1 << 63 {
                return Err(DbError::BadAvail(place));
            }
            Ok(place)
        }
        Err(e) => Err(db_error(e)),
    }
}

/// Takes room for a record, and writes it there: the key, and behind it the value.
#[tactic(auto, using(gd_vault::proofs::Writes::writes))]
pub fn place_record<V: Vault>(
    file: &mut OpenFile,
    vault: &mut V,
    at: u64,
    bucket: &mut Bucket,
    key: &[u8],
    value: &[u8],
) -> Result<u64, DbError>
    requires file { HasFile (V.view_of vault.old) file.old.id }
    requires fit { IsFit file.old }
    requires size { length key.now + length value.now ≤ 2 ^ 30 }
    requires room { file.old.header.next_block + (length key.now + length value.now) + 2 ^ 24 ≤ 2 ^ 46 }
    requires side { HasFreeSide (V.view_of vault.old) file.old.id file.old.header file.old.table.next_block file.old.table.extents bucket.old.free }
    ensures put { IfOk result (λ record_at. PutsRecord (V.view_of vault.old) (V.view_of vault.new) file.old.id file.old.header file.new.header file.old.table file.new.table bucket.old.free bucket.new.free record_at (key.now ++ value.now)) }
    ensures growth { OnOk result (OnTable (V.view_of vault.old) file.old.id file.old.header file.old.table.next_block file.old.table.extents bucket.old.free (λ table. file.new.header.next_block ≡ file.old.header.next_block + growth_of (length key.now + length value.now) file.old.header table bucket.old.free)) }
    ensures place { IfOk result (λ record_at. record_at < 2 ^ 63) }
    ensures bound { OnOk result (file.new.header.next_block ≤ file.old.header.next_block + (length key.now + length value.now + 2 * file.old.header.block)) }
    ensures below { file.new.header.next_block ≤ 2 ^ 46 }
    ensures header { file.new.header ≡ record file.old.header { next_block = file.new.header.next_block } }
    ensures error { IfErr result (λ e. (e ≡ VaultFault) ⊎ ((a : ℕ) × (e ≡ BadAvail a) × TellsNone (V.view_of vault.old))) }
    ensures fault { IfErr result (λ e. e ≡ VaultFault → Rose (V.view_of vault.old).faults (V.view_of vault.new).faults) }
    ensures answered { OnOk result ((V.view_of vault.new).faults ≡ (V.view_of vault.old).faults) }
    ensures once { OnErr result ((V.view_of vault.new).faults ≤ (V.view_of vault.old).faults + 1) }
    ensures counted { IfErr result (λ e. e ≢ VaultFault → (V.view_of vault.new).faults ≡ (V.view_of vault.old).faults) }
    ensures bits { bucket.new.bits ≡ bucket.old.bits }
    ensures slots { bucket.new.slots ≡ bucket.old.slots }
    ensures table_room { file.new.table.room ≡ file.old.table.room }
    ensures there { HasFile (V.view_of vault.new) file.new.id }
    ensures fit { IsFit file.new }
    ensures id { file.new.id ≡ file.old.id }
    ensures frame { OnlyWrites file.old.id (V.view_of vault.old) (V.view_of vault.new) }
    ensures amount { WritesAtMost (length key.now + length value.now + half_size file.old.header.avail_size) (V.view_of vault.old) (V.view_of vault.new) }
{
    let n = key.len() as u32 + value.len() as u32;
    let place = take_room(file, vault, at, bucket, n)?;
    put_bytes(file, vault, place, key)?;
    put_bytes(file, vault, place + key.len() as u64, value)?;
    Ok(place)
}
