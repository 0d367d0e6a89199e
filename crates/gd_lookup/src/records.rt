//! The address of a key's bucket, and the key and the value of a slot.

ghost use Rattle.std.specs.Prelude.{◌≡◌, ◌+◌, ◌-◌, ◌/◌, ◌<◌, ◌≤◌, ◌^◌, true, length, IfOk, IfErr, IfSome, IsSome};
ghost use Rattle.gd_format.specs.Field.{bytes_at};
ghost use Rattle.gd_format.specs.File.{entries_of, entry_at};
ghost use Rattle.gd_format.specs.HeaderFault.{natural};
ghost use Rattle.gd_format.specs.Slots.{is_full};
ghost use Rattle.gd_layout.specs.Fits.{FitsFields};
ghost use Rattle.gd_vault.specs.Views.{HasFile, OnlyAsks};
ghost use Rattle.gd_readable.specs.Asks.{Counts, IsIn};
ghost use Rattle.gd_open.specs.Files.{AtFile, OfFile};
ghost use Rattle.gd_open.specs.Open.{IsFit};
ghost use Rattle.gd_open.specs.Reading.{IsBucketPlace, RefusesRead};
ghost use Rattle.gd_lookup.specs.Reading.{LiesIn, key_in, value_in};

use gd_base::{Datum, DbError};
use gd_format::Slot;
use gd_open::OpenFile;
use gd_vault::Vault;
use std::alloc::Global;

// The bits of the directory's number of entries.
pub fn dir_bits(file: &OpenFile) -> u32
    ensures is { result ≡ file.now.header.dir_bits }
    ensures most { result ≤ 24 }
    ensures fit { IsFit file.now }
{
    file.header().dir_bits
}

// How many entries the directory has.
pub fn entry_count(file: &OpenFile) -> u64
    ensures is { result ≡ entries_of file.now.header }
    ensures most { result ≤ 2 ^ 24 }
{
    1 << dir_bits(file)
}

/// The address of the bucket in which keys of a hash belong.
pub fn bucket_address<V: Vault>(file: &OpenFile, vault: &mut V, hash: u32) -> Result<u64, DbError>
    requires file { HasFile (V.view_of vault.old) file.now.id }
    requires readable { OfFile (V.view_of vault.old) file.now.id file.now.header }
    requires hash { hash < 2 ^ 31 }
    ensures asks { OnlyAsks (V.view_of vault.old) (V.view_of vault.new) }
    ensures answered { IfOk result (λ _. (V.view_of vault.new).faults ≡ (V.view_of vault.old).faults) }
    ensures counted { IfErr result (λ e. Counts e (V.view_of vault.old).faults (V.view_of vault.new).faults) }
    ensures address { IfOk result (λ at. AtFile (V.view_of vault.old) file.now.id (λ bytes. at ≡ natural (entry_at bytes file.now.header (hash / 2 ^ (31 - file.now.header.dir_bits))))) }
    ensures place { IfOk result (λ at. AtFile (V.view_of vault.old) file.now.id (λ bytes. IsBucketPlace bytes file.now.header at)) }
    ensures refused { IfErr result (λ e. RefusesRead e (V.view_of vault.old) (V.view_of vault.new)) }
{
    let i = u64::from(hash >> (31 - dir_bits(file)));
    let at = file.entry(vault, i)?;
    Ok(at)
}

// The `size` bytes from a place on, where the file has them.
#[tactic(auto, using(gd_open::proofs::Opens::no_memory, gd_open::proofs::Opens::faulted))]
fn bytes_from<V: Vault>(
    file: &OpenFile,
    alloc: Global,
    vault: &mut V,
    at: u64,
    size: u32,
) -> Result<Option<Datum>, DbError>
    requires file { HasFile (V.view_of vault.old) file.now.id }
    ensures asks { OnlyAsks (V.view_of vault.old) (V.view_of vault.new) }
    ensures answered { IfOk result (λ _. (V.view_of vault.new).faults ≡ (V.view_of vault.old).faults) }
    ensures counted { IfErr result (λ e. Counts e (V.view_of vault.old).faults (V.view_of vault.new).faults) }
    ensures whole { IfOk result (λ r. AtFile (V.view_of vault.old) file.now.id (λ bytes. IsIn bytes at size → IsSome r)) }
    ensures bytes { IfOk result (λ r. IfSome r (λ d. AtFile (V.view_of vault.old) file.now.id (λ bytes. IsIn bytes at size → d ≡ bytes_at bytes at size))) }
    ensures refused { IfErr result (λ e. RefusesRead e (V.view_of vault.old) (V.view_of vault.new)) }
{
    let Ok(mut bytes) = vec![in alloc; 0u8; size as usize] else {
        return Err(DbError::OutOfMemory);
    };
    let Ok(whole) = file.read_bytes(vault, at, &mut bytes) else {
        return Err(DbError::VaultFault);
    };
    if !whole {
        return Ok(None);
    }
    Ok(Some(Datum::from(bytes)))
}

// The `size` bytes from a place on, which are a part of a slot's record.
pub fn part_of_record<V: Vault>(
    file: &OpenFile,
    alloc: Global,
    vault: &mut V,
    from: u64,
    size: u32,
    refusal: (u64, u32),
) -> Result<Datum, DbError>
    requires file { HasFile (V.view_of vault.old) file.now.id }
    requires inside { AtFile (V.view_of vault.old) file.now.id (λ bytes. IsIn bytes from size) }
    ensures asks { OnlyAsks (V.view_of vault.old) (V.view_of vault.new) }
    ensures answered { IfOk result (λ _. (V.view_of vault.new).faults ≡ (V.view_of vault.old).faults) }
    ensures counted { IfErr result (λ e. Counts e (V.view_of vault.old).faults (V.view_of vault.new).faults) }
    ensures bytes { IfOk result (λ d. AtFile (V.view_of vault.old) file.now.id (λ bytes. d ≡ bytes_at bytes from size)) }
    ensures refused { IfErr result (λ e. RefusesRead e (V.view_of vault.old) (V.view_of vault.new)) }
{
    let bytes = bytes_from(file, alloc, vault, from, size)?;
    match bytes {
        Some(bytes) => Ok(bytes),
        None => Err(DbError::BadHashEntry(refusal.0, refusal.1)),
    }
}

/// The key of a full slot, of which `at` is the bucket's address and `place` the number.
pub fn read_key<V: Vault>(
    file: &OpenFile,
    alloc: Global,
    vault: &mut V,
    at: u64,
    place: u32,
    slot: &Slot,
) -> Result<Datum, DbError>
    requires file { HasFile (V.view_of vault.old) file.now.id }
    requires full { is_full slot.now ≡ true }
    requires inside { AtFile (V.view_of vault.old) file.now.id (λ bytes. LiesIn (length bytes) slot.now) }
    ensures asks { OnlyAsks (V.view_of vault.old) (V.view_of vault.new) }
    ensures answered { IfOk result (λ _. (V.view_of vault.new).faults ≡ (V.view_of vault.old).faults) }
    ensures counted { IfErr result (λ e. Counts e (V.view_of vault.old).faults (V.view_of vault.new).faults) }
    ensures key { IfOk result (λ k. AtFile (V.view_of vault.old) file.now.id (λ bytes. k ≡ key_in bytes slot.now)) }
    ensures refused { IfErr result (λ e. RefusesRead e (V.view_of vault.old) (V.view_of vault.new)) }
{
    match *slot {
        Slot::Empty => part_of_record(file, alloc, vault, 0, 0, (at, place)),
        Slot::Full {
            at: from,
            key_size,
            ..
        } => part_of_record(file, alloc, vault, from, key_size, (at, place)),
    }
}

/// The value of a full slot, of which `at` is the bucket's address and `place` the number.
pub fn read_value<V: Vault>(
    file: &OpenFile,
    alloc: Global,
    vault: &mut V,
    at: u64,
    place: u32,
    slot: &Slot,
) -> Result<Datum, DbError>
    requires file { HasFile (V.view_of vault.old) file.now.id }
    requires full { is_full slot.now ≡ true }
    requires fits { FitsFields slot.now }
    requires inside { AtFile (V.view_of vault.old) file.now.id (λ bytes. LiesIn (length bytes) slot.now) }
    ensures asks { OnlyAsks (V.view_of vault.old) (V.view_of vault.new) }
    ensures answered { IfOk result (λ _. (V.view_of vault.new).faults ≡ (V.view_of vault.old).faults) }
    ensures counted { IfErr result (λ e. Counts e (V.view_of vault.old).faults (V.view_of vault.new).faults) }
    ensures value { IfOk result (λ v. AtFile (V.view_of vault.old) file.now.id (λ bytes. v ≡ value_in bytes slot.now)) }
    ensures refused { IfErr result (λ e. RefusesRead e (V.view_of vault.old) (V.view_of vault.new)) }
{
    match *slot {
        Slot::Empty => part_of_record(file, alloc, vault, 0, 0, (at, place)),
        Slot::Full {
            at: from,
            key_size,
            value_size,
            ..
        } => part_of_record(
            file,
            alloc,
            vault,
            from + u64::from(key_size),
            value_size,
            (at, place),
        ),
    }
}
