//! Room for one more record in a full bucket: splits and doublings, repeated until the bucket of a hash has an empty slot.
//!
//! While they are repeated, the header and its table stand in memory alone. The header's block is written once, at the end.

ghost use Rattle.std.specs.Prelude.{◌≡◌, ◌≢◌, ◌+◌, ◌-◌, ◌*◌, ◌/◌, ◌%◌, ◌^◌, ◌<◌, ◌≤◌, [], true, false, Some, length, IfOk, IfErr, OnOk, OnErr};
ghost use Rattle.gd_base.specs.Causes.{Rose};
ghost use Rattle.gd_base.specs.declared.errors.DbError.TheVariants as db;
ghost use Rattle.gd_bucket.specs.Splitting.{AreHalves, IsEmptyHalf};
ghost use Rattle.gd_format.specs.HeaderFault.{dir_size_of};
ghost use Rattle.gd_format.specs.Slots.{count, is_full};
ghost use Rattle.gd_map_laws.specs.Overflow.{is_close};
ghost use Rattle.gd_open.specs.Files.{FileBecomes};
ghost use Rattle.gd_open.specs.Open.{IsFit};
ghost use Rattle.gd_space.specs.Effect.{WritesAtMost, TellsNone};
ghost use Rattle.gd_update.specs.Growth.{Closes, DivisionWrites, IsDivided, IsGrown, IsRoomMade, IsWide, IsWider, run_size};
ghost use Rattle.gd_update.specs.GrowthRefusals.{is_growth_error};
ghost use Rattle.gd_update.specs.Halves.{next_bit};
ghost use Rattle.gd_update.specs.Held.{Holds, IsBucketOf, HasBucket};
ghost use Rattle.gd_update.specs.Open.{IsOpen};
ghost use Rattle.gd_update.specs.Steps.{Steps, IsNext, KeepsBuckets};
ghost use Rattle.gd_update.specs.declared.errors.UpdateError.TheVariants.{VaultFault};
ghost use Rattle.gd_vault.specs.Content.{File};
ghost use Rattle.gd_vault.specs.Views.{HasFile, IsAt};
ghost use Rattle.gd_vault.specs.Streams.{OnlyWrites};

use crate::doubling::double;
use crate::errors::UpdateError;
use crate::splitting::split_once;
use gd_base::DbError;
use gd_layout::{Bucket, full_count};
use gd_open::OpenFile;
use gd_vault::Vault;

/// Has a bucket no empty slot?
pub fn is_crowded(bucket: &Bucket) -> bool
    ensures yes { result ≡ true → count is_full bucket.now.slots ≡ length bucket.now.slots }
    ensures no { result ≡ false → count is_full bucket.now.slots < length bucket.now.slots }
{
    full_count(bucket.slots()) == bucket.slots().len()
}

// Is the next bit of a hash, after the first ones, a one?
fn is_high(bits: u32, hash: u32) -> bool
    requires { bits < 24 }
    ensures yes { result ≡ true → next_bit bits hash ≡ 1 }
    ensures no { result ≡ false → next_bit bits hash ≡ 0 }
{
    hash >> (30 - bits) & 1 == 1
}

// Takes that one of the two halves of a bucket in which a hash belongs, by its next bit. Answers its address: `at` of the
// first, `other` of the second.
fn take_half(
    hash: u32,
    at: u64,
    other: u64,
    bucket: &mut Bucket,
    first: &mut Bucket,
    second: &mut Bucket,
) -> u64
    requires bits { bucket.old.bits < 24 }
    requires halves { AreHalves bucket.old first.old second.old }
    ensures low { next_bit bucket.old.bits hash ≡ 0 → (result ≡ at) × (bucket.new ≡ first.old) }
    ensures high { next_bit bucket.old.bits hash ≡ 1 → (result ≡ other) × (bucket.new ≡ second.old) }
    ensures one_more { bucket.new.bits ≡ bucket.old.bits + 1 }
    ensures close { count (is_close hash) bucket.new.slots ≤ count (is_close hash) bucket.old.slots }
    ensures elems { length bucket.new.slots ≡ length bucket.old.slots }
    ensures first { length first.new.slots ≡ length bucket.old.slots }
    ensures second { length second.new.slots ≡ length bucket.old.slots }
{
    if is_high(bucket.bits(), hash) {
        std::mem::swap(bucket, second);
        return other;
    }
    std::mem::swap(bucket, first);
    at
}

// Doubles the directory where it has no more bits than a bucket. The space goes by the free extents of `loose`.
#[tactic(auto, using(gd_vault::proofs::Writes::writes))]
fn widen<V: Vault>(
    file: &mut OpenFile,
    vault: &mut V,
    bits: u32,
    loose: &mut Bucket,
) -> Result<(), UpdateError>
    requires file { HasFile (V.view_of vault.old) file.old.id }
    requires fit { IsFit file.old }
    requires spare { bits < 24 }
    requires within { bits ≤ file.old.header.dir_bits }
    requires room { file.old.header.next_block + 6 * file.old.header.block ≤ 2 ^ 46 }
    requires wide { file.old.header.dir_bits < 24 → file.old.header.next_block + 2 * dir_size_of file.old.header.dir_bits + 6 * file.old.header.block ≤ 2 ^ 46 }
    requires holds { Holds (V.view_of vault.old) file.old.id file.old.header file.old.table.next_block file.old.table.extents loose.old.free }
    ensures steps { OnOk result (Steps (V.view_of vault.old) (V.view_of vault.new) file.old.id file.old.header file.new.header file.old.table.next_block file.new.table.next_block file.old.table.extents loose.old.free file.new.table.extents loose.new.free 64 (λ bytes. KeepsBuckets (V.view_of vault.old) file.old.id file.old.header bytes file.new.header)) }
    ensures wider { IsWider file.old.header file.new.header }
    ensures widened { OnOk result (IsWide bits file.old.header file.new.header) }
    ensures room { OnOk result (file.new.header.next_block + 3 * file.old.header.block ≤ 2 ^ 46) }
    ensures bits { loose.new.bits ≡ loose.old.bits }
    ensures slots { loose.new.slots ≡ loose.old.slots }
    ensures same_room { file.new.table.room ≡ file.old.table.room }
    ensures there { HasFile (V.view_of vault.new) file.new.id }
    ensures fit { IsFit file.new }
    ensures id { file.new.id ≡ file.old.id }
    ensures frame { OnlyWrites file.old.id (V.view_of vault.old) (V.view_of vault.new) }
    ensures amount { WritesAtMost (file.old.header.block + 32 + 2 * dir_size_of file.old.header.dir_bits) (V.view_of vault.old) (V.view_of vault.new) }
    ensures little { OnOk result (WritesAtMost (file.old.header.block + 32 + 2 * (dir_size_of file.new.header.dir_bits - dir_size_of file.old.header.dir_bits)) (V.view_of vault.old) (V.view_of vault.new)) }
    ensures fault { IfErr result (λ e. e ≡ VaultFault → Rose (V.view_of vault.old).faults (V.view_of vault.new).faults) }
    ensures answered { OnOk result ((V.view_of vault.new).faults ≡ (V.view_of vault.old).faults) }
    ensures once { OnErr result ((V.view_of vault.new).faults ≤ (V.view_of vault.old).faults + 1) }
    ensures counted { IfErr result (λ e. e ≢ VaultFault → (V.view_of vault.new).faults ≡ (V.view_of vault.old).faults) }
    ensures told { IfErr result (λ e. e ≢ VaultFault → TellsNone (V.view_of vault.old)) }
{
    if bits < file.header().dir_bits {
        return Ok(());
    }
    double(file, vault, loose)?;
    Ok(())
}

// Divides a bucket, which stands at `at`, between `first` and `second`, two empty buckets with one bit more. Doubles the
// directory before, where it has no more bits than the bucket. Answers the address of the second.
#[tactic(auto, using(gd_vault::proofs::Writes::writes))]
fn divide<V: Vault>(
    file: &mut OpenFile,
    vault: &mut V,
    hash: u32,
    at: u64,
    bucket: &Bucket,
    first: &mut Bucket,
    second: &mut Bucket,
) -> Result<u64, UpdateError>
    requires file { HasFile (V.view_of vault.old) file.old.id }
    requires fit { IsFit file.old }
    requires elems { length bucket.now.slots ≡ file.old.header.elems }
    requires hash { hash < 2 ^ 31 }
    requires spare { bucket.now.bits < 24 }
    requires within { bucket.now.bits ≤ file.old.header.dir_bits }
    requires first { IsEmptyHalf bucket.now first.old }
    requires second { IsEmptyHalf bucket.now second.old }
    requires first_none { first.old.free ≡ [] }
    requires second_none { second.old.free ≡ [] }
    requires room { file.old.header.next_block + 6 * file.old.header.block ≤ 2 ^ 46 }
    requires wide { file.old.header.dir_bits < 24 → file.old.header.next_block + 2 * dir_size_of file.old.header.dir_bits + 6 * file.old.header.block ≤ 2 ^ 46 }
    requires holds { Holds (V.view_of vault.old) file.old.id file.old.header file.old.table.next_block file.old.table.extents [] }
    requires bucket { HasBucket (V.view_of vault.old) file.old.id file.old.header hash at bucket.now }
    ensures steps { IfOk result (λ other. Steps (V.view_of vault.old) (V.view_of vault.new) file.old.id file.old.header file.new.header file.old.table.next_block file.new.table.next_block file.old.table.extents [] file.new.table.extents [] 96 (λ bytes. IsNext bytes file.new.header hash at other bucket.now.bits first.new second.new)) }
    ensures halves { OnOk result (AreHalves bucket.now first.new second.new) }
    ensures wider { IsWider file.old.header file.new.header }
    ensures divided { OnOk result (IsDivided file.old.header file.new.header) }
    ensures same_room { file.new.table.room ≡ file.old.table.room }
    ensures there { HasFile (V.view_of vault.new) file.new.id }
    ensures fit { IsFit file.new }
    ensures id { file.new.id ≡ file.old.id }
    ensures frame { OnlyWrites file.old.id (V.view_of vault.old) (V.view_of vault.new) }
    ensures amount { WritesAtMost (4 * file.old.header.block + 2 * dir_size_of file.old.header.dir_bits + run_size file.old.header bucket.now.bits) (V.view_of vault.old) (V.view_of vault.new) }
    ensures little { OnOk result (DivisionWrites file.old.header file.new.header bucket.now.bits (V.view_of vault.old) (V.view_of vault.new)) }
    ensures fault { IfErr result (λ e. e ≡ VaultFault → Rose (V.view_of vault.old).faults (V.view_of vault.new).faults) }
    ensures answered { OnOk result ((V.view_of vault.new).faults ≡ (V.view_of vault.old).faults) }
    ensures once { OnErr result ((V.view_of vault.new).faults ≤ (V.view_of vault.old).faults + 1) }
    ensures counted { IfErr result (λ e. e ≢ VaultFault → (V.view_of vault.new).faults ≡ (V.view_of vault.old).faults) }
    ensures told { IfErr result (λ e. e ≢ VaultFault → TellsNone (V.view_of vault.old)) }
{
    widen(file, vault, bucket.bits(), second)?;
    let other = split_once(file, vault, hash, at, bucket, first, second)?;
    Ok(other)
}

// Divides the full bucket of a hash, which stands at `at`, and takes the half of the hash as `bucket`. Answers its address.
//
// A full bucket without a bit to spare, or with more bits than the directory, is answered by `BadBucket`: none comes where
// the content is told. After an error the header is the one that it was.
#[tactic(auto, using(gd_vault::proofs::Writes::writes))]
fn split_round<V: Vault>(
    file: &mut OpenFile,
    vault: &mut V,
    hash: u32,
    at: u64,
    bucket: &mut Bucket,
    first: &mut Bucket,
    second: &mut Bucket,
) -> Result<u64, DbError>
    requires file { HasFile (V.view_of vault.old) file.old.id }
    requires fit { IsFit file.old }
    requires hash { hash < 2 ^ 31 }
    requires elems { length bucket.old.slots ≡ file.old.header.elems }
    requires first { length first.old.slots ≡ file.old.header.elems }
    requires second { length second.old.slots ≡ file.old.header.elems }
    requires full { count is_full bucket.old.slots ≡ file.old.header.elems }
    requires few { count (is_close hash) bucket.old.slots < file.old.header.elems }
    requires room { file.old.header.next_block + 6 * file.old.header.block ≤ 2 ^ 46 }
    requires wide { file.old.header.dir_bits < 24 → file.old.header.next_block + 2 * dir_size_of file.old.header.dir_bits + 6 * file.old.header.block ≤ 2 ^ 46 }
    requires holds { Holds (V.view_of vault.old) file.old.id file.old.header file.old.table.next_block file.old.table.extents [] }
    requires bucket { HasBucket (V.view_of vault.old) file.old.id file.old.header hash at bucket.old }
    ensures steps { IfOk result (λ place. Steps (V.view_of vault.old) (V.view_of vault.new) file.old.id file.old.header file.new.header file.old.table.next_block file.new.table.next_block file.old.table.extents [] file.new.table.extents [] 96 (λ bytes. IsBucketOf bytes file.new.header hash place bucket.new)) }
    ensures one_more { OnOk result (bucket.new.bits ≡ bucket.old.bits + 1) }
    ensures most { OnOk result (bucket.new.bits ≤ 24) }
    ensures close { OnOk result (count (is_close hash) bucket.new.slots < file.old.header.elems) }
    ensures divided { OnOk result (IsDivided file.old.header file.new.header) }
    ensures kept { OnErr result (file.new.header ≡ file.old.header) }
    ensures same_room { file.new.table.room ≡ file.old.table.room }
    ensures elems { length bucket.new.slots ≡ file.old.header.elems }
    ensures first { OnOk result (length first.new.slots ≡ file.old.header.elems) }
    ensures second { OnOk result (length second.new.slots ≡ file.old.header.elems) }
    ensures there { HasFile (V.view_of vault.new) file.new.id }
    ensures fit { IsFit file.new }
    ensures id { file.new.id ≡ file.old.id }
    ensures frame { OnlyWrites file.old.id (V.view_of vault.old) (V.view_of vault.new) }
    ensures amount { WritesAtMost (4 * file.old.header.block + 2 * dir_size_of file.old.header.dir_bits + run_size file.old.header bucket.old.bits) (V.view_of vault.old) (V.view_of vault.new) }
    ensures little { OnOk result (DivisionWrites file.old.header file.new.header bucket.old.bits (V.view_of vault.old) (V.view_of vault.new)) }
    ensures fault { IfErr result (λ e. e ≡ db.VaultFault → Rose (V.view_of vault.old).faults (V.view_of vault.new).faults) }
    ensures answered { OnOk result ((V.view_of vault.new).faults ≡ (V.view_of vault.old).faults) }
    ensures once { OnErr result ((V.view_of vault.new).faults ≤ (V.view_of vault.old).faults + 1) }
    ensures counted { IfErr result (λ e. e ≢ db.VaultFault → (V.view_of vault.new).faults ≡ (V.view_of vault.old).faults) }
    ensures told { IfErr result (λ e. e ≢ db.VaultFault → TellsNone (V.view_of vault.old)) }
    ensures which { IfErr result (λ e. is_growth_error e ≡ true) }
{
    let before = *file.header();
    let bits = bucket.bits();
    if bits >= 24 || bits > before.dir_bits {
        return Err(DbError::BadBucket(at));
    }
    first.clear(bits + 1);
    second.clear(bits + 1);
    match divide(file, vault, hash, at, bucket, first, second) {
        Ok(other) => Ok(take_half(hash, at, other, bucket, first, second)),
        Err(e) => {
            file.restore(&before);
            Err(DbError::from(e))
        }
    }
}

// Writes the header's block with its table, and nothing else. Then the file by itself is sound.
#[tactic(auto, using(gd_vault::proofs::Writes::writes))]
fn write_front<V: Vault>(file: &mut OpenFile, vault: &mut V) -> Result<(), UpdateError>
    requires file { HasFile (V.view_of vault.old) file.old.id }
    requires fit { IsFit file.old }
    requires holds { Holds (V.view_of vault.old) file.old.id file.old.header file.old.table.next_block file.old.table.extents [] }
    ensures closes { OnOk result (Closes (V.view_of vault.old) (V.view_of vault.new) file.old.id file.old.header file.old.table) }
    ensures same { file.new ≡ record file.old { block = file.new.block } }
    ensures there { HasFile (V.view_of vault.new) file.new.id }
    ensures fit { IsFit file.new }
    ensures id { file.new.id ≡ file.old.id }
    ensures frame { OnlyWrites file.old.id (V.view_of vault.old) (V.view_of vault.new) }
    ensures amount { WritesAtMost file.old.header.block (V.view_of vault.old) (V.view_of vault.new) }
    ensures error { IfErr result (λ e. e ≡ VaultFault) }
    ensures fault { OnErr result (Rose (V.view_of vault.old).faults (V.view_of vault.new).faults) }
    ensures answered { OnOk result ((V.view_of vault.new).faults ≡ (V.view_of vault.old).faults) }
    ensures once { OnErr result ((V.view_of vault.new).faults ≤ (V.view_of vault.old).faults + 1) }
{
    file.write_header(vault)?;
    Ok(())
}

// Splits while the bucket of a hash is full. The header's block is not written.
#[tactic(auto, using(gd_vault::proofs::Writes::writes))]
fn grow<V: Vault>(
    file: &mut OpenFile,
    vault: &mut V,
    hash: u32,
    from: u64,
    bucket: &mut Bucket,
    first: &mut Bucket,
    second: &mut Bucket,
) -> Result<u64, DbError>
    requires file { HasFile (V.view_of vault.old) file.old.id }
    requires fit { IsFit file.old }
    requires hash { hash < 2 ^ 31 }
    requires elems { length bucket.old.slots ≡ file.old.header.elems }
    requires first { length first.old.slots ≡ file.old.header.elems }
    requires second { length second.old.slots ≡ file.old.header.elems }
    requires few { count (is_close hash) bucket.old.slots < file.old.header.elems }
    requires room { file.old.header.next_block + 2 ^ 29 ≤ 2 ^ 46 }
    requires open { IsAt (V.view_of vault.old) (λ c. (x : File) → c.files file.old.id ≡ Some x → IsOpen x.bytes file.old.header file.old.table) }
    requires bucket { HasBucket (V.view_of vault.old) file.old.id file.old.header hash from bucket.old }
    ensures grown { IfOk result (λ at. FileBecomes (V.view_of vault.old) (V.view_of vault.new) file.old.id (λ xs ys. IsGrown xs ys file.new.header file.new.table hash at bucket.new)) }
    ensures empty { OnOk result (count is_full bucket.new.slots < file.old.header.elems) }
    ensures growth { file.new.header.next_block + 2 * dir_size_of file.old.header.dir_bits ≤ file.old.header.next_block + 144 * file.old.header.block + 2 * dir_size_of file.new.header.dir_bits }
    ensures header { IsWider file.old.header file.new.header }
    ensures same_room { file.new.table.room ≡ file.old.table.room }
    ensures elems { length bucket.new.slots ≡ file.old.header.elems }
    ensures there { HasFile (V.view_of vault.new) file.new.id }
    ensures fit { IsFit file.new }
    ensures id { file.new.id ≡ file.old.id }
    ensures frame { OnlyWrites file.old.id (V.view_of vault.old) (V.view_of vault.new) }
    ensures amount { WritesAtMost (100 * file.old.header.block + 4 * dir_size_of file.new.header.dir_bits) (V.view_of vault.old) (V.view_of vault.new) }
    ensures little { OnOk result (WritesAtMost (96 * file.old.header.block + 2 * dir_size_of file.new.header.dir_bits) (V.view_of vault.old) (V.view_of vault.new)) }
    ensures fault { IfErr result (λ e. e ≡ db.VaultFault → Rose (V.view_of vault.old).faults (V.view_of vault.new).faults) }
    ensures answered { OnOk result ((V.view_of vault.new).faults ≡ (V.view_of vault.old).faults) }
    ensures once { OnErr result ((V.view_of vault.new).faults ≤ (V.view_of vault.old).faults + 1) }
    ensures counted { IfErr result (λ e. e ≢ db.VaultFault → (V.view_of vault.new).faults ≡ (V.view_of vault.old).faults) }
    ensures told { IfErr result (λ e. e ≢ db.VaultFault → TellsNone (V.view_of vault.old)) }
    ensures which { IfErr result (λ e. is_growth_error e ≡ true) }
{
    let mut at = from;
    while is_crowded(bucket) {
        at = split_round(file, vault, hash, at, bucket, first, second)?;
    }
    Ok(at)
}

/// Splits the full bucket of a hash, which stands at `at`, and doubles the directory where the bits are equal, until the
/// bucket of the hash has an empty slot. Answers its address; `bucket` is that bucket then.
///
/// `first` and `second` have as many slots as `bucket`, whatever they hold, and are left with any. No memory is taken. The
/// caller has seen that not all slots of the bucket have hashes with the first 24 bits of the hash. `BadAvail`,
/// `BadDirEntry` and `BadBucket` come only over a vault that does not tell its content.
#[tactic(auto, using(gd_vault::proofs::Writes::writes))]
pub fn make_room<V: Vault>(
    file: &mut OpenFile,
    vault: &mut V,
    hash: u32,
    at: u64,
    bucket: &mut Bucket,
    first: &mut Bucket,
    second: &mut Bucket,
) -> Result<u64, DbError>
    requires file { HasFile (V.view_of vault.old) file.old.id }
    requires hash { hash < 2 ^ 31 }
    requires elems { length bucket.old.slots ≡ file.old.header.elems }
    requires first { length first.old.slots ≡ file.old.header.elems }
    requires second { length second.old.slots ≡ file.old.header.elems }
    requires few { count (is_close hash) bucket.old.slots < file.old.header.elems }
    requires room { file.old.header.next_block + 2 ^ 29 ≤ 2 ^ 46 }
    requires open { IsAt (V.view_of vault.old) (λ c. (x : File) → c.files file.old.id ≡ Some x → IsOpen x.bytes file.old.header file.old.table) }
    requires bucket { HasBucket (V.view_of vault.old) file.old.id file.old.header hash at bucket.old }
    ensures made { IfOk result (λ place. FileBecomes (V.view_of vault.old) (V.view_of vault.new) file.old.id (λ xs ys. IsRoomMade xs ys file.new.header file.new.table hash place bucket.new)) }
    ensures empty { OnOk result (count is_full bucket.new.slots < file.new.header.elems) }
    ensures growth { file.new.header.next_block + 2 * dir_size_of file.old.header.dir_bits ≤ file.old.header.next_block + 144 * file.old.header.block + 2 * dir_size_of file.new.header.dir_bits }
    ensures bound { file.new.header.next_block ≤ file.old.header.next_block + (2 ^ 29 - 2 ^ 25) }
    ensures header { IsWider file.old.header file.new.header }
    ensures same_room { file.new.table.room ≡ file.old.table.room }
    ensures elems { length bucket.new.slots ≡ file.new.header.elems }
    ensures there { HasFile (V.view_of vault.new) file.new.id }
    ensures fit { IsFit file.new }
    ensures id { file.new.id ≡ file.old.id }
    ensures frame { OnlyWrites file.old.id (V.view_of vault.old) (V.view_of vault.new) }
    ensures amount { WritesAtMost (100 * file.old.header.block + 4 * dir_size_of file.new.header.dir_bits) (V.view_of vault.old) (V.view_of vault.new) }
    ensures little { OnOk result (WritesAtMost (97 * file.old.header.block + 2 * dir_size_of file.new.header.dir_bits) (V.view_of vault.old) (V.view_of vault.new)) }
    ensures fault { IfErr result (λ e. e ≡ db.VaultFault → Rose (V.view_of vault.old).faults (V.view_of vault.new).faults) }
    ensures answered { OnOk result ((V.view_of vault.new).faults ≡ (V.view_of vault.old).faults) }
    ensures once { OnErr result ((V.view_of vault.new).faults ≤ (V.view_of vault.old).faults + 1) }
    ensures counted { IfErr result (λ e. e ≢ db.VaultFault → (V.view_of vault.new).faults ≡ (V.view_of vault.old).faults) }
    ensures told { IfErr result (λ e. e ≢ db.VaultFault → TellsNone (V.view_of vault.old)) }
    ensures which { IfErr result (λ e. is_growth_error e ≡ true) }
{
    // the parts of an open file are fit
    let _header = file.header();
    let place = grow(file, vault, hash, at, bucket, first, second)?;
    write_front(file, vault)?;
    Ok(place)
}
