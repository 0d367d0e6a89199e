//! One split of a bucket.

ghost use Rattle.std.specs.Prelude.{◌≡◌, ◌≢◌, ◌+◌, ◌-◌, ◌*◌, ◌/◌, ◌^◌, ◌<◌, ◌≤◌, ℕ, [], length, IfOk, IfErr, OnOk, OnErr};
ghost use Rattle.gd_base.specs.Causes.{Rose};
ghost use Rattle.gd_bucket.specs.Splitting.{AreHalves, IsEmptyHalf};
ghost use Rattle.gd_open.specs.Open.{IsFit};
ghost use Rattle.gd_space.specs.Effect.{WritesAtMost, TellsNone};
ghost use Rattle.gd_update.specs.Held.{Holds, HasBucket};
ghost use Rattle.gd_update.specs.Halves.{next_bit};
ghost use Rattle.gd_update.specs.SplitLaws.{half_of, half_start};
ghost use Rattle.gd_update.specs.Steps.{Steps, IsNext};
ghost use Rattle.gd_update.specs.declared.errors.UpdateError.TheVariants.{VaultFault, BadDirEntry};
ghost use Rattle.gd_vault.specs.Views.{HasFile};
ghost use Rattle.gd_vault.specs.Streams.{OnlyWrites};

use crate::errors::UpdateError;
use crate::rooms::take_room;
use crate::runs::point_run;
use gd_bucket::divide;
use gd_format::Header;
use gd_layout::Bucket;
use gd_open::OpenFile;
use gd_vault::Vault;

// How many entries the half of a run has.
fn half_entries(header: &Header, bits: u32) -> u64
    requires less { bits < header.now.dir_bits }
    requires most { header.now.dir_bits ≤ 24 }
    ensures is { result ≡ half_of header.now bits }
    ensures few { result ≤ 2 ^ 24 }
{
    1u64 << (header.dir_bits - (bits + 1))
}

// The first entry of the half of a run that gets the second bucket.
fn start_of(header: &Header, hash: u32, bits: u32) -> u64
    requires small { hash < 2 ^ 31 }
    requires less { bits < header.now.dir_bits }
    requires most { header.now.dir_bits ≤ 24 }
    ensures is { result ≡ half_start header.now hash bits }
    ensures within { result + half_of header.now bits ≤ 2 ^ header.now.dir_bits }
{
    (2 * u64::from(hash >> (31 - bits)) + 1) * half_entries(header, bits)
}

/// Splits the bucket of a hash, which has fewer bits than the directory and stands at `at`, by the next bit of its hashes.
/// Answers the address of the second bucket; the first keeps the old one, and the free extents.
///
/// `first` and `second` are empty buckets with one bit more. The free extents of `second` are loose ones, in no block yet:
/// the space goes by them, and they stand in its block then. The header's block is not written: the caller does that.
#[tactic(auto, using(gd_vault::proofs::Writes::writes))]
pub fn split_once<V: Vault>(
    file: &mut OpenFile,
    vault: &mut V,
    hash: u32,
    at: u64,
    bucket: &Bucket,
    first: &mut Bucket,
    second: &mut Bucket,
) -> Result<u64, UpdateError>
    requires file { HasFile (V.view_of vault.old) file.old.id }
    requires elems { length bucket.now.slots ≡ file.old.header.elems }
    requires hash { hash < 2 ^ 31 }
    requires bits { bucket.now.bits < file.old.header.dir_bits }
    requires first { IsEmptyHalf bucket.now first.old }
    requires second { IsEmptyHalf bucket.now second.old }
    requires none { first.old.free ≡ [] }
    requires room { file.old.header.next_block + 3 * file.old.header.block ≤ 2 ^ 46 }
    requires holds { Holds (V.view_of vault.old) file.old.id file.old.header file.old.table.next_block file.old.table.extents second.old.free }
    requires bucket { HasBucket (V.view_of vault.old) file.old.id file.old.header hash at bucket.now }
    ensures steps { IfOk result (λ other. Steps (V.view_of vault.old) (V.view_of vault.new) file.old.id file.old.header file.new.header file.old.table.next_block file.new.table.next_block file.old.table.extents second.old.free file.new.table.extents [] 32 (λ bytes. IsNext bytes file.new.header hash at other bucket.now.bits first.new second.new)) }
    ensures holds { OnOk result (Holds (V.view_of vault.new) file.old.id file.new.header file.new.table.next_block file.new.table.extents []) }
    ensures low_bucket { IfOk result (λ other. next_bit bucket.now.bits hash ≡ 0 → HasBucket (V.view_of vault.new) file.old.id file.new.header hash at first.new) }
    ensures high_bucket { IfOk result (λ other. next_bit bucket.now.bits hash ≡ 1 → HasBucket (V.view_of vault.new) file.old.id file.new.header hash other second.new) }
    ensures halves { OnOk result (AreHalves bucket.now first.new second.new) }
    ensures first_free { OnOk result (first.new.free ≡ bucket.now.free) }
    ensures low { IfOk result (λ other. other ≤ 2 ^ 62) }
    ensures header { file.new.header ≡ record file.old.header { next_block = file.new.header.next_block } }
    ensures growth { OnOk result (file.new.header.next_block < file.old.header.next_block + 3 * file.old.header.block) }
    ensures same_room { file.new.table.room ≡ file.old.table.room }
    ensures there { HasFile (V.view_of vault.new) file.new.id }
    ensures fit { IsFit file.new }
    ensures id { file.new.id ≡ file.old.id }
    ensures frame { OnlyWrites file.old.id (V.view_of vault.old) (V.view_of vault.new) }
    ensures amount { WritesAtMost (2 * file.old.header.block + (file.old.header.block / 2 + 16) + 8 * half_of file.old.header bucket.now.bits) (V.view_of vault.old) (V.view_of vault.new) }
    ensures fault { IfErr result (λ e. e ≡ VaultFault → Rose (V.view_of vault.old).faults (V.view_of vault.new).faults) }
    ensures answered { OnOk result ((V.view_of vault.new).faults ≡ (V.view_of vault.old).faults) }
    ensures once { OnErr result ((V.view_of vault.new).faults ≤ (V.view_of vault.old).faults + 1) }
    ensures counted { IfErr result (λ e. e ≢ VaultFault → (V.view_of vault.new).faults ≡ (V.view_of vault.old).faults) }
    ensures entry { IfErr result (λ e. (i : ℕ) → e ≢ BadDirEntry i) }
    ensures told { IfErr result (λ e. e ≢ VaultFault → TellsNone (V.view_of vault.old)) }
{
    let bits = bucket.bits();
    let header = *file.header();
    let half = half_entries(&header, bits);
    let start = start_of(&header, hash, bits);
    let other = take_room(file, vault, second, header.block)?;
    divide(bucket, first, second);
    file.write_bucket(vault, other, second)?;
    file.write_bucket(vault, at, first)?;
    point_run(file, vault, header.dir + 8 * start, half, other)?;
    Ok(other)
}
