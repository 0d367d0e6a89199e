//! What is read of an open file: entries of the directory, and the blocks of buckets.

ghost use Rattle.std.specs.Prelude.{◌≡◌, ◌⊎◌, ◌+◌, ◌*◌, ◌<◌, ◌≤◌, ◌^◌, true, false, length, IfOk, IfErr};
ghost use Rattle.gd_base.specs.Causes.{HasCause};
ghost use Rattle.gd_format.specs.Bucket as spec;
ghost use Rattle.gd_format.specs.Field.{bytes_at};
ghost use Rattle.gd_format.specs.File.{entries_of, entry_at};
ghost use Rattle.gd_format.specs.HeaderFault.{natural};
ghost use Rattle.gd_readable.specs.Asks.{Counts, IsIn};
ghost use Rattle.gd_readable.specs.Standing.{place_of};
ghost use Rattle.gd_vault.specs.Views.{HasFile, OnlyAsks};
ghost use Rattle.gd_open.specs.Files.{AtFile, OfFile};
ghost use Rattle.gd_open.specs.Open.{IsFit};
ghost use Rattle.gd_open.specs.Reading.{IsBucketPlace, ReadsEntries, RefusesRead};

use crate::file::OpenFile;
use gd_base::{DbError, Failed};
use gd_layout::{Bucket, LayoutError, Native, i64_from};
use gd_vault::{FileId, Vault};
use std::alloc::Global;

// Fills a buffer from a place on. Answers whether the file has as many bytes there.
fn fill<V: Vault>(vault: &mut V, f: FileId, at: u64, buf: &mut [u8]) -> Result<bool, Failed>
    requires file { HasFile (V.view_of vault.old) f.0 }
    ensures asks { OnlyAsks (V.view_of vault.old) (V.view_of vault.new) }
    ensures cause { HasCause (V.view_of vault.old).faults (V.view_of vault.new).faults result }
    ensures whole { IfOk result (λ all. AtFile (V.view_of vault.old) f.0 (λ file. at + length buf.old ≤ length file → all ≡ true)) }
    ensures read { IfOk result (λ _. AtFile (V.view_of vault.old) f.0 (λ file. at + length buf.old ≤ length file → buf.new ≡ bytes_at file at (length buf.old))) }
{
    let n = vault.read_at(f, at, buf)?;
    Ok(n == buf.len())
}

// The address, where the number is one.
fn address_from(entry: i64) -> Option<u64>
    ensures { result ≡ place_of entry }
{
    if entry < 0 {
        return None;
    }
    Some(entry.cast_unsigned())
}

// The bucket that a block spells, of which `at` is the address.
fn bucket_from(alloc: Global, block: &[u8], elems: u32, at: u64) -> Result<Bucket, DbError>
    requires room { 112 + 24 * elems ≤ length block.now }
    ensures bucket { IfOk result (λ b. b ≡ spec.bucket_at block.now elems) }
    ensures refused { IfErr result (λ e. (e ≡ DbError.OutOfMemory) ⊎ ((e ≡ DbError.BadBucket at) × (spec.is_bucket block.now elems ≡ false))) }
{
    match Native::read_bucket(alloc, block, elems) {
        Ok(bucket) => Ok(bucket),
        Err(LayoutError::Bad) => Err(DbError::BadBucket(at)),
        Err(LayoutError::OutOfMemory) => Err(DbError::OutOfMemory),
    }
}

impl OpenFile {
    /// Reads bytes from a place on, which may be any where none are wanted. Answers whether the file has them all.
    pub fn read_bytes<V: Vault>(
        &self,
        vault: &mut V,
        at: u64,
        into: &mut [u8],
    ) -> Result<bool, Failed>
        requires file { HasFile (V.view_of vault.old) self.now.id }
        ensures asks { OnlyAsks (V.view_of vault.old) (V.view_of vault.new) }
        ensures cause { HasCause (V.view_of vault.old).faults (V.view_of vault.new).faults result }
        ensures whole { IfOk result (λ all. AtFile (V.view_of vault.old) self.now.id (λ file. IsIn file at (length into.old) → all ≡ true)) }
        ensures read { IfOk result (λ _. AtFile (V.view_of vault.old) self.now.id (λ file. IsIn file at (length into.old) → into.new ≡ bytes_at file at (length into.old))) }
    {
        if into.is_empty() {
            return Ok(true);
        }
        let all = fill(vault, self.id, at, into)?;
        Ok(all)
    }

    /// Reads entries of the directory, from one on. Answers whether the file has them all.
    pub fn read_entries<V: Vault>(
        &self,
        vault: &mut V,
        first: u64,
        into: &mut [u8],
    ) -> Result<bool, Failed>
        requires file { HasFile (V.view_of vault.old) self.now.id }
        requires within { 8 * first + length into.old ≤ 8 * entries_of self.now.header }
        ensures asks { OnlyAsks (V.view_of vault.old) (V.view_of vault.new) }
        ensures cause { HasCause (V.view_of vault.old).faults (V.view_of vault.new).faults result }
        ensures whole { IfOk result (λ all. AtFile (V.view_of vault.old) self.now.id (λ file. self.now.header.dir + 8 * first + length into.old ≤ length file → all ≡ true)) }
        ensures read { IfOk result (λ _. AtFile (V.view_of vault.old) self.now.id (λ file. self.now.header.dir + 8 * first + length into.old ≤ length file → into.new ≡ bytes_at file (self.now.header.dir + 8 * first) (length into.old))) }
    {
        let all = fill(vault, self.id, self.header.dir + 8 * first, into)?;
        Ok(all)
    }

    /// The address at an entry of the directory.
    pub fn entry<V: Vault>(&self, vault: &mut V, i: u64) -> Result<u64, DbError>
        requires file { HasFile (V.view_of vault.old) self.now.id }
        requires readable { OfFile (V.view_of vault.old) self.now.id self.now.header }
        requires within { i < entries_of self.now.header }
        ensures asks { OnlyAsks (V.view_of vault.old) (V.view_of vault.new) }
        ensures answered { IfOk result (λ _. (V.view_of vault.new).faults ≡ (V.view_of vault.old).faults) }
        ensures counted { IfErr result (λ e. Counts e (V.view_of vault.old).faults (V.view_of vault.new).faults) }
        ensures address { IfOk result (λ at. AtFile (V.view_of vault.old) self.now.id (λ file. at ≡ natural (entry_at file self.now.header i))) }
        ensures place { IfOk result (λ at. AtFile (V.view_of vault.old) self.now.id (λ file. IsBucketPlace file self.now.header at)) }
        ensures refused { IfErr result (λ e. RefusesRead e (V.view_of vault.old) (V.view_of vault.new)) }
    {
        let mut bytes = [0; 8];
        let Ok(all) = fill(vault, self.id, self.header.dir + 8 * i, &mut bytes) else {
            return Err(DbError::VaultFault);
        };
        if !all {
            return Err(DbError::BadDirEntry(i));
        }
        match address_from(i64_from(&bytes, 0)) {
            Some(at) => Ok(at),
            None => Err(DbError::BadDirEntry(i)),
        }
    }

    /// Reads the block at the address of a bucket. `block` answers it.
    pub fn read_block<V: Vault>(&mut self, vault: &mut V, at: u64) -> Result<(), DbError>
        requires file { HasFile (V.view_of vault.old) self.old.id }
        requires readable { OfFile (V.view_of vault.old) self.old.id self.old.header }
        requires place { AtFile (V.view_of vault.old) self.old.id (λ file. IsBucketPlace file self.old.header at) }
        ensures asks { OnlyAsks (V.view_of vault.old) (V.view_of vault.new) }
        ensures answered { IfOk result (λ _. (V.view_of vault.new).faults ≡ (V.view_of vault.old).faults) }
        ensures counted { IfErr result (λ e. Counts e (V.view_of vault.old).faults (V.view_of vault.new).faults) }
        ensures same { self.new ≡ record self.old { block = self.new.block } }
        ensures fit { IsFit self.new }
        ensures block { IfOk result (λ _. AtFile (V.view_of vault.old) self.old.id (λ file. self.new.block ≡ bytes_at file at self.old.header.block)) }
        ensures refused { IfErr result (λ e. RefusesRead e (V.view_of vault.old) (V.view_of vault.new)) }
    {
        let Ok(all) = fill(vault, self.id, at, &mut self.block) else {
            return Err(DbError::VaultFault);
        };
        if !all {
            return Err(DbError::BadBucket(at));
        }
        Ok(())
    }

    /// Reads the bucket at an address. `block` answers its block.
    pub fn read_bucket<V: Vault>(
        &mut self,
        alloc: Global,
        vault: &mut V,
        at: u64,
    ) -> Result<Bucket, DbError>
        requires file { HasFile (V.view_of vault.old) self.old.id }
        requires readable { OfFile (V.view_of vault.old) self.old.id self.old.header }
        requires place { AtFile (V.view_of vault.old) self.old.id (λ file. IsBucketPlace file self.old.header at) }
        ensures asks { OnlyAsks (V.view_of vault.old) (V.view_of vault.new) }
        ensures answered { IfOk result (λ _. (V.view_of vault.new).faults ≡ (V.view_of vault.old).faults) }
        ensures counted { IfErr result (λ e. Counts e (V.view_of vault.old).faults (V.view_of vault.new).faults) }
        ensures same { self.new ≡ record self.old { block = self.new.block } }
        ensures fit { IsFit self.new }
        ensures slots { IfOk result (λ b. length b.slots ≡ self.old.header.elems) }
        ensures some { IfOk result (λ b. 0 < length b.slots) }
        ensures bucket { IfOk result (λ b. AtFile (V.view_of vault.old) self.old.id (λ file. b ≡ spec.bucket_at (bytes_at file at self.old.header.block) self.old.header.elems)) }
        ensures block { IfOk result (λ _. AtFile (V.view_of vault.old) self.old.id (λ file. self.new.block ≡ bytes_at file at self.old.header.block)) }
        ensures refused { IfErr result (λ e. RefusesRead e (V.view_of vault.old) (V.view_of vault.new)) }
    {
        self.read_block(vault, at)?;
        let elems = self.header().elems;
        let bucket = bucket_from(alloc, self.block(), elems, at)?;
        Ok(bucket)
    }

    /// The counts of the bucket at an address. Nothing else of its block is read.
    pub fn counts<V: Vault>(&self, vault: &mut V, at: u64) -> Result<gd_format::Counts, DbError>
        requires file { HasFile (V.view_of vault.old) self.now.id }
        requires readable { OfFile (V.view_of vault.old) self.now.id self.now.header }
        requires place { AtFile (V.view_of vault.old) self.now.id (λ file. IsBucketPlace file self.now.header at) }
        ensures asks { OnlyAsks (V.view_of vault.old) (V.view_of vault.new) }
        ensures answered { IfOk result (λ _. (V.view_of vault.new).faults ≡ (V.view_of vault.old).faults) }
        ensures counted { IfErr result (λ e. Counts e (V.view_of vault.old).faults (V.view_of vault.new).faults) }
        ensures counts { IfOk result (λ n. AtFile (V.view_of vault.old) self.now.id (λ file. n ≡ spec.counts_at (bytes_at file at 112))) }
        ensures refused { IfErr result (λ e. RefusesRead e (V.view_of vault.old) (V.view_of vault.new)) }
    {
        let mut head = [0; 112];
        let Ok(all) = fill(vault, self.id, at, &mut head) else {
            return Err(DbError::VaultFault);
        };
        if !all {
            return Err(DbError::BadBucket(at));
        }
        Ok(Native::counts(&head))
    }
}
