//! Reading and writing the block of a bucket.

ghost use Rattle.std.specs.Prelude.{◌≡◌, ◌+◌, ◌<◌, ◌^◌, ◌≤◌, Some, length, max, IfOk, IfErr, OnOk};
ghost use Rattle.gd_format.specs.Field.{bytes_at};
ghost use Rattle.gd_format.specs.HeaderFault.{slots_of};
ghost use Rattle.gd_vault.specs.Content.{File};
ghost use Rattle.gd_vault.specs.Views.{HasFile, IsAt, OnlyAsks};
ghost use Rattle.gd_cache.specs.Blocks.{IsBucketOf, IsCause, IsOfBytes, ReadsBlock, SpellsBucket, WritesBucket};

use crate::errors::CacheError;
use gd_base::Failed;
use gd_layout::{Bucket, LayoutError, Native};
use gd_vault::{FileId, Vault};
use std::alloc::Global;

/// How many slots a bucket of a block has.
fn slots_in(block: u32) -> u32
    requires { 512 ≤ block }
    ensures { result ≡ slots_of block }
{
    (block - 112) / 24
}

/// Fills the buffer with the block at an address.
fn read_block<V: Vault>(vault: &mut V, f: FileId, at: u64, buf: &mut [u8]) -> Result<(), CacheError>
    requires file { HasFile (V.view_of vault.old) f.0 }
    requires some { 0 < length buf.old }
    ensures asks { OnlyAsks (V.view_of vault.old) (V.view_of vault.new) }
    ensures answered { OnOk result ((V.view_of vault.new).faults ≡ (V.view_of vault.old).faults) }
    ensures inside { OnOk result (IsOfBytes (V.view_of vault.old) f.0 (λ file. at + length buf.old ≤ length file)) }
    ensures block { OnOk result (IsOfBytes (V.view_of vault.old) f.0 (λ file. buf.new ≡ bytes_at file at (length buf.old))) }
    ensures reads { OnOk result (ReadsBlock f.0 (length buf.old) at (V.view_of vault.old) (V.view_of vault.new)) }
    ensures refused { IfErr result (λ e. IsCause e f.0 (length buf.old) at (V.view_of vault.old) (V.view_of vault.new)) }
{
    let Ok(count) = vault.read_at(f, at, buf) else {
        return Err(CacheError::VaultFault);
    };
    if count < buf.len() {
        return Err(CacheError::BadBucket(at));
    }
    Ok(())
}

/// Reads the bucket at an address, by way of a buffer of one block.
pub fn read_bucket<V: Vault>(
    alloc: Global,
    vault: &mut V,
    f: FileId,
    at: u64,
    buf: &mut [u8],
) -> Result<Bucket, CacheError>
    requires file { HasFile (V.view_of vault.old) f.0 }
    requires least { 512 ≤ length buf.old }
    requires most { length buf.old ≤ 1048576 }
    ensures asks { OnlyAsks (V.view_of vault.old) (V.view_of vault.new) }
    ensures answered { OnOk result ((V.view_of vault.new).faults ≡ (V.view_of vault.old).faults) }
    ensures bucket { IfOk result (λ b. IsOfBytes (V.view_of vault.old) f.0 (λ file. IsBucketOf file (length buf.old) at b)) }
    ensures slots { IfOk result (λ b. length b.slots ≡ slots_of (length buf.old)) }
    ensures reads { OnOk result (ReadsBlock f.0 (length buf.old) at (V.view_of vault.old) (V.view_of vault.new)) }
    ensures refused { IfErr result (λ e. IsCause e f.0 (length buf.old) at (V.view_of vault.old) (V.view_of vault.new)) }
{
    read_block(vault, f, at, buf)?;
    match Native::read_bucket(alloc, buf, slots_in(buf.len() as u32)) {
        Ok(bucket) => Ok(bucket),
        Err(LayoutError::Bad) => Err(CacheError::BadBucket(at)),
        Err(LayoutError::OutOfMemory) => Err(CacheError::OutOfMemory),
    }
}

/// Puts a bucket into a buffer of one block.
pub fn spell(bucket: &Bucket, buf: &mut [u8])
    requires least { 512 ≤ length buf.old }
    requires most { length buf.old ≤ 1048576 }
    requires slots { length bucket.now.slots ≡ slots_of (length buf.old) }
    ensures { SpellsBucket (length buf.old) bucket.now buf.new }
{
    Native::write_bucket(bucket, buf);
}
