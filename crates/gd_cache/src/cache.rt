//! The cache and its calls.

ghost use Rattle.std.specs.Prelude.{◌≡◌, ◌≢◌, ◌⊎◌, ◌^◌, ◌<◌, ◌≤◌, ℕ, [], Some, Err, true, false, length, take, max, IfOk, IfErr, IfSome, OnOk, OnErr, IsOk, IsSome, is_some};
ghost use Rattle.std.specs.Option.{option_copied};
ghost use Rattle.gd_format.specs.HeaderFault.{slots_of};
ghost use Rattle.gd_vault.specs.Content.{File};
ghost use Rattle.gd_vault.specs.Streams.{OnlyWrites};
ghost use Rattle.gd_vault.specs.Views.{HasFile, IsAt, OnlyAsks};
ghost use Rattle.gd_cache.specs.Blocks.{IsCause, ReadsBlock, WritesBucket};
ghost use Rattle.gd_cache.specs.Cached.{Agrees, IsAlone, KeepsOthers, KeepsSome, addresses, held, is_listed, used, without};
ghost use Rattle.gd_cache.specs.declared.errors.CacheError.TheVariants.{OutOfMemory as NoMemory, VaultFault};

use crate::blocks::{read_bucket, spell};
use crate::errors::CacheError;
use crate::kept::{forget, keep, size_of_list, touch};
use gd_base::{Failed, OutOfMemory};
use gd_layout::Bucket;
use gd_vault::{FileId, Vault};
use lru::LruCache;
use std::alloc::Global;
use std::marker::Model;

/// The buckets of one file that were used last, by the addresses of their blocks, and room for one block.
///
/// Contracts see its entries, the most recently used first, how many there may be, and the size of a block. It doesn't
/// own its vault. Each call that needs one is given the vault in which the file is.
#[derive(Drop)]
pub struct Cache {
    alloc: Global,
    kept: LruCache<u64, Bucket>,
    buf: Vec<u8>,
    block: u32,
}

impl Model for Cache {
    ghost use Rattle.std.specs.Prelude.{length};
    ghost use Rattle.gd_cache.specs.Cached.{Cached, FitsCache};

    ghost Value = { Cached };

    ghost view = { λ c. record { entries = c.kept.entries; size = c.kept.cap; block = c.block } };

    ghost invariant = { λ c. FitsCache c.kept.entries c.kept.cap c.block (length c.buf.items) };
}

impl Cache {
    /// An empty cache of at most `size` buckets, of a file whose blocks have `block` bytes.
    pub fn new(alloc: Global, size: u32, block: u32) -> Result<Cache, OutOfMemory>
        requires some { 0 < size }
        requires least { 512 ≤ block }
        requires most { block ≤ 1048576 }
        ensures { IfOk result (λ c. c ≡ record { entries = []; size = size; block = block }) }
    {
        let Ok(buf) = vec![in alloc; 0u8; block as usize] else {
            return Err(OutOfMemory);
        };
        let Ok(kept) = LruCache::sparse(alloc, size_of_list(size)) else {
            return Err(OutOfMemory);
        };
        Ok(Cache {
            alloc,
            kept,
            buf,
            block,
        })
    }

    /// How many buckets it keeps.
    pub fn len(&self) -> u32
        ensures is { result ≡ length (addresses self.now.entries) }
        ensures most { result ≤ self.now.size }
    {
        self.kept.len() as u32
    }

    /// The bucket that is kept of an address. This is no use of it.
    pub fn get(&self, at: u64) -> Option<&Bucket>
        ensures held { option_copied result ≡ held self.now.entries at }
        ensures there { is_some result ≡ is_listed at (addresses self.now.entries) }
        ensures slots { IfSome result (λ b. length b.now.slots ≡ slots_of self.now.block) }
    {
        self.kept.peek(&at)
    }

    /// Keeps at most so many buckets, those that were used last. Takes no memory.
    pub fn resize(&mut self, size: u32)
        requires { 0 < size }
        ensures front { self.new ≡ record self.old { entries = take size self.old.entries; size = size } }
        ensures list { addresses self.new.entries ≡ take size (addresses self.old.entries) }
        ensures kept { KeepsSome self.old.entries self.new.entries }
    {
        self.kept.resize(size_of_list(size));
    }

    /// Has the bucket at an address, and uses it. It is read where it is not there. Takes no memory where it is.
    #[tactic(auto, using(gd_vault::proofs::Writes::writes))]
    pub fn bucket<V: Vault>(&mut self, vault: &mut V, f: FileId, at: u64) -> Result<(), CacheError>
        requires file { HasFile (V.view_of vault.old) f.0 }
        requires agrees { Agrees (V.view_of vault.old) f.0 self.old }
        ensures list { OnOk result (addresses self.new.entries ≡ used (addresses self.old.entries) at self.old.size) }
        ensures there { OnOk result (IsSome (held self.new.entries at)) }
        ensures others { KeepsOthers at self.old.entries self.new.entries }
        ensures err { OnErr result (self.new ≡ self.old) }
        ensures size { self.new.size ≡ self.old.size }
        ensures block { self.new.block ≡ self.old.block }
        ensures agrees { Agrees (V.view_of vault.new) f.0 self.new }
        ensures asks { OnlyAsks (V.view_of vault.old) (V.view_of vault.new) }
        ensures cached_ok { is_listed at (addresses self.old.entries) ≡ true → IsOk result }
        ensures cached_same { is_listed at (addresses self.old.entries) ≡ true → V.view_of vault.new ≡ V.view_of vault.old }
        ensures cached_held { is_listed at (addresses self.old.entries) ≡ true → held self.new.entries at ≡ held self.old.entries at }
        ensures reads { is_listed at (addresses self.old.entries) ≡ false → OnOk result (ReadsBlock f.0 self.old.block at (V.view_of vault.old) (V.view_of vault.new)) }
        ensures answered { OnOk result ((V.view_of vault.new).faults ≡ (V.view_of vault.old).faults) }
        ensures refused { IfErr result (λ e. IsCause e f.0 self.old.block at (V.view_of vault.old) (V.view_of vault.new)) }
    {
        if touch(&mut self.kept, at) {
            return Ok(());
        }
        let bucket = read_bucket(self.alloc, vault, f, at, &mut self.buf)?;
        keep(&mut self.kept, at, bucket)?;
        Ok(())
    }

    /// Writes the block of the bucket at an address, which is in the list no more, whatever it answers. Takes no memory.
    #[tactic(auto, using(gd_vault::proofs::Writes::writes))]
    pub fn pass<V: Vault>(
        &mut self,
        vault: &mut V,
        f: FileId,
        at: u64,
        bucket: &Bucket,
    ) -> Result<(), Failed>
        requires file { HasFile (V.view_of vault.old) f.0 }
        requires place { IsAt (V.view_of vault.old) (λ c. (x : File) → c.files f.0 ≡ Some x → at ≤ max (length x.bytes) (2 ^ 47)) }
        requires slots { length bucket.now.slots ≡ slots_of self.old.block }
        requires agrees { Agrees (V.view_of vault.old) f.0 self.old }
        requires alone { IsAlone (V.view_of vault.old) at self.old }
        ensures list { addresses self.new.entries ≡ without at (addresses self.old.entries) }
        ensures others { KeepsOthers at self.old.entries self.new.entries }
        ensures size { self.new.size ≡ self.old.size }
        ensures block { self.new.block ≡ self.old.block }
        ensures agrees { Agrees (V.view_of vault.new) f.0 self.new }
        ensures wrote { WritesBucket f.0 self.old.block at bucket.now result (V.view_of vault.old) (V.view_of vault.new) }
        ensures frame { OnlyWrites f.0 (V.view_of vault.old) (V.view_of vault.new) }
        ensures file { HasFile (V.view_of vault.new) f.0 }
    {
        // The bucket that was kept is no longer what the file has.
        forget(&mut self.kept, at);
        spell(bucket, &mut self.buf);
        vault.write_at(f, at, &self.buf)
    }

    /// Writes the block of the bucket at an address at once, and keeps the bucket as used. After a fault of the vault the
    /// address is in the list no more. Takes no memory where the address is in the list.
    #[tactic(auto, using(gd_vault::proofs::Writes::writes))]
    pub fn write<V: Vault>(
        &mut self,
        vault: &mut V,
        f: FileId,
        at: u64,
        bucket: Bucket,
    ) -> Result<(), CacheError>
        requires file { HasFile (V.view_of vault.old) f.0 }
        requires place { IsAt (V.view_of vault.old) (λ c. (x : File) → c.files f.0 ≡ Some x → at ≤ max (length x.bytes) (2 ^ 47)) }
        requires slots { length bucket.slots ≡ slots_of self.old.block }
        requires agrees { Agrees (V.view_of vault.old) f.0 self.old }
        requires alone { IsAlone (V.view_of vault.old) at self.old }
        ensures list { OnOk result (addresses self.new.entries ≡ used (addresses self.old.entries) at self.old.size) }
        ensures held { OnOk result (held self.new.entries at ≡ Some bucket) }
        ensures fault { result ≡ Err VaultFault → addresses self.new.entries ≡ without at (used (addresses self.old.entries) at self.old.size) }
        ensures no_memory { result ≡ Err NoMemory → self.new ≡ self.old }
        ensures nothing { result ≡ Err NoMemory → V.view_of vault.new ≡ V.view_of vault.old }
        ensures cached { is_listed at (addresses self.old.entries) ≡ true → result ≢ Err NoMemory }
        ensures error { IfErr result (λ e. (e ≡ VaultFault) ⊎ (e ≡ NoMemory)) }
        ensures others { KeepsOthers at self.old.entries self.new.entries }
        ensures size { self.new.size ≡ self.old.size }
        ensures block { self.new.block ≡ self.old.block }
        ensures agrees { Agrees (V.view_of vault.new) f.0 self.new }
        ensures wrote { result ≢ Err NoMemory → WritesBucket f.0 self.old.block at bucket result (V.view_of vault.old) (V.view_of vault.new) }
        ensures frame { OnlyWrites f.0 (V.view_of vault.old) (V.view_of vault.new) }
        ensures file { HasFile (V.view_of vault.new) f.0 }
    {
        spell(&bucket, &mut self.buf);
        keep(&mut self.kept, at, bucket)?;
        if vault.write_at(f, at, &self.buf).is_err() {
            forget(&mut self.kept, at);
            return Err(CacheError::VaultFault);
        }
        Ok(())
    }
}
