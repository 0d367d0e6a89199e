//! What is written to an open file: bytes, the blocks of buckets, and the header's block.

ghost use Rattle.std.specs.Prelude.{◌≡◌, ◌≤◌, ◌^◌, Some, length, max, is_ok, OnOk};
ghost use Rattle.gd_base.specs.Causes.{HasCause};
ghost use Rattle.gd_space.specs.Effect.{WritesAtMost};
ghost use Rattle.gd_vault.specs.Changes.{TellsAfter};
ghost use Rattle.gd_vault.specs.Content.{File};
ghost use Rattle.gd_vault.specs.Effects.{written};
ghost use Rattle.gd_vault.specs.Events.Call.{Write};
ghost use Rattle.gd_vault.specs.Streams.{OnlyWrites};
ghost use Rattle.gd_vault.specs.Views.{HasFile, IsAt};
ghost use Rattle.gd_open.specs.Files.{FileBecomes};
ghost use Rattle.gd_open.specs.Open.{IsFit};
ghost use Rattle.gd_open.specs.Spells.{SpellsBucket, SpellsHeader};

use crate::file::OpenFile;
use gd_base::Failed;
use gd_layout::{Bucket, Native};
use gd_vault::Vault;

impl OpenFile {
    /// Writes bytes at a place.
    #[tactic(auto, using(gd_vault::proofs::Writes::writes))]
    pub fn write_bytes<V: Vault>(&self, vault: &mut V, at: u64, bytes: &[u8]) -> Result<(), Failed>
        requires file { HasFile (V.view_of vault.old) self.now.id }
        requires place { IsAt (V.view_of vault.old) (λ c. (x : File) → c.files self.now.id ≡ Some x → at ≤ max (length x.bytes) (2 ^ 47)) }
        ensures wrote { TellsAfter (Write self.now.id at bytes.now) (is_ok result) (V.view_of vault.old).told (V.view_of vault.new).told }
        ensures becomes { OnOk result (FileBecomes (V.view_of vault.old) (V.view_of vault.new) self.now.id (λ xs ys. ys ≡ written xs at bytes.now)) }
        ensures there { HasFile (V.view_of vault.new) self.now.id }
        ensures amount { WritesAtMost (length bytes.now) (V.view_of vault.old) (V.view_of vault.new) }
        ensures frame { OnlyWrites self.now.id (V.view_of vault.old) (V.view_of vault.new) }
        ensures cause { HasCause (V.view_of vault.old).faults (V.view_of vault.new).faults result }
    {
        vault.write_at(self.id, at, bytes)?;
        Ok(())
    }

    /// Writes the block of a bucket, at its address.
    #[tactic(auto, using(gd_vault::proofs::Writes::writes))]
    pub fn write_bucket<V: Vault>(
        &mut self,
        vault: &mut V,
        at: u64,
        bucket: &Bucket,
    ) -> Result<(), Failed>
        requires file { HasFile (V.view_of vault.old) self.old.id }
        requires place { IsAt (V.view_of vault.old) (λ c. (x : File) → c.files self.old.id ≡ Some x → at ≤ max (length x.bytes) (2 ^ 47)) }
        requires elems { length bucket.now.slots ≡ self.old.header.elems }
        ensures wrote { TellsAfter (Write self.old.id at self.new.block) (is_ok result) (V.view_of vault.old).told (V.view_of vault.new).told }
        ensures becomes { OnOk result (FileBecomes (V.view_of vault.old) (V.view_of vault.new) self.old.id (λ xs ys. ys ≡ written xs at self.new.block)) }
        ensures spells { SpellsBucket bucket.now (length bucket.now.slots) self.new.block }
        ensures same { self.new ≡ record self.old { block = self.new.block } }
        ensures fit { IsFit self.new }
        ensures id { self.new.id ≡ self.old.id }
        ensures there { HasFile (V.view_of vault.new) self.new.id }
        ensures amount { WritesAtMost self.old.header.block (V.view_of vault.old) (V.view_of vault.new) }
        ensures frame { OnlyWrites self.old.id (V.view_of vault.old) (V.view_of vault.new) }
        ensures cause { HasCause (V.view_of vault.old).faults (V.view_of vault.new).faults result }
    {
        Native::write_bucket(bucket, &mut self.block);
        vault.write_at(self.id, at, &self.block)?;
        Ok(())
    }

    /// Writes the header's block: the header and its table of free space as they stand in memory.
    #[tactic(auto, using(gd_vault::proofs::Writes::writes))]
    pub fn write_header<V: Vault>(&mut self, vault: &mut V) -> Result<(), Failed>
        requires file { HasFile (V.view_of vault.old) self.old.id }
        ensures wrote { TellsAfter (Write self.old.id 0 self.new.block) (is_ok result) (V.view_of vault.old).told (V.view_of vault.new).told }
        ensures becomes { OnOk result (FileBecomes (V.view_of vault.old) (V.view_of vault.new) self.old.id (λ xs ys. ys ≡ written xs 0 self.new.block)) }
        ensures spells { SpellsHeader self.old.header self.old.table self.new.block }
        ensures same { self.new ≡ record self.old { block = self.new.block } }
        ensures fit { IsFit self.new }
        ensures id { self.new.id ≡ self.old.id }
        ensures there { HasFile (V.view_of vault.new) self.new.id }
        ensures amount { WritesAtMost self.old.header.block (V.view_of vault.old) (V.view_of vault.new) }
        ensures frame { OnlyWrites self.old.id (V.view_of vault.old) (V.view_of vault.new) }
        ensures cause { HasCause (V.view_of vault.old).faults (V.view_of vault.new).faults result }
    {
        Native::write_header(&self.header, self.space.table(), &mut self.block);
        vault.write_at(self.id, 0, &self.block)?;
        Ok(())
    }
}
