//! The look-up of a key.

ghost use Rattle.std.specs.Prelude.{◌≡◌, ◌≤◌, ◌<◌, true, false, None, Some, IfOk, IfErr, IfSome, length};
ghost use Rattle.gd_format.specs.Hash.{hash_of};
ghost use Rattle.gd_vault.specs.Views.{HasFile, OnlyAsks};
ghost use Rattle.gd_lookup.specs.Finding.{IsCandidateAt};
ghost use Rattle.gd_open.specs.Reading.{RefusesRead};
ghost use Rattle.gd_readable.specs.Asks.{Counts};
ghost use Rattle.gd_store.specs.Opened.{Fits, OnFile};
ghost use Rattle.gd_store.specs.Located.{IsFoundIn};

use crate::store::Store;
use gd_base::DbError;
use gd_layout::{Bucket, hash};
use gd_lookup::{bucket_address, find_key};
use gd_vault::Vault;

// Where a key is looked for: the address of its bucket, the bucket, and the place of its slot.
#[derive(Drop)]
pub(crate) struct Located {
    pub(crate) at: u64,
    pub(crate) hash: u32,
    pub(crate) bucket: Bucket,
    pub(crate) place: Option<u32>,
}

impl Store {
    // Looks a key up.
    pub(crate) fn locate<V: Vault>(&mut self, vault: &mut V, key: &[u8]) -> Result<Located, DbError>
        requires file { HasFile (V.view_of vault.old) self.old.file }
        requires fits { Fits (V.view_of vault.old) self.old }
        requires whole { self.old.broken ≡ false }
        ensures asks { OnlyAsks (V.view_of vault.old) (V.view_of vault.new) }
        ensures answered { IfOk result (λ _. (V.view_of vault.new).faults ≡ (V.view_of vault.old).faults) }
        ensures counted { IfErr result (λ e. Counts e (V.view_of vault.old).faults (V.view_of vault.new).faults) }
        ensures same { self.new ≡ self.old }
        ensures hash { IfOk result (λ l. l.hash ≡ hash_of key.now) }
        ensures slots { IfOk result (λ l. length l.bucket.slots ≡ self.old.header.elems) }
        ensures candidate { IfOk result (λ l. IfSome l.place (λ p. IsCandidateAt l.bucket.slots l.hash key.now p)) }
        ensures found { IfOk result (λ l. OnFile (V.view_of vault.old) self.old.file (λ file. IsFoundIn file self.old.header key.now l.at l.bucket l.place)) }
        ensures refused { IfErr result (λ e. RefusesRead e (V.view_of vault.old) (V.view_of vault.new)) }
    {
        let hash = hash(key);
        let at = bucket_address(&self.file, vault, hash)?;
        let bucket = self.file.read_bucket(self.alloc, vault, at)?;
        let place = find_key(&self.file, vault, at, &bucket, hash, key)?;
        Ok(Located {
            at,
            hash,
            bucket,
            place,
        })
    }
}
