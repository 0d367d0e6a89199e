//! Asking a database.

ghost use Rattle.std.specs.Prelude.{◌≡◌, true, false, Some, IfOk, IfErr, length, is_some};
ghost use Rattle.gd_format.specs.File.{records};
ghost use Rattle.gd_vault.specs.Views.{HasFile, OnlyAsks};
ghost use Rattle.gd_lookup.specs.Order.{first_of, successor};
ghost use Rattle.gd_open.specs.Reading.{RefusesRead};
ghost use Rattle.gd_readable.specs.Asks.{Counts};
ghost use Rattle.gd_store.specs.Opened.{Fits, OnFile, SameButCached};
ghost use Rattle.gd_store.specs.Replies.{value_of, absent_due, first_due, next_due, RefusedAsking, RefusedAtOnce};

use crate::store::Store;
use gd_base::{Datum, DbError};
use gd_lookup::{Successor, count, first_key, key_after, read_value};
use gd_vault::Vault;

impl Store {
    /// The value of a key. `ItemNotFound` comes where the key is absent.
    #[tactic(auto, using(crate::proofs::Asking::same_cached))]
    pub fn fetch<V: Vault>(&mut self, vault: &mut V, key: &[u8]) -> Result<Datum, DbError>
        requires file { HasFile (V.view_of vault.old) self.old.file }
        requires fits { Fits (V.view_of vault.old) self.old }
        ensures asks { OnlyAsks (V.view_of vault.old) (V.view_of vault.new) }
        ensures answered { IfOk result (λ _. (V.view_of vault.new).faults ≡ (V.view_of vault.old).faults) }
        ensures counted { IfErr result (λ e. Counts e (V.view_of vault.old).faults (V.view_of vault.new).faults) }
        ensures same { SameButCached self.old self.new }
        ensures value { IfOk result (λ v. OnFile (V.view_of vault.old) self.old.file (λ file. value_of (records file) key.now ≡ Some v)) }
        ensures broken { self.old.broken ≡ true → RefusedAtOnce DbError.NeedRecovery result self.old self.new (V.view_of vault.old) (V.view_of vault.new) }
        ensures refused { self.old.broken ≡ false → IfErr result (λ e. RefusedAsking e self.old.file (V.view_of vault.old) (V.view_of vault.new) (λ file. absent_due (records file) key.now)) }
    {
        if self.broken {
            return Err(DbError::NeedRecovery);
        }
        let located = self.locate(vault, key)?;
        let Some(place) = located.place else {
            return Err(DbError::ItemNotFound);
        };
        let slot = &located.bucket.slots()[place as usize];
        read_value(&self.file, self.alloc, vault, located.at, place, slot)
    }

    /// Is a key there?
    #[tactic(auto, using(crate::proofs::Asking::same_cached))]
    pub fn exists<V: Vault>(&mut self, vault: &mut V, key: &[u8]) -> Result<bool, DbError>
        requires file { HasFile (V.view_of vault.old) self.old.file }
        requires fits { Fits (V.view_of vault.old) self.old }
        ensures asks { OnlyAsks (V.view_of vault.old) (V.view_of vault.new) }
        ensures answered { IfOk result (λ _. (V.view_of vault.new).faults ≡ (V.view_of vault.old).faults) }
        ensures counted { IfErr result (λ e. Counts e (V.view_of vault.old).faults (V.view_of vault.new).faults) }
        ensures same { SameButCached self.old self.new }
        ensures answer { IfOk result (λ b. OnFile (V.view_of vault.old) self.old.file (λ file. b ≡ is_some (value_of (records file) key.now))) }
        ensures broken { self.old.broken ≡ true → RefusedAtOnce DbError.NeedRecovery result self.old self.new (V.view_of vault.old) (V.view_of vault.new) }
        ensures refused { self.old.broken ≡ false → IfErr result (λ e. RefusesRead e (V.view_of vault.old) (V.view_of vault.new)) }
    {
        if self.broken {
            return Err(DbError::NeedRecovery);
        }
        let located = self.locate(vault, key)?;
        Ok(located.place.is_some())
    }

    /// The first key in file order. `ItemNotFound` comes where there is no record.
    #[tactic(auto, using(crate::proofs::Asking::same_cached))]
    pub fn first<V: Vault>(&mut self, vault: &mut V) -> Result<Datum, DbError>
        requires file { HasFile (V.view_of vault.old) self.old.file }
        requires fits { Fits (V.view_of vault.old) self.old }
        ensures asks { OnlyAsks (V.view_of vault.old) (V.view_of vault.new) }
        ensures answered { IfOk result (λ _. (V.view_of vault.new).faults ≡ (V.view_of vault.old).faults) }
        ensures counted { IfErr result (λ e. Counts e (V.view_of vault.old).faults (V.view_of vault.new).faults) }
        ensures same { SameButCached self.old self.new }
        ensures first { IfOk result (λ k. OnFile (V.view_of vault.old) self.old.file (λ file. first_of (records file) ≡ Some k)) }
        ensures broken { self.old.broken ≡ true → RefusedAtOnce DbError.NeedRecovery result self.old self.new (V.view_of vault.old) (V.view_of vault.new) }
        ensures refused { self.old.broken ≡ false → IfErr result (λ e. RefusedAsking e self.old.file (V.view_of vault.old) (V.view_of vault.new) (λ file. first_due (records file))) }
    {
        if self.broken {
            return Err(DbError::NeedRecovery);
        }
        let first = first_key(&mut self.file, self.alloc, vault)?;
        match first {
            Some(key) => Ok(key),
            None => Err(DbError::ItemNotFound),
        }
    }

    /// The key after another one in file order. `ItemNotFound` comes where that is absent or the last one.
    #[tactic(auto, using(crate::proofs::Asking::same_cached))]
    pub fn next<V: Vault>(&mut self, vault: &mut V, key: &[u8]) -> Result<Datum, DbError>
        requires file { HasFile (V.view_of vault.old) self.old.file }
        requires fits { Fits (V.view_of vault.old) self.old }
        ensures asks { OnlyAsks (V.view_of vault.old) (V.view_of vault.new) }
        ensures answered { IfOk result (λ _. (V.view_of vault.new).faults ≡ (V.view_of vault.old).faults) }
        ensures counted { IfErr result (λ e. Counts e (V.view_of vault.old).faults (V.view_of vault.new).faults) }
        ensures same { SameButCached self.old self.new }
        ensures next { IfOk result (λ k. OnFile (V.view_of vault.old) self.old.file (λ file. successor key.now (records file) ≡ Successor.Key k)) }
        ensures broken { self.old.broken ≡ true → RefusedAtOnce DbError.NeedRecovery result self.old self.new (V.view_of vault.old) (V.view_of vault.new) }
        ensures refused { self.old.broken ≡ false → IfErr result (λ e. RefusedAsking e self.old.file (V.view_of vault.old) (V.view_of vault.new) (λ file. next_due key.now (records file))) }
    {
        if self.broken {
            return Err(DbError::NeedRecovery);
        }
        let after = key_after(&mut self.file, self.alloc, vault, key)?;
        match after {
            Successor::Key(key) => Ok(key),
            Successor::Last => Err(DbError::ItemNotFound),
            Successor::Absent => Err(DbError::ItemNotFound),
        }
    }

    /// The number of records.
    #[tactic(auto, using(crate::proofs::Asking::same_cached))]
    pub fn count<V: Vault>(&mut self, vault: &mut V) -> Result<u64, DbError>
        requires file { HasFile (V.view_of vault.old) self.old.file }
        requires fits { Fits (V.view_of vault.old) self.old }
        ensures asks { OnlyAsks (V.view_of vault.old) (V.view_of vault.new) }
        ensures answered { IfOk result (λ _. (V.view_of vault.new).faults ≡ (V.view_of vault.old).faults) }
        ensures counted { IfErr result (λ e. Counts e (V.view_of vault.old).faults (V.view_of vault.new).faults) }
        ensures same { SameButCached self.old self.new }
        ensures count { IfOk result (λ n. OnFile (V.view_of vault.old) self.old.file (λ file. n ≡ length (records file))) }
        ensures broken { self.old.broken ≡ true → RefusedAtOnce DbError.NeedRecovery result self.old self.new (V.view_of vault.old) (V.view_of vault.new) }
        ensures refused { self.old.broken ≡ false → IfErr result (λ e. RefusesRead e (V.view_of vault.old) (V.view_of vault.new)) }
    {
        if self.broken {
            return Err(DbError::NeedRecovery);
        }
        count(&self.file, vault)
    }
}
