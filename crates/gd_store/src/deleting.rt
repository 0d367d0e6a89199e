//! Deleting from a database.

ghost use Rattle.std.specs.Prelude.{◌≡◌, ◌≢◌, ◌⊎◌, ◌+◌, ◌*◌, ◌<◌, ◌≤◌, ◌^◌, ◌||◌, true, false, None, Some, IfOk, IfErr, OnOk, length, get_or};
ghost use Rattle.std.specs.FinMap.{remove};
ghost use Rattle.gd_base.specs.Causes.{Rose};
ghost use Rattle.gd_update.specs.Open.{slot_size};
ghost use Rattle.gd_format.specs.File.{records};
ghost use Rattle.gd_map_laws.specs.Maps.{pair_map};
ghost use Rattle.gd_space.specs.Effect.{WritesAtMost};
ghost use Rattle.gd_vault.specs.Streams.{OnlyWrites};
ghost use Rattle.gd_readable.specs.Asks.{Counts};
ghost use Rattle.gd_vault.specs.Views.{HasFile, OnlyAsks};
ghost use Rattle.gd_store.specs.Changed.{Becomes, Keeps};
ghost use Rattle.gd_store.specs.Opened.{Fits, OnFile, SameButCached};
ghost use Rattle.gd_store.specs.Replies.{delete_due, is_fault, is_too_far, RefusedAtOnce, RefusedDeleting};

use crate::access::Access;
use crate::store::Store;
use gd_base::DbError;
use gd_format::Slot;
use gd_update::remove;
use gd_vault::Vault;

// How many bytes the record of a slot has.
fn record_size(slot: &Slot) -> u64
    ensures { result ≡ slot_size slot.now }
{
    match slot {
        Slot::Empty => 0,
        Slot::Full {
            key_size,
            value_size,
            ..
        } => u64::from(*key_size) + u64::from(*value_size),
    }
}

// Would a change of so many bytes find no place below the greatest end of a file?
pub(crate) fn is_too_far(next_block: u64, size: u64) -> bool
    requires next { next_block ≤ 2 ^ 46 }
    requires size { size < 2 ^ 32 }
    ensures { result ≡ is_too_far next_block size }
{
    next_block + size + (1 << 29) > 1 << 46
}

// Is it a fault of the vault?
pub(crate) fn is_fault(answer: &Result<(), DbError>) -> bool
    ensures { result ≡ is_fault answer.now }
{
    matches!(answer, Err(DbError::VaultFault))
}

impl Store {
    // Deletes from a database that is open to write and not broken.
    #[tactic(auto, using(gd_vault::proofs::Writes::writes))]
    fn delete_key<V: Vault>(&mut self, vault: &mut V, key: &[u8]) -> Result<(), DbError>
        requires file { HasFile (V.view_of vault.old) self.old.file }
        requires fits { Fits (V.view_of vault.old) self.old }
        requires whole { self.old.broken ≡ false }
        requires writer { self.old.access ≡ Access.Writer }
        ensures deleted { OnOk result (Becomes (V.view_of vault.old) (V.view_of vault.new) self.old.file self.new (λ file. remove (pair_map (records file)) key.now) (λ _. 32)) }
        ensures present { OnOk result (OnFile (V.view_of vault.old) self.old.file (λ file. delete_due (records file) self.old.header.next_block key.now ≡ None)) }
        ensures kept { IfErr result (λ e. e ≢ DbError.VaultFault → (self.new ≡ self.old) × OnlyAsks (V.view_of vault.old) (V.view_of vault.new)) }
        ensures refused { IfErr result (λ e. RefusedDeleting e self.old.file (V.view_of vault.old) (V.view_of vault.new) (λ file. delete_due (records file) self.old.header.next_block key.now)) }
        ensures full { IfErr result (λ e. e ≡ DbError.FileFull → 2 ^ 46 < self.old.header.next_block + 2 ^ 32 + 2 ^ 29) }
        ensures same { Keeps self.old self.new }
        ensures header { self.new.header ≡ record self.old.header { next_block = self.new.header.next_block } }
        ensures growth { self.new.header.next_block ≤ self.old.header.next_block + 2 * self.old.header.block }
        ensures amount { WritesAtMost (3 * self.old.header.block) (V.view_of vault.old) (V.view_of vault.new) }
        ensures frame { OnlyWrites self.old.file (V.view_of vault.old) (V.view_of vault.new) }
        ensures answered { OnOk result ((V.view_of vault.new).faults ≡ (V.view_of vault.old).faults) }
        ensures counted { IfErr result (λ e. Counts e (V.view_of vault.old).faults (V.view_of vault.new).faults) }
    {
        let mut located = self.locate(vault, key)?;
        let Some(place) = located.place else {
            return Err(DbError::ItemNotFound);
        };
        let size = record_size(&located.bucket.slots()[place as usize]);
        if is_too_far(self.file.header().next_block, size) {
            return Err(DbError::FileFull);
        }
        remove(
            &mut self.file,
            vault,
            located.at,
            &mut located.bucket,
            place,
        )
    }

    /// Deletes the record of a key. `ItemNotFound` comes where the key is absent, and `FileFull` where the file stands so
    /// near to its greatest end that free space might not be kept.
    ///
    /// After a fault of the vault the database is broken.
    #[tactic(auto, using(gd_vault::proofs::Writes::writes, crate::proofs::Asking::same_cached))]
    pub fn delete<V: Vault>(&mut self, vault: &mut V, key: &[u8]) -> Result<(), DbError>
        requires file { HasFile (V.view_of vault.old) self.old.file }
        requires fits { Fits (V.view_of vault.old) self.old }
        ensures broken { self.old.broken ≡ true → RefusedAtOnce DbError.NeedRecovery result self.old self.new (V.view_of vault.old) (V.view_of vault.new) }
        ensures reader { self.old.broken ≡ false → self.old.access ≡ Access.Reader → RefusedAtOnce DbError.ReaderCant result self.old self.new (V.view_of vault.old) (V.view_of vault.new) }
        ensures deleted { OnOk result (Becomes (V.view_of vault.old) (V.view_of vault.new) self.old.file self.new (λ file. remove (pair_map (records file)) key.now) (λ _. 32)) }
        ensures kept { IfErr result (λ e. e ≢ DbError.VaultFault → SameButCached self.old self.new × OnlyAsks (V.view_of vault.old) (V.view_of vault.new)) }
        ensures present { OnOk result (OnFile (V.view_of vault.old) self.old.file (λ file. delete_due (records file) self.old.header.next_block key.now ≡ None)) }
        ensures refused { self.old.broken ≡ false → self.old.access ≡ Access.Writer → IfErr result (λ e. RefusedDeleting e self.old.file (V.view_of vault.old) (V.view_of vault.new) (λ file. delete_due (records file) self.old.header.next_block key.now)) }
        ensures breaks { self.new.broken ≡ (self.old.broken || is_fault result) }
        ensures fits { Fits (V.view_of vault.new) self.new }
        ensures there { HasFile (V.view_of vault.new) self.new.file }
        ensures full { IfErr result (λ e. e ≡ DbError.FileFull → 2 ^ 46 < self.old.header.next_block + 2 ^ 32 + 2 ^ 29) }
        ensures same { Keeps self.old self.new }
        ensures header { self.new.header ≡ record self.old.header { next_block = self.new.header.next_block } }
        ensures growth { self.new.header.next_block ≤ self.old.header.next_block + 2 * self.old.header.block }
        ensures amount { WritesAtMost (3 * self.old.header.block) (V.view_of vault.old) (V.view_of vault.new) }
        ensures frame { OnlyWrites self.old.file (V.view_of vault.old) (V.view_of vault.new) }
        ensures answered { OnOk result ((V.view_of vault.new).faults ≡ (V.view_of vault.old).faults) }
        ensures counted { IfErr result (λ e. Counts e (V.view_of vault.old).faults (V.view_of vault.new).faults) }
    {
        if self.broken {
            return Err(DbError::NeedRecovery);
        }
        if self.access == Access::Reader {
            return Err(DbError::ReaderCant);
        }
        let answer = self.delete_key(vault, key);
        self.broken = is_fault(&answer);
        answer
    }
}
