//! Storing in a database.

ghost use Rattle.std.specs.Prelude.{◌≡◌, ◌≢◌, ◌+◌, ◌-◌, ◌*◌, ◌≤◌, ◌<◌, ◌^◌, ◌==◌, ◌||◌, true, false, None, Some, IfOk, IfErr, IfNone, IfSome, OnOk, length, slice_index_or};
ghost use Rattle.std.specs.FinMap.{insert};
ghost use Rattle.gd_base.specs.Causes.{Rose};
ghost use Rattle.gd_format.specs.File.{records};
ghost use Rattle.gd_format.specs.Hash.{hash_of};
ghost use Rattle.gd_format.specs.HeaderFault.{dir_size_of};
ghost use Rattle.gd_format.specs.Slots.{count, is_full};
ghost use Rattle.gd_map_laws.specs.Maps.{pair_map};
ghost use Rattle.gd_map_laws.specs.Overflow.{is_close};
ghost use Rattle.gd_vault.specs.Content.{File};
ghost use Rattle.gd_vault.specs.Streams.{OnlyWrites};
ghost use Rattle.gd_readable.specs.Asks.{Counts};
ghost use Rattle.gd_vault.specs.Views.{HasFile, IsAt, OnlyAsks};
ghost use Rattle.gd_space.specs.Effect.{WritesAtMost, TellsNone};
ghost use Rattle.gd_open.specs.Files.{FileBecomes};
ghost use Rattle.gd_update.specs.Open.{IsOpen};
ghost use Rattle.gd_update.specs.Held.{HasBucket};
ghost use Rattle.gd_update.specs.Growth.{IsRoomMade, IsWider};
ghost use Rattle.gd_update.specs.GrowthRefusals.{is_growth_error};
ghost use Rattle.gd_store.specs.Changed.{Becomes, FindsRoom, IsReady, Keeps, has_slot, is_room_error, store_loss};
ghost use Rattle.gd_store.specs.Located.{IsFoundIn};
ghost use Rattle.gd_store.specs.Opened.{Fits, OnFile, SameButCached};
ghost use Rattle.gd_store.specs.Replies.{is_fault, key_due, pair_due, store_due, RefusedAtOnce, RefusedStoring, StoreCause, StoreFits};

use crate::access::{Access, How};
use crate::deleting::{is_fault, is_too_far};
use crate::locating::Located;
use crate::store::Store;
use gd_base::DbError;
use gd_format::Slot;
use gd_layout::Bucket;
use gd_update::{is_crowded, make_room, put};
use gd_vault::Vault;

// Is a slot full, with a hash that has the same first 24 bits?
#[tactic(auto, unfolding(gd_map_laws::specs::Overflow::have_top))]
fn is_close(slot: &Slot, hash: u32) -> bool
    ensures { result ≡ is_close hash slot.now }
{
    match slot {
        Slot::Empty => false,
        Slot::Full { hash: other, .. } => *other >> 7 == hash >> 7,
    }
}

// How many full slots have a hash with the same first 24 bits.
fn close_count(slots: &[Slot], hash: u32) -> usize
    ensures is { result ≡ count (is_close hash) slots.now }
    ensures most { result ≤ length slots.now }
{
    let mut close = 0;
    for slot in slots {
        if is_close(slot, hash) {
            close += 1;
        }
    }
    close
}

// What stands against a store, by the slot of the key or the slots of its bucket.
fn refusal(located: &Located, how: How) -> Option<DbError>
    ensures is { result ≡ key_due how located.now.place (count (is_close located.now.hash) located.now.bucket.slots == length located.now.bucket.slots) }
    ensures few { result ≡ None → IfNone located.now.place (count (is_close located.now.hash) located.now.bucket.slots < length located.now.bucket.slots) }
{
    match located.place {
        Some(_) => match how {
            How::Insert => Some(DbError::CannotReplace),
            How::Replace => None,
        },
        None => {
            let slots = located.bucket.slots();
            if close_count(slots, located.hash) == slots.len() {
                return Some(DbError::DirOverflow);
            }
            None
        }
    }
}

impl Store {
    // Splits the bucket of a key until it has an empty slot.
    #[tactic(auto, using(gd_vault::proofs::Writes::writes))]
    fn split_full<V: Vault>(&mut self, vault: &mut V, located: &mut Located) -> Result<(), DbError>
        requires file { HasFile (V.view_of vault.old) self.old.file }
        requires hash { located.old.hash < 2 ^ 31 }
        requires elems { length located.old.bucket.slots ≡ self.old.header.elems }
        requires few { count (is_close located.old.hash) located.old.bucket.slots < self.old.header.elems }
        requires room { self.old.header.next_block + 2 ^ 29 ≤ 2 ^ 46 }
        requires open { IsAt (V.view_of vault.old) (λ c. (x : File) → c.files self.old.file ≡ Some x → IsOpen x.bytes self.old.header self.old.table) }
        requires bucket { HasBucket (V.view_of vault.old) self.old.file self.old.header located.old.hash located.old.at located.old.bucket }
        ensures made { OnOk result (FileBecomes (V.view_of vault.old) (V.view_of vault.new) self.old.file (λ xs ys. IsRoomMade xs ys self.new.header self.new.table located.old.hash located.new.at located.new.bucket)) }
        ensures empty { OnOk result (count is_full located.new.bucket.slots < length located.new.bucket.slots) }
        ensures elems { length located.new.bucket.slots ≡ self.new.header.elems }
        ensures hash { located.new.hash ≡ located.old.hash }
        ensures place { located.new.place ≡ located.old.place }
        ensures header { IsWider self.old.header self.new.header }
        ensures rest { self.new ≡ record self.old { header = self.new.header; table = self.new.table } }
        ensures bound { self.new.header.next_block ≤ self.old.header.next_block + (2 ^ 29 - 2 ^ 25) }
        ensures growth { OnOk result (self.new.header.next_block + 2 * dir_size_of self.old.header.dir_bits ≤ self.old.header.next_block + 144 * self.old.header.block + 2 * dir_size_of self.new.header.dir_bits) }
        ensures there { HasFile (V.view_of vault.new) self.old.file }
        ensures frame { OnlyWrites self.old.file (V.view_of vault.old) (V.view_of vault.new) }
        ensures answered { OnOk result ((V.view_of vault.new).faults ≡ (V.view_of vault.old).faults) }
        ensures counted { IfErr result (λ e. Counts e (V.view_of vault.old).faults (V.view_of vault.new).faults) }
        ensures amount { WritesAtMost (100 * self.old.header.block + 4 * dir_size_of self.new.header.dir_bits) (V.view_of vault.old) (V.view_of vault.new) }
        ensures little { OnOk result (WritesAtMost (97 * self.old.header.block + 2 * dir_size_of self.new.header.dir_bits) (V.view_of vault.old) (V.view_of vault.new)) }
        ensures kind { IfErr result (λ e. is_room_error e ≡ true) }
        ensures fault { IfErr result (λ e. e ≡ DbError.VaultFault → Rose (V.view_of vault.old).faults (V.view_of vault.new).faults) }
        ensures memory { IfErr result (λ e. e ≡ DbError.OutOfMemory → (self.new ≡ self.old) × OnlyAsks (V.view_of vault.old) (V.view_of vault.new)) }
        ensures told { IfErr result (λ e. e ≢ DbError.VaultFault → e ≢ DbError.OutOfMemory → TellsNone (V.view_of vault.old)) }
    {
        let elems = self.file.header().elems;
        let Ok(mut first) = Bucket::empty(self.alloc, elems, 0) else {
            return Err(DbError::OutOfMemory);
        };
        let Ok(mut second) = Bucket::empty(self.alloc, elems, 0) else {
            return Err(DbError::OutOfMemory);
        };
        located.at = make_room(
            &mut self.file,
            vault,
            located.hash,
            located.at,
            &mut located.bucket,
            &mut first,
            &mut second,
        )?;
        Ok(())
    }

    // Splits the bucket of a key where the key has no slot and the bucket no empty one.
    #[tactic(auto, using(gd_vault::proofs::Writes::writes))]
    fn make_ready<V: Vault>(
        &mut self,
        vault: &mut V,
        key: &[u8],
        located: &mut Located,
    ) -> Result<(), DbError>
        requires file { HasFile (V.view_of vault.old) self.old.file }
        requires fits { Fits (V.view_of vault.old) self.old }
        requires whole { self.old.broken ≡ false }
        requires writer { self.old.access ≡ Access.Writer }
        requires hash { located.old.hash ≡ hash_of key.now }
        requires elems { length located.old.bucket.slots ≡ self.old.header.elems }
        requires few { IfNone located.old.place (count (is_close located.old.hash) located.old.bucket.slots < length located.old.bucket.slots) }
        requires full { IfSome located.old.place (λ p. is_full (slice_index_or located.old.bucket.slots p Slot.Empty) ≡ true) }
        requires room { self.old.header.next_block + 2 ^ 29 ≤ 2 ^ 46 }
        requires found { OnFile (V.view_of vault.old) self.old.file (λ file. IsFoundIn file self.old.header key.now located.old.at located.old.bucket located.old.place) }
        ensures ready { OnOk result (FileBecomes (V.view_of vault.old) (V.view_of vault.new) self.old.file (λ xs ys. IsReady xs ys self.new.header self.new.table located.new.at located.new.bucket key.now located.new.place)) }
        ensures empty { OnOk result (IfNone located.new.place (count is_full located.new.bucket.slots < length located.new.bucket.slots)) }
        ensures full { OnOk result (IfSome located.new.place (λ p. is_full (slice_index_or located.new.bucket.slots p Slot.Empty) ≡ true)) }
        ensures few { OnFile (V.view_of vault.old) self.old.file (λ file. has_slot file key.now ≡ true → (self.new ≡ self.old) × OnlyAsks (V.view_of vault.old) (V.view_of vault.new)) }
        ensures elems { length located.new.bucket.slots ≡ self.new.header.elems }
        ensures hash { located.new.hash ≡ located.old.hash }
        ensures place { located.new.place ≡ located.old.place }
        ensures header { IsWider self.old.header self.new.header }
        ensures rest { self.new ≡ record self.old { header = self.new.header; table = self.new.table } }
        ensures bound { self.new.header.next_block ≤ self.old.header.next_block + (2 ^ 29 - 2 ^ 25) }
        ensures growth { OnOk result (self.new.header.next_block + 2 * dir_size_of self.old.header.dir_bits ≤ self.old.header.next_block + 144 * self.old.header.block + 2 * dir_size_of self.new.header.dir_bits) }
        ensures there { HasFile (V.view_of vault.new) self.old.file }
        ensures frame { OnlyWrites self.old.file (V.view_of vault.old) (V.view_of vault.new) }
        ensures answered { OnOk result ((V.view_of vault.new).faults ≡ (V.view_of vault.old).faults) }
        ensures counted { IfErr result (λ e. Counts e (V.view_of vault.old).faults (V.view_of vault.new).faults) }
        ensures amount { WritesAtMost (100 * self.old.header.block + 4 * dir_size_of self.new.header.dir_bits) (V.view_of vault.old) (V.view_of vault.new) }
        ensures little { OnOk result (WritesAtMost (97 * self.old.header.block + 2 * dir_size_of self.new.header.dir_bits) (V.view_of vault.old) (V.view_of vault.new)) }
        ensures kind { IfErr result (λ e. is_room_error e ≡ true) }
        ensures fault { IfErr result (λ e. e ≡ DbError.VaultFault → Rose (V.view_of vault.old).faults (V.view_of vault.new).faults) }
        ensures memory { IfErr result (λ e. e ≡ DbError.OutOfMemory → (self.new ≡ self.old) × OnlyAsks (V.view_of vault.old) (V.view_of vault.new)) }
        ensures told { IfErr result (λ e. e ≢ DbError.VaultFault → e ≢ DbError.OutOfMemory → TellsNone (V.view_of vault.old)) }
    {
        if located.place.is_none() && is_crowded(&located.bucket) {
            return self.split_full(vault, located);
        }
        Ok(())
    }

    // Stores a pair that is not too large in a database that is open to write and not broken.
    #[tactic(auto, using(gd_vault::proofs::Writes::writes))]
    fn store_pair<V: Vault>(
        &mut self,
        vault: &mut V,
        key: &[u8],
        value: &[u8],
        how: How,
    ) -> Result<(), DbError>
        requires file { HasFile (V.view_of vault.old) self.old.file }
        requires fits { Fits (V.view_of vault.old) self.old }
        requires whole { self.old.broken ≡ false }
        requires writer { self.old.access ≡ Access.Writer }
        requires size { length key.now + length value.now ≤ 2 ^ 30 }
        ensures stored { OnOk result (Becomes (V.view_of vault.old) (V.view_of vault.new) self.old.file self.new (λ file. insert (pair_map (records file)) key.now value.now) (λ file. store_loss file key.now)) }
        ensures due { OnOk result (OnFile (V.view_of vault.old) self.old.file (λ file. pair_due (records file) self.old.header.elems self.old.header.next_block how key.now value.now ≡ None)) }
        ensures refused { IfErr result (λ e. RefusedStoring e self.old.file (V.view_of vault.old) (V.view_of vault.new) (λ file. pair_due (records file) self.old.header.elems self.old.header.next_block how key.now value.now)) }
        ensures cause { IfErr result (λ e. StoreCause e how self.old.header.next_block (length key.now + length value.now)) }
        ensures small { OnOk result (StoreFits self.old.header.next_block (length key.now + length value.now)) }
        ensures early { IfErr result (λ e. is_growth_error e ≡ false → (self.new ≡ self.old) × OnlyAsks (V.view_of vault.old) (V.view_of vault.new)) }
        ensures kept { IfErr result (λ e. e ≢ DbError.VaultFault → IsAt (V.view_of vault.old) (λ _. (self.new ≡ self.old) × OnlyAsks (V.view_of vault.old) (V.view_of vault.new))) }
        ensures rest { self.new ≡ record self.old { header = self.new.header; table = self.new.table } }
        ensures header { IsWider self.old.header self.new.header }
        ensures growth { OnOk result (self.new.header.next_block + 2 * dir_size_of self.old.header.dir_bits ≤ self.old.header.next_block + (length key.now + length value.now) + 256 * self.old.header.block + 2 * dir_size_of self.new.header.dir_bits) }
        ensures growth_few { OnOk result (OnFile (V.view_of vault.old) self.old.file (λ file. has_slot file key.now ≡ true → self.new.header.next_block ≤ self.old.header.next_block + (length key.now + length value.now + 3 * self.old.header.block))) }
        ensures growth_none { OnOk result (OnFile (V.view_of vault.old) self.old.file (λ file. FindsRoom file self.old.table key.now (length key.now + length value.now) → self.new.header.next_block ≡ self.old.header.next_block)) }
        ensures amount { WritesAtMost (length key.now + length value.now + 100 * self.old.header.block + 4 * dir_size_of self.new.header.dir_bits) (V.view_of vault.old) (V.view_of vault.new) }
        ensures amount_few { OnFile (V.view_of vault.old) self.old.file (λ file. has_slot file key.now ≡ true → WritesAtMost (length key.now + length value.now + 3 * self.old.header.block) (V.view_of vault.old) (V.view_of vault.new)) }
        ensures frame { OnlyWrites self.old.file (V.view_of vault.old) (V.view_of vault.new) }
        ensures answered { OnOk result ((V.view_of vault.new).faults ≡ (V.view_of vault.old).faults) }
        ensures counted { IfErr result (λ e. Counts e (V.view_of vault.old).faults (V.view_of vault.new).faults) }
    {
        let mut located = self.locate(vault, key)?;
        if let Some(e) = refusal(&located, how) {
            return Err(e);
        }
        let size = key.len() as u64 + value.len() as u64;
        if is_too_far(self.file.header().next_block, size) {
            return Err(DbError::FileFull);
        }
        self.make_ready(vault, key, &mut located)?;
        put(
            &mut self.file,
            vault,
            located.at,
            &mut located.bucket,
            located.place,
            key,
            value,
        )
    }

    /// Stores a pair. `CannotReplace` comes where the key is there and `how` is `Insert`; `DirOverflow` where it is absent
    /// and as many other keys as a bucket has slots have a hash with the same first 24 bits; `TooLarge` where key and value
    /// have together more than 2^30 bytes; `FileFull` where the file stands too near to its greatest end. A refused call
    /// changes nothing.
    ///
    /// A full bucket is split, and the directory doubled, until the key's bucket has an empty slot. All memory is taken
    /// before the first write. After a fault of the vault the database is broken.
    #[tactic(auto, using(gd_vault::proofs::Writes::writes, crate::proofs::Asking::same_cached))]
    pub fn store<V: Vault>(
        &mut self,
        vault: &mut V,
        key: &[u8],
        value: &[u8],
        how: How,
    ) -> Result<(), DbError>
        requires file { HasFile (V.view_of vault.old) self.old.file }
        requires fits { Fits (V.view_of vault.old) self.old }
        ensures broken { self.old.broken ≡ true → RefusedAtOnce DbError.NeedRecovery result self.old self.new (V.view_of vault.old) (V.view_of vault.new) }
        ensures reader { self.old.broken ≡ false → self.old.access ≡ Access.Reader → RefusedAtOnce DbError.ReaderCant result self.old self.new (V.view_of vault.old) (V.view_of vault.new) }
        ensures large { self.old.broken ≡ false → self.old.access ≡ Access.Writer → 2 ^ 30 < length key.now + length value.now → RefusedAtOnce DbError.TooLarge result self.old self.new (V.view_of vault.old) (V.view_of vault.new) }
        ensures stored { OnOk result (Becomes (V.view_of vault.old) (V.view_of vault.new) self.old.file self.new (λ file. insert (pair_map (records file)) key.now value.now) (λ file. store_loss file key.now)) }
        ensures due { OnOk result (OnFile (V.view_of vault.old) self.old.file (λ file. store_due (records file) self.old.header.elems self.old.header.next_block how key.now value.now ≡ None)) }
        ensures refused { self.old.broken ≡ false → self.old.access ≡ Access.Writer → IfErr result (λ e. RefusedStoring e self.old.file (V.view_of vault.old) (V.view_of vault.new) (λ file. store_due (records file) self.old.header.elems self.old.header.next_block how key.now value.now)) }
        ensures cause { IfErr result (λ e. StoreCause e how self.old.header.next_block (length key.now + length value.now)) }
        ensures small { OnOk result (StoreFits self.old.header.next_block (length key.now + length value.now)) }
        ensures early { IfErr result (λ e. is_growth_error e ≡ false → SameButCached self.old self.new × OnlyAsks (V.view_of vault.old) (V.view_of vault.new)) }
        ensures kept { IfErr result (λ e. e ≢ DbError.VaultFault → IsAt (V.view_of vault.old) (λ _. SameButCached self.old self.new × OnlyAsks (V.view_of vault.old) (V.view_of vault.new))) }
        ensures breaks { self.new.broken ≡ (self.old.broken || is_fault result) }
        ensures fits { Fits (V.view_of vault.new) self.new }
        ensures there { HasFile (V.view_of vault.new) self.new.file }
        ensures same { Keeps self.old self.new }
        ensures growth { OnOk result (self.new.header.next_block + 2 * dir_size_of self.old.header.dir_bits ≤ self.old.header.next_block + (length key.now + length value.now) + 256 * self.old.header.block + 2 * dir_size_of self.new.header.dir_bits) }
        ensures growth_few { OnOk result (OnFile (V.view_of vault.old) self.old.file (λ file. has_slot file key.now ≡ true → self.new.header.next_block ≤ self.old.header.next_block + (length key.now + length value.now + 3 * self.old.header.block))) }
        ensures growth_none { OnOk result (OnFile (V.view_of vault.old) self.old.file (λ file. FindsRoom file self.old.table key.now (length key.now + length value.now) → self.new.header.next_block ≡ self.old.header.next_block)) }
        ensures amount { WritesAtMost (length key.now + length value.now + 100 * self.old.header.block + 4 * dir_size_of self.new.header.dir_bits) (V.view_of vault.old) (V.view_of vault.new) }
        ensures amount_few { OnFile (V.view_of vault.old) self.old.file (λ file. has_slot file key.now ≡ true → WritesAtMost (length key.now + length value.now + 3 * self.old.header.block) (V.view_of vault.old) (V.view_of vault.new)) }
        ensures frame { OnlyWrites self.old.file (V.view_of vault.old) (V.view_of vault.new) }
        ensures answered { OnOk result ((V.view_of vault.new).faults ≡ (V.view_of vault.old).faults) }
        ensures counted { IfErr result (λ e. Counts e (V.view_of vault.old).faults (V.view_of vault.new).faults) }
    {
        if self.broken {
            return Err(DbError::NeedRecovery);
        }
        if self.access == Access::Reader {
            return Err(DbError::ReaderCant);
        }
        if key.len() > 1 << 30 || value.len() > (1 << 30) - key.len() {
            return Err(DbError::TooLarge);
        }
        let answer = self.store_pair(vault, key, value, how);
        self.broken = is_fault(&answer);
        answer
    }
}
