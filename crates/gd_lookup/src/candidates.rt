//! The slot of a key in its bucket.

ghost use Rattle.std.specs.Prelude.{◌≡◌, ◌+◌, ◌-◌, ◌*◌, ◌%◌, ◌<◌, ◌≤◌, ◌^◌, true, Some, length, get_or, IfOk, IfErr, IfNone, IfSome};
ghost use Rattle.std.specs.Str.{bytes_eq};
ghost use Rattle.gd_format.specs.Field.{bytes_at};
ghost use Rattle.gd_format.specs.Hash.{hash_of};
ghost use Rattle.gd_map_laws.specs.Find.{is_slot_of};
ghost use Rattle.gd_bucket.specs.Probing.{is_candidate};
ghost use Rattle.gd_layout.specs.Fits.{FitsFields};
ghost use Rattle.gd_base.specs.Causes.{HasCause};
ghost use Rattle.gd_vault.specs.Views.{HasFile, OnlyAsks};
ghost use Rattle.gd_readable.specs.Asks.{Counts, IsIn};
ghost use Rattle.gd_open.specs.Files.{AtFile};
ghost use Rattle.gd_open.specs.Reading.{RefusesRead};
ghost use Rattle.gd_lookup.specs.Finding.{IsCandidateAt, IsKeyAbsent, IsKeySlot, OfKey};
ghost use Rattle.gd_lookup.specs.Reading.{LiesIn};

use gd_base::{DbError, Failed};
use gd_bucket::find;
use gd_format::Slot;
use gd_layout::Bucket;
use gd_open::OpenFile;
use gd_vault::Vault;

fn are_equal(one: &[u8], two: &[u8]) -> bool
    ensures { result ≡ bytes_eq one.now two.now }
{
    one == two
}

// Are the bytes from a place on those of a key? None where the file ends before.
fn same_as_key<V: Vault>(
    file: &OpenFile,
    vault: &mut V,
    at: u64,
    key: &[u8],
    scratch: &mut [u8],
) -> Result<Option<bool>, Failed>
    requires file { HasFile (V.view_of vault.old) file.now.id }
    requires room { 0 < length scratch.old }
    requires ends { at + length key.now < 2 ^ 64 }
    ensures asks { OnlyAsks (V.view_of vault.old) (V.view_of vault.new) }
    ensures cause { HasCause (V.view_of vault.old).faults (V.view_of vault.new).faults result }
    ensures answer { IfOk result (λ r. AtFile (V.view_of vault.old) file.now.id (λ bytes. IsIn bytes at (length key.now) → r ≡ Some (bytes_eq (bytes_at bytes at (length key.now)) key.now))) }
{
    let mut done = 0;
    'pieces: while done < key.len() {
        let n = (key.len() - done).min(scratch.len());
        let part = &mut scratch[..n];
        if !file.read_bytes(vault, at + done as u64, part)? {
            return Ok(None);
        }
        if !are_equal(part, &key[done..done + n]) {
            return Ok(Some(false));
        }
        done += n;
    }
    Ok(Some(true))
}

// Is a candidate of a key the key's slot?
#[tactic(auto, using(gd_open::proofs::Opens::faulted))]
fn is_own<V: Vault>(
    file: &OpenFile,
    vault: &mut V,
    at: u64,
    place: u32,
    slot: &Slot,
    hash: u32,
    key: &[u8],
) -> Result<bool, DbError>
    requires file { HasFile (V.view_of vault.old) file.now.id }
    requires fits { FitsFields slot.now }
    requires candidate { is_candidate hash key.now slot.now ≡ true }
    requires inside { AtFile (V.view_of vault.old) file.now.id (λ bytes. LiesIn (length bytes) slot.now) }
    ensures asks { OnlyAsks (V.view_of vault.old) (V.view_of vault.new) }
    ensures answered { IfOk result (λ _. (V.view_of vault.new).faults ≡ (V.view_of vault.old).faults) }
    ensures counted { IfErr result (λ e. Counts e (V.view_of vault.old).faults (V.view_of vault.new).faults) }
    ensures own { IfOk result (λ r. AtFile (V.view_of vault.old) file.now.id (λ bytes. r ≡ is_slot_of bytes key.now slot.now)) }
    ensures refused { IfErr result (λ e. RefusesRead e (V.view_of vault.old) (V.view_of vault.new)) }
{
    let Slot::Full { at: from, .. } = *slot else {
        return Ok(false);
    };
    let mut scratch = [0; 256];
    let Ok(same) = same_as_key(file, vault, from, key, &mut scratch) else {
        return Err(DbError::VaultFault);
    };
    match same {
        Some(same) => Ok(same),
        None => Err(DbError::BadHashEntry(at, place)),
    }
}

// The place that comes `distance` places after the home of a hash, in a round of `n`.
fn place_from_home(n: u32, hash: u32, distance: u32) -> u32
    requires { distance < n }
    ensures place { result ≡ (hash % n + distance) % n }
    ensures below { result < n }
{
    let home = hash % n;
    if distance < n - home {
        home + distance
    } else {
        distance - (n - home)
    }
}

/// The place of the slot of a key in its bucket, which stands at the address `at`. Takes no memory.
pub fn find_key<V: Vault>(
    file: &OpenFile,
    vault: &mut V,
    at: u64,
    bucket: &Bucket,
    hash: u32,
    key: &[u8],
) -> Result<Option<u32>, DbError>
    requires file { HasFile (V.view_of vault.old) file.now.id }
    requires some { 0 < length bucket.now.slots }
    requires hash { hash ≡ hash_of key.now }
    requires bucket { OfKey (V.view_of vault.old) file.now.id key.now bucket.now.slots }
    ensures asks { OnlyAsks (V.view_of vault.old) (V.view_of vault.new) }
    ensures answered { IfOk result (λ _. (V.view_of vault.new).faults ≡ (V.view_of vault.old).faults) }
    ensures counted { IfErr result (λ e. Counts e (V.view_of vault.old).faults (V.view_of vault.new).faults) }
    ensures candidate { IfOk result (λ r. IfSome r (λ p. IsCandidateAt bucket.now.slots hash key.now p)) }
    ensures present { IfOk result (λ r. IfSome r (λ p. AtFile (V.view_of vault.old) file.now.id (λ bytes. IsKeySlot bytes key.now (get_or bucket.now.slots p Slot.Empty)))) }
    ensures absent { IfOk result (λ r. IfNone r (AtFile (V.view_of vault.old) file.now.id (λ bytes. IsKeyAbsent bytes key.now bucket.now.slots))) }
    ensures refused { IfErr result (λ e. RefusesRead e (V.view_of vault.old) (V.view_of vault.new)) }
{
    let slots = bucket.slots();
    let n = slots.len() as u32;
    let mut from = 0;
    'candidates: loop {
        let Some(distance) = find(bucket, hash, key, from) else {
            return Ok(None);
        };
        let place = place_from_home(n, hash, distance);
        let own = is_own(file, vault, at, place, &slots[place as usize], hash, key)?;
        if own {
            return Ok(Some(place));
        }
        from = distance + 1;
    }
}
