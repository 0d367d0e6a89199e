//! The keys of a file in order: by the slots of a bucket, and by the runs of the directory.

ghost use Rattle.std.specs.Prelude.{◌≡◌, ◌+◌, ◌-◌, ◌*◌, ◌/◌, ◌<◌, ◌≤◌, ◌^◌, ◌++◌, false, true, [], ◌∷◌, length, IfOk, IfErr, IfNone, IfSome};
ghost use Rattle.gd_format.specs.File.{are_fields_right, block_of, entries_of, is_full_at, is_record_in, key_of, records};
ghost use Rattle.gd_format.specs.HeaderFault.{natural};
ghost use Rattle.gd_vault.specs.Views.{HasFile, OnlyAsks};
ghost use Rattle.gd_readable.specs.Asks.{Counts};
ghost use Rattle.gd_readable.specs.Left.{passing_from, slots_left, buckets_left};
ghost use Rattle.gd_open.specs.Files.{AtFile, OfFile};
ghost use Rattle.gd_open.specs.Open.{IsFit};
ghost use Rattle.gd_open.specs.Reading.{RefusesRead};
ghost use Rattle.gd_lookup.specs.Counting.{behind, Begins, IsBlock};
ghost use Rattle.gd_lookup.specs.Order.{first_of, following, successor};

use crate::Successor;
use crate::candidates::find_key;
use crate::records::{dir_bits, entry_count, part_of_record};
use crate::totals::share_of;
use gd_base::{Datum, DbError};
use gd_format::RawSlot;
use gd_layout::{Native, hash};
use gd_open::OpenFile;
use gd_vault::Vault;
use std::alloc::Global;

// The next full slot of a bucket, from one on.
#[tactic(auto, using(gd_readable::proofs::Passing::passing_on, gd_readable::proofs::Passing::passing_found, gd_readable::proofs::Passing::passing_end), unfolding(gd_format::specs::File::is_full_at))]
fn next_full(block: &[u8], elems: u32, from: u32) -> Option<u32>
    requires size { 112 + 24 * elems ≤ length block.now }
    requires slot { from ≤ elems }
    ensures some { IfSome result (λ s. (from ≤ s) × (s < elems) × (is_full_at block.now s ≡ true) × (passing_from (is_full_at block.now) elems from ≡ s ∷ passing_from (is_full_at block.now) elems (s + 1))) }
    ensures none { IfNone result (passing_from (is_full_at block.now) elems from ≡ []) }
{
    for s in from..elems {
        if Native::raw_slot(block, s).hash != -1 {
            return Some(s);
        }
    }
    None
}

// Where the key of a slot stands and its size, where the numbers are right.
#[tactic(auto, unfolding(gd_format::specs::File::are_fields_right))]
fn key_place(raw: &RawSlot) -> Option<(u64, u32)>
    ensures some { IfSome result (λ p. (p.0 ≡ natural raw.now.at) × (p.1 ≡ natural raw.now.key_size)) }
    ensures none { IfNone result (are_fields_right raw.now ≡ false) }
{
    if raw.at < 0 || raw.key_size < 0 {
        return None;
    }
    Some((raw.at.cast_unsigned(), raw.key_size.cast_unsigned()))
}

// The key of a slot as it stands.
fn raw_key<V: Vault>(
    file: &OpenFile,
    alloc: Global,
    vault: &mut V,
    at: u64,
    place: u32,
    raw: &RawSlot,
) -> Result<Datum, DbError>
    requires file { HasFile (V.view_of vault.old) file.now.id }
    requires right { AtFile (V.view_of vault.old) file.now.id (λ bytes. (are_fields_right raw.now ≡ true) × (is_record_in (length bytes) raw.now ≡ true)) }
    ensures asks { OnlyAsks (V.view_of vault.old) (V.view_of vault.new) }
    ensures answered { IfOk result (λ _. (V.view_of vault.new).faults ≡ (V.view_of vault.old).faults) }
    ensures counted { IfErr result (λ e. Counts e (V.view_of vault.old).faults (V.view_of vault.new).faults) }
    ensures key { IfOk result (λ k. AtFile (V.view_of vault.old) file.now.id (λ bytes. k ≡ key_of bytes raw.now)) }
    ensures refused { IfErr result (λ e. RefusesRead e (V.view_of vault.old) (V.view_of vault.new)) }
{
    let Some(key) = key_place(raw) else {
        return Err(DbError::BadHashEntry(at, place));
    };
    let bytes = part_of_record(file, alloc, vault, key.0, key.1, (at, place))?;
    Ok(bytes)
}

// The first key of a bucket, from a slot on.
fn first_in_block<V: Vault>(
    file: &OpenFile,
    alloc: Global,
    vault: &mut V,
    at: u64,
    from: u32,
) -> Result<Option<Datum>, DbError>
    requires file { HasFile (V.view_of vault.old) file.now.id }
    requires slot { from ≤ file.now.header.elems }
    requires readable { OfFile (V.view_of vault.old) file.now.id file.now.header }
    requires block { AtFile (V.view_of vault.old) file.now.id (λ bytes. IsBlock bytes file.now.header file.now.block) }
    ensures asks { OnlyAsks (V.view_of vault.old) (V.view_of vault.new) }
    ensures answered { IfOk result (λ _. (V.view_of vault.new).faults ≡ (V.view_of vault.old).faults) }
    ensures counted { IfErr result (λ e. Counts e (V.view_of vault.old).faults (V.view_of vault.new).faults) }
    ensures some { IfOk result (λ r. IfSome r (λ _. AtFile (V.view_of vault.old) file.now.id (λ bytes. first_of (slots_left bytes file.now.header.elems file.now.block from) ≡ r))) }
    ensures none { IfOk result (λ r. IfNone r (passing_from (is_full_at file.now.block) file.now.header.elems from ≡ [])) }
    ensures refused { IfErr result (λ e. RefusesRead e (V.view_of vault.old) (V.view_of vault.new)) }
{
    let elems = file.header().elems;
    let Some(s) = next_full(file.block(), elems, from) else {
        return Ok(None);
    };
    let raw = Native::raw_slot(file.block(), s);
    let key = raw_key(file, alloc, vault, at, s, &raw)?;
    Ok(Some(key))
}

// The first key of the runs from one on.
fn first_from<V: Vault>(
    file: &mut OpenFile,
    alloc: Global,
    vault: &mut V,
    from: u64,
) -> Result<Option<Datum>, DbError>
    requires file { HasFile (V.view_of vault.old) file.old.id }
    requires readable { OfFile (V.view_of vault.old) file.old.id file.old.header }
    requires begins { AtFile (V.view_of vault.old) file.old.id (λ bytes. Begins bytes file.old.header from) }
    ensures asks { OnlyAsks (V.view_of vault.old) (V.view_of vault.new) }
    ensures answered { IfOk result (λ _. (V.view_of vault.new).faults ≡ (V.view_of vault.old).faults) }
    ensures counted { IfErr result (λ e. Counts e (V.view_of vault.old).faults (V.view_of vault.new).faults) }
    ensures same { file.new ≡ record file.old { block = file.new.block } }
    ensures fit { IsFit file.new }
    ensures first { IfOk result (λ r. AtFile (V.view_of vault.old) file.old.id (λ bytes. r ≡ first_of (buckets_left bytes file.old.header from))) }
    ensures refused { IfErr result (λ e. RefusesRead e (V.view_of vault.old) (V.view_of vault.new)) }
{
    let bits = dir_bits(file);
    let entries = entry_count(file);
    let mut i = from;
    'runs: while i < entries {
        let at = file.entry(vault, i)?;
        file.read_block(vault, at)?;
        let first = first_in_block(file, alloc, vault, at, 0)?;
        if let Some(key) = first {
            return Ok(Some(key));
        }
        let Some(share) = share_of(bits, Native::counts(file.block())) else {
            return Err(DbError::BadBucket(at));
        };
        i += share.run;
    }
    Ok(None)
}

/// The first key in file order.
pub fn first_key<V: Vault>(
    file: &mut OpenFile,
    alloc: Global,
    vault: &mut V,
) -> Result<Option<Datum>, DbError>
    requires file { HasFile (V.view_of vault.old) file.old.id }
    requires readable { OfFile (V.view_of vault.old) file.old.id file.old.header }
    ensures asks { OnlyAsks (V.view_of vault.old) (V.view_of vault.new) }
    ensures answered { IfOk result (λ _. (V.view_of vault.new).faults ≡ (V.view_of vault.old).faults) }
    ensures counted { IfErr result (λ e. Counts e (V.view_of vault.old).faults (V.view_of vault.new).faults) }
    ensures same { file.new ≡ record file.old { block = file.new.block } }
    ensures fit { IsFit file.new }
    ensures first { IfOk result (λ r. AtFile (V.view_of vault.old) file.old.id (λ bytes. r ≡ first_of (records bytes))) }
    ensures refused { IfErr result (λ e. RefusesRead e (V.view_of vault.old) (V.view_of vault.new)) }
{
    let first = first_from(file, alloc, vault, 0)?;
    Ok(first)
}

// The first key behind a slot of the bucket of an entry, of which the block was read last.
fn first_behind<V: Vault>(
    file: &mut OpenFile,
    alloc: Global,
    vault: &mut V,
    i: u64,
    at: u64,
    place: u32,
) -> Result<Option<Datum>, DbError>
    requires file { HasFile (V.view_of vault.old) file.old.id }
    requires within { i < entries_of file.old.header }
    requires place { place < file.old.header.elems }
    requires readable { OfFile (V.view_of vault.old) file.old.id file.old.header }
    requires block { AtFile (V.view_of vault.old) file.old.id (λ bytes. file.old.block ≡ block_of bytes file.old.header i) }
    ensures asks { OnlyAsks (V.view_of vault.old) (V.view_of vault.new) }
    ensures answered { IfOk result (λ _. (V.view_of vault.new).faults ≡ (V.view_of vault.old).faults) }
    ensures counted { IfErr result (λ e. Counts e (V.view_of vault.old).faults (V.view_of vault.new).faults) }
    ensures same { file.new ≡ record file.old { block = file.new.block } }
    ensures fit { IsFit file.new }
    ensures first { IfOk result (λ r. AtFile (V.view_of vault.old) file.old.id (λ bytes. r ≡ first_of (slots_left bytes file.old.header.elems (block_of bytes file.old.header i) (place + 1) ++ buckets_left bytes file.old.header (behind bytes file.old.header i)))) }
    ensures refused { IfErr result (λ e. RefusesRead e (V.view_of vault.old) (V.view_of vault.new)) }
{
    let bits = dir_bits(file);
    let first = first_in_block(file, alloc, vault, at, place + 1)?;
    if let Some(key) = first {
        return Ok(Some(key));
    }
    let Some(share) = share_of(bits, Native::counts(file.block())) else {
        return Err(DbError::BadBucket(at));
    };
    let next = (i / share.run + 1) * share.run;
    let first = first_from(file, alloc, vault, next)?;
    Ok(first)
}

fn successor_from(next: Option<Datum>) -> Successor
    ensures { result ≡ following next }
{
    match next {
        Some(key) => Successor::Key(key),
        None => Successor::Last,
    }
}

/// What follows a key in file order.
pub fn key_after<V: Vault>(
    file: &mut OpenFile,
    alloc: Global,
    vault: &mut V,
    key: &[u8],
) -> Result<Successor, DbError>
    requires file { HasFile (V.view_of vault.old) file.old.id }
    requires readable { OfFile (V.view_of vault.old) file.old.id file.old.header }
    ensures asks { OnlyAsks (V.view_of vault.old) (V.view_of vault.new) }
    ensures answered { IfOk result (λ _. (V.view_of vault.new).faults ≡ (V.view_of vault.old).faults) }
    ensures counted { IfErr result (λ e. Counts e (V.view_of vault.old).faults (V.view_of vault.new).faults) }
    ensures same { file.new ≡ record file.old { block = file.new.block } }
    ensures fit { IsFit file.new }
    ensures next { IfOk result (λ r. AtFile (V.view_of vault.old) file.old.id (λ bytes. r ≡ successor key.now (records bytes))) }
    ensures refused { IfErr result (λ e. RefusesRead e (V.view_of vault.old) (V.view_of vault.new)) }
{
    let hash = hash(key);
    let i = u64::from(hash >> (31 - dir_bits(file)));
    let at = file.entry(vault, i)?;
    let bucket = file.read_bucket(alloc, vault, at)?;
    let found = find_key(file, vault, at, &bucket, hash, key)?;
    let Some(place) = found else {
        return Ok(Successor::Absent);
    };
    let next = first_behind(file, alloc, vault, i, at, place)?;
    Ok(successor_from(next))
}
