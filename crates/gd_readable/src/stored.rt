//! The slots of one bucket with their keys, which are read from the file.

ghost use Rattle.std.specs.Prelude.{◌≡◌, ◌+◌, ◌-◌, ◌*◌, ◌<◌, ◌≤◌, ◌^◌, ◌&&◌, true, None, Some, take, length, IfOk, IfErr, IfSome};
ghost use Rattle.std.specs.Str.{bytes_eq};
ghost use Rattle.gd_format.specs.Field.{bytes_at};
ghost use Rattle.gd_format.specs.First.{first_below};
ghost use Rattle.gd_format.specs.HeaderFault.{natural};
ghost use Rattle.gd_format.specs.Bucket.{raw_slot_at};
ghost use Rattle.gd_format.specs.File.{are_fields_right, is_record_in, is_other_key, is_key_of, is_key_new, is_slot_right, slot_fault, slots_fault, key_of, bits_at};
ghost use Rattle.gd_readable.specs.Asks.{kept_of, bytes_in, is_there, Tells, IsCause, IsIn, is_of_readable};
ghost use Rattle.gd_readable.specs.Checks.{HasKey, HaveKeys, SeesHashes};

use crate::keys::{address, has_record_in, has_right_fields, hash_field, is_key_right, key_size};
use crate::reading::{Stopped, are_equal, fill, hash_at, same_at};
use crate::slots::{has_right_count, is_full, natural_of, unreached};
use gd_base::DbError;
use gd_format::RawSlot;
use gd_layout::Native;
use gd_vault::{FileId, Vault};
use std::alloc::Global;
use std::collections::HashSet;

// Does a key begin with the bytes of its slot?
fn is_start_at<V: Vault>(
    vault: &mut V,
    f: FileId,
    at: u64,
    size: u32,
    start: &[u8],
) -> Result<bool, Stopped>
    requires there { is_there (kept_of (V.view_of vault.old)) f.0 ≡ true }
    requires four { length start.now ≡ 4 }
    ensures same { kept_of (V.view_of vault.new) ≡ kept_of (V.view_of vault.old) }
    ensures later { (V.view_of vault.old).faults ≤ (V.view_of vault.new).faults }
    ensures answered { IfOk result (λ _. (V.view_of vault.new).faults ≡ (V.view_of vault.old).faults) }
    ensures failed { IfErr result (λ e. IsCause e (V.view_of vault.old).faults (V.view_of vault.new).faults) }
    ensures answer { IfOk result (λ r. Tells (bytes_in (kept_of (V.view_of vault.old)) f.0) (λ file. 0 < size → at + size ≤ length file → r ≡ bytes_eq (take 4 (bytes_at file at size)) (take (length (take 4 (bytes_at file at size))) start.now))) }
{
    let n = size.min(4) as usize;
    let mut bytes = [0; 4];
    let part = &mut bytes[..n];
    if !fill(vault, f, at, part)? {
        return Ok(false);
    }
    Ok(are_equal(part, &start[..n]))
}

// Has a key that is longer than the scratch buffer the hash and the first bytes of its slot, and the hash the top
// bits of the run?
#[tactic(auto, unfolding(gd_format::specs::File::is_key_of, gd_format::specs::File::key_of), using(crate::proofs::Asks::cause_later))]
fn is_long_key_right<V: Vault>(
    vault: &mut V,
    f: FileId,
    raw: &RawSlot,
    bits: u32,
    top: u64,
    scratch: &mut [u8],
) -> Result<bool, Stopped>
    requires there { is_there (kept_of (V.view_of vault.old)) f.0 ≡ true }
    requires room { 0 < length scratch.old }
    requires bits { bits ≤ 24 }
    requires some { 0 < natural raw.now.key_size }
    ensures same { kept_of (V.view_of vault.new) ≡ kept_of (V.view_of vault.old) }
    ensures later { (V.view_of vault.old).faults ≤ (V.view_of vault.new).faults }
    ensures answered { IfOk result (λ _. (V.view_of vault.new).faults ≡ (V.view_of vault.old).faults) }
    ensures failed { IfErr result (λ e. IsCause e (V.view_of vault.old).faults (V.view_of vault.new).faults) }
    ensures answer { IfOk result (λ r. Tells (bytes_in (kept_of (V.view_of vault.old)) f.0) (λ file. IsIn file (natural raw.now.at) (natural raw.now.key_size) → r ≡ is_key_of bits top raw.now (key_of file raw.now))) }
{
    let at = address(raw);
    let size = key_size(raw);
    let Some(hash) = hash_at(vault, f, at, u64::from(size), scratch)? else {
        return Ok(false);
    };
    if raw.hash < 0 || raw.hash.cast_unsigned() != hash {
        return Ok(false);
    }
    if u64::from(hash >> (31 - bits)) != top {
        return Ok(false);
    }
    let starts = is_start_at(vault, f, at, size, &raw.start)?;
    Ok(starts)
}

// The same of a key that the buffer has room for.
#[tactic(auto, unfolding(gd_format::specs::File::key_of), using(crate::proofs::Asks::cause_later))]
fn is_short_key_right<V: Vault>(
    vault: &mut V,
    f: FileId,
    raw: &RawSlot,
    bits: u32,
    top: u64,
    scratch: &mut [u8],
) -> Result<bool, Stopped>
    requires there { is_there (kept_of (V.view_of vault.old)) f.0 ≡ true }
    requires room { natural raw.now.key_size ≤ length scratch.old }
    requires bits { bits ≤ 24 }
    ensures same { kept_of (V.view_of vault.new) ≡ kept_of (V.view_of vault.old) }
    ensures later { (V.view_of vault.old).faults ≤ (V.view_of vault.new).faults }
    ensures answered { IfOk result (λ _. (V.view_of vault.new).faults ≡ (V.view_of vault.old).faults) }
    ensures failed { IfErr result (λ e. IsCause e (V.view_of vault.old).faults (V.view_of vault.new).faults) }
    ensures answer { IfOk result (λ r. Tells (bytes_in (kept_of (V.view_of vault.old)) f.0) (λ file. IsIn file (natural raw.now.at) (natural raw.now.key_size) → r ≡ is_key_of bits top raw.now (key_of file raw.now))) }
{
    let n = key_size(raw) as usize;
    let key = &mut scratch[..n];
    if n > 0 && !fill(vault, f, address(raw), key)? {
        return Ok(false);
    }
    Ok(is_key_right(raw, bits, top, key))
}

fn is_stored_key_right<V: Vault>(
    vault: &mut V,
    f: FileId,
    raw: &RawSlot,
    bits: u32,
    top: u64,
    scratch: &mut [u8],
) -> Result<bool, Stopped>
    requires there { is_there (kept_of (V.view_of vault.old)) f.0 ≡ true }
    requires room { 0 < length scratch.old }
    requires bits { bits ≤ 24 }
    ensures same { kept_of (V.view_of vault.new) ≡ kept_of (V.view_of vault.old) }
    ensures later { (V.view_of vault.old).faults ≤ (V.view_of vault.new).faults }
    ensures answered { IfOk result (λ _. (V.view_of vault.new).faults ≡ (V.view_of vault.old).faults) }
    ensures failed { IfErr result (λ e. IsCause e (V.view_of vault.old).faults (V.view_of vault.new).faults) }
    ensures answer { IfOk result (λ r. Tells (bytes_in (kept_of (V.view_of vault.old)) f.0) (λ file. IsIn file (natural raw.now.at) (natural raw.now.key_size) → r ≡ is_key_of bits top raw.now (key_of file raw.now))) }
{
    if key_size(raw) as usize <= scratch.len() {
        is_short_key_right(vault, f, raw, bits, top, scratch)
    } else {
        is_long_key_right(vault, f, raw, bits, top, scratch)
    }
}

// Have two slots the same key?
#[tactic(auto, unfolding(gd_format::specs::File::key_of), using(crate::proofs::Places::other_size))]
fn have_same_key<V: Vault>(
    vault: &mut V,
    f: FileId,
    a: &RawSlot,
    b: &RawSlot,
    one: &mut [u8],
    two: &mut [u8],
) -> Result<Option<bool>, Stopped>
    requires there { is_there (kept_of (V.view_of vault.old)) f.0 ≡ true }
    requires room { 0 < length one.old }
    requires rooms { length two.old ≡ length one.old }
    ensures same { kept_of (V.view_of vault.new) ≡ kept_of (V.view_of vault.old) }
    ensures later { (V.view_of vault.old).faults ≤ (V.view_of vault.new).faults }
    ensures answered { IfOk result (λ _. (V.view_of vault.new).faults ≡ (V.view_of vault.old).faults) }
    ensures failed { IfErr result (λ e. IsCause e (V.view_of vault.old).faults (V.view_of vault.new).faults) }
    ensures answer { IfOk result (λ r. Tells (bytes_in (kept_of (V.view_of vault.old)) f.0) (λ file. IsIn file (natural a.now.at) (natural a.now.key_size) → IsIn file (natural b.now.at) (natural b.now.key_size) → r ≡ Some (bytes_eq (key_of file a.now) (key_of file b.now)))) }
{
    let size = key_size(a);
    if key_size(b) != size {
        return Ok(Some(false));
    }
    let same = same_at(vault, f, address(a), address(b), u64::from(size), one, two)?;
    Ok(same)
}

// Has the slot t, where it is full, another key than the slot s?
#[tactic(auto, unfolding(gd_format::specs::File::is_other_key), using(crate::proofs::Places::other_hash))]
fn has_other_key<V: Vault>(
    vault: &mut V,
    f: FileId,
    block: &[u8],
    raw: &RawSlot,
    s: u32,
    t: u32,
    one: &mut [u8],
    two: &mut [u8],
) -> Result<bool, Stopped>
    requires there { is_there (kept_of (V.view_of vault.old)) f.0 ≡ true }
    requires slot { raw.now ≡ raw_slot_at block.now s }
    requires size { 112 + 24 * (s + 1) ≤ length block.now }
    requires before { t < s }
    requires room { 0 < length one.old }
    requires rooms { length two.old ≡ length one.old }
    ensures same { kept_of (V.view_of vault.new) ≡ kept_of (V.view_of vault.old) }
    ensures later { (V.view_of vault.old).faults ≤ (V.view_of vault.new).faults }
    ensures answered { IfOk result (λ _. (V.view_of vault.new).faults ≡ (V.view_of vault.old).faults) }
    ensures failed { IfErr result (λ e. IsCause e (V.view_of vault.old).faults (V.view_of vault.new).faults) }
    ensures answer { IfOk result (λ r. Tells (bytes_in (kept_of (V.view_of vault.old)) f.0) (λ file. HasKey file raw.now → HaveKeys file block.now s → r ≡ is_other_key file block.now s t)) }
{
    if !is_full(block, t) {
        return Ok(true);
    }
    let other = Native::raw_slot(block, t);
    if hash_field(&other) != hash_field(raw) {
        return Ok(true);
    }
    let Some(same) = have_same_key(vault, f, &other, raw, one, two)? else {
        return Ok(false);
    };
    Ok(!same)
}

// Has no full slot before s the key of s?
#[tactic(auto, unfolding(gd_format::specs::File::is_key_new), using(gd_format::proofs::Firsts::all_below_more, gd_format::proofs::Firsts::all_below_stops, crate::proofs::Asks::cause_later))]
fn differs_from_all<V: Vault>(
    vault: &mut V,
    f: FileId,
    block: &[u8],
    raw: &RawSlot,
    s: u32,
    one: &mut [u8],
    two: &mut [u8],
) -> Result<bool, Stopped>
    requires there { is_there (kept_of (V.view_of vault.old)) f.0 ≡ true }
    requires slot { raw.now ≡ raw_slot_at block.now s }
    requires size { 112 + 24 * (s + 1) ≤ length block.now }
    requires room { 0 < length one.old }
    requires rooms { length two.old ≡ length one.old }
    ensures same { kept_of (V.view_of vault.new) ≡ kept_of (V.view_of vault.old) }
    ensures later { (V.view_of vault.old).faults ≤ (V.view_of vault.new).faults }
    ensures answered { IfOk result (λ _. (V.view_of vault.new).faults ≡ (V.view_of vault.old).faults) }
    ensures failed { IfErr result (λ e. IsCause e (V.view_of vault.old).faults (V.view_of vault.new).faults) }
    ensures answer { IfOk result (λ r. Tells (bytes_in (kept_of (V.view_of vault.old)) f.0) (λ file. HasKey file raw.now → HaveKeys file block.now s → r ≡ is_key_new file block.now s)) }
{
    for t in 0..s {
        if !has_other_key(vault, f, block, raw, s, t, one, two)? {
            return Ok(false);
        }
    }
    Ok(true)
}

// The same, by the hashes of the slots before: only keys of one hash are compared.
fn has_new_key<V: Vault>(
    vault: &mut V,
    f: FileId,
    seen: &mut HashSet<u32>,
    block: &[u8],
    raw: &RawSlot,
    s: u32,
    one: &mut [u8],
    two: &mut [u8],
) -> Result<bool, Stopped>
    requires there { is_there (kept_of (V.view_of vault.old)) f.0 ≡ true }
    requires slot { raw.now ≡ raw_slot_at block.now s }
    requires size { 112 + 24 * (s + 1) ≤ length block.now }
    requires seen { SeesHashes seen.old block.now s }
    requires room { 0 < length one.old }
    requires rooms { length two.old ≡ length one.old }
    ensures same { kept_of (V.view_of vault.new) ≡ kept_of (V.view_of vault.old) }
    ensures later { (V.view_of vault.old).faults ≤ (V.view_of vault.new).faults }
    ensures answered { IfOk result (λ _. (V.view_of vault.new).faults ≡ (V.view_of vault.old).faults) }
    ensures failed { IfErr result (λ e. IsCause e (V.view_of vault.old).faults (V.view_of vault.new).faults) }
    ensures answer { IfOk result (λ r. Tells (bytes_in (kept_of (V.view_of vault.old)) f.0) (λ file. HasKey file raw.now → HaveKeys file block.now s → r ≡ is_key_new file block.now s)) }
    ensures seen { IfOk result (λ _. SeesHashes seen.new block.now (s + 1)) }
{
    match seen.insert(hash_field(raw)) {
        Ok(true) => Ok(true),
        Ok(false) => differs_from_all(vault, f, block, raw, s, one, two),
        Err(_) => Err(Stopped::NoMemory),
    }
}

// Has a full slot right fields, a record in a file of `len` bytes, and a right key?
#[tactic(auto, using(crate::proofs::Asks::cause_later))]
fn has_right_record<V: Vault>(
    vault: &mut V,
    f: FileId,
    raw: &RawSlot,
    len: u64,
    bits: u32,
    top: u64,
    scratch: &mut [u8],
) -> Result<bool, Stopped>
    requires there { is_there (kept_of (V.view_of vault.old)) f.0 ≡ true }
    requires room { 0 < length scratch.old }
    requires bits { bits ≤ 24 }
    ensures same { kept_of (V.view_of vault.new) ≡ kept_of (V.view_of vault.old) }
    ensures later { (V.view_of vault.old).faults ≤ (V.view_of vault.new).faults }
    ensures answered { IfOk result (λ _. (V.view_of vault.new).faults ≡ (V.view_of vault.old).faults) }
    ensures failed { IfErr result (λ e. IsCause e (V.view_of vault.old).faults (V.view_of vault.new).faults) }
    ensures answer { IfOk result (λ r. Tells (bytes_in (kept_of (V.view_of vault.old)) f.0) (λ file. length file ≡ len → r ≡ (are_fields_right raw.now && is_record_in (length file) raw.now && is_key_of bits top raw.now (key_of file raw.now)))) }
    ensures key { IfOk result (λ r. Tells (bytes_in (kept_of (V.view_of vault.old)) f.0) (λ file. length file ≡ len → r ≡ true → HasKey file raw.now)) }
{
    if !has_right_fields(raw) {
        return Ok(false);
    }
    if !has_record_in(len, raw) {
        return Ok(false);
    }
    let right = is_stored_key_right(vault, f, raw, bits, top, scratch)?;
    Ok(right)
}

// The refusal of one slot.
#[tactic(auto, unfolding(gd_format::specs::File::slot_fault, gd_format::specs::File::is_slot_right), using(crate::proofs::Asks::cause_later))]
fn slot_refusal<V: Vault>(
    vault: &mut V,
    f: FileId,
    seen: &mut HashSet<u32>,
    block: &[u8],
    s: u32,
    at: u64,
    len: u64,
    top: u64,
    one: &mut [u8],
    two: &mut [u8],
) -> Result<Option<DbError>, Stopped>
    requires there { is_there (kept_of (V.view_of vault.old)) f.0 ≡ true }
    requires size { 112 + 24 * (s + 1) ≤ length block.now }
    requires bits { bits_at block.now ≤ 24 }
    requires seen { SeesHashes seen.old block.now s }
    requires room { 0 < length one.old }
    requires rooms { length two.old ≡ length one.old }
    ensures same { kept_of (V.view_of vault.new) ≡ kept_of (V.view_of vault.old) }
    ensures later { (V.view_of vault.old).faults ≤ (V.view_of vault.new).faults }
    ensures answered { IfOk result (λ _. (V.view_of vault.new).faults ≡ (V.view_of vault.old).faults) }
    ensures failed { IfErr result (λ e. IsCause e (V.view_of vault.old).faults (V.view_of vault.new).faults) }
    ensures kind { IfOk result (λ r. IfSome r (λ e. is_of_readable e ≡ true)) }
    ensures refusal { IfOk result (λ r. Tells (bytes_in (kept_of (V.view_of vault.old)) f.0) (λ file. length file ≡ len → HaveKeys file block.now s → r ≡ slot_fault file block.now at top s)) }
    ensures keys { IfOk result (λ r. Tells (bytes_in (kept_of (V.view_of vault.old)) f.0) (λ file. length file ≡ len → HaveKeys file block.now s → r ≡ None → HaveKeys file block.now (s + 1))) }
    ensures seen { IfOk result (λ r. r ≡ None → SeesHashes seen.new block.now (s + 1)) }
{
    if !is_full(block, s) {
        return Ok(None);
    }
    let raw = Native::raw_slot(block, s);
    let bits = natural_of(Native::counts(block).bits);
    if !has_right_record(vault, f, &raw, len, bits, top, one)? {
        return Ok(Some(DbError::BadHashEntry(at, s)));
    }
    if has_new_key(vault, f, seen, block, &raw, s, one, two)? {
        Ok(None)
    } else {
        Ok(Some(DbError::BadHashEntry(at, s)))
    }
}

// The first refusal of a slot.
#[tactic(auto, using(gd_format::proofs::Firsts::first_below_more, gd_format::proofs::Firsts::first_below_found, crate::proofs::Asks::cause_later))]
fn wrong_slot<V: Vault>(
    alloc: Global,
    vault: &mut V,
    f: FileId,
    block: &[u8],
    elems: u32,
    at: u64,
    len: u64,
    top: u64,
    one: &mut [u8],
    two: &mut [u8],
) -> Result<Option<DbError>, Stopped>
    requires there { is_there (kept_of (V.view_of vault.old)) f.0 ≡ true }
    requires size { 112 + 24 * elems ≤ length block.now }
    requires bits { bits_at block.now ≤ 24 }
    requires room { 0 < length one.old }
    requires rooms { length two.old ≡ length one.old }
    ensures same { kept_of (V.view_of vault.new) ≡ kept_of (V.view_of vault.old) }
    ensures later { (V.view_of vault.old).faults ≤ (V.view_of vault.new).faults }
    ensures answered { IfOk result (λ _. (V.view_of vault.new).faults ≡ (V.view_of vault.old).faults) }
    ensures failed { IfErr result (λ e. IsCause e (V.view_of vault.old).faults (V.view_of vault.new).faults) }
    ensures kind { IfOk result (λ r. IfSome r (λ e. is_of_readable e ≡ true)) }
    ensures refusal { IfOk result (λ r. Tells (bytes_in (kept_of (V.view_of vault.old)) f.0) (λ file. length file ≡ len → r ≡ first_below elems (slot_fault file block.now at top))) }
{
    let mut seen = HashSet::new(alloc);
    for s in 0..elems {
        let refusal = slot_refusal(vault, f, &mut seen, block, s, at, len, top, one, two)?;
        if let Some(e) = refusal {
            return Ok(Some(e));
        }
    }
    Ok(None)
}

/// The first refusal of the slots of the bucket at an address, whose block is given, under the top bits of its run.
#[tactic(auto, unfolding(gd_format::specs::File::slots_fault), using(crate::proofs::Refusals::reach_kind))]
pub fn slots_refusal<V: Vault>(
    alloc: Global,
    vault: &mut V,
    f: FileId,
    block: &[u8],
    elems: u32,
    at: u64,
    len: u64,
    top: u64,
    one: &mut [u8],
    two: &mut [u8],
) -> Result<Option<DbError>, Stopped>
    requires there { is_there (kept_of (V.view_of vault.old)) f.0 ≡ true }
    requires size { 112 + 24 * elems ≤ length block.now }
    requires bits { bits_at block.now ≤ 24 }
    requires room { 0 < length one.old }
    requires rooms { length two.old ≡ length one.old }
    ensures same { kept_of (V.view_of vault.new) ≡ kept_of (V.view_of vault.old) }
    ensures later { (V.view_of vault.old).faults ≤ (V.view_of vault.new).faults }
    ensures answered { IfOk result (λ _. (V.view_of vault.new).faults ≡ (V.view_of vault.old).faults) }
    ensures failed { IfErr result (λ e. IsCause e (V.view_of vault.old).faults (V.view_of vault.new).faults) }
    ensures kind { IfOk result (λ r. IfSome r (λ e. is_of_readable e ≡ true)) }
    ensures refusal { IfOk result (λ r. Tells (bytes_in (kept_of (V.view_of vault.old)) f.0) (λ file. length file ≡ len → r ≡ slots_fault file elems block.now at top)) }
{
    if !has_right_count(block, elems) {
        return Ok(Some(DbError::BadHashTable(at)));
    }
    let wrong = wrong_slot(alloc, vault, f, block, elems, at, len, top, one, two)?;
    if let Some(e) = wrong {
        return Ok(Some(e));
    }
    Ok(unreached(block, elems, at))
}
