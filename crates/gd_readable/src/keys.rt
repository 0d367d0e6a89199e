//! The slots of one bucket with their keys and records.

ghost use Rattle.std.specs.Prelude.{◌≡◌, ℕ, ◌+◌, ◌*◌, ◌/◌, ◌<◌, ◌≤◌, ◌^◌, true, take, length, IfOk, ◌&&◌, None};
ghost use Rattle.std.specs.Str.{bytes_eq};
ghost use Rattle.gd_format.specs.Field.{bytes_at};
ghost use Rattle.gd_format.specs.First.{first_below, all_below};
ghost use Rattle.gd_format.specs.HeaderFault.{natural};
ghost use Rattle.gd_format.specs.Bucket.{raw_slot_at};
ghost use Rattle.gd_format.specs.File.{is_full_at, are_fields_right, is_record_in, is_key_of, is_key_new, is_other_key, is_slot_right, slot_fault, slots_fault, size_of, key_of, bits_at};
ghost use Rattle.gd_readable.specs.Checks.{HasKey, HaveKeys, SeesHashes};

use crate::slots::{has_right_count, is_full, natural_of, unreached};
use gd_base::{DbError, OutOfMemory};
use gd_format::RawSlot;
use gd_layout::{Native, hash};
use std::alloc::Global;
use std::collections::HashSet;

/// The number, or 0 below.
pub fn natural_of_64(z: i64) -> u64
    ensures value { result ≡ natural z }
    ensures low { result < 2 ^ 63 }
{
    if z < 0 { 0 } else { z.cast_unsigned() }
}

// The hash of a full slot.
pub fn hash_field(raw: &RawSlot) -> u32
    ensures { result ≡ natural raw.now.hash }
{
    natural_of(raw.hash)
}

/// The address of a slot's record.
pub fn address(raw: &RawSlot) -> u64
    ensures value { result ≡ natural raw.now.at }
    ensures low { result < 2 ^ 63 }
{
    natural_of_64(raw.at)
}

/// The size of a slot's key.
pub fn key_size(raw: &RawSlot) -> u32
    ensures value { result ≡ natural raw.now.key_size }
    ensures low { result < 2 ^ 31 }
{
    natural_of(raw.key_size)
}

/// The size of a slot's value.
pub fn value_size(raw: &RawSlot) -> u32
    ensures value { result ≡ natural raw.now.value_size }
    ensures low { result < 2 ^ 31 }
{
    natural_of(raw.value_size)
}

/// The bytes of a size from a place on, which may be any place where the size is 0.
#[tactic(auto, using(crate::proofs::Places::none_at))]
pub fn bytes_from(file: &[u8], at: u64, size: u32) -> &[u8]
    requires inside { 0 < size → at + size ≤ length file.now }
    ensures { result.now ≡ bytes_at file.now at size }
{
    if size == 0 {
        return &file[..0];
    }
    &file[at as usize..at as usize + size as usize]
}

#[tactic(auto, unfolding(gd_format::specs::File::are_fields_right))]
pub fn has_right_fields(raw: &RawSlot) -> bool
    ensures { result ≡ are_fields_right raw.now }
{
    raw.hash >= 0
        && raw.at >= 0
        && raw.key_size >= 0
        && raw.value_size >= 0
        && u64::from(raw.key_size.cast_unsigned()) + u64::from(raw.value_size.cast_unsigned())
            <= 1 << 30
}

// Does the record of a slot end in a file of `len` bytes?
#[tactic(auto, unfolding(gd_format::specs::File::is_record_in))]
pub fn has_record_in(len: u64, raw: &RawSlot) -> bool
    ensures value { result ≡ is_record_in len raw.now }
    ensures key { result ≡ true → 0 < natural raw.now.key_size → natural raw.now.at + natural raw.now.key_size ≤ len }
{
    let size = u64::from(key_size(raw)) + u64::from(value_size(raw));
    size == 0 || address(raw) + size <= len
}

// The key of a slot.
#[tactic(auto, unfolding(gd_format::specs::File::key_of))]
fn key_from<'a>(file: &'a [u8], raw: &RawSlot) -> &'a [u8]
    requires inside { 0 < natural raw.now.key_size → natural raw.now.at + natural raw.now.key_size ≤ length file.now }
    ensures { result.now ≡ key_of file.now raw.now }
{
    bytes_from(file, address(raw), key_size(raw))
}

fn are_equal(one: &[u8], two: &[u8]) -> bool
    ensures { result ≡ bytes_eq one.now two.now }
{
    one == two
}

// Does a key begin with the bytes of its slot?
fn starts_with(key: &[u8], start: &[u8]) -> bool
    requires { length start.now ≡ 4 }
    ensures { result ≡ bytes_eq (take 4 key.now) (take (length (take 4 key.now)) start.now) }
{
    let n = key.len().min(4);
    are_equal(&key[..n], &start[..n])
}

// Has a key the hash and the first bytes of its slot, and the hash the top bits of the run?
#[tactic(auto, unfolding(gd_format::specs::File::is_key_of))]
pub fn is_key_right(raw: &RawSlot, bits: u32, top: u64, key: &[u8]) -> bool
    requires { bits ≤ 24 }
    ensures { result ≡ is_key_of bits top raw.now key.now }
{
    let hash = hash(key);
    if raw.hash < 0 || raw.hash.cast_unsigned() != hash {
        return false;
    }
    if u64::from(hash >> (31 - bits)) != top {
        return false;
    }
    starts_with(key, &raw.start)
}

// Has the slot t, where it is full, another key than the slot s, whose fields are given?
#[tactic(auto, unfolding(gd_format::specs::File::is_other_key), using(crate::proofs::Places::other_hash))]
fn has_other_key(file: &[u8], block: &[u8], raw: &RawSlot, s: u32, t: u32) -> bool
    requires slot { raw.now ≡ raw_slot_at block.now s }
    requires size { 112 + 24 * (s + 1) ≤ length block.now }
    requires before { t < s }
    requires own { HasKey file.now raw.now }
    requires keys { HaveKeys file.now block.now s }
    ensures { result ≡ is_other_key file.now block.now s t }
{
    if !is_full(block, t) {
        return true;
    }
    let other = Native::raw_slot(block, t);
    if hash_field(&other) != hash_field(raw) {
        return true;
    }
    !are_equal(key_from(file, &other), key_from(file, raw))
}

// Has no full slot before s its key?
#[tactic(auto, unfolding(gd_format::specs::File::is_key_new), using(gd_format::proofs::Firsts::all_below_more, gd_format::proofs::Firsts::all_below_stops))]
fn differs_from_all(file: &[u8], block: &[u8], raw: &RawSlot, s: u32) -> bool
    requires slot { raw.now ≡ raw_slot_at block.now s }
    requires size { 112 + 24 * (s + 1) ≤ length block.now }
    requires own { HasKey file.now raw.now }
    requires keys { HaveKeys file.now block.now s }
    ensures { result ≡ is_key_new file.now block.now s }
{
    for t in 0..s {
        if !has_other_key(file, block, raw, s, t) {
            return false;
        }
    }
    true
}

// Has no full slot before s its key? Slots are compared only where one has its hash.
fn has_new_key(
    seen: &mut HashSet<u32>,
    file: &[u8],
    block: &[u8],
    raw: &RawSlot,
    s: u32,
) -> Result<bool, OutOfMemory>
    requires slot { raw.now ≡ raw_slot_at block.now s }
    requires size { 112 + 24 * (s + 1) ≤ length block.now }
    requires own { HasKey file.now raw.now }
    requires keys { HaveKeys file.now block.now s }
    requires seen { SeesHashes seen.old block.now s }
    ensures new { IfOk result (λ b. b ≡ is_key_new file.now block.now s) }
    ensures seen { IfOk result (λ _. SeesHashes seen.new block.now (s + 1)) }
{
    match seen.insert(hash_field(raw)) {
        Ok(true) => Ok(true),
        Ok(false) => Ok(differs_from_all(file, block, raw, s)),
        Err(_) => Err(OutOfMemory),
    }
}

// Is a full slot right, but for the keys before it?
fn has_right_record(file: &[u8], raw: &RawSlot, bits: u32, top: u64) -> bool
    requires { bits ≤ 24 }
    ensures value { result ≡ (are_fields_right raw.now && is_record_in (length file.now) raw.now && is_key_of bits top raw.now (key_of file.now raw.now)) }
    ensures key { result ≡ true → HasKey file.now raw.now }
{
    if !has_right_fields(raw) {
        return false;
    }
    if !has_record_in(file.len() as u64, raw) {
        return false;
    }
    is_key_right(raw, bits, top, key_from(file, raw))
}

// The refusal of one slot of the bucket at an address, under the top bits of its run.
#[tactic(auto, unfolding(gd_format::specs::File::slot_fault, gd_format::specs::File::is_slot_right))]
fn slot_refusal(
    seen: &mut HashSet<u32>,
    file: &[u8],
    block: &[u8],
    s: u32,
    at: u64,
    top: u64,
) -> Result<Option<DbError>, OutOfMemory>
    requires size { 112 + 24 * (s + 1) ≤ length block.now }
    requires bits { bits_at block.now ≤ 24 }
    requires keys { HaveKeys file.now block.now s }
    requires seen { SeesHashes seen.old block.now s }
    ensures refusal { IfOk result (λ r. r ≡ slot_fault file.now block.now at top s) }
    ensures keys { IfOk result (λ r. r ≡ None → HaveKeys file.now block.now (s + 1)) }
    ensures seen { IfOk result (λ r. r ≡ None → SeesHashes seen.new block.now (s + 1)) }
{
    if !is_full(block, s) {
        return Ok(None);
    }
    let raw = Native::raw_slot(block, s);
    let bits = natural_of(Native::counts(block).bits);
    if !has_right_record(file, &raw, bits, top) {
        return Ok(Some(DbError::BadHashEntry(at, s)));
    }
    if has_new_key(seen, file, block, &raw, s)? {
        Ok(None)
    } else {
        Ok(Some(DbError::BadHashEntry(at, s)))
    }
}

// The first refusal of a slot.
#[tactic(auto, using(gd_format::proofs::Firsts::first_below_more, gd_format::proofs::Firsts::first_below_found))]
fn wrong_slot(
    alloc: Global,
    file: &[u8],
    block: &[u8],
    elems: u32,
    at: u64,
    top: u64,
) -> Result<Option<DbError>, OutOfMemory>
    requires size { 112 + 24 * elems ≤ length block.now }
    requires bits { bits_at block.now ≤ 24 }
    ensures { IfOk result (λ r. r ≡ first_below elems (slot_fault file.now block.now at top)) }
{
    let mut seen = HashSet::new(alloc);
    for s in 0..elems {
        let refusal = slot_refusal(&mut seen, file, block, s, at, top)?;
        if let Some(e) = refusal {
            return Ok(Some(e));
        }
    }
    Ok(None)
}

/// The first refusal of the slots of the bucket at an address, whose block is given, under the top bits of its run.
#[tactic(auto, unfolding(gd_format::specs::File::slots_fault))]
pub fn slots_refusal(
    alloc: Global,
    file: &[u8],
    block: &[u8],
    elems: u32,
    at: u64,
    top: u64,
) -> Result<Option<DbError>, OutOfMemory>
    requires size { 112 + 24 * elems ≤ length block.now }
    requires bits { bits_at block.now ≤ 24 }
    ensures { IfOk result (λ r. r ≡ slots_fault file.now elems block.now at top) }
{
    if !has_right_count(block, elems) {
        return Ok(Some(DbError::BadHashTable(at)));
    }
    let wrong = wrong_slot(alloc, file, block, elems, at, top)?;
    if let Some(e) = wrong {
        return Ok(Some(e));
    }
    Ok(unreached(block, elems, at))
}
