//! The walk over the records of a readable file of a vault.

ghost use Rattle.std.specs.Prelude.{◌≡◌, ◌+◌, ◌*◌, ◌<◌, ◌≤◌, ◌^◌, true, false, Ok, None, Some, [], ◌∷◌, length, take, drop, IfOk, IfErr, IfNone, IfSome, IsSome};
ghost use Rattle.gd_format.specs.Field.{bytes_at};
ghost use Rattle.gd_format.specs.HeaderFault.{header_of, natural};
ghost use Rattle.gd_format.specs.Headers.{IsHeader};
ghost use Rattle.gd_format.specs.File.{are_fields_right, block_of, dir_fault, entries_of, entry_at, file_fault, front_of, is_first, is_full_at, is_record_in, key_of, records, size_of, value_of};
ghost use Rattle.gd_base.specs.Causes.{Rose};
ghost use Rattle.gd_vault.specs.Content.{File};
ghost use Rattle.gd_vault.specs.Views.{HasFile, IsAt, OnlyAsks};
ghost use Rattle.gd_readable.specs.Asks.{kept_of, bytes_in, is_there, Tells, IsCause, Refuses, error_of, RefusesWalk, IsAnswer, Counts, is_of_bucket};
ghost use Rattle.gd_readable.specs.Checks.{IsHeaderIn};
ghost use Rattle.gd_readable.specs.Left.{passing_from, slots_left, buckets_left, records_left, IsWalk};
ghost use Rattle.gd_readable.specs.Standing.{StandsIn, left_of, place_of, FitsWalk, slots_ahead, slots_of_walk, IsAtEnd, IsEnded};

use crate::keys::{address, has_right_fields, key_size, value_size};
use crate::reading::{Stopped, fill, fill_some};
use crate::records::next_full;
use gd_base::{Datum, DbError};
use gd_format::{Header, RawSlot};
use gd_layout::{Native, i64_from};
use gd_vault::{FileId, Vault};
use std::alloc::Global;
use std::marker::Model;

impl From<Stopped> for DbError {
    ghost from_gives = { λ s e. e ≡ error_of s };

    fn from(stopped: Stopped) -> DbError {
        match stopped {
            Stopped::Fault => DbError::VaultFault,
            Stopped::NoMemory => DbError::OutOfMemory,
        }
    }
}

// The entry of the directory with an index, or -1 where the bytes end before.
#[tactic(auto, unfolding(gd_format::specs::File::entry_at), using(gd_format::proofs::Pieces::i64_at_front))]
fn walk_entry<V: Vault>(vault: &mut V, f: FileId, header: &Header, i: u64) -> Result<i64, Stopped>
    requires there { is_there (kept_of (V.view_of vault.old)) f.0 ≡ true }
    requires dir { header.now.dir + 8 * 2 ^ header.now.dir_bits < 2 ^ 64 }
    requires within { i < 2 ^ header.now.dir_bits }
    ensures same { kept_of (V.view_of vault.new) ≡ kept_of (V.view_of vault.old) }
    ensures later { (V.view_of vault.old).faults ≤ (V.view_of vault.new).faults }
    ensures answered { IfOk result (λ _. (V.view_of vault.new).faults ≡ (V.view_of vault.old).faults) }
    ensures failed { IfErr result (λ e. IsCause e (V.view_of vault.old).faults (V.view_of vault.new).faults) }
    ensures entry { IfOk result (λ r. Tells (bytes_in (kept_of (V.view_of vault.old)) f.0) (λ file. header.now.dir + 8 * (i + 1) ≤ length file → r ≡ entry_at file header.now i)) }
{
    let mut bytes = [0; 8];
    if !fill(vault, f, header.dir + 8 * i, &mut bytes)? {
        return Ok(-1);
    }
    Ok(i64_from(&bytes, 0))
}

// Has the directory an address first at an entry? In a readable file it has where the entry before is another one.
#[tactic(auto, using(crate::proofs::Walks::first_at_start, crate::proofs::Walks::first_after, crate::proofs::Walks::not_first, crate::proofs::Asks::cause_later))]
fn is_first_at<V: Vault>(vault: &mut V, f: FileId, header: &Header, i: u64) -> Result<bool, Stopped>
    requires there { is_there (kept_of (V.view_of vault.old)) f.0 ≡ true }
    requires dir { header.now.dir + 8 * 2 ^ header.now.dir_bits < 2 ^ 64 }
    requires bits { header.now.dir_bits ≤ 24 }
    requires within { i < 2 ^ header.now.dir_bits }
    requires few { i < 2 ^ 24 }
    ensures same { kept_of (V.view_of vault.new) ≡ kept_of (V.view_of vault.old) }
    ensures later { (V.view_of vault.old).faults ≤ (V.view_of vault.new).faults }
    ensures answered { IfOk result (λ _. (V.view_of vault.new).faults ≡ (V.view_of vault.old).faults) }
    ensures failed { IfErr result (λ e. IsCause e (V.view_of vault.old).faults (V.view_of vault.new).faults) }
    ensures first { IfOk result (λ r. Tells (bytes_in (kept_of (V.view_of vault.old)) f.0) (λ file. IsHeaderIn header.now (length file) → dir_fault file header.now ≡ None → r ≡ is_first file header.now i)) }
{
    if i == 0 {
        return Ok(true);
    }
    let before = walk_entry(vault, f, header, i - 1)?;
    let entry = walk_entry(vault, f, header, i)?;
    Ok(before != entry)
}

// The next entry, from one on, at which the directory has an address first.
#[tactic(auto, using(crate::proofs::Passing::passing_on, crate::proofs::Passing::passing_found, crate::proofs::Passing::passing_end, crate::proofs::Runs::run_range, crate::proofs::Asks::cause_later))]
fn next_first_at<V: Vault>(
    vault: &mut V,
    f: FileId,
    header: &Header,
    from: u64,
) -> Result<Option<u64>, Stopped>
    requires there { is_there (kept_of (V.view_of vault.old)) f.0 ≡ true }
    requires dir { header.now.dir + 8 * 2 ^ header.now.dir_bits < 2 ^ 64 }
    requires bits { header.now.dir_bits ≤ 24 }
    requires entry { from ≤ 2 ^ header.now.dir_bits }
    ensures same { kept_of (V.view_of vault.new) ≡ kept_of (V.view_of vault.old) }
    ensures later { (V.view_of vault.old).faults ≤ (V.view_of vault.new).faults }
    ensures answered { IfOk result (λ _. (V.view_of vault.new).faults ≡ (V.view_of vault.old).faults) }
    ensures failed { IfErr result (λ e. IsCause e (V.view_of vault.old).faults (V.view_of vault.new).faults) }
    ensures range { IfOk result (λ r. IfSome r (λ i. (from ≤ i) × (i < entries_of header.now) × (i < 2 ^ 24))) }
    ensures some { IfOk result (λ r. IfSome r (λ i. Tells (bytes_in (kept_of (V.view_of vault.old)) f.0) (λ file. IsHeaderIn header.now (length file) → dir_fault file header.now ≡ None → passing_from (is_first file header.now) (entries_of header.now) from ≡ i ∷ passing_from (is_first file header.now) (entries_of header.now) (i + 1)))) }
    ensures none { IfOk result (λ r. IfNone r (Tells (bytes_in (kept_of (V.view_of vault.old)) f.0) (λ file. IsHeaderIn header.now (length file) → dir_fault file header.now ≡ None → passing_from (is_first file header.now) (entries_of header.now) from ≡ []))) }
{
    for i in from..1u64 << header.dir_bits {
        if is_first_at(vault, f, header, i)? {
            return Ok(Some(i));
        }
    }
    Ok(None)
}

// The address, where it is one.
fn place_from(entry: i64) -> Option<u64>
    ensures { result ≡ place_of entry }
{
    if entry < 0 {
        return None;
    }
    Some(entry.cast_unsigned())
}

// The address of the bucket of an entry, where it is one.
#[tactic(auto, using(crate::proofs::Asks::cause_later))]
fn entry_place<V: Vault>(
    vault: &mut V,
    f: FileId,
    header: &Header,
    i: u64,
) -> Result<Option<u64>, Stopped>
    requires there { is_there (kept_of (V.view_of vault.old)) f.0 ≡ true }
    requires dir { header.now.dir + 8 * 2 ^ header.now.dir_bits < 2 ^ 64 }
    requires few { i < 2 ^ 24 }
    requires bits { header.now.dir_bits ≤ 24 }
    requires within { i < entries_of header.now }
    ensures same { kept_of (V.view_of vault.new) ≡ kept_of (V.view_of vault.old) }
    ensures later { (V.view_of vault.old).faults ≤ (V.view_of vault.new).faults }
    ensures answered { IfOk result (λ _. (V.view_of vault.new).faults ≡ (V.view_of vault.old).faults) }
    ensures failed { IfErr result (λ e. IsCause e (V.view_of vault.old).faults (V.view_of vault.new).faults) }
    ensures place { IfOk result (λ r. Tells (bytes_in (kept_of (V.view_of vault.old)) f.0) (λ file. IsHeaderIn header.now (length file) → dir_fault file header.now ≡ None → r ≡ Some (natural (entry_at file header.now i)))) }
{
    let entry = walk_entry(vault, f, header, i)?;
    Ok(place_from(entry))
}

// Reads the block of the bucket of an entry, and answers its address, where the file has it.
#[tactic(auto, unfolding(gd_format::specs::File::block_of), using(crate::proofs::Asks::cause_later))]
fn enter_bucket<V: Vault>(
    vault: &mut V,
    f: FileId,
    header: &Header,
    i: u64,
    block: &mut [u8],
) -> Result<Option<u64>, Stopped>
    requires there { is_there (kept_of (V.view_of vault.old)) f.0 ≡ true }
    requires dir { header.now.dir + 8 * 2 ^ header.now.dir_bits < 2 ^ 64 }
    requires bits { header.now.dir_bits ≤ 24 }
    requires within { i < entries_of header.now }
    requires few { i < 2 ^ 24 }
    requires size { length block.old ≡ header.now.block }
    ensures same { kept_of (V.view_of vault.new) ≡ kept_of (V.view_of vault.old) }
    ensures later { (V.view_of vault.old).faults ≤ (V.view_of vault.new).faults }
    ensures answered { IfOk result (λ _. (V.view_of vault.new).faults ≡ (V.view_of vault.old).faults) }
    ensures failed { IfErr result (λ e. IsCause e (V.view_of vault.old).faults (V.view_of vault.new).faults) }
    ensures whole { IfOk result (λ r. Tells (bytes_in (kept_of (V.view_of vault.old)) f.0) (λ file. IsHeaderIn header.now (length file) → dir_fault file header.now ≡ None → IsSome r)) }
    ensures block { IfOk result (λ r. IfSome r (λ _. Tells (bytes_in (kept_of (V.view_of vault.old)) f.0) (λ file. IsHeaderIn header.now (length file) → dir_fault file header.now ≡ None → block.new ≡ block_of file header.now i))) }
{
    let place = entry_place(vault, f, header, i)?;
    let Some(at) = place else {
        return Ok(None);
    };
    let whole = fill(vault, f, at, block)?;
    if !whole {
        return Ok(None);
    }
    Ok(Some(at))
}

// The bytes of the record of a slot, where the file has them.
#[tactic(auto, using(crate::proofs::Asks::cause_later))]
fn record_bytes<V: Vault>(
    alloc: Global,
    vault: &mut V,
    f: FileId,
    raw: &RawSlot,
) -> Result<Option<Vec<u8>>, Stopped>
    requires there { is_there (kept_of (V.view_of vault.old)) f.0 ≡ true }
    ensures same { kept_of (V.view_of vault.new) ≡ kept_of (V.view_of vault.old) }
    ensures later { (V.view_of vault.old).faults ≤ (V.view_of vault.new).faults }
    ensures answered { IfOk result (λ _. (V.view_of vault.new).faults ≡ (V.view_of vault.old).faults) }
    ensures failed { IfErr result (λ e. IsCause e (V.view_of vault.old).faults (V.view_of vault.new).faults) }
    ensures whole { IfOk result (λ r. Tells (bytes_in (kept_of (V.view_of vault.old)) f.0) (λ file. is_record_in (length file) raw.now ≡ true → IsSome r)) }
    ensures bytes { IfOk result (λ r. IfSome r (λ v. Tells (bytes_in (kept_of (V.view_of vault.old)) f.0) (λ file. is_record_in (length file) raw.now ≡ true → v.items ≡ bytes_at file (natural raw.now.at) (size_of raw.now)))) }
    ensures size { IfOk result (λ r. IfSome r (λ v. length v.items ≡ size_of raw.now)) }
{
    let size = key_size(raw) as usize + value_size(raw) as usize;
    let Ok(mut bytes) = vec![in alloc; 0u8; size] else {
        return Err(Stopped::NoMemory);
    };
    let whole = fill_some(vault, f, address(raw), &mut bytes)?;
    if !whole {
        return Ok(None);
    }
    Ok(Some(bytes))
}

// The first n bytes, and the others.
fn split_pair(alloc: Global, bytes: &[u8], n: usize) -> Result<(Datum, Datum), Stopped>
    requires { n ≤ length bytes.now }
    ensures failed { IfErr result (λ e. e ≡ Stopped.NoMemory) }
    ensures key { IfOk result (λ p. p.0 ≡ take n bytes.now) }
    ensures value { IfOk result (λ p. p.1 ≡ drop n bytes.now) }
{
    let Ok(key) = Datum::from_slice(alloc, &bytes[..n]) else {
        return Err(Stopped::NoMemory);
    };
    let Ok(value) = Datum::from_slice(alloc, &bytes[n..]) else {
        return Err(Stopped::NoMemory);
    };
    Ok((key, value))
}

// Reads the key and the value of a slot at once, where the file has them.
#[tactic(auto, using(crate::proofs::Asks::cause_later))]
fn read_pair<V: Vault>(
    alloc: Global,
    vault: &mut V,
    f: FileId,
    raw: &RawSlot,
) -> Result<Option<(Datum, Datum)>, Stopped>
    requires there { is_there (kept_of (V.view_of vault.old)) f.0 ≡ true }
    ensures same { kept_of (V.view_of vault.new) ≡ kept_of (V.view_of vault.old) }
    ensures later { (V.view_of vault.old).faults ≤ (V.view_of vault.new).faults }
    ensures answered { IfOk result (λ _. (V.view_of vault.new).faults ≡ (V.view_of vault.old).faults) }
    ensures failed { IfErr result (λ e. IsCause e (V.view_of vault.old).faults (V.view_of vault.new).faults) }
    ensures whole { IfOk result (λ r. Tells (bytes_in (kept_of (V.view_of vault.old)) f.0) (λ file. are_fields_right raw.now ≡ true → is_record_in (length file) raw.now ≡ true → IsSome r)) }
    ensures pair { IfOk result (λ r. IfSome r (λ p. Tells (bytes_in (kept_of (V.view_of vault.old)) f.0) (λ file. is_record_in (length file) raw.now ≡ true → (p.0 ≡ key_of file raw.now) × (p.1 ≡ value_of file raw.now)))) }
{
    if !has_right_fields(raw) {
        return Ok(None);
    }
    let bytes = record_bytes(alloc, vault, f, raw)?;
    let Some(bytes) = bytes else {
        return Ok(None);
    };
    let pair = split_pair(alloc, &bytes, key_size(raw) as usize);
    match pair {
        Ok(pair) => Ok(Some(pair)),
        Err(e) => Err(e),
    }
}

// The next record of the bucket in which a walk stands, and the slot behind it.
#[tactic(auto, using(crate::proofs::Asks::cause_later))]
fn next_in_block<V: Vault>(
    alloc: Global,
    vault: &mut V,
    f: FileId,
    header: &Header,
    entry: u64,
    block: &[u8],
    at: u64,
    slot: u32,
) -> Result<Option<(u32, (Datum, Datum))>, DbError>
    requires there { is_there (kept_of (V.view_of vault.old)) f.0 ≡ true }
    requires size { 112 + 24 * header.now.elems ≤ length block.now }
    requires slot { slot ≤ header.now.elems }
    ensures same { kept_of (V.view_of vault.new) ≡ kept_of (V.view_of vault.old) }
    ensures later { (V.view_of vault.old).faults ≤ (V.view_of vault.new).faults }
    ensures answered { IfOk result (λ _. (V.view_of vault.new).faults ≡ (V.view_of vault.old).faults) }
    ensures kind { IfErr result (λ e. IsAnswer is_of_bucket e) }
    ensures counted { IfErr result (λ e. Counts e (V.view_of vault.old).faults (V.view_of vault.new).faults) }
    ensures failed { IfErr result (λ e. Refuses e (Rose (V.view_of vault.old).faults (V.view_of vault.new).faults) (Tells (bytes_in (kept_of (V.view_of vault.old)) f.0) (λ file. ¬ IsWalk file header.now entry block.now slot))) }
    ensures range { IfOk result (λ r. IfSome r (λ p. (slot < p.0) × (p.0 ≤ header.now.elems))) }
    ensures some { IfOk result (λ r. IfSome r (λ p. Tells (bytes_in (kept_of (V.view_of vault.old)) f.0) (λ file. IsWalk file header.now entry block.now slot → (slots_left file header.now.elems block.now slot ≡ (p.1.0, p.1.1) ∷ slots_left file header.now.elems block.now p.0) × IsWalk file header.now entry block.now p.0))) }
    ensures none { IfOk result (λ r. IfNone r (passing_from (is_full_at block.now) header.now.elems slot ≡ [])) }
{
    let Some(s) = next_full(block, header.elems, slot) else {
        return Ok(None);
    };
    let pair = read_pair(alloc, vault, f, &Native::raw_slot(block, s))?;
    match pair {
        Some(pair) => Ok(Some((s + 1, pair))),
        None => Err(DbError::BadHashEntry(at, s)),
    }
}

// Reads the block of the next bucket, and answers the entry behind its first one, and its address.
#[tactic(auto, using(crate::proofs::Asks::cause_later))]
fn next_block<V: Vault>(
    vault: &mut V,
    f: FileId,
    header: &Header,
    entry: u64,
    block: &mut [u8],
    slot: u32,
) -> Result<Option<(u64, u64)>, DbError>
    requires there { is_there (kept_of (V.view_of vault.old)) f.0 ≡ true }
    requires dir { header.now.dir + 8 * 2 ^ header.now.dir_bits < 2 ^ 64 }
    requires bits { header.now.dir_bits ≤ 24 }
    requires entry { entry ≤ entries_of header.now }
    requires size { length block.old ≡ header.now.block }
    ensures same { kept_of (V.view_of vault.new) ≡ kept_of (V.view_of vault.old) }
    ensures later { (V.view_of vault.old).faults ≤ (V.view_of vault.new).faults }
    ensures answered { IfOk result (λ _. (V.view_of vault.new).faults ≡ (V.view_of vault.old).faults) }
    ensures kind { IfErr result (λ e. IsAnswer is_of_bucket e) }
    ensures counted { IfErr result (λ e. Counts e (V.view_of vault.old).faults (V.view_of vault.new).faults) }
    ensures failed { IfErr result (λ e. Refuses e (Rose (V.view_of vault.old).faults (V.view_of vault.new).faults) (Tells (bytes_in (kept_of (V.view_of vault.old)) f.0) (λ file. ¬ IsWalk file header.now entry block.old slot))) }
    ensures range { IfOk result (λ r. IfSome r (λ p. (entry < p.0) × (p.0 ≤ entries_of header.now))) }
    ensures some { IfOk result (λ r. IfSome r (λ p. Tells (bytes_in (kept_of (V.view_of vault.old)) f.0) (λ file. IsWalk file header.now entry block.old slot → (buckets_left file header.now entry ≡ records_left file header.now p.0 block.new 0) × IsWalk file header.now p.0 block.new 0))) }
    ensures none { IfOk result (λ r. IfNone r (Tells (bytes_in (kept_of (V.view_of vault.old)) f.0) (λ file. IsWalk file header.now entry block.old slot → buckets_left file header.now entry ≡ []))) }
{
    let first = next_first_at(vault, f, header, entry)?;
    let Some(i) = first else {
        return Ok(None);
    };
    let place = enter_bucket(vault, f, header, i, block)?;
    match place {
        Some(at) => Ok(Some((i + 1, at))),
        None => Err(DbError::BadDirEntry(i)),
    }
}

// Where a walk stands: the next entry of the directory, and the block of the bucket before it with its address and its
// next slot.
#[derive(Drop)]
struct Place {
    entry: u64,
    block: Vec<u8>,
    at: u64,
    slot: u32,
}

// Does a walk stand behind the last bucket?
fn is_at_end(header: &Header, entry: u64, slot: u32) -> bool
    requires { header.now.dir_bits ≤ 24 }
    ensures end { result ≡ true → IsAtEnd header.now entry slot }
    ensures before { result ≡ false → ¬ IsAtEnd header.now entry slot }
{
    entry == 1u64 << header.dir_bits && slot == header.elems
}

// The next record from a place on, which goes behind it, or to the end behind the last one.
#[tactic(auto, using(crate::proofs::Ahead::ahead_slot))]
fn next_from<V: Vault>(
    alloc: Global,
    vault: &mut V,
    f: FileId,
    header: &Header,
    place: &mut Place,
) -> Result<Option<(Datum, Datum)>, DbError>
    requires there { is_there (kept_of (V.view_of vault.old)) f.0 ≡ true }
    requires fits { FitsWalk header.now place.old.entry place.old.block.items place.old.slot }
    ensures same { kept_of (V.view_of vault.new) ≡ kept_of (V.view_of vault.old) }
    ensures later { (V.view_of vault.old).faults ≤ (V.view_of vault.new).faults }
    ensures answered { IfOk result (λ _. (V.view_of vault.new).faults ≡ (V.view_of vault.old).faults) }
    ensures kind { IfErr result (λ e. IsAnswer is_of_bucket e) }
    ensures counted { IfErr result (λ e. Counts e (V.view_of vault.old).faults (V.view_of vault.new).faults) }
    ensures fits { FitsWalk header.now place.new.entry place.new.block.items place.new.slot }
    ensures walk { Tells (bytes_in (kept_of (V.view_of vault.old)) f.0) (λ file. IsWalk file header.now place.old.entry place.old.block.items place.old.slot → IsWalk file header.now place.new.entry place.new.block.items place.new.slot) }
    ensures some { IfOk result (λ r. IfSome r (λ p. Tells (bytes_in (kept_of (V.view_of vault.old)) f.0) (λ file. IsWalk file header.now place.old.entry place.old.block.items place.old.slot → records_left file header.now place.old.entry place.old.block.items place.old.slot ≡ (p.0, p.1) ∷ records_left file header.now place.new.entry place.new.block.items place.new.slot))) }
    ensures further { IfOk result (λ r. IfSome r (λ _. slots_ahead header.now place.new.entry place.new.slot < slots_ahead header.now place.old.entry place.old.slot)) }
    ensures none { IfOk result (λ r. IfNone r (Tells (bytes_in (kept_of (V.view_of vault.old)) f.0) (λ file. IsWalk file header.now place.old.entry place.old.block.items place.old.slot → records_left file header.now place.old.entry place.old.block.items place.old.slot ≡ []))) }
    ensures end { IfOk result (λ r. IfNone r (IsAtEnd header.now place.new.entry place.new.slot)) }
    ensures ended { IsAtEnd header.now place.old.entry place.old.slot → (result ≡ Ok None) × (place.new ≡ place.old) }
    ensures failed { IfErr result (λ e. Refuses e (Rose (V.view_of vault.old).faults (V.view_of vault.new).faults) (Tells (bytes_in (kept_of (V.view_of vault.old)) f.0) (λ file. ¬ IsWalk file header.now place.old.entry place.old.block.items place.old.slot))) }
    ensures again { IfErr result (λ _. Tells (bytes_in (kept_of (V.view_of vault.old)) f.0) (λ file. IsWalk file header.now place.old.entry place.old.block.items place.old.slot → records_left file header.now place.new.entry place.new.block.items place.new.slot ≡ records_left file header.now place.old.entry place.old.block.items place.old.slot)) }
{
    if is_at_end(header, place.entry, place.slot) {
        return Ok(None);
    }
    'buckets: loop {
        let found = match next_in_block(
            alloc,
            vault,
            f,
            header,
            place.entry,
            &place.block,
            place.at,
            place.slot,
        ) {
            Ok(found) => found,
            Err(e) => return Err(e),
        };
        if let Some((slot, pair)) = found {
            place.slot = slot;
            return Ok(Some(pair));
        }
        place.slot = header.elems;
        let entered = match next_block(
            vault,
            f,
            header,
            place.entry,
            &mut place.block,
            header.elems,
        ) {
            Ok(entered) => entered,
            Err(e) => return Err(e),
        };
        let Some(next) = entered else {
            place.entry = 1u64 << header.dir_bits;
            return Ok(None);
        };
        place.entry = next.0;
        place.at = next.1;
        place.slot = 0;
    }
}

/// The records of a readable file of a vault that are still to come, in file order: bucket by bucket, each where the
/// directory has it first, and slot by slot.
#[derive(Drop)]
pub struct Walk {
    f: FileId,
    header: Header,
    place: Place,
}

impl Model for Walk {
    ghost use Rattle.gd_readable.specs.Standing.{Standing, FitsWalk};

    ghost Value = { Standing };

    ghost view = { λ w. record { f = w.f.0; header = w.header; entry = w.place.entry; block = w.place.block.items; slot = w.place.slot } };

    ghost invariant = { λ w. FitsWalk w.header w.place.entry w.place.block.items w.place.slot };
}

impl Walk {
    /// Stands before the first record of a readable file, whose header is given.
    pub fn start<V: Vault>(
        alloc: Global,
        vault: &mut V,
        f: FileId,
        header: &Header,
    ) -> Result<Walk, DbError>
        requires there { HasFile (V.view_of vault.old) f.0 }
        requires header { IsHeader header.now }
        requires readable { IsAt (V.view_of vault.old) (λ c. (x : File) → c.files f.0 ≡ Some x → (file_fault x.bytes ≡ None) × (header.now ≡ header_of (front_of x.bytes))) }
        ensures asks { OnlyAsks (V.view_of vault.old) (V.view_of vault.new) }
        ensures file { IfOk result (λ w. w.f ≡ f.0) }
        ensures few { IfOk result (λ w. slots_of_walk w < 2 ^ 64) }
        ensures stands { IfOk result (λ w. IsAt (V.view_of vault.old) (λ c. (x : File) → c.files f.0 ≡ Some x → StandsIn x.bytes w)) }
        ensures records { IfOk result (λ w. IsAt (V.view_of vault.old) (λ c. (x : File) → c.files f.0 ≡ Some x → left_of x.bytes w ≡ records x.bytes)) }
        ensures refused { IfErr result (λ e. RefusesWalk e (V.view_of vault.old) (V.view_of vault.new)) }
        ensures kind { IfErr result (λ e. IsAnswer is_of_bucket e) }
        ensures answered { IfOk result (λ _. (V.view_of vault.new).faults ≡ (V.view_of vault.old).faults) }
        ensures counted { IfErr result (λ e. Counts e (V.view_of vault.old).faults (V.view_of vault.new).faults) }
    {
        let Ok(block) = vec![in alloc; 0u8; header.block as usize] else {
            return Err(DbError::OutOfMemory);
        };
        Ok(Walk {
            f,
            header: *header,
            place: Place {
                entry: 0,
                block,
                at: 0,
                slot: header.elems,
            },
        })
    }

    /// The key and the value of the next record, or None behind the last one, where the walk stays. After a fault or
    /// without memory the same record comes again.
    pub fn next<V: Vault>(&mut self, vault: &mut V) -> Result<Option<(Datum, Datum)>, DbError>
        requires there { HasFile (V.view_of vault.old) self.old.f }
        requires same { IsAt (V.view_of vault.old) (λ c. (x : File) → c.files self.old.f ≡ Some x → StandsIn x.bytes self.old) }
        ensures asks { OnlyAsks (V.view_of vault.old) (V.view_of vault.new) }
        ensures file { self.new.f ≡ self.old.f }
        ensures stands { IsAt (V.view_of vault.old) (λ c. (x : File) → c.files self.old.f ≡ Some x → StandsIn x.bytes self.new) }
        ensures some { IfOk result (λ r. IfSome r (λ p. IsAt (V.view_of vault.old) (λ c. (x : File) → c.files self.old.f ≡ Some x → left_of x.bytes self.old ≡ (p.0, p.1) ∷ left_of x.bytes self.new))) }
        ensures further { IfOk result (λ r. IfSome r (λ _. slots_of_walk self.new < slots_of_walk self.old)) }
        ensures none { IfOk result (λ r. IfNone r (IsAt (V.view_of vault.old) (λ c. (x : File) → c.files self.old.f ≡ Some x → left_of x.bytes self.old ≡ []))) }
        ensures end { IfOk result (λ r. IfNone r (IsEnded self.new)) }
        ensures ended { IsEnded self.old → (result ≡ Ok None) × (self.new ≡ self.old) }
        ensures refused { IfErr result (λ e. RefusesWalk e (V.view_of vault.old) (V.view_of vault.new)) }
        ensures kind { IfErr result (λ e. IsAnswer is_of_bucket e) }
        ensures answered { IfOk result (λ _. (V.view_of vault.new).faults ≡ (V.view_of vault.old).faults) }
        ensures counted { IfErr result (λ e. Counts e (V.view_of vault.old).faults (V.view_of vault.new).faults) }
        ensures again { IfErr result (λ _. IsAt (V.view_of vault.old) (λ c. (x : File) → c.files self.old.f ≡ Some x → left_of x.bytes self.new ≡ left_of x.bytes self.old)) }
    {
        let alloc = *self.place.block.allocator();
        next_from(alloc, vault, self.f, &self.header, &mut self.place)
    }
}
