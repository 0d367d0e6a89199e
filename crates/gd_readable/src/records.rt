//! The walk over the records of a readable file.

ghost use Rattle.std.specs.Prelude.{◌≡◌, ◌+◌, ◌*◌, ◌<◌, ◌≤◌, ◌^◌, true, None, Some, [], ◌∷◌, length, IfNone, IfSome, pos};
ghost use Rattle.gd_format.specs.HeaderFault.{header_of, natural};
ghost use Rattle.gd_format.specs.File.{block_of, dir_fault, entries_of, entry_at, file_fault, front_of, is_first, is_full_at, is_record_in, key_of, records, value_of};
ghost use Rattle.gd_readable.specs.Checks.{IsHeaderIn};
ghost use Rattle.gd_readable.specs.Left.{passing_from, slots_left, buckets_left, records_left, IsWalk};

use crate::directory::{block_from, entry_from};
use crate::keys::{address, bytes_from, key_size, natural_of_64, value_size};
use crate::slots::is_full;
use gd_format::{Header, RawSlot};
use gd_layout::Native;
use std::marker::Model;

/// The records of a readable file that are still to come, in file order: bucket by bucket, each where the
/// directory has it first, and slot by slot.
///
/// A clause sees them as a list of keys and values.
#[derive(Drop)]
pub struct Records<'a> {
    file: &'a [u8],
    header: Header,
    // The next entry of the directory.
    entry: u64,
    // The block of the bucket before it, and its next slot.
    block: &'a [u8],
    slot: u32,
}

impl<'a> Model for Records<'a> {
    ghost use Rattle.std.specs.Prelude.{ℕ, List};
    ghost use Rattle.gd_readable.specs.Left.{records_left, IsWalk};

    ghost Value = { List (List ℕ × List ℕ) };

    ghost view = { λ a. records_left a.file.now a.header a.entry a.block.now a.slot };

    ghost invariant = { λ a. IsWalk a.file.now a.header a.entry a.block.now a.slot };
}

// The next full slot of a bucket, from one on.
#[tactic(auto, using(crate::proofs::Passing::passing_on, crate::proofs::Passing::passing_found, crate::proofs::Passing::passing_end))]
pub fn next_full(block: &[u8], elems: u32, from: u32) -> Option<u32>
    requires size { 112 + 24 * elems ≤ length block.now }
    requires slot { from ≤ elems }
    ensures some { IfSome result (λ s. (from ≤ s) × (s < elems) × (is_full_at block.now s ≡ true) × (passing_from (is_full_at block.now) elems from ≡ s ∷ passing_from (is_full_at block.now) elems (s + 1))) }
    ensures none { IfNone result (passing_from (is_full_at block.now) elems from ≡ []) }
{
    for s in from..elems {
        if is_full(block, s) {
            return Some(s);
        }
    }
    None
}

// Has the directory an address first at an entry? In a readable file it has where the entry before is another one.
#[tactic(auto, using(crate::proofs::Walks::first_at_start, crate::proofs::Walks::first_after, crate::proofs::Walks::not_first))]
fn is_first_entry(file: &[u8], header: &Header, i: u64) -> bool
    requires header { IsHeaderIn header.now (length file.now) }
    requires readable { dir_fault file.now header.now ≡ None }
    requires within { i < 2 ^ header.now.dir_bits }
    ensures { result ≡ is_first file.now header.now i }
{
    i == 0 || entry_from(file, header, i - 1) != entry_from(file, header, i)
}

// The next entry, from one on, at which the directory has an address first.
#[tactic(auto, using(crate::proofs::Passing::passing_on, crate::proofs::Passing::passing_found, crate::proofs::Passing::passing_end, crate::proofs::Runs::run_range))]
fn next_first(file: &[u8], header: &Header, from: u64) -> Option<u64>
    requires header { IsHeaderIn header.now (length file.now) }
    requires readable { dir_fault file.now header.now ≡ None }
    requires entry { from ≤ 2 ^ header.now.dir_bits }
    ensures some { IfSome result (λ i. (from ≤ i) × (i < entries_of header.now) × (passing_from (is_first file.now header.now) (entries_of header.now) from ≡ i ∷ passing_from (is_first file.now header.now) (entries_of header.now) (i + 1))) }
    ensures none { IfNone result (passing_from (is_first file.now header.now) (entries_of header.now) from ≡ []) }
{
    for i in from..1u64 << header.dir_bits {
        if is_first_entry(file, header, i) {
            return Some(i);
        }
    }
    None
}

// The address of the bucket of an entry.
fn address_of(file: &[u8], header: &Header, i: u64) -> u64
    requires header { IsHeaderIn header.now (length file.now) }
    requires within { i < 2 ^ header.now.dir_bits }
    ensures { result ≡ natural (entry_at file.now header.now i) }
{
    natural_of_64(entry_from(file, header, i))
}

// The block of the bucket of an entry.
fn bucket_of<'a>(file: &'a [u8], header: &Header, i: u64) -> &'a [u8]
    requires header { IsHeaderIn header.now (length file.now) }
    requires readable { dir_fault file.now header.now ≡ None }
    requires within { i < 2 ^ header.now.dir_bits }
    ensures block { result.now ≡ block_of file.now header.now i }
    ensures size { length result.now ≡ header.now.block }
{
    block_from(file, header, i, address_of(file, header, i))
}

// The key and the value of a slot.
#[tactic(auto, unfolding(gd_format::specs::File::key_of, gd_format::specs::File::value_of))]
fn record_from<'a>(file: &'a [u8], raw: &RawSlot) -> (&'a [u8], &'a [u8])
    requires { is_record_in (length file.now) raw.now ≡ true }
    ensures key { result.0.now ≡ key_of file.now raw.now }
    ensures value { result.1.now ≡ value_of file.now raw.now }
{
    let at = address(raw);
    let size = key_size(raw);
    let key = bytes_from(file, at, size);
    let value = bytes_from(file, at + u64::from(size), value_size(raw));
    (key, value)
}

// The next record of the bucket in which a walk stands, and the slot behind it.
#[tactic(auto, using(crate::proofs::Left::header_of_walk, crate::proofs::Left::block_of_walk, crate::proofs::Left::record_of_walk, crate::proofs::Passing::no_slots, crate::proofs::Passing::slots_none))]
fn next_record<'a>(
    file: &'a [u8],
    header: &Header,
    entry: u64,
    block: &'a [u8],
    slot: u32,
) -> Option<(u32, (&'a [u8], &'a [u8]))>
    requires { IsWalk file.now header.now entry block.now slot }
    ensures some { IfSome result (λ r. (slots_left file.now header.now.elems block.now slot ≡ (r.1.0.now, r.1.1.now) ∷ slots_left file.now header.now.elems block.now r.0) × (IsWalk file.now header.now entry block.now r.0)) }
    ensures none { IfNone result (slots_left file.now header.now.elems block.now slot ≡ []) }
{
    if slot >= header.elems {
        return None;
    }
    let Some(s) = next_full(block, header.elems, slot) else {
        return None;
    };
    Some((s + 1, record_from(file, &Native::raw_slot(block, s))))
}

// The block of the next bucket, and the entry behind its first one.
#[tactic(auto, using(crate::proofs::Left::header_of_walk, crate::proofs::Left::dir_of_walk, crate::proofs::Passing::buckets_none))]
fn next_bucket<'a>(
    file: &'a [u8],
    header: &Header,
    entry: u64,
    block: &'a [u8],
    slot: u32,
) -> Option<(u64, &'a [u8])>
    requires { IsWalk file.now header.now entry block.now slot }
    ensures some { IfSome result (λ r. (buckets_left file.now header.now entry ≡ records_left file.now header.now r.0 r.1.now 0) × (IsWalk file.now header.now r.0 r.1.now 0) × (entry < r.0)) }
    ensures none { IfNone result (buckets_left file.now header.now entry ≡ []) }
{
    let Some(i) = next_first(file, header, entry) else {
        return None;
    };
    Some((i + 1, bucket_of(file, header, i)))
}

impl<'a> Records<'a> {
    /// All records of a readable file, whose header is given.
    pub fn start(file: &'a [u8], header: &Header) -> Records<'a>
        requires readable { file_fault file.now ≡ None }
        requires header { header.now ≡ header_of (front_of file.now) }
        ensures { result ≡ records file.now }
    {
        Records {
            file,
            header: *header,
            entry: 0,
            block: &file[..0],
            slot: header.elems,
        }
    }

    /// The key and the value of the next record.
    pub fn next(&mut self) -> Option<(&'a [u8], &'a [u8])>
        ensures some { IfSome result (λ r. self.old ≡ (r.0.now, r.1.now) ∷ self.new) }
        ensures none { IfNone result ((self.old ≡ []) × (self.new ≡ [])) }
    {
        'buckets: loop {
            if let Some((slot, record)) = next_record(
                self.file,
                &self.header,
                self.entry,
                self.block,
                self.slot,
            ) {
                self.slot = slot;
                return Some(record);
            }
            let Some((entry, block)) = next_bucket(
                self.file,
                &self.header,
                self.entry,
                self.block,
                self.slot,
            ) else {
                return None;
            };
            self.entry = entry;
            self.block = block;
            self.slot = 0;
        }
    }
}
