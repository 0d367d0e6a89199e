//! The directory of a file, with its buckets.

ghost use Rattle.std.specs.Prelude.{◌≡◌, ℕ, ◌+◌, ◌-◌, ◌*◌, ◌<◌, ◌≤◌, ◌^◌, true, length, IfOk, IfErr, IfNone, IfSome, Some, None, pos, false};
ghost use Rattle.gd_format.specs.First.{first_below};
ghost use Rattle.gd_format.specs.HeaderFault.{natural};
ghost use Rattle.gd_format.specs.File.{are_counts_right, bits_at, block_of, dir_fault, entry_at, entry_fault, is_block_in, is_first, run_at, run_fault};
ghost use Rattle.gd_readable.specs.Checks.{IsHeaderIn, SeesPlaces};

use crate::keys::slots_refusal;
use gd_base::{DbError, OutOfMemory};
use gd_format::Header;
use gd_layout::{Native, i64_from};
use std::alloc::Global;
use std::collections::HashSet;

/// The entry of the directory with an index.
#[tactic(auto, unfolding(gd_format::specs::File::entry_at))]
pub fn entry_from(file: &[u8], header: &Header, i: u64) -> i64
    requires header { IsHeaderIn header.now (length file.now) }
    requires within { i < 2 ^ header.now.dir_bits }
    ensures { result ≡ entry_at file.now header.now i }
{
    i64_from(file, (header.dir + 8 * i) as usize)
}

// The first entry of a run of another address.
#[tactic(auto, unfolding(gd_format::specs::File::run_fault), using(gd_format::proofs::Firsts::first_below_more, gd_format::proofs::Firsts::first_below_found))]
fn other_in_run(file: &[u8], header: &Header, i: u64, run: u64) -> Option<DbError>
    requires header { IsHeaderIn header.now (length file.now) }
    requires within { i + run ≤ 2 ^ header.now.dir_bits }
    requires some { 0 < run }
    ensures { result ≡ first_below run (run_fault file.now header.now i) }
{
    let own = entry_from(file, header, i);
    for j in 0..run {
        if entry_from(file, header, i + j) != own {
            return Some(DbError::BadDirEntry(i + j));
        }
    }
    None
}

// The address of the bucket of an entry, where it lies in the file.
#[tactic(auto, unfolding(gd_format::specs::File::is_block_in))]
fn block_place(file: &[u8], header: &Header, i: u64) -> Option<u64>
    requires header { IsHeaderIn header.now (length file.now) }
    requires within { i < 2 ^ header.now.dir_bits }
    ensures none { IfNone result (is_block_in file.now header.now i ≡ false) }
    ensures some { IfSome result (λ at. (is_block_in file.now header.now i ≡ true) × (entry_at file.now header.now i ≡ pos at)) }
    ensures fits { IfSome result (λ at. at + header.now.block ≤ length file.now) }
{
    let len = file.len() as u64;
    let entry = entry_from(file, header, i);
    let block = u64::from(header.block);
    if block > len || entry < 0 || entry.cast_unsigned() > len - block {
        return None;
    }
    Some(entry.cast_unsigned())
}

// The block of the bucket of an entry, whose address is given.
#[tactic(auto, unfolding(gd_format::specs::File::block_of))]
pub fn block_from<'a>(file: &'a [u8], header: &Header, i: u64, at: u64) -> &'a [u8]
    requires entry { entry_at file.now header.now i ≡ pos at }
    requires fits { at + header.now.block ≤ length file.now }
    ensures block { result.now ≡ block_of file.now header.now i }
    ensures size { length result.now ≡ header.now.block }
{
    &file[at as usize..at as usize + header.block as usize]
}

// How many entries the bucket of a block has, where its counts are in range.
#[tactic(auto, unfolding(gd_format::specs::File::are_counts_right), using(crate::proofs::Runs::run_range))]
pub fn run_of(header: &Header, block: &[u8]) -> Option<u64>
    requires size { 112 ≤ length block.now }
    requires bits { header.now.dir_bits ≤ 24 }
    ensures none { IfNone result (are_counts_right header.now block.now ≡ false) }
    ensures some { IfSome result (λ r. (are_counts_right header.now block.now ≡ true) × (r ≡ 2 ^ (header.now.dir_bits - bits_at block.now)) × (bits_at block.now ≤ header.now.dir_bits) × (0 < r) × (r ≤ 2 ^ 24)) }
{
    let c = Native::counts(block);
    if c.free < 0 || c.free > 6 || c.bits < 0 {
        return None;
    }
    let bits = c.bits.cast_unsigned();
    if bits > header.dir_bits {
        return None;
    }
    Some(1 << (header.dir_bits - bits))
}

// Is the address of the entry i that of no entry before?
#[tactic(auto, unfolding(gd_format::specs::File::is_first), using(crate::proofs::Seen::first_by_set))]
fn is_new_place(
    places: &mut HashSet<u64>,
    file: &[u8],
    header: &Header,
    i: u64,
    at: u64,
) -> Result<bool, OutOfMemory>
    requires entry { entry_at file.now header.now i ≡ pos at }
    requires seen { SeesPlaces places.old file.now header.now i }
    ensures first { IfOk result (λ b. b ≡ is_first file.now header.now i) }
    ensures seen { IfOk result (λ _. (r : ℕ) → 0 < r → first_below r (run_fault file.now header.now i) ≡ None → SeesPlaces places.new file.now header.now (i + r)) }
{
    match places.insert(at) {
        Ok(new) => Ok(new),
        Err(_) => Err(OutOfMemory),
    }
}

// How many entries the run of an entry has that no earlier run covers, or its refusal.
#[tactic(auto, unfolding(gd_format::specs::File::entry_fault, gd_format::specs::File::run_at, gd_format::specs::File::block_of), using(crate::proofs::Runs::run_ends))]
fn entry_run(
    alloc: Global,
    places: &mut HashSet<u64>,
    file: &[u8],
    header: &Header,
    i: u64,
) -> Result<Result<u64, DbError>, OutOfMemory>
    requires header { IsHeaderIn header.now (length file.now) }
    requires within { i < 2 ^ header.now.dir_bits }
    requires seen { SeesPlaces places.old file.now header.now i }
    ensures run { IfOk result (λ r. IfOk r (λ run. (entry_fault file.now header.now i ≡ None) × (run ≡ run_at file.now header.now i) × (0 < run) × (run ≤ 2 ^ 24))) }
    ensures seen { IfOk result (λ r. IfOk r (λ run. SeesPlaces places.new file.now header.now (i + run))) }
    ensures refused { IfOk result (λ r. IfErr r (λ e. entry_fault file.now header.now i ≡ Some e)) }
{
    let Some(at) = block_place(file, header, i) else {
        return Ok(Err(DbError::BadDirEntry(i)));
    };
    let block = block_from(file, header, i, at);
    if !is_new_place(places, file, header, i, at)? {
        return Ok(Err(DbError::BadDirEntry(i)));
    }
    let Some(run) = run_of(header, block) else {
        return Ok(Err(DbError::BadBucket(at)));
    };
    if i % run != 0 {
        return Ok(Err(DbError::BadDirEntry(i)));
    }
    if let Some(e) = other_in_run(file, header, i, run) {
        return Ok(Err(e));
    }
    let wrong = slots_refusal(alloc, file, block, header.elems, at, i / run)?;
    match wrong {
        Some(e) => Ok(Err(e)),
        None => Ok(Ok(run)),
    }
}

/// The first refusal of the directory and its buckets.
#[tactic(auto, unfolding(gd_format::specs::File::dir_fault), using(crate::proofs::Steps::walk_more, crate::proofs::Steps::walk_stops, crate::proofs::Runs::run_range))]
pub fn dir_refusal(
    alloc: Global,
    file: &[u8],
    header: &Header,
) -> Result<Option<DbError>, OutOfMemory>
    requires { IsHeaderIn header.now (length file.now) }
    ensures { IfOk result (λ r. r ≡ dir_fault file.now header.now) }
{
    let n = 1u64 << header.dir_bits;
    let mut places = HashSet::new(alloc);
    let mut i = 0;
    'runs: while i < n {
        match entry_run(alloc, &mut places, file, header, i)? {
            Ok(run) => i += run,
            Err(e) => return Ok(Some(e)),
        }
    }
    Ok(None)
}
