//! Checks a file of a vault, block by block.

ghost use Rattle.std.specs.Prelude.{◌≡◌, ℕ, ◌+◌, ◌-◌, ◌*◌, ◌/◌, ◌%◌, ◌^◌, ◌<◌, ◌≤◌, true, false, not, cond, nat_eq, length, IfOk, IfErr, IfNone, IfSome, Some, None, pos};
ghost use Rattle.std.specs.HashSet.{contains};
ghost use Rattle.gd_format.specs.First.{first_below};
ghost use Rattle.gd_format.specs.HeaderFault.{header_fault_of, header_of, is_native, natural};
ghost use Rattle.gd_format.specs.Headers.{IsHeader};
ghost use Rattle.gd_layout.specs.Fits.{FitsHeader};
ghost use Rattle.gd_format.specs.File.{block_of, dir_fault, entry_at, entry_fault, file_fault, front_of, is_block_in, is_first, run_at, run_fault};
ghost use Rattle.gd_vault.specs.Content.{File};
ghost use Rattle.gd_vault.specs.Views.{HasFile, IsAt, OnlyAsks};
ghost use Rattle.gd_readable.specs.Asks.{kept_of, bytes_in, is_there, Tells, IsCause, is_of_readable, RefusesFile, IsAnswer, Counts};
ghost use Rattle.gd_readable.specs.Checks.{IsHeaderIn, SeesPlaces};

use crate::directory::run_of;
use crate::reading::{Stopped, file_len, fill, read_some};
use crate::stored::slots_refusal;
use gd_base::DbError;
use gd_format::Header;
use gd_layout::{Native, i64_from};
use gd_vault::{FileId, Vault};
use std::alloc::Global;
use std::collections::HashSet;

// The entry of the directory with an index, or -1 where the bytes end before.
#[tactic(auto, unfolding(gd_format::specs::File::entry_at), using(gd_format::proofs::Pieces::i64_at_front))]
pub fn stored_entry<V: Vault>(
    vault: &mut V,
    f: FileId,
    header: &Header,
    i: u64,
    len: u64,
) -> Result<i64, Stopped>
    requires there { is_there (kept_of (V.view_of vault.old)) f.0 ≡ true }
    requires header { IsHeaderIn header.now len }
    requires within { i < 2 ^ header.now.dir_bits }
    ensures same { kept_of (V.view_of vault.new) ≡ kept_of (V.view_of vault.old) }
    ensures later { (V.view_of vault.old).faults ≤ (V.view_of vault.new).faults }
    ensures answered { IfOk result (λ _. (V.view_of vault.new).faults ≡ (V.view_of vault.old).faults) }
    ensures failed { IfErr result (λ e. IsCause e (V.view_of vault.old).faults (V.view_of vault.new).faults) }
    ensures entry { IfOk result (λ r. Tells (bytes_in (kept_of (V.view_of vault.old)) f.0) (λ file. length file ≡ len → r ≡ entry_at file header.now i)) }
{
    let mut bytes = [0; 8];
    if !fill(vault, f, header.dir + 8 * i, &mut bytes)? {
        return Ok(-1);
    }
    Ok(i64_from(&bytes, 0))
}

// The first entry of a run that has another address.
#[tactic(auto, unfolding(gd_format::specs::File::run_fault), using(gd_format::proofs::Firsts::first_below_more, gd_format::proofs::Firsts::first_below_found, crate::proofs::Asks::cause_later))]
fn other_in_run<V: Vault>(
    vault: &mut V,
    f: FileId,
    header: &Header,
    i: u64,
    run: u64,
    len: u64,
) -> Result<Option<DbError>, Stopped>
    requires there { is_there (kept_of (V.view_of vault.old)) f.0 ≡ true }
    requires header { IsHeaderIn header.now len }
    requires within { i + run ≤ 2 ^ header.now.dir_bits }
    requires some { 0 < run }
    ensures same { kept_of (V.view_of vault.new) ≡ kept_of (V.view_of vault.old) }
    ensures later { (V.view_of vault.old).faults ≤ (V.view_of vault.new).faults }
    ensures answered { IfOk result (λ _. (V.view_of vault.new).faults ≡ (V.view_of vault.old).faults) }
    ensures failed { IfErr result (λ e. IsCause e (V.view_of vault.old).faults (V.view_of vault.new).faults) }
    ensures kind { IfOk result (λ r. IfSome r (λ e. is_of_readable e ≡ true)) }
    ensures other { IfOk result (λ r. Tells (bytes_in (kept_of (V.view_of vault.old)) f.0) (λ file. length file ≡ len → r ≡ first_below run (run_fault file header.now i))) }
{
    let own = stored_entry(vault, f, header, i, len)?;
    for j in 0..run {
        let entry = stored_entry(vault, f, header, i + j, len)?;
        if entry != own {
            return Ok(Some(DbError::BadDirEntry(i + j)));
        }
    }
    Ok(None)
}

// The address of the bucket of an entry, where it lies in the file.
#[tactic(auto, unfolding(gd_format::specs::File::is_block_in))]
fn block_place<V: Vault>(
    vault: &mut V,
    f: FileId,
    header: &Header,
    i: u64,
    len: u64,
) -> Result<Option<u64>, Stopped>
    requires there { is_there (kept_of (V.view_of vault.old)) f.0 ≡ true }
    requires header { IsHeaderIn header.now len }
    requires within { i < 2 ^ header.now.dir_bits }
    ensures same { kept_of (V.view_of vault.new) ≡ kept_of (V.view_of vault.old) }
    ensures later { (V.view_of vault.old).faults ≤ (V.view_of vault.new).faults }
    ensures answered { IfOk result (λ _. (V.view_of vault.new).faults ≡ (V.view_of vault.old).faults) }
    ensures failed { IfErr result (λ e. IsCause e (V.view_of vault.old).faults (V.view_of vault.new).faults) }
    ensures none { IfOk result (λ r. Tells (bytes_in (kept_of (V.view_of vault.old)) f.0) (λ file. length file ≡ len → r ≡ None → is_block_in file header.now i ≡ false)) }
    ensures some { IfOk result (λ r. IfSome r (λ at. Tells (bytes_in (kept_of (V.view_of vault.old)) f.0) (λ file. length file ≡ len → (is_block_in file header.now i ≡ true) × (entry_at file header.now i ≡ pos at)))) }
    ensures fits { IfOk result (λ r. IfSome r (λ at. at + header.now.block ≤ len)) }
{
    let entry = stored_entry(vault, f, header, i, len)?;
    let block = u64::from(header.block);
    if block > len || entry < 0 || entry.cast_unsigned() > len - block {
        return Ok(None);
    }
    Ok(Some(entry.cast_unsigned()))
}

// Reads the block of the bucket of an entry, and answers its address, where it lies in the file.
#[tactic(auto, unfolding(gd_format::specs::File::block_of), using(crate::proofs::Asks::cause_later))]
fn read_bucket_of<V: Vault>(
    vault: &mut V,
    f: FileId,
    header: &Header,
    i: u64,
    len: u64,
    block: &mut [u8],
) -> Result<Option<u64>, Stopped>
    requires there { is_there (kept_of (V.view_of vault.old)) f.0 ≡ true }
    requires header { IsHeaderIn header.now len }
    requires within { i < 2 ^ header.now.dir_bits }
    requires size { length block.old ≡ header.now.block }
    ensures same { kept_of (V.view_of vault.new) ≡ kept_of (V.view_of vault.old) }
    ensures later { (V.view_of vault.old).faults ≤ (V.view_of vault.new).faults }
    ensures answered { IfOk result (λ _. (V.view_of vault.new).faults ≡ (V.view_of vault.old).faults) }
    ensures failed { IfErr result (λ e. IsCause e (V.view_of vault.old).faults (V.view_of vault.new).faults) }
    ensures none { IfOk result (λ r. Tells (bytes_in (kept_of (V.view_of vault.old)) f.0) (λ file. length file ≡ len → r ≡ None → is_block_in file header.now i ≡ false)) }
    ensures some { IfOk result (λ r. IfSome r (λ at. Tells (bytes_in (kept_of (V.view_of vault.old)) f.0) (λ file. length file ≡ len → (is_block_in file header.now i ≡ true) × (entry_at file header.now i ≡ pos at) × (block.new ≡ block_of file header.now i)))) }
{
    let Some(at) = block_place(vault, f, header, i, len)? else {
        return Ok(None);
    };
    if !fill(vault, f, at, block)? {
        return Ok(None);
    }
    Ok(Some(at))
}

// Puts an address into a set, and answers whether it is new there.
fn is_new_place(places: &mut HashSet<u64>, at: u64) -> Result<bool, Stopped>
    ensures failed { IfErr result (λ e. e ≡ Stopped.NoMemory) }
    ensures new { IfOk result (λ b. b ≡ not (contains nat_eq places.old at)) }
    ensures more { IfOk result (λ _. (q : ℕ) → contains nat_eq places.new q ≡ cond (nat_eq at q) true (contains nat_eq places.old q)) }
{
    match places.insert(at) {
        Ok(new) => Ok(new),
        Err(_) => Err(Stopped::NoMemory),
    }
}

// The length of the run of an entry that no earlier run covers, or its refusal.
#[tactic(auto, unfolding(gd_format::specs::File::entry_fault, gd_format::specs::File::run_at), using(crate::proofs::Runs::run_ends, crate::proofs::Asks::cause_later))]
fn entry_run<V: Vault>(
    alloc: Global,
    vault: &mut V,
    f: FileId,
    places: &mut HashSet<u64>,
    header: &Header,
    i: u64,
    len: u64,
    block: &mut [u8],
    one: &mut [u8],
    two: &mut [u8],
) -> Result<Result<u64, DbError>, Stopped>
    requires there { is_there (kept_of (V.view_of vault.old)) f.0 ≡ true }
    requires header { IsHeaderIn header.now len }
    requires within { i < 2 ^ header.now.dir_bits }
    requires size { length block.old ≡ header.now.block }
    requires room { 0 < length one.old }
    requires rooms { length two.old ≡ length one.old }
    ensures same { kept_of (V.view_of vault.new) ≡ kept_of (V.view_of vault.old) }
    ensures later { (V.view_of vault.old).faults ≤ (V.view_of vault.new).faults }
    ensures answered { IfOk result (λ _. (V.view_of vault.new).faults ≡ (V.view_of vault.old).faults) }
    ensures failed { IfErr result (λ e. IsCause e (V.view_of vault.old).faults (V.view_of vault.new).faults) }
    ensures kind { IfOk result (λ r. IfErr r (λ e. is_of_readable e ≡ true)) }
    ensures some { IfOk result (λ r. IfOk r (λ run. (0 < run) × (run ≤ 2 ^ 24))) }
    ensures run { IfOk result (λ r. IfOk r (λ run. Tells (bytes_in (kept_of (V.view_of vault.old)) f.0) (λ file. length file ≡ len → SeesPlaces places.old file header.now i → (entry_fault file header.now i ≡ None) × (run ≡ run_at file header.now i)))) }
    ensures seen { IfOk result (λ r. IfOk r (λ run. Tells (bytes_in (kept_of (V.view_of vault.old)) f.0) (λ file. length file ≡ len → SeesPlaces places.old file header.now i → SeesPlaces places.new file header.now (i + run)))) }
    ensures refused { IfOk result (λ r. IfErr r (λ e. Tells (bytes_in (kept_of (V.view_of vault.old)) f.0) (λ file. length file ≡ len → SeesPlaces places.old file header.now i → entry_fault file header.now i ≡ Some e))) }
{
    let Some(at) = read_bucket_of(vault, f, header, i, len, block)? else {
        return Ok(Err(DbError::BadDirEntry(i)));
    };
    if !is_new_place(places, at)? {
        return Ok(Err(DbError::BadDirEntry(i)));
    }
    let Some(run) = run_of(header, block) else {
        return Ok(Err(DbError::BadBucket(at)));
    };
    if i % run != 0 {
        return Ok(Err(DbError::BadDirEntry(i)));
    }
    let other = other_in_run(vault, f, header, i, run, len)?;
    if let Some(e) = other {
        return Ok(Err(e));
    }
    let top = i / run;
    let wrong = slots_refusal(alloc, vault, f, block, header.elems, at, len, top, one, two)?;
    match wrong {
        Some(e) => Ok(Err(e)),
        None => Ok(Ok(run)),
    }
}

// The first refusal of the directory and its buckets.
#[tactic(auto, unfolding(gd_format::specs::File::dir_fault), using(crate::proofs::Steps::walk_more, crate::proofs::Steps::walk_stops, crate::proofs::Runs::run_range, crate::proofs::Asks::cause_later))]
fn dir_refusal<V: Vault>(
    alloc: Global,
    vault: &mut V,
    f: FileId,
    header: &Header,
    len: u64,
    block: &mut [u8],
    one: &mut [u8],
    two: &mut [u8],
) -> Result<Option<DbError>, Stopped>
    requires there { is_there (kept_of (V.view_of vault.old)) f.0 ≡ true }
    requires header { IsHeaderIn header.now len }
    requires size { length block.old ≡ header.now.block }
    requires room { 0 < length one.old }
    requires rooms { length two.old ≡ length one.old }
    ensures same { kept_of (V.view_of vault.new) ≡ kept_of (V.view_of vault.old) }
    ensures later { (V.view_of vault.old).faults ≤ (V.view_of vault.new).faults }
    ensures answered { IfOk result (λ _. (V.view_of vault.new).faults ≡ (V.view_of vault.old).faults) }
    ensures failed { IfErr result (λ e. IsCause e (V.view_of vault.old).faults (V.view_of vault.new).faults) }
    ensures kind { IfOk result (λ r. IfSome r (λ e. is_of_readable e ≡ true)) }
    ensures refusal { IfOk result (λ r. Tells (bytes_in (kept_of (V.view_of vault.old)) f.0) (λ file. length file ≡ len → r ≡ dir_fault file header.now)) }
{
    let n = 1u64 << header.dir_bits;
    let mut places = HashSet::new(alloc);
    let mut i = 0;
    'runs: while i < n {
        let run = entry_run(
            alloc,
            vault,
            f,
            &mut places,
            header,
            i,
            len,
            block,
            one,
            two,
        )?;
        match run {
            Ok(run) => i += run,
            Err(e) => return Ok(Some(e)),
        }
    }
    Ok(None)
}

// The same, with a buffer for a block and two for keys.
fn buckets_refusal<V: Vault>(
    alloc: Global,
    vault: &mut V,
    f: FileId,
    header: &Header,
    len: u64,
) -> Result<Option<DbError>, Stopped>
    requires there { is_there (kept_of (V.view_of vault.old)) f.0 ≡ true }
    requires header { IsHeaderIn header.now len }
    ensures same { kept_of (V.view_of vault.new) ≡ kept_of (V.view_of vault.old) }
    ensures later { (V.view_of vault.old).faults ≤ (V.view_of vault.new).faults }
    ensures answered { IfOk result (λ _. (V.view_of vault.new).faults ≡ (V.view_of vault.old).faults) }
    ensures failed { IfErr result (λ e. IsCause e (V.view_of vault.old).faults (V.view_of vault.new).faults) }
    ensures kind { IfOk result (λ r. IfSome r (λ e. is_of_readable e ≡ true)) }
    ensures refusal { IfOk result (λ r. Tells (bytes_in (kept_of (V.view_of vault.old)) f.0) (λ file. length file ≡ len → r ≡ dir_fault file header.now)) }
{
    let Ok(mut block) = vec![in alloc; 0u8; header.block as usize] else {
        return Err(Stopped::NoMemory);
    };
    let Ok(mut one) = vec![in alloc; 0u8; 4096] else {
        return Err(Stopped::NoMemory);
    };
    let Ok(mut two) = vec![in alloc; 0u8; 4096] else {
        return Err(Stopped::NoMemory);
    };
    dir_refusal(alloc, vault, f, header, len, &mut block, &mut one, &mut two)
}

// The header of a file of `len` bytes, or the first of its faults.
#[tactic(auto, using(gd_layout::proofs::HeaderFields::header_fits, gd_layout::proofs::HeaderFields::header_native, crate::proofs::Asks::cause_later, crate::proofs::Headers::header_in, crate::proofs::Headers::header_is, crate::proofs::Refusals::header_kind, crate::proofs::Fronts::front_read))]
fn stored_header<V: Vault>(
    vault: &mut V,
    f: FileId,
    len: u64,
) -> Result<Result<Header, DbError>, Stopped>
    requires there { is_there (kept_of (V.view_of vault.old)) f.0 ≡ true }
    ensures same { kept_of (V.view_of vault.new) ≡ kept_of (V.view_of vault.old) }
    ensures later { (V.view_of vault.old).faults ≤ (V.view_of vault.new).faults }
    ensures answered { IfOk result (λ _. (V.view_of vault.new).faults ≡ (V.view_of vault.old).faults) }
    ensures failed { IfErr result (λ e. IsCause e (V.view_of vault.old).faults (V.view_of vault.new).faults) }
    ensures kind { IfOk result (λ r. IfErr r (λ e. is_of_readable e ≡ true)) }
    ensures inside { IfOk result (λ r. IfOk r (λ h. IsHeaderIn h len)) }
    ensures own { IfOk result (λ r. IfOk r IsHeader) }
    ensures fits { IfOk result (λ r. IfOk r FitsHeader) }
    ensures native { IfOk result (λ r. IfOk r (λ h. is_native h.magic ≡ true)) }
    ensures header { IfOk result (λ r. IfOk r (λ h. Tells (bytes_in (kept_of (V.view_of vault.old)) f.0) (λ file. length file ≡ len → (header_fault_of (front_of file) len ≡ None) × (h ≡ header_of (front_of file))))) }
    ensures refused { IfOk result (λ r. IfErr r (λ e. Tells (bytes_in (kept_of (V.view_of vault.old)) f.0) (λ file. length file ≡ len → header_fault_of (front_of file) len ≡ Some e))) }
{
    let mut front = [0; 80];
    let n = read_some(vault, f, 0, &mut front)?;
    if (n as u64) < len.min(80) {
        return Ok(Err(DbError::ShortFile));
    }
    let bytes = &front[..n];
    match Native::header_fault(bytes, len) {
        Some(e) => Ok(Err(e)),
        None => Ok(Ok(Native::read_header(bytes))),
    }
}

// The header of a readable file, or the first refusal of another one.
#[tactic(auto, unfolding(gd_format::specs::File::file_fault), using(crate::proofs::Asks::cause_later))]
fn checked<V: Vault>(
    alloc: Global,
    vault: &mut V,
    f: FileId,
) -> Result<Result<Header, DbError>, Stopped>
    requires there { is_there (kept_of (V.view_of vault.old)) f.0 ≡ true }
    ensures same { kept_of (V.view_of vault.new) ≡ kept_of (V.view_of vault.old) }
    ensures later { (V.view_of vault.old).faults ≤ (V.view_of vault.new).faults }
    ensures answered { IfOk result (λ _. (V.view_of vault.new).faults ≡ (V.view_of vault.old).faults) }
    ensures failed { IfErr result (λ e. IsCause e (V.view_of vault.old).faults (V.view_of vault.new).faults) }
    ensures kind { IfOk result (λ r. IfErr r (λ e. is_of_readable e ≡ true)) }
    ensures own { IfOk result (λ r. IfOk r IsHeader) }
    ensures fits { IfOk result (λ r. IfOk r FitsHeader) }
    ensures native { IfOk result (λ r. IfOk r (λ h. is_native h.magic ≡ true)) }
    ensures readable { IfOk result (λ r. IfOk r (λ h. Tells (bytes_in (kept_of (V.view_of vault.old)) f.0) (λ file. (file_fault file ≡ None) × (h ≡ header_of (front_of file))))) }
    ensures refused { IfOk result (λ r. IfErr r (λ e. Tells (bytes_in (kept_of (V.view_of vault.old)) f.0) (λ file. file_fault file ≡ Some e))) }
{
    let len = file_len(vault, f)?;
    let header = match stored_header(vault, f, len)? {
        Ok(header) => header,
        Err(e) => return Ok(Err(e)),
    };
    let refusal = buckets_refusal(alloc, vault, f, &header, len)?;
    match refusal {
        Some(e) => Ok(Err(e)),
        None => Ok(Ok(header)),
    }
}

/// The header of a readable file, or the first refusal of another one. The file is read block by block, and the keys
/// are read one by one.
///
/// Over a vault that doesn't tell what it holds, a read that gives fewer bytes than a check needs fails that check.
#[tactic(auto, using(crate::proofs::Asks::only_asks, crate::proofs::Asks::is_there_now, crate::proofs::Refusals::refuses_file, crate::proofs::Refusals::reads_file, crate::proofs::Refusals::kind_readable, crate::proofs::Refusals::counts_readable))]
pub fn readable<V: Vault>(alloc: Global, vault: &mut V, f: FileId) -> Result<Header, DbError>
    requires { HasFile (V.view_of vault.old) f.0 }
    ensures asks { OnlyAsks (V.view_of vault.old) (V.view_of vault.new) }
    ensures header { IfOk result IsHeader }
    ensures fits { IfOk result FitsHeader }
    ensures native { IfOk result (λ h. is_native h.magic ≡ true) }
    ensures readable { IfOk result (λ h. IsAt (V.view_of vault.old) (λ c. (x : File) → c.files f.0 ≡ Some x → (file_fault x.bytes ≡ None) × (h ≡ header_of (front_of x.bytes)))) }
    ensures refused { IfErr result (λ e. RefusesFile e f.0 (V.view_of vault.old) (V.view_of vault.new)) }
    ensures kind { IfErr result (λ e. IsAnswer is_of_readable e) }
    ensures answered { IfOk result (λ _. (V.view_of vault.new).faults ≡ (V.view_of vault.old).faults) }
    ensures counted { IfErr result (λ e. Counts e (V.view_of vault.old).faults (V.view_of vault.new).faults) }
{
    match checked(alloc, vault, f) {
        Ok(answer) => answer,
        Err(Stopped::Fault) => Err(DbError::VaultFault),
        Err(Stopped::NoMemory) => Err(DbError::OutOfMemory),
    }
}
