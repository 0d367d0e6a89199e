//! The addresses of the buckets of a readable file.

ghost use Rattle.std.specs.Prelude.{◌≡◌, ℕ, ◌+◌, ◌*◌, ◌<◌, ◌≤◌, ◌^◌, true, false, List, [], ◌∷◌, ◌++◌, length, IfOk, IfErr, IfNone, IfSome, negsuc};
ghost use Rattle.std.specs.List.{All};
ghost use Rattle.gd_format.specs.declared.Header.{Header as AnyHeader};
ghost use Rattle.gd_format.specs.HeaderFault.{natural};
ghost use Rattle.gd_format.specs.Headers.{IsHeader};
ghost use Rattle.gd_format.specs.Bucket.{is_from_zero};
ghost use Rattle.gd_format.specs.File.{entries_of, places_of};
ghost use Rattle.gd_readable.specs.Asks.{kept_of, bytes_in, is_there, Tells, IsCause, is_of_sound};
ghost use Rattle.gd_verify.specs.Known.{IsReadBy, IsAddress, IsPlaced, IsPage, places_below};

use gd_base::DbError;
use gd_format::Header;
use gd_layout::Native;
use gd_readable::{Stopped, fill};
use gd_vault::{FileId, Vault};
use std::alloc::Global;

// Puts the address of an entry last, unless the entry before is the same. False where the entry is below 0.
fn push_place(entry: i64, before: i64, places: &mut Vec<u64>) -> Result<bool, Stopped>
    requires low { All IsAddress places.old.items }
    ensures failed { IfErr result (λ e. e ≡ Stopped.NoMemory) }
    ensures low { IfOk result (λ _. All IsAddress places.new.items) }
    ensures below { IfOk result (λ b. b ≡ false → is_from_zero entry ≡ false) }
    ensures again { IfOk result (λ b. b ≡ true → entry ≡ before → places.new.items ≡ places.old.items) }
    ensures more { IfOk result (λ b. b ≡ true → (entry ≡ before → ⊥) → places.new.items ≡ places.old.items ++ natural entry ∷ []) }
{
    if entry < 0 {
        return Ok(false);
    }
    if entry == before {
        return Ok(true);
    }
    match places.push(entry.cast_unsigned()) {
        Ok(()) => Ok(true),
        Err(_) => Err(Stopped::NoMemory),
    }
}

// Puts the addresses of some entries last, each where the entry before is another one, and answers the last entry. None
// where an entry is below 0.
fn push_places(
    entries: &[u8],
    count: u64,
    before: i64,
    places: &mut Vec<u64>,
) -> Result<Option<i64>, Stopped>
    requires size { 8 * count ≤ length entries.now }
    requires low { All IsAddress places.old.items }
    ensures failed { IfErr result (λ e. e ≡ Stopped.NoMemory) }
    ensures low { IfOk result (λ _. All IsAddress places.new.items) }
    ensures below { IfOk result (λ r. IfNone r ((file : List ℕ) (h : AnyHeader) (i : ℕ) → IsReadBy file h → IsPage file h i count entries.now → ⊥)) }
    ensures placed { IfOk result (λ r. IfSome r (λ last. (file : List ℕ) (h : AnyHeader) (i : ℕ) → IsReadBy file h → IsPage file h i count entries.now → IsPlaced file h i before places.old.items → IsPlaced file h (i + count) last places.new.items)) }
{
    let mut last = before;
    for e in 0..count {
        let entry = Native::address(entries, e as usize);
        if !push_place(entry, last, places)? {
            return Ok(None);
        }
        last = entry;
    }
    Ok(Some(last))
}

// Reads some entries, and puts their addresses last.
fn next_page<V: Vault>(
    vault: &mut V,
    f: FileId,
    header: &Header,
    i: u64,
    count: u64,
    before: i64,
    page: &mut [u8],
    places: &mut Vec<u64>,
) -> Result<Option<i64>, Stopped>
    requires there { is_there (kept_of (V.view_of vault.old)) f.0 ≡ true }
    requires header { IsHeader header.now }
    requires size { length page.old ≡ 4096 }
    requires few { count ≤ 512 }
    requires within { i + count ≤ entries_of header.now }
    requires low { All IsAddress places.old.items }
    ensures same { kept_of (V.view_of vault.new) ≡ kept_of (V.view_of vault.old) }
    ensures later { (V.view_of vault.old).faults ≤ (V.view_of vault.new).faults }
    ensures answered { IfOk result (λ _. (V.view_of vault.new).faults ≡ (V.view_of vault.old).faults) }
    ensures failed { IfErr result (λ e. IsCause e (V.view_of vault.old).faults (V.view_of vault.new).faults) }
    ensures low { IfOk result (λ _. All IsAddress places.new.items) }
    ensures below { IfOk result (λ r. IfNone r (Tells (bytes_in (kept_of (V.view_of vault.old)) f.0) (λ file. IsReadBy file header.now → ⊥))) }
    ensures placed { IfOk result (λ r. IfSome r (λ last. Tells (bytes_in (kept_of (V.view_of vault.old)) f.0) (λ file. IsReadBy file header.now → IsPlaced file header.now i before places.old.items → IsPlaced file header.now (i + count) last places.new.items))) }
{
    let entries = &mut page[..8 * count as usize];
    if !fill(vault, f, header.dir + 8 * i, entries)? {
        return Ok(None);
    }
    let last = push_places(entries, count, before, places)?;
    Ok(last)
}

// The addresses of the buckets, by a buffer for a page of the directory.
#[tactic(auto, using(gd_readable::proofs::Asks::cause_later, gd_readable::proofs::Runs::run_range))]
fn read_places<V: Vault>(
    alloc: Global,
    vault: &mut V,
    f: FileId,
    header: &Header,
    page: &mut [u8],
) -> Result<Result<Vec<u64>, DbError>, Stopped>
    requires there { is_there (kept_of (V.view_of vault.old)) f.0 ≡ true }
    requires header { IsHeader header.now }
    requires size { length page.old ≡ 4096 }
    ensures same { kept_of (V.view_of vault.new) ≡ kept_of (V.view_of vault.old) }
    ensures later { (V.view_of vault.old).faults ≤ (V.view_of vault.new).faults }
    ensures answered { IfOk result (λ _. (V.view_of vault.new).faults ≡ (V.view_of vault.old).faults) }
    ensures failed { IfErr result (λ e. IsCause e (V.view_of vault.old).faults (V.view_of vault.new).faults) }
    ensures low { IfOk result (λ r. IfOk r (λ v. All IsAddress v.items)) }
    ensures kind { IfOk result (λ r. IfErr r (λ e. is_of_sound e ≡ true)) }
    ensures refused { IfOk result (λ r. IfErr r (λ e. Tells (bytes_in (kept_of (V.view_of vault.old)) f.0) (λ file. IsReadBy file header.now → ⊥))) }
    ensures places { IfOk result (λ r. IfOk r (λ v. Tells (bytes_in (kept_of (V.view_of vault.old)) f.0) (λ file. IsReadBy file header.now → v.items ≡ places_of file header.now))) }
{
    let mut places = Vec::new(alloc);
    let n = 1u64 << header.dir_bits;
    let mut before = -1;
    let mut i = 0;
    'pages: while i < n {
        let count = (n - i).min(512);
        let next = next_page(vault, f, header, i, count, before, page, &mut places)?;
        let Some(last) = next else {
            return Ok(Err(DbError::BadDirEntry(i)));
        };
        before = last;
        i += count;
    }
    Ok(Ok(places))
}

/// The addresses of the buckets in the order of the directory, which is read page by page. Over a file that is not
/// readable it may answer a refusal.
pub fn bucket_places<V: Vault>(
    alloc: Global,
    vault: &mut V,
    f: FileId,
    header: &Header,
) -> Result<Result<Vec<u64>, DbError>, Stopped>
    requires there { is_there (kept_of (V.view_of vault.old)) f.0 ≡ true }
    requires header { IsHeader header.now }
    ensures same { kept_of (V.view_of vault.new) ≡ kept_of (V.view_of vault.old) }
    ensures later { (V.view_of vault.old).faults ≤ (V.view_of vault.new).faults }
    ensures answered { IfOk result (λ _. (V.view_of vault.new).faults ≡ (V.view_of vault.old).faults) }
    ensures failed { IfErr result (λ e. IsCause e (V.view_of vault.old).faults (V.view_of vault.new).faults) }
    ensures low { IfOk result (λ r. IfOk r (λ v. All IsAddress v.items)) }
    ensures kind { IfOk result (λ r. IfErr r (λ e. is_of_sound e ≡ true)) }
    ensures refused { IfOk result (λ r. IfErr r (λ e. Tells (bytes_in (kept_of (V.view_of vault.old)) f.0) (λ file. IsReadBy file header.now → ⊥))) }
    ensures places { IfOk result (λ r. IfOk r (λ v. Tells (bytes_in (kept_of (V.view_of vault.old)) f.0) (λ file. IsReadBy file header.now → v.items ≡ places_of file header.now))) }
{
    let Ok(mut page) = vec![in alloc; 0u8; 4096] else {
        return Err(Stopped::NoMemory);
    };
    read_places(alloc, vault, f, header, &mut page)
}
