//! Reads from one file of a vault.

ghost use Rattle.std.specs.Prelude.{◌≡◌, ◌+◌, ◌-◌, ◌<◌, ◌≤◌, ◌^◌, true, Some, length, min, take, IfOk, IfErr};
ghost use Rattle.std.specs.Str.{bytes_eq};
ghost use Rattle.gd_format.specs.Hash.{hash_of};
ghost use Rattle.gd_format.specs.Field.{bytes_at};
ghost use Rattle.gd_readable.specs.Asks.{kept_of, bytes_in, is_there, Tells, IsCause, IsIn};

use gd_base::Failed;
use gd_layout::{hash_end, hash_more, hash_start};
use gd_vault::{FileId, Vault};

/// Why a check ended before its answer.
#[derive(Clone, Copy, Debug, PartialEq, Eq)]
pub enum Stopped {
    /// The vault failed.
    Fault,
    NoMemory,
}

/// How many bytes a file has.
#[tactic(auto, using(crate::proofs::Asks::asked_kept, crate::proofs::Asks::there, crate::proofs::Asks::len_read))]
pub fn file_len<V: Vault>(vault: &mut V, f: FileId) -> Result<u64, Stopped>
    requires there { is_there (kept_of (V.view_of vault.old)) f.0 ≡ true }
    ensures same { kept_of (V.view_of vault.new) ≡ kept_of (V.view_of vault.old) }
    ensures later { (V.view_of vault.old).faults ≤ (V.view_of vault.new).faults }
    ensures answered { IfOk result (λ _. (V.view_of vault.new).faults ≡ (V.view_of vault.old).faults) }
    ensures failed { IfErr result (λ e. IsCause e (V.view_of vault.old).faults (V.view_of vault.new).faults) }
    ensures len { IfOk result (λ n. Tells (bytes_in (kept_of (V.view_of vault.old)) f.0) (λ file. length file ≡ n)) }
{
    match vault.len(f) {
        Ok(n) => Ok(n),
        Err(Failed) => Err(Stopped::Fault),
    }
}

/// Fills as much of a buffer as the file has from a place on, and answers how many bytes these are.
#[tactic(auto, using(crate::proofs::Asks::asked_kept, crate::proofs::Asks::answered_kept, crate::proofs::Asks::there, crate::proofs::Asks::bytes_read))]
pub fn read_some<V: Vault>(
    vault: &mut V,
    f: FileId,
    at: u64,
    buf: &mut [u8],
) -> Result<usize, Stopped>
    requires there { is_there (kept_of (V.view_of vault.old)) f.0 ≡ true }
    ensures same { kept_of (V.view_of vault.new) ≡ kept_of (V.view_of vault.old) }
    ensures later { (V.view_of vault.old).faults ≤ (V.view_of vault.new).faults }
    ensures answered { IfOk result (λ _. (V.view_of vault.new).faults ≡ (V.view_of vault.old).faults) }
    ensures failed { IfErr result (λ e. IsCause e (V.view_of vault.old).faults (V.view_of vault.new).faults) }
    ensures count { IfOk result (λ n. n ≤ length buf.old) }
    ensures read { IfOk result (λ n. Tells (bytes_in (kept_of (V.view_of vault.old)) f.0) (λ file. (n ≡ min (length buf.old) (length file - at)) × (take n buf.new ≡ bytes_at file at n))) }
{
    match vault.read_at(f, at, buf) {
        Ok(n) => Ok(n),
        Err(Failed) => Err(Stopped::Fault),
    }
}

/// Fills a buffer from a place on, or answers false exactly where the bytes end before.
pub fn fill<V: Vault>(vault: &mut V, f: FileId, at: u64, buf: &mut [u8]) -> Result<bool, Stopped>
    requires there { is_there (kept_of (V.view_of vault.old)) f.0 ≡ true }
    ensures same { kept_of (V.view_of vault.new) ≡ kept_of (V.view_of vault.old) }
    ensures later { (V.view_of vault.old).faults ≤ (V.view_of vault.new).faults }
    ensures answered { IfOk result (λ _. (V.view_of vault.new).faults ≡ (V.view_of vault.old).faults) }
    ensures failed { IfErr result (λ e. IsCause e (V.view_of vault.old).faults (V.view_of vault.new).faults) }
    ensures whole { IfOk result (λ whole. Tells (bytes_in (kept_of (V.view_of vault.old)) f.0) (λ file. at + length buf.old ≤ length file → whole ≡ true)) }
    ensures short { IfOk result (λ whole. Tells (bytes_in (kept_of (V.view_of vault.old)) f.0) (λ file. whole ≡ true → IsIn file at (length buf.old))) }
    ensures read { IfOk result (λ _. Tells (bytes_in (kept_of (V.view_of vault.old)) f.0) (λ file. at + length buf.old ≤ length file → buf.new ≡ bytes_at file at (length buf.old))) }
{
    let n = read_some(vault, f, at, buf)?;
    Ok(n == buf.len())
}

/// Fills a buffer from a place on, which may be any where the buffer is empty.
pub fn fill_some<V: Vault>(
    vault: &mut V,
    f: FileId,
    at: u64,
    buf: &mut [u8],
) -> Result<bool, Stopped>
    requires there { is_there (kept_of (V.view_of vault.old)) f.0 ≡ true }
    ensures same { kept_of (V.view_of vault.new) ≡ kept_of (V.view_of vault.old) }
    ensures later { (V.view_of vault.old).faults ≤ (V.view_of vault.new).faults }
    ensures answered { IfOk result (λ _. (V.view_of vault.new).faults ≡ (V.view_of vault.old).faults) }
    ensures failed { IfErr result (λ e. IsCause e (V.view_of vault.old).faults (V.view_of vault.new).faults) }
    ensures whole { IfOk result (λ whole. Tells (bytes_in (kept_of (V.view_of vault.old)) f.0) (λ file. IsIn file at (length buf.old) → whole ≡ true)) }
    ensures short { IfOk result (λ whole. Tells (bytes_in (kept_of (V.view_of vault.old)) f.0) (λ file. whole ≡ true → IsIn file at (length buf.old))) }
    ensures read { IfOk result (λ _. Tells (bytes_in (kept_of (V.view_of vault.old)) f.0) (λ file. IsIn file at (length buf.old) → buf.new ≡ bytes_at file at (length buf.old))) }
{
    if buf.is_empty() {
        return Ok(true);
    }
    let whole = fill(vault, f, at, buf)?;
    Ok(whole)
}

/// The hash of the `size` bytes from a place on, or None where the bytes end before.
#[tactic(auto, unfolding(gd_format::specs::Hash::hash_of), using(crate::proofs::Asks::cause_later))]
pub fn hash_at<V: Vault>(
    vault: &mut V,
    f: FileId,
    at: u64,
    size: u64,
    scratch: &mut [u8],
) -> Result<Option<u32>, Stopped>
    requires there { is_there (kept_of (V.view_of vault.old)) f.0 ≡ true }
    requires room { 0 < length scratch.old }
    requires ends { at + size < 2 ^ 64 }
    ensures same { kept_of (V.view_of vault.new) ≡ kept_of (V.view_of vault.old) }
    ensures later { (V.view_of vault.old).faults ≤ (V.view_of vault.new).faults }
    ensures answered { IfOk result (λ _. (V.view_of vault.new).faults ≡ (V.view_of vault.old).faults) }
    ensures failed { IfErr result (λ e. IsCause e (V.view_of vault.old).faults (V.view_of vault.new).faults) }
    ensures hash { IfOk result (λ v. Tells (bytes_in (kept_of (V.view_of vault.old)) f.0) (λ file. IsIn file at size → v ≡ Some (hash_of (bytes_at file at size)))) }
{
    let mut v = hash_start(size);
    let mut done = 0;
    'pieces: while done < size {
        let n = (size - done).min(scratch.len() as u64) as usize;
        let part = &mut scratch[..n];
        if !fill(vault, f, at + done, part)? {
            return Ok(None);
        }
        v = hash_more(done, v, part);
        done += n as u64;
    }
    Ok(Some(hash_end(v)))
}

pub fn are_equal(one: &[u8], two: &[u8]) -> bool
    ensures { result ≡ bytes_eq one.now two.now }
{
    one == two
}

/// Are the `size` bytes from two places on the same? None where the bytes end before.
#[tactic(auto, using(crate::proofs::Asks::cause_later))]
pub fn same_at<V: Vault>(
    vault: &mut V,
    f: FileId,
    a: u64,
    b: u64,
    size: u64,
    one: &mut [u8],
    two: &mut [u8],
) -> Result<Option<bool>, Stopped>
    requires there { is_there (kept_of (V.view_of vault.old)) f.0 ≡ true }
    requires room { 0 < length one.old }
    requires rooms { length two.old ≡ length one.old }
    requires a_ends { a + size < 2 ^ 64 }
    requires b_ends { b + size < 2 ^ 64 }
    ensures same { kept_of (V.view_of vault.new) ≡ kept_of (V.view_of vault.old) }
    ensures later { (V.view_of vault.old).faults ≤ (V.view_of vault.new).faults }
    ensures answered { IfOk result (λ _. (V.view_of vault.new).faults ≡ (V.view_of vault.old).faults) }
    ensures failed { IfErr result (λ e. IsCause e (V.view_of vault.old).faults (V.view_of vault.new).faults) }
    ensures answer { IfOk result (λ r. Tells (bytes_in (kept_of (V.view_of vault.old)) f.0) (λ file. IsIn file a size → IsIn file b size → r ≡ Some (bytes_eq (bytes_at file a size) (bytes_at file b size)))) }
{
    let mut done = 0;
    'pieces: while done < size {
        let n = (size - done).min(one.len() as u64) as usize;
        let first = &mut one[..n];
        let second = &mut two[..n];
        if !fill(vault, f, a + done, first)? {
            return Ok(None);
        }
        if !fill(vault, f, b + done, second)? {
            return Ok(None);
        }
        if !are_equal(first, second) {
            return Ok(Some(false));
        }
        done += n as u64;
    }
    Ok(Some(true))
}
