//! The stack of blocks of free space.

ghost use Rattle.std.specs.Prelude.{◌≡◌, ℕ, ◌+◌, ◌-◌, ◌*◌, ◌/◌, ◌<◌, ◌≤◌, ◌^◌, true, false, not, cond, nat_eq, [], ◌++◌, length, min, take, None, Some, IfOk, IfErr, IfNone, IfSome};
ghost use Rattle.std.specs.List.{All, flat_map};
ghost use Rattle.std.specs.HashSet.{contains};
ghost use Rattle.gd_format.specs.Field.{bytes_at};
ghost use Rattle.gd_format.specs.Avail.{is_avail, next_at};
ghost use Rattle.gd_format.specs.Sound.{is_stack_block, stack_fault, stack_held, stack_places};
ghost use Rattle.gd_verify.specs.Apart.{AreApart, IsPlain, MeetsAlike, StandsForMore};
ghost use Rattle.gd_verify.specs.Fronts.{front_size, is_stack_front};
ghost use Rattle.gd_readable.specs.Asks.{kept_of, bytes_in, is_there, Tells, IsCause, is_of_sound};

use crate::apart::are_apart;
use crate::held::push_stack_block;
use gd_base::{DbError, OutOfMemory};
use gd_format::Held;
use gd_readable::{Stopped, read_some};
use gd_vault::{FileId, Vault};
use std::alloc::Global;
use std::collections::HashSet;

// Puts an address into a set, and answers whether it is new there.
fn is_new(seen: &mut HashSet<u64>, at: u64) -> Result<bool, Stopped>
    ensures failed { IfErr result (λ e. e ≡ Stopped.NoMemory) }
    ensures new { IfOk result (λ b. b ≡ not (contains nat_eq seen.old at)) }
    ensures more { IfOk result (λ _. (q : ℕ) → contains nat_eq seen.new q ≡ cond (nat_eq at q) true (contains nat_eq seen.old q)) }
{
    match seen.insert(at) {
        Ok(new) => Ok(new),
        Err(_) => Err(Stopped::NoMemory),
    }
}

// Reads the block of the stack at an address and puts it last, and then its extents. Answers the address of the next
// block, or None where the block is not right.
fn read_block<V: Vault>(
    vault: &mut V,
    f: FileId,
    most: u32,
    at: u64,
    buf: &mut [u8],
    list: &mut Vec<Held>,
) -> Result<Option<u64>, Stopped>
    requires there { is_there (kept_of (V.view_of vault.old)) f.0 ≡ true }
    requires few { most ≤ 2 ^ 20 }
    requires room { length buf.old ≡ 16 + 16 * most }
    requires some { 0 < at }
    requires plain { All IsPlain list.old.items }
    ensures same { kept_of (V.view_of vault.new) ≡ kept_of (V.view_of vault.old) }
    ensures later { (V.view_of vault.old).faults ≤ (V.view_of vault.new).faults }
    ensures answered { IfOk result (λ _. (V.view_of vault.new).faults ≡ (V.view_of vault.old).faults) }
    ensures failed { IfErr result (λ e. IsCause e (V.view_of vault.old).faults (V.view_of vault.new).faults) }
    ensures plain { IfOk result (λ _. All IsPlain list.new.items) }
    ensures wrong { IfOk result (λ r. IfNone r (Tells (bytes_in (kept_of (V.view_of vault.old)) f.0) (λ file. is_stack_block file most at ≡ false))) }
    ensures right { IfOk result (λ r. IfSome r (λ next. Tells (bytes_in (kept_of (V.view_of vault.old)) f.0) (λ file. (is_stack_block file most at ≡ true) × (next ≡ next_at (bytes_at file at 16)) × (list.new.items ≡ list.old.items ++ stack_held file at)))) }
{
    if at >= 1 << 63 {
        return Ok(None);
    }
    let n = read_some(vault, f, at, buf)?;
    match push_stack_block(&buf[..n], most, at, list) {
        Ok(next) => Ok(next),
        Err(OutOfMemory) => Err(Stopped::NoMemory),
    }
}

// Are so many extents listed that two of them meet? Each extent and each head of a block takes 16 bytes of a file of
// `len` bytes at least, unless blocks meet.
fn is_enough(alloc: Global, len: u64, list: &[Held]) -> Result<bool, Stopped>
    requires { All IsPlain list.now }
    ensures failed { IfErr result (λ e. e ≡ Stopped.NoMemory) }
    ensures meet { IfOk result (λ b. b ≡ true → ¬ AreApart list.now) }
{
    if list.len() as u64 <= len / 4 {
        return Ok(false);
    }
    match are_apart(alloc, list) {
        Ok(true) => Ok(false),
        Ok(false) => Ok(true),
        Err(_) => Err(Stopped::NoMemory),
    }
}

// The same, but what the block holds is put last only until enough is listed.
fn list_block<V: Vault>(
    alloc: Global,
    vault: &mut V,
    f: FileId,
    most: u32,
    len: u64,
    at: u64,
    buf: &mut [u8],
    list: &mut Vec<Held>,
    enough: &mut bool,
) -> Result<Option<u64>, Stopped>
    requires there { is_there (kept_of (V.view_of vault.old)) f.0 ≡ true }
    requires few { most ≤ 2 ^ 20 }
    requires room { length buf.old ≡ 16 + 16 * most }
    requires some { 0 < at }
    requires plain { All IsPlain list.old.items }
    ensures same { kept_of (V.view_of vault.new) ≡ kept_of (V.view_of vault.old) }
    ensures later { (V.view_of vault.old).faults ≤ (V.view_of vault.new).faults }
    ensures answered { IfOk result (λ _. (V.view_of vault.new).faults ≡ (V.view_of vault.old).faults) }
    ensures failed { IfErr result (λ e. IsCause e (V.view_of vault.old).faults (V.view_of vault.new).faults) }
    ensures plain { IfOk result (λ _. All IsPlain list.new.items) }
    ensures wrong { IfOk result (λ r. IfNone r (Tells (bytes_in (kept_of (V.view_of vault.old)) f.0) (λ file. is_stack_block file most at ≡ false))) }
    ensures right { IfOk result (λ r. IfSome r (λ next. Tells (bytes_in (kept_of (V.view_of vault.old)) f.0) (λ file. (is_stack_block file most at ≡ true) × (next ≡ next_at (bytes_at file at 16))))) }
    ensures listed { IfOk result (λ r. IfSome r (λ _. Tells (bytes_in (kept_of (V.view_of vault.old)) f.0) (λ file. StandsForMore (stack_held file at) list.old.items list.new.items enough.old enough.new))) }
{
    if *enough {
        let mut unlisted = Vec::new(alloc);
        return read_block(vault, f, most, at, buf, &mut unlisted);
    }
    let next = read_block(vault, f, most, at, buf, list)?;
    *enough = is_enough(alloc, len, list)?;
    Ok(next)
}

/// The refusal of the stack of a file of `len` bytes, from its top on. Puts each block last, and then its extents, or of
/// blocks that meet at least so many that two extents meet.
#[tactic(auto, using(gd_readable::proofs::Asks::cause_later))]
pub fn stack_refusal<V: Vault>(
    alloc: Global,
    vault: &mut V,
    f: FileId,
    most: u32,
    top: u64,
    len: u64,
    buf: &mut [u8],
    list: &mut Vec<Held>,
) -> Result<Option<DbError>, Stopped>
    requires there { is_there (kept_of (V.view_of vault.old)) f.0 ≡ true }
    requires few { most ≤ 2 ^ 20 }
    requires room { length buf.old ≡ 16 + 16 * most }
    requires plain { All IsPlain list.old.items }
    ensures same { kept_of (V.view_of vault.new) ≡ kept_of (V.view_of vault.old) }
    ensures later { (V.view_of vault.old).faults ≤ (V.view_of vault.new).faults }
    ensures answered { IfOk result (λ _. (V.view_of vault.new).faults ≡ (V.view_of vault.old).faults) }
    ensures failed { IfErr result (λ e. IsCause e (V.view_of vault.old).faults (V.view_of vault.new).faults) }
    ensures kind { IfOk result (λ r. IfSome r (λ e. is_of_sound e ≡ true)) }
    ensures plain { IfOk result (λ _. All IsPlain list.new.items) }
    ensures refusal { IfOk result (λ r. Tells (bytes_in (kept_of (V.view_of vault.old)) f.0) (λ file. length file ≡ len → 512 ≤ len → r ≡ stack_fault file most top)) }
    ensures held { IfOk result (λ r. Tells (bytes_in (kept_of (V.view_of vault.old)) f.0) (λ file. length file ≡ len → 512 ≤ len → r ≡ None → MeetsAlike (list.old.items ++ flat_map (stack_held file) (stack_places file top)) list.new.items)) }
{
    let mut seen = HashSet::new(alloc);
    let mut at = top;
    let mut enough = false;
    for k in 0..len {
        if at == 0 {
            return Ok(None);
        }
        if !is_new(&mut seen, at)? {
            return Ok(Some(DbError::BadAvail(at)));
        }
        let block = list_block(alloc, vault, f, most, len, at, buf, list, &mut enough)?;
        let Some(next) = block else {
            return Ok(Some(DbError::BadAvail(at)));
        };
        at = next;
    }
    Ok(Some(DbError::BadAvail(at)))
}
