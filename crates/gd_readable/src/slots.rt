//! The slots of one bucket by themselves: their number, and whether each is reached from its home.

ghost use Rattle.std.specs.Prelude.{◌≡◌, ◌+◌, ◌*◌, ◌%◌, ◌<◌, ◌≤◌, ◌^◌, length};
ghost use Rattle.gd_format.specs.First.{count_below, first_below};
ghost use Rattle.gd_format.specs.HeaderFault.{natural};
ghost use Rattle.gd_format.specs.File.{is_full_at, is_count_right, is_reached, reach_fault};
ghost use Rattle.gd_readable.specs.Checks.{IsFullBefore};

use gd_base::DbError;
use gd_format::RawSlot;
use gd_layout::{Native, i32_from};

/// The number, or 0 below.
pub fn natural_of(z: i32) -> u32
    ensures value { result ≡ natural z }
    ensures low { result < 2 ^ 31 }
{
    if z < 0 { 0 } else { z.cast_unsigned() }
}

/// Is the slot full?
#[tactic(auto, unfolding(gd_format::specs::File::is_full_at, gd_format::specs::Bucket::raw_slot_at))]
pub fn is_full(block: &[u8], s: u32) -> bool
    requires { 112 + 24 * (s + 1) ≤ length block.now }
    ensures { result ≡ is_full_at block.now s }
{
    i32_from(block, 112 + 24 * s as usize) != -1
}

#[tactic(auto, using(gd_format::proofs::Firsts::count_below_more))]
fn count_full(block: &[u8], elems: u32) -> u32
    requires { 112 + 24 * elems ≤ length block.now }
    ensures { result ≡ count_below elems (is_full_at block.now) }
{
    let mut n = 0;
    for s in 0..elems {
        if is_full(block, s) {
            n += 1;
        }
    }
    n
}

/// Is the count field the number of full slots?
#[tactic(auto, unfolding(gd_format::specs::File::is_count_right))]
pub fn has_right_count(block: &[u8], elems: u32) -> bool
    requires { 112 + 24 * elems ≤ length block.now }
    ensures { result ≡ is_count_right block.now elems }
{
    let full = Native::counts(block).full;
    full >= 0 && full.cast_unsigned() == count_full(block, elems)
}

// How many full slots stand directly before slot 0, from the last slot on down.
#[tactic(auto, using(crate::proofs::Reach::run_at_end))]
fn full_at_end(block: &[u8], elems: u32) -> u32
    requires { 112 + 24 * elems ≤ length block.now }
    ensures { IsFullBefore block.now elems 0 result }
{
    let mut n = 0;
    'slots: while n < elems {
        if !is_full(block, elems - 1 - n) {
            return n;
        }
        n += 1;
    }
    n
}

// How many full slots stand directly before the slot after s, by their number before s.
#[tactic(auto, using(crate::proofs::Reach::run_ends_here, crate::proofs::Reach::run_goes_on))]
fn full_behind(block: &[u8], elems: u32, s: u32, before: u32) -> u32
    requires size { 112 + 24 * elems ≤ length block.now }
    requires place { s < elems }
    requires before { IsFullBefore block.now elems s before }
    ensures { IsFullBefore block.now elems (s + 1) result }
{
    if !is_full(block, s) {
        return 0;
    }
    if before < elems { before + 1 } else { before }
}

fn home_of(raw: &RawSlot, elems: u64) -> u64
    requires { 0 < elems }
    ensures value { result ≡ natural raw.now.hash % elems }
    ensures below { result < elems }
{
    u64::from(natural_of(raw.hash)) % elems
}

// Are all slots from its home up to the slot full? As many as `before` stand directly before it.
#[tactic(auto, unfolding(gd_format::specs::File::is_reached), using(crate::proofs::Reach::reach_by_run))]
fn is_reachable(block: &[u8], elems: u32, s: u32, before: u32) -> bool
    requires size { 112 + 24 * elems ≤ length block.now }
    requires place { s < elems }
    requires before { IsFullBefore block.now elems s before }
    ensures { result ≡ is_reached block.now elems s }
{
    let size = u64::from(elems);
    let home = home_of(&Native::raw_slot(block, s), size);
    (u64::from(s) + size - home) % size <= u64::from(before)
}

/// The refusal of the first full slot that is not reached from its home, in the bucket at an address.
#[tactic(auto, unfolding(gd_format::specs::File::reach_fault), using(gd_format::proofs::Firsts::first_below_more, gd_format::proofs::Firsts::first_below_found))]
pub fn unreached(block: &[u8], elems: u32, at: u64) -> Option<DbError>
    requires { 112 + 24 * elems ≤ length block.now }
    ensures { result ≡ first_below elems (reach_fault block.now elems at) }
{
    let mut before = full_at_end(block, elems);
    for s in 0..elems {
        if is_full(block, s) && !is_reachable(block, elems, s, before) {
            return Some(DbError::BadHashTable(at));
        }
        before = full_behind(block, elems, s, before);
    }
    None
}
