//! The extents that one block holds, put behind others.

ghost use Rattle.std.specs.Prelude.{◌≡◌, ◌+◌, ◌*◌, ◌<◌, ◌≤◌, ◌^◌, true, false, not, ◌&&◌, [], ◌∷◌, ◌++◌, length, take, map, IfOk, IfErr, IfNone, IfSome};
ghost use Rattle.std.specs.List.{All, filter, range_with_len};
ghost use Rattle.gd_format.specs.First.{all_below, list_below};
ghost use Rattle.gd_format.specs.HeaderFault.{is_within, natural};
ghost use Rattle.gd_format.specs.Bucket.{counts_at, extent_of, free_at, is_empty_hash, raw_free_at, raw_slot_at};
ghost use Rattle.gd_format.specs.Avail.{avail_size, count_at, extent_at, extents_at, is_avail, is_extent_right, is_extent_right_at, next_at};
ghost use Rattle.gd_format.specs.File.{size_of};
ghost use Rattle.gd_format.specs.Sound.{held_by, itself, record_held, takes_place};
ghost use Rattle.gd_verify.specs.Apart.{IsPlain};
ghost use Rattle.gd_verify.specs.Fronts.{is_free_right_at, front_size, is_stack_front};

use gd_base::OutOfMemory;
use gd_format::{Extent, Held, RawExtent, RawSlot};
use gd_layout::{Native, has_right_extent};

/// Puts an extent last.
pub fn push_held(list: &mut Vec<Held>, held: Held) -> Result<(), OutOfMemory>
    ensures last { IfOk result (λ _. list.new.items ≡ list.old.items ++ held ∷ []) }
{
    match list.push(held) {
        Ok(()) => Ok(()),
        Err(_) => Err(OutOfMemory),
    }
}

/// A free extent, where it is right, held by an address.
#[tactic(auto, unfolding(gd_format::specs::Avail::is_extent_right, gd_format::specs::Bucket::extent_of))]
fn right_held(raw: &RawExtent, by: u64) -> Option<Held>
    ensures none { IfNone result (is_extent_right raw.now ≡ false) }
    ensures some { IfSome result (λ k. (is_extent_right raw.now ≡ true) × (k ≡ held_by by (extent_of raw.now)) × IsPlain k) }
{
    if !has_right_extent(raw) {
        return None;
    }
    let extent = Extent {
        at: raw.at.cast_unsigned(),
        size: raw.size.cast_unsigned(),
    };
    Some(Held { extent, by })
}

// The first n extents of a block of free space, where each is right.
#[tactic(auto, unfolding(gd_format::specs::Avail::is_extent_right_at, gd_format::specs::Avail::extent_at), using(crate::proofs::Lists::held_more, crate::proofs::Lists::plain_more, gd_format::proofs::Firsts::all_below_more, gd_format::proofs::Firsts::all_below_stops))]
fn push_extents(bytes: &[u8], n: u32, by: u64, list: &mut Vec<Held>) -> Result<bool, OutOfMemory>
    requires size { avail_size n ≤ length bytes.now }
    requires plain { All IsPlain list.old.items }
    ensures right { IfOk result (λ b. b ≡ all_below n (is_extent_right_at bytes.now)) }
    ensures held { IfOk result (λ b. b ≡ true → list.new.items ≡ list.old.items ++ map (held_by by) (list_below n (extent_at bytes.now))) }
    ensures plain { IfOk result (λ _. All IsPlain list.new.items) }
{
    for e in 0..n {
        let Some(held) = right_held(&Native::raw_extent(bytes, e), by) else {
            return Ok(false);
        };
        push_held(list, held)?;
    }
    Ok(true)
}

/// Puts the extents of a block of free space of `most` extents at most last, held by an address, or answers false where
/// the block is not right.
#[tactic(auto, unfolding(gd_format::specs::Avail::is_avail))]
pub fn push_avail(
    bytes: &[u8],
    most: u32,
    by: u64,
    list: &mut Vec<Held>,
) -> Result<bool, OutOfMemory>
    requires head { 16 ≤ length bytes.now }
    requires extents { is_within (count_at bytes.now) 0 most ≡ true → avail_size (natural (count_at bytes.now)) ≤ length bytes.now }
    requires plain { All IsPlain list.old.items }
    ensures right { IfOk result (λ b. b ≡ is_avail bytes.now most) }
    ensures held { IfOk result (λ b. b ≡ true → list.new.items ≡ list.old.items ++ map (held_by by) (extents_at bytes.now)) }
    ensures plain { IfOk result (λ _. All IsPlain list.new.items) }
{
    let count = Native::raw_avail(bytes).count;
    if count < 0 || count.cast_unsigned() > most {
        return Ok(false);
    }
    push_extents(bytes, count.cast_unsigned(), by, list)
}

// The first n free extents of a bucket, where each is right.
#[tactic(auto, using(crate::proofs::Lists::held_more, crate::proofs::Lists::plain_more, gd_format::proofs::Firsts::all_below_more, gd_format::proofs::Firsts::all_below_stops))]
fn push_bucket_extents(
    block: &[u8],
    n: u32,
    by: u64,
    list: &mut Vec<Held>,
) -> Result<bool, OutOfMemory>
    requires few { n ≤ 6 }
    requires size { 112 ≤ length block.now }
    requires plain { All IsPlain list.old.items }
    ensures right { IfOk result (λ b. b ≡ all_below n (is_free_right_at block.now)) }
    ensures held { IfOk result (λ b. b ≡ true → list.new.items ≡ list.old.items ++ map (held_by by) (free_at block.now n)) }
    ensures plain { IfOk result (λ _. All IsPlain list.new.items) }
{
    for e in 0..n {
        let Some(held) = right_held(&Native::raw_free(block, e), by) else {
            return Ok(false);
        };
        push_held(list, held)?;
    }
    Ok(true)
}

/// Puts the free extents of a bucket last, held by its address, or answers false where one is not right, or where their
/// number is not one from 0 to 6.
pub fn push_free(block: &[u8], at: u64, list: &mut Vec<Held>) -> Result<bool, OutOfMemory>
    requires size { 112 ≤ length block.now }
    requires plain { All IsPlain list.old.items }
    ensures right { IfOk result (λ b. is_within (counts_at block.now).free 0 6 ≡ true → b ≡ all_below (natural (counts_at block.now).free) (is_free_right_at block.now)) }
    ensures outside { IfOk result (λ b. is_within (counts_at block.now).free 0 6 ≡ false → b ≡ false) }
    ensures held { IfOk result (λ b. b ≡ true → list.new.items ≡ list.old.items ++ map (held_by at) (free_at block.now (natural (counts_at block.now).free))) }
    ensures plain { IfOk result (λ _. All IsPlain list.new.items) }
{
    let count = Native::counts(block).free;
    if count < 0 || count > 6 {
        return Ok(false);
    }
    push_bucket_extents(block, count.cast_unsigned(), at, list)
}

// The number, or 0 below.
fn natural_of(z: i32) -> u32
    ensures value { result ≡ natural z }
    ensures low { result < 2 ^ 31 }
{
    if z < 0 { 0 } else { z.cast_unsigned() }
}

// The address, or 0 below.
fn address_of(z: i64) -> u64
    ensures value { result ≡ natural z }
    ensures low { result < 2 ^ 63 }
{
    if z < 0 { 0 } else { z.cast_unsigned() }
}

// The bytes that the record of a slot takes.
fn record_size(raw: &RawSlot) -> u32
    ensures { result ≡ size_of raw.now }
{
    natural_of(raw.key_size) + natural_of(raw.value_size)
}

// Is a slot with a hash full?
fn is_full(hash: i32) -> bool
    ensures { result ≡ not (is_empty_hash hash) }
{
    hash != -1
}

// The record of a slot, where the slot is full and the record takes a place.
#[tactic(auto, unfolding(gd_format::specs::Sound::takes_place, gd_format::specs::Sound::record_held, gd_format::specs::File::is_full_at))]
fn stored_at(block: &[u8], s: u32) -> Option<Held>
    requires { 112 + 24 * (s + 1) ≤ length block.now }
    ensures none { IfNone result (takes_place block.now s ≡ false) }
    ensures some { IfSome result (λ k. (takes_place block.now s ≡ true) × (k ≡ record_held block.now s) × IsPlain k) }
{
    let raw = Native::raw_slot(block, s);
    if !is_full(raw.hash) {
        return None;
    }
    let size = record_size(&raw);
    if size == 0 {
        return None;
    }
    let at = address_of(raw.at);
    Some(Held {
        extent: Extent { at, size },
        by: at,
    })
}

// Puts the record of a slot last, where it takes a place.
#[tactic(auto, using(crate::proofs::Lists::plain_more))]
fn push_stored(block: &[u8], s: u32, list: &mut Vec<Held>) -> Result<(), OutOfMemory>
    requires size { 112 + 24 * (s + 1) ≤ length block.now }
    requires plain { All IsPlain list.old.items }
    ensures taken { IfOk result (λ _. takes_place block.now s ≡ true → list.new.items ≡ list.old.items ++ record_held block.now s ∷ []) }
    ensures skipped { IfOk result (λ _. takes_place block.now s ≡ false → list.new.items ≡ list.old.items) }
    ensures plain { IfOk result (λ _. All IsPlain list.new.items) }
{
    match stored_at(block, s) {
        Some(held) => push_held(list, held),
        None => Ok(()),
    }
}

/// Puts the records of a bucket that take a place last, by their slots upwards.
pub fn push_records(block: &[u8], elems: u32, list: &mut Vec<Held>) -> Result<(), OutOfMemory>
    requires size { 112 + 24 * elems ≤ length block.now }
    requires plain { All IsPlain list.old.items }
    ensures held { IfOk result (λ _. list.new.items ≡ list.old.items ++ map (record_held block.now) (filter (takes_place block.now) (range_with_len 0 elems))) }
    ensures plain { IfOk result (λ _. All IsPlain list.new.items) }
{
    for s in 0..elems {
        push_stored(block, s, list)?;
    }
    Ok(())
}

// How many bytes the block of the stack has that begins some bytes, where its head and its extents are among them.
#[tactic(auto, unfolding(crate::specs::Fronts::is_stack_front))]
fn stack_size(bytes: &[u8], most: u32) -> Option<u32>
    requires { most ≤ 2 ^ 20 }
    ensures none { IfNone result (is_stack_front bytes.now most ≡ false) }
    ensures some { IfSome result (λ n. (is_stack_front bytes.now most ≡ true) × (n ≡ front_size bytes.now) × (n ≤ length bytes.now) × (16 ≤ n) × (n ≤ 2 ^ 25)) }
{
    if bytes.len() < 16 {
        return None;
    }
    let count = Native::raw_avail(&bytes[..16]).count;
    if count < 0 || count.cast_unsigned() > most {
        return None;
    }
    let size = 16 + 16 * count.cast_unsigned();
    if size as usize > bytes.len() {
        return None;
    }
    Some(size)
}

/// Puts the block of the stack at an address last, and then its extents, `most` of them at most, and answers the address
/// of the next block, or None where the block is not right. The bytes begin with the block.
#[tactic(auto, unfolding(gd_format::specs::Avail::next_at), using(crate::proofs::Lists::front_fits, crate::proofs::Lists::plain_more))]
pub fn push_stack_block(
    bytes: &[u8],
    most: u32,
    at: u64,
    list: &mut Vec<Held>,
) -> Result<Option<u64>, OutOfMemory>
    requires few { most ≤ 2 ^ 20 }
    requires address { at < 2 ^ 63 }
    requires plain { All IsPlain list.old.items }
    ensures none { IfOk result (λ r. IfNone r ((is_stack_front bytes.now most && is_avail (take (front_size bytes.now) bytes.now) most) ≡ false)) }
    ensures some { IfOk result (λ r. IfSome r (λ next. (is_stack_front bytes.now most && is_avail (take (front_size bytes.now) bytes.now) most) ≡ true)) }
    ensures next { IfOk result (λ r. IfSome r (λ next. next ≡ next_at (take 16 bytes.now))) }
    ensures held { IfOk result (λ r. IfSome r (λ _. list.new.items ≡ list.old.items ++ itself at (front_size bytes.now) ∷ map (held_by at) (extents_at (take (front_size bytes.now) bytes.now)))) }
    ensures plain { IfOk result (λ _. All IsPlain list.new.items) }
{
    let Some(size) = stack_size(bytes, most) else {
        return Ok(None);
    };
    let extent = Extent { at, size };
    push_held(list, Held { extent, by: at })?;
    if !push_avail(&bytes[..size as usize], most, at, list)? {
        return Ok(None);
    }
    let head = Native::raw_avail(&bytes[..16]);
    Ok(Some(head.next_block.cast_unsigned()))
}
