//! Finding a slot, and inserting one.

ghost use Rattle.std.specs.Prelude.{◌≡◌, ◌+◌, ◌%◌, ◌<◌, true, length, take, slice_index_or, slice_set, IfNone, IfSome, ◌∷◌};
ghost use Rattle.std.specs.Str.{bytes_eq};
ghost use Rattle.gd_format.specs.Slots.{count, hash_in, is_full, AreReached, SameSlots};
ghost use Rattle.gd_layout.specs.Fits.{FitsFields};
ghost use Rattle.gd_bucket.specs.Probing.{is_candidate, HasNoCandidate, IsFirstEmpty, IsNextCandidate};

use gd_layout::{Bucket, Slot, is_full};

// The place that comes `distance` places after another one, in a round of `n`.
pub(crate) fn place_after(n: usize, place: usize, distance: usize) -> usize
    requires place { place < n }
    requires distance { distance < n }
    ensures { result ≡ (place + distance) % n }
{
    if distance < n - place {
        place + distance
    } else {
        distance - (n - place)
    }
}

fn has_start(key: &[u8], start: &[u8; 4]) -> bool
    ensures { result ≡ bytes_eq (take 4 key.now) (take (length (take 4 key.now)) start.now) }
{
    let n = key.len().min(4);
    key[..n] == start[..n]
}

fn is_candidate(slot: &Slot, hash: u32, key: &[u8]) -> bool
    ensures { result ≡ is_candidate hash key.now slot.now }
{
    match slot {
        Slot::Empty => false,
        Slot::Full {
            hash: own,
            start,
            key_size,
            ..
        } => *own == hash && *key_size as usize == key.len() && has_start(key, start),
    }
}

// The slot that comes `distance` places after another place.
pub(crate) fn slot_past(slots: &[Slot], place: usize, distance: usize) -> &Slot
    requires place { place < length slots.now }
    requires distance { distance < length slots.now }
    ensures { result.now ≡ slice_index_or slots.now ((place + distance) % length slots.now) Slot.Empty }
{
    &slots[place_after(slots.len(), place, distance)]
}

fn next_candidate(slots: &[Slot], hash: u32, key: &[u8], from: usize) -> Option<usize>
    requires { 0 < length slots.now }
    ensures found { IfSome result (IsNextCandidate slots.now hash key.now from) }
    ensures none { IfNone result (HasNoCandidate slots.now hash key.now from) }
{
    let home = hash as usize % slots.len();
    for d in from..slots.len() {
        let slot = slot_past(slots, home, d);
        if !is_full(slot) {
            return None;
        }
        if is_candidate(slot, hash, key) {
            return Some(d);
        }
    }
    None
}

/// How many slots after the home of the hash the next candidate stands, from `from` slots after home on.
///
/// A candidate is a full slot whose hash, key size and first bytes, at most four, are those of the key. The first
/// empty slot, and the end of the round, end the search.
pub fn find(bucket: &Bucket, hash: u32, key: &[u8], from: u32) -> Option<u32>
    requires { 0 < length bucket.now.slots }
    ensures found { IfSome result (IsNextCandidate bucket.now.slots hash key.now from) }
    ensures none { IfNone result (HasNoCandidate bucket.now.slots hash key.now from) }
{
    let d = next_candidate(bucket.slots(), hash, key, from as usize)?;
    Some(d as u32)
}

pub(crate) fn hash_in(slot: &Slot) -> u32
    ensures { result ≡ hash_in slot.now }
{
    match slot {
        Slot::Empty => 0,
        Slot::Full { hash, .. } => *hash,
    }
}

// The first empty place from the home of the hash on.
fn first_empty(slots: &[Slot], hash: u32) -> usize
    requires { count is_full slots.now < length slots.now }
    ensures is { IsFirstEmpty slots.now hash result }
    ensures below { result < length slots.now }
{
    let home = hash as usize % slots.len();
    let mut d = 0;
    while is_full(slot_past(slots, home, d)) {
        d += 1;
    }
    place_after(slots.len(), home, d)
}

/// Puts a full slot at the first empty place from its home on, and answers the place. Takes no memory.
pub fn insert_slot(bucket: &mut Bucket, slot: Slot) -> u32
    requires full { is_full slot ≡ true }
    requires fits { FitsFields slot }
    requires room { count is_full bucket.old.slots < length bucket.old.slots }
    ensures place { IsFirstEmpty bucket.old.slots (hash_in slot) result }
    ensures below { result < length bucket.old.slots }
    ensures slots { bucket.new ≡ record bucket.old { slots = slice_set bucket.old.slots result slot } }
    ensures others { SameSlots bucket.new.slots (slot ∷ bucket.old.slots) }
    ensures reached { AreReached bucket.old.slots (length bucket.old.slots) → AreReached bucket.new.slots (length bucket.new.slots) }
{
    let place = first_empty(bucket.slots(), hash_in(&slot)) as u32;
    bucket.put_slot(place, slot);
    place
}
