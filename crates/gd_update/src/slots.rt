//! The slot of a record, and the change of a bucket's slots.

ghost use Rattle.std.specs.Prelude.{◌≡◌, ◌+◌, ◌-◌, ◌*◌, ◌<◌, ◌≤◌, ◌^◌, true, length, take, replicate, slice_index_or, IfNone, IfSome, [], ◌∷◌, ◌++◌};
ghost use Rattle.gd_format.specs.Hash.{hash_of};
ghost use Rattle.gd_format.specs.Slots.{count, hash_in, is_full, AreReached, SameSlots};
ghost use Rattle.gd_format.specs.Sound.{extent};
ghost use Rattle.gd_layout.specs.Fits.{FitsFields};
ghost use Rattle.gd_map_laws.specs.Change.{slot_made};
ghost use Rattle.gd_update.specs.Open.{slot_size, slot_extents};
ghost use Rattle.gd_update.specs.Writes.{SlotsMade};
ghost use Rattle.gd_update.specs.Starts.{start_of};

use gd_bucket::insert_slot;
use gd_format::{Extent, Slot};
use gd_layout::Bucket;

// The first four bytes of a key, with zeros where it has fewer.
fn start_of(key: &[u8]) -> [u8; 4]
    ensures { result ≡ start_of key.now }
{
    let mut start = [0u8; 4];
    let n = key.len().min(4);
    start[..n].copy_from_slice(&key[..n]);
    start
}

// The slot of a record that stands at a place.
pub fn slot_for(hash: u32, key: &[u8], value_size: u32, at: u64) -> Slot
    requires hash { hash ≡ hash_of key.now }
    requires key { length key.now < 2 ^ 31 }
    requires value { value_size < 2 ^ 31 }
    requires at { at < 2 ^ 63 }
    ensures is { result ≡ Slot.Full (hash_of key.now) (start_of key.now) at (length key.now) value_size }
    ensures fits { FitsFields result }
    ensures full { is_full result ≡ true }
{
    Slot::Full {
        hash,
        start: start_of(key),
        at,
        key_size: key.len() as u32,
        value_size,
    }
}

// Puts a slot in the place of another one, or at the first empty place from its home on. Answers the slot that goes.
pub fn put_slot(bucket: &mut Bucket, place: Option<u32>, slot: Slot) -> Slot
    requires full { is_full slot ≡ true }
    requires fits { FitsFields slot }
    requires some { IfSome place (λ p. is_full (slice_index_or bucket.old.slots p Slot.Empty) ≡ true) }
    requires none { IfNone place (count is_full bucket.old.slots < length bucket.old.slots) }
    ensures gone { IfSome place (λ p. result ≡ slice_index_or bucket.old.slots p Slot.Empty) }
    ensures nothing { IfNone place (result ≡ Slot.Empty) }
    ensures made { SlotsMade bucket.old.slots bucket.new.slots result slot }
    ensures reached { (is_full result ≡ true → hash_in slot ≡ hash_in result) → AreReached bucket.old.slots (length bucket.old.slots) → AreReached bucket.new.slots (length bucket.new.slots) }
    ensures elems { length bucket.new.slots ≡ length bucket.old.slots }
    ensures rest { bucket.new ≡ record bucket.old { slots = bucket.new.slots } }
    ensures fields { FitsFields result }
{
    let Some(place) = place else {
        insert_slot(bucket, slot);
        return Slot::Empty;
    };
    let gone = bucket.slots()[place as usize];
    bucket.put_slot(place, slot);
    gone
}

// The bytes of a slot's record, where it has any, and no more than an extent may have.
pub fn record_in(slot: &Slot) -> Option<Extent>
    requires { FitsFields slot.now }
    ensures some { IfSome result (λ e. (slot_extents slot.now ≡ e ∷ []) × (slot_size slot.now ≡ e.size) × (0 < e.size) × (e.size < 2 ^ 31) × (e.at < 2 ^ 63)) }
    ensures none { IfNone result (0 < slot_size slot.now → 2 ^ 31 ≤ slot_size slot.now) }
{
    let Slot::Full {
        at,
        key_size,
        value_size,
        ..
    } = *slot
    else {
        return None;
    };
    let size = key_size + value_size;
    if size == 0 || size > i32::MAX as u32 {
        return None;
    }
    Some(Extent { at, size })
}
