//! Removing a slot.

ghost use Rattle.std.specs.Prelude.{◌≡◌, ◌<◌, true, length, ◌∷◌, slice_index_or, IfNone, IfSome};
ghost use Rattle.gd_format.specs.declared.Slot.TheVariants.{Empty};
ghost use Rattle.gd_format.specs.Slots.{is_full, AreReached, SameSlots};
ghost use Rattle.gd_bucket.specs.Removing.{from_home, MayMove, NoneMoves, moved};

use crate::probing::{hash_in, place_after, slot_past};
use gd_layout::{Bucket, Slot, is_full};

// How many places the slot at a place stands after its home.
#[tactic(auto, unfolding(crate::specs::Removing::distance, crate::specs::Removing::from_home))]
fn from_home(slots: &[Slot], place: usize) -> usize
    requires { place < length slots.now }
    ensures { result ≡ from_home slots.now place }
{
    let n = slots.len();
    let home = hash_in(&slots[place]) as usize % n;
    if place < home {
        place + n - home
    } else {
        place - home
    }
}

// The next slot after an empty place that may move there.
fn next_to_move(slots: &[Slot], hole: usize) -> Option<usize>
    requires { hole < length slots.now }
    ensures some { IfSome result (MayMove slots.now hole) }
    ensures none { IfNone result (NoneMoves slots.now hole) }
{
    for t in 1..slots.len() {
        if !is_full(slot_past(slots, hole, t)) {
            return None;
        }
        let place = place_after(slots.len(), hole, t);
        if from_home(slots, place) >= t {
            return Some(place);
        }
    }
    None
}

// Moves a slot to an empty place.
fn move_slot(bucket: &mut Bucket, hole: usize, place: usize)
    requires hole { hole < length bucket.old.slots }
    requires place { place < length bucket.old.slots }
    ensures { bucket.new ≡ record bucket.old { slots = moved bucket.old.slots hole place } }
{
    let slot = bucket.slots()[place];
    bucket.put_slot(hole as u32, slot);
    bucket.put_slot(place as u32, Slot::Empty);
}

/// Removes the full slot at a place. Slots behind it move back where else they would not be reached. Takes no memory.
pub fn remove_slot(bucket: &mut Bucket, place: u32)
    requires { is_full (slice_index_or bucket.old.slots place Empty) ≡ true }
    ensures others { SameSlots bucket.old.slots (slice_index_or bucket.old.slots place Empty ∷ bucket.new.slots) }
    ensures reached { AreReached bucket.old.slots (length bucket.old.slots) → AreReached bucket.new.slots (length bucket.new.slots) }
    ensures elems { length bucket.new.slots ≡ length bucket.old.slots }
    ensures rest { bucket.new ≡ record bucket.old { slots = bucket.new.slots } }
{
    bucket.put_slot(place, Slot::Empty);
    let mut hole = place as usize;
    while let Some(next) = next_to_move(bucket.slots(), hole) {
        move_slot(bucket, hole, next);
        hole = next;
    }
}
