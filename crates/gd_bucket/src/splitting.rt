//! Dividing a bucket in two.

ghost use Rattle.std.specs.Prelude.{◌≡◌, ◌+◌, ◌/◌, ◌%◌, ◌^◌, ◌-◌, ◌<◌, ◌≤◌, true, IfOk, length, []};
ghost use Rattle.gd_format.specs.Slots.{is_astray, is_full};
ghost use Rattle.gd_bucket.specs.Splitting.{AreHalves, IsEmptyHalf, IsSplit};

use crate::probing::{hash_in, insert_slot};
use gd_base::OutOfMemory;
use gd_layout::{Bucket, Slot, is_full};
use std::alloc::Global;

// Is the next bit of the hash, after the first ones, a one?
fn is_high(bits: u32, slot: &Slot) -> bool
    requires { bits < 24 }
    ensures low { result ≡ is_astray bits 0 slot.now }
{
    hash_in(slot) >> (30 - bits) & 1 == 1
}

// Puts the free extents of a bucket into another one without any.
fn move_free(bucket: &Bucket, first: &mut Bucket)
    requires none { first.old.free ≡ [] }
    ensures { first.new ≡ record first.old { free = bucket.now.free } }
{
    let free = bucket.free();
    for extent in free {
        first.push_free(*extent);
    }
}

/// Divides the slots of a bucket among two without a full slot, by the next bit of their hashes. The first gets the free
/// extents. Takes no memory.
pub fn divide(bucket: &Bucket, first: &mut Bucket, second: &mut Bucket)
    requires bits { bucket.now.bits < 24 }
    requires none { first.old.free ≡ [] }
    requires first { IsEmptyHalf bucket.now first.old }
    requires second { IsEmptyHalf bucket.now second.old }
    ensures halves { AreHalves bucket.now first.new second.new }
    ensures first_free { first.new.free ≡ bucket.now.free }
    ensures second_free { second.new.free ≡ second.old.free }
{
    move_free(bucket, first);
    let bits = bucket.bits();
    let slots = bucket.slots();
    for slot in slots {
        if is_full(slot) {
            if is_high(bits, slot) {
                insert_slot(second, *slot);
            } else {
                insert_slot(first, *slot);
            }
        }
    }
}

/// The two buckets that a bucket is divided in by the next bit of the hash, each with one bit more. The free extents go to
/// the first.
pub fn split(alloc: Global, bucket: &Bucket) -> Result<(Bucket, Bucket), OutOfMemory>
    requires { bucket.now.bits < 24 }
    ensures { IfOk result (λ p. IsSplit bucket.now p.0 p.1) }
{
    let bits = bucket.bits() + 1;
    let elems = bucket.slots().len() as u32;
    let mut first = Bucket::empty(alloc, elems, bits)?;
    let mut second = Bucket::empty(alloc, elems, bits)?;
    divide(bucket, &mut first, &mut second);
    Ok((first, second))
}
