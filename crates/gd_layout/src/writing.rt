//! Writing a bucket into its block.

ghost use Rattle.std.specs.Prelude.{◌≡◌, ◌+◌, ◌*◌, ◌^◌, ◌<◌, ◌≤◌, ℕ, true, length, take, drop, slice_index, slice_index_or};
ghost use Rattle.std.specs.Int.{w32, w64, cast_signed};
ghost use Rattle.std.specs.List.{All};
ghost use Rattle.gd_format.specs.Field.{bytes_at, u32_at, u64_at};
ghost use Rattle.gd_format.specs.Bucket.{slot_of, is_slot_signed_right, slots_at, are_slots_right, bucket_at, is_bucket};
ghost use Rattle.gd_format.specs.File.{is_count_right};
ghost use Rattle.gd_format.specs.Slots.{count, is_full};
ghost use Rattle.gd_layout.specs.Fits.{FitsFields};
ghost use Rattle.gd_layout.specs.Writing.{ArePut, HasZeros, IsPut, raw_slot_from};

use crate::{Bucket, Layout};
use byteorder::{ByteOrder, LittleEndian};
use gd_format::{Extent, Slot};

pub fn put_u32(block: &mut [u8], at: usize, n: u32)
    requires { at + 4 ≤ length block.old }
    ensures reads { u32_at block.new at ≡ n }
    ensures front { take at block.new ≡ take at block.old }
    ensures back { drop (at + 4) block.new ≡ drop (at + 4) block.old }
{
    LittleEndian::write_u32(&mut block[at..], n);
}

pub fn put_u64(block: &mut [u8], at: usize, n: u64)
    requires { at + 8 ≤ length block.old }
    ensures reads { u64_at block.new at ≡ n }
    ensures front { take at block.new ≡ take at block.old }
    ensures back { drop (at + 8) block.new ≡ drop (at + 8) block.old }
{
    LittleEndian::write_u64(&mut block[at..], n);
}

fn put_four(block: &mut [u8], at: usize, bytes: [u8; 4])
    requires { at + 4 ≤ length block.old }
    ensures reads { bytes_at block.new at 4 ≡ bytes }
    ensures front { take at block.new ≡ take at block.old }
    ensures back { drop (at + 4) block.new ≡ drop (at + 4) block.old }
{
    block[at..at + 4].copy_from_slice(&bytes);
}

// Writes a slot. The other fields of an empty one stay as they are.
fn put_slot(block: &mut [u8], at: usize, slot: &Slot)
    requires room { at + 24 ≤ length block.old }
    requires fits { FitsFields slot.now }
    ensures reads { slot_of (raw_slot_from block.new at) ≡ slot.now }
    ensures right { is_slot_signed_right (raw_slot_from block.new at) ≡ true }
    ensures front { take at block.new ≡ take at block.old }
    ensures back { drop (at + 24) block.new ≡ drop (at + 24) block.old }
    ensures empty { slot.now ≡ Slot.Empty → drop (at + 4) block.new ≡ drop (at + 4) block.old }
{
    match *slot {
        Slot::Empty => put_u32(block, at, u32::MAX),
        Slot::Full {
            hash,
            start,
            at: place,
            key_size,
            value_size,
        } => {
            put_u32(block, at, hash);
            put_four(block, at + 4, start);
            put_u64(block, at + 8, place);
            put_u32(block, at + 16, key_size);
            put_u32(block, at + 20, value_size);
        }
    }
}

// Writes an extent, with zeros between its fields.
fn put_extent(block: &mut [u8], at: usize, extent: &Extent)
    requires { at + 16 ≤ length block.old }
    ensures put { IsPut block.new at extent.now }
    ensures front { take at block.new ≡ take at block.old }
    ensures back { drop (at + 16) block.new ≡ drop (at + 16) block.old }
{
    put_u32(block, at, extent.size);
    put_u32(block, at + 4, 0);
    put_u64(block, at + 8, extent.at);
}

// Writes extents, one after another, from a place on.
pub fn put_extents(block: &mut [u8], at: usize, extents: &[Extent])
    requires { at + 16 * length extents.now ≤ length block.old }
    ensures put { ArePut block.new at extents.now }
    ensures front { take at block.new ≡ take at block.old }
    ensures back { drop (at + 16 * length extents.now) block.new ≡ drop (at + 16 * length extents.now) block.old }
{
    for (e, extent) in extents.iter().enumerate() {
        put_extent(block, at + 16 * e, extent);
    }
}

fn put_slots(block: &mut [u8], slots: &[Slot])
    requires room { 112 + 24 * length slots.now ≤ length block.old }
    requires fit { All FitsFields slots.now }
    ensures reads { slots_at block.new (length slots.now) ≡ slots.now }
    ensures right { are_slots_right block.new (length slots.now) ≡ true }
    ensures front { take 112 block.new ≡ take 112 block.old }
    ensures back { drop (112 + 24 * length slots.now) block.new ≡ drop (112 + 24 * length slots.now) block.old }
    ensures empty { (s i : ℕ) → s < length slots.now → slice_index_or slots.now s Slot.Empty ≡ Slot.Empty → 4 ≤ i → i < 24 → slice_index block.new (112 + 24 * s + i) ≡ slice_index block.old (112 + 24 * s + i) }
{
    for (s, slot) in slots.iter().enumerate() {
        put_slot(block, 112 + 24 * s, slot);
    }
}

/// Is the slot full?
pub fn is_full(slot: &Slot) -> bool
    ensures { result ≡ is_full slot.now }
{
    matches!(slot, Slot::Full { .. })
}

/// How many slots are full.
pub fn full_count(slots: &[Slot]) -> usize
    ensures is { result ≡ count is_full slots.now }
    ensures most { result ≤ length slots.now }
{
    let mut full = 0;
    for slot in slots {
        if is_full(slot) {
            full += 1;
        }
    }
    full
}

impl Layout<8, 0> {
    /// Writes a bucket into its block, with zeros for all that is no field.
    pub fn write_bucket(bucket: &Bucket, into: &mut [u8])
        requires room { 112 + 24 * length bucket.now.slots ≤ length into.old }
        requires count { length bucket.now.slots < 2 ^ 31 }
        ensures reads { bucket_at into.new (length bucket.now.slots) ≡ bucket.now }
        ensures right { is_bucket into.new (length bucket.now.slots) ≡ true }
        ensures count { is_count_right into.new (length bucket.now.slots) ≡ true }
        ensures zeros { HasZeros into.new bucket.now }
    {
        into.fill(0);
        put_u32(into, 0, bucket.free().len() as u32);
        put_extents(into, 8, bucket.free());
        put_u32(into, 104, bucket.bits());
        put_u32(into, 108, full_count(bucket.slots()) as u32);
        put_slots(into, bucket.slots());
    }
}
