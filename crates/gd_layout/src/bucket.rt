//! A bucket, which takes one block.

ghost use Rattle.std.specs.Prelude.{◌≡◌, ◌+◌, ◌*◌, ◌^◌, ◌<◌, ◌≤◌, length, true, false, [], ◌∷◌, ◌++◌, replicate, slice_index_or, slice_set, vec_capacity, IfNone, IfSome, IfOk, IfErr};
ghost use Rattle.std.specs.List.{All, remove};
ghost use Rattle.gd_format.specs.Field.{bytes_at};
ghost use Rattle.gd_format.specs.Bucket.{counts_at, raw_slot_at, raw_free_at, slot_of, extent_of, is_slot_signed_right, free_at, slots_at, are_slots_right, bucket_at, is_bucket};
ghost use Rattle.gd_layout.specs.declared.bucket.LayoutError.TheVariants.{OutOfMemory};
ghost use Rattle.gd_layout.specs.Answers.{Refuses};
ghost use Rattle.gd_layout.specs.Fits.{FitsFields};

use crate::{Layout, Native};
use gd_base::OutOfMemory;
use gd_format::{Extent, RawExtent, RawSlot, Slot};
use std::alloc::{AllocError, AllocFailed, Global};
use std::marker::Model;
use thiserror::Error;

// The slot, where its fields are those of one.
#[tactic(auto, unfolding(gd_format::specs::Bucket::slot_of, gd_format::specs::Bucket::is_slot_signed_right))]
fn slot_from(raw: &RawSlot) -> Option<Slot>
    ensures none { IfNone result (is_slot_signed_right raw.now ≡ false) }
    ensures some { IfSome result (λ s. (is_slot_signed_right raw.now ≡ true) × (s ≡ slot_of raw.now)) }
    ensures fits { IfSome result FitsFields }
{
    if raw.hash == -1 {
        return Some(Slot::Empty);
    }
    if raw.hash < 0 || raw.at < 0 || raw.key_size < 0 || raw.value_size < 0 {
        return None;
    }
    Some(Slot::Full {
        hash: raw.hash.cast_unsigned(),
        start: raw.start,
        at: raw.at.cast_unsigned(),
        key_size: raw.key_size.cast_unsigned(),
        value_size: raw.value_size.cast_unsigned(),
    })
}

/// Why a part of a file was not read.
#[derive(Clone, Copy, Debug, PartialEq, Eq, Error)]
pub enum LayoutError {
    /// A count or a field is out of its range.
    #[error("a count or a field is out of its range")]
    Bad,
    #[error("out of memory")]
    OutOfMemory,
}

impl From<AllocError> for LayoutError {
    ghost from_gives = { λ _ e. e ≡ OutOfMemory };

    fn from(_e: AllocError) -> LayoutError {
        LayoutError::OutOfMemory
    }
}

impl<T: Drop> From<AllocFailed<T>> for LayoutError {
    ghost from_gives = { λ _ e. e ≡ OutOfMemory };

    fn from(_e: AllocFailed<T>) -> LayoutError {
        LayoutError::OutOfMemory
    }
}

/// A bucket. Contracts see its bits, its free extents and its slots.
///
/// It has room for six free extents.
#[derive(Debug, Drop)]
pub struct Bucket {
    bits: u32,
    free: Vec<Extent>,
    slots: Vec<Slot>,
}

impl Model for Bucket {
    ghost use Rattle.std.specs.Prelude.{vec_capacity};
    ghost use Rattle.gd_format.specs.Bucket as spec;
    ghost use Rattle.gd_layout.specs.Fits.{FitsBucket};

    ghost Value = { spec.Bucket };

    ghost view = { λ b. record { bits = b.bits; free = b.free.items; slots = b.slots.items } };

    ghost invariant = { λ b. FitsBucket b.bits b.free.items b.slots.items (vec_capacity b.free) };
}

impl Bucket {
    /// A bucket of `elems` empty slots, without a free extent.
    pub fn empty(alloc: Global, elems: u32, bits: u32) -> Result<Bucket, OutOfMemory>
        requires { bits ≤ 24 }
        ensures { IfOk result (λ b. b ≡ record { bits = bits; free = []; slots = replicate elems Slot.Empty }) }
    {
        let Ok(free) = Vec::with_capacity(alloc, 6) else {
            return Err(OutOfMemory);
        };
        let Ok(slots) = vec![in alloc; Slot::Empty; elems as usize] else {
            return Err(OutOfMemory);
        };
        Ok(Bucket { bits, free, slots })
    }

    /// An equal bucket, with the room for six free extents.
    pub fn copy(&self) -> Result<Bucket, OutOfMemory>
        ensures { IfOk result (λ b. b ≡ self.now) }
    {
        let alloc = *self.slots.allocator();
        let Ok(mut free) = Vec::with_capacity(alloc, 6) else {
            return Err(OutOfMemory);
        };
        let Ok(()) = free.extend_from_slice(&self.free) else {
            return Err(OutOfMemory);
        };
        let Ok(slots) = self.slots.to_vec(alloc) else {
            return Err(OutOfMemory);
        };
        Ok(Bucket {
            bits: self.bits,
            free,
            slots,
        })
    }

    /// Takes out all slots and free extents, and sets the bits. Takes no memory.
    pub fn clear(&mut self, bits: u32)
        requires { bits ≤ 24 }
        ensures { self.new ≡ record { bits = bits; free = []; slots = replicate (length self.old.slots) Slot.Empty } }
    {
        self.bits = bits;
        self.free.clear();
        self.slots.fill(Slot::Empty);
    }

    /// How many of the top bits of the hash its keys share.
    pub fn bits(&self) -> u32
        ensures is { result ≡ self.now.bits }
        ensures most { result ≤ 24 }
    {
        self.bits
    }

    /// The free extents that the bucket keeps.
    pub fn free(&self) -> &[Extent]
        ensures are { result.now ≡ self.now.free }
        ensures most { length result.now ≤ 6 }
    {
        self.free.as_slice()
    }

    pub fn slots(&self) -> &[Slot]
        ensures are { result.now ≡ self.now.slots }
        ensures most { length result.now < 2 ^ 32 }
        ensures fit { All FitsFields result.now }
    {
        self.slots.as_slice()
    }

    /// Puts a slot at a place.
    pub fn put_slot(&mut self, place: u32, slot: Slot)
        requires place { place < length self.old.slots }
        requires fits { FitsFields slot }
        ensures { self.new ≡ record self.old { slots = slice_set self.old.slots place slot } }
    {
        self.slots[place as usize] = slot;
    }

    /// Puts a free extent last. Takes no memory.
    pub fn push_free(&mut self, extent: Extent)
        requires { length self.old.free < 6 }
        ensures { self.new ≡ record self.old { free = self.old.free ++ extent ∷ [] } }
    {
        let _ = self.free.push(extent);
    }

    /// Takes out the free extent at a place. Those after it move down by one place.
    pub fn remove_free(&mut self, place: u32) -> Extent
        requires { place < length self.old.free }
        ensures rest { self.new ≡ record self.old { free = remove self.old.free place } }
        ensures extent { result ≡ slice_index_or self.old.free place result }
    {
        self.free.remove(place as usize)
    }
}

#[tactic(auto, unfolding(gd_format::specs::Bucket::extent_of))]
pub fn extent_from(raw: &RawExtent) -> Extent
    ensures { result ≡ extent_of raw.now }
{
    Extent {
        at: raw.at.cast_unsigned(),
        size: raw.size.cast_unsigned(),
    }
}

// The first `n` free extents of a bucket.
#[tactic(auto, using(gd_format::proofs::Firsts::list_below_more))]
fn free_from(alloc: Global, bytes: &[u8], n: u32) -> Result<Vec<Extent>, AllocError>
    requires few { n ≤ 6 }
    requires size { 112 ≤ length bytes.now }
    ensures items { IfOk result (λ v. v.items ≡ free_at bytes.now n) }
    ensures most { IfOk result (λ v. length v.items ≤ 6) }
    ensures room { IfOk result (λ v. 6 ≤ vec_capacity v) }
{
    let mut free = Vec::with_capacity(alloc, 6)?;
    for e in 0..n {
        free.push(extent_from(&Native::raw_free(bytes, e)))?;
    }
    Ok(free)
}

// The slots of a bucket, where each is one.
#[tactic(auto, using(gd_format::proofs::Firsts::list_below_more, gd_format::proofs::Firsts::all_below_more, gd_format::proofs::Firsts::all_below_stops))]
fn slots_from(alloc: Global, bytes: &[u8], elems: u32) -> Result<Vec<Slot>, LayoutError>
    requires { 112 + 24 * elems ≤ length bytes.now }
    ensures ok { IfOk result (λ v. (v.items ≡ slots_at bytes.now elems) × (are_slots_right bytes.now elems ≡ true)) }
    ensures fit { IfOk result (λ v. All FitsFields v.items) }
    ensures most { IfOk result (λ v. length v.items < 2 ^ 32) }
    ensures bad { IfErr result (Refuses (are_slots_right bytes.now elems ≡ false)) }
{
    let mut slots = Vec::with_capacity(alloc, elems as usize)?;
    for s in 0..elems {
        let Some(slot) = slot_from(&Native::raw_slot(bytes, s)) else {
            return Err(LayoutError::Bad);
        };
        slots.push(slot)?;
    }
    Ok(slots)
}

impl Layout<8, 0> {
    /// Reads a bucket of `elems` slots, with the room for six free extents.
    ///
    /// A free extent is not judged: a size or an address below 0 stands as the same bits read without a sign.
    #[tactic(auto, unfolding(gd_format::specs::Bucket::is_bucket, gd_format::specs::Bucket::bucket_at))]
    pub fn read_bucket(alloc: Global, bytes: &[u8], elems: u32) -> Result<Bucket, LayoutError>
        requires { 112 + 24 * elems ≤ length bytes.now }
        ensures ok { IfOk result (λ b. (b ≡ bucket_at bytes.now elems) × (is_bucket bytes.now elems ≡ true)) }
        ensures bad { IfErr result (Refuses (is_bucket bytes.now elems ≡ false)) }
    {
        let c = Native::counts(bytes);
        if c.free < 0 || c.free > 6 || c.bits < 0 || c.bits > 24 {
            return Err(LayoutError::Bad);
        }
        let slots = slots_from(alloc, bytes, elems)?;
        let free = free_from(alloc, bytes, c.free.cast_unsigned())?;
        Ok(Bucket {
            bits: c.bits.cast_unsigned(),
            free,
            slots,
        })
    }
}
