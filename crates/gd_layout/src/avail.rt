//! A block of free space: the table of a header, or a block of the stack.

ghost use Rattle.std.specs.Prelude.{◌≡◌, ◌+◌, ◌*◌, ◌^◌, ◌<◌, ◌≤◌, length, take, true, false, [], ◌∷◌, ◌++◌, slice_index_or, vec_capacity, IfOk, IfErr, IfNone, IfSome};
ghost use Rattle.std.specs.List.{All, remove};
ghost use Rattle.gd_format.specs.First.{all_below, list_below};
ghost use Rattle.gd_format.specs.HeaderFault.{is_within, natural};
ghost use Rattle.gd_format.specs.Avail.{Avail, raw_avail_at, raw_extent_at, count_at, next_at, avail_size, is_extent_right, is_extent_right_at, is_avail, extent_at, avail_at};
ghost use Rattle.gd_layout.specs.Answers.{Refuses};
ghost use Rattle.gd_layout.specs.Fits.{FitsExtent};

use crate::bucket::{LayoutError, extent_from};
use crate::fields::{i32_from, i64_from};
use crate::{Layout, Native};
use gd_base::OutOfMemory;
use gd_format::{Extent, RawAvail, RawExtent};
use std::alloc::Global;
use std::marker::Model;

/// A block of free space. Contracts see its extents, the address of the next block, and its room.
///
/// It has the room for so many extents from the start.
#[derive(Debug, Drop)]
pub struct AvailBlock {
    next_block: u64,
    extents: Vec<Extent>,
    room: u32,
}

impl Model for AvailBlock {
    ghost use Rattle.std.specs.Prelude.{vec_capacity};
    ghost use Rattle.gd_format.specs.Avail as spec;
    ghost use Rattle.gd_layout.specs.Fits.{FitsAvail};

    ghost Value = { spec.Avail };

    ghost view = { λ a. record { extents = a.extents.items; next_block = a.next_block; room = a.room } };

    ghost invariant = { λ a. FitsAvail a.extents.items a.room (vec_capacity a.extents) };
}

impl AvailBlock {
    /// A block without an extent, below which there is none.
    pub fn new(alloc: Global, room: u32) -> Result<AvailBlock, OutOfMemory>
        ensures { IfOk result (λ a. a ≡ record { extents = []; next_block = 0; room = room }) }
    {
        let Ok(extents) = Vec::with_capacity(alloc, room as usize) else {
            return Err(OutOfMemory);
        };
        Ok(AvailBlock {
            next_block: 0,
            extents,
            room,
        })
    }

    /// The address of the next block of the stack, or 0.
    pub fn next_block(&self) -> u64
        ensures { result ≡ self.now.next_block }
    {
        self.next_block
    }

    pub fn set_next_block(&mut self, at: u64)
        ensures { self.new ≡ record self.old { next_block = at } }
    {
        self.next_block = at;
    }

    pub fn extents(&self) -> &[Extent]
        ensures are { result.now ≡ self.now.extents }
        ensures most { length result.now ≤ self.now.room }
    {
        self.extents.as_slice()
    }

    /// Puts an extent last. Takes no memory.
    pub fn push(&mut self, extent: Extent)
        requires { length self.old.extents < self.old.room }
        ensures { self.new ≡ record self.old { extents = self.old.extents ++ extent ∷ [] } }
    {
        let _ = self.extents.push(extent);
    }

    /// How many extents it has room for.
    pub fn room(&self) -> u32
        ensures is { result ≡ self.now.room }
        ensures most { length self.now.extents ≤ result }
    {
        self.room
    }

    /// Keeps the first n extents.
    pub fn truncate(&mut self, n: usize)
        ensures { self.new ≡ record self.old { extents = take n self.old.extents } }
    {
        self.extents.truncate(n);
    }

    /// Takes out all extents.
    pub fn clear(&mut self)
        ensures { self.new ≡ record self.old { extents = [] } }
    {
        self.extents.clear();
    }

    /// Takes out the extent at a place. Those after it move down by one place.
    pub fn remove(&mut self, place: u32) -> Extent
        requires { place < length self.old.extents }
        ensures rest { self.new ≡ record self.old { extents = remove self.old.extents place } }
        ensures extent { result ≡ slice_index_or self.old.extents place result }
    {
        self.extents.remove(place as usize)
    }
}

/// Has the extent a size of at least 1 and an address of at least 0?
#[tactic(auto, unfolding(gd_format::specs::Avail::is_extent_right))]
pub fn has_right_extent(raw: &RawExtent) -> bool
    ensures { result ≡ is_extent_right raw.now }
{
    raw.size > 0 && raw.at >= 0
}

// How many extents a block of free space has, where they are from 0 to `most`.
fn count_from(bytes: &[u8], most: u32) -> Option<u32>
    requires { 16 ≤ length bytes.now }
    ensures none { IfNone result (is_within (count_at bytes.now) 0 most ≡ false) }
    ensures some { IfSome result (λ n. (is_within (count_at bytes.now) 0 most ≡ true) × (n ≡ natural (count_at bytes.now)) × (n ≤ most)) }
{
    let count = Native::raw_avail(bytes).count;
    if count < 0 || count.cast_unsigned() > most {
        return None;
    }
    Some(count.cast_unsigned())
}

// Is each of the first n extents of a block of free space right?
#[tactic(auto, using(gd_format::proofs::Firsts::all_below_more, gd_format::proofs::Firsts::all_below_stops), unfolding(gd_format::specs::Avail::is_extent_right_at))]
fn are_extents_right(bytes: &[u8], n: u32) -> bool
    requires { avail_size n ≤ length bytes.now }
    ensures { result ≡ all_below n (is_extent_right_at bytes.now) }
{
    for e in 0..n {
        if !has_right_extent(&Native::raw_extent(bytes, e)) {
            return false;
        }
    }
    true
}

// Puts the first n extents of a block of free space into one that has none.
#[tactic(auto, using(gd_format::proofs::Firsts::list_below_more), unfolding(gd_format::specs::Avail::extent_at))]
fn put_first(bytes: &[u8], n: u32, into: &mut AvailBlock)
    requires empty { into.old.extents ≡ [] }
    requires room { n ≤ into.old.room }
    requires size { avail_size n ≤ length bytes.now }
    ensures { into.new ≡ record into.old { extents = list_below n (extent_at bytes.now) } }
{
    for e in 0..n {
        into.push(extent_from(&Native::raw_extent(bytes, e)));
    }
}

impl Layout<8, 0> {
    /// The head of a block of free space.
    #[tactic(auto, unfolding(gd_format::specs::Avail::raw_avail_at))]
    pub fn raw_avail(bytes: &[u8]) -> RawAvail
        requires { 16 ≤ length bytes.now }
        ensures { result ≡ raw_avail_at bytes.now }
    {
        RawAvail {
            size: i32_from(bytes, 0),
            count: i32_from(bytes, 4),
            next_block: i64_from(bytes, 8),
        }
    }

    /// The extent at a place of a block of free space.
    #[tactic(auto, unfolding(gd_format::specs::Avail::raw_extent_at))]
    pub fn raw_extent(bytes: &[u8], place: u32) -> RawExtent
        requires { avail_size (place + 1) ≤ length bytes.now }
        ensures { result ≡ raw_extent_at bytes.now place }
    {
        let at = 16 + 16 * place as usize;
        RawExtent {
            size: i32_from(bytes, at),
            at: i64_from(bytes, at + 8),
        }
    }

    /// Reads a block of free space of `most` extents at most, with the room for so many.
    ///
    /// The address of the next block is not judged: one below 0 stands as the same bits read without a sign.
    pub fn read_avail(alloc: Global, bytes: &[u8], most: u32) -> Result<AvailBlock, LayoutError>
        requires head { 16 ≤ length bytes.now }
        requires extents { is_within (count_at bytes.now) 0 most ≡ true → avail_size (natural (count_at bytes.now)) ≤ length bytes.now }
        ensures ok { IfOk result (λ a. (a ≡ avail_at bytes.now most) × (is_avail bytes.now most ≡ true)) }
        ensures fit { IfOk result (λ a. All FitsExtent a.extents) }
        ensures bad { IfErr result (Refuses (is_avail bytes.now most ≡ false)) }
    {
        let Ok(mut avail) = AvailBlock::new(alloc, most) else {
            return Err(LayoutError::OutOfMemory);
        };
        if !Native::read_avail_into(bytes, &mut avail) {
            return Err(LayoutError::Bad);
        }
        Ok(avail)
    }

    /// Reads a block of free space into one that has the room for it, and takes no memory.
    ///
    /// Where it has more extents than the room, or one that is not right, the answer is false, and nothing changes.
    #[tactic(auto, unfolding(gd_format::specs::Avail::is_avail, gd_format::specs::Avail::avail_at, gd_format::specs::Avail::next_at))]
    pub fn read_avail_into(bytes: &[u8], into: &mut AvailBlock) -> bool
        requires head { 16 ≤ length bytes.now }
        requires extents { is_within (count_at bytes.now) 0 into.old.room ≡ true → avail_size (natural (count_at bytes.now)) ≤ length bytes.now }
        ensures is { result ≡ is_avail bytes.now into.old.room }
        ensures read { result ≡ true → into.new ≡ avail_at bytes.now into.old.room }
        ensures fit { result ≡ true → All FitsExtent into.new.extents }
        ensures kept { result ≡ false → into.new ≡ into.old }
        ensures room { into.new.room ≡ into.old.room }
    {
        let Some(n) = count_from(bytes, into.room()) else {
            return false;
        };
        if !are_extents_right(bytes, n) {
            return false;
        }
        into.clear();
        put_first(bytes, n, into);
        into.set_next_block(Native::raw_avail(bytes).next_block.cast_unsigned());
        true
    }
}
