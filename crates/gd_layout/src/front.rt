//! Writing a header, a block of free space and an address.

ghost use Rattle.std.specs.Prelude.{◌≡◌, ◌≢◌, ◌+◌, ◌-◌, ◌*◌, ◌^◌, ◌<◌, ◌≤◌, ℕ, pos, true, length, take, drop, replicate, None};
ghost use Rattle.std.specs.Int.{w64, cast_signed};
ghost use Rattle.std.specs.List.{All};
ghost use Rattle.gd_format.specs.Field.{u32_at, i64_at};
ghost use Rattle.gd_format.specs.HeaderFault.{dir_size_of, header_at, header_of, header_fault_of, is_numsync};
ghost use Rattle.gd_format.specs.Avail.{raw_avail_at, avail_size, avail_at, is_avail};
ghost use Rattle.gd_format.specs.File.{front_of};
ghost use Rattle.gd_format.specs.Sound.{place_of, table_of};
ghost use Rattle.gd_layout.specs.Fits.{FitsExtent, FitsHeader, IsHeaderOf};
ghost use Rattle.gd_layout.specs.Writing.{HasWords, raw_avail_from, raw_header_from};

use crate::header::place_of_table;
use crate::writing::{put_extents, put_u32, put_u64};
use crate::{AvailBlock, Layout, Native};
use gd_format::Header;

// The bytes of a directory with so many bits.
fn dir_size(bits: u32) -> u32
    requires { bits < 28 }
    ensures { result ≡ dir_size_of bits }
{
    8 << bits
}

// The fields that both formats have before the table.
fn put_fields(block: &mut [u8], header: &Header)
    requires room { 40 ≤ length block.old }
    requires fits { FitsHeader header.now }
    ensures reads { header_at block.new ≡ raw_header_from header.now }
    ensures back { drop 40 block.new ≡ drop 40 block.old }
{
    put_u32(block, 0, header.magic);
    put_u32(block, 4, header.block);
    put_u64(block, 8, header.dir);
    put_u32(block, 16, dir_size(header.dir_bits));
    put_u32(block, 20, header.dir_bits);
    put_u32(block, 24, header.block);
    put_u32(block, 28, header.elems);
    put_u64(block, 32, header.next_block);
}

// The fields that the numsync format alone has, where the header is of that format.
fn put_words(block: &mut [u8], header: &Header)
    requires { 72 ≤ length block.old }
    ensures reads { is_numsync header.now.magic ≡ true → HasWords block.new header.now }
    ensures front { take 40 block.new ≡ take 40 block.old }
    ensures back { drop (place_of header.now) block.new ≡ drop (place_of header.now) block.old }
{
    if header.magic != 0x1357_9ad1 {
        return;
    }
    put_u32(block, 40, header.version);
    put_u32(block, 44, header.numsync);
    put_u32(block, 48, header.reserved[0]);
    put_u32(block, 52, header.reserved[1]);
    put_u32(block, 56, header.reserved[2]);
    put_u32(block, 60, header.reserved[3]);
    put_u32(block, 64, header.reserved[4]);
    put_u32(block, 68, header.reserved[5]);
}

impl Layout<8, 0> {
    /// Writes a block of free space, with its size field. What lies beyond its extents stays as it is.
    pub fn write_avail(avail: &AvailBlock, size: u32, into: &mut [u8])
        requires room { avail_size (length avail.now.extents) ≤ length into.old }
        requires size { size < 2 ^ 31 }
        requires count { length avail.now.extents < 2 ^ 31 }
        ensures head { raw_avail_at into.new ≡ raw_avail_from avail.now size }
        ensures reads { avail_at into.new avail.now.room ≡ avail.now }
        ensures right { All FitsExtent avail.now.extents → (most : ℕ) → length avail.now.extents ≤ most → is_avail into.new most ≡ true }
        ensures padding { (e : ℕ) → e < length avail.now.extents → u32_at into.new (20 + 16 * e) ≡ 0 }
        ensures beyond { drop (avail_size (length avail.now.extents)) into.new ≡ drop (avail_size (length avail.now.extents)) into.old }
    {
        put_u32(into, 0, size);
        put_u32(into, 4, avail.extents().len() as u32);
        put_u64(into, 8, avail.next_block());
        put_extents(into, 16, avail.extents());
    }

    /// Writes a header and its table of free space into their block, with zeros for all that is no field.
    pub fn write_header(header: &Header, avail: &AvailBlock, into: &mut [u8])
        requires fits { FitsHeader header.now }
        requires room { place_of header.now + avail_size (length avail.now.extents) ≤ header.now.block }
        requires block { length into.old ≡ header.now.block }
        requires least { 80 ≤ header.now.block }
        ensures reads { header_of into.new ≡ header.now }
        ensures front { header_of (front_of into.new) ≡ header.now }
        ensures fault { (len : ℕ) → IsHeaderOf header.now len → header_fault_of (front_of into.new) len ≡ None }
        ensures head { raw_avail_at (table_of into.new header.now) ≡ raw_avail_from avail.now header.now.avail_size }
        ensures table { avail_at (table_of into.new header.now) avail.now.room ≡ avail.now }
        ensures right { All FitsExtent avail.now.extents → (most : ℕ) → length avail.now.extents ≤ most → is_avail (table_of into.new header.now) most ≡ true }
        ensures padding { (e : ℕ) → e < length avail.now.extents → u32_at (table_of into.new header.now) (20 + 16 * e) ≡ 0 }
        ensures beyond { let end = place_of header.now + avail_size (length avail.now.extents) in drop end into.new ≡ replicate (header.now.block - end) 0 }
    {
        into.fill(0);
        put_fields(into, header);
        put_words(into, header);
        let place = place_of_table(header.magic) as usize;
        Native::write_avail(avail, header.avail_size, &mut into[place..]);
    }

    /// Writes an address at an index of a directory, of which `into` has the first entries. All other bytes stay as
    /// they are.
    pub fn write_address(at: u64, index: usize, into: &mut [u8])
        requires entry { 8 * (index + 1) ≤ length into.old }
        requires fits { at < 2 ^ 63 }
        ensures reads { i64_at into.new (8 * index) ≡ pos at }
        ensures front { take (8 * index) into.new ≡ take (8 * index) into.old }
        ensures back { drop (8 * index + 8) into.new ≡ drop (8 * index + 8) into.old }
        ensures others { (j : ℕ) → j ≢ index → i64_at into.new (8 * j) ≡ i64_at into.old (8 * j) }
    {
        put_u64(into, 8 * index, at);
    }
}
