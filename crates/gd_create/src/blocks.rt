//! The three blocks of a new file.

ghost use Rattle.std.specs.Prelude.{◌≡◌, ℕ, List, [], ◌+◌, ◌*◌, ◌≤◌, ◌++◌, ◌^◌, ◌<◌, length};
ghost use Rattle.byteorder.specs.Endian.{little_bytes};
ghost use Rattle.gd_create.specs.Begun.{Begun};
ghost use Rattle.gd_format.specs.HeaderFault.{dir_size_of, table_place};
ghost use Rattle.gd_create.specs.NewFile.{IsNewHeader, bucket_bytes, dir_bytes, header_bytes, magic_of, repeated, slot_bytes};

use crate::puts::{put_u32, put_u64};
use gd_format::{Format, Header};

// The place of the table, whose capacity follows the fields.
fn place_of_table(format: Format) -> usize
    ensures { result ≡ table_place (magic_of format) }
{
    match format {
        Format::Standard => 40,
        Format::Numsync => 72,
    }
}

// The bytes of a directory with so many bits.
fn dir_size(bits: u32) -> u32
    requires { bits < 28 }
    ensures { result ≡ dir_size_of bits }
{
    8 << bits
}

// How many entries a directory of so many bits has.
fn entries_of(bits: u32) -> usize
    requires { bits < 28 }
    ensures { result ≡ 2 ^ bits }
{
    1 << bits
}

// The fields of a header, and the capacity of its table.
#[tactic(auto, using(crate::proofs::Powers::bounds))]
pub fn put_header(header: &Header, block: &mut [u8])
    requires new { IsNewHeader header.now }
    requires length { length block.old ≡ header.now.block }
    ensures { block.new ≡ header_bytes header.now.format header.now.block header.now.dir_bits }
{
    block.fill(0);
    put_u32(block, 0, header.magic);
    put_u32(block, 4, header.block);
    put_u64(block, 8, header.dir);
    put_u32(block, 16, dir_size(header.dir_bits));
    put_u32(block, 20, header.dir_bits);
    put_u32(block, 24, header.block);
    put_u32(block, 28, header.elems);
    put_u64(block, 32, header.next_block);
    put_u32(block, place_of_table(header.format), header.avail_size);
}

// All entries of the directory have the one bucket.
#[tactic(auto, using(crate::proofs::Powers::bounds))]
pub fn put_directory(header: &Header, block: &mut [u8])
    requires new { IsNewHeader header.now }
    requires length { length block.old ≡ header.now.block }
    ensures { block.new ≡ dir_bytes header.now.block header.now.dir_bits }
{
    block.fill(0);
    for i in 0..entries_of(header.dir_bits) {
        put_u64(block, 8 * i, 2 * u64::from(header.block));
    }
}

// Empty slots.
fn put_slots(block: &mut [u8], elems: u32)
    requires { 112 + 24 * elems ≤ length block.old }
    ensures { (front : List ℕ) → Begun front 112 block.old → Begun (front ++ repeated elems slot_bytes) (112 + 24 * elems) block.new }
{
    for s in 0..elems {
        put_u32(block, 112 + 24 * s as usize, u32::MAX);
    }
}

// A bucket of no bits and no record, which has the fourth block as its free extent.
#[tactic(auto, using(crate::proofs::Powers::bounds))]
pub fn put_bucket(header: &Header, block: &mut [u8])
    requires new { IsNewHeader header.now }
    requires length { length block.old ≡ header.now.block }
    ensures { block.new ≡ bucket_bytes header.now.block }
{
    block.fill(0);
    put_u32(block, 0, 1);
    put_u32(block, 8, header.block);
    put_u64(block, 16, 3 * u64::from(header.block));
    put_u32(block, 104, 0);
    put_u32(block, 108, 0);
    put_slots(block, header.elems);
}
