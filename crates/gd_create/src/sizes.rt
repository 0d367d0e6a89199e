//! The sizes of a new file, and its header.

ghost use Rattle.std.specs.Prelude.{◌≡◌, ℕ, ◌≤◌, ◌<◌, ◌^◌};
ghost use Rattle.std.specs.Int.{IsPowerOfTwo};
ghost use Rattle.gd_format.specs.HeaderFault.{table_room};
ghost use Rattle.gd_create.specs.NewFile.{IsNewBlock, IsNewHeader, magic_of};

use gd_format::{Format, Header};

/// The block size of a new file for which a size is asked: 4,096 where that is below 512, else the least power of two
/// that is not smaller.
pub fn block_for(asked: u32) -> u32
    requires { asked ≤ 1048576 }
    ensures small { asked < 512 → result ≡ 4096 }
    ensures enough { asked ≤ result }
    ensures least { 512 ≤ asked → (k : ℕ) → asked ≤ 2 ^ k → result ≤ 2 ^ k }
    ensures power { IsPowerOfTwo result }
    ensures from { 512 ≤ result }
    ensures to { result ≤ 1048576 }
{
    if asked < 512 {
        return 4096;
    }
    asked.next_power_of_two()
}

/// The bits of a directory that takes one block.
pub fn bits_for(block: u32) -> u32
    requires power { IsPowerOfTwo block }
    requires from { 512 ≤ block }
    requires to { block ≤ 1048576 }
    ensures { IsNewBlock block result }
{
    block.ilog2() - 3
}

fn magic_of(format: Format) -> u32
    ensures { result ≡ magic_of format }
{
    match format {
        Format::Standard => 0x1357_9acf,
        Format::Numsync => 0x1357_9ad1,
    }
}

// How many extents the table of the header has room for.
fn table_room(block: u32, format: Format) -> u32
    requires { 512 ≤ block }
    ensures { result ≡ table_room (magic_of format) block }
{
    match format {
        Format::Standard => (block - 56) / 16,
        Format::Numsync => (block - 88) / 16,
    }
}

/// The header of a new file with blocks of this size.
pub fn new_header(block: u32, format: Format) -> Header
    requires power { IsPowerOfTwo block }
    requires from { 512 ≤ block }
    requires to { block ≤ 1048576 }
    ensures new { IsNewHeader result }
    ensures format { result.format ≡ format }
    ensures block { result.block ≡ block }
{
    Header {
        format,
        magic: magic_of(format),
        block,
        dir: u64::from(block),
        dir_bits: bits_for(block),
        elems: (block - 112) / 24,
        next_block: 4 * u64::from(block),
        version: 0,
        numsync: 0,
        reserved: [0; 6],
        avail_size: table_room(block, format),
    }
}
