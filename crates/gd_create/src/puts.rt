//! Numbers that are put one after another into a block of zeros.

ghost use Rattle.std.specs.Prelude.{◌≡◌, ℕ, List, ◌+◌, ◌≤◌, ◌++◌, length};
ghost use Rattle.byteorder.specs.Endian.{little_bytes};
ghost use Rattle.gd_create.specs.Begun.{Begun};

use byteorder::{ByteOrder, LittleEndian};

/// Puts a number of 4 bytes behind what was put before.
pub fn put_u32(block: &mut [u8], at: usize, n: u32)
    requires { at + 4 ≤ length block.old }
    ensures { (front : List ℕ) → Begun front at block.old → Begun (front ++ little_bytes 4 n) (at + 4) block.new }
{
    LittleEndian::write_u32(&mut block[at..], n);
}

/// Puts a number of 8 bytes behind what was put before.
pub fn put_u64(block: &mut [u8], at: usize, n: u64)
    requires { at + 8 ≤ length block.old }
    ensures { (front : List ℕ) → Begun front at block.old → Begun (front ++ little_bytes 8 n) (at + 8) block.new }
{
    LittleEndian::write_u64(&mut block[at..], n);
}
