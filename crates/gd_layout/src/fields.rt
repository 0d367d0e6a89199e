//! Numbers at places of a block, the least byte first.

ghost use Rattle.std.specs.Prelude.{◌≡◌, ◌+◌, ◌≤◌, length};
ghost use Rattle.gd_format.specs.Field.{u32_at, u64_at, i32_at, i64_at};

use byteorder::{ByteOrder, LittleEndian};

/// The number of 4 bytes at a place.
pub fn u32_from(bytes: &[u8], at: usize) -> u32
    requires { at + 4 ≤ length bytes.now }
    ensures { result ≡ u32_at bytes.now at }
{
    LittleEndian::read_u32(&bytes[at..])
}

/// The number of 8 bytes at a place.
pub fn u64_from(bytes: &[u8], at: usize) -> u64
    requires { at + 8 ≤ length bytes.now }
    ensures { result ≡ u64_at bytes.now at }
{
    LittleEndian::read_u64(&bytes[at..])
}

/// The number of 4 bytes at a place, in two's complement.
pub fn i32_from(bytes: &[u8], at: usize) -> i32
    requires { at + 4 ≤ length bytes.now }
    ensures { result ≡ i32_at bytes.now at }
{
    LittleEndian::read_i32(&bytes[at..])
}

/// The number of 8 bytes at a place, in two's complement.
pub fn i64_from(bytes: &[u8], at: usize) -> i64
    requires { at + 8 ≤ length bytes.now }
    ensures { result ≡ i64_at bytes.now at }
{
    LittleEndian::read_i64(&bytes[at..])
}
