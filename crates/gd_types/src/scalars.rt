//! The rows of scalars, and numbers as their bytes.

ghost use Rattle.std.specs.Prelude.{◌≡◌, ◌*◌, ◌^◌, int_lt, length, map, pos, true, unsigned_abs};
ghost use Rattle.gd_types.specs.Rows.{is_held, is_width, number_bytes, number_in, scalar_names};

use crate::Table;
use byteorder::{ByteOrder, LittleEndian};

/// The types of values that a definition may have.
pub const SCALARS: Table<11> = Table {
    names: &[
        "char", "short", "ushort", "int", "unsigned", "long", "ulong", "llong", "ullong", "string",
        "stringz",
    ],
};

/// The names of the rows, and their order, are those of the definition. Nothing is run.
pub fn scalar_table() -> Table<11>
    ensures { map (λ name. name.now) result.names.now ≡ scalar_names }
{
    SCALARS
}

/// Numbers of `W` bytes, 1, 2, 4 or 8, the least byte first, in two's complement where they are signed.
pub struct Scalar<const W: usize, const SIGNED: bool>;

fn limit(width: usize) -> u128
    requires { is_width width ≡ true }
    ensures { result ≡ 2 ^ (8 * width) }
{
    match width {
        1 => 1 << 8,
        2 => 1 << 16,
        4 => 1 << 32,
        _ => 1 << 64,
    }
}

fn size_of(number: i128) -> u128
    ensures { result ≡ unsigned_abs number }
{
    number.unsigned_abs()
}

fn is_negative(number: i128) -> bool
    ensures { result ≡ int_lt number (pos 0) }
{
    number < 0
}

fn is_in_range(width: usize, signed: bool, number: i128) -> bool
    requires { is_width width ≡ true }
    ensures { result ≡ is_held width signed number }
{
    let limit = limit(width);
    let size = size_of(number);
    if is_negative(number) {
        return signed && size <= limit / 2;
    }
    if signed {
        return size < limit / 2;
    }
    size < limit
}

impl<const W: usize, const SIGNED: bool> Scalar<W, SIGNED> {
    /// Whether a number is in range.
    pub fn holds(number: i128) -> bool
        requires { is_width W ≡ true }
        ensures { result ≡ is_held W SIGNED number }
    {
        is_in_range(W, SIGNED, number)
    }

    /// Writes a number that is in range over `W` bytes.
    pub fn put(number: i128, into: &mut [u8])
        requires width { is_width W ≡ true }
        requires room { length into.old ≡ W }
        requires held { is_held W SIGNED number ≡ true }
        ensures { into.new ≡ number_bytes W number }
    {
        LittleEndian::write_int128(into, number, W);
    }

    /// The number in `W` bytes.
    pub fn get(bytes: &[u8]) -> i128
        requires width { is_width W ≡ true }
        requires room { length bytes.now ≡ W }
        ensures { result ≡ number_in W SIGNED bytes.now }
    {
        if SIGNED {
            LittleEndian::read_int128(bytes, W)
        } else {
            i128::from(LittleEndian::read_uint(bytes, W))
        }
    }
}
