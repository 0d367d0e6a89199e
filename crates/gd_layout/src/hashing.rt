//! The hash of a key.

ghost use Rattle.std.specs.Prelude.{◌≡◌, ◌+◌, ◌*◌, ◌^◌, ◌<◌, ◌%◌, ◌+ℤ◌, ◌*ℤ◌, pos, length};
ghost use Rattle.std.specs.Int.{w8, cast_signed};
ghost use Rattle.gd_format.specs.Hash.{hash_of, mixed_all, modulo_31};

// The hash so far, with a byte added that stands `shift` bits up. From 128 on the byte counts as 256 less.
fn mix(shift: u32, v: u64, byte: u8) -> u64
    requires shift { shift < 24 }
    requires so_far { v < 2 ^ 32 }
    ensures value { result ≡ modulo_31 (pos v +ℤ cast_signed w8 byte *ℤ pos (2 ^ shift)) }
    ensures fits { result < 2 ^ 31 }
{
    let unit = 1u64 << shift;
    let worth = u64::from(byte) * unit;
    if byte < 128 {
        (v + worth) % (1 << 31)
    } else {
        (v + worth + (1 << 31) - 256 * unit) % (1 << 31)
    }
}

// The shift of the next byte.
fn next_shift(shift: u32) -> u32
    requires { shift < 24 }
    ensures { result ≡ (shift + 5) % 24 }
{
    if shift < 19 { shift + 5 } else { shift - 19 }
}

/// The hash of no byte of a key of `len` bytes.
pub fn hash_start(len: u64) -> u64
    ensures value { result ≡ 0x238F13AF * len % 2 ^ 32 }
    ensures fits { result < 2 ^ 32 }
{
    0x238F_13AF * (len % (1 << 32)) % (1 << 32)
}

/// What the hash so far becomes by the bytes from a place on. A key that is read in pieces is hashed piece by piece.
pub fn hash_more(place: u64, v: u64, bytes: &[u8]) -> u64
    requires { v < 2 ^ 32 }
    ensures value { result ≡ mixed_all place v bytes.now }
    ensures fits { result < 2 ^ 32 }
{
    let mut all = v;
    let mut shift = (5 * (place % 24) % 24) as u32;
    for byte in bytes {
        all = mix(shift, all, *byte);
        shift = next_shift(shift);
    }
    all
}

/// The hash, by what all bytes gave.
pub fn hash_end(v: u64) -> u32
    requires { v < 2 ^ 32 }
    ensures value { result ≡ (1103515243 * v + 12345) % 2 ^ 31 }
    ensures fits { result < 2 ^ 31 }
{
    ((1_103_515_243 * v + 12345) % (1 << 31)) as u32
}

/// The hash of a key, which has 31 bits.
#[tactic(auto, unfolding(gd_format::specs::Hash::hash_of))]
pub fn hash(key: &[u8]) -> u32
    ensures value { result ≡ hash_of key.now }
    ensures fits { result < 2 ^ 31 }
{
    hash_end(hash_more(0, hash_start(key.len() as u64), key))
}
