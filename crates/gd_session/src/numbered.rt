//! The pairs of the command that fills a database.

ghost use Rattle.std.specs.Prelude.{◌≡◌, ◌+◌, ◌%◌, ◌≤◌, ◌++◌, codes, length, replicate};
ghost use Rattle.std.specs.Fmt.{decimal};
ghost use Rattle.gd_session.specs.Texts.{next_x};

use arrayvec::ArrayVec;

/// The number behind another one.
pub(crate) fn next_number(x: u64) -> u64
    ensures { result ≡ next_x x }
{
    x.wrapping_mul(6_364_136_223_846_793_005)
        .wrapping_add(1_442_695_040_888_963_407)
}

// Puts bytes behind others.
fn append<const N: usize>(text: &mut ArrayVec<u8, N>, bytes: &[u8])
    requires { length text.old.items + length bytes.now ≤ N }
    ensures { text.new.items ≡ text.old.items ++ bytes.now }
{
    match text.try_extend_from_slice(bytes) {
        Ok(()) => {}
        Err(_) => unreachable!(),
    }
}

/// The key of a number of 31 bits.
pub(crate) fn number_key(number: u64) -> ArrayVec<u8, 23>
    ensures { result.items ≡ codes "key" ++ decimal (number % 100000) }
{
    let mut key = ArrayVec::new();
    append(&mut key, b"key");
    let mut digits = itoa::Buffer::new();
    append(&mut key, digits.format(number % 100_000).as_bytes());
    key
}

// Dots.
fn dots() -> [u8; 64]
    ensures { result ≡ replicate 64 46 }
{
    [b'.'; 64]
}

/// The content of a number of 31 bits.
pub(crate) fn number_content(number: u64) -> ArrayVec<u8, 84>
    ensures { result.items ≡ decimal number ++ replicate (number % 64) 46 }
{
    let mut content = ArrayVec::new();
    let mut digits = itoa::Buffer::new();
    append(&mut content, digits.format(number).as_bytes());
    append(&mut content, &dots()[..(number % 64) as usize]);
    content
}
