//! Keys and values as texts of numbers.

use arrayvec::ArrayVec;

/// A short text.
pub type Text = ArrayVec<u8, 80>;

/// A key and its value.
#[derive(Drop)]
pub struct Pair {
    pub key: Text,
    pub value: Text,
}

/// A word and a number in decimal behind it.
pub fn text_of(word: &[u8], number: u32) -> Text {
    let mut text = Text::new();
    let mut digits = itoa::Buffer::new();
    // A text that finds no room is shorter, and a test with it fails.
    let _ = text.try_extend_from_slice(word);
    let _ = text.try_extend_from_slice(digits.format(number).as_bytes());
    text
}

/// The pair that the command `fill` stores for a number: `key` and the last five digits, and the number with up to 63
/// dots.
pub fn pair_of(number: u32) -> Pair {
    let key = text_of(b"key", number % 100_000);
    let mut value = text_of(b"", number);
    for _ in 0..number % 64 {
        let _ = value.try_push(b'.');
    }
    Pair { key, value }
}

/// The next state of the generator of the command `fill`.
pub fn next_state(state: u64) -> u64 {
    state
        .wrapping_mul(6_364_136_223_846_793_005)
        .wrapping_add(1_442_695_040_888_963_407)
}

/// The number of a state.
pub fn number_of(state: u64) -> u32 {
    (state >> 33) as u32
}
