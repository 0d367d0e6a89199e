//! Numbers that words write.

ghost use Rattle.std.specs.Prelude.{◌≡◌, ◌≤◌, ◌^◌, ◌&&◌, IfSome, length, map, min, nat_lt, neg_ℤ, option_map, pos, true};
ghost use Rattle.std.specs.Char.{digit_value, is_digit};
ghost use Rattle.std.specs.List.{list_all};
ghost use Rattle.std.specs.Str.Parse.{digits_value};
ghost use Rattle.gd_types.specs.Numerals.{cut, natural, numeral, word_number};
ghost use Rattle.gd_types.specs.Rows.{is_width};

use crate::{Scalar, TypeError};

/// A number that no type holds.
const TOO_LARGE: u128 = 1 << 64;

/// The value of a digit or a letter, from 0 to 35, and 36 for any other byte.
fn digit(byte: u8) -> u32
    ensures value { result ≡ digit_value byte }
    ensures small { result ≤ 36 }
{
    char::from(byte).to_digit(36).unwrap_or(36)
}

fn are_digits(base: u32, text: &[u8]) -> bool
    ensures { result ≡ list_all (λ c. is_digit c base) text.now }
{
    text.iter().all(|byte| digit(*byte) < base)
}

/// The number that digits write, or 2^64 where it is larger.
fn value(base: u32, digits: &[u8]) -> u128
    requires low { 1 ≤ base }
    requires high { base ≤ 36 }
    ensures { result ≡ min (digits_value base digits.now) (2 ^ 64) }
{
    let mut value = 0u128;
    for byte in digits {
        value = (value * u128::from(base) + u128::from(digit(*byte))).min(TOO_LARGE);
    }
    value
}

/// The number that one or more digits write, or 2^64 where it is larger.
fn natural(base: u32, text: &[u8]) -> Option<u128>
    requires low { 1 ≤ base }
    requires high { base ≤ 36 }
    ensures { result ≡ option_map (λ n. min n (2 ^ 64)) (natural base text.now) }
{
    if text.len() > 0 && are_digits(base, text) {
        Some(value(base, text))
    } else {
        None
    }
}

fn positive(n: u128) -> i128
    requires { n ≤ 2 ^ 64 }
    ensures { result ≡ pos n }
{
    n as i128
}

fn negative(n: u128) -> i128
    requires { n ≤ 2 ^ 64 }
    ensures { result ≡ neg_ℤ (pos n) }
{
    -positive(n)
}

/// The number that a word writes, cut to -2^64 and 2^64.
fn numeral(signed: bool, word: &[u8]) -> Option<i128>
    ensures { result ≡ option_map cut (numeral signed word.now) }
{
    if word.starts_with(b"0x") {
        return match natural(16, &word[2..]) {
            Some(n) => Some(positive(n)),
            None => None,
        };
    }
    if signed && word.starts_with(b"-") {
        return match natural(10, &word[1..]) {
            Some(n) => Some(negative(n)),
            None => None,
        };
    }
    match natural(10, word) {
        Some(n) => Some(positive(n)),
        None => None,
    }
}

/// The number that a word writes, where the type holds it.
pub fn word_number<const W: usize, const SIGNED: bool>(word: &[u8]) -> Result<i128, TypeError>
    requires { is_width W ≡ true }
    ensures { result ≡ word_number W SIGNED word.now }
{
    match numeral(SIGNED, word) {
        None => Err(TypeError::Text),
        Some(number) => {
            if Scalar::<W, SIGNED>::holds(number) {
                Ok(number)
            } else {
                Err(TypeError::Range)
            }
        }
    }
}
