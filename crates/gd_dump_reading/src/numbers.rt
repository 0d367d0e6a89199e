//! Numbers in decimal digits.

ghost use Rattle.std.specs.Prelude.{◌≡◌, ◌==◌, ◌<◌, ◌≤◌, ◌+◌, ◌-◌, ◌^◌, MatchOption, min};
ghost use Rattle.std.specs.Char.{is_ascii_digit};
ghost use Rattle.std.specs.List.{list_all};
ghost use Rattle.gd_dump_reading.specs.Numbers.{is_number, value_of};

const HIGHEST: u64 = 1 << 30;

fn all_digits(text: &[u8]) -> bool
    ensures { result ≡ list_all is_ascii_digit text.now }
{
    text.iter().all(|b| b.is_ascii_digit())
}

/// Whether a text is a number of at most so many digits.
pub fn numeric(most: usize, text: &[u8]) -> bool
    ensures { result ≡ is_number most text.now }
{
    1 <= text.len() && text.len() <= most && all_digits(text)
}

/// The value of decimal digits, or the largest number of the type where that is larger.
pub fn number(digits: &[u8]) -> u64
    ensures { result ≡ min (value_of digits.now) (2 ^ 64 - 1) }
{
    let mut n = 0u64;
    for b in digits {
        n = n
            .saturating_mul(10)
            .saturating_add(u64::from(b.saturating_sub(b'0')));
    }
    n
}

/// The value of decimal digits, unless with so much before it it is above 2^30.
pub fn size_after(before: usize, digits: &[u8]) -> Option<u64>
    ensures { MatchOption result (2 ^ 30 < before + value_of digits.now) (λ n. (n ≡ value_of digits.now) × (before + n ≤ 2 ^ 30)) }
{
    let size = number(digits);
    if before as u64 > HIGHEST || size > HIGHEST - before as u64 {
        return None;
    }
    Some(size)
}

/// Whether decimal digits have this value.
pub fn is_value(digits: &[u8], n: u64) -> bool
    requires { n < 2 ^ 63 }
    ensures { result ≡ (value_of digits.now == n) }
{
    number(digits) == n
}
