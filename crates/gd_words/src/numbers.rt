//! Numbers among the words.

ghost use Rattle.std.specs.Prelude.{◌≡◌, ◌≤◌, IfSome, option_map};
ghost use Rattle.std.specs.Char.{is_ascii_digit};
ghost use Rattle.std.specs.List.{list_all};
ghost use Rattle.gd_words.specs.Meaning.{is_number, number_of, number_or};

fn has_digits(text: &[u8]) -> bool
    ensures { result ≡ list_all is_ascii_digit text.now }
{
    text.iter().all(|b| b.is_ascii_digit())
}

fn is_number(text: &str) -> bool
    ensures { result ≡ is_number text.now }
{
    0 < text.len() && text.len() <= 10 && has_digits(text.as_bytes())
}

fn number(text: &str) -> Option<u64>
    ensures { result ≡ number_of text.now }
{
    if is_number(text) {
        text.parse::<u64>().ok()
    } else {
        None
    }
}

/// A number in a range, or the default where none is given.
pub(crate) fn number_or(text: Option<&str>, least: u32, most: u32, default: u32) -> Option<u32>
    requires least { least ≤ default }
    requires most { default ≤ most }
    ensures value { result ≡ number_or least most default (option_map (λ s. s.now) text.entry) }
    ensures range { IfSome result (λ n. (least ≤ n) × (n ≤ most)) }
{
    let Some(text) = text else {
        return Some(default);
    };
    let n = u32::try_from(number(text)?).ok()?;
    if least <= n && n <= most {
        Some(n)
    } else {
        None
    }
}
