//! The parameters of a dump's head.

ghost use Rattle.std.specs.Prelude.{◌==◌, ◌≡◌, ◌+◌, ◌-◌, ◌<◌, ◌≤◌, length, drop, not, slice_index, if◌then◌else◌, false, IfSome, vec_capacity, vec_len};
ghost use Rattle.std.specs.Char.{is_ascii_alphabetic};
ghost use Rattle.std.specs.List.{prefix_len};
ghost use Rattle.gd_dump_reading.specs.ParamReads.{ReadsParam, ReadsValue};
ghost use Rattle.gd_dump_reading.specs.Params.{is_unnamed, quoted, value_in};

use crate::room::append;

// The place of the byte that a backslash at this place takes as it is, or this place.
fn behind_slash(text: &[u8], at: usize) -> usize
    requires { at < length text.now }
    ensures { result ≡ (if slice_index text.now at == 92 then at + 1 else at) }
{
    if text[at] == b'\\' { at + 1 } else { at }
}

// Puts the value behind a double quote into a list, and answers how many bytes it takes up.
fn quoted_value(value: &mut Vec<u8>, text: &[u8]) -> Option<usize>
    requires { length text.now ≤ vec_capacity value.old }
    ensures reads { ReadsValue text.now (quoted text.now) value.new.items result }
    ensures size { vec_len value.new ≤ length text.now }
    ensures room { vec_capacity value.old ≤ vec_capacity value.new }
{
    value.clear();
    let mut at = 0;
    while at < text.len() {
        if text[at] == b'"' {
            return Some(at + 1);
        }
        let next = behind_slash(text, at);
        if next == text.len() {
            return None;
        }
        append(value, &[text[next]]);
        at = next + 1;
    }
    None
}

// How many bytes stand before the first comma.
fn before_comma(text: &[u8]) -> usize
    ensures within { result ≤ length text.now }
    ensures value { result ≡ prefix_len (λ b. not (b == 44)) text.now }
{
    text.iter().take_while(|b| **b != b',').count()
}

// How many letters the text begins with.
fn letters(text: &[u8]) -> usize
    ensures within { result ≤ length text.now }
    ensures value { result ≡ prefix_len is_ascii_alphabetic text.now }
{
    text.iter().take_while(|b| b.is_ascii_alphabetic()).count()
}

// Puts the value at the text's front into a list, and answers how many bytes it takes up.
fn value_at(value: &mut Vec<u8>, text: &[u8]) -> Option<usize>
    requires { length text.now ≤ vec_capacity value.old }
    ensures reads { ReadsValue text.now (value_in text.now) value.new.items result }
    ensures size { vec_len value.new ≤ length text.now }
    ensures room { vec_capacity value.old ≤ vec_capacity value.new }
{
    if text.starts_with(b"\"") {
        return match quoted_value(value, &text[1..]) {
            Some(taken) => Some(taken + 1),
            None => None,
        };
    }
    let taken = before_comma(text);
    value.clear();
    append(value, &text[..taken]);
    Some(taken)
}

fn unnamed(text: &[u8]) -> bool
    ensures value { result ≡ is_unnamed text.now }
    ensures room { result ≡ false → prefix_len is_ascii_alphabetic text.now < length text.now }
{
    let name = letters(text);
    name == 0 || !text[name..].starts_with(b"=")
}

/// The first parameter of the text: the length of its name, and how many bytes it takes up. Its value goes into the list.
pub fn param_at(value: &mut Vec<u8>, text: &[u8]) -> Option<(usize, usize)>
    requires { length text.now ≤ vec_capacity value.old }
    ensures reads { ReadsParam text.now value.new.items result }
    ensures size { IfSome result (λ r. vec_len value.new ≤ length text.now) }
    ensures room { vec_capacity value.old ≤ vec_capacity value.new }
{
    if unnamed(text) {
        return None;
    }
    let count = letters(text);
    let Some(taken) = value_at(value, &text[count + 1..]) else {
        return None;
    };
    Some((count, count + 1 + taken))
}
