//! What single words say: names, numbers and settings.

ghost use Rattle.std.specs.Prelude.{◌≡◌, ◌≤◌, ◌^◌, IfSome, min};
ghost use Rattle.std.specs.Char.{is_ascii_digit};
ghost use Rattle.std.specs.List.{list_all};
ghost use Rattle.gd_lang.specs.Commands.{wanted};
ghost use Rattle.gd_lang.specs.Refusals.{Answers};
ghost use Rattle.gd_lang.specs.Values.{block_setting, cache_setting, delim_setting, format_setting, if_at_most, is_number, name_of, named_setting, number_up_to, open_setting, setting_of, value_of};

use crate::{LangError, Opening, Setting};
use gd_base::{Datum, Format, Name, NameError};
use std::alloc::Global;

/// More than any number that is taken.
const TOO_LARGE: u128 = 1 << 64;

/// A name of a file.
pub(crate) fn name_of(alloc: Global, word: &[u8]) -> Result<Name, LangError>
    ensures { Answers result (wanted (name_of word.now)) }
{
    let Ok(text) = str::from_utf8(word) else {
        return Err(LangError::Arguments);
    };
    match Name::new(alloc, text) {
        Ok(name) => Ok(name),
        Err(NameError::OutOfMemory) => Err(LangError::OutOfMemory),
        Err(_) => Err(LangError::Arguments),
    }
}

fn are_digits(word: &[u8]) -> bool
    ensures { result ≡ list_all is_ascii_digit word.now }
{
    word.iter().all(|byte| byte.is_ascii_digit())
}

/// Whether a word is a number: decimal digits without a sign, and without a zero before the others.
fn is_number(word: &[u8]) -> bool
    ensures { result ≡ is_number word.now }
{
    word.len() > 0 && are_digits(word) && (word.len() == 1 || !word.starts_with(b"0"))
}

/// The number that decimal digits write, or 2^64 where it is larger.
fn value_of(digits: &[u8]) -> u128
    ensures { result ≡ min (value_of digits.now) (2 ^ 64) }
{
    let mut value = 0u128;
    for byte in digits {
        value = (10 * value + u128::from(byte.saturating_sub(b'0'))).min(TOO_LARGE);
    }
    value
}

fn at_most(highest: u64, number: u128) -> Option<u64>
    ensures { result ≡ if_at_most highest number }
{
    if number <= u128::from(highest) {
        Some(number as u64)
    } else {
        None
    }
}

/// The number that a word writes, up to the highest one that is taken.
pub(crate) fn number_up_to(highest: u64, word: &[u8]) -> Option<u64>
    ensures value { result ≡ number_up_to highest word.now }
    ensures small { IfSome result (λ n. n ≤ highest) }
{
    if !is_number(word) {
        return None;
    }
    at_most(highest, value_of(word))
}

fn block_setting(value: &[u8]) -> Option<Setting>
    ensures { result ≡ block_setting value.now }
{
    match number_up_to(1_048_576, value) {
        Some(bytes) => Some(Setting::BlockSize(bytes as u32)),
        None => None,
    }
}

fn cache_setting(value: &[u8]) -> Option<Setting>
    ensures { result ≡ cache_setting value.now }
{
    match number_up_to(4_096, value) {
        Some(buckets) => {
            if buckets == 0 {
                None
            } else {
                Some(Setting::CacheSize(buckets as u32))
            }
        }
        None => None,
    }
}

fn delim_setting(alloc: Global, value: &[u8]) -> Result<Setting, LangError>
    ensures { Answers result (wanted (delim_setting value.now)) }
{
    if value.len() > 16 {
        return Err(LangError::Arguments);
    }
    match Datum::from_slice(alloc, value) {
        Ok(delim) => Ok(Setting::Delim1(delim)),
        Err(_) => Err(LangError::OutOfMemory),
    }
}

fn format_setting(value: &[u8]) -> Option<Setting>
    ensures { result ≡ format_setting value.now }
{
    if value == b"standard".as_slice() {
        Some(Setting::Format(Format::Standard))
    } else if value == b"numsync".as_slice() {
        Some(Setting::Format(Format::Numsync))
    } else {
        None
    }
}

fn open_setting(value: &[u8]) -> Option<Setting>
    ensures { result ≡ open_setting value.now }
{
    if value == b"newdb".as_slice() {
        Some(Setting::Opening(Opening::NewDb))
    } else if value == b"wrcreat".as_slice() || value == b"rw".as_slice() {
        Some(Setting::Opening(Opening::WrCreat))
    } else if value == b"reader".as_slice() || value == b"readonly".as_slice() {
        Some(Setting::Opening(Opening::Reader))
    } else {
        None
    }
}

fn wanted(setting: Option<Setting>) -> Result<Setting, LangError>
    ensures { Answers result (wanted setting) }
{
    match setting {
        Some(setting) => Ok(setting),
        None => Err(LangError::Arguments),
    }
}

/// A variable whose value is a word, with its value.
fn named_setting(word: &[u8]) -> Option<Setting>
    ensures { result ≡ named_setting word.now }
{
    if word.starts_with(b"format=") {
        format_setting(&word[7..])
    } else if word.starts_with(b"open=") {
        open_setting(&word[5..])
    } else {
        None
    }
}

/// A variable with its value, from a word `NAME=VALUE`.
pub(crate) fn setting_of(alloc: Global, word: &[u8]) -> Result<Setting, LangError>
    ensures { Answers result (wanted (setting_of word.now)) }
{
    if word.starts_with(b"blocksize=") {
        wanted(block_setting(&word[10..]))
    } else if word.starts_with(b"cachesize=") {
        wanted(cache_setting(&word[10..]))
    } else if word.starts_with(b"delim1=") {
        delim_setting(alloc, &word[7..])
    } else {
        wanted(named_setting(word))
    }
}
