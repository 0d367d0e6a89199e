//! Words to bytes.

ghost use Rattle.std.specs.Prelude.{◌≡◌, ◌==◌, ◌≤◌, ◌^◌, Ok, false, replicate, true};
ghost use Rattle.std.specs.List.{list_any};
ghost use Rattle.gd_types.specs.Encoding.{Appends, Encodes, member_bytes, one_bytes, typed_bytes, word_bytes, words_after};
ghost use Rattle.gd_types.specs.Members.{has_float, is_made_from};
ghost use Rattle.gd_types.specs.Rows.{Byte, Number, Rest, ZeroEnded, is_width, kind_of};

use crate::numerals::word_number;
use crate::rows::by_row;
use crate::{Definition, EncodeError, Member, Scalar, TypeError, Words};
use gd_base::Datum;
use std::alloc::Global;

fn append_text(out: &mut Vec<u8>, word: &[u8]) -> Result<(), EncodeError>
    ensures { Appends out.old.items out.new.items result (Ok word.now) }
{
    match out.extend_from_slice(word) {
        Ok(()) => Ok(()),
        Err(_) => Err(EncodeError::OutOfMemory),
    }
}

fn append_zeros(out: &mut Vec<u8>, count: u64) -> Result<(), EncodeError>
    requires { count ≤ 2 ^ 48 }
    ensures { Appends out.old.items out.new.items result (Ok (replicate count 0)) }
{
    match out.resize(out.len() + count as usize, 0) {
        Ok(()) => Ok(()),
        Err(_) => Err(EncodeError::OutOfMemory),
    }
}

fn append_byte(out: &mut Vec<u8>, word: &[u8]) -> Result<(), EncodeError>
    ensures { Appends out.old.items out.new.items result (word_bytes Byte word.now) }
{
    if word.len() != 1 {
        return Err(EncodeError::Typed(TypeError::Text));
    }
    append_text(out, word)
}

fn append_number<const W: usize, const SIGNED: bool>(
    out: &mut Vec<u8>,
    word: &[u8],
) -> Result<(), EncodeError>
    requires { is_width W ≡ true }
    ensures { Appends out.old.items out.new.items result (word_bytes (Number W SIGNED) word.now) }
{
    match word_number::<W, SIGNED>(word) {
        Ok(number) => {
            let mut bytes = [0u8; 8];
            Scalar::<W, SIGNED>::put(number, &mut bytes[..W]);
            append_text(out, &bytes[..W])
        }
        Err(error) => Err(EncodeError::Typed(error)),
    }
}

fn has_zero(word: &[u8]) -> bool
    ensures { result ≡ list_any (λ b. b == 0) word.now }
{
    word.iter().any(|byte| *byte == 0)
}

fn append_zero_ended(out: &mut Vec<u8>, word: &[u8]) -> Result<(), EncodeError>
    ensures { Appends out.old.items out.new.items result (word_bytes ZeroEnded word.now) }
{
    if has_zero(word) {
        return Err(EncodeError::Typed(TypeError::Text));
    }
    append_text(out, word)?;
    append_text(out, b"\0")
}

fn append_word(out: &mut Vec<u8>, row: u32, word: &[u8]) -> Result<(), EncodeError>
    ensures { Appends out.old.items out.new.items result (word_bytes (kind_of row) word.now) }
{
    by_row!(
        row,
        append_byte(out, word),
        append_number(out, word),
        append_text(out, word),
        append_zero_ended(out, word)
    )
}

fn append_member(
    out: &mut Vec<u8>,
    at: u64,
    member: Member,
    words: &[Datum],
) -> Result<(), EncodeError>
    requires { at ≤ 2 ^ 48 }
    ensures { Appends out.old.items out.new.items result (one_bytes at member words.now) }
{
    match member {
        Member::Row(row) => match words {
            [word, ..] => append_word(out, row, word.as_slice()),
            [] => Err(EncodeError::Typed(TypeError::Text)),
        },
        Member::Off(place) => append_zeros(out, u64::from(place).saturating_sub(at)),
        Member::Pad(count) => append_zeros(out, u64::from(count)),
        Member::Float | Member::Double => Err(EncodeError::Typed(TypeError::FloatMember)),
    }
}

fn words_after(member: Member, words: &[Datum]) -> &[Datum]
    ensures { result.now ≡ words_after member words.now }
{
    match words {
        [_, rest @ ..] if member.has_value() => rest,
        _ => words,
    }
}

fn encode_members(alloc: Global, members: &[Member], words: &[Datum]) -> Result<Datum, EncodeError>
    requires { is_made_from 0 members.now ≡ true }
    ensures { Encodes result (member_bytes 0 members.now words.now) }
{
    let mut out = Vec::new(alloc);
    let mut at = 0u64;
    let mut left = words;
    for member in members {
        append_member(&mut out, at, *member, left)?;
        at = member.place_after(at);
        left = words_after(*member, left);
    }
    Ok(Datum::from(out))
}

/// The datum of these words: one for each value of the definition, with zeros in its gaps. The number of words is looked at
/// first, and then the members from the left.
pub fn encode(alloc: Global, def: &Definition, words: &Words) -> Result<Datum, EncodeError>
    requires { has_float def.now ≡ false }
    ensures { Encodes result (typed_bytes def.now words.now) }
{
    if words.as_slice().len() != def.value_count() {
        return Err(EncodeError::Typed(TypeError::Text));
    }
    encode_members(alloc, def.members(), words.as_slice())
}
