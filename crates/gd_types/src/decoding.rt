//! Bytes to text.

ghost use Rattle.std.specs.Prelude.{◌≡◌, ◌≤◌, ◌&&◌, ◌++◌, false, length, not, true};
ghost use Rattle.std.specs.List.{flat_map};
ghost use Rattle.gd_base.specs.Causes.{HasCause, Rose};
ghost use Rattle.gd_base.specs.Pages.{Pends};
ghost use Rattle.gd_base.specs.Streams.{Puts};
ghost use Rattle.gd_types.specs.Decoding.{Decodes, OnFailed, OnTyped, datum_fault, datum_text, kind_text, left_fault, member_text, rest_fault, typed_text, value_text, zero_fault};
ghost use Rattle.gd_types.specs.Members.{has_float, is_made_from, is_row, place_after, placed, reached};
ghost use Rattle.gd_types.specs.Printing.{joined, lead_of};
ghost use Rattle.gd_types.specs.Rows.{Number, is_width, kind_of, kind_width};

use crate::printing::{put_decimal, put_printed};
use crate::rows::by_row;
use crate::{DecodeError, Definition, Member, Scalar, TypeError};
use gd_base::{Failed, Page, Sink, flush, put};

/// A value of a datum.
pub(crate) enum Value<'a> {
    Bytes(&'a [u8]),
    Decimal(i128),
}

fn zero_fault(bytes: &[u8]) -> Option<TypeError>
    ensures { result ≡ zero_fault bytes.now }
{
    for at in 0..bytes.len() {
        if bytes[at] == 0 {
            return if at + 1 == bytes.len() {
                None
            } else {
                Some(TypeError::Trailing)
            };
        }
    }
    Some(TypeError::Short)
}

fn left_fault(bytes: &[u8]) -> Option<TypeError>
    ensures { result ≡ left_fault bytes.now }
{
    match bytes {
        [] => None,
        _ => Some(TypeError::Trailing),
    }
}

fn number_fault<const W: usize, const SIGNED: bool>(bytes: &[u8]) -> Option<TypeError>
    ensures { result ≡ left_fault bytes.now }
{
    left_fault(bytes)
}

fn rest_fault(last: Option<Member>, bytes: &[u8]) -> Option<TypeError>
    ensures { result ≡ rest_fault last bytes.now }
{
    match last {
        Some(Member::Row(row)) => by_row!(
            row,
            left_fault(bytes),
            number_fault(bytes),
            None,
            zero_fault(bytes)
        ),
        _ => left_fault(bytes),
    }
}

/// The refusal that `decode` answers for these bytes, where it has one.
pub fn check(def: &Definition, bytes: &[u8]) -> Option<TypeError>
    requires { has_float def.now ≡ false }
    ensures { result ≡ datum_fault def.now bytes.now }
{
    let reached = def.reached();
    if (bytes.len() as u64) < reached {
        return Some(TypeError::Short);
    }
    rest_fault(def.members().last().copied(), &bytes[reached as usize..])
}

fn number<const W: usize, const SIGNED: bool>(bytes: &[u8]) -> Value<'_>
    requires width { is_width W ≡ true }
    requires room { W ≤ length bytes.now }
    ensures { value_text result ≡ kind_text (Number W SIGNED) bytes.now }
{
    Value::Decimal(Scalar::<W, SIGNED>::get(&bytes[..W]))
}

/// The value of a row at the front of bytes.
fn value_of(row: u32, bytes: &[u8]) -> Value<'_>
    requires { kind_width (kind_of row) ≤ length bytes.now }
    ensures { value_text result ≡ kind_text (kind_of row) bytes.now }
{
    by_row!(
        row,
        Value::Bytes(&bytes[..1]),
        number(bytes),
        Value::Bytes(bytes),
        Value::Bytes(&bytes[..bytes.len().saturating_sub(1)])
    )
}

fn put_value<O: Sink>(page: &mut Page, value: Value<'_>, out: &mut O) -> Result<(), Failed>
    ensures bytes { Pends (O.written out.old) page.old.items (O.written out.new) page.new.items result (value_text value.entry) }
    ensures cause { HasCause (O.fault_count out.old) (O.fault_count out.new) result }
    ensures kept { O.kept out.old out.new }
{
    match value {
        Value::Bytes(bytes) => put_printed(page, bytes, out),
        Value::Decimal(number) => put_decimal(page, number, out),
    }
}

fn put_member<O: Sink>(
    page: &mut Page,
    at: u64,
    member: Member,
    bytes: &[u8],
    lead: &[u8],
    out: &mut O,
) -> Result<(), Failed>
    requires at { at ≤ length bytes.now }
    requires room { place_after at member ≤ length bytes.now }
    ensures bytes { Pends (O.written out.old) page.old.items (O.written out.new) page.new.items result (flat_map (λ t. lead.now ++ t) (member_text bytes.now (member, at))) }
    ensures cause { HasCause (O.fault_count out.old) (O.fault_count out.new) result }
    ensures kept { O.kept out.old out.new }
{
    match member {
        Member::Row(row) => {
            put(page, out, lead)?;
            put_value(page, value_of(row, &bytes[at as usize..]), out)
        }
        _ => put(page, out, b""),
    }
}

/// What stands before a value: nothing before the first one.
fn lead(first: bool, delim: &[u8]) -> &[u8]
    ensures { result.now ≡ lead_of first delim.now }
{
    if first { &delim[..0] } else { delim }
}

fn stays_first(first: bool, member: Member) -> bool
    ensures { result ≡ first && not (is_row member) }
{
    first && !member.is_row()
}

fn put_members<O: Sink>(
    page: &mut Page,
    members: &[Member],
    bytes: &[u8],
    delim: &[u8],
    out: &mut O,
) -> Result<(), Failed>
    requires made { is_made_from 0 members.now ≡ true }
    requires long { reached members.now ≤ length bytes.now }
    ensures bytes { Pends (O.written out.old) page.old.items (O.written out.new) page.new.items result (joined delim.now (flat_map (member_text bytes.now) (placed 0 members.now))) }
    ensures cause { HasCause (O.fault_count out.old) (O.fault_count out.new) result }
    ensures kept { O.kept out.old out.new }
{
    let mut at = 0u64;
    let mut first = true;
    for member in members {
        put_member(page, at, *member, bytes, lead(first, delim), out)?;
        at = member.place_after(at);
        first = stays_first(first, *member);
    }
    Ok(())
}

fn put_datum<O: Sink>(
    members: &[Member],
    bytes: &[u8],
    delim: &[u8],
    out: &mut O,
) -> Result<(), Failed>
    requires made { is_made_from 0 members.now ≡ true }
    requires long { reached members.now ≤ length bytes.now }
    ensures bytes { Puts (O.written out.old) (O.written out.new) result (joined delim.now (flat_map (member_text bytes.now) (placed 0 members.now))) }
    ensures cause { HasCause (O.fault_count out.old) (O.fault_count out.new) result }
    ensures kept { O.kept out.old out.new }
{
    let mut page = Page::new();
    put_members(&mut page, members, bytes, delim, out)?;
    flush(&mut page, out)
}

/// Puts the text of a datum that is not refused behind what waits in a page: its values in their order, with the delimiter
/// between them. Takes no memory.
pub fn put_typed<O: Sink>(
    page: &mut Page,
    def: &Definition,
    bytes: &[u8],
    delim: &[u8],
    out: &mut O,
) -> Result<(), Failed>
    requires float { has_float def.now ≡ false }
    requires fits { datum_fault def.now bytes.now ≡ None }
    ensures bytes { Pends (O.written out.old) page.old.items (O.written out.new) page.new.items result (datum_text def.now bytes.now delim.now) }
    ensures cause { HasCause (O.fault_count out.old) (O.fault_count out.new) result }
    ensures kept { O.kept out.old out.new }
{
    put_members(page, def.members(), bytes, delim, out)
}

/// Prints a datum: its values in their order, with the delimiter between them. A refused datum prints nothing, and leaves the
/// sink alone. Takes no memory.
pub fn decode<O: Sink>(
    def: &Definition,
    bytes: &[u8],
    delim: &[u8],
    out: &mut O,
) -> Result<(), DecodeError>
    requires { has_float def.now ≡ false }
    ensures text { Decodes result (O.written out.old) (O.written out.new) (typed_text def.now bytes.now delim.now) }
    ensures untouched { OnTyped result (out.new ≡ out.old) }
    ensures later { O.fault_count out.old ≤ O.fault_count out.new }
    ensures cause { OnFailed result (Rose (O.fault_count out.old) (O.fault_count out.new)) }
    ensures kept { O.kept out.old out.new }
{
    if let Some(error) = check(def, bytes) {
        return Err(DecodeError::Typed(error));
    }
    match put_datum(def.members(), bytes, delim, out) {
        Ok(()) => Ok(()),
        Err(_) => Err(DecodeError::Failed),
    }
}
