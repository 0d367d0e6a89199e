//! Data as they are printed.

ghost use Rattle.std.specs.Prelude.{◌≡◌, ◌≤◌, ◌∷◌, ◌++◌, [], false, None};
ghost use Rattle.gd_base.specs.Causes.{HasCause};
ghost use Rattle.gd_base.specs.Pages.{Pends};
ghost use Rattle.gd_base.specs.Streams.{Puts};
ghost use Rattle.gd_types.specs.Decoding.{datum_fault, datum_text, typed_text};
ghost use Rattle.gd_types.specs.Members.{has_float};
ghost use Rattle.gd_session.specs.Counted.{OutCounts};
ghost use Rattle.gd_session.specs.Said.{Shows, misfit_of};
ghost use Rattle.gd_session.specs.Texts.{line, spaced};

use crate::Reply;
use gd_base::{Failed, Page, Sink, flush, put};
use gd_types::{Definition, TypeError, check, put_typed};

// Puts a datum's line behind what waits.
fn put_datum_line<O: Sink>(
    page: &mut Page,
    form: &Definition,
    bytes: &[u8],
    delim: &[u8],
    out: &mut O,
) -> Result<(), Failed>
    requires float { has_float form.now ≡ false }
    requires fits { datum_fault form.now bytes.now ≡ None }
    ensures bytes { Pends (O.written out.old) page.old.items (O.written out.new) page.new.items result (line (datum_text form.now bytes.now delim.now)) }
    ensures cause { HasCause (O.fault_count out.old) (O.fault_count out.new) result }
    ensures kept { O.kept out.old out.new }
{
    put_typed(page, form, bytes, delim, out)?;
    put(page, out, b"\n")
}

fn write_datum_line<O: Sink>(
    form: &Definition,
    bytes: &[u8],
    delim: &[u8],
    out: &mut O,
) -> Result<(), Failed>
    requires float { has_float form.now ≡ false }
    requires fits { datum_fault form.now bytes.now ≡ None }
    ensures bytes { Puts (O.written out.old) (O.written out.new) result (line (datum_text form.now bytes.now delim.now)) }
    ensures cause { HasCause (O.fault_count out.old) (O.fault_count out.new) result }
    ensures kept { O.kept out.old out.new }
{
    let mut page = Page::new();
    put_datum_line(&mut page, form, bytes, delim, out)?;
    flush(&mut page, out)
}

/// Prints a datum on a line, unless its definition refuses it.
pub(crate) fn say_datum<O: Sink>(
    form: &Definition,
    bytes: &[u8],
    delim: &[u8],
    out: &mut O,
) -> Reply
    requires { has_float form.now ≡ false }
    ensures shows { Shows (typed_text form.now bytes.now delim.now) result (O.written out.old) (O.written out.new) (O.fault_count out.old) (O.fault_count out.new) }
    ensures later { O.fault_count out.old ≤ O.fault_count out.new }
    ensures kept { O.kept out.old out.new }
    ensures sink { OutCounts result (O.fault_count out.old) (O.fault_count out.new) }
{
    if let Some(error) = check(form, bytes) {
        return Reply::Typed(error);
    }
    match write_datum_line(form, bytes, delim, out) {
        Ok(()) => Reply::Done,
        Err(_) => Reply::SinkFault,
    }
}

/// Why a record is not printed: the refusal of its key, or else that of its content.
pub(crate) fn misfit(
    key_form: &Definition,
    content_form: &Definition,
    key: &[u8],
    content: &[u8],
) -> Option<TypeError>
    requires key { has_float key_form.now ≡ false }
    requires content { has_float content_form.now ≡ false }
    ensures { result ≡ misfit_of (datum_fault key_form.now key.now) (datum_fault content_form.now content.now) }
{
    match check(key_form, key) {
        Some(error) => Some(error),
        None => check(content_form, content),
    }
}

/// Puts a record's line behind what waits.
pub(crate) fn put_pair_line<O: Sink>(
    page: &mut Page,
    key_form: &Definition,
    content_form: &Definition,
    key: &[u8],
    content: &[u8],
    delim: &[u8],
    out: &mut O,
) -> Result<(), Failed>
    requires key { has_float key_form.now ≡ false }
    requires content { has_float content_form.now ≡ false }
    requires key_fits { datum_fault key_form.now key.now ≡ None }
    requires content_fits { datum_fault content_form.now content.now ≡ None }
    ensures bytes { Pends (O.written out.old) page.old.items (O.written out.new) page.new.items result (datum_text key_form.now key.now delim.now ++ (32 ∷ [] ++ line (datum_text content_form.now content.now delim.now))) }
    ensures cause { HasCause (O.fault_count out.old) (O.fault_count out.new) result }
    ensures kept { O.kept out.old out.new }
{
    put_typed(page, key_form, key, delim, out)?;
    put(page, out, b" ")?;
    put_datum_line(page, content_form, content, delim, out)
}

fn write_pair_line<O: Sink>(
    key_form: &Definition,
    content_form: &Definition,
    key: &[u8],
    content: &[u8],
    delim: &[u8],
    out: &mut O,
) -> Result<(), Failed>
    requires key { has_float key_form.now ≡ false }
    requires content { has_float content_form.now ≡ false }
    requires key_fits { datum_fault key_form.now key.now ≡ None }
    requires content_fits { datum_fault content_form.now content.now ≡ None }
    ensures bytes { Puts (O.written out.old) (O.written out.new) result (datum_text key_form.now key.now delim.now ++ (32 ∷ [] ++ line (datum_text content_form.now content.now delim.now))) }
    ensures cause { HasCause (O.fault_count out.old) (O.fault_count out.new) result }
    ensures kept { O.kept out.old out.new }
{
    let mut page = Page::new();
    put_pair_line(&mut page, key_form, content_form, key, content, delim, out)?;
    flush(&mut page, out)
}

/// Prints a record on a line, unless its key's or its content's definition refuses it.
pub(crate) fn say_pair<O: Sink>(
    key_form: &Definition,
    content_form: &Definition,
    key: &[u8],
    content: &[u8],
    delim: &[u8],
    out: &mut O,
) -> Reply
    requires key { has_float key_form.now ≡ false }
    requires content { has_float content_form.now ≡ false }
    ensures shows { Shows (spaced (typed_text key_form.now key.now delim.now) (typed_text content_form.now content.now delim.now)) result (O.written out.old) (O.written out.new) (O.fault_count out.old) (O.fault_count out.new) }
    ensures later { O.fault_count out.old ≤ O.fault_count out.new }
    ensures kept { O.kept out.old out.new }
    ensures sink { OutCounts result (O.fault_count out.old) (O.fault_count out.new) }
{
    if let Some(error) = misfit(key_form, content_form, key, content) {
        return Reply::Typed(error);
    }
    match write_pair_line(key_form, content_form, key, content, delim, out) {
        Ok(()) => Reply::Done,
        Err(_) => Reply::SinkFault,
    }
}
