//! The parts of a dump, in the form that is asked for.

ghost use Rattle.gd_base.specs.Causes.{HasCause};
ghost use Rattle.gd_base.specs.Pages.{Pends};
ghost use Rattle.gd_dumping.specs.Forms.{end_in, head_in, pair_in};

use gd_base::{Failed, Format, Name, Page, Sink};
use gd_dump::{AsciiWriter, BinaryWriter};
use gd_words::Form;

/// Puts the head behind what waits.
pub fn put_head<O: Sink>(
    page: &mut Page,
    form: Form,
    format: Format,
    name: &Name,
    out: &mut O,
) -> Result<(), Failed>
    ensures bytes { Pends (O.written out.old) page.old.items (O.written out.new) page.new.items result (head_in form format name.now) }
    ensures cause { HasCause (O.fault_count out.old) (O.fault_count out.new) result }
    ensures kept { O.kept out.old out.new }
{
    match form {
        Form::Ascii => AsciiWriter::put_head(page, format, name, out),
        Form::Binary => BinaryWriter::put_head(page, format, name, out),
    }
}

/// Puts one record.
pub fn put_pair<O: Sink>(
    page: &mut Page,
    form: Form,
    key: &[u8],
    value: &[u8],
    out: &mut O,
) -> Result<(), Failed>
    ensures bytes { Pends (O.written out.old) page.old.items (O.written out.new) page.new.items result (pair_in form key.now value.now) }
    ensures cause { HasCause (O.fault_count out.old) (O.fault_count out.new) result }
    ensures kept { O.kept out.old out.new }
{
    match form {
        Form::Ascii => AsciiWriter::put_pair(page, key, value, out),
        Form::Binary => BinaryWriter::put_pair(page, key, value, out),
    }
}

/// Puts the end of a dump of so many records.
pub fn put_end<O: Sink>(page: &mut Page, form: Form, count: u64, out: &mut O) -> Result<(), Failed>
    ensures bytes { Pends (O.written out.old) page.old.items (O.written out.new) page.new.items result (end_in form count) }
    ensures cause { HasCause (O.fault_count out.old) (O.fault_count out.new) result }
    ensures kept { O.kept out.old out.new }
{
    match form {
        Form::Ascii => AsciiWriter::put_end(page, count, out),
        Form::Binary => BinaryWriter::put_end(page, count, out),
    }
}
