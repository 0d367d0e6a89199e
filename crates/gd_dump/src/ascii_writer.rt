//! The writer of ASCII dumps, which takes no memory and keeps nothing between its calls.

ghost use Rattle.std.specs.Prelude.{◌≡◌, ◌++◌, ◌∷◌, [], codes};
ghost use Rattle.std.specs.List.{list_all};
ghost use Rattle.gd_base.specs.Causes.{HasCause};
ghost use Rattle.gd_base.specs.Pages.{Pends};
ghost use Rattle.gd_base.specs.Streams.{Puts};
ghost use Rattle.gd_dump.specs.Ascii.{end_text, file_line, file_part, format_text, head_text, is_plain, is_shown, pair_text};

use crate::ascii_data::{put_datum, put_number};
use gd_base::{Failed, Format, Name, Page, Sink, flush, put};

fn last_part(name: &[u8]) -> &[u8]
    ensures { result.now ≡ file_part name.now }
{
    match name.iter().rposition(|b| *b == b'/') {
        Some(i) => &name[i + 1..],
        None => name,
    }
}

fn is_plain_byte(b: u8) -> bool
    ensures { result ≡ is_plain b }
{
    b.is_ascii_alphanumeric()
        || b == b'.'
        || b == b'_'
        || b == b'-'
        || b == b'+'
        || b == b'@'
        || b == b'%'
}

fn all_plain(part: &[u8]) -> bool
    ensures { result ≡ list_all is_plain part.now }
{
    part.iter().all(|b| is_plain_byte(*b))
}

fn is_shown_part(part: &[u8]) -> bool
    ensures { result ≡ is_shown part.now }
{
    !part.is_empty() && all_plain(part)
}

fn put_part<O: Sink>(page: &mut Page, part: &[u8], out: &mut O) -> Result<(), Failed>
    ensures bytes { Pends (O.written out.old) page.old.items (O.written out.new) page.new.items result (codes "#:file=" ++ (part.now ++ 10 ∷ [])) }
    ensures cause { HasCause (O.fault_count out.old) (O.fault_count out.new) result }
    ensures kept { O.kept out.old out.new }
{
    put(page, out, b"#:file=")?;
    put(page, out, part)?;
    put(page, out, b"\n")
}

fn put_file_line<O: Sink>(page: &mut Page, file: &Name, out: &mut O) -> Result<(), Failed>
    ensures bytes { Pends (O.written out.old) page.old.items (O.written out.new) page.new.items result (file_line file.now) }
    ensures cause { HasCause (O.fault_count out.old) (O.fault_count out.new) result }
    ensures kept { O.kept out.old out.new }
{
    let part = last_part(file.as_str().as_bytes());
    if is_shown_part(part) {
        put_part(page, part, out)
    } else {
        Ok(())
    }
}

fn put_format<O: Sink>(page: &mut Page, format: Format, out: &mut O) -> Result<(), Failed>
    ensures bytes { Pends (O.written out.old) page.old.items (O.written out.new) page.new.items result (format_text format) }
    ensures cause { HasCause (O.fault_count out.old) (O.fault_count out.new) result }
    ensures kept { O.kept out.old out.new }
{
    match format {
        Format::Standard => put(page, out, b"#:format=standard\n# End of header\n"),
        Format::Numsync => put(page, out, b"#:format=numsync\n# End of header\n"),
    }
}

/// The calls write the parts of a dump one after another: one head, the pairs, and one end.
///
/// A call whose name begins with `put_` leaves its bytes in the caller's page, which is written as it fills, so that
/// a whole dump goes out by pages; the caller ends it with `flush`. After a failure the page is not to be used again.
/// Each of the other calls writes its part at once.
pub struct AsciiWriter;

impl AsciiWriter {
    /// The head. It names the last part of the file's name, but not where that part is empty or has other characters
    /// than ASCII letters and digits and `. _ - + @ %`.
    pub fn put_head<O: Sink>(
        page: &mut Page,
        format: Format,
        file: &Name,
        out: &mut O,
    ) -> Result<(), Failed>
        ensures bytes { Pends (O.written out.old) page.old.items (O.written out.new) page.new.items result (head_text format file.now) }
        ensures cause { HasCause (O.fault_count out.old) (O.fault_count out.new) result }
        ensures kept { O.kept out.old out.new }
    {
        put(
            page,
            out,
            b"# GDBM dump file created by gdbm_dump\n#:version=1.1\n",
        )?;
        put_file_line(page, file, out)?;
        put_format(page, format, out)
    }

    /// One record, of any sizes.
    pub fn put_pair<O: Sink>(
        page: &mut Page,
        key: &[u8],
        value: &[u8],
        out: &mut O,
    ) -> Result<(), Failed>
        ensures bytes { Pends (O.written out.old) page.old.items (O.written out.new) page.new.items result (pair_text key.now value.now) }
        ensures cause { HasCause (O.fault_count out.old) (O.fault_count out.new) result }
        ensures kept { O.kept out.old out.new }
    {
        put_datum(page, key, out)?;
        put_datum(page, value, out)
    }

    /// The end, with the number of records before it.
    pub fn put_end<O: Sink>(page: &mut Page, count: u64, out: &mut O) -> Result<(), Failed>
        ensures bytes { Pends (O.written out.old) page.old.items (O.written out.new) page.new.items result (end_text count) }
        ensures cause { HasCause (O.fault_count out.old) (O.fault_count out.new) result }
        ensures kept { O.kept out.old out.new }
    {
        put(page, out, b"#:count=")?;
        put_number(page, count, out)?;
        put(page, out, b"\n# End of data\n")
    }

    /// As `put_head`, written at once.
    pub fn head<O: Sink>(format: Format, file: &Name, out: &mut O) -> Result<(), Failed>
        ensures bytes { Puts (O.written out.old) (O.written out.new) result (head_text format file.now) }
        ensures cause { HasCause (O.fault_count out.old) (O.fault_count out.new) result }
        ensures kept { O.kept out.old out.new }
    {
        let mut page = Page::new();
        AsciiWriter::put_head(&mut page, format, file, out)?;
        flush(&mut page, out)
    }

    /// As `put_pair`, written at once.
    pub fn pair<O: Sink>(key: &[u8], value: &[u8], out: &mut O) -> Result<(), Failed>
        ensures bytes { Puts (O.written out.old) (O.written out.new) result (pair_text key.now value.now) }
        ensures cause { HasCause (O.fault_count out.old) (O.fault_count out.new) result }
        ensures kept { O.kept out.old out.new }
    {
        let mut page = Page::new();
        AsciiWriter::put_pair(&mut page, key, value, out)?;
        flush(&mut page, out)
    }

    /// As `put_end`, written at once.
    pub fn end<O: Sink>(count: u64, out: &mut O) -> Result<(), Failed>
        ensures bytes { Puts (O.written out.old) (O.written out.new) result (end_text count) }
        ensures cause { HasCause (O.fault_count out.old) (O.fault_count out.new) result }
        ensures kept { O.kept out.old out.new }
    {
        let mut page = Page::new();
        AsciiWriter::put_end(&mut page, count, out)?;
        flush(&mut page, out)
    }
}
