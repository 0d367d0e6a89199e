//! The writer of binary dumps, which takes no memory and keeps nothing between its calls.

ghost use Rattle.std.specs.Prelude.{◌≡◌, [], length};
ghost use Rattle.std.specs.Int.{w32, to_be_bytes};
ghost use Rattle.gd_base.specs.Causes.{HasCause};
ghost use Rattle.gd_base.specs.Pages.{Pends};
ghost use Rattle.gd_base.specs.Streams.{Puts};
ghost use Rattle.gd_dump.specs.Binary.{binary_head, binary_pair, sized};

use gd_base::{Failed, Format, Name, Page, Sink, flush, put};

fn put_length<O: Sink>(page: &mut Page, len: usize, out: &mut O) -> Result<(), Failed>
    ensures bytes { Pends (O.written out.old) page.old.items (O.written out.new) page.new.items result (to_be_bytes w32 len) }
    ensures cause { HasCause (O.fault_count out.old) (O.fault_count out.new) result }
    ensures kept { O.kept out.old out.new }
{
    let [_, _, _, _, a, b, c, d] = (len as u64).to_be_bytes();
    put(page, out, &[a, b, c, d])
}

fn put_sized<O: Sink>(page: &mut Page, bytes: &[u8], out: &mut O) -> Result<(), Failed>
    ensures bytes { Pends (O.written out.old) page.old.items (O.written out.new) page.new.items result (sized bytes.now) }
    ensures cause { HasCause (O.fault_count out.old) (O.fault_count out.new) result }
    ensures kept { O.kept out.old out.new }
{
    put_length(page, bytes.len(), out)?;
    put(page, out, bytes)
}

/// The calls write the parts of a dump one after another: one head and the pairs. A binary dump has no count, so its
/// end is empty. The calls are divided as those of `AsciiWriter`.
///
/// Each length is four bytes, the highest first, so a key or a value has fewer than 2^32 bytes; of a longer one the four
/// lowest bytes of its length would stand there. GNU dbm writes such lengths where its `long` has four bytes.
pub struct BinaryWriter;

impl BinaryWriter {
    /// The head, which says nothing of the file.
    pub fn put_head<O: Sink>(
        page: &mut Page,
        _format: Format,
        _file: &Name,
        out: &mut O,
    ) -> Result<(), Failed>
        ensures bytes { Pends (O.written out.old) page.old.items (O.written out.new) page.new.items result binary_head }
        ensures cause { HasCause (O.fault_count out.old) (O.fault_count out.new) result }
        ensures kept { O.kept out.old out.new }
    {
        put(
            page,
            out,
            b"!\r\n! GDBM FLAT FILE DUMP -- THIS IS NOT A TEXT FILE\r\n! GDBM version 1.23\r\n!\r\n",
        )
    }

    /// One record.
    pub fn put_pair<O: Sink>(
        page: &mut Page,
        key: &[u8],
        value: &[u8],
        out: &mut O,
    ) -> Result<(), Failed>
        ensures bytes { Pends (O.written out.old) page.old.items (O.written out.new) page.new.items result (binary_pair key.now value.now) }
        ensures cause { HasCause (O.fault_count out.old) (O.fault_count out.new) result }
        ensures kept { O.kept out.old out.new }
    {
        put_sized(page, key, out)?;
        put_sized(page, value, out)
    }

    /// The end, which has no bytes.
    pub fn put_end<O: Sink>(page: &mut Page, _count: u64, out: &mut O) -> Result<(), Failed>
        ensures bytes { Pends (O.written out.old) page.old.items (O.written out.new) page.new.items result [] }
        ensures cause { HasCause (O.fault_count out.old) (O.fault_count out.new) result }
        ensures kept { O.kept out.old out.new }
    {
        Ok(())
    }

    /// As `put_head`, written at once.
    pub fn head<O: Sink>(format: Format, file: &Name, out: &mut O) -> Result<(), Failed>
        ensures bytes { Puts (O.written out.old) (O.written out.new) result binary_head }
        ensures cause { HasCause (O.fault_count out.old) (O.fault_count out.new) result }
        ensures kept { O.kept out.old out.new }
    {
        let mut page = Page::new();
        BinaryWriter::put_head(&mut page, format, file, out)?;
        flush(&mut page, out)
    }

    /// As `put_pair`, written at once.
    pub fn pair<O: Sink>(key: &[u8], value: &[u8], out: &mut O) -> Result<(), Failed>
        ensures bytes { Puts (O.written out.old) (O.written out.new) result (binary_pair key.now value.now) }
        ensures cause { HasCause (O.fault_count out.old) (O.fault_count out.new) result }
        ensures kept { O.kept out.old out.new }
    {
        let mut page = Page::new();
        BinaryWriter::put_pair(&mut page, key, value, out)?;
        flush(&mut page, out)
    }

    /// As `put_end`.
    pub fn end<O: Sink>(_count: u64, out: &mut O) -> Result<(), Failed>
        ensures bytes { Puts (O.written out.old) (O.written out.new) result [] }
        ensures cause { HasCause (O.fault_count out.old) (O.fault_count out.new) result }
        ensures kept { O.kept out.old out.new }
        ensures same { out.new ≡ out.old }
    {
        Ok(())
    }
}
