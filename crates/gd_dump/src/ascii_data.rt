//! The lines of one datum in an ASCII dump.

ghost use Rattle.std.specs.Prelude.{◌≡◌, ◌≤◌, ◌++◌, ◌∷◌, [], length};
ghost use Rattle.std.specs.Fmt.{decimal};
ghost use Rattle.gd_base.specs.Causes.{HasCause};
ghost use Rattle.gd_base.specs.Pages.{Pends};
ghost use Rattle.gd_dump.specs.Ascii.{base64_text, datum_text, lines_of};

use base64::engine::general_purpose::STANDARD;
use gd_base::{Failed, Page, Sink, put};

/// How many bytes the 76 characters of a full line stand for.
const BYTES_A_LINE: usize = 57;

fn put_line<O: Sink>(page: &mut Page, bytes: &[u8], out: &mut O) -> Result<(), Failed>
    requires { length bytes.now ≤ 57 }
    ensures bytes { Pends (O.written out.old) page.old.items (O.written out.new) page.new.items result (base64_text bytes.now ++ 10 ∷ []) }
    ensures cause { HasCause (O.fault_count out.old) (O.fault_count out.new) result }
    ensures kept { O.kept out.old out.new }
{
    let mut line = [0u8; 77];
    let len = STANDARD.encode_slice(bytes, &mut line).unwrap_or(0);
    line[len] = b'\n';
    put(page, out, &line[..len + 1])
}

fn put_lines<O: Sink>(page: &mut Page, bytes: &[u8], out: &mut O) -> Result<(), Failed>
    ensures bytes { Pends (O.written out.old) page.old.items (O.written out.new) page.new.items result (lines_of (base64_text bytes.now)) }
    ensures cause { HasCause (O.fault_count out.old) (O.fault_count out.new) result }
    ensures kept { O.kept out.old out.new }
{
    let mut at = 0;
    while at < bytes.len() {
        let end = bytes.len().min(at + BYTES_A_LINE);
        put_line(page, &bytes[at..end], out)?;
        at = end;
    }
    Ok(())
}

pub fn put_number<O: Sink>(page: &mut Page, n: u64, out: &mut O) -> Result<(), Failed>
    ensures bytes { Pends (O.written out.old) page.old.items (O.written out.new) page.new.items result (decimal n) }
    ensures cause { HasCause (O.fault_count out.old) (O.fault_count out.new) result }
    ensures kept { O.kept out.old out.new }
{
    let mut digits = itoa::Buffer::new();
    put(page, out, digits.format(n).as_bytes())
}

pub fn put_datum<O: Sink>(page: &mut Page, bytes: &[u8], out: &mut O) -> Result<(), Failed>
    ensures bytes { Pends (O.written out.old) page.old.items (O.written out.new) page.new.items result (datum_text bytes.now) }
    ensures cause { HasCause (O.fault_count out.old) (O.fault_count out.new) result }
    ensures kept { O.kept out.old out.new }
{
    put(page, out, b"#:len=")?;
    put_number(page, bytes.len() as u64, out)?;
    put(page, out, b"\n")?;
    put_lines(page, bytes, out)
}
