//! Bytes and numbers as they are printed.

ghost use Rattle.std.specs.Prelude.{◌≡◌};
ghost use Rattle.std.specs.Fmt.{signed_decimal};
ghost use Rattle.gd_base.specs.Causes.{HasCause};
ghost use Rattle.gd_base.specs.Pages.{Pends};
ghost use Rattle.gd_types.specs.Printing.{printed, printed_byte};

use gd_base::{Failed, Page, Sink, put};

fn put_byte<O: Sink>(page: &mut Page, byte: u8, out: &mut O) -> Result<(), Failed>
    ensures bytes { Pends (O.written out.old) page.old.items (O.written out.new) page.new.items result (printed_byte byte) }
    ensures cause { HasCause (O.fault_count out.old) (O.fault_count out.new) result }
    ensures kept { O.kept out.old out.new }
{
    if byte == b'"' || byte == b'\\' {
        return put(page, out, &[b'\\', byte]);
    }
    if 0x20 <= byte && byte <= 0x7e {
        return put(page, out, &[byte]);
    }
    let octal = [
        b'\\',
        b'0' + byte / 64,
        b'0' + byte / 8 % 8,
        b'0' + byte % 8,
    ];
    put(page, out, &octal)
}

/// Puts bytes as they are printed behind what waits in a page: those from 0x20 to 0x7e as they are, with a backslash before
/// `"` and `\`, and the others as a backslash and three octal digits.
pub fn put_printed<O: Sink>(page: &mut Page, bytes: &[u8], out: &mut O) -> Result<(), Failed>
    ensures bytes { Pends (O.written out.old) page.old.items (O.written out.new) page.new.items result (printed bytes.now) }
    ensures cause { HasCause (O.fault_count out.old) (O.fault_count out.new) result }
    ensures kept { O.kept out.old out.new }
{
    for byte in bytes {
        put_byte(page, *byte, out)?;
    }
    Ok(())
}

pub fn put_decimal<O: Sink>(page: &mut Page, number: i128, out: &mut O) -> Result<(), Failed>
    ensures bytes { Pends (O.written out.old) page.old.items (O.written out.new) page.new.items result (signed_decimal number) }
    ensures cause { HasCause (O.fault_count out.old) (O.fault_count out.new) result }
    ensures kept { O.kept out.old out.new }
{
    let mut digits = itoa::Buffer::new();
    put(page, out, digits.format(number).as_bytes())
}
