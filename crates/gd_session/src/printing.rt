//! Lines that commands print.

ghost use Rattle.std.specs.Prelude.{◌≡◌, ◌≤◌, ◌∷◌, ◌++◌, [], codes};
ghost use Rattle.std.specs.Fmt.{decimal};
ghost use Rattle.gd_base.specs.Causes.{HasCause};
ghost use Rattle.gd_base.specs.Pages.{Pends};
ghost use Rattle.gd_base.specs.Streams.{Puts};
ghost use Rattle.gd_session.specs.Counted.{OutCounts};
ghost use Rattle.gd_session.specs.Said.{Said};
ghost use Rattle.gd_session.specs.Texts.{counts_text, line};

use crate::Reply;
use crate::counts::Counts;
use gd_base::{Failed, Page, Sink, flush, put, write_all};

/// Prints a text.
pub(crate) fn say_text<O: Sink>(text: &[u8], out: &mut O) -> Reply
    ensures said { Said text.now result (O.written out.old) (O.written out.new) (O.fault_count out.old) (O.fault_count out.new) }
    ensures later { O.fault_count out.old ≤ O.fault_count out.new }
    ensures kept { O.kept out.old out.new }
    ensures sink { OutCounts result (O.fault_count out.old) (O.fault_count out.new) }
{
    match write_all(out, text) {
        Ok(()) => Reply::Done,
        Err(_) => Reply::SinkFault,
    }
}

/// Puts the decimal text of a number behind what waits.
pub(crate) fn put_number<O: Sink>(page: &mut Page, number: u64, out: &mut O) -> Result<(), Failed>
    ensures bytes { Pends (O.written out.old) page.old.items (O.written out.new) page.new.items result (decimal number) }
    ensures cause { HasCause (O.fault_count out.old) (O.fault_count out.new) result }
    ensures kept { O.kept out.old out.new }
{
    let mut digits = itoa::Buffer::new();
    put(page, out, digits.format(number).as_bytes())
}

/// Puts the line of a number behind what waits.
pub(crate) fn put_number_line<O: Sink>(
    page: &mut Page,
    number: u64,
    out: &mut O,
) -> Result<(), Failed>
    ensures bytes { Pends (O.written out.old) page.old.items (O.written out.new) page.new.items result (line (decimal number)) }
    ensures cause { HasCause (O.fault_count out.old) (O.fault_count out.new) result }
    ensures kept { O.kept out.old out.new }
{
    put_number(page, number, out)?;
    put(page, out, b"\n")
}

fn write_number_line<O: Sink>(number: u64, out: &mut O) -> Result<(), Failed>
    ensures bytes { Puts (O.written out.old) (O.written out.new) result (line (decimal number)) }
    ensures cause { HasCause (O.fault_count out.old) (O.fault_count out.new) result }
    ensures kept { O.kept out.old out.new }
{
    let mut page = Page::new();
    put_number_line(&mut page, number, out)?;
    flush(&mut page, out)
}

/// Prints a number on a line.
pub(crate) fn say_number<O: Sink>(number: u64, out: &mut O) -> Reply
    ensures said { Said (line (decimal number)) result (O.written out.old) (O.written out.new) (O.fault_count out.old) (O.fault_count out.new) }
    ensures later { O.fault_count out.old ≤ O.fault_count out.new }
    ensures kept { O.kept out.old out.new }
    ensures sink { OutCounts result (O.fault_count out.old) (O.fault_count out.new) }
{
    match write_number_line(number, out) {
        Ok(()) => Reply::Done,
        Err(_) => Reply::SinkFault,
    }
}

// The end of the line of a list of stores: the bytes.
fn put_size<O: Sink>(page: &mut Page, size: u64, out: &mut O) -> Result<(), Failed>
    ensures bytes { Pends (O.written out.old) page.old.items (O.written out.new) page.new.items result (codes " bytes " ++ line (decimal size)) }
    ensures cause { HasCause (O.fault_count out.old) (O.fault_count out.new) result }
    ensures kept { O.kept out.old out.new }
{
    put(page, out, b" bytes ")?;
    put_number_line(page, size, out)
}

fn put_replaced<O: Sink>(page: &mut Page, counts: &Counts, out: &mut O) -> Result<(), Failed>
    ensures bytes { Pends (O.written out.old) page.old.items (O.written out.new) page.new.items result (codes " replaced " ++ (decimal counts.now.replaced ++ (codes " bytes " ++ line (decimal counts.now.bytes)))) }
    ensures cause { HasCause (O.fault_count out.old) (O.fault_count out.new) result }
    ensures kept { O.kept out.old out.new }
{
    put(page, out, b" replaced ")?;
    put_number(page, counts.replaced, out)?;
    put_size(page, counts.bytes, out)
}

fn put_new<O: Sink>(page: &mut Page, counts: &Counts, out: &mut O) -> Result<(), Failed>
    ensures bytes { Pends (O.written out.old) page.old.items (O.written out.new) page.new.items result (codes " new " ++ (decimal counts.now.added ++ (codes " replaced " ++ (decimal counts.now.replaced ++ (codes " bytes " ++ line (decimal counts.now.bytes)))))) }
    ensures cause { HasCause (O.fault_count out.old) (O.fault_count out.new) result }
    ensures kept { O.kept out.old out.new }
{
    put(page, out, b" new ")?;
    put_number(page, counts.added, out)?;
    put_replaced(page, counts, out)
}

fn put_counts<O: Sink>(
    page: &mut Page,
    count: u64,
    counts: &Counts,
    out: &mut O,
) -> Result<(), Failed>
    ensures bytes { Pends (O.written out.old) page.old.items (O.written out.new) page.new.items result (counts_text count counts.now) }
    ensures cause { HasCause (O.fault_count out.old) (O.fault_count out.new) result }
    ensures kept { O.kept out.old out.new }
{
    put(page, out, b"fill ")?;
    put_number(page, count, out)?;
    put_new(page, counts, out)
}

fn write_counts<O: Sink>(count: u64, counts: &Counts, out: &mut O) -> Result<(), Failed>
    ensures bytes { Puts (O.written out.old) (O.written out.new) result (counts_text count counts.now) }
    ensures cause { HasCause (O.fault_count out.old) (O.fault_count out.new) result }
    ensures kept { O.kept out.old out.new }
{
    let mut page = Page::new();
    put_counts(&mut page, count, counts, out)?;
    flush(&mut page, out)
}

/// Prints what a list of stores did.
pub(crate) fn say_counts<O: Sink>(count: u64, counts: &Counts, out: &mut O) -> Reply
    ensures said { Said (counts_text count counts.now) result (O.written out.old) (O.written out.new) (O.fault_count out.old) (O.fault_count out.new) }
    ensures later { O.fault_count out.old ≤ O.fault_count out.new }
    ensures kept { O.kept out.old out.new }
    ensures sink { OutCounts result (O.fault_count out.old) (O.fault_count out.new) }
{
    match write_counts(count, counts, out) {
        Ok(()) => Reply::Done,
        Err(_) => Reply::SinkFault,
    }
}
