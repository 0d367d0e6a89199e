//! A page on the stack, in which bytes wait before they are written, so that a sink is asked once a page.

ghost use Rattle.std.specs.Prelude.{◌≡◌, [], OnOk};
ghost use Rattle.gd_base.specs.Causes.{HasCause};
ghost use Rattle.gd_base.specs.Streams.{Puts};
ghost use Rattle.gd_base.specs.Pages.{Pends};

use crate::{Failed, Sink, write_all};
use arrayvec::ArrayVec;

/// Bytes that wait.
pub type Page = ArrayVec<u8, 4096>;

/// Writes what waits. After a failure some front of it is written, and the page is not to be used again.
pub fn flush<O: Sink>(page: &mut Page, out: &mut O) -> Result<(), Failed>
    ensures bytes { Puts (O.written out.old) (O.written out.new) result page.old.items }
    ensures empty { OnOk result (page.new.items ≡ []) }
    ensures cause { HasCause (O.fault_count out.old) (O.fault_count out.new) result }
    ensures kept { O.kept out.old out.new }
{
    write_all(out, page.as_slice())?;
    page.clear();
    Ok(())
}

// Puts bytes into a page that is empty, or writes them at once where they have no room.
fn put_first<O: Sink>(page: &mut Page, out: &mut O, bytes: &[u8]) -> Result<(), Failed>
    requires { page.old.items ≡ [] }
    ensures bytes { Pends (O.written out.old) page.old.items (O.written out.new) page.new.items result bytes.now }
    ensures cause { HasCause (O.fault_count out.old) (O.fault_count out.new) result }
    ensures kept { O.kept out.old out.new }
{
    match page.try_extend_from_slice(bytes) {
        Ok(()) => Ok(()),
        Err(_) => write_all(out, bytes),
    }
}

/// Puts bytes behind those that wait. After a failure some front of all of them is written, and the page is not to be
/// used again.
pub fn put<O: Sink>(page: &mut Page, out: &mut O, bytes: &[u8]) -> Result<(), Failed>
    ensures bytes { Pends (O.written out.old) page.old.items (O.written out.new) page.new.items result bytes.now }
    ensures cause { HasCause (O.fault_count out.old) (O.fault_count out.new) result }
    ensures kept { O.kept out.old out.new }
{
    match page.try_extend_from_slice(bytes) {
        Ok(()) => Ok(()),
        Err(_) => {
            flush(page, out)?;
            put_first(page, out, bytes)
        }
    }
}
