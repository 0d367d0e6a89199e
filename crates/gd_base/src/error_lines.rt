//! The texts of errors.

ghost use Rattle.std.specs.Prelude.{◌≡◌, ◌∷◌, ◌++◌};
ghost use Rattle.std.specs.Fmt.{decimal};
ghost use Rattle.gd_base.specs.Causes.{HasCause};
ghost use Rattle.gd_base.specs.Errors.{error_text, name_of, number_of, spaced, values_text, which_text};
ghost use Rattle.gd_base.specs.Pages.{Pends};

use crate::{DbError, Failed, Page, Sink, Which, put};

fn put_decimal<O: Sink>(page: &mut Page, n: u64, out: &mut O) -> Result<(), Failed>
    ensures bytes { Pends (O.written out.old) page.old.items (O.written out.new) page.new.items result (decimal n) }
    ensures cause { HasCause (O.fault_count out.old) (O.fault_count out.new) result }
    ensures kept { O.kept out.old out.new }
{
    let mut digits = itoa::Buffer::new();
    put(page, out, digits.format(n).as_bytes())
}

fn put_word<O: Sink>(page: &mut Page, error: DbError, out: &mut O) -> Result<(), Failed>
    ensures bytes { Pends (O.written out.old) page.old.items (O.written out.new) page.new.items result (name_of error) }
    ensures cause { HasCause (O.fault_count out.old) (O.fault_count out.new) result }
    ensures kept { O.kept out.old out.new }
{
    put(page, out, error.name().as_bytes())
}

// A number after a space.
fn put_spaced<O: Sink>(page: &mut Page, n: u64, out: &mut O) -> Result<(), Failed>
    ensures bytes { Pends (O.written out.old) page.old.items (O.written out.new) page.new.items result (spaced n) }
    ensures cause { HasCause (O.fault_count out.old) (O.fault_count out.new) result }
    ensures kept { O.kept out.old out.new }
{
    put(page, out, b" ")?;
    put_decimal(page, n, out)
}

fn put_two<O: Sink>(page: &mut Page, m: u64, n: u64, out: &mut O) -> Result<(), Failed>
    ensures bytes { Pends (O.written out.old) page.old.items (O.written out.new) page.new.items result (spaced m ++ spaced n) }
    ensures cause { HasCause (O.fault_count out.old) (O.fault_count out.new) result }
    ensures kept { O.kept out.old out.new }
{
    put_spaced(page, m, out)?;
    put_spaced(page, n, out)
}

fn put_which<O: Sink>(page: &mut Page, which: Which, out: &mut O) -> Result<(), Failed>
    ensures bytes { Pends (O.written out.old) page.old.items (O.written out.new) page.new.items result (which_text which) }
    ensures cause { HasCause (O.fault_count out.old) (O.fault_count out.new) result }
    ensures kept { O.kept out.old out.new }
{
    match which {
        Which::Only => put(page, out, b""),
        Which::Even => put(page, out, b" even"),
        Which::Odd => put(page, out, b" odd"),
    }
}

fn put_values<O: Sink>(page: &mut Page, error: DbError, out: &mut O) -> Result<(), Failed>
    ensures bytes { Pends (O.written out.old) page.old.items (O.written out.new) page.new.items result (values_text error) }
    ensures cause { HasCause (O.fault_count out.old) (O.fault_count out.new) result }
    ensures kept { O.kept out.old out.new }
{
    match error {
        DbError::BadDirEntry(n)
        | DbError::BadBucket(n)
        | DbError::BadHashTable(n)
        | DbError::BadAvail(n) => put_spaced(page, n, out),
        DbError::BadHashEntry(at, slot) => put_two(page, at, u64::from(slot), out),
        DbError::Exists(which) => put_which(page, which, out),
        DbError::ClockStood(old, new) => put_two(page, old, new, out),
        _ => put(page, out, b""),
    }
}

fn put_name<O: Sink>(page: &mut Page, error: DbError, out: &mut O) -> Result<(), Failed>
    ensures bytes { Pends (O.written out.old) page.old.items (O.written out.new) page.new.items result (32 ∷ name_of error) }
    ensures cause { HasCause (O.fault_count out.old) (O.fault_count out.new) result }
    ensures kept { O.kept out.old out.new }
{
    put(page, out, b" ")?;
    put_word(page, error, out)
}

fn put_number<O: Sink>(page: &mut Page, error: DbError, out: &mut O) -> Result<(), Failed>
    ensures bytes { Pends (O.written out.old) page.old.items (O.written out.new) page.new.items result (spaced (number_of error)) }
    ensures cause { HasCause (O.fault_count out.old) (O.fault_count out.new) result }
    ensures kept { O.kept out.old out.new }
{
    put_spaced(page, u64::from(error.number()), out)
}

/// Puts the text of an error, as `error 11 BadHashEntry 1024 7`, behind what waits in a page.
pub fn put_error<O: Sink>(page: &mut Page, error: DbError, out: &mut O) -> Result<(), Failed>
    ensures bytes { Pends (O.written out.old) page.old.items (O.written out.new) page.new.items result (error_text error) }
    ensures cause { HasCause (O.fault_count out.old) (O.fault_count out.new) result }
    ensures kept { O.kept out.old out.new }
{
    put(page, out, b"error")?;
    put_number(page, error, out)?;
    put_name(page, error, out)?;
    put_values(page, error, out)
}
