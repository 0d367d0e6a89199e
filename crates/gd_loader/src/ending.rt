//! How a run of the loader ends, and what is said of it on standard error.

ghost use Rattle.std.specs.Prelude.{◌≡◌, ◌≤◌, ◌∷◌, ◌++◌, [], codes};
ghost use Rattle.std.specs.Fmt.{decimal};
ghost use Rattle.gd_base.specs.Causes.{HasCause};
ghost use Rattle.gd_base.specs.Errors.{error_text};
ghost use Rattle.gd_base.specs.Pages.{Pends};
ghost use Rattle.gd_base.specs.Streams.{Puts};
ghost use Rattle.gd_loader.specs.Ends.{Says, kind_text, line_of, place_text, status_of, status_untold};

use gd_base::{DbError, Failed, Page, Sink, flush, put, put_error};
use gd_dump_reading::DumpKind;

/// How a run of the loader ended.
#[derive(Clone, Copy, Debug, PartialEq, Eq)]
pub enum RunEnd {
    /// The dump was stored to its end, and the database was synced.
    Loaded,
    /// The words are refused.
    Misused,
    /// The dump's file or the database was refused, a pair was, or the vault failed.
    Refused(DbError),
    /// The dump is refused, at a place.
    Damaged(DumpKind, u64),
    /// Standard input failed.
    InputFailed,
    /// The input has 2^32 bytes, and the dump isn't at its end there.
    TooLong,
    /// No memory was found.
    Starved,
}

impl RunEnd {
    fn status(self) -> u8
        ensures { result ≡ status_of self }
    {
        match self {
            RunEnd::Loaded => 0,
            RunEnd::Misused => 3,
            RunEnd::Starved => 4,
            RunEnd::Refused(_) | RunEnd::Damaged(_, _) | RunEnd::InputFailed | RunEnd::TooLong => 1,
        }
    }

    // The status where the line can't be written.
    fn status_untold(self) -> u8
        ensures { result ≡ status_untold self }
    {
        match self {
            RunEnd::Misused => 3,
            _ => 1,
        }
    }
}

// The error, and the end of the line.
fn put_error_line<E: Sink>(page: &mut Page, error: DbError, err: &mut E) -> Result<(), Failed>
    ensures bytes { Pends (E.written err.old) page.old.items (E.written err.new) page.new.items result (error_text error ++ 10 ∷ []) }
    ensures cause { HasCause (E.fault_count err.old) (E.fault_count err.new) result }
    ensures kept { E.kept err.old err.new }
{
    put_error(page, error, err)?;
    put(page, err, b"\n")
}

fn put_refusal<E: Sink>(page: &mut Page, error: DbError, err: &mut E) -> Result<(), Failed>
    ensures bytes { Pends (E.written err.old) page.old.items (E.written err.new) page.new.items result (codes "gdbm_load: " ++ (error_text error ++ 10 ∷ [])) }
    ensures cause { HasCause (E.fault_count err.old) (E.fault_count err.new) result }
    ensures kept { E.kept err.old err.new }
{
    put(page, err, b"gdbm_load: ")?;
    put_error_line(page, error, err)
}

fn put_kind<E: Sink>(page: &mut Page, kind: DumpKind, err: &mut E) -> Result<(), Failed>
    ensures bytes { Pends (E.written err.old) page.old.items (E.written err.new) page.new.items result (kind_text kind) }
    ensures cause { HasCause (E.fault_count err.old) (E.fault_count err.new) result }
    ensures kept { E.kept err.old err.new }
{
    match kind {
        DumpKind::Version => put(page, err, b"Version"),
        DumpKind::Parameter => put(page, err, b"Parameter"),
        DumpKind::Length => put(page, err, b"Length"),
        DumpKind::Base64 => put(page, err, b"Base64"),
        DumpKind::Count => put(page, err, b"Count"),
        DumpKind::Truncated => put(page, err, b"Truncated"),
        DumpKind::TooLarge => put(page, err, b"TooLarge"),
    }
}

fn put_decimal<E: Sink>(page: &mut Page, n: u64, err: &mut E) -> Result<(), Failed>
    ensures bytes { Pends (E.written err.old) page.old.items (E.written err.new) page.new.items result (decimal n) }
    ensures cause { HasCause (E.fault_count err.old) (E.fault_count err.new) result }
    ensures kept { E.kept err.old err.new }
{
    let mut digits = itoa::Buffer::new();
    put(page, err, digits.format(n).as_bytes())
}

// The place, and the end of the line.
fn put_place<E: Sink>(page: &mut Page, place: u64, err: &mut E) -> Result<(), Failed>
    ensures bytes { Pends (E.written err.old) page.old.items (E.written err.new) page.new.items result (decimal place ++ 10 ∷ []) }
    ensures cause { HasCause (E.fault_count err.old) (E.fault_count err.new) result }
    ensures kept { E.kept err.old err.new }
{
    put_decimal(page, place, err)?;
    put(page, err, b"\n")
}

fn put_at<E: Sink>(page: &mut Page, place: u64, err: &mut E) -> Result<(), Failed>
    ensures bytes { Pends (E.written err.old) page.old.items (E.written err.new) page.new.items result (codes " at " ++ (decimal place ++ 10 ∷ [])) }
    ensures cause { HasCause (E.fault_count err.old) (E.fault_count err.new) result }
    ensures kept { E.kept err.old err.new }
{
    put(page, err, b" at ")?;
    put_place(page, place, err)
}

fn put_kind_at<E: Sink>(
    page: &mut Page,
    kind: DumpKind,
    place: u64,
    err: &mut E,
) -> Result<(), Failed>
    ensures bytes { Pends (E.written err.old) page.old.items (E.written err.new) page.new.items result (place_text kind place) }
    ensures cause { HasCause (E.fault_count err.old) (E.fault_count err.new) result }
    ensures kept { E.kept err.old err.new }
{
    put_kind(page, kind, err)?;
    put_at(page, place, err)
}

fn put_damage<E: Sink>(
    page: &mut Page,
    kind: DumpKind,
    place: u64,
    err: &mut E,
) -> Result<(), Failed>
    ensures bytes { Pends (E.written err.old) page.old.items (E.written err.new) page.new.items result (codes "gdbm_load: dump error " ++ place_text kind place) }
    ensures cause { HasCause (E.fault_count err.old) (E.fault_count err.new) result }
    ensures kept { E.kept err.old err.new }
{
    put(page, err, b"gdbm_load: dump error ")?;
    put_kind_at(page, kind, place, err)
}

fn put_line<E: Sink>(page: &mut Page, end: RunEnd, err: &mut E) -> Result<(), Failed>
    ensures bytes { Pends (E.written err.old) page.old.items (E.written err.new) page.new.items result (line_of end) }
    ensures cause { HasCause (E.fault_count err.old) (E.fault_count err.new) result }
    ensures kept { E.kept err.old err.new }
{
    match end {
        RunEnd::Loaded => put(page, err, b""),
        RunEnd::Misused => put(page, err, b"gdbm_load: usage error\n"),
        RunEnd::Refused(error) => put_refusal(page, error, err),
        RunEnd::Damaged(kind, place) => put_damage(page, kind, place, err),
        RunEnd::InputFailed => put(page, err, b"gdbm_load: input fault\n"),
        RunEnd::TooLong => put(page, err, b"gdbm_load: input too long\n"),
        RunEnd::Starved => put(page, err, b"gdbm_load: out of memory\n"),
    }
}

// Writes the line of an ending.
fn say<E: Sink>(err: &mut E, end: RunEnd) -> Result<(), Failed>
    ensures bytes { Puts (E.written err.old) (E.written err.new) result (line_of end) }
    ensures cause { HasCause (E.fault_count err.old) (E.fault_count err.new) result }
    ensures kept { E.kept err.old err.new }
{
    let mut page = Page::new();
    put_line(&mut page, end, err)?;
    flush(&mut page, err)
}

/// Says on standard error how the run ended, and answers the status.
pub fn report<E: Sink>(err: &mut E, end: RunEnd) -> u8
    ensures says { Says end result (E.fault_count err.old) (E.fault_count err.new) (E.written err.old) (E.written err.new) }
    ensures later { E.fault_count err.old ≤ E.fault_count err.new }
    ensures kept { E.kept err.old err.new }
{
    match say(err, end) {
        Ok(()) => end.status(),
        Err(_) => end.status_untold(),
    }
}
