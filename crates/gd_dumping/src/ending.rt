//! How a run of the dumper ends, and what is said of it on standard error.

ghost use Rattle.std.specs.Prelude.{◌≡◌, ◌≢◌, ◌⊎◌, ◌≤◌, ◌∷◌, ◌++◌, [], codes};
ghost use Rattle.gd_base.specs.declared.errors.DbError.TheVariants.{OutOfMemory};
ghost use Rattle.gd_base.specs.Causes.{HasCause};
ghost use Rattle.gd_base.specs.Errors.{error_text};
ghost use Rattle.gd_base.specs.Pages.{Pends};
ghost use Rattle.gd_base.specs.Streams.{Puts};
ghost use Rattle.gd_dumping.specs.declared.ending.Ending.TheVariants.{Broken, OutputFailed, Refused, Starved};
ghost use Rattle.gd_dumping.specs.Dump.{Says, line_of, status_of, status_untold};

use gd_base::{DbError, Failed, Page, Sink, flush, put, put_error};

/// How a run of the dumper ended.
#[derive(Clone, Copy, Debug, PartialEq, Eq)]
pub enum Ending {
    /// The whole dump was written.
    Dumped,
    /// The words are refused.
    Misused,
    /// The file is absent or not readable, or the vault failed before the first byte was put.
    Refused(DbError),
    /// The vault failed after the dump was begun.
    Broken(DbError),
    OutputFailed,
    /// No memory was found.
    Starved,
}

impl Ending {
    fn status(self) -> u8
        ensures { result ≡ status_of self }
    {
        match self {
            Ending::Dumped => 0,
            Ending::Misused => 3,
            Ending::Starved => 4,
            Ending::Refused(_) | Ending::Broken(_) | Ending::OutputFailed => 1,
        }
    }

    // The status where the line can't be written.
    fn status_untold(self) -> u8
        ensures { result ≡ status_untold self }
    {
        match self {
            Ending::Misused => 3,
            _ => 1,
        }
    }
}

// A sink fails only after the dump was begun.
impl From<Failed> for Ending {
    ghost from_gives = { λ _ e. e ≡ OutputFailed };

    fn from(_: Failed) -> Ending {
        Ending::OutputFailed
    }
}

// The error of a walk ends a dump that was begun.
impl From<DbError> for Ending {
    ghost from_gives = { λ error e. ((e ≡ Starved) × (error ≡ OutOfMemory)) ⊎ ((e ≡ Broken error) × (error ≢ OutOfMemory)) };

    fn from(error: DbError) -> Ending {
        match error {
            DbError::OutOfMemory => Ending::Starved,
            error => Ending::Broken(error),
        }
    }
}

/// How the refusal of a file ends a run.
pub fn refused(error: DbError) -> Ending
    ensures { ((result ≡ Starved) × (error ≡ OutOfMemory)) ⊎ ((result ≡ Refused error) × (error ≢ OutOfMemory)) }
{
    match error {
        DbError::OutOfMemory => Ending::Starved,
        error => Ending::Refused(error),
    }
}

// The error, and the end of the line.
fn put_rest<E: Sink>(page: &mut Page, error: DbError, err: &mut E) -> Result<(), Failed>
    ensures bytes { Pends (E.written err.old) page.old.items (E.written err.new) page.new.items result (error_text error ++ 10 ∷ []) }
    ensures cause { HasCause (E.fault_count err.old) (E.fault_count err.new) result }
    ensures kept { E.kept err.old err.new }
{
    put_error(page, error, err)?;
    put(page, err, b"\n")
}

fn put_refusal<E: Sink>(page: &mut Page, error: DbError, err: &mut E) -> Result<(), Failed>
    ensures bytes { Pends (E.written err.old) page.old.items (E.written err.new) page.new.items result (codes "gdbm_dump: " ++ (error_text error ++ 10 ∷ [])) }
    ensures cause { HasCause (E.fault_count err.old) (E.fault_count err.new) result }
    ensures kept { E.kept err.old err.new }
{
    put(page, err, b"gdbm_dump: ")?;
    put_rest(page, error, err)
}

fn put_line<E: Sink>(page: &mut Page, ending: Ending, err: &mut E) -> Result<(), Failed>
    ensures bytes { Pends (E.written err.old) page.old.items (E.written err.new) page.new.items result (line_of ending) }
    ensures cause { HasCause (E.fault_count err.old) (E.fault_count err.new) result }
    ensures kept { E.kept err.old err.new }
{
    match ending {
        Ending::Dumped => put(page, err, b""),
        Ending::Misused => put(page, err, b"gdbm_dump: usage error\n"),
        Ending::Refused(error) | Ending::Broken(error) => put_refusal(page, error, err),
        Ending::OutputFailed => put(page, err, b"gdbm_dump: output fault\n"),
        Ending::Starved => put(page, err, b"gdbm_dump: out of memory\n"),
    }
}

// Writes the line of an ending.
fn say<E: Sink>(err: &mut E, ending: Ending) -> Result<(), Failed>
    ensures bytes { Puts (E.written err.old) (E.written err.new) result (line_of ending) }
    ensures cause { HasCause (E.fault_count err.old) (E.fault_count err.new) result }
    ensures kept { E.kept err.old err.new }
{
    let mut page = Page::new();
    put_line(&mut page, ending, err)?;
    flush(&mut page, err)
}

/// Says on standard error how the run ended, and answers the status.
pub fn report<E: Sink>(err: &mut E, ending: Ending) -> u8
    ensures says { Says ending result (E.fault_count err.old) (E.fault_count err.new) (E.written err.old) (E.written err.new) }
    ensures later { E.fault_count err.old ≤ E.fault_count err.new }
    ensures kept { E.kept err.old err.new }
{
    match say(err, ending) {
        Ok(()) => ending.status(),
        Err(_) => ending.status_untold(),
    }
}
