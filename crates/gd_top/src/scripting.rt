//! A run of `gdbmtool`: its words begin a session, and the session runs the script of the input.

ghost use Rattle.std.specs.Prelude.{◌≡◌, ◌≤◌, IfOk, IfErr, Some, is_ok, map, string_bytes};
ghost use Rattle.gd_base.specs.Causes.{HasCause};
ghost use Rattle.gd_base.specs.Pages.{Pends};
ghost use Rattle.gd_base.specs.Streams.{Puts};
ghost use Rattle.gd_words.specs.Meaning.{IsSized, tool_reading};
ghost use Rattle.gd_words.specs.Reads.{Refuses};
ghost use Rattle.gd_words.specs.declared.tool.ToolWords.{ToolWords};
ghost use Rattle.gd_top.specs.Devices.{devices};
ghost use Rattle.gd_top.specs.Tool.{SaysRefusal, Scripts, begun, refusal_line, refusal_status};

use gd_base::{Clock, Datum, Failed, OutOfMemory, Page, Sink, Source, flush, put};
use gd_script::{Script, Turns, run_script};
use gd_session::{Session, Settings};
use gd_vault::Vault;
use gd_words::{Refusal, ToolWords, tool_words};
use std::alloc::Global;

fn put_refusal<E: Sink>(page: &mut Page, refusal: Refusal, err: &mut E) -> Result<(), Failed>
    ensures bytes { Pends (E.written err.old) page.old.items (E.written err.new) page.new.items result (refusal_line refusal) }
    ensures cause { HasCause (E.fault_count err.old) (E.fault_count err.new) result }
    ensures kept { E.kept err.old err.new }
{
    match refusal {
        Refusal::Usage => put(page, err, b"gdbmtool: usage error\n"),
        Refusal::Memory => put(page, err, b"gdbmtool: out of memory\n"),
    }
}

fn say_refusal<E: Sink>(err: &mut E, refusal: Refusal) -> Result<(), Failed>
    ensures bytes { Puts (E.written err.old) (E.written err.new) result (refusal_line refusal) }
    ensures cause { HasCause (E.fault_count err.old) (E.fault_count err.new) result }
    ensures kept { E.kept err.old err.new }
{
    let mut page = Page::new();
    put_refusal(&mut page, refusal, err)?;
    flush(&mut page, err)
}

fn refusal_status(refusal: Refusal, said: bool) -> u8
    ensures { result ≡ refusal_status refusal said }
{
    match refusal {
        Refusal::Usage => 3,
        Refusal::Memory => { if said { 4 } else { 1 } }
    }
}

/// Says on standard error why no session of `gdbmtool` was begun, and answers the status.
pub fn refuse<E: Sink>(err: &mut E, refusal: Refusal) -> u8
    ensures says { SaysRefusal refusal result (E.fault_count err.old) (E.fault_count err.new) (E.written err.old) (E.written err.new) }
    ensures later { E.fault_count err.old ≤ E.fault_count err.new }
    ensures kept { E.kept err.old err.new }
{
    let said = say_refusal(err, refusal);
    refusal_status(refusal, said.is_ok())
}

// A session over the variables of the words; a comma stands between the values of a definition.
fn session_of(alloc: Global, words: ToolWords) -> Result<Session, OutOfMemory>
    requires { IsSized words.block words.cache }
    ensures { IfOk result (λ session. session ≡ begun words) }
{
    let delim = Datum::from_slice(alloc, b",")?;
    let ToolWords {
        block,
        cache,
        opening,
        format,
        db,
    } = words;
    let settings = Settings {
        file: db,
        opening,
        block,
        cache,
        format,
        delim,
    };
    Session::new(alloc, settings)
}

// The session that the words ask for.
fn begin(alloc: Global, words: &[String]) -> Result<Session, Refusal>
    ensures session { IfOk result (λ session. (meant : ToolWords) × (tool_reading (map string_bytes words.now) ≡ Some meant) × (session ≡ begun meant)) }
    ensures refusal { IfErr result (λ refusal. Refuses refusal (tool_reading (map string_bytes words.now))) }
{
    let meant = tool_words(alloc, words)?;
    match session_of(alloc, meant) {
        Ok(session) => Ok(session),
        Err(OutOfMemory) => Err(Refusal::Memory),
    }
}

/// Runs the script of the input in the session that the words ask for.
pub fn script<S: Source, O: Sink, E: Sink, V: Vault, C: Clock>(
    alloc: Global,
    words: &[String],
    input: &mut S,
    out: &mut O,
    err: &mut E,
    vault: &mut V,
    clock: &mut C,
) -> Script
    ensures scripts { Scripts (map string_bytes words.now) result.status result.turns
        (devices (S.left input.old) (S.fault_count input.old) (O.written out.old) (O.fault_count out.old) (E.written err.old) (E.fault_count err.old) (V.view_of vault.old) (C.told clock.old) (C.fault_count clock.old))
        (devices (S.left input.new) (S.fault_count input.new) (O.written out.new) (O.fault_count out.new) (E.written err.new) (E.fault_count err.new) (V.view_of vault.new) (C.told clock.new) (C.fault_count clock.new)) }
    ensures clock { clock.new ≡ clock.old }
    ensures later_out { O.fault_count out.old ≤ O.fault_count out.new }
    ensures later_err { E.fault_count err.old ≤ E.fault_count err.new }
    ensures kept_out { O.kept out.old out.new }
    ensures kept_err { E.kept err.old err.new }
{
    match begin(alloc, words) {
        Ok(mut session) => run_script(alloc, &mut session, input, out, err, vault, clock),
        Err(refusal) => Script {
            status: refuse(err, refusal),
            turns: Turns::new(alloc),
        },
    }
}
