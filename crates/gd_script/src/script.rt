//! The run of a script: its lines, the closing, what is said of its end, and the status.

ghost use Rattle.std.specs.Prelude.{◌≡◌, ◌++◌, [], ◌∷◌, codes, is_ok};
ghost use Rattle.std.specs.List.{list_any};
ghost use Rattle.gd_base.specs.Causes.{HasCause};
ghost use Rattle.gd_base.specs.Errors.{error_text};
ghost use Rattle.gd_base.specs.Pages.{Pends};
ghost use Rattle.gd_base.specs.Streams.{Puts};
ghost use Rattle.gd_script.specs.Answers.{scene};
ghost use Rattle.gd_script.specs.Script.{Scripted, closing_line, ending_line, has_failed, has_starved, is_closing_refused, is_fault, is_refusal, is_starved, last_lines, named_error, status_by, status_of};
ghost use Rattle.gd_script.specs.Turns.{objects};

use crate::ending::Ending;
use crate::interpreter::Interpreter;
use crate::lines::answer_lines;
use crate::turns::{Answer, Turn, Turns};
use gd_base::{Clock, DbError, Failed, Page, Sink, Source, flush, put, put_error};
use gd_session::Reply;
use gd_vault::Vault;
use std::alloc::Global;

/// What a run of a script leaves beside what it wrote.
#[derive(Debug, Drop)]
pub struct Script {
    pub status: u8,
    pub turns: Turns,
}

fn is_fault(answer: Answer) -> bool
    ensures { result ≡ is_fault answer }
{
    match answer {
        Answer::Command(Reply::Refused(DbError::VaultFault)) => true,
        Answer::Command(Reply::Refused(DbError::ClockFault)) => true,
        Answer::Command(Reply::SinkFault) => true,
        _ => false,
    }
}

fn is_starved(answer: Answer) -> bool
    ensures { result ≡ is_starved answer }
{
    match answer {
        Answer::Command(Reply::Refused(DbError::OutOfMemory)) => true,
        _ => false,
    }
}

fn is_refusal(answer: Answer) -> bool
    ensures { result ≡ is_refusal answer }
{
    match answer {
        Answer::Lang(_) => true,
        Answer::Command(Reply::Refused(_)) => true,
        Answer::Command(Reply::Typed(_)) => true,
        _ => false,
    }
}

fn any_fault(turns: &[Turn]) -> bool
    ensures { result ≡ list_any (λ t. is_fault t.answer) turns.now }
{
    turns.iter().any(|t| is_fault(t.answer))
}

fn any_starved(turns: &[Turn]) -> bool
    ensures { result ≡ list_any (λ t. is_starved t.answer) turns.now }
{
    turns.iter().any(|t| is_starved(t.answer))
}

fn any_refusal(turns: &[Turn]) -> bool
    ensures { result ≡ list_any (λ t. is_refusal t.answer) turns.now }
{
    turns.iter().any(|t| is_refusal(t.answer))
}

fn has_failed(ending: Ending) -> bool
    ensures { result ≡ has_failed ending }
{
    match ending {
        Ending::InputFailed | Ending::TooLong | Ending::OutputFailed | Ending::ErrorFailed => true,
        Ending::Read | Ending::Starved => false,
    }
}

fn has_starved(ending: Ending) -> bool
    ensures { result ≡ has_starved ending }
{
    match ending {
        Ending::Starved => true,
        _ => false,
    }
}

fn is_closing_refused(closing: Reply) -> bool
    ensures { result ≡ is_closing_refused closing }
{
    match closing {
        Reply::Refused(_) => true,
        _ => false,
    }
}

fn status_by(fault: bool, starved: bool, refused: bool) -> u8
    ensures { result ≡ status_by fault starved refused }
{
    if fault {
        1
    } else if starved {
        4
    } else if refused {
        2
    } else {
        0
    }
}

fn status_of(ending: Ending, closing: Reply, turns: &[Turn], said: &Result<(), Failed>) -> u8
    ensures { result ≡ status_of ending closing turns.now (is_ok said.now) }
{
    let failed = has_failed(ending) || is_closing_refused(closing);
    let fault = failed || any_fault(turns) || said.is_err();
    let starved = has_starved(ending) || any_starved(turns);
    status_by(fault, starved, any_refusal(turns))
}

fn put_ending<E: Sink>(page: &mut Page, ending: Ending, err: &mut E) -> Result<(), Failed>
    ensures bytes { Pends (E.written err.old) page.old.items (E.written err.new) page.new.items result (ending_line ending) }
    ensures cause { HasCause (E.fault_count err.old) (E.fault_count err.new) result }
    ensures kept { E.kept err.old err.new }
{
    match ending {
        Ending::Read | Ending::ErrorFailed => put(page, err, b""),
        Ending::InputFailed => put(page, err, b"gdbmtool: input fault\n"),
        Ending::TooLong => put(page, err, b"gdbmtool: input too long\n"),
        Ending::OutputFailed => put(page, err, b"gdbmtool: output fault\n"),
        Ending::Starved => put(page, err, b"gdbmtool: out of memory\n"),
    }
}

fn put_error_end<E: Sink>(page: &mut Page, error: DbError, err: &mut E) -> Result<(), Failed>
    ensures bytes { Pends (E.written err.old) page.old.items (E.written err.new) page.new.items result (error_text error ++ 10 ∷ []) }
    ensures cause { HasCause (E.fault_count err.old) (E.fault_count err.new) result }
    ensures kept { E.kept err.old err.new }
{
    put_error(page, error, err)?;
    put(page, err, b"\n")
}

fn put_named<E: Sink>(page: &mut Page, error: DbError, err: &mut E) -> Result<(), Failed>
    ensures bytes { Pends (E.written err.old) page.old.items (E.written err.new) page.new.items result (named_error error) }
    ensures cause { HasCause (E.fault_count err.old) (E.fault_count err.new) result }
    ensures kept { E.kept err.old err.new }
{
    put(page, err, b"gdbmtool: ")?;
    put_error_end(page, error, err)
}

fn put_closing<E: Sink>(page: &mut Page, closing: Reply, err: &mut E) -> Result<(), Failed>
    ensures bytes { Pends (E.written err.old) page.old.items (E.written err.new) page.new.items result (closing_line closing) }
    ensures cause { HasCause (E.fault_count err.old) (E.fault_count err.new) result }
    ensures kept { E.kept err.old err.new }
{
    match closing {
        Reply::Refused(error) => put_named(page, error, err),
        _ => put(page, err, b""),
    }
}

fn put_last<E: Sink>(
    page: &mut Page,
    ending: Ending,
    closing: Reply,
    err: &mut E,
) -> Result<(), Failed>
    ensures bytes { Pends (E.written err.old) page.old.items (E.written err.new) page.new.items result (ending_line ending ++ closing_line closing) }
    ensures cause { HasCause (E.fault_count err.old) (E.fault_count err.new) result }
    ensures kept { E.kept err.old err.new }
{
    put_ending(page, ending, err)?;
    put_closing(page, closing, err)
}

fn say_both<E: Sink>(ending: Ending, closing: Reply, err: &mut E) -> Result<(), Failed>
    ensures bytes { Puts (E.written err.old) (E.written err.new) result (ending_line ending ++ closing_line closing) }
    ensures cause { HasCause (E.fault_count err.old) (E.fault_count err.new) result }
    ensures kept { E.kept err.old err.new }
{
    let mut page = Page::new();
    put_last(&mut page, ending, closing, err)?;
    flush(&mut page, err)
}

// Says how the lines ended and why the closing was refused. Nothing more is said once standard error has failed.
fn say_last<E: Sink>(ending: Ending, closing: Reply, err: &mut E) -> Result<(), Failed>
    ensures bytes { Puts (E.written err.old) (E.written err.new) result (last_lines ending closing) }
    ensures cause { HasCause (E.fault_count err.old) (E.fault_count err.new) result }
    ensures kept { E.kept err.old err.new }
{
    match ending {
        Ending::ErrorFailed => flush(&mut Page::new(), err),
        _ => say_both(ending, closing, err),
    }
}

/// Runs a script: answers its lines, closes what is open, and says how it ended.
pub fn run_script<T: Interpreter, S: Source, O: Sink, E: Sink, V: Vault, C: Clock>(
    alloc: Global,
    session: &mut T,
    input: &mut S,
    out: &mut O,
    err: &mut E,
    vault: &mut V,
    clock: &mut C,
) -> Script
    requires ready { T.ready (V.view_of vault.old) session.old }
    ensures scripted { Scripted T.rules result.status result.turns
        (objects (scene session.old (V.view_of vault.old) (O.written out.old) (O.fault_count out.old) (C.told clock.old) (C.fault_count clock.old)) (S.left input.old) (S.fault_count input.old) (E.written err.old) (E.fault_count err.old))
        (objects (scene session.new (V.view_of vault.new) (O.written out.new) (O.fault_count out.new) (C.told clock.new) (C.fault_count clock.new)) (S.left input.new) (S.fault_count input.new) (E.written err.new) (E.fault_count err.new)) }
    ensures clock { T.rules.clockless → clock.new ≡ clock.old }
    ensures kept_out { O.kept out.old out.new }
    ensures kept_err { E.kept err.old err.new }
{
    let mut turns = Vec::new(alloc);
    let ending = answer_lines(alloc, session, input, out, err, vault, clock, &mut turns);
    let closing = session.finish(vault);
    let said = say_last(ending, closing, err);
    let status = status_of(ending, closing, &turns, &said);
    Script {
        status,
        turns: Turns::from(turns),
    }
}
