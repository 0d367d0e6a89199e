//! The error lines of answers.

ghost use Rattle.std.specs.Prelude.{◌≡◌, ◌∷◌, ◌++◌, [], codes};
ghost use Rattle.std.specs.Fmt.{decimal};
ghost use Rattle.gd_base.specs.Causes.{HasCause};
ghost use Rattle.gd_base.specs.Pages.{Pends};
ghost use Rattle.gd_base.specs.Streams.{Puts};
ghost use Rattle.gd_script.specs.Says.{answer_text, error_line, lang_text, numbered, type_text};

use crate::turns::Answer;
use gd_base::{Failed, Page, Sink, flush, put, put_error};
use gd_lang::LangError;
use gd_session::Reply;
use gd_types::TypeError;

// The number of a line.
fn put_decimal<E: Sink>(page: &mut Page, n: u64, err: &mut E) -> Result<(), Failed>
    ensures bytes { Pends (E.written err.old) page.old.items (E.written err.new) page.new.items result (decimal n) }
    ensures cause { HasCause (E.fault_count err.old) (E.fault_count err.new) result }
    ensures kept { E.kept err.old err.new }
{
    let mut digits = itoa::Buffer::new();
    put(page, err, digits.format(n).as_bytes())
}

fn put_lang<E: Sink>(page: &mut Page, error: LangError, err: &mut E) -> Result<(), Failed>
    ensures bytes { Pends (E.written err.old) page.old.items (E.written err.new) page.new.items result (lang_text error) }
    ensures cause { HasCause (E.fault_count err.old) (E.fault_count err.new) result }
    ensures kept { E.kept err.old err.new }
{
    match error {
        LangError::UnknownCommand => put(page, err, b"UnknownCommand"),
        LangError::Ambiguous => put(page, err, b"Ambiguous"),
        LangError::Arguments => put(page, err, b"Arguments"),
        LangError::Quote => put(page, err, b"Quote"),
        LangError::Escape => put(page, err, b"Escape"),
        LangError::Unbuilt => put(page, err, b"Unbuilt"),
        LangError::OutOfMemory => put(page, err, b"OutOfMemory"),
    }
}

fn put_type<E: Sink>(page: &mut Page, error: TypeError, err: &mut E) -> Result<(), Failed>
    ensures bytes { Pends (E.written err.old) page.old.items (E.written err.new) page.new.items result (type_text error) }
    ensures cause { HasCause (E.fault_count err.old) (E.fault_count err.new) result }
    ensures kept { E.kept err.old err.new }
{
    match error {
        TypeError::FloatMember => put(page, err, b"type error FloatMember"),
        TypeError::Range => put(page, err, b"type error Range"),
        TypeError::Short => put(page, err, b"type error Short"),
        TypeError::Trailing => put(page, err, b"type error Trailing"),
        TypeError::Text => put(page, err, b"type error Text"),
    }
}

// What the line says of an answer.
fn put_answer<E: Sink>(page: &mut Page, answer: Answer, err: &mut E) -> Result<(), Failed>
    ensures bytes { Pends (E.written err.old) page.old.items (E.written err.new) page.new.items result (answer_text answer) }
    ensures cause { HasCause (E.fault_count err.old) (E.fault_count err.new) result }
    ensures kept { E.kept err.old err.new }
{
    match answer {
        Answer::Lang(error) => put_lang(page, error, err),
        Answer::Command(Reply::Refused(error)) => put_error(page, error, err),
        Answer::Command(Reply::Typed(error)) => put_type(page, error, err),
        _ => put(page, err, b""),
    }
}

fn put_rest<E: Sink>(page: &mut Page, answer: Answer, err: &mut E) -> Result<(), Failed>
    ensures bytes { Pends (E.written err.old) page.old.items (E.written err.new) page.new.items result (answer_text answer ++ 10 ∷ []) }
    ensures cause { HasCause (E.fault_count err.old) (E.fault_count err.new) result }
    ensures kept { E.kept err.old err.new }
{
    put_answer(page, answer, err)?;
    put(page, err, b"\n")
}

fn put_behind<E: Sink>(page: &mut Page, answer: Answer, err: &mut E) -> Result<(), Failed>
    ensures bytes { Pends (E.written err.old) page.old.items (E.written err.new) page.new.items result (codes ": " ++ (answer_text answer ++ 10 ∷ [])) }
    ensures cause { HasCause (E.fault_count err.old) (E.fault_count err.new) result }
    ensures kept { E.kept err.old err.new }
{
    put(page, err, b": ")?;
    put_rest(page, answer, err)
}

fn put_numbered<E: Sink>(
    page: &mut Page,
    number: u64,
    answer: Answer,
    err: &mut E,
) -> Result<(), Failed>
    ensures bytes { Pends (E.written err.old) page.old.items (E.written err.new) page.new.items result (decimal number ++ (codes ": " ++ (answer_text answer ++ 10 ∷ []))) }
    ensures cause { HasCause (E.fault_count err.old) (E.fault_count err.new) result }
    ensures kept { E.kept err.old err.new }
{
    put_decimal(page, number, err)?;
    put_behind(page, answer, err)
}

fn put_line<E: Sink>(
    page: &mut Page,
    number: u64,
    answer: Answer,
    err: &mut E,
) -> Result<(), Failed>
    ensures bytes { Pends (E.written err.old) page.old.items (E.written err.new) page.new.items result (numbered number (answer_text answer)) }
    ensures cause { HasCause (E.fault_count err.old) (E.fault_count err.new) result }
    ensures kept { E.kept err.old err.new }
{
    put(page, err, b"gdbmtool: ")?;
    put_numbered(page, number, answer, err)
}

fn say_line<E: Sink>(number: u64, answer: Answer, err: &mut E) -> Result<(), Failed>
    ensures bytes { Puts (E.written err.old) (E.written err.new) result (numbered number (answer_text answer)) }
    ensures cause { HasCause (E.fault_count err.old) (E.fault_count err.new) result }
    ensures kept { E.kept err.old err.new }
{
    let mut page = Page::new();
    put_line(&mut page, number, answer, err)?;
    flush(&mut page, err)
}

fn say_nothing<E: Sink>(err: &mut E) -> Result<(), Failed>
    ensures bytes { Puts (E.written err.old) (E.written err.new) result [] }
    ensures cause { HasCause (E.fault_count err.old) (E.fault_count err.new) result }
    ensures kept { E.kept err.old err.new }
{
    flush(&mut Page::new(), err)
}

/// Writes the error line of an answer to the line with a number, where it is a refusal.
pub(crate) fn say_answer<E: Sink>(number: u64, answer: Answer, err: &mut E) -> Result<(), Failed>
    ensures bytes { Puts (E.written err.old) (E.written err.new) result (error_line number answer) }
    ensures cause { HasCause (E.fault_count err.old) (E.fault_count err.new) result }
    ensures kept { E.kept err.old err.new }
{
    match answer {
        Answer::Nothing
        | Answer::Command(Reply::Done)
        | Answer::Command(Reply::Quit)
        | Answer::Command(Reply::SinkFault) => say_nothing(err),
        _ => say_line(number, answer, err),
    }
}
