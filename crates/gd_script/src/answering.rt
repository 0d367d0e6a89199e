//! The answer to one line.

ghost use Rattle.std.specs.Prelude.{◌≡◌, Ok, IfOk};
ghost use Rattle.gd_lang.specs.Commands.{command_of_line};
ghost use Rattle.gd_lang.specs.Limits.{IsProper};
ghost use Rattle.gd_lang.specs.Refusals.{Answers};
ghost use Rattle.gd_script.specs.Answers.{LineSteps, scene};
ghost use Rattle.gd_script.specs.Lines.{is_quit};
ghost use Rattle.gd_script.specs.Turns.{LineEnds, RefusedLine};

use crate::interpreter::Interpreter;
use crate::turns::Answer;
use gd_base::{Clock, OutOfMemory, Sink};
use gd_lang::{Command, LangError, lex, parse};
use gd_vault::Vault;
use std::alloc::Global;

/// The answer to a line.
#[derive(Clone, Copy)]
pub(crate) struct LineAnswer {
    pub answer: Answer,
    /// The reading that the clock gave.
    pub reading: Option<u64>,
    /// Is the line the one that ends a run?
    pub quits: bool,
}

// The command of a line, or its refusal.
fn command_of_line(alloc: Global, line: &[u8]) -> Result<Command, LangError>
    ensures answers { Answers result (command_of_line line.now) }
    ensures proper { IfOk result IsProper }
{
    match lex(alloc, line) {
        Ok(tokens) => parse(alloc, &tokens),
        Err(error) => Err(error),
    }
}

fn is_quit(command: &Command) -> bool
    ensures { result ≡ is_quit (Ok command.now) }
{
    match command {
        Command::Quit => true,
        _ => false,
    }
}

// Answers a command; one without words is none.
fn answer_command<T: Interpreter, V: Vault, C: Clock, O: Sink>(
    command: &Command,
    session: &mut T,
    vault: &mut V,
    clock: &mut C,
    out: &mut O,
) -> LineAnswer
    requires ready { T.ready (V.view_of vault.old) session.old }
    requires proper { IsProper command.now }
    ensures ready { T.ready (V.view_of vault.new) session.new }
    ensures steps { LineSteps T.rules (Ok command.now) result.answer result.reading (scene session.old (V.view_of vault.old) (O.written out.old) (O.fault_count out.old) (C.told clock.old) (C.fault_count clock.old)) (scene session.new (V.view_of vault.new) (O.written out.new) (O.fault_count out.new) (C.told clock.new) (C.fault_count clock.new)) }
    ensures clock { T.rules.clockless → clock.new ≡ clock.old }
    ensures quits { result.quits ≡ is_quit (Ok command.now) }
    ensures kept { O.kept out.old out.new }
{
    if let Command::Nothing = command {
        return LineAnswer {
            answer: Answer::Nothing,
            reading: None,
            quits: false,
        };
    }
    let (reply, reading) = session.answer(command, vault, clock, out);
    LineAnswer {
        answer: Answer::Command(reply),
        reading,
        quits: is_quit(command),
    }
}

/// Answers a line; want of memory for its tokens or its command is outside a command.
pub(crate) fn answer_line<T: Interpreter, V: Vault, C: Clock, O: Sink>(
    alloc: Global,
    line: &[u8],
    session: &mut T,
    vault: &mut V,
    clock: &mut C,
    out: &mut O,
) -> Result<LineAnswer, OutOfMemory>
    requires ready { T.ready (V.view_of vault.old) session.old }
    ensures ready { T.ready (V.view_of vault.new) session.new }
    ensures ends { LineEnds T.rules (command_of_line line.now) result (scene session.old (V.view_of vault.old) (O.written out.old) (O.fault_count out.old) (C.told clock.old) (C.fault_count clock.old)) (scene session.new (V.view_of vault.new) (O.written out.new) (O.fault_count out.new) (C.told clock.new) (C.fault_count clock.new)) }
    ensures clock { T.rules.clockless → clock.new ≡ clock.old }
    ensures kept { O.kept out.old out.new }
{
    match command_of_line(alloc, line) {
        Ok(command) => Ok(answer_command(&command, session, vault, clock, out)),
        Err(error) => refused(error),
    }
}

// The answer to a line that is no command.
fn refused(error: LangError) -> Result<LineAnswer, OutOfMemory>
    ensures { RefusedLine error result }
{
    match error {
        LangError::OutOfMemory => Err(OutOfMemory),
        error => Ok(LineAnswer {
            answer: Answer::Lang(error),
            reading: None,
            quits: false,
        }),
    }
}
