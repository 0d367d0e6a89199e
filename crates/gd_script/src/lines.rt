//! The loop over the lines of a script.

ghost use Rattle.std.specs.Prelude.{◌≡◌, ◌≢◌, ◌≤◌, ◌<◌, ◌^◌, ℕ, [], Ok, true, false, length, vec_len, vec_capacity};
ghost use Rattle.gd_lang.specs.Commands.{command_of_line};
ghost use Rattle.gd_script.specs.Answers.{scene};
ghost use Rattle.gd_script.specs.Reading.{IsWithin};
ghost use Rattle.gd_script.specs.Run.{Ended, Nexts};
ghost use Rattle.gd_script.specs.Turns.{EndIs, TurnEnds, is_sink_fault, last_ending, objects};

use crate::answering::{LineAnswer, answer_line};
use crate::ending::Ending;
use crate::interpreter::Interpreter;
use crate::reader::{Lines, Next};
use crate::says::say_answer;
use crate::turns::{Answer, Faults, Turn};
use gd_base::{Clock, Failed, Sink, Source};
use gd_session::Reply;
use gd_vault::Vault;
use std::alloc::Global;

// How often each object has failed.
fn faults<S: Source, O: Sink, E: Sink, V: Vault, C: Clock>(
    input: &S,
    out: &O,
    err: &E,
    vault: &V,
    clock: &C,
) -> Faults
    ensures { result ≡ record { input = S.fault_count input.now; out = O.fault_count out.now; err = E.fault_count err.now; vault = (V.view_of vault.now).faults; clock = C.fault_count clock.now } }
{
    Faults {
        input: input.faults(),
        out: out.faults(),
        err: err.faults(),
        vault: vault.faults(),
        clock: clock.faults(),
    }
}

fn is_sink_fault(answer: Answer) -> bool
    ensures { result ≡ is_sink_fault answer }
{
    match answer {
        Answer::Command(Reply::SinkFault) => true,
        _ => false,
    }
}

// Does a run end with a line, by its answer and the faults in its turn?
fn end_of(
    found: LineAnswer,
    said: Result<(), Failed>,
    out_before: u64,
    out_after: u64,
) -> Option<Ending>
    ensures { EndIs result found.answer found.quits said out_before out_after }
{
    if said.is_err() {
        return Some(Ending::ErrorFailed);
    }
    if is_sink_fault(found.answer) || out_after != out_before {
        return Some(Ending::OutputFailed);
    }
    if found.quits {
        Some(Ending::Read)
    } else {
        None
    }
}

// How a run ends with the last line.
fn last_ending(end: Option<Ending>) -> Ending
    ensures { result ≡ last_ending end }
{
    match end {
        Some(ending) => ending,
        None => Ending::Read,
    }
}

// Answers a line, says its error line, and keeps its turn. Nothing where another line may follow.
fn answer_turn<T: Interpreter, S: Source, O: Sink, E: Sink, V: Vault, C: Clock>(
    alloc: Global,
    line: &[u8],
    session: &mut T,
    input: &S,
    out: &mut O,
    err: &mut E,
    vault: &mut V,
    clock: &mut C,
    turns: &mut Vec<Turn>,
) -> Option<Ending>
    requires ready { T.ready (V.view_of vault.old) session.old }
    requires room { vec_len turns.old < vec_capacity turns.old }
    requires few { vec_len turns.old ≤ 2 ^ 32 }
    ensures ready { T.ready (V.view_of vault.new) session.new }
    ensures ends { TurnEnds T.rules (command_of_line line.now) result turns.old.items turns.new.items
        (objects (scene session.old (V.view_of vault.old) (O.written out.old) (O.fault_count out.old) (C.told clock.old) (C.fault_count clock.old)) (S.left input.now) (S.fault_count input.now) (E.written err.old) (E.fault_count err.old))
        (objects (scene session.new (V.view_of vault.new) (O.written out.new) (O.fault_count out.new) (C.told clock.new) (C.fault_count clock.new)) (S.left input.now) (S.fault_count input.now) (E.written err.new) (E.fault_count err.new)) }
    ensures clock { T.rules.clockless → clock.new ≡ clock.old }
    ensures kept_out { O.kept out.old out.new }
    ensures kept_err { E.kept err.old err.new }
{
    let counted = out.faults();
    let Ok(found) = answer_line(alloc, line, session, vault, clock, out) else {
        return Some(Ending::Starved);
    };
    let said = say_answer(turns.len() as u64 + 1, found.answer, err);
    let faults = faults(input, out, err, vault, clock);
    let turn = Turn {
        answer: found.answer,
        done: vault.moment(),
        faults,
        reading: found.reading,
    };
    let Ok(()) = turns.push(turn) else {
        unreachable!();
    };
    end_of(found, said, counted, faults.out)
}

// Takes the next line and answers it. Nothing where another line may follow.
fn answer_next<T: Interpreter, S: Source, O: Sink, E: Sink, V: Vault, C: Clock>(
    alloc: Global,
    lines: &mut Lines,
    session: &mut T,
    input: &mut S,
    out: &mut O,
    err: &mut E,
    vault: &mut V,
    clock: &mut C,
    turns: &mut Vec<Turn>,
) -> Option<Ending>
    requires ready { T.ready (V.view_of vault.old) session.old }
    requires within { IsWithin lines.old }
    requires few { vec_len turns.old ≤ 2 ^ 32 }
    ensures ready { T.ready (V.view_of vault.new) session.new }
    ensures within { IsWithin lines.new }
    ensures nexts { Nexts T.rules result turns.old.items turns.new.items lines.old lines.new
        (objects (scene session.old (V.view_of vault.old) (O.written out.old) (O.fault_count out.old) (C.told clock.old) (C.fault_count clock.old)) (S.left input.old) (S.fault_count input.old) (E.written err.old) (E.fault_count err.old))
        (objects (scene session.new (V.view_of vault.new) (O.written out.new) (O.fault_count out.new) (C.told clock.new) (C.fault_count clock.new)) (S.left input.new) (S.fault_count input.new) (E.written err.new) (E.fault_count err.new)) }
    ensures clock { T.rules.clockless → clock.new ≡ clock.old }
    ensures kept_out { O.kept out.old out.new }
    ensures kept_err { E.kept err.old err.new }
{
    if turns.reserve(1).is_err() {
        return Some(Ending::Starved);
    }
    match lines.next(alloc, input) {
        Ok(Next::Line(line)) => {
            answer_turn(alloc, &line, session, input, out, err, vault, clock, turns)
        }
        Ok(Next::Last(line)) => {
            let end = answer_turn(alloc, &line, session, input, out, err, vault, clock, turns);
            Some(last_ending(end))
        }
        Ok(Next::End) => Some(Ending::Read),
        Err(ending) => Some(ending),
    }
}

/// Answers the lines of the input one after another, and keeps a turn of each.
pub fn answer_lines<T: Interpreter, S: Source, O: Sink, E: Sink, V: Vault, C: Clock>(
    alloc: Global,
    session: &mut T,
    input: &mut S,
    out: &mut O,
    err: &mut E,
    vault: &mut V,
    clock: &mut C,
    turns: &mut Vec<Turn>,
) -> Ending
    requires ready { T.ready (V.view_of vault.old) session.old }
    requires none { turns.old.items ≡ [] }
    ensures ready { T.ready (V.view_of vault.new) session.new }
    ensures ended { Ended T.rules result turns.new.items
        (objects (scene session.old (V.view_of vault.old) (O.written out.old) (O.fault_count out.old) (C.told clock.old) (C.fault_count clock.old)) (S.left input.old) (S.fault_count input.old) (E.written err.old) (E.fault_count err.old))
        (objects (scene session.new (V.view_of vault.new) (O.written out.new) (O.fault_count out.new) (C.told clock.new) (C.fault_count clock.new)) (S.left input.new) (S.fault_count input.new) (E.written err.new) (E.fault_count err.new)) }
    ensures clock { T.rules.clockless → clock.new ≡ clock.old }
    ensures kept_out { O.kept out.old out.new }
    ensures kept_err { E.kept err.old err.new }
{
    let mut lines = Lines::new();
    'lines: loop {
        match answer_next(
            alloc, &mut lines, session, input, out, err, vault, clock, turns,
        ) {
            Some(ending) => return ending,
            None => {}
        }
    }
}
