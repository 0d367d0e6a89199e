//! Inputs and outputs that fail.

use crate::play::{Fails, Played, Trial, no_fails, play};
use crate::rows::{DONE, NOT_FOUND, are_quiet};
use gd_lang::Opening;
use gd_memvault::MemVault;
use gd_script::{Answer, Turn};
use gd_session::Reply;
use std::alloc::Global;
use std::process::Abort;
use std::test::Fail;

// A run with a device that fails: what it writes, and its answers. The device fails in the last turn, or in none.
#[derive(Clone, Copy)]
struct Failing {
    lines: &'static [u8],
    fails: Fails<'static>,
    out: &'static [u8],
    err: &'static [u8],
    answers: &'static [Answer],
    // How often the output and standard error failed up to the end of the last turn.
    faults: (u64, u64),
}

// Is the last turn of this answer, with so many faults?
fn is_last(last: &Turn, answer: Answer, faults: (u64, u64)) -> bool {
    last.answer == answer
        && last.faults.out == faults.0
        && last.faults.err == faults.1
        && last.faults.vault == 0
        && last.faults.input == 0
        && last.faults.clock == 0
        && last.reading == None
}

fn are_turns(turns: &[Turn], answers: &[Answer], faults: (u64, u64)) -> bool {
    match (turns, answers) {
        ([], []) => true,
        ([before @ .., last], [firsts @ .., answer]) => {
            are_quiet(before, firsts) && is_last(last, *answer, faults)
        }
        _ => false,
    }
}

fn is_failed(played: &Played, row: &Failing) -> bool {
    played.script.status == 1
        && played.out.bytes() == row.out
        && played.err.bytes() == row.err
        && are_turns(played.script.turns.as_slice(), row.answers, row.faults)
}

// Runs each row over a new vault.
fn fails(alloc: Global, row: &Failing) -> Result<bool, Fail> {
    let mut vault = MemVault::plain(alloc);
    let script = Trial {
        opening: Opening::NewDb,
        block: 512,
        lines: row.lines,
        fails: row.fails,
    };
    let played = play(alloc, &mut vault, &script)?;
    Ok(is_failed(&played, row))
}

fn input(calls: &'static [u64]) -> Fails<'static> {
    let mut fails = no_fails();
    fails.input = calls;
    fails
}

fn out(calls: &'static [u64]) -> Fails<'static> {
    let mut fails = no_fails();
    fails.out = calls;
    fails
}

fn err(calls: &'static [u64]) -> Fails<'static> {
    let mut fails = no_fails();
    fails.err = calls;
    fails
}

// The lines that came whole before a failed read are answered.
fn inputs() -> [Failing; 3] {
    [
        Failing {
            lines: b"version\n",
            fails: input(&[0]),
            out: b"",
            err: b"gdbmtool: input fault\n",
            answers: &[],
            faults: (0, 0),
        },
        Failing {
            lines: b"version\nfetch k\nversion",
            fails: input(&[1]),
            out: b"GDBM version 1.23\n",
            err: b"gdbmtool: 2: error 15 ItemNotFound\ngdbmtool: input fault\n",
            answers: &[DONE, NOT_FOUND],
            faults: (0, 0),
        },
        // Standard error fails too, at what it is told of the input.
        Failing {
            lines: b"version\n",
            fails: Fails {
                input: &[1],
                out: &[],
                err: &[0],
            },
            out: b"GDBM version 1.23\n",
            err: b"",
            answers: &[DONE],
            faults: (0, 0),
        },
    ]
}

#[test]
fn an_input_that_fails_ends_a_run(rt: HostRuntime) -> Result<(), Fail> {
    for row in &inputs() {
        assert!(rt; fails(rt.alloc(), row)?);
    }
    Ok(())
}

const LINES: &[u8] = b"version\nstore k v\nfetch k\ncount\nfetch x\nlist\nversion\n";

const SINK_FAULT: Answer = Answer::Command(Reply::SinkFault);

fn outputs() -> [Failing; 4] {
    [
        Failing {
            lines: LINES,
            fails: out(&[0]),
            out: b"",
            err: b"gdbmtool: output fault\n",
            answers: &[SINK_FAULT],
            faults: (1, 0),
        },
        Failing {
            lines: LINES,
            fails: out(&[1]),
            out: b"GDBM version 1.23\n",
            err: b"gdbmtool: output fault\n",
            answers: &[DONE, DONE, SINK_FAULT],
            faults: (1, 0),
        },
        Failing {
            lines: LINES,
            fails: out(&[2]),
            out: b"GDBM version 1.23\nv\n",
            err: b"gdbmtool: output fault\n",
            answers: &[DONE, DONE, DONE, SINK_FAULT],
            faults: (1, 0),
        },
        Failing {
            lines: LINES,
            fails: out(&[3]),
            out: b"GDBM version 1.23\nv\n1\n",
            err: b"gdbmtool: 5: error 15 ItemNotFound\ngdbmtool: output fault\n",
            answers: &[DONE, DONE, DONE, DONE, NOT_FOUND, SINK_FAULT],
            faults: (1, 0),
        },
    ]
}

#[test]
fn an_output_that_fails_ends_a_run(rt: HostRuntime) -> Result<(), Fail> {
    for row in &outputs() {
        assert!(rt; fails(rt.alloc(), row)?);
    }
    Ok(())
}

fn errors() -> [Failing; 3] {
    [
        Failing {
            lines: b"version\nfetch k\nversion\n",
            fails: err(&[0]),
            out: b"GDBM version 1.23\n",
            err: b"",
            answers: &[DONE, NOT_FOUND],
            faults: (0, 1),
        },
        Failing {
            lines: b"fetch k\nversion\ndelete k\nversion\n",
            fails: err(&[1]),
            out: b"GDBM version 1.23\n",
            err: b"gdbmtool: 1: error 15 ItemNotFound\n",
            answers: &[NOT_FOUND, DONE, NOT_FOUND],
            faults: (0, 1),
        },
        // At what it is told of the output.
        Failing {
            lines: b"version\n",
            fails: Fails {
                input: &[],
                out: &[0],
                err: &[0],
            },
            out: b"",
            err: b"",
            answers: &[SINK_FAULT],
            faults: (1, 0),
        },
    ]
}

#[test]
fn a_standard_error_that_fails_ends_a_run(rt: HostRuntime) -> Result<(), Fail> {
    for row in &errors() {
        assert!(rt; fails(rt.alloc(), row)?);
    }
    Ok(())
}

#[test]
fn a_run_that_failed_leaves_what_it_stored(rt: HostRuntime) -> Result<(), Fail> {
    let alloc = rt.alloc();
    let mut vault = MemVault::plain(alloc);
    let mut script = Trial {
        opening: Opening::WrCreat,
        block: 512,
        lines: b"store k v\nversion\nstore k w\n",
        fails: out(&[0]),
    };
    assert!(rt; play(alloc, &mut vault, &script)?.script.status == 1);
    script.lines = b"list\n";
    script.fails = no_fails();
    assert!(rt; play(alloc, &mut vault, &script)?.out.bytes() == b"k v\n".as_slice());
    Ok(())
}
