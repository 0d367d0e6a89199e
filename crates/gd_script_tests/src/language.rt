//! Lines, names of commands, words and variables.

use crate::rows::{
    AMBIGUOUS, ARGUMENTS, DONE, ESCAPE, NOT_FOUND, NOT_OPEN, NOTHING, QUIT, QUOTE, Row, TEXT,
    UNBUILT, UNKNOWN, holds,
};
use gd_lang::Opening;
use std::process::Abort;
use std::test::Fail;

fn lines() -> [Row<'static>; 6] {
    [
        Row {
            lines: b"x\nf k\nfetch \"k\nfetch \"\\q\"\nfetch\nclose\ncount\n",
            out: b"",
            err: b"gdbmtool: 1: UnknownCommand\ngdbmtool: 2: Ambiguous\ngdbmtool: 3: Quote\ngdbmtool: 4: Escape\ngdbmtool: 5: Arguments\ngdbmtool: 7: error 26 NotOpen\n",
            status: 2,
            answers: &[UNKNOWN, AMBIGUOUS, QUOTE, ESCAPE, ARGUMENTS, DONE, NOT_OPEN],
        },
        Row {
            lines: b"",
            out: b"",
            err: b"",
            status: 0,
            answers: &[],
        },
        Row {
            lines: b"\n  \t\r\n# a comment\nver # a comment\nversion\r",
            out: b"GDBM version 1.23\nGDBM version 1.23\n",
            err: b"",
            status: 0,
            answers: &[NOTHING, NOTHING, NOTHING, DONE, DONE],
        },
        Row {
            lines: b"{\n,\n\"\" x\nversion x\nversion ,\nst\nsto k v\nfe k",
            out: b"v\n",
            err: b"gdbmtool: 1: UnknownCommand\ngdbmtool: 2: UnknownCommand\ngdbmtool: 3: Ambiguous\ngdbmtool: 4: Arguments\ngdbmtool: 5: Arguments\ngdbmtool: 6: Ambiguous\n",
            status: 2,
            answers: &[
                UNKNOWN, UNKNOWN, AMBIGUOUS, ARGUMENTS, ARGUMENTS, AMBIGUOUS, DONE, DONE,
            ],
        },
        Row {
            lines: b"count\nq\nx\ncount\n",
            out: b"0\n",
            err: b"",
            status: 0,
            answers: &[DONE, QUIT],
        },
        Row {
            lines: b"sync\nheader\nrecover",
            out: b"",
            err: b"gdbmtool: 1: Unbuilt\ngdbmtool: 2: Unbuilt\ngdbmtool: 3: Unbuilt\n",
            status: 2,
            answers: &[UNBUILT, UNBUILT, UNBUILT],
        },
    ]
}

#[test]
fn lines_are_read_to_commands(rt: HostRuntime) -> Result<(), Fail> {
    for row in &lines() {
        assert!(rt; holds(rt.alloc(), Opening::WrCreat, 512, row)?);
    }
    Ok(())
}

fn words() -> [Row<'static>; 4] {
    [
        Row {
            lines: b"store \"a b\"c \"\\101\\n\\\"\\\\\\377\"\nfetch \"a bc\"\nfirst\n",
            out: b"A\\012\\\"\\\\\\377\na bc A\\012\\\"\\\\\\377\n",
            err: b"",
            status: 0,
            answers: &[DONE, DONE, DONE],
        },
        Row {
            lines: b"store { k } { v }\nfetch k\nstore { k, l } v\nstore k { v , w }\nstore { } v\nfetch { k\ndelete { k, }\nfetch { k }",
            out: b"v\nv\n",
            err: b"gdbmtool: 3: type error Text\ngdbmtool: 4: type error Text\ngdbmtool: 5: Arguments\ngdbmtool: 6: Arguments\ngdbmtool: 7: Arguments\n",
            status: 2,
            answers: &[
                DONE, DONE, TEXT, TEXT, ARGUMENTS, ARGUMENTS, ARGUMENTS, DONE,
            ],
        },
        Row {
            lines: b"store a\\b c#d # e\nfetch a\\b\nfetch a#",
            out: b"c#d\n",
            err: b"gdbmtool: 3: error 15 ItemNotFound\n",
            status: 2,
            answers: &[DONE, DONE, NOT_FOUND],
        },
        Row {
            lines: b"fetch \"\\400\"\nfetch \"\\8\"\nfetch \"\\\nfetch \"\\12\nfetch k\"\n",
            out: b"",
            err: b"gdbmtool: 1: Escape\ngdbmtool: 2: Escape\ngdbmtool: 3: Quote\ngdbmtool: 4: Quote\ngdbmtool: 5: Quote\n",
            status: 2,
            answers: &[ESCAPE, ESCAPE, QUOTE, QUOTE, QUOTE],
        },
    ]
}

#[test]
fn words_are_data(rt: HostRuntime) -> Result<(), Fail> {
    for row in &words() {
        assert!(rt; holds(rt.alloc(), Opening::WrCreat, 512, row)?);
    }
    Ok(())
}

fn variables() -> [Row<'static>; 3] {
    [
        Row {
            lines: b"set\nset open=readonly\nset delim1=\"\\t;\"\nset cachesize=7\nset blocksize=1048576\nset format=numsync\nset",
            out: b"blocksize=512\ncachesize=100\ndelim1=,\nformat=standard\nopen=wrcreat\nblocksize=1048576\ncachesize=7\ndelim1=\\011;\nformat=numsync\nopen=reader\n",
            err: b"",
            status: 0,
            answers: &[DONE, DONE, DONE, DONE, DONE, DONE, DONE],
        },
        Row {
            lines: b"set open=newdb\nset open=rw\nset delim1=\nset blocksize=0\nset cachesize=4096\nset",
            out: b"blocksize=0\ncachesize=4096\ndelim1=\nformat=standard\nopen=wrcreat\n",
            err: b"",
            status: 0,
            answers: &[DONE, DONE, DONE, DONE, DONE, DONE],
        },
        Row {
            lines: b"set blocksize=1048577\nset cachesize=0\nset cachesize=4097\nset cachesize=01\nset delim1=12345678901234567\nset format=x\nset open=old\nset color=1\nset open\nset a b\nset",
            out: b"blocksize=512\ncachesize=100\ndelim1=,\nformat=standard\nopen=wrcreat\n",
            err: b"gdbmtool: 1: Arguments\ngdbmtool: 2: Arguments\ngdbmtool: 3: Arguments\ngdbmtool: 4: Arguments\ngdbmtool: 5: Arguments\ngdbmtool: 6: Arguments\ngdbmtool: 7: Arguments\ngdbmtool: 8: Arguments\ngdbmtool: 9: Arguments\ngdbmtool: 10: Arguments\n",
            status: 2,
            answers: &[
                ARGUMENTS, ARGUMENTS, ARGUMENTS, ARGUMENTS, ARGUMENTS, ARGUMENTS, ARGUMENTS,
                ARGUMENTS, ARGUMENTS, ARGUMENTS, DONE,
            ],
        },
    ]
}

#[test]
fn variables_are_set_and_shown(rt: HostRuntime) -> Result<(), Fail> {
    for row in &variables() {
        assert!(rt; holds(rt.alloc(), Opening::WrCreat, 512, row)?);
    }
    Ok(())
}
