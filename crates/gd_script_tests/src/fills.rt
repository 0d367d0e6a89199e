//! Many records that are made from a number.

use crate::rows::{ARGUMENTS, DONE, NOTHING, Row, holds};
use gd_lang::Opening;
use std::process::Abort;
use std::test::Fail;

fn rows() -> [Row<'static>; 3] {
    [
        Row {
            lines: b"fill 1 1\nlist\n",
            out: b"fill 1 new 1 replaced 0 bytes 39\nkey34774 908834774......................\n",
            err: b"",
            status: 0,
            answers: &[DONE, DONE],
        },
        Row {
            lines: b"fill 1 1\nfill 1 1\nfill 1 0\ncount",
            out: b"fill 1 new 1 replaced 0 bytes 39\nfill 1 new 0 replaced 1 bytes 39\nfill 0 new 0 replaced 0 bytes 0\n1\n",
            err: b"",
            status: 0,
            answers: &[DONE, DONE, DONE, DONE],
        },
        Row {
            lines: b"fill 18446744073709551616 1\nfill 1 1000001\nfill -1 1\nfill 1\nfill x 1\n\ncount",
            out: b"0\n",
            err: b"gdbmtool: 1: Arguments\ngdbmtool: 2: Arguments\ngdbmtool: 3: Arguments\ngdbmtool: 4: Arguments\ngdbmtool: 5: Arguments\n",
            status: 2,
            answers: &[
                ARGUMENTS, ARGUMENTS, ARGUMENTS, ARGUMENTS, ARGUMENTS, NOTHING, DONE,
            ],
        },
    ]
}

#[test]
fn records_are_made_from_a_number(rt: HostRuntime) -> Result<(), Fail> {
    for row in &rows() {
        assert!(rt; holds(rt.alloc(), Opening::NewDb, 512, row)?);
    }
    Ok(())
}

// The numbers were counted by another program, from the definition of the records.
fn many() -> Row<'static> {
    Row {
        lines: b"fill 7 20000\ncount\n",
        out: b"fill 20000 new 18198 replaced 1802 bytes 976261\n18198\n",
        err: b"",
        status: 0,
        answers: &[DONE, DONE],
    }
}

#[test]
fn many_records_are_made_from_a_number(rt: HostRuntime) -> Result<(), Fail> {
    assert!(rt; holds(rt.alloc(), Opening::NewDb, 4096, &many())?);
    Ok(())
}

#[test]
fn many_records_are_made_alike_in_another_run(rt: HostRuntime) -> Result<(), Fail> {
    assert!(rt; holds(rt.alloc(), Opening::NewDb, 4096, &many())?);
    Ok(())
}
