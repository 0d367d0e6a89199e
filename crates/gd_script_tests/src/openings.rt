//! How a database is opened, closed and opened again.

use crate::play::vault_with;
use crate::rows::{
    ABSENT, ARGUMENTS, DONE, NOT_FOUND, NOT_OPEN, READER_CANT, Row, holds, holds_over,
};
use gd_lang::Opening;
use gd_memvault::MemVault;
use std::process::Abort;
use std::test::Fail;

fn reader() -> Row<'static> {
    Row {
        lines: b"count\nstore k v\nset open=wrcreat\nstore k v\nset open=reader\nopen\nfetch k\nstore k w\ninsert l v\ndelete k\nfill 1 1\nfill 1 0\nlist",
        out: b"v\nk v\n",
        err: b"gdbmtool: 1: error 1 Absent\ngdbmtool: 2: error 1 Absent\ngdbmtool: 8: error 14 ReaderCant\ngdbmtool: 9: error 14 ReaderCant\ngdbmtool: 10: error 14 ReaderCant\ngdbmtool: 11: error 14 ReaderCant\ngdbmtool: 12: error 14 ReaderCant\n",
        status: 2,
        answers: &[
            ABSENT,
            ABSENT,
            DONE,
            DONE,
            DONE,
            DONE,
            DONE,
            READER_CANT,
            READER_CANT,
            READER_CANT,
            READER_CANT,
            READER_CANT,
            DONE,
        ],
    }
}

#[test]
fn a_reader_changes_nothing(rt: HostRuntime) -> Result<(), Fail> {
    assert!(rt; holds(rt.alloc(), Opening::Reader, 512, &reader())?);
    Ok(())
}

fn names() -> Row<'static> {
    Row {
        lines: b"close\ncount\nopen\ncount\nstore k v\nopen a/b\ncount\nstore k w\nclose\nfetch k\nopen n\nfetch k\nopen a/b\nfetch k\nopen x.mode\nfetch k\nopen \"\"\nopen a b\nnext",
        out: b"0\n0\nv\nw\nw\n",
        err: b"gdbmtool: 2: error 26 NotOpen\ngdbmtool: 10: error 26 NotOpen\ngdbmtool: 15: Arguments\ngdbmtool: 17: Arguments\ngdbmtool: 18: Arguments\ngdbmtool: 19: error 15 ItemNotFound\n",
        status: 2,
        answers: &[
            DONE, NOT_OPEN, DONE, DONE, DONE, DONE, DONE, DONE, DONE, NOT_OPEN, DONE, DONE, DONE,
            DONE, ARGUMENTS, DONE, ARGUMENTS, ARGUMENTS, NOT_FOUND,
        ],
    }
}

#[test]
fn databases_are_opened_by_name(rt: HostRuntime) -> Result<(), Fail> {
    assert!(rt; holds(rt.alloc(), Opening::WrCreat, 512, &names())?);
    Ok(())
}

// What is refused at an opening leaves no database open.
fn refused() -> Row<'static> {
    Row {
        lines: b"store k v\nset open=reader\nopen m\ncount\nopen n\nfirst\nopen\nnext\nset open=newdb\nopen\ncount",
        out: b"k v\n0\n",
        err: b"gdbmtool: 3: error 1 Absent\ngdbmtool: 4: error 26 NotOpen\ngdbmtool: 8: error 15 ItemNotFound\n",
        status: 2,
        answers: &[
            DONE, DONE, ABSENT, NOT_OPEN, DONE, DONE, DONE, NOT_FOUND, DONE, DONE, DONE,
        ],
    }
}

#[test]
fn a_refused_opening_leaves_none_open(rt: HostRuntime) -> Result<(), Fail> {
    assert!(rt; holds(rt.alloc(), Opening::WrCreat, 512, &refused())?);
    Ok(())
}

// Runs one after another over one vault.
fn runs() -> [(Opening, Row<'static>); 4] {
    [
        (
            Opening::NewDb,
            Row {
                lines: b"store k v\nclose\n",
                out: b"",
                err: b"",
                status: 0,
                answers: &[DONE, DONE],
            },
        ),
        (
            Opening::Reader,
            Row {
                lines: b"list\n",
                out: b"k v\n",
                err: b"",
                status: 0,
                answers: &[DONE],
            },
        ),
        (
            Opening::WrCreat,
            Row {
                lines: b"store l w\ndelete k\nlist",
                out: b"l w\n",
                err: b"",
                status: 0,
                answers: &[DONE, DONE, DONE],
            },
        ),
        (
            Opening::NewDb,
            Row {
                lines: b"count",
                out: b"0\n",
                err: b"",
                status: 0,
                answers: &[DONE],
            },
        ),
    ]
}

#[test]
fn a_run_finds_what_the_last_one_left(rt: HostRuntime) -> Result<(), Fail> {
    let alloc = rt.alloc();
    let mut vault = MemVault::plain(alloc);
    for (opening, row) in &runs() {
        assert!(rt; holds_over(alloc, &mut vault, *opening, 512, row)?);
    }
    Ok(())
}

#[test]
fn a_file_that_is_no_database_is_made_anew(rt: HostRuntime) -> Result<(), Fail> {
    let alloc = rt.alloc();
    let mut vault = vault_with(alloc, b"no database")?;
    let row = Row {
        lines: b"count\nstore k v\nfetch k",
        out: b"0\nv\n",
        err: b"",
        status: 0,
        answers: &[DONE, DONE, DONE],
    };
    assert!(rt; holds_over(alloc, &mut vault, Opening::NewDb, 512, &row)?);
    Ok(())
}
