//! Records that are stored, fetched and deleted in one bucket.

use crate::play::{Trial, bytes_of, no_fails, play};
use crate::rows::{CANNOT_REPLACE, DONE, NOT_FOUND, Row, holds, holds_over};
use gd_lang::Opening;
use gd_memvault::MemVault;
use std::process::Abort;
use std::test::Fail;

fn rows() -> [Row<'static>; 6] {
    [
        // A key and a value without bytes.
        Row {
            lines: b"store \"\" \"\"\nfetch \"\"\ncount\nfirst\nlist\nnext\ndelete \"\"\ncount\nfetch \"\"\n",
            out: b"\n1\n \n \n0\n",
            err: b"gdbmtool: 6: error 15 ItemNotFound\ngdbmtool: 9: error 15 ItemNotFound\n",
            status: 2,
            answers: &[
                DONE, DONE, DONE, DONE, DONE, NOT_FOUND, DONE, DONE, NOT_FOUND,
            ],
        },
        Row {
            lines: b"insert k v\ninsert k w\nfetch k\ncount\ndelete k\ndelete k\n",
            out: b"v\n1\n",
            err: b"gdbmtool: 2: error 16 CannotReplace\ngdbmtool: 6: error 15 ItemNotFound\n",
            status: 2,
            answers: &[DONE, CANNOT_REPLACE, DONE, DONE, DONE, NOT_FOUND],
        },
        Row {
            lines: b"store k v\nstore k longer\nfetch k\nstore k \"\"\nfetch k\ncount",
            out: b"longer\n\n1\n",
            err: b"",
            status: 0,
            answers: &[DONE, DONE, DONE, DONE, DONE, DONE],
        },
        // An empty database.
        Row {
            lines: b"count\nlist\nfirst\nnext\nnext k\nfetch k\ndelete k\ncount",
            out: b"0\n0\n",
            err: b"gdbmtool: 3: error 15 ItemNotFound\ngdbmtool: 4: error 15 ItemNotFound\ngdbmtool: 5: error 15 ItemNotFound\ngdbmtool: 6: error 15 ItemNotFound\ngdbmtool: 7: error 15 ItemNotFound\n",
            status: 2,
            answers: &[
                DONE, DONE, NOT_FOUND, NOT_FOUND, NOT_FOUND, NOT_FOUND, NOT_FOUND, DONE,
            ],
        },
        // Three keys of one hash, whose home is the last slot but one of 16.
        Row {
            lines: b"store A----z a\nstore C----y b\nstore E----x c\ndelete A----z\nfetch C----y\nfetch E----x\ncount\nlist",
            out: b"b\nc\n2\nC----y b\nE----x c\n",
            err: b"",
            status: 0,
            answers: &[DONE, DONE, DONE, DONE, DONE, DONE, DONE, DONE],
        },
        // The key behind the one last printed, or behind a key that is named.
        Row {
            lines: b"store A----z a\nstore C----y b\nstore E----x c\nnext\nfirst\nnext\nnext\nnext\nnext E----x\nnext\nnext k\nnext",
            out: b"E----x c\nA----z a\nC----y b\nA----z a\nC----y b\n",
            err: b"gdbmtool: 4: error 15 ItemNotFound\ngdbmtool: 8: error 15 ItemNotFound\ngdbmtool: 11: error 15 ItemNotFound\ngdbmtool: 12: error 15 ItemNotFound\n",
            status: 2,
            answers: &[
                DONE, DONE, DONE, NOT_FOUND, DONE, DONE, DONE, NOT_FOUND, DONE, DONE, NOT_FOUND,
                NOT_FOUND,
            ],
        },
    ]
}

#[test]
fn records_are_kept(rt: HostRuntime) -> Result<(), Fail> {
    for row in &rows() {
        assert!(rt; holds(rt.alloc(), Opening::NewDb, 512, row)?);
    }
    Ok(())
}

#[test]
fn an_empty_key_is_kept_in_large_blocks(rt: HostRuntime) -> Result<(), Fail> {
    let row = Row {
        lines: b"store \"\" \"\"\nfetch \"\"\ncount",
        out: b"\n1\n",
        err: b"",
        status: 0,
        answers: &[DONE, DONE, DONE],
    };
    assert!(rt; holds(rt.alloc(), Opening::NewDb, 4096, &row)?);
    Ok(())
}

#[test]
fn a_refused_insert_leaves_every_byte(rt: HostRuntime) -> Result<(), Fail> {
    let alloc = rt.alloc();
    let mut vault = MemVault::plain(alloc);
    let script = Trial {
        opening: Opening::NewDb,
        block: 512,
        lines: b"insert k v\n",
        fails: no_fails(),
    };
    assert!(rt; play(alloc, &mut vault, &script)?.script.status == 0);
    let before = bytes_of(alloc, &mut vault)?;
    let row = Row {
        lines: b"insert k w\nfetch k",
        out: b"v\n",
        err: b"gdbmtool: 1: error 16 CannotReplace\n",
        status: 2,
        answers: &[CANNOT_REPLACE, DONE],
    };
    assert!(rt; holds_over(alloc, &mut vault, Opening::WrCreat, 512, &row)?);
    assert!(rt; bytes_of(alloc, &mut vault)? == before);
    Ok(())
}
