//! Files that are damaged.

use crate::changes::{Change, buckets, free_space, headers};
use crate::play::{bytes_of, vault_with};
use crate::rows::{DONE, Row, holds_over};
use crate::small_file::{put, small_file};
use gd_base::DbError;
use gd_lang::Opening;
use gd_script::Answer;
use gd_session::Reply;
use std::alloc::Global;
use std::process::Abort;
use std::test::Fail;

// Does a run that is refused by the file say so, and leave the file?
fn is_refused(
    alloc: Global,
    file: &[u8],
    opening: Opening,
    error: DbError,
    line: &[u8],
) -> Result<bool, Fail> {
    let mut vault = vault_with(alloc, file)?;
    let row = Row {
        lines: b"count",
        out: b"",
        err: line,
        status: 2,
        answers: &[Answer::Command(Reply::Refused(error))],
    };
    let same = holds_over(alloc, &mut vault, opening, 512, &row)?;
    Ok(same && bytes_of(alloc, &mut vault)?.as_slice() == file)
}

// Are both kinds of opening answered as a change says?
fn is_answered(alloc: Global, change: &Change) -> Result<bool, Fail> {
    let mut file = small_file(alloc)?;
    put(&mut file, change.at, change.bytes);
    file.truncate(change.len);
    let writer = is_refused(alloc, &file, Opening::WrCreat, change.error, change.line)?;
    if !change.reader {
        let mut vault = vault_with(alloc, &file)?;
        return Ok(writer && holds_over(alloc, &mut vault, Opening::Reader, 512, &whole())?);
    }
    let reader = is_refused(alloc, &file, Opening::Reader, change.error, change.line)?;
    Ok(writer && reader)
}

// What is read of a file that is readable.
fn whole() -> Row<'static> {
    Row {
        lines: b"fetch k\nlist\ncount",
        out: b"v\nk v\n1\n",
        err: b"",
        status: 0,
        answers: &[DONE, DONE, DONE],
    }
}

#[test]
fn a_sound_file_is_answered(rt: HostRuntime) -> Result<(), Fail> {
    let alloc = rt.alloc();
    let file = small_file(alloc)?;
    let mut vault = vault_with(alloc, &file)?;
    assert!(rt; holds_over(alloc, &mut vault, Opening::WrCreat, 512, &whole())?);
    Ok(())
}

#[test]
fn damaged_headers_are_refused(rt: HostRuntime) -> Result<(), Fail> {
    for change in &headers() {
        assert!(rt; is_answered(rt.alloc(), change)?);
    }
    Ok(())
}

#[test]
fn damaged_buckets_are_refused(rt: HostRuntime) -> Result<(), Fail> {
    for change in &buckets() {
        assert!(rt; is_answered(rt.alloc(), change)?);
    }
    Ok(())
}

#[test]
fn damaged_free_space_is_refused_to_a_writer(rt: HostRuntime) -> Result<(), Fail> {
    for change in &free_space() {
        assert!(rt; is_answered(rt.alloc(), change)?);
    }
    Ok(())
}
