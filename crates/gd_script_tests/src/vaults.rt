//! Vaults that fail, and vaults that give few bytes.

use crate::play::{Played, Trial, no_fails, play};
use crate::rows::{DONE, NOT_FOUND, Row, holds_over};
use crate::small_file::small_file;
use gd_base::{CallList, DbError};
use gd_lang::Opening;
use gd_memvault::MemVault;
use gd_script::{Answer, Turn};
use gd_session::Reply;
use gd_testvault::SmallVault;
use gd_vault::Vault;
use std::alloc::Global;
use std::process::Abort;
use std::test::Fail;

const VAULT_FAULT: Answer = Answer::Command(Reply::Refused(DbError::VaultFault));

const SHORT: Answer = Answer::Command(Reply::Refused(DbError::ShortFile));

const LINES: &[u8] = b"store k v\nfetch k\nlist\ncount\nstore k w\ndelete k\n";

// What is said of a fault of the vault in each line.
fn faulted() -> [&'static [u8]; 6] {
    [
        b"gdbmtool: 1: error 27 VaultFault\n",
        b"gdbmtool: 2: error 27 VaultFault\n",
        b"gdbmtool: 3: error 27 VaultFault\n",
        b"gdbmtool: 4: error 27 VaultFault\n",
        b"gdbmtool: 5: error 27 VaultFault\n",
        b"gdbmtool: 6: error 27 VaultFault\n",
    ]
}

fn all_done(turns: &[Turn]) -> bool {
    turns.iter().all(|turn| turn.answer == DONE)
}

// Is the first turn with a fault answered so, the ones before it done, and no later one answered so?
fn are_faulted(turns: &[Turn], at: usize) -> bool {
    match (turns.get(..at), turns.get(at..)) {
        (Some(before), Some([hit, after @ ..])) => {
            all_done(before)
                && hit.answer == VAULT_FAULT
                && after.iter().all(|turn| turn.answer != VAULT_FAULT && turn.faults.vault == 1)
        }
        _ => false,
    }
}

// Does a run say in which line the vault failed, or that its closing failed?
fn says_fault(played: &Played) -> bool {
    let turns = played.script.turns.as_slice();
    let at = turns
        .iter()
        .take_while(|turn| turn.faults.vault == 0)
        .count();
    match faulted().get(at) {
        Some(line) => are_faulted(turns, at) && played.err.bytes().starts_with(line),
        None => {
            all_done(turns) && played.err.bytes() == b"gdbmtool: error 27 VaultFault\n".as_slice()
        }
    }
}

// Runs the lines over a new vault whose call of this number fails. Nothing where there was no such call.
fn run_failing(alloc: Global, call: u64) -> Result<Option<bool>, Fail> {
    let mut vault = MemVault::plain(alloc);
    vault.fail_calls(CallList::from_slice(alloc, &[call])?);
    let script = Trial {
        opening: Opening::WrCreat,
        block: 512,
        lines: LINES,
        fails: no_fails(),
    };
    let played = play(alloc, &mut vault, &script)?;
    if vault.faults() == 0 {
        return Ok(None);
    }
    let is_told = vault.faults() == 1
        && played.script.status == 1
        && played.script.turns.as_slice().len() == 6
        && says_fault(&played);
    Ok(Some(is_told))
}

#[test]
fn each_failed_call_is_told(rt: HostRuntime) -> Result<(), Fail> {
    for call in 0..500u64 {
        match run_failing(rt.alloc(), call)? {
            Some(is_told) => assert!(rt; is_told, "call {call}"),
            None => {
                assert!(rt; call > 30, "so few as {call}");
                return Ok(());
            }
        }
    }
    Err("too many calls".into())
}

#[test]
fn a_vault_that_failed_is_used_again(rt: HostRuntime) -> Result<(), Fail> {
    let alloc = rt.alloc();
    let mut vault = MemVault::plain(alloc);
    vault.fail_calls(CallList::from_slice(alloc, &[0])?);
    let refused = Row {
        lines: b"",
        out: b"",
        err: b"",
        status: 0,
        answers: &[],
    };
    assert!(rt; holds_over(alloc, &mut vault, Opening::WrCreat, 512, &refused)?);
    let script = Trial {
        opening: Opening::WrCreat,
        block: 512,
        lines: b"count\ncount\nstore k v\nfetch k",
        fails: no_fails(),
    };
    let played = play(alloc, &mut vault, &script)?;
    assert!(rt; played.script.status == 1);
    assert!(rt; played.out.bytes() == b"0\nv\n".as_slice());
    assert!(rt; played.err.bytes() == b"gdbmtool: 1: error 27 VaultFault\n".as_slice());
    Ok(())
}

#[test]
fn a_vault_that_tells_nothing_is_read(rt: HostRuntime) -> Result<(), Fail> {
    let alloc = rt.alloc();
    let mut vault = SmallVault::new(small_file(alloc)?, u64::MAX);
    let row = Row {
        lines: b"fetch k\nlist\nfetch l\ncount",
        out: b"v\nk v\n1\n",
        err: b"gdbmtool: 3: error 15 ItemNotFound\n",
        status: 2,
        answers: &[DONE, DONE, NOT_FOUND, DONE],
    };
    assert!(rt; holds_over(alloc, &mut vault, Opening::Reader, 512, &row)?);
    // Reads that give fewer bytes than the file has are taken for its end.
    vault.longest = 7;
    let short = Row {
        lines: b"fetch k\ncount",
        out: b"",
        err: b"gdbmtool: 1: error 3 ShortFile\ngdbmtool: 2: error 3 ShortFile\n",
        status: 2,
        answers: &[SHORT, SHORT],
    };
    assert!(rt; holds_over(alloc, &mut vault, Opening::Reader, 512, &short)?);
    Ok(())
}

// Fetches over a vault of whose reads so many don't fail. Answers how often they failed, and whether it is told.
fn fetch_failing(alloc: Global, calls: u64) -> Result<(u64, bool), Fail> {
    let mut vault = SmallVault::new(small_file(alloc)?, calls);
    let script = Trial {
        opening: Opening::Reader,
        block: 512,
        lines: b"fetch k\n",
        fails: no_fails(),
    };
    let played = play(alloc, &mut vault, &script)?;
    let is_told = played.script.status == 1
        && played.out.bytes().is_empty()
        && played.err.bytes() == b"gdbmtool: 1: error 27 VaultFault\n".as_slice();
    Ok((vault.faults, is_told))
}

#[test]
fn reads_that_fail_from_one_on_are_told(rt: HostRuntime) -> Result<(), Fail> {
    for calls in 0..100u64 {
        let (faults, is_told) = fetch_failing(rt.alloc(), calls)?;
        if faults == 0 {
            assert!(rt; calls > 3, "so few as {calls}");
            return Ok(());
        }
        assert!(rt; is_told, "from {calls} on");
    }
    Err("too many calls".into())
}

// A history is told beside the content; the moments of the turns rise by two a change.
#[test]
fn turns_keep_the_moment(rt: HostRuntime) -> Result<(), Fail> {
    let alloc = rt.alloc();
    let mut vault = MemVault::new(alloc);
    let script = Trial {
        opening: Opening::WrCreat,
        block: 512,
        lines: b"count\nstore k v\nfetch k\nstore l \"\"\ndelete k\nclose\n",
        fails: no_fails(),
    };
    let played = play(alloc, &mut vault, &script)?;
    let Some([made, stored, fetched, again, deleted, closed]) = played
        .script
        .turns
        .as_slice()
        .get(..)
    else {
        return Err("other turns".into());
    };
    assert!(rt; made.done > 0 && made.done % 2 == 0);
    // The key, the value, the bucket's block and the header's block.
    assert!(rt; stored.done.wrapping_sub(made.done) == 8);
    assert!(rt; fetched.done == stored.done);
    assert!(rt; again.done.wrapping_sub(fetched.done) == 6);
    assert!(rt; deleted.done.wrapping_sub(again.done) == 4);
    assert!(rt; closed.done.wrapping_sub(deleted.done) == 2);
    assert!(rt; vault.moment() == closed.done);
    Ok(())
}
