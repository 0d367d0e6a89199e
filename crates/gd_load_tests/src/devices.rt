//! Inputs, vaults and standard errors that fail, each at each of its calls.

use crate::run::{DUMP, add, calls, count, ended, front, run, source};
use gd_memvault::MemVault;
use std::alloc::Global;
use std::process::Abort;
use std::test::Fail;

// The whole dump comes by one read, and a second one finds the end.
#[test]
fn an_input_that_fails_is_told(rt: HostRuntime) -> Result<(), Fail> {
    let alloc = rt.alloc();
    for (call, records) in [(0, None), (1, Some(0))] {
        let mut vault = MemVault::plain(alloc);
        let mut input = source(alloc, front(120), &[call])?;
        let told = run(alloc, &["-", "b.gdbm"], &mut input, &[], &mut vault)?;
        let holds = ended(&told, 1, b"gdbm_load: input fault\n")
            && count(alloc, &mut vault, "b.gdbm")? == records;
        assert!(&rt; holds);
    }
    Ok(())
}

// What the run says where one call of the vault fails, or nothing where none did.
fn says_with(alloc: Global, words: &[&str], call: u64) -> Result<Option<bool>, Fail> {
    let mut vault = MemVault::plain(alloc);
    add(alloc, &mut vault, "d.txt", DUMP)?;
    vault.fail_calls(calls(alloc, &[call])?);
    let mut input = source(alloc, DUMP, &[])?;
    let told = run(alloc, words, &mut input, &[], &mut vault)?;
    if ended(&told, 0, b"") {
        return Ok(None);
    }
    Ok(Some(ended(&told, 1, b"gdbm_load: error 27 VaultFault\n")))
}

// The calls of a run fail one after another, up to a run without a failure.
fn all_say(alloc: Global, words: &[&str]) -> Result<bool, Fail> {
    for call in 0..200 {
        match says_with(alloc, words, call)? {
            Some(true) => {}
            Some(false) => return Ok(false),
            None => return Ok(5 < call),
        }
    }
    Ok(false)
}

#[test]
fn each_call_of_the_vault_that_fails_is_told(rt: HostRuntime) -> Result<(), Fail> {
    let alloc = rt.alloc();
    let rows: [&[&str]; 3] = [&["-", "b.gdbm"], &["d.txt"], &["-U", "d.txt", "b.gdbm"]];
    for words in &rows {
        let holds = all_say(alloc, words)?;
        assert!(&rt; holds);
    }
    Ok(())
}

#[test]
fn a_standard_error_that_fails_has_status_1_and_refused_words_3(
    rt: HostRuntime,
) -> Result<(), Fail> {
    let alloc = rt.alloc();
    let rows: [(&[&str], u8); 2] = [(&["x.txt"], 1), (&["-x"], 3)];
    for (words, status) in &rows {
        let mut vault = MemVault::plain(alloc);
        let mut input = source(alloc, DUMP, &[])?;
        let told = run(alloc, words, &mut input, &[0], &mut vault)?;
        let holds = ended(&told, *status, b"");
        assert!(&rt; holds);
    }
    Ok(())
}
