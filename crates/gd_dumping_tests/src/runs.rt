//! Runs of `gdbm_dump` over memory.

use crate::failing::Failing;
use gd_base::{CallList, Datum, MemSink, Name};
use gd_dumping::dump_by_words;
use gd_memvault::MemVault;
use gd_vault::{Mode, Vault};
use std::alloc::Global;
use std::test::Fail;

/// What a run leaves: its status, and what it wrote.
#[derive(Drop)]
pub struct Ran {
    pub status: u8,
    pub out: MemSink,
    pub err: MemSink,
}

fn sink(alloc: Global, fails: &[u64]) -> Result<MemSink, Fail> {
    Ok(MemSink::new(alloc, CallList::from_slice(alloc, fails)?))
}

fn words_of(alloc: Global, words: &[&str]) -> Result<Vec<String>, Fail> {
    let mut all = Vec::new(alloc);
    for word in words {
        all.push(String::from_str(alloc, word)?)?;
    }
    Ok(all)
}

/// Runs `gdbm_dump` over a vault. The output and standard error fail at the calls with these numbers, counted from 0.
pub fn run_over<V: Vault>(
    alloc: Global,
    words: &[&str],
    vault: &mut V,
    out_fails: &[u64],
    err_fails: &[u64],
) -> Result<Ran, Fail> {
    let words = words_of(alloc, words)?;
    let mut out = sink(alloc, out_fails)?;
    let mut err = sink(alloc, err_fails)?;
    let status = dump_by_words(alloc, &words, &mut out, &mut err, vault);
    Ok(Ran { status, out, err })
}

/// A vault with one file.
pub fn vault_of(alloc: Global, name: &str, file: Vec<u8>) -> Result<MemVault, Fail> {
    let mut vault = MemVault::plain(alloc);
    vault.add_file(Name::new(alloc, name)?, Datum::from(file), Mode::Both, 0)?;
    Ok(vault)
}

/// Dumps a file over a vault whose calls with these numbers fail.
pub fn run_file(alloc: Global, file: &[u8], fails: &[u64]) -> Result<Ran, Fail> {
    let mut vault = vault_of(alloc, "a", file.to_vec(alloc)?)?;
    vault.fail_calls(CallList::from_slice(alloc, fails)?);
    run_over(alloc, &["a"], &mut vault, &[], &[])
}

/// Dumps a file that is cut to a length before a read.
pub fn run_cut(alloc: Global, file: &[u8], reads: u64, cut: usize) -> Result<Ran, Fail> {
    let mut vault = Failing {
        bytes: file.to_vec(alloc)?,
        calls: u64::MAX,
        reads,
        cut,
        faults: 0,
    };
    run_over(alloc, &["a"], &mut vault, &[], &[])
}

/// Dumps a file of a vault that fails from a call on. Answers what it leaves, and how many calls failed.
pub fn run_failing(alloc: Global, calls: u64) -> Result<(Ran, u64), Fail> {
    let mut vault = Failing {
        bytes: Vec::new(alloc),
        calls,
        reads: 0,
        cut: 0,
        faults: 0,
    };
    let ran = run_over(alloc, &["a"], &mut vault, &[], &[])?;
    Ok((ran, vault.faults))
}
