use crate::rows::{Row, cloned, closed, failing, kept, moved, not_closed, streamed, written};
use crate::steps::do_step;
use gd_memvault::MemVault;
use gd_vault::Vault;
use std::alloc::Global;
use std::test::Fail;

// Does the steps of rows, and refuses the first of which something else comes.
fn play(vault: &mut MemVault, alloc: Global, rows: &[Row]) -> Result<(), Fail> {
    for (shows, step, answer) in rows {
        if do_step(vault, alloc, *step)? != *answer {
            return Err((*shows).into());
        }
    }
    Ok(())
}

fn play_new(alloc: Global, rows: &[Row]) -> Result<(), Fail> {
    let mut vault = MemVault::plain(alloc);
    play(&mut vault, alloc, rows)
}

#[test]
fn both_vaults_do_their_calls(rt: HostRuntime) -> Result<(), Fail> {
    let alloc = rt.alloc();
    let mut plain = MemVault::plain(alloc);
    play(&mut plain, alloc, &kept())?;
    let mut whole = MemVault::new(alloc);
    play(&mut whole, alloc, &kept())?;
    assert_eq!(rt; plain.moment(), 0);
    assert_eq!(rt; whole.moment(), 18);
    Ok(())
}

#[test]
fn a_file_is_a_sink_and_a_source(rt: HostRuntime) -> Result<(), Fail> {
    play_new(rt.alloc(), &streamed())
}

#[test]
fn calls_fail_where_they_are_listed(rt: HostRuntime) -> Result<(), Fail> {
    play_new(rt.alloc(), &failing())
}

#[test]
fn a_write_is_left_in_three_ways(rt: HostRuntime) -> Result<(), Fail> {
    play_new(rt.alloc(), &written())
}

#[test]
fn a_mode_that_is_not_synced_is_left_old_or_new(rt: HostRuntime) -> Result<(), Fail> {
    play_new(rt.alloc(), &closed())
}

#[test]
fn a_mode_that_failed_to_be_set_is_left_old_or_new(rt: HostRuntime) -> Result<(), Fail> {
    play_new(rt.alloc(), &not_closed())
}

#[test]
fn a_name_that_is_not_synced_is_left_old_or_new(rt: HostRuntime) -> Result<(), Fail> {
    play_new(rt.alloc(), &moved())
}

#[test]
fn a_clone_that_is_not_synced_is_left_with_other_bytes(rt: HostRuntime) -> Result<(), Fail> {
    play_new(rt.alloc(), &cloned())
}
