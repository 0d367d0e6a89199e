use crate::trial::{Counted, Trial};
use gd_format::Extent;
use std::alloc::Global;
use std::process::Abort;
use std::test::Fail;

#[test]
fn few_bytes_come_from_the_bucket(rt: HostRuntime) -> Result<(), Fail> {
    let Some(mut trial) = Trial::new(rt.alloc(), 8192) else {
        return Err("no memory".into());
    };
    let new = trial.count(rt.alloc(), &[]);
    assert!(rt; new.is_some_and(|c| c.free == 512 && c.lost == 0));
    let at = trial.take(2);
    assert!(rt; at.is_some_and(|at| at >= 1536 && at <= 2046));
    assert!(rt; trial.next_block() == 2048);
    Ok(())
}

#[test]
fn many_bytes_make_the_file_grow(rt: HostRuntime) -> Result<(), Fail> {
    let Some(mut trial) = Trial::new(rt.alloc(), 8192) else {
        return Err("no memory".into());
    };
    let at = trial.take(600);
    assert!(rt; at.is_some_and(|at| at >= 2048 && at <= 2472));
    assert!(rt; trial.next_block() == 3072);
    let now = trial.count(rt.alloc(), &[]);
    assert!(rt; now.is_some_and(|c| c.free == 936 && c.lost == 600));
    Ok(())
}

#[test]
fn four_bytes_are_forgotten(rt: HostRuntime) -> Result<(), Fail> {
    let Some(mut trial) = Trial::new(rt.alloc(), 8192) else {
        return Err("no memory".into());
    };
    let Some(at) = trial.take(4) else {
        return Err("refused".into());
    };
    let before = trial.count(rt.alloc(), &[]);
    assert!(rt; trial.give(at, 4));
    assert!(rt; trial.count(rt.alloc(), &[]) == before && before.is_some());
    Ok(())
}

// What the file has of free space, where no extents meet.
fn counted(rt: &impl Abort, alloc: Global, trial: &Trial, used: &[Extent]) -> Counted {
    match trial.count(alloc, used) {
        Some(counted) => counted,
        None => {
            assert!(rt; false, "extents meet, or there is no memory");
            Counted {
                free: 0,
                lost: 0,
                table: 0,
                bucket: 0,
                blocks: 0,
            }
        }
    }
}

// Takes n bytes, and keeps them among those in use.
fn take_one(trial: &mut Trial, used: &mut Vec<Extent>, n: u32) -> Result<(), Fail> {
    let Some(at) = trial.take(n) else {
        return Err("refused".into());
    };
    used.push(Extent { at, size: n })?;
    Ok(())
}

// Gives back the extent at a place of those in use.
fn give_one(trial: &mut Trial, used: &mut Vec<Extent>, place: usize) -> Result<(), Fail> {
    if place >= used.len() {
        return Err("none in use".into());
    }
    let e = used.swap_remove(place);
    if !trial.give(e.at, e.size) {
        return Err("refused".into());
    }
    Ok(())
}

// Gives extents back until the table has so many extents or the stack so many blocks.
fn give_until(
    rt: &impl Abort,
    alloc: Global,
    trial: &mut Trial,
    used: &mut Vec<Extent>,
    table: usize,
    blocks: u64,
) -> Result<Counted, Fail> {
    for _i in 0..60 {
        let now = counted(rt, alloc, trial, used.as_slice());
        if now.table >= table || now.blocks >= blocks {
            return Ok(now);
        }
        give_one(trial, used, 0)?;
    }
    Err("too many".into())
}

#[test]
fn a_full_table_is_pushed_and_taken_back(rt: HostRuntime) -> Result<(), Fail> {
    let alloc = rt.alloc();
    let Some(mut trial) = Trial::new(alloc, 65536) else {
        return Err("no memory".into());
    };
    let mut used = Vec::with_capacity(alloc, 400)?;
    for _i in 0..100 {
        take_one(&mut trial, &mut used, 40)?;
    }
    let full = give_until(&rt, alloc, &mut trial, &mut used, 28, 1)?;
    assert!(rt; full.table == 28 && full.bucket == 6 && full.blocks == 0);
    let pushed = give_until(&rt, alloc, &mut trial, &mut used, 29, 1)?;
    assert!(rt; pushed.table == 15 && pushed.blocks == 1);
    assert!(rt; trial.is_clear(256));
    let again = give_until(&rt, alloc, &mut trial, &mut used, 28, 2)?;
    assert!(rt; again.table == 28 && again.blocks == 1);
    assert!(rt; trial.recut(26));
    let recut = counted(&rt, alloc, &trial, used.as_slice());
    assert!(rt; recut.table <= 26 && recut.blocks == 2 && trial.is_clear(256));
    for _i in 0..200 {
        let now = counted(&rt, alloc, &trial, used.as_slice());
        if now.blocks == 0 {
            return Ok(());
        }
        take_one(&mut trial, &mut used, 40)?;
    }
    Err("blocks are left".into())
}

// The next of a fixed row of numbers.
fn next_number(state: u64) -> u64 {
    state
        .wrapping_mul(6_364_136_223_846_793_005)
        .wrapping_add(1_442_695_040_888_963_407)
}

// One take or one give, as the number says.
fn one_step(trial: &mut Trial, used: &mut Vec<Extent>, number: u64) -> Result<(), Fail> {
    let size = (number >> 40) % 300;
    let len = used.len() as u64;
    if len == 0 || (number >> 60 < 8 && len < 300) {
        return take_one(trial, used, size as u32 + 1);
    }
    give_one(trial, used, ((number >> 20) % len) as usize)
}

#[test]
fn ten_thousand_steps(rt: HostRuntime) -> Result<(), Fail> {
    let alloc = rt.alloc();
    let Some(mut trial) = Trial::new(alloc, 1 << 20) else {
        return Err("no memory".into());
    };
    let mut used = Vec::with_capacity(alloc, 400)?;
    let mut number = 1;
    for i in 0..100 {
        for _j in 0..100 {
            number = next_number(number);
            one_step(&mut trial, &mut used, number)?;
        }
        let now = counted(&rt, alloc, &trial, used.as_slice());
        assert!(rt; now.lost <= (i + 1) * 3200);
    }
    Ok(())
}
