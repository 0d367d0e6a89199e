ghost use Rattle.std.specs.Prelude.{◌≤◌};

use crate::texts::{next_state, number_of, pair_of};
use crate::trial::Trial;
use gd_base::Format;
use std::alloc::Global;
use std::process::Abort;
use std::test::Fail;

// For each last five digits the number that was stored last, and one more, or 0.
fn no_numbers(alloc: Global) -> Option<Vec<u32>> {
    vec![in alloc; 0u32; 100_000].ok()
}

// Stores so many pairs of the command `fill`; keeps the number of each. Answers how many keys there are.
fn fill(trial: &mut Trial, last: &mut [u32], n: u32) -> Option<u64> {
    let mut state = 7;
    let mut keys = 0u64;
    for _ in 0..n {
        state = next_state(state);
        let number = number_of(state);
        let pair = pair_of(number);
        if trial.replace(&pair.key, &pair.value) != Ok(()) {
            return None;
        }
        let kept = last.get_mut(number as usize % 100_000)?;
        if *kept == 0 {
            keys = keys.checked_add(1)?;
        }
        *kept = number.checked_add(1)?;
    }
    Some(keys)
}

// Is each key there with the value that was stored last?
fn are_there(trial: &mut Trial, last: &[u32]) -> bool {
    for kept in last {
        if *kept > 0 {
            let pair = pair_of(*kept - 1);
            if !trial.has(&pair.key, &pair.value) {
                return false;
            }
        }
    }
    true
}

// Deletes each key.
fn delete_all(trial: &mut Trial, last: &[u32]) -> bool {
    for kept in last {
        if *kept > 0 {
            let pair = pair_of(*kept - 1);
            if trial.delete(&pair.key) != Ok(()) {
                return false;
            }
        }
    }
    true
}

// Stores 20,000 pairs, fetches them all and deletes them all.
fn many(rt: &impl Abort, alloc: Global, block: u32, format: Format) -> Result<(), Fail>
    requires { block ≤ 1048576 }
{
    let Some(mut trial) = Trial::new(alloc, block, format) else {
        return Err("refused".into());
    };
    let Some(mut last) = no_numbers(alloc) else {
        return Err("no memory".into());
    };
    let Some(keys) = fill(&mut trial, &mut last, 20_000) else {
        return Err("a store was refused".into());
    };
    assert!(rt; trial.is_sound(alloc));
    assert!(rt; trial.count() == Ok(keys));
    assert!(rt; are_there(&mut trial, &last));
    assert!(rt; delete_all(&mut trial, &last));
    assert!(rt; trial.is_sound(alloc));
    assert!(rt; trial.count() == Ok(0));
    Ok(())
}

#[test]
fn many_records_in_small_blocks(rt: HostRuntime) -> Result<(), Fail> {
    many(&rt, rt.alloc(), 512, Format::Standard)
}

#[test]
fn many_records_in_large_blocks(rt: HostRuntime) -> Result<(), Fail> {
    many(&rt, rt.alloc(), 4096, Format::Numsync)
}
