use crate::sums::lost_bytes;
use crate::trial::Trial;
use std::test::Fail;

// The next of a fixed row of numbers.
fn next_number(state: u64) -> u64 {
    state
        .wrapping_mul(6_364_136_223_846_793_005)
        .wrapping_add(1_442_695_040_888_963_407)
}

// One take or one give, as the number says.
fn one_step(trial: Trial, number: u64) -> Option<Trial> {
    let size = (number >> 40) % 300;
    let len = trial.in_use();
    if len == 0 || (number >> 60 < 8 && len < 300) {
        return trial.take(size as u32 + 1);
    }
    trial.give(((number >> 20) % len as u64) as usize)
}

// A hundred of them.
fn hundred_steps(trial: Trial, start: u64) -> Option<(Trial, u64)> {
    let mut trial = trial;
    let mut number = start;
    for _i in 0..100 {
        number = next_number(number);
        trial = one_step(trial, number)?;
    }
    Some((trial, number))
}

#[test]
fn ten_thousand_takes_and_gives(rt: HostRuntime) -> Result<(), Fail> {
    let alloc = rt.alloc();
    let mut trial = Trial::new(alloc)?;
    let mut number = 1;
    for i in 0u64..100 {
        let Some((after, last)) = hundred_steps(trial, number) else {
            return Err("refused".into());
        };
        trial = after;
        number = last;
        // Each call loses 32 bytes at most.
        assert!(rt; lost_bytes(alloc, &trial)? <= (i + 1) * 3200);
    }
    Ok(())
}

// Takes ten bytes a hundred and twenty times, and gives some back until the table has given one half to a block of the stack.
fn filled(trial: Trial) -> Option<Trial> {
    let mut trial = trial;
    for _i in 0..120 {
        trial = trial.take(10)?;
    }
    for i in 0..60 {
        if trial.top() == 0 {
            trial = trial.give(i)?;
        }
    }
    Some(trial)
}

#[test]
fn a_block_of_the_stack_is_taken_back_before_room_is_taken(rt: HostRuntime) -> Result<(), Fail> {
    let Some(mut trial) = filled(Trial::new(rt.alloc())?) else {
        return Err("refused".into());
    };
    assert!(rt; trial.top() != 0);
    for _i in 0..20 {
        // Extents of ten bytes are at hand all the time.
        let is_due = trial.table_len() < 14;
        let Some(after) = trial.take(10) else {
            return Err("refused".into());
        };
        trial = after;
        assert!(rt; (trial.top() == 0) == is_due);
        if is_due {
            assert!(rt; trial.table_len() > 20);
            return Ok(());
        }
    }
    Err("never taken back".into())
}
