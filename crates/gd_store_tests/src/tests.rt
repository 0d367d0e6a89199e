use crate::texts::{next_state, text_of};
use crate::trial::Trial;
use gd_base::{DbError, Format};
use gd_layout::hash;
use std::process::Abort;
use std::test::Fail;

#[test]
fn a_new_database_is_empty(rt: HostRuntime) -> Result<(), Fail> {
    let Some(mut trial) = Trial::new(rt.alloc(), 512, Format::Standard) else {
        return Err("refused".into());
    };
    assert!(rt; trial.bytes().len() == 1536);
    assert!(rt; trial.count() == Ok(0));
    assert!(rt; matches!(trial.fetch(b"k"), Err(DbError::ItemNotFound)));
    assert!(rt; matches!(trial.first(), Err(DbError::ItemNotFound)));
    assert!(rt; trial.delete(b"k") == Err(DbError::ItemNotFound));
    Ok(())
}

#[test]
fn an_insert_does_not_replace(rt: HostRuntime) -> Result<(), Fail> {
    let Some(mut trial) = Trial::new(rt.alloc(), 4096, Format::Numsync) else {
        return Err("refused".into());
    };
    assert!(rt; trial.insert(b"k", b"v") == Ok(()));
    let Ok(before) = trial.bytes().to_vec(rt.alloc()) else {
        return Err("no memory".into());
    };
    assert!(rt; trial.insert(b"k", b"w") == Err(DbError::CannotReplace));
    assert!(rt; trial.bytes() == before.as_slice());
    assert!(rt; trial.has(b"k", b"v"));
    assert!(rt; trial.exists(b"k") == Ok(true));
    assert!(rt; trial.exists(b"v") == Ok(false));
    assert!(rt; trial.count() == Ok(1));
    assert!(rt; trial.replace(b"k", b"longer") == Ok(()));
    assert!(rt; trial.has(b"k", b"longer"));
    assert!(rt; trial.is_sound(rt.alloc()));
    assert!(rt; trial.delete(b"k") == Ok(()));
    assert!(rt; trial.delete(b"k") == Err(DbError::ItemNotFound));
    assert!(rt; trial.is_sound(rt.alloc()));
    Ok(())
}

// Is a change answered, with so many moments, which are two a write?
fn takes(trial: &mut Trial, key: &[u8], value: Option<&[u8]>, moments: u64) -> bool {
    let before = trial.moment();
    let answer = match value {
        Some(value) => trial.replace(key, value),
        None => trial.delete(key),
    };
    answer == Ok(()) && trial.moment().saturating_sub(before) == moments
}

#[test]
fn each_block_is_written_once(rt: HostRuntime) -> Result<(), Fail> {
    let Some(mut trial) = Trial::counting(rt.alloc(), 512) else {
        return Err("refused".into());
    };
    // The key, the value, the bucket's block and the header's block.
    assert!(rt; takes(&mut trial, b"k", Some(b"v"), 8));
    assert!(rt; takes(&mut trial, b"k", Some(b"longer"), 8));
    assert!(rt; takes(&mut trial, b"l", Some(b""), 6));
    assert!(rt; takes(&mut trial, b"k", None, 4));
    assert!(rt; trial.has(b"l", b""));
    assert!(rt; trial.is_sound(rt.alloc()));
    Ok(())
}

// Keys of one hash, whose home is the last slot but one of a block of 512.
const ALIKE: [&[u8]; 16] = [
    b"A----z", b"C----y", b"E----x", b"G----w", b"I----v", b"K----u", b"M----t", b"O----s",
    b"Q----r", b"S----q", b"U----p", b"W----o", b"Y----n", b"[----m", b"]----l", b"_----k",
];

// Stores the first n of these keys.
fn store_alike(trial: &mut Trial, n: usize) -> bool {
    for key in ALIKE.iter().take(n) {
        if trial.insert(key, b"x") != Ok(()) {
            return false;
        }
    }
    true
}

#[test]
fn slots_are_moved_back_over_the_end(rt: HostRuntime) -> Result<(), Fail> {
    let Some(mut trial) = Trial::new(rt.alloc(), 512, Format::Standard) else {
        return Err("refused".into());
    };
    assert!(rt; store_alike(&mut trial, 3));
    assert!(rt; trial.delete(b"A----z") == Ok(()));
    assert!(rt; trial.has(b"C----y", b"x"));
    assert!(rt; trial.has(b"E----x", b"x"));
    assert!(rt; trial.count() == Ok(2));
    assert!(rt; trial.is_sound(rt.alloc()));
    Ok(())
}

// How many keys the first one and those that follow are, up to 1,000.
fn walk(trial: &mut Trial) -> u32 {
    let Ok(mut key) = trial.first() else {
        return 0;
    };
    for n in 1..1000u32 {
        match trial.next(key.as_slice()) {
            Ok(next) => key = next,
            Err(_) => return n,
        }
    }
    1000
}

#[test]
fn a_full_bucket_is_split(rt: HostRuntime) -> Result<(), Fail> {
    let Some(mut trial) = Trial::new(rt.alloc(), 512, Format::Standard) else {
        return Err("refused".into());
    };
    assert!(rt; store_alike(&mut trial, 16));
    assert!(rt; trial.insert(b"k", b"v") == Ok(()));
    assert!(rt; trial.bits() == 6);
    assert!(rt; trial.first().is_ok_and(|k| k.as_slice() == b"k".as_slice()));
    assert!(rt; trial.count() == Ok(17));
    assert!(rt; walk(&mut trial) == 17);
    assert!(rt; trial.is_sound(rt.alloc()));
    Ok(())
}

#[test]
fn a_directory_at_its_end_refuses_a_key(rt: HostRuntime) -> Result<(), Fail> {
    let Some(mut trial) = Trial::new(rt.alloc(), 512, Format::Standard) else {
        return Err("refused".into());
    };
    assert!(rt; store_alike(&mut trial, 16));
    let Ok(before) = trial.bytes().to_vec(rt.alloc()) else {
        return Err("no memory".into());
    };
    assert!(rt; trial.insert(b"a----j", b"x") == Err(DbError::DirOverflow));
    assert!(rt; trial.bytes() == before.as_slice());
    assert!(rt; trial.count() == Ok(16));
    assert!(rt; trial.replace(b"A----z", b"x") == Ok(()));
    assert!(rt; trial.replace(b"k", b"v") == Ok(()));
    assert!(rt; trial.is_sound(rt.alloc()));
    Ok(())
}

// Seventeen numbers.
#[derive(Clone, Copy)]
struct Numbers {
    numbers: [u32; 17],
}

// The first 17 numbers whose decimal texts have hashes that begin with the six bits of 13.
fn thirteens() -> Option<Numbers> {
    let mut numbers = [0; 17];
    let mut found = 0usize;
    for n in 0..20_000u32 {
        if found < 17 && hash(&text_of(b"", n)) >> 25 == 13 {
            numbers[found] = n;
            found += 1;
        }
    }
    if found < 17 {
        return None;
    }
    Some(Numbers { numbers })
}

// Do the first bits of the hashes of all texts agree?
fn agree(all: &Numbers, bits: u32) -> bool {
    if bits > 24 {
        return false;
    }
    let first = hash(&text_of(b"", all.numbers[0])) >> (31 - bits);
    for n in &all.numbers {
        if hash(&text_of(b"", *n)) >> (31 - bits) != first {
            return false;
        }
    }
    true
}

// The least number of bits, from 7, at which they don't agree.
fn least_bits(all: &Numbers) -> u32 {
    for bits in 7..25u32 {
        if !agree(all, bits) {
            return bits;
        }
    }
    0
}

// Stores each of these texts as its own value.
fn store_numbers(trial: &mut Trial, all: &Numbers) -> bool {
    for n in &all.numbers {
        let text = text_of(b"", *n);
        if trial.insert(&text, &text) != Ok(()) {
            return false;
        }
    }
    true
}

// Is each of these texts there?
fn has_numbers(trial: &mut Trial, all: &Numbers) -> bool {
    for n in &all.numbers {
        let text = text_of(b"", *n);
        if !trial.has(&text, &text) {
            return false;
        }
    }
    true
}

#[test]
fn the_directory_doubles(rt: HostRuntime) -> Result<(), Fail> {
    let Some(mut trial) = Trial::new(rt.alloc(), 512, Format::Standard) else {
        return Err("refused".into());
    };
    let Some(all) = thirteens() else {
        return Err("too few".into());
    };
    assert!(rt; store_numbers(&mut trial, &all));
    assert!(rt; trial.bits() == least_bits(&all));
    assert!(rt; has_numbers(&mut trial, &all));
    assert!(rt; trial.is_sound(rt.alloc()));
    Ok(())
}

// What a key has by the calls that were answered: a number, or 0 where it is absent.
#[derive(Clone, Copy)]
struct Expected {
    values: [u32; 199],
}

// One call chosen by a number; is its answer the expected one?
fn one_call(trial: &mut Trial, expected: &mut Expected, number: u64) -> bool {
    let key = (number >> 33) as u32 % 199;
    let value = (number >> 41) as u32 % 90_000 + 1;
    let there = expected.values[key as usize];
    let key_text = text_of(b"", key);
    let text = text_of(b"", value);
    match (number >> 60) as u32 {
        0..=5 => {
            let answer = trial.insert(&key_text, &text);
            if there == 0 {
                expected.values[key as usize] = value;
                answer == Ok(())
            } else {
                answer == Err(DbError::CannotReplace)
            }
        }
        6..=9 => {
            expected.values[key as usize] = value;
            trial.replace(&key_text, &text) == Ok(())
        }
        10..=13 => {
            expected.values[key as usize] = 0;
            let answer = trial.delete(&key_text);
            if there == 0 {
                answer == Err(DbError::ItemNotFound)
            } else {
                answer == Ok(())
            }
        }
        _ => {
            if there == 0 {
                trial.exists(&key_text) == Ok(false)
            } else {
                trial.has(&key_text, &text_of(b"", there))
            }
        }
    }
}

#[test]
fn random_calls_answer_as_a_map(rt: HostRuntime) -> Result<(), Fail> {
    let Some(mut trial) = Trial::new(rt.alloc(), 512, Format::Standard) else {
        return Err("refused".into());
    };
    let mut expected = Expected { values: [0; 199] };
    let mut state = 17;
    for i in 0..2000u32 {
        state = next_state(state);
        assert!(rt; one_call(&mut trial, &mut expected, state));
        if i % 100 == 99 {
            assert!(rt; trial.is_sound(rt.alloc()));
        }
    }
    Ok(())
}
