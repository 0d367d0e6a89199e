ghost use Rattle.std.specs.Prelude.{◌≡◌, ◌<◌, true, length};
ghost use Rattle.gd_format.specs.Slots.{is_full};
ghost use Rattle.gd_layout.specs.Fits.{FitsFields};

use crate::{find, insert_slot, remove_slot, split};
use gd_layout::{Bucket, Slot, full_count, hash, is_full};
use std::process::Abort;
use std::test::Fail;

// Keys of one hash, whose home is slot 14 of 16.
const KEYS: [&'static [u8]; 16] = [
    b"A----z", b"C----y", b"E----x", b"G----w", b"I----v", b"K----u", b"M----t", b"O----s",
    b"Q----r", b"S----q", b"U----p", b"W----o", b"Y----n", b"[----m", b"]----l", b"_----k",
];

// A slot for a key whose record stands at a place.
fn slot_for(key: &[u8], at: u64) -> Slot
    requires key { length key.now < 100 }
    requires at { at < 10000 }
    ensures full { is_full result ≡ true }
    ensures fits { FitsFields result }
{
    let mut start = [0u8; 4];
    for (s, b) in start.iter_mut().zip(key) {
        *s = *b;
    }
    Slot::Full {
        hash: hash(key),
        start,
        at,
        key_size: key.len() as u32,
        value_size: 1,
    }
}

fn insert(rt: &impl Abort, bucket: &mut Bucket, key: &[u8], at: u64) -> u32 {
    assert!(rt; key.len() < 100 && at < 10000);
    assert!(rt; full_count(bucket.slots()) < bucket.slots().len());
    insert_slot(bucket, slot_for(key, at))
}

fn remove(rt: &impl Abort, bucket: &mut Bucket, place: usize) {
    assert!(rt; place < bucket.slots().len() && place < 1000);
    let full = is_full(&bucket.slots()[place]);
    assert!(rt; full);
    remove_slot(bucket, place as u32);
}

fn next_found(rt: &impl Abort, bucket: &Bucket, key: &[u8], from: u32) -> Option<u32> {
    assert!(rt; !bucket.slots().is_empty());
    find(bucket, hash(key), key, from)
}

// How many slots after home the first candidate for the key stands, and where its record does.
fn first_found(rt: &impl Abort, bucket: &Bucket, key: &[u8]) -> Option<(usize, u64)> {
    let n = bucket.slots().len();
    assert!(rt; n > 0);
    let d = find(bucket, hash(key), key, 0)? as usize;
    match bucket.slots()[(hash(key) as usize + d) % n] {
        Slot::Full { at, .. } => Some((d, at)),
        Slot::Empty => None,
    }
}

#[test]
fn three_keys_of_one_home(rt: HostRuntime) -> Result<(), Fail> {
    let mut bucket = Bucket::empty(rt.alloc(), 16, 0)?;
    for (i, want) in [14, 15, 0].iter().enumerate() {
        assert_eq!(rt; insert(&rt, &mut bucket, KEYS[i], i as u64), *want);
    }
    assert!(rt; first_found(&rt, &bucket, KEYS[2]) == Some((2, 2)));
    assert!(rt; first_found(&rt, &bucket, b"k").is_none());
    assert!(rt; next_found(&rt, &bucket, KEYS[2], 2) == Some(2));
    assert!(rt; next_found(&rt, &bucket, KEYS[2], 3).is_none());
    remove(&rt, &mut bucket, 14);
    assert!(rt; first_found(&rt, &bucket, KEYS[0]).is_none());
    assert!(rt; first_found(&rt, &bucket, KEYS[1]) == Some((0, 1)));
    assert!(rt; first_found(&rt, &bucket, KEYS[2]) == Some((1, 2)));
    Ok(())
}

// A key's place in an empty bucket is its home.
#[test]
fn homes_of_keys(rt: HostRuntime) -> Result<(), Fail> {
    let rows: [(&[u8], u32, u32); 6] = [
        (b"\x80", 166, 6),
        (b"k", 166, 101),
        (b"k", 16, 7),
        (b"", 166, 61),
        (b"A----z", 16, 14),
        (b"a----j", 16, 14),
    ];
    for (key, elems, want) in rows {
        let mut bucket = Bucket::empty(rt.alloc(), elems, 0)?;
        assert_eq!(rt; insert(&rt, &mut bucket, key, 0), want);
    }
    Ok(())
}

// Of keys that share a hash with the top bit 1 each goes to the second bucket, and `k`, whose top bit is 0, to the first:
// before the split, or after the split of a full bucket.
#[test]
fn a_split(rt: HostRuntime) -> Result<(), Fail> {
    for (keys, before) in [(3, true), (16, false)] {
        let mut bucket = Bucket::empty(rt.alloc(), 16, 0)?;
        bucket.push_free(gd_layout::Extent {
            at: 1536,
            size: 512,
        });
        if before {
            assert_eq!(rt; insert(&rt, &mut bucket, b"k", 3), 7);
        }
        for (i, key) in KEYS.iter().take(keys).enumerate() {
            insert(&rt, &mut bucket, key, i as u64);
        }
        let few = bucket.bits() < 24;
        assert!(rt; few);
        let (mut first, second) = split(rt.alloc(), &bucket)?;
        assert!(rt; first.free() == bucket.free() && second.free().is_empty());
        if !before {
            assert_eq!(rt; insert(&rt, &mut first, b"k", 3), 7);
        }
        assert!(rt; first.bits() == 1 && second.bits() == 1);
        assert!(rt; full_count(first.slots()) == 1 && full_count(second.slots()) == keys);
        assert!(rt; first.slots().len() == 16 && second.slots().len() == 16);
        assert!(rt; first_found(&rt, &first, b"k") == Some((0, 3)));
        assert!(rt; first_found(&rt, &second, b"k").is_none());
        for (i, key) in KEYS.iter().take(keys).enumerate() {
            assert!(rt; first_found(&rt, &first, key).is_none());
            let Some((_, at)) = first_found(&rt, &second, key) else {
                return Err("a key of the second".into());
            };
            assert_eq!(rt; at, i as u64);
        }
    }
    Ok(())
}

// Each of the sixteen keys is found exactly where its flag says so.
fn check_keys(rt: &impl Abort, bucket: &Bucket, there: &[bool; 16], step: usize) {
    for i in 0..16 {
        let found = first_found(rt, bucket, KEYS[i]);
        match found {
            Some((_, at)) => assert!(rt; there[i] && at == i as u64, "step {step}, key {i}"),
            None => assert!(rt; !there[i], "step {step}, key {i}"),
        }
    }
}

#[test]
fn sixteen_keys_of_one_hash(rt: HostRuntime) -> Result<(), Fail> {
    let mut bucket = Bucket::empty(rt.alloc(), 16, 0)?;
    let mut there = [false; 16];
    for step in 0..16usize {
        let i = step * 5 % 16;
        insert(&rt, &mut bucket, KEYS[i], i as u64);
        there[i] = true;
        check_keys(&rt, &bucket, &there, step);
    }
    assert_eq!(rt; full_count(bucket.slots()), 16);
    for step in 0..16usize {
        let i = (step * 11 + 3) % 16;
        let Some((d, _)) = first_found(&rt, &bucket, KEYS[i]) else {
            return Err("a key that is there".into());
        };
        assert!(rt; d < 16);
        remove(&rt, &mut bucket, (14 + d) % 16);
        there[i] = false;
        check_keys(&rt, &bucket, &there, 16 + step);
    }
    assert_eq!(rt; full_count(bucket.slots()), 0);
    Ok(())
}

#[test]
fn a_large_bucket(rt: HostRuntime) -> Result<(), Fail> {
    let mut bucket = Bucket::empty(rt.alloc(), 166, 9)?;
    for i in 0..166u64 {
        let key = format!(in rt.alloc(); "{i}")?;
        insert(&rt, &mut bucket, key.as_bytes(), i);
    }
    assert_eq!(rt; full_count(bucket.slots()), 166);
    for i in 0..166u64 {
        if i % 2 == 1 {
            let key = format!(in rt.alloc(); "{i}")?;
            let Some((d, at)) = first_found(&rt, &bucket, key.as_bytes()) else {
                return Err("a key that is there".into());
            };
            assert!(rt; at == i && d < 166);
            remove(&rt, &mut bucket, (hash(key.as_bytes()) as usize + d) % 166);
        }
    }
    assert_eq!(rt; full_count(bucket.slots()), 83);
    for i in 0..166u64 {
        let key = format!(in rt.alloc(); "{i}")?;
        match first_found(&rt, &bucket, key.as_bytes()) {
            Some((_, at)) => assert!(rt; at == i && i % 2 == 0, "key {i}"),
            None => assert!(rt; i % 2 == 1, "key {i}"),
        }
    }
    Ok(())
}
