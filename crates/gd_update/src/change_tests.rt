use crate::DbError;
use crate::trial::Trial;
use gd_bucket::find;
use gd_layout::{Slot, full_count, hash};
use std::process::Abort;
use std::test::Fail;

// The slot of a key.
fn place_of(trial: &Trial, key: &[u8]) -> Option<u32> {
    let bucket = trial.bucket();
    let count = bucket.slots().len() as u64;
    if count == 0 {
        return None;
    }
    let Some(distance) = find(bucket, hash(key), key, 0) else {
        return None;
    };
    let place = (u64::from(hash(key)) + u64::from(distance)) % count;
    Some(place as u32)
}

// Does the file have these bytes where the key's slot says that its record is?
fn has_record(trial: &Trial, key: &[u8], record: &[u8]) -> bool {
    let Some(place) = place_of(trial, key) else {
        return false;
    };
    let slots = trial.bucket().slots();
    if place as usize >= slots.len() {
        return false;
    }
    let Slot::Full { at, .. } = slots[place as usize] else {
        return false;
    };
    let bytes = trial.vault.bytes.as_slice();
    if at > bytes.len() as u64 || record.len() as u64 > bytes.len() as u64 - at {
        return false;
    }
    let at = at as usize;
    &bytes[at..at + record.len()] == record
}

// The byte of a file at a place.
fn byte_at(trial: &Trial, at: usize) -> u8 {
    let bytes = trial.vault.bytes.as_slice();
    if at < bytes.len() { bytes[at] } else { 0 }
}

#[test]
fn a_pair_is_written_with_bucket_and_header(rt: HostRuntime) -> Result<(), Fail> {
    let Some(mut trial) = Trial::new(rt.alloc(), 4096) else {
        return Err("no memory".into());
    };
    assert!(rt; trial.put(b"a", b"1", None).is_ok());
    assert!(rt; has_record(&trial, b"a", b"a1"));
    assert!(rt; full_count(trial.bucket().slots()) == 1);
    // the count of records, the number of free extents, and the next block, 2048, as they stand in the file
    assert!(rt; byte_at(&trial, 1024 + 108) == 1);
    assert!(rt; byte_at(&trial, 1024) == 1);
    assert!(rt; byte_at(&trial, 33) == 8);
    assert!(rt; trial.vault.written == 2 + 512 + 512);
    Ok(())
}

#[test]
fn a_value_is_replaced_without_growth(rt: HostRuntime) -> Result<(), Fail> {
    let Some(mut trial) = Trial::new(rt.alloc(), 4096) else {
        return Err("no memory".into());
    };
    assert!(rt; trial.put(b"a", b"1", None).is_ok());
    let place = place_of(&trial, b"a");
    assert!(rt; place.is_some());
    assert!(rt; trial.put(b"a", b"long value", place).is_ok());
    assert!(rt; has_record(&trial, b"a", b"along value"));
    assert!(rt; full_count(trial.bucket().slots()) == 1);
    assert!(rt; trial.header().next_block == 2048);
    Ok(())
}

#[test]
fn a_removed_record_gives_its_room_back(rt: HostRuntime) -> Result<(), Fail> {
    let Some(mut trial) = Trial::new(rt.alloc(), 4096) else {
        return Err("no memory".into());
    };
    assert!(rt; trial.put(b"key", b"some value", None).is_ok());
    assert!(rt; trial.bucket().free().len() == 1);
    let Some(place) = place_of(&trial, b"key") else {
        return Err("the key is not found".into());
    };
    assert!(rt; trial.remove(place).is_ok());
    assert!(rt; full_count(trial.bucket().slots()) == 0);
    assert!(rt; trial.bucket().free().len() == 2);
    assert!(rt; byte_at(&trial, 1024 + 108) == 0);
    Ok(())
}

#[test]
fn an_empty_pair_takes_no_room(rt: HostRuntime) -> Result<(), Fail> {
    let Some(mut trial) = Trial::new(rt.alloc(), 4096) else {
        return Err("no memory".into());
    };
    assert!(rt; trial.put(b"", b"", None).is_ok());
    assert!(rt; full_count(trial.bucket().slots()) == 1);
    assert!(rt; trial.header().next_block == 1536);
    assert!(rt; trial.vault.written == 512 + 512);
    Ok(())
}

#[test]
fn each_failing_write_is_a_fault(rt: HostRuntime) -> Result<(), Fail> {
    for calls in 0..4 {
        let Some(mut trial) = Trial::new(rt.alloc(), 4096) else {
            return Err("no memory".into());
        };
        trial.vault.calls_left = calls;
        assert!(rt; trial.put(b"a", b"1", None) == Err(DbError::VaultFault));
        assert!(rt; trial.vault.faults == 1);
    }
    Ok(())
}
