use crate::{
    Successor, bucket_address, count, find_key, first_key, key_after, read_key, read_value,
};
use gd_base::DbError;
use gd_layout::hash;
use gd_open::OpenFile;
use gd_readable::readable;
use gd_space::Space;
use gd_testvault::SmallVault;
use gd_vault::FileId;
use std::alloc::Global;
use std::process::Abort;
use std::test::Fail;

const ROOM: usize = 2060;

// Slots of the keys k, dd and A----z, whose hashes GNU dbm gives: the third has the first bit of the 31.
const K: [u8; 24] = [
    23, 131, 9, 27, 107, 0, 0, 0, 0, 8, 0, 0, 0, 0, 0, 0, 1, 0, 0, 0, 1, 0, 0, 0,
];

const DD: [u8; 24] = [
    207, 35, 152, 26, 100, 100, 0, 0, 2, 8, 0, 0, 0, 0, 0, 0, 2, 0, 0, 0, 1, 0, 0, 0,
];

const A: [u8; 24] = [
    30, 246, 55, 111, 65, 45, 45, 45, 5, 8, 0, 0, 0, 0, 0, 0, 6, 0, 0, 0, 1, 0, 0, 0,
];

fn put(rt: &impl Abort, file: &mut [u8], at: usize, bytes: &[u8]) {
    assert!(rt; at <= file.len() && bytes.len() <= file.len() - at);
    file[at..at + bytes.len()].copy_from_slice(bytes);
}

// A bucket of a block of 512 bytes with one bit, without a free extent, and without a record.
fn put_bucket(rt: &impl Abort, file: &mut [u8], at: usize, full: u8) {
    put(rt, file, at.wrapping_add(104), &[1, 0, 0, 0, full]);
    for s in 0..16usize {
        put(rt, file, at.wrapping_add(112 + 24 * s), &[0xff; 4]);
    }
}

// A file of two buckets, at 1,024 for k and dd, and at 1,536 for A----z.
fn three_records(rt: &impl Abort) -> [u8; ROOM] {
    let mut file = [0; ROOM];
    let head = [
        0xcf, 0x9a, 0x57, 0x13, 0, 2, 0, 0, 0, 2, 0, 0, 0, 0, 0, 0, 0, 2, 0, 0, 6, 0, 0, 0, 0, 2,
        0, 0, 0x10, 0, 0, 0, 0, 0x0a, 0, 0, 0, 0, 0, 0, 0x1c,
    ];
    put(rt, &mut file, 0, &head);
    for i in 0..64usize {
        let place = if i < 32 { 4 } else { 6 };
        put(
            rt,
            &mut file,
            i.wrapping_mul(8).wrapping_add(512),
            &[0, place],
        );
    }
    put_bucket(rt, &mut file, 1024, 2);
    put_bucket(rt, &mut file, 1536, 1);
    put(rt, &mut file, 1304, &K);
    put(rt, &mut file, 1496, &DD);
    put(rt, &mut file, 1984, &A);
    put(rt, &mut file, 2048, b"kvdd!A----zw");
    file
}

// That file in a vault, opened.
#[derive(Drop)]
struct Trial {
    alloc: Global,
    vault: SmallVault,
    file: OpenFile,
}

impl Trial {
    fn new(rt: &impl Abort, alloc: Global) -> Option<Trial> {
        let Ok(bytes) = three_records(rt).to_vec(alloc) else {
            return None;
        };
        let mut vault = SmallVault::new(bytes, 1 << 20);
        let Ok(header) = readable(alloc, &mut vault, FileId(0)) else {
            return None;
        };
        let Some(space) = Space::empty(alloc, &header) else {
            return None;
        };
        let Ok(block) = vec![in alloc; 0u8; header.block as usize] else {
            return None;
        };
        let file = OpenFile::new(FileId(0), header, space, block);
        Some(Trial { alloc, vault, file })
    }

    // Looks a key up, and reads the key and the value of its slot.
    fn has_value(&mut self, rt: &impl Abort, key: &[u8], value: Option<&[u8]>) {
        let hash = hash(key);
        let Ok(at) = bucket_address(&self.file, &mut self.vault, hash) else {
            return assert!(rt; false);
        };
        let Ok(bucket) = self.file.read_bucket(self.alloc, &mut self.vault, at) else {
            return assert!(rt; false);
        };
        let Ok(found) = find_key(&self.file, &mut self.vault, at, &bucket, hash, key) else {
            return assert!(rt; false);
        };
        let Some(place) = found else {
            return assert!(rt; value.is_none());
        };
        let slot = &bucket.slots()[place as usize];
        let own = read_key(&self.file, self.alloc, &mut self.vault, at, place, slot);
        assert!(rt; own.is_ok_and(|own| own.as_slice() == key));
        let read = read_value(&self.file, self.alloc, &mut self.vault, at, place, slot);
        assert!(rt; read.is_ok_and(|read| Some(read.as_slice()) == value));
    }

    // What follows a key in file order.
    fn follows(&mut self, rt: &impl Abort, key: &[u8], next: Option<&[u8]>) {
        match key_after(&mut self.file, self.alloc, &mut self.vault, key) {
            Ok(Successor::Key(own)) => assert!(rt; Some(own.as_slice()) == next),
            Ok(Successor::Last) => assert!(rt; next.is_none()),
            Ok(Successor::Absent) => assert!(rt; false),
            Err(_) => assert!(rt; false),
        }
    }
}

#[test]
fn keys_are_found_with_their_values(rt: HostRuntime) -> Result<(), Fail> {
    let Some(mut trial) = Trial::new(&rt, rt.alloc()) else {
        assert!(&rt; false);
        return Ok(());
    };
    let rows: [(&[u8], Option<&[u8]>); 5] = [
        (b"k", Some(b"v")),
        (b"dd", Some(b"!")),
        (b"A----z", Some(b"w")),
        (b"a----j", None),
        (b"", None),
    ];
    for (key, value) in rows {
        trial.has_value(&rt, key, value);
    }
    let n = count(&trial.file, &mut trial.vault);
    assert!(&rt; n == Ok(3));
    Ok(())
}

#[test]
fn keys_follow_one_another_in_file_order(rt: HostRuntime) -> Result<(), Fail> {
    let Some(mut trial) = Trial::new(&rt, rt.alloc()) else {
        assert!(&rt; false);
        return Ok(());
    };
    let first = first_key(&mut trial.file, trial.alloc, &mut trial.vault);
    assert!(&rt;
        first.is_ok_and(|first| first.is_some_and(|key| key.as_slice() == b"k".as_slice()))
    );
    trial.follows(&rt, b"k", Some(b"dd"));
    trial.follows(&rt, b"dd", Some(b"A----z"));
    trial.follows(&rt, b"A----z", None);
    let absent = key_after(&mut trial.file, trial.alloc, &mut trial.vault, b"db");
    assert!(&rt; matches!(absent, Ok(Successor::Absent)));
    Ok(())
}

// A vault whose reads fail from the fourth on.
#[test]
fn a_read_that_fails_is_a_fault(rt: HostRuntime) -> Result<(), Fail> {
    let Some(mut trial) = Trial::new(&rt, rt.alloc()) else {
        assert!(&rt; false);
        return Ok(());
    };
    trial.vault.calls_left = 3;
    let n = count(&trial.file, &mut trial.vault);
    assert!(&rt; n == Err(DbError::VaultFault) && trial.vault.faults == 1);
    Ok(())
}
