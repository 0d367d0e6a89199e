//! The bytes of a small file with one record.

use std::alloc::Global;
use std::test::Fail;

/// Puts bytes over those of a file, where it has a place for them.
pub fn put(file: &mut [u8], at: usize, bytes: &[u8]) {
    if at <= file.len() && bytes.len() <= file.len() - at {
        file[at..at + bytes.len()].copy_from_slice(bytes);
    }
}

// A directory of 64 entries that are all the bucket at 1,024.
fn put_directory(file: &mut [u8]) {
    for i in 0..64usize {
        put(file, 513 + 8 * i, &[4]);
    }
}

// Sixteen empty slots.
fn put_slots(file: &mut [u8]) {
    for i in 0..16usize {
        put(file, 1136 + 24 * i, &[0xff; 4]);
    }
}

/// A file of block 512 with the record of `k` and `v` at its end.
pub fn small_file(alloc: Global) -> Result<Vec<u8>, Fail> {
    let mut file = vec![in alloc; 0u8; 1538]?;
    put(
        &mut file,
        0,
        &[0xcf, 0x9a, 0x57, 0x13, 0, 2, 0, 0, 0, 2, 0, 0, 0, 0, 0, 0],
    );
    put(&mut file, 16, &[0, 2, 0, 0, 6, 0, 0, 0, 0, 2, 0, 0, 16]);
    put(&mut file, 33, &[8]);
    put(&mut file, 40, &[0x1c]);
    put_directory(&mut file);
    put(&mut file, 1024, &[1]);
    put(&mut file, 1032, &[0xfe, 1]);
    put(&mut file, 1040, &[2, 6]);
    put(&mut file, 1132, &[1]);
    put_slots(&mut file);
    put(
        &mut file,
        1304,
        &[
            0x17, 0x83, 0x09, 0x1b, 0x6b, 0, 0, 0, 0, 6, 0, 0, 0, 0, 0, 0,
        ],
    );
    put(&mut file, 1320, &[1, 0, 0, 0, 1]);
    put(&mut file, 1536, b"kv");
    Ok(file)
}
