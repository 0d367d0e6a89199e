//! Files with one bucket, byte for byte.

use std::alloc::{AllocError, Global};

/// A record in a slot of the only bucket.
#[derive(Clone, Copy)]
pub struct Record<'a> {
    pub slot: u32,
    pub hash: u32,
    pub key: &'a [u8],
    pub value: &'a [u8],
}

/// A file with one bucket, in the blocks 0 to 2, and its records behind them.
#[derive(Clone, Copy)]
pub struct Layout<'a> {
    pub magic: u32,
    pub block: u32,
    pub next_block: u64,
    /// The only free extent of the bucket: its size and its address.
    pub free: (u32, u64),
    pub records: &'a [Record<'a>],
}

/// The magic of the standard format.
pub const STANDARD: u32 = 0x1357_9acf;

/// The magic of the format with a `numsync`.
pub const NUMSYNC: u32 = 0x1357_9ad1;

fn put_32(file: &mut Vec<u8>, n: u32) -> Result<(), AllocError> {
    Ok(file.extend_from_slice(&n.to_le_bytes())?)
}

fn put_64(file: &mut Vec<u8>, n: u64) -> Result<(), AllocError> {
    Ok(file.extend_from_slice(&n.to_le_bytes())?)
}

fn put_zeros(file: &mut Vec<u8>, upto: u64) -> Result<(), AllocError> {
    for _ in file.len() as u64..upto {
        file.push(0)?;
    }
    Ok(())
}

fn put_header(
    file: &mut Vec<u8>,
    layout: &Layout,
    bits: u32,
    elems: u32,
) -> Result<(), AllocError> {
    put_32(file, layout.magic)?;
    put_32(file, layout.block)?;
    put_64(file, u64::from(layout.block))?;
    put_32(file, layout.block)?;
    put_32(file, bits)?;
    put_32(file, layout.block)?;
    put_32(file, elems)?;
    put_64(file, layout.next_block)?;
    if layout.magic == NUMSYNC {
        put_zeros(file, 72)?;
        put_32(file, 26)?;
    } else {
        put_32(file, if bits == 6 { 28 } else { 252 })?;
    }
    put_zeros(file, u64::from(layout.block))
}

// The slot of a record whose bytes begin at an address, or an empty one.
fn put_slot(file: &mut Vec<u8>, record: Option<(&Record, u64)>) -> Result<(), AllocError> {
    let Some((record, at)) = record else {
        put_32(file, u32::MAX)?;
        return Ok(file.extend_from_slice(&[0u8; 20])?);
    };
    put_32(file, record.hash)?;
    for place in 0..4 {
        file.push(record.key.get(place).copied().unwrap_or(0))?;
    }
    put_64(file, at)?;
    put_32(file, u32::try_from(record.key.len()).unwrap_or(0))?;
    put_32(file, u32::try_from(record.value.len()).unwrap_or(0))
}

fn put_slots(file: &mut Vec<u8>, layout: &Layout, elems: u32) -> Result<(), AllocError> {
    for slot in 0..elems {
        let mut at = 3 * u64::from(layout.block);
        let mut found = None;
        for record in layout.records {
            if record.slot == slot {
                found = Some((record, at));
            }
            at = at.wrapping_add((record.key.len() as u64).wrapping_add(record.value.len() as u64));
        }
        put_slot(file, found)?;
    }
    Ok(())
}

/// The bytes of a file.
pub fn file_of(alloc: Global, layout: &Layout) -> Result<Vec<u8>, AllocError> {
    let (bits, elems) = if layout.block == 512 {
        (6, 16)
    } else {
        (9, 166)
    };
    let bucket = 2 * u64::from(layout.block);
    let mut file = Vec::new(alloc);
    put_header(&mut file, layout, bits, elems)?;
    for _ in 0..1u32 << bits {
        put_64(&mut file, bucket)?;
    }
    put_32(&mut file, 1)?;
    put_32(&mut file, 0)?;
    put_32(&mut file, layout.free.0)?;
    put_32(&mut file, 0)?;
    put_64(&mut file, layout.free.1)?;
    put_zeros(&mut file, bucket + 108)?;
    put_32(&mut file, u32::try_from(layout.records.len()).unwrap_or(0))?;
    put_slots(&mut file, layout, elems)?;
    put_zeros(&mut file, bucket + u64::from(layout.block))?;
    for record in layout.records {
        file.extend_from_slice(record.key)?;
        file.extend_from_slice(record.value)?;
    }
    Ok(file)
}

pub const K: Record<'static> = Record {
    slot: 7,
    hash: 453_608_215,
    key: b"k",
    value: b"v",
};

pub const HIGH: Record<'static> = Record {
    slot: 14,
    hash: 973_047_518,
    key: &[0x80],
    value: b"v",
};

pub const EMPTY: Record<'static> = Record {
    slot: 61,
    hash: 12345,
    key: b"",
    value: b"",
};

pub const NO_VALUE: Record<'static> = Record {
    slot: 7,
    hash: 453_608_215,
    key: b"k",
    value: b"",
};

pub const LONG: Record<'static> = Record {
    slot: 7,
    hash: 453_608_215,
    key: b"k",
    value: &[b'a'; 58],
};

pub const OTHER_HASH: Record<'static> = Record {
    slot: 7,
    hash: 453_608_216,
    key: b"k",
    value: b"v",
};

/// A file whose next block is free, but for its records.
pub fn plain<'a>(block: u32, records: &'a [Record<'a>]) -> Layout<'a> {
    let end = 3 * u64::from(block);
    Layout {
        magic: STANDARD,
        block,
        next_block: 4 * u64::from(block),
        free: (block, end),
        records,
    }
}

/// The worked file, byte for byte, has a free extent of 510 bytes at 1,538.
pub fn worked(magic: u32) -> Layout<'static> {
    Layout {
        magic,
        block: 512,
        next_block: 2048,
        free: (510, 1538),
        records: &[K],
    }
}

// Two records, the value of the first of which takes some blocks.
const TWO: [Record<'static>; 2] = [
    Record {
        slot: 7,
        hash: 453_608_215,
        key: b"k",
        value: &[b'a'; 6000],
    },
    HIGH,
];

/// A file of block 512 with two records, one of them long.
pub fn long_file(alloc: Global) -> Result<Vec<u8>, AllocError> {
    file_of(alloc, &plain(512, &TWO))
}

/// A file of block 512 with one record.
pub fn small_file(alloc: Global) -> Result<Vec<u8>, AllocError> {
    file_of(alloc, &plain(512, &[K]))
}
