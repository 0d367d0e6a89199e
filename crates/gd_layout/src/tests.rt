ghost use Rattle.std.specs.Prelude.{◌≡◌, ◌+◌, ◌*◌, ◌^◌, ◌<◌, ◌≤◌, length, IfOk, IfErr};
ghost use Rattle.gd_layout.specs.Answers.{Refuses};

use crate::{
    Bucket, Counts, DbError, Extent, Format, Header, LayoutError, Native, RawSlot, Slot, hash,
    hash_end, hash_more, hash_start,
};
use std::alloc::Global;
use std::process::Abort;
use std::test::Fail;

// The front of the header of a new standard file of block 512.
const NEW: [u8; 48] = [
    0xcf, 0x9a, 0x57, 0x13, 0, 2, 0, 0, 0, 2, 0, 0, 0, 0, 0, 0, 0, 2, 0, 0, 6, 0, 0, 0, 0, 2, 0, 0,
    0x10, 0, 0, 0, 0, 8, 0, 0, 0, 0, 0, 0, 0x1c, 0, 0, 0, 0, 0, 0, 0,
];

fn put(rt: &impl Abort, block: &mut [u8], at: usize, bytes: &[u8]) {
    assert!(rt; at <= block.len() && bytes.len() <= block.len() - at);
    block[at..at + bytes.len()].copy_from_slice(bytes);
}

#[test]
fn hashes_of_keys(rt: HostRuntime) {
    let rows: [(&[u8], u32); 20] = [
        (b"k", 453_608_215),
        (b"", 12_345),
        (b"\x80", 973_047_518),
        (b"A----z", 1_865_938_462),
        (b"C----y", 1_865_938_462),
        (b"E----x", 1_865_938_462),
        (b"G----w", 1_865_938_462),
        (b"I----v", 1_865_938_462),
        (b"K----u", 1_865_938_462),
        (b"M----t", 1_865_938_462),
        (b"O----s", 1_865_938_462),
        (b"Q----r", 1_865_938_462),
        (b"S----q", 1_865_938_462),
        (b"U----p", 1_865_938_462),
        (b"W----o", 1_865_938_462),
        (b"Y----n", 1_865_938_462),
        (b"[----m", 1_865_938_462),
        (b"]----l", 1_865_938_462),
        (b"_----k", 1_865_938_462),
        (b"a----j", 1_865_938_462),
    ];
    for (i, (key, want)) in rows.iter().enumerate() {
        assert_eq!(rt; hash(key), *want, "key {i}");
        let (front, rest) = key.split_at(key.len() / 2);
        let so_far = hash_more(0, hash_start(key.len() as u64), front);
        assert_eq!(rt;
            hash_end(hash_more(front.len() as u64, so_far, rest)),
            *want,
            "key {i} in pieces"
        );
    }
}

#[test]
fn the_header_of_a_new_file(rt: HostRuntime) {
    let mut front = [0u8; 80];
    put(&rt, &mut front, 0, &NEW);
    let header = Header {
        format: Format::Standard,
        magic: 0x1357_9acf,
        block: 512,
        dir: 512,
        dir_bits: 6,
        elems: 16,
        next_block: 2048,
        version: 0,
        numsync: 0,
        reserved: [0; 6],
        avail_size: 28,
    };
    assert!(rt; Native::read_header(&front) == header);
    put(&rt, &mut front, 0, b"\xd1");
    put(&rt, &mut front, 44, b"\x05");
    put(&rt, &mut front, 68, b"\x07");
    put(&rt, &mut front, 72, b"\x1a");
    let numsync = Header {
        format: Format::Numsync,
        magic: 0x1357_9ad1,
        version: 28,
        numsync: 5,
        reserved: [0, 0, 0, 0, 0, 7],
        avail_size: 26,
        ..header
    };
    assert!(rt; Native::header_fault(&front, 1536).is_none());
    assert!(rt; Native::read_header(&front) == numsync);
}

// What a header answers in a file of a length, with these bytes at a place of it.
type HeaderRow<'a> = (u64, usize, &'a [u8], Option<DbError>);

const HEADER_ROWS: [HeaderRow<'static>; 33] = [
    (1536, 0, b"\xcf", None),
    (1536, 0, b"\xce", None),
    (39, 0, b"\xcf", Some(DbError::ShortFile)),
    (40, 0, b"\xcf", Some(DbError::BadHeader)),
    (1536, 0, b"\x13\x57\x9a\xcf", Some(DbError::ByteSwapped)),
    (1536, 0, b"\x13\x57\x9a\xce", Some(DbError::ByteSwapped)),
    (1536, 0, b"\x13\x57\x9a\xd1", Some(DbError::ByteSwapped)),
    (1536, 0, b"\x13\x57\x9a\xcd", Some(DbError::ByteSwapped)),
    (1536, 0, b"\x13\x57\x9a\xd0", Some(DbError::ByteSwapped)),
    (1536, 0, b"\xcd", Some(DbError::WrongOffset)),
    (1536, 0, b"\xd0", Some(DbError::WrongOffset)),
    (1536, 0, b"\0\0\0\0", Some(DbError::BadMagic)),
    (71, 0, b"\xd1", Some(DbError::ShortFile)),
    (1536, 4, b"\0\x03", Some(DbError::BlockSize)),
    (1536, 4, b"\0\x01", Some(DbError::BlockSize)),
    (1536, 4, b"\0\0\x20", Some(DbError::BlockSize)),
    (511, 0, b"\xcf", Some(DbError::BadHeader)),
    (1536, 20, b"\x05", Some(DbError::BadHeader)),
    (1536, 20, b"\x19", Some(DbError::BadHeader)),
    (1536, 20, b"\xff\xff\xff\xff", Some(DbError::BadHeader)),
    (1536, 16, b"\xf8\x01", Some(DbError::BadHeader)),
    (1536, 8, b"\0\x04", None),
    (1536, 8, b"\x01\x04", Some(DbError::BadHeader)),
    (1536, 15, b"\x80", Some(DbError::BadHeader)),
    (1536, 24, b"\x01", Some(DbError::BadHeader)),
    (1536, 28, b"\x0f", Some(DbError::BadHeader)),
    (1536, 32, b"\0\0\0\0\0\x40", None),
    (1536, 32, b"\x01\0\0\0\0\x40", Some(DbError::BadHeader)),
    (1536, 39, b"\xff", Some(DbError::BadHeader)),
    (1536, 40, b"\x02", None),
    (1536, 40, b"\x01", Some(DbError::BadHeader)),
    (1536, 40, b"\x1d", Some(DbError::BadHeader)),
    (1536, 0, b"\xd1", Some(DbError::BadHeader)),
];

#[test]
fn the_faults_of_a_header(rt: HostRuntime) {
    for (i, (len, at, bytes, want)) in HEADER_ROWS.iter().enumerate() {
        let mut front = [0u8; 80];
        put(&rt, &mut front, 0, &NEW);
        put(&rt, &mut front, *at, bytes);
        assert!(rt; Native::header_fault(&front, *len) == *want, "row {i}");
    }
}

// The bucket of a new file of block 512, with a full slot for `k` at place 7.
fn bucket_with_k(rt: &impl Abort) -> [u8; 512] {
    let mut block = [0u8; 512];
    put(rt, &mut block, 0, b"\x01");
    put(rt, &mut block, 8, b"\0\x02");
    put(rt, &mut block, 16, b"\0\x06");
    for s in 0..16 {
        put(rt, &mut block, 112 + 24 * s, b"\xff\xff\xff\xff");
    }
    put(rt, &mut block, 108, b"\x01");
    put(rt, &mut block, 280, b"\x17\x83\x09\x1bkxyz\0\x06");
    put(rt, &mut block, 296, b"\x01\0\0\0\x02");
    block
}

#[test]
fn a_bucket_and_the_directory(rt: HostRuntime) -> Result<(), Fail> {
    let block = bucket_with_k(&rt);
    let full = Slot::Full {
        hash: 453_608_215,
        start: [b'k', b'x', b'y', b'z'],
        at: 1536,
        key_size: 1,
        value_size: 2,
    };
    assert!(rt;
        Native::counts(&block)
            == Counts {
                free: 1,
                bits: 0,
                full: 1
            }
    );
    let raw = RawSlot {
        hash: 453_608_215,
        start: [b'k', b'x', b'y', b'z'],
        at: 1536,
        key_size: 1,
        value_size: 2,
    };
    assert!(rt; Native::raw_slot(&block, 7) == raw);
    assert_eq!(rt; Native::raw_slot(&block, 6).hash, -1);
    let bucket = Native::read_bucket(rt.alloc(), &block, 16)?;
    assert_eq!(rt; bucket.bits(), 0);
    assert!(rt;
        bucket.free()
            == [Extent {
                at: 1536,
                size: 512
            }]
            .as_slice()
    );
    assert_eq!(rt; bucket.slots().len(), 16);
    for (s, slot) in bucket.slots().iter().enumerate() {
        assert!(rt;
            *slot == (if s == 7 { full } else { Slot::Empty }),
            "slot {s}"
        );
    }
    let mut directory = [0u8; 512];
    for i in 0..64 {
        put(&rt, &mut directory, 8 * i, b"\0\x04");
    }
    assert_eq!(rt; Native::address(&directory, 0), 1024);
    assert_eq!(rt; Native::address(&directory, 63), 1024);
    Ok(())
}

#[test]
fn what_is_no_bucket(rt: HostRuntime) {
    // These bytes at a place of the block: is it a bucket?
    let rows: [(usize, &[u8], bool); 12] = [
        (0, b"\x06", true),
        (0, b"\x07", false),
        (3, b"\x80", false),
        (104, b"\x18", true),
        (104, b"\x19", false),
        (107, b"\xff", false),
        (280, b"\xfe\xff\xff\xff", false),
        (280, b"\xff\xff\xff\xff", true),
        (295, b"\x80", false),
        (299, b"\x80", false),
        (303, b"\x80", false),
        (8, b"\xff\xff\xff\xff", true),
    ];
    for (i, (at, bytes, is_one)) in rows.iter().enumerate() {
        let mut block = bucket_with_k(&rt);
        put(&rt, &mut block, *at, bytes);
        match Native::read_bucket(rt.alloc(), &block, 16) {
            Ok(_) => assert!(rt; *is_one, "row {i}"),
            Err(e) => assert!(rt; e == LayoutError::Bad && !*is_one, "row {i}"),
        }
    }
}

// What is read where a bucket was written is that bucket, and is never refused.
fn written_and_read(alloc: Global, bucket: &Bucket, block: &mut [u8]) -> Result<Bucket, LayoutError>
    requires room { 112 + 24 * length bucket.now.slots ≤ length block.old }
    requires count { length bucket.now.slots < 2 ^ 31 }
    ensures same { IfOk result (λ b. b ≡ bucket.now) }
    ensures never_bad { IfErr result (Refuses ⊥) }
{
    Native::write_bucket(bucket, block);
    let read = Native::read_bucket(alloc, block, bucket.slots().len() as u32)?;
    Ok(read)
}

#[test]
fn a_bucket_is_written(rt: HostRuntime) -> Result<(), Fail> {
    let mut bucket = Bucket::empty(rt.alloc(), 16, 0)?;
    bucket.push_free(Extent {
        at: 1536,
        size: 512,
    });
    let mut block = [0xaa; 512];
    Native::write_bucket(&bucket, &mut block);
    // A new file has this bucket at its end.
    let mut want = [0u8; 512];
    put(&rt, &mut want, 0, b"\x01");
    put(&rt, &mut want, 8, b"\0\x02");
    put(&rt, &mut want, 16, b"\0\x06");
    for s in 0..16 {
        put(&rt, &mut want, 112 + 24 * s, b"\xff\xff\xff\xff");
    }
    assert!(rt; block == want);

    let full = Slot::Full {
        hash: 453_608_215,
        start: [b'k', b'x', b'y', b'z'],
        at: 1536,
        key_size: 1,
        value_size: 2,
    };
    bucket.put_slot(7, full);
    Native::write_bucket(&bucket, &mut block);
    assert!(rt; block == bucket_with_k(&rt));
    let mut again = [0x55; 600];
    let read = written_and_read(rt.alloc(), &bucket, &mut again)?;
    assert!(rt; read.slots() == bucket.slots() && read.free() == bucket.free());
    Ok(())
}

#[test]
fn free_extents_of_a_bucket(rt: HostRuntime) -> Result<(), Fail> {
    let mut bucket = Bucket::empty(rt.alloc(), 16, 3)?;
    for i in 0u32..6 {
        let few = bucket.free().len() < 6;
        assert!(rt; few);
        bucket.push_free(Extent {
            at: u64::from(i),
            size: 10 + i,
        });
    }
    let mut copy = bucket.copy()?;
    assert!(rt; bucket.free().len() == 6);
    assert!(rt; bucket.remove_free(1) == Extent { at: 1, size: 11 });
    assert!(rt; bucket.free().len() == 5);
    assert!(rt; bucket.remove_free(4) == Extent { at: 5, size: 15 });
    let left = [0u32, 2, 3, 4];
    assert_eq!(rt; bucket.free().len(), 4);
    for (extent, i) in bucket.free().iter().zip(left) {
        assert!(rt;
            *extent
                == Extent {
                    at: u64::from(i),
                    size: 10 + i
                }
        );
    }
    assert!(rt; copy.bits() == 3 && copy.free().len() == 6 && copy.slots().len() == 16);
    assert!(rt; copy.remove_free(1) == Extent { at: 1, size: 11 });
    Ok(())
}
