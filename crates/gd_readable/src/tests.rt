use crate::{Records, Stopped, Walk, check, file_refusal, fill, readable};
use gd_base::DbError;
use gd_testvault::SmallVault;
use gd_vault::FileId;
use std::alloc::Global;
use std::process::Abort;
use std::test::Fail;

const ROOM: usize = 2304;

// Slots of the keys db, dd, A----z, a----j and k, whose hashes GNU dbm gives, and of a record without a byte.
const LAST: [u8; 24] = [
    15, 137, 4, 41, 100, 98, 0, 0, 0, 6, 0, 0, 0, 0, 0, 0, 2, 0, 0, 0, 0, 0, 0, 0,
];

const FIRST: [u8; 24] = [
    207, 35, 152, 26, 100, 100, 0, 0, 2, 6, 0, 0, 0, 0, 0, 0, 2, 0, 0, 0, 1, 0, 0, 0,
];

const ONE: [u8; 24] = [
    30, 246, 55, 111, 65, 45, 45, 45, 5, 6, 0, 0, 0, 0, 0, 0, 6, 0, 0, 0, 0, 0, 0, 0,
];

const OTHER: [u8; 24] = [
    30, 246, 55, 111, 97, 45, 45, 45, 11, 6, 0, 0, 0, 0, 0, 0, 6, 0, 0, 0, 1, 0, 0, 0,
];

const AGAIN: [u8; 24] = [
    30, 246, 55, 111, 65, 45, 45, 45, 5, 6, 0, 0, 0, 0, 0, 0, 6, 0, 0, 0, 1, 0, 0, 0,
];

const NOWHERE: [u8; 24] = [
    57, 48, 0, 0, 255, 255, 255, 255, 255, 255, 255, 255, 255, 255, 255, 127, 0, 0, 0, 0, 0, 0, 0,
    0,
];

const K: [u8; 24] = [
    23, 131, 9, 27, 107, 0, 0, 0, 0, 6, 0, 0, 0, 0, 0, 0, 1, 0, 0, 0, 1, 0, 0, 0,
];

const K_BEHIND: [u8; 24] = [
    23, 131, 9, 27, 107, 0, 0, 0, 0, 8, 0, 0, 0, 0, 0, 0, 1, 0, 0, 0, 1, 0, 0, 0,
];

// The records of the first four, and a count of two.
const TEXT: (usize, &[u8]) = (1536, b"dbdd!A----za----j!");

const TWO: (usize, &[u8]) = (1132, &[2]);

// What a file is answered, after changes of some of its bytes.
#[derive(Clone, Copy)]
struct Row<'a> {
    name: &'a str,
    edits: &'a [(usize, &'a [u8])],
    len: usize,
    refusal: Option<DbError>,
    records: &'a [(&'a [u8], &'a [u8])],
}

fn put(rt: &impl Abort, file: &mut [u8], at: usize, bytes: &[u8]) {
    assert!(rt; at <= file.len() && bytes.len() <= file.len() - at);
    file[at..at + bytes.len()].copy_from_slice(bytes);
}

// An empty bucket of a block of 512 bytes, with a free extent.
fn put_bucket(rt: &impl Abort, file: &mut [u8], at: usize) {
    put(
        rt,
        file,
        at,
        &[1, 0, 0, 0, 0, 0, 0, 0, 0, 2, 0, 0, 0, 0, 0, 0, 0, 6],
    );
    for s in 0..16usize {
        put(rt, file, at.wrapping_add(112 + 24 * s), &[0xff; 4]);
    }
}

fn put_entries(rt: &impl Abort, file: &mut [u8], from: usize, to: usize, address: &[u8]) {
    for i in from..to {
        put(rt, file, i.wrapping_mul(8).wrapping_add(512), address);
    }
}

// A new standard file of block 512, whose first 1,536 bytes it is.
fn new_file(rt: &impl Abort) -> [u8; ROOM] {
    let mut file = [0; ROOM];
    let head = [
        0xcf, 0x9a, 0x57, 0x13, 0, 2, 0, 0, 0, 2, 0, 0, 0, 0, 0, 0, 0, 2, 0, 0, 6, 0, 0, 0, 0, 2,
        0, 0, 0x10, 0, 0, 0, 0, 8, 0, 0, 0, 0, 0, 0, 0x1c,
    ];
    put(rt, &mut file, 0, &head);
    put_entries(rt, &mut file, 0, 64, &[0, 4]);
    put_bucket(rt, &mut file, 1024);
    file
}

// The file of 1,538 bytes with the record `k`, `v`.
fn one_record(rt: &impl Abort) -> [u8; ROOM] {
    let mut file = new_file(rt);
    put(rt, &mut file, 1032, &[0xfe, 1, 0, 0, 0, 0, 0, 0, 2, 6]);
    put(rt, &mut file, 1132, &[1]);
    put(rt, &mut file, 1304, &K);
    put(rt, &mut file, 1536, b"kv");
    file
}

// A new file with a second bucket at 1,536, for the upper half of the directory, and `kv` at 2,048.
fn two_buckets(rt: &impl Abort) -> [u8; ROOM] {
    let mut file = new_file(rt);
    put_bucket(rt, &mut file, 1536);
    put(rt, &mut file, 1128, &[1]);
    put(rt, &mut file, 1640, &[1]);
    put_entries(rt, &mut file, 32, 64, &[0, 6]);
    put(rt, &mut file, 2048, b"kv");
    file
}

fn has_records(rt: &impl Abort, alloc: Global, file: &[u8], row: &Row) {
    match check(alloc, file) {
        Ok(Ok(header)) => {
            let mut records = Records::start(file, &header);
            for pair in row.records {
                assert_eq!(rt; records.next(), Some(*pair), "{}", row.name);
            }
            assert!(rt;
                records.next().is_none() && records.next().is_none(),
                "{}",
                row.name
            );
        }
        Ok(Err(refusal)) => assert_eq!(rt; Some(refusal), row.refusal, "{}", row.name),
        Err(_) => assert!(rt; false, "out of memory"),
    }
}

fn vault_of(rt: &impl Abort, alloc: Global, file: &[u8], reads: u64) -> Option<SmallVault> {
    match file.to_vec(alloc) {
        Ok(bytes) => Some(SmallVault::new(bytes, reads)),
        Err(_) => {
            assert!(rt; false, "out of memory");
            None
        }
    }
}

fn walk_gives(rt: &impl Abort, alloc: Global, vault: &mut SmallVault, row: &Row) {
    match readable(alloc, vault, FileId(0)) {
        Ok(header) => {
            let Ok(mut walk) = Walk::start(alloc, vault, FileId(0), &header) else {
                return assert!(rt; false, "{}", row.name);
            };
            for pair in row.records {
                let Ok(Some((key, value))) = walk.next(vault) else {
                    return assert!(rt; false, "{}", row.name);
                };
                assert!(rt; key.as_slice() == pair.0, "{}", row.name);
                assert!(rt; value.as_slice() == pair.1, "{}", row.name);
            }
            let end = walk.next(vault).is_ok_and(|next| next.is_none());
            assert!(rt; end, "{}", row.name);
            vault.calls_left = 0;
            let again = walk.next(vault).is_ok_and(|next| next.is_none());
            assert!(rt; again, "{}", row.name);
            assert!(rt; row.refusal.is_none(), "{}", row.name);
        }
        Err(e) => assert_eq!(rt; Some(e), row.refusal, "{}", row.name),
    }
}

fn answers(rt: &impl Abort, alloc: Global, base: &[u8; ROOM], row: &Row) {
    let mut file = *base;
    for (at, bytes) in row.edits {
        put(rt, &mut file, *at, bytes);
    }
    assert!(rt; row.len <= ROOM);
    let file = &file[..row.len];
    assert!(rt;
        file_refusal(alloc, file) == Ok(row.refusal),
        "{}",
        row.name
    );
    has_records(rt, alloc, file, row);
    if let Some(mut vault) = vault_of(rt, alloc, file, 1 << 20) {
        walk_gives(rt, alloc, &mut vault, row);
        assert!(rt; vault.faults == 0);
    }
}

fn all_answer(rt: &impl Abort, alloc: Global, base: &[u8; ROOM], rows: &[Row]) {
    for row in rows {
        answers(rt, alloc, base, row);
    }
}

// A row of a file that is refused.
fn refused<'a>(
    name: &'a str,
    edits: &'a [(usize, &'a [u8])],
    len: usize,
    refusal: DbError,
) -> Row<'a> {
    Row {
        name,
        edits,
        len,
        refusal: Some(refusal),
        records: &[],
    }
}

// A row of a readable file.
fn has<'a>(
    name: &'a str,
    edits: &'a [(usize, &'a [u8])],
    len: usize,
    records: &'a [(&'a [u8], &'a [u8])],
) -> Row<'a> {
    Row {
        name,
        edits,
        len,
        refusal: None,
        records,
    }
}

#[test]
fn a_new_file_and_records_put_into_it(rt: HostRuntime) -> Result<(), Fail> {
    let rows = [
        has("new", &[], 1536, &[]),
        refused("39 bytes", &[], 39, DbError::ShortFile),
        refused("a directory beyond the end", &[], 1023, DbError::BadHeader),
        refused(
            "a bucket beyond the end",
            &[],
            1535,
            DbError::BadDirEntry(0),
        ),
        has(
            "from the last slot to the first",
            &[TEXT, TWO, (1496, &LAST), (1136, &FIRST)],
            1541,
            &[(b"dd", b"!"), (b"db", b"")],
        ),
        refused(
            "not reached from the last slot",
            &[TEXT, (1132, &[1]), (1136, &FIRST)],
            1541,
            DbError::BadHashTable(1024),
        ),
        has(
            "keys of one hash",
            &[TEXT, TWO, (1472, &ONE), (1496, &OTHER)],
            1554,
            &[(b"A----z", b""), (b"a----j", b"!")],
        ),
        refused(
            "equal keys",
            &[TEXT, TWO, (1472, &ONE), (1496, &AGAIN)],
            1554,
            DbError::BadHashEntry(1024, 15),
        ),
    ];
    all_answer(&rt, rt.alloc(), &new_file(&rt), &rows);
    Ok(())
}

#[test]
fn places_of_a_file_of_one_record(rt: HostRuntime) -> Result<(), Fail> {
    let entry = DbError::BadHashEntry(1024, 7);
    let kv: &[(&[u8], &[u8])] = &[(b"k", b"v")];
    let rows = [
        has("one record", &[], 1538, kv),
        refused(
            "a bucket beyond the end",
            &[(512, &[3, 4])],
            1538,
            DbError::BadDirEntry(0),
        ),
        refused(
            "an address below 0",
            &[(519, &[0x80])],
            1538,
            DbError::BadDirEntry(0),
        ),
        refused(
            "a run that is not whole",
            &[(832, &[1])],
            1538,
            DbError::BadDirEntry(40),
        ),
        refused(
            "a run without its last entry",
            &[(1016, &[1])],
            1538,
            DbError::BadDirEntry(63),
        ),
        refused(
            "an address that comes again",
            &[(1128, &[1])],
            1538,
            DbError::BadDirEntry(32),
        ),
        refused(
            "more bits than the directory",
            &[(1128, &[7])],
            1538,
            DbError::BadBucket(1024),
        ),
        refused(
            "seven free extents",
            &[(1024, &[7])],
            1538,
            DbError::BadBucket(1024),
        ),
        refused(
            "a count that is wrong",
            &[(1132, &[2])],
            1538,
            DbError::BadHashTable(1024),
        ),
        refused("a hash that is wrong", &[(1304, &[0x18])], 1538, entry),
        refused("a hash below 0", &[(1307, &[0x80])], 1538, entry),
        refused(
            "a first byte that is wrong",
            &[(1308, &[0x6c])],
            1538,
            entry,
        ),
        has("a byte behind a short key", &[(1309, &[0xff])], 1538, kv),
        refused("a record below 0", &[(1319, &[0x80])], 1538, entry),
        refused("a record beyond the end", &[(1324, &[2])], 1538, entry),
        refused("a key of a size below 0", &[(1323, &[0x80])], 1538, entry),
        refused("a value above the limit", &[(1327, &[0x40])], 1538, entry),
        refused("a key that is wrong", &[(1536, &[0x6c])], 1538, entry),
        has(
            "an empty slot of any content",
            &[(1140, &[0xff; 20])],
            1538,
            kv,
        ),
        has(
            "an empty value, and a record that stands nowhere",
            &[(1132, &[2]), (1324, &[0]), (1352, &NOWHERE)],
            1537,
            &[(b"k", b""), (b"", b"")],
        ),
        refused(
            "a slot that its home does not reach",
            &[(1304, &[0xff; 4]), (1328, &K)],
            1538,
            DbError::BadHashTable(1024),
        ),
    ];
    all_answer(&rt, rt.alloc(), &one_record(&rt), &rows);
    Ok(())
}

#[test]
fn buckets_stand_in_their_runs(rt: HostRuntime) -> Result<(), Fail> {
    // The first of the 31 bits of the hash of `k` is 0, so that it stands in the lower half.
    let rows = [
        has("two buckets", &[], 2050, &[]),
        has(
            "in the lower half",
            &[(1132, &[1]), (1304, &K_BEHIND)],
            2050,
            &[(b"k", b"v")],
        ),
        refused(
            "in the upper half",
            &[(1644, &[1]), (1816, &K_BEHIND)],
            2050,
            DbError::BadHashEntry(1536, 7),
        ),
        refused(
            "a run of half the entries",
            &[(1128, &[2])],
            2050,
            DbError::BadDirEntry(16),
        ),
        refused(
            "a run of twice the entries",
            &[(1128, &[0])],
            2050,
            DbError::BadDirEntry(32),
        ),
    ];
    all_answer(&rt, rt.alloc(), &two_buckets(&rt), &rows);
    let mut uneven = two_buckets(&rt);
    put_entries(&rt, &mut uneven, 16, 32, &[0, 6]);
    all_answer(
        &rt,
        rt.alloc(),
        &uneven,
        &[refused(
            "a run at no multiple",
            &[(1128, &[2])],
            2050,
            DbError::BadDirEntry(16),
        )],
    );
    Ok(())
}

#[test]
fn each_read_that_fails_is_a_fault_of_the_vault(rt: HostRuntime) -> Result<(), Fail> {
    let whole = one_record(&rt);
    let Some(file) = whole.get(..1538) else {
        return Ok(());
    };
    let mut readable_after = None;
    for reads in 0..200 {
        if let Some(mut vault) = vault_of(&rt, rt.alloc(), file, reads) {
            let answer = readable(rt.alloc(), &mut vault, FileId(0));
            match answer {
                Ok(_) => {
                    assert!(&rt; vault.faults == 0);
                    readable_after = Some(reads);
                    break;
                }
                Err(e) => assert!(&rt; e == DbError::VaultFault && vault.faults == 1),
            }
        }
    }
    assert!(&rt; readable_after.is_some());
    Ok(())
}

// Over a vault whose reads give so many bytes at most, a file of one record is answered this.
fn answers_short(
    rt: &impl Abort,
    vault: &mut SmallVault,
    longest: usize,
    refusal: Option<DbError>,
) {
    vault.longest = longest;
    match readable(*vault.bytes.allocator(), vault, FileId(0)) {
        Ok(_) => assert!(rt; refusal.is_none(), "{longest}"),
        Err(e) => assert_eq!(rt; Some(e), refusal, "{longest}"),
    }
}

// Does the vault fill four bytes from a place on?
#[tactic(auto, unfolding(crate::specs::Asks::is_there, crate::specs::Asks::kept_of))]
fn is_filled(vault: &mut SmallVault, at: u64) -> Result<bool, Stopped> {
    let mut four = [0; 4];
    fill(vault, FileId(0), at, &mut four)
}

#[test]
fn a_read_that_is_too_short_fails_the_check(rt: HostRuntime) -> Result<(), Fail> {
    let whole = one_record(&rt);
    let Some(file) = whole.get(..1538) else {
        return Ok(());
    };
    let Some(mut vault) = vault_of(&rt, rt.alloc(), file, 1 << 20) else {
        return Ok(());
    };
    let rows = [
        (7, Some(DbError::ShortFile)),
        (79, Some(DbError::ShortFile)),
        (80, Some(DbError::BadDirEntry(0))),
        (511, Some(DbError::BadDirEntry(0))),
        (512, None),
    ];
    for (longest, refusal) in rows {
        answers_short(&rt, &mut vault, longest, refusal);
    }
    let Ok(header) = readable(rt.alloc(), &mut vault, FileId(0)) else {
        return Ok(());
    };
    let Ok(mut walk) = Walk::start(rt.alloc(), &mut vault, FileId(0), &header) else {
        return Ok(());
    };
    for longest in [1, 511] {
        vault.longest = longest;
        let next = walk.next(&mut vault);
        assert!(&rt; next.is_err_and(|e| e == DbError::BadDirEntry(0)));
    }
    for (longest, at, whole) in [(3, 1534, false), (4, 1534, true), (4, 1535, false)] {
        vault.longest = longest;
        assert!(&rt; is_filled(&mut vault, at) == Ok(whole));
    }
    assert!(&rt; vault.faults == 0);
    Ok(())
}
