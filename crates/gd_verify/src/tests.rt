ghost use Rattle.gd_format.specs.Headers.{IsHeader};

use crate::free::blocks_refusal;
use crate::{readable, sound};
use gd_base::DbError;
use gd_format::Header;
use gd_testvault::SmallVault;
use gd_vault::FileId;
use std::alloc::Global;
use std::process::Abort;
use std::test::Fail;

const ROOM: usize = 2048;

// What a file is answered, after changes of some of its bytes.
#[derive(Clone, Copy)]
struct Row<'a> {
    name: &'a str,
    edits: &'a [(usize, &'a [u8])],
    len: usize,
    refusal: Option<DbError>,
}

fn put(rt: &impl Abort, file: &mut [u8], at: usize, bytes: &[u8]) {
    assert!(rt; at <= file.len() && bytes.len() <= file.len() - at);
    file[at..at + bytes.len()].copy_from_slice(bytes);
}

// The head of a new file of block 512, before its table of free space.
const HEAD: [u8; 34] = [
    0xcf, 0x9a, 0x57, 0x13, 0, 2, 0, 0, 0, 2, 0, 0, 0, 0, 0, 0, 0, 2, 0, 0, 6, 0, 0, 0, 0, 2, 0, 0,
    0x10, 0, 0, 0, 0, 8,
];

// A new file of block 512, of which 1,536 bytes are written.
fn new_file(rt: &impl Abort) -> [u8; ROOM] {
    let mut file = [0; ROOM];
    put(rt, &mut file, 0, &HEAD);
    put(rt, &mut file, 40, &[0x1c]);
    for i in 0..64usize {
        put(rt, &mut file, i.wrapping_mul(8).wrapping_add(512), &[0, 4]);
    }
    put(
        rt,
        &mut file,
        1024,
        &[1, 0, 0, 0, 0, 0, 0, 0, 0, 2, 0, 0, 0, 0, 0, 0, 0, 6],
    );
    for s in 0..16usize {
        let slot = s.wrapping_mul(24).wrapping_add(1136);
        put(rt, &mut file, slot, &[0xff; 4]);
    }
    file
}

fn vault_of(rt: &impl Abort, alloc: Global, file: &[u8], reads: u64) -> Option<SmallVault> {
    match file.to_vec(alloc) {
        Ok(bytes) => Some(SmallVault::new(bytes, reads)),
        Err(_) => {
            assert!(rt; false, "out of memory");
            None
        }
    }
}

fn answers(rt: &impl Abort, alloc: Global, base: &[u8; ROOM], row: &Row) {
    let mut file = *base;
    for (at, bytes) in row.edits {
        put(rt, &mut file, *at, bytes);
    }
    assert!(rt; row.len <= ROOM);
    if let Some(mut vault) = vault_of(rt, alloc, &file[..row.len], 1 << 20) {
        let refusal = sound(alloc, &mut vault, FileId(0)).err();
        assert_eq!(rt; refusal, row.refusal, "{}", row.name);
        assert!(rt; vault.faults == 0);
    }
}

fn all_answer(rt: &impl Abort, alloc: Global, base: &[u8; ROOM], rows: &[Row]) {
    for row in rows {
        answers(rt, alloc, base, row);
    }
}

fn case<'a>(
    name: &'a str,
    edits: &'a [(usize, &'a [u8])],
    len: usize,
    refusal: Option<DbError>,
) -> Row<'a> {
    Row {
        name,
        edits,
        len,
        refusal,
    }
}

fn avail(at: u64) -> Option<DbError> {
    Some(DbError::BadAvail(at))
}

#[test]
fn the_table_of_a_new_file(rt: HostRuntime) -> Result<(), Fail> {
    let behind: [(usize, &[u8]); 4] = [(33, &[0x0a]), (44, &[1]), (56, &[0, 2]), (64, &[0, 8])];
    let rows = [
        case("new", &[], 1536, None),
        case(
            "next_block 1,024",
            &[(33, &[4])],
            1536,
            Some(DbError::NeedRecovery),
        ),
        case("more than the capacity", &[(44, &[29])], 1536, avail(40)),
        case("a count below 0", &[(47, &[0x80])], 1536, avail(40)),
        case("no byte", &[(44, &[1]), (64, &[0, 8])], 1536, avail(40)),
        case(
            "a size below 0",
            &[(44, &[1]), (59, &[0x80])],
            1536,
            avail(40),
        ),
        case(
            "below 0",
            &[(44, &[1]), (56, &[1]), (71, &[0x80])],
            1536,
            avail(40),
        ),
        case("behind the end of the file", &behind, 1536, None),
        case("beyond next_block", &behind[1..], 1536, avail(40)),
        case(
            "over the bucket",
            &[(44, &[1]), (56, &[1]), (64, &[0xff, 5])],
            1536,
            avail(40),
        ),
        case(
            "twice free",
            &[(44, &[1]), (56, &[1]), (64, &[0xff, 7])],
            1536,
            avail(1024),
        ),
        case(
            "not readable",
            &[(33, &[4]), (512, &[3])],
            1536,
            Some(DbError::BadDirEntry(0)),
        ),
        case(
            "the first of two",
            &[(33, &[4]), (44, &[29])],
            1536,
            Some(DbError::NeedRecovery),
        ),
        case(
            "the table first",
            &[(44, &[29]), (48, &[0, 8])],
            1536,
            avail(40),
        ),
    ];
    all_answer(&rt, rt.alloc(), &new_file(&rt), &rows);
    Ok(())
}

#[test]
fn the_stack_of_a_new_file(rt: HostRuntime) -> Result<(), Fail> {
    let last = u64::MAX / 2 + 1;
    // A block at 1,536 and none of it free in the bucket.
    let rows = [
        case("a block without an extent", &[], 1552, None),
        case("behind the end", &[(48, &[0, 8])], 1552, avail(2048)),
        case("its head beyond the end", &[], 1551, avail(1536)),
        case(
            "an address below 0",
            &[(48, &[0, 0, 0, 0, 0, 0, 0, 0x80])],
            1552,
            avail(last),
        ),
        case("its own next", &[(1544, &[0, 6])], 1552, avail(1536)),
        case("two blocks", &[(1544, &[0x10, 6])], 1568, None),
        case(
            "again",
            &[(1544, &[0x10, 6]), (1560, &[0, 6])],
            1568,
            avail(1536),
        ),
        case(
            "its extents beyond the end",
            &[(1540, &[1])],
            1567,
            avail(1536),
        ),
        case(
            "an extent without a byte",
            &[(1540, &[1])],
            1568,
            avail(1536),
        ),
        case("a count below 0", &[(1543, &[0x80])], 1568, avail(1536)),
        case(
            "an extent",
            &[(1540, &[1]), (1552, &[16]), (1560, &[0x20, 6])],
            1568,
            None,
        ),
        case(
            "over itself",
            &[(1540, &[1]), (1552, &[16]), (1560, &[0x1f, 6])],
            1568,
            avail(1536),
        ),
        case("over the bucket", &[(48, &[0xf0, 5])], 1536, avail(1520)),
        case("free in the bucket", &[(1024, &[1])], 1552, avail(1024)),
        case(
            "the stack first",
            &[(48, &[0, 8]), (1024, &[1]), (1032, &[0, 0])],
            1552,
            avail(2048),
        ),
    ];
    let mut base = new_file(&rt);
    put(&rt, &mut base, 48, &[0, 6]);
    put(&rt, &mut base, 1024, &[0]);
    put(&rt, &mut base, 1536, &[28]);
    all_answer(&rt, rt.alloc(), &base, &rows);
    Ok(())
}

#[test]
fn free_extents_of_a_bucket(rt: HostRuntime) -> Result<(), Fail> {
    let rows = [
        case("one record", &[], 1538, None),
        case("no byte", &[(1032, &[0, 0])], 1538, avail(1024)),
        case("below 0", &[(1047, &[0x80])], 1538, avail(1024)),
        case("beyond next_block", &[(1032, &[0xff])], 1538, avail(1024)),
        case(
            "over a record",
            &[(1024, &[2]), (1048, &[1]), (1056, &[1, 6])],
            1538,
            avail(1024),
        ),
        case(
            "over the directory",
            &[(1024, &[2]), (1048, &[1]), (1056, &[0xff, 3])],
            1538,
            avail(1024),
        ),
        case(
            "over the header",
            &[(1024, &[2]), (1048, &[1])],
            1538,
            avail(1024),
        ),
        case(
            "the record behind next_block",
            &[(32, &[1, 6])],
            1538,
            Some(DbError::NeedRecovery),
        ),
    ];
    let mut base = new_file(&rt);
    put(&rt, &mut base, 1032, &[0xfe, 1, 0, 0, 0, 0, 0, 0, 2, 6]);
    put(&rt, &mut base, 1132, &[1]);
    put(
        &rt,
        &mut base,
        1304,
        &[
            23, 131, 9, 27, 107, 0, 0, 0, 0, 6, 0, 0, 0, 0, 0, 0, 1, 0, 0, 0, 1,
        ],
    );
    put(&rt, &mut base, 1536, b"kv");
    all_answer(&rt, rt.alloc(), &base, &rows);
    Ok(())
}

#[test]
fn a_numsync_file(rt: HostRuntime) -> Result<(), Fail> {
    let mut base = new_file(&rt);
    put(&rt, &mut base, 0, &[0xd1]);
    put(&rt, &mut base, 40, &[0]);
    put(&rt, &mut base, 72, &[0x1a]);
    let rows = [
        case("new", &[], 1536, None),
        case("more than the capacity", &[(76, &[27])], 1536, avail(72)),
    ];
    all_answer(&rt, rt.alloc(), &base, &rows);
    // A block of the stack may have as many extents as the table of the other format.
    let mut full = base;
    put(&rt, &mut full, 33, &[0x10]);
    put(&rt, &mut full, 80, &[0, 6]);
    put(&rt, &mut full, 1024, &[0]);
    put(&rt, &mut full, 1536, &[28, 0, 0, 0, 28]);
    for e in 0..28u8 {
        let at = usize::from(e).wrapping_mul(16);
        put(&rt, &mut full, at.wrapping_add(1552), &[1]);
        put(&rt, &mut full, at.wrapping_add(1560), &[e, 8]);
    }
    let rows = [
        case("28 extents", &[], 2000, None),
        case("29 extents", &[(1540, &[29])], 2016, avail(1536)),
        case("two that meet", &[(1576, &[0])], 2000, avail(1536)),
    ];
    all_answer(&rt, rt.alloc(), &full, &rows);
    Ok(())
}

#[test]
fn each_read_that_fails_is_a_fault_of_the_vault(rt: HostRuntime) -> Result<(), Fail> {
    let whole = new_file(&rt);
    let Some(file) = whole.get(..1536) else {
        return Ok(());
    };
    let mut sound_after = None;
    for reads in 0..200 {
        if let Some(mut vault) = vault_of(&rt, rt.alloc(), file, reads) {
            match sound(rt.alloc(), &mut vault, FileId(0)) {
                Ok(_) => {
                    assert!(&rt; vault.faults == 0);
                    sound_after = Some(reads);
                    break;
                }
                Err(e) => assert!(&rt; e == DbError::VaultFault && vault.faults == 1),
            }
        }
    }
    assert!(&rt; sound_after.is_some());
    Ok(())
}

// A stack of 160 blocks, of which each begins 16 bytes behind the one above it: its head is an extent of that one.
fn put_meeting_blocks(rt: &impl Abort, file: &mut [u8]) {
    for i in 0..160u16 {
        let at = usize::from(i).wrapping_mul(16).wrapping_add(1536);
        let next = i.wrapping_mul(16).wrapping_add(1552) % 4096;
        put(rt, file, at, &[1]);
        put(
            rt,
            file,
            at.wrapping_add(4),
            &159u16.saturating_sub(i).min(28).to_le_bytes(),
        );
        put(rt, file, at.wrapping_add(8), &next.to_le_bytes());
    }
}

// How many extents of the blocks of the stack are listed, where none of them is refused.
#[tactic(auto, unfolding(gd_readable::specs::Asks::is_there, gd_readable::specs::Asks::kept_of))]
fn listed(alloc: Global, vault: &mut SmallVault, header: &Header) -> Option<usize>
    requires { IsHeader header.now }
{
    let mut list = Vec::new(alloc);
    match blocks_refusal(alloc, vault, FileId(0), header, 4096, &mut list) {
        Ok(None) => Some(list.len()),
        _ => None,
    }
}

#[test]
fn of_blocks_that_meet_few_extents_are_listed(rt: HostRuntime) -> Result<(), Fail> {
    let mut file = [0; 4096];
    put(&rt, &mut file, 0, &new_file(&rt));
    put(&rt, &mut file, 33, &[0x10]);
    put(&rt, &mut file, 48, &[0, 6]);
    put(&rt, &mut file, 1024, &[0]);
    put_meeting_blocks(&rt, &mut file);
    // The count of the last block, which is looked at after enough is listed.
    for (count, refusal) in [(1, avail(4080)), (0, avail(1536))] {
        put(&rt, &mut file, 4084, &[count]);
        if let Some(mut vault) = vault_of(&rt, rt.alloc(), &file, 1 << 20) {
            let answer = sound(rt.alloc(), &mut vault, FileId(0)).err();
            assert_eq!(&rt; answer, refusal);
        }
    }
    let Some(mut vault) = vault_of(&rt, rt.alloc(), &file, 1 << 20) else {
        return Ok(());
    };
    let Ok(header) = readable(rt.alloc(), &mut vault, FileId(0)) else {
        return Ok(());
    };
    // All the blocks together have 4,234 extents with themselves.
    assert!(&rt; listed(rt.alloc(), &mut vault, &header).is_some_and(|n| n <= 4096 / 4 + 29));
    Ok(())
}
