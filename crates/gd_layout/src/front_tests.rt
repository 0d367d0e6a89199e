ghost use Rattle.std.specs.Prelude.{◌≡◌, ◌+◌, ◌*◌, ◌^◌, ◌<◌, ◌≤◌, length, IfOk, IfErr};
ghost use Rattle.std.specs.List.{All};
ghost use Rattle.gd_format.specs.Avail.{avail_size};
ghost use Rattle.gd_format.specs.Sound.{place_of};
ghost use Rattle.gd_layout.specs.Answers.{Refuses};
ghost use Rattle.gd_layout.specs.Fits.{FitsExtent, FitsHeader};

use crate::{AvailBlock, Extent, Format, Header, LayoutError, Native};
use std::alloc::Global;
use std::process::Abort;
use std::test::Fail;

// The first 56 bytes of a new standard file of block 512.
const NEW: [u8; 56] = [
    0xcf, 0x9a, 0x57, 0x13, 0, 2, 0, 0, 0, 2, 0, 0, 0, 0, 0, 0, 0, 2, 0, 0, 6, 0, 0, 0, 0, 2, 0, 0,
    0x10, 0, 0, 0, 0, 8, 0, 0, 0, 0, 0, 0, 0x1c, 0, 0, 0, 0, 0, 0, 0, 0, 0, 0, 0, 0, 0, 0, 0,
];

const HEADER: Header = Header {
    format: Format::Standard,
    magic: 0x1357_9acf,
    block: 512,
    dir: 512,
    dir_bits: 6,
    elems: 16,
    next_block: 2048,
    version: 0,
    numsync: 0,
    reserved: [0; 6],
    avail_size: 28,
};

fn put(rt: &impl Abort, block: &mut [u8], at: usize, bytes: &[u8]) {
    assert!(rt; at <= block.len() && bytes.len() <= block.len() - at);
    block[at..at + bytes.len()].copy_from_slice(bytes);
}

// What is read where a header was written is that header.
fn header_written_and_read(header: &Header, avail: &AvailBlock, block: &mut [u8]) -> Header
    requires fits { FitsHeader header.now }
    requires room { place_of header.now + avail_size (length avail.now.extents) ≤ header.now.block }
    requires block { length block.old ≡ header.now.block }
    requires least { 80 ≤ header.now.block }
    ensures { result ≡ header.now }
{
    Native::write_header(header, avail, block);
    Native::read_header(block)
}

// What is read where a block of free space was written is that block, and is never refused.
fn avail_written_and_read(
    alloc: Global,
    avail: &AvailBlock,
    block: &mut [u8],
) -> Result<AvailBlock, LayoutError>
    requires room { avail_size (length avail.now.extents) ≤ length block.old }
    requires count { length avail.now.extents < 2 ^ 31 }
    requires fit { All FitsExtent avail.now.extents }
    ensures same { IfOk result (λ a. a ≡ avail.now) }
    ensures never_bad { IfErr result (Refuses ⊥) }
{
    Native::write_avail(avail, 28, block);
    Native::read_avail(alloc, block, avail.room())
}

#[test]
fn the_header_of_a_new_file_is_written(rt: HostRuntime) -> Result<(), Fail> {
    let table = AvailBlock::new(rt.alloc(), 28)?;
    let mut block = [0xaa; 512];
    Native::write_header(&HEADER, &table, &mut block);
    let mut want = [0u8; 512];
    put(&rt, &mut want, 0, &NEW);
    assert!(rt; block == want);

    let original = Header {
        magic: 0x1357_9ace,
        ..HEADER
    };
    let mut again = [0x55; 512];
    assert!(rt; header_written_and_read(&original, &table, &mut again) == original);
    put(&rt, &mut want, 0, b"\xce");
    assert!(rt; again == want);
    Ok(())
}

#[test]
fn the_header_of_a_new_numsync_file_is_written(rt: HostRuntime) -> Result<(), Fail> {
    let table = AvailBlock::new(rt.alloc(), 26)?;
    let header = Header {
        format: Format::Numsync,
        magic: 0x1357_9ad1,
        avail_size: 26,
        ..HEADER
    };
    let mut block = [0xaa; 512];
    assert!(rt; header_written_and_read(&header, &table, &mut block) == header);
    let mut want = [0u8; 512];
    put(&rt, &mut want, 0, &NEW);
    put(&rt, &mut want, 0, b"\xd1\x9a\x57\x13");
    put(&rt, &mut want, 40, b"\0");
    put(&rt, &mut want, 72, b"\x1a\0\0\0");
    assert!(rt; block == want);

    let used = Header {
        version: 28,
        numsync: 5,
        reserved: [1, 0, 0, 0, 0, 7],
        ..header
    };
    assert!(rt; header_written_and_read(&used, &table, &mut block) == used);
    put(&rt, &mut want, 40, b"\x1c\0\0\0\x05\0\0\0\x01");
    put(&rt, &mut want, 68, b"\x07");
    assert!(rt; block == want);
    Ok(())
}

// A table of two extents, of which the first is as large as a field holds, over a block at 0x1234.
fn table_of_two(alloc: Global) -> Result<AvailBlock, Fail>
    ensures two { IfOk result (λ a. length a.extents ≡ 2) }
    ensures fit { IfOk result (λ a. All FitsExtent a.extents) }
    ensures room { IfOk result (λ a. a.room ≡ 28) }
{
    let mut table = AvailBlock::new(alloc, 28)?;
    table.push(Extent {
        at: 0x0102_0304_0506,
        size: 0x7fff_ffff,
    });
    table.push(Extent { at: 0, size: 1 });
    table.set_next_block(0x1234);
    Ok(table)
}

const TWO: [u8; 48] = [
    0x1c, 0, 0, 0, 2, 0, 0, 0, 0x34, 0x12, 0, 0, 0, 0, 0, 0, // size, count, next block
    0xff, 0xff, 0xff, 0x7f, 0, 0, 0, 0, 6, 5, 4, 3, 2, 1, 0, 0, // the first extent
    1, 0, 0, 0, 0, 0, 0, 0, 0, 0, 0, 0, 0, 0, 0, 0,
];

#[test]
fn a_table_of_two_extents_is_written(rt: HostRuntime) -> Result<(), Fail> {
    let table = table_of_two(rt.alloc())?;
    let mut block = [0xaa; 512];
    Native::write_header(&HEADER, &table, &mut block);
    let mut want = [0u8; 512];
    put(&rt, &mut want, 0, &NEW);
    put(&rt, &mut want, 40, &TWO);
    assert!(rt; block == want);

    let mut alone = [0xaa; 60];
    let read = avail_written_and_read(rt.alloc(), &table, &mut alone)?;
    assert!(rt; read.extents() == table.extents() && read.next_block() == 0x1234);
    let mut want = [0xaa; 60];
    put(&rt, &mut want, 0, &TWO);
    assert!(rt; alone == want);
    Ok(())
}

#[test]
fn an_address_is_written(rt: HostRuntime) {
    let mut directory = [0x11; 40];
    Native::write_address(0x0102_0304_0506_0708, 2, &mut directory);
    let mut want = [0x11; 40];
    put(&rt, &mut want, 16, b"\x08\x07\x06\x05\x04\x03\x02\x01");
    assert!(rt; directory == want);
    assert_eq!(rt; Native::address(&directory, 2), 0x0102_0304_0506_0708);
}

#[test]
fn a_block_of_free_space_and_its_calls(rt: HostRuntime) -> Result<(), Fail> {
    let mut block = AvailBlock::new(rt.alloc(), 4)?;
    assert!(rt; block.extents().is_empty() && block.next_block() == 0 && block.room() == 4);
    for i in 0u32..4 {
        let few = block.extents().len() < block.room() as usize;
        assert!(rt; few);
        block.push(Extent {
            at: u64::from(i),
            size: 10 + i,
        });
    }
    block.set_next_block(u64::MAX);
    let four = block.extents().len() == 4;
    assert!(rt; four);
    assert!(rt; block.remove(1) == Extent { at: 1, size: 11 });
    assert!(rt; block.extents()[1] == Extent { at: 2, size: 12 });
    block.truncate(2);
    assert!(rt; block.extents().len() == 2 && block.next_block() == u64::MAX);
    block.clear();
    assert!(rt; block.extents().is_empty() && block.next_block() == u64::MAX && block.room() == 4);
    Ok(())
}

#[test]
fn what_is_no_block_of_free_space(rt: HostRuntime) -> Result<(), Fail> {
    // These bytes at a place of the block of two extents: is it a block of at most so many?
    let rows: [(usize, &[u8], u32, bool); 13] = [
        (0, b"\xff\xff\xff\xff", 2, true),
        (4, b"\x02", 2, true),
        (4, b"\x02", 1, false),
        (4, b"\x03", 2, false),
        (4, b"\0", 0, true),
        (7, b"\x80", 2, false),
        (8, b"\xff\xff\xff\xff\xff\xff\xff\xff", 28, true),
        (19, b"\x80", 2, false),
        (31, b"\x80", 2, false),
        (20, b"\xff\xff\xff\xff", 2, true),
        (32, b"\0", 2, false),
        (35, b"\xff", 2, false),
        (47, b"\xff", 2, false),
    ];
    for (i, (at, bytes, most, is_one)) in rows.iter().enumerate() {
        let mut block = [0u8; 496];
        put(&rt, &mut block, 0, &TWO);
        put(&rt, &mut block, *at, bytes);
        let few = *most <= 28;
        assert!(rt; few);
        match Native::read_avail(rt.alloc(), &block, *most) {
            Ok(_) => assert!(rt; *is_one, "row {i}"),
            Err(e) => assert!(rt; e == LayoutError::Bad && !*is_one, "row {i}"),
        }
    }
    Ok(())
}

#[test]
fn a_block_is_read_into_another(rt: HostRuntime) -> Result<(), Fail> {
    let mut block = AvailBlock::new(rt.alloc(), 2)?;
    assert!(rt; Native::read_avail_into(&TWO, &mut block));
    let two = [
        Extent {
            at: 0x0102_0304_0506,
            size: 0x7fff_ffff,
        },
        Extent { at: 0, size: 1 },
    ];
    assert!(rt; block.extents() == two.as_slice() && block.next_block() == 0x1234);
    let mut bad = TWO;
    put(&rt, &mut bad, 32, b"\0");
    put(&rt, &mut bad, 8, b"\0\0");
    assert!(rt; !Native::read_avail_into(&bad, &mut block));
    assert!(rt; block.extents() == two.as_slice() && block.next_block() == 0x1234);
    Ok(())
}
