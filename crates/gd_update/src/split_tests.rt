//! Tests of the pieces of a split: pages of entries, and slots by the next bit.

ghost use Rattle.std.specs.Prelude.{◌≡◌, ◌<◌, length};
ghost use Rattle.gd_layout.specs.Fits.{FitsFields};

use crate::pages::{double_entries, fill_page};
use gd_bucket::divide;
use gd_layout::{Bucket, Extent, Native, Slot, full_count};
use std::process::Abort;
use std::test::Fail;

#[test]
fn a_page_of_one_address(rt: HostRuntime) -> Result<(), Fail> {
    let mut page = [0u8; 4096];
    fill_page(0x0102_0304, &mut page);
    assert!(rt; page[0] == 4 && page[3] == 1 && page[4] == 0);
    assert!(rt; page[4088] == 4 && page[4091] == 1 && page[4095] == 0);
    Ok(())
}

#[test]
fn entries_come_twice(rt: HostRuntime) -> Result<(), Fail> {
    let mut page = [9u8; 4096];
    let mut source = [0u8; 2048];
    Native::write_address(512, 0, &mut source);
    Native::write_address(1024, 1, &mut source);
    let both = double_entries(&source, 2, &mut page).is_some();
    assert!(rt; both);
    assert!(rt; Native::address(&page, 0) == 512 && Native::address(&page, 1) == 512);
    assert!(rt; Native::address(&page, 2) == 1024 && Native::address(&page, 3) == 1024);
    assert!(rt; page[32] == 9);
    source[15] = 0x80;
    let below = double_entries(&source, 2, &mut page).is_none();
    assert!(rt; below);
    Ok(())
}

fn slot_of(hash: u32) -> Slot
    requires { hash < 2147483648 }
    ensures fits { FitsFields result }
{
    Slot::Full {
        hash,
        start: [0; 4],
        at: 0,
        key_size: 0,
        value_size: 0,
    }
}

#[test]
fn slots_part_by_the_next_bit(rt: HostRuntime) -> Result<(), Fail> {
    let mut bucket = Bucket::empty(rt.alloc(), 16, 1)?;
    let mut first = Bucket::empty(rt.alloc(), 16, 2)?;
    let mut second = Bucket::empty(rt.alloc(), 16, 2)?;
    second.push_free(Extent { at: 4096, size: 8 });
    bucket.push_free(Extent {
        at: 1536,
        size: 512,
    });
    bucket.put_slot(3, slot_of(0x1000_0000));
    bucket.put_slot(4, slot_of(0x3000_0000));
    bucket.put_slot(5, slot_of(0x2fff_ffff));
    divide(&bucket, &mut first, &mut second);
    assert!(rt; full_count(first.slots()) == 1 && full_count(second.slots()) == 2);
    assert!(rt; first.free() == bucket.free() && second.free().len() == 1);
    Ok(())
}
