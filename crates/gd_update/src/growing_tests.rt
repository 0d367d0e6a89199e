//! Chains of splits in a small vault.

ghost use Rattle.std.specs.Prelude.{◌≡◌, ◌<◌, ◌≤◌, ◌^◌, pos, length};
ghost use Rattle.gd_format.specs.HeaderFault.{is_block_size};
ghost use Rattle.gd_format.specs.Slots.{count};
ghost use Rattle.gd_map_laws.specs.Overflow.{is_close};

use crate::make_room;
use gd_base::{DbError, Format};
use gd_format::{Header, Slot};
use gd_layout::{Bucket, Native, full_count};
use gd_open::OpenFile;
use gd_space::Space;
use gd_testvault::SmallVault;
use gd_vault::FileId;
use std::alloc::Global;
use std::process::Abort;
use std::test::Fail;

// A header with a directory of 64 entries.
const WIDE: Header = Header {
    format: Format::Standard,
    magic: 0x1357_9acf,
    block: 512,
    dir: 512,
    dir_bits: 6,
    elems: 16,
    next_block: 2048,
    version: 0,
    numsync: 0,
    reserved: [0; 6],
    avail_size: 28,
};

// Is it the size of a block?
#[tactic(auto, unfolding(gd_format::specs::HeaderFault::is_block_size))]
fn is_block(n: u32) -> bool
    ensures { result ≡ is_block_size (pos n) }
{
    n >= 512 && n <= 1_048_576 && n.is_power_of_two()
}

// Has a full slot a hash with the first 24 bits of this one?
#[tactic(auto, unfolding(gd_map_laws::specs::Overflow::have_top))]
fn is_near(slot: &Slot, hash: u32) -> bool
    ensures { result ≡ is_close hash slot.now }
{
    match slot {
        Slot::Empty => false,
        Slot::Full { hash: other, .. } => *other >> 7 == hash >> 7,
    }
}

fn close_count(slots: &[Slot], hash: u32) -> usize
    ensures is { result ≡ count (is_close hash) slots.now }
    ensures most { result ≤ length slots.now }
{
    let mut close = 0;
    for slot in slots {
        if is_near(slot, hash) {
            close += 1;
        }
    }
    close
}

// Fills the slots with the hashes 0, unit, 2 * unit and so on, of empty keys and values.
fn fill(bucket: &mut Bucket, unit: u32) {
    for n in 0..16u32 {
        let hash = u64::from(n) * u64::from(unit);
        if hash < 1 << 31 && bucket.slots().len() > n as usize {
            let slot = Slot::Full {
                hash: hash as u32,
                start: [0; 4],
                at: 0,
                key_size: 0,
                value_size: 0,
            };
            bucket.put_slot(n, slot);
        }
    }
}

/// What is left of a vault in which room was made, and the answer.
#[derive(Drop)]
struct Grown {
    vault: SmallVault,
    header: Header,
    bucket: Bucket,
    answer: Result<u64, DbError>,
}

// Makes room for a hash in the bucket at 1024, which has the hashes 0, unit and so on, in a directory of so many bits at 512.
// The calls of the vault fail from one on. None without memory, or where the call may not be made.
#[tactic(auto, unfolding(gd_format::specs::HeaderFault::is_native))]
fn room_made(alloc: Global, dir_bits: u32, unit: u32, hash: u32, calls: u64) -> Option<Grown>
    requires few { dir_bits ≤ 6 }
    requires small { hash < 2 ^ 31 }
{
    let mut header = WIDE;
    header.dir_bits = dir_bits;
    if !is_block(header.block) {
        return None;
    }
    let Ok(bytes) = vec![in alloc; 0u8; 8192] else {
        return None;
    };
    let mut vault = SmallVault::new(bytes, u64::MAX);
    let Ok(space) = Space::load(alloc, &mut vault, FileId(0), &header) else {
        return None;
    };
    let Ok(mut bucket) = Bucket::empty(alloc, 16, 0) else {
        return None;
    };
    let Ok(mut first) = Bucket::empty(alloc, 16, 3) else {
        return None;
    };
    let Ok(mut second) = Bucket::empty(alloc, 16, 5) else {
        return None;
    };
    let Ok(block) = vec![in alloc; 0u8; 512] else {
        return None;
    };
    let mut file = OpenFile::new(FileId(0), header, space, block);
    fill(&mut bucket, unit);
    if bucket.slots().len() != 16 || close_count(bucket.slots(), hash) >= 16 {
        return None;
    }
    vault.calls_left = calls;
    let answer = make_room(
        &mut file,
        &mut vault,
        hash,
        1024,
        &mut bucket,
        &mut first,
        &mut second,
    );
    Some(Grown {
        vault,
        header: *file.header(),
        bucket,
        answer,
    })
}

// The eight bytes at a place, as an address.
fn address_at(bytes: &[u8], at: usize) -> Option<i64> {
    if at >= bytes.len() || bytes.len() - at < 8 {
        return None;
    }
    Some(Native::address(&bytes[at..], 0))
}

#[test]
fn a_bucket_is_split_once(rt: HostRuntime) -> Result<(), Fail> {
    let Some(g) = room_made(rt.alloc(), 6, 1 << 27, 0, u64::MAX) else {
        return Err("no memory".into());
    };
    assert!(rt; g.answer == Ok(1024));
    assert!(rt; g.bucket.bits() == 1 && full_count(g.bucket.slots()) == 8);
    assert!(rt; g.header.dir == 512 && g.header.dir_bits == 6 && g.header.next_block == 2560);
    let bytes = g.vault.bytes.as_slice();
    assert!(rt; address_at(bytes, 32) == Some(2560));
    assert!(rt; address_at(bytes, 512 + 8 * 31) == Some(0));
    assert!(rt; address_at(bytes, 512 + 8 * 32) == Some(2048));
    assert!(rt; address_at(bytes, 512 + 8 * 63) == Some(2048));
    Ok(())
}

#[test]
fn the_half_of_the_hash_is_answered(rt: HostRuntime) -> Result<(), Fail> {
    let Some(g) = room_made(rt.alloc(), 6, 1 << 27, 9 << 27, u64::MAX) else {
        return Err("no memory".into());
    };
    assert!(rt; g.answer == Ok(2048));
    assert!(rt; g.bucket.bits() == 1 && full_count(g.bucket.slots()) == 8);
    Ok(())
}

#[test]
fn splits_and_doublings_are_repeated(rt: HostRuntime) -> Result<(), Fail> {
    let Some(g) = room_made(rt.alloc(), 0, 1 << 25, 0, u64::MAX) else {
        return Err("no memory".into());
    };
    assert!(rt; g.answer == Ok(1024));
    assert!(rt; g.bucket.bits() == 3 && full_count(g.bucket.slots()) == 8);
    assert!(rt; g.header.dir != 512 && g.header.dir_bits == 3);
    Ok(())
}

#[test]
fn each_call_of_the_vault_may_fail(rt: HostRuntime) -> Result<(), Fail> {
    for calls in 0..5u64 {
        let Some(g) = room_made(rt.alloc(), 6, 1 << 27, 0, calls) else {
            return Err("no memory".into());
        };
        assert!(rt; g.answer.is_ok() == (calls >= 4));
        assert!(rt; g.answer.is_ok() || g.answer == Err(DbError::VaultFault));
        assert!(rt; g.vault.faults == 0 || g.answer.is_err());
    }
    Ok(())
}
