ghost use Rattle.std.specs.Prelude.{◌≤◌, IfOk};
ghost use Rattle.gd_memvault.specs.Memory.{memory_view};
ghost use Rattle.gd_vault.specs.Views.{HasFile};

use crate::{bits_for, block_for, make_file, new_header};
use gd_base::{CallList, DbError, Name};
use gd_format::Format;
use gd_memvault::MemVault;
use gd_vault::{FileId, Mode, Vault};
use std::alloc::Global;
use std::process::Abort;
use std::test::Fail;

// The first 44 bytes of a new standard file of block 512.
const START: [u8; 44] = [
    0xcf, 0x9a, 0x57, 0x13, 0, 2, 0, 0, 0, 2, 0, 0, 0, 0, 0, 0, 0, 2, 0, 0, 6, 0, 0, 0, 0, 2, 0, 0,
    0x10, 0, 0, 0, 0, 8, 0, 0, 0, 0, 0, 0, 0x1c, 0, 0, 0,
];

fn put(rt: &impl Abort, file: &mut [u8], at: usize, bytes: &[u8]) {
    assert!(rt; at <= file.len() && bytes.len() <= file.len() - at);
    file[at..at + bytes.len()].copy_from_slice(bytes);
}

// Puts the directory and the bucket of a file of block 512.
fn put_rest(rt: &impl Abort, file: &mut [u8]) {
    for i in 0usize..64 {
        put(rt, file, 512 + 8 * i, b"\0\x04");
    }
    put(rt, file, 1024, b"\x01");
    put(rt, file, 1032, b"\0\x02");
    put(rt, file, 1040, b"\0\x06");
    for s in 0usize..16 {
        put(rt, file, 1136 + 24 * s, b"\xff\xff\xff\xff");
    }
}

// An empty file.
fn empty_file(vault: &mut MemVault, alloc: Global) -> Result<FileId, Fail>
    ensures { IfOk result (λ f. HasFile (memory_view vault.new) f.0) }
{
    let name = Name::new(alloc, "n.gdbm")?;
    match vault.create(&name, Mode::Both) {
        Ok(f) => Ok(f),
        Err(_) => Err("no file".into()),
    }
}

// A new file for which a block size is asked, and what making it answers.
fn made(
    vault: &mut MemVault,
    alloc: Global,
    asked: u32,
    format: Format,
) -> Result<(FileId, Result<(), DbError>), Fail>
    requires { asked ≤ 1048576 }
    ensures { IfOk result (λ r. HasFile (memory_view vault.new) r.0.0) }
{
    let f = empty_file(vault, alloc)?;
    let header = new_header(block_for(asked), format);
    let mut buf = vec![in alloc; 0x55u8; header.block as usize]?;
    let answer = make_file(vault, f, &header, &mut buf);
    Ok((f, answer))
}

#[test]
fn a_new_standard_file(rt: HostRuntime) -> Result<(), Fail> {
    let mut vault = MemVault::plain(rt.alloc());
    let (f, answer) = made(&mut vault, rt.alloc(), 512, Format::Standard)?;
    assert!(rt; answer.is_ok());
    let mut want = [0u8; 1536];
    put(&rt, &mut want, 0, &START);
    put_rest(&rt, &mut want);
    assert!(rt; vault.bytes(f) == want.as_slice());
    Ok(())
}

#[test]
fn a_new_numsync_file(rt: HostRuntime) -> Result<(), Fail> {
    let mut vault = MemVault::plain(rt.alloc());
    let (f, answer) = made(&mut vault, rt.alloc(), 512, Format::Numsync)?;
    assert!(rt; answer.is_ok());
    let mut want = [0u8; 1536];
    put(&rt, &mut want, 0, &START);
    put(&rt, &mut want, 0, b"\xd1");
    put(&rt, &mut want, 40, b"\0");
    put(&rt, &mut want, 72, b"\x1a");
    put_rest(&rt, &mut want);
    assert!(rt; vault.bytes(f) == want.as_slice());
    Ok(())
}

// The first 44 bytes of a new standard file of block 4,096: its directory at 4,096 with 9 bits, 166 slots, the next block at
// 16,384, and room for 252 extents.
const LARGE_START: [u8; 44] = [
    0xcf, 0x9a, 0x57, 0x13, 0, 0x10, 0, 0, 0, 0x10, 0, 0, 0, 0, 0, 0, 0, 0x10, 0, 0, 9, 0, 0, 0, 0,
    0x10, 0, 0, 0xa6, 0, 0, 0, 0, 0x40, 0, 0, 0, 0, 0, 0, 0xfc, 0, 0, 0,
];

// Puts the directory and the bucket of a file of block 4,096.
fn put_large_rest(rt: &impl Abort, file: &mut [u8]) {
    for i in 0usize..512 {
        put(rt, file, 4096 + 8 * i, b"\0\x20");
    }
    put(rt, file, 8192, b"\x01");
    put(rt, file, 8200, b"\0\x10");
    put(rt, file, 8208, b"\0\x30");
    for s in 0usize..166 {
        put(rt, file, 8304 + 24 * s, b"\xff\xff\xff\xff");
    }
}

#[test]
fn a_new_standard_file_of_the_default_block(rt: HostRuntime) -> Result<(), Fail> {
    let mut vault = MemVault::plain(rt.alloc());
    let (f, answer) = made(&mut vault, rt.alloc(), 0, Format::Standard)?;
    assert!(rt; answer.is_ok());
    let mut want = vec![in rt.alloc(); 0u8; 12288]?;
    put(&rt, &mut want, 0, &LARGE_START);
    put_large_rest(&rt, &mut want);
    assert!(rt; vault.bytes(f) == want.as_slice());
    Ok(())
}

#[test]
fn a_new_numsync_file_of_the_default_block(rt: HostRuntime) -> Result<(), Fail> {
    let mut vault = MemVault::plain(rt.alloc());
    let (f, answer) = made(&mut vault, rt.alloc(), 4096, Format::Numsync)?;
    assert!(rt; answer.is_ok());
    let mut want = vec![in rt.alloc(); 0u8; 12288]?;
    put(&rt, &mut want, 0, &LARGE_START);
    put(&rt, &mut want, 0, b"\xd1");
    put(&rt, &mut want, 40, b"\0");
    put(&rt, &mut want, 72, b"\xfa");
    put_large_rest(&rt, &mut want);
    assert!(rt; vault.bytes(f) == want.as_slice());
    Ok(())
}

#[test]
fn block_sizes(rt: HostRuntime) {
    let rows = [
        (0u32, 4096, 9),
        (511, 4096, 9),
        (512, 512, 6),
        (513, 1024, 7),
        (4096, 4096, 9),
        (4097, 8192, 10),
        (1_048_576, 1_048_576, 17),
    ];
    for (asked, block, bits) in rows {
        let few = asked <= 1_048_576;
        assert!(rt; few);
        let size = block_for(asked);
        assert!(rt; size == block && bits_for(size) == bits);
    }
}

#[test]
fn a_write_that_fails(rt: HostRuntime) -> Result<(), Fail> {
    for call in 1u64..4 {
        let mut vault = MemVault::plain(rt.alloc());
        vault.fail_calls(CallList::from_slice(rt.alloc(), &[call]).map_err(|_| "memory")?);
        let (_f, answer) = made(&mut vault, rt.alloc(), 512, Format::Standard)?;
        assert!(rt; answer == Err(DbError::VaultFault) && vault.faults() == 1);
    }
    Ok(())
}
