//! A table of mail aliases that is loaded over an older one.

use crate::run::{calls, count, ended, has, load, named};
use gd_base::{Failed, Format, MemSink, Name};
use gd_dump::AsciiWriter;
use gd_memvault::MemVault;
use std::alloc::Global;
use std::process::Abort;
use std::test::Fail;

fn digit(n: u32) -> u8 {
    b'0' + (n % 10) as u8
}

// The key of a user, as user001.
fn user(n: u32) -> [u8; 7] {
    [
        b'u',
        b's',
        b'e',
        b'r',
        digit(n / 100),
        digit(n / 10),
        digit(n),
    ]
}

// Writes a dump of so many users with this domain, and of a postmaster where there is one.
fn write(
    alloc: Global,
    name: &Name,
    users: u32,
    domain: &[u8],
    postmaster: Option<&[u8]>,
    out: &mut MemSink,
) -> Result<Result<(), Failed>, Fail> {
    let mut done = AsciiWriter::head(Format::Standard, name, out);
    for n in 1..=users {
        let mut value = user(n).to_vec(alloc)?;
        value.extend_from_slice(domain)?;
        done = done.and(AsciiWriter::pair(&user(n), &value, out));
    }
    if let Some(value) = postmaster {
        done = done.and(AsciiWriter::pair(b"postmaster", value, out));
    }
    let more = u64::from(postmaster.is_some());
    Ok(done.and(AsciiWriter::end(u64::from(users) + more, out)))
}

fn dump(
    alloc: Global,
    users: u32,
    domain: &[u8],
    postmaster: Option<&[u8]>,
) -> Result<Vec<u8>, Fail> {
    let mut out = MemSink::new(alloc, calls(alloc, &[])?);
    let name = named(alloc, "aliases.gdbm")?;
    match write(alloc, &name, users, domain, postmaster, &mut out)? {
        Ok(()) => Ok(out.bytes().to_vec(alloc)?),
        Err(Failed) => Err("no dump".into()),
    }
}

// A vault with the older table: 290 users, and a postmaster.
fn older(alloc: Global) -> Result<MemVault, Fail> {
    let mut vault = MemVault::plain(alloc);
    let old = dump(alloc, 290, b"@old.example.org", Some(b"root@example.org"))?;
    let made = load(alloc, &["-b", "4096", "-"], &old, &mut vault)?;
    if ended(&made, 0, b"") {
        Ok(vault)
    } else {
        Err("no older table".into())
    }
}

#[test]
fn newer_aliases_take_the_place_of_older_ones(rt: HostRuntime) -> Result<(), Fail> {
    let alloc = rt.alloc();
    let new = dump(alloc, 300, b"@example.org", None)?;
    let mut vault = older(alloc)?;
    let told = load(alloc, &["-r", "-U", "-"], &new, &mut vault)?;
    let name = "aliases.gdbm";
    let all = ended(&told, 0, b"")
        && count(alloc, &mut vault, name)? == Some(301)
        && has(alloc, &mut vault, name, b"user001", b"user001@example.org")?
        && has(alloc, &mut vault, name, b"user300", b"user300@example.org")?
        && has(alloc, &mut vault, name, b"postmaster", b"root@example.org")?;
    assert!(&rt; all);
    Ok(())
}

#[test]
fn aliases_that_are_there_are_refused_without_leave(rt: HostRuntime) -> Result<(), Fail> {
    let alloc = rt.alloc();
    let new = dump(alloc, 300, b"@example.org", None)?;
    let mut vault = older(alloc)?;
    let told = load(alloc, &["-U", "-"], &new, &mut vault)?;
    let name = "aliases.gdbm";
    let all = ended(&told, 1, b"gdbm_load: error 16 CannotReplace\n")
        && count(alloc, &mut vault, name)? == Some(291)
        && has(
            alloc,
            &mut vault,
            name,
            b"user001",
            b"user001@old.example.org",
        )?;
    assert!(&rt; all);
    Ok(())
}
