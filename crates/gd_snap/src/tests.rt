//! Rows of two snapshots in a vault in memory, and what is answered of them.

ghost use Rattle.std.specs.Prelude.{◌≡◌, OnOk};
ghost use Rattle.gd_memvault.specs.Memory.{HasNoEvent};

use crate::{Choice, LatestError, latest};
use gd_base::{CallList, Datum, Name, Which};
use gd_memvault::MemVault;
use gd_vault::{Mode, Vault};
use std::alloc::Global;
use std::test::Fail;

const STANDARD: u32 = 0x1357_9acf;

const NUMSYNC: u32 = 0x1357_9ad1;

// One of two snapshots. The bytes between its magic and its numsync, and those behind, are zeros.
#[derive(Clone, Copy)]
struct Snapshot {
    magic: u32,
    len: usize,
    mode: Mode,
    numsync: u32,
    stamp: u64,
}

type Row = (
    Option<Snapshot>,
    Option<Snapshot>,
    Result<Choice, LatestError>,
);

// A file in the numsync format.
fn file(mode: Mode, numsync: u32, stamp: u64) -> Option<Snapshot> {
    part(NUMSYNC, 80, numsync, stamp).map(|whole| Snapshot { mode, ..whole })
}

// The first bytes of a file that may only be read.
fn part(magic: u32, len: usize, numsync: u32, stamp: u64) -> Option<Snapshot> {
    Some(Snapshot {
        magic,
        len,
        mode: Mode::ReadOnly,
        numsync,
        stamp,
    })
}

fn add(
    vault: &mut MemVault,
    alloc: Global,
    name: &str,
    snapshot: Option<Snapshot>,
) -> Result<(), Fail>
    requires { HasNoEvent vault.old }
    ensures { OnOk result (vault.new.log ≡ vault.old.log) }
{
    let Some(snapshot) = snapshot else {
        return Ok(());
    };
    let mut bytes = [0; 80];
    bytes[..4].copy_from_slice(&snapshot.magic.to_le_bytes());
    bytes[44..48].copy_from_slice(&snapshot.numsync.to_le_bytes());
    let bytes = Datum::from_slice(alloc, &bytes[..snapshot.len.min(80)])?;
    vault.add_file(
        Name::new(alloc, name)?,
        bytes,
        snapshot.mode,
        snapshot.stamp,
    )?;
    Ok(())
}

// What is answered where the call of this number fails, and how many calls failed.
fn answer(
    alloc: Global,
    even: Option<Snapshot>,
    odd: Option<Snapshot>,
    fails: u64,
) -> Result<(Result<Choice, LatestError>, u64), Fail> {
    let mut vault = MemVault::plain(alloc);
    add(&mut vault, alloc, "even", even)?;
    add(&mut vault, alloc, "odd", odd)?;
    vault.fail_calls(CallList::from_slice(alloc, &[fails])?);
    let even = Name::new(alloc, "even")?;
    let odd = Name::new(alloc, "odd")?;
    let answer = latest(&mut vault, &even, &odd);
    Ok((answer, vault.faults()))
}

fn rows() -> [Row; 25] {
    let open = Mode::ReadOnly;
    let shut = Mode::WriteOnly;
    let even = Ok(Choice::Even);
    let odd = Ok(Choice::Odd);
    [
        (file(open, 4_294_967_295, 1), file(open, 0, 1), odd),
        (file(open, 5, 1), file(open, 4, 9), even),
        (file(open, 5, 1), file(open, 7, 9), Ok(Choice::Suspicious)),
        (file(open, 5, 1), file(Mode::Both, 5, 2), odd),
        (file(open, 5, 1), file(open, 5, 1), Ok(Choice::Same)),
        (file(shut, 5, 1), file(open, 9, 1), odd),
        (file(shut, 5, 1), file(shut, 6, 1), Ok(Choice::Bad)),
        (part(STANDARD, 80, 0, 3), part(STANDARD, 80, 0, 2), even),
        // Numsyncs at the end of their range, and those that are equal.
        (file(open, 0, 1), file(open, 4_294_967_295, 1), even),
        (
            file(open, 1, 1),
            file(open, 4_294_967_295, 9),
            Ok(Choice::Suspicious),
        ),
        (file(open, 0, 2), file(open, 0, 1), even),
        (file(Mode::Both, 5, 1), file(shut, 6, 9), even),
        // Without a numsync in both files the stamps choose: a byte is missing, or the magic is another one.
        (part(NUMSYNC, 72, 5, 1), part(NUMSYNC, 72, 4, 9), even),
        (part(NUMSYNC, 71, 5, 1), part(NUMSYNC, 72, 4, 9), odd),
        (part(NUMSYNC, 72, 4, 9), part(NUMSYNC, 71, 5, 1), even),
        (
            part(NUMSYNC, 3, 5, 1),
            part(NUMSYNC, 48, 7, 1),
            Ok(Choice::Same),
        ),
        (part(NUMSYNC, 0, 5, 1), part(STANDARD, 0, 7, 2), odd),
        (part(NUMSYNC, 80, 5, 1), part(STANDARD, 80, 4, 9), odd),
        (part(STANDARD, 80, 5, 9), part(STANDARD, 80, 7, 1), even),
        (
            part(0xd19a_5713, 80, 5, 1),
            part(0x1357_9ad0, 80, 4, 9),
            odd,
        ),
        // A name that stands for no file.
        (None, None, Err(LatestError::Absent(Which::Even))),
        (
            None,
            file(open, 5, 1),
            Err(LatestError::Absent(Which::Even)),
        ),
        (
            None,
            file(shut, 5, 1),
            Err(LatestError::Absent(Which::Even)),
        ),
        (file(open, 5, 1), None, Err(LatestError::Absent(Which::Odd))),
        (file(shut, 5, 1), None, Err(LatestError::Absent(Which::Odd))),
    ]
}

#[test]
fn the_newer_one_is_chosen(rt: HostRuntime) -> Result<(), Fail> {
    let alloc = rt.alloc();
    for (even, odd, want) in rows() {
        let (answer, faults) = answer(alloc, even, odd, u64::MAX)?;
        assert_eq!(rt; answer, want);
        assert_eq!(rt; faults, 0);
    }
    Ok(())
}

// Two equal numsyncs want every call: each name is looked up, then come the modes, of each file the length, the magic
// and the numsync, and the stamps. A name that stands for no file ends it.
#[test]
fn a_call_that_fails_is_a_fault(rt: HostRuntime) -> Result<(), Fail> {
    let alloc = rt.alloc();
    let there = file(Mode::Both, 5, 1);
    let short = part(NUMSYNC, 71, 5, 1);
    let rows = [
        (there, there, 12, Ok(Choice::Same)),
        (short, short, 8, Ok(Choice::Same)),
        (there, file(Mode::Both, 6, 1), 10, Ok(Choice::Odd)),
        (there, file(Mode::WriteOnly, 6, 1), 4, Ok(Choice::Even)),
        (there, None, 2, Err(LatestError::Absent(Which::Odd))),
        (None, there, 1, Err(LatestError::Absent(Which::Even))),
    ];
    for (even, odd, calls, want) in rows {
        for n in 0..calls {
            let (failed, faults) = answer(alloc, even, odd, n)?;
            assert_eq!(rt; failed, Err(LatestError::VaultFault));
            assert_eq!(rt; faults, 1);
        }
        let (whole, faults) = answer(alloc, even, odd, calls)?;
        assert_eq!(rt; whole, want);
        assert_eq!(rt; faults, 0);
    }
    Ok(())
}
