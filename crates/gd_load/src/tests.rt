ghost use Rattle.std.specs.Prelude.{◌≡◌, ◌≤◌, Some};
ghost use Rattle.gd_base.specs.Causes.{HasCause};
ghost use Rattle.gd_base.specs.Sources.{Reads};

use crate::{Begun, Front, Stop, start};
use gd_base::{CallList, Datum, Failed, MemSource, Source};
use gd_dump_reading::DumpKind;
use std::alloc::Global;
use std::process::Abort;

const ONE_RECORD: &[u8] = b"# GDBM dump file created by gdbm_dump
#:version=1.1
#:file=a.gdbm
#:format=standard
# End of header
#:len=1
aw==
#:len=1
dg==
#:count=1
# End of data
";

const BINARY: &[u8] =
    b"!\r\n! GDBM FLAT FILE DUMP -- THIS IS NOT A TEXT FILE\r\n! GDBM version 1.23\r\n!\r\n\x00\x00\x00\x01k\x00\x00\x00\x01v";

// A source that gives at most so many bytes at a time.
#[derive(Drop)]
struct Slow {
    source: MemSource,
    most: usize,
    ghost some: { 1 ≤ most },
}

impl Source for Slow {
    ghost left = { λ s. Some s.source.left };

    ghost fault_count = { λ s. s.source.faults };

    fn faults(&self) -> u64 {
        self.source.faults()
    }

    fn read(&mut self, buf: &mut [u8]) -> Result<usize, Failed> {
        let count = buf.len().min(self.most);
        self.source.read(&mut buf[..count])
    }
}

// Is it a binary dump, and where does its head end?
fn begin(
    rt: &impl Abort,
    alloc: Global,
    bytes: &[u8],
    fails: &[u64],
    most: usize,
) -> Result<(bool, u64), Stop>
    requires { 1 ≤ most }
{
    let mut input = Slow {
        source: MemSource::new(
            Datum::from_slice(alloc, bytes).expect(rt, "memory"),
            CallList::from_slice(alloc, fails).expect(rt, "memory"),
        ),
        most,
    };
    match start(alloc, &mut input) {
        Ok(Begun { front, place, .. }) => match front {
            Front::Ascii(_) => Ok((false, place)),
            Front::Binary(_) => Ok((true, place)),
        },
        Err(stop) => Err(stop),
    }
}

type Row = (
    &'static [u8],
    usize,
    &'static [u64],
    Result<(bool, u64), Stop>,
);

// A dump, of which so many bytes are there; the reads that fail; and what is answered.
fn rows() -> [Row; 14] {
    let refused = |kind, place| Err(Stop::Refused(kind, place));
    [
        (b"", 0, &[], refused(DumpKind::Truncated, 0)),
        (b"x", 1, &[], refused(DumpKind::Version, 0)),
        (b"!\nx\n", 4, &[], refused(DumpKind::Version, 2)),
        (BINARY, 1, &[], refused(DumpKind::Truncated, 1)),
        (BINARY, 76, &[], refused(DumpKind::Truncated, 76)),
        (BINARY, 77, &[], Ok((true, 77))),
        (BINARY, 87, &[], Ok((true, 77))),
        (ONE_RECORD, 40, &[], refused(DumpKind::Parameter, 38)),
        (ONE_RECORD, 50, &[], refused(DumpKind::Version, 38)),
        (ONE_RECORD, 65, &[], refused(DumpKind::Truncated, 65)),
        (ONE_RECORD, 99, &[], Ok((false, 99))),
        (ONE_RECORD, 149, &[], Ok((false, 100))),
        (ONE_RECORD, 149, &[0], Err(Stop::InputFailed)),
        (BINARY, 20, &[1], Err(Stop::InputFailed)),
    ]
}

#[test]
fn begins_by_the_first_byte_whatever_the_pages(rt: HostRuntime) {
    for (dump, len, fails, want) in rows() {
        let bytes = dump.get(..len).expect(&rt, "within");
        for most in [1, 2, 3, 150] {
            let got = begin(&rt, rt.alloc(), bytes, fails, most);
            assert_eq!(rt; got, want, "{len} by {most}");
        }
    }
}
