//! The host's streams and its clock.

use gd_base::{Clock, Failed, Sink, Source, write_all};
use gd_host::{HostClock, HostSink, HostSource};
use std::io::{self, ErrorKind, Read, Write};
use std::test::Fail;

// How a call of a reader or a writer goes.
#[derive(Clone, Copy)]
enum Way {
    Take(usize),
    Interrupt,
    Fail,
}

// The way of the next call.
fn take(ways: &mut &[Way]) -> io::Result<usize> {
    let Some((way, rest)) = ways.split_first() else {
        return Ok(0);
    };
    *ways = rest;
    match way {
        Way::Take(count) => Ok(*count),
        Way::Interrupt => Err(ErrorKind::Interrupted.into()),
        Way::Fail => Err(ErrorKind::Other.into()),
    }
}

#[derive(Drop)]
struct Reader<'a> {
    left: &'a [u8],
    ways: &'a [Way],
}

impl Read for Reader<'_> {
    fn read(&mut self, buf: &mut [u8]) -> io::Result<usize> {
        let count = take(&mut self.ways)?.min(buf.len()).min(self.left.len());
        buf[..count].copy_from_slice(&self.left[..count]);
        self.left = &self.left[count..];
        Ok(count)
    }
}

// The ways of six bytes.
fn read_ways() -> [Way; 5] {
    [
        Way::Take(4),
        Way::Interrupt,
        Way::Take(9),
        Way::Fail,
        Way::Take(9),
    ]
}

// What each read answers, the buffer then, and the count of failures.
fn read_rows() -> [(Result<usize, Failed>, [u8; 4], u64); 4] {
    [
        (Ok(4), *b"abcd", 0),
        (Ok(2), *b"efcd", 0),
        (Err(Failed), *b"efcd", 1),
        (Ok(0), *b"efcd", 1),
    ]
}

fn reads(
    source: &mut HostSource<Reader<'_>>,
    buf: &mut [u8; 4],
    row: &(Result<usize, Failed>, [u8; 4], u64),
) -> bool {
    let answer = source.read(buf);
    answer == row.0 && *buf == row.1 && source.faults() == row.2
}

#[test]
fn a_source_reads_in_pieces_to_the_end(rt: HostRuntime) -> Result<(), Fail> {
    let ways = read_ways();
    let mut source = HostSource::new(Reader {
        left: b"abcdef",
        ways: &ways,
    });
    let mut buf = *b"....";
    for row in &read_rows() {
        assert!(rt; reads(&mut source, &mut buf, row));
    }
    Ok(())
}

#[derive(Drop)]
struct Writer<'a> {
    taken: Vec<u8>,
    ways: &'a [Way],
}

impl Write for Writer<'_> {
    fn write(&mut self, bytes: &[u8]) -> io::Result<usize> {
        let count = take(&mut self.ways)?.min(bytes.len());
        self.taken.extend_from_slice(&bytes[..count])?;
        Ok(count)
    }

    fn flush(&mut self) -> io::Result<()> {
        Ok(())
    }
}

fn write_ways() -> [Way; 8] {
    [
        Way::Take(2),
        Way::Interrupt,
        Way::Take(9),
        Way::Take(0),
        Way::Fail,
        Way::Take(1),
        Way::Take(1),
        Way::Take(0),
    ]
}

// What each write of three bytes answers, and the count of failures then.
fn write_rows() -> [(Result<usize, Failed>, u64); 4] {
    [(Ok(2), 0), (Ok(3), 0), (Err(Failed), 1), (Err(Failed), 2)]
}

fn writes(sink: &mut HostSink<&mut Writer<'_>>, row: &(Result<usize, Failed>, u64)) -> bool {
    sink.write(b"abc") == row.0 && sink.faults() == row.1
}

#[test]
fn a_sink_writes_some_or_fails(rt: HostRuntime) -> Result<(), Fail> {
    let ways = write_ways();
    let mut writer = Writer {
        taken: Vec::new(rt.alloc()),
        ways: &ways,
    };
    let mut sink = HostSink::new(&mut writer);
    for row in &write_rows() {
        assert!(rt; writes(&mut sink, row));
    }
    assert!(rt; write_all(&mut sink, b"xyz") == Err(Failed));
    assert_eq!(rt; sink.faults(), 3);
    assert_eq!(rt; writer.taken.as_slice(), b"ababcxy".as_slice());
    Ok(())
}

#[test]
fn streams_and_clock_of_the_host(rt: HostRuntime) -> Result<(), Fail> {
    let mut out = HostSink::new(rt.stdout());
    assert!(rt; out.write(b"\n") == Ok(1));
    assert_eq!(rt; out.faults(), 0);
    let mut input = HostSource::new(rt.stdin());
    let mut buf = [0u8; 4];
    assert!(rt; input.read(&mut buf).is_ok());
    assert_eq!(rt; input.faults(), 0);
    let mut clock = HostClock::new(&rt);
    assert!(rt; clock.now().is_ok_and(|now| now > 1_600_000_000_000_000_000));
    assert_eq!(rt; clock.faults(), 0);
    Ok(())
}
