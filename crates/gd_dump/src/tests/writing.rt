use crate::{AsciiWriter, BinaryWriter};
use gd_base::{CallList, Failed, Format, MemSink, Name, Page, Sink, flush};
use std::alloc::Global;
use std::process::Abort;

pub const ONE_RECORD: &[u8] = b"# GDBM dump file created by gdbm_dump
#:version=1.1
#:file=a.gdbm
#:format=standard
# End of header
#:len=1
aw==
#:len=1
dg==
#:count=1
# End of data
";

fn sink(rt: &impl Abort, alloc: Global, fails: &[u64]) -> MemSink {
    let fails = CallList::from_slice(alloc, fails).expect(rt, "calls");
    MemSink::new(alloc, fails)
}

fn name(rt: &impl Abort, alloc: Global, text: &str) -> Name {
    Name::new(alloc, text).expect(rt, "name")
}

#[test]
fn dumps_one_record(rt: HostRuntime) {
    let mut out = sink(&rt, rt.alloc(), &[]);
    let file = name(&rt, rt.alloc(), "a.gdbm");
    assert_eq!(rt;
        AsciiWriter::head(Format::Standard, &file, &mut out),
        Ok(())
    );
    assert_eq!(rt; AsciiWriter::pair(b"k", b"v", &mut out), Ok(()));
    assert_eq!(rt; AsciiWriter::end(1, &mut out), Ok(()));
    assert_eq!(rt; ONE_RECORD.len(), 150);
    assert_eq!(rt; out.bytes(), ONE_RECORD);
}

#[test]
fn breaks_lines_at_76_characters(rt: HostRuntime) {
    let rows: [(&[u8], &[u8]); 3] = [
        (b"", b"#:len=0\n#:len=0\n"),
        (
            &[b'a'; 57],
            b"#:len=0\n#:len=57\nYWFhYWFhYWFhYWFhYWFhYWFhYWFhYWFhYWFhYWFhYWFhYWFhYWFhYWFhYWFhYWFhYWFhYWFhYWFh\n",
        ),
        (
            &[b'a'; 58],
            b"#:len=0\n#:len=58\nYWFhYWFhYWFhYWFhYWFhYWFhYWFhYWFhYWFhYWFhYWFhYWFhYWFhYWFhYWFhYWFhYWFhYWFhYWFh\nYQ==\n",
        ),
    ];
    for (value, want) in rows {
        let mut out = sink(&rt, rt.alloc(), &[]);
        assert_eq!(rt; AsciiWriter::pair(b"", value, &mut out), Ok(()));
        assert_eq!(rt; out.bytes(), want);
    }
}

#[test]
fn names_the_file_by_its_last_part(rt: HostRuntime) {
    let rows: [(&str, &[u8]); 7] = [
        ("/var/db/a-b_c.D9", b"#:file=a-b_c.D9\n"),
        ("x+y@z%", b"#:file=x+y@z%\n"),
        ("a b/c", b"#:file=c\n"),
        ("a b", b""),
        ("a,b", b""),
        ("d/", b""),
        ("caf\u{e9}", b""),
    ];
    for (text, want) in rows {
        let mut out = sink(&rt, rt.alloc(), &[]);
        assert_eq!(rt;
            AsciiWriter::head(Format::Numsync, &name(&rt, rt.alloc(), text), &mut out),
            Ok(())
        );
        let rest = out
            .bytes()
            .strip_prefix(b"# GDBM dump file created by gdbm_dump\n#:version=1.1\n");
        let line = rest.and_then(|r| r.strip_suffix(b"#:format=numsync\n# End of header\n"));
        assert_eq!(rt; line, Some(want), "{text}");
    }
}

#[test]
fn hands_on_a_fault(rt: HostRuntime) {
    let mut out = sink(&rt, rt.alloc(), &[0]);
    assert_eq!(rt; AsciiWriter::end(0, &mut out), Err(Failed));
    assert_eq!(rt; out.faults(), 1);
    assert_eq!(rt; out.bytes(), b"".as_slice());
    assert_eq!(rt; AsciiWriter::end(0, &mut out), Ok(()));
    assert_eq!(rt; out.bytes(), b"#:count=0\n# End of data\n".as_slice());
}

const PAIR: &[u8] = b"#:len=15\nAAAAAAAAAAAAAAAAAAAA\n#:len=12\n////////////////\n";

fn put_many(page: &mut Page, out: &mut MemSink) -> Result<(), Failed> {
    for _ in 0..74u8 {
        AsciiWriter::put_pair(page, &[0; 15], &[255; 12], out)?;
    }
    AsciiWriter::put_end(page, 74, out)?;
    flush(page, out)
}

// A pair has 56 bytes, so the page is full after 73 of them and 8 bytes more.
#[test]
fn writes_by_pages(rt: HostRuntime) {
    let mut out = sink(&rt, rt.alloc(), &[]);
    let mut page = Page::new();
    assert_eq!(rt; put_many(&mut page, &mut out), Ok(()));
    assert_eq!(rt; out.bytes().len(), 74 * PAIR.len() + 25);
    for pair in out.bytes().chunks_exact(56) {
        assert!(rt; pair == PAIR);
    }
    assert!(rt; out.bytes().ends_with(b"\n#:count=74\n# End of data\n"));
    let mut out = sink(&rt, rt.alloc(), &[1]);
    let mut page = Page::new();
    assert_eq!(rt; put_many(&mut page, &mut out), Err(Failed));
    assert_eq!(rt; out.bytes().len(), 4096);
    assert!(rt; out.bytes().ends_with(b"////////////////\n#:len=15"));
}

#[test]
fn dumps_one_record_in_binary(rt: HostRuntime) {
    let mut out = sink(&rt, rt.alloc(), &[]);
    let file = name(&rt, rt.alloc(), "a.gdbm");
    assert_eq!(rt;
        BinaryWriter::head(Format::Standard, &file, &mut out),
        Ok(())
    );
    assert_eq!(rt; out.bytes().len(), 77);
    assert_eq!(rt; BinaryWriter::pair(b"k", b"v", &mut out), Ok(()));
    assert_eq!(rt; BinaryWriter::end(1, &mut out), Ok(()));
    assert_eq!(rt; out.bytes().len(), 87);
    assert!(rt;
        out.bytes().starts_with(
            b"!\r\n! GDBM FLAT FILE DUMP -- THIS IS NOT A TEXT FILE\r\n! GDBM version 1.23\r\n!\r\n"
        )
    );
    assert!(rt;
        out.bytes()
            .ends_with(b"\r\n\x00\x00\x00\x01k\x00\x00\x00\x01v")
    );
    let mut out = sink(&rt, rt.alloc(), &[]);
    assert_eq!(rt; BinaryWriter::pair(&[7; 258], b"", &mut out), Ok(()));
    assert!(rt; out.bytes().starts_with(b"\x00\x00\x01\x02\x07\x07"));
    assert!(rt; out.bytes().ends_with(b"\x07\x07\x00\x00\x00\x00"));
    assert_eq!(rt; out.bytes().len(), 266);
}
