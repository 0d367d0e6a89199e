use crate::{
    AsciiMachine, AsciiReader, BinaryMachine, BinaryReader, DumpError, DumpKind, Item, Machine,
    Reader,
};
use gd_base::Format;
use std::alloc::Global;
use std::process::Abort;

pub const ONE_RECORD: &[u8] = b"# GDBM dump file created by gdbm_dump
#:version=1.1
#:file=a.gdbm
#:format=standard
# End of header
#:len=1
aw==
#:len=1
dg==
#:count=1
# End of data
";

pub const BINARY: &[u8] =
    b"!\r\n! GDBM FLAT FILE DUMP -- THIS IS NOT A TEXT FILE\r\n! GDBM version 1.23\r\n!\r\n\x00\x00\x00\x01k\x00\x00\x00\x01v";

fn add(rt: &impl Abort, text: &mut Vec<u8>, bytes: &[u8]) {
    text.extend_from_slice(bytes).expect(rt, "memory");
}

// Writes an item behind the others, as `head format file`, `key=value` or `end`, and a blank.
fn show(rt: &impl Abort, text: &mut Vec<u8>, item: &Item) {
    match item {
        Item::Head(head) => {
            add(rt, text, b"head ");
            match head.format {
                Some(Format::Standard) => add(rt, text, b"standard "),
                Some(Format::Numsync) => add(rt, text, b"numsync "),
                None => {}
            }
            if let Some(file) = &head.file {
                add(rt, text, file.as_slice());
                add(rt, text, b" ");
            }
        }
        Item::Pair(key, value) => {
            add(rt, text, key.as_slice());
            add(rt, text, b"=");
            add(rt, text, value.as_slice());
            add(rt, text, b" ");
        }
        Item::End => add(rt, text, b"end "),
    }
}

// What a dump in pieces of this size is read as, and the refusal.
fn read<M: Machine>(
    rt: &impl Abort,
    alloc: Global,
    bytes: &[u8],
    size: usize,
) -> (Vec<u8>, Option<DumpError>) {
    let mut reader = Reader::<M>::new(alloc);
    let mut text = Vec::new(alloc);
    let mut at: usize = 0;
    'pieces: for _ in 0..1000u32 {
        let end = bytes.len().min(at.saturating_add(size));
        match reader.feed(&bytes[at..end]) {
            Ok(fed) => {
                at += fed.taken;
                if let Some(item) = fed.item {
                    show(rt, &mut text, &item);
                }
            }
            Err(error) => return (text, Some(error)),
        }
        if at == bytes.len() {
            break;
        }
    }
    for _ in 0..10u32 {
        match reader.finish() {
            Ok(Some(item)) => show(rt, &mut text, &item),
            Ok(None) => break,
            Err(error) => return (text, Some(error)),
        }
    }
    (text, None)
}

pub fn read_ascii(
    rt: &impl Abort,
    alloc: Global,
    bytes: &[u8],
    size: usize,
) -> (Vec<u8>, Option<DumpError>) {
    read::<AsciiMachine>(rt, alloc, bytes, size)
}

pub fn read_binary(
    rt: &impl Abort,
    alloc: Global,
    bytes: &[u8],
    size: usize,
) -> (Vec<u8>, Option<DumpError>) {
    read::<BinaryMachine>(rt, alloc, bytes, size)
}

#[test]
fn reads_binary_in_pieces(rt: HostRuntime) {
    for size in [1, 2, 3, 150] {
        let (text, error) = read_binary(&rt, rt.alloc(), BINARY, size);
        assert_eq!(rt; text.as_slice(), b"head k=v end ".as_slice(), "{size}");
        assert_eq!(rt; error, None);
    }
}

fn cut_or_wrong_binary() -> [(&'static [u8], &'static [u8], DumpKind, u64); 13] {
    [
        (b"", b"", DumpKind::Truncated, 0),
        (b"!\n!", b"", DumpKind::Truncated, 3),
        (b"\n", b"", DumpKind::Version, 0),
        (b"! \nx", b"", DumpKind::Version, 3),
        (b"!\n!\n!\n!\n", b"", DumpKind::Version, 2),
        (b"!\n! GDBM FLAT FILE DUM\n", b"", DumpKind::Version, 2),
        (
            b"!\n!! GDBM FLAT FILE DUMP\n!\n!\n\x00\x00",
            b"head ",
            DumpKind::Truncated,
            31,
        ),
        (
            b"!\n!! GDBM FLAT FILE DUMP\n!\n!\n\x00\x00\x00\x01k",
            b"head ",
            DumpKind::Truncated,
            34,
        ),
        (
            b"!\n!! GDBM FLAT FILE DUMP\n!\n!\n\x00\x00\x00\x01k\x00\x00\x00\x02v",
            b"head ",
            DumpKind::Truncated,
            39,
        ),
        (
            b"!\n!! GDBM FLAT FILE DUMP\n!\n!\n\x00\x00\x00\x01k\x00\x00\x00\x00\x00",
            b"head k= ",
            DumpKind::Truncated,
            39,
        ),
        (
            b"!\n!! GDBM FLAT FILE DUMP\n!\n!\n\x40\x00\x00\x01",
            b"head ",
            DumpKind::TooLarge,
            29,
        ),
        (
            b"!\n!! GDBM FLAT FILE DUMP\n!\n!\n\x40\x00\x00\x00k",
            b"head ",
            DumpKind::Truncated,
            34,
        ),
        (
            b"!\n!! GDBM FLAT FILE DUMP\n!\n!\n\x00\x00\x00\x01k\x40\x00\x00\x00v",
            b"head ",
            DumpKind::TooLarge,
            34,
        ),
    ]
}

#[test]
fn refuses_binary_where_it_is_cut_or_wrong(rt: HostRuntime) {
    for (bytes, want, kind, place) in cut_or_wrong_binary() {
        for size in [1, 7, 150] {
            let (text, error) = read_binary(&rt, rt.alloc(), bytes, size);
            assert_eq!(rt; text.as_slice(), want, "{bytes:?}");
            assert_eq!(rt; error, Some(DumpError::Bad { kind, place }), "{bytes:?}");
        }
    }
    let (text, error) = read_binary(&rt, rt.alloc(), &BINARY[..79], 150);
    assert_eq!(rt; text.as_slice(), b"head ".as_slice());
    assert_eq!(rt;
        error,
        Some(DumpError::Bad {
            kind: DumpKind::Truncated,
            place: 79
        })
    );
}

// 65,536 bytes are a line, and one more is none. A carriage return is counted where no line feed follows it.
#[test]
fn bounds_the_lines_of_a_binary_head(rt: HostRuntime) {
    let rows: [(usize, &[u8], DumpKind, u64); 6] = [
        (65_536, b"", DumpKind::Truncated, 65_536),
        (65_537, b"", DumpKind::Version, 0),
        (65_535, b"\r", DumpKind::Truncated, 65_536),
        (65_536, b"\r", DumpKind::Version, 0),
        (65_536, b"\r\n", DumpKind::Truncated, 65_538),
        (65_537, b"\r\n", DumpKind::Version, 0),
    ];
    for (len, end, kind, place) in rows {
        let mut line = vec![in rt.alloc(); b'!'; len].expect(&rt, "memory");
        line.extend_from_slice(end).expect(&rt, "memory");
        let (_, error) = read_binary(&rt, rt.alloc(), &line, 70_000);
        assert_eq!(rt; error, Some(DumpError::Bad { kind, place }));
    }
}

#[test]
fn answers_a_refusal_again(rt: HostRuntime) {
    let mut reader = AsciiReader::new(rt.alloc());
    let error = DumpError::Bad {
        kind: DumpKind::Version,
        place: 0,
    };
    assert!(rt; reader.feed(b"x\n").is_err());
    for _ in 0..3u8 {
        match reader.finish() {
            Err(again) => assert_eq!(rt; again, error),
            Ok(_) => assert!(rt; false),
        }
    }
}

const HEAD: &[u8] = b"head standard a.gdbm ";

const PAIR: &[u8] = b"head standard a.gdbm k=v ";

#[test]
fn reads_ascii_in_pieces(rt: HostRuntime) {
    for size in [1, 2, 3, 150] {
        let (text, error) = read_ascii(&rt, rt.alloc(), ONE_RECORD, size);
        assert_eq!(rt;
            text.as_slice(),
            b"head standard a.gdbm k=v end ".as_slice(),
            "{size}"
        );
        assert_eq!(rt; error, None);
    }
}

fn cut_ascii() -> [(usize, &'static [u8], DumpKind, u64); 15] {
    [
        (0, b"", DumpKind::Truncated, 0),
        (1, b"", DumpKind::Truncated, 1),
        (40, b"", DumpKind::Parameter, 38),
        (50, b"", DumpKind::Version, 38),
        (65, b"", DumpKind::Truncated, 65),
        (80, b"", DumpKind::Parameter, 66),
        (99, HEAD, DumpKind::Truncated, 99),
        (106, HEAD, DumpKind::Parameter, 100),
        (107, HEAD, DumpKind::Truncated, 107),
        (110, HEAD, DumpKind::Truncated, 110),
        (113, HEAD, DumpKind::Truncated, 113),
        (121, HEAD, DumpKind::Truncated, 121),
        (134, PAIR, DumpKind::Parameter, 126),
        (135, PAIR, DumpKind::Truncated, 135),
        (148, PAIR, DumpKind::Truncated, 148),
    ]
}

#[test]
fn refuses_ascii_where_it_is_cut(rt: HostRuntime) {
    for (len, want, kind, place) in cut_ascii() {
        for size in [1, 2, 3, 150] {
            let bytes = ONE_RECORD.get(..len).unwrap_or(b"");
            let (text, error) = read_ascii(&rt, rt.alloc(), bytes, size);
            assert_eq!(rt; text.as_slice(), want, "{len}");
            assert_eq!(rt; error, Some(DumpError::Bad { kind, place }), "{len}");
        }
    }
}

fn whole_ascii() -> [(&'static [u8], &'static [u8]); 8] {
    [
        (&ONE_RECORD[..149], b"head standard a.gdbm k=v end "),
        (
            b"# GDBM dump file created by GDBM version 1.23\n#:version=1.1\n#:file=junk.gdbm\n#:uid=1000,user=gray,gid=1000,group=users,mode=664\n#:format=numsync\n# End of header\n#:len=1\naw==\n#:len=1\ndg==\n#:count=1\n# End of data\n",
            b"head numsync junk.gdbm k=v end ",
        ),
        (
            b"#:x=,y=\n#:version=1.0,file=\"a\\\"b,c\",format=standard\n# End of header\n#:count=0\n# End of data\nxyz",
            b"head standard a\"b,c end ",
        ),
        (
            b"#:version=1.1\n# End of header \n# End of header\n# End of data \n#:count=00\n#\n# End of data",
            b"head end ",
        ),
        (
            b"#:version=1.1\n# End of header\n#:len=1\nYQ\n==\n\n# c\n#:len=0\n#:count=1\n# End of data\n",
            b"head a= end ",
        ),
        (
            b"#:version=1.0,file=x,version=1.1,file=y\n# End of header\n#:len=0\n#:len=3\nYWFh\n#:count=1\n# End of data\n",
            b"head y =aaa end ",
        ),
        (
            b"#:version=1.1\n# End of header\n#:len=0\n#:len=58\nYWFhYWFhYWFhYWFhYWFhYWFhYWFhYWFhYWFhYWFhYWFhYWFhYWFhYWFhYWFhYWFhYWFhYWFhYWFh\nYQ==\n#:count=1\n# End of data\n",
            b"head =aaaaaaaaaaaaaaaaaaaaaaaaaaaaaaaaaaaaaaaaaaaaaaaaaaaaaaaaaa end ",
        ),
        (
            b"#:version=1.1\n# End of header\n#:count=00000000000000000000\n# End of data\n",
            b"head end ",
        ),
    ]
}

#[test]
fn reads_whole_ascii_dumps(rt: HostRuntime) {
    for (bytes, want) in whole_ascii() {
        for size in [1, 2, 3, 150] {
            let (text, error) = read_ascii(&rt, rt.alloc(), bytes, size);
            assert_eq!(rt; text.as_slice(), want, "{bytes:?}");
            assert_eq!(rt; error, None, "{bytes:?}");
        }
    }
}

fn wrong_heads() -> [(&'static [u8], DumpKind, u64); 11] {
    [
        (b"x", DumpKind::Version, 0),
        (b"\n#", DumpKind::Version, 0),
        (b"#\nx", DumpKind::Parameter, 2),
        (b"#\n\n", DumpKind::Parameter, 2),
        (b"# c\n#:version=1.2\n", DumpKind::Version, 4),
        (b"# End of header\n", DumpKind::Version, 0),
        (b"#:version=\"1.1\"x\n", DumpKind::Parameter, 0),
        (b"#:version=\"1.1\n", DumpKind::Parameter, 0),
        (b"#:format=odd,version=9\n", DumpKind::Parameter, 0),
        (b"#:version=9,format=odd\n", DumpKind::Version, 0),
        (b"#:version=9,\n", DumpKind::Parameter, 0),
    ]
}

#[test]
fn refuses_wrong_heads(rt: HostRuntime) {
    for (bytes, kind, place) in wrong_heads() {
        let (text, error) = read_ascii(&rt, rt.alloc(), bytes, 150);
        assert_eq!(rt; text.as_slice(), b"".as_slice(), "{bytes:?}");
        assert_eq!(rt; error, Some(DumpError::Bad { kind, place }), "{bytes:?}");
    }
}

fn wrong_data() -> [(&'static [u8], &'static [u8], DumpKind, u64); 20] {
    [
        (
            b"# GDBM dump file created by gdbm_dump\n#:version=1.1\n#:file=a.gdbm\n#:format=standard\n# End of header\n#:len=1\naw==\n#:len=1\ndg==\n#:count=2\n# End of data\n",
            b"head standard a.gdbm k=v ",
            DumpKind::Count,
            126,
        ),
        (
            b"#:version=1.1\n# End of header\n#:len=3\nYWE=\n#",
            b"head ",
            DumpKind::Length,
            30,
        ),
        (
            b"#:version=1.1\n# End of header\n#:len=2\nYWE\n#",
            b"head ",
            DumpKind::Length,
            30,
        ),
        (
            b"#:version=1.1\n# End of header\n#:len=2\nYWF=\n#",
            b"head ",
            DumpKind::Base64,
            30,
        ),
        (
            b"#:version=1.1\n# End of header\n#:len=2\nYW*=\n#",
            b"head ",
            DumpKind::Base64,
            30,
        ),
        (
            b"#:version=1.1\n# End of header\n#:len=1\nYWFhYQ",
            b"head ",
            DumpKind::Length,
            30,
        ),
        (
            b"#:version=1.1\n# End of header\n#:len=1\nYQ=",
            b"head ",
            DumpKind::Truncated,
            41,
        ),
        (
            b"#:version=1.1\n# End of header\n#:len=1\nYQ==\n# c\nYQ==\n",
            b"head ",
            DumpKind::Parameter,
            47,
        ),
        (
            b"#:version=1.1\n# End of header\n\n",
            b"head ",
            DumpKind::Parameter,
            30,
        ),
        (
            b"#:version=1.1\n# End of header\n#:foo=1\n",
            b"head ",
            DumpKind::Parameter,
            30,
        ),
        (
            b"#:version=1.1\n# End of header\n#:len=\n",
            b"head ",
            DumpKind::Parameter,
            30,
        ),
        (
            b"#:version=1.1\n# End of header\n#:len=00000000001\n",
            b"head ",
            DumpKind::Parameter,
            30,
        ),
        (
            b"#:version=1.1\n# End of header\n#:len=1073741825\n",
            b"head ",
            DumpKind::TooLarge,
            30,
        ),
        (
            b"#:version=1.1\n# End of header\n#:len=1\nYQ==\n#:len=1073741824\n",
            b"head ",
            DumpKind::TooLarge,
            43,
        ),
        (
            b"#:version=1.1\n# End of header\n#:len=1\nYQ==\n#:count=0\n",
            b"head ",
            DumpKind::Parameter,
            43,
        ),
        (
            b"#:version=1.1\n# End of header\n#:count=0\n#:count=0\n",
            b"head ",
            DumpKind::Parameter,
            40,
        ),
        (
            b"#:version=1.1\n# End of header\n#:count=1\n",
            b"head ",
            DumpKind::Count,
            30,
        ),
        (
            b"#:version=1.1\n# End of header\n#:count=18446744073709551616\n",
            b"head ",
            DumpKind::Count,
            30,
        ),
        (
            b"#:version=1.1\n# End of header\n# End of data\n",
            b"head ",
            DumpKind::Count,
            30,
        ),
        (
            b"#:version=1.1\n# End of header\n#:count=0\n# End of dat",
            b"head ",
            DumpKind::Truncated,
            52,
        ),
    ]
}

#[test]
fn refuses_wrong_data(rt: HostRuntime) {
    for (bytes, want, kind, place) in wrong_data() {
        for size in [1, 150] {
            let (text, error) = read_ascii(&rt, rt.alloc(), bytes, size);
            assert_eq!(rt; text.as_slice(), want, "{bytes:?}");
            assert_eq!(rt; error, Some(DumpError::Bad { kind, place }), "{bytes:?}");
        }
    }
}
