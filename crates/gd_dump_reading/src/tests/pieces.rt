ghost use Rattle.std.specs.Prelude.{◌≡◌, ◌≤◌, length, true};
ghost use Rattle.gd_dump_reading.specs.Readers.{taken_by};

use crate::tests::reading::{BINARY, ONE_RECORD, read_ascii};
use crate::{
    AsciiMachine, AsciiReader, BinaryMachine, BinaryReader, DumpError, DumpKind, Machine, Reader,
};
use std::alloc::Global;
use std::process::Abort;

const HEAD_END: &[u8] = b"# End of header\n";

// How many bytes each call takes that is given all that is left.
fn taken_of<M: Machine>(rt: &impl Abort, alloc: Global, bytes: &[u8]) -> Vec<usize> {
    let mut reader = Reader::<M>::new(alloc);
    let mut counts = Vec::new(alloc);
    let mut at: usize = 0;
    'pieces: for _ in 0..10u32 {
        match reader.feed(&bytes[at..]) {
            Ok(fed) => {
                at += fed.taken;
                counts.push(fed.taken).expect(rt, "memory");
            }
            Err(_) => return counts,
        }
        if at == bytes.len() {
            break;
        }
    }
    counts
}

// A pair ends with the '#' of the next line, and what stands behind the end is taken whole.
#[test]
fn takes_a_piece_up_to_the_end_of_an_item(rt: HostRuntime) {
    let mut text = Vec::new(rt.alloc());
    text.extend_from_slice(ONE_RECORD).expect(&rt, "memory");
    text.extend_from_slice(b"# x\ny").expect(&rt, "memory");
    let counts = taken_of::<AsciiMachine>(&rt, rt.alloc(), &text);
    assert_eq!(rt; counts.as_slice(), [100usize, 27, 23, 5].as_slice());
    let counts = taken_of::<AsciiMachine>(&rt, rt.alloc(), &text[..126]);
    assert_eq!(rt; counts.as_slice(), [100usize, 26].as_slice());
    let counts = taken_of::<BinaryMachine>(&rt, rt.alloc(), BINARY);
    assert_eq!(rt; counts.as_slice(), [77usize, 10].as_slice());
    let counts = taken_of::<BinaryMachine>(&rt, rt.alloc(), &BINARY[..86]);
    assert_eq!(rt; counts.as_slice(), [77usize, 9].as_slice());
}

// Whether a piece is refused with the first refusal again.
fn refuses<M: Machine>(reader: &mut Reader<M>, want: DumpKind, piece: &[u8]) -> bool
    requires taken { taken_by M.taken reader.old ≡ 0 }
    requires small { length piece.now ≤ 100 }
    ensures { result ≡ true → taken_by M.taken reader.new ≡ 0 }
{
    match reader.feed(piece) {
        Err(DumpError::Bad { kind, place }) => kind == want && place == 2,
        _ => false,
    }
}

#[test]
fn feeding_answers_a_refusal_again(rt: HostRuntime) {
    let mut reader = AsciiReader::new(rt.alloc());
    assert!(rt; refuses(&mut reader, DumpKind::Parameter, b"#\nx\n"));
    assert!(rt; refuses(&mut reader, DumpKind::Parameter, b"#:version=1.1\n"));
    assert!(rt; refuses(&mut reader, DumpKind::Parameter, b""));
    let mut reader = BinaryReader::new(rt.alloc());
    assert!(rt; refuses(&mut reader, DumpKind::Version, b"!\nx\n"));
    assert!(rt; refuses(&mut reader, DumpKind::Version, BINARY));
    assert!(rt; refuses(&mut reader, DumpKind::Version, b""));
}

// A line of parameters has at most 65,536 bytes. A line feed is not counted, nor a carriage return before it; one that
// no line feed follows is.
#[test]
fn bounds_the_lines_of_parameters(rt: HostRuntime) {
    let rows: [(usize, &[u8], &[u8], &[u8], DumpKind, u64); 6] = [
        (
            65_536,
            b"\n",
            HEAD_END,
            b"head ",
            DumpKind::Truncated,
            65_553,
        ),
        (65_537, b"\n", HEAD_END, b"", DumpKind::Parameter, 0),
        (
            65_536,
            b"\r\n",
            HEAD_END,
            b"head ",
            DumpKind::Truncated,
            65_554,
        ),
        (65_537, b"\r\n", HEAD_END, b"", DumpKind::Parameter, 0),
        (65_535, b"\r", b"", b"", DumpKind::Truncated, 65_536),
        (65_536, b"\r", b"", b"", DumpKind::Parameter, 0),
    ];
    for (len, end, rest, want, kind, place) in rows {
        let mut text = Vec::new(rt.alloc());
        let value = vec![in rt.alloc(); b'a'; len - 16].expect(&rt, "memory");
        text.extend_from_slice(b"#:version=1.1,x=")
            .expect(&rt, "memory");
        text.extend_from_slice(&value).expect(&rt, "memory");
        text.extend_from_slice(end).expect(&rt, "memory");
        text.extend_from_slice(rest).expect(&rt, "memory");
        let (read, error) = read_ascii(&rt, rt.alloc(), &text, 70_000);
        assert_eq!(rt; read.as_slice(), want, "{len}");
        assert_eq!(rt; error, Some(DumpError::Bad { kind, place }), "{len}");
    }
}

// The reader that was given the front of a dump, and how much it took.
fn after_front<M: Machine>(alloc: Global, front: &[u8]) -> (Reader<M>, usize) {
    let mut reader = Reader::<M>::new(alloc);
    let mut at: usize = 0;
    'pieces: for _ in 0..3u32 {
        match reader.feed(&front[at..]) {
            Ok(fed) => at += fed.taken,
            Err(_) => break,
        }
    }
    (reader, at)
}

// How much is held after the front of a dump: one line of a head, the file's name, and the bytes of the pair.
#[test]
fn holds_the_pair_alone(rt: HostRuntime) {
    let rows: [(usize, u64); 9] = [
        (0, 0),
        (1, 1),
        // A comment, of which two bytes are kept.
        (20, 2),
        (38, 0),
        // The line of the file's name, and the name.
        (64, 12),
        (66, 6),
        // The head, two and three characters of the key, and the key.
        (100, 0),
        (111, 3),
        (113, 1),
    ];
    for (len, want) in rows {
        let front = ONE_RECORD.get(..len).expect(&rt, "within");
        let (reader, at) = after_front::<AsciiMachine>(rt.alloc(), front);
        assert_eq!(rt; at, len);
        assert_eq!(rt; reader.held(), want, "{len}");
    }
}
