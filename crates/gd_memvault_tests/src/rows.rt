//! The rows: what a step shows, the step, and what comes of it.

use crate::steps::{Answer, Look, Step};
use gd_vault::Mode;

/// What a step shows, the step, and what comes of it.
pub type Row = (&'static str, Step, Answer);

/// What holds over a vault of each kind.
pub fn kept() -> [Row; 16] {
    [
        ("a new name", Step::Create("a"), Answer::Done),
        ("behind a gap", Step::Write("a", 2, b"xyz"), Answer::Done),
        ("in the gap", Step::Write("a", 0, b"w"), Answer::Done),
        (
            "the bytes written",
            Step::See(Look::Bytes("a", b"w\0xyz")),
            Answer::Yes,
        ),
        ("a name that is there", Step::Create("a"), Answer::Exists),
        ("another name", Step::Create("b"), Answer::Done),
        ("a clone", Step::Clone("b", "a"), Answer::Done),
        ("a mode", Step::Close("b"), Answer::Done),
        ("after the clone", Step::Write("a", 0, b"v"), Answer::Done),
        (
            "the bytes cloned",
            Step::See(Look::Bytes("b", b"w\0xyz")),
            Answer::Yes,
        ),
        ("a replace", Step::Replace("b", "a"), Answer::Done),
        ("a name that went", Step::See(Look::There("b")), Answer::No),
        (
            "mode, stamp and length",
            Step::See(Look::Marks("a", Mode::ReadOnly, 77, 5)),
            Answer::Yes,
        ),
        ("a remove", Step::Remove("a"), Answer::Done),
        ("a name removed", Step::See(Look::There("a")), Answer::No),
        ("no fault", Step::Counts(0, 0), Answer::Yes),
    ]
}

/// A file as a sink and a source.
pub fn streamed() -> [Row; 5] {
    [
        ("a new name", Step::Create("a"), Answer::Done),
        ("five bytes", Step::Write("a", 0, b"alpha"), Answer::Done),
        ("what is put", Step::Put("a", b"bet", 6), Answer::Yes),
        (
            "the bytes put",
            Step::See(Look::Bytes("a", b"alpbet")),
            Answer::Yes,
        ),
        (
            "what is taken",
            Step::Take("a", 4, *b"pbet\0\0\0\0"),
            Answer::Yes,
        ),
    ]
}

/// Calls fail where they are listed.
pub fn failing() -> [Row; 8] {
    [
        (
            "a new vault",
            Step::Begin(None, None, &[1, 3]),
            Answer::Done,
        ),
        ("a call before", Step::Create("a"), Answer::Done),
        ("a listed call", Step::SyncNames, Answer::Failed),
        ("its moments", Step::Moment(4), Answer::Yes),
        ("a call between", Step::SyncNames, Answer::Done),
        ("listed, of a name there", Step::Create("a"), Answer::Exists),
        ("no moments", Step::Moment(6), Answer::Yes),
        ("one fault", Step::Counts(1, 0), Answer::Yes),
    ]
}

/// A write is left in three ways.
pub fn written() -> [Row; 14] {
    const OLD: Look = Look::Bytes("f", b"ab");
    const NEW: Look = Look::Bytes("f", b"ac");
    const TORN: Look = Look::Bytes("f", b"a\0");
    [
        (
            "a new vault",
            Step::Begin(Some(b"ab"), None, &[]),
            Answer::Done,
        ),
        ("a write", Step::Write("f", 1, b"c"), Answer::Done),
        ("a sync", Step::Sync("f"), Answer::Done),
        ("before", Step::Left(0, &[1], OLD), Answer::Yes),
        ("inside", Step::Left(1, &[], OLD), Answer::Yes),
        ("inside: old", Step::Left(1, &[0, 0], OLD), Answer::Yes),
        ("inside: new", Step::Left(1, &[1], NEW), Answer::Yes),
        ("inside: torn", Step::Left(1, &[2, 0, 0], TORN), Answer::Yes),
        ("after", Step::Left(2, &[], NEW), Answer::Yes),
        ("after: new", Step::Left(2, &[0], NEW), Answer::Yes),
        ("after: old", Step::Left(2, &[1], OLD), Answer::Yes),
        ("after: torn", Step::Left(2, &[2, 0, 0], TORN), Answer::Yes),
        ("in the sync", Step::Left(3, &[1], OLD), Answer::Yes),
        ("synced", Step::Left(4, &[2, 0, 0], NEW), Answer::Yes),
    ]
}

const OPEN: Look = Look::Marks("f", Mode::Both, 5, 0);

const CLOSED: Look = Look::Marks("f", Mode::ReadOnly, 5, 0);

/// A mode that is not synced is left old or new.
pub fn closed() -> [Row; 4] {
    [
        (
            "a new vault",
            Step::Begin(Some(b""), None, &[]),
            Answer::Done,
        ),
        ("a mode", Step::Close("f"), Answer::Done),
        ("the new one", Step::Left(2, &[], CLOSED), Answer::Yes),
        ("the old one", Step::Left(2, &[1], OPEN), Answer::Yes),
    ]
}

/// A mode that failed to be set is left old or new.
pub fn not_closed() -> [Row; 6] {
    [
        (
            "a new vault",
            Step::Begin(Some(b""), None, &[1]),
            Answer::Done,
        ),
        ("a listed call", Step::Close("f"), Answer::Failed),
        ("one fault", Step::Counts(1, 0), Answer::Yes),
        ("its moments", Step::Moment(2), Answer::Yes),
        ("the old one", Step::Left(2, &[], OPEN), Answer::Yes),
        ("the new one", Step::Left(2, &[1], CLOSED), Answer::Yes),
    ]
}

/// A name that is not synced is left old or new.
pub fn moved() -> [Row; 8] {
    const F: Look = Look::There("f");
    const G: Look = Look::There("g");
    [
        (
            "a new vault",
            Step::Begin(Some(b""), None, &[]),
            Answer::Done,
        ),
        ("a replace", Step::Replace("f", "g"), Answer::Done),
        ("new: the old name", Step::Left(2, &[], F), Answer::No),
        ("new: the new name", Step::Left(2, &[], G), Answer::Yes),
        ("old: the old name", Step::Left(2, &[1, 1], F), Answer::Yes),
        ("old: the new name", Step::Left(2, &[1, 1], G), Answer::No),
        ("both: the old name", Step::Left(2, &[0, 1], F), Answer::Yes),
        ("both: the new name", Step::Left(2, &[0, 1], G), Answer::Yes),
    ]
}

/// A clone that is not synced is left with other bytes.
pub fn cloned() -> [Row; 7] {
    const NEW: Look = Look::Bytes("f", b"alpha");
    const OLD: Look = Look::Bytes("f", b"old");
    const TORN: Look = Look::Bytes("f", b"al\x07\x07");
    [
        (
            "a new vault",
            Step::Begin(Some(b"old"), Some(b"alpha"), &[]),
            Answer::Done,
        ),
        ("a clone", Step::Clone("f", "g"), Answer::Done),
        ("a mode", Step::Close("f"), Answer::Done),
        ("the new bytes", Step::Left(2, &[], NEW), Answer::Yes),
        ("the old bytes", Step::Left(2, &[1], OLD), Answer::Yes),
        ("torn", Step::Left(2, &[2, 2, 7, 1], TORN), Answer::Yes),
        ("inside", Step::Left(1, &[1], NEW), Answer::Yes),
    ]
}
