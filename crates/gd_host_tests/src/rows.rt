//! The rows: what a step shows, the step, and what comes of it.

use crate::calls::Answer::{self, Absent, Done, Exists, Failed, No, Yes};
use crate::many::Round;
use crate::paths::HostStep;
use crate::steps::File::{F, G, Id};
use crate::steps::Step;
use gd_vault::Mode;

/// What a step shows, the step, and what comes of it.
pub type Row = (&'static str, Step, Answer);

/// Ranges of a file.
pub fn ranges() -> [Row; 13] {
    [
        ("no file yet", Step::Find(F, "ranges"), Absent),
        ("a new file", Step::Create(F, "ranges", Mode::Both), Done),
        (
            "a name that is there",
            Step::Create(G, "ranges", Mode::Both),
            Exists,
        ),
        ("two bytes", Step::Write(F, 0, b"ab"), Done),
        ("behind a gap", Step::Write(F, 4, b"cd"), Done),
        (
            "past the longest length",
            Step::Write(F, u64::MAX, b"x"),
            Failed,
        ),
        (
            "the bytes up to the end",
            Step::Read(F, 1, 8, b"b\0\0cd"),
            Yes,
        ),
        ("nothing past the end", Step::Read(F, u64::MAX, 8, b""), Yes),
        ("an empty file", Step::Truncate(F), Done),
        ("no bytes", Step::Len(F, 0), Yes),
        ("a file that was never there", Step::Len(Id(77), 0), Failed),
        ("two faults", Step::Faults(2), Yes),
        ("its end", Step::Host(HostStep::Remove("ranges")), Done),
    ]
}

/// Small reads go through pages that are kept: each change of the file is seen, and so is its end.
pub fn pages() -> [Row; 12] {
    [
        ("a new file", Step::Create(F, "pages", Mode::Both), Done),
        (
            "a page and two bytes",
            Step::Write(F, 0, &[b'a'; 4098]),
            Done,
        ),
        ("over the page's end", Step::Read(F, 4094, 4, b"aaaa"), Yes),
        ("a change there", Step::Write(F, 4095, b"bcd"), Done),
        ("the change", Step::Read(F, 4094, 4, b"abcd"), Yes),
        ("up to the end", Step::Read(F, 4096, 4, b"cd"), Yes),
        ("two bytes more", Step::Write(F, 4098, b"ef"), Done),
        ("the longer file", Step::Read(F, 4096, 4, b"cdef"), Yes),
        ("an empty file", Step::Truncate(F), Done),
        ("no bytes", Step::Read(F, 4096, 4, b""), Yes),
        ("no fault", Step::Faults(0), Yes),
        ("its end", Step::Host(HostStep::Remove("pages")), Done),
    ]
}

const SCRATCH: &str = "marked.mode.gdbm-scratch";

/// Companions of files.
pub fn companions() -> [Row; 19] {
    [
        (
            "what stands there",
            Step::Host(HostStep::Write("marked.mode", "r 4\n")),
            Done,
        ),
        (
            "a new file",
            Step::Create(F, "marked", Mode::WriteOnly),
            Done,
        ),
        ("its own mode", Step::Mode(F, Mode::WriteOnly), Yes),
        ("its own stamp", Step::Stamp(F, 0), Yes),
        (
            "what a killed program left",
            Step::Host(HostStep::Write(SCRATCH, "what a killed program left")),
            Done,
        ),
        ("a mode", Step::SetMode(F, Mode::ReadOnly), Done),
        (
            "the companion",
            Step::Host(HostStep::Has("marked.mode", "r 0\n")),
            Yes,
        ),
        (
            "what was left is gone",
            Step::Host(HostStep::Stands(SCRATCH)),
            No,
        ),
        (
            "another companion",
            Step::Host(HostStep::Write("marked.mode", "b 7\n")),
            Done,
        ),
        ("its stamp", Step::Stamp(F, 7), Yes),
        (
            "a clone with the last stamp",
            Step::Clone(F, F, u64::MAX),
            Done,
        ),
        (
            "that stamp",
            Step::Host(HostStep::Has("marked.mode", "b 18446744073709551615\n")),
            Yes,
        ),
        ("a sync", Step::Sync(F), Done),
        (
            "left once more",
            Step::Host(HostStep::Write(SCRATCH, "what a killed program left")),
            Done,
        ),
        ("a remove", Step::Remove("marked"), Done),
        (
            "the file is gone",
            Step::Host(HostStep::Stands("marked")),
            No,
        ),
        (
            "its companion too",
            Step::Host(HostStep::Stands("marked.mode")),
            No,
        ),
        (
            "and what was left",
            Step::Host(HostStep::Stands(SCRATCH)),
            No,
        ),
        ("no fault", Step::Faults(0), Yes),
    ]
}

/// All calls but `create` on the file `form`, beside which stands what is no companion, fail, and leave what they find.
pub fn wrong_form() -> [Row; 33] {
    [
        ("a file", Step::Host(HostStep::Write("form", "bytes")), Done),
        (
            "another",
            Step::Host(HostStep::Write("other", "others")),
            Done,
        ),
        ("the file", Step::Find(F, "form"), Done),
        ("the other", Step::Find(G, "other"), Done),
        ("so far no fault", Step::Faults(0), Yes),
        ("no mode", Step::Mode(F, Mode::Both), Failed),
        ("no stamp", Step::Stamp(F, 0), Failed),
        ("two faults", Step::Faults(2), Yes),
        ("a mode", Step::SetMode(F, Mode::ReadOnly), Failed),
        ("a mode: one fault", Step::Faults(1), Yes),
        (
            "a mode: the file",
            Step::Host(HostStep::Has("form", "bytes")),
            Yes,
        ),
        (
            "a mode: the other",
            Step::Host(HostStep::Has("other", "others")),
            Yes,
        ),
        ("a clone", Step::Clone(F, G, 3), Failed),
        ("a clone: one fault", Step::Faults(1), Yes),
        (
            "a clone: the file",
            Step::Host(HostStep::Has("form", "bytes")),
            Yes,
        ),
        (
            "a clone: the other",
            Step::Host(HostStep::Has("other", "others")),
            Yes,
        ),
        ("a replace of it", Step::Replace("form", "other"), Failed),
        ("a replace of it: one fault", Step::Faults(1), Yes),
        (
            "a replace of it: the file",
            Step::Host(HostStep::Has("form", "bytes")),
            Yes,
        ),
        (
            "a replace of it: the other",
            Step::Host(HostStep::Has("other", "others")),
            Yes,
        ),
        ("a replace by it", Step::Replace("other", "form"), Failed),
        ("a replace by it: one fault", Step::Faults(1), Yes),
        (
            "a replace by it: the file",
            Step::Host(HostStep::Has("form", "bytes")),
            Yes,
        ),
        (
            "a replace by it: the other",
            Step::Host(HostStep::Has("other", "others")),
            Yes,
        ),
        ("a remove", Step::Remove("form"), Failed),
        ("a remove: one fault", Step::Faults(1), Yes),
        (
            "a remove: the file",
            Step::Host(HostStep::Has("form", "bytes")),
            Yes,
        ),
        (
            "a remove: the other",
            Step::Host(HostStep::Has("other", "others")),
            Yes,
        ),
        ("the file's end", Step::Host(HostStep::Remove("form")), Done),
        (
            "the other's end",
            Step::Host(HostStep::Remove("other")),
            Done,
        ),
        ("no new file", Step::Create(F, "form", Mode::Both), Failed),
        ("one fault", Step::Faults(1), Yes),
        (
            "nothing stands there",
            Step::Host(HostStep::Stands("form")),
            No,
        ),
    ]
}

/// What stands beside the file `form` in turn and is no companion.
pub fn wrong_texts() -> [&'static str; 11] {
    [
        "",
        "b",
        "b 0",
        "x 0\n",
        "b  0\n",
        "b 01\n",
        "b +1\n",
        "b 0\n\n",
        "b 18446744073709551616\n",
        "b 000000000000000000000\n",
        "notes on modes, of more than twenty-three bytes",
    ]
}

/// Where the links lead that stand beside it in turn.
pub fn wrong_targets() -> [&'static str; 4] {
    ["nowhere", "form.mode", "/dev/null", "."]
}

/// Mode and stamp go by the id: where a name is replaced, the older file of that name keeps its own and leaves those of the
/// new one.
pub fn marks() -> [Row; 19] {
    [
        ("a file", Step::Create(F, "marks", Mode::ReadOnly), Done),
        (
            "another",
            Step::Create(G, "marks.new", Mode::WriteOnly),
            Done,
        ),
        ("a stamp", Step::Clone(F, F, 5), Done),
        (
            "the other in its place",
            Step::Replace("marks.new", "marks"),
            Done,
        ),
        ("its stamp", Step::Stamp(F, 5), Yes),
        ("another mode", Step::SetMode(F, Mode::Both), Done),
        ("its mode", Step::Mode(F, Mode::Both), Yes),
        ("the other's mode", Step::Mode(G, Mode::WriteOnly), Yes),
        ("the other's stamp", Step::Stamp(G, 0), Yes),
        ("its stamp", Step::Stamp(F, 5), Yes),
        ("another mode", Step::SetMode(F, Mode::ReadOnly), Done),
        ("its mode", Step::Mode(F, Mode::ReadOnly), Yes),
        ("the other's mode", Step::Mode(G, Mode::WriteOnly), Yes),
        ("the other's stamp", Step::Stamp(G, 0), Yes),
        (
            "the other's companion",
            Step::Host(HostStep::Has("marks.mode", "w 0\n")),
            Yes,
        ),
        ("a remove", Step::Remove("marks"), Done),
        ("no file", Step::Find(F, "marks"), Absent),
        (
            "the other has no companion",
            Step::Mode(G, Mode::WriteOnly),
            Failed,
        ),
        ("one fault", Step::Faults(1), Yes),
    ]
}

/// Names of files.
pub fn names() -> [Row; 20] {
    [
        ("a folder", Step::Host(HostStep::MakeFolder("folder")), Done),
        ("a file", Step::Host(HostStep::Write("one", "hello")), Done),
        (
            "a new file",
            Step::Create(G, "folder/two", Mode::ReadOnly),
            Done,
        ),
        ("the file", Step::Find(F, "one"), Done),
        ("a clone", Step::Clone(G, F, 9), Done),
        ("durable names", Step::SyncNames, Done),
        (
            "the clone in its place",
            Step::Replace("folder/two", "one"),
            Done,
        ),
        ("the name is gone", Step::Find(F, "folder/two"), Absent),
        ("the clone's name", Step::Is(G, "one"), Yes),
        ("its mode", Step::Mode(G, Mode::ReadOnly), Yes),
        ("its stamp", Step::Stamp(G, 9), Yes),
        ("its length", Step::Len(G, 5), Yes),
        (
            "a further name",
            Step::Host(HostStep::Name("one", "link")),
            Done,
        ),
        ("the same file", Step::Is(G, "./link"), Yes),
        (
            "not by its own name",
            Step::Replace("./link", "one"),
            Failed,
        ),
        ("one name less", Step::Remove("one"), Done),
        ("the further name stays", Step::Is(G, "./link"), Yes),
        ("no name", Step::Remove("./link"), Done),
        ("a name that is gone", Step::Remove("./link"), Done),
        (
            "the folder's end",
            Step::Host(HostStep::RemoveFolder("folder")),
            Done,
        ),
    ]
}

/// What stands there where names stand for no file.
pub fn other_things() -> [Row; 5] {
    [
        (
            "a folder",
            Step::Host(HostStep::MakeFolder("a.folder")),
            Done,
        ),
        ("a file", Step::Host(HostStep::Write("a.file", "")), Done),
        (
            "a link",
            Step::Host(HostStep::Link("nowhere", "a.link")),
            Done,
        ),
        (
            "a link to itself",
            Step::Host(HostStep::Link("a.loop", "a.loop")),
            Done,
        ),
        (
            "a device",
            Step::Host(HostStep::Link("/dev/null", "a.device")),
            Done,
        ),
    ]
}

/// The end of these things, which all calls left.
pub fn other_ends() -> [Row; 5] {
    [
        (
            "the folder",
            Step::Host(HostStep::RemoveFolder("a.folder")),
            Done,
        ),
        ("the file", Step::Host(HostStep::Remove("a.file")), Done),
        ("the link", Step::Host(HostStep::Remove("a.link")), Done),
        (
            "the link to itself",
            Step::Host(HostStep::Remove("a.loop")),
            Done,
        ),
        ("the device", Step::Host(HostStep::Remove("a.device")), Done),
    ]
}

/// A part of a path that is longer than any may be.
const LONG: &str =
    "pppppppppppppppppppppppppppppppppppppppppppppppppppppppppppppppppppppppppppppppppppppppppppppppppppppppppppppppppppppppppppppppppppppppppppppppppppppppppppppppppppppppppppppppppppppppppppppppppppppppppppppppppppppppppppppppppppppppppppppppppppppppppppppppp";

/// What a name stands for: no file, so that one can't be made there either, or something else, which stays.
pub fn no_files() -> [Row; 40] {
    [
        ("in no folder", Step::Find(F, "none/x"), Absent),
        ("in no folder: its faults", Step::Faults(0), Yes),
        (
            "in no folder: no new file",
            Step::Create(F, "none/x", Mode::Both),
            Failed,
        ),
        ("in no folder: a remove", Step::Remove("none/x"), Done),
        ("in no folder: faults", Step::Faults(1), Yes),
        ("below a file", Step::Find(F, "a.file/x"), Absent),
        ("below a file: its faults", Step::Faults(0), Yes),
        (
            "below a file: no new file",
            Step::Create(F, "a.file/x", Mode::Both),
            Failed,
        ),
        ("below a file: a remove", Step::Remove("a.file/x"), Done),
        ("below a file: faults", Step::Faults(1), Yes),
        ("a file as a folder", Step::Find(F, "a.file/"), Absent),
        ("a file as a folder: its faults", Step::Faults(0), Yes),
        (
            "a file as a folder: no new file",
            Step::Create(F, "a.file/", Mode::Both),
            Failed,
        ),
        (
            "a file as a folder: a remove",
            Step::Remove("a.file/"),
            Done,
        ),
        ("a file as a folder: faults", Step::Faults(1), Yes),
        ("a long name", Step::Find(F, LONG), Absent),
        ("a long name: its faults", Step::Faults(0), Yes),
        (
            "a long name: no new file",
            Step::Create(F, LONG, Mode::Both),
            Failed,
        ),
        ("a long name: a remove", Step::Remove(LONG), Done),
        ("a long name: faults", Step::Faults(1), Yes),
        ("a folder", Step::Find(F, "a.folder"), Failed),
        ("a folder: its faults", Step::Faults(1), Yes),
        (
            "a folder: no new file",
            Step::Create(F, "a.folder", Mode::Both),
            Failed,
        ),
        ("a folder: a remove", Step::Remove("a.folder"), Failed),
        ("a folder: faults", Step::Faults(2), Yes),
        ("a link", Step::Find(F, "a.link"), Failed),
        ("a link: its faults", Step::Faults(1), Yes),
        (
            "a link: no new file",
            Step::Create(F, "a.link", Mode::Both),
            Failed,
        ),
        ("a link: a remove", Step::Remove("a.link"), Failed),
        ("a link: faults", Step::Faults(2), Yes),
        ("a link to itself", Step::Find(F, "a.loop"), Failed),
        ("a link to itself: its faults", Step::Faults(1), Yes),
        (
            "a link to itself: no new file",
            Step::Create(F, "a.loop", Mode::Both),
            Failed,
        ),
        ("a link to itself: a remove", Step::Remove("a.loop"), Failed),
        ("a link to itself: faults", Step::Faults(2), Yes),
        ("a device", Step::Find(F, "a.device"), Failed),
        ("a device: its faults", Step::Faults(1), Yes),
        (
            "a device: no new file",
            Step::Create(F, "a.device", Mode::Both),
            Failed,
        ),
        ("a device: a remove", Step::Remove("a.device"), Failed),
        ("a device: faults", Step::Faults(2), Yes),
    ]
}

/// More files than are open at once: each keeps its id and its bytes, unless its name leads to another file.
pub fn many_files() -> [Row; 10] {
    [
        ("they are made", Step::Each(Round::Make), Done),
        ("they are read", Step::Each(Round::Read), Done),
        (
            "another file",
            Step::Host(HostStep::Write("other", "others")),
            Done,
        ),
        (
            "in the place of one",
            Step::Host(HostStep::Move("other", "many.5")),
            Done,
        ),
        (
            "that one is no longer there",
            Step::Write(Id(5), 0, b"x"),
            Failed,
        ),
        (
            "the other stays",
            Step::Host(HostStep::Has("many.5", "others")),
            Yes,
        ),
        ("the next one", Step::Write(Id(6), 1, b"x"), Done),
        ("a sync", Step::Sync(Id(7)), Done),
        ("one fault", Step::Faults(1), Yes),
        ("their end", Step::Each(Round::Remove), Done),
    ]
}

/// A name may be made anew as often as one likes: the older files are given up, unless they are in use.
pub fn replaced() -> [Row; 14] {
    [
        ("a file", Step::Create(F, "export", Mode::Both), Done),
        ("others in its place", Step::Renew(G), Done),
        ("the first is given up", Step::Len(F, 0), Failed),
        (
            "a new file",
            Step::Create(F, "export.new", Mode::Both),
            Done,
        ),
        ("the last one", Step::Len(G, 3), Yes),
        ("replaced too", Step::Replace("export.new", "export"), Done),
        ("in use still", Step::Len(G, 3), Yes),
        ("the name's file", Step::Is(F, "export"), Yes),
        ("used since", Step::Len(G, 3), Yes),
        ("a look", Step::Find(F, "export.new"), Absent),
        ("another look", Step::Find(F, "export.new"), Absent),
        ("given up", Step::Len(G, 3), Failed),
        ("two faults", Step::Faults(2), Yes),
        ("a remove", Step::Remove("export"), Done),
    ]
}
