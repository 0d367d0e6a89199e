//! Dumps of both kinds, whole, cut short and damaged, each with what is said and what is stored.

use crate::run::{DUMP, count, ended, front, has, load};
use gd_memvault::MemVault;
use std::alloc::Global;
use std::process::Abort;
use std::test::Fail;

// A front of the dump, and what is said of it; from 99 bytes on the database is made.
#[derive(Clone, Copy)]
struct Cut {
    n: usize,
    said: &'static [u8],
    records: Option<u64>,
}

fn cuts() -> [Cut; 17] {
    [
        cut_at(0, b"gdbm_load: dump error Truncated at 0\n", None),
        cut_at(1, b"gdbm_load: dump error Truncated at 1\n", None),
        cut_at(40, b"gdbm_load: dump error Parameter at 38\n", None),
        cut_at(50, b"gdbm_load: dump error Version at 38\n", None),
        cut_at(65, b"gdbm_load: dump error Truncated at 65\n", None),
        cut_at(80, b"gdbm_load: dump error Parameter at 66\n", None),
        cut_at(99, b"gdbm_load: dump error Truncated at 99\n", Some(0)),
        cut_at(106, b"gdbm_load: dump error Parameter at 100\n", Some(0)),
        cut_at(107, b"gdbm_load: dump error Truncated at 107\n", Some(0)),
        cut_at(110, b"gdbm_load: dump error Truncated at 110\n", Some(0)),
        cut_at(113, b"gdbm_load: dump error Truncated at 113\n", Some(0)),
        cut_at(121, b"gdbm_load: dump error Truncated at 121\n", Some(0)),
        cut_at(134, b"gdbm_load: dump error Parameter at 126\n", Some(1)),
        cut_at(135, b"gdbm_load: dump error Truncated at 135\n", Some(1)),
        cut_at(148, b"gdbm_load: dump error Truncated at 148\n", Some(1)),
        cut_at(149, b"", Some(1)),
        cut_at(150, b"", Some(1)),
    ]
}

fn cut_at(n: usize, said: &'static [u8], records: Option<u64>) -> Cut {
    Cut { n, said, records }
}

fn is_cut(alloc: Global, row: &Cut) -> Result<bool, Fail> {
    let mut vault = MemVault::plain(alloc);
    let told = load(alloc, &["-", "b.gdbm"], front(row.n), &mut vault)?;
    let status = if row.said.is_empty() { 0 } else { 1 };
    Ok(ended(&told, status, row.said) && count(alloc, &mut vault, "b.gdbm")? == row.records)
}

#[test]
fn a_front_of_a_dump_is_refused_where_it_ends(rt: HostRuntime) -> Result<(), Fail> {
    for row in &cuts() {
        let holds = is_cut(rt.alloc(), row)?;
        assert!(&rt; holds);
    }
    Ok(())
}

// A dump, the words, and what comes of them: the records of the file `b.gdbm`.
#[derive(Clone, Copy)]
struct Row {
    words: &'static [&'static str],
    input: &'static [u8],
    status: u8,
    said: &'static [u8],
    records: Option<u64>,
}

const BINARY: &[u8] =
    b"!\r\n! GDBM FLAT FILE DUMP -- THIS IS NOT A TEXT FILE\r\n! GDBM version 1.23\r\n!\r\n\0\0\0\x01k\0\0\0\x01v";

const BINARY_FRONT: &[u8] =
    b"!\r\n! GDBM FLAT FILE DUMP -- THIS IS NOT A TEXT FILE\r\n! GDBM version 1.23\r\n!\r\n\0\0";

const WRONG_COUNT: &[u8] =
    b"# GDBM dump file created by gdbm_dump\n#:version=1.1\n#:file=a.gdbm\n#:format=standard\n# End of header\n#:len=1\naw==\n#:len=1\ndg==\n#:count=2\n# End of data\n";

const TWICE: &[u8] =
    b"#:version=1.1,file=b.gdbm\n# End of header\n#:len=1\naw==\n#:len=1\ndg==\n#:len=1\naw==\n#:len=0\n#:count=2\n# End of data\n";

const EMPTY_DATA: &[u8] =
    b"#:version=1.0,file=b.gdbm\n# End of header\n#:len=0\n#:len=0\n#:count=1\n# End of data\n";

const UNNAMED: &[u8] = b"#:version=1.1\n# End of header\n#:count=0\n# End of data\n";

const ODD_NAME: &[u8] = b"#:version=1.1,file=b.mode\n# End of header\n#:count=0\n# End of data\n";

const NO_TEXT: &[u8] = b"#:version=1.1,file=\xff\n# End of header\n#:count=0\n# End of data\n";

fn rows() -> [Row; 15] {
    [
        row_of(&["-", "b.gdbm"], BINARY, 0, b"", Some(1)),
        row_of(
            &["-", "b.gdbm"],
            BINARY_FRONT,
            1,
            b"gdbm_load: dump error Truncated at 79\n",
            Some(0),
        ),
        row_of(
            &["-", "b.gdbm"],
            WRONG_COUNT,
            1,
            b"gdbm_load: dump error Count at 126\n",
            Some(1),
        ),
        row_of(
            &["-"],
            TWICE,
            1,
            b"gdbm_load: error 16 CannotReplace\n",
            Some(1),
        ),
        row_of(&["-r", "-"], TWICE, 0, b"", Some(1)),
        row_of(
            &["--replace", "-n", "-b", "512", "-c", "1", "-"],
            TWICE,
            0,
            b"",
            Some(1),
        ),
        row_of(&["-"], EMPTY_DATA, 0, b"", Some(1)),
        row_of(
            &["-"],
            UNNAMED,
            1,
            b"gdbm_load: dump error Parameter at 30\n",
            None,
        ),
        row_of(&["-", "b.gdbm"], UNNAMED, 0, b"", Some(0)),
        row_of(
            &["-"],
            ODD_NAME,
            1,
            b"gdbm_load: dump error Parameter at 42\n",
            None,
        ),
        row_of(
            &["-"],
            NO_TEXT,
            1,
            b"gdbm_load: dump error Parameter at 37\n",
            None,
        ),
        row_of(&[], DUMP, 3, b"gdbm_load: usage error\n", None),
        row_of(
            &["-", "b.gdbm", "c.gdbm"],
            DUMP,
            3,
            b"gdbm_load: usage error\n",
            None,
        ),
        row_of(
            &["-c", "0", "-", "b.gdbm"],
            DUMP,
            3,
            b"gdbm_load: usage error\n",
            None,
        ),
        row_of(
            &["d.txt", "b.gdbm"],
            DUMP,
            1,
            b"gdbm_load: error 1 Absent\n",
            None,
        ),
    ]
}

fn row_of(
    words: &'static [&'static str],
    input: &'static [u8],
    status: u8,
    said: &'static [u8],
    records: Option<u64>,
) -> Row {
    Row {
        words,
        input,
        status,
        said,
        records,
    }
}

fn goes(alloc: Global, row: &Row) -> Result<bool, Fail> {
    let mut vault = MemVault::plain(alloc);
    let told = load(alloc, row.words, row.input, &mut vault)?;
    Ok(ended(&told, row.status, row.said) && count(alloc, &mut vault, "b.gdbm")? == row.records)
}

#[test]
fn dumps_of_both_kinds_are_loaded_or_refused(rt: HostRuntime) -> Result<(), Fail> {
    for row in &rows() {
        let holds = goes(rt.alloc(), row)?;
        assert!(&rt; holds);
    }
    Ok(())
}

const FOREIGN: &[u8] =
    b"# A dump as GNU dbm writes it\n#:version=1.1\n#:file=junk.gdbm\n#:uid=1000,user=gray,gid=1000,group=users,mode=664\n#:format=numsync\n# End of header\n#:len=1\naw==\n#:len=1\ndg==\n#:count=1\n# End of data\n";

#[test]
fn a_head_as_gnu_dbm_writes_it_names_the_file_and_its_format(rt: HostRuntime) -> Result<(), Fail> {
    let alloc = rt.alloc();
    let mut vault = MemVault::plain(alloc);
    let told = load(alloc, &["-"], FOREIGN, &mut vault)?;
    let all = ended(&told, 0, b"") && has(alloc, &mut vault, "junk.gdbm", b"k", b"v")?;
    assert!(&rt; all);
    Ok(())
}
