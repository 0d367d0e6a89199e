//! Dumps from a file of the vault, and databases that are there already.

use crate::run::{DUMP, add, count, ended, has, load};
use gd_memvault::MemVault;
use std::alloc::Global;
use std::process::Abort;
use std::test::Fail;

// Words, and what comes of them where `d.txt` has the dump and `old.gdbm` the record `q`, `w`.
#[derive(Clone, Copy)]
struct Row {
    words: &'static [&'static str],
    status: u8,
    said: &'static [u8],
    // The records of `old.gdbm`, and whether `q` is still there.
    records: Option<u64>,
    keeps: bool,
}

fn rows() -> [Row; 7] {
    [
        row_of(&["d.txt"], 0, b"", Some(1), true),
        row_of(&["d.txt", "old.gdbm"], 0, b"", Some(1), false),
        row_of(&["-U", "d.txt", "old.gdbm"], 0, b"", Some(2), true),
        row_of(
            &["d.txt", "d.txt"],
            1,
            b"gdbm_load: error 21 InUse\n",
            Some(1),
            true,
        ),
        row_of(
            &["-U", "d.txt", "d.txt"],
            1,
            b"gdbm_load: error 21 InUse\n",
            Some(1),
            true,
        ),
        row_of(
            &["old.gdbm", "old.gdbm"],
            1,
            b"gdbm_load: dump error Version at 0\n",
            Some(1),
            true,
        ),
        row_of(
            &["-U", "d.txt", "bad.gdbm"],
            1,
            b"gdbm_load: error 3 ShortFile\n",
            Some(1),
            true,
        ),
    ]
}

fn row_of(
    words: &'static [&'static str],
    status: u8,
    said: &'static [u8],
    records: Option<u64>,
    keeps: bool,
) -> Row {
    Row {
        words,
        status,
        said,
        records,
        keeps,
    }
}

const OLD: &[u8] =
    b"#:version=1.1,file=old.gdbm\n# End of header\n#:len=1\ncQ==\n#:len=1\ndw==\n#:count=1\n# End of data\n";

fn goes(alloc: Global, row: &Row) -> Result<bool, Fail> {
    let mut vault = MemVault::plain(alloc);
    add(alloc, &mut vault, "d.txt", DUMP)?;
    add(alloc, &mut vault, "bad.gdbm", b"no database")?;
    let made = load(alloc, &["-"], OLD, &mut vault)?;
    let told = load(alloc, row.words, b"", &mut vault)?;
    Ok(
        ended(&made, 0, b"")
            && ended(&told, row.status, row.said)
            && count(alloc, &mut vault, "old.gdbm")? == row.records
            && has(alloc, &mut vault, "old.gdbm", b"q", b"w")? == row.keeps,
    )
}

#[test]
fn a_dump_of_a_file_is_loaded_over_what_is_there(rt: HostRuntime) -> Result<(), Fail> {
    for row in &rows() {
        let holds = goes(rt.alloc(), row)?;
        assert!(&rt; holds);
    }
    Ok(())
}
