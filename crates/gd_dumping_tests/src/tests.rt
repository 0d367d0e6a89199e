use crate::layout::{file_of, long_file, plain, small_file};
use crate::rows::{
    Answer, ascii_words, binary_rows, changed_file, changed_rows, file_of_row, file_rows,
    other_files, silent_rows, words_rows,
};
use crate::runs::{Ran, run_cut, run_failing, run_file, run_over, vault_of};
use gd_base::Sink;
use std::alloc::Global;
use std::test::Fail;

const HEAD: &str = "# GDBM dump file created by gdbm_dump\n#:version=1.1\n#:file=a.gdbm\n#:format=";

const ASCII_HEAD: &[u8] =
    b"# GDBM dump file created by gdbm_dump\n#:version=1.1\n#:file=a\n#:format=standard\n";

const ASCII_REST: &[u8] =
    b"# End of header\n#:len=1\naw==\n#:len=1\ndg==\n#:count=1\n# End of data\n";

// The dump that a file is answered, if it is.
fn dump_of(alloc: Global, answer: Answer) -> Result<String, Fail> {
    match answer {
        Answer::Dump(format, data) => Ok(format!(in alloc;
            "{HEAD}{format}\n# End of header\n{data}# End of data\n"
        )?),
        Answer::Error(_) => Ok(String::new(alloc)),
    }
}

// The line of the error that a file is answered, if it is.
fn line_of(alloc: Global, answer: Answer) -> Result<String, Fail> {
    match answer {
        Answer::Dump(_, _) => Ok(String::new(alloc)),
        Answer::Error(error) => Ok(format!(in alloc; "gdbm_dump: error {error}\n")?),
    }
}

fn status_of(answer: Answer) -> u8 {
    match answer {
        Answer::Dump(_, _) => 0,
        Answer::Error(_) => 1,
    }
}

fn is_answered(alloc: Global, file: Vec<u8>, answer: Answer) -> Result<bool, Fail> {
    let mut vault = vault_of(alloc, "data/a.gdbm", file)?;
    let ran = run_over(alloc, &["data/a.gdbm"], &mut vault, &[], &[])?;
    let dump = dump_of(alloc, answer)?;
    let line = line_of(alloc, answer)?;
    Ok(
        ran.status == status_of(answer)
            && ran.out.bytes() == dump.as_bytes()
            && ran.err.bytes() == line.as_bytes(),
    )
}

#[test]
fn files_are_dumped_or_refused(rt: HostRuntime) -> Result<(), Fail> {
    for row in &file_rows() {
        let file = file_of_row(rt.alloc(), row)?;
        assert!(rt; is_answered(rt.alloc(), file, row.7)?, "{}", row.0);
    }
    Ok(())
}

#[test]
fn what_is_no_database_is_refused(rt: HostRuntime) -> Result<(), Fail> {
    for (bytes, answer) in other_files() {
        let file = bytes.to_vec(rt.alloc())?;
        assert!(rt; is_answered(rt.alloc(), file, answer)?);
    }
    Ok(())
}

#[test]
fn changed_bytes_are_refused(rt: HostRuntime) -> Result<(), Fail> {
    for row in &changed_rows() {
        let Some(file) = changed_file(rt.alloc(), row)? else {
            return Err("a place in the file".into());
        };
        assert!(rt; is_answered(rt.alloc(), file, row.3)?, "{}", row.0);
    }
    Ok(())
}

// The 77 bytes of the head of a binary dump.
const BINARY_HEAD: &[u8] =
    b"!\r\n! GDBM FLAT FILE DUMP -- THIS IS NOT A TEXT FILE\r\n! GDBM version 1.23\r\n!\r\n";

// Does a run print the head and the rest, and nothing else?
fn is_printed(ran: &Ran, head: &[u8], rest: &[u8]) -> bool {
    ran.status == 0
        && ran.err.bytes().is_empty()
        && ran.out.bytes().len() == head.len() + rest.len()
        && ran.out.bytes().starts_with(head)
        && ran.out.bytes().ends_with(rest)
}

#[test]
fn binary_dumps_are_printed(rt: HostRuntime) -> Result<(), Fail> {
    let alloc = rt.alloc();
    for (shows, words, block, records, rest) in binary_rows() {
        let file = file_of(alloc, &plain(block, records))?;
        let mut vault = vault_of(alloc, "a", file)?;
        let ran = run_over(alloc, words, &mut vault, &[], &[])?;
        assert!(rt; is_printed(&ran, BINARY_HEAD, rest), "{shows}");
    }
    Ok(())
}

// Whatever the words, the dump has the name and not the words.
#[test]
fn ascii_dumps_are_printed(rt: HostRuntime) -> Result<(), Fail> {
    let alloc = rt.alloc();
    let mut vault = vault_of(alloc, "a", small_file(alloc)?)?;
    for words in ascii_words() {
        let ran = run_over(alloc, words, &mut vault, &[], &[])?;
        assert!(rt; is_printed(&ran, ASCII_HEAD, ASCII_REST));
    }
    Ok(())
}

// Did a run break a dump off, or begin none?
fn is_front(ran: &Ran, whole: &Ran) -> bool {
    ran.status == 1 && whole.out.bytes().starts_with(ran.out.bytes())
}

fn is_vault_fault(ran: &Ran) -> bool {
    ran.status == 1 && ran.err.bytes() == b"gdbm_dump: error 27 VaultFault\n".as_slice()
}

// A call of the vault that fails, whichever it is, leaves a front of the dump.
#[test]
fn faults_of_the_vault_leave_a_front(rt: HostRuntime) -> Result<(), Fail> {
    let alloc = rt.alloc();
    let file = long_file(alloc)?;
    let whole = run_file(alloc, &file, &[])?;
    assert!(rt; whole.status == 0);
    let mut begun = false;
    for call in 0..1000 {
        let ran = run_file(alloc, &file, &[call])?;
        if ran.status == 0 {
            break;
        }
        begun = begun || !ran.out.bytes().is_empty();
        assert!(rt; is_front(&ran, &whole) && is_vault_fault(&ran));
    }
    assert!(rt; begun);
    Ok(())
}

#[test]
fn words_and_names_are_refused(rt: HostRuntime) -> Result<(), Fail> {
    let alloc = rt.alloc();
    let mut vault = vault_of(alloc, "a", Vec::new(alloc))?;
    for (words, status, line) in words_rows() {
        let ran = run_over(alloc, words, &mut vault, &[], &[])?;
        assert!(rt; ran.status == status && ran.err.bytes() == line);
    }
    Ok(())
}

#[test]
fn a_vault_that_fails_has_its_line(rt: HostRuntime) -> Result<(), Fail> {
    for calls in 0..3 {
        let (ran, faults) = run_failing(rt.alloc(), calls)?;
        assert!(rt; is_vault_fault(&ran) && faults == 1);
    }
    Ok(())
}

#[test]
fn an_output_that_fails_has_its_line(rt: HostRuntime) -> Result<(), Fail> {
    let alloc = rt.alloc();
    let mut vault = vault_of(alloc, "a", small_file(alloc)?)?;
    let full = run_over(alloc, &["a"], &mut vault, &[0], &[])?;
    assert!(rt; full.status == 1);
    assert!(rt; full.err.bytes() == b"gdbm_dump: output fault\n".as_slice());
    assert!(rt; full.out.bytes().is_empty() && full.out.faults() == 1);
    Ok(())
}

// Where standard error fails too, the status of refused words stands, and any other is 1.
#[test]
fn standard_error_that_fails_leaves_the_status(rt: HostRuntime) -> Result<(), Fail> {
    let alloc = rt.alloc();
    let mut vault = vault_of(alloc, "a", small_file(alloc)?)?;
    for (words, status) in silent_rows() {
        assert!(rt; run_over(alloc, words, &mut vault, &[], &[0])?.status == status);
    }
    Ok(())
}

// Is the dump of a file that is cut before a read, whichever it is, refused or broken off, once with this line and once
// after some of it was written? This is no fault of the vault.
fn breaks_off(alloc: Global, file: &[u8], cut: usize, line: &[u8]) -> Result<bool, Fail> {
    let whole = run_cut(alloc, file, u64::MAX, cut)?;
    let mut told = false;
    let mut begun = false;
    for reads in 0..1000 {
        let ran = run_cut(alloc, file, reads, cut)?;
        if ran.status == 0 {
            break;
        }
        if !is_front(&ran, &whole) || ran.err.bytes().ends_with(b"Fault\n") {
            return Ok(false);
        }
        told = told || ran.err.bytes() == line;
        begun = begun || !ran.out.bytes().is_empty();
    }
    Ok(whole.status == 0 && told && begun)
}

// Lengths to which a file is cut, and the line of the refusal.
fn cuts() -> [(usize, &'static [u8]); 3] {
    [
        (0, b"gdbm_dump: error 8 BadDirEntry 0\n"),
        (1536, b"gdbm_dump: error 11 BadHashEntry 1024 7\n"),
        (7538, b"gdbm_dump: error 11 BadHashEntry 1024 14\n"),
    ]
}

#[test]
fn a_file_that_is_cut_breaks_its_dump_off(rt: HostRuntime) -> Result<(), Fail> {
    let file = long_file(rt.alloc())?;
    for (cut, line) in cuts() {
        assert!(rt; breaks_off(rt.alloc(), &file, cut, line)?);
    }
    Ok(())
}
