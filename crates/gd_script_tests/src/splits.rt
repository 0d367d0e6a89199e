//! Buckets that are full: splits, doublings and the directory's end.

use crate::play::{Trial, bytes_of, no_fails, play};
use crate::rows::{DONE, OVERFLOW, Row, holds, holds_over};
use gd_lang::Opening;
use gd_memvault::MemVault;
use std::alloc::Global;
use std::process::Abort;
use std::test::Fail;

// Sixteen keys of one hash, which fill a bucket of a block of 512.
const ALIKE: &[u8] =
    b"store A----z x\nstore C----y x\nstore E----x x\nstore G----w x\nstore I----v x\nstore K----u x\nstore M----t x\nstore O----s x\nstore Q----r x\nstore S----q x\nstore U----p x\nstore W----o x\nstore Y----n x\nstore [----m x\nstore ]----l x\nstore _----k x\n";

// A vault in which these keys are stored.
fn full_bucket(alloc: Global) -> Result<MemVault, Fail> {
    let mut vault = MemVault::plain(alloc);
    let script = Trial {
        opening: Opening::NewDb,
        block: 512,
        lines: ALIKE,
        fails: no_fails(),
    };
    let played = play(alloc, &mut vault, &script)?;
    if played.script.status != 0 || played.script.turns.as_slice().len() != 16 {
        return Err("refused".into());
    }
    Ok(vault)
}

// How many bits of a hash the directory of the file `n` goes by.
fn bits(alloc: Global, vault: &mut MemVault) -> Result<u8, Fail> {
    match bytes_of(alloc, vault)?.get(20) {
        Some(bits) => Ok(*bits),
        None => Err("too short".into()),
    }
}

#[test]
fn a_full_bucket_is_split(rt: HostRuntime) -> Result<(), Fail> {
    let alloc = rt.alloc();
    let mut vault = full_bucket(alloc)?;
    let row = Row {
        lines: b"store k v\nfirst\ncount\nfetch _----k\nfetch A----z",
        out: b"k v\n17\nx\nx\n",
        err: b"",
        status: 0,
        answers: &[DONE, DONE, DONE, DONE, DONE],
    };
    assert!(rt; holds_over(alloc, &mut vault, Opening::WrCreat, 512, &row)?);
    assert!(rt; bits(alloc, &mut vault)? == 6);
    Ok(())
}

#[test]
fn a_directory_at_its_end_refuses_a_key(rt: HostRuntime) -> Result<(), Fail> {
    let alloc = rt.alloc();
    let mut vault = full_bucket(alloc)?;
    let before = bytes_of(alloc, &mut vault)?;
    let refused = Row {
        lines: b"store a----j x\ncount",
        out: b"16\n",
        err: b"gdbmtool: 1: error 17 DirOverflow\n",
        status: 2,
        answers: &[OVERFLOW, DONE],
    };
    assert!(rt; holds_over(alloc, &mut vault, Opening::WrCreat, 512, &refused)?);
    assert!(rt; bytes_of(alloc, &mut vault)? == before);
    let answered = Row {
        lines: b"store A----z y\nstore k v\ncount\nfetch A----z",
        out: b"17\ny\n",
        err: b"",
        status: 0,
        answers: &[DONE, DONE, DONE, DONE],
    };
    assert!(rt; holds_over(alloc, &mut vault, Opening::WrCreat, 512, &answered)?);
    Ok(())
}

// The first seventeen numbers whose hashes begin with the six bits of 13.
fn doubling() -> Row<'static> {
    Row {
        lines: b"store 55 a\nstore 103 b\nstore 157 c\nstore 221 d\nstore 344 e\nstore 398 f\nstore 462 g\nstore 585 h\nstore 618 i\nstore 736 j\nstore 800 k\nstore 859 l\nstore 890 m\nstore 923 n\nstore 977 o\nstore 1104 p\nstore 1176 q\nfetch 55\nfetch 103\nfetch 157\nfetch 221\nfetch 344\nfetch 398\nfetch 462\nfetch 585\nfetch 618\nfetch 736\nfetch 800\nfetch 859\nfetch 890\nfetch 923\nfetch 977\nfetch 1104\nfetch 1176\n",
        out: b"a\nb\nc\nd\ne\nf\ng\nh\ni\nj\nk\nl\nm\nn\no\np\nq\n",
        err: b"",
        status: 0,
        answers: &[DONE; 34],
    }
}

#[test]
fn a_directory_is_doubled(rt: HostRuntime) -> Result<(), Fail> {
    let alloc = rt.alloc();
    let mut vault = MemVault::plain(alloc);
    assert!(rt; holds_over(alloc, &mut vault, Opening::NewDb, 512, &doubling())?);
    assert!(rt; bits(alloc, &mut vault)? == 7);
    let row = Row {
        lines: b"count",
        out: b"17\n",
        err: b"",
        status: 0,
        answers: &[DONE],
    };
    assert!(rt; holds_over(alloc, &mut vault, Opening::Reader, 512, &row)?);
    Ok(())
}

#[test]
fn keys_of_one_hash_fit_a_large_block(rt: HostRuntime) -> Result<(), Fail> {
    let row = Row {
        lines: b"store A----z a\nstore C----y b\nstore k v\nfirst\nlist\n",
        out: b"A----z a\nA----z a\nC----y b\nk v\n",
        err: b"",
        status: 0,
        answers: &[DONE; 5],
    };
    assert!(rt; holds(rt.alloc(), Opening::NewDb, 4096, &row)?);
    Ok(())
}
