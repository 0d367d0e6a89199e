ghost use Rattle.std.specs.Prelude.{◌≡◌, length, IfOk};
ghost use Rattle.gd_memvault.specs.Memory.{memory_view};
ghost use Rattle.gd_vault.specs.Views.{HasFile};

use crate::{Cache, CacheError};
use gd_base::{Name, OutOfMemory};
use gd_layout::Bucket;
use gd_memvault::MemVault;
use gd_testvault::SmallVault;
use gd_vault::{FileId, Mode, Vault};
use std::alloc::Global;
use std::marker::Model;
use std::process::Abort;
use std::test::Fail;

const FILE: FileId = FileId(0);

// A use of a cache: a bucket is had, written or passed with so many bits, or the size is set.
#[derive(Clone, Copy, Debug)]
enum Use {
    Had(u64),
    Written(u64, u32),
    Passed(u64, u32),
    Resized(u32),
}

// A use, what it is answered, how many calls of the vault it makes, and the bits of the buckets that are kept of the four
// blocks then. The columns are those of caches of 1, 2 and 100.
#[derive(Clone, Copy, Debug)]
struct Row {
    what: Use,
    answer: Result<(), CacheError>,
    calls: [u64; 3],
    kept: [[u8; 4]; 3],
}

// A cache over a vault with a file of four blocks of 512.
#[derive(Drop)]
struct Trial {
    alloc: Global,
    vault: SmallVault,
    cache: Cache,
}

impl Model for Trial {
    ghost use Rattle.std.specs.Prelude.{◌≡◌, ℕ};

    ghost Value = { ℕ };

    ghost view = { λ t. t.vault.faults };

    ghost invariant = { λ t. t.cache.block ≡ 512 };
}

fn put(rt: &impl Abort, file: &mut [u8], at: usize, bytes: &[u8]) {
    assert!(rt; at <= file.len() && bytes.len() <= file.len() - at);
    file[at..at + bytes.len()].copy_from_slice(bytes);
}

// The blocks have 0, 1, 2 and 25 bits, of which the last are too many, and no record.
fn four_blocks(rt: &impl Abort) -> [u8; 2048] {
    let mut file = [0; 2048];
    for (i, bits) in [0, 1, 2, 25].iter().enumerate() {
        let at = i.wrapping_mul(512);
        put(rt, &mut file, at.wrapping_add(104), &[*bits]);
        for s in 0..16usize {
            put(rt, &mut file, at.wrapping_add(112 + 24 * s), &[0xff; 4]);
        }
    }
    file
}

// An empty bucket of a block of 512.
fn bucket_of(alloc: Global, bits: u32) -> Result<Bucket, OutOfMemory>
    ensures { IfOk result (λ b. length b.slots ≡ 16) }
{
    Bucket::empty(alloc, 16, bits.min(24))
}

impl Trial {
    fn new(rt: &impl Abort, alloc: Global, size: u32) -> Result<Trial, Fail> {
        let file = four_blocks(rt);
        let vault = SmallVault::new(file.to_vec(alloc)?, 100);
        let cache = Cache::new(alloc, size.max(1), 512)?;
        Ok(Trial {
            alloc,
            vault,
            cache,
        })
    }

    fn use_cache(&mut self, what: Use) -> Result<(), CacheError> {
        match what {
            Use::Had(at) => self.cache.bucket(&mut self.vault, FILE, at),
            Use::Written(at, bits) => {
                let bucket = bucket_of(self.alloc, bits)?;
                self.cache.write(&mut self.vault, FILE, at, bucket)
            }
            Use::Passed(at, bits) => {
                let bucket = bucket_of(self.alloc, bits)?;
                self.cache.pass(&mut self.vault, FILE, at, &bucket)?;
                Ok(())
            }
            Use::Resized(size) => {
                self.cache.resize(size.max(1));
                Ok(())
            }
        }
    }

    // The digit of the bits of each bucket that is kept, and a dash for each that is not.
    fn kept(&self) -> [u8; 4] {
        let mut kept = [b'-'; 4];
        for (i, digit) in kept.iter_mut().enumerate() {
            if let Some(bucket) = self.cache.get(512u64.wrapping_mul(i as u64)) {
                *digit = b'0' + bucket.bits() as u8;
            }
        }
        kept
    }

    fn bits_in_file(&self, at: usize) -> Option<u8> {
        self.vault
            .bytes
            .as_slice()
            .get(at.wrapping_add(104))
            .copied()
    }
}

fn answered(what: Use, calls: [u64; 3], kept: [[u8; 4]; 3]) -> Row {
    Row {
        what,
        answer: Ok(()),
        calls,
        kept,
    }
}

fn refused(what: Use, e: CacheError, calls: u64, kept: [[u8; 4]; 3]) -> Row {
    Row {
        what,
        answer: Err(e),
        calls: [calls; 3],
        kept,
    }
}

// Makes the uses of the rows in turn, of which those of one column are compared.
fn make_uses(rt: &impl Abort, trial: &mut Trial, column: usize, rows: &[Row]) {
    for (i, row) in rows.iter().enumerate() {
        let before = trial.vault.calls_left;
        assert!(rt; trial.use_cache(row.what) == row.answer, "row {i}");
        let calls = before.wrapping_sub(trial.vault.calls_left);
        assert!(rt; row.calls.get(column) == Some(&calls), "calls of row {i}");
        assert!(rt;
            row.kept.get(column) == Some(&trial.kept()),
            "kept after row {i}"
        );
        assert!(rt; trial.cache.len() as usize <= 100, "len after row {i}");
    }
}

#[test]
fn the_buckets_used_last_are_kept(rt: HostRuntime) -> Result<(), Fail> {
    let rows = [
        answered(Use::Had(0), [1; 3], [*b"0---"; 3]),
        answered(Use::Had(0), [0; 3], [*b"0---"; 3]),
        answered(Use::Had(512), [1; 3], [*b"-1--", *b"01--", *b"01--"]),
        answered(Use::Had(0), [1, 0, 0], [*b"0---", *b"01--", *b"01--"]),
        answered(Use::Had(1024), [1; 3], [*b"--2-", *b"0-2-", *b"012-"]),
        answered(Use::Written(512, 7), [1; 3], [*b"-7--", *b"-72-", *b"072-"]),
        answered(Use::Had(512), [0; 3], [*b"-7--", *b"-72-", *b"072-"]),
        answered(Use::Passed(512, 3), [1; 3], [*b"----", *b"--2-", *b"0-2-"]),
        answered(Use::Had(512), [1; 3], [*b"-3--", *b"-32-", *b"032-"]),
        refused(
            Use::Had(1536),
            CacheError::BadBucket(1536),
            1,
            [*b"-3--", *b"-32-", *b"032-"],
        ),
        refused(
            Use::Had(2048),
            CacheError::BadBucket(2048),
            1,
            [*b"-3--", *b"-32-", *b"032-"],
        ),
        answered(Use::Resized(1), [0; 3], [*b"-3--"; 3]),
        answered(Use::Resized(2), [0; 3], [*b"-3--"; 3]),
        answered(Use::Written(0, 5), [1; 3], [*b"53--"; 3]),
        answered(Use::Had(1024), [1; 3], [*b"5-2-"; 3]),
    ];
    let faults = [
        refused(Use::Written(0, 9), CacheError::VaultFault, 0, [*b"--2-"; 3]),
        refused(Use::Had(512), CacheError::VaultFault, 0, [*b"--2-"; 3]),
        refused(
            Use::Passed(1024, 4),
            CacheError::VaultFault,
            0,
            [*b"----"; 3],
        ),
    ];
    for (column, size) in [1, 2, 100].iter().enumerate() {
        let mut trial = Trial::new(&rt, rt.alloc(), *size)?;
        make_uses(&rt, &mut trial, column, &rows);
        trial.vault.calls_left = 0;
        make_uses(&rt, &mut trial, column, &faults);
        assert!(rt; trial.cache.len() == 0);
        assert!(rt; trial.vault.faults == 3);
        assert!(rt; trial.bits_in_file(0) == Some(5));
        assert!(rt; trial.bits_in_file(512) == Some(3));
        assert!(rt; trial.bits_in_file(1024) == Some(2));
    }
    Ok(())
}

// A vault that tells its content, with an empty file.
fn empty_file(vault: &mut MemVault, alloc: Global) -> Result<FileId, Fail>
    ensures { IfOk result (λ f. HasFile (memory_view vault.new) f.0) }
{
    let name = Name::new(alloc, "n.gdbm")?;
    match vault.create(&name, Mode::Both) {
        Ok(f) => Ok(f),
        Err(_) => Err("no file".into()),
    }
}

#[test]
fn a_bucket_is_written_and_had_over_a_vault_that_tells_its_content(
    rt: HostRuntime,
) -> Result<(), Fail> {
    let mut vault = MemVault::plain(rt.alloc());
    let f = empty_file(&mut vault, rt.alloc())?;
    let mut cache = Cache::new(rt.alloc(), 1, 512)?;
    let bucket = bucket_of(rt.alloc(), 7)?;
    assert!(rt; cache.write(&mut vault, f, 512, bucket) == Ok(()));
    assert!(rt; vault.bytes(f).len() == 1024);
    assert!(rt; cache.bucket(&mut vault, f, 512) == Ok(()));
    assert!(rt; cache.bucket(&mut vault, f, 0) == Ok(()));
    assert!(rt; cache.get(512).is_none());
    Ok(())
}
