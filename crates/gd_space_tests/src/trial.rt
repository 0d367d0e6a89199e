//! A new file in a vault in memory, and its free space.

ghost use Rattle.std.specs.Prelude.{◌≡◌, [], ◌∷◌, ◌+◌, ◌≤◌, Some, length, IfOk};
ghost use Rattle.gd_base.specs.declared.errors.Format.TheVariants.{Standard};
ghost use Rattle.gd_format.specs.Sound.{extent};
ghost use Rattle.gd_memvault.specs.Memory.{memory_view};
ghost use Rattle.gd_vault.specs.Content.{File};
ghost use Rattle.gd_vault.specs.Views.{HasFile, IsAt};
ghost use Rattle.gd_create.specs.NewFile.{new_file, new_header};

use gd_base::{Format, Name};
use gd_create::{block_for, make_file, new_header};
use gd_format::{Extent, Header};
use gd_layout::{Bucket, Native};
use gd_memvault::MemVault;
use gd_space::Space;
use gd_vault::{FileId, Mode, Vault};
use std::alloc::Global;
use std::marker::Model;
use std::test::Fail;

/// A file of block 512, of which the header, the table and the bucket are held, with the extents that are in use.
#[derive(Drop)]
pub struct Trial {
    vault: MemVault,
    f: FileId,
    header: Header,
    space: Space,
    bucket: Bucket,
    used: Vec<Extent>,
}

impl Model for Trial {
    ghost use Rattle.gd_format.specs.declared.Header.{Header};
    ghost use Rattle.gd_memvault.specs.Memory.{memory_view};
    ghost use Rattle.gd_space_tests.specs.Trial.{FitsTrial};

    ghost Value = { Header };

    ghost view = { λ t. t.header };

    ghost invariant = { λ t. FitsTrial (memory_view t.vault) t.f.0 t.header t.space t.bucket t.used.items };
}

// A vault with an empty file.
fn empty_file(vault: &mut MemVault, alloc: Global) -> Result<FileId, Fail>
    ensures there { IfOk result (λ f. HasFile (memory_view vault.new) f.0) }
    ensures empty { IfOk result (λ f. IsAt (memory_view vault.new) (λ c. (x : File) → c.files f.0 ≡ Some x → x.bytes ≡ [])) }
{
    let name = Name::new(alloc, "n.gdbm")?;
    match vault.create(&name, Mode::Both) {
        Ok(f) => Ok(f),
        Err(_) => Err("no file".into()),
    }
}

// Makes a new file of block 512.
fn new_file(vault: &mut MemVault, alloc: Global) -> Result<(FileId, Header), Fail>
    ensures there { IfOk result (λ r. HasFile (memory_view vault.new) r.0.0) }
    ensures header { IfOk result (λ r. r.1 ≡ new_header Standard 512 6) }
    ensures bytes { IfOk result (λ r. IsAt (memory_view vault.new) (λ c. (x : File) → c.files r.0.0 ≡ Some x → x.bytes ≡ new_file Standard 512 6)) }
{
    let f = empty_file(vault, alloc)?;
    let header = new_header(block_for(512), Format::Standard);
    let mut buf = vec![in alloc; 0u8; header.block as usize]?;
    match make_file(vault, f, &header, &mut buf) {
        Ok(()) => Ok((f, header)),
        Err(_) => Err("no new file".into()),
    }
}

// The bucket of a new file of block 512.
fn new_bucket(alloc: Global) -> Result<Bucket, Fail>
    ensures free { IfOk result (λ b. b.free ≡ extent 1536 512 ∷ []) }
    ensures slots { IfOk result (λ b. length b.slots ≡ 16) }
{
    let mut bucket = Bucket::empty(alloc, 16, 0)?;
    bucket.push_free(Extent {
        at: 1536,
        size: 512,
    });
    Ok(bucket)
}

impl Trial {
    /// A new file of block 512 in a vault that tells its content, of which nothing is in use.
    pub fn new(alloc: Global) -> Result<Trial, Fail> {
        let mut vault = MemVault::plain(alloc);
        let (f, header) = new_file(&mut vault, alloc)?;
        let bucket = new_bucket(alloc)?;
        let used = Vec::with_capacity(alloc, 400)?;
        match Space::load(alloc, &mut vault, f, &header) {
            Ok(space) => Ok(Trial {
                vault,
                f,
                header,
                space,
                bucket,
                used,
            }),
            Err(_) => Err("no table".into()),
        }
    }

    /// Takes n bytes, which are in use then.
    pub fn take(mut self, n: u32) -> Option<Trial> {
        if n == 0 || n >= 1 << 31 {
            return None;
        }
        let Ok(at) = self.space.take(
            &mut self.vault,
            self.f,
            &mut self.header,
            1024,
            &mut self.bucket,
            n,
        )
        else {
            return None;
        };
        let Ok(()) = self.used.push(Extent { at, size: n }) else {
            return None;
        };
        Some(self)
    }

    /// Gives back the extent at a place of those in use.
    pub fn give(mut self, place: usize) -> Option<Trial> {
        if place >= self.used.len() {
            return None;
        }
        let e = self.used.remove(place);
        let Ok(()) = self.space.give(
            &mut self.vault,
            self.f,
            &mut self.header,
            1024,
            &mut self.bucket,
            e,
        )
        else {
            return None;
        };
        Some(self)
    }

    /// How many extents are in use.
    pub fn in_use(&self) -> usize {
        self.used.len()
    }

    /// The bytes that are in use beside the three blocks.
    pub fn used_bytes(&self) -> u64 {
        sizes(self.used.as_slice())
    }

    /// Where the file ends, for those who ask for room.
    pub fn next_block(&self) -> u64 {
        self.header.next_block
    }

    /// The bytes of the free extents of the table and of the bucket.
    pub fn held_free(&self) -> u64 {
        sizes(self.space.table().extents()).saturating_add(sizes(self.bucket.free()))
    }

    /// How many extents the table has.
    pub fn table_len(&self) -> usize {
        self.space.table().extents().len()
    }

    /// The address of the first block of the stack.
    pub fn top(&self) -> u64 {
        self.space.table().next_block()
    }

    /// The file as it reads, with the header's block and the bucket's block written from what is held.
    pub fn patched(&self, alloc: Global) -> Result<Vec<u8>, Fail> {
        let mut bytes = self.vault.bytes(self.f).to_vec(alloc)?;
        if bytes.len() < 1536 {
            return Err("a short file".into());
        }
        let mut front = [0u8; 512];
        Native::write_header(&self.header, self.space.table(), &mut front);
        put(&mut bytes, 0, &front);
        let mut block = [0u8; 512];
        Native::write_bucket(&self.bucket, &mut block);
        put(&mut bytes, 1024, &block);
        Ok(bytes)
    }
}

// Puts bytes at a place.
fn put(bytes: &mut [u8], at: usize, part: &[u8])
    requires { at + length part.now ≤ length bytes.old }
{
    bytes[at..at + part.len()].copy_from_slice(part);
}

// The sum of the sizes of extents.
fn sizes(extents: &[Extent]) -> u64 {
    let mut sum: u64 = 0;
    for e in extents {
        sum = sum.saturating_add(u64::from(e.size));
    }
    sum
}
