//! A database in a vault in memory, for tests.

ghost use Rattle.std.specs.Prelude.{◌≡◌, ◌≤◌, Some};

use gd_base::{Datum, DbError, Format, Name};
use gd_memvault::MemVault;
use gd_store::{Access, How, Store};
use gd_vault::{Mode, Vault};
use gd_verify::sound;
use std::alloc::Global;
use std::marker::Model;

/// A vault and a database in it.
#[derive(Drop)]
pub struct Trial {
    vault: MemVault,
    store: Store,
}

impl Model for Trial {
    ghost use Rattle.gd_memvault.specs.Memory.{memory_view};
    ghost use Rattle.gd_store.specs.Opened.{Opened};
    ghost use Rattle.gd_store_tests.specs.Trial.{IsTried};

    ghost Value = { Opened };

    ghost view = { λ t. t.store };

    ghost invariant = { λ t. IsTried (memory_view t.vault) t.store };
}

impl Trial {
    /// A new database in a new vault. Its name is `n`.
    pub fn new(alloc: Global, block: u32, format: Format) -> Option<Trial>
        requires { block ≤ 1048576 }
    {
        let mut vault = MemVault::plain(alloc);
        let Ok(name) = Name::new(alloc, "n") else {
            return None;
        };
        match Store::create(alloc, &mut vault, &name, block, format, 100) {
            Ok(store) => Some(Trial { vault, store }),
            Err(_) => None,
        }
    }

    /// A new database in a new vault that counts its changing calls. Its name is `n`.
    pub fn counting(alloc: Global, block: u32) -> Option<Trial>
        requires { block ≤ 1048576 }
    {
        let mut vault = MemVault::new(alloc);
        let Ok(name) = Name::new(alloc, "n") else {
            return None;
        };
        match Store::create(alloc, &mut vault, &name, block, Format::Standard, 100) {
            Ok(store) => Some(Trial { vault, store }),
            Err(_) => None,
        }
    }

    /// Twice the number of changing calls that the vault of `counting` got.
    pub fn moment(&self) -> u64 {
        self.vault.moment()
    }

    /// The database in a file of these bytes, in a new vault.
    pub fn open(alloc: Global, bytes: &[u8], access: Access) -> Result<Trial, DbError> {
        let mut vault = MemVault::plain(alloc);
        let (Ok(name), Ok(again)) = (Name::new(alloc, "n"), Name::new(alloc, "n")) else {
            return Err(DbError::OutOfMemory);
        };
        let Ok(bytes) = Datum::from_slice(alloc, bytes) else {
            return Err(DbError::OutOfMemory);
        };
        if vault.add_file(again, bytes, Mode::Both, 0).is_err() {
            return Err(DbError::OutOfMemory);
        }
        let store = Store::open_file(alloc, &mut vault, &name, access, 100)?;
        Ok(Trial { vault, store })
    }

    /// The file's bytes.
    pub fn bytes(&self) -> &[u8] {
        self.vault.bytes(self.store.file())
    }

    /// How many bits of a hash the directory goes by.
    pub fn bits(&self) -> u32 {
        self.store.header().dir_bits
    }

    pub fn insert(&mut self, key: &[u8], value: &[u8]) -> Result<(), DbError> {
        self.store.store(&mut self.vault, key, value, How::Insert)
    }

    pub fn replace(&mut self, key: &[u8], value: &[u8]) -> Result<(), DbError> {
        self.store.store(&mut self.vault, key, value, How::Replace)
    }

    pub fn delete(&mut self, key: &[u8]) -> Result<(), DbError> {
        self.store.delete(&mut self.vault, key)
    }

    pub fn fetch(&mut self, key: &[u8]) -> Result<Datum, DbError> {
        self.store.fetch(&mut self.vault, key)
    }

    pub fn exists(&mut self, key: &[u8]) -> Result<bool, DbError> {
        self.store.exists(&mut self.vault, key)
    }

    pub fn first(&mut self) -> Result<Datum, DbError> {
        self.store.first(&mut self.vault)
    }

    pub fn next(&mut self, key: &[u8]) -> Result<Datum, DbError> {
        self.store.next(&mut self.vault, key)
    }

    pub fn count(&mut self) -> Result<u64, DbError> {
        self.store.count(&mut self.vault)
    }

    /// Has a key this value?
    pub fn has(&mut self, key: &[u8], value: &[u8]) -> bool {
        match self.fetch(key) {
            Ok(found) => found.as_slice() == value,
            Err(_) => false,
        }
    }

    /// Is the file sound?
    pub fn is_sound(&mut self, alloc: Global) -> bool {
        sound(alloc, &mut self.vault, self.store.file()).is_ok()
    }
}
