//! An open database.

ghost use Rattle.std.specs.Prelude.{◌≡◌, ◌≤◌, ◌<◌, true};
ghost use Rattle.gd_format.specs.HeaderFault.{is_native};
ghost use Rattle.gd_format.specs.Headers.{IsHeader};
ghost use Rattle.gd_layout.specs.Fits.{FitsHeader};
ghost use Rattle.gd_store.specs.Opened.{SameButCached};

use crate::access::Access;
use gd_format::Header;
use gd_open::OpenFile;
use gd_vault::FileId;
use std::alloc::Global;
use std::marker::Model;

/// An open database: a file of a vault with what is kept of it, and how it was opened.
///
/// It doesn't own its vault. Each call is given the vault in which its file is.
#[derive(Drop)]
pub struct Store {
    pub(crate) alloc: Global,
    pub(crate) file: OpenFile,
    pub(crate) access: Access,
    pub(crate) broken: bool,
    pub(crate) cache: u32,
}

impl Model for Store {
    ghost use Rattle.gd_store.specs.Opened.{Opened};
    ghost use Rattle.gd_store.specs.Held.{FitsStore};

    ghost Value = { Opened };

    ghost view = { λ s. record { file = s.file.id; header = s.file.header; table = s.file.table; access = s.access; broken = s.broken; cache = s.cache } };

    ghost invariant = { λ s. FitsStore s.cache };
}

impl Store {
    /// The header of the file as the store knows it.
    pub fn header(&self) -> &Header
        ensures is { result.now ≡ self.now.header }
        ensures valid { IsHeader result.now }
        ensures fits { FitsHeader result.now }
        ensures native { is_native result.now.magic ≡ true }
    {
        self.file.header()
    }

    /// Sets how many buckets may be kept.
    #[tactic(auto, using(crate::proofs::Asking::same_cached))]
    pub fn set_cache(&mut self, size: u32)
        requires least { 1 ≤ size }
        requires most { size ≤ 4096 }
        ensures { SameButCached (record self.old { cache = size }) self.new }
    {
        self.cache = size;
    }

    /// How many buckets may be kept.
    pub fn cache(&self) -> u32
        ensures is { result ≡ self.now.cache }
        ensures least { 1 ≤ result }
        ensures most { result ≤ 4096 }
    {
        self.cache
    }

    /// Did a changing call meet a fault of the vault, or was the store given up?
    pub fn is_broken(&self) -> bool
        ensures { result ≡ self.now.broken }
    {
        self.broken
    }

    /// Makes the store broken: from now on each call that can refuse does so.
    pub fn give_up(&mut self)
        ensures { self.new ≡ record self.old { broken = true } }
    {
        self.broken = true;
    }

    /// The file in which the database is.
    pub fn file(&self) -> FileId
        ensures { result.0 ≡ self.now.file }
    {
        self.file.file()
    }

    /// For what the database was opened.
    pub fn access(&self) -> Access
        ensures { result ≡ self.now.access }
    {
        self.access
    }
}
