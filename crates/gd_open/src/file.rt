//! An open file.

ghost use Rattle.std.specs.Prelude.{◌≡◌, ◌+◌, ◌<◌, ◌≤◌, ◌^◌, true, length};
ghost use Rattle.gd_format.specs.HeaderFault.{is_native};
ghost use Rattle.gd_format.specs.Headers.{IsHeader};
ghost use Rattle.gd_format.specs.Sound.{most_of};
ghost use Rattle.gd_layout.specs.Fits.{FitsHeader};
ghost use Rattle.gd_open.specs.Open.{IsFit};

use gd_format::Header;
use gd_space::Space;
use gd_vault::FileId;
use std::marker::Model;

/// A file of a vault that is open: what is kept of its header and of its table of free space, and room for one block.
///
/// It doesn't own its vault. Each call is given the vault in which the file is. Header and table may stand in memory alone
/// until `write_header`.
#[derive(Drop)]
pub struct OpenFile {
    pub(crate) id: FileId,
    pub(crate) header: Header,
    pub(crate) space: Space,
    pub(crate) block: Vec<u8>,
}

impl Model for OpenFile {
    ghost use Rattle.std.specs.Prelude.{length};
    ghost use Rattle.gd_open.specs.Open.{OpenParts, FitTogether};

    ghost Value = { OpenParts };

    ghost view = { λ s. record { id = s.id.0; header = s.header; table = s.space.table; block = s.block.items } };

    ghost invariant = { λ s. FitTogether s.header s.space.table (length s.block.items) s.space.block };
}

impl OpenFile {
    /// Of the parts: `block` has the size of a block, and `space` is that of the header's table.
    pub fn new(id: FileId, header: Header, space: Space, block: Vec<u8>) -> OpenFile
        requires header { IsHeader header }
        requires fields { FitsHeader header }
        requires native { is_native header.magic ≡ true }
        requires space { space.block ≡ header.block }
        requires table_fits { length space.table.extents ≤ header.avail_size }
        requires table_room { space.table.room ≡ most_of header }
        requires block { length block.items ≡ header.block }
        ensures { result ≡ record { id = id.0; header = header; table = space.table; block = block.items } }
    {
        OpenFile {
            id,
            header,
            space,
            block,
        }
    }

    /// The header as it stands in memory.
    pub fn header(&self) -> &Header
        ensures is { result.now ≡ self.now.header }
        ensures fit { IsFit self.now }
    {
        &self.header
    }

    /// The file.
    pub fn file(&self) -> FileId
        ensures { result.0 ≡ self.now.id }
    {
        self.id
    }

    /// The block that was read or written last.
    pub fn block(&self) -> &[u8]
        ensures is { result.now ≡ self.now.block }
        ensures size { length result.now ≡ self.now.header.block }
    {
        &self.block
    }

    /// Goes on with a directory of twice as many entries at another place, which is written there already.
    pub fn move_dir(&mut self, at: u64)
        requires less { self.old.header.dir_bits < 24 }
        requires low { at ≤ 2 ^ 62 }
        ensures is { self.new ≡ record self.old { header = record self.old.header { dir = at; dir_bits = self.old.header.dir_bits + 1 } } }
        ensures id { self.new.id ≡ self.old.id }
        ensures fit { IsFit self.new }
    {
        self.header.dir = at;
        self.header.dir_bits += 1;
    }

    /// Goes on with an earlier header, of which the directory and the end of space alone have changed.
    pub fn restore(&mut self, before: &Header)
        requires header { IsHeader before.now }
        requires fields { FitsHeader before.now }
        requires only { self.old.header ≡ record before.now { dir = self.old.header.dir; dir_bits = self.old.header.dir_bits; next_block = self.old.header.next_block } }
        ensures is { self.new ≡ record self.old { header = before.now } }
        ensures id { self.new.id ≡ self.old.id }
        ensures fit { IsFit self.new }
    {
        self.header = *before;
    }
}
