//! The header of a file in the other format.

ghost use Rattle.std.specs.Prelude.{◌≡◌, ◌≤◌, length, OnOk, OnErr};
ghost use Rattle.gd_base.specs.Causes.{HasCause};
ghost use Rattle.gd_format.specs.HeaderFault.{table_room};
ghost use Rattle.gd_space.specs.Effect.{WritesAtMost};
ghost use Rattle.gd_vault.specs.Streams.{OnlyWrites};
ghost use Rattle.gd_vault.specs.Views.{HasFile};
ghost use Rattle.gd_numsync.specs.Converted.{magic_of, room_in, turned};
ghost use Rattle.gd_numsync.specs.Files.{AtFile, FileBecomes, KeepsBehind};
ghost use Rattle.gd_numsync.specs.Numbered.{IsKept};
ghost use Rattle.gd_numsync.specs.Open.{AreFit, IsOpenOn};

use crate::writing::write_front;
use gd_base::Failed;
use gd_format::{Format, Header};
use gd_layout::AvailBlock;
use gd_vault::{FileId, Vault};

fn magic_of(format: Format) -> u32
    ensures { result ≡ magic_of format }
{
    match format {
        Format::Standard => 0x1357_9acf,
        Format::Numsync => 0x1357_9ad1,
    }
}

// How many extents the table has room for in a format.
pub(crate) fn room_in(format: Format, block: u32) -> u32
    requires { 512 ≤ block }
    ensures { result ≡ table_room (magic_of format) block }
{
    match format {
        Format::Standard => (block - 56) / 16,
        Format::Numsync => (block - 88) / 16,
    }
}

// The header in a format.
fn turned(header: &Header, format: Format) -> Header
    requires { 512 ≤ header.now.block }
    ensures { result ≡ turned header.now format }
{
    Header {
        format,
        magic: magic_of(format),
        version: 0,
        numsync: 0,
        reserved: [0; 6],
        avail_size: room_in(format, header.block),
        ..*header
    }
}

/// Writes the header in the other format, with the same table, which has no more extents than that format has room for.
#[tactic(auto, using(gd_vault::proofs::Writes::writes))]
pub(crate) fn turn<V: Vault>(
    vault: &mut V,
    f: FileId,
    header: &mut Header,
    table: &AvailBlock,
    block: &mut [u8],
    wanted: Format,
) -> Result<(), Failed>
    requires file { HasFile (V.view_of vault.old) f.0 }
    requires fit { AreFit header.old table.now (length block.old) }
    requires open { AtFile (V.view_of vault.old) f.0 (IsOpenOn header.old table.now) }
    requires few { length table.now.extents ≤ room_in wanted header.old }
    ensures kept { OnOk result (FileBecomes (V.view_of vault.old) (V.view_of vault.new) f.0 (IsKept header.new table.now)) }
    ensures header { OnOk result (header.new ≡ turned header.old wanted) }
    ensures same_header { OnErr result (header.new ≡ header.old) }
    ensures behind { FileBecomes (V.view_of vault.old) (V.view_of vault.new) f.0 (KeepsBehind header.old.block) }
    ensures fit { AreFit header.new table.now (length block.new) }
    ensures there { HasFile (V.view_of vault.new) f.0 }
    ensures amount { WritesAtMost header.old.block (V.view_of vault.old) (V.view_of vault.new) }
    ensures frame { OnlyWrites f.0 (V.view_of vault.old) (V.view_of vault.new) }
    ensures cause { HasCause (V.view_of vault.old).faults (V.view_of vault.new).faults result }
{
    let next = turned(header, wanted);
    write_front(vault, f, &next, table, block)?;
    *header = next;
    Ok(())
}
