//! The numsync of an open file: a number that a sync raises, so that of two copies of a file the later one is known.

ghost use Rattle.std.specs.Prelude.{◌≡◌, length, OnOk, OnErr, Ok};
ghost use Rattle.gd_base.specs.Causes.{HasCause};
ghost use Rattle.gd_base.specs.declared.errors.Format.TheVariants.{Standard};
ghost use Rattle.gd_space.specs.Effect.{WritesAtMost};
ghost use Rattle.gd_vault.specs.Streams.{OnlyWrites};
ghost use Rattle.gd_vault.specs.Views.{HasFile};
ghost use Rattle.gd_numsync.specs.Files.{AtFile, FileBecomes, KeepsBehind};
ghost use Rattle.gd_numsync.specs.Numbered.{IsKept, numbered, raised};
ghost use Rattle.gd_numsync.specs.Open.{AreFit, IsOpenOn};

use crate::writing::write_front;
use gd_base::Failed;
use gd_format::{Format, Header};
use gd_layout::AvailBlock;
use gd_vault::{FileId, Vault};

/// Writes a number as the numsync of a file in the numsync format. In a standard file it does nothing.
///
/// `header` and `table` are those of the file, and `block` has the room of a block. No memory is taken. After `Failed` the
/// header in memory is the old one; of the file all bytes behind the header's block are as before.
#[tactic(auto, using(gd_vault::proofs::Writes::writes))]
pub fn set_numsync<V: Vault>(
    vault: &mut V,
    f: FileId,
    header: &mut Header,
    table: &AvailBlock,
    block: &mut [u8],
    numsync: u32,
) -> Result<(), Failed>
    requires file { HasFile (V.view_of vault.old) f.0 }
    requires fit { AreFit header.old table.now (length block.old) }
    requires open { AtFile (V.view_of vault.old) f.0 (IsOpenOn header.old table.now) }
    ensures kept { OnOk result (FileBecomes (V.view_of vault.old) (V.view_of vault.new) f.0 (IsKept header.new table.now)) }
    ensures header { OnOk result (header.new ≡ numbered header.old numsync) }
    ensures same_header { OnErr result (header.new ≡ header.old) }
    ensures behind { FileBecomes (V.view_of vault.old) (V.view_of vault.new) f.0 (KeepsBehind header.old.block) }
    ensures standard { header.old.format ≡ Standard → (result ≡ Ok tt) × (V.view_of vault.new ≡ V.view_of vault.old) × (block.new ≡ block.old) }
    ensures fit { AreFit header.new table.now (length block.new) }
    ensures there { HasFile (V.view_of vault.new) f.0 }
    ensures amount { WritesAtMost header.old.block (V.view_of vault.old) (V.view_of vault.new) }
    ensures frame { OnlyWrites f.0 (V.view_of vault.old) (V.view_of vault.new) }
    ensures cause { HasCause (V.view_of vault.old).faults (V.view_of vault.new).faults result }
{
    if header.format == Format::Standard {
        return Ok(());
    }
    let next = Header { numsync, ..*header };
    write_front(vault, f, &next, table, block)?;
    *header = next;
    Ok(())
}

/// Adds one to the numsync of a file in the numsync format, modulo 2^32. In a standard file it does nothing.
#[tactic(auto, using(gd_vault::proofs::Writes::writes))]
pub fn bump_numsync<V: Vault>(
    vault: &mut V,
    f: FileId,
    header: &mut Header,
    table: &AvailBlock,
    block: &mut [u8],
) -> Result<(), Failed>
    requires file { HasFile (V.view_of vault.old) f.0 }
    requires fit { AreFit header.old table.now (length block.old) }
    requires open { AtFile (V.view_of vault.old) f.0 (IsOpenOn header.old table.now) }
    ensures kept { OnOk result (FileBecomes (V.view_of vault.old) (V.view_of vault.new) f.0 (IsKept header.new table.now)) }
    ensures header { OnOk result (header.new ≡ raised header.old) }
    ensures same_header { OnErr result (header.new ≡ header.old) }
    ensures behind { FileBecomes (V.view_of vault.old) (V.view_of vault.new) f.0 (KeepsBehind header.old.block) }
    ensures standard { header.old.format ≡ Standard → (result ≡ Ok tt) × (V.view_of vault.new ≡ V.view_of vault.old) × (block.new ≡ block.old) }
    ensures fit { AreFit header.new table.now (length block.new) }
    ensures there { HasFile (V.view_of vault.new) f.0 }
    ensures amount { WritesAtMost header.old.block (V.view_of vault.old) (V.view_of vault.new) }
    ensures frame { OnlyWrites f.0 (V.view_of vault.old) (V.view_of vault.new) }
    ensures cause { HasCause (V.view_of vault.old).faults (V.view_of vault.new).faults result }
{
    let numsync = header.numsync.wrapping_add(1);
    set_numsync(vault, f, header, table, block, numsync)
}
