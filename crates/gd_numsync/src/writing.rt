//! The header's block, as it is written.

ghost use Rattle.std.specs.Prelude.{◌≡◌, length, is_ok, OnOk};
ghost use Rattle.gd_base.specs.Causes.{HasCause};
ghost use Rattle.gd_space.specs.Effect.{WritesAtMost};
ghost use Rattle.gd_vault.specs.Changes.{TellsAfter};
ghost use Rattle.gd_vault.specs.Effects.{written};
ghost use Rattle.gd_vault.specs.Events.Call.{Write};
ghost use Rattle.gd_vault.specs.Streams.{OnlyWrites};
ghost use Rattle.gd_vault.specs.Views.{HasFile};
ghost use Rattle.gd_numsync.specs.Files.{FileBecomes, KeepsBehind};
ghost use Rattle.gd_numsync.specs.Open.{AreFit};
ghost use Rattle.gd_numsync.specs.Spells.{SpellsFront};

use gd_base::Failed;
use gd_format::Header;
use gd_layout::{AvailBlock, Native};
use gd_vault::{FileId, Vault};

/// Writes the header's block: a header with its table of free space.
#[tactic(auto, using(gd_vault::proofs::Writes::writes))]
pub(crate) fn write_front<V: Vault>(
    vault: &mut V,
    f: FileId,
    header: &Header,
    table: &AvailBlock,
    block: &mut [u8],
) -> Result<(), Failed>
    requires file { HasFile (V.view_of vault.old) f.0 }
    requires fit { AreFit header.now table.now (length block.old) }
    ensures wrote { TellsAfter (Write f.0 0 block.new) (is_ok result) (V.view_of vault.old).told (V.view_of vault.new).told }
    ensures becomes { OnOk result (FileBecomes (V.view_of vault.old) (V.view_of vault.new) f.0 (λ xs ys. ys ≡ written xs 0 block.new)) }
    ensures behind { FileBecomes (V.view_of vault.old) (V.view_of vault.new) f.0 (KeepsBehind header.now.block) }
    ensures spells { SpellsFront header.now table.now block.new }
    ensures size { length block.new ≡ length block.old }
    ensures there { HasFile (V.view_of vault.new) f.0 }
    ensures amount { WritesAtMost header.now.block (V.view_of vault.old) (V.view_of vault.new) }
    ensures frame { OnlyWrites f.0 (V.view_of vault.old) (V.view_of vault.new) }
    ensures cause { HasCause (V.view_of vault.old).faults (V.view_of vault.new).faults result }
{
    Native::write_header(header, table, block);
    vault.write_at(f, 0, block)?;
    Ok(())
}
