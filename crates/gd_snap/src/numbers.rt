//! The numsync of a file of a vault.

ghost use Rattle.std.specs.Prelude.{◌≡◌, ◌⊎◌, ◌+◌, ◌≤◌, IfOk, OnOk, OnErr};
ghost use Rattle.gd_base.specs.Causes.{Rose};
ghost use Rattle.gd_vault.specs.Frame.{OneFile};
ghost use Rattle.gd_vault.specs.Views.{HasFile, OnlyAsks};
ghost use Rattle.gd_snap.specs.Reads.{ReadsNumbers};
ghost use Rattle.gd_snap.specs.Told.{IsField, IsNumsync};

use gd_base::Failed;
use gd_layout::u32_from;
use gd_vault::{FileId, Vault};

// The magic of the numsync format.
const NUMSYNC: u32 = 0x1357_9ad1;

// The magic, at place 0, or the numsync, at place 44, of a file that has them.
fn number_at<V: Vault>(vault: &mut V, f: FileId, at: u64) -> Result<u32, Failed>
    requires file { HasFile (V.view_of vault.old) f.0 }
    requires place { (at ≡ 0) ⊎ (at ≡ 44) }
    ensures asks { OnlyAsks (V.view_of vault.old) (V.view_of vault.new) }
    ensures fault { OnErr result (Rose (V.view_of vault.old).faults (V.view_of vault.new).faults) }
    ensures once { (V.view_of vault.new).faults ≤ (V.view_of vault.old).faults + 1 }
    ensures answered { OnOk result ((V.view_of vault.new).faults ≡ (V.view_of vault.old).faults) }
    ensures reads { ReadsNumbers (OneFile f.0) (V.view_of vault.old) (V.view_of vault.new) }
    ensures number { IfOk result (λ n. IsField (V.view_of vault.old) f.0 at n) }
{
    let mut field = [0; 4];
    vault.read_at(f, at, &mut field)?;
    Ok(u32_from(&field, 0))
}

/// The numsync of a file, or None where it has not the magic of the numsync format and 72 bytes.
pub(crate) fn numsync<V: Vault>(vault: &mut V, f: FileId) -> Result<Option<u32>, Failed>
    requires file { HasFile (V.view_of vault.old) f.0 }
    ensures asks { OnlyAsks (V.view_of vault.old) (V.view_of vault.new) }
    ensures fault { OnErr result (Rose (V.view_of vault.old).faults (V.view_of vault.new).faults) }
    ensures once { (V.view_of vault.new).faults ≤ (V.view_of vault.old).faults + 1 }
    ensures answered { OnOk result ((V.view_of vault.new).faults ≡ (V.view_of vault.old).faults) }
    ensures reads { ReadsNumbers (OneFile f.0) (V.view_of vault.old) (V.view_of vault.new) }
    ensures numsync { IfOk result (λ n. IsNumsync (V.view_of vault.old) f.0 n) }
{
    let len = vault.len(f)?;
    if len < 72 {
        return Ok(None);
    }
    let magic = number_at(vault, f, 0)?;
    if magic != NUMSYNC {
        return Ok(None);
    }
    let number = number_at(vault, f, 44)?;
    Ok(Some(number))
}
