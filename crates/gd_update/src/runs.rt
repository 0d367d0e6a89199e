//! A run of a directory gets another address.

ghost use Rattle.std.specs.Prelude.{◌≡◌, ◌+◌, ◌*◌, ◌^◌, ◌<◌, ◌≤◌, Some, length, OnOk, OnErr, IfErr, ◌≢◌};
ghost use Rattle.gd_base.specs.Causes.{Rose};
ghost use Rattle.gd_open.specs.Files.{FileBecomes};
ghost use Rattle.gd_space.specs.Effect.{WritesAtMost};
ghost use Rattle.gd_update.specs.Runs.{IsPointed};
ghost use Rattle.gd_update.specs.declared.errors.UpdateError.TheVariants.{VaultFault};
ghost use Rattle.gd_vault.specs.Content.{File};
ghost use Rattle.gd_vault.specs.Views.{HasFile, IsAt};
ghost use Rattle.gd_vault.specs.Streams.{OnlyWrites};

use crate::errors::UpdateError;
use crate::pages::{fill_page, portion};
use gd_open::OpenFile;
use gd_vault::Vault;

/// Writes one address into so many entries from a place on.
#[tactic(auto, using(gd_vault::proofs::Writes::writes))]
pub fn point_run<V: Vault>(
    file: &OpenFile,
    vault: &mut V,
    place: u64,
    count: u64,
    address: u64,
) -> Result<(), UpdateError>
    requires file { HasFile (V.view_of vault.old) file.now.id }
    requires low { address < 2 ^ 63 }
    requires few { count ≤ 2 ^ 24 }
    requires fits { place + 8 * count < 2 ^ 64 }
    requires inside { IsAt (V.view_of vault.old) (λ c. (x : File) → c.files file.now.id ≡ Some x → place + 8 * count ≤ length x.bytes) }
    ensures pointed { OnOk result (FileBecomes (V.view_of vault.old) (V.view_of vault.new) file.now.id (IsPointed place count address)) }
    ensures there { HasFile (V.view_of vault.new) file.now.id }
    ensures frame { OnlyWrites file.now.id (V.view_of vault.old) (V.view_of vault.new) }
    ensures amount { WritesAtMost (8 * count) (V.view_of vault.old) (V.view_of vault.new) }
    ensures error { IfErr result (λ e. e ≡ VaultFault) }
    ensures fault { OnErr result (Rose (V.view_of vault.old).faults (V.view_of vault.new).faults) }
    ensures answered { OnOk result ((V.view_of vault.new).faults ≡ (V.view_of vault.old).faults) }
    ensures once { OnErr result ((V.view_of vault.new).faults ≤ (V.view_of vault.old).faults + 1) }
{
    let mut page = [0u8; 4096];
    fill_page(address, &mut page);
    let mut done = 0;
    while done < count {
        let part = portion(count - done, 512);
        file.write_bytes(vault, place + 8 * done, &page[..8 * part as usize])?;
        done += part;
    }
    Ok(())
}
