//! A directory is copied, each entry twice.

ghost use Rattle.std.specs.Prelude.{◌≡◌, ◌≢◌, ◌+◌, ◌*◌, ◌^◌, ◌<◌, ◌≤◌, ℕ, true, Some, length, OnOk, IfOk, IfErr, OnErr};
ghost use Rattle.gd_base.specs.Causes.{Rose};
ghost use Rattle.gd_format.specs.File.{entries_of};
ghost use Rattle.gd_open.specs.Files.{FileBecomes};
ghost use Rattle.gd_space.specs.Effect.{WritesAtMost, TellsNone};
ghost use Rattle.gd_update.specs.Runs.{IsDoubled};
ghost use Rattle.gd_update.specs.Places.{IsCopyPlace, ReadsEntries};
ghost use Rattle.gd_update.specs.declared.errors.UpdateError.TheVariants.{VaultFault, BadAvail};
ghost use Rattle.gd_vault.specs.Content.{File};
ghost use Rattle.gd_vault.specs.Views.{HasFile, IsAt, OnlyAsks};
ghost use Rattle.gd_vault.specs.Streams.{OnlyWrites};

use crate::errors::UpdateError;
use crate::pages::{double_entries, portion};
use gd_open::OpenFile;
use gd_vault::Vault;

// Reads entries from one on, and answers whether they are all there.
#[tactic(auto, using(gd_vault::proofs::Writes::writes))]
fn read_entries<V: Vault>(
    file: &OpenFile,
    vault: &mut V,
    first: u64,
    count: usize,
    source: &mut [u8],
) -> Result<bool, UpdateError>
    requires file { HasFile (V.view_of vault.old) file.now.id }
    requires within { first + count ≤ entries_of file.now.header }
    requires room { 8 * count ≤ length source.old }
    ensures asks { OnlyAsks (V.view_of vault.old) (V.view_of vault.new) }
    ensures whole { IfOk result (λ all. IsAt (V.view_of vault.old) (λ c. (x : File) → c.files file.now.id ≡ Some x → file.now.header.dir + 8 * first + 8 * count ≤ length x.bytes → all ≡ true)) }
    ensures reads { OnOk result (IsAt (V.view_of vault.old) (λ c. (x : File) → c.files file.now.id ≡ Some x → file.now.header.dir + 8 * first + 8 * count ≤ length x.bytes → ReadsEntries x.bytes (file.now.header.dir + 8 * first) count source.new)) }
    ensures error { IfErr result (λ e. e ≡ VaultFault) }
    ensures fault { IfErr result (λ _. Rose (V.view_of vault.old).faults (V.view_of vault.new).faults) }
    ensures answered { OnOk result ((V.view_of vault.new).faults ≡ (V.view_of vault.old).faults) }
    ensures once { OnErr result ((V.view_of vault.new).faults ≤ (V.view_of vault.old).faults + 1) }
{
    let all = file.read_entries(vault, first, &mut source[..8 * count])?;
    Ok(all)
}

/// Writes each of the first `count` entries of the directory twice at another place.
#[tactic(auto, using(gd_vault::proofs::Writes::writes))]
pub fn copy_dir<V: Vault>(
    file: &OpenFile,
    vault: &mut V,
    to: u64,
    count: u64,
) -> Result<(), UpdateError>
    requires file { HasFile (V.view_of vault.old) file.now.id }
    requires few { count ≤ 2 ^ 24 }
    requires within { count ≤ entries_of file.now.header }
    requires room { to + 16 * count < 2 ^ 64 }
    requires places { IsAt (V.view_of vault.old) (λ c. (x : File) → c.files file.now.id ≡ Some x → IsCopyPlace x.bytes file.now.header.dir to count) }
    ensures doubled { OnOk result (FileBecomes (V.view_of vault.old) (V.view_of vault.new) file.now.id (IsDoubled file.now.header.dir to count)) }
    ensures there { HasFile (V.view_of vault.new) file.now.id }
    ensures frame { OnlyWrites file.now.id (V.view_of vault.old) (V.view_of vault.new) }
    ensures amount { WritesAtMost (16 * count) (V.view_of vault.old) (V.view_of vault.new) }
    ensures fault { IfErr result (λ e. e ≡ VaultFault → Rose (V.view_of vault.old).faults (V.view_of vault.new).faults) }
    ensures answered { OnOk result ((V.view_of vault.new).faults ≡ (V.view_of vault.old).faults) }
    ensures once { OnErr result ((V.view_of vault.new).faults ≤ (V.view_of vault.old).faults + 1) }
    ensures counted { IfErr result (λ e. e ≢ VaultFault → (V.view_of vault.new).faults ≡ (V.view_of vault.old).faults) }
    ensures space { IfErr result (λ e. (a : ℕ) → e ≢ BadAvail a) }
    ensures told { IfErr result (λ e. e ≢ VaultFault → TellsNone (V.view_of vault.old)) }
{
    let mut source = [0u8; 2048];
    let mut page = [0u8; 4096];
    let mut done = 0;
    while done < count {
        let part = portion(count - done, 256) as usize;
        if !read_entries(file, vault, done, part, &mut source)? {
            return Err(UpdateError::BadDirEntry(done));
        }
        let Some(()) = double_entries(&source, part, &mut page) else {
            return Err(UpdateError::BadDirEntry(done));
        };
        file.write_bytes(vault, to + 16 * done, &page[..16 * part])?;
        done += part as u64;
    }
    Ok(())
}
