//! One doubling of the directory.

ghost use Rattle.std.specs.Prelude.{◌≡◌, ◌≢◌, ◌+◌, ◌*◌, ◌^◌, ◌<◌, ◌≤◌, ℕ, IfErr, OnOk, OnErr};
ghost use Rattle.gd_base.specs.Causes.{Rose};
ghost use Rattle.gd_format.specs.Bucket.{Bucket};
ghost use Rattle.gd_format.specs.HeaderFault.{dir_size_of};
ghost use Rattle.gd_open.specs.Open.{IsFit};
ghost use Rattle.gd_space.specs.Effect.{WritesAtMost, TellsNone};
ghost use Rattle.gd_update.specs.Growth.{IsWider};
ghost use Rattle.gd_update.specs.Held.{Holds, HasBucket};
ghost use Rattle.gd_update.specs.SplitLaws.{doubled};
ghost use Rattle.gd_update.specs.Steps.{Steps, KeepsBuckets};
ghost use Rattle.gd_update.specs.declared.errors.UpdateError.TheVariants.{VaultFault};
ghost use Rattle.gd_vault.specs.Views.{HasFile};
ghost use Rattle.gd_vault.specs.Streams.{OnlyWrites};

use crate::copying::copy_dir;
use crate::errors::UpdateError;
use crate::rooms::{give_room, take_room};
use gd_format::Extent;
use gd_layout::Bucket;
use gd_open::OpenFile;
use gd_vault::Vault;

// How many bytes a directory has.
fn dir_bytes(bits: u32) -> u32
    requires { bits < 24 }
    ensures is { result ≡ dir_size_of bits }
    ensures some { 0 < result }
    ensures few { result ≤ 2 ^ 27 }
{
    8 << bits
}

// How many entries it has.
fn entry_count(bits: u32) -> u64
    requires { bits < 24 }
    ensures is { result ≡ 2 ^ bits }
    ensures few { result ≤ 2 ^ 24 }
{
    1 << bits
}

/// Doubles the directory: each entry stands twice in a new place, and the old place is given back.
///
/// The space goes by the free extents of `loose`, a bucket that has no place yet. The header's block is not written.
#[tactic(auto, using(gd_vault::proofs::Writes::writes))]
pub fn double<V: Vault>(
    file: &mut OpenFile,
    vault: &mut V,
    loose: &mut Bucket,
) -> Result<(), UpdateError>
    requires file { HasFile (V.view_of vault.old) file.old.id }
    requires less { file.old.header.dir_bits < 24 }
    requires room { file.old.header.next_block + 2 * dir_size_of file.old.header.dir_bits + 3 * file.old.header.block ≤ 2 ^ 46 }
    requires holds { Holds (V.view_of vault.old) file.old.id file.old.header file.old.table.next_block file.old.table.extents loose.old.free }
    ensures steps { OnOk result (Steps (V.view_of vault.old) (V.view_of vault.new) file.old.id file.old.header file.new.header file.old.table.next_block file.new.table.next_block file.old.table.extents loose.old.free file.new.table.extents loose.new.free 64 (λ bytes. KeepsBuckets (V.view_of vault.old) file.old.id file.old.header bytes file.new.header)) }
    ensures holds { OnOk result (Holds (V.view_of vault.new) file.old.id file.new.header file.new.table.next_block file.new.table.extents loose.new.free) }
    ensures buckets { OnOk result ((hash at : ℕ) (bucket : Bucket) → hash < 2 ^ 31 → HasBucket (V.view_of vault.old) file.old.id file.old.header hash at bucket → HasBucket (V.view_of vault.new) file.old.id file.new.header hash at bucket) }
    ensures wider { IsWider file.old.header file.new.header }
    ensures header { OnOk result (file.new.header ≡ record (doubled file.old.header file.new.header.dir) { next_block = file.new.header.next_block }) }
    ensures growth { OnOk result (file.new.header.next_block < file.old.header.next_block + 2 * dir_size_of file.old.header.dir_bits + 3 * file.old.header.block) }
    ensures bits { loose.new.bits ≡ loose.old.bits }
    ensures slots { loose.new.slots ≡ loose.old.slots }
    ensures same_room { file.new.table.room ≡ file.old.table.room }
    ensures there { HasFile (V.view_of vault.new) file.new.id }
    ensures fit { IsFit file.new }
    ensures id { file.new.id ≡ file.old.id }
    ensures frame { OnlyWrites file.old.id (V.view_of vault.old) (V.view_of vault.new) }
    ensures amount { WritesAtMost (file.old.header.block + 32 + 2 * dir_size_of file.old.header.dir_bits) (V.view_of vault.old) (V.view_of vault.new) }
    ensures fault { IfErr result (λ e. e ≡ VaultFault → Rose (V.view_of vault.old).faults (V.view_of vault.new).faults) }
    ensures answered { OnOk result ((V.view_of vault.new).faults ≡ (V.view_of vault.old).faults) }
    ensures once { OnErr result ((V.view_of vault.new).faults ≤ (V.view_of vault.old).faults + 1) }
    ensures counted { IfErr result (λ e. e ≢ VaultFault → (V.view_of vault.new).faults ≡ (V.view_of vault.old).faults) }
    ensures told { IfErr result (λ e. e ≢ VaultFault → TellsNone (V.view_of vault.old)) }
{
    let header = *file.header();
    let size = dir_bytes(header.dir_bits);
    let count = entry_count(header.dir_bits);
    let at = take_room(file, vault, loose, 2 * size)?;
    copy_dir(file, vault, at, count)?;
    file.move_dir(at);
    give_room(
        file,
        vault,
        loose,
        Extent {
            at: header.dir,
            size,
        },
    )?;
    Ok(())
}
