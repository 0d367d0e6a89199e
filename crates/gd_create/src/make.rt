//! Writing a new file.

ghost use Rattle.std.specs.Prelude.{◌≡◌, ◌≤◌, ◌^◌, length, OnOk, OnErr, IfErr, []};
ghost use Rattle.gd_base.specs.Causes.{HasCause, Rose};
ghost use Rattle.gd_base.specs.declared.errors.DbError.TheVariants.{VaultFault};
ghost use Rattle.gd_vault.specs.Content.{File};
ghost use Rattle.gd_vault.specs.Effects.{written};
ghost use Rattle.gd_vault.specs.Views.{HasFile};
ghost use Rattle.gd_vault.specs.Streams.{OnlyWrites};
ghost use Rattle.gd_create.specs.NewFile.{IsNewHeader, new_file};
ghost use Rattle.gd_create.specs.Stands.{Stands, Becomes};

use crate::blocks::{put_bucket, put_directory, put_header};
use gd_base::DbError;
use gd_format::Header;
use gd_vault::{FileId, Vault};

// Writes bytes at a place of a file.
#[tactic(auto, using(gd_vault::proofs::Writes::writes))]
fn write_all<V: Vault>(vault: &mut V, f: FileId, at: u64, bytes: &[u8]) -> Result<(), DbError>
    requires file { HasFile (V.view_of vault.old) f.0 }
    requires place { at ≤ 2 ^ 47 }
    ensures wrote { OnOk result (Becomes (V.view_of vault.old) (V.view_of vault.new) f.0 (λ old. written old at bytes.now)) }
    ensures there { HasFile (V.view_of vault.new) f.0 }
    ensures error { IfErr result (λ e. e ≡ VaultFault) }
    ensures fault { OnErr result (Rose (V.view_of vault.old).faults (V.view_of vault.new).faults) }
    ensures cause { HasCause (V.view_of vault.old).faults (V.view_of vault.new).faults result }
    ensures frame { OnlyWrites f.0 (V.view_of vault.old) (V.view_of vault.new) }
{
    match vault.write_at(f, at, bytes) {
        Ok(()) => Ok(()),
        Err(_) => Err(DbError::VaultFault),
    }
}

/// Writes the blocks of a new file into one that is empty, which keeps its mode and its stamp. `buf` takes one block, and no memory is taken.
#[tactic(auto, using(gd_vault::proofs::Writes::writes, crate::proofs::Powers::bounds))]
pub fn make_file<V: Vault>(
    vault: &mut V,
    f: FileId,
    header: &Header,
    buf: &mut [u8],
) -> Result<(), DbError>
    requires file { HasFile (V.view_of vault.old) f.0 }
    requires new { IsNewHeader header.now }
    requires buffer { length buf.old ≡ header.now.block }
    ensures made { OnOk result ((x : File) → Stands (V.view_of vault.old) f.0 x → x.bytes ≡ [] → Stands (V.view_of vault.new) f.0 (record x { bytes = new_file header.now.format header.now.block header.now.dir_bits })) }
    ensures there { HasFile (V.view_of vault.new) f.0 }
    ensures error { IfErr result (λ e. e ≡ VaultFault) }
    ensures fault { OnErr result (Rose (V.view_of vault.old).faults (V.view_of vault.new).faults) }
    ensures cause { HasCause (V.view_of vault.old).faults (V.view_of vault.new).faults result }
    ensures frame { OnlyWrites f.0 (V.view_of vault.old) (V.view_of vault.new) }
{
    put_header(header, buf);
    write_all(vault, f, 0, buf)?;
    put_directory(header, buf);
    write_all(vault, f, u64::from(header.block), buf)?;
    put_bucket(header, buf);
    write_all(vault, f, 2 * u64::from(header.block), buf)
}
