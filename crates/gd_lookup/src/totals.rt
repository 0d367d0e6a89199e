//! The number of records, by the counts of the buckets.

ghost use Rattle.std.specs.Prelude.{◌≡◌, ◌+◌, ◌-◌, ◌*◌, ◌<◌, ◌≤◌, ◌^◌, true, false, length, IfOk, IfErr, IfNone, IfSome};
ghost use Rattle.gd_format.specs.Bucket.{counts_at};
ghost use Rattle.gd_format.specs.File.{block_of, entries_of, records, run_at};
ghost use Rattle.gd_format.specs.HeaderFault.{natural};
ghost use Rattle.gd_vault.specs.Views.{HasFile, OnlyAsks};
ghost use Rattle.gd_readable.specs.Asks.{Counts};
ghost use Rattle.gd_open.specs.Files.{AtFile, OfFile};
ghost use Rattle.gd_open.specs.Reading.{RefusesRead};
ghost use Rattle.gd_lookup.specs.Counting.{have_share, run_of};

use crate::records::{dir_bits, entry_count};
use gd_base::DbError;
use gd_open::OpenFile;
use gd_vault::Vault;

// How many entries of the directory a bucket has, and how many records.
#[derive(Clone, Copy)]
pub struct Share {
    pub run: u64,
    pub full: u32,
}

// By the counts of a bucket, where they are right, in a directory of 2^bits entries.
pub fn share_of(bits: u32, counts: gd_format::Counts) -> Option<Share>
    requires { bits ≤ 24 }
    ensures none { IfNone result (have_share bits counts ≡ false) }
    ensures run { IfSome result (λ s. s.run ≡ run_of bits counts) }
    ensures full { IfSome result (λ s. s.full ≡ natural counts.full) }
    ensures some { IfSome result (λ s. 0 < s.run) }
    ensures most { IfSome result (λ s. s.run ≤ 2 ^ 24) }
    ensures fits { IfSome result (λ s. s.full < 2 ^ 31) }
{
    if counts.bits < 0 || counts.full < 0 || counts.bits.cast_unsigned() > bits {
        return None;
    }
    Some(Share {
        run: 1 << (bits - counts.bits.cast_unsigned()),
        full: counts.full.cast_unsigned(),
    })
}

// Of the bucket of an entry, of which the counts alone are read.
fn share_at<V: Vault>(file: &OpenFile, vault: &mut V, i: u64) -> Result<Share, DbError>
    requires file { HasFile (V.view_of vault.old) file.now.id }
    requires readable { OfFile (V.view_of vault.old) file.now.id file.now.header }
    requires within { i < entries_of file.now.header }
    ensures asks { OnlyAsks (V.view_of vault.old) (V.view_of vault.new) }
    ensures answered { IfOk result (λ _. (V.view_of vault.new).faults ≡ (V.view_of vault.old).faults) }
    ensures counted { IfErr result (λ e. Counts e (V.view_of vault.old).faults (V.view_of vault.new).faults) }
    ensures share { IfOk result (λ s. AtFile (V.view_of vault.old) file.now.id (λ bytes. (s.run ≡ run_at bytes file.now.header i) × (s.full ≡ natural (counts_at (block_of bytes file.now.header i)).full))) }
    ensures some { IfOk result (λ s. 0 < s.run) }
    ensures most { IfOk result (λ s. s.run ≤ 2 ^ 24) }
    ensures fits { IfOk result (λ s. s.full < 2 ^ 31) }
    ensures refused { IfErr result (λ e. RefusesRead e (V.view_of vault.old) (V.view_of vault.new)) }
{
    let at = file.entry(vault, i)?;
    let counts = file.counts(vault, at)?;
    match share_of(dir_bits(file), counts) {
        Some(share) => Ok(share),
        None => Err(DbError::BadBucket(at)),
    }
}

/// The number of records, by the count fields of the buckets. Takes no memory.
pub fn count<V: Vault>(file: &OpenFile, vault: &mut V) -> Result<u64, DbError>
    requires file { HasFile (V.view_of vault.old) file.now.id }
    requires readable { OfFile (V.view_of vault.old) file.now.id file.now.header }
    ensures asks { OnlyAsks (V.view_of vault.old) (V.view_of vault.new) }
    ensures answered { IfOk result (λ _. (V.view_of vault.new).faults ≡ (V.view_of vault.old).faults) }
    ensures counted { IfErr result (λ e. Counts e (V.view_of vault.old).faults (V.view_of vault.new).faults) }
    ensures count { IfOk result (λ n. AtFile (V.view_of vault.old) file.now.id (λ bytes. n ≡ length (records bytes))) }
    ensures refused { IfErr result (λ e. RefusesRead e (V.view_of vault.old) (V.view_of vault.new)) }
{
    let entries = entry_count(file);
    let mut i = 0;
    let mut total = 0;
    'runs: while i < entries {
        let share = share_at(file, vault, i)?;
        total += u64::from(share.full);
        i += share.run;
    }
    Ok(total)
}
