//! The choice between two snapshots.

ghost use Rattle.std.specs.Prelude.{◌≡◌, ◌≢◌, ◌+◌, ◌≤◌, Err, IfOk, OnOk, OnErr};
ghost use Rattle.gd_base.specs.Causes.{Rose};
ghost use Rattle.gd_base.specs.declared.errors.Which.TheVariants.{Only};
ghost use Rattle.gd_vault.specs.Views.{HasFile, IsAt, OnlyAsks};
ghost use Rattle.gd_snap.specs.declared.choices.LatestError.TheVariants.{Absent, VaultFault};
ghost use Rattle.gd_snap.specs.Choices.{by_numsyncs, by_stamps, choice_of, choose, is_readable, newer_of};
ghost use Rattle.gd_snap.specs.Reads.{Counts, IsEither, ReadsNumbers, ReadsOfNames};
ghost use Rattle.gd_snap.specs.Told.{IsChoice};

use crate::choices::{Choice, LatestError};
use crate::numbers::numsync;
use gd_base::{Failed, Name, Which};
use gd_vault::{FileId, Mode, Vault};

fn is_readable(mode: Mode) -> bool
    ensures { result ≡ is_readable mode }
{
    match mode {
        Mode::ReadOnly | Mode::Both => true,
        Mode::WriteOnly => false,
    }
}

fn greater_stamp(even: u64, odd: u64) -> Choice
    ensures { result ≡ by_stamps even odd }
{
    if odd < even {
        Choice::Even
    } else if even < odd {
        Choice::Odd
    } else {
        Choice::Same
    }
}

// The choice that two numsyncs make, or None where the stamps make it.
fn by_numsyncs(even: Option<u32>, odd: Option<u32>) -> Option<Choice>
    ensures { result ≡ by_numsyncs even odd }
{
    match (even, odd) {
        (Some(a), Some(b)) if a == b.wrapping_add(1) => Some(Choice::Even),
        (Some(a), Some(b)) if b == a.wrapping_add(1) => Some(Choice::Odd),
        (Some(a), Some(b)) if a == b => None,
        (Some(_), Some(_)) => Some(Choice::Suspicious),
        _ => None,
    }
}

fn by_stamps<V: Vault>(vault: &mut V, even: FileId, odd: FileId) -> Result<Choice, Failed>
    requires even { HasFile (V.view_of vault.old) even.0 }
    requires odd { HasFile (V.view_of vault.old) odd.0 }
    ensures asks { OnlyAsks (V.view_of vault.old) (V.view_of vault.new) }
    ensures fault { OnErr result (Rose (V.view_of vault.old).faults (V.view_of vault.new).faults) }
    ensures once { (V.view_of vault.new).faults ≤ (V.view_of vault.old).faults + 1 }
    ensures answered { OnOk result ((V.view_of vault.new).faults ≡ (V.view_of vault.old).faults) }
    ensures reads { (V.view_of vault.new).reads ≡ (V.view_of vault.old).reads }
    ensures choice { IfOk result (λ r. IsChoice (λ x y. by_stamps x.stamp y.stamp) (V.view_of vault.old) even.0 odd.0 r) }
{
    let first = vault.stamp(even)?;
    let second = vault.stamp(odd)?;
    Ok(greater_stamp(first, second))
}

// The newer one of two files that may be read.
fn newer<V: Vault>(vault: &mut V, even: FileId, odd: FileId) -> Result<Choice, Failed>
    requires even { HasFile (V.view_of vault.old) even.0 }
    requires odd { HasFile (V.view_of vault.old) odd.0 }
    ensures asks { OnlyAsks (V.view_of vault.old) (V.view_of vault.new) }
    ensures fault { OnErr result (Rose (V.view_of vault.old).faults (V.view_of vault.new).faults) }
    ensures once { (V.view_of vault.new).faults ≤ (V.view_of vault.old).faults + 1 }
    ensures answered { OnOk result ((V.view_of vault.new).faults ≡ (V.view_of vault.old).faults) }
    ensures reads { ReadsNumbers (IsEither even.0 odd.0) (V.view_of vault.old) (V.view_of vault.new) }
    ensures choice { IfOk result (λ r. IsChoice newer_of (V.view_of vault.old) even.0 odd.0 r) }
{
    let first = numsync(vault, even)?;
    let second = numsync(vault, odd)?;
    match by_numsyncs(first, second) {
        Some(choice) => Ok(choice),
        None => by_stamps(vault, even, odd),
    }
}

fn choose<V: Vault>(vault: &mut V, even: FileId, odd: FileId) -> Result<Choice, Failed>
    requires even { HasFile (V.view_of vault.old) even.0 }
    requires odd { HasFile (V.view_of vault.old) odd.0 }
    ensures asks { OnlyAsks (V.view_of vault.old) (V.view_of vault.new) }
    ensures fault { OnErr result (Rose (V.view_of vault.old).faults (V.view_of vault.new).faults) }
    ensures once { (V.view_of vault.new).faults ≤ (V.view_of vault.old).faults + 1 }
    ensures answered { OnOk result ((V.view_of vault.new).faults ≡ (V.view_of vault.old).faults) }
    ensures reads { ReadsNumbers (IsEither even.0 odd.0) (V.view_of vault.old) (V.view_of vault.new) }
    ensures choice { IfOk result (λ r. IsChoice choice_of (V.view_of vault.old) even.0 odd.0 r) }
{
    let even_opens = is_readable(vault.mode(even)?);
    let odd_opens = is_readable(vault.mode(odd)?);
    match (even_opens, odd_opens) {
        (true, true) => newer(vault, even, odd),
        (true, false) => Ok(Choice::Even),
        (false, true) => Ok(Choice::Odd),
        (false, false) => Ok(Choice::Bad),
    }
}

/// Which of two snapshots is the newer one, of those that may be read. It looks at their modes, then at their numsyncs,
/// of which the next one follows modulo 2^32, then at their stamps.
pub fn latest<V: Vault>(vault: &mut V, even: &Name, odd: &Name) -> Result<Choice, LatestError>
    ensures chooses { IsAt (V.view_of vault.old) (λ c. result ≢ Err VaultFault → result ≡ choose c even.now odd.now) }
    ensures kind { result ≢ Err (Absent Only) }
    ensures counts { Counts result (V.view_of vault.old).faults (V.view_of vault.new).faults }
    ensures once { (V.view_of vault.new).faults ≤ (V.view_of vault.old).faults + 1 }
    ensures asks { OnlyAsks (V.view_of vault.old) (V.view_of vault.new) }
    ensures reads { ReadsOfNames even.now odd.now (V.view_of vault.old) (V.view_of vault.new) }
{
    let Some(first) = vault.lookup(even)? else {
        return Err(LatestError::Absent(Which::Even));
    };
    let Some(second) = vault.lookup(odd)? else {
        return Err(LatestError::Absent(Which::Odd));
    };
    let choice = choose(vault, first, second)?;
    Ok(choice)
}
