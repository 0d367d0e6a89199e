//! Are extents apart? A sorted copy of them tells.

ghost use Rattle.std.specs.Prelude.{◌≡◌, true, false, IfOk};
ghost use Rattle.std.specs.List.{All};
ghost use Rattle.std.specs.List.Sorted.{IsNonDecreasingBy, IsPermutation};
ghost use Rattle.gd_verify.specs.Apart.{start_of, IsPlain, AreApart, AllEnd};

use gd_base::OutOfMemory;
use gd_format::Held;
use std::alloc::Global;

/// Does each extent end at or before a place?
#[tactic(auto, using(crate::proofs::Chains::end_more, crate::proofs::Chains::ends_past))]
pub fn all_end(list: &[Held], place: u64) -> bool
    requires plain { All IsPlain list.now }
    ensures end { result ≡ true → AllEnd place list.now }
    ensures past { result ≡ false → ¬ AllEnd place list.now }
{
    for k in list {
        if k.extent.at + u64::from(k.extent.size) > place {
            return false;
        }
    }
    true
}

// Does each extent begin at or behind the end of the one before it?
#[tactic(auto, using(crate::proofs::Chains::neighbours_meet, crate::proofs::Chains::apart_more, crate::proofs::Chains::ends_more, crate::proofs::Chains::ends_here))]
fn is_chain(list: &[Held]) -> bool
    requires sorted { IsNonDecreasingBy start_of list.now }
    requires plain { All IsPlain list.now }
    ensures apart { result ≡ true → AreApart list.now }
    ensures meet { result ≡ false → ¬ AreApart list.now }
{
    let mut end = 0;
    for k in list {
        if k.extent.at < end {
            return false;
        }
        end = k.extent.at + u64::from(k.extent.size);
    }
    true
}

fn sort_by_start(list: &mut Vec<Held>) -> Result<(), OutOfMemory>
    ensures sorted { IfOk result (λ _. IsNonDecreasingBy start_of list.new.items) }
    ensures same { IfOk result (λ _. IsPermutation list.old.items list.new.items) }
{
    match list.sort_by_key(|k| k.extent.at) {
        Ok(()) => Ok(()),
        Err(_) => Err(OutOfMemory),
    }
}

/// Does no extent meet another one?
pub fn are_apart(alloc: Global, list: &[Held]) -> Result<bool, OutOfMemory>
    requires plain { All IsPlain list.now }
    ensures apart { IfOk result (λ b. b ≡ true → AreApart list.now) }
    ensures meet { IfOk result (λ b. b ≡ false → ¬ AreApart list.now) }
{
    let Ok(mut sorted) = list.to_vec(alloc) else {
        return Err(OutOfMemory);
    };
    sort_by_start(&mut sorted)?;
    Ok(is_chain(&sorted))
}
