//! The first extent that ends too far or meets one before it.

ghost use Rattle.std.specs.Prelude.{◌≡◌, ◌+◌, ◌<◌, take, length, None, Some, [], is_none, true, false, IfOk};
ghost use Rattle.std.specs.List.{All};
ghost use Rattle.gd_format.specs.Sound.{meet_fault};
ghost use Rattle.gd_verify.specs.Apart.{IsPlain};

use crate::apart::{all_end, are_apart};
use gd_base::{DbError, OutOfMemory};
use gd_format::Held;
use std::alloc::Global;

// Has no extent of a list a refusal?
#[tactic(auto, using(crate::proofs::Meets::none_meets, crate::proofs::Meets::some_past, crate::proofs::Meets::some_meet))]
fn none_meets(alloc: Global, next: u64, list: &[Held]) -> Result<bool, OutOfMemory>
    requires plain { All IsPlain list.now }
    ensures { IfOk result (λ b. b ≡ is_none (meet_fault next [] list.now)) }
{
    if !all_end(list, next) {
        return Ok(false);
    }
    are_apart(alloc, list)
}

// The place of the first extent that has a refusal, between the first ones that have none and ones that have one.
fn first_meeting(alloc: Global, next: u64, list: &[Held]) -> Result<usize, OutOfMemory>
    requires plain { All IsPlain list.now }
    requires some { is_none (meet_fault next [] list.now) ≡ false }
    ensures place { IfOk result (λ n. n < length list.now) }
    ensures before { IfOk result (λ n. is_none (meet_fault next [] (take n list.now)) ≡ true) }
    ensures here { IfOk result (λ n. is_none (meet_fault next [] (take (n + 1) list.now)) ≡ false) }
{
    let mut low = 0;
    let mut high = list.len();
    'halves: while low + 1 < high {
        let mid = low + (high - low) / 2;
        if none_meets(alloc, next, &list[..mid])? {
            low = mid;
        } else {
            high = mid;
        }
    }
    Ok(low)
}

/// The refusal of the first extent that ends beyond `next` or meets one before it. It takes the time of a sort, and of a
/// few more where there is a refusal.
pub fn meet_refusal(alloc: Global, next: u64, list: &[Held]) -> Result<Option<DbError>, OutOfMemory>
    requires plain { All IsPlain list.now }
    ensures { IfOk result (λ r. r ≡ meet_fault next [] list.now) }
{
    if none_meets(alloc, next, list)? {
        return Ok(None);
    }
    let n = first_meeting(alloc, next, list)?;
    Ok(Some(DbError::BadAvail(list[n].by)))
}
