//! Laws of the free space over a whole file: what `take`, `give` and `recut` keep where the header and one bucket are
//! meant as they are handed in, and are written afterwards. No program calls these.
#![tactic(auto)]

ghost use Rattle.gd_space_laws.specs.PatchedLaws.{PatchHasSide, RecutKeepsPatch, TakeKeepsPatch, GiveKeepsPatch};

/// A patched file that keeps the points of a sound file has the free side that the calls ask for.
pub fn patch_has_side()
    ensures { PatchHasSide }
{}

/// A `take` keeps the points, and no extent meets the bytes that were taken. What is lost rises by these bytes, and by the
/// call's few at most (32).
pub fn take_keeps_patch()
    ensures { TakeKeepsPatch }
{}

/// A `recut` keeps the points. What is lost rises by what it loses at most.
pub fn recut_keeps_patch()
    ensures { RecutKeepsPatch }
{}

/// A `give` keeps the points, for an extent that ends in time and meets none. What is lost falls by its size less 32 at least.
pub fn give_keeps_patch()
    ensures { GiveKeepsPatch }
{}
