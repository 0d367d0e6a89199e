//! Laws of what another header makes of a sound file. No program calls these.

ghost use Rattle.gd_numsync.specs.Laws.{LikeIsKept, NumberIsKept};

/// Another header, which has the old one's directory, sizes and end of space, with the old one's table, keeps the file
/// sound, its list of records and what is lost. So does another numsync.
pub fn front_is_kept()
    ensures like { LikeIsKept }
    ensures number { NumberIsKept }
{}
