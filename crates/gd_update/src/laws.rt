//! Laws over the bytes of a file. The functions do nothing; their contracts are the laws.

ghost use Rattle.gd_update.specs.GrowthLaws.{FullHasSpare, GrowthBegins, GrowthEnds};
ghost use Rattle.gd_update.specs.KeepSound.{PutKeepsSound, RemoveKeepsSound};
ghost use Rattle.gd_update.specs.SplitLaws.{SplitHolds, DoubleHolds, SoundIsHeld, HeldIsWhole, SameLookups, SplitsEnd};

/// Over the steps of a put a sound file stays sound, its map has the pair, and at most 64 more bytes are lost.
pub fn put_keeps_sound()
    ensures { PutKeepsSound }
{}

/// Over the steps of a removal a sound file stays sound, its map loses the key, and at most 32 more bytes are lost.
pub fn remove_keeps_sound()
    ensures { RemoveKeepsSound }
{}

/// A split keeps the map, and loses at most 32 bytes.
pub fn split_holds()
    ensures { SplitHolds }
{}

/// A doubling keeps the map, and loses at most 64 bytes.
pub fn doubling_holds()
    ensures { DoubleHolds }
{}

/// A sound file is held by its own header and table.
pub fn sound_is_held()
    ensures { SoundIsHeld }
{}

/// A held file without loose extents is sound with the header's block written.
pub fn held_is_whole()
    ensures { HeldIsWhole }
{}

/// Two sound files with the same look-ups have the same map.
pub fn same_lookups()
    ensures { SameLookups }
{}

/// Why splits come to an end: a full bucket not all of whose slots are close to the hash has bits to spare, and its close
/// slots stay together.
pub fn splits_end()
    ensures { SplitsEnd }
{}

/// How a chain begins: at a sound file.
pub fn growth_begins()
    ensures { GrowthBegins }
{}

/// Why a chain can go on: a full bucket not all of whose slots are close to the hash has bits to spare.
pub fn full_has_spare()
    ensures { FullHasSpare }
{}

/// How a chain ends: with the header's block written the file is sound, with the map that it had.
pub fn growth_ends()
    ensures { GrowthEnds }
{}
