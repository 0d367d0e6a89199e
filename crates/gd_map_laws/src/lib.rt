//! Laws over the bytes of a file on which a database rests: look-up, a change of one bucket, space, splits.
#![tactic(auto)]

ghost use Rattle.gd_map_laws.specs.Beside.{BesideKeepsSound};
ghost use Rattle.gd_map_laws.specs.Change.{DeleteLaw, KeyLaw, StoreLaw};
ghost use Rattle.gd_map_laws.specs.Find.{AbsentByCount, AbsentByProbes, FieldsOfKey, KeyOnce, PresentBySlot, GrownAdds, GrownIsExtent};
ghost use Rattle.gd_map_laws.specs.Frame.{StaysLaw, KeepsJoin, KeepsMore, WriteKeeps, WrittenReads, WrittenSize, StaysAsideLaw};
ghost use Rattle.gd_map_laws.specs.Fronts.{FrontLaw, RecordsCount};
ghost use Rattle.gd_map_laws.specs.Lookup.{LookupExact, RecordsOnce};
ghost use Rattle.gd_map_laws.specs.Maps.{MapsByLookup, SameMaps, MapWith, MapWithout};
ghost use Rattle.gd_map_laws.specs.NewFile.{NewIsSound};
ghost use Rattle.gd_map_laws.specs.Overflow.{OverflowLaw, FullIsClose, OthersAreNotClose, CloseStays, FullHasBits};
ghost use Rattle.gd_map_laws.specs.Side.{SideKept};
ghost use Rattle.gd_map_laws.specs.Slots.{SlotsOfBucket, BucketOfSlots};
ghost use Rattle.gd_map_laws.specs.Sounds.{BelowIsAvail, BelowIsRight, BlocksMakeSound, CoverOfExtents, SoundHasBlocks, SoundHasSide};
ghost use Rattle.gd_map_laws.specs.Space.{SpaceLaw};
ghost use Rattle.gd_map_laws.specs.Split.{SplitLaw, DoubleLaw};
ghost use Rattle.gd_map_laws.specs.SplitSpace.{SplitSpaceLaw, DoubleSpaceLaw};
ghost use Rattle.gd_map_laws.specs.SplitSums.{DoubleTotals, SplitTotals};
ghost use Rattle.gd_map_laws.specs.SplitWrites.{SplitFromWrites};
ghost use Rattle.gd_map_laws.specs.Sums.{LostByTotals, LostChanges, TotalChanges, TotalFits};
ghost use Rattle.gd_map_laws.specs.Update.{SlotsLaw, FileLaw, OneKeyLaw};
ghost use Rattle.gd_map_laws.specs.Whole.{DeleteKeepsSound, StoreKeepsSound};
ghost use Rattle.gd_map_laws.specs.WholeSplit.{DoubleKeepsSound, SplitKeepsSound};
ghost use Rattle.gd_map_laws.specs.Writes.{WritesLaw};

/// A look-up among the records is one through hash, directory and bucket.
pub fn lookup_is_exact()
    ensures exact { LookupExact }
    ensures once { RecordsOnce }
    ensures count { RecordsCount }
{}

/// A bucket is right exactly where its slots are.
pub fn buckets_by_slots()
    ensures of_bucket { SlotsOfBucket }
    ensures of_slots { BucketOfSlots }
{}

/// What a change of the slots of one bucket makes of it and of its map.
pub fn slots_change()
    ensures { SlotsLaw }
{}

/// What a change of one bucket makes of a file.
pub fn file_change()
    ensures { FileLaw }
{}

/// A store without a split, and a deletion.
pub fn one_key_changes()
    ensures { OneKeyLaw }
{}

/// What a change of one bucket makes of the space of a file.
pub fn space_change()
    ensures { SpaceLaw }
{}

/// What stays in a file, and which changes keep it.
pub fn what_stays()
    ensures stays { StaysLaw }
    ensures join { KeepsJoin }
    ensures more { KeepsMore }
    ensures write { WriteKeeps }
    ensures reads { WrittenReads }
    ensures size { WrittenSize }
{}

/// A split keeps the map.
pub fn split_keeps()
    ensures split { SplitLaw }
    ensures double { DoubleLaw }
{}

/// When a bucket overflows.
pub fn overflow_shows()
    ensures law { OverflowLaw }
    ensures full { FullIsClose }
    ensures others { OthersAreNotClose }
    ensures stays { CloseStays }
    ensures bits { FullHasBits }
{}

/// A store without a split, and a deletion, by what they write.
pub fn key_changes()
    ensures key { KeyLaw }
    ensures store { StoreLaw }
    ensures delete { DeleteLaw }
{}

/// What probing tells of a key, and what its slot has.
pub fn look_up_by_probes()
    ensures absent { AbsentByProbes }
    ensures present { PresentBySlot }
    ensures once { KeyOnce }
    ensures fields { FieldsOfKey }
    ensures none { AbsentByCount }
{}

/// Growth of the space, as an extent and by steps.
pub fn growth_adds()
    ensures grown { GrownIsExtent }
    ensures adds { GrownAdds }
{}

/// What a split makes of the space of a file.
pub fn split_space()
    ensures { SplitSpaceLaw }
{}

/// What stays where the directory is written too.
pub fn what_stays_aside()
    ensures { StaysAsideLaw }
{}

/// Maps by their look-ups.
pub fn maps_by_lookup()
    ensures by_lookup { MapsByLookup }
    ensures same { SameMaps }
    ensures with { MapWith }
    ensures without { MapWithout }
{}

/// Writes aside of the free side keep it.
pub fn side_is_kept()
    ensures { SideKept }
{}

/// What a doubling makes of the space of a file.
pub fn double_space()
    ensures { DoubleSpaceLaw }
{}

/// A sound file by its parts, its space and the blocks of its stack.
pub fn sound_by_space()
    ensures covers { CoverOfExtents }
    ensures has { SoundHasBlocks }
    ensures made { BlocksMakeSound }
    ensures side { SoundHasSide }
{}

/// Extents that end before a place of the format stand in right fields.
pub fn below_is_right()
    ensures bucket { BelowIsRight }
    ensures table { BelowIsAvail }
{}

/// A store without a split, and a deletion, over a whole sound file: it stays sound, and its map changes at the key alone.
pub fn whole_changes()
    ensures store { StoreKeepsSound }
    ensures delete { DeleteKeepsSound }
{}

/// How many bytes the extents of a sound file have, and how many more a change of one key loses.
pub fn sums_change()
    ensures fits { TotalFits }
    ensures total { TotalChanges }
    ensures lost { LostChanges }
    ensures any { LostByTotals }
{}

/// A split and a doubling over a whole sound file: it stays sound, and its map stays.
pub fn whole_splits()
    ensures split { SplitKeepsSound }
    ensures double { DoubleKeepsSound }
{}

/// What the last writes of a change of one key leave: the bucket's block, and the header's block.
pub fn last_writes()
    ensures { WritesLaw }
{}

/// A file with one bucket and no record is sound.
pub fn new_is_sound()
    ensures { NewIsSound }
{}

/// What is written in the header's block and in free space alone keeps the file sound, and the list of its records.
pub fn beside_is_kept()
    ensures { BesideKeepsSound }
{}

/// A split by what it writes.
pub fn split_by_writes()
    ensures { SplitFromWrites }
{}

/// What a split and a doubling make of all extents.
pub fn sums_split()
    ensures split { SplitTotals }
    ensures double { DoubleTotals }
{}

/// The front of a file and its table are those of the header's block.
pub fn front_is_read()
    ensures { FrontLaw }
{}
