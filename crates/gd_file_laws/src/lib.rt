//! Laws over the bytes of a file: it is readable, and sound, exactly where its parts are right, each by itself.
//!
//! A changing call is proved part by part, and what it doesn't write keeps its part.
#![tactic(auto)]

ghost use Rattle.gd_file_laws.specs.Cover.{ApartByCover, CoverAdds, EndByCover, LargeApartByCover};
ghost use Rattle.gd_file_laws.specs.Frame.{StillKeepsPart, StillKeepsRecords, WriteKeepsPart, WriteKeepsValues};
ghost use Rattle.gd_file_laws.specs.Parts.{ReadableByParts};
ghost use Rattle.gd_file_laws.specs.Points.{PointsByCover, SoundByParts};
ghost use Rattle.gd_file_laws.specs.Sizes.{HeaderHasSizes};
ghost use Rattle.gd_file_laws.specs.Stack.{ApartAreDistinct, BlocksMakeStack, StackHasBlocks};

/// A file is readable exactly where its header, its directory and each bucket by itself are right.
pub fn readable_by_parts()
    ensures { ReadableByParts }
{}

/// A file is sound exactly where these parts and the points on its space are right.
pub fn sound_by_parts()
    ensures sound { SoundByParts }
    ensures points { PointsByCover }
{}

/// What reads alike in a longer file keeps the part of a bucket, and its records.
pub fn still_bucket_is_kept()
    ensures part { StillKeepsPart }
    ensures records { StillKeepsRecords }
{}

/// A write aside of a bucket leaves all that its part depends on.
pub fn write_aside_keeps()
    ensures part { WriteKeepsPart }
    ensures values { WriteKeepsValues }
{}

/// Extents are apart exactly where each byte is in one of them at most, in whatever order they stand.
pub fn apart_by_cover()
    ensures all { ApartByCover }
    ensures large { LargeApartByCover }
    ensures ends { EndByCover }
    ensures adds { CoverAdds }
{}

/// What a header without a fault says of sizes.
pub fn header_has_sizes()
    ensures { HeaderHasSizes }
{}

/// A stack of blocks of free space without a refusal is a list of blocks at addresses of their own.
pub fn stack_by_blocks()
    ensures made { BlocksMakeStack }
    ensures has { StackHasBlocks }
    ensures distinct { ApartAreDistinct }
{}
