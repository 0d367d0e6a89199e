//! Laws of open databases. No program calls these.

ghost use Rattle.gd_store.specs.Laws.{FirstIsPair, FitsStays, NextIsPair};

/// Calls of a vault on other files than its own leave an open database that of its file.
pub fn fits_stays()
    ensures { FitsStays }
{}

/// The first key is that of the first record, and the key after a key that of the record behind, each with the value that
/// the map has.
pub fn keys_are_of_pairs()
    ensures first { FirstIsPair }
    ensures next { NextIsPair }
{}
