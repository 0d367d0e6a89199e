//! Laws of a look-up.

ghost use Rattle.gd_lookup.specs.Finding.{AbsentTells, PresentTells, ReadIsKeyBucket, SlotsLieIn};

/// A bucket that is read at the address of the entry of a key has the slots in which the key belongs.
pub fn bucket_of_key()
    ensures { ReadIsKeyBucket }
{}

/// A slot of a key has the value of the key, and where no slot is one of the key the map lacks it.
pub fn look_up_tells()
    ensures present { PresentTells }
    ensures absent { AbsentTells }
    ensures inside { SlotsLieIn }
{}
