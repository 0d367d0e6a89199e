//! Laws of a new file. No program calls these.

ghost use Rattle.gd_create.specs.Laws.{NewFileIsSound, NewHeaderFits};

/// A new file is sound and has no records.
pub fn new_file_is_sound()
    ensures sound { NewFileIsSound }
    ensures header { NewHeaderFits }
{}
