//! Laws of what is read and written. No program calls these.

ghost use Rattle.gd_layout.specs.Lawful.{HeaderFits};

/// A header without a fault can be written again.
pub fn header_fits()
    ensures { HeaderFits }
{}
