//! Laws of typed data. Nothing is run.

ghost use Rattle.gd_types.specs.RoundTrip.{PrintsBack, ScalarsReadBack};

/// The bytes of each row that has a width are read back as the number.
pub fn scalars_read_back()
    ensures { ScalarsReadBack }
{}

/// What words were encoded to is printed as the words, with numbers in decimal.
pub fn words_are_printed_back()
    ensures { PrintsBack }
{}
