//! Laws of the texts of dumps and of their readings. Nothing is run.

ghost use Rattle.gd_dump.specs.RoundTrip.{AsciiRoundTrip, BinaryRoundTrip, StandardAlphabet, StrictBase64};

/// What a binary dump of some pairs is read as: a head, these pairs and the end.
pub fn binary_round_trip()
    ensures { BinaryRoundTrip }
{}

/// What an ASCII dump of some pairs is read as: a head with its format and file, these pairs and the end.
pub fn ascii_round_trip()
    ensures { AsciiRoundTrip }
{}

/// A text of a datum is accepted exactly where it is the base64 of some bytes.
pub fn strict_base64()
    ensures { StrictBase64 }
{}

/// The alphabet is that of RFC 4648.
pub fn base64_alphabet()
    ensures { StandardAlphabet }
{}
