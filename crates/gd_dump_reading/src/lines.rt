//! Lines of a dump.

ghost use Rattle.std.specs.Prelude.{◌≡◌};
ghost use Rattle.gd_dump_reading.specs.Lines.{contains, is_overlong};

/// Is the line too long, where a line feed ends it or not?
pub fn overlong(line: &[u8], ended: bool) -> bool
    ensures { result ≡ is_overlong ended line.now }
{
    let counted = if ended && line.ends_with(b"\r") {
        line.len() - 1
    } else {
        line.len()
    };
    counted > 65_536
}

/// Does a part stand somewhere in the line?
pub fn contains_part(line: &[u8], part: &[u8]) -> bool
    ensures { result ≡ contains part.now line.now }
{
    for at in 0..line.len() {
        if line[at..].starts_with(part) {
            return true;
        }
    }
    part.is_empty()
}
