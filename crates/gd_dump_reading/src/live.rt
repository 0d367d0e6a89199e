//! Lines of an ASCII dump that have no end yet: what they may still become.

ghost use Rattle.std.specs.Prelude.{◌≡◌};
ghost use Rattle.std.specs.Char.{is_ascii_digit};
ghost use Rattle.std.specs.List.{list_all};
ghost use Rattle.gd_dump_reading.specs.Live.{agrees, data_live, ends_in, line_shown, live_number, parameter_shown};

use crate::ascii_machine::AsciiPhase;
use crate::items::DumpKind;
use crate::lines::overlong;

/// What the front of a line shows.
#[derive(Clone, Copy, Debug, PartialEq, Eq)]
pub enum Shown {
    /// The line is refused, whatever comes.
    Bad(DumpKind),
    /// It is a comment, whatever comes.
    Comment,
    Open,
}

// Does the one begin with the other?
fn agrees(line: &[u8], pattern: &[u8]) -> bool
    ensures { result ≡ agrees pattern.now line.now }
{
    line.starts_with(pattern) || pattern.starts_with(line)
}

fn all_digits(text: &[u8]) -> bool
    ensures { result ≡ list_all is_ascii_digit text.now }
{
    text.iter().all(|b| b.is_ascii_digit())
}

// May it become such words with a number of at most so many digits behind them?
fn live_number(line: &[u8], pattern: &[u8], most: usize) -> bool
    ensures { result ≡ live_number pattern.now most line.now }
{
    if !agrees(line, pattern) {
        return false;
    }
    if line.len() <= pattern.len() {
        return true;
    }
    let digits = &line[pattern.len()..];
    digits.len() <= most && all_digits(digits)
}

// May it become a line between data, where a key waits for its value or not?
fn data_live(waits: bool, line: &[u8]) -> bool
    ensures { result ≡ data_live waits line.now }
{
    live_number(line, b"#:len=", 10) || !waits && live_number(line, b"#:count=", 20)
}

// May it become the last line of the head, or of the data?
fn ends_in(phase: AsciiPhase, line: &[u8]) -> bool
    ensures { result ≡ ends_in phase line.now }
{
    match phase {
        AsciiPhase::Head => b"# End of header".starts_with(line),
        _ => b"# End of data".starts_with(line),
    }
}

// A line that begins with `#:`.
fn show_parameter(phase: AsciiPhase, waits: bool, line: &[u8]) -> Shown
    ensures { result ≡ parameter_shown phase waits line.now }
{
    match phase {
        AsciiPhase::Head if !overlong(line, true) => Shown::Open,
        AsciiPhase::Data if data_live(waits, line) => Shown::Open,
        _ => Shown::Bad(DumpKind::Parameter),
    }
}

/// What the front of a line shows, at a place, in a phase in which lines are followed.
pub fn show_line(phase: AsciiPhase, waits: bool, place: u64, line: &[u8]) -> Shown
    ensures { result ≡ line_shown phase waits place line.now }
{
    if !line.starts_with(b"#") {
        let first = phase == AsciiPhase::Head && place == 0;
        return Shown::Bad(if first {
            DumpKind::Version
        } else {
            DumpKind::Parameter
        });
    }
    if line.starts_with(b"#:") {
        return show_parameter(phase, waits, line);
    }
    if ends_in(phase, line) {
        Shown::Open
    } else {
        Shown::Comment
    }
}
