//! Members of a definition.

ghost use Rattle.std.specs.Prelude.{◌≡◌, ◌≤◌, ◌^◌};
ghost use Rattle.gd_types.specs.Rows.{kind_of, kind_width};
ghost use Rattle.gd_types.specs.Members.{fits_at, goes_on, has_value, is_float, is_row, is_text, is_within, place_after};

use crate::rows::by_row;

/// The last place that a definition may reach, in bytes.
const LAST_PLACE: u64 = 1 << 48;

/// The greatest number of an `off` or a `pad`.
const WIDEST_GAP: u32 = 65_536;

/// A member of a definition.
#[derive(Clone, Copy, Debug, PartialEq, Eq)]
pub enum Member {
    /// A value of a row of `SCALARS`, counted from 0.
    Row(u32),
    /// A float of 4 bytes, which is neither encoded nor decoded.
    Float,
    /// A float of 8 bytes, which is neither encoded nor decoded.
    Double,
    /// The next member stands at this place of the datum, in bytes from its start.
    Off(u32),
    /// So many bytes are left out.
    Pad(u32),
}

fn number_width<const W: usize, const SIGNED: bool>() -> u64
    requires { W ≤ 8 }
    ensures { result ≡ W }
{
    W as u64
}

/// How many bytes a value of a row takes, without those of a text.
fn row_width(row: u32) -> u64
    ensures width { result ≡ kind_width (kind_of row) }
    ensures small { result ≤ 8 }
{
    by_row!(row, 1, number_width(), 0, 0)
}

impl Member {
    /// The place behind the member where it stands at this one.
    pub(crate) fn place_after(self, at: u64) -> u64
        requires { at ≤ 2 ^ 48 }
        ensures { result ≡ place_after at self }
    {
        match self {
            Member::Row(row) => at + row_width(row),
            Member::Float => at + 4,
            Member::Double => at + 8,
            Member::Off(place) => u64::from(place),
            Member::Pad(count) => at + u64::from(count),
        }
    }

    pub(crate) fn is_text(self) -> bool
        ensures { result ≡ is_text self }
    {
        match self {
            Member::Row(row) => row >= 9,
            _ => false,
        }
    }

    /// Whether it is a value, and no gap.
    pub(crate) fn has_value(self) -> bool
        ensures { result ≡ has_value self }
    {
        match self {
            Member::Off(_) | Member::Pad(_) => false,
            _ => true,
        }
    }

    pub(crate) fn is_row(self) -> bool
        ensures { result ≡ is_row self }
    {
        match self {
            Member::Row(_) => true,
            _ => false,
        }
    }

    pub(crate) fn is_float(self) -> bool
        ensures { result ≡ is_float self }
    {
        match self {
            Member::Float | Member::Double => true,
            _ => false,
        }
    }

    fn is_within(self) -> bool
        ensures { result ≡ is_within self }
    {
        match self {
            Member::Row(row) => row < 11,
            Member::Off(place) => place <= WIDEST_GAP,
            Member::Pad(count) => count <= WIDEST_GAP,
            _ => true,
        }
    }

    fn goes_on(self, at: u64) -> bool
        ensures { result ≡ goes_on at self }
    {
        match self {
            Member::Off(place) => at <= u64::from(place),
            _ => true,
        }
    }

    /// Whether it may stand at this place.
    pub(crate) fn fits_at(self, at: u64) -> bool
        requires { at ≤ 2 ^ 48 }
        ensures { result ≡ fits_at at self }
    {
        self.is_within() && self.goes_on(at) && self.place_after(at) <= LAST_PLACE
    }
}
