//! The arms over the rows of scalars.

/// What a row does: the arms of the table's eleven rows, in their order. `$number` is called with the width of the row's
/// numbers in bytes, and whether they are signed.
macro_rules! by_row {
    ($row:expr, $char:expr, $number:ident($($argument:expr),*), $string:expr, $stringz:expr) => {
        match $row {
            0 => $char,
            1 => $number::<2, true>($($argument),*),
            2 => $number::<2, false>($($argument),*),
            3 => $number::<4, true>($($argument),*),
            4 => $number::<4, false>($($argument),*),
            5 => $number::<8, true>($($argument),*),
            6 => $number::<8, false>($($argument),*),
            7 => $number::<8, true>($($argument),*),
            8 => $number::<8, false>($($argument),*),
            9 => $string,
            _ => $stringz,
        }
    };
}

pub(crate) use by_row;
