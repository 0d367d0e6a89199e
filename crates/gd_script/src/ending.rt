//! How the lines of a script ended.

/// How the lines of a script ended.
#[derive(Clone, Copy, Debug, PartialEq, Eq)]
pub enum Ending {
    /// At the end of the input, or at the line of `quit`.
    Read,
    /// The input failed.
    InputFailed,
    /// The input has 2^32 bytes or more.
    TooLong,
    /// The output failed.
    OutputFailed,
    /// Standard error failed.
    ErrorFailed,
    /// No memory was found outside a command.
    Starved,
}
