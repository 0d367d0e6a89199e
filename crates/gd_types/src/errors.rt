//! Why typed data are refused.

/// Why words or a datum do not fit a definition.
#[derive(Clone, Copy, Debug, PartialEq, Eq)]
pub enum TypeError {
    /// A member is a float or a double.
    FloatMember,
    /// A number that the type doesn't hold.
    Range,
    /// A datum that is too short for its members, or has no NUL where a text is to end in one.
    Short,
    /// A datum that is longer than its members, or has bytes behind the NUL that ends it.
    Trailing,
    /// A word that is no value of its type, or another number of words than there are values.
    Text,
}

/// Why words were not encoded.
#[derive(Clone, Copy, Debug, PartialEq, Eq)]
pub enum EncodeError {
    Typed(TypeError),
    OutOfMemory,
}

/// Why a datum was not printed.
#[derive(Clone, Copy, Debug, PartialEq, Eq)]
pub enum DecodeError {
    Typed(TypeError),
    /// The sink failed.
    Failed,
}
