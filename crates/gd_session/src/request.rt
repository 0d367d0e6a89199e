//! What is asked of a database, by a command whose arguments were read.

ghost use Rattle.std.specs.Prelude.{◌≡◌};
ghost use Rattle.gd_session.specs.Requests.{keyed_request};

use gd_base::Datum;
use gd_store::How;

/// What is asked of a database.
#[derive(Drop)]
pub(crate) enum Request {
    Count,
    Fetch(Datum),
    First,
    /// The record after a key, or after the key last printed.
    Next(Option<Datum>),
    List,
    Store(How, Datum, Datum),
    Delete(Datum),
    /// The start, and how many records.
    Fill(u64, u64),
}

/// A command with a key.
#[derive(Clone, Copy, PartialEq, Eq)]
pub(crate) enum Keyed {
    Fetch,
    Next,
    Delete,
}

impl Keyed {
    /// What it asks of a database.
    pub(crate) fn request(self, key: Datum) -> Request
        ensures { result ≡ keyed_request self key }
    {
        match self {
            Keyed::Fetch => Request::Fetch(key),
            Keyed::Next => Request::Next(Some(key)),
            Keyed::Delete => Request::Delete(key),
        }
    }
}
