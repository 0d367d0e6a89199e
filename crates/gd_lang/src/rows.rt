//! The table of commands.

ghost use Rattle.std.specs.Prelude.{◌≡◌, map, true};
ghost use Rattle.gd_types.specs.Lookups.{found_in};
ghost use Rattle.gd_lang.specs.Rows.{command_names, is_in_order, row_of};

use gd_types::{Found, Table};

/// The names of the commands, in the order of their bytes.
pub const COMMANDS: Table<30> = Table {
    names: &[
        "atomic",
        "avail",
        "bucket",
        "close",
        "count",
        "define",
        "delete",
        "dir",
        "downgrade",
        "export",
        "fetch",
        "fill",
        "first",
        "hash",
        "header",
        "import",
        "insert",
        "list",
        "next",
        "open",
        "quit",
        "recover",
        "reorganize",
        "set",
        "snapshot",
        "status",
        "store",
        "sync",
        "upgrade",
        "version",
    ],
};

/// What a row of the table is.
#[derive(Clone, Copy, Debug, PartialEq, Eq)]
pub(crate) enum Row {
    /// A command that is not built yet.
    Unbuilt,
    Close,
    Count,
    Delete,
    Fetch,
    Fill,
    First,
    Insert,
    ListAll,
    Next,
    Open,
    Quit,
    Set,
    Store,
    Version,
}

const ROWS: [Row; 30] = [
    Row::Unbuilt,
    Row::Unbuilt,
    Row::Unbuilt,
    Row::Close,
    Row::Count,
    Row::Unbuilt,
    Row::Delete,
    Row::Unbuilt,
    Row::Unbuilt,
    Row::Unbuilt,
    Row::Fetch,
    Row::Fill,
    Row::First,
    Row::Unbuilt,
    Row::Unbuilt,
    Row::Unbuilt,
    Row::Insert,
    Row::ListAll,
    Row::Next,
    Row::Open,
    Row::Quit,
    Row::Unbuilt,
    Row::Unbuilt,
    Row::Set,
    Row::Unbuilt,
    Row::Unbuilt,
    Row::Store,
    Row::Unbuilt,
    Row::Unbuilt,
    Row::Version,
];

/// The names of the rows are those of the definition; each stands before all behind it in the order of their bytes, and is
/// the front of none of them. Nothing is run.
pub fn command_table() -> Table<30>
    ensures names { map (λ name. name.now) result.names.now ≡ command_names }
    ensures order { is_in_order (map (λ name. name.now) result.names.now) ≡ true }
{
    COMMANDS
}

/// The row of whose name a word is the front.
pub fn find_command(word: &[u8]) -> Found
    ensures { result ≡ found_in command_names word.now }
{
    COMMANDS.find(word)
}

pub(crate) fn row_of(row: u32) -> Row
    ensures { result ≡ row_of row }
{
    ROWS.get(row as usize).copied().unwrap_or(Row::Unbuilt)
}
