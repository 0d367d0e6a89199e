use crate::{Found, SCALARS, Table};

const COMMANDS: Table<4> = Table {
    names: &["fetch", "fill", "first", "list"],
};

#[test]
fn a_word_finds_the_row_that_it_begins(rt: HostRuntime) {
    let rows = [
        ("fetch", Found::One(0)),
        ("fe", Found::One(0)),
        ("fi", Found::Several),
        ("fir", Found::One(2)),
        ("l", Found::One(3)),
        ("", Found::Several),
        ("lists", Found::Missing),
        ("x", Found::Missing),
    ];
    for (word, found) in rows {
        assert_eq!(rt; COMMANDS.find(word.as_bytes()), found, "{word}");
    }
}

#[test]
fn the_rows_of_scalars_have_their_names(rt: HostRuntime) {
    let rows = [
        ("char", Found::One(0)),
        ("short", Found::One(1)),
        ("ushort", Found::One(2)),
        ("int", Found::One(3)),
        ("unsigned", Found::One(4)),
        ("long", Found::One(5)),
        ("ulong", Found::One(6)),
        ("llong", Found::One(7)),
        ("ullong", Found::One(8)),
        ("string", Found::Several),
        ("stringz", Found::One(10)),
        ("double", Found::Missing),
    ];
    for (word, found) in rows {
        assert_eq!(rt; SCALARS.find(word.as_bytes()), found, "{word}");
    }
}
