//! Tables of names.

ghost use Rattle.std.specs.Prelude.{◌≡◌, ◌^◌, ◌<◌, length, map};
ghost use Rattle.gd_types.specs.Lookups.{found_in};

/// `N` names in rows, which are counted from 0.
#[derive(Clone, Copy, Debug)]
pub struct Table<const N: usize> {
    pub names: &'static [&'static str],
    ghost rows: { length names.now ≡ N },
}

/// The rows of a table that a word names.
#[derive(Clone, Copy, Debug, PartialEq, Eq)]
pub enum Found {
    Missing,
    /// The only one, counted from 0.
    One(u32),
    Several,
}

impl<const N: usize> Table<N> {
    /// The row of whose name the word is a prefix.
    pub fn find(&self, word: &[u8]) -> Found
        requires { N < 2 ^ 32 }
        ensures { result ≡ found_in (map (λ name. name.now) self.now.names.now) word.now }
    {
        find_in(self.names, word)
    }
}

fn find_in(names: &[&str], word: &[u8]) -> Found
    requires { length names.now < 2 ^ 32 }
    ensures { result ≡ found_in (map (λ name. name.now) names.now) word.now }
{
    let mut found = Found::Missing;
    for row in 0..names.len() {
        if names[row].as_bytes().starts_with(word) {
            match found {
                Found::Missing => found = Found::One(row as u32),
                _ => return Found::Several,
            }
        }
    }
    found
}
