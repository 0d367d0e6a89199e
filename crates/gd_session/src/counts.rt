//! What a list of stores did.

ghost use Rattle.std.specs.Prelude.{◌≡◌, ◌+◌, ◌<◌, ◌^◌};
ghost use Rattle.gd_session.specs.Texts.{tally};

/// How many pairs were new, how many replaced one, and how many bytes all of them have.
#[derive(Clone, Copy, Debug)]
pub(crate) struct Counts {
    pub(crate) added: u64,
    pub(crate) replaced: u64,
    pub(crate) bytes: u64,
}

impl Counts {
    /// Counts one more pair of so many bytes.
    pub(crate) fn add(&mut self, replaced: bool, size: u64)
        requires added { self.old.added + 1 < 2 ^ 64 }
        requires replaced { self.old.replaced + 1 < 2 ^ 64 }
        requires bytes { self.old.bytes + size < 2 ^ 64 }
        ensures { self.new ≡ tally replaced size self.old }
    {
        if replaced {
            self.replaced += 1;
        } else {
            self.added += 1;
        }
        self.bytes += size;
    }
}
